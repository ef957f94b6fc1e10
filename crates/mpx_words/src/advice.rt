//! What is said of words that name a file, though a script is read from the standard input alone, or a number of ranks, though the
//! script tells it; of an option of `run` behind another command, and of a number below 0 behind an option.
ghost use Rattle.std.specs.Prelude.{◌≡◌, IfOk, false, map, option_map, string_bytes};
ghost use Rattle.std.specs.Option.{option_copied};
ghost use Rattle.mpx_words.specs.Advice.{advice, advice_first, advice_of, asks_ranks, awaits_behind, begins_below_zero, below_zero, file_advice, first_surplus, foreign, foreign_advice, is_file, is_joined, is_option, is_plain, is_run, of_run, ranks_advice, shown, stands_alone, strange_option, surplus, surplus_alone, surplus_behind, told_instead};

use crate::command::{is_common, is_flag};
use crate::refusal::limits_of;
use clap::error::ErrorKind;
use mpx_num::parse_number;
use std::alloc::{AllocError, Global};

/// What is said of words of which one names a file, or a number of ranks, behind a command and its options or in a command's place:
/// how the file is handed in, or where the number stands. None is said of other words.
pub fn advice_of(alloc: Global, words: &[String]) -> Result<Option<String>, AllocError>
    ensures { IfOk result (λ said. option_map string_bytes said ≡ advice_of (map string_bytes words.now)) }
{
    match words {
        [] => Ok(None),
        [_] => Ok(None),
        [_, command, rest @ ..] => {
            if is_run(command.as_bytes()) {
                return advice_behind(alloc, command.as_str(), surplus_behind(rest));
            }
            if stands_alone(command.as_bytes()) {
                return advice_behind(alloc, command.as_str(), surplus_alone(rest));
            }
            advice_first(alloc, command.as_str())
        }
    }
}

// What is told in place of clap's text of a refusal of this kind.
pub(crate) fn told_instead(
    alloc: Global,
    kind: ErrorKind,
    words: &[String],
) -> Result<Option<String>, AllocError>
    ensures { IfOk result (λ told. option_map string_bytes told ≡ told_instead kind (map string_bytes words.now)) }
{
    match kind {
        ErrorKind::UnknownArgument => match advice_of(alloc, words)? {
            Some(said) => Ok(Some(said)),
            None => strange_option(alloc, words),
        },
        ErrorKind::InvalidSubcommand => advice_of(alloc, words),
        _ => Ok(None),
    }
}

/// What is said of words of which one is a number below 0 behind an option of `run`, or an option of `run` behind another command: the
/// option's limits, or whose it is. None is said of other words.
pub fn strange_option(alloc: Global, words: &[String]) -> Result<Option<String>, AllocError>
    ensures { IfOk result (λ said. option_map string_bytes said ≡ strange_option (map string_bytes words.now)) }
{
    match words {
        [] => Ok(None),
        [_] => Ok(None),
        [_, command, rest @ ..] => {
            if is_run(command.as_bytes()) {
                return said_of(alloc, below_zero(rest));
            }
            if stands_alone(command.as_bytes()) {
                return foreign_advice(alloc, foreign(rest));
            }
            Ok(None)
        }
    }
}

// The text, where there is one.
fn said_of(alloc: Global, said: Option<&str>) -> Result<Option<String>, AllocError>
    ensures { IfOk result (λ text. option_map string_bytes text ≡ option_copied said.entry) }
{
    match said {
        Some(said) => Ok(Some(String::from_str(alloc, said)?)),
        None => Ok(None),
    }
}

// The limits of the first option behind which a number below 0 stands.
fn below_zero(words: &[String]) -> Option<&'static str>
    ensures { option_map (λ said. said.now) result ≡ below_zero (map string_bytes words.now) }
{
    let mut rest = words;
    while let [option, more @ ..] = rest {
        if is_option(option.as_bytes()) && begins_below_zero(more) {
            return Some(limits_of(option.as_bytes()));
        }
        rest = more;
    }
    None
}

// Whether the first word is a number below 0.
fn begins_below_zero(words: &[String]) -> bool
    ensures { result ≡ begins_below_zero (map string_bytes words.now) }
{
    match words {
        [] => false,
        [word, ..] => { !is_plain(word.as_bytes()) && parse_number(word.as_bytes()).is_some() }
    }
}

// The first word behind those that each command may have, where it is an option of `run`.
fn foreign(words: &[String]) -> Option<&str>
    ensures { option_map (λ word. word.now) result ≡ foreign (map string_bytes words.now) }
{
    let mut rest = words;
    while let [word, more @ ..] = rest {
        if !is_common(word.as_bytes()) {
            return of_run(word);
        }
        rest = more;
    }
    None
}

// The word, where it is an option of `run`.
fn of_run(word: &String) -> Option<&str>
    ensures { option_map (λ word. word.now) result ≡ of_run (string_bytes word.now) }
{
    if is_option(word.as_bytes()) || is_flag(word.as_bytes()) || is_joined(word.as_bytes()) {
        Some(word.as_str())
    } else {
        None
    }
}

// What is said of such a word.
fn foreign_advice(alloc: Global, word: Option<&str>) -> Result<Option<String>, AllocError>
    ensures { IfOk result (λ said. option_map string_bytes said ≡ option_map foreign_advice (option_copied word.entry)) }
{
    match word {
        Some(word) => {
            let mut said = String::from_str(alloc, word)?;
            said.push_str(" is an option of run alone")?;
            Ok(Some(said))
        }
        None => Ok(None),
    }
}

// What is said of a word that is no part of an option, if there is one.
fn advice_behind(
    alloc: Global,
    command: &str,
    word: Option<&str>,
) -> Result<Option<String>, AllocError>
    ensures { IfOk result (λ said. option_map string_bytes said ≡ option_map (advice command.now) (option_copied word.entry)) }
{
    match word {
        Some(word) => Ok(Some(advice(alloc, command, word)?)),
        None => Ok(None),
    }
}

// What is said of such a word.
fn advice(alloc: Global, command: &str, word: &str) -> Result<String, AllocError>
    ensures { IfOk result (λ said. string_bytes said ≡ advice command.now word.now) }
{
    if asks_ranks(word.as_bytes()) || parse_number(word.as_bytes()).is_some() {
        String::from_str(alloc, RANKS)
    } else {
        file_advice(alloc, command, word)
    }
}

const RANKS: &str =
    "the script's first line says how many ranks there are, as in 'ranks 4'; --threads stands alone";

// What is said where a command is awaited.
fn advice_first(alloc: Global, word: &str) -> Result<Option<String>, AllocError>
    ensures { IfOk result (λ said. option_map string_bytes said ≡ advice_first word.now) }
{
    if asks_ranks(word.as_bytes()) {
        return Ok(Some(String::from_str(alloc, RANKS)?));
    }
    if is_file(word.as_bytes()) {
        return Ok(Some(file_advice(alloc, "run", word)?));
    }
    Ok(None)
}

// How the file is handed in to the command.
fn file_advice(alloc: Global, command: &str, file: &str) -> Result<String, AllocError>
    ensures { IfOk result (λ said. string_bytes said ≡ file_advice command.now file.now) }
{
    let mut said = String::from_str(
        alloc,
        "no file is named here: the script is read from the standard input, as in 'gossipmpi ",
    )?;
    said.push_str(command)?;
    said.push_str(" < ")?;
    said.push_str(shown(file))?;
    said.push_str("'")?;
    Ok(said)
}

// A file's name as it is shown.
fn shown(file: &str) -> &str
    ensures { result.now ≡ shown file.now }
{
    if file.as_bytes() == b"-".as_slice() {
        "my.job"
    } else {
        file
    }
}

// The word behind the options of `run` that is no part of one.
fn surplus_behind(words: &[String]) -> Option<&str>
    ensures { option_map (λ word. word.now) result ≡ surplus_behind false (map string_bytes words.now) }
{
    let mut awaits = false;
    let mut rest = words;
    while let [word, more @ ..] = rest {
        let Some(next) = awaits_behind(awaits, word.as_bytes()) else {
            return surplus(rest);
        };
        awaits = next;
        rest = more;
    }
    None
}

// The word behind those that each command may have that is no part of an option.
fn surplus_alone(words: &[String]) -> Option<&str>
    ensures { option_map (λ word. word.now) result ≡ surplus_alone (map string_bytes words.now) }
{
    let mut rest = words;
    while let [word, more @ ..] = rest {
        if !is_common(word.as_bytes()) {
            return surplus(rest);
        }
        rest = more;
    }
    None
}

// Whether the word is such an option with its number behind `=`.
fn is_joined(word: &[u8]) -> bool
    ensures { result ≡ is_joined word.now }
{
    word.starts_with(b"--seed=")
        || word.starts_with(b"--loss=")
        || word.starts_with(b"--relays=")
        || word.starts_with(b"--turns=")
        || word.starts_with(b"--workers=")
}

// Whether a number is awaited behind a word of `run`.
fn awaits_behind(awaits: bool, word: &[u8]) -> Option<bool>
    ensures { result ≡ awaits_behind awaits word.now }
{
    if awaits && is_plain(word) {
        return Some(false);
    }
    if is_option(word) {
        return Some(true);
    }
    if is_flag(word) || is_joined(word) {
        Some(false)
    } else {
        None
    }
}

// The first word, or the one behind `--`, if it is plain or says how many ranks there are.
fn surplus(words: &[String]) -> Option<&str>
    ensures { option_map (λ word. word.now) result ≡ surplus (map string_bytes words.now) }
{
    match words {
        [] => None,
        [word, rest @ ..] => {
            if word.as_bytes() == b"--".as_slice() {
                first_surplus(rest)
            } else {
                first_surplus(words)
            }
        }
    }
}

// The first word, if it is such a one.
fn first_surplus(words: &[String]) -> Option<&str>
    ensures { option_map (λ word. word.now) result ≡ first_surplus (map string_bytes words.now) }
{
    match words {
        [] => None,
        [word, ..] => {
            if is_plain(word.as_bytes()) || asks_ranks(word.as_bytes()) {
                Some(word.as_str())
            } else {
                None
            }
        }
    }
}

// Whether the word is `-`, or doesn't begin with it.
fn is_plain(word: &[u8]) -> bool
    ensures { result ≡ is_plain word.now }
{
    word == b"-".as_slice() || !word.starts_with(b"-")
}

// Whether the word says how many ranks there are, where other programs start a run.
fn asks_ranks(word: &[u8]) -> bool
    ensures { result ≡ asks_ranks word.now }
{
    word == b"-n".as_slice() || word == b"-np".as_slice()
}

// Whether the word is an option whose number is the next word.
fn is_option(word: &[u8]) -> bool
    ensures { result ≡ is_option word.now }
{
    word == b"--seed".as_slice()
        || word == b"--loss".as_slice()
        || word == b"--relays".as_slice()
        || word == b"--turns".as_slice()
        || word == b"--workers".as_slice()
}

// Whether the word is the command that has options.
fn is_run(command: &[u8]) -> bool
    ensures { result ≡ is_run command.now }
{
    command == b"run".as_slice()
}

// Whether the word is a command that has none.
fn stands_alone(command: &[u8]) -> bool
    ensures { result ≡ stands_alone command.now }
{
    command == b"eval".as_slice() || command == b"check".as_slice()
}

// Whether the word has a dot or a slash.
fn is_file(word: &[u8]) -> bool
    ensures { result ≡ is_file word.now }
{
    is_plain(word) && (word.contains(&b'.') || word.contains(&b'/'))
}
