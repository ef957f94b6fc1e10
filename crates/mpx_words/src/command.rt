//! The words of a call, and what they ask for.
ghost use Rattle.std.specs.Prelude.{◌≡◌, ◌≤◌, IfErr, IfOk, IfSome, None, Some, bytes_eq, drop, length, map, string_bytes};
ghost use Rattle.std.specs.List.{list_all, list_any};
ghost use Rattle.clap.specs.Words.{HasKind};
ghost use Rattle.mpx_words.specs.Usage.{refusal_kinds};
ghost use Rattle.mpx_words.specs.Words.{alone, fitting, flags_behind, flags_of, invocation_in, is_common, is_flag, is_in_one_word, job_in, name_length, number_within, options_in, usual, with_flag, with_option, with_whole};

use crate::invocation::{Flags, Invocation};
use crate::refusal::no_job;
use clap::Error;
use mpx_num::parse_number;
use mpx_statement::{Command, Job, Options};
use std::alloc::Global;

/// What `words` ask for, of which the first is the program's own name and the second the command's: `run` with `--threads`, `--seed N`
/// (any u64, else 1), `--loss P` (0 to 100, else 0), `--relays N` (0 to 63, else 0), `--turns N` (1 to 10,000,000, else 100,000), `--workers N` (1 to 64), and
/// `--trace` or `--table`, neither with `--threads`; or `eval` or `check`. Each command may have `--strict` and `--explain`. `--seed=N`
/// is `--seed N`, and so of each option with a number. Of an option that is given twice the last counts. A refusal has clap's text, or
/// is want of memory.
pub fn call_of(alloc: Global, words: &[String]) -> Result<Invocation, Error>
    ensures ok { IfOk result (λ call. invocation_in (map string_bytes words.now) ≡ Some call) }
    ensures err { IfErr result (λ e. invocation_in (map string_bytes words.now) ≡ None) }
    ensures kind { IfErr result (HasKind (refusal_kinds (map string_bytes words.now))) }
{
    match invocation_in(words) {
        Some(call) => Ok(call),
        None => Err(no_job(alloc, words)),
    }
}

/// The same without a word on why they ask for nothing, which takes no memory.
pub fn invocation_in(words: &[String]) -> Option<Invocation>
    ensures { result ≡ invocation_in (map string_bytes words.now) }
{
    let job = job_in(words)?;
    fitting(job, flags_behind(words))
}

// A job with what is asked for beside it: a simulated run is shown in one way.
fn fitting(job: Job, flags: Flags) -> Option<Invocation>
    ensures { result ≡ fitting job flags }
{
    if !((flags.trace || flags.table) && job.options.threads) && !(flags.trace && flags.table) {
        Some(Invocation { job, flags })
    } else {
        None
    }
}

/// What the words ask for beside a job, behind the program's name and the command's.
pub fn flags_behind(words: &[String]) -> Flags
    ensures { result ≡ flags_behind (map string_bytes words.now) }
{
    match words {
        [] => flags_of(&[]),
        [_] => flags_of(&[]),
        [_, _, rest @ ..] => flags_of(rest),
    }
}

// What these words ask for beside a job.
fn flags_of(words: &[String]) -> Flags
    ensures { result ≡ flags_of (map string_bytes words.now) }
{
    Flags {
        strict: has(words, b"--strict"),
        explain: has(words, b"--explain"),
        trace: has(words, b"--trace"),
        table: has(words, b"--table"),
    }
}

// Whether a word stands among these.
fn has(words: &[String], flag: &[u8]) -> bool
    ensures { result ≡ list_any (λ word. bytes_eq word flag.now) (map string_bytes words.now) }
{
    let mut rest = words;
    while let [word, more @ ..] = rest {
        if word.as_bytes() == flag {
            return true;
        }
        rest = more;
    }
    false
}

pub(crate) fn job_in(words: &[String]) -> Option<Job>
    ensures { result ≡ job_in (map string_bytes words.now) }
{
    match words {
        [] => None,
        [_] => None,
        [_, command, rest @ ..] => {
            let command = command.as_bytes();
            if command == b"run".as_slice() {
                let options = options_in(usual(), rest)?;
                return Some(Job {
                    command: Command::Run,
                    options,
                });
            }
            if command == b"eval".as_slice() {
                return alone(Command::Eval, rest);
            }
            if command == b"check".as_slice() {
                return alone(Command::Check, rest);
            }
            None
        }
    }
}

// A command that has no options but those of each command.
fn alone(command: Command, words: &[String]) -> Option<Job>
    ensures { result ≡ alone command (map string_bytes words.now) }
{
    if !are_common(words) {
        return None;
    }
    Some(Job {
        command,
        options: usual(),
    })
}

// Whether each of the words is one that each command may have.
fn are_common(words: &[String]) -> bool
    ensures { result ≡ list_all is_common (map string_bytes words.now) }
{
    let mut rest = words;
    while let [word, more @ ..] = rest {
        if !is_common(word.as_bytes()) {
            return false;
        }
        rest = more;
    }
    true
}

// Without options.
pub(crate) fn usual() -> Options
    ensures { result ≡ usual }
{
    Options {
        threads: false,
        seed: 1,
        loss: 0,
        relays: 0,
        turns: 100_000,
        workers: None,
    }
}

// These options with those that the words give: some words alone, each other option with its number behind `=` or as the next word.
fn options_in(options: Options, words: &[String]) -> Option<Options>
    ensures { result ≡ options_in options (map string_bytes words.now) }
{
    let mut read = options;
    let mut rest = words;
    while let [option, behind @ ..] = rest {
        if is_in_one_word(option.as_bytes()) {
            read = with_whole(read, option.as_bytes())?;
            rest = behind;
            continue;
        }
        let [_, value, more @ ..] = rest else {
            return None;
        };
        read = with_option(read, option.as_bytes(), value.as_bytes())?;
        rest = more;
    }
    Some(read)
}

// Whether the word is an option that is whole in one word.
pub(crate) fn is_in_one_word(word: &[u8]) -> bool
    ensures { result ≡ is_in_one_word word.now }
{
    is_flag(word) || name_length(word) < word.len()
}

// These options with that one.
pub(crate) fn with_whole(options: Options, word: &[u8]) -> Option<Options>
    ensures { result ≡ with_whole options word.now }
{
    if is_flag(word) {
        return Some(with_flag(options, word));
    }
    let end = name_length(word);
    let (name, _) = word.split_at(end);
    with_option(options, name, behind(word, end + 1))
}

// Whether the word is an option of `run` that stands alone.
pub(crate) fn is_flag(word: &[u8]) -> bool
    ensures { result ≡ is_flag word.now }
{
    word == b"--threads".as_slice()
        || word == b"--trace".as_slice()
        || word == b"--table".as_slice()
        || is_common(word)
}

// Whether each command may have the word.
pub(crate) fn is_common(word: &[u8]) -> bool
    ensures { result ≡ is_common word.now }
{
    word == b"--strict".as_slice() || word == b"--explain".as_slice()
}

// These options with that one.
fn with_flag(options: Options, word: &[u8]) -> Options
    ensures { result ≡ with_flag options word.now }
{
    if word == b"--threads".as_slice() {
        Options {
            threads: true,
            ..options
        }
    } else {
        options
    }
}

// How many bytes stand before the first `=`.
fn name_length(word: &[u8]) -> usize
    ensures length { result ≡ name_length word.now }
    ensures within { result ≤ length word.now }
{
    word.iter().take_while(|byte| **byte != b'=').count()
}

// What stands behind so many bytes.
fn behind(word: &[u8], count: usize) -> &[u8]
    ensures { result.now ≡ drop count word.now }
{
    word.get(count..).unwrap_or(&[])
}

// These options with one more that has a number.
pub(crate) fn with_option(options: Options, option: &[u8], value: &[u8]) -> Option<Options>
    ensures { result ≡ with_option options option.now value.now }
{
    if option == b"--seed".as_slice() {
        let seed = number_within(0, u64::MAX, value)?;
        return Some(Options { seed, ..options });
    }
    if option == b"--loss".as_slice() {
        let loss = number_within(0, 100, value)? as u8;
        return Some(Options { loss, ..options });
    }
    if option == b"--relays".as_slice() {
        let relays = number_within(0, 63, value)? as u8;
        return Some(Options { relays, ..options });
    }
    if option == b"--turns".as_slice() {
        let turns = number_within(1, 10_000_000, value)? as u32;
        return Some(Options { turns, ..options });
    }
    if option == b"--workers".as_slice() {
        let workers = Some(number_within(1, 64, value)? as u8);
        return Some(Options { workers, ..options });
    }
    None
}

// The number that a word is, from the least to the most.
fn number_within(least: u64, most: u64, word: &[u8]) -> Option<u64>
    ensures number { result ≡ number_within least most word.now }
    ensures most { IfSome result (λ n. n ≤ most) }
{
    let number = parse_number(word)?;
    if i128::from(least) <= number && number <= i128::from(most) {
        Some(number as u64)
    } else {
        None
    }
}
