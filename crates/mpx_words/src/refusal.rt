//! Why words ask for no job.
ghost use Rattle.std.specs.Prelude.{◌≡◌, ◌⊎◌, IfOk, map, string_bytes};
ghost use Rattle.clap.specs.Words.{HasKind, kind_of};
ghost use Rattle.mpx_words.specs.Usage.{refusal_kinds};
ghost use Rattle.mpx_words.specs.Words.{complaint, complaint_alone, complaint_of, is_of, limits_of};

use crate::advice::told_instead;
use crate::command::{is_in_one_word, job_in, usual, with_option, with_whole};
use crate::program::{named, program};
use clap::Error;
use clap::error::ErrorKind;
use std::alloc::{AllocError, Global};

// Why the words ask for no job: clap's refusal, or what the first option that gives none should be followed by.
pub(crate) fn no_job(alloc: Global, words: &[String]) -> Error
    ensures { HasKind (refusal_kinds (map string_bytes words.now)) result }
{
    let Ok(program) = program(alloc) else {
        return Error::from(AllocError);
    };
    match program.try_get_matches_from(words) {
        Ok(_) => refusal(alloc, words, ErrorKind::InvalidValue, complaint_of(words)),
        Err(refusal) => with_advice(alloc, words, refusal),
    }
}

// The refusal, which tells how a file is handed in where the words name one.
fn with_advice(alloc: Global, words: &[String], refused: Error) -> Error
    ensures { (kind_of result ≡ kind_of refused) ⊎ (kind_of result ≡ ErrorKind.OutOfMemory) }
{
    match told_instead(alloc, refused.kind(), words) {
        Ok(Some(text)) => refusal(alloc, words, refused.kind(), text.as_str()),
        Ok(None) => refused,
        Err(error) => Error::from(error),
    }
}

/// What is said of words that `clap` takes though they ask for nothing: what the first option that gives none is followed by,
/// that the command has no such options, or that a run is shown in one way.
pub fn complaint_of(words: &[String]) -> &'static str
    ensures { result.now ≡ complaint_of (map string_bytes words.now) }
{
    if job_in(words).is_some() {
        ONE_VIEW
    } else {
        complaint_alone(words)
    }
}

const ONE_VIEW: &str =
    "--trace and --table show a simulated run: give one of them, without --threads";

// What is said of words that ask for no job.
fn complaint_alone(words: &[String]) -> &'static str
    ensures { result.now ≡ complaint_alone (map string_bytes words.now) }
{
    match words {
        [] => STANDS_ALONE,
        [_] => STANDS_ALONE,
        [_, command, options @ ..] => {
            if command.as_bytes() == b"run".as_slice() {
                complaint(options)
            } else {
                STANDS_ALONE
            }
        }
    }
}

const STANDS_ALONE: &str = "this command stands alone, but for --strict and --explain";

// What is wrong with the first of these options that gives none.
fn complaint(words: &[String]) -> &'static str
    ensures { result.now ≡ complaint (map string_bytes words.now) }
{
    let mut rest = words;
    while let [option, behind @ ..] = rest {
        if is_in_one_word(option.as_bytes()) {
            let Some(_) = with_whole(usual(), option.as_bytes()) else {
                return limits_of(option.as_bytes());
            };
            rest = behind;
            continue;
        }
        let [_, value, more @ ..] = rest else {
            return NO_PAIR;
        };
        let Some(_) = with_option(usual(), option.as_bytes(), value.as_bytes()) else {
            return limits_of(option.as_bytes());
        };
        rest = more;
    }
    NO_PAIR
}

const NO_PAIR: &str =
    "--seed, --loss, --relays, --turns and --workers are each followed by a number, and the other options stand alone";

// Whether the word is an option of this name, with or without its number behind `=`.
fn is_of(option: &[u8], name: &[u8], joined: &[u8]) -> bool
    ensures { result ≡ is_of option.now name.now joined.now }
{
    option == name || option.starts_with(joined)
}

// What an option is followed by.
pub(crate) fn limits_of(option: &[u8]) -> &'static str
    ensures { result.now ≡ limits_of option.now }
{
    if is_of(option, b"--seed", b"--seed=") {
        return "--seed is followed by a number from 0 to 18446744073709551615";
    }
    if is_of(option, b"--loss", b"--loss=") {
        return "--loss is followed by a number from 0 to 100";
    }
    if is_of(option, b"--relays", b"--relays=") {
        return "--relays is followed by a number from 0 to 63";
    }
    if is_of(option, b"--turns", b"--turns=") {
        return "--turns is followed by a number from 1 to 10000000";
    }
    if is_of(option, b"--workers", b"--workers=") {
        return "--workers is followed by a number from 1 to 64";
    }
    NO_PAIR
}

/// The refusal of words of which one is no text.
pub fn not_text(alloc: Global) -> Error
    ensures { (kind_of result ≡ ErrorKind.InvalidValue) ⊎ (kind_of result ≡ ErrorKind.OutOfMemory) }
{
    refusal(
        alloc,
        &[],
        ErrorKind::InvalidValue,
        "an argument is not valid UTF-8",
    )
}

// A refusal with the usage of the command that the words name.
fn refusal(alloc: Global, words: &[String], kind: ErrorKind, message: &str) -> Error
    ensures { (kind_of result ≡ kind) ⊎ (kind_of result ≡ ErrorKind.OutOfMemory) }
{
    match error(alloc, words, kind, message) {
        Ok(error) => error,
        Err(error) => Error::from(error),
    }
}

fn error(
    alloc: Global,
    words: &[String],
    kind: ErrorKind,
    message: &str,
) -> Result<Error, AllocError>
    ensures { IfOk result (λ e. kind_of e ≡ kind) }
{
    let mut command = match words {
        [_, name, ..] => named(alloc, name.as_bytes())?,
        _ => program(alloc)?,
    };
    let error = command.error(kind, message);
    drop(command);
    error
}
