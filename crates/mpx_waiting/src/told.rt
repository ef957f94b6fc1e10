//! The text of the lines that tell who waits.
ghost use Rattle.std.specs.Prelude.{◌≡◌, ◌++◌, OnOk, bytes_eq, codes, map, take};
ghost use Rattle.std.specs.Option.{option_copied};
ghost use Rattle.mpx_eval.specs.Found.{missing_view, waiting_view};
ghost use Rattle.mpx_waiting.specs.ToldLines.{apart_words, call_text, call_words, calls_in, end_text, more_text, rank_text, ranks_text, request_text, second_word, start_text, waiting_told, what_text, word_in};

use crate::members::push_members;
use crate::number_text::push_decimal;
use crate::places::{line_at, places_of};
use join_core::OutOfMemory;
use mpx_eval::{MissingCall, MissingMember, WaitingRank, started_at};
use mpx_script::{Script, Statement, Word, later_words_of_line, statement_lines, words_of_line};
use std::alloc::Global;

// More calls than these are not told.
const MOST_CALLS: usize = 100;

/// Adds a line for each call that is missing, at most a hundred, and how many more there are. An `Err` is want of memory, and leaves the
/// lines so far.
pub fn push_waiting(
    alloc: Global,
    text: &[u8],
    script: &Script,
    found: &[WaitingRank],
    told: &mut Vec<u8>,
) -> Result<(), OutOfMemory>
    ensures { OnOk result (told.new.items ≡ told.old.items ++ waiting_told text.now script.now.statements (map waiting_view found.now)) }
{
    let places = places_of(alloc, text, found)?;
    push_ranks(alloc, text, script, places.as_slice(), found, told)?;
    push_more(alloc, calls_in(found).saturating_sub(100), told)
}

// Adds the lines of all ranks, at most a hundred.
fn push_ranks(
    alloc: Global,
    text: &[u8],
    script: &Script,
    places: &[(u8, u32)],
    found: &[WaitingRank],
    told: &mut Vec<u8>,
) -> Result<(), OutOfMemory>
    ensures { OnOk result (told.new.items ≡ told.old.items ++ ranks_text text.now script.now.statements places.now 100 (map waiting_view found.now)) }
{
    let mut most = MOST_CALLS;
    for waiting in found {
        push_rank(alloc, text, script, places, most, waiting, told)?;
        most = most.saturating_sub(waiting.calls.len());
    }
    Ok(())
}

// Adds the lines of a rank, at most so many.
fn push_rank(
    alloc: Global,
    text: &[u8],
    script: &Script,
    places: &[(u8, u32)],
    most: usize,
    waiting: &WaitingRank,
    told: &mut Vec<u8>,
) -> Result<(), OutOfMemory>
    ensures { OnOk result (told.new.items ≡ told.old.items ++ rank_text text.now script.now.statements places.now most (waiting_view waiting.now)) }
{
    let calls = first_of(waiting.calls.as_slice(), most);
    if calls.is_empty() {
        return Ok(());
    }
    let statements = script.statements(waiting.rank);
    let numbers = statement_lines(alloc, text, waiting.rank)?;
    let line = line_at(numbers.as_slice(), waiting.statement);
    for call in calls {
        push_call(
            alloc,
            text,
            statements,
            numbers.as_slice(),
            places,
            waiting.rank,
            line,
            call,
            told,
        )?;
    }
    Ok(())
}

/// The first so many of these.
pub fn first_of<T>(all: &[T], most: usize) -> &[T]
    ensures { result.now ≡ take most all.now }
{
    if most < all.len() { &all[..most] } else { all }
}

// How many calls the ranks wait for.
fn calls_in(found: &[WaitingRank]) -> u128
    ensures { result ≡ calls_in (map waiting_view found.now) }
{
    let mut calls = 0u128;
    for waiting in found {
        calls += waiting.calls.len() as u128;
    }
    calls
}

/// Adds that there are so many more, where there are some.
pub fn push_more(alloc: Global, more: u128, told: &mut Vec<u8>) -> Result<(), OutOfMemory>
    ensures { OnOk result (told.new.items ≡ told.old.items ++ more_text more) }
{
    if more == 0 {
        return Ok(());
    }
    let line = format!(in alloc; "and {more} more\n")?;
    told.extend_from_slice(line.as_bytes())?;
    Ok(())
}

// Adds the line of a call that a rank with these statements and their lines waits for at a line.
fn push_call(
    alloc: Global,
    text: &[u8],
    statements: &[Statement],
    numbers: &[u32],
    places: &[(u8, u32)],
    rank: u8,
    line: u32,
    call: &MissingCall,
    told: &mut Vec<u8>,
) -> Result<(), OutOfMemory>
    ensures { OnOk result (told.new.items ≡ told.old.items ++ call_text text.now statements.now numbers.now places.now rank line (missing_view call.now)) }
{
    push_start(alloc, rank, line, told)?;
    push_what(
        alloc,
        text,
        statements,
        numbers,
        line,
        call.request.as_ref(),
        told,
    )?;
    push_end(alloc, places, call.call, call.missing.as_slice(), told)
}

/// Adds how a line begins that tells of a rank at a line.
pub fn push_start(alloc: Global, rank: u8, line: u32, told: &mut Vec<u8>) -> Result<(), OutOfMemory>
    ensures { OnOk result (told.new.items ≡ told.old.items ++ start_text rank line) }
{
    told.extend_from_slice(b"rank ")?;
    push_decimal(alloc, told, u32::from(rank))?;
    told.extend_from_slice(b", line ")?;
    push_decimal(alloc, told, line)?;
    told.extend_from_slice(b": ")?;
    Ok(())
}

// Adds how it ends: the call's number, and the ranks that have not posted to it.
fn push_end(
    alloc: Global,
    places: &[(u8, u32)],
    call: u32,
    missing: &[MissingMember],
    told: &mut Vec<u8>,
) -> Result<(), OutOfMemory>
    ensures { OnOk result (told.new.items ≡ told.old.items ++ end_text places.now call missing.now) }
{
    told.extend_from_slice(b", call ")?;
    push_decimal(alloc, told, call)?;
    told.extend_from_slice(b": waits for ")?;
    push_members(alloc, places, missing, told)?;
    told.extend_from_slice(b"\n")?;
    Ok(())
}

// Adds the call that is waited for at a line: that of the line itself, or of a request.
fn push_what(
    alloc: Global,
    text: &[u8],
    statements: &[Statement],
    numbers: &[u32],
    line: u32,
    request: Option<&Word>,
    told: &mut Vec<u8>,
) -> Result<(), OutOfMemory>
    ensures { OnOk result (told.new.items ≡ told.old.items ++ what_text text.now statements.now numbers.now line (option_copied request.entry)) }
{
    match request {
        None => push_words(text, line, told),
        Some(word) => {
            let started = line_at(numbers, started_at(statements, word.as_bytes()));
            push_request(alloc, text, line, word, started, told)
        }
    }
}

// Adds a request that is waited for at a line, and the call that stands in the line in which it is started.
fn push_request(
    alloc: Global,
    text: &[u8],
    line: u32,
    request: &Word,
    started: u32,
    told: &mut Vec<u8>,
) -> Result<(), OutOfMemory>
    ensures { OnOk result (told.new.items ≡ told.old.items ++ request_text text.now line request.now started) }
{
    told.extend_from_slice(second_word(text, line))?;
    told.extend_from_slice(b" ")?;
    told.extend_from_slice(request.as_bytes())?;
    told.extend_from_slice(b", for ")?;
    push_words(text, started, told)?;
    told.extend_from_slice(b" of line ")?;
    push_decimal(alloc, told, started)
}

// The second word of a line.
fn second_word(text: &[u8], line: u32) -> &[u8]
    ensures { result.now ≡ second_word text.now line }
{
    words_of_line(text, line).0.unwrap_or(&[])
}

// Adds the words of a line's call and of its communicator, and what tells it apart from others of its word.
fn push_words(text: &[u8], line: u32, told: &mut Vec<u8>) -> Result<(), OutOfMemory>
    ensures { OnOk result (told.new.items ≡ told.old.items ++ call_words text.now line) }
{
    let (second, third) = words_of_line(text, line);
    told.extend_from_slice(second.unwrap_or(&[]))?;
    told.extend_from_slice(b" ")?;
    told.extend_from_slice(third.unwrap_or(&[]))?;
    push_apart(text, line, told)
}

// Adds what tells calls of one word on one communicator apart: of `create_group` the tag and the ranks.
fn push_apart(text: &[u8], line: u32, told: &mut Vec<u8>) -> Result<(), OutOfMemory>
    ensures { OnOk result (told.new.items ≡ told.old.items ++ apart_words text.now line) }
{
    if is_gathered(second_word(text, line)) {
        return push_later(text, line, told);
    }
    Ok(())
}

// Whether a call's own word says that it is told apart so.
fn is_gathered(word: &[u8]) -> bool
    ensures { result ≡ bytes_eq word.now (codes "create_group") }
{
    word == b"create_group".as_slice()
}

// Adds the fourth and the fifth word of a line.
fn push_later(text: &[u8], line: u32, told: &mut Vec<u8>) -> Result<(), OutOfMemory>
    ensures { OnOk result (told.new.items ≡ told.old.items ++ (codes " " ++ word_in text.now line 3 ++ codes " " ++ word_in text.now line 4)) }
{
    let (tag, ranks) = later_words_of_line(text, line);
    told.extend_from_slice(b" ")?;
    told.extend_from_slice(tag.unwrap_or(&[]))?;
    told.extend_from_slice(b" ")?;
    told.extend_from_slice(ranks.unwrap_or(&[]))?;
    Ok(())
}
