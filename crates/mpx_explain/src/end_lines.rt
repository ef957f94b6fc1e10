//! The lines that tell where ranks wait at the end of a run.
ghost use Rattle.std.specs.Prelude.{◌≡◌, ◌++◌, OnOk, Some, map};
ghost use Rattle.std.specs.List.{flat_map};
ghost use Rattle.std.specs.Option.{option_map};
ghost use Rattle.mpx_eval.specs.Found.{missing_view, waiting_view};
ghost use Rattle.mpx_waiting.specs.ToldLines.{line_at, place_of};
ghost use Rattle.mpx_explain.specs.RunEnds.{IsRunTold, earlier_text, earlier_view, first_text, line_words, made_words, number_words, placed_view, run_text, standing_text};

use crate::ended::EndedRun;
use crate::ends::{RunEnd, run_end};
use crate::firsts::EarlierCall;
use join_core::OutOfMemory;
use mpx_eval::{MissingCall, WaitingRank};
use mpx_script::{statement_lines, words_of_line};
use mpx_waiting::{line_at, places_of, push_decimal, push_members, push_start, push_waiting};
use std::alloc::Global;

/// Adds where ranks wait at the end of a run: a line for each call of which a rank's board lacks posts, at most a hundred; one for each earlier
/// call that comes first; one for each rank whose board lacks no post; and one for each rank that has not come to its statement. An `Err` is want
/// of memory, and leaves the lines so far.
pub fn explain_run(
    alloc: Global,
    text: &[u8],
    run: &EndedRun<'_>,
    told: &mut Vec<u8>,
) -> Result<(), OutOfMemory>
    ensures { OnOk result (IsRunTold text.now run.now told.old.items told.new.items) }
{
    let end = run_end(alloc, run)?;
    let pushed = push_end(alloc, text, run, &end, told);
    drop(end);
    pushed
}

// Adds the lines of what was found.
fn push_end(
    alloc: Global,
    text: &[u8],
    run: &EndedRun<'_>,
    end: &RunEnd,
    told: &mut Vec<u8>,
) -> Result<(), OutOfMemory>
    ensures { OnOk result (told.new.items ≡ told.old.items ++ run_text text.now run.now end.now) }
{
    let waiting = end.waiting.as_slice();
    push_waiting(alloc, text, run.script, waiting, told)?;
    push_earlier(alloc, text, end.earlier.as_slice(), waiting, told)?;
    push_places(alloc, text, end.served.as_slice(), SERVED, told)?;
    push_places(alloc, text, end.unmade.as_slice(), UNMADE, told)
}

const SERVED: &[u8] = b"all posts have come, and the run ended before it went on\n";

const UNMADE: &[u8] = b"the run ended before this line\n";

// Adds a line for each of these calls: an earlier one comes first, and whose posts of it the board lacks. The ranks that wait are these.
fn push_earlier(
    alloc: Global,
    text: &[u8],
    earlier: &[EarlierCall],
    waiting: &[WaitingRank],
    told: &mut Vec<u8>,
) -> Result<(), OutOfMemory>
    ensures { OnOk result (told.new.items ≡ told.old.items ++ flat_map (earlier_text text.now (map (place_of text.now) (map waiting_view waiting.now))) (map (earlier_view text.now) earlier.now)) }
{
    let places = places_of(alloc, text, waiting)?;
    let pushed = push_lines(alloc, text, places.as_slice(), earlier, told);
    drop(places);
    pushed
}

fn push_lines(
    alloc: Global,
    text: &[u8],
    places: &[(u8, u32)],
    earlier: &[EarlierCall],
    told: &mut Vec<u8>,
) -> Result<(), OutOfMemory>
    ensures { OnOk result (told.new.items ≡ told.old.items ++ flat_map (earlier_text text.now places.now) (map (earlier_view text.now) earlier.now)) }
{
    for one in earlier {
        push_line(alloc, text, places, one, told)?;
    }
    Ok(())
}

fn push_line(
    alloc: Global,
    text: &[u8],
    places: &[(u8, u32)],
    one: &EarlierCall,
    told: &mut Vec<u8>,
) -> Result<(), OutOfMemory>
    ensures { OnOk result (told.new.items ≡ told.old.items ++ earlier_text text.now places.now (earlier_view text.now one.now)) }
{
    let numbers = statement_lines(alloc, text, one.rank)?;
    let line = line_at(numbers.as_slice(), one.statement);
    let made = made_line(numbers.as_slice(), one.made);
    let placed = Placed {
        rank: one.rank,
        line,
        made,
        call: &one.call,
    };
    push_placed(alloc, text, places, &placed, told)
}

/// An earlier call by the lines of its rank's statements: that at which the rank waits, and that of the one that made it, where it is known.
#[derive(Clone, Copy, Drop)]
pub(crate) struct Placed<'e> {
    rank: u8,
    line: u32,
    made: Option<u32>,
    call: &'e MissingCall,
}

// The line of a statement, where it is known.
fn made_line(numbers: &[u32], made: Option<usize>) -> Option<u32>
    ensures { result ≡ option_map (line_at numbers.now) made }
{
    match made {
        Some(made) => Some(line_at(numbers, made)),
        None => None,
    }
}

// Adds a rank at a line, and the call that comes first.
fn push_placed(
    alloc: Global,
    text: &[u8],
    places: &[(u8, u32)],
    placed: &Placed<'_>,
    told: &mut Vec<u8>,
) -> Result<(), OutOfMemory>
    ensures { OnOk result (told.new.items ≡ told.old.items ++ earlier_text text.now places.now (placed_view placed.now)) }
{
    push_start(alloc, placed.rank, placed.line, told)?;
    push_first(alloc, text, places, placed.made, placed.call, told)
}

// Adds the call of the statement that stands in a line, and whose posts of it are lacking.
fn push_first(
    alloc: Global,
    text: &[u8],
    places: &[(u8, u32)],
    made: Option<u32>,
    call: &MissingCall,
    told: &mut Vec<u8>,
) -> Result<(), OutOfMemory>
    ensures { OnOk result (told.new.items ≡ told.old.items ++ first_text text.now places.now made (missing_view call.now)) }
{
    told.extend_from_slice(b"first comes ")?;
    push_made(alloc, text, made, told)?;
    push_number(alloc, call.call, told)?;
    push_members(alloc, places, call.missing.as_slice(), told)?;
    told.extend_from_slice(b"\n")?;
    Ok(())
}

// Adds the words of the statement that made a call, and its line, where it is known.
fn push_made(
    alloc: Global,
    text: &[u8],
    made: Option<u32>,
    told: &mut Vec<u8>,
) -> Result<(), OutOfMemory>
    ensures { OnOk result (told.new.items ≡ told.old.items ++ made_words text.now made) }
{
    match made {
        Some(line) => push_made_at(alloc, text, line, told),
        None => Ok(()),
    }
}

fn push_made_at(
    alloc: Global,
    text: &[u8],
    line: u32,
    told: &mut Vec<u8>,
) -> Result<(), OutOfMemory>
    ensures { OnOk result (told.new.items ≡ told.old.items ++ made_words text.now (Some line)) }
{
    push_words(text, line, told)?;
    told.extend_from_slice(b" of line ")?;
    push_decimal(alloc, told, line)?;
    told.extend_from_slice(b", ")?;
    Ok(())
}

// Adds the second and the third word of a line.
fn push_words(text: &[u8], line: u32, told: &mut Vec<u8>) -> Result<(), OutOfMemory>
    ensures { OnOk result (told.new.items ≡ told.old.items ++ line_words text.now line) }
{
    let (second, third) = words_of_line(text, line);
    told.extend_from_slice(second.unwrap_or(&[]))?;
    told.extend_from_slice(b" ")?;
    told.extend_from_slice(third.unwrap_or(&[]))?;
    Ok(())
}

// Adds the number of a call.
fn push_number(alloc: Global, call: u32, told: &mut Vec<u8>) -> Result<(), OutOfMemory>
    ensures { OnOk result (told.new.items ≡ told.old.items ++ number_words call) }
{
    told.extend_from_slice(b"call ")?;
    push_decimal(alloc, told, call)?;
    told.extend_from_slice(b": waits for ")?;
    Ok(())
}

// Adds a line for each of these ranks and the places of their statements, which ends so.
fn push_places(
    alloc: Global,
    text: &[u8],
    places: &[(u8, usize)],
    what: &[u8],
    told: &mut Vec<u8>,
) -> Result<(), OutOfMemory>
    ensures { OnOk result (told.new.items ≡ told.old.items ++ flat_map (standing_text text.now what.now) places.now) }
{
    for place in places {
        push_place(alloc, text, *place, what, told)?;
    }
    Ok(())
}

fn push_place(
    alloc: Global,
    text: &[u8],
    place: (u8, usize),
    what: &[u8],
    told: &mut Vec<u8>,
) -> Result<(), OutOfMemory>
    ensures { OnOk result (told.new.items ≡ told.old.items ++ standing_text text.now what.now place) }
{
    let numbers = statement_lines(alloc, text, place.0)?;
    push_start(alloc, place.0, line_at(numbers.as_slice(), place.1), told)?;
    told.extend_from_slice(what)?;
    Ok(())
}
