//! Where statements stand in a script's text.
ghost use Rattle.std.specs.Prelude.{◌≡◌, IfOk, map};
ghost use Rattle.mpx_eval.specs.Found.{waiting_view};
ghost use Rattle.mpx_waiting.specs.ToldLines.{line_at, place_of};

use join_core::OutOfMemory;
use mpx_eval::WaitingRank;
use mpx_script::statement_lines;
use std::alloc::Global;

/// The ranks that wait, each with the line at which it does.
pub fn places_of(
    alloc: Global,
    text: &[u8],
    found: &[WaitingRank],
) -> Result<Vec<(u8, u32)>, OutOfMemory>
    ensures { IfOk result (λ places. places.items ≡ map (place_of text.now) (map waiting_view found.now)) }
{
    let mut places = Vec::new(alloc);
    for waiting in found {
        places.push(place_of(alloc, text, waiting)?)?;
    }
    Ok(places)
}

fn place_of(alloc: Global, text: &[u8], waiting: &WaitingRank) -> Result<(u8, u32), OutOfMemory>
    ensures { IfOk result (λ place. place ≡ place_of text.now (waiting_view waiting.now)) }
{
    let numbers = statement_lines(alloc, text, waiting.rank)?;
    let line = line_at(numbers.as_slice(), waiting.statement);
    Ok((waiting.rank, line))
}

/// Of statements with these lines the line of the one with this place, or 0 where there is none.
pub fn line_at(numbers: &[u32], statement: usize) -> u32
    ensures { result ≡ line_at numbers.now statement }
{
    match numbers.get(statement) {
        Some(line) => *line,
        None => 0,
    }
}
