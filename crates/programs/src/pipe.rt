//! Two processes, each a program of its own, whose boards go as lines of text. A line of this job begins with a word of its own: others' lines, frames of
//! another job among them, are passed over.
ghost use Rattle.std.specs.Prelude.{◌≡◌, ◌<◌, codes, false, take};
ghost use Rattle.std.specs.Str.{bytes_eq};

use crate::calls::post_sum;
use crate::desks::{LIMIT, desk_of, number_in};
use crate::why::Why;
use mpx_board::Board;
use mpx_comm::{Comm, Desk};
use mpx_node::Node;
use mpx_num::Ops;
use mpx_wire::{decode, encode};
use std::alloc::Global;
use std::io::{BufRead, Write};

// In front of each line of this job.
const JOB: &[u8] = b"pipe_sum ";

// A line of another job: rank 1 of it posts 42.
const OTHER: &[u8] = b"other_job \
    4d50584702000100000102000100000000000000000001000000000101010b01030300010000002a0101000100010100000001\n";

// Writes what the other may lack, a line for each frame.
fn say<W: Write>(alloc: Global, desk: &mut Desk<Node>, out: &mut W) -> Result<(), Why> {
    let parts = desk.deltas(alloc, LIMIT)?;
    let said = write_frames(alloc, &parts, out);
    drop(parts);
    said
}

fn write_frames<W: Write>(alloc: Global, parts: &[Board], out: &mut W) -> Result<(), Why> {
    for part in parts {
        let frame = encode(alloc, part)?;
        let digits = hex::encode(alloc, &frame)?;
        writeln!(out, "pipe_sum {digits}")?;
    }
    Ok(out.flush()?)
}

// Takes what a line tells, where it is one of this job. One of this job that spells no frame gives up.
fn hear(alloc: Global, desk: &mut Desk<Node>, line: &[u8]) -> Result<(), Why>
    ensures other { bytes_eq (take 9 line.now) (codes "pipe_sum ") ≡ false → desk.new ≡ desk.old }
{
    match line.strip_prefix(JOB) {
        Some(digits) => take_digits(alloc, desk, digits),
        None => Ok(()),
    }
}

// Takes the board that the bytes spell of which these are the digits.
fn take_digits(alloc: Global, desk: &mut Desk<Node>, digits: &[u8]) -> Result<(), Why> {
    let frame = hex::decode(alloc, digits)?;
    let part = decode(alloc, &frame)?;
    let taken = desk.take(alloc, &part);
    drop(part);
    Ok(taken?)
}

// The sum, where it is known behind this line.
fn sum_behind(
    alloc: Global,
    desk: &mut Desk<Node>,
    line: &[u8],
    ops: &Ops,
) -> Result<Option<i128>, Why> {
    hear(alloc, desk, line)?;
    match desk.testany(alloc, ops)? {
        Some((_request, finished)) => Ok(Some(number_in(finished)?)),
        None => Ok(None),
    }
}

// Posts the rank's number to the sum of both, says so, and hears the other's lines until the sum is known.
fn sum_of<R: BufRead + Drop, W: Write>(
    alloc: Global,
    desk: &mut Desk<Node>,
    rank: u8,
    ops: &Ops,
    other: R,
    out: &mut W,
) -> Result<Option<i128>, Why>
    requires { rank < 2 }
{
    let number = 10 + i128::from(rank);
    drop(post_sum(alloc, desk, &Comm::world(alloc, 2, rank), number, ops)?);
    say(alloc, desk, out)?;
    for line in other.lines(alloc) {
        if let Some(sum) = sum_behind(alloc, desk, line?.as_bytes(), ops)? {
            return Ok(Some(sum));
        }
    }
    Ok(None)
}

/// A process of the two. It hears the other's lines, and writes its own, and at last the sum. None, where the other's lines end before.
pub fn process<R: BufRead + Drop, W: Write>(
    alloc: Global,
    rank: u8,
    ops: &Ops,
    other: R,
    out: &mut W,
) -> Result<Option<i128>, Why>
    requires { rank < 2 }
{
    let mut desk = desk_of(alloc, rank, 2)?;
    let sum = sum_of(alloc, &mut desk, rank, ops, other, out);
    drop(desk);
    let sum = sum?;
    if let Some(sum) = sum {
        writeln!(out, "sum {sum}")?;
        out.flush()?;
    }
    Ok(sum)
}

/// The sums of both in one process. Rank 0 writes its lines while there are none of rank 1, and is run once more over these.
pub fn sums_by_lines(alloc: Global, ops: &Ops) -> Result<(i128, i128), Why> {
    let (mut zero, mut one) = (Vec::new(alloc), Vec::new(alloc));
    process(alloc, 0, ops, one.as_slice(), &mut zero)?;
    one.write_all(OTHER)?;
    let last = process(alloc, 1, ops, zero.as_slice(), &mut one)?;
    let first = process(alloc, 0, ops, one.as_slice(), &mut zero)?;
    Ok((first.ok_or(Why::NoAnswer)?, last.ok_or(Why::NoAnswer)?))
}
