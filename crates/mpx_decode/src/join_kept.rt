//! Acknowledgements joined as their bytes are read, beside what is kept of them as it is spelled: rows that stand in the frame as they are
//! kept are passed over by their bytes.
ghost use Rattle.std.specs.Prelude.{◌≡◌, ◌≢◌, ◌==◌, ◌<◌, ◌+◌, ◌++◌, ◌≤◌, ℕ, false, IfOk, IfSome, IsTrue, List, Ok, OnErr, length};
ghost use Rattle.std.specs.Ordering.{nat_cmp};
ghost use Rattle.std.specs.FinMap.{entries, is_sorted};
ghost use Rattle.join_nest.specs.Seen.{keyed_view, seen};
ghost use Rattle.join_nest.specs.Keyed.{keyed_joining};
ghost use Rattle.join_nest.specs.Between.{keyed_between};
ghost use Rattle.mpx_name.specs.Order.{name_cmp};
ghost use Rattle.mpx_board.specs.Parts.{acks_between, acks_joining, numbers_between, numbers_joining};
ghost use Rattle.mpx_board.specs.Views.{view_of_acks, view_of_all_acks, view_of_numbers};
ghost use Rattle.mpx_format.specs.Format.{byte};
ghost use Rattle.mpx_format.specs.Fields.{acks, all_acks, name, numbers, process};
ghost use Rattle.mpx_format.specs.Kept.{AreKept, ArePieces, pieces_of};
ghost use Rattle.mpx_decode.specs.Raising.{JoinsFront, RaisesRow, RaisesRows, StandsInFront, StopsBetween, StopsRow, row, rows};

use crate::big_endian::read_u8;
use crate::fields::read_some_names;
use crate::join_rows::{FrontKey, WireJoin, raise_entry, raise_placed};
use crate::told_rows::behind_told;
use join_core::OutOfMemory;
use join_nest::Keyed;
use mpx_board::{Digest, VersionVector};
use mpx_format::{Kept, KeptAcks, PIECE_ROWS, Version};
use mpx_group::Proc;
use mpx_name::Name;
use mpx_rope::Beyond;
use std::mem;

// What all processes acknowledge.
pub fn raise_all_acks<'a>(
    version: Version,
    beyond: &mut Beyond<'a>,
    all: &mut Keyed<Proc, Digest>,
    kept: &mut Kept,
    bytes: &'a [u8],
) -> Result<&'a [u8], OutOfMemory>
    requires spelled { StandsInFront all_acks (bytes.now ++ beyond.old) }
    requires kept { AreKept kept.old.of.items (view_of_all_acks all.old) }
    ensures ok { IfOk result (λ rest. JoinsFront all_acks (keyed_joining acks_joining) (bytes.now ++ beyond.old) (rest.now ++ beyond.new) (view_of_all_acks all.old) (view_of_all_acks all.new)) }
    ensures err { OnErr result (StopsBetween all_acks (keyed_between acks_between) (bytes.now ++ beyond.old) (view_of_all_acks all.old) (view_of_all_acks all.new)) }
    ensures some { OnErr result ((rest : List ℕ) → byte.read bytes.now ≢ Ok (0, rest)) }
    ensures kept { AreKept kept.new.of.items (view_of_all_acks all.new) }
    ensures less { length beyond.new ≤ length beyond.old }
{
    match read_u8(bytes) {
        Err(_) => Err(OutOfMemory),
        Ok((count, rest)) => {
            let mut entries = mem::replace(all, Keyed::new(beyond.alloc())).into_entries();
            let raised = raise_processes(version, beyond, &mut entries, kept, count as usize, rest);
            *all = Keyed::from_rising(entries);
            raised
        }
    }
}

// What so many processes acknowledge, one after the other.
fn raise_processes<'a>(
    version: Version,
    beyond: &mut Beyond<'a>,
    entries: &mut Vec<(Proc, Digest)>,
    kept: &mut Kept,
    count: usize,
    bytes: &'a [u8],
) -> Result<&'a [u8], OutOfMemory>
    requires rising { IsTrue (is_sorted nat_cmp entries.old.items) }
    requires spelled { StandsInFront (rows nat_cmp process acks count) (bytes.now ++ beyond.old) }
    requires kept { AreKept kept.old.of.items (keyed_view nat_cmp view_of_acks entries.old.items) }
    ensures ok { IfOk result (λ rest. JoinsFront (rows nat_cmp process acks count) (keyed_joining acks_joining) (bytes.now ++ beyond.old) (rest.now ++ beyond.new)
        (keyed_view nat_cmp view_of_acks entries.old.items) (keyed_view nat_cmp view_of_acks entries.new.items)) }
    ensures err { OnErr result (StopsBetween (rows nat_cmp process acks count) (keyed_between acks_between) (bytes.now ++ beyond.old)
        (keyed_view nat_cmp view_of_acks entries.old.items) (keyed_view nat_cmp view_of_acks entries.new.items)) }
    ensures rising { IsTrue (is_sorted nat_cmp entries.new.items) }
    ensures some { OnErr result (0 < count) }
    ensures kept { AreKept kept.new.of.items (keyed_view nat_cmp view_of_acks entries.new.items) }
    ensures less { length beyond.new ≤ length beyond.old }
{
    let mut next = 0usize;
    let mut rest = bytes;
    for _ in 0..count {
        let (after, left) = raise_process(version, beyond, entries, kept, next, rest)?;
        next = after;
        rest = left;
    }
    Ok(rest)
}

// What one process acknowledges, which stands at this place, or where else it may. Tells the place after it.
fn raise_process<'a>(
    version: Version,
    beyond: &mut Beyond<'a>,
    entries: &mut Vec<(Proc, Digest)>,
    kept: &mut Kept,
    next: usize,
    bytes: &'a [u8],
) -> Result<(usize, &'a [u8]), OutOfMemory>
    requires rising { IsTrue (is_sorted nat_cmp entries.old.items) }
    requires spelled { StandsInFront (row process acks) (bytes.now ++ beyond.old) }
    requires kept { AreKept kept.old.of.items (keyed_view nat_cmp view_of_acks entries.old.items) }
    ensures ok { IfOk result (λ x. RaisesRow nat_cmp view_of_acks (row process acks) acks_joining (bytes.now ++ beyond.old) (x.1.now ++ beyond.new) entries.old.items entries.new.items) }
    ensures err { OnErr result (StopsRow nat_cmp view_of_acks (row process acks) acks_between (bytes.now ++ beyond.old) entries.old.items entries.new.items) }
    ensures rising { IsTrue (is_sorted nat_cmp entries.new.items) }
    ensures kept { AreKept kept.new.of.items (keyed_view nat_cmp view_of_acks entries.new.items) }
    ensures less { length beyond.new ≤ length beyond.old }
{
    if next < entries.len() {
        if let Some(after) = entries[next].0.behind(bytes) {
            let process = entries[next].0;
            let rest = raise_one(version, beyond, process, &mut entries[next].1, kept, after)?;
            return Ok((next + 1, rest));
        }
    }
    kept.forget_all();
    raise_placed(version, beyond, entries, bytes)
}

// What is said at the front of the process, joined to what it said.
fn raise_one<'a>(
    version: Version,
    beyond: &mut Beyond<'a>,
    process: Proc,
    said: &mut Digest,
    kept: &mut Kept,
    bytes: &'a [u8],
) -> Result<&'a [u8], OutOfMemory>
    requires spelled { StandsInFront acks (bytes.now ++ beyond.old) }
    requires kept { ArePieces (pieces_of kept.old.of.items process) (entries (view_of_acks said.old)) }
    ensures ok { IfOk result (λ rest. JoinsFront acks acks_joining (bytes.now ++ beyond.old) (rest.now ++ beyond.new) (view_of_acks said.old) (view_of_acks said.new)) }
    ensures err { OnErr result (StopsBetween acks acks_between (bytes.now ++ beyond.old) (view_of_acks said.old) (view_of_acks said.new)) }
    ensures kept { ArePieces (pieces_of kept.new.of.items process) (entries (view_of_acks said.new)) }
    ensures others { (p : ℕ) → (p == process) ≡ false → pieces_of kept.new.of.items p ≡ pieces_of kept.old.of.items p }
    ensures less { length beyond.new ≤ length beyond.old }
{
    let place = process.number() as usize;
    if place < kept.of.len() {
        return raise_beside(version, beyond, said, &mut kept.of[place], bytes);
    }
    said.raise(version, beyond, bytes)
}

// What is said at the front, joined to what a process said, of which pieces may be kept.
fn raise_beside<'a>(
    version: Version,
    beyond: &mut Beyond<'a>,
    said: &mut Digest,
    kept: &mut KeptAcks,
    bytes: &'a [u8],
) -> Result<&'a [u8], OutOfMemory>
    requires spelled { StandsInFront acks (bytes.now ++ beyond.old) }
    requires kept { ArePieces kept.old.pieces.items (entries (view_of_acks said.old)) }
    ensures ok { IfOk result (λ rest. JoinsFront acks acks_joining (bytes.now ++ beyond.old) (rest.now ++ beyond.new) (view_of_acks said.old) (view_of_acks said.new)) }
    ensures err { OnErr result (StopsBetween acks acks_between (bytes.now ++ beyond.old) (view_of_acks said.old) (view_of_acks said.new)) }
    ensures kept { ArePieces kept.new.pieces.items (entries (view_of_acks said.new)) }
    ensures less { length beyond.new ≤ length beyond.old }
{
    match read_some_names(bytes) {
        Err(_) => Err(OutOfMemory),
        Ok((count, rest)) => {
            let mut entries = mem::replace(said, Keyed::new(beyond.alloc())).into_entries();
            let raised = raise_rows(version, beyond, &mut entries, kept, count as usize, rest);
            *said = Keyed::from_rising(entries);
            raised
        }
    }
}

// So many rows, one piece or one row after the other.
fn raise_rows<'a>(
    version: Version,
    beyond: &mut Beyond<'a>,
    entries: &mut Vec<(Name, VersionVector)>,
    kept: &mut KeptAcks,
    count: usize,
    bytes: &'a [u8],
) -> Result<&'a [u8], OutOfMemory>
    requires rising { IsTrue (is_sorted name_cmp entries.old.items) }
    requires spelled { StandsInFront (rows name_cmp name numbers count) (bytes.now ++ beyond.old) }
    requires kept { ArePieces kept.old.pieces.items (seen view_of_numbers entries.old.items) }
    ensures ok { IfOk result (λ rest. JoinsFront (rows name_cmp name numbers count) (keyed_joining numbers_joining) (bytes.now ++ beyond.old) (rest.now ++ beyond.new)
        (keyed_view name_cmp view_of_numbers entries.old.items) (keyed_view name_cmp view_of_numbers entries.new.items)) }
    ensures err { OnErr result (StopsBetween (rows name_cmp name numbers count) (keyed_between numbers_between) (bytes.now ++ beyond.old)
        (keyed_view name_cmp view_of_numbers entries.old.items) (keyed_view name_cmp view_of_numbers entries.new.items)) }
    ensures rising { IsTrue (is_sorted name_cmp entries.new.items) }
    ensures kept { ArePieces kept.new.pieces.items (seen view_of_numbers entries.new.items) }
    ensures less { length beyond.new ≤ length beyond.old }
{
    let mut next = 0usize;
    let mut done = 0usize;
    let mut rest = bytes;
    while done < count {
        let (some, at, after) = raise_some(
            version,
            beyond,
            entries,
            kept,
            next,
            count - done,
            rest,
        )?;
        done += some;
        next = at;
        rest = after;
    }
    Ok(rest)
}

// The rows of a piece, where they stand at the front as they are kept, and else one row; so many at most. Tells how many, and the place
// after them.
fn raise_some<'a>(
    version: Version,
    beyond: &mut Beyond<'a>,
    entries: &mut Vec<(Name, VersionVector)>,
    kept: &mut KeptAcks,
    next: usize,
    most: usize,
    bytes: &'a [u8],
) -> Result<(usize, usize, &'a [u8]), OutOfMemory>
    requires rising { IsTrue (is_sorted name_cmp entries.old.items) }
    requires some { 0 < most }
    requires spelled { StandsInFront (row name numbers) (bytes.now ++ beyond.old) }
    requires kept { ArePieces kept.old.pieces.items (seen view_of_numbers entries.old.items) }
    ensures ok { IfOk result (λ x. RaisesRows name_cmp view_of_numbers (row name numbers) numbers_joining x.0 (bytes.now ++ beyond.old) (x.2.now ++ beyond.new) entries.old.items entries.new.items) }
    ensures some { IfOk result (λ x. 0 < x.0) }
    ensures few { IfOk result (λ x. x.0 ≤ most) }
    ensures err { OnErr result (StopsRow name_cmp view_of_numbers (row name numbers) numbers_between (bytes.now ++ beyond.old) entries.old.items entries.new.items) }
    ensures rising { IsTrue (is_sorted name_cmp entries.new.items) }
    ensures kept { ArePieces kept.new.pieces.items (seen view_of_numbers entries.new.items) }
    ensures less { length beyond.new ≤ length beyond.old }
{
    if let Some((same, after)) = same_rows(entries.as_slice(), kept, next, bytes) {
        if same <= most {
            return Ok((same, next + same, after));
        }
    }
    if let Some(after) = behind_told(entries.as_slice(), next, bytes) {
        return Ok((1, next + 1, after));
    }
    let (at, after) = raise_row(version, beyond, entries, kept, next, bytes)?;
    Ok((1, at, after))
}

// How many rows the piece has that begins at this place, where they stand at the front as they are kept, and the bytes after them.
fn same_rows<'a>(
    entries: &[(Name, VersionVector)],
    kept: &KeptAcks,
    at: usize,
    bytes: &'a [u8],
) -> Option<(usize, &'a [u8])>
    requires rising { IsTrue (is_sorted name_cmp entries.now) }
    requires kept { ArePieces kept.now.pieces.items (seen view_of_numbers entries.now) }
    ensures joined { IfSome result (λ x. RaisesRows name_cmp view_of_numbers (row name numbers) numbers_joining x.0 bytes.now x.1.now entries.now entries.now) }
    ensures some { IfSome result (λ x. 0 < x.0) }
    ensures within { IfSome result (λ x. at + x.0 ≤ length entries.now) }
{
    if at % PIECE_ROWS != 0 || entries.len() <= at {
        return None;
    }
    let piece = kept.pieces.get(at / PIECE_ROWS)?;
    let known = piece.in_one_place()?;
    if known.len() == 0 {
        return None;
    }
    let after = bytes.strip_prefix(known)?;
    Some(((entries.len() - at).min(PIECE_ROWS), after))
}

// The row at the front; its piece is no longer kept, and those behind it neither where a row was put in. Tells the place after it.
fn raise_row<'a>(
    version: Version,
    beyond: &mut Beyond<'a>,
    entries: &mut Vec<(Name, VersionVector)>,
    kept: &mut KeptAcks,
    next: usize,
    bytes: &'a [u8],
) -> Result<(usize, &'a [u8]), OutOfMemory>
    requires rising { IsTrue (is_sorted name_cmp entries.old.items) }
    requires spelled { StandsInFront (row name numbers) (bytes.now ++ beyond.old) }
    requires kept { ArePieces kept.old.pieces.items (seen view_of_numbers entries.old.items) }
    ensures ok { IfOk result (λ x. RaisesRow name_cmp view_of_numbers (row name numbers) numbers_joining (bytes.now ++ beyond.old) (x.1.now ++ beyond.new) entries.old.items entries.new.items) }
    ensures err { OnErr result (StopsRow name_cmp view_of_numbers (row name numbers) numbers_between (bytes.now ++ beyond.old) entries.old.items entries.new.items) }
    ensures rising { IsTrue (is_sorted name_cmp entries.new.items) }
    ensures kept { ArePieces kept.new.pieces.items (seen view_of_numbers entries.new.items) }
    ensures less { length beyond.new ≤ length beyond.old }
{
    let len = entries.len();
    match raise_entry(version, beyond, entries, next, bytes) {
        Err(e) => {
            kept.forget_all();
            Err(e)
        }
        Ok((after, rest)) => {
            if entries.len() == len {
                kept.forget(after - 1);
            } else {
                kept.forget_from(after - 1);
            }
            Ok((after, rest))
        }
    }
}
