//! Acknowledgements kept as they are spelled: made, and written.
ghost use Rattle.std.specs.Prelude.{◌≡◌, ◌==◌, ◌+◌, ◌++◌, ◌&&◌, ℕ, [], false, true, IfSome, OnOk, drop, length, nat_le, take};
ghost use Rattle.std.specs.FinMap.{entries, len};
ghost use Rattle.std.specs.List.{list_all};
ghost use Rattle.join_nest.specs.Seen.{seen};
ghost use Rattle.mpx_board.specs.Looks.{parts_of};
ghost use Rattle.mpx_board.specs.Tidy.{is_tidy_acks, is_tidy_numbers};
ghost use Rattle.mpx_board.specs.Views.{view_of_acks, view_of_numbers};
ghost use Rattle.mpx_encode.specs.Entries.{both_pass, entries_spelled, entry_spelled};
ghost use Rattle.mpx_encode.specs.Keeping.{AreEntriesKept};
ghost use Rattle.mpx_encode.specs.Room.{room_left};
ghost use Rattle.mpx_format.specs.Encoding.{most_names};
ghost use Rattle.mpx_format.specs.Fields.{acks as acks_format, name, numbers, process};
ghost use Rattle.mpx_format.specs.Kept.{AreKept, ArePieces, IsPiece, piece_rows, pieces_of};

use crate::room::{MOST_BYTES, room_left};
use crate::write_entries::{WriteKey, room_after_entries, write_entries};
use crate::write_numbers::write_u16;
use join_core::OutOfMemory;
use mpx_board::{Board, Digest, VersionVector};
use mpx_format::{Kept, PIECE_ROWS};
use mpx_group::Proc;
use mpx_name::Name;
use mpx_rope::Rope;
use std::alloc::Global;

// Fewer rows aren't kept: they are written as fast as they are copied.
const FEWEST_KEPT: usize = 9;

/// Keeps what the processes say, as frames spell it, where it isn't kept yet. A process that says something of few contexts is left
/// out. An `Err` is want of memory.
pub fn keep(alloc: Global, board: &Board, kept: &mut Kept) -> Result<(), OutOfMemory>
    requires { AreKept kept.old.of.items (parts_of board.now).1 }
    ensures { AreKept kept.new.of.items (parts_of board.now).1 }
{
    for entry in board.pair().second.entries() {
        if entry.1.len() >= FEWEST_KEPT {
            keep_acks(alloc, entry.0, &entry.1, kept)?;
        }
    }
    Ok(())
}

// Keeps what the process says.
fn keep_acks(
    alloc: Global,
    process: Proc,
    acks: &Digest,
    kept: &mut Kept,
) -> Result<(), OutOfMemory>
    requires tidy { is_tidy_acks (view_of_acks acks.now) ≡ true }
    requires kept { ArePieces (pieces_of kept.old.of.items process) (entries (view_of_acks acks.now)) }
    ensures kept { ArePieces (pieces_of kept.new.of.items process) (entries (view_of_acks acks.now)) }
    ensures others { (p : ℕ) → (p == process) ≡ false → pieces_of kept.new.of.items p ≡ pieces_of kept.old.of.items p }
{
    kept.reserve(alloc, process)?;
    let place = process.number() as usize;
    keep_rows(alloc, acks.entries(), &mut kept.of[place].pieces)
}

// Keeps all pieces of these rows.
fn keep_rows(
    alloc: Global,
    rows: &[(Name, VersionVector)],
    pieces: &mut Vec<Rope>,
) -> Result<(), OutOfMemory>
    requires tidy { list_all (λ e. is_tidy_numbers e.1) (seen view_of_numbers rows.now) ≡ true }
    requires kept { ArePieces pieces.old.items (seen view_of_numbers rows.now) }
    ensures { ArePieces pieces.new.items (seen view_of_numbers rows.now) }
{
    for _ in pieces.len()..rows.len().div_ceil(PIECE_ROWS) {
        pieces.push(Rope::new(alloc))?;
    }
    let mut rest = rows;
    for place in 0..pieces.len() {
        let (front, behind) = split_piece(rest);
        if pieces[place].len() == 0 {
            keep_piece(front, &mut pieces[place])?;
        }
        rest = behind;
    }
    Ok(())
}

// The rows of the first piece, and those behind it.
fn split_piece(
    rows: &[(Name, VersionVector)],
) -> (&[(Name, VersionVector)], &[(Name, VersionVector)])
    ensures front { seen view_of_numbers result.0.now ≡ take piece_rows (seen view_of_numbers rows.now) }
    ensures behind { seen view_of_numbers result.1.now ≡ drop piece_rows (seen view_of_numbers rows.now) }
{
    rows.split_at(rows.len().min(PIECE_ROWS))
}

// Keeps the rows in this piece, which isn't known, if a frame has the room.
fn keep_piece(rows: &[(Name, VersionVector)], piece: &mut Rope) -> Result<(), OutOfMemory>
    requires tidy { list_all (λ e. is_tidy_numbers e.1) (seen view_of_numbers rows.now) ≡ true }
    requires unknown { piece.old ≡ [] }
    ensures { IsPiece piece.new (seen view_of_numbers rows.now) }
{
    let Some(left) = room_after_entries(rows, MOST_BYTES) else {
        return Ok(());
    };
    piece.reserve(MOST_BYTES.saturating_sub(left))?;
    match write_entries(rows, piece) {
        Ok(()) => Ok(()),
        Err(e) => {
            piece.clear();
            Err(e)
        }
    }
}

// What is left of so much room behind a byte and then what all processes say, of which pieces may be kept.
#[tactic(auto, using(crate::proofs::Rooms::rooms))]
pub fn room_after_kept(all: &[(Proc, Digest)], kept: &Kept, room: usize) -> Option<usize>
    requires ready { list_all (λ e. is_tidy_acks e.1 && nat_le (len e.1) most_names) (seen view_of_acks all.now) ≡ true }
    requires kept { AreEntriesKept kept.now.of.items (seen view_of_acks all.now) }
    ensures value { result ≡ room_left (1 + length (entries_spelled process acks_format (seen view_of_acks all.now))) room }
    ensures fits { IfSome result (λ left. both_pass process.fits acks_format.fits (seen view_of_acks all.now) ≡ true) }
{
    let left = room_left(1, room)?;
    room_after_all(all, kept, left)
}

// The same without the byte.
fn room_after_all(all: &[(Proc, Digest)], kept: &Kept, room: usize) -> Option<usize>
    requires ready { list_all (λ e. is_tidy_acks e.1 && nat_le (len e.1) most_names) (seen view_of_acks all.now) ≡ true }
    requires kept { AreEntriesKept kept.now.of.items (seen view_of_acks all.now) }
    ensures value { result ≡ room_left (length (entries_spelled process acks_format (seen view_of_acks all.now))) room }
    ensures fits { IfSome result (λ left. both_pass process.fits acks_format.fits (seen view_of_acks all.now) ≡ true) }
{
    let mut left = room;
    for entry in all {
        left = room_after_entry(entry, kept.pieces(entry.0), left)?;
    }
    Some(left)
}

// What is left of so much room behind a process and what it says.
#[tactic(auto, using(crate::proofs::Rooms::rooms))]
fn room_after_entry(entry: &(Proc, Digest), pieces: &[Rope], room: usize) -> Option<usize>
    requires ready { (is_tidy_acks (view_of_acks entry.now.1) && nat_le (len (view_of_acks entry.now.1)) most_names) ≡ true }
    requires kept { ArePieces pieces.now (entries (view_of_acks entry.now.1)) }
    ensures value { result ≡ room_left (length (entry_spelled process acks_format (entry.now.0, view_of_acks entry.now.1))) room }
    ensures process_fits { IfSome result (λ left. process.fits entry.now.0 ≡ true) }
    ensures acks_fit { IfSome result (λ left. acks_format.fits (view_of_acks entry.now.1) ≡ true) }
{
    let left = entry.0.room_after(room)?;
    room_after_acks(&entry.1, pieces, left)
}

// What is left of so much room behind what a process says.
fn room_after_acks(acks: &Digest, pieces: &[Rope], room: usize) -> Option<usize>
    requires ready { (is_tidy_acks (view_of_acks acks.now) && nat_le (len (view_of_acks acks.now)) most_names) ≡ true }
    requires kept { ArePieces pieces.now (entries (view_of_acks acks.now)) }
    ensures value { result ≡ room_left (length (acks_format.spelling (view_of_acks acks.now))) room }
    ensures fits { IfSome result (λ left. acks_format.fits (view_of_acks acks.now) ≡ true) }
{
    let left = room_left(2, room)?;
    room_after_rows(acks.entries(), pieces, left)
}

// What is left of so much room behind these rows.
fn room_after_rows(rows: &[(Name, VersionVector)], pieces: &[Rope], room: usize) -> Option<usize>
    requires tidy { list_all (λ e. is_tidy_numbers e.1) (seen view_of_numbers rows.now) ≡ true }
    requires kept { ArePieces pieces.now (seen view_of_numbers rows.now) }
    ensures value { result ≡ room_left (length (entries_spelled name numbers (seen view_of_numbers rows.now))) room }
    ensures fits { IfSome result (λ left. both_pass name.fits numbers.fits (seen view_of_numbers rows.now) ≡ true) }
{
    match pieces {
        [] => room_after_entries(rows, room),
        [piece, more @ ..] => {
            let (front, behind) = split_piece(rows);
            let left = room_after_piece(front, piece, room)?;
            room_after_rows(behind, more, left)
        }
    }
}

// What is left of so much room behind the rows of a piece.
fn room_after_piece(rows: &[(Name, VersionVector)], piece: &Rope, room: usize) -> Option<usize>
    requires tidy { list_all (λ e. is_tidy_numbers e.1) (seen view_of_numbers rows.now) ≡ true }
    requires kept { IsPiece piece.now (seen view_of_numbers rows.now) }
    ensures value { result ≡ room_left (length (entries_spelled name numbers (seen view_of_numbers rows.now))) room }
    ensures fits { IfSome result (λ left. both_pass name.fits numbers.fits (seen view_of_numbers rows.now) ≡ true) }
{
    let len = piece.len();
    if len == 0 {
        room_after_entries(rows, room)
    } else {
        room_left(len, room)
    }
}

// Writes what all processes say, of which pieces may be kept, at the end.
pub fn write_kept(all: &[(Proc, Digest)], kept: &Kept, out: &mut Rope) -> Result<(), OutOfMemory>
    requires fits { both_pass process.fits acks_format.fits (seen view_of_acks all.now) ≡ true }
    requires kept { AreEntriesKept kept.now.of.items (seen view_of_acks all.now) }
    ensures { OnOk result (out.new ≡ out.old ++ entries_spelled process acks_format (seen view_of_acks all.now)) }
{
    for entry in all {
        write_entry(entry, kept.pieces(entry.0), out)?;
    }
    Ok(())
}

fn write_entry(entry: &(Proc, Digest), pieces: &[Rope], out: &mut Rope) -> Result<(), OutOfMemory>
    requires process { process.fits entry.now.0 ≡ true }
    requires acks { acks_format.fits (view_of_acks entry.now.1) ≡ true }
    requires kept { ArePieces pieces.now (entries (view_of_acks entry.now.1)) }
    ensures { OnOk result (out.new ≡ out.old ++ entry_spelled process acks_format (entry.now.0, view_of_acks entry.now.1)) }
{
    entry.0.write(out)?;
    write_acks(&entry.1, pieces, out)
}

fn write_acks(acks: &Digest, pieces: &[Rope], out: &mut Rope) -> Result<(), OutOfMemory>
    requires fits { acks_format.fits (view_of_acks acks.now) ≡ true }
    requires kept { ArePieces pieces.now (entries (view_of_acks acks.now)) }
    ensures { OnOk result (out.new ≡ out.old ++ acks_format.spelling (view_of_acks acks.now)) }
{
    let rows = acks.entries();
    write_u16(rows.len() as u16, out)?;
    write_rows(rows, pieces, out)
}

fn write_rows(
    rows: &[(Name, VersionVector)],
    pieces: &[Rope],
    out: &mut Rope,
) -> Result<(), OutOfMemory>
    requires fits { both_pass name.fits numbers.fits (seen view_of_numbers rows.now) ≡ true }
    requires kept { ArePieces pieces.now (seen view_of_numbers rows.now) }
    ensures { OnOk result (out.new ≡ out.old ++ entries_spelled name numbers (seen view_of_numbers rows.now)) }
{
    match pieces {
        [] => write_entries(rows, out),
        [piece, more @ ..] => {
            let (front, behind) = split_piece(rows);
            write_piece(front, piece, out)?;
            write_rows(behind, more, out)
        }
    }
}

fn write_piece(
    rows: &[(Name, VersionVector)],
    piece: &Rope,
    out: &mut Rope,
) -> Result<(), OutOfMemory>
    requires fits { both_pass name.fits numbers.fits (seen view_of_numbers rows.now) ≡ true }
    requires kept { IsPiece piece.now (seen view_of_numbers rows.now) }
    ensures { OnOk result (out.new ≡ out.old ++ entries_spelled name numbers (seen view_of_numbers rows.now)) }
{
    match piece.in_one_place() {
        Some(bytes) if !bytes.is_empty() => Ok(out.extend_from_slice(bytes)?),
        _ => write_entries(rows, out),
    }
}
