//! Reading whole frames, into boards of their own or joined to another.
ghost use Rattle.std.specs.Prelude.{◌≡◌, ◌≢◌, ◌++◌, ℕ, IfOk, IfErr, IsTrue, List, Ok, OnErr, OnOk, is_ok};
ghost use Rattle.mpx_board.specs.Boards.{IsBetween, empty, join};
ghost use Rattle.mpx_board.specs.Contexts.{look_of};
ghost use Rattle.mpx_board.specs.Parts.{PartsView, parts_between, parts_joining};
ghost use Rattle.mpx_board.specs.Looks.{look, parts_of};
ghost use Rattle.mpx_format.specs.Format.{Gives, mark_at};
ghost use Rattle.mpx_format.specs.Contexts.{frame};
ghost use Rattle.mpx_format.specs.Kept.{AreKept};
ghost use Rattle.mpx_format.specs.Decoding.{IsSpelled, Decodes, Refuses, decoded};
ghost use Rattle.mpx_format.specs.declared.versions.Version.{Version};
ghost use Rattle.mpx_decode.specs.Raising.{no_parts};
ghost use Rattle.mpx_wire.specs.Reading.{front};

use join_core::{Exact, OutOfMemory};
use mpx_board::{Board, Parts};
use mpx_decode::{read_parts, read_version, take_apart, take_parts};
use mpx_format::{Defect, Kept, ReadError, SHORT, Version, WireError, placed};
use mpx_rope::{RopeRef, Source};
use std::alloc::Global;

// This byte; else the fault.
fn read_mark(wrong: Defect, mark: u8, bytes: &[u8]) -> Result<&[u8], ReadError>
    ensures gives { Gives (λ x. x.now) result (mark_at wrong mark bytes.now) }
    ensures memory { IfErr result (λ e. e ≢ ReadError.OutOfMemory) }
{
    match bytes {
        [] => Err(SHORT),
        [b, rest @ ..] => {
            if *b == mark {
                Ok(rest)
            } else {
                Err(ReadError::Defect(wrong))
            }
        }
    }
}

// What stands before the parts: the magic and the version.
fn read_front(bytes: &[u8]) -> Result<(Version, &[u8]), ReadError>
    ensures gives { Gives (λ x. (x.0, x.1.now)) result (front.read bytes.now) }
    ensures memory { IfErr result (λ e. e ≢ ReadError.OutOfMemory) }
{
    let rest = read_mark(Defect::BadMagic, 0x4d, bytes)?;
    let rest = read_mark(Defect::BadMagic, 0x50, rest)?;
    let rest = read_mark(Defect::BadMagic, 0x58, rest)?;
    let rest = read_mark(Defect::BadMagic, 0x47, rest)?;
    read_version(rest)
}

// The same, which stands there whatever follows.
fn read_near_front(bytes: &[u8]) -> Result<(Version, &[u8]), ReadError>
    ensures { IfOk result (λ x. (more : List ℕ) → front.read (bytes.now ++ more) ≡ Ok (x.0, x.1.now ++ more)) }
{
    read_front(bytes)
}

// The version, and the parts as it spells them.
fn read_frame(alloc: Global, bytes: &[u8]) -> Result<((Version, Parts), &[u8]), ReadError>
    ensures gives { Gives (λ x. ((x.0.0, ⟦<Parts as Exact>⟧.view x.0.1), x.1.now)) result (frame.read bytes.now) }
    ensures memory { IfErr result (λ e. e ≡ ReadError.OutOfMemory → IsTrue (is_ok (front.read bytes.now))) }
    ensures some { IfErr result (λ e. e ≡ ReadError.OutOfMemory → (version : Version) → bytes.now ≢ frame.spelling (version, no_parts)) }
{
    let (version, rest) = read_front(bytes)?;
    let (parts, rest) = read_parts(version, Source::of(alloc), rest)?;
    Ok(((version, parts), rest))
}

// The most bytes of a frame.
const MOST_BYTES: usize = 1_048_576;

#[tactic(auto, unfolding(mpx_format::specs::Decoding::decoded))]
fn parts_of(alloc: Global, bytes: &[u8]) -> Result<Parts, WireError>
    ensures ok { IfOk result (λ parts. decoded bytes.now ≡ Ok (⟦<Parts as Exact>⟧.view parts)) }
    ensures err { IfErr result (λ e. Refuses e (decoded bytes.now)) }
    ensures memory { IfErr result (λ e. e ≡ WireError.OutOfMemory → IsTrue (is_ok (front.read bytes.now))) }
    ensures some { IfErr result (λ e. e ≡ WireError.OutOfMemory → (version : Version) → bytes.now ≢ frame.spelling (version, no_parts)) }
{
    if bytes.len() > MOST_BYTES {
        return Err(WireError::TooLong);
    }
    match read_frame(alloc, bytes) {
        Ok(((_, parts), rest)) => {
            if rest.is_empty() {
                Ok(parts)
            } else {
                Err(placed(bytes.len(), Defect::NotCanonical(rest.len())))
            }
        }
        Err(ReadError::OutOfMemory) => Err(WireError::OutOfMemory),
        Err(ReadError::Defect(fault)) => Err(placed(bytes.len(), fault)),
    }
}

/// The board that the bytes spell, in version 1 or 2.
///
/// # Errors
/// `TooLong` over 1,048,576 bytes; else that of the first field that is wrong, `OutOfLimits` and `NotCanonical` with the offset of
/// its first byte; `OutOfMemory` where memory is refused.
pub fn decode(alloc: Global, bytes: &[u8]) -> Result<Board, WireError>
    // What is decoded is spelled so in some version, each byte of it.
    ensures found { IfOk result (λ board. IsSpelled bytes.now (parts_of board)) }
    // What is spelled so in some version is decoded, unless memory runs out.
    ensures only { (v : PartsView) → IsSpelled bytes.now v → Decodes result (Ok v) }
    // Which field is refused, and with what.
    ensures exact { Decodes result (decoded bytes.now) }
    // What stands before the parts takes no memory, and a frame that tells nothing takes none.
    ensures memory { IfErr result (λ e. e ≡ WireError.OutOfMemory → IsTrue (is_ok (front.read bytes.now))) }
    ensures some { IfErr result (λ e. e ≡ WireError.OutOfMemory → (v : PartsView) → IsSpelled bytes.now v → look_of v ≢ empty) }
{
    let parts = parts_of(alloc, bytes)?;
    Ok(Board::from_tidy(parts))
}

/// Joins the board that a rope spells to the board, in place, as [`decode`] and then [`Board::take`] do, without a board of its own for
/// what it says: the numbers of acknowledgements are raised as they are read. That it spells one is the caller's condition. An `Err`, for
/// want of memory, leaves a board between the old one and the join, each fact of which is one of the board, of the spelled one or of
/// their join; a frame that tells nothing wants none.
///
/// What is joined shares the rope's items, and copies none. Where pieces are shared, its bytes are read where they lie; only where a
/// field isn't found whole there are all copied into one place. What is kept of acknowledgements as they are spelled is passed over where
/// its bytes stand, and stays right.
pub fn take_rope(
    alloc: Global,
    board: &mut Board,
    kept: &mut Kept,
    rope: &RopeRef<'_>,
) -> Result<(), OutOfMemory>
    requires kept { AreKept kept.old.of.items (parts_of board.old).1 }
    requires spelled { (v : PartsView) × IsSpelled rope.now v }
    ensures kept { AreKept kept.new.of.items (parts_of board.new).1 }
    ensures ok { OnOk result ((v : PartsView) → IsSpelled rope.now v → look board.new ≡ join (look board.old) (look_of v)) }
    ensures err { OnErr result ((v : PartsView) → IsSpelled rope.now v → IsBetween (look board.old) (look_of v) (look board.new)) }
    ensures some { OnErr result ((v : PartsView) → IsSpelled rope.now v → look_of v ≢ empty) }
{
    match rope.in_one_place() {
        Some(bytes) => take_from(rope.source(alloc), board, kept, bytes),
        None => match take_where_it_lies(alloc, board, kept, rope) {
            Ok(()) => Ok(()),
            Err(_) => take_joined(alloc, board, kept, rope),
        },
    }
}

// The same, read where its bytes lie. An `Err` says that memory is refused, or that a piece stands where it isn't read so.
fn take_where_it_lies(
    alloc: Global,
    board: &mut Board,
    kept: &mut Kept,
    rope: &RopeRef<'_>,
) -> Result<(), OutOfMemory>
    requires kept { AreKept kept.old.of.items (parts_of board.old).1 }
    requires spelled { (v : PartsView) × IsSpelled rope.now v }
    ensures kept { AreKept kept.new.of.items (parts_of board.new).1 }
    ensures ok { OnOk result ((v : PartsView) → IsSpelled rope.now v → look board.new ≡ join (look board.old) (look_of v)) }
    ensures err { OnErr result ((v : PartsView) → IsSpelled rope.now v → IsBetween (look board.old) (look_of v) (look board.new)) }
    ensures again { OnErr result ((v : PartsView) → IsSpelled rope.now v → join (look board.new) (look_of v) ≡ join (look board.old) (look_of v)) }
{
    let (near, mut beyond) = rope.apart(alloc);
    let Ok((version, rest)) = read_near_front(near) else {
        return Err(OutOfMemory);
    };
    let _after = take_apart(version, &mut beyond, board, kept, rest)?;
    Ok(())
}

// The same, of a copy of all bytes in one place.
fn take_joined(
    alloc: Global,
    board: &mut Board,
    kept: &mut Kept,
    rope: &RopeRef<'_>,
) -> Result<(), OutOfMemory>
    requires kept { AreKept kept.old.of.items (parts_of board.old).1 }
    requires spelled { (v : PartsView) × IsSpelled rope.now v }
    ensures kept { AreKept kept.new.of.items (parts_of board.new).1 }
    ensures ok { OnOk result ((v : PartsView) → IsSpelled rope.now v → look board.new ≡ join (look board.old) (look_of v)) }
    ensures err { OnErr result ((v : PartsView) → IsSpelled rope.now v → IsBetween (look board.old) (look_of v) (look board.new)) }
{
    match rope.joined(alloc) {
        Err(_) => Err(OutOfMemory),
        Ok(bytes) => take_from(rope.source(alloc), board, kept, &bytes),
    }
}

// The same of bytes in one place, with the items taken from this source.
fn take_from(
    source: Source<'_>,
    board: &mut Board,
    kept: &mut Kept,
    bytes: &[u8],
) -> Result<(), OutOfMemory>
    requires kept { AreKept kept.old.of.items (parts_of board.old).1 }
    requires spelled { (v : PartsView) × IsSpelled bytes.now v }
    ensures kept { AreKept kept.new.of.items (parts_of board.new).1 }
    ensures ok { OnOk result ((v : PartsView) → IsSpelled bytes.now v → look board.new ≡ join (look board.old) (look_of v)) }
    ensures err { OnErr result ((v : PartsView) → IsSpelled bytes.now v → IsBetween (look board.old) (look_of v) (look board.new)) }
    ensures some { OnErr result ((v : PartsView) → IsSpelled bytes.now v → look_of v ≢ empty) }
{
    match read_front(bytes) {
        Err(_) => unreachable!(),
        Ok((version, rest)) => {
            let _after = take_parts(version, source, board, kept, rest)?;
            Ok(())
        }
    }
}
