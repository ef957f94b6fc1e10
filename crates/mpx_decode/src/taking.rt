//! The parts of a board joined to another in place, as their bytes are read.
ghost use Rattle.std.specs.Prelude.{◌≢◌, ◌++◌, IfOk, OnErr, ◌≤◌, length};
ghost use Rattle.mpx_board.specs.Looks.{parts_of};
ghost use Rattle.mpx_board.specs.Parts.{parts_between, parts_joining};
ghost use Rattle.mpx_board.specs.Tidy.{is_tidy};
ghost use Rattle.mpx_board.specs.Views.{view_of_all_acks, view_of_entries};
ghost use Rattle.mpx_format.specs.Contexts.{parts};
ghost use Rattle.mpx_format.specs.Kept.{AreKept};
ghost use Rattle.mpx_decode.specs.Raising.{JoinsFront, StandsInFront, StandsTidy, StopsBetween, no_parts};

use crate::join_contexts::raise_contexts;
use crate::join_kept::raise_all_acks;
use join_core::{OutOfMemory, Pair};
use join_nest::Keyed;
use mpx_board::{Board, Digest, Lifted};
use mpx_format::{Kept, Version};
use mpx_group::Proc;
use mpx_name::Name;
use mpx_rope::{Beyond, Source};
use std::mem;

/// Joins the parts at the front of these bytes, as the version spells them, to the board, as they are read, and gives the bytes
/// after them. An `Err` leaves a board between. Bytes that spell no parts, and nothing else, take no memory. Of acknowledgements,
/// what is kept as it is spelled is passed over where its bytes stand; what changes is no longer kept.
pub fn take_parts<'a>(
    version: Version,
    source: Source<'a>,
    board: &mut Board,
    kept: &mut Kept,
    bytes: &'a [u8],
) -> Result<&'a [u8], OutOfMemory>
    requires spelled { StandsTidy (parts version) is_tidy bytes.now }
    requires kept { AreKept kept.old.of.items (parts_of board.old).1 }
    ensures kept { AreKept kept.new.of.items (parts_of board.new).1 }
    ensures ok { IfOk result (λ rest. JoinsFront (parts version) parts_joining bytes.now rest.now (parts_of board.old) (parts_of board.new)) }
    ensures err { OnErr result (StopsBetween (parts version) parts_between bytes.now (parts_of board.old) (parts_of board.new)) }
    ensures some { OnErr result (bytes.now ≢ (parts version).spelling no_parts) }
{
    take_apart(version, &mut Beyond::nothing(source), board, kept, bytes)
}

/// The same of bytes of which only the first are near, and the others lie beyond: items are shared where they lie. An `Err` says that memory is
/// refused, or that a field isn't near as a whole; it leaves a board between.
pub fn take_apart<'a>(
    version: Version,
    beyond: &mut Beyond<'a>,
    board: &mut Board,
    kept: &mut Kept,
    bytes: &'a [u8],
) -> Result<&'a [u8], OutOfMemory>
    requires spelled { StandsTidy (parts version) is_tidy (bytes.now ++ beyond.old) }
    requires kept { AreKept kept.old.of.items (parts_of board.old).1 }
    ensures kept { AreKept kept.new.of.items (parts_of board.new).1 }
    ensures ok { IfOk result (λ rest. JoinsFront (parts version) parts_joining (bytes.now ++ beyond.old) (rest.now ++ beyond.new) (parts_of board.old) (parts_of board.new)) }
    ensures err { OnErr result (StopsBetween (parts version) parts_between (bytes.now ++ beyond.old) (parts_of board.old) (parts_of board.new)) }
    ensures some { OnErr result (bytes.now ≢ (parts version).spelling no_parts) }
    ensures less { length beyond.new ≤ length beyond.old }
{
    let held = mem::replace(board, Board::new(beyond.alloc()));
    let Pair {
        mut first,
        mut second,
    } = held.into_pair();
    let taken = take_both(version, beyond, &mut first, &mut second, kept, bytes);
    *board = Board::from_tidy(Pair { first, second });
    taken
}

// What is said of contexts, and then the acknowledgements.
fn take_both<'a>(
    version: Version,
    beyond: &mut Beyond<'a>,
    contexts: &mut Keyed<Name, Lifted>,
    acks: &mut Keyed<Proc, Digest>,
    kept: &mut Kept,
    bytes: &'a [u8],
) -> Result<&'a [u8], OutOfMemory>
    requires spelled { StandsInFront (parts version) (bytes.now ++ beyond.old) }
    requires kept { AreKept kept.old.of.items (view_of_all_acks acks.old) }
    ensures kept { AreKept kept.new.of.items (view_of_all_acks acks.new) }
    ensures ok { IfOk result (λ rest. JoinsFront (parts version) parts_joining (bytes.now ++ beyond.old) (rest.now ++ beyond.new) (view_of_entries contexts.old, view_of_all_acks acks.old) (view_of_entries contexts.new, view_of_all_acks acks.new)) }
    ensures err { OnErr result (StopsBetween (parts version) parts_between (bytes.now ++ beyond.old) (view_of_entries contexts.old, view_of_all_acks acks.old) (view_of_entries contexts.new, view_of_all_acks acks.new)) }
    ensures some { OnErr result (bytes.now ≢ (parts version).spelling no_parts) }
    ensures less { length beyond.new ≤ length beyond.old }
{
    let rest = raise_contexts(version, beyond, contexts, bytes)?;
    raise_all_acks(version, beyond, acks, kept, rest)
}
