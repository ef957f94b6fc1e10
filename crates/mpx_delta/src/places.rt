//! The contexts of a board without posts that are known, each at its place, so that they can stand in the board for a while.
ghost use Rattle.std.specs.Prelude.{◌≡◌, true, IfNone, IfOk, IfSome, IsTrue, Some};
ghost use Rattle.join_nest.specs.Placed.{with_values};
ghost use Rattle.join_nest.specs.Seen.{seen};
ghost use Rattle.mpx_board.specs.Looks.{parts_of};
ghost use Rattle.mpx_board.specs.Tidy.{are_tidy_entries, is_tidy, is_tidy_lifted};
ghost use Rattle.mpx_board.specs.Views.{view_of_acks, view_of_entries, view_of_lifted};
ghost use Rattle.mpx_digest.specs.Digest.{numbers_acked};
ghost use Rattle.mpx_digest.specs.Keep.{keep};
ghost use Rattle.mpx_delta.specs.Lean.{lean_context, lean_lifted, with_contexts};

use crate::delta::lean_entry;
use join_core::{OutOfMemory, Pair};
use join_nest::{Changes, Keyed, Lift};
use mpx_board::{Board, Digest, Lifted, is_said};
use mpx_name::Name;
use std::alloc::Global;
use std::mem;

// The live contexts that the digest has, without their posts below it, each with its place among all. None where one would say
// nothing then.
pub fn lean_places(
    alloc: Global,
    contexts: &Keyed<Name, Lifted>,
    digest: &Digest,
) -> Result<Option<Changes<Lifted>>, OutOfMemory>
    requires { are_tidy_entries (view_of_entries contexts.now) ≡ true }
    ensures { IfOk result (λ made. IfSome made (λ changes. with_values (view_of_entries contexts.now) (seen view_of_lifted changes.values.items)
        ≡ keep (lean_context (view_of_acks digest.now)) (view_of_entries contexts.now))) }
{
    let entries = contexts.entries();
    let mut made = Vec::new(alloc);
    for place in 0..entries.len() {
        let entry = &entries[place];
        if let Some(lean) = leaner(alloc, &entry.0, &entry.1, digest)? {
            if !is_said(&lean) {
                return Ok(None);
            }
            made.push((place, lean))?;
        }
    }
    Ok(Some(Changes::of(made)))
}

// The context with this name without its posts below the digest, where it is live and the digest has it.
fn leaner(
    alloc: Global,
    name: &Name,
    known: &Lifted,
    digest: &Digest,
) -> Result<Option<Lifted>, OutOfMemory>
    requires { is_tidy_lifted (view_of_lifted known.now) ≡ true }
    ensures none { IfOk result (λ made. IfNone made (lean_context (view_of_acks digest.now) name.now (view_of_lifted known.now) ≡ Some (view_of_lifted known.now))) }
    ensures some { IfOk result (λ made. IfSome made (λ lean. view_of_lifted lean
        ≡ lean_lifted (numbers_acked (view_of_acks digest.now) name.now) (view_of_lifted known.now))) }
{
    match known {
        Lift::Dead => Ok(None),
        Lift::Live(entry) => match digest.get(name) {
            None => Ok(None),
            Some(numbers) => Ok(Some(Lift::Live(lean_entry(alloc, entry, numbers)?))),
        },
    }
}

// Exchanges these contexts with those at their places. Done once more it takes itself back. It takes no memory.
pub fn exchange_contexts(alloc: Global, board: &mut Board, changes: &mut Changes<Lifted>)
    requires { IsTrue (is_tidy (with_contexts (parts_of board.old) (seen view_of_lifted changes.old.values.items))) }
    ensures new { parts_of board.new ≡ with_contexts (parts_of board.old) (seen view_of_lifted changes.old.values.items) }
    ensures back { with_contexts (parts_of board.new) (seen view_of_lifted changes.new.values.items) ≡ parts_of board.old }
{
    let Pair { first, second } = mem::replace(board, Board::new(alloc)).into_pair();
    let mut contexts = first.into_entries();
    changes.exchange(&mut contexts);
    let first = Keyed::from_rising(contexts);
    *board = Board::from_tidy(Pair { first, second });
}
