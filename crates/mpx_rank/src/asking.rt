//! Statements that are answered at once.
ghost use Rattle.std.specs.Prelude.{◌≡◌, IfOk};
ghost use Rattle.mpx_meaning.specs.Ranks.{answered_by, found_map};
ghost use Rattle.mpx_meaning.specs.Standing.{looked_up};
ghost use Rattle.mpx_rank.specs.Moves.{closed_by, communicator_in, found_by, found_with};

use crate::carrier::Carrier;
use crate::interpreter::communicator;
use join_core::OutOfMemory;
use mpx_birth::Birth;
use mpx_group::Proc;
use mpx_meaning::{Found, Line, comparison_answer, neighbours_answer, translation_answer};
use mpx_name::Name;
use mpx_num::{Listing, Ops};
use mpx_statement::{Question, Word};
use std::alloc::Global;
use std::collections::BTreeMap;

/// The line that answers a question of a rank, by what its words are bound to, what the carrier knows of that, and what of it the
/// rank has freed.
pub(crate) fn answer<C: Carrier>(
    alloc: Global,
    carrier: &mut C,
    me: Proc,
    bound: &BTreeMap<Word, Option<C::Communicator>>,
    question: &Question,
    ops: &Ops,
) -> Result<Line, OutOfMemory>
    ensures line { IfOk result (λ line. line ≡ answered_by me (found_by ((C.terms (⟦<Ops as Listing>⟧.operations ops.now)).closes carrier.old me) ((C.terms (⟦<Ops as Listing>⟧.operations ops.now)).knows carrier.old) (looked_up bound.now)) question.now) }
    ensures same { carrier.new ≡ carrier.old }
{
    match question {
        Question::Neighbours { on, side } => {
            let freed = is_freed(carrier, me, bound, on, ops);
            neighbours_answer(alloc, me, *side, stands_for(carrier, bound, on, freed, ops))
        }
        Question::Compare { first, second } => {
            let freed = is_freed(carrier, me, bound, first, ops);
            let second_freed = is_freed(carrier, me, bound, second, ops);
            comparison_answer(
                alloc,
                stands_for(carrier, bound, first, freed, ops),
                stands_for(carrier, bound, second, second_freed, ops),
            )
        }
        Question::Translate { from, to, ranks } => {
            let freed = is_freed(carrier, me, bound, from, ops);
            let to_freed = is_freed(carrier, me, bound, to, ops);
            translation_answer(
                alloc,
                ranks.as_slice(),
                stands_for(carrier, bound, from, freed, ops),
                stands_for(carrier, bound, to, to_freed, ops),
            )
        }
    }
}

// Whether the rank has freed the communicator that a word is bound to, where it is one.
fn is_freed<C: Carrier>(
    carrier: &mut C,
    me: Proc,
    bound: &BTreeMap<Word, Option<C::Communicator>>,
    word: &Word,
    ops: &Ops,
) -> bool
    ensures freed { result ≡ closed_by ((C.terms (⟦<Ops as Listing>⟧.operations ops.now)).closes carrier.old me) (communicator_in (looked_up bound.now word.now)) }
    ensures same { carrier.new ≡ carrier.old }
{
    match communicator(bound, word) {
        Some(communicator) => carrier.is_closed(me, communicator, ops),
        None => false,
    }
}

// What a word stands for, whose communicator the rank has freed or not.
fn stands_for<'m, C: Carrier>(
    carrier: &'m C,
    bound: &'m BTreeMap<Word, Option<C::Communicator>>,
    word: &Word,
    freed: bool,
    ops: &Ops,
) -> Found<(&'m Name, &'m Birth)>
    ensures { found_map (λ c. (c.0.now, c.1.now)) result ≡ found_with freed ((C.terms (⟦<Ops as Listing>⟧.operations ops.now)).knows carrier.now) (communicator_in (looked_up bound.now word.now)) }
{
    let Some(communicator) = communicator(bound, word) else {
        return Found::Null;
    };
    if freed {
        return Found::Freed;
    }
    match carrier.known(communicator, ops) {
        Some(known) => Found::Open(known),
        None => Found::Null,
    }
}
