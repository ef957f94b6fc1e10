//! A process's steps at the queue, under its rule, and the list of what it did, which has none at first.
ghost use Rattle.std.specs.Prelude.{◌≡◌, [], IfNone, IfOk, OnErr, MatchOption, MatchResult};
ghost use Rattle.crossbeam_queue.specs.Fifo.{Held, Pops, Pushes};
ghost use Rattle.crossbeam_queue.specs.Passes.{IsPassOf, IsSamePass, ruled_capacity, view};
ghost use Rattle.mpx_board.specs.Parts.{PartsView};
ghost use Rattle.mpx_format.specs.Decoding.{IsSpelled};
ghost use Rattle.mpx_bus.specs.Rule.{IsHeldAt, SoundQueue, Stood};
ghost use Rattle.mpx_bus.specs.Views.{after_pop, after_push, maker as first_view, maker_of, seat_of};

use crate::frame::Frame;
use crate::rule::{Aim, LearnsSetup, Named, Queue, QueuePass, Sends, Takes};
use crate::trace::{EmptyQueue, JournalPass};
use std::alloc::{AllocError, Global};
use std::sync::Wait;

/// Pushes a frame, where the rule lets it, behind what the line shows. A frame that finds no room comes back.
pub(crate) fn push_to<M: Aim, R: Wait>(
    rt: &R,
    queue: &Queue,
    pass: &mut QueuePass,
    line: &JournalPass,
    frame: Frame,
) -> Result<(), Frame>
    requires queue { IsPassOf queue.now pass.old }
    requires line { view line.now ≡ M.journal }
    requires rule { Pushes SoundQueue (ruled_capacity queue.now) pass.old.id (view pass.old) frame
        (λ w. (w ≡ after_push M.journal frame (view pass.old)) × Stood (view pass.old).setup (seat_of (view pass.old)).me (seat_of w).journal) }
    ensures queue { IsSamePass pass.old pass.new }
    ensures rule { MatchResult result
        (λ _. (view pass.new ≡ after_push (view line.now) frame (view pass.old)) × Stood (view pass.old).setup (seat_of (view pass.old)).me (seat_of (view pass.new)).journal)
        (λ f. (f ≡ frame) × (view pass.new ≡ view pass.old)) }
    ensures full { OnErr result (Held (ruled_capacity queue.now) (IsHeldAt (view pass.old))) }
{
    let _ = line;
    queue.push_as::<Sends<M>, R>(rt, pass, frame)
}

/// Pops a frame behind what the line shows: it is read as a part.
pub(crate) fn pop_to<M: Aim, R: Wait>(
    rt: &R,
    queue: &Queue,
    pass: &mut QueuePass,
    line: &JournalPass,
) -> Option<Frame>
    requires queue { IsPassOf queue.now pass.old }
    requires line { view line.now ≡ M.journal }
    requires rule { Pops SoundQueue pass.old.id (view pass.old)
        (λ x w. (w ≡ after_pop M.journal x (view pass.old)) × Stood (view pass.old).setup (seat_of (view pass.old)).me (seat_of w).journal × ((parts : PartsView) × IsSpelled x parts)) }
    ensures queue { IsSamePass pass.old pass.new }
    ensures rule { MatchOption result (view pass.new ≡ view pass.old)
        (λ x. (view pass.new ≡ after_pop (view line.now) x (view pass.old)) × Stood (view pass.old).setup (seat_of (view pass.old)).me (seat_of (view pass.new)).journal × ((parts : PartsView) × IsSpelled x parts)) }
    ensures empty { IfNone result (Held 0 (IsHeldAt (view pass.old))) }
{
    let _ = line;
    queue.pop_as::<Takes<M>, R>(rt, pass)
}

/// The maker learns what all agree on.
pub(crate) fn name_all<N: Named>(queue: &Queue, maker: &mut QueuePass)
    requires queue { IsPassOf queue.now maker.old }
    requires first { view maker.old ≡ first_view }
    ensures queue { IsSamePass maker.old maker.new }
    ensures named { view maker.new ≡ maker_of N.setup 0 }
{
    let _ = queue.another::<LearnsSetup<N>>(maker);
}

/// A list of nothing done.
pub(crate) fn opened_line(alloc: Global) -> Result<(EmptyQueue, JournalPass), AllocError>
    ensures { IfOk result (λ l. IsPassOf l.0 l.1 × (view l.1 ≡ [])) }
{
    EmptyQueue::ruled(alloc, 1)
}
