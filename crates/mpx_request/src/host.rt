//! Who posts for a process and hears of others.
ghost use Rattle.std.specs.Prelude.{◌≡◌, ◌+◌, ◌≤◌, ℕ, List, Some, IfErr, OnOk};
ghost use Rattle.std.specs.Option.{option_copied};
ghost use Rattle.mpx_name.specs.Name.{Name as NameView};
ghost use Rattle.mpx_num.specs.declared.own.Operation.{Operation};
ghost use Rattle.mpx_post.specs.Drafts.{refusal_of};
ghost use Rattle.mpx_board.specs.Looks.{look};
ghost use Rattle.mpx_node.specs.Forgetting.{forgets};
ghost use Rattle.mpx_node.specs.declared.finished.Finished.{Finished as FinishedView};
ghost use Rattle.mpx_node.specs.Nodes.{NodeView, Opens, Posts, checked_on, gathers_on, result_on, posted_on, front_on};
ghost use Rattle.mpx_request.specs.Harvested.{HarvestsNext};
ghost use Rattle.mpx_request.specs.Later.{Later};
ghost use Rattle.mpx_request.specs.declared.answers.TurnError.{TurnError as TurnErrorView};

use crate::answers::TurnError;
use join_core::OutOfMemory;
use mpx_board::Board;
use mpx_name::Name;
use mpx_node::{Finished, Harvest};
use mpx_num::{Listing, Ops};
use mpx_post::{Draft, PostError};
use std::alloc::Global;

/// Who posts for a process and hears of others: a node, or what has one.
pub trait Host: Drop {
    /// The node that it shows.
    ghost node: { Self → NodeView };

    /// The operations of the job's own by which it goes, where these are lent: a node goes by those, and who has a list of its own by
    /// that one.
    ghost goes_by: { Self → List Operation → List Operation };

    /// It may go from one state to another by making so many turns.
    ghost turned: { Self → ℕ → Self → Type 0 };

    /// A turn may be refused so, from one state to another.
    ghost turn_refused: { Self → TurnErrorView → Self → Type 0 };

    /// It has had this result of a call, let go since or not. Who remembers none says so of any.
    ghost has_had: { Self → NameView → ℕ → FinishedView → Type 0 };

    /// Posts the draft as the next call on a context, and gives its number. It makes no turn. An `Err` changes nothing: it is the draft's
    /// first refusal, or want of memory where it has none.
    fn post(
        &mut self,
        alloc: Global,
        name: &Name,
        draft: Draft,
        ops: &Ops,
    ) -> Result<u32, PostError>
        ensures posts { Posts name.now (checked_on (goes_by self.old (⟦<Ops as Listing>⟧.operations ops.now)) (node self.old) name.now draft) result (node self.old) (node self.new) }
        ensures no_turn { turned self.old 0 self.new };

    /// Why the post of the draft would be refused, where it would. It takes no memory.
    fn refusal(&self, name: &Name, draft: &Draft, ops: &Ops) -> Option<PostError>
        ensures { result ≡ refusal_of (checked_on (goes_by self.now (⟦<Ops as Listing>⟧.operations ops.now)) (node self.now) name.now draft.now) };

    /// Opens the gathering with this tag of the members of the parent with these ranks: its name. It makes no turn. An `Err` changes
    /// nothing.
    fn open_gathering(
        &mut self,
        alloc: Global,
        parent: &Name,
        tag: i128,
        ranks: &[i128],
    ) -> Result<Name, PostError>
        ensures opens { Opens parent.now (gathers_on (node self.old) parent.now tag ranks.now) result (node self.old) (node self.new) }
        ensures no_turn { turned self.old 0 self.new };

    /// Harvests the next call on a context, where its row is whole. It makes no turn. An `Err` is want of memory, and changes nothing.
    fn harvest(&mut self, alloc: Global, name: &Name, ops: &Ops) -> Result<Harvest, OutOfMemory>
        ensures harvests { HarvestsNext (goes_by self.old (⟦<Ops as Listing>⟧.operations ops.now)) name.now result (node self.old) (node self.new) }
        ensures no_turn { turned self.old 0 self.new };

    /// The result of a call that was harvested, kept until [`Host::forget`] lets it go; none of one that wasn't, nor of one that was let go.
    fn result(&self, name: &Name, call: u32) -> Option<&Finished>
        ensures { option_copied result ≡ result_on (node self.now) name.now call };

    /// How many calls on a context were harvested, their results let go or not: 0 where it isn't opened.
    fn front(&self, name: &Name) -> u32
        ensures { result ≡ front_on (node self.now) name.now };

    /// Lets the results of calls below the number on a context go, as far as these are harvested, but never the newest. Nothing else is
    /// changed. It makes no turn and takes no memory.
    fn forget(&mut self, name: &Name, below: u32)
        ensures forgets { node self.new ≡ forgets name.now below (node self.old) }
        ensures no_turn { turned self.old 0 self.new };

    /// What the process knows of all communicators.
    fn board(&self) -> &Board
        ensures { look result.now ≡ (node self.now).board };

    /// Lets time pass once: others may hear of this process, and it of them. It posts nothing, harvests nothing and opens nothing. Calls
    /// that wait make as many turns as they are given, at most. An `Err` is want of memory, or the number of a rank that gave up:
    /// then the host makes no turn any more.
    fn turn(&mut self, alloc: Global) -> Result<(), TurnError>
        ensures later { Later (node self.old) (node self.new) }
        ensures opened { (node self.new).opened ≡ (node self.old).opened }
        ensures counted { OnOk result (turned self.old 1 self.new) }
        ensures refused { IfErr result (λ why. turn_refused self.old why self.new) };

    /// There are no more results than posts.
    ghost bounded: { (h : Self) (name : _) → front_on (node h) name ≤ posted_on (node h) name };

    /// Through all turns it goes by the same operations.
    ghost stays_by: { (a b : Self) (n : ℕ) → turned a n b → goes_by b ≡ goes_by a };

    ghost turns_none: { (h : Self) → turned h 0 h };

    ghost turns_more: { (a b c : Self) (m n : ℕ) → turned a m b → turned b n c → turned a (m + n) c };

    /// What it has it has had,
    ghost had_now: { (h : Self) (name : NameView) (call : ℕ) (finished : FinishedView) → result_on (node h) name call ≡ Some finished → has_had h name call finished };

    /// and through all turns, and calls that make none, that stays so,
    ghost had_later: { (a b : Self) (n : ℕ) (name : NameView) (call : ℕ) (finished : FinishedView) → turned a n b → has_had a name call finished → has_had b name call finished };

    /// and where a turn is refused.
    ghost had_refused: { (a b : Self) (why : TurnErrorView) (name : NameView) (call : ℕ) (finished : FinishedView) → turn_refused a why b → has_had a name call finished → has_had b name call finished };
}
