//! Who carries a rank's posts, and tells what came of its calls.
ghost use Rattle.std.specs.Prelude.{◌≡◌, ℕ, IfOk, List, OnOk};
ghost use Rattle.std.specs.Option.{option_copied, option_map};
ghost use Rattle.mpx_name.specs.Name.{Name as NameView};
ghost use Rattle.mpx_num.specs.declared.own.Operation.{Operation};
ghost use Rattle.mpx_rank.specs.Carriers.{HearsOf, IsToldWithin, Terms, is_told, placed};

use join_core::OutOfMemory;
use mpx_birth::Birth;
use mpx_group::Proc;
use mpx_meaning::Line;
use mpx_name::Name;
use mpx_num::{Listing, Ops};
use mpx_post::PostError;
use mpx_statement::Posting;
use std::alloc::Global;

/// What came of a call.
#[derive(Drop)]
pub enum Heard<Call, Communicator> {
    /// Nothing yet: the call goes back.
    NotYet(Call),
    /// An outcome.
    Told {
        /// The line that tells it: the call's context and number, and the outcome.
        line: Line,
        /// The communicator that the call gave, where it gave one.
        given: Option<Communicator>,
    },
}

/// Who posts for ranks, and hears for them what came of their calls.
pub trait Carrier: Drop {
    /// A communicator, as it needs one to post there.
    type Communicator: Drop;

    /// A call that was posted, and whose outcome wasn't told yet.
    type Call: Drop;

    /// The context and the number of a call.
    ghost place: { Self.Call → NameView × ℕ };

    /// What it says of itself, by the job's own operations, which are lent to each call.
    ghost terms: { List Operation → Terms Self Self.Communicator };

    /// The context and the number of a call.
    fn into_place(call: Self::Call) -> (Name, u32)
        ensures { result ≡ place call };

    /// Posts for a rank what the statement says, on the communicator that its word is bound to, where it is bound to one.
    /// None: not now, nothing was posted.
    fn post(
        &mut self,
        alloc: Global,
        me: Proc,
        on: Option<&Self::Communicator>,
        posting: &Posting,
        ops: &Ops,
    ) -> Result<Option<Self::Call>, PostError>
        requires { (terms (⟦<Ops as Listing>⟧.operations ops.now)).may self.old me posting.now (option_copied on) }
        ensures { (terms (⟦<Ops as Listing>⟧.operations ops.now)).tries self.old me posting.now (option_copied on.entry) (placed place result) self.new };

    /// Whether the outcome of a rank's call can be told.
    fn is_told(
        &mut self,
        alloc: Global,
        me: Proc,
        call: &Self::Call,
        ops: &Ops,
    ) -> Result<bool, OutOfMemory>
        ensures hears { OnOk result ((terms (⟦<Ops as Listing>⟧.operations ops.now)).hears self.old self.new) }
        ensures told { IfOk result (λ told. told ≡ is_told ((terms (⟦<Ops as Listing>⟧.operations ops.now)).tells self.new me) (place call.now)) };

    /// What came of a rank's call.
    fn hear(
        &mut self,
        alloc: Global,
        me: Proc,
        call: Self::Call,
        ops: &Ops,
    ) -> Result<Heard<Self::Call, Self::Communicator>, OutOfMemory>
        ensures hears { OnOk result ((terms (⟦<Ops as Listing>⟧.operations ops.now)).hears self.old self.new) }
        ensures told { IfOk result (HearsOf (terms (⟦<Ops as Listing>⟧.operations ops.now)) self.new me (place call) call) };

    /// The communicator's name, and how it came to be, as far as that is known.
    fn known<'m>(
        &'m self,
        communicator: &'m Self::Communicator,
        ops: &Ops,
    ) -> Option<(&'m Name, &'m Birth)>
        ensures { option_map (λ c. (c.0.now, c.1.now)) result ≡ (terms (⟦<Ops as Listing>⟧.operations ops.now)).knows self.now communicator.now };

    /// Whether the rank has posted a free on the communicator.
    fn is_closed(&mut self, me: Proc, communicator: &Self::Communicator, ops: &Ops) -> bool
        ensures closed { result ≡ (terms (⟦<Ops as Listing>⟧.operations ops.now)).closes self.old me communicator.now }
        ensures same { self.new ≡ self.old };

    /// It may have heard nothing.
    ghost hears_nothing: { (operations : List Operation) (c : Self) → (terms operations).hears c c };

    ghost hears_more: { (operations : List Operation) (a b c : Self) → (terms operations).hears a b → (terms operations).hears b c → (terms operations).hears a c };

    /// What was told stays told.
    ghost stays_told: { (operations : List Operation) (a b : Self) → (terms operations).hears a b → (me : ℕ) → IsToldWithin ((terms operations).tells a me) ((terms operations).tells b me) };
}
