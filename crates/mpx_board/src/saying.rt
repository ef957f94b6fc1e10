//! What a process says that it has of the others' posts, told on a board.
ghost use Rattle.std.specs.Prelude.{◌≡◌, IfOk, IsTrue, OnErr, OnOk};
ghost use Rattle.mpx_board.specs.Boards.{Acknowledged, IsBoardBelow, Look, join, only, own_acks};
ghost use Rattle.mpx_board.specs.Contexts.{numbers_acked};
ghost use Rattle.mpx_board.specs.Parts.{PartsView};
ghost use Rattle.mpx_board.specs.Raised.{StoringLeads, Raises};
ghost use Rattle.mpx_board.specs.Tidy.{are_tidy_numbers};
ghost use Rattle.mpx_board.specs.Views.{view_of_acks};

use crate::acks::{Raised, exchange_acks, one_ack, raised_by};
use crate::board::Board;
use crate::nested::Digest;
use join_core::OutOfMemory;
use mpx_group::Proc;
use mpx_name::Name;
use std::alloc::Global;
use std::mem;

impl Board {
    ghost use Rattle.mpx_board.specs.Looks.{look, parts_of};

    /// Joins to the board that the process has or has dropped so many calls of the member. An `Err` changes nothing.
    pub fn raise_ack(
        &mut self,
        alloc: Global,
        process: Proc,
        name: &Name,
        member: Proc,
        number: u32,
    ) -> Result<(), OutOfMemory>
        ensures ok { OnOk result (look self.new ≡ join (look self.old) (only (Acknowledged process name.now member number))) }
        ensures err { OnErr result (look self.new ≡ look self.old) }
    {
        if number == 0 {
            return Ok(());
        }
        let said = one_ack(alloc, name, member, number)?;
        self.raise_acks(alloc, process, &said)
    }

    /// Joins to the board that the process has or has dropped all these calls, of which no number is 0. An `Err` changes
    /// nothing.
    pub fn raise_acks(
        &mut self,
        alloc: Global,
        process: Proc,
        said: &Digest,
    ) -> Result<(), OutOfMemory>
        requires { IsTrue (are_tidy_numbers (view_of_acks said.now)) }
        ensures ok { OnOk result (look self.new ≡ join (look self.old) (own_acks process (numbers_acked (view_of_acks said.now)))) }
        ensures err { OnErr result (look self.new ≡ look self.old) }
    {
        let raised = self.raised(alloc, process, said)?;
        self.store(raised);
        Ok(())
    }

    /// Makes what stands once the process says all these calls too, of which no number is 0: what [`Board::store`] stores.
    pub fn raised(&self, alloc: Global, process: Proc, said: &Digest) -> Result<Raised, OutOfMemory>
        requires { IsTrue (are_tidy_numbers (view_of_acks said.now)) }
        ensures { IfOk result (λ made. Raises made (look self.now) (join (look self.now) (own_acks process (numbers_acked (view_of_acks said.now))))) }
    {
        if said.is_empty() {
            return Ok(Raised::Nothing);
        }
        raised_by(alloc, &self.inside.second, process, said)
    }

    /// Stores what was made of this board as it stands. It takes no memory and can't fail.
    pub fn store(&mut self, raised: Raised)
        requires made { (new : Look) × Raises raised (look self.old) new }
        ensures gives { (new : Look) → Raises raised (look self.old) new → look self.new ≡ new }
        ensures above { IsBoardBelow (look self.old) (look self.new) }
    {
        let _before = exchange_acks(&mut self.inside.second, raised);
    }

    /// Says all these calls too, as [`Board::raise_acks`] does, and gives what takes that back: [`Board::exchange`] stores again
    /// what stood before. An `Err` changes nothing.
    pub fn say(
        &mut self,
        alloc: Global,
        process: Proc,
        said: &Digest,
    ) -> Result<Raised, OutOfMemory>
        requires { IsTrue (are_tidy_numbers (view_of_acks said.now)) }
        ensures ok { OnOk result (look self.new ≡ join (look self.old) (own_acks process (numbers_acked (view_of_acks said.now)))) }
        ensures back { IfOk result (λ before. StoringLeads before (parts_of self.new) (parts_of self.old)) }
        ensures err { OnErr result (look self.new ≡ look self.old) }
    {
        let raised = self.raised(alloc, process, said)?;
        Ok(self.exchange(raised))
    }

    /// Stores what was made, and gives what stores again what stood there. It takes no memory and can't fail.
    pub fn exchange(&mut self, raised: Raised) -> Raised
        requires { (new : PartsView) × StoringLeads raised (parts_of self.old) new }
        ensures new { (new : PartsView) → StoringLeads raised (parts_of self.old) new → parts_of self.new ≡ new }
        ensures back { StoringLeads result (parts_of self.new) (parts_of self.old) }
    {
        exchange_acks(&mut self.inside.second, raised)
    }

    /// Exchanges the acknowledgements with those of the other. It takes no memory.
    pub fn swap_acks(&mut self, other: &mut Board)
        ensures mine { parts_of self.new ≡ ((parts_of self.old).0, (parts_of other.old).1) }
        ensures theirs { parts_of other.new ≡ ((parts_of other.old).0, (parts_of self.old).1) }
    {
        mem::swap(&mut self.inside.second, &mut other.inside.second);
    }
}
