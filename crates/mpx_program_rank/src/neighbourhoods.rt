//! The calls along the edges of a communicator's graph.
ghost use Rattle.std.specs.Prelude.{◌≡◌, ◌≤◌, [], length, map, pos};
ghost use Rattle.mpx_kind.specs.declared.kinds.Mode.TheVariants.{Blocking, Nonblocking};
ghost use Rattle.mpx_comm.specs.Lines as line;
ghost use Rattle.mpx_program_rank.specs.Gives.{Gives, IsRead, Starts};

use crate::call_error::CallError;
use crate::pending::Pending;
use crate::rank::Rank;
use crate::reading::{Made, number_of};
use mpx_call::Item;
use mpx_comm::{Comm, Host};
use mpx_num::Ops;

/// Each call is the one of [`Desk`](crate::Desk) with its name; what members give and get is told there.
impl<'a, H: Host> Rank<'a, H> {
    /// `MPI_NEIGHBOR_ALLGATHER`: every rank gives the same items to all its destinations, and gets `count` items of each source.
    pub fn neighbor_allgather<T: Item>(
        &mut self,
        comm: &Comm,
        count: usize,
        items: &[T],
    ) -> Result<Vec<T>, CallError>
        ensures gives { Gives (H.goes_by self.old.desk.now.host []) H.node H.turned H.turn_refused comm.now.name (line.neighbor_allgather Blocking T.ty (pos count) (T.numbers items.now)) self.old.turns (IsRead T.numbers) result self.old.desk.now self.new.desk.now }
        ensures same { self.new.desk.ghost_name ≡ self.old.desk.ghost_name }
        ensures kept { (self.new.world ≡ self.old.world) × (self.new.turns ≡ self.old.turns) }
    {
        let made = Made::new("neighbor_allgather", comm, items.len());
        let given = self.given(made, items)?;
        let ops = Ops::none(self.alloc);
        let answer = self.desk.neighbor_allgather(
            self.alloc,
            comm,
            T::item_type(),
            number_of(count),
            given,
            self.turns,
            &ops,
        );
        self.listed(made, answer)
    }

    /// [`Rank::neighbor_allgather`] without waiting: its request.
    pub fn ineighbor_allgather<T: Item>(
        &mut self,
        comm: &Comm,
        count: usize,
        items: &[T],
    ) -> Result<Pending<T>, CallError>
        ensures starts { Starts (H.goes_by self.old.desk.now.host []) H.node H.turned H.turn_refused comm.now.name (line.neighbor_allgather Nonblocking T.ty (pos count) (T.numbers items.now)) (λ pending. pending.request) result self.old.desk.now self.new.desk.now }
        ensures same { self.new.desk.ghost_name ≡ self.old.desk.ghost_name }
        ensures kept { (self.new.world ≡ self.old.world) × (self.new.turns ≡ self.old.turns) }
    {
        let made = Made::new("ineighbor_allgather", comm, items.len());
        let given = self.given(made, items)?;
        let ops = Ops::none(self.alloc);
        let answer = self.desk.ineighbor_allgather(
            self.alloc,
            comm,
            T::item_type(),
            number_of(count),
            given,
            &ops,
        );
        self.pending(made, answer)
    }

    /// `MPI_NEIGHBOR_ALLGATHERV`: as [`Rank::neighbor_allgather`], with as many items of each source as `counts` has for it.
    pub fn neighbor_allgatherv<T: Item>(
        &mut self,
        comm: &Comm,
        counts: &[u32],
        items: &[T],
    ) -> Result<Vec<T>, CallError>
        ensures gives { Gives (H.goes_by self.old.desk.now.host []) H.node H.turned H.turn_refused comm.now.name (line.neighbor_allgatherv Blocking T.ty (map pos counts.now) (T.numbers items.now)) self.old.turns (IsRead T.numbers) result self.old.desk.now self.new.desk.now }
        ensures same { self.new.desk.ghost_name ≡ self.old.desk.ghost_name }
        ensures kept { (self.new.world ≡ self.old.world) × (self.new.turns ≡ self.old.turns) }
    {
        let made = Made::new("neighbor_allgatherv", comm, items.len()).counted(counts.len());
        let counts = self.counts(made, counts)?;
        let given = self.given(made, items)?;
        let ops = Ops::none(self.alloc);
        let answer = self.desk.neighbor_allgatherv(
            self.alloc,
            comm,
            T::item_type(),
            counts,
            given,
            self.turns,
            &ops,
        );
        self.listed(made, answer)
    }

    /// [`Rank::neighbor_allgatherv`] without waiting: its request.
    pub fn ineighbor_allgatherv<T: Item>(
        &mut self,
        comm: &Comm,
        counts: &[u32],
        items: &[T],
    ) -> Result<Pending<T>, CallError>
        ensures starts { Starts (H.goes_by self.old.desk.now.host []) H.node H.turned H.turn_refused comm.now.name (line.neighbor_allgatherv Nonblocking T.ty (map pos counts.now) (T.numbers items.now)) (λ pending. pending.request) result self.old.desk.now self.new.desk.now }
        ensures same { self.new.desk.ghost_name ≡ self.old.desk.ghost_name }
        ensures kept { (self.new.world ≡ self.old.world) × (self.new.turns ≡ self.old.turns) }
    {
        let made = Made::new("ineighbor_allgatherv", comm, items.len()).counted(counts.len());
        let counts = self.counts(made, counts)?;
        let given = self.given(made, items)?;
        let ops = Ops::none(self.alloc);
        let answer = self
            .desk
            .ineighbor_allgatherv(self.alloc, comm, T::item_type(), counts, given, &ops);
        self.pending(made, answer)
    }

    /// `MPI_NEIGHBOR_ALLTOALL`: every rank gives a block of `sent` items to each destination, and gets one of `taken` of each source.
    pub fn neighbor_alltoall<T: Item>(
        &mut self,
        comm: &Comm,
        sent: usize,
        taken: usize,
        items: &[T],
    ) -> Result<Vec<T>, CallError>
        ensures gives { Gives (H.goes_by self.old.desk.now.host []) H.node H.turned H.turn_refused comm.now.name (line.neighbor_alltoall Blocking T.ty (pos sent) (pos taken) (T.numbers items.now)) self.old.turns (IsRead T.numbers) result self.old.desk.now self.new.desk.now }
        ensures same { self.new.desk.ghost_name ≡ self.old.desk.ghost_name }
        ensures kept { (self.new.world ≡ self.old.world) × (self.new.turns ≡ self.old.turns) }
    {
        let made = Made::new("neighbor_alltoall", comm, items.len());
        let given = self.given(made, items)?;
        let ops = Ops::none(self.alloc);
        let answer = self.desk.neighbor_alltoall(
            self.alloc,
            comm,
            T::item_type(),
            number_of(sent),
            number_of(taken),
            given,
            self.turns,
            &ops,
        );
        self.listed(made, answer)
    }

    /// [`Rank::neighbor_alltoall`] without waiting: its request.
    pub fn ineighbor_alltoall<T: Item>(
        &mut self,
        comm: &Comm,
        sent: usize,
        taken: usize,
        items: &[T],
    ) -> Result<Pending<T>, CallError>
        ensures starts { Starts (H.goes_by self.old.desk.now.host []) H.node H.turned H.turn_refused comm.now.name (line.neighbor_alltoall Nonblocking T.ty (pos sent) (pos taken) (T.numbers items.now)) (λ pending. pending.request) result self.old.desk.now self.new.desk.now }
        ensures same { self.new.desk.ghost_name ≡ self.old.desk.ghost_name }
        ensures kept { (self.new.world ≡ self.old.world) × (self.new.turns ≡ self.old.turns) }
    {
        let made = Made::new("ineighbor_alltoall", comm, items.len());
        let given = self.given(made, items)?;
        let ops = Ops::none(self.alloc);
        let answer = self.desk.ineighbor_alltoall(
            self.alloc,
            comm,
            T::item_type(),
            number_of(sent),
            number_of(taken),
            given,
            &ops,
        );
        self.pending(made, answer)
    }

    /// `MPI_NEIGHBOR_ALLTOALLV`: as [`Rank::neighbor_alltoall`], in blocks of as many items as `sent` and `taken` have.
    pub fn neighbor_alltoallv<T: Item>(
        &mut self,
        comm: &Comm,
        sent: &[u32],
        taken: &[u32],
        items: &[T],
    ) -> Result<Vec<T>, CallError>
        ensures gives { Gives (H.goes_by self.old.desk.now.host []) H.node H.turned H.turn_refused comm.now.name (line.neighbor_alltoallv Blocking T.ty (map pos sent.now) (map pos taken.now) (T.numbers items.now)) self.old.turns (IsRead T.numbers) result self.old.desk.now self.new.desk.now }
        ensures same { self.new.desk.ghost_name ≡ self.old.desk.ghost_name }
        ensures kept { (self.new.world ≡ self.old.world) × (self.new.turns ≡ self.old.turns) }
    {
        let made = Made::new("neighbor_alltoallv", comm, items.len()).counted(sent.len());
        let sent = self.counts(made, sent)?;
        let taken = self.counts(made, taken)?;
        let given = self.given(made, items)?;
        let ops = Ops::none(self.alloc);
        let answer = self.desk.neighbor_alltoallv(
            self.alloc,
            comm,
            T::item_type(),
            sent,
            taken,
            given,
            self.turns,
            &ops,
        );
        self.listed(made, answer)
    }

    /// [`Rank::neighbor_alltoallv`] without waiting: its request.
    pub fn ineighbor_alltoallv<T: Item>(
        &mut self,
        comm: &Comm,
        sent: &[u32],
        taken: &[u32],
        items: &[T],
    ) -> Result<Pending<T>, CallError>
        ensures starts { Starts (H.goes_by self.old.desk.now.host []) H.node H.turned H.turn_refused comm.now.name (line.neighbor_alltoallv Nonblocking T.ty (map pos sent.now) (map pos taken.now) (T.numbers items.now)) (λ pending. pending.request) result self.old.desk.now self.new.desk.now }
        ensures same { self.new.desk.ghost_name ≡ self.old.desk.ghost_name }
        ensures kept { (self.new.world ≡ self.old.world) × (self.new.turns ≡ self.old.turns) }
    {
        let made = Made::new("ineighbor_alltoallv", comm, items.len()).counted(sent.len());
        let sent = self.counts(made, sent)?;
        let taken = self.counts(made, taken)?;
        let given = self.given(made, items)?;
        let ops = Ops::none(self.alloc);
        let answer = self
            .desk
            .ineighbor_alltoallv(self.alloc, comm, T::item_type(), sent, taken, given, &ops);
        self.pending(made, answer)
    }
}
