//! The calls by which every rank gets items of all.
ghost use Rattle.std.specs.Prelude.{◌≡◌, ◌<◌, ◌≤◌, [], length, map, pos};
ghost use Rattle.mpx_kind.specs.declared.kinds.Mode.TheVariants.{Blocking, Nonblocking};
ghost use Rattle.mpx_comm.specs.Lines as line;
ghost use Rattle.mpx_program_rank.specs.Lengths.{GivesInParts, block_of};
ghost use Rattle.mpx_program_rank.specs.Gives.{Gives, IsRead, Starts};

use crate::call_error::CallError;
use crate::lengths::{Parted, block};
use crate::pending::Pending;
use crate::rank::Rank;
use crate::reading::{Made, number_of};
use mpx_call::Item;
use mpx_comm::{Comm, Host};
use mpx_num::{MOST_ITEMS, Ops};

/// Each call is the one of [`Desk`](crate::Desk) with its name; what members give and get is told there.
impl<'a, H: Host> Rank<'a, H> {
    /// `MPI_ALLGATHER`: every rank gets what all ranks give, in rank order.
    pub fn allgather<T: Item>(&mut self, comm: &Comm, items: &[T]) -> Result<Vec<T>, CallError>
        ensures gives { length items.now ≤ 4096 → Gives (H.goes_by self.old.desk.now.host []) H.node H.turned H.turn_refused comm.now.name (line.allgather Blocking T.ty (T.numbers items.now)) self.old.turns (IsRead T.numbers) result self.old.desk.now self.new.desk.now }
        ensures parts { 4096 < length items.now → GivesInParts (λ host. H.goes_by host []) H.node H.turned H.turn_refused comm.now.name (λ count part. line.allgather Blocking T.ty (T.numbers part)) T.numbers self.old.turns 4096 1 comm.now.size (length items.now) items.now result self.old.desk.now self.new.desk.now }
        ensures same { self.new.desk.ghost_name ≡ self.old.desk.ghost_name }
        ensures kept { (self.new.world ≡ self.old.world) × (self.new.turns ≡ self.old.turns) }
    {
        if items.len() <= MOST_ITEMS {
            return self.one_allgather(comm, items);
        }
        self.in_parts(Parted::Allgather, comm, items.len(), items)
    }

    // [`Rank::allgather`] in one call.
    pub(crate) fn one_allgather<T: Item>(
        &mut self,
        comm: &Comm,
        items: &[T],
    ) -> Result<Vec<T>, CallError>
        ensures gives { Gives (H.goes_by self.old.desk.now.host []) H.node H.turned H.turn_refused comm.now.name (line.allgather Blocking T.ty (T.numbers items.now)) self.old.turns (IsRead T.numbers) result self.old.desk.now self.new.desk.now }
        ensures same { self.new.desk.ghost_name ≡ self.old.desk.ghost_name }
        ensures kept { (self.new.world ≡ self.old.world) × (self.new.turns ≡ self.old.turns) }
    {
        let made = Made::new("allgather", comm, items.len());
        let given = self.given(made, items)?;
        let ops = Ops::none(self.alloc);
        let answer = self
            .desk
            .allgather(self.alloc, comm, T::item_type(), given, self.turns, &ops);
        self.listed(made, answer)
    }

    /// [`Rank::allgather`] without waiting: its request.
    pub fn iallgather<T: Item>(&mut self, comm: &Comm, items: &[T]) -> Result<Pending<T>, CallError>
        ensures starts { Starts (H.goes_by self.old.desk.now.host []) H.node H.turned H.turn_refused comm.now.name (line.allgather Nonblocking T.ty (T.numbers items.now)) (λ pending. pending.request) result self.old.desk.now self.new.desk.now }
        ensures same { self.new.desk.ghost_name ≡ self.old.desk.ghost_name }
        ensures kept { (self.new.world ≡ self.old.world) × (self.new.turns ≡ self.old.turns) }
    {
        let made = Made::new("iallgather", comm, items.len());
        let given = self.given(made, items)?;
        let ops = Ops::none(self.alloc);
        let answer = self
            .desk
            .iallgather(self.alloc, comm, T::item_type(), given, &ops);
        self.pending(made, answer)
    }

    /// `MPI_ALLGATHERV`: as [`Rank::allgather`], where ranks give as many items as `counts` has for them.
    pub fn allgatherv<T: Item>(
        &mut self,
        comm: &Comm,
        counts: &[u32],
        items: &[T],
    ) -> Result<Vec<T>, CallError>
        ensures gives { Gives (H.goes_by self.old.desk.now.host []) H.node H.turned H.turn_refused comm.now.name (line.allgatherv Blocking T.ty (map pos counts.now) (T.numbers items.now)) self.old.turns (IsRead T.numbers) result self.old.desk.now self.new.desk.now }
        ensures same { self.new.desk.ghost_name ≡ self.old.desk.ghost_name }
        ensures kept { (self.new.world ≡ self.old.world) × (self.new.turns ≡ self.old.turns) }
    {
        let made = Made::new("allgatherv", comm, items.len()).counted(counts.len());
        let counts = self.counts(made, counts)?;
        let given = self.given(made, items)?;
        let ops = Ops::none(self.alloc);
        let answer = self.desk.allgatherv(
            self.alloc,
            comm,
            T::item_type(),
            counts,
            given,
            self.turns,
            &ops,
        );
        self.listed(made, answer)
    }

    /// [`Rank::allgatherv`] without waiting: its request.
    pub fn iallgatherv<T: Item>(
        &mut self,
        comm: &Comm,
        counts: &[u32],
        items: &[T],
    ) -> Result<Pending<T>, CallError>
        ensures starts { Starts (H.goes_by self.old.desk.now.host []) H.node H.turned H.turn_refused comm.now.name (line.allgatherv Nonblocking T.ty (map pos counts.now) (T.numbers items.now)) (λ pending. pending.request) result self.old.desk.now self.new.desk.now }
        ensures same { self.new.desk.ghost_name ≡ self.old.desk.ghost_name }
        ensures kept { (self.new.world ≡ self.old.world) × (self.new.turns ≡ self.old.turns) }
    {
        let made = Made::new("iallgatherv", comm, items.len()).counted(counts.len());
        let counts = self.counts(made, counts)?;
        let given = self.given(made, items)?;
        let ops = Ops::none(self.alloc);
        let answer = self
            .desk
            .iallgatherv(self.alloc, comm, T::item_type(), counts, given, &ops);
        self.pending(made, answer)
    }

    /// `MPI_ALLTOALL`: every rank gives a block of `count` items for each one, and gets its block of each.
    pub fn alltoall<T: Item>(
        &mut self,
        comm: &Comm,
        count: usize,
        items: &[T],
    ) -> Result<Vec<T>, CallError>
        ensures gives { count ≤ block_of comm.now.size → Gives (H.goes_by self.old.desk.now.host []) H.node H.turned H.turn_refused comm.now.name (line.alltoall Blocking T.ty (pos count) (T.numbers items.now)) self.old.turns (IsRead T.numbers) result self.old.desk.now self.new.desk.now }
        ensures parts { block_of comm.now.size < count → GivesInParts (λ host. H.goes_by host []) H.node H.turned H.turn_refused comm.now.name (λ count part. line.alltoall Blocking T.ty (pos count) (T.numbers part)) T.numbers self.old.turns (block_of comm.now.size) comm.now.size comm.now.size count items.now result self.old.desk.now self.new.desk.now }
        ensures same { self.new.desk.ghost_name ≡ self.old.desk.ghost_name }
        ensures kept { (self.new.world ≡ self.old.world) × (self.new.turns ≡ self.old.turns) }
    {
        if count <= block(comm) {
            return self.one_alltoall(comm, count, items);
        }
        self.in_parts(Parted::Alltoall, comm, count, items)
    }

    // [`Rank::alltoall`] in one call.
    pub(crate) fn one_alltoall<T: Item>(
        &mut self,
        comm: &Comm,
        count: usize,
        items: &[T],
    ) -> Result<Vec<T>, CallError>
        ensures gives { Gives (H.goes_by self.old.desk.now.host []) H.node H.turned H.turn_refused comm.now.name (line.alltoall Blocking T.ty (pos count) (T.numbers items.now)) self.old.turns (IsRead T.numbers) result self.old.desk.now self.new.desk.now }
        ensures same { self.new.desk.ghost_name ≡ self.old.desk.ghost_name }
        ensures kept { (self.new.world ≡ self.old.world) × (self.new.turns ≡ self.old.turns) }
    {
        let made = Made::new("alltoall", comm, items.len()).blocks(count);
        let given = self.given(made, items)?;
        let ops = Ops::none(self.alloc);
        let answer = self.desk.alltoall(
            self.alloc,
            comm,
            T::item_type(),
            number_of(count),
            given,
            self.turns,
            &ops,
        );
        self.listed(made, answer)
    }

    /// [`Rank::alltoall`] without waiting: its request.
    pub fn ialltoall<T: Item>(
        &mut self,
        comm: &Comm,
        count: usize,
        items: &[T],
    ) -> Result<Pending<T>, CallError>
        ensures starts { Starts (H.goes_by self.old.desk.now.host []) H.node H.turned H.turn_refused comm.now.name (line.alltoall Nonblocking T.ty (pos count) (T.numbers items.now)) (λ pending. pending.request) result self.old.desk.now self.new.desk.now }
        ensures same { self.new.desk.ghost_name ≡ self.old.desk.ghost_name }
        ensures kept { (self.new.world ≡ self.old.world) × (self.new.turns ≡ self.old.turns) }
    {
        let made = Made::new("ialltoall", comm, items.len()).blocks(count);
        let given = self.given(made, items)?;
        let ops = Ops::none(self.alloc);
        let answer = self.desk.ialltoall(
            self.alloc,
            comm,
            T::item_type(),
            number_of(count),
            given,
            &ops,
        );
        self.pending(made, answer)
    }

    /// `MPI_ALLTOALLV`: as [`Rank::alltoall`], in blocks of as many items as `sent` has for each rank, and `taken` of each.
    pub fn alltoallv<T: Item>(
        &mut self,
        comm: &Comm,
        sent: &[u32],
        taken: &[u32],
        items: &[T],
    ) -> Result<Vec<T>, CallError>
        ensures gives { Gives (H.goes_by self.old.desk.now.host []) H.node H.turned H.turn_refused comm.now.name (line.alltoallv Blocking T.ty (map pos sent.now) (map pos taken.now) (T.numbers items.now)) self.old.turns (IsRead T.numbers) result self.old.desk.now self.new.desk.now }
        ensures same { self.new.desk.ghost_name ≡ self.old.desk.ghost_name }
        ensures kept { (self.new.world ≡ self.old.world) × (self.new.turns ≡ self.old.turns) }
    {
        let made = Made::new("alltoallv", comm, items.len()).counted(sent.len());
        let sent = self.counts(made, sent)?;
        let taken = self.counts(made, taken)?;
        let given = self.given(made, items)?;
        let ops = Ops::none(self.alloc);
        let answer = self.desk.alltoallv(
            self.alloc,
            comm,
            T::item_type(),
            sent,
            taken,
            given,
            self.turns,
            &ops,
        );
        self.listed(made, answer)
    }

    /// [`Rank::alltoallv`] without waiting: its request.
    pub fn ialltoallv<T: Item>(
        &mut self,
        comm: &Comm,
        sent: &[u32],
        taken: &[u32],
        items: &[T],
    ) -> Result<Pending<T>, CallError>
        ensures starts { Starts (H.goes_by self.old.desk.now.host []) H.node H.turned H.turn_refused comm.now.name (line.alltoallv Nonblocking T.ty (map pos sent.now) (map pos taken.now) (T.numbers items.now)) (λ pending. pending.request) result self.old.desk.now self.new.desk.now }
        ensures same { self.new.desk.ghost_name ≡ self.old.desk.ghost_name }
        ensures kept { (self.new.world ≡ self.old.world) × (self.new.turns ≡ self.old.turns) }
    {
        let made = Made::new("ialltoallv", comm, items.len()).counted(sent.len());
        let sent = self.counts(made, sent)?;
        let taken = self.counts(made, taken)?;
        let given = self.given(made, items)?;
        let ops = Ops::none(self.alloc);
        let answer = self
            .desk
            .ialltoallv(self.alloc, comm, T::item_type(), sent, taken, given, &ops);
        self.pending(made, answer)
    }
}
