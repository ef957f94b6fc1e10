//! The calls that combine items.
ghost use Rattle.std.specs.Prelude.{◌≡◌, ◌<◌, ◌≤◌, [], length, map, pos};
ghost use Rattle.mpx_kind.specs.declared.kinds.Mode.TheVariants.{Blocking, Nonblocking};
ghost use Rattle.mpx_comm.specs.Lines as line;
ghost use Rattle.mpx_program_rank.specs.Gives.{Gives, IsRead, Starts};
ghost use Rattle.mpx_program_rank.specs.Lengths.{GivesInParts};

use crate::call_error::CallError;
use crate::lengths::Parted;
use crate::pending::Pending;
use crate::rank::Rank;
use crate::reading::{Made, number_of};
use mpx_call::Item;
use mpx_comm::{Comm, Host};
use mpx_num::{MOST_ITEMS, Op, Ops};

/// Each call is the one of [`Desk`](crate::Desk) with its name; what members give and get is told there.
impl<'a, H: Host> Rank<'a, H> {
    /// `MPI_REDUCE`: the root gets the reduction of what all ranks give, item by item, and the others nothing.
    pub fn reduce<T: Item>(
        &mut self,
        comm: &Comm,
        root: u8,
        op: Op,
        items: &[T],
    ) -> Result<Vec<T>, CallError>
        ensures gives { length items.now ≤ 4096 → Gives (H.goes_by self.old.desk.now.host []) H.node H.turned H.turn_refused comm.now.name (line.reduce Blocking (pos root) op T.ty (T.numbers items.now)) self.old.turns (IsRead T.numbers) result self.old.desk.now self.new.desk.now }
        ensures parts { 4096 < length items.now → GivesInParts (λ host. H.goes_by host []) H.node H.turned H.turn_refused comm.now.name (λ count part. line.reduce Blocking (pos root) op T.ty (T.numbers part)) T.numbers self.old.turns 4096 1 1 (length items.now) items.now result self.old.desk.now self.new.desk.now }
        ensures same { self.new.desk.ghost_name ≡ self.old.desk.ghost_name }
        ensures kept { (self.new.world ≡ self.old.world) × (self.new.turns ≡ self.old.turns) }
    {
        if items.len() <= MOST_ITEMS {
            return self.one_reduce(comm, root, op, items);
        }
        self.in_parts(Parted::Reduce(root, op), comm, items.len(), items)
    }

    // [`Rank::reduce`] in one call.
    pub(crate) fn one_reduce<T: Item>(
        &mut self,
        comm: &Comm,
        root: u8,
        op: Op,
        items: &[T],
    ) -> Result<Vec<T>, CallError>
        ensures gives { Gives (H.goes_by self.old.desk.now.host []) H.node H.turned H.turn_refused comm.now.name (line.reduce Blocking (pos root) op T.ty (T.numbers items.now)) self.old.turns (IsRead T.numbers) result self.old.desk.now self.new.desk.now }
        ensures same { self.new.desk.ghost_name ≡ self.old.desk.ghost_name }
        ensures kept { (self.new.world ≡ self.old.world) × (self.new.turns ≡ self.old.turns) }
    {
        let made = Made::new("reduce", comm, items.len()).rooted(i128::from(root));
        let given = self.given(made, items)?;
        let ops = Ops::none(self.alloc);
        let answer = self.desk.reduce(
            self.alloc,
            comm,
            i128::from(root),
            op,
            T::item_type(),
            given,
            self.turns,
            &ops,
        );
        self.listed(made, answer)
    }

    /// [`Rank::reduce`] without waiting: its request.
    pub fn ireduce<T: Item>(
        &mut self,
        comm: &Comm,
        root: u8,
        op: Op,
        items: &[T],
    ) -> Result<Pending<T>, CallError>
        ensures starts { Starts (H.goes_by self.old.desk.now.host []) H.node H.turned H.turn_refused comm.now.name (line.reduce Nonblocking (pos root) op T.ty (T.numbers items.now)) (λ pending. pending.request) result self.old.desk.now self.new.desk.now }
        ensures same { self.new.desk.ghost_name ≡ self.old.desk.ghost_name }
        ensures kept { (self.new.world ≡ self.old.world) × (self.new.turns ≡ self.old.turns) }
    {
        let made = Made::new("ireduce", comm, items.len()).rooted(i128::from(root));
        let given = self.given(made, items)?;
        let ops = Ops::none(self.alloc);
        let answer = self.desk.ireduce(
            self.alloc,
            comm,
            i128::from(root),
            op,
            T::item_type(),
            given,
            &ops,
        );
        self.pending(made, answer)
    }

    /// `MPI_ALLREDUCE`: every rank gets the reduction of what all ranks give, item by item.
    pub fn allreduce<T: Item>(
        &mut self,
        comm: &Comm,
        op: Op,
        items: &[T],
    ) -> Result<Vec<T>, CallError>
        ensures gives { length items.now ≤ 4096 → Gives (H.goes_by self.old.desk.now.host []) H.node H.turned H.turn_refused comm.now.name (line.allreduce Blocking op T.ty (T.numbers items.now)) self.old.turns (IsRead T.numbers) result self.old.desk.now self.new.desk.now }
        ensures parts { 4096 < length items.now → GivesInParts (λ host. H.goes_by host []) H.node H.turned H.turn_refused comm.now.name (λ count part. line.allreduce Blocking op T.ty (T.numbers part)) T.numbers self.old.turns 4096 1 1 (length items.now) items.now result self.old.desk.now self.new.desk.now }
        ensures same { self.new.desk.ghost_name ≡ self.old.desk.ghost_name }
        ensures kept { (self.new.world ≡ self.old.world) × (self.new.turns ≡ self.old.turns) }
    {
        if items.len() <= MOST_ITEMS {
            return self.one_allreduce(comm, op, items);
        }
        self.in_parts(Parted::Allreduce(op), comm, items.len(), items)
    }

    // [`Rank::allreduce`] in one call.
    pub(crate) fn one_allreduce<T: Item>(
        &mut self,
        comm: &Comm,
        op: Op,
        items: &[T],
    ) -> Result<Vec<T>, CallError>
        ensures gives { Gives (H.goes_by self.old.desk.now.host []) H.node H.turned H.turn_refused comm.now.name (line.allreduce Blocking op T.ty (T.numbers items.now)) self.old.turns (IsRead T.numbers) result self.old.desk.now self.new.desk.now }
        ensures same { self.new.desk.ghost_name ≡ self.old.desk.ghost_name }
        ensures kept { (self.new.world ≡ self.old.world) × (self.new.turns ≡ self.old.turns) }
    {
        let made = Made::new("allreduce", comm, items.len());
        let given = self.given(made, items)?;
        let ops = Ops::none(self.alloc);
        let answer = self.desk.allreduce(
            self.alloc,
            comm,
            op,
            T::item_type(),
            given,
            self.turns,
            &ops,
        );
        self.listed(made, answer)
    }

    /// [`Rank::allreduce`] without waiting: its request.
    pub fn iallreduce<T: Item>(
        &mut self,
        comm: &Comm,
        op: Op,
        items: &[T],
    ) -> Result<Pending<T>, CallError>
        ensures starts { Starts (H.goes_by self.old.desk.now.host []) H.node H.turned H.turn_refused comm.now.name (line.allreduce Nonblocking op T.ty (T.numbers items.now)) (λ pending. pending.request) result self.old.desk.now self.new.desk.now }
        ensures same { self.new.desk.ghost_name ≡ self.old.desk.ghost_name }
        ensures kept { (self.new.world ≡ self.old.world) × (self.new.turns ≡ self.old.turns) }
    {
        let made = Made::new("iallreduce", comm, items.len());
        let given = self.given(made, items)?;
        let ops = Ops::none(self.alloc);
        let answer = self
            .desk
            .iallreduce(self.alloc, comm, op, T::item_type(), given, &ops);
        self.pending(made, answer)
    }

    /// `MPI_REDUCE_SCATTER_BLOCK`: every rank gives a block of `count` items for each one, and gets its block of the reduction.
    pub fn reduce_scatter_block<T: Item>(
        &mut self,
        comm: &Comm,
        op: Op,
        count: usize,
        items: &[T],
    ) -> Result<Vec<T>, CallError>
        ensures gives { Gives (H.goes_by self.old.desk.now.host []) H.node H.turned H.turn_refused comm.now.name (line.reduce_scatter_block Blocking op T.ty (pos count) (T.numbers items.now)) self.old.turns (IsRead T.numbers) result self.old.desk.now self.new.desk.now }
        ensures same { self.new.desk.ghost_name ≡ self.old.desk.ghost_name }
        ensures kept { (self.new.world ≡ self.old.world) × (self.new.turns ≡ self.old.turns) }
    {
        let made = Made::new("reduce_scatter_block", comm, items.len()).blocks(count);
        let given = self.given(made, items)?;
        let ops = Ops::none(self.alloc);
        let answer = self.desk.reduce_scatter_block(
            self.alloc,
            comm,
            op,
            T::item_type(),
            number_of(count),
            given,
            self.turns,
            &ops,
        );
        self.listed(made, answer)
    }

    /// [`Rank::reduce_scatter_block`] without waiting: its request.
    pub fn ireduce_scatter_block<T: Item>(
        &mut self,
        comm: &Comm,
        op: Op,
        count: usize,
        items: &[T],
    ) -> Result<Pending<T>, CallError>
        ensures starts { Starts (H.goes_by self.old.desk.now.host []) H.node H.turned H.turn_refused comm.now.name (line.reduce_scatter_block Nonblocking op T.ty (pos count) (T.numbers items.now)) (λ pending. pending.request) result self.old.desk.now self.new.desk.now }
        ensures same { self.new.desk.ghost_name ≡ self.old.desk.ghost_name }
        ensures kept { (self.new.world ≡ self.old.world) × (self.new.turns ≡ self.old.turns) }
    {
        let made = Made::new("ireduce_scatter_block", comm, items.len()).blocks(count);
        let given = self.given(made, items)?;
        let ops = Ops::none(self.alloc);
        let answer = self.desk.ireduce_scatter_block(
            self.alloc,
            comm,
            op,
            T::item_type(),
            number_of(count),
            given,
            &ops,
        );
        self.pending(made, answer)
    }

    /// `MPI_REDUCE_SCATTER`: every rank gives a block for each one, of as many items as `counts` has for it, and gets its block of the reduction.
    pub fn reduce_scatter<T: Item>(
        &mut self,
        comm: &Comm,
        op: Op,
        counts: &[u32],
        items: &[T],
    ) -> Result<Vec<T>, CallError>
        ensures gives { Gives (H.goes_by self.old.desk.now.host []) H.node H.turned H.turn_refused comm.now.name (line.reduce_scatter Blocking op T.ty (map pos counts.now) (T.numbers items.now)) self.old.turns (IsRead T.numbers) result self.old.desk.now self.new.desk.now }
        ensures same { self.new.desk.ghost_name ≡ self.old.desk.ghost_name }
        ensures kept { (self.new.world ≡ self.old.world) × (self.new.turns ≡ self.old.turns) }
    {
        let made = Made::new("reduce_scatter", comm, items.len()).counted(counts.len());
        let counts = self.counts(made, counts)?;
        let given = self.given(made, items)?;
        let ops = Ops::none(self.alloc);
        let answer = self.desk.reduce_scatter(
            self.alloc,
            comm,
            op,
            T::item_type(),
            counts,
            given,
            self.turns,
            &ops,
        );
        self.listed(made, answer)
    }

    /// [`Rank::reduce_scatter`] without waiting: its request.
    pub fn ireduce_scatter<T: Item>(
        &mut self,
        comm: &Comm,
        op: Op,
        counts: &[u32],
        items: &[T],
    ) -> Result<Pending<T>, CallError>
        ensures starts { Starts (H.goes_by self.old.desk.now.host []) H.node H.turned H.turn_refused comm.now.name (line.reduce_scatter Nonblocking op T.ty (map pos counts.now) (T.numbers items.now)) (λ pending. pending.request) result self.old.desk.now self.new.desk.now }
        ensures same { self.new.desk.ghost_name ≡ self.old.desk.ghost_name }
        ensures kept { (self.new.world ≡ self.old.world) × (self.new.turns ≡ self.old.turns) }
    {
        let made = Made::new("ireduce_scatter", comm, items.len()).counted(counts.len());
        let counts = self.counts(made, counts)?;
        let given = self.given(made, items)?;
        let ops = Ops::none(self.alloc);
        let answer = self
            .desk
            .ireduce_scatter(self.alloc, comm, op, T::item_type(), counts, given, &ops);
        self.pending(made, answer)
    }

    /// `MPI_SCAN`: every rank gets the reduction of what the ranks up to its own give, item by item.
    pub fn scan<T: Item>(&mut self, comm: &Comm, op: Op, items: &[T]) -> Result<Vec<T>, CallError>
        ensures gives { length items.now ≤ 4096 → Gives (H.goes_by self.old.desk.now.host []) H.node H.turned H.turn_refused comm.now.name (line.scan Blocking op T.ty (T.numbers items.now)) self.old.turns (IsRead T.numbers) result self.old.desk.now self.new.desk.now }
        ensures parts { 4096 < length items.now → GivesInParts (λ host. H.goes_by host []) H.node H.turned H.turn_refused comm.now.name (λ count part. line.scan Blocking op T.ty (T.numbers part)) T.numbers self.old.turns 4096 1 1 (length items.now) items.now result self.old.desk.now self.new.desk.now }
        ensures same { self.new.desk.ghost_name ≡ self.old.desk.ghost_name }
        ensures kept { (self.new.world ≡ self.old.world) × (self.new.turns ≡ self.old.turns) }
    {
        if items.len() <= MOST_ITEMS {
            return self.one_scan(comm, op, items);
        }
        self.in_parts(Parted::Scan(op), comm, items.len(), items)
    }

    // [`Rank::scan`] in one call.
    pub(crate) fn one_scan<T: Item>(
        &mut self,
        comm: &Comm,
        op: Op,
        items: &[T],
    ) -> Result<Vec<T>, CallError>
        ensures gives { Gives (H.goes_by self.old.desk.now.host []) H.node H.turned H.turn_refused comm.now.name (line.scan Blocking op T.ty (T.numbers items.now)) self.old.turns (IsRead T.numbers) result self.old.desk.now self.new.desk.now }
        ensures same { self.new.desk.ghost_name ≡ self.old.desk.ghost_name }
        ensures kept { (self.new.world ≡ self.old.world) × (self.new.turns ≡ self.old.turns) }
    {
        let made = Made::new("scan", comm, items.len());
        let given = self.given(made, items)?;
        let ops = Ops::none(self.alloc);
        let answer = self.desk.scan(
            self.alloc,
            comm,
            op,
            T::item_type(),
            given,
            self.turns,
            &ops,
        );
        self.listed(made, answer)
    }

    /// [`Rank::scan`] without waiting: its request.
    pub fn iscan<T: Item>(
        &mut self,
        comm: &Comm,
        op: Op,
        items: &[T],
    ) -> Result<Pending<T>, CallError>
        ensures starts { Starts (H.goes_by self.old.desk.now.host []) H.node H.turned H.turn_refused comm.now.name (line.scan Nonblocking op T.ty (T.numbers items.now)) (λ pending. pending.request) result self.old.desk.now self.new.desk.now }
        ensures same { self.new.desk.ghost_name ≡ self.old.desk.ghost_name }
        ensures kept { (self.new.world ≡ self.old.world) × (self.new.turns ≡ self.old.turns) }
    {
        let made = Made::new("iscan", comm, items.len());
        let given = self.given(made, items)?;
        let ops = Ops::none(self.alloc);
        let answer = self
            .desk
            .iscan(self.alloc, comm, op, T::item_type(), given, &ops);
        self.pending(made, answer)
    }

    /// `MPI_EXSCAN`: every rank gets the reduction of what the ranks below its own give, item by item, and rank 0 nothing.
    pub fn exscan<T: Item>(&mut self, comm: &Comm, op: Op, items: &[T]) -> Result<Vec<T>, CallError>
        ensures gives { length items.now ≤ 4096 → Gives (H.goes_by self.old.desk.now.host []) H.node H.turned H.turn_refused comm.now.name (line.exscan Blocking op T.ty (T.numbers items.now)) self.old.turns (IsRead T.numbers) result self.old.desk.now self.new.desk.now }
        ensures parts { 4096 < length items.now → GivesInParts (λ host. H.goes_by host []) H.node H.turned H.turn_refused comm.now.name (λ count part. line.exscan Blocking op T.ty (T.numbers part)) T.numbers self.old.turns 4096 1 1 (length items.now) items.now result self.old.desk.now self.new.desk.now }
        ensures same { self.new.desk.ghost_name ≡ self.old.desk.ghost_name }
        ensures kept { (self.new.world ≡ self.old.world) × (self.new.turns ≡ self.old.turns) }
    {
        if items.len() <= MOST_ITEMS {
            return self.one_exscan(comm, op, items);
        }
        self.in_parts(Parted::Exscan(op), comm, items.len(), items)
    }

    // [`Rank::exscan`] in one call.
    pub(crate) fn one_exscan<T: Item>(
        &mut self,
        comm: &Comm,
        op: Op,
        items: &[T],
    ) -> Result<Vec<T>, CallError>
        ensures gives { Gives (H.goes_by self.old.desk.now.host []) H.node H.turned H.turn_refused comm.now.name (line.exscan Blocking op T.ty (T.numbers items.now)) self.old.turns (IsRead T.numbers) result self.old.desk.now self.new.desk.now }
        ensures same { self.new.desk.ghost_name ≡ self.old.desk.ghost_name }
        ensures kept { (self.new.world ≡ self.old.world) × (self.new.turns ≡ self.old.turns) }
    {
        let made = Made::new("exscan", comm, items.len());
        let given = self.given(made, items)?;
        let ops = Ops::none(self.alloc);
        let answer = self.desk.exscan(
            self.alloc,
            comm,
            op,
            T::item_type(),
            given,
            self.turns,
            &ops,
        );
        self.listed(made, answer)
    }

    /// [`Rank::exscan`] without waiting: its request.
    pub fn iexscan<T: Item>(
        &mut self,
        comm: &Comm,
        op: Op,
        items: &[T],
    ) -> Result<Pending<T>, CallError>
        ensures starts { Starts (H.goes_by self.old.desk.now.host []) H.node H.turned H.turn_refused comm.now.name (line.exscan Nonblocking op T.ty (T.numbers items.now)) (λ pending. pending.request) result self.old.desk.now self.new.desk.now }
        ensures same { self.new.desk.ghost_name ≡ self.old.desk.ghost_name }
        ensures kept { (self.new.world ≡ self.old.world) × (self.new.turns ≡ self.old.turns) }
    {
        let made = Made::new("iexscan", comm, items.len());
        let given = self.given(made, items)?;
        let ops = Ops::none(self.alloc);
        let answer = self
            .desk
            .iexscan(self.alloc, comm, op, T::item_type(), given, &ops);
        self.pending(made, answer)
    }
}
