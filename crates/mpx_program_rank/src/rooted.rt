//! The calls that move items from or to a root, and the barrier.
ghost use Rattle.std.specs.Prelude.{◌≡◌, ◌<◌, ◌≤◌, [], length, map, pos};
ghost use Rattle.mpx_kind.specs.declared.kinds.Mode.TheVariants.{Blocking, Nonblocking};
ghost use Rattle.mpx_comm.specs.Lines as line;
ghost use Rattle.mpx_program_rank.specs.Lengths.{GivesInParts, at_root, block_of};
ghost use Rattle.mpx_program_rank.specs.Gives.{Gives, IsDone, IsRead, Starts};

use crate::call_error::CallError;
use crate::lengths::{Parted, block};
use crate::pending::Pending;
use crate::rank::Rank;
use crate::reading::{Made, number_of};
use mpx_call::Item;
use mpx_comm::{Comm, Host};
use mpx_num::{MOST_ITEMS, Ops};

/// Each call is the one of [`Desk`](crate::Desk) with its name; what members give and get is told there.
impl<'a, H: Host> Rank<'a, H> {
    /// `MPI_BARRIER`: it ends once all ranks have called it.
    pub fn barrier(&mut self, comm: &Comm) -> Result<(), CallError>
        ensures gives { Gives (H.goes_by self.old.desk.now.host []) H.node H.turned H.turn_refused comm.now.name (line.barrier Blocking) self.old.turns (IsDone) result self.old.desk.now self.new.desk.now }
        ensures same { self.new.desk.ghost_name ≡ self.old.desk.ghost_name }
        ensures kept { (self.new.world ≡ self.old.world) × (self.new.turns ≡ self.old.turns) }
    {
        let made = Made::new("barrier", comm, 0);
        let ops = Ops::none(self.alloc);
        let answer = self.desk.barrier(self.alloc, comm, self.turns, &ops);
        self.nothing(made, answer)
    }

    /// [`Rank::barrier`] without waiting: its request, which gives no items.
    pub fn ibarrier(&mut self, comm: &Comm) -> Result<Pending<u8>, CallError>
        ensures starts { Starts (H.goes_by self.old.desk.now.host []) H.node H.turned H.turn_refused comm.now.name (line.barrier Nonblocking) (λ pending. pending.request) result self.old.desk.now self.new.desk.now }
        ensures same { self.new.desk.ghost_name ≡ self.old.desk.ghost_name }
        ensures kept { (self.new.world ≡ self.old.world) × (self.new.turns ≡ self.old.turns) }
    {
        let made = Made::new("ibarrier", comm, 0);
        let ops = Ops::none(self.alloc);
        let answer = self.desk.ibarrier(self.alloc, comm, &ops);
        self.pending(made, answer)
    }

    /// `MPI_BCAST`: every rank gets the `count` items of the root; the others give none.
    pub fn bcast<T: Item>(
        &mut self,
        comm: &Comm,
        root: u8,
        count: usize,
        items: &[T],
    ) -> Result<Vec<T>, CallError>
        ensures gives { count ≤ 4096 → Gives (H.goes_by self.old.desk.now.host []) H.node H.turned H.turn_refused comm.now.name (line.bcast Blocking (pos root) T.ty (pos count) (T.numbers items.now)) self.old.turns (IsRead T.numbers) result self.old.desk.now self.new.desk.now }
        ensures parts { 4096 < count → GivesInParts (λ host. H.goes_by host []) H.node H.turned H.turn_refused comm.now.name (λ count part. line.bcast Blocking (pos root) T.ty (pos count) (T.numbers part)) T.numbers self.old.turns 4096 (at_root comm.now.rank root 1) 1 count items.now result self.old.desk.now self.new.desk.now }
        ensures same { self.new.desk.ghost_name ≡ self.old.desk.ghost_name }
        ensures kept { (self.new.world ≡ self.old.world) × (self.new.turns ≡ self.old.turns) }
    {
        if count <= MOST_ITEMS {
            return self.one_bcast(comm, root, count, items);
        }
        self.in_parts(Parted::Bcast(root), comm, count, items)
    }

    // [`Rank::bcast`] in one call.
    pub(crate) fn one_bcast<T: Item>(
        &mut self,
        comm: &Comm,
        root: u8,
        count: usize,
        items: &[T],
    ) -> Result<Vec<T>, CallError>
        ensures gives { Gives (H.goes_by self.old.desk.now.host []) H.node H.turned H.turn_refused comm.now.name (line.bcast Blocking (pos root) T.ty (pos count) (T.numbers items.now)) self.old.turns (IsRead T.numbers) result self.old.desk.now self.new.desk.now }
        ensures same { self.new.desk.ghost_name ≡ self.old.desk.ghost_name }
        ensures kept { (self.new.world ≡ self.old.world) × (self.new.turns ≡ self.old.turns) }
    {
        let made = Made::new("bcast", comm, items.len())
            .rooted(i128::from(root))
            .sent(count);
        let given = self.given(made, items)?;
        let ops = Ops::none(self.alloc);
        let answer = self.desk.bcast(
            self.alloc,
            comm,
            i128::from(root),
            T::item_type(),
            number_of(count),
            given,
            self.turns,
            &ops,
        );
        self.listed(made, answer)
    }

    /// [`Rank::bcast`] without waiting: its request.
    pub fn ibcast<T: Item>(
        &mut self,
        comm: &Comm,
        root: u8,
        count: usize,
        items: &[T],
    ) -> Result<Pending<T>, CallError>
        ensures starts { Starts (H.goes_by self.old.desk.now.host []) H.node H.turned H.turn_refused comm.now.name (line.bcast Nonblocking (pos root) T.ty (pos count) (T.numbers items.now)) (λ pending. pending.request) result self.old.desk.now self.new.desk.now }
        ensures same { self.new.desk.ghost_name ≡ self.old.desk.ghost_name }
        ensures kept { (self.new.world ≡ self.old.world) × (self.new.turns ≡ self.old.turns) }
    {
        let made = Made::new("ibcast", comm, items.len())
            .rooted(i128::from(root))
            .sent(count);
        let given = self.given(made, items)?;
        let ops = Ops::none(self.alloc);
        let answer = self.desk.ibcast(
            self.alloc,
            comm,
            i128::from(root),
            T::item_type(),
            number_of(count),
            given,
            &ops,
        );
        self.pending(made, answer)
    }

    /// `MPI_GATHER`: the root gets what all ranks give, in rank order, and the others nothing.
    pub fn gather<T: Item>(
        &mut self,
        comm: &Comm,
        root: u8,
        items: &[T],
    ) -> Result<Vec<T>, CallError>
        ensures gives { length items.now ≤ 4096 → Gives (H.goes_by self.old.desk.now.host []) H.node H.turned H.turn_refused comm.now.name (line.gather Blocking (pos root) T.ty (T.numbers items.now)) self.old.turns (IsRead T.numbers) result self.old.desk.now self.new.desk.now }
        ensures parts { 4096 < length items.now → GivesInParts (λ host. H.goes_by host []) H.node H.turned H.turn_refused comm.now.name (λ count part. line.gather Blocking (pos root) T.ty (T.numbers part)) T.numbers self.old.turns 4096 1 comm.now.size (length items.now) items.now result self.old.desk.now self.new.desk.now }
        ensures same { self.new.desk.ghost_name ≡ self.old.desk.ghost_name }
        ensures kept { (self.new.world ≡ self.old.world) × (self.new.turns ≡ self.old.turns) }
    {
        if items.len() <= MOST_ITEMS {
            return self.one_gather(comm, root, items);
        }
        self.in_parts(Parted::Gather(root), comm, items.len(), items)
    }

    // [`Rank::gather`] in one call.
    pub(crate) fn one_gather<T: Item>(
        &mut self,
        comm: &Comm,
        root: u8,
        items: &[T],
    ) -> Result<Vec<T>, CallError>
        ensures gives { Gives (H.goes_by self.old.desk.now.host []) H.node H.turned H.turn_refused comm.now.name (line.gather Blocking (pos root) T.ty (T.numbers items.now)) self.old.turns (IsRead T.numbers) result self.old.desk.now self.new.desk.now }
        ensures same { self.new.desk.ghost_name ≡ self.old.desk.ghost_name }
        ensures kept { (self.new.world ≡ self.old.world) × (self.new.turns ≡ self.old.turns) }
    {
        let made = Made::new("gather", comm, items.len()).rooted(i128::from(root));
        let given = self.given(made, items)?;
        let ops = Ops::none(self.alloc);
        let answer = self.desk.gather(
            self.alloc,
            comm,
            i128::from(root),
            T::item_type(),
            given,
            self.turns,
            &ops,
        );
        self.listed(made, answer)
    }

    /// [`Rank::gather`] without waiting: its request.
    pub fn igather<T: Item>(
        &mut self,
        comm: &Comm,
        root: u8,
        items: &[T],
    ) -> Result<Pending<T>, CallError>
        ensures starts { Starts (H.goes_by self.old.desk.now.host []) H.node H.turned H.turn_refused comm.now.name (line.gather Nonblocking (pos root) T.ty (T.numbers items.now)) (λ pending. pending.request) result self.old.desk.now self.new.desk.now }
        ensures same { self.new.desk.ghost_name ≡ self.old.desk.ghost_name }
        ensures kept { (self.new.world ≡ self.old.world) × (self.new.turns ≡ self.old.turns) }
    {
        let made = Made::new("igather", comm, items.len()).rooted(i128::from(root));
        let given = self.given(made, items)?;
        let ops = Ops::none(self.alloc);
        let answer = self.desk.igather(
            self.alloc,
            comm,
            i128::from(root),
            T::item_type(),
            given,
            &ops,
        );
        self.pending(made, answer)
    }

    /// `MPI_GATHERV`: as [`Rank::gather`], where ranks give as many items as the root's `counts` have for them; the others give no counts.
    pub fn gatherv<T: Item>(
        &mut self,
        comm: &Comm,
        root: u8,
        counts: &[u32],
        items: &[T],
    ) -> Result<Vec<T>, CallError>
        ensures gives { Gives (H.goes_by self.old.desk.now.host []) H.node H.turned H.turn_refused comm.now.name (line.gatherv Blocking (pos root) T.ty (map pos counts.now) (T.numbers items.now)) self.old.turns (IsRead T.numbers) result self.old.desk.now self.new.desk.now }
        ensures same { self.new.desk.ghost_name ≡ self.old.desk.ghost_name }
        ensures kept { (self.new.world ≡ self.old.world) × (self.new.turns ≡ self.old.turns) }
    {
        let made = Made::new("gatherv", comm, items.len())
            .rooted(i128::from(root))
            .counted(counts.len());
        let counts = self.counts(made, counts)?;
        let given = self.given(made, items)?;
        let ops = Ops::none(self.alloc);
        let answer = self.desk.gatherv(
            self.alloc,
            comm,
            i128::from(root),
            T::item_type(),
            counts,
            given,
            self.turns,
            &ops,
        );
        self.listed(made, answer)
    }

    /// [`Rank::gatherv`] without waiting: its request.
    pub fn igatherv<T: Item>(
        &mut self,
        comm: &Comm,
        root: u8,
        counts: &[u32],
        items: &[T],
    ) -> Result<Pending<T>, CallError>
        ensures starts { Starts (H.goes_by self.old.desk.now.host []) H.node H.turned H.turn_refused comm.now.name (line.gatherv Nonblocking (pos root) T.ty (map pos counts.now) (T.numbers items.now)) (λ pending. pending.request) result self.old.desk.now self.new.desk.now }
        ensures same { self.new.desk.ghost_name ≡ self.old.desk.ghost_name }
        ensures kept { (self.new.world ≡ self.old.world) × (self.new.turns ≡ self.old.turns) }
    {
        let made = Made::new("igatherv", comm, items.len())
            .rooted(i128::from(root))
            .counted(counts.len());
        let counts = self.counts(made, counts)?;
        let given = self.given(made, items)?;
        let ops = Ops::none(self.alloc);
        let answer = self.desk.igatherv(
            self.alloc,
            comm,
            i128::from(root),
            T::item_type(),
            counts,
            given,
            &ops,
        );
        self.pending(made, answer)
    }

    /// `MPI_SCATTER`: every rank gets its block of `count` items of the root's; the others give none.
    pub fn scatter<T: Item>(
        &mut self,
        comm: &Comm,
        root: u8,
        count: usize,
        items: &[T],
    ) -> Result<Vec<T>, CallError>
        ensures gives { count ≤ block_of comm.now.size → Gives (H.goes_by self.old.desk.now.host []) H.node H.turned H.turn_refused comm.now.name (line.scatter Blocking (pos root) T.ty (pos count) (T.numbers items.now)) self.old.turns (IsRead T.numbers) result self.old.desk.now self.new.desk.now }
        ensures parts { block_of comm.now.size < count → GivesInParts (λ host. H.goes_by host []) H.node H.turned H.turn_refused comm.now.name (λ count part. line.scatter Blocking (pos root) T.ty (pos count) (T.numbers part)) T.numbers self.old.turns (block_of comm.now.size) (at_root comm.now.rank root comm.now.size) 1 count items.now result self.old.desk.now self.new.desk.now }
        ensures same { self.new.desk.ghost_name ≡ self.old.desk.ghost_name }
        ensures kept { (self.new.world ≡ self.old.world) × (self.new.turns ≡ self.old.turns) }
    {
        if count <= block(comm) {
            return self.one_scatter(comm, root, count, items);
        }
        self.in_parts(Parted::Scatter(root), comm, count, items)
    }

    // [`Rank::scatter`] in one call.
    pub(crate) fn one_scatter<T: Item>(
        &mut self,
        comm: &Comm,
        root: u8,
        count: usize,
        items: &[T],
    ) -> Result<Vec<T>, CallError>
        ensures gives { Gives (H.goes_by self.old.desk.now.host []) H.node H.turned H.turn_refused comm.now.name (line.scatter Blocking (pos root) T.ty (pos count) (T.numbers items.now)) self.old.turns (IsRead T.numbers) result self.old.desk.now self.new.desk.now }
        ensures same { self.new.desk.ghost_name ≡ self.old.desk.ghost_name }
        ensures kept { (self.new.world ≡ self.old.world) × (self.new.turns ≡ self.old.turns) }
    {
        let made = Made::new("scatter", comm, items.len())
            .rooted(i128::from(root))
            .scattered(count);
        let given = self.given(made, items)?;
        let ops = Ops::none(self.alloc);
        let answer = self.desk.scatter(
            self.alloc,
            comm,
            i128::from(root),
            T::item_type(),
            number_of(count),
            given,
            self.turns,
            &ops,
        );
        self.listed(made, answer)
    }

    /// [`Rank::scatter`] without waiting: its request.
    pub fn iscatter<T: Item>(
        &mut self,
        comm: &Comm,
        root: u8,
        count: usize,
        items: &[T],
    ) -> Result<Pending<T>, CallError>
        ensures starts { Starts (H.goes_by self.old.desk.now.host []) H.node H.turned H.turn_refused comm.now.name (line.scatter Nonblocking (pos root) T.ty (pos count) (T.numbers items.now)) (λ pending. pending.request) result self.old.desk.now self.new.desk.now }
        ensures same { self.new.desk.ghost_name ≡ self.old.desk.ghost_name }
        ensures kept { (self.new.world ≡ self.old.world) × (self.new.turns ≡ self.old.turns) }
    {
        let made = Made::new("iscatter", comm, items.len())
            .rooted(i128::from(root))
            .scattered(count);
        let given = self.given(made, items)?;
        let ops = Ops::none(self.alloc);
        let answer = self.desk.iscatter(
            self.alloc,
            comm,
            i128::from(root),
            T::item_type(),
            number_of(count),
            given,
            &ops,
        );
        self.pending(made, answer)
    }

    /// `MPI_SCATTERV`: as [`Rank::scatter`], in blocks of as many items as the root's `counts` have; a rank takes `count` of them.
    pub fn scatterv<T: Item>(
        &mut self,
        comm: &Comm,
        root: u8,
        counts: &[u32],
        count: usize,
        items: &[T],
    ) -> Result<Vec<T>, CallError>
        ensures gives { Gives (H.goes_by self.old.desk.now.host []) H.node H.turned H.turn_refused comm.now.name (line.scatterv Blocking (pos root) T.ty (map pos counts.now) (pos count) (T.numbers items.now)) self.old.turns (IsRead T.numbers) result self.old.desk.now self.new.desk.now }
        ensures same { self.new.desk.ghost_name ≡ self.old.desk.ghost_name }
        ensures kept { (self.new.world ≡ self.old.world) × (self.new.turns ≡ self.old.turns) }
    {
        let made = Made::new("scatterv", comm, items.len())
            .rooted(i128::from(root))
            .counted(counts.len());
        let counts = self.counts(made, counts)?;
        let given = self.given(made, items)?;
        let ops = Ops::none(self.alloc);
        let answer = self.desk.scatterv(
            self.alloc,
            comm,
            i128::from(root),
            T::item_type(),
            counts,
            number_of(count),
            given,
            self.turns,
            &ops,
        );
        self.listed(made, answer)
    }

    /// [`Rank::scatterv`] without waiting: its request.
    pub fn iscatterv<T: Item>(
        &mut self,
        comm: &Comm,
        root: u8,
        counts: &[u32],
        count: usize,
        items: &[T],
    ) -> Result<Pending<T>, CallError>
        ensures starts { Starts (H.goes_by self.old.desk.now.host []) H.node H.turned H.turn_refused comm.now.name (line.scatterv Nonblocking (pos root) T.ty (map pos counts.now) (pos count) (T.numbers items.now)) (λ pending. pending.request) result self.old.desk.now self.new.desk.now }
        ensures same { self.new.desk.ghost_name ≡ self.old.desk.ghost_name }
        ensures kept { (self.new.world ≡ self.old.world) × (self.new.turns ≡ self.old.turns) }
    {
        let made = Made::new("iscatterv", comm, items.len())
            .rooted(i128::from(root))
            .counted(counts.len());
        let counts = self.counts(made, counts)?;
        let given = self.given(made, items)?;
        let ops = Ops::none(self.alloc);
        let answer = self.desk.iscatterv(
            self.alloc,
            comm,
            i128::from(root),
            T::item_type(),
            counts,
            number_of(count),
            given,
            &ops,
        );
        self.pending(made, answer)
    }
}
