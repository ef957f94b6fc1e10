//! The calls that move items from or to a root, and the barrier. Each is a draft that is posted, and waited for where it blocks.
ghost use Rattle.std.specs.Prelude.{◌≡◌};
ghost use Rattle.mpx_kind.specs.declared.kinds.Mode.TheVariants.{Blocking, Nonblocking};
ghost use Rattle.mpx_comm.specs.Desks.{DeskAsks, DeskCalls};
ghost use Rattle.mpx_comm.specs.Lines as line;

use crate::answers::CallError;
use crate::comm::Comm;
use crate::desk::Desk;
use crate::lines;
use mpx_kind::Mode;
use mpx_node::Finished;
use mpx_num::{Listing, Numbers, Ops, Ty};
use mpx_post::PostError;
use mpx_request::{Host, Request};
use std::alloc::Global;

/// What `turns` counts, and which refusals and errors every call has, is told at [`Desk`]; each call tells its own.
impl<H: Host> Desk<H> {
    /// `MPI_BARRIER` (MPI 4.1 section 6.3): every member gives nothing, and gets nothing, once all have posted it.
    pub fn barrier(
        &mut self,
        alloc: Global,
        comm: &Comm,
        turns: u64,
        ops: &Ops,
    ) -> Result<Finished, CallError>
        ensures { DeskCalls (H.goes_by self.old.host (⟦<Ops as Listing>⟧.operations ops.now)) H.node H.turned H.turn_refused comm.now.name (line.barrier Blocking) turns result self.old self.new }
    {
        let draft = lines::barrier(Mode::Blocking);
        self.call_on(alloc, &comm.name, draft, turns, ops)
    }

    /// `MPI_IBARRIER` (MPI 4.1 section 6.12.1): posts what [`Desk::barrier`] does, and waits for nobody.
    pub fn ibarrier(&mut self, alloc: Global, comm: &Comm, ops: &Ops) -> Result<Request, PostError>
        ensures asks { DeskAsks (H.goes_by self.old.host (⟦<Ops as Listing>⟧.operations ops.now)) H.node comm.now.name (line.barrier Nonblocking) result self.old self.new }
        ensures no_turn { H.turned self.old.host 0 self.new.host }
    {
        let draft = lines::barrier(Mode::Nonblocking);
        self.post_on(alloc, &comm.name, draft, ops)
    }

    /// `MPI_BCAST` (MPI 4.1 section 6.4): the root gives `count` items, the others none (`ItemsLength`), and every member gets the
    /// root's. All give one `count`, else it is the fault `Amount`. `RootOutOfRange` where the root is no rank.
    pub fn bcast(
        &mut self,
        alloc: Global,
        comm: &Comm,
        root: i128,
        ty: Ty,
        count: i128,
        items: Numbers,
        turns: u64,
        ops: &Ops,
    ) -> Result<Finished, CallError>
        ensures { DeskCalls (H.goes_by self.old.host (⟦<Ops as Listing>⟧.operations ops.now)) H.node H.turned H.turn_refused comm.now.name (line.bcast Blocking root ty count items) turns result self.old self.new }
    {
        let draft = lines::bcast(Mode::Blocking, root, ty, count, items);
        self.call_on(alloc, &comm.name, draft, turns, ops)
    }

    /// `MPI_IBCAST` (MPI 4.1 section 6.12.2): posts what [`Desk::bcast`] does, and waits for nobody.
    pub fn ibcast(
        &mut self,
        alloc: Global,
        comm: &Comm,
        root: i128,
        ty: Ty,
        count: i128,
        items: Numbers,
        ops: &Ops,
    ) -> Result<Request, PostError>
        ensures asks { DeskAsks (H.goes_by self.old.host (⟦<Ops as Listing>⟧.operations ops.now)) H.node comm.now.name (line.bcast Nonblocking root ty count items) result self.old self.new }
        ensures no_turn { H.turned self.old.host 0 self.new.host }
    {
        let draft = lines::bcast(Mode::Nonblocking, root, ty, count, items);
        self.post_on(alloc, &comm.name, draft, ops)
    }

    /// `MPI_GATHER` (MPI 4.1 section 6.5): every member gives as many items as the root, else it is the fault `Amount`; the root gets
    /// all of them, the others nothing. `RootOutOfRange` where the root is no rank.
    pub fn gather(
        &mut self,
        alloc: Global,
        comm: &Comm,
        root: i128,
        ty: Ty,
        items: Numbers,
        turns: u64,
        ops: &Ops,
    ) -> Result<Finished, CallError>
        ensures { DeskCalls (H.goes_by self.old.host (⟦<Ops as Listing>⟧.operations ops.now)) H.node H.turned H.turn_refused comm.now.name (line.gather Blocking root ty items) turns result self.old self.new }
    {
        let draft = lines::gather(Mode::Blocking, root, ty, items);
        self.call_on(alloc, &comm.name, draft, turns, ops)
    }

    /// `MPI_IGATHER` (MPI 4.1 section 6.12.3): posts what [`Desk::gather`] does, and waits for nobody.
    pub fn igather(
        &mut self,
        alloc: Global,
        comm: &Comm,
        root: i128,
        ty: Ty,
        items: Numbers,
        ops: &Ops,
    ) -> Result<Request, PostError>
        ensures asks { DeskAsks (H.goes_by self.old.host (⟦<Ops as Listing>⟧.operations ops.now)) H.node comm.now.name (line.gather Nonblocking root ty items) result self.old self.new }
        ensures no_turn { H.turned self.old.host 0 self.new.host }
    {
        let draft = lines::gather(Mode::Nonblocking, root, ty, items);
        self.post_on(alloc, &comm.name, draft, ops)
    }

    /// `MPI_GATHERV` (MPI 4.1 section 6.5): the root's `rcounts` tell how many items each member gives, else it is the fault `Amount`;
    /// the root gets all of them, the others nothing. `rcounts` has a count for each rank at the root, and none elsewhere
    /// (`CountsLength`). `RootOutOfRange` where the root is no rank.
    pub fn gatherv(
        &mut self,
        alloc: Global,
        comm: &Comm,
        root: i128,
        ty: Ty,
        rcounts: Numbers,
        items: Numbers,
        turns: u64,
        ops: &Ops,
    ) -> Result<Finished, CallError>
        ensures { DeskCalls (H.goes_by self.old.host (⟦<Ops as Listing>⟧.operations ops.now)) H.node H.turned H.turn_refused comm.now.name (line.gatherv Blocking root ty rcounts items) turns result self.old self.new }
    {
        let draft = lines::gatherv(Mode::Blocking, root, ty, rcounts, items);
        self.call_on(alloc, &comm.name, draft, turns, ops)
    }

    /// `MPI_IGATHERV` (MPI 4.1 section 6.12.3): posts what [`Desk::gatherv`] does, and waits for nobody.
    pub fn igatherv(
        &mut self,
        alloc: Global,
        comm: &Comm,
        root: i128,
        ty: Ty,
        rcounts: Numbers,
        items: Numbers,
        ops: &Ops,
    ) -> Result<Request, PostError>
        ensures asks { DeskAsks (H.goes_by self.old.host (⟦<Ops as Listing>⟧.operations ops.now)) H.node comm.now.name (line.gatherv Nonblocking root ty rcounts items) result self.old self.new }
        ensures no_turn { H.turned self.old.host 0 self.new.host }
    {
        let draft = lines::gatherv(Mode::Nonblocking, root, ty, rcounts, items);
        self.post_on(alloc, &comm.name, draft, ops)
    }

    /// `MPI_SCATTER` (MPI 4.1 section 6.6): the root gives a block of `count` items for each member, in rank order, the others none
    /// (`ItemsLength`); every member gets its block. All give one `count`, else it is the fault `Amount`. `RootOutOfRange` where the
    /// root is no rank.
    pub fn scatter(
        &mut self,
        alloc: Global,
        comm: &Comm,
        root: i128,
        ty: Ty,
        count: i128,
        items: Numbers,
        turns: u64,
        ops: &Ops,
    ) -> Result<Finished, CallError>
        ensures { DeskCalls (H.goes_by self.old.host (⟦<Ops as Listing>⟧.operations ops.now)) H.node H.turned H.turn_refused comm.now.name (line.scatter Blocking root ty count items) turns result self.old self.new }
    {
        let draft = lines::scatter(Mode::Blocking, root, ty, count, items);
        self.call_on(alloc, &comm.name, draft, turns, ops)
    }

    /// `MPI_ISCATTER` (MPI 4.1 section 6.12.4): posts what [`Desk::scatter`] does, and waits for nobody.
    pub fn iscatter(
        &mut self,
        alloc: Global,
        comm: &Comm,
        root: i128,
        ty: Ty,
        count: i128,
        items: Numbers,
        ops: &Ops,
    ) -> Result<Request, PostError>
        ensures asks { DeskAsks (H.goes_by self.old.host (⟦<Ops as Listing>⟧.operations ops.now)) H.node comm.now.name (line.scatter Nonblocking root ty count items) result self.old self.new }
        ensures no_turn { H.turned self.old.host 0 self.new.host }
    {
        let draft = lines::scatter(Mode::Nonblocking, root, ty, count, items);
        self.post_on(alloc, &comm.name, draft, ops)
    }

    /// `MPI_SCATTERV` (MPI 4.1 section 6.6): the root gives a block for each member, of as many items as its `scounts` tell, the others
    /// none (`ItemsLength`); every member gets its block, of `count` items, else it is the fault `Amount`. `scounts` has a count for each
    /// rank at the root, and none elsewhere (`CountsLength`). `RootOutOfRange` where the root is no rank.
    pub fn scatterv(
        &mut self,
        alloc: Global,
        comm: &Comm,
        root: i128,
        ty: Ty,
        scounts: Numbers,
        count: i128,
        items: Numbers,
        turns: u64,
        ops: &Ops,
    ) -> Result<Finished, CallError>
        ensures { DeskCalls (H.goes_by self.old.host (⟦<Ops as Listing>⟧.operations ops.now)) H.node H.turned H.turn_refused comm.now.name (line.scatterv Blocking root ty scounts count items) turns result self.old self.new }
    {
        let draft = lines::scatterv(Mode::Blocking, root, ty, scounts, count, items);
        self.call_on(alloc, &comm.name, draft, turns, ops)
    }

    /// `MPI_ISCATTERV` (MPI 4.1 section 6.12.4): posts what [`Desk::scatterv`] does, and waits for nobody.
    pub fn iscatterv(
        &mut self,
        alloc: Global,
        comm: &Comm,
        root: i128,
        ty: Ty,
        scounts: Numbers,
        count: i128,
        items: Numbers,
        ops: &Ops,
    ) -> Result<Request, PostError>
        ensures asks { DeskAsks (H.goes_by self.old.host (⟦<Ops as Listing>⟧.operations ops.now)) H.node comm.now.name (line.scatterv Nonblocking root ty scounts count items) result self.old self.new }
        ensures no_turn { H.turned self.old.host 0 self.new.host }
    {
        let draft = lines::scatterv(Mode::Nonblocking, root, ty, scounts, count, items);
        self.post_on(alloc, &comm.name, draft, ops)
    }
}
