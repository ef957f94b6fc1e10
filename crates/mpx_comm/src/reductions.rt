//! The calls that combine items. Each is a draft that is posted, and waited for where it blocks.
ghost use Rattle.std.specs.Prelude.{◌≡◌};
ghost use Rattle.mpx_kind.specs.declared.kinds.Mode.TheVariants.{Blocking, Nonblocking};
ghost use Rattle.mpx_comm.specs.Desks.{DeskAsks, DeskCalls};
ghost use Rattle.mpx_comm.specs.Lines as line;

use crate::answers::CallError;
use crate::comm::Comm;
use crate::desk::Desk;
use crate::lines;
use mpx_kind::Mode;
use mpx_node::Finished;
use mpx_num::{Listing, Numbers, Op, Ops, Ty};
use mpx_post::PostError;
use mpx_request::{Host, Request};
use std::alloc::Global;

/// What `turns` counts, and which refusals and errors every call has, is told at [`Desk`]; each call tells its own.
impl<H: Host> Desk<H> {
    /// `MPI_REDUCE` (MPI 4.1 section 6.9.1): every member gives as many items as rank 0, else it is the fault `Amount`; the root gets
    /// their reduction, item by item, the others nothing. `RootOutOfRange` where the root is no rank, `OpNotForType` where `op` isn't
    /// for the type.
    pub fn reduce(
        &mut self,
        alloc: Global,
        comm: &Comm,
        root: i128,
        op: Op,
        ty: Ty,
        items: Numbers,
        turns: u64,
        ops: &Ops,
    ) -> Result<Finished, CallError>
        ensures { DeskCalls (H.goes_by self.old.host (⟦<Ops as Listing>⟧.operations ops.now)) H.node H.turned H.turn_refused comm.now.name (line.reduce Blocking root op ty items) turns result self.old self.new }
    {
        let draft = lines::reduce(Mode::Blocking, root, op, ty, items);
        self.call_on(alloc, &comm.name, draft, turns, ops)
    }

    /// `MPI_IREDUCE` (MPI 4.1 section 6.12.7): posts what [`Desk::reduce`] does, and waits for nobody.
    pub fn ireduce(
        &mut self,
        alloc: Global,
        comm: &Comm,
        root: i128,
        op: Op,
        ty: Ty,
        items: Numbers,
        ops: &Ops,
    ) -> Result<Request, PostError>
        ensures asks { DeskAsks (H.goes_by self.old.host (⟦<Ops as Listing>⟧.operations ops.now)) H.node comm.now.name (line.reduce Nonblocking root op ty items) result self.old self.new }
        ensures no_turn { H.turned self.old.host 0 self.new.host }
    {
        let draft = lines::reduce(Mode::Nonblocking, root, op, ty, items);
        self.post_on(alloc, &comm.name, draft, ops)
    }

    /// `MPI_ALLREDUCE` (MPI 4.1 section 6.9.6): every member gives as many items as rank 0, else it is the fault `Amount`, and gets
    /// their reduction, item by item. `OpNotForType` where `op` isn't for the type.
    pub fn allreduce(
        &mut self,
        alloc: Global,
        comm: &Comm,
        op: Op,
        ty: Ty,
        items: Numbers,
        turns: u64,
        ops: &Ops,
    ) -> Result<Finished, CallError>
        ensures { DeskCalls (H.goes_by self.old.host (⟦<Ops as Listing>⟧.operations ops.now)) H.node H.turned H.turn_refused comm.now.name (line.allreduce Blocking op ty items) turns result self.old self.new }
    {
        let draft = lines::allreduce(Mode::Blocking, op, ty, items);
        self.call_on(alloc, &comm.name, draft, turns, ops)
    }

    /// `MPI_IALLREDUCE` (MPI 4.1 section 6.12.8): posts what [`Desk::allreduce`] does, and waits for nobody.
    pub fn iallreduce(
        &mut self,
        alloc: Global,
        comm: &Comm,
        op: Op,
        ty: Ty,
        items: Numbers,
        ops: &Ops,
    ) -> Result<Request, PostError>
        ensures asks { DeskAsks (H.goes_by self.old.host (⟦<Ops as Listing>⟧.operations ops.now)) H.node comm.now.name (line.allreduce Nonblocking op ty items) result self.old self.new }
        ensures no_turn { H.turned self.old.host 0 self.new.host }
    {
        let draft = lines::allreduce(Mode::Nonblocking, op, ty, items);
        self.post_on(alloc, &comm.name, draft, ops)
    }

    /// `MPI_REDUCE_SCATTER_BLOCK` (MPI 4.1 section 6.10.1): every member gives a block of `count` items for each one (`ItemsLength`),
    /// and gets its block of the reduction. All give one `count`, else it is the fault `Amount`. `OpNotForType` where `op` isn't for
    /// the type.
    pub fn reduce_scatter_block(
        &mut self,
        alloc: Global,
        comm: &Comm,
        op: Op,
        ty: Ty,
        count: i128,
        items: Numbers,
        turns: u64,
        ops: &Ops,
    ) -> Result<Finished, CallError>
        ensures { DeskCalls (H.goes_by self.old.host (⟦<Ops as Listing>⟧.operations ops.now)) H.node H.turned H.turn_refused comm.now.name (line.reduce_scatter_block Blocking op ty count items) turns result self.old self.new }
    {
        let draft = lines::reduce_scatter_block(Mode::Blocking, op, ty, count, items);
        self.call_on(alloc, &comm.name, draft, turns, ops)
    }

    /// `MPI_IREDUCE_SCATTER_BLOCK` (MPI 4.1 section 6.12.9): posts what [`Desk::reduce_scatter_block`] does, and waits for nobody.
    pub fn ireduce_scatter_block(
        &mut self,
        alloc: Global,
        comm: &Comm,
        op: Op,
        ty: Ty,
        count: i128,
        items: Numbers,
        ops: &Ops,
    ) -> Result<Request, PostError>
        ensures asks { DeskAsks (H.goes_by self.old.host (⟦<Ops as Listing>⟧.operations ops.now)) H.node comm.now.name (line.reduce_scatter_block Nonblocking op ty count items) result self.old self.new }
        ensures no_turn { H.turned self.old.host 0 self.new.host }
    {
        let draft = lines::reduce_scatter_block(Mode::Nonblocking, op, ty, count, items);
        self.post_on(alloc, &comm.name, draft, ops)
    }

    /// `MPI_REDUCE_SCATTER` (MPI 4.1 section 6.10.2): every member gives a block for each one, of as many items as `rcounts` tell
    /// (`ItemsLength`), and gets its block of the reduction. `rcounts` has a count for each rank (`CountsLength`), and is equal at all
    /// members, else it is the fault `Amount`. `OpNotForType` where `op` isn't for the type.
    pub fn reduce_scatter(
        &mut self,
        alloc: Global,
        comm: &Comm,
        op: Op,
        ty: Ty,
        rcounts: Numbers,
        items: Numbers,
        turns: u64,
        ops: &Ops,
    ) -> Result<Finished, CallError>
        ensures { DeskCalls (H.goes_by self.old.host (⟦<Ops as Listing>⟧.operations ops.now)) H.node H.turned H.turn_refused comm.now.name (line.reduce_scatter Blocking op ty rcounts items) turns result self.old self.new }
    {
        let draft = lines::reduce_scatter(Mode::Blocking, op, ty, rcounts, items);
        self.call_on(alloc, &comm.name, draft, turns, ops)
    }

    /// `MPI_IREDUCE_SCATTER` (MPI 4.1 section 6.12.10): posts what [`Desk::reduce_scatter`] does, and waits for nobody.
    pub fn ireduce_scatter(
        &mut self,
        alloc: Global,
        comm: &Comm,
        op: Op,
        ty: Ty,
        rcounts: Numbers,
        items: Numbers,
        ops: &Ops,
    ) -> Result<Request, PostError>
        ensures asks { DeskAsks (H.goes_by self.old.host (⟦<Ops as Listing>⟧.operations ops.now)) H.node comm.now.name (line.reduce_scatter Nonblocking op ty rcounts items) result self.old self.new }
        ensures no_turn { H.turned self.old.host 0 self.new.host }
    {
        let draft = lines::reduce_scatter(Mode::Nonblocking, op, ty, rcounts, items);
        self.post_on(alloc, &comm.name, draft, ops)
    }

    /// `MPI_SCAN` (MPI 4.1 section 6.11.1): every member gives as many items as rank 0, else it is the fault `Amount`, and gets the
    /// reduction of the ranks up to its own, item by item. `OpNotForType` where `op` isn't for the type.
    pub fn scan(
        &mut self,
        alloc: Global,
        comm: &Comm,
        op: Op,
        ty: Ty,
        items: Numbers,
        turns: u64,
        ops: &Ops,
    ) -> Result<Finished, CallError>
        ensures { DeskCalls (H.goes_by self.old.host (⟦<Ops as Listing>⟧.operations ops.now)) H.node H.turned H.turn_refused comm.now.name (line.scan Blocking op ty items) turns result self.old self.new }
    {
        let draft = lines::scan(Mode::Blocking, op, ty, items);
        self.call_on(alloc, &comm.name, draft, turns, ops)
    }

    /// `MPI_ISCAN` (MPI 4.1 section 6.12.11): posts what [`Desk::scan`] does, and waits for nobody.
    pub fn iscan(
        &mut self,
        alloc: Global,
        comm: &Comm,
        op: Op,
        ty: Ty,
        items: Numbers,
        ops: &Ops,
    ) -> Result<Request, PostError>
        ensures asks { DeskAsks (H.goes_by self.old.host (⟦<Ops as Listing>⟧.operations ops.now)) H.node comm.now.name (line.scan Nonblocking op ty items) result self.old self.new }
        ensures no_turn { H.turned self.old.host 0 self.new.host }
    {
        let draft = lines::scan(Mode::Nonblocking, op, ty, items);
        self.post_on(alloc, &comm.name, draft, ops)
    }

    /// `MPI_EXSCAN` (MPI 4.1 section 6.11.2): every member gives as many items as rank 0, else it is the fault `Amount`, and gets the
    /// reduction of the ranks below its own, item by item; rank 0 gets `Outcome::Absent`. `OpNotForType` where `op` isn't for the type.
    pub fn exscan(
        &mut self,
        alloc: Global,
        comm: &Comm,
        op: Op,
        ty: Ty,
        items: Numbers,
        turns: u64,
        ops: &Ops,
    ) -> Result<Finished, CallError>
        ensures { DeskCalls (H.goes_by self.old.host (⟦<Ops as Listing>⟧.operations ops.now)) H.node H.turned H.turn_refused comm.now.name (line.exscan Blocking op ty items) turns result self.old self.new }
    {
        let draft = lines::exscan(Mode::Blocking, op, ty, items);
        self.call_on(alloc, &comm.name, draft, turns, ops)
    }

    /// `MPI_IEXSCAN` (MPI 4.1 section 6.12.12): posts what [`Desk::exscan`] does, and waits for nobody.
    pub fn iexscan(
        &mut self,
        alloc: Global,
        comm: &Comm,
        op: Op,
        ty: Ty,
        items: Numbers,
        ops: &Ops,
    ) -> Result<Request, PostError>
        ensures asks { DeskAsks (H.goes_by self.old.host (⟦<Ops as Listing>⟧.operations ops.now)) H.node comm.now.name (line.exscan Nonblocking op ty items) result self.old self.new }
        ensures no_turn { H.turned self.old.host 0 self.new.host }
    {
        let draft = lines::exscan(Mode::Nonblocking, op, ty, items);
        self.post_on(alloc, &comm.name, draft, ops)
    }
}
