//! The calls along the edges of a graph. Each is a draft that is posted, and waited for where it blocks.
ghost use Rattle.std.specs.Prelude.{◌≡◌};
ghost use Rattle.mpx_kind.specs.declared.kinds.Mode.TheVariants.{Blocking, Nonblocking};
ghost use Rattle.mpx_comm.specs.Desks.{DeskAsks, DeskCalls};
ghost use Rattle.mpx_comm.specs.Lines as line;

use crate::answers::CallError;
use crate::comm::Comm;
use crate::desk::Desk;
use crate::lines;
use mpx_kind::Mode;
use mpx_node::Finished;
use mpx_num::{Listing, Numbers, Ops, Ty};
use mpx_post::PostError;
use mpx_request::{Host, Request};
use std::alloc::Global;

/// What `turns` counts, and which refusals and errors every call has, is told at [`Desk`]; each call tells its own.
impl<H: Host> Desk<H> {
    /// `MPI_NEIGHBOR_ALLGATHER` (MPI 4.1 section 8.6.1): every member gives all its items to each of its destinations, and gets those
    /// of each of its sources, in their order: `count` of each, else it is the fault `Amount`. `NoTopology` where there is no graph.
    pub fn neighbor_allgather(
        &mut self,
        alloc: Global,
        comm: &Comm,
        ty: Ty,
        count: i128,
        items: Numbers,
        turns: u64,
        ops: &Ops,
    ) -> Result<Finished, CallError>
        ensures { DeskCalls (H.goes_by self.old.host (⟦<Ops as Listing>⟧.operations ops.now)) H.node H.turned H.turn_refused comm.now.name (line.neighbor_allgather Blocking ty count items) turns result self.old self.new }
    {
        let draft = lines::neighbor_allgather(Mode::Blocking, ty, count, items);
        self.call_on(alloc, &comm.name, draft, turns, ops)
    }

    /// `MPI_INEIGHBOR_ALLGATHER` (MPI 4.1 section 8.7.1): posts what [`Desk::neighbor_allgather`] does, and waits for nobody.
    pub fn ineighbor_allgather(
        &mut self,
        alloc: Global,
        comm: &Comm,
        ty: Ty,
        count: i128,
        items: Numbers,
        ops: &Ops,
    ) -> Result<Request, PostError>
        ensures asks { DeskAsks (H.goes_by self.old.host (⟦<Ops as Listing>⟧.operations ops.now)) H.node comm.now.name (line.neighbor_allgather Nonblocking ty count items) result self.old self.new }
        ensures no_turn { H.turned self.old.host 0 self.new.host }
    {
        let draft = lines::neighbor_allgather(Mode::Nonblocking, ty, count, items);
        self.post_on(alloc, &comm.name, draft, ops)
    }

    /// `MPI_NEIGHBOR_ALLGATHERV` (MPI 4.1 section 8.6.1): every member gives all its items to each of its destinations, and gets those
    /// of each of its sources, in their order, of as many items as `rcounts` tell, else it is the fault `Amount`. `rcounts` has a count
    /// for each source (`CountsLength`). `NoTopology` where there is no graph.
    pub fn neighbor_allgatherv(
        &mut self,
        alloc: Global,
        comm: &Comm,
        ty: Ty,
        rcounts: Numbers,
        items: Numbers,
        turns: u64,
        ops: &Ops,
    ) -> Result<Finished, CallError>
        ensures { DeskCalls (H.goes_by self.old.host (⟦<Ops as Listing>⟧.operations ops.now)) H.node H.turned H.turn_refused comm.now.name (line.neighbor_allgatherv Blocking ty rcounts items) turns result self.old self.new }
    {
        let draft = lines::neighbor_allgatherv(Mode::Blocking, ty, rcounts, items);
        self.call_on(alloc, &comm.name, draft, turns, ops)
    }

    /// `MPI_INEIGHBOR_ALLGATHERV` (MPI 4.1 section 8.7.1): posts what [`Desk::neighbor_allgatherv`] does, and waits for nobody.
    pub fn ineighbor_allgatherv(
        &mut self,
        alloc: Global,
        comm: &Comm,
        ty: Ty,
        rcounts: Numbers,
        items: Numbers,
        ops: &Ops,
    ) -> Result<Request, PostError>
        ensures asks { DeskAsks (H.goes_by self.old.host (⟦<Ops as Listing>⟧.operations ops.now)) H.node comm.now.name (line.neighbor_allgatherv Nonblocking ty rcounts items) result self.old self.new }
        ensures no_turn { H.turned self.old.host 0 self.new.host }
    {
        let draft = lines::neighbor_allgatherv(Mode::Nonblocking, ty, rcounts, items);
        self.post_on(alloc, &comm.name, draft, ops)
    }

    /// `MPI_NEIGHBOR_ALLTOALL` (MPI 4.1 section 8.6.2): every member gives a block of `scount` items for each of its destinations, in
    /// their order (`ItemsLength`), and gets a block of `rcount` items of each of its sources, in their order, else it is the fault
    /// `Amount`. `NoTopology` where there is no graph.
    pub fn neighbor_alltoall(
        &mut self,
        alloc: Global,
        comm: &Comm,
        ty: Ty,
        scount: i128,
        rcount: i128,
        items: Numbers,
        turns: u64,
        ops: &Ops,
    ) -> Result<Finished, CallError>
        ensures { DeskCalls (H.goes_by self.old.host (⟦<Ops as Listing>⟧.operations ops.now)) H.node H.turned H.turn_refused comm.now.name (line.neighbor_alltoall Blocking ty scount rcount items) turns result self.old self.new }
    {
        let draft = lines::neighbor_alltoall(Mode::Blocking, ty, scount, rcount, items);
        self.call_on(alloc, &comm.name, draft, turns, ops)
    }

    /// `MPI_INEIGHBOR_ALLTOALL` (MPI 4.1 section 8.7.2): posts what [`Desk::neighbor_alltoall`] does, and waits for nobody.
    pub fn ineighbor_alltoall(
        &mut self,
        alloc: Global,
        comm: &Comm,
        ty: Ty,
        scount: i128,
        rcount: i128,
        items: Numbers,
        ops: &Ops,
    ) -> Result<Request, PostError>
        ensures asks { DeskAsks (H.goes_by self.old.host (⟦<Ops as Listing>⟧.operations ops.now)) H.node comm.now.name (line.neighbor_alltoall Nonblocking ty scount rcount items) result self.old self.new }
        ensures no_turn { H.turned self.old.host 0 self.new.host }
    {
        let draft = lines::neighbor_alltoall(Mode::Nonblocking, ty, scount, rcount, items);
        self.post_on(alloc, &comm.name, draft, ops)
    }

    /// `MPI_NEIGHBOR_ALLTOALLV` (MPI 4.1 section 8.6.2): every member gives a block for each of its destinations, of as many items as
    /// `scounts` tell (`ItemsLength`), and gets one of each of its sources, of as many items as `rcounts` tell, else it is the fault
    /// `Amount`. The lists have a count for each destination and for each source (`CountsLength`). `NoTopology` where there is no graph.
    pub fn neighbor_alltoallv(
        &mut self,
        alloc: Global,
        comm: &Comm,
        ty: Ty,
        scounts: Numbers,
        rcounts: Numbers,
        items: Numbers,
        turns: u64,
        ops: &Ops,
    ) -> Result<Finished, CallError>
        ensures { DeskCalls (H.goes_by self.old.host (⟦<Ops as Listing>⟧.operations ops.now)) H.node H.turned H.turn_refused comm.now.name (line.neighbor_alltoallv Blocking ty scounts rcounts items) turns result self.old self.new }
    {
        let draft = lines::neighbor_alltoallv(Mode::Blocking, ty, scounts, rcounts, items);
        self.call_on(alloc, &comm.name, draft, turns, ops)
    }

    /// `MPI_INEIGHBOR_ALLTOALLV` (MPI 4.1 section 8.7.2): posts what [`Desk::neighbor_alltoallv`] does, and waits for nobody.
    pub fn ineighbor_alltoallv(
        &mut self,
        alloc: Global,
        comm: &Comm,
        ty: Ty,
        scounts: Numbers,
        rcounts: Numbers,
        items: Numbers,
        ops: &Ops,
    ) -> Result<Request, PostError>
        ensures asks { DeskAsks (H.goes_by self.old.host (⟦<Ops as Listing>⟧.operations ops.now)) H.node comm.now.name (line.neighbor_alltoallv Nonblocking ty scounts rcounts items) result self.old self.new }
        ensures no_turn { H.turned self.old.host 0 self.new.host }
    {
        let draft = lines::neighbor_alltoallv(Mode::Nonblocking, ty, scounts, rcounts, items);
        self.post_on(alloc, &comm.name, draft, ops)
    }
}
