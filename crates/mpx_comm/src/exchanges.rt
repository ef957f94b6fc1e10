//! The calls that move items among all members. Each is a draft that is posted, and waited for where it blocks.
ghost use Rattle.std.specs.Prelude.{◌≡◌};
ghost use Rattle.mpx_kind.specs.declared.kinds.Mode.TheVariants.{Blocking, Nonblocking};
ghost use Rattle.mpx_comm.specs.Desks.{DeskAsks, DeskCalls};
ghost use Rattle.mpx_comm.specs.Lines as line;

use crate::answers::CallError;
use crate::comm::Comm;
use crate::desk::Desk;
use crate::lines;
use mpx_kind::Mode;
use mpx_node::Finished;
use mpx_num::{Listing, Numbers, Ops, Ty};
use mpx_post::PostError;
use mpx_request::{Host, Request};
use std::alloc::Global;

/// What `turns` counts, and which refusals and errors every call has, is told at [`Desk`]; each call tells its own.
impl<H: Host> Desk<H> {
    /// `MPI_ALLGATHER` (MPI 4.1 section 6.7): every member gives as many items as rank 0, else it is the fault `Amount`, and gets the
    /// items of all.
    pub fn allgather(
        &mut self,
        alloc: Global,
        comm: &Comm,
        ty: Ty,
        items: Numbers,
        turns: u64,
        ops: &Ops,
    ) -> Result<Finished, CallError>
        ensures { DeskCalls (H.goes_by self.old.host (⟦<Ops as Listing>⟧.operations ops.now)) H.node H.turned H.turn_refused comm.now.name (line.allgather Blocking ty items) turns result self.old self.new }
    {
        let draft = lines::allgather(Mode::Blocking, ty, items);
        self.call_on(alloc, &comm.name, draft, turns, ops)
    }

    /// `MPI_IALLGATHER` (MPI 4.1 section 6.12.5): posts what [`Desk::allgather`] does, and waits for nobody.
    pub fn iallgather(
        &mut self,
        alloc: Global,
        comm: &Comm,
        ty: Ty,
        items: Numbers,
        ops: &Ops,
    ) -> Result<Request, PostError>
        ensures asks { DeskAsks (H.goes_by self.old.host (⟦<Ops as Listing>⟧.operations ops.now)) H.node comm.now.name (line.allgather Nonblocking ty items) result self.old self.new }
        ensures no_turn { H.turned self.old.host 0 self.new.host }
    {
        let draft = lines::allgather(Mode::Nonblocking, ty, items);
        self.post_on(alloc, &comm.name, draft, ops)
    }

    /// `MPI_ALLGATHERV` (MPI 4.1 section 6.7): `rcounts`, a count for each rank (`CountsLength`), tells how many items each member
    /// gives, at every member, else it is the fault `Amount`; every member gets the items of all.
    pub fn allgatherv(
        &mut self,
        alloc: Global,
        comm: &Comm,
        ty: Ty,
        rcounts: Numbers,
        items: Numbers,
        turns: u64,
        ops: &Ops,
    ) -> Result<Finished, CallError>
        ensures { DeskCalls (H.goes_by self.old.host (⟦<Ops as Listing>⟧.operations ops.now)) H.node H.turned H.turn_refused comm.now.name (line.allgatherv Blocking ty rcounts items) turns result self.old self.new }
    {
        let draft = lines::allgatherv(Mode::Blocking, ty, rcounts, items);
        self.call_on(alloc, &comm.name, draft, turns, ops)
    }

    /// `MPI_IALLGATHERV` (MPI 4.1 section 6.12.5): posts what [`Desk::allgatherv`] does, and waits for nobody.
    pub fn iallgatherv(
        &mut self,
        alloc: Global,
        comm: &Comm,
        ty: Ty,
        rcounts: Numbers,
        items: Numbers,
        ops: &Ops,
    ) -> Result<Request, PostError>
        ensures asks { DeskAsks (H.goes_by self.old.host (⟦<Ops as Listing>⟧.operations ops.now)) H.node comm.now.name (line.allgatherv Nonblocking ty rcounts items) result self.old self.new }
        ensures no_turn { H.turned self.old.host 0 self.new.host }
    {
        let draft = lines::allgatherv(Mode::Nonblocking, ty, rcounts, items);
        self.post_on(alloc, &comm.name, draft, ops)
    }

    /// `MPI_ALLTOALL` (MPI 4.1 section 6.8): every member gives a block of `count` items for each one, in rank order (`ItemsLength`),
    /// and gets each one's block for it. All give one `count`, else it is the fault `Amount`.
    pub fn alltoall(
        &mut self,
        alloc: Global,
        comm: &Comm,
        ty: Ty,
        count: i128,
        items: Numbers,
        turns: u64,
        ops: &Ops,
    ) -> Result<Finished, CallError>
        ensures { DeskCalls (H.goes_by self.old.host (⟦<Ops as Listing>⟧.operations ops.now)) H.node H.turned H.turn_refused comm.now.name (line.alltoall Blocking ty count items) turns result self.old self.new }
    {
        let draft = lines::alltoall(Mode::Blocking, ty, count, items);
        self.call_on(alloc, &comm.name, draft, turns, ops)
    }

    /// `MPI_IALLTOALL` (MPI 4.1 section 6.12.6): posts what [`Desk::alltoall`] does, and waits for nobody.
    pub fn ialltoall(
        &mut self,
        alloc: Global,
        comm: &Comm,
        ty: Ty,
        count: i128,
        items: Numbers,
        ops: &Ops,
    ) -> Result<Request, PostError>
        ensures asks { DeskAsks (H.goes_by self.old.host (⟦<Ops as Listing>⟧.operations ops.now)) H.node comm.now.name (line.alltoall Nonblocking ty count items) result self.old self.new }
        ensures no_turn { H.turned self.old.host 0 self.new.host }
    {
        let draft = lines::alltoall(Mode::Nonblocking, ty, count, items);
        self.post_on(alloc, &comm.name, draft, ops)
    }

    /// `MPI_ALLTOALLV` (MPI 4.1 section 6.8): every member gives a block for each one, of as many items as `scounts` tell
    /// (`ItemsLength`), and gets each one's block for it, of as many items as `rcounts` tell, else it is the fault `Amount`. Both lists
    /// have a count for each rank (`CountsLength`).
    pub fn alltoallv(
        &mut self,
        alloc: Global,
        comm: &Comm,
        ty: Ty,
        scounts: Numbers,
        rcounts: Numbers,
        items: Numbers,
        turns: u64,
        ops: &Ops,
    ) -> Result<Finished, CallError>
        ensures { DeskCalls (H.goes_by self.old.host (⟦<Ops as Listing>⟧.operations ops.now)) H.node H.turned H.turn_refused comm.now.name (line.alltoallv Blocking ty scounts rcounts items) turns result self.old self.new }
    {
        let draft = lines::alltoallv(Mode::Blocking, ty, scounts, rcounts, items);
        self.call_on(alloc, &comm.name, draft, turns, ops)
    }

    /// `MPI_IALLTOALLV` (MPI 4.1 section 6.12.6): posts what [`Desk::alltoallv`] does, and waits for nobody.
    pub fn ialltoallv(
        &mut self,
        alloc: Global,
        comm: &Comm,
        ty: Ty,
        scounts: Numbers,
        rcounts: Numbers,
        items: Numbers,
        ops: &Ops,
    ) -> Result<Request, PostError>
        ensures asks { DeskAsks (H.goes_by self.old.host (⟦<Ops as Listing>⟧.operations ops.now)) H.node comm.now.name (line.alltoallv Nonblocking ty scounts rcounts items) result self.old self.new }
        ensures no_turn { H.turned self.old.host 0 self.new.host }
    {
        let draft = lines::alltoallv(Mode::Nonblocking, ty, scounts, rcounts, items);
        self.post_on(alloc, &comm.name, draft, ops)
    }
}
