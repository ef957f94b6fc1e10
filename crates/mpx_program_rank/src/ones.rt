//! Calls of one item.
ghost use Rattle.std.specs.Prelude.{◌≡◌, ◌∷◌, [], pos};
ghost use Rattle.mpx_kind.specs.declared.kinds.Mode.TheVariants.{Blocking};
ghost use Rattle.mpx_comm.specs.Lines as line;
ghost use Rattle.mpx_program_rank.specs.Gives.{GivesOne, IsOnly, root_items};

use crate::call_error::{CallError, Cause};
use crate::rank::Rank;
use crate::reading::Made;
use mpx_call::Item;
use mpx_comm::{Comm, Host};
use mpx_num::Op;

/// Each is the call of its name with a list of one item, and answers the one item that the call gives.
impl<'a, H: Host> Rank<'a, H> {
    /// [`Rank::allreduce`] of one item.
    pub fn allreduce_one<T: Item>(&mut self, comm: &Comm, op: Op, item: T) -> Result<T, CallError>
        ensures gives { GivesOne (H.goes_by self.old.desk.now.host []) H.node H.turned H.turn_refused comm.now.name (line.allreduce Blocking op T.ty (T.numbers (item ∷ []))) self.old.turns T.numbers result self.old.desk.now self.new.desk.now }
        ensures same { self.new.desk.ghost_name ≡ self.old.desk.ghost_name }
        ensures kept { (self.new.world ≡ self.old.world) × (self.new.turns ≡ self.old.turns) }
    {
        let list = self.one_allreduce(comm, op, T::one(&item));
        self.only("allreduce", comm, list)
    }

    /// [`Rank::scan`] of one item.
    pub fn scan_one<T: Item>(&mut self, comm: &Comm, op: Op, item: T) -> Result<T, CallError>
        ensures gives { GivesOne (H.goes_by self.old.desk.now.host []) H.node H.turned H.turn_refused comm.now.name (line.scan Blocking op T.ty (T.numbers (item ∷ []))) self.old.turns T.numbers result self.old.desk.now self.new.desk.now }
        ensures same { self.new.desk.ghost_name ≡ self.old.desk.ghost_name }
        ensures kept { (self.new.world ≡ self.old.world) × (self.new.turns ≡ self.old.turns) }
    {
        let list = self.one_scan(comm, op, T::one(&item));
        self.only("scan", comm, list)
    }

    /// [`Rank::bcast`] of one item: every rank gives one, and gets the root's.
    pub fn bcast_one<T: Item>(&mut self, comm: &Comm, root: u8, item: T) -> Result<T, CallError>
        ensures gives { GivesOne (H.goes_by self.old.desk.now.host []) H.node H.turned H.turn_refused comm.now.name (line.bcast Blocking (pos root) T.ty (pos 1) (T.numbers (root_items comm.now.rank root (item ∷ [])))) self.old.turns T.numbers result self.old.desk.now self.new.desk.now }
        ensures same { self.new.desk.ghost_name ≡ self.old.desk.ghost_name }
        ensures kept { (self.new.world ≡ self.old.world) × (self.new.turns ≡ self.old.turns) }
    {
        let list = self.one_bcast(comm, root, 1, at_root(comm, root, T::one(&item)));
        self.only("bcast", comm, list)
    }

    // The one item of the list that a call gave.
    fn only<T: Item>(
        &self,
        name: &'static str,
        comm: &Comm,
        list: Result<Vec<T>, CallError>,
    ) -> Result<T, CallError>
        ensures { IsOnly list result }
    {
        match list {
            Ok(list) => {
                if list.len() == 1 {
                    return Ok(list[0]);
                }
                let made = Made::new(name, comm, 1);
                Err(self.failed(made, self.last_call(comm), Cause::NotOne(list.len())))
            }
            Err(e) => Err(e),
        }
    }
}

// The items at the root, and none elsewhere.
fn at_root<'i, T>(comm: &Comm, root: u8, items: &'i [T]) -> &'i [T]
    ensures { result.now ≡ root_items comm.now.rank root items.now }
{
    if comm.rank() == root {
        return items;
    }
    &[]
}
