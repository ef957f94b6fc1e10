//! What a prune leaves of a node, and of a board, where the free of the context is harvested.
ghost use Rattle.std.specs.Prelude.{◌≡◌, false, OnErr, OnOk};
ghost use Rattle.mpx_board.specs.Boards.{Dead, floor_on, join, only};
ghost use Rattle.mpx_board.specs.Changes.{pruned, pruned_on};
ghost use Rattle.mpx_board.specs.Looks.{look};

use crate::node::Node;
use crate::opened::opened_on;
use mpx_board::{Board, PruneError};
use mpx_name::Name;

impl Node {
    ghost use Rattle.mpx_node.specs.Nodes.{results_on, is_past_free, learn_some, prune_part};
    ghost use Rattle.mpx_node.specs.Shown.{node_of};

    /// Drops the posts of calls below the number on a context, which is at most the floor: as many calls as every member has
    /// harvested. Where the number is past a free whose row is fine and whose result the process has, the context is dead from then
    /// on; on a dead one it changes nothing. It takes no memory.
    ///
    /// # Errors
    /// `NoBirth` where the birth of a live context isn't known, then `AboveFloor`, with the floor, where the number is greater. They
    /// change nothing.
    pub fn prune(&mut self, name: &Name, number: u32) -> Result<(), PruneError>
        ensures answer { result ≡ pruned_on (node_of self.old).board name.now number }
        ensures ok { OnOk result (node_of self.new ≡ learn_some (prune_part (node_of self.old) name.now number) (node_of self.old)) }
        ensures err { OnErr result (node_of self.new ≡ node_of self.old) }
    {
        if self.board.is_dead(name) {
            return Ok(());
        }
        if self.is_past_free(name, number) {
            return bury(&mut self.board, name, number);
        }
        self.board.prune(name, number)
    }

    /// Whether the number goes past a free on a context whose row is fine and whose result the process has: then a prune to it
    /// that is accepted leaves the context dead.
    pub fn is_past_free(&self, name: &Name, number: u32) -> bool
        ensures { result ≡ is_past_free (results_on (node_of self.now) name.now) number }
    {
        match opened_on(&self.opened, name) {
            None => false,
            Some(opened) => opened.is_past_free(number),
        }
    }
}

// Marks a context that isn't dead as dead, where the number is at most its floor.
pub fn bury(board: &mut Board, name: &Name, number: u32) -> Result<(), PruneError>
    requires { ((look board.old).contexts name.now).dead ≡ false }
    ensures answer { result ≡ pruned (floor_on (look board.old) name.now) number }
    ensures ok { OnOk result (look board.new ≡ join (look board.old) (only (Dead name.now))) }
    ensures err { OnErr result (look board.new ≡ look board.old) }
{
    let Some(floor) = board.floor(name) else {
        return Err(PruneError::NoBirth);
    };
    if floor < number {
        return Err(PruneError::AboveFloor(floor));
    }
    match board.kill(name) {
        Ok(()) => Ok(()),
        Err(_) => unreachable!(),
    }
}
