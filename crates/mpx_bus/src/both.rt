//! What two processes have both finished.
ghost use Rattle.mpx_node.specs.Shown.{node_of};
ghost use Rattle.mpx_bus.specs.Finished.{BothHaveFinished, TellsFronts};

use mpx_node::Node;

// How many instances both processes have finished, or the greatest number where there are more: a context on which a process
// has finished calls is one of which its board knows, since the board tells its front, or that the context is dead.
pub(crate) fn both_finished(first: &Node, second: &Node) -> u64
    requires { TellsFronts (node_of first.now) }
    ensures { BothHaveFinished (node_of first.now) (node_of second.now) result }
{
    let mut both: u64 = 0;
    for (name, _) in first.board().pair().first.entries() {
        both = both.saturating_add(u64::from(first.front(name).min(second.front(name))));
    }
    both
}
