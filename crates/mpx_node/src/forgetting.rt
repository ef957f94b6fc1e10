//! Results that a process lets go.
ghost use Rattle.std.specs.Prelude.{◌≡◌};

use crate::node::Node;
use crate::opened::opened_on;
use mpx_name::Name;

impl Node {
    ghost use Rattle.mpx_node.specs.Forgetting.{forgets, forgotten_on};
    ghost use Rattle.mpx_node.specs.Shown.{node_of};

    /// Lets the results of calls below the number on a context go, as far as these are harvested, but never the newest: so the
    /// result of a free, which is a context's last, stays for [`Node::prune`]. Their memory is free for what follows. The numbers of
    /// calls, the own front and the board stay, and so do other contexts. On a context that isn't opened it changes nothing.
    /// It takes no memory.
    pub fn forget(&mut self, name: &Name, below: u32)
        ensures { node_of self.new ≡ forgets name.now below (node_of self.old) }
    {
        let Some(opened) = self.opened.get_mut(name) else {
            return;
        };
        opened.let_go(below);
    }

    /// How many results on a context are let go, those of the calls with the lowest numbers: 0 where none is.
    pub fn forgotten(&self, name: &Name) -> u32
        ensures { result ≡ forgotten_on (node_of self.now) name.now }
    {
        match opened_on(&self.opened, name) {
            None => 0,
            Some(opened) => opened.gone(),
        }
    }
}
