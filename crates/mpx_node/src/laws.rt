//! Laws of what a process does, as calls that a contract can name: they do nothing.
ghost use Rattle.std.specs.Prelude.{◌≡◌, ℕ, false};
ghost use Rattle.mpx_name.specs.Name.{Name, same_name};
ghost use Rattle.mpx_node.specs.Nodes.{NodeView};
ghost use Rattle.mpx_node.specs.Forgetting.{KeepsFrom, forgets};

/// Where results of calls below a number are let go ([`Node::forget`](crate::Node::forget)), the newest result on each context stays, and so
/// do those of the calls from that number on, and how many calls are posted and harvested. On other contexts nothing is changed.
pub fn newest_results_stay()
    ensures kept { (name n : Name) (below : ℕ) (node : NodeView) → KeepsFrom below n node (forgets name below node) }
    ensures elsewhere { (name n : Name) (below : ℕ) (node : NodeView) → same_name n name ≡ false → (forgets name below node).opened n ≡ node.opened n }
{}
