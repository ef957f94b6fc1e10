//! What is so of nodes of one's own, between which parts of boards are carried, as calls that a contract can name: they do nothing.
ghost use Rattle.std.specs.Prelude.{◌≡◌, All, List, [], ◌∷◌, map, slice_get, Some, ℕ, ℤ, OnErr, OnOk, Result, is_some};
ghost use Rattle.join_core.specs.declared.memory.OutOfMemory.{OutOfMemory};
ghost use Rattle.mpx_name.specs.Name.{Name};
ghost use Rattle.mpx_num.specs.declared.own.Operation.{Operation};
ghost use Rattle.mpx_post.specs.declared.draft.Draft.{Draft};
ghost use Rattle.mpx_post.specs.declared.draft.PostError.{PostError};
ghost use Rattle.mpx_board.specs.declared.board.Board.{Board};
ghost use Rattle.mpx_board.specs.declared.errors.PruneError.{PruneError};
ghost use Rattle.mpx_board.specs.Boards.{Look};
ghost use Rattle.mpx_board.specs.Looks.{look};
ghost use Rattle.mpx_delta.specs.Facts.{OnlyFactsOf};
ghost use Rattle.mpx_node.specs.declared.node.Harvest.{Harvest};
ghost use Rattle.mpx_node.specs.Deltas.{SaysWhatItHas};
ghost use Rattle.mpx_node.specs.Forgetting.{forgets};
ghost use Rattle.mpx_node.specs.Harvests.{Harvests, harvested};
ghost use Rattle.mpx_node.specs.Nodes.{NodeView, Opens, Posts, StopsTaking, checked_on, gathers_on, learn, next_result};
ghost use Rattle.mpx_world.specs.Worlds.{Forgets};
ghost use Rattle.mpx_world.specs.Soundness.{Agree, AgreeAcross, AreCommunicators, AreLeast, AreMembers, ArePermanent, Retains, Sound};
ghost use Rattle.mpx_world.specs.Enough.{AnswerDoneUpTo, IsEnough, was_in};
ghost use Rattle.mpx_world.specs.Networks.{EachAgrees, AreAmong, AreKept, AreNew, DeadStaysOn, NodeGives, NetworkGoesOn, HasPruned, IsNetwork, IsNodeStep, IsTake, Network, network_of, new_network, world_in};

/// Nodes that were just made, each at the place of its number and all for the same numbers of ranks and processes, are a network in
/// which nothing has happened.
pub fn networks_begin()
    ensures { (ops : List Operation) (ranks size : ℕ) (nodes : List NodeView) → AreNew ranks size nodes
        → IsNetwork (new_network ops ranks size nodes) }
{}

/// What a call of a node leaves is a network again, whatever it answered: [`Node::post`](mpx_node::Node::post), `harvest`, `harvest_to`,
/// `open_gathering`, `prune`, `forget`, `take` of a part that was sent, and `deltas`. So it is where a call left the node as it was, or only
/// looked at it. Parts that `part`, `parts` or `deltas` gave were sent then. The premises are what the calls promise. Parts that were
/// sent may be left out, and of two steps the second goes on where the first ended.
pub fn networks_go_on()
    ensures post { (ops : List Operation) (old new : NodeView) (name : Name) (draft : Draft) (result : Result ℕ PostError)
        → Posts name (checked_on ops old name draft) result old new → IsNodeStep ops old new }
    ensures harvest { (ops : List Operation) (old new : NodeView) (name : Name) (result : Result Harvest OutOfMemory)
        → Harvests ops (is_some (old.opened name)) name (next_result ops old name) result old new → IsNodeStep ops old new }
    ensures harvest_to { (ops : List Operation) (old new : NodeView) (name : Name) (times : ℕ) → new ≡ harvested ops times name old → IsNodeStep ops old new }
    ensures open_gathering { (ops : List Operation) (old new : NodeView) (parent : Name) (tag : ℤ) (ranks : List ℤ) (result : Result Name PostError)
        → Opens parent (gathers_on old parent tag ranks) result old new → IsNodeStep ops old new }
    ensures prune { (ops : List Operation) (old new : NodeView) (name : Name) (m : ℕ) (result : Result (Unit {0}) PruneError)
        → HasPruned name m result old new → IsNodeStep ops old new }
    ensures take { (old new : NodeView) (part : Look) (result : Result (Unit {0}) OutOfMemory)
        → OnOk result (new ≡ learn part old) → OnErr result (StopsTaking part old new) → IsTake part old new }
    ensures deltas { (ops : List Operation) (old new : NodeView) → SaysWhatItHas old new → IsNodeStep ops old new }
    ensures forget { (ops : List Operation) (old new : NodeView) (name : Name) (below : ℕ) → new ≡ forgets name below old → IsNodeStep ops old new }
    ensures unchanged { (ops : List Operation) (old new : NodeView) → new ≡ old → IsNodeStep ops old new }
    ensures part { (node : NodeView) (part : Look) → part ≡ node.board → NodeGives node (part ∷ []) }
    ensures parts { (node : NodeView) (made : List Board) → All (λ part. OnlyFactsOf (look part) node.board) made
        → NodeGives node (map look made) }
    ensures fewer { (n : Network) (nodes : List NodeView) (parts fewer : List Look)
        → AreAmong fewer parts → NetworkGoesOn n nodes parts → NetworkGoesOn n nodes fewer }
    ensures further { (n : Network) (middle nodes : List NodeView) (sent parts : List Look) (first : NetworkGoesOn n middle sent)
        → NetworkGoesOn (network_of first) nodes parts → NetworkGoesOn n nodes parts }
{}

/// The world of a network is sound, every two of its processes agree, also where one is seen earlier than the other, each board is the
/// least above what its process learned, each process is in the contexts that it opened, completed results are permanent, and own
/// posts are retained. Of the nodes themselves: all that each other member's board told at one moment after its post of a call is
/// enough for a node's harvests up to that call, one part of each ([`one_part_of_each_is_enough`](crate::one_part_of_each_is_enough));
/// every two agree, on births, posts and rows, and on results of one call, which are what one row gives the two, also an earlier
/// node with a later one; later nodes have what they had finished, or have let it go; and a context that is dead on a node's board is dead on it later, with
/// nothing else known of it.
pub fn networks_are_sound()
    ensures sound { (n : Network) → IsNetwork n → Sound (world_in n) }
    ensures agree { (n : Network) → IsNetwork n → (p q : ℕ) → Agree (world_in n) p q }
    ensures agree_across { (n : Network) (nodes : List NodeView) (parts : List Look) → IsNetwork n → (on : NetworkGoesOn n nodes parts)
        → (p q : ℕ) → AgreeAcross (world_in n) (world_in (network_of on)) p q }
    ensures least { (n : Network) → IsNetwork n → AreLeast (world_in n) }
    ensures members { (n : Network) → IsNetwork n → AreMembers (world_in n) }
    ensures communicators { (n : Network) → IsNetwork n → AreCommunicators (world_in n) }
    ensures permanent { (n : Network) (nodes : List NodeView) (parts : List Look) → IsNetwork n → (on : NetworkGoesOn n nodes parts)
        → ArePermanent Forgets on.later (world_in n) (world_in (network_of on)) }
    ensures retained { (n : Network) → IsNetwork n → Retains (world_in n) }
    ensures enough { (n : Network) → IsNetwork n → (p : ℕ) (node : NodeView) → slice_get n.nodes p ≡ Some node
        → (name : Name) (k : ℕ) → IsEnough (was_in n) node name k → AnswerDoneUpTo n.operations node name k }
    ensures nodes { (n : Network) → IsNetwork n → EachAgrees (world_in n) n.nodes n.nodes }
    ensures later_nodes { (n : Network) (nodes : List NodeView) (parts : List Look) → IsNetwork n → NetworkGoesOn n nodes parts
        → EachAgrees (world_in n) n.nodes nodes }
    ensures kept { (n : Network) (nodes : List NodeView) (parts : List Look) → IsNetwork n → NetworkGoesOn n nodes parts → AreKept n.nodes nodes }
    ensures dead { (n : Network) (nodes : List NodeView) (parts : List Look) → IsNetwork n → NetworkGoesOn n nodes parts
        → DeadStaysOn n.nodes nodes }
{}
