//! How a process comes to have all that another one told, as a call that a contract can name: it does nothing.
ghost use Rattle.std.specs.Prelude.{◌≡◌, ◌<◌, List, ◌∷◌, ◌++◌, IsTrue, is_some, slice_get, Some, ℕ};
ghost use Rattle.mpx_name.specs.Name.{Name};
ghost use Rattle.mpx_num.specs.declared.own.Operation.{Operation};
ghost use Rattle.mpx_board.specs.Boards.{Look, IsBoardBelow, join_all};
ghost use Rattle.mpx_node.specs.Deltas.{lacking_on};
ghost use Rattle.mpx_node.specs.Nodes.{NodeView, learn, posted_on};
ghost use Rattle.mpx_world.specs.declared.events.Event.{Event};
ghost use Rattle.mpx_world.specs.declared.events.Event.TheVariants as E;
ghost use Rattle.mpx_world.specs.Worlds.{Happening, MayGoOn, Takes, WorldView, start, world_by};
ghost use Rattle.mpx_world.specs.Events.{world_after};
ghost use Rattle.mpx_world.specs.Networks.{NetworkGoesOn, IsNetwork, Network, network_of};
ghost use Rattle.mpx_world.specs.Enough.{AnswerDoneUpTo, AreDoneUpTo, HasAllOf, StandOn, TellAll, WasNode, sends_and_takes, was_in};

/// How a process comes to have all that another one's board told at a moment after its post, so that the harvests are done: the
/// clauses `enough` of [`every_world_is_sound`](crate::every_world_is_sound),
/// [`every_history_keeps_its_parts`](crate::every_history_keeps_its_parts) and [`networks_are_sound`](crate::networks_are_sound)
/// ask it of each other member. It took the whole board, or all that `parts` gave, or all that one call of
/// [`Node::deltas`](mpx_node::Node::deltas) gave (`deltas`: that tells every process that is there all, not only one). In parts it may
/// also be told the board without some posts that it says there that it has.
///
/// Of events `sent` has the whole board sent and taken, and of what happens `taken` and `told`. Of nodes of one's own a node of
/// now is remembered (`now`, `since`), a part that was taken stands on the board and stays there (`learned`, `stays`), and then
/// `heard` gives what is asked: of `deltas` the remembered node is the one after the call. And where the harvests of a process of
/// any world are done, its node's calls answer so (`answers`).
pub fn one_part_of_each_is_enough()
    ensures deltas { (node : NodeView) (p : ℕ) (parts : List Look) → p < node.processes → join_all parts ≡ lacking_on node
        → TellAll p node.board parts }
    ensures sent { (ops : List Operation) (ranks size : ℕ) (es early middle late : List Event) (p q : ℕ) → p < size → q < size
        → sends_and_takes ops ranks size early q middle p late ≡ es
        → IsBoardBelow ((world_after ops ranks size early).each q).node.board ((world_after ops ranks size es).each p).node.board }
    ensures taken_by_event { (ops : List Operation) (ranks size : ℕ) (es early late : List Event) (p place : ℕ) (part : Look) → p < size
        → early ++ E.Take p place ∷ late ≡ es → slice_get (world_after ops ranks size early).parts place ≡ Some part
        → IsBoardBelow part ((world_after ops ranks size es).each p).node.board }
    ensures told_by_events { (ops : List Operation) (ranks size : ℕ) (es early late : List Event) → early ++ late ≡ es → (p q : ℕ) (parts : List Look)
        → TellAll p ((world_after ops ranks size early).each q).node.board parts
        → StandOn parts ((world_after ops ranks size es).each p).node.board
        → IsBoardBelow ((world_after ops ranks size early).each q).node.board ((world_after ops ranks size es).each p).node.board }
    ensures taken { (ops : List Operation) (ranks size : ℕ) (hs early late : List Happening) → MayGoOn (start ops ranks size) hs
        → (p place : ℕ) (part : Look) → early ++ Takes p place ∷ late ≡ hs
        → slice_get (world_by ops ranks size early).parts place ≡ Some part
        → IsBoardBelow part ((world_by ops ranks size hs).each p).node.board }
    ensures told { (ops : List Operation) (ranks size : ℕ) (hs early late : List Happening) → MayGoOn (start ops ranks size) hs → early ++ late ≡ hs
        → (p q : ℕ) (parts : List Look) → TellAll p ((world_by ops ranks size early).each q).node.board parts
        → StandOn parts ((world_by ops ranks size hs).each p).node.board
        → IsBoardBelow ((world_by ops ranks size early).each q).node.board ((world_by ops ranks size hs).each p).node.board }
    ensures now { (n : Network) → IsNetwork n → (q : ℕ) (node : NodeView) → slice_get n.nodes q ≡ Some node → WasNode n q node }
    ensures since { (n : Network) (nodes : List NodeView) (parts : List Look) (on : NetworkGoesOn n nodes parts) (q : ℕ) (node : NodeView)
        → WasNode n q node → WasNode (network_of on) q node }
    ensures learned { (old new : NodeView) (part : Look) → new ≡ learn part old → IsBoardBelow part new.board }
    ensures stays { (n : Network) (nodes : List NodeView) (parts : List Look) → IsNetwork n → NetworkGoesOn n nodes parts
        → (p : ℕ) (old new : NodeView) → slice_get n.nodes p ≡ Some old → slice_get nodes p ≡ Some new
        → (part : Look) → IsBoardBelow part old.board → IsBoardBelow part new.board }
    ensures heard { (n : Network) → IsNetwork n → (p q : ℕ) (node sender : NodeView) → slice_get n.nodes p ≡ Some node
        → WasNode n q sender → (parts : List Look) → TellAll p sender.board parts → StandOn parts node.board
        → (name : Name) (k : ℕ) → k < posted_on sender name → HasAllOf (was_in n) node.board q name k }
    ensures answers { (w : WorldView) (p : ℕ) (name : Name) (k : ℕ) → IsTrue (is_some ((w.each p).node.opened name))
        → AreDoneUpTo w p name k → AnswerDoneUpTo w.operations (w.each p).node name k }
{}
