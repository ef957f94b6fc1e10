//! What follows from the nodes' one history, as a call that does nothing.
ghost use Rattle.std.specs.Prelude.{◌≡◌, ℕ, List, Ok, Result, Some, slice_get};
ghost use Rattle.mpx_comm.specs.declared.answers.CallError.{CallError};
ghost use Rattle.mpx_request.specs.declared.answers.WaitError.{WaitError};
ghost use Rattle.mpx_request.specs.declared.request.Request.{Request};
ghost use Rattle.mpx_comm.specs.Forgetting.{WaitsAndForgets};
ghost use Rattle.mpx_request.specs.Requests.{Waits};
ghost use Rattle.mpx_comm.specs.Calls.{Calls};
ghost use Rattle.mpx_name.specs.Name.{Name};
ghost use Rattle.mpx_node.specs.declared.finished.Finished.{Finished};
ghost use Rattle.mpx_node.specs.Nodes.{NodeView, result_on};
ghost use Rattle.mpx_num.specs.declared.own.Operation.{Operation};
ghost use Rattle.mpx_post.specs.declared.draft.Draft.{Draft};
ghost use Rattle.mpx_ranks.specs.Ranks.{AreOfOneHistory, world_in};
ghost use Rattle.mpx_world.specs.Soundness.{IsValue, OfOneRow};
ghost use Rattle.mpx_world.specs.Worlds.{WorldView};

use mpx_comm::Host;

/// Each result that a process of a job has in the end is the standard's value of one whole row of the posts that the ranks made, beside its own
/// post of that call; and two results of one call are of one row. A result that a rank let go is such a value too, by the clause `ran` of
/// [`ranks`](crate::ranks) (`Answers`: `values`), and two values of one call are of one row.
pub fn one_row_for_all()
    ensures values { (operations : List Operation) (ranks size : ℕ) (nodes : List NodeView) (one : AreOfOneHistory operations ranks size nodes)
        (p : ℕ) (node : NodeView) (name : Name) (call : ℕ) (finished : Finished) → slice_get nodes p ≡ Some node
        → result_on node name call ≡ Some finished → IsValue (world_in operations ranks size nodes one) p name call finished }
    ensures one_row { (operations : List Operation) (ranks size : ℕ) (nodes : List NodeView) (one : AreOfOneHistory operations ranks size nodes)
        (p q : ℕ) (first second : NodeView) (name : Name) (call : ℕ) (x y : Finished) → slice_get nodes p ≡ Some first → slice_get nodes q ≡ Some second
        → result_on first name call ≡ Some x → result_on second name call ≡ Some y
        → OfOneRow (world_in operations ranks size nodes one) p q name call x y }
    ensures of_values { (world : WorldView) (p q : ℕ) (name : Name) (call : ℕ) (x y : Finished)
        → IsValue world p name call x → IsValue world q name call y → OfOneRow world p q name call x y }
{}

/// What a wait gives the host has had, also where it lets it go then. What it has had stays so through waits and blocking calls, whatever these
/// answer. Posts, tests and `forget` make no turn: there it is `had_later` of [`Host`](mpx_comm::Host).
pub fn waits_keep_what_was_had<H: Host>()
    ensures given { (a b : H) (request : Request) (turns : ℕ) (finished : Finished) (before after : List Request)
        → Waits H.node H.turned H.turn_refused request turns (Ok finished) a b before after → H.has_had b request.name request.call finished }
    ensures let_go { (a b : H) (request : Request) (turns : ℕ) (finished : Finished) (before after : List Request)
        → WaitsAndForgets H.node H.turned H.turn_refused request turns (Ok finished) a b before after → H.has_had b request.name request.call finished }
    ensures waits { (a b : H) (request : Request) (turns : ℕ) (answer : Result Finished (WaitError Request)) (before after : List Request)
        → WaitsAndForgets H.node H.turned H.turn_refused request turns answer a b before after
        → (name : Name) (call : ℕ) (finished : Finished) → H.has_had a name call finished → H.has_had b name call finished }
    ensures calls { (ops : List Operation) (a b : H) (on : Name) (draft : Draft) (turns : ℕ) (answer : Result Finished CallError) (before after : List Request)
        → Calls ops H.node H.turned H.turn_refused on draft turns answer a b before after
        → (name : Name) (call : ℕ) (finished : Finished) → H.has_had a name call finished → H.has_had b name call finished }
{}
