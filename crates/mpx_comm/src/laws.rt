//! What follows from the calls' contracts, as calls that do nothing.
ghost use Rattle.std.specs.Prelude.{◌≡◌, ℕ, ℤ, List, Result, Ok, Some};
ghost use Rattle.join_core.specs.declared.memory.OutOfMemory.{OutOfMemory};
ghost use Rattle.mpx_name.specs.Name.{Name};
ghost use Rattle.mpx_num.specs.declared.own.Operation.{Operation};
ghost use Rattle.mpx_post.specs.Drafts.{given_by};
ghost use Rattle.mpx_post.specs.declared.draft.Draft.{Draft};
ghost use Rattle.mpx_post.specs.declared.draft.PostError.{PostError};
ghost use Rattle.mpx_board.specs.Boards.{Look};
ghost use Rattle.mpx_post.specs.Posts.{Given};
ghost use Rattle.mpx_node.specs.Forgetting.{forgets};
ghost use Rattle.mpx_node.specs.Nodes.{NodeView, Opens, StopsTaking, gathers_on, learn, with_post};
ghost use Rattle.mpx_node.specs.declared.node.Harvest.{Harvest};
ghost use Rattle.mpx_node.specs.declared.finished.Finished.{Finished};
ghost use Rattle.mpx_request.specs.declared.answers.Tested.TheVariants.{Done};
ghost use Rattle.mpx_request.specs.declared.request.Request.{Request};
ghost use Rattle.mpx_request.specs.Harvested.{HarvestsNext};
ghost use Rattle.mpx_comm.specs.Keeps.{NodeHolds, NodeKeeps};
ghost use Rattle.mpx_request.specs.Later.{Later};
ghost use Rattle.mpx_request.specs.Requests.{Tests, result_of};
ghost use Rattle.mpx_comm.specs.Calls.{HasPosted, next_call};

/// Posts, tests, turns, and waits that let nothing go, in any number and order, keep what was posted and stored; so do gatherings that
/// are opened, harvests, and boards that come, also where memory was wanting to take one whole. Only [`Desk::forget`] and
/// [`Desk::wait_and_forget`] let results go: [`results_stay_until_they_are_let_go`].
///
/// [`Desk::forget`]: crate::Desk::forget
/// [`Desk::wait_and_forget`]: crate::Desk::wait_and_forget
pub fn calls_keep_posts_and_results()
    ensures later { (old now : NodeView) → Later old now → NodeKeeps old now }
    ensures posts { (ops : List Operation) (old now : NodeView) (name : Name) (draft : Draft)
        → HasPosted ops name draft old now → NodeKeeps old now }
    ensures gatherings { (old now : NodeView) (parent : Name) (tag : ℤ) (ranks : List ℤ) (answer : Result Name PostError)
        → Opens parent (gathers_on old parent tag ranks) answer old now → NodeKeeps old now }
    ensures harvests { (ops : List Operation) (old now : NodeView) (name : Name) (answer : Result Harvest OutOfMemory)
        → HarvestsNext ops name answer old now → NodeKeeps old now }
    ensures boards { (old : NodeView) (part : Look) → NodeKeeps old (learn part old) }
    ensures stopped { (old now : NodeView) (part : Look) → StopsTaking part old now → NodeKeeps old now }
    ensures chain { (old between now : NodeView) → NodeKeeps old between → NodeKeeps between now → NodeKeeps old now }
{}

/// Whatever else was posted and done since, a result at the place of a draft's post says that post.
pub fn results_say_what_was_posted()
    ensures { (ops : List Operation) (old posted now : NodeView) (name : Name) (draft : Draft) (finished : Finished)
        → HasPosted ops name draft old posted → NodeKeeps posted now → result_of now (next_call old name) ≡ Some finished → finished.mine ≡ given_by draft }
{}

/// What a test of a request answers is what the node stores of its call from then on, as long as no result is let go. So a request that is
/// handed in again gets the same answer.
pub fn answers_are_stored_results()
    ensures stored { (tested now : NodeView) (request : Request) (finished : Finished) (before after : List Request)
        → Tests request (Ok (Done finished)) tested before after → NodeKeeps tested now → result_of now request ≡ Some finished }
    ensures again { (tested now : NodeView) (request : Request) (first again : Finished) (before after then_open last_open : List Request)
        → Tests request (Ok (Done first)) tested before after → NodeKeeps tested now → Tests request (Ok (Done again)) now then_open last_open → again ≡ first }
{}

/// With results that are let go too: what was stored is stored, or its own process has let it go, for good. A request that is handed in
/// again gets the same answer or none, and a result at the place of a draft's post still says that post. It is so of posts, blocking
/// calls, whatever these answer, tests, waits and turns, of gatherings, harvests and boards that come, and of results that are let go.
pub fn results_stay_until_they_are_let_go()
    ensures later { (old now : NodeView) → Later old now → NodeHolds old now }
    ensures posts { (old : NodeView) (name : Name) (given : Given) → NodeHolds old (with_post name given old) }
    ensures calls { (ops : List Operation) (old now : NodeView) (name : Name) (draft : Draft)
        → HasPosted ops name draft old now → NodeHolds old now }
    ensures gatherings { (old now : NodeView) (parent : Name) (tag : ℤ) (ranks : List ℤ) (answer : Result Name PostError)
        → Opens parent (gathers_on old parent tag ranks) answer old now → NodeHolds old now }
    ensures harvests { (ops : List Operation) (old now : NodeView) (name : Name) (answer : Result Harvest OutOfMemory)
        → HarvestsNext ops name answer old now → NodeHolds old now }
    ensures boards { (old : NodeView) (part : Look) → NodeHolds old (learn part old) }
    ensures stopped { (old now : NodeView) (part : Look) → StopsTaking part old now → NodeHolds old now }
    ensures forgets { (old : NodeView) (name : Name) (below : ℕ) → NodeHolds old (forgets name below old) }
    ensures chain { (old between now : NodeView) → NodeHolds old between → NodeHolds between now → NodeHolds old now }
    ensures again { (tested now : NodeView) (request : Request) (first again : Finished) (before after then_open last_open : List Request)
        → Tests request (Ok (Done first)) tested before after → NodeHolds tested now → Tests request (Ok (Done again)) now then_open last_open → again ≡ first }
    ensures mine { (ops : List Operation) (old posted now : NodeView) (name : Name) (draft : Draft) (finished : Finished)
        → HasPosted ops name draft old posted → NodeHolds posted now → result_of now (next_call old name) ≡ Some finished → finished.mine ≡ given_by draft }
{}
