//! What is so after every list of doings, as calls that a contract can name: they do nothing.
ghost use Rattle.std.specs.Prelude.{◌≡◌, ◌<◌, ◌≤◌, List, ℕ, [], length};
ghost use Rattle.mpx_num.specs.declared.own.Operation.{Operation};
ghost use Rattle.mpx_meaning.specs.Evaluation.{Script, State, IsEvaluation, IsPrefixOf, bound_at_start, left, statements_of};
ghost use Rattle.mpx_meaning.specs.Told.{CarriesOut};
ghost use Rattle.mpx_world.specs.Soundness.{Sound};
ghost use Rattle.mpx_system.specs.Rest.{AreFullRounds, IsAtRest, IsFullRound, after_rounds};
ghost use Rattle.mpx_system.specs.Systems.{Doing, IsOfHappenings, MayDoAll, TellsResults, does_all, start_system, world_tells};

/// By whatever operations of a job, and whatever is sent, acknowledged, lost, repeated or reordered, and in whatever order ranks move: each rank's lines begin its
/// lines in the evaluation, those of a rank that has nothing left are all of them, each line that tells an outcome tells that
/// of the result which the rank's node holds, and what a process posted is what the rank posted: a relay posts nothing. The
/// world is one of what can happen: so what is so after every such history is so of it.
pub fn every_run_begins_the_evaluation()
    ensures lines { (ops : List Operation) (script : Script) (ranks size : ℕ) (doings : List Doing) (end : State) → MayDoAll ranks (start_system ops script ranks size) doings → IsEvaluation ops script ranks end
        → (p : ℕ) → IsPrefixOf ((does_all (start_system ops script ranks size) doings).ranks p).lines (end p).lines }
    ensures whole { (ops : List Operation) (script : Script) (ranks size : ℕ) (doings : List Doing) (end : State) → MayDoAll ranks (start_system ops script ranks size) doings → IsEvaluation ops script ranks end
        → (p : ℕ) → ((does_all (start_system ops script ranks size) doings).ranks p).todo ≡ [] → (does_all (start_system ops script ranks size) doings).ranks p ≡ end p }
    ensures told { (ops : List Operation) (script : Script) (ranks size : ℕ) (doings : List Doing) → MayDoAll ranks (start_system ops script ranks size) doings
        → (p : ℕ) → TellsResults ((does_all (start_system ops script ranks size) doings).world.each p).node ((does_all (start_system ops script ranks size) doings).ranks p) }
    ensures posts { (ops : List Operation) (script : Script) (ranks size : ℕ) (doings : List Doing) → MayDoAll ranks (start_system ops script ranks size) doings
        → (p : ℕ) → ((does_all (start_system ops script ranks size) doings).world.each p).made ≡ ((does_all (start_system ops script ranks size) doings).ranks p).made }
    ensures carries_out { (ops : List Operation) (script : Script) (ranks size : ℕ) (doings : List Doing) → MayDoAll ranks (start_system ops script ranks size) doings
        → (p : ℕ) → CarriesOut ops (world_tells (does_all (start_system ops script ranks size) doings).world p) (bound_at_start ranks) (statements_of script p) ((does_all (start_system ops script ranks size) doings).ranks p) }
    ensures relays { (ops : List Operation) (script : Script) (ranks size : ℕ) (doings : List Doing) → MayDoAll ranks (start_system ops script ranks size) doings
        → (p : ℕ) → ranks ≤ p → ((does_all (start_system ops script ranks size) doings).world.each p).made ≡ [] }
    ensures sound { (ops : List Operation) (script : Script) (ranks size : ℕ) (doings : List Doing) → MayDoAll ranks (start_system ops script ranks size) doings
        → Sound (does_all (start_system ops script ranks size) doings).world }
    ensures happenings { (ops : List Operation) (script : Script) (ranks size : ℕ) (doings : List Doing) → MayDoAll ranks (start_system ops script ranks size) doings
        → IsOfHappenings ops ranks size (does_all (start_system ops script ranks size) doings).world }
{}

/// Where nobody can hear anything new or move, the evaluation has ended: whatever was sent, lost, repeated, dropped or freed before.
///
/// A system is at rest where each rank's board tells all that each rank's board does, and each rank waits: whatever it is told of what is at hand
/// at its node, it has no move. Nothing is asked of relays, nor of frames under way. Then the ranks' lines are all lines of the evaluation (`rest`), and a
/// rank that has something left has it in every run of the script, with however many relays (`always`).
///
/// From wherever a run has come to, it gets there. In a full round each rank hears all that each rank's board told when the round began, and goes on
/// until it waits; whatever else happens in it, and in which order, is free. Behind more full rounds than moves may be left the evaluation has ended
/// (`rounds`); at the start twice as many moves are left as there are statements. A full round can always be made (`round`), so some further doings
/// lead to the end of the evaluation (`end`): nothing that a network loses, and nothing that processes drop, keeps a run from it for good. Nothing says that a
/// schedule with losses makes full rounds.
pub fn who_rests_has_ended()
    ensures rest { (ops : List Operation) (script : Script) (ranks size : ℕ) (doings : List Doing) → length script ≤ ranks → MayDoAll ranks (start_system ops script ranks size) doings
        → IsAtRest ranks (does_all (start_system ops script ranks size) doings) → IsEvaluation ops script ranks (does_all (start_system ops script ranks size) doings).ranks }
    ensures always { (ops : List Operation) (script : Script) (ranks size : ℕ) (doings : List Doing) → length script ≤ ranks → MayDoAll ranks (start_system ops script ranks size) doings
        → IsAtRest ranks (does_all (start_system ops script ranks size) doings) → (others : ℕ) (other : List Doing) → MayDoAll ranks (start_system ops script ranks others) other
        → (p : ℕ) → ((does_all (start_system ops script ranks others) other).ranks p).todo ≡ [] → ((does_all (start_system ops script ranks size) doings).ranks p).todo ≡ [] }
    ensures rounds { (ops : List Operation) (script : Script) (ranks size : ℕ) (doings : List Doing) (rounds : List (List Doing)) → length script ≤ ranks → MayDoAll ranks (start_system ops script ranks size) doings
        → AreFullRounds ranks (does_all (start_system ops script ranks size) doings) rounds → left ranks (does_all (start_system ops script ranks size) doings).ranks < length rounds
        → IsEvaluation ops script ranks (after_rounds (does_all (start_system ops script ranks size) doings) rounds).ranks }
    ensures round { (ops : List Operation) (script : Script) (ranks size : ℕ) (doings : List Doing) → MayDoAll ranks (start_system ops script ranks size) doings
        → (round : List Doing) × IsFullRound ranks (does_all (start_system ops script ranks size) doings) round }
    ensures end { (ops : List Operation) (script : Script) (ranks size : ℕ) (doings : List Doing) → length script ≤ ranks → MayDoAll ranks (start_system ops script ranks size) doings
        → (more : List Doing) × (MayDoAll ranks (does_all (start_system ops script ranks size) doings) more × IsEvaluation ops script ranks (does_all (does_all (start_system ops script ranks size) doings) more).ranks) }
{}
