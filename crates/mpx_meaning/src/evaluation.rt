//! The laws of the evaluation of a script: it is there, it is one, and whatever moves reach begins it.
ghost use Rattle.std.specs.Prelude.{◌≡◌, ◌≤◌, ℕ, List, [], length};
ghost use Rattle.mpx_num.specs.declared.own.Operation.{Operation};
ghost use Rattle.mpx_meaning.specs.Evaluation.{Script, State, IsReached, IsEvaluation, IsPrefixOf};

/// Every script has an evaluation.
pub fn every_script_has_an_evaluation()
    ensures { (ops : List Operation) (script : Script) (ranks : ℕ) → length script ≤ ranks → (end : State) × IsEvaluation ops script ranks end }
{}

/// It has one alone: every list of moves that no move extends ends in the same state.
pub fn evaluations_are_one()
    ensures { (ops : List Operation) (script : Script) (ranks : ℕ) (a b : State) → IsEvaluation ops script ranks a → IsEvaluation ops script ranks b → a ≡ b }
{}

/// After any list of moves a rank's lines and posts are the first of those that it has in the evaluation,
/// and a rank that has nothing left to do has all of them.
pub fn whatever_is_reached_is_a_beginning()
    ensures lines { (ops : List Operation) (script : Script) (ranks : ℕ) (end s : State) → IsEvaluation ops script ranks end → IsReached ops script ranks s → (p : ℕ) → IsPrefixOf (s p).lines (end p).lines }
    ensures posts { (ops : List Operation) (script : Script) (ranks : ℕ) (end s : State) → IsEvaluation ops script ranks end → IsReached ops script ranks s → (p : ℕ) → IsPrefixOf (s p).made (end p).made }
    ensures whole { (ops : List Operation) (script : Script) (ranks : ℕ) (end s : State) → IsEvaluation ops script ranks end → IsReached ops script ranks s → (p : ℕ) → (s p).todo ≡ [] → s p ≡ end p }
{}
