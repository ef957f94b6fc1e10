//! The law of one rank that goes its own way.
ghost use Rattle.std.specs.Prelude.{◌≡◌, ℕ, List, [], Some};
ghost use Rattle.mpx_name.specs.Name.{Name};
ghost use Rattle.mpx_num.specs.declared.own.Operation.{Operation};
ghost use Rattle.mpx_birth.specs.Births.{BirthView};
ghost use Rattle.mpx_value.specs.Histories.{birth_of};
ghost use Rattle.mpx_statement.specs.Lookups.{named};
ghost use Rattle.mpx_meaning.specs.Ranks.{Communicator, Local};
ghost use Rattle.mpx_meaning.specs.Evaluation.{Script, State, IsEvaluation, IsPrefixOf, bound_at_start, history, known, statements_of};
ghost use Rattle.mpx_meaning.specs.Going.{GoesTo};
ghost use Rattle.mpx_meaning.specs.Told.{CarriesOut};

/// A rank that goes on alone, by answers that the evaluation gives at its end, goes the way that it has in the evaluation. Its
/// lines and posts are the first of those that it has there. Once it has nothing left to do it stands where it ends there. As
/// far as it has come it has carried out its statements, each once and in their order, and the outcomes that it was given are
/// those of the evaluation. Each communicator that a word of its is bound to came to be as the posts of the evaluation say.
pub fn a_rank_goes_its_own_way()
    ensures lines { (ops : List Operation) (script : Script) (ranks : ℕ) (end : State) → IsEvaluation ops script ranks end → (p : ℕ) (s : Local) → GoesTo ops script ranks end p s → IsPrefixOf s.lines (end p).lines }
    ensures posts { (ops : List Operation) (script : Script) (ranks : ℕ) (end : State) → IsEvaluation ops script ranks end → (p : ℕ) (s : Local) → GoesTo ops script ranks end p s → IsPrefixOf s.made (end p).made }
    ensures whole { (ops : List Operation) (script : Script) (ranks : ℕ) (end : State) → IsEvaluation ops script ranks end → (p : ℕ) (s : Local) → GoesTo ops script ranks end p s → s.todo ≡ [] → s ≡ end p }
    ensures carries_out { (ops : List Operation) (script : Script) (ranks : ℕ) (end : State) → IsEvaluation ops script ranks end → (p : ℕ) (s : Local) → GoesTo ops script ranks end p s
        → CarriesOut ops (known ops ranks end p) (bound_at_start ranks) (statements_of script p) s }
    ensures bound { (ops : List Operation) (script : Script) (ranks : ℕ) (end : State) → IsEvaluation ops script ranks end → (p : ℕ) (s : Local) → GoesTo ops script ranks end p s
        → (word : List ℕ) (name : Name) (birth : BirthView) → named s.bound word ≡ Some (Communicator name birth) → birth_of (history ops end) ranks name ≡ Some birth }
{}
