//! What the lines of a transcript tell, and what they have to do with the statements.
ghost use Rattle.std.specs.Prelude.{◌≡◌, ℕ, ◌<◌, List, [], Some, slice_get, codes};
ghost use Rattle.mpx_name.specs.Name.{Name};
ghost use Rattle.mpx_num.specs.declared.own.Operation.{Operation};
ghost use Rattle.mpx_value.specs.declared.outcomes.Outcome.{Outcome};
ghost use Rattle.mpx_birth.specs.Births.{BirthView};
ghost use Rattle.mpx_statement.specs.Lookups.{named};
ghost use Rattle.mpx_meaning.specs.Ranks.{Communicator, Told};
ghost use Rattle.mpx_meaning.specs.Evaluation.{Script, State, IsReached, bound_at_start, known, statements_of, world_of};
ghost use Rattle.mpx_meaning.specs.Told.{CarriesOut, IsMemberOf, IsToldOf, Passes};

/// After any list of moves each line that tells the outcome of a call of a context tells the value of that call: all
/// members of the context have posted to it, and the outcome is what their posts give this rank.
pub fn lines_tell_the_values_of_all_posts()
    ensures { (ops : List Operation) (script : Script) (ranks : ℕ) (s : State) → IsReached ops script ranks s →
        (p i : ℕ) (name : Name) (call : ℕ) (outcome : Outcome) → slice_get (s p).lines i ≡ Some (Told name call outcome) → IsToldOf ops ranks s p name call outcome }
{}

/// After any list of moves a rank has passed the first of its statements, in their order. Each one that posts was accepted,
/// and then its post is the next one that the rank made; or it was refused, and then its line says why, and there is no post.
/// The line of a blocking call tells the outcome of that very call. A nonblocking call has no line: its request is open from
/// then on. A wait has a line for each of its requests: the outcome of the very call that the open request stands for, or that
/// the request is idle; then none of them is open. A statement that asks a question has no post, and its line answers it by
/// the communicators that its words are bound to, of which the rank has freed some. The rank has made no other post, but for that of the blocking call whose
/// outcome it waits for, and has no other line. One that has nothing left to do has passed all of its statements.
///
/// `world` is bound to the communicator of all ranks. A word of a statement is bound to the communicator that its call gave,
/// and to the null communicator where it gave none or was refused. A rank is a member of each communicator that a word of
/// its is bound to.
pub fn ranks_carry_out_their_statements()
    ensures carries_out { (ops : List Operation) (script : Script) (ranks : ℕ) (s : State) → IsReached ops script ranks s →
        (p : ℕ) → CarriesOut ops (known ops ranks s p) (bound_at_start ranks) (statements_of script p) (s p) }
    ensures all { (ops : List Operation) (script : Script) (ranks : ℕ) (s : State) → IsReached ops script ranks s →
        (p : ℕ) → (s p).todo ≡ [] → Passes ops (known ops ranks s p) p (bound_at_start ranks) [] [] (statements_of script p) (s p).bound (s p).requests (s p).made (s p).lines }
    ensures me { (ops : List Operation) (script : Script) (ranks : ℕ) (s : State) → IsReached ops script ranks s → (p : ℕ) → (s p).me ≡ p }
    ensures world { (ops : List Operation) (script : Script) (ranks : ℕ) (s : State) → IsReached ops script ranks s → (p : ℕ) → named (s p).bound (codes "world") ≡ Some (Communicator [] (world_of ranks)) }
    ensures bound { (ops : List Operation) (script : Script) (ranks : ℕ) (s : State) → IsReached ops script ranks s → (p : ℕ) → p < ranks
        → (word : List ℕ) (name : Name) (birth : BirthView) → named (s p).bound word ≡ Some (Communicator name birth) → IsMemberOf ops ranks s p name birth }
{}
