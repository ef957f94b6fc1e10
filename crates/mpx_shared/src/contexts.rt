//! The contexts below the world on which a port has posted.
ghost use Rattle.std.specs.Prelude.{◌≡◌, ◌<◌, ℕ, true, IfOk, IfSome, IfNone, slice_get, vec_capacity, vec_len};
ghost use Rattle.mpx_board.specs.Looks.{look};
ghost use Rattle.mpx_shared.specs.LawfulPorts.{IsListedContext, living, with_context};

use join_core::{Exact, OutOfMemory};
use mpx_board::Board;
use mpx_name::Name;
use std::alloc::Global;

// The name of a context that isn't listed yet, and room for it in the list, which stays as it is: so a post that follows leaves
// nothing to do that could fail.
pub(crate) fn new_context(
    contexts: &mut Vec<Name>,
    alloc: Global,
    name: &Name,
) -> Result<Option<Name>, OutOfMemory>
    ensures kept { contexts.new.items ≡ contexts.old.items }
    ensures new { IfOk result (λ new. IfSome new (λ context. context ≡ name.now)) }
    ensures room { IfOk result (λ new. IfSome new (λ context. vec_len contexts.new < vec_capacity contexts.new)) }
    ensures listed { IfOk result (λ new. IfNone new (IsListedContext name.now contexts.old.items)) }
{
    if name.depth() == 0 || is_among(contexts.as_slice(), name) {
        return Ok(None);
    }
    contexts.reserve(1)?;
    Ok(Some(name.copy(alloc)?))
}

// Adds the name to the list, where there is one.
pub(crate) fn add_context(contexts: &mut Vec<Name>, context: Option<Name>)
    requires room { IfSome context (λ name. vec_len contexts.old < vec_capacity contexts.old) }
    ensures { contexts.new.items ≡ with_context contexts.old.items context }
{
    if let Some(name) = context {
        contexts.push_reserved(name);
    }
}

// Takes the contexts out of the list that are dead on the board.
pub(crate) fn leave_dead(contexts: &mut Vec<Name>, board: &Board)
    ensures { contexts.new.items ≡ living (look board.now) contexts.old.items }
{
    contexts.retain(|name| !board.is_dead(name));
}

fn is_among(contexts: &[Name], name: &Name) -> bool
    ensures { result ≡ true → (i : ℕ) × (slice_get contexts.now i ≡ Some name.now) }
{
    for context in contexts {
        if context.same(name) {
            return true;
        }
    }
    false
}
