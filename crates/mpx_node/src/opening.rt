//! What a harvest and the opening of a gathering do to the contexts that are opened.
ghost use Rattle.std.specs.Prelude.{◌≡◌, cond, not, is_some, IfOk, OnOk, OnErr, Some};
ghost use Rattle.mpx_name.specs.Name.{Name as NameView, same_name};
ghost use Rattle.mpx_node.specs.Nodes.{is_new_to, or_new};
ghost use Rattle.mpx_node.specs.Opened.{HasUnfinished, opened_by, stored_by};

use crate::finished::Finished;
use crate::opened::Opened;
use join_core::{Exact, OutOfMemory};
use mpx_birth::Birth;
use mpx_group::Proc;
use mpx_name::Name;
use std::alloc::Global;
use std::collections::BTreeMap;

// Opens a context and says whether it wasn't open; an open one stays as it is. An `Err` changes nothing.
pub fn open(
    opened: &mut BTreeMap<Name, Opened>,
    alloc: Global,
    name: &Name,
) -> Result<bool, OutOfMemory>
    ensures new { IfOk result (λ new. new ≡ not (is_some (opened_by opened.old name.now))) }
    ensures ok { OnOk result ((q : NameView) → opened_by opened.new q
        ≡ cond (same_name q name.now) (Some (or_new (opened_by opened.old q))) (opened_by opened.old q)) }
    ensures err { OnErr result ((q : NameView) → opened_by opened.new q ≡ opened_by opened.old q) }
{
    if opened.contains_key(name) {
        return Ok(false);
    }
    opened.insert(name.copy(alloc)?, Opened::new(alloc))?;
    Ok(true)
}

// Stores a result on a context where one is missing. An `Err` changes nothing.
fn store(
    opened: &mut BTreeMap<Name, Opened>,
    name: &Name,
    finished: Finished,
) -> Result<(), OutOfMemory>
    requires { HasUnfinished (opened_by opened.old) name.now }
    ensures ok { OnOk result ((q : NameView) → opened_by opened.new q ≡ stored_by name.now finished (opened_by opened.old) q) }
    ensures err { OnErr result ((q : NameView) → opened_by opened.new q ≡ opened_by opened.old q) }
{
    let Some(opened) = opened.get_mut(name) else {
        unreachable!();
    };
    if opened.results.reserve(1).is_err() {
        drop(finished);
        return Err(OutOfMemory);
    }
    opened.results.push_back_reserved(finished);
    Ok(())
}

// Stores a result on a context where one is missing, and opens those of these contexts that have the process. An `Err`
// changes nothing.
pub fn store_and_open(
    opened: &mut BTreeMap<Name, Opened>,
    alloc: Global,
    me: Proc,
    name: &Name,
    finished: Finished,
    made: &[(Name, Birth)],
) -> Result<(), OutOfMemory>
    requires { HasUnfinished (opened_by opened.old) name.now }
    ensures ok { OnOk result ((q : NameView) → opened_by opened.new q
        ≡ cond (is_new_to me made.now q) (Some (or_new (stored_by name.now finished (opened_by opened.old) q))) (stored_by name.now finished (opened_by opened.old) q)) }
    ensures err { OnErr result ((q : NameView) → opened_by opened.new q ≡ opened_by opened.old q) }
{
    let Some(((child, birth), rest)) = made.split_first() else {
        return store(opened, name, finished);
    };
    if !birth.members().contains(&me) {
        return store_and_open(opened, alloc, me, name, finished, rest);
    }
    let new = open(opened, alloc, child)?;
    match store_and_open(opened, alloc, me, name, finished, rest) {
        Ok(()) => Ok(()),
        Err(e) => {
            if new {
                opened.remove(child);
            }
            Err(e)
        }
    }
}
