//! Calls whose answers are missing, and the members of their contexts that have not posted to them.
ghost use Rattle.std.specs.Prelude.{◌≡◌, ◌++◌, ◌∷◌, [], IfOk, List, None, Option, Some, ℕ, OnOk, cond, is_some, map, true};
ghost use Rattle.std.specs.Cmp.Lexicographic.{slice_cmp};
ghost use Rattle.std.specs.Ordering.{is_eq, nat_cmp};
ghost use Rattle.std.specs.Option.{option_copied};
ghost use Rattle.mpx_name.specs.Name.{Name as NameView};
ghost use Rattle.mpx_meaning.specs.Ranks.{doing};
ghost use Rattle.mpx_meaning.specs.Standing.{looked_up};
ghost use Rattle.mpx_eval.specs.Carrying.{shown};
ghost use Rattle.mpx_eval.specs.Tables.{table_of};
ghost use Rattle.mpx_eval.specs.Waiting.{asked_by, asked_of, asked_then};
ghost use Rattle.mpx_eval.specs.Found.{calls_found, found_call, found_calls, missing_view};

use crate::table::Table;
use join_core::{Exact, OutOfMemory};
use mpx_group::Proc;
use mpx_name::Name;
use mpx_rank::Interpreter;
use mpx_statement::{Statement, Word};
use std::alloc::Global;
use std::collections::BTreeMap;

/// A member of a context that has not posted to a call.
#[derive(Clone, Copy, Debug, PartialEq, Eq)]
pub struct MissingMember {
    /// Its rank in the script.
    pub rank: u8,
    /// Whether it has posted a free there, behind which it posts no more.
    pub closed: bool,
}

/// A call whose outcome a rank waits for.
#[derive(Debug, Drop)]
pub struct MissingCall {
    /// The word of its request, where the rank waits for one.
    pub request: Option<Word>,
    /// The context.
    pub name: Name,
    /// The number of the call in its context, from 0 on.
    pub call: u32,
    /// The members of the context that have not posted to it.
    pub missing: Vec<MissingMember>,
}

/// The calls that the next move of a rank asks for, and whose answers are missing.
pub(crate) fn missing_calls(
    alloc: Global,
    table: &Table,
    place: &Interpreter<'_, Table>,
) -> Result<Vec<MissingCall>, OutOfMemory>
    ensures { IfOk result (λ calls. map missing_view calls.items ≡ calls_found (table_of table.now) (shown place.now)) }
{
    let mut calls = Vec::new(alloc);
    match place.awaited() {
        Some(awaited) => {
            push_missing(
                alloc,
                &mut calls,
                table,
                place.me(),
                None,
                &awaited.0,
                awaited.1,
            )?;
        }
        None => {
            let words = words_next(place.todo());
            push_requested(
                alloc,
                &mut calls,
                table,
                place.me(),
                place.requests(),
                words,
            )?;
        }
    }
    Ok(calls)
}

// The words of the wait that is next, where one is.
fn words_next(todo: &[Statement]) -> &[Word]
    ensures { (requests : List ℕ → Option (NameView × ℕ)) → asked_by requests result.now ≡ asked_of requests (doing todo.now) }
{
    match todo.first() {
        Some(Statement::Wait(words)) => words.as_slice(),
        Some(Statement::Post(_)) => &[],
        Some(Statement::Ask(_)) => &[],
        None => &[],
    }
}

// Adds the calls of these requests whose answers are missing, each once.
fn push_requested(
    alloc: Global,
    calls: &mut Vec<MissingCall>,
    table: &Table,
    me: Proc,
    requests: &BTreeMap<Word, (Name, u32)>,
    words: &[Word],
) -> Result<(), OutOfMemory>
    ensures { OnOk result (map missing_view calls.new.items ≡ map missing_view calls.old.items
        ++ found_calls (table_of table.now) me (asked_by (looked_up requests.now) words.now)) }
{
    let mut seen: BTreeMap<Word, bool> = BTreeMap::new(alloc);
    for i in 0..words.len() {
        let word = &words[i];
        let place = open_request(requests, &seen, word);
        push_request(alloc, calls, table, me, word, place)?;
        see(alloc, &mut seen, word)?;
    }
    Ok(())
}

// A word more is seen.
fn see(alloc: Global, seen: &mut BTreeMap<Word, bool>, word: &Word) -> Result<(), OutOfMemory>
    ensures { OnOk result ((other : List ℕ) → looked_up seen.new other ≡ cond (is_eq (slice_cmp nat_cmp word.now other)) (Some true) (looked_up seen.old other)) }
{
    seen.insert(word.copy(alloc)?, true)?;
    Ok(())
}

// Adds the call of a request that may be open, where its answer is missing.
fn push_request(
    alloc: Global,
    calls: &mut Vec<MissingCall>,
    table: &Table,
    me: Proc,
    word: &Word,
    place: Option<&(Name, u32)>,
) -> Result<(), OutOfMemory>
    ensures { OnOk result (map missing_view calls.new.items ≡ map missing_view calls.old.items
        ++ found_calls (table_of table.now) me (asked_then word.now (option_copied place.entry) [])) }
{
    match place {
        Some((name, call)) => push_missing(alloc, calls, table, me, Some(word), name, *call),
        None => Ok(()),
    }
}

// The call of a request, unless its word was seen before.
fn open_request<'m>(
    requests: &'m BTreeMap<Word, (Name, u32)>,
    seen: &BTreeMap<Word, bool>,
    word: &Word,
) -> Option<&'m (Name, u32)>
    ensures { option_copied result ≡ cond (is_some (looked_up seen.now word.now)) None (looked_up requests.now word.now) }
{
    if seen.contains_key(word) {
        return None;
    }
    requests.get(word)
}

// Adds a call, where its answer is missing.
fn push_missing(
    alloc: Global,
    calls: &mut Vec<MissingCall>,
    table: &Table,
    me: Proc,
    request: Option<&Word>,
    name: &Name,
    call: u32,
) -> Result<(), OutOfMemory>
    ensures { OnOk result (map missing_view calls.new.items ≡ map missing_view calls.old.items
        ++ found_calls (table_of table.now) me ((option_copied request.entry, (name.now, call)) ∷ [])) }
{
    if table.has_answer(me, name, call) {
        return Ok(());
    }
    calls.push(missing_call(alloc, table, request, name, call)?)?;
    Ok(())
}

// A call, and who has not posted to it.
fn missing_call(
    alloc: Global,
    table: &Table,
    request: Option<&Word>,
    name: &Name,
    call: u32,
) -> Result<MissingCall, OutOfMemory>
    ensures { IfOk result (λ missing. missing_view missing ≡ found_call (table_of table.now) (option_copied request.entry, (name.now, call))) }
{
    let missing = table.missing(alloc, name, call)?;
    let request = copied(alloc, request)?;
    let name = name.copy(alloc)?;
    Ok(MissingCall {
        request,
        name,
        call,
        missing,
    })
}

// The word once more, where there is one.
fn copied(alloc: Global, word: Option<&Word>) -> Result<Option<Word>, OutOfMemory>
    ensures { IfOk result (λ copied. copied ≡ option_copied word.entry) }
{
    match word {
        Some(word) => Ok(Some(word.copy(alloc)?)),
        None => Ok(None),
    }
}
