//! Where a rank waits that goes no further.
ghost use Rattle.std.specs.Prelude.{◌≡◌, ◌++◌, ◌∷◌, [], IfOk, None, OnOk, Some, map};
ghost use Rattle.std.specs.Option.{option_map};
ghost use Rattle.mpx_meaning.specs.Ends.{asked_at, asked_by, asked_then, asked_view, waits_at_view, waits_with};
ghost use Rattle.mpx_meaning.specs.Standing.{todo_of};
ghost use Rattle.mpx_rank.specs.Shown.{requests_of, wait_of};

use crate::carrier::Carrier;
use crate::interpreter::Wait;
use join_core::OutOfMemory;
use mpx_meaning::{AskedCall, WaitsAt};
use mpx_statement::{Statement, Word};
use std::alloc::Global;
use std::collections::BTreeMap;

/// Where a rank waits with these open requests, these statements left and this call awaited; None where nothing is left.
pub(crate) fn waits_at<C: Carrier>(
    alloc: Global,
    requests: BTreeMap<Word, C::Call>,
    todo: &[Statement],
    awaited: Option<Wait<'_, C::Call>>,
) -> Result<Option<WaitsAt>, OutOfMemory>
    ensures { IfOk result (λ waits. option_map waits_at_view waits ≡ waits_with (requests_of C.place requests) (todo_of (option_map (wait_of C.place) awaited.entry) todo.now)) }
{
    if let Some(wait) = awaited {
        let left = 1 + todo.len();
        let calls = awaited_alone::<C>(alloc, wait.call)?;
        return Ok(Some(WaitsAt { left, calls }));
    }
    let Some(statement) = todo.first() else {
        return Ok(None);
    };
    let left = todo.len();
    let calls = asked_at::<C>(alloc, requests, statement)?;
    Ok(Some(WaitsAt { left, calls }))
}

// The call whose outcome a rank awaits.
fn awaited_alone<C: Carrier>(alloc: Global, call: C::Call) -> Result<Vec<AskedCall>, OutOfMemory>
    ensures { IfOk result (λ calls. map asked_view calls.items ≡ (None, C.place call) ∷ []) }
{
    let (name, call) = C::into_place(call);
    let mut calls = Vec::new(alloc);
    calls.push(AskedCall {
        request: None,
        name,
        call,
    })?;
    Ok(calls)
}

// The calls that a statement asks for that is next.
fn asked_at<C: Carrier>(
    alloc: Global,
    requests: BTreeMap<Word, C::Call>,
    statement: &Statement,
) -> Result<Vec<AskedCall>, OutOfMemory>
    ensures { IfOk result (λ calls. map asked_view calls.items ≡ asked_at (requests_of C.place requests) statement.now) }
{
    match statement {
        Statement::Wait(words) => requested::<C>(alloc, requests, words.as_slice()),
        Statement::Post(_) => Ok(Vec::new(alloc)),
        Statement::Ask(_) => Ok(Vec::new(alloc)),
    }
}

// The calls of these requests that are open, each once.
fn requested<C: Carrier>(
    alloc: Global,
    mut requests: BTreeMap<Word, C::Call>,
    words: &[Word],
) -> Result<Vec<AskedCall>, OutOfMemory>
    ensures { IfOk result (λ calls. map asked_view calls.items ≡ asked_by (requests_of C.place requests) words.now) }
{
    let mut calls = Vec::new(alloc);
    for word in words {
        let call = requests.remove(word);
        push_asked::<C>(alloc, word, call, &mut calls)?;
    }
    Ok(calls)
}

// Adds the call of a request, where it is open.
fn push_asked<C: Carrier>(
    alloc: Global,
    word: &Word,
    call: Option<C::Call>,
    calls: &mut Vec<AskedCall>,
) -> Result<(), OutOfMemory>
    ensures { OnOk result (map asked_view calls.new.items ≡ map asked_view calls.old.items ++ asked_then word.now (option_map C.place call) []) }
{
    match call {
        Some(call) => Ok(calls.push(asked_call::<C>(alloc, word, call)?)?),
        None => Ok(()),
    }
}

// The call of a request.
fn asked_call<C: Carrier>(
    alloc: Global,
    word: &Word,
    call: C::Call,
) -> Result<AskedCall, OutOfMemory>
    ensures { IfOk result (λ asked. asked_view asked ≡ (Some word.now, C.place call)) }
{
    let (name, call) = C::into_place(call);
    let request = Some(word.copy(alloc)?);
    Ok(AskedCall {
        request,
        name,
        call,
    })
}
