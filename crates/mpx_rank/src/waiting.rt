//! Waits for open requests.
ghost use Rattle.std.specs.Prelude.{◌≡◌, ◌++◌, ℕ, IfOk, IsTrue, List, OnOk, true, false};
ghost use Rattle.std.specs.Option.{option_copied, option_map};
ghost use Rattle.mpx_meaning.specs.Standing.{closed, closed_all};
ghost use Rattle.mpx_rank.specs.Moves.{are_done, is_done, request_line, wait_lines};
ghost use Rattle.mpx_rank.specs.Waits.{WasNotDone};
ghost use Rattle.mpx_rank.specs.Shown.{requests_of};

use crate::carrier::{Carrier, Heard};
use join_core::OutOfMemory;
use mpx_group::Proc;
use mpx_meaning::Line;
use mpx_num::{Listing, Ops};
use mpx_statement::Word;
use std::alloc::Global;
use std::collections::BTreeMap;

/// Whether the calls of all of these requests are done. One that isn't open is.
pub(crate) fn are_done<C: Carrier>(
    alloc: Global,
    carrier: &mut C,
    me: Proc,
    requests: &BTreeMap<Word, C::Call>,
    words: &[Word],
    ops: &Ops,
) -> Result<bool, OutOfMemory>
    ensures hears { OnOk result ((C.terms (⟦<Ops as Listing>⟧.operations ops.now)).hears carrier.old carrier.new) }
    ensures done { IfOk result (λ all. IsTrue all → are_done ((C.terms (⟦<Ops as Listing>⟧.operations ops.now)).tells carrier.new me) (requests_of C.place requests.now) words.now ≡ true) }
    ensures not_done { IfOk result (λ all. all ≡ false → WasNotDone (C.terms (⟦<Ops as Listing>⟧.operations ops.now)) me (requests_of C.place requests.now) words.now carrier.old carrier.new) }
{
    let mut all = true;
    for word in words {
        let done = is_done(alloc, carrier, me, requests.get(word), ops)?;
        all &= done;
    }
    Ok(all)
}

// Whether the call of a request is done, if it is open.
fn is_done<C: Carrier>(
    alloc: Global,
    carrier: &mut C,
    me: Proc,
    request: Option<&C::Call>,
    ops: &Ops,
) -> Result<bool, OutOfMemory>
    ensures hears { OnOk result ((C.terms (⟦<Ops as Listing>⟧.operations ops.now)).hears carrier.old carrier.new) }
    ensures done { IfOk result (λ done. done ≡ is_done ((C.terms (⟦<Ops as Listing>⟧.operations ops.now)).tells carrier.new me) (option_map C.place (option_copied request.entry))) }
{
    match request {
        None => Ok(true),
        Some(call) => carrier.is_told(alloc, me, call, ops),
    }
}

/// Tells the outcomes of the calls of these requests, and closes them.
pub(crate) fn close_all<C: Carrier>(
    alloc: Global,
    carrier: &mut C,
    me: Proc,
    requests: &mut BTreeMap<Word, C::Call>,
    lines: &mut Vec<Line>,
    words: &[Word],
    ops: &Ops,
) -> Result<(), OutOfMemory>
    requires { are_done ((C.terms (⟦<Ops as Listing>⟧.operations ops.now)).tells carrier.old me) (requests_of C.place requests.old) words.now ≡ true }
    ensures hears { OnOk result ((C.terms (⟦<Ops as Listing>⟧.operations ops.now)).hears carrier.old carrier.new) }
    ensures lines { OnOk result (lines.new.items ≡ lines.old.items ++ wait_lines ((C.terms (⟦<Ops as Listing>⟧.operations ops.now)).tells carrier.old me) (requests_of C.place requests.old) words.now) }
    ensures requests { OnOk result ((word : List ℕ) → requests_of C.place requests.new word ≡ closed_all words.now (requests_of C.place requests.old) word) }
{
    for word in words {
        let line = close(alloc, carrier, me, requests, word, ops)?;
        lines.push(line)?;
    }
    Ok(())
}

// Closes a request whose call is done, and tells its outcome, or that it was not open.
fn close<C: Carrier>(
    alloc: Global,
    carrier: &mut C,
    me: Proc,
    requests: &mut BTreeMap<Word, C::Call>,
    word: &Word,
    ops: &Ops,
) -> Result<Line, OutOfMemory>
    requires { is_done ((C.terms (⟦<Ops as Listing>⟧.operations ops.now)).tells carrier.old me) (requests_of C.place requests.old word.now) ≡ true }
    ensures hears { OnOk result ((C.terms (⟦<Ops as Listing>⟧.operations ops.now)).hears carrier.old carrier.new) }
    ensures line { IfOk result (λ line. line ≡ request_line ((C.terms (⟦<Ops as Listing>⟧.operations ops.now)).tells carrier.old me) (requests_of C.place requests.old word.now)) }
    ensures requests { OnOk result ((other : List ℕ) → requests_of C.place requests.new other ≡ closed word.now (requests_of C.place requests.old) other) }
{
    let Some(call) = requests.remove(word) else {
        return Ok(Line::Idle);
    };
    match carrier.hear(alloc, me, call, ops)? {
        Heard::NotYet(_) => unreachable!(),
        Heard::Told { line, .. } => Ok(line),
    }
}
