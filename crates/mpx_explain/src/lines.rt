//! The refused lines of a script.
ghost use Rattle.std.specs.Prelude.{◌≡◌, ◌<◌, ◌++◌, [], cond, nat_lt, false, true, IfErr, IfNone, IfOk, IfSome, OnErr, OnOk, string_bytes};
ghost use Rattle.std.specs.Option.{option_map};
ghost use Rattle.mpx_script.specs.Reading.{reading};
ghost use Rattle.mpx_script.specs.declared.faults.ScriptFault.TheVariants.{NameUnknown};
ghost use Rattle.mpx_explain.specs.RefusedLines.{AreRefusalsTold, IsLastTold, IsLineTold, IsMoreTold, IsRefusalTold, IsToldOrPassed, Keeps, beside_text, ends_all, feed_before, refusal_in, refusal_text, with_line, with_line_told, without_refused};

use crate::detail::detail_of;
use crate::left_out::{Unbound, is_bound_with, push_unbound};
use join_core::OutOfMemory;
use mpx_num::{Listing, Ops};
use mpx_script::{ReadScriptError, ScriptError, ScriptFault, read_script};
use std::alloc::Global;

// More refused lines than these are not told.
const MOST_LINES: usize = 10;

// More refused lines than these are not left out: each takes some readings of the text.
const MOST_LEFT_OUT: usize = 100;

// What is left of a text without its refused line, and whether that line is passed over.
#[derive(Drop)]
pub(crate) struct LeftText {
    pub(crate) text: Vec<u8>,
    pub(crate) is_passed: bool,
}

/// Tells each refused line of a script, at most ten: a line with its refusal, and one behind it, two blanks to the right, with the word
/// that is missing, one too many or wrong, and what was meant, where these can be told. The first refusal, which the program tells anyway,
/// isn't told again. Each but the first is found by leaving out those before it, at most a hundred, and is passed over where these would bind its
/// name for all its ranks.
pub fn explain_refusals(
    alloc: Global,
    text: &[u8],
    ops: &Ops,
    told: &mut Vec<u8>,
) -> Result<(), OutOfMemory>
    ensures keeps { Keeps told.old.items told.new.items }
    ensures told { OnOk result (AreRefusalsTold (⟦<Ops as Listing>⟧.operations ops.now) text.now told.old.items told.new.items) }
{
    let mut unbound = Vec::new(alloc);
    let pushed = push_refusals(alloc, text, &mut unbound, ops, told);
    drop(unbound);
    pushed
}

// The same, behind lines that were left out.
fn push_refusals(
    alloc: Global,
    text: &[u8],
    unbound: &mut Vec<Unbound>,
    ops: &Ops,
    told: &mut Vec<u8>,
) -> Result<(), OutOfMemory>
    ensures keeps { Keeps told.old.items told.new.items }
    ensures told { OnOk result (AreRefusalsTold (⟦<Ops as Listing>⟧.operations ops.now) text.now told.old.items told.new.items) }
{
    let mut rest = copied(alloc, text)?;
    let mut many = 0usize;
    for nth in 0..MOST_LEFT_OUT {
        if many == MOST_LINES {
            return push_whether_more(alloc, &rest, ops, told);
        }
        match explain_refusal(alloc, &rest, nth, unbound, ops, told)? {
            Some(left) => {
                many = with_one(many, left.is_passed);
                rest = left.text;
            }
            None => return Ok(()),
        }
    }
    push_whether_more(alloc, &rest, ops, told)
}

// With one told line more, unless it is passed over.
fn with_one(many: usize, is_passed: bool) -> usize
    requires { many < 10 }
    ensures { result ≡ with_line_told is_passed many }
{
    if is_passed { many } else { many + 1 }
}

// Tells a script's refusal, of which so many were left out before. It gives what is left without that line; none where nothing more is to be
// said.
fn explain_refusal(
    alloc: Global,
    text: &[u8],
    nth: usize,
    unbound: &mut Vec<Unbound>,
    ops: &Ops,
    told: &mut Vec<u8>,
) -> Result<Option<LeftText>, OutOfMemory>
    ensures told { IfOk result (λ left. IfSome left (λ it. IsLineTold it.is_passed (nat_lt 0 nth) (reading (⟦<Ops as Listing>⟧.operations ops.now) text.now) told.old.items told.new.items)) }
    ensures left { IfOk result (λ left. IfSome left (λ it. it.text.items ≡ without_refused (reading (⟦<Ops as Listing>⟧.operations ops.now) text.now) text.now)) }
    ensures end { IfOk result (λ left. IfNone left (IsLastTold (reading (⟦<Ops as Listing>⟧.operations ops.now) text.now) told.old.items told.new.items)) }
    ensures err { IfErr result (λ _. told.new.items ≡ told.old.items) }
{
    let Some(refusal) = refusal_of(alloc, text, ops)? else {
        return Ok(None);
    };
    if ends_all(refusal.what) {
        push_last(alloc, text, refusal, nth, ops, told)?;
        return Ok(None);
    }
    let is_passed = follows(alloc, text, refusal, unbound.as_slice(), ops)?;
    push_unbound(alloc, text, refusal.line, unbound, ops)?;
    let left = with_line(alloc, text, refusal.line, b"")?;
    let manner = Manner {
        with_refusal: nth > 0,
        is_passed,
    };
    push_line(alloc, text, refusal, manner, ops, told)?;
    Ok(Some(LeftText {
        text: left,
        is_passed,
    }))
}

// Tells what is beside a refusal behind which nothing can be said, where it is the first.
fn push_last(
    alloc: Global,
    text: &[u8],
    refusal: ScriptError,
    nth: usize,
    ops: &Ops,
    told: &mut Vec<u8>,
) -> Result<(), OutOfMemory>
    ensures told { OnOk result (IsRefusalTold false refusal told.old.items told.new.items) }
    ensures err { OnErr result (told.new.items ≡ told.old.items) }
{
    if nth > 0 {
        return Ok(());
    }
    push_refused(alloc, text, refusal, false, ops, told)
}

/// How a refusal is told: whether it stands itself before what is beside it, and whether it is passed over.
#[derive(Clone, Copy)]
pub(crate) struct Manner {
    with_refusal: bool,
    is_passed: bool,
}

// Tells the line of a refusal, unless it is passed over.
fn push_line(
    alloc: Global,
    text: &[u8],
    refusal: ScriptError,
    manner: Manner,
    ops: &Ops,
    told: &mut Vec<u8>,
) -> Result<(), OutOfMemory>
    requires { manner.is_passed ≡ true → refusal.what ≡ NameUnknown }
    ensures told { OnOk result (IsToldOrPassed manner.is_passed manner.with_refusal refusal told.old.items told.new.items) }
    ensures err { OnErr result (told.new.items ≡ told.old.items) }
{
    let is_passed = manner.is_passed;
    if is_passed {
        return Ok(());
    }
    push_refused(alloc, text, refusal, manner.with_refusal, ops, told)
}

// Adds that there is more, where the text is refused once more.
fn push_whether_more(
    alloc: Global,
    text: &[u8],
    ops: &Ops,
    told: &mut Vec<u8>,
) -> Result<(), OutOfMemory>
    ensures told { OnOk result (IsMoreTold (reading (⟦<Ops as Listing>⟧.operations ops.now) text.now) told.old.items told.new.items) }
    ensures err { OnErr result (told.new.items ≡ told.old.items) }
{
    match refusal_of(alloc, text, ops)? {
        Some(_) => Ok(told.extend_from_slice(b"further lines aren't looked at\n")?),
        None => Ok(()),
    }
}

/// The refusal of a script, where it is refused.
pub(crate) fn refusal_of(
    alloc: Global,
    text: &[u8],
    ops: &Ops,
) -> Result<Option<ScriptError>, OutOfMemory>
    ensures { IfOk result (λ found. found ≡ refusal_in (reading (⟦<Ops as Listing>⟧.operations ops.now) text.now)) }
{
    match read_script(alloc, text, ops) {
        Ok(script) => {
            drop(script);
            Ok(None)
        }
        Err(ReadScriptError::Refused(refusal)) => Ok(Some(refusal)),
        Err(ReadScriptError::OutOfMemory) => Err(OutOfMemory),
    }
}

// Whether nothing can be said of the lines behind.
fn ends_all(what: ScriptFault) -> bool
    ensures { result ≡ ends_all what }
{
    matches!(
        what,
        ScriptFault::TooLarge | ScriptFault::NoRanksLine | ScriptFault::RanksOutOfRange
    )
}

// Whether a line is refused only because lines that were left out would bind its name.
fn follows(
    alloc: Global,
    text: &[u8],
    refusal: ScriptError,
    unbound: &[Unbound],
    ops: &Ops,
) -> Result<bool, OutOfMemory>
    ensures { IfOk result (λ follows. follows ≡ true → refusal.what ≡ NameUnknown) }
{
    match refusal.what {
        ScriptFault::NameUnknown if !unbound.is_empty() => {
            is_bound_with(alloc, text, refusal, unbound, ops)
        }
        _ => Ok(false),
    }
}

// Adds the line of a refused line, where it isn't told already, and what is told of it beside.
fn push_refused(
    alloc: Global,
    text: &[u8],
    refusal: ScriptError,
    with_refusal: bool,
    ops: &Ops,
    told: &mut Vec<u8>,
) -> Result<(), OutOfMemory>
    ensures told { OnOk result (IsRefusalTold with_refusal refusal told.old.items told.new.items) }
    ensures err { OnErr result (told.new.items ≡ told.old.items) }
{
    let detail = detail_of(alloc, text, refusal, ops)?;
    let line = refused_line(alloc, refusal, with_refusal, &detail)?;
    told.extend_from_slice(line.as_bytes())?;
    Ok(())
}

fn refused_line(
    alloc: Global,
    refusal: ScriptError,
    with_refusal: bool,
    detail: &Option<String>,
) -> Result<String, OutOfMemory>
    ensures { IfOk result (λ line. string_bytes line ≡ refusal_text with_refusal refusal ++ beside_text (option_map (λ told. string_bytes told) detail.now)) }
{
    match (with_refusal, detail) {
        (true, Some(detail)) => Ok(format!(in alloc; "{refusal}\n  {detail}\n")?),
        (true, None) => Ok(format!(in alloc; "{refusal}\n")?),
        (false, Some(detail)) => Ok(format!(in alloc; "  {detail}\n")?),
        (false, None) => Ok(String::new(alloc)),
    }
}

/// The text once more.
pub(crate) fn copied(alloc: Global, text: &[u8]) -> Result<Vec<u8>, OutOfMemory>
    ensures { IfOk result (λ copy. copy.items ≡ text.now) }
{
    let mut copy = Vec::new(alloc);
    copy.extend_from_slice(text)?;
    Ok(copy)
}

/// The text in which the line with this number, from 1 on, is this one.
pub(crate) fn with_line(
    alloc: Global,
    text: &[u8],
    number: u32,
    other: &[u8],
) -> Result<Vec<u8>, OutOfMemory>
    ensures { IfOk result (λ changed. changed.items ≡ with_line text.now number other.now) }
{
    let mut changed = Vec::new(alloc);
    let changes = number.saturating_sub(1) as usize;
    for (place, line) in text.split(|byte| *byte == b'\n').enumerate() {
        push_feed(place, &mut changed)?;
        changed.extend_from_slice(chosen(place == changes, other, line))?;
    }
    Ok(changed)
}

// Adds what stands before the line with this place, from 0 on.
fn push_feed(place: usize, changed: &mut Vec<u8>) -> Result<(), OutOfMemory>
    ensures { OnOk result (changed.new.items ≡ changed.old.items ++ feed_before place) }
{
    if place > 0 {
        changed.push(b'\n')?;
    }
    Ok(())
}

fn chosen<'t>(is_other: bool, other: &'t [u8], line: &'t [u8]) -> &'t [u8]
    ensures { result.now ≡ cond is_other other.now line.now }
{
    if is_other { other } else { line }
}
