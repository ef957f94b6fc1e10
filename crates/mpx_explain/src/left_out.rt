//! Lines that were left out since they are refused, and whether others are refused only as they lack the names that these were to bind.

use crate::blame::word_to_blame;
use crate::detail::is_shown;
use crate::lines::{copied, refusal_of, with_line};
use join_core::OutOfMemory;
use mpx_num::Ops;
use mpx_script::{ScriptError, ScriptFault};
use std::alloc::Global;

/// What a line that was left out was to bind: its label, and the word behind its arrow.
#[derive(Drop)]
pub(crate) struct Unbound {
    line: u32,
    label: Vec<u8>,
    name: Vec<u8>,
}

/// Whether a line is refused only because lines that were left out would bind its name: with others that bind it for the same ranks, to a
/// communicator or to a request, it isn't.
pub(crate) fn is_bound_with(
    alloc: Global,
    text: &[u8],
    refusal: ScriptError,
    unbound: &[Unbound],
    ops: &Ops,
) -> Result<bool, OutOfMemory> {
    if !would_bind(alloc, text, refusal, unbound, ops)? {
        return Ok(false);
    }
    if is_known_with(alloc, text, refusal.line, unbound, TO_COMMUNICATORS, ops)? {
        return Ok(true);
    }
    is_known_with(alloc, text, refusal.line, unbound, TO_REQUESTS, ops)
}

// Whether one of these would bind the word that is to blame, which can be shown.
fn would_bind(
    alloc: Global,
    text: &[u8],
    refusal: ScriptError,
    unbound: &[Unbound],
    ops: &Ops,
) -> Result<bool, OutOfMemory> {
    match word_to_blame(alloc, text, refusal, ops)? {
        Some(blamed) => Ok(would_bind_to(unbound, blamed.word.as_bytes())),
        None => Ok(false),
    }
}

fn would_bind_to(unbound: &[Unbound], name: &[u8]) -> bool {
    is_shown(name) && unbound.iter().any(|one| one.name.as_slice() == name)
}

// Statements that bind a name.
const TO_COMMUNICATORS: &[u8] = b" dup world -> ";

const TO_REQUESTS: &[u8] = b" ibarrier world -> ";

// Whether a script isn't refused before this line, nor there for a name that is unknown, where lines with such a statement stand for those
// that were left out.
fn is_known_with(
    alloc: Global,
    text: &[u8],
    line: u32,
    unbound: &[Unbound],
    statement: &[u8],
    ops: &Ops,
) -> Result<bool, OutOfMemory> {
    let bound = with_bound(alloc, text, line, unbound, statement)?;
    is_known(alloc, &bound, line, ops)
}

// The text in which lines with such a statement stand for those that were left out and were to bind a word of this line.
fn with_bound(
    alloc: Global,
    text: &[u8],
    line: u32,
    unbound: &[Unbound],
    statement: &[u8],
) -> Result<Vec<u8>, OutOfMemory> {
    let line = line_with(text, line).unwrap_or(&[]);
    let mut bound = copied(alloc, text)?;
    for one in unbound {
        if has_word(line, &one.name) {
            bound = with_binding(alloc, &bound, one, statement)?;
        }
    }
    Ok(bound)
}

fn has_word(line: &[u8], name: &[u8]) -> bool {
    line.split(|byte| is_blank(*byte)).any(|word| word == name)
}

fn is_blank(byte: u8) -> bool {
    byte == b' ' || byte == b'\t' || byte == b'\r'
}

// The text in which a line with such a statement stands for one that was left out.
fn with_binding(
    alloc: Global,
    text: &[u8],
    one: &Unbound,
    statement: &[u8],
) -> Result<Vec<u8>, OutOfMemory> {
    let line = binding(alloc, one, statement)?;
    with_line(alloc, text, one.line, &line)
}

// The line with this statement that binds the name for the same ranks.
fn binding(alloc: Global, one: &Unbound, statement: &[u8]) -> Result<Vec<u8>, OutOfMemory> {
    let mut line = copied(alloc, &one.label)?;
    line.extend_from_slice(statement)?;
    line.extend_from_slice(&one.name)?;
    Ok(line)
}

// The same of this text.
fn is_known(alloc: Global, text: &[u8], line: u32, ops: &Ops) -> Result<bool, OutOfMemory> {
    match refusal_of(alloc, text, ops)? {
        Some(refusal) if refusal.line == line => Ok(refusal.what != ScriptFault::NameUnknown),
        Some(refusal) => Ok(refusal.line > line),
        None => Ok(true),
    }
}

/// Adds what the line with this number, from 1 on, was to bind, unless no line could bind that there.
pub(crate) fn push_unbound(
    alloc: Global,
    text: &[u8],
    number: u32,
    unbound: &mut Vec<Unbound>,
    ops: &Ops,
) -> Result<(), OutOfMemory> {
    let Some(line) = line_with(text, number) else {
        return Ok(());
    };
    match unbound_by(alloc, line, number)? {
        Some(one) => push_where_free(alloc, text, one, unbound, ops),
        None => Ok(()),
    }
}

// The line with this number, from 1 on.
fn line_with(text: &[u8], number: u32) -> Option<&[u8]> {
    let mut at: u32 = 0;
    for line in text.split(|byte| *byte == b'\n') {
        at = at.saturating_add(1);
        if at == number {
            return Some(line);
        }
    }
    None
}

fn push_where_free(
    alloc: Global,
    text: &[u8],
    one: Unbound,
    unbound: &mut Vec<Unbound>,
    ops: &Ops,
) -> Result<(), OutOfMemory> {
    match is_free(alloc, text, &one, ops) {
        Ok(true) => Ok(unbound.push(one)?),
        Ok(false) => {
            drop(one);
            Ok(())
        }
        Err(e) => {
            drop(one);
            Err(e)
        }
    }
}

// Whether a line could bind what a line that was left out was to bind.
fn is_free(alloc: Global, text: &[u8], one: &Unbound, ops: &Ops) -> Result<bool, OutOfMemory> {
    let bound = with_binding(alloc, text, one, TO_COMMUNICATORS)?;
    match refusal_of(alloc, &bound, ops)? {
        Some(refusal) => Ok(refusal.line > one.line),
        None => Ok(true),
    }
}

// What a line was to bind: the word behind its arrow.
fn unbound_by(alloc: Global, line: &[u8], number: u32) -> Result<Option<Unbound>, OutOfMemory> {
    let mut label: Option<&[u8]> = None;
    let mut is_behind_arrow = false;
    for word in line.split(|byte| is_blank(*byte)) {
        if word.is_empty() {
            continue;
        }
        match label {
            Some(label) if is_behind_arrow => return unbound_of(alloc, number, label, word),
            Some(_) => is_behind_arrow = word == b"->".as_slice(),
            None => label = Some(word),
        }
    }
    Ok(None)
}

fn unbound_of(
    alloc: Global,
    line: u32,
    label: &[u8],
    name: &[u8],
) -> Result<Option<Unbound>, OutOfMemory> {
    let label = copied(alloc, label)?;
    let name = copied(alloc, name)?;
    Ok(Some(Unbound { line, label, name }))
}
