//! Trials of a line with other words.

use crate::forms::{Form, form_of};
use crate::lines::refusal_of;
use crate::meant::{is_foreign_type, is_value};
use join_core::OutOfMemory;
use mpx_num::Ops;
use mpx_script::ScriptFault;
use std::alloc::Global;

/// What is changed of a line's words, whose places are counted from 0 on.
#[derive(Clone, Copy, Drop)]
pub(crate) enum Change {
    /// So many words are left.
    Cut(usize),
    /// Another word at this place.
    One(usize, &'static str),
    /// One more word, before that at this place.
    More(usize, &'static str),
    /// The same, and a type of scripts for each of programs.
    MoreTyped(usize, &'static str),
    /// A number at this place and in each one behind it, but for operations and types.
    Numbers(usize),
    /// A number at this place and in each one behind it up to an arrow, but for operations and types.
    NumbersToArrow(usize),
    /// No count, rank or edge at this place and in each one behind it where a list of them stands by the form.
    Lists(usize),
}

/// Before a line that is tried alone.
pub(crate) const RANKS: &str = "ranks 64\n";

/// What a line of changed words is refused for behind such lines.
pub(crate) fn fault_of(
    alloc: Global,
    before: &str,
    words: &[&str],
    change: Change,
    ops: &Ops,
) -> Result<Option<ScriptFault>, OutOfMemory> {
    let text = tried(alloc, before, words, change, ops)?;
    match refusal_of(alloc, text.as_bytes(), ops)? {
        Some(refusal) => Ok(Some(refusal.what)),
        None => Ok(None),
    }
}

// Whether the word at this place is an operation, one of the job's own too, or a type, and may stand there by its statement's form.
fn is_named(words: &[&str], place: usize, word: &str, ops: &Ops) -> bool {
    if !is_value(word) && ops.place_named(word.as_bytes()).is_none() {
        return false;
    }
    match form_in(words) {
        Some(form) => names_value(form, place),
        None => true,
    }
}

fn form_in(words: &[&str]) -> Option<Form> {
    form_of(words.get(1)?)
}

// Whether the word at this place of a line stands for an operation or a type by its form.
fn names_value(form: Form, place: usize) -> bool {
    match part_at(form, place) {
        Some(part) => part == "OP" || part == "TYPE",
        None => false,
    }
}

fn part_at(form: Form, place: usize) -> Option<&'static str> {
    form.parts.split_whitespace().nth(place.saturating_sub(2))
}

// The parts of forms that are lists.
const LISTS: [&str; 6] = [
    "SCOUNTS",
    "RCOUNTS",
    "RANKS",
    "EDGES",
    "SOURCES",
    "DESTINATIONS",
];

// Whether a list stands at this place of a line by its statement's form.
fn is_list(words: &[&str], place: usize) -> bool {
    match form_in(words) {
        Some(form) => match part_at(form, place) {
            Some(part) => LISTS.contains(&part),
            None => false,
        },
        None => false,
    }
}

// The text with the line of changed words.
fn tried(
    alloc: Global,
    before: &str,
    words: &[&str],
    change: Change,
    ops: &Ops,
) -> Result<String, OutOfMemory> {
    let mut text = String::from_str(alloc, before)?;
    let mut is_behind_arrow = false;
    for (place, word) in words.iter().enumerate() {
        is_behind_arrow |= *word == "->";
        let tried = TriedWord {
            place,
            word,
            is_named: is_named(words, place, word, ops),
            is_list: is_list(words, place),
            is_behind_arrow,
        };
        push_changed(alloc, &tried, change, &mut text)?;
    }
    Ok(text)
}

// A word of a line: its place, and whether it is an operation or a type where one may stand, stands where a list does, and is an arrow or behind
// one.
#[derive(Clone, Copy, Drop)]
struct TriedWord<'w> {
    place: usize,
    word: &'w str,
    is_named: bool,
    is_list: bool,
    is_behind_arrow: bool,
}

// Adds a word, changed, behind one that comes before it.
fn push_changed(
    alloc: Global,
    tried: &TriedWord<'_>,
    change: Change,
    text: &mut String,
) -> Result<(), OutOfMemory> {
    if let Change::More(at, other) | Change::MoreTyped(at, other) = change {
        if tried.place == at {
            push_word(other, text)?;
        }
    }
    if is_changed(alloc, tried, change)? {
        return push_word(other_word(change), text);
    }
    push_word(tried.word, text)
}

fn push_word(word: &str, text: &mut String) -> Result<(), OutOfMemory> {
    text.push_str(word)?;
    text.push_str(" ")?;
    Ok(())
}

// Whether a word is changed.
fn is_changed(alloc: Global, tried: &TriedWord<'_>, change: Change) -> Result<bool, OutOfMemory> {
    match change {
        Change::Cut(count) => Ok(tried.place >= count),
        Change::One(at, _) => Ok(tried.place == at),
        Change::More(_, _) => Ok(false),
        Change::MoreTyped(_, _) => is_foreign_type(alloc, tried.word),
        Change::Numbers(from) => Ok(tried.place >= from && !tried.is_named),
        Change::Lists(from) => Ok(tried.place >= from && tried.is_list),
        Change::NumbersToArrow(from) => {
            Ok(tried.place >= from && !tried.is_behind_arrow && !tried.is_named)
        }
    }
}

// What stands for a word that is changed.
fn other_word(change: Change) -> &'static str {
    match change {
        Change::One(_, other) => other,
        Change::MoreTyped(_, _) => "i32",
        Change::Numbers(_) | Change::NumbersToArrow(_) => "0",
        Change::Lists(_) => "-",
        Change::Cut(_) | Change::More(_, _) => "",
    }
}
