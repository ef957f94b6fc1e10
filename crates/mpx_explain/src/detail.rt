//! What is told of a refused line beside its refusal: which word is missing, one too many or wrong, and what was meant, perhaps.

use crate::blame::{Line, line_in, missing_beside_type, missing_part, place_of};
use crate::forms::{Form, Misfit, form_of, goes_on, misfit_of};
use crate::meant::meant;
use crate::size::push_value;
use crate::unknown_names::unknown_name;
use join_core::OutOfMemory;
use mpx_num::Ops;
use mpx_script::{ReadScriptError, ScriptError, ScriptFault, read_script};
use std::alloc::Global;

// A word of more bytes than these is not shown.
const MOST_LETTERS: usize = 64;

/// What is told of the line that a script is refused for, where anything is.
pub(crate) fn detail_of(
    alloc: Global,
    text: &[u8],
    refusal: ScriptError,
    ops: &Ops,
) -> Result<Option<String>, OutOfMemory> {
    if text.is_empty() {
        return empty_script(alloc);
    }
    let Some(line) = line_in(alloc, text, refusal.line)? else {
        return Ok(None);
    };
    let told = told_of(alloc, &line, refusal.what, ops);
    drop(line);
    told
}

// How a script is given, where none was.
fn empty_script(alloc: Global) -> Result<Option<String>, OutOfMemory> {
    let mut told = String::new(alloc);
    told.push_str(
        "the script is empty: its first line is ranks N, and < my.job reads it from a file",
    )?;
    Ok(Some(told))
}

// What is told of a line that is to say how many ranks there are.
fn ranks_line(alloc: Global, words: &[&str]) -> Result<String, OutOfMemory> {
    let mut told = String::new(alloc);
    if words.first() == Some(&"ranks") && words.len() > 2 {
        told.push_str("ranks N: a word too many")?;
        push_shown(words, 2, ": ", &mut told)?;
        return Ok(told);
    }
    told.push_str("the first line that is no comment is ranks N, as ranks 2")?;
    Ok(told)
}

fn told_of(
    alloc: Global,
    line: &Line<'_>,
    what: ScriptFault,
    ops: &Ops,
) -> Result<Option<String>, OutOfMemory> {
    match what {
        ScriptFault::NotAscii | ScriptFault::TooLarge => Ok(None),
        ScriptFault::NoRanksLine => Ok(Some(ranks_line(alloc, line.words.as_slice())?)),
        ScriptFault::RanksOutOfRange
        | ScriptFault::RankOutOfRange
        | ScriptFault::NameUnknown
        | ScriptFault::NameTaken => wrong_word(alloc, line, what, ops),
        ScriptFault::WrongWords
        | ScriptFault::UnknownStatement
        | ScriptFault::BadNumber
        | ScriptFault::BadList
        | ScriptFault::BadName => {
            let words = line.words.as_slice();
            let Some((part, place)) = missing_part(alloc, words, ops)? else {
                return wrong_line(alloc, line, what, ops);
            };
            by_form(alloc, words, Misfit::Missing(part, place))
        }
    }
}

// What is told of a line that lacks no part that another one can't be taken for.
fn wrong_line(
    alloc: Global,
    line: &Line<'_>,
    what: ScriptFault,
    ops: &Ops,
) -> Result<Option<String>, OutOfMemory> {
    if what != ScriptFault::WrongWords {
        return wrong_word(alloc, line, what, ops);
    }
    let words = line.words.as_slice();
    let Some(form) = form_in(words) else {
        return Ok(None);
    };
    match misfit_of(form, words) {
        Some(misfit) => by_form(alloc, words, misfit),
        None => Ok(None),
    }
}

// The form of a line's statement.
fn form_in(words: &[&str]) -> Option<Form> {
    form_of(words.get(1)?)
}

// How a line differs from its statement's form, behind that.
fn by_form(alloc: Global, words: &[&str], misfit: Misfit) -> Result<Option<String>, OutOfMemory> {
    let (Some(form), Some(statement)) = (form_in(words), words.get(1)) else {
        return Ok(None);
    };
    let (parts, behind) = (form.parts, if form.starts { " -> D" } else { "" });
    let mut told = String::new(alloc);
    push_form(statement, parts, behind, &mut told)?;
    push_misfit(words, misfit, &mut told)?;
    Ok(Some(told))
}

fn push_form(
    statement: &str,
    parts: &str,
    behind: &str,
    told: &mut String,
) -> Result<(), OutOfMemory> {
    told.push_str(statement)?;
    told.push_str(" ")?;
    told.push_str(parts)?;
    told.push_str(behind)?;
    told.push_str(": ")?;
    Ok(())
}

fn push_misfit(words: &[&str], misfit: Misfit, told: &mut String) -> Result<(), OutOfMemory> {
    match misfit {
        Misfit::Missing(part, place) => {
            told.push_str(part)?;
            told.push_str(" is missing")?;
            push_shown(words, place, " before ", told)
        }
        Misfit::Surplus(place) => {
            told.push_str("a word too many")?;
            push_shown(words, place, ": ", told)
        }
        Misfit::Parted(place) => push_list(words, place, told),
        Misfit::Joined(_) => Ok(told.push_str("a blank is missing behind ->")?),
        Misfit::Instead(place) => {
            told.push_str("-> belongs in place of the word")?;
            push_shown(words, place, " ", told)
        }
    }
}

// Adds how a list is given that goes on at this place, behind a blank.
fn push_list(words: &[&str], place: usize, told: &mut String) -> Result<(), OutOfMemory> {
    told.push_str("a list has no blanks in it")?;
    push_shown(words, place.saturating_sub(1), ": ", told)?;
    for at in place..words.len() {
        if !goes_on(words, at) {
            return Ok(());
        }
        push_shown(words, at, "", told)?;
    }
    Ok(())
}

// Adds the word at this place of a line, where it can be shown.
fn push_shown(
    words: &[&str],
    place: usize,
    between: &str,
    told: &mut String,
) -> Result<(), OutOfMemory> {
    if let Some(word) = words.get(place) {
        if is_shown(word.as_bytes()) {
            told.push_str(between)?;
            told.push_str(word)?;
        }
    }
    Ok(())
}

/// Whether a word can be shown: one of few letters that are seen.
pub(crate) fn is_shown(word: &[u8]) -> bool {
    word.len() <= MOST_LETTERS && word.iter().all(|byte| 33 <= *byte && *byte <= 126)
}

// The word that is to blame, and why.
fn wrong_word(
    alloc: Global,
    line: &Line<'_>,
    what: ScriptFault,
    ops: &Ops,
) -> Result<Option<String>, OutOfMemory> {
    let Some(place) = place_of(alloc, line, what, ops)? else {
        return no_statement(alloc, line.words.len(), what);
    };
    match line.words.get(place) {
        Some(word) if is_shown(word.as_bytes()) => of_word(alloc, line, what, place, word, ops),
        _ => Ok(None),
    }
}

// What is told of a line of so many words, none of which is to blame: a label alone.
fn no_statement(
    alloc: Global,
    words: usize,
    what: ScriptFault,
) -> Result<Option<String>, OutOfMemory> {
    if what != ScriptFault::UnknownStatement || words != 1 {
        return Ok(None);
    }
    let told = "a statement is missing behind the label";
    Ok(Some(String::from_str(alloc, told)?))
}

// What is told of the word at this place, from 0 on.
fn of_word(
    alloc: Global,
    line: &Line<'_>,
    what: ScriptFault,
    place: usize,
    word: &str,
    ops: &Ops,
) -> Result<Option<String>, OutOfMemory> {
    if let Some(why) = why_of(alloc, line, what, place, word, ops)? {
        return Ok(Some(shown(alloc, place, word, why.as_str())?));
    }
    if what == ScriptFault::UnknownStatement {
        if let Some(told) = beside_type(alloc, line.words.as_slice(), ops)? {
            return Ok(Some(told));
        }
    }
    Ok(Some(shown(alloc, place, word, "")?))
}

// A word at this place, from 0 on, and what is told of it.
fn shown(alloc: Global, place: usize, word: &str, more: &str) -> Result<String, OutOfMemory> {
    let mut told = String::new(alloc);
    push_value("word ", place.saturating_add(1) as i128, ": ", &mut told)?;
    push_more(word, more, &mut told)?;
    Ok(told)
}

// Adds a word, and more of it where there is any.
fn push_more(word: &str, more: &str, told: &mut String) -> Result<(), OutOfMemory> {
    told.push_str(word)?;
    if !more.is_empty() {
        told.push_str("; ")?;
        told.push_str(more)?;
    }
    Ok(())
}

// What a line lacks that has a type of programs besides, and what was meant by that.
fn beside_type(alloc: Global, words: &[&str], ops: &Ops) -> Result<Option<String>, OutOfMemory> {
    let Some((part, place)) = missing_beside_type(alloc, words, ops)? else {
        return Ok(None);
    };
    let told = by_form(alloc, words, Misfit::Missing(part, place))?;
    match told {
        Some(mut told) => {
            push_meant(alloc, words.get(place).copied().unwrap_or(""), &mut told)?;
            Ok(Some(told))
        }
        None => Ok(None),
    }
}

// Adds what was meant by a word that is no statement, perhaps.
fn push_meant(alloc: Global, word: &str, told: &mut String) -> Result<(), OutOfMemory> {
    if let Some(meant) = meant(alloc, word, false)? {
        told.push_str("; ")?;
        told.push_str(meant.as_str())?;
    }
    Ok(())
}

// What was meant by a word, perhaps, or its limits.
fn why_of(
    alloc: Global,
    line: &Line<'_>,
    what: ScriptFault,
    place: usize,
    word: &str,
    ops: &Ops,
) -> Result<Option<String>, OutOfMemory> {
    match what {
        ScriptFault::UnknownStatement if place == 0 => lacking_label(alloc, word),
        // (a line's second word is its statement)
        ScriptFault::UnknownStatement => meant(alloc, word, place == 1),
        ScriptFault::RanksOutOfRange => {
            Ok(Some(String::from_str(alloc, "there are 1 to 64 ranks")?))
        }
        ScriptFault::RankOutOfRange => last_rank(alloc, line, ops),
        ScriptFault::NameUnknown => lacking_rank(alloc, line, ops),
        _ => Ok(None),
    }
}

// What lacks where a line begins with this word in place of a label.
fn lacking_label(alloc: Global, word: &str) -> Result<Option<String>, OutOfMemory> {
    if form_of(word).is_some() {
        let told = "a line begins with its rank and a colon, as 0: or *: for all";
        return Ok(Some(String::from_str(alloc, told)?));
    }
    match word.split_once(':') {
        Some((_, statement)) if form_of(statement).is_some() => {
            let told = "a blank is missing behind the colon";
            Ok(Some(String::from_str(alloc, told)?))
        }
        _ => meant(alloc, word, false),
    }
}

// Which rank lacks what a word of the line names, where another rank of the line has it.
fn lacking_rank(alloc: Global, line: &Line<'_>, ops: &Ops) -> Result<Option<String>, OutOfMemory> {
    match unknown_name(alloc, line.before, line.words.as_slice(), ops)? {
        Some(name) if name.is_known_elsewhere => {
            let what = if name.is_request {
                " has no such request"
            } else {
                " has no such communicator"
            };
            let mut told = String::new(alloc);
            push_value("rank ", i128::from(name.rank), what, &mut told)?;
            Ok(Some(told))
        }
        _ => Ok(None),
    }
}

// Which ranks there are, by the lines before.
fn last_rank(alloc: Global, line: &Line<'_>, ops: &Ops) -> Result<Option<String>, OutOfMemory> {
    match read_script(alloc, line.before.as_bytes(), ops) {
        Ok(script) => {
            let ranks = script.ranks();
            drop(script);
            Ok(Some(ranks_of(alloc, ranks)?))
        }
        Err(ReadScriptError::Refused(_)) => Ok(None),
        Err(ReadScriptError::OutOfMemory) => Err(OutOfMemory),
    }
}

fn ranks_of(alloc: Global, ranks: u8) -> Result<String, OutOfMemory> {
    if ranks == 1 {
        return Ok(String::from_str(alloc, "there is only rank 0")?);
    }
    let mut told = String::new(alloc);
    push_value(
        "there are ranks 0 to ",
        i128::from(ranks.saturating_sub(1)),
        "",
        &mut told,
    )?;
    Ok(told)
}
