//! Which word of a refused line is to blame, found by trials of the line with other words: it is a word of the line. Which one it is isn't claimed.
ghost use Rattle.std.specs.Prelude.{◌≡◌, ◌++◌, ◌∷◌, ◌-◌, ◌≤◌, [], ◌+◌, IfOk, IfSome, List, OnOk, cond, length, slice_get, take, true, ℕ};
ghost use Rattle.std.specs.Option.{option_map};
ghost use Rattle.std.specs.Str.Lines.{lines};
ghost use Rattle.mpx_script.specs.Words.{bytes_limit, has_bytes, words};
ghost use Rattle.mpx_explain.specs.Blame.{IsBlamed, IsLineOf, words_told};

use crate::forms::{Misfit, form_of, misfit_of};
use crate::trials::{Change, RANKS, fault_of};
use crate::unknown_names::{UnknownName, unknown_name};
use join_core::OutOfMemory;
use mpx_num::Ops;
use mpx_script::{ScriptError, ScriptFault};
use std::alloc::Global;

/// A word of a line, and its place in it, from 1 on.
#[derive(Debug, Drop)]
pub struct Blamed {
    pub place: usize,
    pub word: String,
}

// In a line of more words than these none is to blame.
const MOST_WORDS: usize = 64;

// Behind a text of more bytes than these no word is looked for that is bound to nothing, since that text is read for it once more.
const MOST_BEFORE: usize = 65_536;

/// A line of a script, by its words, and the text before it.
#[derive(Drop)]
pub(crate) struct Line<'t> {
    pub(crate) before: &'t str,
    pub(crate) words: Vec<&'t str>,
}

/// The word that is to blame for a script's refusal, where it can be told: in a line of at most 64 words.
pub fn word_to_blame(
    alloc: Global,
    text: &[u8],
    refusal: ScriptError,
    ops: &Ops,
) -> Result<Option<Blamed>, OutOfMemory>
    ensures { IfOk result (λ found. IfSome found (λ blamed. IsBlamed text.now refusal.line blamed)) }
{
    let Some(line) = line_in(alloc, text, refusal.line)? else {
        return Ok(None);
    };
    match place_of(alloc, &line, refusal.what, ops)? {
        Some(place) => blamed_at(alloc, &line, place),
        None => Ok(None),
    }
}

// The word at this place of a line, from 0 on.
fn blamed_at(alloc: Global, line: &Line<'_>, place: usize) -> Result<Option<Blamed>, OutOfMemory>
    requires { length line.now.words.items ≤ 64 }
    ensures { IfOk result (λ found. IfSome found (λ blamed. (text : List ℕ) (number : ℕ) → IsLineOf text number line.now → IsBlamed text number blamed)) }
{
    match line.words.get(place) {
        Some(found) => {
            let word = String::from_str(alloc, found)?;
            Ok(Some(Blamed {
                place: place + 1,
                word,
            }))
        }
        None => Ok(None),
    }
}

/// The line with this number, from 1 on, where it is text of at most 64 words.
pub(crate) fn line_in(
    alloc: Global,
    text: &[u8],
    number: u32,
) -> Result<Option<Line<'_>>, OutOfMemory>
    ensures { IfOk result (λ found. IfSome found (λ line. IsLineOf text.now number line)) }
{
    let Ok(seen) = str::from_utf8(seen_part(text)) else {
        return Ok(None);
    };
    let Some(line) = line_with(seen, number) else {
        return Ok(None);
    };
    match words_of(alloc, line)? {
        Some(words) => Ok(Some(Line {
            before: before_line(seen, number),
            words,
        })),
        None => Ok(None),
    }
}

// So many bytes a script has at most.
const BYTES: usize = 1_048_576;

// The text up to the byte that passes the limit.
fn seen_part(text: &[u8]) -> &[u8]
    ensures { result.now ≡ take (bytes_limit + 1) text.now }
{
    if text.len() > BYTES {
        text.split_at(BYTES + 1).0
    } else {
        text
    }
}

// The line with this number, from 1 on.
fn line_with(text: &str, number: u32) -> Option<&str>
    ensures { option_map (λ line. line.now) result ≡ slice_get (lines text.now) (number - 1) }
{
    text.lines().nth(number.saturating_sub(1) as usize)
}

// The text before the line with this number.
fn before_line(text: &str, number: u32) -> &str {
    let mut rest = text;
    let mut before = 0usize;
    for _ in 1..number {
        let Some((line, behind)) = rest.split_once('\n') else {
            return text;
        };
        before = before.saturating_add(line.len()).saturating_add(1);
        rest = behind;
    }
    text.get(..before).unwrap_or("")
}

// The words of a line, where they are at most 64.
fn words_of(alloc: Global, line: &str) -> Result<Option<Vec<&str>>, OutOfMemory>
    ensures { IfOk result (λ found. IfSome found (λ some. (length some.items ≤ 64) × (words_told some.items ≡ words line.now))) }
{
    let mut words = Vec::new(alloc);
    for part in line
        .as_bytes()
        .split(|byte| *byte == b' ' || *byte == b'\t')
    {
        if !push_part(part, &mut words)? {
            return Ok(None);
        }
    }
    Ok(Some(words))
}

// Adds what stands between two blanks, where anything does. It answers whether it is text, and there is room for it.
fn push_part<'t>(part: &'t [u8], words: &mut Vec<&'t str>) -> Result<bool, OutOfMemory>
    ensures words { IfOk result (λ fits. fits ≡ true → words_told words.new.items ≡ words_told words.old.items ++ cond (has_bytes part.now) (part.now ∷ []) []) }
    ensures few { OnOk result (length words.old.items ≤ 64 → length words.new.items ≤ 64) }
{
    if part.is_empty() {
        return Ok(true);
    }
    if words.len() >= MOST_WORDS {
        return Ok(false);
    }
    match str::from_utf8(part) {
        Ok(word) => {
            words.push(word)?;
            Ok(true)
        }
        Err(_) => Ok(false),
    }
}

/// The place of the word that is to blame, from 0 on.
pub(crate) fn place_of(
    alloc: Global,
    line: &Line<'_>,
    what: ScriptFault,
    ops: &Ops,
) -> Result<Option<usize>, OutOfMemory> {
    let words = line.words.as_slice();
    match what {
        ScriptFault::NotAscii | ScriptFault::TooLarge | ScriptFault::NoRanksLine => Ok(None),
        ScriptFault::RanksOutOfRange => Ok(Some(1)),
        ScriptFault::RankOutOfRange => Ok(Some(0)),
        ScriptFault::WrongWords => Ok(misfit_place(words)),
        ScriptFault::NameUnknown if line.before.len() > MOST_BEFORE => Ok(None),
        ScriptFault::NameUnknown => {
            Ok(place_unknown(unknown_name(alloc, line.before, words, ops)?))
        }
        ScriptFault::NameTaken => Ok(words.len().checked_sub(1)),
        ScriptFault::UnknownStatement
        | ScriptFault::BadNumber
        | ScriptFault::BadList
        | ScriptFault::BadName => match missing_part(alloc, words, ops)? {
            Some((_, place)) => Ok(Some(place)),
            None => wrong_word(alloc, words, what, ops),
        },
    }
}

fn place_unknown(found: Option<UnknownName>) -> Option<usize> {
    match found {
        Some(name) => Some(name.place),
        None => None,
    }
}

// The place of a word of the wrong sort.
fn wrong_word(
    alloc: Global,
    words: &[&str],
    what: ScriptFault,
    ops: &Ops,
) -> Result<Option<usize>, OutOfMemory> {
    match what {
        ScriptFault::UnknownStatement => unknown(alloc, words, ops),
        ScriptFault::BadNumber => strange_number(alloc, words, ops),
        ScriptFault::BadList => strange_list(alloc, words, ops),
        _ => strange(alloc, words, "world", ops),
    }
}

// The place at which a line differs from its statement's form.
fn misfit_place(words: &[&str]) -> Option<usize> {
    match misfit_of(form_of(words.get(1)?)?, words)? {
        Misfit::Missing(_, place)
        | Misfit::Surplus(place)
        | Misfit::Parted(place)
        | Misfit::Joined(place)
        | Misfit::Instead(place) => Some(place),
    }
}

// Words that stand for parts of a form which others can't be taken for.
const STAND_INS: [(&str, &str); 4] = [
    ("C", "world"),
    ("ROOT", "0"),
    ("OP", "sum"),
    ("TYPE", "i32"),
];

/// Which part of its statement's form a line lacks, and the place of the word in whose front it belongs: one word more there leaves
/// nothing to refuse, but for names that a line alone can't tell of.
pub(crate) fn missing_part(
    alloc: Global,
    words: &[&str],
    ops: &Ops,
) -> Result<Option<(&'static str, usize)>, OutOfMemory> {
    missing_in(alloc, words, false, ops)
}

/// The same of a line that has a type of programs besides.
pub(crate) fn missing_beside_type(
    alloc: Global,
    words: &[&str],
    ops: &Ops,
) -> Result<Option<(&'static str, usize)>, OutOfMemory> {
    missing_in(alloc, words, true, ops)
}

fn missing_in(
    alloc: Global,
    words: &[&str],
    is_typed: bool,
    ops: &Ops,
) -> Result<Option<(&'static str, usize)>, OutOfMemory> {
    let Some(form) = words.get(1).and_then(|word| form_of(word)) else {
        return Ok(None);
    };
    let mut place = 2usize;
    for part in form.parts.split_whitespace() {
        if lacks(alloc, words, part, place, is_typed, ops)? {
            return Ok(Some((part, place)));
        }
        place = place.saturating_add(1);
    }
    Ok(None)
}

// Whether a line lacks this part of its form before the word at this place.
fn lacks(
    alloc: Global,
    words: &[&str],
    part: &str,
    place: usize,
    is_typed: bool,
    ops: &Ops,
) -> Result<bool, OutOfMemory> {
    let Some(word) = words.get(place) else {
        return Ok(false);
    };
    let Some(other) = stand_in(part) else {
        return Ok(false);
    };
    if *word == other {
        return Ok(false);
    }
    let change = if is_typed {
        Change::MoreTyped(place, other)
    } else {
        Change::More(place, other)
    };
    let told = fault_of(alloc, RANKS, words, change, ops)?;
    Ok(is_of_names(told))
}

fn stand_in(part: &str) -> Option<&'static str> {
    for (name, word) in &STAND_INS {
        if *name == part {
            return Some(word);
        }
    }
    None
}

// Whether a line is refused for nothing but names that a line alone can't tell of.
fn is_of_names(told: Option<ScriptFault>) -> bool {
    match told {
        None | Some(ScriptFault::NameUnknown) | Some(ScriptFault::NameTaken) => true,
        Some(_) => false,
    }
}

// The line's beginning is no label, or the first word that makes it an unknown statement.
fn unknown(alloc: Global, words: &[&str], ops: &Ops) -> Result<Option<usize>, OutOfMemory> {
    let Some(label) = words.first() else {
        return Ok(None);
    };
    let known = [*label, "barrier", "world"];
    if fault_of(alloc, RANKS, &known, Change::Cut(3), ops)? == Some(ScriptFault::UnknownStatement) {
        return Ok(Some(0));
    }
    for place in 1..words.len() {
        let told = fault_of(
            alloc,
            RANKS,
            words,
            Change::Cut(place.saturating_add(1)),
            ops,
        )?;
        if told == Some(ScriptFault::UnknownStatement) {
            return Ok(Some(place));
        }
    }
    Ok(None)
}

// The first word that is no number, though one stands there: the last one such that with numbers there and behind it none is to blame.
fn strange_number(alloc: Global, words: &[&str], ops: &Ops) -> Result<Option<usize>, OutOfMemory> {
    let mut found = None;
    let mut found_to_arrow = None;
    for place in 2..words.len() {
        let told = fault_of(alloc, RANKS, words, Change::Numbers(place), ops)?;
        if told != Some(ScriptFault::BadNumber) {
            found = Some(place);
        }
        let told = fault_of(alloc, RANKS, words, Change::NumbersToArrow(place), ops)?;
        if told != Some(ScriptFault::BadNumber) {
            found_to_arrow = Some(place);
        }
    }
    Ok(found_to_arrow.or(found))
}

// The first list that is none: the last one such that with none there and behind it no list is to blame.
fn strange_list(alloc: Global, words: &[&str], ops: &Ops) -> Result<Option<usize>, OutOfMemory> {
    let mut found = None;
    for place in 2..words.len() {
        let told = fault_of(alloc, RANKS, words, Change::Lists(place), ops)?;
        if told != Some(ScriptFault::BadList) {
            found = Some(place);
        }
    }
    Ok(found)
}

// The first word in whose place another one leaves nothing to refuse, but for names that a line alone can't tell of.
fn strange(
    alloc: Global,
    words: &[&str],
    other: &'static str,
    ops: &Ops,
) -> Result<Option<usize>, OutOfMemory> {
    for place in 2..words.len() {
        let told = fault_of(alloc, RANKS, words, Change::One(place, other), ops)?;
        if is_of_names(told) {
            return Ok(Some(place));
        }
    }
    Ok(None)
}
