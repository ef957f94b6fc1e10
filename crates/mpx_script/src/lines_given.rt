//! Which lines of a script give a rank its statements.
ghost use Rattle.std.specs.Prelude.{◌≡◌, ◌<◌, ◌&&◌, ◌++◌, ◌∷◌, cond, IfOk, List, Ok, OnOk, slice_get, slice_index_or, []};
ghost use Rattle.std.specs.Option.{option_copied};
ghost use Rattle.mpx_num.specs.declared.own.Operation.{Operation};
ghost use Rattle.mpx_script.specs.Words.{counts, words};
ghost use Rattle.mpx_script.specs.Syntax.{directive_in};
ghost use Rattle.mpx_script.specs.Meanings.{names_rank};
ghost use Rattle.mpx_script.specs.LinesGiven.{Give, lines_given, words_at};
ghost use Rattle.mpx_script.specs.Reading.{reading};
ghost use Rattle.mpx_script.specs.ScriptView.{ScriptView};

use crate::grammar::Label;
use crate::reader::seen_part;
use crate::syntax::directive_in;
use crate::words::{counts, first_line, first_word};
use join_core::OutOfMemory;
use std::alloc::Global;

/// The numbers, from 1 on, of the lines that give a rank its statements. Of a text that [`read_script`](crate::read_script)
/// accepts there are as many as the rank has statements, and the k-th line gives it the k-th one. An `Err` is want of memory.
pub fn statement_lines(alloc: Global, text: &[u8], rank: u8) -> Result<Vec<u32>, OutOfMemory>
    ensures numbers { IfOk result (λ numbers. numbers.items ≡ lines_given rank text.now) }
    ensures give { IfOk result (λ numbers. (operations : List Operation) (script : ScriptView) → reading operations text.now ≡ Ok script → rank < script.ranks
        → Give operations text.now rank numbers.items (slice_index_or script.statements rank [])) }
{
    let mut numbers = Vec::new(alloc);
    let mut number: u32 = 0;
    let mut is_opened = false;
    let mut rest = seen_part(text);
    while !rest.is_empty() {
        let (line, after) = first_line(rest);
        number += 1;
        push_where(&mut numbers, number, is_given(line, rank, is_opened))?;
        is_opened |= counts(line);
        rest = after;
    }
    Ok(numbers)
}

// Adds the number where the test holds.
fn push_where(numbers: &mut Vec<u32>, number: u32, test: bool) -> Result<(), OutOfMemory>
    ensures { OnOk result (numbers.new.items ≡ numbers.old.items ++ cond test (number ∷ []) []) }
{
    if !test {
        return Ok(());
    }
    numbers.push(number)?;
    Ok(())
}

// Whether a line is for the rank: a further one that counts, and whose label names it.
fn is_given(line: &[u8], rank: u8, is_opened: bool) -> bool
    ensures { result ≡ (is_opened && (counts (words line.now) && names_rank rank (directive_in (words line.now)))) }
{
    is_opened && counts(line) && names_rank(line, rank)
}

// Whether the label of a further line names the rank.
#[tactic(auto, unfolding(crate::specs::Meanings::names_rank))]
fn names_rank(line: &[u8], rank: u8) -> bool
    ensures { result ≡ names_rank rank (directive_in (words line.now)) }
{
    match directive_in(line).label() {
        None => false,
        Some(Label::Every) => true,
        Some(Label::Numbered(number)) => number == i128::from(rank),
    }
}

/// The second and the third word of the line with this number, from 1 on: of a statement's line its own word, and the first one
/// behind it, which of a call is its communicator's. None where the line has fewer words, or isn't there.
pub fn words_of_line(text: &[u8], number: u32) -> (Option<&[u8]>, Option<&[u8]>)
    ensures second { option_copied result.0 ≡ slice_get (words_at text.now number) 1 }
    ensures third { option_copied result.1 ≡ slice_get (words_at text.now number) 2 }
{
    let (_, rest) = first_word(line_with_number(text, number));
    let (second, rest) = first_word(rest);
    let (third, _) = first_word(rest);
    (second, third)
}

/// The fourth and the fifth word of the line with this number, from 1 on: of a `create_group` its tag and its ranks. None where the
/// line has fewer words, or isn't there.
pub fn later_words_of_line(text: &[u8], number: u32) -> (Option<&[u8]>, Option<&[u8]>)
    ensures fourth { option_copied result.0 ≡ slice_get (words_at text.now number) 3 }
    ensures fifth { option_copied result.1 ≡ slice_get (words_at text.now number) 4 }
{
    let (_, rest) = first_word(line_with_number(text, number));
    let (_, rest) = first_word(rest);
    let (_, rest) = first_word(rest);
    let (fourth, rest) = first_word(rest);
    let (fifth, _) = first_word(rest);
    (fourth, fifth)
}

// The line with this number, or nothing where there is none.
fn line_with_number(text: &[u8], number: u32) -> &[u8]
    ensures { words result.now ≡ words_at text.now number }
{
    let mut rest = seen_part(text);
    let mut left = number.saturating_sub(1);
    while !rest.is_empty() {
        let (line, after) = first_line(rest);
        if left == 0 {
            return line;
        }
        left -= 1;
        rest = after;
    }
    &[]
}
