//! The text of a line of a transcript.
ghost use Rattle.std.specs.Prelude.{◌≡◌, ◌++◌, ◌∷◌, [], IfOk, OnOk, map, pos, codes, string_bytes};
ghost use Rattle.mpx_num.specs.Text.{number_text};
ghost use Rattle.mpx_meaning.specs.Transcripts.{fault_name, line_text, listed, neighbour_text, outcome_text, rank_text, relation_text, translated_text};

use crate::asking::Relation;
use crate::line::Line;
use join_core::OutOfMemory;
use mpx_birth::Neighbour;
use mpx_group::Rank;
use mpx_num::push_number;
use mpx_value::{FaultKind, Outcome};
use std::alloc::Global;

impl Line {
    /// The text of the line.
    pub fn text(&self, alloc: Global) -> Result<String, OutOfMemory>
        ensures { IfOk result (λ text. string_bytes text ≡ line_text self.now) }
    {
        let mut text = String::new(alloc);
        self.push_to(&mut text)?;
        Ok(text)
    }

    /// Appends the text of the line. An outcome is its numbers with one space between them, `empty` where there are none, `ok`
    /// where the call gives nothing, `none` where there is nothing to give, `comm SIZE RANK` of a new communicator, `null` where
    /// the rank gets none, or `fault NAME at RANK`. A refusal is `refused NAME`, a request that isn't open `idle`. Neighbours are
    /// their ranks, or with weights `RANK:WEIGHT`, and ranks numbers, `null` or `undefined`, with one space between them.
    pub fn push_to(&self, text: &mut String) -> Result<(), OutOfMemory>
        ensures { OnOk result (string_bytes text.new ≡ string_bytes text.old ++ line_text self.now) }
    {
        match self {
            Line::Told { outcome, .. } => push_outcome(text, outcome),
            Line::Refused(refusal) => push_refusal(text, refusal.name()),
            Line::Idle => push_word(text, "idle"),
            Line::Near {
                weighted,
                neighbours,
            } => push_neighbours(text, *weighted, neighbours.as_slice()),
            Line::Compared(relation) => push_word(text, name_of_relation(*relation)),
            Line::Translated(ranks) => push_ranks(text, ranks.as_slice()),
            Line::StrayRank => push_refusal(text, "RankOutOfRange"),
        }
    }
}

/// Appends the lines of a rank, each as `RANK: LINE`.
pub fn push_lines(text: &mut String, rank: u8, lines: &[Line]) -> Result<(), OutOfMemory>
    ensures { OnOk result (string_bytes text.new ≡ string_bytes text.old ++ rank_text rank (map line_text lines.now)) }
{
    for line in lines {
        push_line(text, rank, line)?;
    }
    Ok(())
}

// Appends a line of a rank.
fn push_line(text: &mut String, rank: u8, line: &Line) -> Result<(), OutOfMemory>
    ensures { OnOk result (string_bytes text.new ≡ string_bytes text.old ++ rank_text rank (line_text line.now ∷ [])) }
{
    push_number(text, i128::from(rank))?;
    text.push_str(": ")?;
    line.push_to(text)?;
    text.push_str("\n")?;
    Ok(())
}

fn push_word(text: &mut String, word: &str) -> Result<(), OutOfMemory>
    ensures { OnOk result (string_bytes text.new ≡ string_bytes text.old ++ word.now) }
{
    text.push_str(word)?;
    Ok(())
}

fn push_refusal(text: &mut String, name: &str) -> Result<(), OutOfMemory>
    ensures { OnOk result (string_bytes text.new ≡ string_bytes text.old ++ (codes "refused " ++ name.now)) }
{
    text.push_str("refused ")?;
    text.push_str(name)?;
    Ok(())
}

// Appends an outcome.
fn push_outcome(text: &mut String, outcome: &Outcome) -> Result<(), OutOfMemory>
    ensures { OnOk result (string_bytes text.new ≡ string_bytes text.old ++ outcome_text outcome.now) }
{
    match outcome {
        Outcome::Nothing => push_word(text, "ok"),
        Outcome::Absent => push_word(text, "none"),
        Outcome::Items(items) => push_numbers(text, items.nums()),
        Outcome::NewComm { size, rank, .. } => push_communicator(text, *size, *rank),
        Outcome::Null => push_word(text, "null"),
        Outcome::Fault(fault) => push_fault(text, fault.what, fault.rank),
    }
}

// Appends ranks, with one space between them.
fn push_ranks(text: &mut String, ranks: &[Rank]) -> Result<(), OutOfMemory>
    ensures { OnOk result (string_bytes text.new ≡ string_bytes text.old ++ listed translated_text ranks.now) }
{
    let Some((first, rest)) = ranks.split_first() else {
        return push_word(text, "empty");
    };
    push_rank(text, *first)?;
    for rank in rest {
        push_spaced_rank(text, *rank)?;
    }
    Ok(())
}

// Appends a rank behind a space.
fn push_spaced_rank(text: &mut String, rank: Rank) -> Result<(), OutOfMemory>
    ensures { OnOk result (string_bytes text.new ≡ string_bytes text.old ++ 32 ∷ translated_text rank) }
{
    text.push_str(" ")?;
    push_rank(text, rank)
}

// Appends a rank.
fn push_rank(text: &mut String, rank: Rank) -> Result<(), OutOfMemory>
    ensures { OnOk result (string_bytes text.new ≡ string_bytes text.old ++ translated_text rank) }
{
    match rank {
        Rank::At(rank) => push_number(text, i128::from(rank))?,
        Rank::ProcNull => text.push_str("null")?,
        Rank::Undefined => text.push_str("undefined")?,
    }
    Ok(())
}

// Appends neighbours, with one space between them.
fn push_neighbours(
    text: &mut String,
    weighted: bool,
    neighbours: &[Neighbour],
) -> Result<(), OutOfMemory>
    ensures { OnOk result (string_bytes text.new ≡ string_bytes text.old ++ listed (neighbour_text weighted) neighbours.now) }
{
    let Some((first, rest)) = neighbours.split_first() else {
        return push_word(text, "empty");
    };
    push_neighbour(text, weighted, *first)?;
    for neighbour in rest {
        push_spaced_neighbour(text, weighted, *neighbour)?;
    }
    Ok(())
}

// Appends a neighbour's words behind a space.
fn push_spaced_neighbour(
    text: &mut String,
    weighted: bool,
    neighbour: Neighbour,
) -> Result<(), OutOfMemory>
    ensures { OnOk result (string_bytes text.new ≡ string_bytes text.old ++ 32 ∷ neighbour_text weighted neighbour) }
{
    text.push_str(" ")?;
    push_neighbour(text, weighted, neighbour)
}

// Appends a neighbour's rank, and its weight, where edges have weights.
fn push_neighbour(
    text: &mut String,
    weighted: bool,
    neighbour: Neighbour,
) -> Result<(), OutOfMemory>
    ensures { OnOk result (string_bytes text.new ≡ string_bytes text.old ++ neighbour_text weighted neighbour) }
{
    push_number(text, i128::from(neighbour.rank))?;
    if weighted {
        text.push_str(":")?;
        push_number(text, i128::from(neighbour.weight))?;
    }
    Ok(())
}

// Appends numbers, with one space between them.
fn push_numbers(text: &mut String, numbers: &[i128]) -> Result<(), OutOfMemory>
    ensures { OnOk result (string_bytes text.new ≡ string_bytes text.old ++ listed number_text numbers.now) }
{
    let Some((first, rest)) = numbers.split_first() else {
        return push_word(text, "empty");
    };
    push_number(text, *first)?;
    for number in rest {
        push_spaced_number(text, *number)?;
    }
    Ok(())
}

// Appends a number behind a space.
fn push_spaced_number(text: &mut String, number: i128) -> Result<(), OutOfMemory>
    ensures { OnOk result (string_bytes text.new ≡ string_bytes text.old ++ 32 ∷ number_text number) }
{
    write!(text, " {number}")?;
    Ok(())
}

// Appends a new communicator's size, and the rank there.
fn push_communicator(text: &mut String, size: u8, rank: u8) -> Result<(), OutOfMemory>
    ensures { OnOk result (string_bytes text.new ≡ string_bytes text.old ++ (codes "comm " ++ number_text (pos size) ++ 32 ∷ number_text (pos rank))) }
{
    text.push_str("comm ")?;
    push_number(text, i128::from(size))?;
    text.push_str(" ")?;
    push_number(text, i128::from(rank))?;
    Ok(())
}

// Appends a fault.
fn push_fault(text: &mut String, what: FaultKind, rank: u8) -> Result<(), OutOfMemory>
    ensures { OnOk result (string_bytes text.new ≡ string_bytes text.old ++ (codes "fault " ++ fault_name what ++ codes " at " ++ number_text (pos rank))) }
{
    text.push_str("fault ")?;
    text.push_str(name_of_fault(what))?;
    text.push_str(" at ")?;
    push_number(text, i128::from(rank))?;
    Ok(())
}

fn name_of_fault(what: FaultKind) -> &'static str
    ensures { result.now ≡ fault_name what }
{
    match what {
        FaultKind::Kind => "Kind",
        FaultKind::Mode => "Mode",
        FaultKind::Root => "Root",
        FaultKind::Op => "Op",
        FaultKind::ItemType => "ItemType",
        FaultKind::Amount => "Amount",
        FaultKind::Weights => "Weights",
        FaultKind::Edges => "Edges",
        FaultKind::Groups => "Groups",
    }
}

fn name_of_relation(relation: Relation) -> &'static str
    ensures { result.now ≡ relation_text relation }
{
    match relation {
        Relation::Ident => "ident",
        Relation::Congruent => "congruent",
        Relation::Similar => "similar",
        Relation::Unequal => "unequal",
    }
}
