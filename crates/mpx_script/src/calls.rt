//! The draft that the words of a call say.
ghost use Rattle.std.specs.Prelude.{◌≡◌, [], true, false, not, pos, if◌then◌else◌, None, Some, IfOk, OnOk, IfErr, MatchOption};
ghost use Rattle.std.specs.List.{filter_map, list_any};
ghost use Rattle.std.specs.Option.{option_copied};
ghost use Rattle.mpx_num.specs.Text.{number_of};
ghost use Rattle.mpx_post.specs.Drafts.{empty_draft};
ghost use Rattle.mpx_script.specs.Words.{words};
ghost use Rattle.mpx_script.specs.Grammar.{call_with};
ghost use Rattle.mpx_script.specs.Fields.{is_one, list_named, counts_named, operation_named, type_named, colour_named};
ghost use Rattle.mpx_script.specs.Places.{said};
ghost use Rattle.mpx_script.specs.laws.Parts.{call_draft_in, draft_in, graph_in, is_number};
ghost use Rattle.mpx_script.specs.Sentences.{faulty_counts, IsLineRefusal, counts_refusal, draft_refusal, fields_refusal, new_refusal, read_at};

use crate::faults::{LineError, ScriptFault};
use crate::fields::{colour_named, is_one, list_named, operation_named, type_named};
use crate::grammar::call_with;
use crate::graphs::graph_in;
use crate::syntax::{CallSyntax, NewSyntax};
use crate::words::first_word;
use mpx_kind::{Fields, Kind, Mode, Number};
use mpx_num::{Listing, Numbers, Op, Ops, Ty, parse_number};
use mpx_post::{Draft, DraftedGraph};
use std::alloc::{AllocError, Global};

/// The number of a word, 0 where there is none, or None where the word is no number.
pub fn number_at(word: Option<&[u8]>) -> Option<i128>
    ensures { result ≡ read_at number_of (pos 0) (option_copied word.entry) }
{
    match word {
        Some(word) => parse_number(word),
        None => Some(0),
    }
}

// The colour of a word, none where there is no word, or None where the word is no colour.
fn colour_at(word: Option<&[u8]>) -> Option<Option<i128>>
    ensures { result ≡ read_at colour_named None (option_copied word.entry) }
{
    match word {
        Some(word) => colour_named(word),
        None => Some(None),
    }
}

// The numbers of a list, none where there is no word, or None where the word is no list.
fn list_at(alloc: Global, word: Option<&[u8]>) -> Result<Option<Numbers>, AllocError>
    ensures { IfOk result (λ found. found ≡ read_at list_named [] (option_copied word.entry)) }
{
    match word {
        Some(word) => list_named(alloc, word),
        None => Ok(Some(Numbers::none())),
    }
}

// The counts of a word: one number, where the kind has just one of them, or a list.
fn counts_named(alloc: Global, number: Number, word: &[u8]) -> Result<Option<Numbers>, AllocError>
    ensures { IfOk result (λ found. found ≡ counts_named number word.now) }
{
    if !is_one(number) {
        return list_named(alloc, word);
    }
    let Some(count) = parse_number(word) else {
        return Ok(None);
    };
    Ok(Some(Numbers::one(count)))
}

// The counts of a word, none where there is no word.
fn counts_at(
    alloc: Global,
    number: Number,
    word: Option<&[u8]>,
) -> Result<Option<Numbers>, AllocError>
    ensures { IfOk result (λ found. found ≡ read_at (counts_named number) [] (option_copied word.entry)) }
{
    match word {
        Some(word) => counts_named(alloc, number, word),
        None => Ok(Some(Numbers::none())),
    }
}

// The send counts and the receive counts of a call with these fields.
#[tactic(auto, using(crate::proofs::Counts::same_fault))]
fn counts_in(
    alloc: Global,
    fields: Fields,
    call: &CallSyntax<'_>,
) -> Result<(Numbers, Numbers), LineError>
    ensures accepted { OnOk result (counts_refusal fields call.now ≡ None) }
    ensures sent { IfOk result (λ counts. read_at (counts_named fields.scounts) [] call.now.scounts ≡ Some counts.0) }
    ensures received { IfOk result (λ counts. read_at (counts_named fields.rcounts) [] call.now.rcounts ≡ Some counts.1) }
    ensures refused { IfErr result (IsLineRefusal (counts_refusal fields call.now)) }
{
    let scounts = counts_at(alloc, fields.scounts, call.scounts)?;
    let rcounts = counts_at(alloc, fields.rcounts, call.rcounts)?;
    if let Some(fault) = counts_fault(fields, scounts.is_none(), rcounts.is_none()) {
        return Err(LineError::Fault(fault));
    }
    Ok((scounts.unwrap(), rcounts.unwrap()))
}

// What the counts are refused for, where these are strange.
fn counts_fault(fields: Fields, no_scounts: bool, no_rcounts: bool) -> Option<ScriptFault>
    ensures { result ≡ faulty_counts fields no_scounts no_rcounts }
{
    let (one_sent, one_received) = (is_one(fields.scounts), is_one(fields.rcounts));
    if one_sent && no_scounts || one_received && no_rcounts {
        return Some(ScriptFault::BadNumber);
    }
    if !one_sent && no_scounts || !one_received && no_rcounts {
        return Some(ScriptFault::BadList);
    }
    None
}

// The operation of a word, the sum where there is none.
fn operation_at(word: Option<&[u8]>, ops: &Ops) -> Op
    ensures { result ≡ said (operation_named (⟦<Ops as Listing>⟧.operations ops.now)) Op.Sum (option_copied word.entry) }
{
    match word {
        Some(word) => operation_named(word, ops).unwrap_or(Op::Sum),
        None => Op::Sum,
    }
}

// The type of a word, `i8` where there is none.
fn type_at(word: Option<&[u8]>) -> Ty
    ensures { result ≡ said type_named Ty.I8 (option_copied word.entry) }
{
    match word {
        Some(word) => type_named(word).unwrap_or(Ty::I8),
        None => Ty::I8,
    }
}

// The numbers that a line's words stand for, or None where a word is no number.
fn numbers_in(alloc: Global, line: &[u8]) -> Result<Option<Numbers>, AllocError>
    ensures { IfOk result (λ found. MatchOption found
        (list_any (λ word. not (is_number word)) (words line.now) ≡ true)
        (λ numbers. (list_any (λ word. not (is_number word)) (words line.now) ≡ false)
        × (numbers ≡ filter_map number_of (words line.now)))) }
{
    let mut numbers = Vec::new(alloc);
    let mut rest = line;
    while let (Some(word), after) = first_word(rest) {
        let Some(number) = parse_number(word) else {
            return Ok(None);
        };
        numbers.push(number)?;
        rest = after;
    }
    Ok(Some(Numbers::new(alloc, numbers)?))
}

// The draft of a call by the words of its fields.
fn call_draft_in(
    alloc: Global,
    kind: Kind,
    mode: Mode,
    call: &CallSyntax<'_>,
    ops: &Ops,
) -> Result<Draft, LineError>
    ensures accepted { OnOk result (fields_refusal kind call.now ≡ None) }
    ensures draft { IfOk result (λ draft. draft ≡ call_draft_in (⟦<Ops as Listing>⟧.operations ops.now) kind mode call.now) }
    ensures refused { IfErr result (IsLineRefusal (fields_refusal kind call.now)) }
{
    let Some(root) = number_at(call.root) else {
        return Err(LineError::Fault(ScriptFault::BadNumber));
    };
    let Some(items) = numbers_in(alloc, call.items)? else {
        return Err(LineError::Fault(ScriptFault::BadNumber));
    };
    let counts = match counts_in(alloc, kind.fields(), call) {
        Ok(counts) => counts,
        Err(e) => return Err(e),
    };
    Ok(plain_draft(kind, mode, call, root, counts, items, ops))
}

// The draft with these parts, which says nothing of a new communicator.
fn plain_draft(
    kind: Kind,
    mode: Mode,
    call: &CallSyntax<'_>,
    root: i128,
    counts: (Numbers, Numbers),
    items: Numbers,
    ops: &Ops,
) -> Draft
    ensures { result ≡ record (empty_draft (call_with mode kind)) {
      root = root;
      op = said (operation_named (⟦<Ops as Listing>⟧.operations ops.now)) Op.Sum call.now.operation;
      ty = said type_named Ty.I8 call.now.ty;
      scounts = counts.0;
      rcounts = counts.1;
      items = items;
    } }
{
    Draft {
        root,
        op: operation_at(call.operation, ops),
        ty: type_at(call.ty),
        scounts: counts.0,
        rcounts: counts.1,
        items,
        ..Draft::of(call_with(mode, kind))
    }
}

/// The draft of a call by its words.
#[tactic(auto, using(crate::proofs::Accepted::refusal_of_colour, crate::proofs::Accepted::refusal_of_key, crate::proofs::Accepted::refusal_of_fields))]
pub fn draft_in(
    alloc: Global,
    kind: Kind,
    mode: Mode,
    new: &NewSyntax<'_>,
    call: &CallSyntax<'_>,
    ops: &Ops,
) -> Result<Draft, LineError>
    ensures accepted { OnOk result (draft_refusal kind new.now call.now ≡ None) }
    ensures draft { IfOk result (λ draft. draft ≡ draft_in (⟦<Ops as Listing>⟧.operations ops.now) kind mode new.now call.now) }
    ensures refused { IfErr result (IsLineRefusal (draft_refusal kind new.now call.now)) }
{
    let Some(colour) = colour_at(new.colour) else {
        return Err(LineError::Fault(ScriptFault::BadNumber));
    };
    let Some(key) = number_at(new.key) else {
        return Err(LineError::Fault(ScriptFault::BadNumber));
    };
    let draft = match call_draft_in(alloc, kind, mode, call, ops) {
        Ok(draft) => draft,
        Err(e) => return Err(e),
    };
    match new_parts(alloc, new) {
        Ok(parts) => Ok(Draft {
            colour,
            key,
            group: parts.group,
            graph: parts.graph,
            ..draft
        }),
        Err(e) => {
            drop(draft);
            Err(e)
        }
    }
}

// What a call says of a new communicator in lists.
#[derive(Drop)]
struct NewParts {
    group: Numbers,
    graph: Option<DraftedGraph>,
}

// The ranks and the graph that the words of a call say.
#[tactic(auto, using(crate::proofs::Accepted::refusal_of_ranks, crate::proofs::Accepted::refusal_of_graph, crate::proofs::Accepted::new_accepted))]
fn new_parts(alloc: Global, new: &NewSyntax<'_>) -> Result<NewParts, LineError>
    ensures accepted { OnOk result (new_refusal new.now ≡ None) }
    ensures group { IfOk result (λ parts. read_at list_named [] new.now.ranks ≡ Some parts.group) }
    ensures graph { IfOk result (λ parts. graph_in new.now ≡ Some parts.graph) }
    ensures refused { IfErr result (IsLineRefusal (new_refusal new.now)) }
{
    let Some(group) = list_at(alloc, new.ranks)? else {
        return Err(LineError::Fault(ScriptFault::BadList));
    };
    let Some(graph) = graph_in(alloc, new)? else {
        return Err(LineError::Fault(ScriptFault::BadList));
    };
    Ok(NewParts { group, graph })
}
