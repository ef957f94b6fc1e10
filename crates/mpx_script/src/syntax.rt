//! The words of a further line by their places: its label, its statement, and what stands behind that.
ghost use Rattle.std.specs.Prelude.{◌≡◌, ◌==◌, ◌+◌, ◌-◌, ◌<◌, ◌≤◌, ℕ, ◌&&◌, ◌⊎◌, true, false, not, None, Some, IfOk, IfErr, nat_le, nat_lt, is_none, is_some, length};
ghost use Rattle.std.specs.Option.{option_copied};
ghost use Rattle.mpx_script.specs.Words.{words};
ghost use Rattle.mpx_script.specs.Syntax.{directive_in, form_in, label_in, ranks_meant, statements_in};
ghost use Rattle.mpx_script.specs.laws.Parts.{ask_in, call_in, has_unknown_word, has_wrong_count, has_wrong_end, has_wrong_question, lacks, new_in};
ghost use Rattle.mpx_script.specs.Fields.{is_arrow, operation_named, type_named};
ghost use Rattle.mpx_script.specs.Refusals.{fails, is_past};
ghost use Rattle.mpx_script.specs.Meanings.{is_meant};
ghost use Rattle.mpx_script.specs.Naming.{ranks_labelled};
ghost use Rattle.std.specs.List.{range_with_len};

use crate::faults::{LineError, ScriptFault};
use crate::fields::{is_arrow, operation_named, type_named};
use crate::grammar::{Form, Label, QuestionForm, Shape, below, form_named, label_of};
use crate::words::{first_word, last_word, next_word};
use mpx_kind::Fields;
use mpx_num::{Listing, Ops};
use std::marker::Model;

/// A further line as words: `LABEL STATEMENT`, and what stands behind them.
#[derive(Drop)]
pub struct DirectiveSyntax<'a> {
    pub label: Option<&'a [u8]>,
    pub statement: Option<&'a [u8]>,
    /// The line behind its second word.
    pub behind: &'a [u8],
}

impl<'a> Model for DirectiveSyntax<'a> {
    ghost use Rattle.std.specs.Option.{option_copied};
    ghost use Rattle.mpx_script.specs.Words.{words};
    ghost use Rattle.mpx_script.specs.Syntax.{DirectiveSyntax as DirectiveSyntaxView};

    ghost Value = { DirectiveSyntaxView };

    ghost view = { λ p. record {
      label = option_copied p.label;
      statement = option_copied p.statement;
      behind = words p.behind.now;
    } };
}

/// A line as the words of a further line.
pub fn directive_in(line: &[u8]) -> DirectiveSyntax<'_>
    ensures { result ≡ directive_in (words line.now) }
{
    let (label, rest) = first_word(line);
    let (statement, behind) = first_word(rest);
    DirectiveSyntax {
        label,
        statement,
        behind,
    }
}

impl DirectiveSyntax<'_> {
    pub fn label(&self) -> Option<Label>
        ensures { result ≡ label_in self.now }
    {
        match self.label {
            Some(word) => label_of(word),
            None => None,
        }
    }

    /// How many statements the line has in a script of so many ranks.
    #[tactic(auto, unfolding(crate::specs::Syntax::statements_in))]
    pub fn statements(&self, ranks: u8) -> u8
        ensures { result ≡ statements_in ranks self.now }
    {
        if self.statement.is_none() {
            return 0;
        }
        match self.label() {
            None => 0,
            Some(Label::Every) => ranks,
            Some(Label::Numbered(_)) => 1,
        }
    }

    /// What its statement's word stands for.
    pub fn form(&self) -> Option<Form>
        ensures { result ≡ form_in self.now }
    {
        match self.statement {
            Some(word) => form_named(word),
            None => None,
        }
    }
}

/// The words that say something of a new communicator: `COLOUR KEY TAG RANKS EDGES SOURCES DESTINATIONS`, where the kind has them.
#[derive(Drop)]
pub struct NewSyntax<'a> {
    pub colour: Option<&'a [u8]>,
    pub key: Option<&'a [u8]>,
    pub tag: Option<&'a [u8]>,
    pub ranks: Option<&'a [u8]>,
    pub edges: Option<&'a [u8]>,
    pub sources: Option<&'a [u8]>,
    pub destinations: Option<&'a [u8]>,
    /// The line behind these words.
    pub behind: &'a [u8],
}

impl<'a> Model for NewSyntax<'a> {
    ghost use Rattle.std.specs.Option.{option_copied};
    ghost use Rattle.mpx_script.specs.Words.{words};
    ghost use Rattle.mpx_script.specs.laws.Parts.{NewSyntax as NewSyntaxView};

    ghost Value = { NewSyntaxView };

    ghost view = { λ p. record {
      colour = option_copied p.colour;
      key = option_copied p.key;
      tag = option_copied p.tag;
      ranks = option_copied p.ranks;
      edges = option_copied p.edges;
      sources = option_copied p.sources;
      destinations = option_copied p.destinations;
      behind = words p.behind.now;
    } };
}

/// What stands behind the communicator as the words of a call of this shape.
#[tactic(auto, unfolding(crate::specs::laws::Parts::new_in))]
pub fn new_in(shape: Shape, line: &[u8]) -> NewSyntax<'_>
    ensures { result ≡ new_in shape (words line.now) }
{
    let (colour, rest) = next_word(shape.colour, line);
    let (key, rest) = next_word(shape.colour, rest);
    let (tag, rest) = next_word(shape.tag, rest);
    let (ranks, rest) = next_word(shape.ranks, rest);
    let (edges, rest) = next_word(shape.edges, rest);
    let (sources, rest) = next_word(shape.neighbours, rest);
    let (destinations, behind) = next_word(shape.neighbours, rest);
    NewSyntax {
        colour,
        key,
        tag,
        ranks,
        edges,
        sources,
        destinations,
        behind,
    }
}

/// The fields of a call as words: `ROOT OPERATION TYPE SCOUNTS RCOUNTS ITEMS`, where the kind has them, and `-> NAME`, where the
/// call makes a communicator or is nonblocking.
#[derive(Drop)]
pub struct CallSyntax<'a> {
    pub root: Option<&'a [u8]>,
    pub operation: Option<&'a [u8]>,
    pub ty: Option<&'a [u8]>,
    pub scounts: Option<&'a [u8]>,
    pub rcounts: Option<&'a [u8]>,
    /// The line behind these words, without those at its end.
    pub items: &'a [u8],
    pub arrow: Option<&'a [u8]>,
    pub name: Option<&'a [u8]>,
}

impl<'a> Model for CallSyntax<'a> {
    ghost use Rattle.std.specs.Option.{option_copied};
    ghost use Rattle.mpx_script.specs.Words.{words};
    ghost use Rattle.mpx_script.specs.laws.Parts.{CallSyntax as CallSyntaxView};

    ghost Value = { CallSyntaxView };

    ghost view = { λ p. record {
      root = option_copied p.root;
      operation = option_copied p.operation;
      ty = option_copied p.ty;
      scounts = option_copied p.scounts;
      rcounts = option_copied p.rcounts;
      items = words p.items.now;
      arrow = option_copied p.arrow;
      name = option_copied p.name;
    } };
}

/// What stands behind those words as the words of a call's fields.
#[tactic(auto, unfolding(crate::specs::laws::Parts::call_in))]
pub fn call_in(fields: Fields, named: bool, line: &[u8]) -> CallSyntax<'_>
    ensures { result ≡ call_in fields named (words line.now) }
{
    let (root, rest) = next_word(fields.root, line);
    let (operation, rest) = next_word(fields.op, rest);
    let (ty, rest) = next_word(fields.items, rest);
    let (scounts, rest) = next_word(fields.scounts.is_had(), rest);
    let (rcounts, rest) = next_word(fields.rcounts.is_had(), rest);
    let (name, rest) = last_word(named, rest);
    let (arrow, items) = last_word(named, rest);
    CallSyntax {
        root,
        operation,
        ty,
        scounts,
        rcounts,
        items,
        arrow,
        name,
    }
}

impl CallSyntax<'_> {
    /// Whether the operation or the type is another word.
    pub fn has_unknown_word(&self, ops: &Ops) -> bool
        ensures { result ≡ has_unknown_word (⟦<Ops as Listing>⟧.operations ops.now) self.now }
    {
        is_no_operation(self.operation, ops) || is_no_type(self.ty)
    }

    /// Whether words are missing, or there are more than the call has fields.
    pub fn has_wrong_count(&self, fields: Fields) -> bool
        ensures { result ≡ has_wrong_count fields self.now }
    {
        lacks(fields.root, self.root)
            || lacks(fields.op, self.operation)
            || lacks(fields.items, self.ty)
            || lacks(fields.scounts.is_had(), self.scounts)
            || lacks(fields.rcounts.is_had(), self.rcounts)
            || (!fields.items && has_words(self.items))
    }

    /// Whether the arrow before the name is missing, or another word stands there.
    pub fn has_wrong_end(&self, named: bool) -> bool
        ensures { result ≡ has_wrong_end named self.now }
    {
        lacks(named, self.arrow) || is_no_arrow(self.arrow)
    }
}

/// The words of a statement that asks: `COMMUNICATOR COMMUNICATOR RANKS`, where it has them.
#[derive(Drop)]
pub struct AskSyntax<'a> {
    pub first: Option<&'a [u8]>,
    pub second: Option<&'a [u8]>,
    pub ranks: Option<&'a [u8]>,
    /// The line behind these words.
    pub behind: &'a [u8],
}

impl<'a> Model for AskSyntax<'a> {
    ghost use Rattle.std.specs.Option.{option_copied};
    ghost use Rattle.mpx_script.specs.Words.{words};
    ghost use Rattle.mpx_script.specs.laws.Parts.{AskSyntax as AskSyntaxView};

    ghost Value = { AskSyntaxView };

    ghost view = { λ p. record {
      first = option_copied p.first;
      second = option_copied p.second;
      ranks = option_copied p.ranks;
      behind = words p.behind.now;
    } };
}

/// What stands behind a statement's word as the words of one that asks.
#[tactic(auto, unfolding(crate::specs::laws::Parts::ask_in))]
pub fn ask_in(asked: QuestionForm, line: &[u8]) -> AskSyntax<'_>
    ensures { result ≡ ask_in asked (words line.now) }
{
    let (first, rest) = first_word(line);
    let (second, rest) = next_word(asked.has_second(), rest);
    let (ranks, behind) = next_word(asked.has_ranks(), rest);
    AskSyntax {
        first,
        second,
        ranks,
        behind,
    }
}

impl AskSyntax<'_> {
    /// Whether a word is missing, or there are more.
    pub fn has_wrong_words(&self, asked: QuestionForm) -> bool
        ensures { result ≡ has_wrong_question asked self.now }
    {
        self.first.is_none()
            || lacks(asked.has_second(), self.second)
            || lacks(asked.has_ranks(), self.ranks)
            || has_words(self.behind)
    }
}

// Whether the word is there and is no `->`.
fn is_no_arrow(word: Option<&[u8]>) -> bool
    ensures { result ≡ fails is_arrow (option_copied word.entry) }
{
    match word {
        Some(word) => !is_arrow(word),
        None => false,
    }
}

// Whether the word is there and is no operation.
fn is_no_operation(word: Option<&[u8]>, ops: &Ops) -> bool
    ensures { result ≡ fails (λ word. is_some (operation_named (⟦<Ops as Listing>⟧.operations ops.now) word)) (option_copied word.entry) }
{
    match word {
        Some(word) => operation_named(word, ops).is_none(),
        None => false,
    }
}

// Whether the word is there and is no type.
fn is_no_type(word: Option<&[u8]>) -> bool
    ensures { result ≡ fails (λ word. is_some (type_named word)) (option_copied word.entry) }
{
    match word {
        Some(word) => type_named(word).is_none(),
        None => false,
    }
}

/// Whether a word is asked for and isn't there.
pub fn lacks(asked: bool, word: Option<&[u8]>) -> bool
    ensures { result ≡ lacks asked (option_copied word.entry) }
{
    asked && word.is_none()
}

/// Whether a word stands in the line.
pub fn has_words(line: &[u8]) -> bool
    ensures { result ≡ not (length (words line.now) == 0) }
{
    first_word(line).0.is_some()
}

/// The ranks that a label names: those from the first number on and below the second.
pub fn ranks_labelled(label: Option<Label>, ranks: u8) -> Result<(u8, u8), LineError>
    requires { 0 < ranks }
    ensures some { IfOk result (λ found. (found.0 < found.1) × (found.1 ≤ ranks)) }
    ensures count { IfOk result (λ found. ranks_meant ranks label ≡ found.1 - found.0) }
    ensures named { IfOk result (λ found. (rank : ℕ) → rank < ranks
        → is_meant rank label ≡ (nat_le found.0 rank && nat_lt rank found.1)) }
    ensures ranks { IfOk result (λ found. ranks_labelled ranks label ≡ range_with_len found.0 (found.1 - found.0)) }
    ensures ok { IfOk result (λ found. (is_past ranks label ≡ false) × (is_none label ≡ false)) }
    ensures err { IfErr result (λ e. ((e ≡ LineError.Fault ScriptFault.RankOutOfRange) × (is_past ranks label ≡ true))
        ⊎ ((e ≡ LineError.Fault ScriptFault.UnknownStatement) × (label ≡ None))) }
{
    match label {
        None => Err(LineError::Fault(ScriptFault::UnknownStatement)),
        Some(Label::Every) => Ok((0, ranks)),
        Some(Label::Numbered(number)) => match below(ranks, number) {
            Some(rank) => Ok((rank, rank + 1)),
            None => Err(LineError::Fault(ScriptFault::RankOutOfRange)),
        },
    }
}
