//! What one line of a script says, or why it is refused.
ghost use Rattle.std.specs.Prelude.{◌≡◌, ◌+◌, ◌-◌, ◌<◌, ◌≤◌, [], map, true, false, is_none, None, Some, IfOk, OnOk, IfErr, unwrap_or};
ghost use Rattle.std.specs.Option.{option_copied};
ghost use Rattle.mpx_script.specs.PartialScripts.{context_behind, ranks_of_script};
ghost use Rattle.mpx_script.specs.Words.{words, counts, is_ascii};
ghost use Rattle.mpx_script.specs.Fields.{ranks_named};
ghost use Rattle.mpx_script.specs.Syntax.{directive_in, label_in, opening_ranks};
ghost use Rattle.mpx_script.specs.Places.{said};
ghost use Rattle.mpx_script.specs.laws.Parts.{ask_in, parted_statement, posting_said, question_said};
ghost use Rattle.mpx_script.specs.Meanings.{statement_in};
ghost use Rattle.mpx_script.specs.Naming.{names_bound};
ghost use Rattle.mpx_script.specs.Reading.{refusal, plain_context};
ghost use Rattle.mpx_script.specs.Sentences.{IsAssignment, Says, IsLineRefusal, form_refusal, read_at, statement_refusal, call_refusal, names_refusal};
ghost use Rattle.std.specs.List.{range_with_len};

use crate::faults::{LineError, ScriptFault};
use crate::fields::ranks_named;
use crate::grammar::{
    Form, QuestionForm, Waited, ends_with_name, rank_count, ranks_number, shape_of,
};
use crate::naming::names_fault;
use crate::postings::{posting_in, word_at};
use crate::script::Script;
use crate::syntax::{
    AskSyntax, CallSyntax, DirectiveSyntax, NewSyntax, ask_in, call_in, directive_in, lacks,
    new_in, ranks_labelled,
};
use crate::words::{counts, first_word, is_ascii};
use join_core::OutOfMemory;
use mpx_kind::{Kind, Mode};
use mpx_num::{Listing, Ops};
use mpx_statement::{Posting, Question, RankList, Statement, Word, WordList};
use std::alloc::{AllocError, Global};

/// How many statements a script may have.
pub const STATEMENTS: u32 = 65_536;

/// A statement, and the ranks that make it: those from the one on and below the other.
#[derive(Drop)]
pub struct Assignment {
    pub from: u8,
    pub to: u8,
    pub statement: Statement,
}

/// What a line says.
#[derive(Drop)]
pub enum Sentence {
    /// Nothing: it is empty or a comment.
    Passed,
    /// How many ranks there are.
    Opening(u8),
    Further(Assignment),
}

// The number of ranks on the first line that counts, in which no operation stands.
fn opening_line(line: &[u8]) -> Result<u8, LineError>
    requires ascii { is_ascii line.now ≡ true }
    requires counts { counts (words line.now) ≡ true }
    ensures accepted { OnOk result (refusal [] (plain_context line.now None 0 []) ≡ None) }
    ensures ranks { IfOk result (λ n. (opening_ranks (words line.now) ≡ Some n) × (1 ≤ n) × (n ≤ 64)) }
    ensures refused { IfErr result (IsLineRefusal (refusal [] (plain_context line.now None 0 []))) }
{
    let Some(number) = ranks_number(line) else {
        return Err(LineError::Fault(ScriptFault::NoRanksLine));
    };
    let Some(ranks) = rank_count(number) else {
        return Err(LineError::Fault(ScriptFault::RanksOutOfRange));
    };
    Ok(ranks)
}

// What a statement of a kind posts, by its words.
fn call_of(
    alloc: Global,
    kind: Kind,
    mode: Mode,
    communicator: Option<&[u8]>,
    new: &NewSyntax<'_>,
    call: &CallSyntax<'_>,
    ops: &Ops,
) -> Result<Posting, LineError>
    ensures accepted { OnOk result (call_refusal (⟦<Ops as Listing>⟧.operations ops.now) kind mode (option_copied communicator.entry) new.now call.now ≡ None) }
    ensures posting { IfOk result (λ posting. posting ≡ posting_said (⟦<Ops as Listing>⟧.operations ops.now) kind mode (option_copied communicator.entry) new.now call.now) }
    ensures refused { IfErr result (IsLineRefusal (call_refusal (⟦<Ops as Listing>⟧.operations ops.now) kind mode (option_copied communicator.entry) new.now call.now)) }
{
    if call.has_unknown_word(ops) {
        return Err(LineError::Fault(ScriptFault::UnknownStatement));
    }
    if lacks(true, communicator)
        || call.has_wrong_count(kind.fields())
        || call.has_wrong_end(ends_with_name(kind, mode))
    {
        return Err(LineError::Fault(ScriptFault::WrongWords));
    }
    posting_in(alloc, kind, mode, communicator, new, call, ops)
}

// The words of a line.
fn words_in(alloc: Global, line: &[u8]) -> Result<WordList, OutOfMemory>
    ensures { IfOk result (λ found. found ≡ words line.now) }
{
    let mut found = Vec::new(alloc);
    let mut rest = line;
    while let (Some(word), after) = first_word(rest) {
        found.push(Word::new(alloc, word)?)?;
        rest = after;
    }
    Ok(WordList::new(found))
}

// The requests of a wait by the line behind its word, in which no operation stands.
fn requests_in(alloc: Global, waited: Waited, line: &[u8]) -> Result<WordList, LineError>
    ensures accepted { OnOk result (form_refusal [] (Form.Wait waited) (words line.now) ≡ None) }
    ensures requests { IfOk result (λ requests. requests ≡ words line.now) }
    ensures refused { IfErr result (IsLineRefusal (form_refusal [] (Form.Wait waited) (words line.now))) }
{
    let requests = words_in(alloc, line)?;
    let len = requests.as_slice().len();
    match waited {
        Waited::One if len == 1 => Ok(requests),
        Waited::All if len > 0 => Ok(requests),
        _ => Err(LineError::Fault(ScriptFault::WrongWords)),
    }
}

// The ranks of a list, none where there is no word, or None where the word is no list.
fn ranks_at(alloc: Global, word: Option<&[u8]>) -> Result<Option<RankList>, AllocError>
    ensures { IfOk result (λ found. found ≡ read_at ranks_named [] (option_copied word.entry)) }
{
    match word {
        Some(word) => ranks_named(alloc, word),
        None => Ok(Some(RankList::new(Vec::new(alloc)))),
    }
}

// The question of these words and ranks.
fn question_of(
    alloc: Global,
    asked: QuestionForm,
    ask: &AskSyntax<'_>,
    ranks: RankList,
) -> Result<Question, OutOfMemory>
    ensures { IfOk result (λ question. ranks ≡ said ranks_named [] ask.now.ranks → question ≡ question_said asked ask.now) }
{
    let first = word_at(alloc, ask.first)?;
    let second = word_at(alloc, ask.second)?;
    Ok(match asked {
        QuestionForm::Neighbours(side) => Question::Neighbours { on: first, side },
        QuestionForm::Compare => Question::Compare { first, second },
        QuestionForm::Translate => Question::Translate {
            from: first,
            to: second,
            ranks,
        },
    })
}

// What a statement asks by the line behind its word, in which no operation stands.
fn question_in(alloc: Global, asked: QuestionForm, line: &[u8]) -> Result<Question, LineError>
    ensures accepted { OnOk result (form_refusal [] (Form.Ask asked) (words line.now) ≡ None) }
    ensures question { IfOk result (λ question. question ≡ question_said asked (ask_in asked (words line.now))) }
    ensures refused { IfErr result (IsLineRefusal (form_refusal [] (Form.Ask asked) (words line.now))) }
{
    let ask = ask_in(asked, line);
    if ask.has_wrong_words(asked) {
        return Err(LineError::Fault(ScriptFault::WrongWords));
    }
    let Some(ranks) = ranks_at(alloc, ask.ranks)? else {
        return Err(LineError::Fault(ScriptFault::BadList));
    };
    Ok(question_of(alloc, asked, &ask, ranks)?)
}

// The statement of a call by the line behind its word.
fn call_in_line(
    alloc: Global,
    kind: Kind,
    mode: Mode,
    line: &[u8],
    ops: &Ops,
) -> Result<Statement, LineError>
    ensures accepted { OnOk result (form_refusal (⟦<Ops as Listing>⟧.operations ops.now) (Form.Call kind mode) (words line.now) ≡ None) }
    ensures statement { IfOk result (λ statement. statement ≡ parted_statement (⟦<Ops as Listing>⟧.operations ops.now) (Form.Call kind mode) (words line.now)) }
    ensures refused { IfErr result (IsLineRefusal (form_refusal (⟦<Ops as Listing>⟧.operations ops.now) (Form.Call kind mode) (words line.now))) }
{
    let (communicator, rest) = first_word(line);
    let new = new_in(shape_of(kind), rest);
    let call = call_in(kind.fields(), ends_with_name(kind, mode), new.behind);
    let posting = call_of(alloc, kind, mode, communicator, &new, &call, ops)?;
    Ok(Statement::Post(posting))
}

// The statement of a form by the line behind its word.
fn statement_as(alloc: Global, form: Form, line: &[u8], ops: &Ops) -> Result<Statement, LineError>
    ensures accepted { OnOk result (form_refusal (⟦<Ops as Listing>⟧.operations ops.now) form (words line.now) ≡ None) }
    ensures statement { IfOk result (λ statement. statement ≡ parted_statement (⟦<Ops as Listing>⟧.operations ops.now) form (words line.now)) }
    ensures refused { IfErr result (IsLineRefusal (form_refusal (⟦<Ops as Listing>⟧.operations ops.now) form (words line.now))) }
{
    match form {
        Form::Call(kind, mode) => call_in_line(alloc, kind, mode, line, ops),
        Form::Wait(waited) => Ok(Statement::Wait(requests_in(alloc, waited, line)?)),
        Form::Ask(asked) => Ok(Statement::Ask(question_in(alloc, asked, line)?)),
    }
}

// The statement behind a label.
#[tactic(auto, using(crate::proofs::Refusals::refusal_of_form, crate::proofs::Refusals::refusal_of_no_word))]
fn statement_in(
    alloc: Global,
    directive: &DirectiveSyntax<'_>,
    ops: &Ops,
) -> Result<Statement, LineError>
    requires { is_none (label_in directive.now) ≡ false }
    ensures accepted { OnOk result (statement_refusal (⟦<Ops as Listing>⟧.operations ops.now) directive.now ≡ None) }
    ensures statement { IfOk result (λ statement. statement_in (⟦<Ops as Listing>⟧.operations ops.now) directive.now ≡ Some statement) }
    ensures refused { IfErr result (IsLineRefusal (statement_refusal (⟦<Ops as Listing>⟧.operations ops.now) directive.now)) }
{
    let Some(form) = directive.form() else {
        return Err(LineError::Fault(ScriptFault::UnknownStatement));
    };
    statement_as(alloc, form, directive.behind, ops)
}

// The statement of a further line.
#[tactic(auto, using(crate::proofs::Refusals::refusal_of_many, crate::proofs::Refusals::count_of_statement), unfolding(crate::specs::Meanings::names_rank))]
fn further_line(
    alloc: Global,
    line: &[u8],
    script: &Script,
    statements: u32,
    ops: &Ops,
) -> Result<Assignment, LineError>
    requires ascii { is_ascii line.now ≡ true }
    requires counts { counts (words line.now) ≡ true }
    requires statements { statements ≤ STATEMENTS }
    ensures accepted { OnOk result (refusal (⟦<Ops as Listing>⟧.operations ops.now) (plain_context line.now (Some script.now.ranks) statements (map names_bound script.now.statements)) ≡ None) }
    ensures assignment { IfOk result (IsAssignment (⟦<Ops as Listing>⟧.operations ops.now) script.now.ranks (directive_in (words line.now))) }
    ensures few { IfOk result (λ assignment. statements + (assignment.to - assignment.from) ≤ STATEMENTS) }
    ensures refused { IfErr result (IsLineRefusal (refusal (⟦<Ops as Listing>⟧.operations ops.now) (plain_context line.now (Some script.now.ranks) statements (map names_bound script.now.statements)))) }
{
    let ranks = script.ranks();
    let directive = directive_in(line);
    if statements + u32::from(directive.statements(ranks)) > STATEMENTS {
        return Err(LineError::Fault(ScriptFault::TooLarge));
    }
    let (from, to) = match ranks_labelled(directive.label(), ranks) {
        Ok(named) => named,
        Err(e) => return Err(e),
    };
    let statement = match statement_in(alloc, &directive, ops) {
        Ok(statement) => statement,
        Err(e) => return Err(e),
    };
    assigned(script, from, to, statement)
}

// The statement for these ranks, unless it is refused for its names.
fn assigned(
    script: &Script,
    from: u8,
    to: u8,
    statement: Statement,
) -> Result<Assignment, LineError>
    ensures accepted { OnOk result (names_refusal (map names_bound script.now.statements) (range_with_len from (to - from)) statement ≡ None) }
    ensures assignment { IfOk result (λ assignment. assignment ≡ record { from = from; to = to; statement = statement }) }
    ensures refused { IfErr result (IsLineRefusal (names_refusal (map names_bound script.now.statements) (range_with_len from (to - from)) statement)) }
{
    match names_fault(script, from, to, &statement) {
        Some(what) => {
            drop(statement);
            Err(LineError::Fault(what))
        }
        None => Ok(Assignment {
            from,
            to,
            statement,
        }),
    }
}

/// What a line says, or why it is refused. With `cut` the script passes its limit of bytes in the line. `script` is what
/// the lines before say, once one has told the number of ranks, and `statements` how many statements there are so far.
pub fn read_line(
    alloc: Global,
    line: &[u8],
    cut: bool,
    script: Option<&Script>,
    statements: u32,
    ops: &Ops,
) -> Result<Sentence, LineError>
    requires { statements ≤ STATEMENTS }
    ensures accepted { OnOk result (refusal (⟦<Ops as Listing>⟧.operations ops.now) (context_behind line.now cut (option_copied script.entry) statements) ≡ None) }
    ensures says { IfOk result (Says (⟦<Ops as Listing>⟧.operations ops.now) (ranks_of_script (option_copied script.entry)) statements (words line.now)) }
    ensures refused { IfErr result (IsLineRefusal (refusal (⟦<Ops as Listing>⟧.operations ops.now) (context_behind line.now cut (option_copied script.entry) statements))) }
{
    if !is_ascii(line) {
        return Err(LineError::Fault(ScriptFault::NotAscii));
    }
    if cut {
        return Err(LineError::Fault(ScriptFault::TooLarge));
    }
    if !counts(line) {
        return Ok(Sentence::Passed);
    }
    match script {
        None => Ok(Sentence::Opening(opening_line(line)?)),
        Some(script) => Ok(Sentence::Further(further_line(alloc, line, script, statements, ops)?)),
    }
}
