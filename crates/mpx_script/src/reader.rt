//! The script that a whole text says, or the first line that is refused.
ghost use Rattle.std.specs.Prelude.{◌≡◌, ◌+◌, ◌++◌, ◌∷◌, [], ◌<◌, ◌≤◌, ◌==◌, ◌&&◌, if◌then◌else◌, not, true, List, ℕ, length, slice_index_or, take, false, None, IfOk, OnOk, IfErr, IfSome, IsSomeAnd, Some, ◌-◌, map};
ghost use Rattle.std.specs.List.{filter, range_with_len};
ghost use Rattle.std.specs.Str.Lines.{lines};
ghost use Rattle.mpx_script.specs.Words.{bytes_limit, words, counts, counting, is_ascii, is_over_limit, with_first_line};
ghost use Rattle.mpx_script.specs.Reading.{refusal, is_bare_script, reading};
ghost use Rattle.mpx_script.specs.Sentences.{IsLineRefusal};
ghost use Rattle.mpx_script.specs.PartialScripts.{IsSettled, context_behind};
ghost use Rattle.mpx_script.specs.ScriptView.{Adds};
ghost use Rattle.mpx_script.specs.Answer.{AnswersReading, at_line};

use crate::faults::{LineError, ReadScriptError, ScriptError, ScriptFault};
use crate::script::Script;
use crate::script_line::{Assignment, STATEMENTS, Sentence, read_line};
use crate::words::{counts, first_line, is_ascii};
use mpx_num::{Listing, Ops};
use std::alloc::Global;

/// How many bytes a script may have.
const BYTES: usize = 1_048_576;

/// The script as far as it is read.
#[derive(Drop)]
struct PartialScript {
    /// None before the number of ranks is told.
    script: Option<Script>,
    statements: u32,
}

/// The script with one more line.
fn with_line(
    alloc: Global,
    partial: PartialScript,
    line: &[u8],
    cut: bool,
    ops: &Ops,
) -> Result<PartialScript, LineError>
    requires { partial.statements ≤ STATEMENTS }
    ensures few { IfOk result (λ after. after.statements ≤ STATEMENTS) }
    ensures accepted { OnOk result (refusal (⟦<Ops as Listing>⟧.operations ops.now) (context_behind line.now cut partial.script partial.statements) ≡ None) }
    ensures settled { IfOk result (λ after. (before : List (List (List ℕ))) → IsSettled (⟦<Ops as Listing>⟧.operations ops.now) before partial
        → IsSettled (⟦<Ops as Listing>⟧.operations ops.now) (before ++ filter counts (words line.now ∷ [])) after) }
    ensures refused { IfErr result (IsLineRefusal (refusal (⟦<Ops as Listing>⟧.operations ops.now) (context_behind line.now cut partial.script partial.statements))) }
{
    let sentence = match read_line(
        alloc,
        line,
        cut,
        partial.script.as_ref(),
        partial.statements,
        ops,
    ) {
        Ok(sentence) => sentence,
        Err(e) => {
            drop(partial);
            return Err(e);
        }
    };
    match sentence {
        Sentence::Passed => Ok(partial),
        Sentence::Opening(ranks) => opened(alloc, partial, ranks),
        Sentence::Further(assignment) => {
            let PartialScript { script, statements } = partial;
            let Some(script) = script else {
                unreachable!();
            };
            with_statements(alloc, script, statements, assignment)
        }
    }
}

/// The script of so many ranks, of which no line is read yet behind the one that tells them.
fn opened(alloc: Global, partial: PartialScript, ranks: u8) -> Result<PartialScript, LineError>
    requires some { 1 ≤ ranks }
    requires few { ranks ≤ 64 }
    ensures opened { IfOk result (λ after. after ≡ record {
      script = Some (record { ranks = ranks; statements = map (λ rank. []) (range_with_len 0 ranks) });
      statements = partial.statements;
    }) }
    ensures memory { IfErr result (λ e. e ≡ LineError.OutOfMemory) }
{
    let statements = partial.statements;
    drop(partial);
    let script = Script::new(alloc, ranks)?;
    Ok(PartialScript {
        script: Some(script),
        statements,
    })
}

/// The script with the statements of a further line.
fn with_statements(
    alloc: Global,
    mut script: Script,
    statements: u32,
    assignment: Assignment,
) -> Result<PartialScript, LineError>
    requires some { assignment.from < assignment.to }
    requires within { assignment.to ≤ script.ranks }
    requires few { statements + (assignment.to - assignment.from) ≤ STATEMENTS }
    ensures few { IfOk result (λ after. after.statements ≤ STATEMENTS) }
    ensures added { IfOk result (λ after. (after.statements ≡ statements + (assignment.to - assignment.from))
        × IsSomeAnd after.script (λ added. (added.ranks ≡ script.ranks)
        × Adds assignment.from assignment.to assignment.statement script.statements added.statements)) }
    ensures memory { IfErr result (λ e. e ≡ LineError.OutOfMemory) }
{
    let statements = statements + u32::from(assignment.to - assignment.from);
    match script.add(alloc, assignment) {
        Ok(()) => Ok(PartialScript {
            script: Some(script),
            statements,
        }),
        Err(e) => {
            drop(script);
            Err(LineError::from(e))
        }
    }
}

/// The text up to the byte that passes the limit.
pub(crate) fn seen_part(text: &[u8]) -> &[u8]
    ensures { result.now ≡ take (bytes_limit + 1) text.now }
{
    if text.len() > BYTES {
        text.split_at(BYTES + 1).0
    } else {
        text
    }
}

/// Whether a line of the text counts.
fn has_counting_line(text: &[u8]) -> bool
    ensures { result ≡ not (length (counting (lines text.now)) == 0) }
{
    let mut rest = text;
    while !rest.is_empty() {
        let (line, after) = first_line(rest);
        if counts(line) {
            return true;
        }
        rest = after;
    }
    false
}

/// Whether the script is within its limit and no line of it counts.
fn is_bare(text: &[u8]) -> bool
    ensures { result ≡ is_bare_script text.now }
{
    if text.len() > BYTES {
        return false;
    }
    !has_counting_line(text)
}

/// Why such a script is refused, at its first line.
#[tactic(auto, unfolding(crate::specs::Words::is_ascii))]
fn bare_fault(text: &[u8]) -> ScriptFault
    ensures { result ≡ (if is_ascii (slice_index_or (with_first_line (lines text.now)) 0 [])
        then ScriptFault.NoRanksLine else ScriptFault.NotAscii) }
{
    if text.is_empty() {
        return ScriptFault::NoRanksLine;
    }
    if !is_ascii(first_line(text).0) {
        return ScriptFault::NotAscii;
    }
    ScriptFault::NoRanksLine
}

/// Whether the text passes its limit in the line before the rest that is still to be read.
fn passes_limit(text: &[u8], rest: &[u8]) -> bool
    ensures { result ≡ (is_over_limit text.now && (length rest.now == 0)) }
{
    text.len() > BYTES && rest.is_empty()
}

/// The error of a line as that of the script.
fn at_line(e: LineError, line: u32) -> ReadScriptError
    ensures { result ≡ at_line line e }
{
    match e {
        LineError::Fault(what) => ReadScriptError::Refused(ScriptError { line, what }),
        LineError::OutOfMemory => ReadScriptError::OutOfMemory,
    }
}

/// Reads the lines one after the other.
fn read_lines(alloc: Global, text: &[u8], ops: &Ops) -> Result<Script, ReadScriptError>
    requires { is_bare_script text.now ≡ false }
    ensures { AnswersReading result (reading (⟦<Ops as Listing>⟧.operations ops.now) text.now) }
{
    let mut partial = PartialScript {
        script: None,
        statements: 0,
    };
    let mut number: u32 = 0;
    let mut rest = seen_part(text);
    while !rest.is_empty() {
        let (line, after) = first_line(rest);
        let cut = passes_limit(text, after);
        number += 1;
        partial = match with_line(alloc, partial, line, cut, ops) {
            Ok(partial) => partial,
            Err(e) => return Err(at_line(e, number)),
        };
        rest = after;
    }
    let PartialScript { script, .. } = partial;
    match script {
        Some(script) => Ok(script),
        None => unreachable!(),
    }
}

/// Reads a script: at most 1,048,576 bytes of ASCII, line by line. Empty lines and lines whose first word begins with
/// `#` are passed over; the first other line is `ranks N`, and each further line `R: STATEMENT`, or `*: STATEMENT` for
/// every rank. A statement is one of these, see `specs/Grammar.antt` and `specs/Syntax.antt`:
///
/// - `KIND C ROOT OPERATION TYPE SCOUNTS RCOUNTS ITEMS` without the words that calls of its kind don't have; with `i` before
///   the kind and `-> Q` at the end it is nonblocking (MPI 4.1 section 6.12);
/// - one that makes a communicator (sections 7.4.2 and 8.5.4), where the list `L` has ranks of `C`: `dup C -> D`,
///   `split C COLOUR KEY -> D` with a number or `undefined` for the colour, `create C L -> D`, `create_group C TAG L -> D`,
///   `dist_graph C EDGES -> D` with edges `S>D` or `S>D:W`, or `dist_graph_adjacent C SOURCES DESTINATIONS -> D` with
///   neighbours `R` or `R:W`;
/// - `wait Q`, or `waitall Q ..` for one request or more (sections 3.7.3 and 3.7.5);
/// - one that is answered at once: the rank's own neighbours in `C` on one side (section 8.5.5), `sources C` or
///   `destinations C`; `compare C C` (section 7.4.1); or `translate C C L` (section 7.3.1), where `L` may hold `null`.
///
/// `OPERATION` is the word of a predefined operation or of one of the job's own. `C` is `world` or a name that an earlier
/// statement of the rank binds to a communicator, as `-> D` does, `Q` one that it binds to a request; a new name is bound to
/// neither (see `specs/Naming.antt`). A name is a small letter, then small letters, digits or `_`, at most 32 bytes.
///
/// The refusal is that of the least line that has one, and the first of [`ScriptFault`] that holds of it.
pub fn read_script(alloc: Global, text: &[u8], ops: &Ops) -> Result<Script, ReadScriptError>
    ensures { AnswersReading result (reading (⟦<Ops as Listing>⟧.operations ops.now) text.now) }
{
    if is_bare(text) {
        let what = bare_fault(text);
        return Err(ReadScriptError::Refused(ScriptError { line: 1, what }));
    }
    read_lines(alloc, text, ops)
}
