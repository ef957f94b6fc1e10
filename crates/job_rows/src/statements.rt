//! Scripts that are read, as text: a line for each statement, with all that it says.
use crate::lines::ended;
use mpx_num::Ops;
use mpx_post::{Draft, DraftedGraph, DraftedNeighbour};
use mpx_script::{Posting, Question, ReadScriptError, Script, Statement, Word, read_script};
use std::alloc::Global;
use std::io::{self, Write};

fn push_neighbours(text: &mut Vec<u8>, neighbours: &[DraftedNeighbour]) -> io::Result<()> {
    for near in neighbours {
        write!(text, " {}:{}", near.rank, near.weight)?;
    }
    Ok(())
}

fn push_graph(text: &mut Vec<u8>, graph: &DraftedGraph) -> io::Result<()> {
    write!(text, " graph {} edges", graph.weighted())?;
    for edge in graph.edges() {
        write!(
            text,
            " {}>{}:{}",
            edge.source, edge.destination, edge.weight
        )?;
    }
    text.extend_from_slice(b" sources")?;
    push_neighbours(text, graph.sources())?;
    text.extend_from_slice(b" destinations")?;
    push_neighbours(text, graph.destinations())
}

fn push_draft(text: &mut Vec<u8>, draft: &Draft) -> io::Result<()> {
    write!(
        text,
        ": {:?} {:?} {:?} root {} send {:?} receive {:?} items {:?} colour {:?} key {} group {:?}",
        draft.call,
        draft.op,
        draft.ty,
        draft.root,
        draft.scounts.as_slice(),
        draft.rcounts.as_slice(),
        draft.items.as_slice(),
        draft.colour,
        draft.key,
        draft.group.as_slice(),
    )?;
    match &draft.graph {
        Some(graph) => push_graph(text, graph),
        None => Ok(()),
    }
}

// The word, after another.
fn push_word(text: &mut Vec<u8>, before: &str, word: &Word) -> io::Result<()> {
    text.extend_from_slice(before.as_bytes())?;
    text.push(b' ')?;
    text.extend_from_slice(word.as_bytes())?;
    Ok(())
}

fn push_posting(text: &mut Vec<u8>, posting: &Posting) -> io::Result<()> {
    match posting {
        Posting::Call { on, .. } => push_word(text, "call", on),
        Posting::Start { on, .. } => push_word(text, "start", on),
        Posting::New { on, .. } => push_word(text, "new", on),
        Posting::CreateGroup { on, tag, ranks, .. } => {
            write!(text, "gather {tag} {:?}", ranks.as_slice())?;
            push_word(text, "", on)
        }
    }
}

fn push_question(text: &mut Vec<u8>, question: &Question) -> io::Result<()> {
    match question {
        Question::Neighbours { on, side } => {
            write!(text, "neighbours {side:?}")?;
            push_word(text, "", on)
        }
        Question::Compare { first, second } => {
            push_word(text, "compare", first)?;
            push_word(text, "", second)
        }
        Question::Translate { from, to, ranks } => {
            push_word(text, "translate", from)?;
            push_word(text, "", to)?;
            write!(text, " {:?}", ranks.as_slice())
        }
    }
}

// What the statement is, without what it binds and drafts.
fn push_sort(text: &mut Vec<u8>, statement: &Statement) -> io::Result<()> {
    match statement {
        Statement::Post(posting) => push_posting(text, posting),
        Statement::Ask(question) => push_question(text, question),
        Statement::Wait(requests) => {
            text.extend_from_slice(b"wait")?;
            for word in requests.as_slice() {
                push_word(text, "", word)?;
            }
            Ok(())
        }
    }
}

// What the statement drafts.
fn push_drafted<E>(text: &mut Vec<u8>, draft: &Result<Option<Draft>, E>) -> io::Result<()> {
    match draft {
        Ok(Some(draft)) => push_draft(text, draft),
        Ok(None) => Ok(()),
        Err(_) => Ok(text.extend_from_slice(b" no memory")?),
    }
}

// All that the statement says: what it is, the names that it binds, and what it drafts.
fn push_statement(text: &mut Vec<u8>, statement: &Statement) -> io::Result<()> {
    push_sort(text, statement)?;
    if let Some(word) = statement.target() {
        push_word(text, " to", word)?;
    }
    if let Some(word) = statement.request() {
        push_word(text, " as", word)?;
    }
    let draft = statement.draft();
    let pushed = push_drafted(text, &draft);
    drop(draft);
    pushed
}

fn push_rank(text: &mut Vec<u8>, script: &Script, rank: u8) -> io::Result<()> {
    for statement in script.statements(rank) {
        write!(text, "{rank}: ")?;
        push_statement(text, statement)?;
        text.push(b'\n')?;
    }
    Ok(())
}

fn push_script(text: &mut Vec<u8>, script: &Script) -> io::Result<()> {
    writeln!(text, "{} ranks", script.ranks())?;
    for rank in 0..script.ranks() {
        push_rank(text, script, rank)?;
    }
    // no other rank has any statement
    push_rank(text, script, script.ranks())?;
    push_rank(text, script, 255)
}

fn push_sizes(text: &mut Vec<u8>, script: &Script) -> io::Result<()> {
    writeln!(
        text,
        "{} ranks, {} and {} statements",
        script.ranks(),
        script.statements(0).len(),
        script.statements(63).len(),
    )
}

fn push_last(text: &mut Vec<u8>, script: &Script) -> io::Result<()> {
    if let Some(statement) = script.statements(0).last() {
        push_statement(text, statement)?;
    }
    text.push(b'\n')?;
    Ok(())
}

/// What is told of a script that is read.
#[derive(Clone, Copy)]
pub enum Asked {
    /// `statements`: its ranks and their statements.
    Statements,
    /// `sizes`: how long it is, how many ranks it has and how many statements the first and the 64th of them have.
    Sizes,
    /// `last`: all that the last statement of the first rank says.
    Last,
}

fn push_asked(text: &mut Vec<u8>, script: &Script, asked: Asked) -> io::Result<()> {
    match asked {
        Asked::Statements => push_script(text, script),
        Asked::Sizes => push_sizes(text, script),
        Asked::Last => push_last(text, script),
    }
}

// That, or why the script is refused, as a row.
fn push_read(
    text: &mut Vec<u8>,
    length: usize,
    read: &Result<Script, ReadScriptError>,
    asked: Asked,
) -> io::Result<()> {
    if matches!(asked, Asked::Sizes) {
        write!(text, "{length} bytes, ")?;
    }
    match read {
        Ok(script) => push_asked(text, script, asked)?,
        Err(error) => writeln!(text, "{error}")?,
    }
    Ok(text.extend_from_slice(b"= 0\n")?)
}

/// Reads the script, and tells that of it, or why it is refused, as a row.
pub fn told_of(alloc: Global, script: &[u8], asked: Asked, ops: &Ops) -> io::Result<Vec<u8>> {
    let mut text = Vec::new(alloc);
    let read = read_script(alloc, script, ops);
    let pushed = push_read(&mut text, script.len(), &read, asked);
    drop(read);
    ended(text, pushed)
}
