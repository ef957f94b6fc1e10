//! The words of scripts that another one was meant to be, perhaps.

use join_core::OutOfMemory;
use std::alloc::Global;

// The words of calls that have a nonblocking form, with `i` before them.
const BOTH: [&str; 20] = [
    "barrier",
    "bcast",
    "gather",
    "gatherv",
    "scatter",
    "scatterv",
    "allgather",
    "allgatherv",
    "alltoall",
    "alltoallv",
    "reduce",
    "allreduce",
    "scan",
    "exscan",
    "reduce_scatter_block",
    "reduce_scatter",
    "neighbor_allgather",
    "neighbor_allgatherv",
    "neighbor_alltoall",
    "neighbor_alltoallv",
];

// The other statements.
const STATEMENTS: [&str; 13] = [
    "dup",
    "split",
    "create",
    "create_group",
    "dist_graph",
    "dist_graph_adjacent",
    "wait",
    "waitall",
    "sources",
    "destinations",
    "compare",
    "translate",
    "free",
];

// MPI's names of calls that scripts call otherwise, without its prefixes and in small letters, and words of others.
const CALLS: [(&str, &str); 7] = [
    ("dist_graph_create", "dist_graph"),
    ("dist_graph_create_adjacent", "dist_graph_adjacent"),
    ("dist_graph_neighbors", "sources"),
    ("group_translate_ranks", "translate"),
    ("alltoallw", "alltoallv"),
    ("neighbor_alltoallw", "neighbor_alltoallv"),
    ("broadcast", "bcast"),
];

// Calls that scripts don't have, and why.
const POINT_TO_POINT: &str = "scripts have no calls from point to point";

const BY_TIME: &str = "scripts have no calls whose answers depend on time";

const OTHERS: [(&str, &str); 16] = [
    ("send", POINT_TO_POINT),
    ("bsend", POINT_TO_POINT),
    ("ssend", POINT_TO_POINT),
    ("rsend", POINT_TO_POINT),
    ("isend", POINT_TO_POINT),
    ("recv", POINT_TO_POINT),
    ("irecv", POINT_TO_POINT),
    ("sendrecv", POINT_TO_POINT),
    ("probe", POINT_TO_POINT),
    ("iprobe", BY_TIME),
    ("test", BY_TIME),
    ("testall", BY_TIME),
    ("testany", BY_TIME),
    ("testsome", BY_TIME),
    ("waitany", BY_TIME),
    ("waitsome", BY_TIME),
];

// Operations and types of scripts.
const VALUES: [&str; 21] = [
    "max", "min", "sum", "prod", "land", "lor", "lxor", "band", "bor", "bxor", "maxloc", "minloc",
    "i8", "i16", "i32", "i64", "u8", "u16", "u32", "u64", "2int",
];

// The types of programs, and those of scripts.
const TYPES: [(&str, &str); 27] = [
    ("int", "i32"),
    ("signed", "i32"),
    ("long", "i64"),
    ("long_long", "i64"),
    ("long_long_int", "i64"),
    ("short", "i16"),
    ("unsigned", "u32"),
    ("unsigned_char", "u8"),
    ("unsigned_short", "u16"),
    ("unsigned_long", "u64"),
    ("unsigned_long_long", "u64"),
    ("byte", "u8"),
    ("bool", "u8"),
    ("c_bool", "u8"),
    ("char", "i8"),
    ("signed_char", "i8"),
    ("size", "u64"),
    ("usize", "u64"),
    ("isize", "i64"),
    ("int8", "i8"),
    ("int16", "i16"),
    ("int32", "i32"),
    ("int64", "i64"),
    ("uint8", "u8"),
    ("uint16", "u16"),
    ("uint32", "u32"),
    ("uint64", "u64"),
];

// How types with a point begin.
const FLOATING: [&str; 8] = [
    "f1",
    "f3",
    "f6",
    "float",
    "double",
    "long_double",
    "real",
    "complex",
];

/// What a word was meant to be, perhaps, as a question or a sentence: the words that it is in small letters and without MPI's prefixes,
/// or from which one letter more, less or other, or two letters in another order, tell it apart; or that scripts have no such word. A
/// statement was meant by a word where one stands, and else an operation or a type.
pub(crate) fn meant(
    alloc: Global,
    word: &str,
    is_statement: bool,
) -> Result<Option<String>, OutOfMemory> {
    let mut told = String::new(alloc);
    push_meant(alloc, word, is_statement, &mut told)?;
    if told.is_empty() {
        return Ok(None);
    }
    Ok(Some(told))
}

fn push_meant(
    alloc: Global,
    word: &str,
    is_statement: bool,
    told: &mut String,
) -> Result<(), OutOfMemory> {
    let small = in_small_letters(alloc, word)?;
    let bare = without_prefix(small.as_str());
    match lacking(bare, is_statement) {
        Some(why) => Ok(told.push_str(why)?),
        None => push_known(word, bare, is_statement, told),
    }
}

/// Whether a word is an operation or a type of scripts.
pub(crate) fn is_value(word: &str) -> bool {
    VALUES.contains(&word)
}

/// Whether a word is a type of programs, which scripts call otherwise or don't have.
pub(crate) fn is_foreign_type(alloc: Global, word: &str) -> Result<bool, OutOfMemory> {
    let small = in_small_letters(alloc, word)?;
    let bare = without_prefix(small.as_str());
    Ok(is_floating(bare) || type_of(bare).is_some())
}

// Whether a word without prefixes is a type with a point.
fn is_floating(bare: &str) -> bool {
    FLOATING.iter().any(|start| bare.starts_with(*start))
}

// The type of scripts that a type of programs without prefixes is.
fn type_of(bare: &str) -> Option<&'static str> {
    another(&TYPES, bare.strip_suffix("_t").unwrap_or(bare))
}

// Why scripts have nothing that a word without prefixes could be.
fn lacking(bare: &str, is_statement: bool) -> Option<&'static str> {
    if is_statement {
        return another(&OTHERS, bare);
    }
    if is_floating(bare) {
        return Some("scripts have only whole numbers");
    }
    None
}

// Adds the known words that a word without prefixes is, or is near, as a question, unless they are the word itself.
fn push_known(
    word: &str,
    bare: &str,
    is_statement: bool,
    told: &mut String,
) -> Result<(), OutOfMemory> {
    if is_statement {
        push_statements(bare, told)?;
    } else {
        push_values(bare, told)?;
    }
    if told.as_str() == word {
        told.clear();
    }
    if !told.is_empty() {
        told.push_str("?")?;
    }
    Ok(())
}

// Adds the statements that a word is, or is near.
fn push_statements(bare: &str, told: &mut String) -> Result<(), OutOfMemory> {
    let blocking = bare.strip_prefix("i").unwrap_or("");
    if has_both(bare) || is_other(bare) || has_both(blocking) {
        return push_word("", bare, told);
    }
    if let Some(known) = call_of(bare) {
        return push_word("", known, told);
    }
    match call_of(blocking) {
        Some(known) if has_both(known) => push_word("i", known, told),
        _ => push_near_statements(bare, blocking, told),
    }
}

// Whether a word is a call that blocks and has a nonblocking form.
fn has_both(word: &str) -> bool {
    BOTH.contains(&word)
}

fn is_other(word: &str) -> bool {
    STATEMENTS.contains(&word)
}

// The call of scripts that MPI calls so.
fn call_of(word: &str) -> Option<&'static str> {
    another(&CALLS, word)
}

// Adds the statements that a word is near.
fn push_near_statements(bare: &str, blocking: &str, told: &mut String) -> Result<(), OutOfMemory> {
    push_near_both("", bare, told)?;
    push_near("", &STATEMENTS, bare, told)?;
    push_near_both("i", blocking, told)?;
    if is_near(bare.as_bytes(), b"broadcast") {
        return push_word("", "bcast", told);
    }
    Ok(())
}

fn push_near_both(prefix: &str, word: &str, told: &mut String) -> Result<(), OutOfMemory> {
    push_near(prefix, &BOTH, word, told)
}

// Adds the operations and types that a word is, or is near.
fn push_values(bare: &str, told: &mut String) -> Result<(), OutOfMemory> {
    if is_value(bare) {
        return push_word("", bare, told);
    }
    if let Some(known) = type_of(bare) {
        return push_word("", known, told);
    }
    push_near("", &VALUES, bare, told)
}

// Adds those of these words that a word is near, with this prefix.
fn push_near(
    prefix: &str,
    words: &[&'static str],
    bare: &str,
    told: &mut String,
) -> Result<(), OutOfMemory> {
    for known in words {
        if is_near(bare.as_bytes(), known.as_bytes()) {
            push_word(prefix, known, told)?;
        }
    }
    Ok(())
}

// Adds a word with this prefix, behind others.
fn push_word(prefix: &str, word: &str, told: &mut String) -> Result<(), OutOfMemory> {
    if !told.is_empty() {
        told.push_str(" or ")?;
    }
    told.push_str(prefix)?;
    told.push_str(word)?;
    Ok(())
}

fn in_small_letters(alloc: Global, word: &str) -> Result<String, OutOfMemory> {
    let mut small = String::new(alloc);
    for letter in word.chars() {
        small.push(letter.to_ascii_lowercase())?;
    }
    Ok(small)
}

fn without_prefix(word: &str) -> &str {
    let word = word.strip_prefix("mpi_").unwrap_or(word);
    word.strip_prefix("comm_").unwrap_or(word)
}

// The second word of the pair whose first one this is.
fn another(pairs: &[(&str, &'static str)], word: &str) -> Option<&'static str> {
    for (name, known) in pairs {
        if *name == word {
            return Some(known);
        }
    }
    None
}

// Whether one letter more, less or other tells the words apart, or two letters beside each other in another order.
fn is_near(word: &[u8], known: &[u8]) -> bool {
    if word.len() < 3 || known.len() < 3 {
        return false;
    }
    let same = word.iter().zip(known).take_while(|(a, b)| a == b).count();
    let word = word.get(same..).unwrap_or(&[]);
    let known = known.get(same..).unwrap_or(&[]);
    let same = word
        .iter()
        .rev()
        .zip(known.iter().rev())
        .take_while(|(a, b)| a == b)
        .count();
    let more = word.len().saturating_sub(same);
    let fewer = known.len().saturating_sub(same);
    if more <= 1 && fewer <= 1 {
        return true;
    }
    more == 2 && fewer == 2 && word.first() == known.get(1) && word.get(1) == known.first()
}
