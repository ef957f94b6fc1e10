//! What the words behind a statement's word mean: operations, types, numbers and lists.
ghost use Rattle.std.specs.Prelude.{◌≡◌, IfOk};
ghost use Rattle.mpx_script.specs.Fields.{colour_named, is_arrow, is_one, list_named, operation_named, predefined_named, rank_named, ranks_named, type_named};

use crate::grammar::named;
use mpx_kind::Number;
use mpx_num::{Listing, Numbers, Op, Ops, Ty, parse_number};
use mpx_statement::RankList;
use std::alloc::{AllocError, Global};

// The words of the predefined operations.
const OPERATIONS: &[(&[u8], Op)] = &[
    (b"max", Op::Max),
    (b"min", Op::Min),
    (b"sum", Op::Sum),
    (b"prod", Op::Prod),
    (b"land", Op::Land),
    (b"lor", Op::Lor),
    (b"lxor", Op::Lxor),
    (b"band", Op::Band),
    (b"bor", Op::Bor),
    (b"bxor", Op::Bxor),
    (b"maxloc", Op::Maxloc),
    (b"minloc", Op::Minloc),
];

// The predefined operation of a word.
#[tactic(auto, unfolding(crate::specs::Fields::predefined_named))]
fn predefined_named(word: &[u8]) -> Option<Op>
    ensures { result ≡ predefined_named word.now }
{
    named(OPERATIONS, word)
}

/// The operation of a word: a predefined one, or one of the job's own.
#[tactic(auto, unfolding(crate::specs::Fields::operation_named))]
pub fn operation_named(word: &[u8], ops: &Ops) -> Option<Op>
    ensures { result ≡ operation_named (⟦<Ops as Listing>⟧.operations ops.now) word.now }
{
    match predefined_named(word) {
        Some(op) => Some(op),
        None => Some(Op::Own(ops.place_named(word)?)),
    }
}

// The words of the types.
const TYPES: &[(&[u8], Ty)] = &[
    (b"i8", Ty::I8),
    (b"i16", Ty::I16),
    (b"i32", Ty::I32),
    (b"i64", Ty::I64),
    (b"u8", Ty::U8),
    (b"u16", Ty::U16),
    (b"u32", Ty::U32),
    (b"u64", Ty::U64),
    (b"2int", Ty::TwoInt),
];

/// The type of a word.
#[tactic(auto, unfolding(crate::specs::Fields::type_named))]
pub fn type_named(word: &[u8]) -> Option<Ty>
    ensures { result ≡ type_named word.now }
{
    named(TYPES, word)
}

/// The numbers of a list: numbers with commas between them, or `-` for none.
#[tactic(auto, unfolding(crate::specs::Fields::list_named))]
pub fn list_named(alloc: Global, word: &[u8]) -> Result<Option<Numbers>, AllocError>
    ensures { IfOk result (λ found. found ≡ list_named word.now) }
{
    let mut numbers = Vec::new(alloc);
    if word == b"-".as_slice() {
        return Ok(Some(Numbers::new(alloc, numbers)?));
    }
    for part in word.split(|byte| *byte == b',') {
        let Some(number) = parse_number(part) else {
            return Ok(None);
        };
        numbers.push(number)?;
    }
    Ok(Some(Numbers::new(alloc, numbers)?))
}

// The rank of a word, or none for `null`.
#[tactic(auto, unfolding(crate::specs::Fields::rank_named))]
fn rank_named(word: &[u8]) -> Option<Option<i128>>
    ensures { result ≡ rank_named word.now }
{
    if word == b"null".as_slice() {
        return Some(None);
    }
    let number = parse_number(word)?;
    Some(Some(number))
}

/// The ranks of a list: such ranks with commas between them, or `-` for none of them.
#[tactic(auto, unfolding(crate::specs::Fields::ranks_named))]
pub fn ranks_named(alloc: Global, word: &[u8]) -> Result<Option<RankList>, AllocError>
    ensures { IfOk result (λ found. found ≡ ranks_named word.now) }
{
    let mut ranks = Vec::new(alloc);
    if word == b"-".as_slice() {
        return Ok(Some(RankList::new(ranks)));
    }
    for part in word.split(|byte| *byte == b',') {
        let Some(rank) = rank_named(part) else {
            return Ok(None);
        };
        ranks.push(rank)?;
    }
    Ok(Some(RankList::new(ranks)))
}

/// Whether a kind with so many counts has just one.
pub fn is_one(number: Number) -> bool
    ensures { result ≡ is_one number }
{
    number == Number::One
}

/// The colour of a word: a number, or none for `undefined`.
#[tactic(auto, unfolding(crate::specs::Fields::colour_named))]
pub fn colour_named(word: &[u8]) -> Option<Option<i128>>
    ensures { result ≡ colour_named word.now }
{
    if word == b"undefined".as_slice() {
        return Some(None);
    }
    let number = parse_number(word)?;
    Some(Some(number))
}

pub fn is_arrow(word: &[u8]) -> bool
    ensures { result ≡ is_arrow word.now }
{
    word == b"->".as_slice()
}
