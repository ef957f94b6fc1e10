//! The list of a job's own operations.
ghost use Rattle.std.specs.Prelude.{◌≡◌, ◌<◌, ◌≤◌, ◌↔◌, List, length, map, IsTrue, IsOk, IfOk, true, false, []};
ghost use Rattle.std.specs.Result.{IsErrOf};
ghost use Rattle.mpx_num.specs.Types.{IsInRange, is_paired};
ghost use Rattle.mpx_num.specs.Own.{IsItem, operation_of, own_at, own_combined, own_fits};
ghost use Rattle.mpx_num.specs.OwnWords.{are_own_words, is_among, place_named, place_of_word};

use crate::own::OwnOp;
use crate::types::Ty;
use crate::words::is_own_word;
use std::alloc::Global;

/// The greatest number of own operations of a job.
pub const MOST_OPS: usize = 16;

/// The operations of a job's own, each at its place in the list.
#[derive(Drop)]
pub struct Ops {
    list: Vec<Box<dyn OwnOp + Send + Sync + Drop>>,
    ghost few: { length list.items ≤ 16 },
}

/// What lists of operations mean, for contracts: `⟦<Ops as Listing>⟧.operations`.
pub trait Listing {
    ghost use Rattle.std.specs.Prelude.{List};
    ghost use Rattle.mpx_num.specs.declared.own.Operation.{Operation};

    ghost operations: { Self → List Operation };
}

impl Listing for Ops {
    ghost use Rattle.std.specs.Prelude.{map};
    ghost use Rattle.mpx_num.specs.Own.{operation_of};

    ghost operations = { λ o. map (λ b. operation_of ((OwnOp-box b).word_bytes b.value) ((OwnOp-box b).fits_type b.value) ((OwnOp-box b).combination b.value)) o.list.items };
}

/// Why a list of objects is no list of operations.
#[derive(Clone, Copy, PartialEq, Eq, Debug, thiserror::Error)]
pub enum OpsError {
    #[error("more than 16 operations")]
    TooManyOps,
    #[error("a word that is no name, is an operation's or comes twice")]
    BadWord,
}

impl Ops {
    /// The objects as the operations of a job. It takes no memory.
    pub fn new(list: Vec<Box<dyn OwnOp + Send + Sync + Drop>>) -> Result<Self, OpsError>
        ensures meaning { IfOk result (λ ops. ⟦<Ops as Listing>⟧.operations ops ≡ map (λ b. operation_of (word_bytes b) (fits_type b) (combination b)) list.items) }
        ensures ok { IsOk result ↔ ((length list.items ≤ MOST_OPS) × (are_own_words (map (λ b. word_bytes b) list.items) ≡ true)) }

        // How many there are is asked first.
        ensures too_many { IsErrOf result OpsError.TooManyOps ↔ (MOST_OPS < length list.items) }
        ensures bad_word { IsErrOf result OpsError.BadWord ↔ ((length list.items ≤ MOST_OPS) × (are_own_words (map (λ b. word_bytes b) list.items) ≡ false)) }
    {
        if list.len() > MOST_OPS {
            return Err(OpsError::TooManyOps);
        }
        if !are_own(&list) {
            return Err(OpsError::BadWord);
        }
        Ok(Ops { list })
    }

    /// No operations of a job's own. It takes no memory.
    pub fn none(alloc: Global) -> Self
        ensures { ⟦<Ops as Listing>⟧.operations result ≡ [] }
    {
        Ops {
            list: Vec::new(alloc),
        }
    }

    /// Whether the operation at the place is for the type. None is where no object has the place.
    pub fn fits(&self, place: u8, ty: Ty) -> bool
        ensures { result ≡ own_fits (own_at (⟦<Ops as Listing>⟧.operations self.now) place) ty }
    {
        match self.list.get(usize::from(place)) {
            Some(op) => object_fits(op, ty),
            None => false,
        }
    }

    /// The place of the operation that has the word, where there is one.
    pub fn place_named(&self, word: &[u8]) -> Option<u8>
        ensures { result ≡ place_named (⟦<Ops as Listing>⟧.operations self.now) word.now }
    {
        place_of_word(&self.list, word)
    }

    // What the operation at the place makes of two items.
    pub(crate) fn combined(
        &self,
        place: u8,
        ty: Ty,
        left: (i128, i128),
        right: (i128, i128),
    ) -> (i128, i128)
        requires fit { IsTrue (own_fits (own_at (⟦<Ops as Listing>⟧.operations self.now) place) ty) }
        requires left { IsItem ty left }
        requires right { IsItem ty right }
        ensures { result ≡ own_combined (own_at (⟦<Ops as Listing>⟧.operations self.now) place) ty left right }
    {
        match self.list.get(usize::from(place)) {
            Some(op) => object_combines(op, ty, left, right),
            None => left,
        }
    }
}

// Whether the operation of an object is for the type.
fn object_fits(op: &Box<dyn OwnOp + Send + Sync + Drop>, ty: Ty) -> bool
    ensures { result ≡ fits_type op.now ty }
{
    op.fits(ty)
}

// What the operation of an object makes of two items.
fn object_combines(
    op: &Box<dyn OwnOp + Send + Sync + Drop>,
    ty: Ty,
    left: (i128, i128),
    right: (i128, i128),
) -> (i128, i128)
    requires fit { IsTrue (fits_type op.now ty) }
    requires left { IsItem ty left }
    requires right { IsItem ty right }
    ensures value { result ≡ combination op.now ty left right }
    ensures item { IsItem ty result }
{
    op.combine(ty, left, right)
}

// The word of an object, as bytes.
fn word_of(op: &Box<dyn OwnOp + Send + Sync + Drop>) -> &[u8]
    ensures { result.now ≡ word_bytes op.now }
{
    op.word().as_bytes()
}

// The place of the first object that has the word.
fn place_of_word(list: &[Box<dyn OwnOp + Send + Sync + Drop>], word: &[u8]) -> Option<u8>
    requires { length list.now ≤ 16 }
    ensures { result ≡ place_of_word 0 (map (λ b. word_bytes b) list.now) word.now }
{
    for i in 0..list.len() {
        if word == word_of(&list[i]) {
            return Some(i as u8);
        }
    }
    None
}

// Whether one of the objects has the word.
fn is_word_of_one(list: &[Box<dyn OwnOp + Send + Sync + Drop>], word: &[u8]) -> bool
    ensures { result ≡ is_among (map (λ b. word_bytes b) list.now) word.now }
{
    for op in list {
        if word == word_of(op) {
            return true;
        }
    }
    false
}

// Whether the words of the objects are words of a job's own operations, and none comes twice.
fn are_own(list: &[Box<dyn OwnOp + Send + Sync + Drop>]) -> bool
    ensures { result ≡ are_own_words (map (λ b. word_bytes b) list.now) }
{
    for i in 0..list.len() {
        let word = word_of(&list[i]);
        if !is_own_word(word) || is_word_of_one(&list[i + 1..], word) {
            return false;
        }
    }
    true
}
