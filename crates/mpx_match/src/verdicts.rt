//! The first fault of a row, or that it is fine.
ghost use Rattle.std.specs.Prelude.{◌≡◌, ◌<◌, true, length};
ghost use Rattle.mpx_post.specs.Agreement.{AllSuit, IsFineWith, post_at};
ghost use Rattle.mpx_post.specs.Equality.{same_types as have_same_types};
ghost use Rattle.mpx_match.specs.Alike.{AreAlike, IsSettled, is_alike as is_alike_to, says_nothing};
ghost use Rattle.mpx_match.specs.Questions.{differs_in, is_faulty as faulty, least_rank};
ghost use Rattle.mpx_match.specs.Verdicts.{IsFirstFault, questions, told_as as told, verdict};

use crate::amounts::amounts_differ;
use crate::edges::{edges_differ, names_no_neighbours};
use crate::faults::{Fault, FaultKind, Verdict};
use crate::fits::{fits, suits};
use crate::groups::groups_differ;
use mpx_birth::Birth;
use mpx_num::{Listing, Ops};
use mpx_post::{Making, Post, Row, have_same_op};

// What is asked of each post of a row.
#[derive(Clone, Copy)]
enum RowQuestion {
    /// Whether it fits its communicator, and its operation is for its type.
    Fit,
    /// Whether it agrees with the others in this.
    Agree(FaultKind),
}

/// Whether the posts of a row fit a communicator that came to be so, and together, or their first fault. It takes no memory.
pub fn verdict(birth: &Birth, row: &Row<'_>, ops: &Ops) -> Verdict
    ensures first { IsFirstFault (⟦<Ops as Listing>⟧.operations ops.now) birth.now.topology questions row.now result }
    ensures fine { result ≡ Verdict.Fine → IsFineWith birth.now.topology row.now }
    ensures suits { result ≡ Verdict.Fine → AllSuit (⟦<Ops as Listing>⟧.operations ops.now) row.now }
    ensures computed { result ≡ verdict (⟦<Ops as Listing>⟧.operations ops.now) birth.now.topology row.now }
{
    first_fault(birth, row, ops)
}

// The first fault, by the questions in their order.
fn first_fault(birth: &Birth, row: &Row<'_>, ops: &Ops) -> Verdict
    ensures { result ≡ verdict (⟦<Ops as Listing>⟧.operations ops.now) birth.now.topology row.now }
{
    let questions = [
        RowQuestion::Fit,
        RowQuestion::Agree(FaultKind::Kind),
        RowQuestion::Agree(FaultKind::Mode),
        RowQuestion::Agree(FaultKind::Root),
        RowQuestion::Agree(FaultKind::Op),
        RowQuestion::Agree(FaultKind::ItemType),
        RowQuestion::Agree(FaultKind::Amount),
        RowQuestion::Agree(FaultKind::Weights),
        RowQuestion::Agree(FaultKind::Edges),
        RowQuestion::Agree(FaultKind::Groups),
    ];
    let alike = are_alike(row);
    for question in questions {
        if let Some(rank) = least_rank(birth, row, alike, question, ops) {
            return Verdict::Fault(Fault {
                what: told_as(question),
                rank,
            });
        }
    }
    Verdict::Fine
}

// As what a fault is told.
fn told_as(question: RowQuestion) -> FaultKind
    ensures { result ≡ told question }
{
    match question {
        RowQuestion::Fit => FaultKind::Amount,
        RowQuestion::Agree(what) => what,
    }
}

// The least rank of whose post the answer is yes. The posts may be known to be alike.
fn least_rank(
    birth: &Birth,
    row: &Row<'_>,
    alike: bool,
    question: RowQuestion,
    ops: &Ops,
) -> Option<u8>
    requires { alike ≡ true → AreAlike row.now }
    ensures { result ≡ least_rank (faulty (⟦<Ops as Listing>⟧.operations ops.now) birth.now.topology question row.now) row.now }
{
    if is_settled(row, alike, question) {
        return None;
    }
    for rank in 0..row.len() {
        if is_faulty(birth, row, question, rank, ops) {
            return Some(rank as u8);
        }
    }
    None
}

// Whether it is known beforehand that the answer is no for each post.
fn is_settled(row: &Row<'_>, alike: bool, question: RowQuestion) -> bool
    requires { alike ≡ true → AreAlike row.now }
    ensures { result ≡ true → IsSettled question row.now }
{
    match question {
        RowQuestion::Fit => false,
        RowQuestion::Agree(what) => all_agree(row, alike, what),
    }
}

// Whether it is known beforehand that no post differs in this.
fn all_agree(row: &Row<'_>, alike: bool, what: FaultKind) -> bool
    requires { alike ≡ true → AreAlike row.now }
    ensures { result ≡ true → IsSettled (RowQuestion.Agree what) row.now }
{
    match what {
        FaultKind::Amount => false,
        FaultKind::Edges => alike || names_no_neighbours(row),
        _ => alike,
    }
}

// Whether each post has the first one's kind, mode, root, operation and type, and none says anything of a new communicator.
fn are_alike(row: &Row<'_>) -> bool
    ensures { result ≡ true → AreAlike row.now }
{
    for rank in 0..row.len() {
        if !is_alike(row.post(rank), row.post(0)) {
            return false;
        }
    }
    true
}

fn is_alike(post: &Post, first: &Post) -> bool
    ensures { result ≡ is_alike_to first.now post.now }
{
    post.kind() == first.kind()
        && post.mode() == first.mode()
        && post.root() == first.root()
        && have_same_op(post.op(), first.op())
        && same_types(post, first)
        && says_nothing(post.making())
}

fn says_nothing(making: &Making) -> bool
    ensures { result ≡ says_nothing making.now }
{
    matches!(making, Making::Nothing)
}

// The answer for the post of this rank.
fn is_faulty(birth: &Birth, row: &Row<'_>, question: RowQuestion, rank: usize, ops: &Ops) -> bool
    requires { rank < length row.now }
    ensures { result ≡ faulty (⟦<Ops as Listing>⟧.operations ops.now) birth.now.topology question row.now rank (post_at row.now rank) }
{
    let post = row.post(rank);
    match question {
        RowQuestion::Fit => !(fits(birth, row.len(), rank as u8, post) && suits(post, ops)),
        RowQuestion::Agree(what) => differs_in(birth, row, what, rank),
    }
}

// Whether the post of this rank differs in this.
fn differs_in(birth: &Birth, row: &Row<'_>, what: FaultKind, rank: usize) -> bool
    requires { rank < length row.now }
    ensures { result ≡ differs_in what birth.now.topology row.now rank (post_at row.now rank) }
{
    let post = row.post(rank);
    let first = row.post(0);
    match what {
        FaultKind::Kind => post.kind() != first.kind(),
        FaultKind::Mode => post.mode() != first.mode(),
        FaultKind::Root => post.root() != first.root(),
        FaultKind::Op => !have_same_op(post.op(), first.op()),
        FaultKind::ItemType => !same_types(post, first),
        FaultKind::Amount => amounts_differ(birth, row, first.kind(), rank),
        FaultKind::Weights => post.weighted() != first.weighted(),
        FaultKind::Edges => edges_differ(row, rank),
        FaultKind::Groups => groups_differ(row, post),
    }
}

// Whether both give items of one type, or none.
fn same_types(left: &Post, right: &Post) -> bool
    ensures { result ≡ have_same_types left.now.items right.now.items }
{
    match (left.items(), right.items()) {
        (None, None) => true,
        (None, Some(_)) => false,
        (Some(_), None) => false,
        (Some(left), Some(right)) => left.ty() == right.ty(),
    }
}
