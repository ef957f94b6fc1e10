//! The communicators that calls make, by their names and members: values from MPI 4.1 section 7.4.2, and that the calls
//! succeed.
ghost use Rattle.std.specs.Prelude.{length, ◌≡◌};

use self::Given::{Comm, Nothing, Null};
use crate::births::processes;
use crate::posted::Posted::{self, Create, Just, Split};
use crate::posted::{posts_of, row_of};
use mpx_birth::Birth;
use mpx_group::Proc;
use mpx_kind::Kind;
use mpx_name::{Name, Step};
use mpx_num::Ops;
use mpx_post::Row;
use mpx_value::{Fault, FaultKind, Outcome, children, makes_none, outcome};
use std::alloc::Global;
use std::test::Fail;
use test_drafts::contexts::{On, WORLD, name_of};
use test_drafts::{birth, kinds};

// What a call gives rank 0: a communicator by its colour, its size and the rank in it; or nothing, as a free does.
#[derive(Clone, Copy)]
enum Given {
    Comm(u32, u8, u8),
    Null,
    Nothing,
    Fault(FaultKind, u8),
}

// The colour of a communicator, and its members.
type Child = (u32, &'static [u8]);

// The number of the call.
const CALL: u32 = 3;

const DUP: Posted = Just(kinds::DUP);

const FREE: Posted = Just(Kind::Free);

const GATHERED: Posted = Just(kinds::CREATE_GROUP);

// The members of a communicator, the context of the call, what they post to it, the communicators that it makes, and what it gives
// rank 0.
type Case = (
    &'static [u8],
    On,
    &'static [Posted],
    &'static [Child],
    Given,
);

const CASES: [Case; 13] = [
    (
        &[0, 1, 2, 3],
        WORLD,
        &[
            Split(Some(1), 5),
            Split(Some(0), 0),
            Split(Some(1), 5),
            Split(None, 0),
        ],
        &[(0, &[1]), (1, &[0, 2])],
        Comm(1, 2, 0),
    ),
    (&[0, 1], WORLD, &[Split(None, 1), Split(None, 0)], &[], Null),
    // The order of the keys reverses that of the ranks.
    (
        &[4, 5, 9],
        WORLD,
        &[Split(Some(7), 1), Split(Some(7), 0), Split(Some(7), -5)],
        &[(7, &[9, 5, 4])],
        Comm(7, 3, 2),
    ),
    (
        &[0, 1, 2],
        WORLD,
        &[Create(&[2, 0]), Create(&[1]), Create(&[2, 0])],
        &[(1, &[1]), (2, &[2, 0])],
        Comm(2, 2, 1),
    ),
    // The groups differ.
    (
        &[0, 1, 2],
        WORLD,
        &[Create(&[0, 1]), Create(&[1, 0]), Create(&[])],
        &[],
        Given::Fault(FaultKind::Groups, 0),
    ),
    (&[4, 2], WORLD, &[DUP, DUP], &[(0, &[4, 2])], Comm(0, 2, 0)),
    (
        &[0, 2],
        On::Gathering,
        &[GATHERED, GATHERED],
        &[(0, &[0, 2])],
        Comm(0, 2, 0),
    ),
    // Below a name of seven steps there is an eighth, and no ninth.
    (
        &[0, 1],
        On::Below(7),
        &[DUP, DUP],
        &[(0, &[0, 1])],
        Comm(0, 2, 0),
    ),
    (
        &[0, 1],
        On::Below(8),
        &[DUP, DUP],
        &[],
        Given::Fault(FaultKind::Amount, 0),
    ),
    // A free makes nothing, and gives nothing, below a name of eight steps too.
    (&[0, 1], WORLD, &[FREE, FREE], &[], Nothing),
    (&[6, 3], On::Below(8), &[FREE, FREE], &[], Nothing),
    (
        &[0, 1],
        WORLD,
        &[FREE, Just(kinds::BARRIER)],
        &[],
        Given::Fault(FaultKind::Kind, 1),
    ),
    (
        &[0, 1],
        WORLD,
        &[DUP, FREE],
        &[],
        Given::Fault(FaultKind::Kind, 1),
    ),
];

// Whether the name is that of the call's child of this colour, below a name of so many steps.
fn is_child(new: &Name, depth: usize, colour: u32) -> bool {
    let step = Step::Child { call: CALL, colour };
    new.depth() == depth.saturating_add(1) && new.step(depth) == Some(&step)
}

// Whether the outcome is this, of the call on a name of so many steps.
fn is_given(outcome: &Outcome, depth: usize, given: Given) -> bool {
    match (outcome, given) {
        (Outcome::NewComm { name, size, rank }, Comm(colour, n, r)) => {
            is_child(name, depth, colour) && (*size, *rank) == (n, r)
        }
        (Outcome::Null, Null) => true,
        (Outcome::Nothing, Nothing) => true,
        (Outcome::Fault(fault), Given::Fault(what, rank)) => *fault == Fault { what, rank },
        _ => false,
    }
}

fn are(processes: &[Proc], numbers: &[u8]) -> bool {
    processes.len() == numbers.len()
        && processes
            .iter()
            .zip(numbers)
            .all(|(process, number)| process.number() == *number)
}

// Whether these are the communicators of the call on a name of so many steps.
fn are_made(made: &[(Name, Birth)], depth: usize, wanted: &[Child]) -> bool {
    let mut same = made.len() == wanted.len();
    for ((new, birth), (colour, members)) in made.iter().zip(wanted) {
        same &= is_child(new, depth, *colour) && are(birth.members(), members);
    }
    same
}

// Whether the call on this name with these posts makes the communicators of the case, and gives rank 0 what it says.
fn is_so(
    alloc: Global,
    birth: &Birth,
    name: &Name,
    row: &Row<'_>,
    case: &Case,
) -> Result<bool, Fail>
    requires members { length row.now ≡ length birth.now.members }
{
    let ops = Ops::none(alloc);
    prove!(0 < row.len());
    let given = outcome(alloc, birth, row, name, CALL, 0, &ops)?;
    let gives = is_given(&given, name.depth(), case.4);
    drop(given);
    let made = children(alloc, birth, row, name, CALL, &ops)?;
    let makes = are_made(&made, name.depth(), case.3);
    drop(made);
    let tells = makes_none(row.post(0)) != matches!(row.kind(), Kind::NewCommunicator(_));
    Ok(gives && makes && tells)
}

fn is_so_of(alloc: Global, birth: &Birth, name: &Name, case: &Case) -> Result<bool, Fail> {
    let posts = posts_of(alloc, case.2)?;
    is_so(alloc, birth, name, &row_of(alloc, birth, &posts)?, case)
}

fn is_so_on(alloc: Global, case: &Case) -> Result<bool, Fail> {
    let Some(birth) = birth(alloc, processes(alloc, case.0)?) else {
        return Ok(false);
    };
    is_so_of(alloc, &birth, &name_of(alloc, case.1)?, case)
}

// The place of the first case that isn't so, if there is one.
fn first_wrong(alloc: Global) -> Result<Option<usize>, Fail> {
    for (i, case) in CASES.iter().enumerate() {
        if !is_so_on(alloc, case)? {
            return Ok(Some(i));
        }
    }
    Ok(None)
}

#[test]
fn calls_make_communicators(rt: HostRuntime) -> Result<(), Fail> {
    assert_eq!(rt; first_wrong(rt.alloc())?, None);
    Ok(())
}
