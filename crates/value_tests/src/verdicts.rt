//! Verdicts of rows in a world of two that no node makes: posts that were made for a communicator of three ranks, which is told
//! before the posts are compared, and operations of a job's own that no object has, or that aren't for the type.
use crate::own_lists::named;
use crate::posted::Posted::{self, Blocks, Create, Items, Just, Near};
use crate::posted::{posts_of, row_of};
use mpx_birth::Birth;
use mpx_match::{Fault, FaultKind, Verdict, verdict};
use mpx_num::{Op, Ops, Ty};
use std::alloc::Global;
use std::test::Fail;
use test_drafts::kinds;

// The sum over all of an item, a broadcast of the third rank, an exchange of three blocks, three ranks' numbers of items, and a
// third rank as destination.
const SUM: Posted = Blocks(kinds::ALLREDUCE, 0, &[], &[], &[7]);

const ROOT_2: Posted = Blocks(kinds::BCAST, 2, &[], &[0], &[]);

const TO_ALL: Posted = Blocks(kinds::ALLTOALL, 0, &[], &[1], &[7, 7, 7]);

const OF_ALL: Posted = Blocks(kinds::ALLGATHERV, 0, &[], &[1, 1, 1], &[7]);

const FAR: Posted = Near(&[], &[(2, 0)]);

// Reductions of a pair by the first two of a job's own operations, and by one that isn't there; and of a number.
const ONE: Posted = Items(kinds::ALLREDUCE, Op::Own(0), Ty::TwoInt, &[2, 1]);

const OTHER: Posted = Items(kinds::ALLREDUCE, Op::Own(1), Ty::TwoInt, &[2, 1]);

const THIRD: Posted = Items(kinds::ALLREDUCE, Op::Own(2), Ty::TwoInt, &[2, 1]);

const SINGLE: Posted = Items(kinds::ALLREDUCE, Op::Own(0), Ty::I32, &[2]);

const AMOUNT_AT_0: Verdict = Verdict::Fault(Fault {
    what: FaultKind::Amount,
    rank: 0,
});

const AMOUNT_AT_1: Verdict = Verdict::Fault(Fault {
    what: FaultKind::Amount,
    rank: 1,
});

const OP_AT_1: Verdict = Verdict::Fault(Fault {
    what: FaultKind::Op,
    rank: 1,
});

// What both ranks post, the words of the job's own operations, and the verdict.
const VERDICTS: [(&[Posted], &[&'static str], Verdict); 14] = [
    (&[ROOT_2, SUM], &[], AMOUNT_AT_0),
    (&[SUM, ROOT_2], &[], AMOUNT_AT_1),
    (&[TO_ALL, SUM], &[], AMOUNT_AT_0),
    (&[SUM, TO_ALL], &[], AMOUNT_AT_1),
    (&[OF_ALL, SUM], &[], AMOUNT_AT_0),
    (&[SUM, OF_ALL], &[], AMOUNT_AT_1),
    (&[Create(&[]), Create(&[1, 2])], &[], AMOUNT_AT_1),
    (&[Just(kinds::DIST_GRAPH_ADJACENT), FAR], &[], AMOUNT_AT_1),
    (&[ONE, ONE], &["one", "other"], Verdict::Fine),
    (&[ONE, OTHER], &["one", "other"], OP_AT_1),
    (&[ONE, SINGLE], &["one", "other"], AMOUNT_AT_1),
    (&[SINGLE, SINGLE], &["one", "other"], AMOUNT_AT_0),
    (&[ONE, THIRD], &["one", "other"], AMOUNT_AT_1),
    (&[ONE, ONE], &[], AMOUNT_AT_0),
];

fn is_told(
    alloc: Global,
    calls: &[Posted],
    words: &[&'static str],
    wanted: Verdict,
) -> Result<bool, Fail> {
    match named(alloc, words)? {
        Ok(ops) => Ok(verdict_on(alloc, calls, &ops)? == wanted),
        Err(_) => Ok(false),
    }
}

fn verdict_on(alloc: Global, calls: &[Posted], ops: &Ops) -> Result<Verdict, Fail> {
    let posts = posts_of(alloc, calls)?;
    let world = Birth::world(alloc, 2)?;
    let row = row_of(alloc, &world, &posts)?;
    Ok(verdict(&world, &row, ops))
}

// The place of the first row of which another verdict is told, if there is one.
fn first_wrong(alloc: Global) -> Result<Option<usize>, Fail> {
    for (i, row) in VERDICTS.iter().enumerate() {
        if !is_told(alloc, row.0, row.1, row.2)? {
            return Ok(Some(i));
        }
    }
    Ok(None)
}

#[test]
fn misfits_are_told_first(rt: HostRuntime) -> Result<(), Fail> {
    assert_eq!(rt; first_wrong(rt.alloc())?, None);
    Ok(())
}
