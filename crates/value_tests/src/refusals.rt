//! Refusals of drafts that no script shows: strangers, calls used up, and contexts of other calls.
use self::On::{Freed, Gathering, Open};
use crate::posted::Posted::{self, Blocks, Items, Just, Split};
use crate::posted::drafted;
use join_core::OutOfMemory;
use mpx_birth::Birth;
use mpx_kind::Kind;
use mpx_num::{Op, Ops, Ty};
use mpx_post::PostError::{
    self, BadGroup, CallsUsedUp, Closed, DepthUsedUp, ItemsLength, NoTopology, NotMember,
};
use mpx_post::{At, Draft};
use std::alloc::Global;
use std::test::Fail;
use test_drafts::{draft, kinds, proc};

// What a context is, to the caller.
#[derive(Clone, Copy, PartialEq, Eq)]
enum On {
    Open,
    Gathering,
    // The caller has posted a free.
    Freed,
}

// The last call's number, and the one behind it.
const LAST: u32 = 4294967294;

const PAST: u32 = 4294967295;

// A root that isn't there.
const ROOT_2: Posted = Blocks(kinds::REDUCE, 2, &[], &[], &[1]);

const ALONG_EDGES: Posted = Blocks(kinds::NEIGHBOR_ALLTOALLV, 0, &[1], &[], &[7]);
// Half an item, of a number out of range.
const CUT: Posted = Items(kinds::GATHER, Op::Sum, Ty::TwoInt, &[i128::MAX]);

// A process, the call, how many steps its context's name has, what the context is, what the process drafts, and why it may not
// post that in a world of two.
type Refusal = (u8, u32, usize, On, Posted, Option<PostError>);

// Of several reasons the first in their order is told: who is no member, then who has posted a free, then what the draft says, then
// its place.
const REFUSALS: [Refusal; 25] = [
    (2, 0, 0, Open, ROOT_2, Some(NotMember)),
    (2, 0, 0, Open, ALONG_EDGES, Some(NotMember)),
    (0, PAST, 0, Open, ALONG_EDGES, Some(NoTopology)),
    (0, 0, 0, Open, CUT, Some(ItemsLength)),
    (0, LAST, 0, Open, Just(kinds::BARRIER), None),
    (0, PAST, 0, Open, Just(kinds::BARRIER), Some(CallsUsedUp)),
    (0, PAST, 8, Gathering, Just(kinds::DUP), Some(CallsUsedUp)),
    // On a gathering `create_group` alone is called, and nowhere else.
    (0, 0, 1, Open, Just(kinds::CREATE_GROUP), Some(BadGroup)),
    (0, 0, 1, Gathering, Just(kinds::CREATE_GROUP), None),
    (0, 0, 1, Gathering, Just(kinds::BARRIER), Some(BadGroup)),
    (0, 0, 1, Gathering, Just(Kind::Free), Some(BadGroup)),
    (0, 0, 1, Gathering, Just(kinds::DUP), Some(BadGroup)),
    (0, 0, 1, Gathering, Just(kinds::SPLIT), Some(BadGroup)),
    (0, 0, 1, Gathering, Just(kinds::CREATE), Some(BadGroup)),
    (0, 0, 8, Gathering, Just(kinds::DUP), Some(DepthUsedUp)),
    (0, 0, 7, Gathering, Split(Some(-1), 0), Some(BadGroup)),
    // A free is posted as any call, on the world too, and nothing behind it.
    (0, 0, 0, Open, Just(Kind::Free), None),
    (1, 7, 8, Open, Just(Kind::Free), None),
    (0, PAST, 0, Open, Just(Kind::Free), Some(CallsUsedUp)),
    (0, 1, 1, Freed, Just(Kind::Free), Some(Closed)),
    (1, 1, 1, Freed, Just(kinds::BARRIER), Some(Closed)),
    (0, 1, 1, Freed, ROOT_2, Some(Closed)),
    (0, 1, 1, Freed, ALONG_EDGES, Some(Closed)),
    (0, PAST, 1, Freed, Just(kinds::CREATE_GROUP), Some(Closed)),
    (2, 1, 1, Freed, ROOT_2, Some(NotMember)),
];

// Why the process may not post the draft there: asked of the draft that is lent, and of the draft that is posted.
fn refusals(
    alloc: Global,
    pair: &Birth,
    number: u8,
    at: &At,
    draft: Draft,
) -> (Option<PostError>, Option<PostError>) {
    let ops = Ops::none(alloc);
    let lent = draft.refusal(pair, proc(number), at, &ops);
    (lent, draft.check(alloc, pair, proc(number), at, &ops).err())
}

fn is_refused(alloc: Global, pair: &Birth, row: Refusal) -> Result<bool, OutOfMemory> {
    let (number, call, depth, on, posted, wanted) = row;
    let at = At {
        call,
        depth,
        closed: on == Freed,
        gathering: on == Gathering,
    };
    let draft = draft(alloc, &drafted(&posted))?;
    Ok(refusals(alloc, pair, number, &at, draft) == (wanted, wanted))
}

// The place of the first row that is told otherwise, if there is one.
fn first_wrong(alloc: Global, pair: &Birth) -> Result<Option<usize>, OutOfMemory> {
    for (i, row) in REFUSALS.iter().enumerate() {
        if !is_refused(alloc, pair, *row)? {
            return Ok(Some(i));
        }
    }
    Ok(None)
}

#[test]
fn strangers_calls_used_up_and_contexts(rt: HostRuntime) -> Result<(), Fail> {
    let pair = Birth::world(rt.alloc(), 2)?;
    let wrong = first_wrong(rt.alloc(), &pair);
    drop(pair);
    assert_eq!(rt; wrong, Ok(None));
    Ok(())
}
