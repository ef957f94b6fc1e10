//! Ropes, finished ones, and what their readers share.
use mpx_num::{Items, Numbers, Spelled, Ty};
use mpx_rope::{FrozenRope, Rope, RopeRef, Source};
use std::alloc::{AllocError, Global};
use std::test::Fail;

// 16 numbers of 64 bits, of which each byte is 7.
const SEVENS: i128 = 506381209866536711;

// The items' type and place, another type, other places, and one before the first byte.
const PLACES: [(Ty, usize); 5] = [
    (Ty::I64, 130),
    (Ty::U64, 130),
    (Ty::I64, 129),
    (Ty::I64, 0),
    (Ty::I64, 134),
];

fn sevens(alloc: Global) -> Result<Spelled, Fail> {
    let list = Numbers::new(alloc, vec![in alloc; SEVENS; 16]?)?;
    Ok(Spelled::of(alloc, &Items::new(Ty::I64, list)?)?)
}

// Three bytes, the items, and two bytes.
fn rope(alloc: Global, items: &Spelled) -> Result<Rope, AllocError> {
    let mut rope = Rope::from_vec(alloc, vec![in alloc; 1u8, 2]?);
    rope.push(3)?;
    rope.push_items(items)?;
    rope.extend_from_slice(&[4, 5])?;
    Ok(rope)
}

// Whether these are the bytes of that rope.
fn is_whole(bytes: &[u8]) -> bool {
    bytes.len() == 133
        && bytes[..3] == [1, 2, 3]
        && bytes[3..131] == [7; 128]
        && bytes[131..] == [4, 5]
}

fn holds(alloc: Global, rope: &RopeRef<'_>) -> Result<bool, AllocError> {
    Ok(rope.len() == 133 && rope.in_one_place().is_none() && is_whole(&rope.joined(alloc)?))
}

// Whether these are a hundred bytes in one place.
fn lends(rope: &RopeRef<'_>) -> bool {
    rope.len() == 100 && rope.in_one_place() == Some([7; 100].as_slice())
}

// Whether there are none.
fn is_empty(alloc: Global, rope: &RopeRef<'_>) -> Result<bool, AllocError> {
    Ok(rope.len() == 0 && rope.joined(alloc)?.is_empty())
}

// Whether a rope that is written holds what was put in. Functions here own one rope, since each exit has to drop it.
fn written_holds(alloc: Global, items: &Spelled) -> Result<bool, AllocError> {
    let rope = rope(alloc, items)?;
    let whole = holds(alloc, &rope.lent());
    let own = rope.len() == 133 && rope.in_one_place().is_none();
    drop(rope);
    Ok(whole? && own)
}

// Whether nothing is left of one that was cleared.
fn cleared_is_empty(alloc: Global, items: &Spelled) -> Result<bool, AllocError> {
    let mut rope = rope(alloc, items)?;
    rope.clear();
    let empty = is_empty(alloc, &rope.lent());
    drop(rope);
    empty
}

fn refill(rope: &mut Rope) -> Result<(), AllocError> {
    rope.clear();
    rope.reserve(1000)?;
    rope.extend_from_slice(&[7; 100])
}

// Whether one that was written anew lends its bytes.
fn refilled_lends(alloc: Global, items: &Spelled) -> Result<bool, AllocError> {
    let mut rope = rope(alloc, items)?;
    let filled = refill(&mut rope);
    let lent = lends(&rope.lent()) && rope.in_one_place() == Some([7; 100].as_slice());
    drop(rope);
    filled?;
    Ok(lent)
}

// A copy of the finished rope, which is gone.
fn copied(rope: Rope) -> Result<FrozenRope, AllocError> {
    let frozen = rope.freeze()?;
    let copy = frozen.copy();
    drop(frozen);
    copy
}

fn copy_holds(alloc: Global, items: &Spelled) -> Result<bool, AllocError> {
    let copy = copied(rope(alloc, items)?)?;
    let whole = holds(alloc, &copy.lent());
    drop(copy);
    whole
}

fn own_copy_lends(alloc: Global) -> Result<bool, AllocError> {
    let copy = copied(Rope::from_vec(alloc, vec![in alloc; 7u8; 100]?))?;
    let lent = lends(&copy.lent());
    drop(copy);
    Ok(lent)
}

fn empty_copy_is_empty(alloc: Global) -> Result<bool, AllocError> {
    let copy = copied(Rope::new(alloc))?;
    let empty = is_empty(alloc, &copy.lent());
    drop(copy);
    empty
}

#[test]
fn ropes_hold_what_is_put_in(rt: HostRuntime) -> Result<(), Fail> {
    let alloc = rt.alloc();
    let items = sevens(alloc)?;
    assert!(rt; written_holds(alloc, &items)?);
    assert!(rt; cleared_is_empty(alloc, &items)?);
    assert!(rt; refilled_lends(alloc, &items)?);
    Ok(())
}

#[test]
fn copies_of_finished_ropes_hold_the_same(rt: HostRuntime) -> Result<(), Fail> {
    let alloc = rt.alloc();
    let items = sevens(alloc)?;
    assert!(rt; copy_holds(alloc, &items)?);
    assert!(rt; own_copy_lends(alloc)?);
    assert!(rt; empty_copy_is_empty(alloc)?);
    Ok(())
}

// Whether the source gives items of the type for 128 sevens, in front of which so many bytes are left.
fn gives(source: Source<'_>, ty: Ty, left: usize) -> Result<bool, AllocError> {
    let items = source.items(ty, &[7; 128], left)?;
    Ok(items.ty() == ty && items.count() == 16 && items.bytes() == [7; 128].as_slice())
}

// Whether it gives them at all places, and those items where they stand.
fn gives_all(source: Source<'_>, items: &Spelled) -> Result<bool, AllocError> {
    let mut all = true;
    for (ty, left) in PLACES {
        let given = gives(source, ty, left)?;
        all &= given;
    }
    Ok(all && source.items(Ty::I64, &[7; 128], 130)?.same(items))
}

fn written_gives(alloc: Global, items: &Spelled) -> Result<bool, AllocError> {
    let rope = rope(alloc, items)?;
    let all = gives_all(rope.lent().source(alloc), items);
    drop(rope);
    all
}

fn copy_gives(alloc: Global, items: &Spelled) -> Result<bool, AllocError> {
    let copy = copied(rope(alloc, items)?)?;
    let all = gives_all(copy.lent().source(alloc), items);
    drop(copy);
    all
}

#[test]
fn sources_give_the_items_of_bytes(rt: HostRuntime) -> Result<(), Fail> {
    let alloc = rt.alloc();
    let items = sevens(alloc)?;
    assert!(rt; written_gives(alloc, &items)?);
    assert!(rt; copy_gives(alloc, &items)?);
    assert!(rt; gives_all(Source::of(alloc), &items)?);
    Ok(())
}
