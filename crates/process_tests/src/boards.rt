//! How desks hear of each other.
ghost use Rattle.std.specs.Prelude.{◌≡◌};

use join_core::{Exact, Join, OutOfMemory};
use mpx_board::Board;
use mpx_comm::Desk;
use mpx_name::Name;
use mpx_node::Node;
use mpx_rope::{Rope, RopeRef};
use mpx_wire::decode;
use std::alloc::Global;
use std::test::Fail;
use test_drafts::proc;

// The most bytes of a frame.
const LIMIT: usize = 524_288;

// How a desk gives what the other may lack.
#[derive(Clone, Copy)]
pub enum By {
    Boards,
    Frames,
    // The frames are made first, and then said.
    FramesAhead,
}

// The desk takes the part twice, and then its board is the join. Where memory was refused to the first take (`rt try --test --fail-alloc`),
// the board stood between the old one and the join.
fn takes_part(
    alloc: Global,
    desk: &mut Desk<Node>,
    part: &Board,
    old: &Board,
    joined: &Board,
) -> Result<bool, OutOfMemory> {
    let took = desk.take(alloc, part).is_ok();
    let between = old.leq(desk.host().board()) && desk.host().board().leq(joined);
    desk.take(alloc, part)?;
    Ok((took || between) && desk.host().board().same(joined))
}

fn takes_board(alloc: Global, desk: &mut Desk<Node>, part: &Board) -> Result<bool, OutOfMemory> {
    let old = desk.host().board().copy(alloc)?;
    let joined = old.joined(alloc, part)?;
    let took = takes_part(alloc, desk, part, &old, &joined);
    drop(joined);
    drop(old);
    took
}

// It takes the rope of these bytes too, which then tells nothing new.
fn takes_both(
    alloc: Global,
    desk: &mut Desk<Node>,
    frame: &RopeRef<'_>,
    bytes: &[u8],
) -> Result<bool, Fail>
    requires { bytes.now ≡ frame.now }
{
    let part = decode(alloc, bytes)?;
    let took = takes_board(alloc, desk, &part);
    let again = desk.take_rope(alloc, frame);
    let told = part.leq(desk.host().board());
    drop(part);
    again?;
    Ok(took? && told)
}

// It takes the board of this frame, and the frame as a rope in one place.
pub fn takes(alloc: Global, desk: &mut Desk<Node>, frame: &[u8]) -> Result<bool, Fail> {
    let rope = Rope::from_vec(alloc, Vec::from_slice(alloc, frame)?);
    let took = takes_both(alloc, desk, &rope.lent(), frame);
    drop(rope);
    took
}

// Each takes the other's board.
pub fn swap(
    alloc: Global,
    left: &mut Desk<Node>,
    right: &mut Desk<Node>,
) -> Result<bool, OutOfMemory> {
    left.take(alloc, right.host().board())?;
    right.take(alloc, left.host().board())?;
    Ok(true)
}

// Whether the part has the first post of process 0.
fn has_post(alloc: Global, part: &Board) -> bool {
    part.holds(&Name::world(alloc), 0, proc(0)).is_some()
}

fn take_boards(
    alloc: Global,
    desk: &mut Desk<Node>,
    parts: &[Board],
) -> Result<usize, OutOfMemory> {
    let mut with_post: usize = 0;
    for part in parts {
        desk.take(alloc, part)?;
        if has_post(alloc, part) {
            with_post = with_post.wrapping_add(1);
        }
    }
    Ok(with_post)
}

fn give_boards(
    alloc: Global,
    from: &mut Desk<Node>,
    to: &mut Desk<Node>,
) -> Result<usize, OutOfMemory> {
    let made = from.deltas(alloc, LIMIT)?;
    let with_post = take_boards(alloc, to, &made);
    drop(made);
    with_post
}

// It takes the rope of these bytes. Whether that has the post, and it has then what the rope tells.
fn takes_rope(
    alloc: Global,
    desk: &mut Desk<Node>,
    frame: &RopeRef<'_>,
    bytes: &[u8],
) -> Result<bool, Fail>
    requires { bytes.now ≡ frame.now }
{
    let part = decode(alloc, bytes)?;
    let took = desk.take_rope(alloc, frame);
    let is_so = part.leq(desk.host().board()) && has_post(alloc, &part);
    drop(part);
    took?;
    Ok(is_so)
}

fn takes_frame(alloc: Global, desk: &mut Desk<Node>, frame: &RopeRef<'_>) -> Result<bool, Fail> {
    let bytes = frame.joined(alloc)?;
    let is_so = takes_rope(alloc, desk, frame, &bytes);
    drop(bytes);
    is_so
}

fn take_frames(alloc: Global, desk: &mut Desk<Node>, frames: &[Rope]) -> Result<usize, Fail> {
    let mut with_post: usize = 0;
    for frame in frames {
        if takes_frame(alloc, desk, &frame.lent())? {
            with_post = with_post.wrapping_add(1);
        }
    }
    Ok(with_post)
}

fn frames_of(alloc: Global, desk: &mut Desk<Node>) -> Result<Vec<Rope>, OutOfMemory> {
    let mut spare = Vec::new(alloc);
    let frames = desk.framed_deltas(alloc, LIMIT, &mut spare);
    drop(spare);
    frames
}

fn frames_ahead(alloc: Global, desk: &mut Desk<Node>) -> Result<Vec<Rope>, OutOfMemory> {
    let mut spare = Vec::new(alloc);
    let made = desk.lacking_frames(alloc, LIMIT, &mut spare);
    drop(spare);
    match made {
        Ok(made) => Ok(desk.say(made)),
        Err(e) => Err(e),
    }
}

fn give_frames(
    alloc: Global,
    frames: Result<Vec<Rope>, OutOfMemory>,
    to: &mut Desk<Node>,
) -> Result<usize, Fail> {
    let frames = frames?;
    let with_post = take_frames(alloc, to, &frames);
    drop(frames);
    with_post
}

// The one takes all boards of the other's deltas, or all frames of these. How many of these have the first post of process 0.
pub fn give(
    alloc: Global,
    from: &mut Desk<Node>,
    to: &mut Desk<Node>,
    by: By,
) -> Result<usize, Fail> {
    match by {
        By::Boards => Ok(give_boards(alloc, from, to)?),
        By::Frames => give_frames(alloc, frames_of(alloc, from), to),
        By::FramesAhead => give_frames(alloc, frames_ahead(alloc, from), to),
    }
}
