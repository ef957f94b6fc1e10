//! A process's list of frames, and the frame that it keeps of it.
ghost use Rattle.std.specs.Prelude.{◌≡◌, ◌∷◌, [], IfOk, IfSome, List, OnOk};
ghost use Rattle.mpx_num.specs.declared.own.Operation.{Operation};
ghost use Rattle.mpx_node.specs.Deltas.{AreLacked, LackFrames};
ghost use Rattle.mpx_node.specs.Shown.{node_of};
ghost use Rattle.mpx_sim.specs.Running.{KeepsNode};
ghost use Rattle.mpx_sim.specs.Turns.{Saying};

use join_core::OutOfMemory;
use mpx_comm::Desk;
use mpx_delta::NewFrames;
use mpx_node::Node;
use mpx_rope::Rope;
use std::alloc::Global;

/// The most bytes of a frame.
pub(crate) const MOST_BYTES: usize = 1_048_576;

/// Says what the desk's node has, and gives the frames of what others may lack of its board: those that were made ahead, or new ones, which are written
/// into spare room.
pub(crate) fn new_list(
    alloc: Global,
    desk: &mut Desk<Node>,
    ahead: Option<NewFrames>,
    spare: &mut Vec<Rope>,
) -> Result<Vec<Rope>, OutOfMemory>
    requires { IfSome ahead (λ made. LackFrames 1048576 (node_of desk.old.host) made.said made.frames.items) }
    ensures keeps { OnOk result ((operations : List Operation) → KeepsNode Saying operations (node_of desk.old.host) (node_of desk.new.host)) }
    ensures frames { IfOk result (λ made. AreLacked 1048576 (node_of desk.new.host) made.items) }
{
    if let Some(made) = ahead {
        return Ok(desk.say(made));
    }
    desk.framed_deltas(alloc, MOST_BYTES, spare)
}

/// A frame with the same bytes, alone.
pub(crate) fn one_frame(alloc: Global, frame: &Rope) -> Result<Vec<Rope>, OutOfMemory>
    ensures { IfOk result (λ made. made.items ≡ frame.now ∷ []) }
{
    let mut made = Vec::new(alloc);
    made.push(copy_of(alloc, frame)?)?;
    Ok(made)
}

/// A frame that is all of its list, where it is to be kept.
pub(crate) fn kept_of(
    alloc: Global,
    list: &[Rope],
    keeps: bool,
) -> Result<Option<Rope>, OutOfMemory>
    ensures { IfOk result (λ kept. IfSome kept (λ frame. list.now ≡ frame ∷ [])) }
{
    match list {
        [frame] if keeps => Ok(Some(copy_of(alloc, frame)?)),
        _ => Ok(None),
    }
}

// A frame with the same bytes.
fn copy_of(alloc: Global, frame: &Rope) -> Result<Rope, OutOfMemory>
    ensures { IfOk result (λ copy. copy ≡ frame.now) }
{
    let bytes = frame.lent().joined(alloc)?;
    Ok(Rope::from_vec(alloc, bytes))
}
