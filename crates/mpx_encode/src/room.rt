//! Room for spellings: what is left of so many bytes.
ghost use Rattle.std.specs.Prelude.{◌≡◌};
ghost use Rattle.mpx_encode.specs.Room.{room_left};

// The greatest number of bytes of a frame.
pub const MOST_BYTES: usize = 1_048_576;

// What is left of so much room behind so many bytes, where they fit.
#[tactic(auto, unfolding(crate::specs::Room::room_left))]
pub fn room_left(len: usize, room: usize) -> Option<usize>
    ensures { result ≡ room_left len room }
{
    room.checked_sub(len)
}
