//! How far a process has come with sending.
ghost use Rattle.std.specs.Prelude.{◌≡◌, ◌↔◌, ◌≤◌, ◌<◌, ◌^◌, IsTrue, if◌then◌else◌, length, nat_lt, suc};
ghost use Rattle.mpx_sim.specs.Senders.{first_sender, then_by};
ghost use Rattle.mpx_sim.specs.Shown.{sender_of};

/// How far a process has come with sending. Of a list of frames one goes out each turn, and the next list is made when all
/// of them are out.
#[derive(Clone, Copy)]
pub(crate) struct Sender {
    place: usize,
    out: u64,
}

impl Sender {
    /// Nothing is sent yet.
    pub(crate) fn new() -> Sender
        ensures { sender_of result ≡ first_sender }
    {
        Sender { place: 0, out: 0 }
    }

    /// The place of the shift by which the next list goes.
    pub(crate) fn place(&self) -> usize
        ensures { result ≡ self.now.place }
    {
        self.place
    }

    /// Whether the frames of the last list are out before this turn.
    pub(crate) fn has_sent(&self, turn: u64) -> bool
        ensures { IsTrue result ↔ (self.now.out ≤ turn) }
    {
        self.out <= turn
    }

    /// A list of so many frames goes out from this turn on, and the next one by the next shift.
    pub(crate) fn sends(&mut self, turn: u64, frames: usize, shifts: &[u8])
        requires turn { turn < 4294967296 }
        requires frames { frames < 2 ^ 63 }
        requires due { self.old.out ≤ turn }
        ensures { sender_of self.new ≡ then_by shifts.now turn frames (sender_of self.old) }
    {
        self.place = next_place(self.place, shifts.len());
        self.out = turn + frames as u64;
    }
}

// The place after this one of so many, or the first one after the last.
fn next_place(place: usize, count: usize) -> usize
    ensures { result ≡ (if nat_lt (suc place) count then suc place else 0) }
{
    if place < count.saturating_sub(1) {
        place + 1
    } else {
        0
    }
}
