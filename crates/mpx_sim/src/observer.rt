//! Who looks on at a run.

use mpx_meaning::Line;
use mpx_name::Name;
use mpx_node::Node;

/// How far a run is.
#[derive(Clone, Copy)]
pub struct Progress {
    /// How many ranks have finished.
    pub finished: usize,
    /// How many ranks there are.
    pub ranks: usize,
    /// How many statements are done, of all ranks: a call whose outcome is missing isn't.
    pub done: usize,
    /// How many statements there are, of all ranks.
    pub all: usize,
}

/// A frame that goes from process to process.
#[derive(Clone, Copy)]
pub struct FrameSeen {
    /// The turn in which it comes, from 1 on: of a list of frames one comes each turn, from the turn on in which the list is made.
    pub turn: u32,
    /// The process that sends it.
    pub from: u8,
    /// The process to which it goes.
    pub to: u8,
    /// How many bytes it has.
    pub bytes: usize,
}

/// Who looks on at a run: whoever calls for the run gives it. It is told what happens, in order, and can change nothing.
pub trait Observer: Drop {
    /// A run begins, of the script that was read from this text.
    fn begins(&mut self, _text: &[u8]) {}

    /// A turn was made: its number, from 1 on, and how far the run is.
    fn turn(&mut self, number: u32, progress: Progress);

    /// Whether it is to be told of each frame that came, and of the node there. Those of a turn then come one after the other, in their order;
    /// else each process takes its own by itself.
    fn follows_frames(&self) -> bool {
        false
    }

    /// A frame was made, and goes out, or it was drawn to be lost.
    fn sent(&mut self, _frame: FrameSeen, _lost: bool) {}

    /// Where it follows frames: a frame came, for the first time or again, and was joined to the board of its process: this is the node there, as it then stands.
    fn taken(&mut self, _frame: FrameSeen, _again: bool, _node: &Node) {}

    /// Whether it is to be told of each call that a rank posts.
    fn follows_posts(&self) -> bool {
        false
    }

    /// Where it follows posts: a rank posted the call of this number on a context, in this turn, from 1 on, be it the one that ends the run, by the
    /// statement of this number among its own, from 0 on. Of a turn it is told posts before lines.
    fn posted(&mut self, _turn: u32, _rank: u8, _name: &Name, _call: u32, _statement: usize) {}

    /// Where it follows posts: memory for one that a rank posted was refused, so it isn't told of that one.
    fn missed(&mut self) {}

    /// A rank has new lines in this turn, from 1 on, be it the one that ends the run: all its lines so far.
    fn told(&mut self, _turn: u32, _rank: u8, _lines: &[Line]) {}

    /// Whether it is to be told how far a run in threads is.
    fn follows_threads(&self) -> bool {
        false
    }

    /// Where it follows runs in threads: such a run goes on, and is so far. Here `done` and `all` count calls, done with those that ranks have
    /// begun. One thread alone tells it that, now and then.
    fn goes_on(&mut self, _progress: Progress) {}

    /// The run is over: a simulated one, or one in threads where it follows these.
    fn over(&mut self);
}

/// Nobody looks on.
#[derive(Drop)]
pub struct Unobserved;

impl Observer for Unobserved {
    fn turn(&mut self, _number: u32, _progress: Progress) {}

    fn over(&mut self) {}
}
