//! How a member rests while it hears nothing new.
use join_core::Pair;
use join_nest::Lift;
use mpx_at_once::{Pace, Sleepers};
use mpx_board::{Board, Entry, Lifted, is_told};
use std::sync::Wait;

/// What a member has heard, how it rests, and whether its last post is still to wake the others.
#[derive(Drop)]
pub(crate) struct News {
    heard: u64,
    pace: Pace,
    has_posted: bool,
}

impl News {
    /// Before the first turn of this process.
    pub(crate) fn new(me: u8) -> News {
        News {
            heard: 0,
            pace: Pace::new(me),
            has_posted: false,
        }
    }

    /// A turn was made, and this is the board then.
    pub(crate) fn note(&mut self, board: &Board) {
        let heard = count_of(board);
        self.pace.note(heard != self.heard);
        self.heard = heard;
    }

    /// The member has posted, so that there is something to send.
    pub(crate) fn has_posted(&mut self) {
        self.pace.note(true);
        self.has_posted = true;
    }

    /// Rests behind a turn, and wakes the others where that sent a post.
    pub(crate) fn rest<R: Wait>(&mut self, rt: &R, sleepers: &Sleepers) {
        if self.has_posted {
            self.has_posted = false;
            sleepers.wake();
        }
        self.pace.rest(rt, sleepers);
    }
}

// How much a board tells: it grows with each post, front and birth, also where posts are dropped.
fn count_of(board: &Board) -> u64 {
    let Pair { first, second: _ } = board.pair();
    let mut all: u64 = 0;
    for (_name, known) in first.entries() {
        all = all.wrapping_add(count_in(known));
    }
    all
}

fn count_in(known: &Lifted) -> u64 {
    match known {
        Lift::Live(entry) => count_told(entry),
        Lift::Dead => 1 << 40,
    }
}

fn count_told(entry: &Entry) -> u64 {
    let posts = &entry.second.second;
    let mut all = u64::from(posts.dropped())
        .wrapping_mul(65)
        .wrapping_add(u64::from(is_told(&entry.first)));
    for (_process, number) in entry.second.first.entries() {
        all = all.wrapping_add(u64::from(number.0));
    }
    for (_call, made) in posts.entries() {
        for (_process, _post) in made.entries() {
            all = all.wrapping_add(1);
        }
    }
    all
}
