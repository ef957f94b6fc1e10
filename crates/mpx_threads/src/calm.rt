//! How long nothing was new about one process's gossip.
use crate::watch::Watch;
use mpx_at_once::Pace;
use mpx_group::Proc;
use std::sync::Wait;

// After so many turns in a row under the same news the rank looks, so that it has looked under these.
const LOOK: u32 = 1;

// A gossip tells that it is still after so many turns in a row under the same news.
const STILL: u32 = 100;

// After so many the queue, which has room for fewer, has lost each frame that was there before them.
const LONG: u32 = 300;

/// What a gossip saw at its last turns.
#[derive(Drop)]
pub(crate) struct Calm {
    // what its board says, and how it rests while nothing is new
    print: u64,
    pace: Pace,
    // the news, and for how many turns they have been the same
    news: u64,
    still: u32,
}

impl Calm {
    /// Before the first turn of this process, where its board says this.
    pub(crate) fn new(me: Proc, print: u64) -> Calm {
        Calm {
            print,
            pace: Pace::new(me.number()),
            news: 0,
            still: 0,
        }
    }

    /// A turn was made, and the board says this now. What is new is told to all, and so is that nothing was for long: who finds that
    /// nobody can hear anything new stops the run. It answers whether the rank is to look: the board says something new, or the news have
    /// come to a stand.
    pub(crate) fn note(&mut self, watch: &Watch, me: Proc, print: u64) -> bool {
        if print != self.print {
            self.print = print;
            self.still = 0;
            self.pace.note(true);
            watch.tell_news();
            return true;
        }
        let news = watch.news();
        self.pace.note(news != self.news);
        if news != self.news {
            self.news = news;
            self.still = 0;
            return false;
        }
        self.still = self.still.saturating_add(1);
        if self.still >= STILL {
            watch.is_still(me, news, print);
            if watch.is_at_rest(news, print, self.still >= LONG) {
                watch.stop();
            }
        }
        self.still == LOOK
    }

    /// Rests behind a turn. A gossip that sleeps has told that it is still, if it was.
    pub(crate) fn rest<R: Wait>(&mut self, rt: &R, watch: &Watch) {
        self.pace.rest(rt, &watch.sleepers);
    }
}
