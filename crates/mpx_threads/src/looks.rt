//! How a rank looks for what isn't there yet.
use crate::watch::{Signal, Watch};
use mpx_group::Proc;
use std::sync::Wait;

/// What a rank needs to look: it looks so many times for the same thing, and waits in between, until its gossip has ended.
#[derive(Drop)]
pub(crate) struct Looks<'a> {
    pub(crate) watch: &'a Watch,
    pub(crate) signal: &'a Signal,
    pub(crate) me: Proc,
    pub(crate) count: u64,
}

/// A look that begins: what it can know of.
#[derive(Clone, Copy, Drop)]
pub(crate) struct Look {
    news: u64,
    told: u64,
    has_ended: bool,
}

impl<'a> Looks<'a> {
    /// Before a look. `told` is read before `has_ended`: where the gossip ends behind that, it tells the rank once more.
    pub(crate) fn begin(&self) -> Look {
        let news = self.watch.news();
        let told = self.signal.told();
        let has_ended = self.signal.has_ended();
        Look {
            news,
            told,
            has_ended,
        }
    }

    /// Behind a look that found nothing: waits until there may be something new, and answers whether there may be.
    pub(crate) fn goes_on<R: Wait>(&self, rt: &R, look: Look) -> bool {
        if look.has_ended {
            return false;
        }
        self.watch.has_looked(self.me, look.news);
        self.signal.wait(rt, look.told);
        true
    }

    /// The rank has come to a call.
    pub(crate) fn begins(&self) {
        self.watch.call_begins();
    }

    /// The rank has posted.
    pub(crate) fn has_posted(&self) {
        self.watch.tell_news();
    }
}
