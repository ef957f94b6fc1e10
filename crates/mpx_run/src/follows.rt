//! Who looks on at a run in threads: an observer, where it follows such runs.
use mpx_sim::{Observer, Progress};
use mpx_threads::{Onlooker, SoFar};

/// Tells an observer how far a run in threads is. The observer's type is a parameter, since a field that is a `&mut dyn` gets no proof.
#[derive(Drop)]
pub(crate) struct Follows<O> {
    pub(crate) observer: O,
    /// Whether it follows such runs.
    pub(crate) looks: bool,
}

impl Onlooker for Follows<&mut dyn Observer> {
    fn looks(&self) -> bool {
        self.looks
    }

    fn goes_on(&mut self, far: SoFar) {
        self.observer.goes_on(Progress {
            finished: far.ended as usize,
            ranks: far.ranks as usize,
            done: far.begun as usize,
            all: far.calls as usize,
        });
    }

    fn over(&mut self) {
        self.observer.over();
    }
}
