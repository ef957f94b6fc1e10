//! Who looks on at a run in threads: the thread that called for the run tells it how far that is, while the others work.
use crate::watch::Watch;
use mpx_at_once::Stop;
use mpx_script::Script;
use mpx_statement::Statement;
use std::cell::RefCell;
use std::sync::Wait;

/// How far a run in threads is.
#[derive(Clone, Copy, Debug, PartialEq, Eq)]
pub struct SoFar {
    /// How many ranks go no further.
    pub ended: u64,
    /// How many ranks there are.
    pub ranks: u64,
    /// How many calls ranks have begun: the last of each may still wait for its outcome.
    pub begun: u64,
    /// How many calls there are, of all ranks.
    pub calls: u64,
}

/// Who looks on at a run in threads. It is told by one thread alone, that of its caller, and can change nothing.
pub trait Onlooker: Drop {
    /// Whether it is to be told anything.
    fn looks(&self) -> bool;

    /// The run goes on, and is so far. This is told at least every fifth of a second.
    fn goes_on(&mut self, far: SoFar);

    /// Each process has done what it does. It isn't told where a thread is refused.
    fn over(&mut self);
}

/// Nobody looks on.
#[derive(Drop)]
pub struct NobodyLooks;

impl Onlooker for NobodyLooks {
    fn looks(&self) -> bool {
        false
    }

    fn goes_on(&mut self, _far: SoFar) {}

    fn over(&mut self) {}
}

/// Who stands by while all processes work, for whoever looks on at the run of a script.
#[derive(Drop)]
pub(crate) struct StandsBy<'a, O: Onlooker> {
    pub(crate) watch: &'a Watch,
    pub(crate) script: &'a Script,
    pub(crate) onlooker: RefCell<O>,
}

impl<O: Onlooker> Stop for StandsBy<'_, O> {
    fn stop(&self) {
        self.watch.stop();
    }

    // Where somebody looks on it waits until all processes have worked, and tells from time to time how far they are.
    fn meanwhile<R: Wait>(&self, rt: &R) {
        if let Ok(mut onlooker) = self.onlooker.try_borrow_mut() {
            if onlooker.looks() {
                tell_all(rt, self.watch, self.script, &mut *onlooker);
            }
        }
    }
}

// Tells how far the run of a script is, until all processes have worked.
fn tell_all<O: Onlooker, R: Wait>(rt: &R, watch: &Watch, script: &Script, onlooker: &mut O) {
    let calls = calls_of(script);
    for _ in rt.forever() {
        if watch.waits_for_all(rt) {
            onlooker.over();
            return;
        }
        onlooker.goes_on(SoFar {
            ended: watch.ended(),
            ranks: u64::from(script.ranks()),
            begun: watch.begun(),
            calls,
        });
    }
    unreachable!()
}

// How many calls a script has, of all ranks.
fn calls_of(script: &Script) -> u64 {
    let mut calls: u64 = 0;
    for rank in 0..script.ranks() {
        calls = calls.saturating_add(calls_in(script.statements(rank)));
    }
    calls
}

fn calls_in(statements: &[Statement]) -> u64 {
    let mut calls: u64 = 0;
    for statement in statements {
        match statement {
            Statement::Post(_) => calls = calls.saturating_add(1),
            Statement::Wait(_) => {}
            Statement::Ask(_) => {}
        }
    }
    calls
}
