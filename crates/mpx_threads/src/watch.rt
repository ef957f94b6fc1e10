//! What threads of a run tell each other beside the bus: of none of it anything is claimed.
//!
//! A run ends at rest, once nobody can hear anything new. Each event that changes a port raises a common number, `news`, once it has
//! happened. A gossip that has made so many turns in a row under the same news tells that number, and the fingerprint of what its board
//! says, which it took after it had read the number; a rank tells the number that it had read before its last look that found nothing.
//! Where all of them have told the number that stands now, and the same fingerprint, all boards say the same. So no frame under way says
//! anything new, and no rank has a result that it hasn't seen.
use join_core::OutOfMemory;
use mpx_at_once::Sleepers;
use mpx_group::Proc;
use std::alloc::Global;
use std::sync::Wait;
use std::sync::atomic::{AtomicBool, AtomicU64, Ordering};
use std::thread::Parker;
use std::time::Duration;

// Told of the news by who has ended.
const ENDED: u64 = u64::MAX;

// So long the caller's thread sleeps at most before it tells how far the run is.
const EACH_MILLIS: u64 = 200;

/// What all threads see: how many calls were begun, how many ranks have ended and how many processes have worked, whether the run is to
/// stop, and what each process tells of itself. The caller's thread sleeps on `caller`, gossips that hear nothing new among `sleepers`.
#[derive(Drop)]
pub(crate) struct Watch {
    begun: AtomicU64,
    ended: AtomicU64,
    worked: AtomicU64,
    caller: Parker,
    stopped: AtomicBool,
    news: AtomicU64,
    pub(crate) sleepers: Sleepers,
    processes: Vec<Quiet>,
}

// How quiet it is about a process: the news under which its gossip has made so many turns, with what its board said then, and the news
// under which its rank has looked and found nothing.
#[derive(Drop)]
struct Quiet {
    still: AtomicU64,
    print: AtomicU64,
    looked: AtomicU64,
}

impl Quiet {
    fn new(looked: u64) -> Quiet {
        Quiet {
            still: AtomicU64::new(0),
            print: AtomicU64::new(0),
            looked: AtomicU64::new(looked),
        }
    }

    // A gossip that has ended counts once the queue has lost the frames that it had put in.
    fn is_at_rest(&self, news: u64, print: u64, for_long: bool) -> bool {
        let looked = self.looked.load(Ordering::SeqCst);
        let still = self.still.load(Ordering::SeqCst);
        let has_looked = looked == news || looked == ENDED;
        let is_still = still == news && self.print.load(Ordering::SeqCst) == print;
        has_looked && (is_still || for_long && still == ENDED)
    }
}

impl Watch {
    /// So many processes, of which the first are ranks.
    pub(crate) fn new(alloc: Global, ranks: u8, processes: u8) -> Result<Watch, OutOfMemory> {
        let mut told = Vec::new(alloc);
        for process in 0..processes {
            told.push(Quiet::new(if process < ranks { 0 } else { ENDED }))?;
        }
        Ok(Watch {
            begun: AtomicU64::new(0),
            ended: AtomicU64::new(0),
            worked: AtomicU64::new(0),
            caller: Parker::new(),
            stopped: AtomicBool::new(false),
            news: AtomicU64::new(1),
            sleepers: Sleepers::new(),
            processes: told,
        })
    }

    /// The number of the last event that changed a port.
    pub(crate) fn news(&self) -> u64 {
        self.news.load(Ordering::SeqCst)
    }

    /// Something has changed a port: all gossips that sleep are woken.
    pub(crate) fn tell_news(&self) {
        self.news.fetch_add(1, Ordering::SeqCst);
        self.sleepers.wake();
    }

    /// The rank of this process had read this number when it looked and found nothing.
    pub(crate) fn has_looked(&self, me: Proc, news: u64) {
        if let Some(told) = self.processes.get(usize::from(me.number())) {
            told.looked.store(news, Ordering::SeqCst);
        }
    }

    /// The gossip of this process has made so many turns in a row under this number, and its board says this.
    pub(crate) fn is_still(&self, me: Proc, news: u64, print: u64) {
        if let Some(told) = self.processes.get(usize::from(me.number())) {
            told.print.store(print, Ordering::SeqCst);
            told.still.store(news, Ordering::SeqCst);
        }
    }

    /// The gossip of this process has made all its turns.
    pub(crate) fn gossip_ends(&self, me: Proc) {
        self.is_still(me, ENDED, 0);
        self.tell_news();
    }

    /// The rank of this process goes no further.
    pub(crate) fn rank_ends(&self, me: Proc) {
        self.has_looked(me, ENDED);
        self.ended.fetch_add(1, Ordering::SeqCst);
        self.sleepers.wake();
    }

    /// A rank has come to a call.
    pub(crate) fn call_begins(&self) {
        self.begun.fetch_add(1, Ordering::SeqCst);
    }

    /// All threads of a process have ended.
    pub(crate) fn process_ends(&self) {
        self.worked.fetch_add(1, Ordering::SeqCst);
        self.caller.unpark();
    }

    /// To how many calls ranks have come.
    pub(crate) fn begun(&self) -> u64 {
        self.begun.load(Ordering::SeqCst)
    }

    /// How many ranks go no further.
    pub(crate) fn ended(&self) -> u64 {
        self.ended.load(Ordering::SeqCst)
    }

    /// Sleeps for a while, or until a process has worked; answers whether all have.
    pub(crate) fn waits_for_all<R: Wait>(&self, rt: &R) -> bool {
        self.caller
            .park_timeout(rt, Duration::from_millis(EACH_MILLIS));
        self.worked.load(Ordering::SeqCst) >= self.processes.len() as u64
    }

    /// Whether nobody can hear anything new, as far as all have told under this number.
    pub(crate) fn is_at_rest(&self, news: u64, print: u64, for_long: bool) -> bool {
        for told in &self.processes {
            if !told.is_at_rest(news, print, for_long) {
                return false;
            }
        }
        self.news() == news
    }

    /// The run is to stop: memory was wanting, the gate gave up, or nobody can hear anything new.
    pub(crate) fn stop(&self) {
        self.stopped.store(true, Ordering::SeqCst);
        self.sleepers.wake();
    }

    /// Whether nobody needs any gossip more: so many ranks have ended, or the run is to stop.
    pub(crate) fn is_over(&self, ranks: u8) -> bool {
        self.stopped.load(Ordering::SeqCst) || self.ended.load(Ordering::SeqCst) >= u64::from(ranks)
    }
}

/// What the gossip of a process tells its rank: that there may be something new, and that there will be nothing more.
#[derive(Drop)]
pub(crate) struct Signal {
    rank: Sleepers,
    ended: AtomicBool,
}

impl Signal {
    pub(crate) fn new() -> Signal {
        Signal {
            rank: Sleepers::new(),
            ended: AtomicBool::new(false),
        }
    }

    /// There may be something new.
    pub(crate) fn tell(&self) {
        self.rank.wake();
    }

    /// There is nothing more to come.
    pub(crate) fn end(&self) {
        self.ended.store(true, Ordering::SeqCst);
        self.rank.wake();
    }

    pub(crate) fn has_ended(&self) -> bool {
        self.ended.load(Ordering::SeqCst)
    }

    /// How often the rank was told.
    pub(crate) fn told(&self) -> u64 {
        self.rank.wakes()
    }

    /// Waits until the rank is told more often than this. Only while the gossip hasn't ended will it be told.
    pub(crate) fn wait<R: Wait>(&self, rt: &R, told: u64) {
        self.rank.wait(rt, told);
    }
}
