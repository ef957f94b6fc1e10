//! What the threads of a job tell each other beside the bus.
ghost use Rattle.std.specs.Prelude.{◌≡◌, IfErr, IfOk, IfSome, is_some};

use crate::start::{AllCame, Place, Start};
use mpx_at_once::{Sleepers, Stop};
use std::marker::{Brand, PhantomData};
use std::sync::atomic::{AtomicU64, Ordering};
use std::sync::ledger::Ledger;
use std::sync::{OnceLock, OnceToken, Wait};
use std::thread::yield_now;

/// Names one job: the ledger of its threads, and what it is that a rank has given up.
pub(crate) trait Job: Ledger {
    ghost use Rattle.std.specs.Prelude.{ℕ};

    ghost gave_up: { ℕ → Type 0 };
}

impl Job for Brand {
    ghost use Rattle.std.specs.Prelude.{⊤};

    ghost gave_up = { λ rank. ⊤ };
}

/// A rank that has given up.
#[derive(Drop)]
pub(crate) struct Quitter<K: Job> {
    pub(crate) rank: u8,
    pub(crate) job: PhantomData<K>,
    ghost gave_up: { ∥ K.gave_up rank ∥₁ },
}

impl<K: Job> Quitter<K> {
    /// The rank with this number, which has given up.
    pub(crate) fn new(rank: u8) -> Quitter<K>
        requires { K.gave_up rank }
        ensures { result.rank ≡ rank }
    {
        Quitter {
            rank,
            job: PhantomData,
        }
    }
}

/// A thread was refused.
#[derive(Drop)]
pub(crate) struct Refused;

/// How many ranks there are, and how many of them have returned; the first rank that gave up, where one did; and whether a thread was
/// refused. Those that hear nothing new sleep until there is something to hear.
#[derive(Drop)]
pub(crate) struct Crew<K: Job> {
    ranks: u64,
    returned: AtomicU64,
    pub(crate) quitter: OnceLock<Quitter<K>>,
    pub(crate) refused: OnceLock<Refused>,
    pub(crate) sleepers: Sleepers,
}

impl<K: Job> Crew<K> {
    /// So many ranks.
    pub(crate) fn new(ranks: u8) -> Crew<K> {
        Crew {
            ranks: u64::from(ranks),
            returned: AtomicU64::new(0),
            quitter: OnceLock::new(),
            refused: OnceLock::new(),
            sleepers: Sleepers::new(),
        }
    }

    /// Waits until all threads have come, this one with its place, and answers what shows that. Or it answers what shows that a thread was
    /// refused, and only then: a rank may have given up while another's thread still looks.
    pub(crate) fn begins<'a, R: Wait>(
        &'a self,
        rt: &R,
        start: &'a Start<K>,
        place: Place<K>,
    ) -> Result<OnceToken<'a, AllCame<K>>, OnceToken<'a, Refused>>
        ensures ok { IfOk result (λ all. (all.of ≡ start.now.all.id) × (all.value.total.amount ≡ 0)) }
        ensures err { IfErr result (λ token. token.of ≡ self.now.refused.id) }
    {
        start.comes(rt, place);
        for _ in rt.forever() {
            if let Some(all) = start.all_came() {
                return Ok(all);
            }
            if let Some(refused) = self.refused.witness() {
                return Err(refused);
            }
            yield_now();
        }
        unreachable!()
    }

    /// A rank has returned. Where it has given up, it answers what shows that a rank has: this one, or the first that did. From then on
    /// there is one.
    pub(crate) fn returns<R: Wait>(
        &self,
        rt: &R,
        quitter: Option<Quitter<K>>,
    ) -> Option<OnceToken<'_, Quitter<K>>>
        ensures told { is_some result ≡ is_some quitter }
        ensures here { IfSome result (λ token. token.of ≡ self.now.quitter.id) }
    {
        let told = match quitter {
            Some(quitter) => Some(self.tells(rt, quitter)),
            None => None,
        };
        self.returned.fetch_add(1, Ordering::SeqCst);
        self.sleepers.wake();
        told
    }

    // This rank has given up, or another had before.
    fn tells<R: Wait>(&self, rt: &R, quitter: Quitter<K>) -> OnceToken<'_, Quitter<K>>
        ensures { result.of ≡ self.now.quitter.id }
    {
        match self.quitter.try_insert(rt, quitter) {
            Ok(token) => token,
            Err((token, _)) => token,
        }
    }

    /// What shows that a rank has given up, where one has.
    pub(crate) fn quitter(&self) -> Option<OnceToken<'_, Quitter<K>>>
        ensures { IfSome result (λ token. token.of ≡ self.now.quitter.id) }
    {
        self.quitter.witness()
    }

    /// Whether nobody needs to hear anything more: all ranks have returned, or one has given up, or a thread was refused.
    pub(crate) fn is_over(&self) -> bool {
        self.quitter().is_some()
            || self.refused.witness().is_some()
            || self.returned.load(Ordering::SeqCst) >= self.ranks
    }
}

impl<K: Job> Stop for Crew<K> {
    fn stop(&self) {
        let _first = self.refused.try_set(Refused);
        self.sleepers.wake();
    }
}
