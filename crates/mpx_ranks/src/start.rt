//! Where the threads of a job meet before any of them begins.
ghost use Rattle.std.specs.Prelude.{◌≡◌, ◌<◌, IfSome};
ghost use Rattle.std.proofs.Props.{props};

use std::sync::ledger::{Blank, Book, Ledger, Share, Total};
use std::sync::{Mutex, OnceLock, OnceToken, Wait};

/// Where the threads of a job meet: those that are still to come, and what shows that there are none, once there are none.
#[derive(Drop)]
pub(crate) struct Start<K: Ledger> {
    lacking: Mutex<Lacking<K>>,
    pub(crate) all: OnceLock<AllCame<K>>,
}

// How many threads are still to come. Each has an amount of one on the ledger, which it gives up when it comes.
#[derive(Drop)]
struct Lacking<K: Ledger> {
    count: u64,
    book: Option<Book<K>>,
    ghost counted: { IfSome book (λ b. b.total ≡ count) } by { Prim.hlevel props },
}

/// What shows that all threads have come: the closed book of their ledger. Its total is what all shares have, and that is nothing.
#[derive(Drop)]
pub(crate) struct AllCame<K: Ledger> {
    total: Total<K>,
    ghost none_lacking: { total.amount ≡ 0 },
}

/// The places of threads that have none yet.
#[derive(Drop)]
pub(crate) struct Places<K: Ledger> {
    left: u64,
    share: Share<K>,
    ghost parts_are: { share.parts ≡ left },
    ghost amount_is: { share.amount ≡ left },
}

/// The place of one thread that is still to come.
#[derive(Drop)]
pub(crate) struct Place<K: Ledger> {
    share: Share<K>,
    ghost counts: { share.amount ≡ 1 },
}

impl<K: Ledger> Start<K> {
    /// So many threads are to come, and these are their places.
    pub(crate) fn new(blank: Blank, count: u64) -> (Start<K>, Places<K>)
        requires ledger { (blank.name ≡ K.name) × (blank.parts ≡ K.parts) }
        requires parts { K.parts ≡ count }
        requires some { 0 < count }
    {
        let (mut book, mut share) = blank.open::<K>();
        book.add(&mut share, count);
        let lacking = Lacking {
            count,
            book: Some(book),
        };
        let start = Start {
            lacking: Mutex::new(lacking),
            all: OnceLock::new(),
        };
        (start, Places { left: count, share })
    }

    /// A thread comes, and gives up its place.
    pub(crate) fn comes<R: Wait>(&self, rt: &R, place: Place<K>) {
        let last = self.lacking.lock(rt).comes(place);
        if let Some(all) = last {
            let _first = self.all.try_set(all);
        }
    }

    /// What shows that all have come, where they have.
    pub(crate) fn all_came(&self) -> Option<OnceToken<'_, AllCame<K>>>
        ensures { IfSome result (λ all. (all.of ≡ self.now.all.id) × (all.value.total.amount ≡ 0)) }
    {
        let all = self.all.witness()?;
        self.all.value(&all).none_lacking();
        Some(all)
    }
}

impl<K: Ledger> Lacking<K> {
    // One more has come. Behind the last one the book is closed.
    fn comes(&mut self, place: Place<K>) -> Option<AllCame<K>> {
        let Lacking { count, book } = self;
        let Place { mut share } = place;
        let mut open = book.take()?;
        open.sub(&mut share, 1);
        *count -= 1;
        if *count == 0 {
            return Some(AllCame {
                total: open.close(),
            });
        }
        *book = Some(open);
        None
    }
}

impl<K: Ledger> AllCame<K> {
    // Nobody is still to come.
    fn none_lacking(&self)
        ensures { self.now.total.amount ≡ 0 }
    {}
}

impl<K: Ledger> Places<K> {
    /// The place of one thread more; none where all are given.
    pub(crate) fn next(&mut self) -> Option<Place<K>> {
        let Places { left, share } = self;
        if *left == 0 {
            return None;
        }
        *left -= 1;
        Some(Place {
            share: share.split_off(1, 1),
        })
    }
}
