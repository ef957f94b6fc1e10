//! A port that threads share.
ghost use Rattle.std.specs.Prelude.{◌≡◌, ◌+◌, ◌<◌, length, IfOk, OnOk, OnErr};
ghost use Rattle.mpx_bus.specs.Buses.{table_of};
ghost use Rattle.mpx_shared.specs.LawfulPorts.{HasGoneOn, IsLawful, IsNext, made_in};
ghost use Rattle.mpx_shared.specs.Tickets.{AnswersTicket, HeldAnswer, OpensThen, PostsThen, TellsBirth, TellsClosed, ToldBirth};
ghost use Rattle.mpx_shared.specs.Turns.{PullsThen, PutsThen, TurnsThen};

use crate::held_port::HeldPort;
use crate::port_lock::PortLock;
use crate::pull::Pull;
use join_core::OutOfMemory;
use mpx_birth::Birth;
use mpx_bus::{Bus, Port, Push};
use mpx_group::Proc;
use mpx_name::Name;
use mpx_num::{Listing, Ops};
use mpx_post::{Draft, PostError};
use mpx_ticket::{Ticket, TicketTested};
use std::alloc::Global;
use std::sync::ledger::{Blank, Share};
use std::sync::{Mutex, Wait};
use std::thread::yield_now;

/// A port under a lock. Each call takes the lock once, so that it speaks of the port at one moment.
#[derive(Drop)]
pub struct SharedPort<L: PortLock> {
    held: Mutex<HeldPort<L>>,
}

/// The only share of a shared port's ledger: who has it knows how many posts the port has made since it was put under the lock, and
/// nobody else posts.
#[derive(Drop)]
pub struct Poster<L: PortLock> {
    pub(crate) share: Share<L>,
    ghost whole: { share.parts ≡ L.all },
}

impl<L: PortLock> SharedPort<L> {
    /// Puts the port of this process under a lock. It takes no memory.
    pub fn new(alloc: Global, port: Port, me: Proc, blank: Blank) -> (SharedPort<L>, Poster<L>)
        requires ledger { (blank.name ≡ L.name) × ((blank.parts ≡ L.parts) × (L.all ≡ L.parts)) }
        requires port { IsLawful L.table L.setup L.me port }
        requires me { me ≡ L.me }
        requires opening { port.journal ≡ L.opening }
        requires count { length (made_in port) ≡ L.before }
        ensures { result.1.share.amount ≡ 0 }
    {
        let (book, share) = blank.open::<L>();
        let held = Mutex::new(HeldPort::new(alloc, port, me, book));
        (SharedPort { held }, Poster { share })
    }

    /// Makes the next post on a context, as [`Port::post`] does, and gives its ticket. An `Err` leaves all as before: it is the post's
    /// first refusal, or want of memory. It may wait for the lock, as all calls do.
    pub fn post<R: Wait>(
        &self,
        rt: &R,
        alloc: Global,
        poster: &mut Poster<L>,
        name: &Name,
        draft: Draft,
        ops: &Ops,
    ) -> Result<Ticket, PostError>
        requires list { ⟦<Ops as Listing>⟧.operations ops.now ≡ L.setup.operations }
        requires ledger { (L.all ≡ L.parts) × (0 < L.parts) }
        requires next { IsNext L.setup L.me (L.before + poster.old.share.amount) name.now draft }
        ensures ok { OnOk result (poster.new.share.amount ≡ poster.old.share.amount + 1) }
        ensures err { OnErr result (poster.new.share.amount ≡ poster.old.share.amount) }
        ensures then { PostsThen L.table L.setup L.me L.opening (L.before + poster.old.share.amount) name.now draft result }
    {
        self.held
            .lock(rt)
            .post(alloc, &mut poster.share, name, draft, ops)
    }

    /// What the port answers a ticket: the call's result, or that it has none yet or none any more, or that the post isn't its own. It
    /// harvests nothing. An `Err` is want of memory for a copy of the result, which the port holds then.
    pub fn test<R: Wait>(
        &self,
        rt: &R,
        alloc: Global,
        ticket: &Ticket,
    ) -> Result<TicketTested, OutOfMemory>
        ensures then { IfOk result (λ tested. AnswersTicket L.table L.setup L.me L.opening ticket.now tested) }
        ensures wanted { OnErr result (HeldAnswer L.table L.setup L.me L.opening ticket.now) }
    {
        self.held.lock(rt).test(alloc, ticket)
    }

    /// Opens a gathering, as [`Port::open_gathering`] does. An `Err` leaves all as before. The poster is asked, since it knows how many
    /// posts the port has made, and with that whether it has posted a free on the parent.
    pub fn open_gathering<R: Wait>(
        &self,
        rt: &R,
        alloc: Global,
        poster: &mut Poster<L>,
        parent: &Name,
        tag: i128,
        ranks: &[i128],
    ) -> Result<Name, PostError>
        requires ledger { L.all ≡ L.parts }
        ensures amount { poster.new.share.amount ≡ poster.old.share.amount }
        ensures then { OpensThen L.table L.setup L.me L.opening (L.before + poster.old.share.amount) parent.now tag ranks.now result }
    {
        self.held
            .lock(rt)
            .open_gathering(alloc, &mut poster.share, parent, tag, ranks)
    }

    /// Whether the port has posted a free on the context. The poster is asked, since it knows how many posts the port has made.
    pub fn is_closed<R: Wait>(&self, rt: &R, poster: &mut Poster<L>, name: &Name) -> bool
        requires ledger { L.all ≡ L.parts }
        ensures amount { poster.new.share.amount ≡ poster.old.share.amount }
        ensures then { TellsClosed L.table L.setup L.me L.opening (L.before + poster.old.share.amount) name.now result }
    {
        self.held.lock(rt).is_closed(&mut poster.share, name)
    }

    /// How a communicator came to be, where the port's board tells it. An `Err` is want of memory for a copy: the board tells it then.
    pub fn birth<R: Wait>(
        &self,
        rt: &R,
        alloc: Global,
        name: &Name,
    ) -> Result<Option<Birth>, OutOfMemory>
        ensures then { IfOk result (λ birth. TellsBirth L.table L.setup L.me L.opening name.now birth) }
        ensures wanted { OnErr result (ToldBirth L.table L.setup L.me L.opening name.now) }
    {
        self.held.lock(rt).birth(alloc, name)
    }

    /// Pops a frame and takes in its part; then stores the results that can be had, and drops what every member has harvested. It tells
    /// whether there was a frame, or that memory was wanting.
    pub fn pull<R: Wait>(&self, rt: &R, alloc: Global, bus: &Bus, ops: &Ops) -> Pull
        requires list { ⟦<Ops as Listing>⟧.operations ops.now ≡ L.setup.operations }
        requires queue { table_of bus.now ≡ L.table }
        ensures { PullsThen L.table L.setup L.me L.opening result }
    {
        self.held.lock(rt).pull(rt, alloc, bus, ops)
    }

    /// Pushes the next frame of what others may lack, as [`Bus::push_own`] does. An `Err` is want of memory for a new list.
    pub fn put<R: Wait>(&self, rt: &R, alloc: Global, bus: &Bus) -> Result<Push, OutOfMemory>
        requires queue { table_of bus.now ≡ L.table }
        ensures { PutsThen L.table L.setup L.me L.opening result }
    {
        self.held.lock(rt).put(rt, alloc, bus)
    }

    /// A number of 64 bits made from what the port's board says. Boards that say the same give the same number; boards that don't may give
    /// the same one too. So where it changes the board says something new. Where it stays the board almost surely says nothing new, and where
    /// two ports have one number their boards almost surely say the same: that is a guess, and nothing is proved of it.
    pub fn fingerprint<R: Wait>(&self, rt: &R) -> u64 {
        self.held.lock(rt).fingerprint()
    }

    /// A pull and a put, `turns` times, each time with a yield to other threads behind: a thread that went on would meet its own frames
    /// in the queue. It ends at the first want of memory, which is its `Err`.
    pub fn gossip<R: Wait>(
        &self,
        rt: &R,
        alloc: Global,
        bus: &Bus,
        turns: u32,
        ops: &Ops,
    ) -> Result<(), OutOfMemory>
        requires list { ⟦<Ops as Listing>⟧.operations ops.now ≡ L.setup.operations }
        requires queue { table_of bus.now ≡ L.table }
        ensures { TurnsThen L.table L.setup L.me L.opening turns result }
    {
        for _turn in 0..turns {
            if let Pull::OutOfMemory(_) = self.pull(rt, alloc, bus, ops) {
                return Err(OutOfMemory);
            }
            let _ = self.put(rt, alloc, bus)?;
            yield_now();
        }
        Ok(())
    }

    /// The port. It has made as many posts as the poster says, and goes on from what it was when it was put under the lock.
    pub fn into_port(self, poster: Poster<L>) -> Port
        requires ledger { L.all ≡ L.parts }
        ensures lawful { IsLawful L.table L.setup L.me result }
        ensures gone_on { HasGoneOn L.setup L.me L.opening result }
        ensures posts { length (made_in result) ≡ L.before + poster.share.amount }
    {
        let SharedPort { held } = self;
        let Poster { mut share } = poster;
        held.into_inner().open(&mut share)
    }
}
