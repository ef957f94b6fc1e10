//! A port under its lock.
ghost use Rattle.std.specs.Prelude.{◌≡◌, ◌+◌, ◌<◌, [], ◌∷◌, ◌++◌, length, is_some, IfOk, IsTrue, OnOk, OnErr};
ghost use Rattle.mpx_node.specs.Nodes.{Opens, Posts, checked_on, gathers_on};
ghost use Rattle.mpx_bus.specs.Answers.{PushesNext};
ghost use Rattle.mpx_bus.specs.Ports.{PortGoes, node_in};
ghost use Rattle.mpx_bus.specs.Buses.{table_of};
ghost use Rattle.mpx_ticket.specs.Tickets.{HoldsAnswer, IsAnswer};
ghost use Rattle.mpx_shared.specs.LawfulPorts.{HasGoneOn, IsLawful, IsNext, MakesNoPost, made_in};
ghost use Rattle.mpx_shared.specs.Gossip.{Pulls, frame_limit};
ghost use Rattle.mpx_shared.specs.Tickets.{AnswersTicket, HeldAnswer, OpensThen, PostsThen, TellsBirth, TellsClosed, ToldBirth, birth_on, call_of};
ghost use Rattle.mpx_shared.specs.Turns.{PullsThen, PutsThen};

use crate::contexts::{add_context, leave_dead, new_context};
use crate::fingerprint::fingerprint;
use crate::gossip::pull_on;
use crate::port_lock::PortLock;
use crate::pull::Pull;
use join_core::{Exact, OutOfMemory};
use mpx_birth::Birth;
use mpx_bus::{Bus, Port, Push};
use mpx_group::Proc;
use mpx_name::Name;
use mpx_num::{Listing, Ops};
use mpx_post::{Draft, PostError};
use mpx_ticket::{Ticket, TicketTested, answer_to, post_counted, ticket_for};
use std::alloc::Global;
use std::marker::Model;
use std::sync::Wait;
use std::sync::ledger::{Book, Share};

/// The most bytes of a frame.
const LIMIT: usize = 1_048_576;

/// A port under a lock, with the book of its posts and the contexts on which it has posted. To a contract it is the port, how many
/// posts it has made since it was put there, and on which contexts below the world that aren't dead.
#[derive(Drop)]
pub struct HeldPort<L: PortLock> {
    port: Port,
    me: Proc,
    contexts: Vec<Name>,
    book: Book<L>,
}

impl<L: PortLock> Model for HeldPort<L> {
    ghost use Rattle.std.specs.Prelude.{◌≡◌, ℕ, List};
    ghost use Rattle.mpx_name.specs.Name.{Name as NameView};
    ghost use Rattle.mpx_bus.specs.Ports.{PortView};
    ghost use Rattle.mpx_shared.specs.LawfulPorts.{IsHeldPort};

    ghost Value = { PortView × (ℕ × List NameView) };

    ghost view = { λ m. (m.port, (m.book.total, m.contexts.items)) };

    ghost invariant = { λ m. (m.me ≡ L.me) × IsHeldPort L.table L.setup L.me L.opening L.before m.port m.book.total m.contexts.items };
}

impl<L: PortLock> HeldPort<L> {
    pub(crate) fn new(alloc: Global, port: Port, me: Proc, book: Book<L>) -> HeldPort<L>
        requires port { IsLawful L.table L.setup L.me port }
        requires me { me ≡ L.me }
        requires opening { port.journal ≡ L.opening }
        requires count { length (made_in port) ≡ L.before }
        requires book { book.total ≡ 0 }
        ensures { result ≡ (port, (0, [])) }
    {
        HeldPort {
            port,
            me,
            contexts: Vec::new(alloc),
            book,
        }
    }

    /// Makes the next post on a context, as [`Port::post`] does, and gives its ticket. An `Err` leaves all as before: it is the post's
    /// first refusal, or want of memory.
    pub fn post(
        &mut self,
        alloc: Global,
        share: &mut Share<L>,
        name: &Name,
        draft: Draft,
        ops: &Ops,
    ) -> Result<Ticket, PostError>
        requires list { ⟦<Ops as Listing>⟧.operations ops.now ≡ L.setup.operations }
        requires whole { (share.old.parts ≡ L.parts) × (0 < L.parts) }
        requires next { IsNext L.setup L.me (L.before + share.old.amount) name.now draft }
        ensures parts { share.new.parts ≡ share.old.parts }
        ensures ok { OnOk result (share.new.amount ≡ share.old.amount + 1) }
        ensures err { OnErr result ((share.new.amount ≡ share.old.amount) × (self.new ≡ self.old)) }
        ensures port { PortGoes self.old.0 self.new.0 }
        ensures node { Posts name.now (checked_on self.old.0.setup.operations (node_in self.old.0) name.now draft) (call_of result) (node_in self.old.0) (node_in self.new.0) }
        ensures then { PostsThen L.table L.setup L.me L.opening (L.before + share.old.amount) name.now draft result }
    {
        self.book.audit(share);
        let ticket = ticket_for(alloc, self.port.node(), self.me, name, &draft, ops)?;
        let Ok(context) = new_context(&mut self.contexts, alloc, name) else {
            return Err(PostError::OutOfMemory);
        };
        let _call = post_counted(
            alloc,
            &mut self.port,
            &mut self.book,
            share,
            name,
            draft,
            ops,
        )?;
        add_context(&mut self.contexts, context);
        // so that the proof knows that the port stands where its journal says
        let _node = self.port.node();
        Ok(ticket)
    }

    /// What the port answers a ticket: the call's result, or that it has none yet or none any more, or that the post isn't its own. An
    /// `Err` is want of memory for a copy of the result, which is there then.
    pub fn test(&self, alloc: Global, ticket: &Ticket) -> Result<TicketTested, OutOfMemory>
        ensures answer { IfOk result (λ tested. IsAnswer self.now.0 ticket.now tested) }
        ensures memory { OnErr result (HoldsAnswer self.now.0 ticket.now) }
        ensures then { IfOk result (λ tested. AnswersTicket L.table L.setup L.me L.opening ticket.now tested) }
        ensures wanted { OnErr result (HeldAnswer L.table L.setup L.me L.opening ticket.now) }
    {
        // so that the proof knows that the port stands where its journal says
        let _node = self.port.node();
        answer_to(alloc, &self.port, self.me, ticket)
    }

    /// Opens a gathering, as [`Port::open_gathering`] does, with its refusals. An `Err` leaves all as before.
    pub fn open_gathering(
        &mut self,
        alloc: Global,
        share: &mut Share<L>,
        parent: &Name,
        tag: i128,
        ranks: &[i128],
    ) -> Result<Name, PostError>
        requires whole { share.old.parts ≡ L.parts }
        ensures parts { share.new.parts ≡ share.old.parts }
        ensures amount { share.new.amount ≡ share.old.amount }
        ensures port { MakesNoPost self.old.0 self.new.0 }
        ensures err { OnErr result (self.new ≡ self.old) }
        ensures node { Opens parent.now (gathers_on (node_in self.old.0) parent.now tag ranks.now) result (node_in self.old.0) (node_in self.new.0) }
        ensures then { OpensThen L.table L.setup L.me L.opening (L.before + share.old.amount) parent.now tag ranks.now result }
    {
        self.book.audit(share);
        // so that the proof knows that the port stands where its journal says, before and after
        let _before = self.port.node();
        let opened = self.port.open_gathering(alloc, parent, tag, ranks);
        let _after = self.port.node();
        opened
    }

    /// Whether the port has posted a free on the context.
    pub fn is_closed(&mut self, share: &mut Share<L>, name: &Name) -> bool
        requires whole { share.old.parts ≡ L.parts }
        ensures parts { share.new.parts ≡ share.old.parts }
        ensures amount { share.new.amount ≡ share.old.amount }
        ensures same { self.new ≡ self.old }
        ensures then { TellsClosed L.table L.setup L.me L.opening (L.before + share.old.amount) name.now result }
    {
        self.book.audit(share);
        self.port.node().has_freed(name)
    }

    /// How a communicator came to be, where the port's board tells it. An `Err` is want of memory for a copy: the board tells it then.
    pub fn birth(&self, alloc: Global, name: &Name) -> Result<Option<Birth>, OutOfMemory>
        ensures told { IfOk result (λ birth. birth_on self.now.0 name.now ≡ birth) }
        ensures memory { OnErr result (IsTrue (is_some (birth_on self.now.0 name.now))) }
        ensures then { IfOk result (λ birth. TellsBirth L.table L.setup L.me L.opening name.now birth) }
        ensures wanted { OnErr result (ToldBirth L.table L.setup L.me L.opening name.now) }
    {
        match self.port.node().board().birth(name) {
            None => Ok(None),
            Some(birth) => Ok(Some(birth.copy(alloc)?)),
        }
    }

    /// Pops a frame and takes in its part; then stores the results that can be had, and drops what every member has harvested.
    /// Contexts that are dead then are looked at no more.
    pub fn pull<R: Wait>(&mut self, rt: &R, alloc: Global, bus: &Bus, ops: &Ops) -> Pull
        requires list { ⟦<Ops as Listing>⟧.operations ops.now ≡ L.setup.operations }
        requires queue { table_of bus.now ≡ L.table }
        ensures port { MakesNoPost self.old.0 self.new.0 }
        ensures pulls { Pulls result self.old.1.1 self.old.0 self.new.0 }
        ensures then { PullsThen L.table L.setup L.me L.opening result }
    {
        // so that the proof knows that the port stands where its journal says, before and after
        let _before = self.port.node();
        let pull = pull_on(
            rt,
            alloc,
            bus,
            &mut self.port,
            self.contexts.as_slice(),
            ops,
        );
        let after = self.port.node();
        leave_dead(&mut self.contexts, after.board());
        pull
    }

    /// Pushes the next frame of what others may lack, as [`Bus::push_own`] does. An `Err` is want of memory for a new list.
    pub fn put<R: Wait>(&mut self, rt: &R, alloc: Global, bus: &Bus) -> Result<Push, OutOfMemory>
        requires queue { table_of bus.now ≡ L.table }
        ensures port { MakesNoPost self.old.0 self.new.0 }
        ensures next { IfOk result (λ push. PushesNext frame_limit push self.old.0 self.new.0) }
        ensures err { OnErr result (self.new ≡ self.old) }
        ensures then { PutsThen L.table L.setup L.me L.opening result }
    {
        // so that the proof knows that the port stands where its journal says, before and after
        let _before = self.port.node();
        let put = bus.push_own(rt, alloc, &mut self.port, LIMIT);
        let _after = self.port.node();
        put
    }

    /// What the port's board says, in one number.
    pub fn fingerprint(&self) -> u64 {
        fingerprint(self.port.node().board())
    }

    /// The port, which has made as many posts as the share says.
    pub fn open(self, share: &mut Share<L>) -> Port
        requires { share.old.parts ≡ L.parts }
        ensures lawful { IsLawful L.table L.setup L.me result }
        ensures gone_on { HasGoneOn L.setup L.me L.opening result }
        ensures posts { length (made_in result) ≡ L.before + share.old.amount }
    {
        let HeldPort {
            port,
            me: _,
            contexts: _,
            mut book,
        } = self;
        book.audit(share);
        // so that the proof knows that the port stands where its journal says
        let _node = port.node();
        port
    }
}
