//! The desk of a rank in a thread: it carries the rank's posts over a port that the rank shares with its gossip.
ghost use Rattle.std.specs.Prelude.{◌≡◌, [], IfOk, IfSome, OnOk, Some, true};
ghost use Rattle.mpx_value.specs.Histories.{answer_with};
ghost use Rattle.mpx_meaning.specs.Ranks.{bound_by};
ghost use Rattle.mpx_rank.specs.Answered.{answer_of};
ghost use Rattle.mpx_rank.specs.Places.{bound_as};
ghost use Rattle.mpx_shared.specs.LawfulPorts.{planned_birth};
ghost use Rattle.mpx_shared.specs.Laws.{IsPlannedResult};
ghost use Rattle.mpx_threads.specs.Plans.{planned_results};
ghost use Rattle.mpx_threads.specs.ToldCalls.{HearsMore, TellsCall};

use crate::attempt::Attempt;
use crate::looks::Looks;
use crate::told::Told;
use join_core::OutOfMemory;
use mpx_birth::Birth;
use mpx_group::Proc;
use mpx_meaning::Line;
use mpx_name::Name;
use mpx_node::Finished;
use mpx_num::Ops;
use mpx_post::PostError;
use mpx_rank::{Answered, Carrier, Heard};
use mpx_shared::{PortLock, Poster, SharedPort, Ticket, TicketTested};
use mpx_statement::Posting;
use mpx_value::Outcome;
use std::alloc::Global;
use std::marker::Model;
use std::sync::Wait;

/// What a rank is told of a call: its outcome, and the communicator that it gave, where it gave one.
#[derive(Drop)]
struct Said {
    outcome: Outcome,
    given: Option<(Name, Birth)>,
}

impl Said {
    // What is told by an answer.
    fn by(alloc: Global, answered: &Answered) -> Result<Said, OutOfMemory>
        ensures outcome { IfOk result (λ said. said.outcome ≡ answered.now.outcome) }
        ensures given { IfOk result (λ said. bound_as said.given ≡ bound_by answered.now.outcome answered.now.born) }
    {
        let outcome = answered.outcome.copy(alloc)?;
        let given = answered.given(alloc)?;
        Ok(Said { outcome, given })
    }
}

/// What carries a rank's posts: the port that it shares with its gossip, how it looks for what comes, its right to post, and what it was
/// told.
#[derive(Drop)]
pub(crate) struct ThreadDesk<'a, L: PortLock, R: Wait> {
    rt: &'a R,
    port: &'a SharedPort<L>,
    looks: &'a Looks<'a>,
    poster: Poster<L>,
    told: Told<L>,
}

impl<'a, L: PortLock, R: Wait> Model for ThreadDesk<'a, L, R> {
    ghost use Rattle.std.specs.Prelude.{◌≡◌, true};
    ghost use Rattle.mpx_threads.specs.ToldCalls.{DeskView};

    ghost Value = { DeskView };

    ghost view = { λ d. (d.told, d.poster.share.amount) };

    ghost invariant = { λ d. (L.setup.planned ≡ true) × (L.all ≡ L.parts) };
}

impl<'a, L: PortLock, R: Wait> ThreadDesk<'a, L, R> {
    /// A desk that has posted nothing and was told nothing.
    pub(crate) fn new(
        alloc: Global,
        rt: &'a R,
        port: &'a SharedPort<L>,
        looks: &'a Looks<'a>,
        poster: Poster<L>,
    ) -> ThreadDesk<'a, L, R>
        requires planned { L.setup.planned ≡ true }
        requires ledger { L.all ≡ L.parts }
        ensures { result ≡ ([], poster.share.amount) }
    {
        ThreadDesk {
            rt,
            port,
            looks,
            poster,
            told: Told::new(alloc),
        }
    }

    /// The right to post.
    pub(crate) fn into_poster(self) -> Poster<L>
        ensures { result.share.amount ≡ self.entry.1 }
    {
        let ThreadDesk {
            rt: _,
            port: _,
            looks: _,
            poster,
            told,
        } = self;
        drop(told);
        poster
    }

    // What came of a call, once that can be had: until then it looks. A communicator has to be known with how it came to be.
    fn answer(&self, alloc: Global, ticket: &Ticket) -> Result<Option<Answered>, OutOfMemory>
        ensures { IfOk result (λ found. IfSome found (λ answered. planned_results L.setup L.me ticket.now.name ticket.now.call ≡ Some (answer_of answered))) }
    {
        for _look in 0..self.looks.count {
            let look = self.looks.begin();
            if let Some(answered) = self.answer_now(alloc, ticket)? {
                return Ok(Some(answered));
            }
            if !self.looks.goes_on(self.rt, look) {
                return Ok(None);
            }
        }
        Ok(None)
    }

    // What came of a call, and the birth of its communicator, where both can be had at one look.
    fn answer_now(&self, alloc: Global, ticket: &Ticket) -> Result<Option<Answered>, OutOfMemory>
        ensures { IfOk result (λ found. IfSome found (λ answered. planned_results L.setup L.me ticket.now.name ticket.now.call ≡ Some (answer_of answered))) }
    {
        let Some(finished) = self.look(alloc, ticket)? else {
            return Ok(None);
        };
        let Finished { mine, outcome } = finished;
        drop(mine);
        self.with_birth(alloc, outcome)
    }

    // The result of a call, where it is there now.
    fn look(&self, alloc: Global, ticket: &Ticket) -> Result<Option<Finished>, OutOfMemory>
        ensures { IfOk result (λ found. IfSome found (λ finished. IsPlannedResult L.setup L.me ticket.now.name ticket.now.call finished)) }
    {
        match self.port.test(self.rt, alloc, ticket)? {
            TicketTested::Done(finished) => Ok(Some(finished)),
            TicketTested::NotYet => Ok(None),
            TicketTested::LetGo => Ok(None),
            TicketTested::Strange => Ok(None),
        }
    }

    // The outcome, with the birth of the communicator that it names.
    fn with_birth(&self, alloc: Global, outcome: Outcome) -> Result<Option<Answered>, OutOfMemory>
        ensures { IfOk result (λ found. IfSome found (λ answered. answer_of answered ≡ answer_with (planned_birth L.setup) outcome)) }
    {
        let born = match &outcome {
            Outcome::NewComm { name, .. } => {
                let Some(birth) = self.port.birth(self.rt, alloc, name)? else {
                    return Ok(None);
                };
                Some(birth)
            }
            Outcome::Nothing => None,
            Outcome::Absent => None,
            Outcome::Items(_) => None,
            Outcome::Null => None,
            Outcome::Fault(_) => None,
        };
        Ok(Some(Answered { outcome, born }))
    }

    // The outcome of a call and the communicator that it gave, once it was told before or can be told now.
    fn tell(&mut self, alloc: Global, ticket: &Ticket) -> Result<Option<Said>, OutOfMemory>
        ensures hears { OnOk result (HearsMore self.old self.new) }
        ensures told { IfOk result (TellsCall (planned_results L.setup L.me) self.new.0 ticket.now.name ticket.now.call) }
    {
        match self.answer(alloc, ticket)? {
            Some(answered) => {
                let said = Said::by(alloc, &answered)?;
                self.told.add(alloc, ticket, answered)?;
                Ok(Some(said))
            }
            None => self.tell_again(alloc, ticket),
        }
    }

    // The outcome of a call that was told before, and the communicator that it gave.
    fn tell_again(&self, alloc: Global, ticket: &Ticket) -> Result<Option<Said>, OutOfMemory>
        ensures { IfOk result (TellsCall (planned_results L.setup L.me) self.now.0 ticket.now.name ticket.now.call) }
    {
        let Some(answered) = self.told.find(&ticket.name, ticket.call) else {
            return Ok(None);
        };
        let said = Said::by(alloc, answered)?;
        Ok(Some(said))
    }
}

impl<'a, L: PortLock, R: Wait> Carrier for ThreadDesk<'a, L, R> {
    ghost use Rattle.std.specs.Prelude.{◌≡◌, ◌<◌};
    ghost use Rattle.mpx_threads.specs.ToldCalls.{hears_more, hears_nothing, place_of, stays_told, thread_terms};

    type Communicator = (Name, Birth);

    type Call = Ticket;

    ghost place = { place_of };

    ghost terms = { λ operations. thread_terms operations L.setup L.me L.before ((L.all ≡ L.parts) × (0 < L.parts)) };

    fn into_place(call: Ticket) -> (Name, u32) {
        let Ticket { name, call, post } = call;
        drop(post);
        (name, call)
    }

    fn post(
        &mut self,
        alloc: Global,
        _me: Proc,
        on: Option<&(Name, Birth)>,
        posting: &Posting,
        ops: &Ops,
    ) -> Result<Option<Ticket>, PostError> {
        self.looks.begins();
        let Some(on) = on else {
            return Err(PostError::NotMember);
        };
        let ThreadDesk {
            rt,
            port,
            looks,
            poster,
            ..
        } = self;
        let attempt = Attempt {
            rt: *rt,
            alloc,
            port: *port,
            posting,
            ops,
        };
        attempt.make(*looks, poster, &on.0)
    }

    fn is_told(
        &mut self,
        alloc: Global,
        _me: Proc,
        call: &Ticket,
        _ops: &Ops,
    ) -> Result<bool, OutOfMemory> {
        Ok(self.tell(alloc, call)?.is_some())
    }

    fn hear(
        &mut self,
        alloc: Global,
        _me: Proc,
        call: Ticket,
        _ops: &Ops,
    ) -> Result<Heard<Ticket, (Name, Birth)>, OutOfMemory> {
        match self.tell(alloc, &call) {
            Ok(Some(Said { outcome, given })) => {
                let (name, call) = Self::into_place(call);
                let line = Line::Told {
                    name,
                    call,
                    outcome,
                };
                Ok(Heard::Told { line, given })
            }
            Ok(None) => Ok(Heard::NotYet(call)),
            Err(e) => {
                drop(call);
                Err(e)
            }
        }
    }

    fn known<'m>(
        &'m self,
        communicator: &'m (Name, Birth),
        _ops: &Ops,
    ) -> Option<(&'m Name, &'m Birth)> {
        let (name, birth) = communicator;
        Some((name, birth))
    }

    fn is_closed(&mut self, _me: Proc, communicator: &(Name, Birth), _ops: &Ops) -> bool {
        let (name, _) = communicator;
        self.port.is_closed(self.rt, &mut self.poster, name)
    }

    ghost hears_nothing = { λ operations. hears_nothing };

    ghost hears_more = { λ operations. hears_more };

    ghost stays_told = { λ operations. stays_told L.setup L.me };
}
