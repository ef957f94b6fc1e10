//! A member of a job: the host of a rank's desk in a thread of its own.
ghost use Rattle.std.specs.Prelude.{◌≡◌, IfErr, IfSome, IsSome, None, OnOk, false};
ghost use Rattle.std.specs.Option.{option_map};
ghost use Rattle.std.proofs.Props.{props};
ghost use Rattle.mpx_board.specs.Looks.{look};
ghost use Rattle.mpx_bus.specs.Buses.{table_of};
ghost use Rattle.mpx_bus.specs.Ports.{node_in};
ghost use Rattle.mpx_request.specs.Later.{Later};
ghost use Rattle.mpx_ranks.specs.Had.{GoesOn};
ghost use Rattle.mpx_ranks.specs.Members.{RefusesTurn, Turns};

use crate::crew::{Crew, Job, Quitter};
use crate::folds::Folds;
use crate::gossip::gossip;
use crate::news::News;
use crate::seat::Seat;
use crate::start::{AllCame, Start};
use join_core::OutOfMemory;
use mpx_board::Board;
use mpx_bus::{Bus, Port};
use mpx_comm::{Host, TurnError};
use mpx_name::Name;
use mpx_node::{Finished, Harvest};
use mpx_num::Ops;
use mpx_post::{Draft, PostError};
use std::alloc::Global;
use std::marker::PhantomData;
use std::sync::{OnceToken, Wait};

/// A port on a bus that is lent, with the job's own operations, what the threads tell each other, and the right to wait. It has what shows
/// that all threads have come, so there is none before that, and no desk over one. A turn takes a frame out of the queue and puts one in,
/// drops posts that every member has harvested, and rests, longer while it hears nothing new. Once it has heard that a rank gave up it makes
/// none any more, and knows which.
#[derive(Drop)]
pub(crate) struct Member<'a, L: Seat, O: Folds, K: Job, R: Wait> {
    pub(crate) rt: &'a R,
    pub(crate) bus: &'a Bus,
    pub(crate) ops: &'a O,
    pub(crate) crew: &'a Crew<K>,
    pub(crate) start: &'a Start<K>,
    pub(crate) came: OnceToken<'a, AllCame<K>>,
    pub(crate) port: Port,
    pub(crate) news: News,
    pub(crate) seat: PhantomData<L>,
    pub(crate) heard: Option<OnceToken<'a, Quitter<K>>>,
    ghost list_is: { O.operations ops.now ≡ L.setup.operations },
    ghost bus_is: { table_of bus.now ≡ L.table },
    ghost free: { L.setup.planned ≡ false },
    ghost came_there: { came.of ≡ start.now.all.id },
    ghost none_lacking: { came.value.total.amount ≡ 0 },
    ghost table_is: { port.table ≡ L.table },
    ghost setup_is: { port.setup ≡ L.setup },
    ghost me_is: { port.me ≡ L.me },
    ghost heard_is: { IfSome heard (λ token. token.of ≡ crew.now.quitter.id) } by { Prim.hlevel props },
}

impl<'a, L: Seat, O: Folds, K: Job, R: Wait> Member<'a, L, O, K, R> {
    /// Whoever has this port, once all threads have come. By its number it rests at other times than the others.
    pub(crate) fn new(
        rt: &'a R,
        bus: &'a Bus,
        ops: &'a O,
        crew: &'a Crew<K>,
        start: &'a Start<K>,
        came: OnceToken<'a, AllCame<K>>,
        me: u8,
        port: Port,
    ) -> Member<'a, L, O, K, R>
        requires came { (came.of ≡ start.now.all.id) × (came.value.total.amount ≡ 0) }
        requires bus { table_of bus.now ≡ L.table }
        requires list { O.operations ops.now ≡ L.setup.operations }
        requires free { L.setup.planned ≡ false }
        requires table { port.table ≡ L.table }
        requires setup { port.setup ≡ L.setup }
        requires me { port.me ≡ L.me }
        ensures { result.port ≡ port }
    {
        Member {
            rt,
            bus,
            ops,
            crew,
            start,
            came,
            port,
            news: News::new(me),
            seat: PhantomData,
            heard: None,
        }
    }

    /// Its port.
    pub(crate) fn into_port(self) -> Port
        ensures port { result ≡ self.entry.port }
        ensures table { result.table ≡ L.table }
        ensures setup { result.setup ≡ L.setup }
        ensures me { result.me ≡ L.me }
    {
        self.port
    }

    // The rank of which it has heard that it gave up, where it has.
    fn quitter(&self) -> Option<u8>
        ensures { result ≡ option_map (λ token. token.value.rank) self.now.heard }
    {
        let token = self.heard.as_ref()?;
        Some(self.crew.quitter.value(token).rank)
    }

    /// Makes turns for the others, until none needs them more.
    pub(crate) fn gossip_on(&mut self, alloc: Global)
        ensures later { Later (node_in self.old.port) (node_in self.new.port) }
        ensures goes_on { GoesOn self.old.port self.new.port }
    {
        let rt = self.rt;
        for _ in rt.forever() {
            if self.crew.is_over() {
                return;
            }
            let _ = self.turn(alloc);
        }
        unreachable!()
    }
}

impl<'a, L: Seat, O: Folds, K: Job, R: Wait> Host for Member<'a, L, O, K, R> {
    ghost use Rattle.mpx_ranks.specs.Bounded.{port_bounded};
    ghost use Rattle.mpx_ranks.specs.Had.{GoesOn, HadIn, goes_nowhere, goes_then, has_had_later, has_had_now};
    ghost use Rattle.std.specs.Option.{option_map};
    ghost use Rattle.mpx_ranks.specs.Members.{RefusesTurn, by_port, same_operations};

    ghost node = { λ m. node_in m.port };

    // By those of its job, whatever is lent.
    ghost goes_by = { λ m. by_port m.port };

    ghost turned = { λ a n b. GoesOn a.port b.port };

    ghost turn_refused = { λ a why b. GoesOn a.port b.port × RefusesTurn K.gave_up why (option_map (λ token. token.value.rank) b.heard) a.port b.port };

    // All that its port did tells which.
    ghost has_had = { λ m. HadIn m.port };

    fn post(
        &mut self,
        alloc: Global,
        name: &Name,
        draft: Draft,
        _ops: &Ops,
    ) -> Result<u32, PostError> {
        self.news.has_posted();
        self.ops.post_to(alloc, &mut self.port, name, draft)
    }

    fn refusal(&self, name: &Name, draft: &Draft, _ops: &Ops) -> Option<PostError> {
        self.ops.refusal_at(self.port.node(), name, draft)
    }

    fn open_gathering(
        &mut self,
        alloc: Global,
        parent: &Name,
        tag: i128,
        ranks: &[i128],
    ) -> Result<Name, PostError> {
        self.port.open_gathering(alloc, parent, tag, ranks)
    }

    fn harvest(&mut self, alloc: Global, name: &Name, _ops: &Ops) -> Result<Harvest, OutOfMemory> {
        self.ops.harvest_at(alloc, &mut self.port, name)
    }

    fn result(&self, name: &Name, call: u32) -> Option<&Finished> {
        self.port.node().result(name, call)
    }

    fn front(&self, name: &Name) -> u32 {
        self.port.node().front(name)
    }

    fn forget(&mut self, name: &Name, below: u32) {
        self.port.forget(name, below);
    }

    fn board(&self) -> &Board {
        self.port.node().board()
    }

    // Beside what a host says of each: what one does that is made.
    fn turn(&mut self, alloc: Global) -> Result<(), TurnError>
        ensures later { Later (node_in self.old.port) (node_in self.new.port) }
        ensures opened { (node_in self.new.port).opened ≡ (node_in self.old.port).opened }
        ensures counted { OnOk result (GoesOn self.old.port self.new.port) }
        ensures refused { IfErr result (λ why. GoesOn self.old.port self.new.port × RefusesTurn K.gave_up why (option_map (λ token. token.value.rank) self.new.heard) self.old.port self.new.port) }
        ensures turns { OnOk result (Turns false self.old.port self.new.port) }
        ensures none { OnOk result (self.new.heard ≡ None) }
        ensures stays { IsSome self.old.heard → self.new.heard ≡ self.old.heard }
    {
        let crew = self.crew;
        if self.heard.is_none() {
            self.heard = crew.quitter();
        }
        if let Some(rank) = self.quitter() {
            return Err(TurnError::GaveUp(rank));
        }
        let turned = gossip(self.rt, alloc, self.bus, &mut self.port);
        self.news.note(self.port.node().board());
        self.news.rest(self.rt, &crew.sleepers);
        match turned {
            Ok(()) => Ok(()),
            Err(OutOfMemory) => Err(TurnError::OutOfMemory),
        }
    }

    ghost bounded = { λ m name. port_bounded m.port name };

    ghost stays_by = { λ a b n on. same_operations a.port b.port on.0 };

    ghost turns_none = { λ m. goes_nowhere m.port };

    ghost turns_more = { λ a b c m n x y. goes_then a.port b.port c.port x y };

    ghost had_now = { λ m name call finished has. has_had_now m.port name call finished has };

    ghost had_later = { λ a b n name call finished on had. has_had_later a.port b.port name call finished on had };

    ghost had_refused = { λ a b why name call finished refused had. has_had_later a.port b.port name call finished refused.0 had };
}
