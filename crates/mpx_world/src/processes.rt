//! The processes of a world, each by itself.
ghost use Rattle.std.specs.Prelude.{◌≡◌, ◌<◌, ◌≤◌, ◌++◌, ◌∷◌, [], List, Ok, IfOk, IfErr, OnOk, OnErr};
ghost use Rattle.std.specs.Option.{option_copied};
ghost use Rattle.mpx_board.specs.Looks.{look};
ghost use Rattle.mpx_num.specs.declared.own.Operation.{Operation};
ghost use Rattle.mpx_world.specs.declared.events.Event.TheVariants as E;
ghost use Rattle.mpx_world.specs.Events.{part_of as part_cut, reply as reply_to, does};
ghost use Rattle.mpx_world.specs.Shown.{reply_of_harvest};
ghost use Rattle.mpx_world.specs.Worlds.{WorldView, start};

use crate::events::{Cut, Event, Reply, Stopped};
use join_core::{Exact, OutOfMemory};
use mpx_board::Board;
use mpx_group::Proc;
use mpx_name::Name;
use mpx_node::{Harvest, Node};
use mpx_num::{Listing, Numbers, Ops};
use mpx_post::Draft;
use std::alloc::Global;

// The nodes of all processes, and the parts that they sent.
#[derive(Debug, Drop)]
pub struct Processes {
    nodes: Vec<Node>,
    parts: Vec<Board>,
}

impl Processes {
    ghost use Rattle.mpx_node.specs.Shown.{node_of};
    ghost use Rattle.mpx_world.specs.Shown.{Does, DoesWith, IsNodeOf, RunsAll, Shows, Stops, StopsAt};

    // So many processes, of which the first are ranks, before any event.
    pub fn new(alloc: Global, ranks: u8, processes: u8) -> Result<Processes, OutOfMemory>
        requires some { 0 < ranks }
        requires ranks { ranks ≤ processes }
        requires few { processes ≤ 64 }
        ensures { IfOk result (λ world. (operations : List Operation) → Shows world (start operations ranks processes)) }
    {
        let mut nodes = Vec::new(alloc);
        for me in 0..processes {
            nodes.push(Node::new(alloc, Proc::new(me), ranks, processes)?)?;
        }
        Ok(Processes {
            nodes,
            parts: Vec::new(alloc),
        })
    }

    // The events in order, with a reply for each. An event that is refused changes nothing.
    pub fn run(&mut self, alloc: Global, events: &[Event], ops: &Ops) -> Result<Vec<Reply>, Stopped>
        ensures ok { IfOk result (λ replies. (w : WorldView) → w.operations ≡ ⟦<Ops as Listing>⟧.operations ops.now → Shows self.old w
            → RunsAll events.now replies.items self.new w) }
        ensures stopped { IfErr result (λ stopped. (w : WorldView) → w.operations ≡ ⟦<Ops as Listing>⟧.operations ops.now → Shows self.old w
            → StopsAt stopped.at events.now self.new w) }
    {
        let mut replies = Vec::new(alloc);
        for at in 0..events.len() {
            match self.tell(alloc, &events[at], &mut replies, ops) {
                Ok(()) => {}
                Err(_) => return Err(Stopped { at }),
            }
        }
        Ok(replies)
    }

    // The process's node.
    pub fn node(&self, proc: Proc) -> Option<&Node>
        ensures { (w : WorldView) → Shows self.now w → IsNodeOf (option_copied result) proc w }
    {
        self.nodes.get(usize::from(proc.number()))
    }

    // One event, with its reply at the end of the others. An `Err` changes nothing, or leaves what a take may leave.
    fn tell(
        &mut self,
        alloc: Global,
        event: &Event,
        replies: &mut Vec<Reply>,
        ops: &Ops,
    ) -> Result<(), OutOfMemory>
        ensures ok { OnOk result ((w : WorldView) → w.operations ≡ ⟦<Ops as Listing>⟧.operations ops.now → Shows self.old w
            → Shows self.new (does w event.now)) }
        ensures answered { OnOk result ((w : WorldView) → w.operations ≡ ⟦<Ops as Listing>⟧.operations ops.now → Shows self.old w
            → replies.new.items ≡ replies.old.items ++ reply_to w event.now ∷ []) }
        ensures err { OnErr result ((w : WorldView) → w.operations ≡ ⟦<Ops as Listing>⟧.operations ops.now → Shows self.old w
            → Stops event.now self.new w) }
    {
        replies.reserve(1)?;
        let reply = self.step(alloc, event, ops)?;
        replies.push_reserved(reply);
        Ok(())
    }

    // One event. An `Err` changes nothing, or leaves what a take may leave.
    fn step(&mut self, alloc: Global, event: &Event, ops: &Ops) -> Result<Reply, OutOfMemory>
        ensures { DoesWith (⟦<Ops as Listing>⟧.operations ops.now) event.now result self.old self.new }
    {
        match event {
            Event::Post { proc, name, draft } => self.post(alloc, *proc, name, draft, ops),
            Event::Harvest { proc, name } => self.harvest(alloc, *proc, name, ops),
            Event::Gather {
                proc,
                parent,
                tag,
                ranks,
            } => self.gather(alloc, *proc, parent, *tag, ranks),
            Event::Prune { proc, name, number } => Ok(self.prune(*proc, name, *number)),
            Event::Send { proc, cut } => self.send(alloc, *proc, cut),
            Event::Take { proc, part } => self.take(alloc, *proc, *part),
            Event::Forget { proc, name, below } => Ok(self.forget(*proc, name, *below)),
        }
    }

    fn post(
        &mut self,
        alloc: Global,
        proc: Proc,
        name: &Name,
        draft: &Draft,
        ops: &Ops,
    ) -> Result<Reply, OutOfMemory>
        ensures { DoesWith (⟦<Ops as Listing>⟧.operations ops.now) (E.Post proc name.now draft.now) result self.old self.new }
    {
        let at = usize::from(proc.number());
        if at >= self.nodes.len() {
            return Ok(Reply::NoSuchProcess);
        }
        let draft = draft.copy()?;
        match self.nodes[at].post(alloc, name, draft, ops) {
            Ok(call) => Ok(Reply::Posted(call)),
            Err(refusal) => {
                if refusal.is_want_of_memory() {
                    return Err(OutOfMemory);
                }
                Ok(Reply::PostRefused(refusal))
            }
        }
    }

    fn harvest(
        &mut self,
        alloc: Global,
        proc: Proc,
        name: &Name,
        ops: &Ops,
    ) -> Result<Reply, OutOfMemory>
        ensures { DoesWith (⟦<Ops as Listing>⟧.operations ops.now) (E.Harvest proc name.now) result self.old self.new }
    {
        let at = usize::from(proc.number());
        if at >= self.nodes.len() {
            return Ok(Reply::NoSuchProcess);
        }
        let harvest = self.nodes[at].harvest(alloc, name, ops)?;
        Ok(harvested(harvest))
    }

    fn gather(
        &mut self,
        alloc: Global,
        proc: Proc,
        parent: &Name,
        tag: i128,
        ranks: &Numbers,
    ) -> Result<Reply, OutOfMemory>
        ensures { Does (E.Gather proc parent.now tag ranks.now) result self.old self.new }
    {
        let at = usize::from(proc.number());
        if at >= self.nodes.len() {
            return Ok(Reply::NoSuchProcess);
        }
        match self.nodes[at].open_gathering(alloc, parent, tag, ranks.as_slice()) {
            Ok(name) => Ok(Reply::Opened(name)),
            Err(refusal) => {
                if refusal.is_want_of_memory() {
                    return Err(OutOfMemory);
                }
                Ok(Reply::GatherRefused(refusal))
            }
        }
    }

    fn prune(&mut self, proc: Proc, name: &Name, number: u32) -> Reply
        ensures { Does (E.Prune proc name.now number) (Ok result) self.old self.new }
    {
        let at = usize::from(proc.number());
        if at >= self.nodes.len() {
            return Reply::NoSuchProcess;
        }
        match self.nodes[at].prune(name, number) {
            Ok(()) => Reply::Pruned,
            Err(refusal) => Reply::PruneRefused(refusal),
        }
    }

    fn send(&mut self, alloc: Global, proc: Proc, cut: &Cut) -> Result<Reply, OutOfMemory>
        ensures { Does (E.Send proc cut.now) result self.old self.new }
    {
        let at = usize::from(proc.number());
        if at >= self.nodes.len() {
            return Ok(Reply::NoSuchProcess);
        }
        let part = part_of(alloc, self.nodes[at].board(), cut)?;
        let place = self.parts.len();
        self.parts.push(part)?;
        Ok(Reply::Sent(place))
    }

    fn take(&mut self, alloc: Global, proc: Proc, part: usize) -> Result<Reply, OutOfMemory>
        ensures { Does (E.Take proc part) result self.old self.new }
    {
        let at = usize::from(proc.number());
        if at >= self.nodes.len() {
            return Ok(Reply::NoSuchProcess);
        }
        if part >= self.parts.len() {
            return Ok(Reply::NoSuchPart);
        }
        self.nodes[at].take(alloc, &self.parts[part])?;
        Ok(Reply::Taken)
    }

    fn forget(&mut self, proc: Proc, name: &Name, below: u32) -> Reply
        ensures { Does (E.Forget proc name.now below) (Ok result) self.old self.new }
    {
        let at = usize::from(proc.number());
        if at >= self.nodes.len() {
            return Reply::NoSuchProcess;
        }
        self.nodes[at].forget(name, below);
        Reply::Forgot
    }
}

// The part of a board that is sent.
fn part_of(alloc: Global, board: &Board, cut: &Cut) -> Result<Board, OutOfMemory>
    ensures { IfOk result (λ part. look part ≡ part_cut cut.now (look board.now)) }
{
    match cut {
        Cut::Whole => board.copy(alloc),
        Cut::Names(names) => board.cut(alloc, names.as_slice()),
    }
}

fn harvested(harvest: Harvest) -> Reply
    ensures { result ≡ reply_of_harvest harvest }
{
    match harvest {
        Harvest::Done(call) => Reply::Harvested(call),
        Harvest::NotYet => Reply::NotYet,
        Harvest::NotOpened => Reply::NotOpened,
    }
}
