//! A process of a run: a rank, which goes on with its statements, or a relay, which has none.
ghost use Rattle.std.specs.Prelude.{◌≡◌, ◌<◌, ◌≤◌, List, IfOk, OnOk, Some, false, map, slice_get, true, ℕ};
ghost use Rattle.mpx_num.specs.declared.own.Operation.{Operation};
ghost use Rattle.mpx_board.specs.Boards.{join_all};
ghost use Rattle.mpx_node.specs.Deltas.{AreLacked, lacking_on};
ghost use Rattle.mpx_node.specs.Nodes.{learn};
ghost use Rattle.mpx_node.specs.Shown.{node_of};
ghost use Rattle.mpx_meaning.specs.Evaluation.{Script as Statements, start_state};
ghost use Rattle.mpx_sim.specs.Running.{StandsBy};
ghost use Rattle.mpx_sim.specs.Shown.{frame_of, part_of};

use crate::desk::RunDesk;
use crate::frame_under_way::FrameUnderWay;
use crate::frames::frames_with;
use crate::lists::{MOST_BYTES, kept_of, new_list, one_frame};
use crate::notes::Notes;
use crate::observer::Observer;
use crate::schedule::Schedule;
use crate::sender::Sender;
use crate::start::world_of;
use join_core::OutOfMemory;
use mpx_board::Board;
use mpx_group::Proc;
use mpx_meaning::{Line, RankEnd};
use mpx_node::Node;
use mpx_num::{Listing, Ops};
use mpx_rank::Interpreter;
use mpx_rope::Rope;
use mpx_statement::Statement;
use std::alloc::Global;

/// A process of a run: the carrier of its posts, over its node, its rank, how far it has come with sending, and what it notes of its steps. A relay has no
/// statements.
#[derive(Drop)]
pub struct Process<'a> {
    carrier: RunDesk,
    rank: Interpreter<'a, RunDesk>,
    sender: Sender,
    pub(crate) notes: Notes,
}

impl<'a> Process<'a> {
    ghost use Rattle.mpx_board.specs.Looks.{look};
    ghost use Rattle.mpx_node.specs.Nodes.{start_node};
    ghost use Rattle.mpx_meaning.specs.Ends.{end_view};
    ghost use Rattle.mpx_rank.specs.Moves.{is_waiting};
    ghost use Rattle.mpx_rank.specs.Places.{end_of_rank};
    ghost use Rattle.mpx_sim.specs.Ends.{Lacks};
    ghost use Rattle.mpx_sim.specs.Running.{Keeps, Moves};
    ghost use Rattle.mpx_sim.specs.SideBySide.{GoesOn, IsReady, Makes, taken, took};
    ghost use Rattle.mpx_sim.specs.Shown.{process_of};
    ghost use Rattle.mpx_sim.specs.Senders.{first_sender, receiver};
    ghost use Rattle.mpx_sim.specs.Turns.{Alone, IsListOf, Saying};

    /// Process `me` of so many, of which the first are ranks, before its statements.
    pub(crate) fn new(
        alloc: Global,
        me: u8,
        ranks: u8,
        processes: u8,
        todo: &'a [Statement],
        notes: bool,
    ) -> Result<Process<'a>, OutOfMemory>
        requires some { 0 < ranks }
        requires ranks { ranks ≤ processes }
        requires few { processes ≤ 64 }
        requires me { me < processes }
        ensures me { IfOk result (λ process. (process_of process).rank.me ≡ me) }
        ensures node { IfOk result (λ process. (process_of process).node ≡ start_node me ranks processes) }
        ensures ready { IfOk result (λ process. IsReady process) }
        ensures sender { IfOk result (λ process. (process_of process).sender ≡ first_sender) }
        ensures stands { IfOk result (λ process. (script : Statements) → me < ranks → slice_get script me ≡ Some todo.now → StandsBy (process_of process).rank (start_state script ranks me)) }
    {
        let world = world_of(alloc, me, ranks);
        let me = Proc::new(me);
        let carrier = match RunDesk::new(alloc, me, ranks, processes, todo, notes) {
            Ok(carrier) => carrier,
            Err(e) => {
                drop(world);
                return Err(e);
            }
        };
        match Interpreter::new(alloc, me, world, todo) {
            Ok(rank) => Ok(Process {
                carrier,
                rank,
                sender: Sender::new(),
                notes: Notes::new(alloc),
            }),
            Err(e) => {
                drop(carrier);
                Err(e)
            }
        }
    }

    /// Goes on with the script until an outcome is missing. It first stores the results of each context that it looks at, until
    /// no further one can be had. It answers whether there was a move.
    pub(crate) fn go_on(&mut self, alloc: Global, ops: &Ops) -> Result<bool, OutOfMemory>
        ensures { OnOk result (Moves (⟦<Ops as Listing>⟧.operations ops.now) (process_of self.old) (process_of self.new)) }
    {
        self.carrier.harvest(alloc, ops)?;
        self.rank.go_on(alloc, &mut self.carrier, ops)
    }

    /// Whether its rank has nothing left, or waits for a call that isn't done and can't be by what its board has.
    pub(crate) fn lacks(&mut self, alloc: Global, ops: &Ops) -> Result<bool, OutOfMemory>
        ensures keeps { OnOk result (Keeps Alone (⟦<Ops as Listing>⟧.operations ops.now) (process_of self.old) (process_of self.new)) }
        ensures lacks { IfOk result (λ lacks. lacks ≡ true → Lacks (process_of self.new)) }
        ensures ready { IsReady self.new }
    {
        let _ = self.notes.ahead.take();
        let _ = self.notes.last.take();
        if let Some(call) = self.rank.awaited() {
            return self.carrier.is_open(alloc, call, ops);
        }
        let Some(statement) = self.rank.todo().first() else {
            return Ok(true);
        };
        match statement {
            Statement::Wait(words) => {
                self.carrier
                    .one_is_open(alloc, self.rank.requests(), words.as_slice(), ops)
            }
            Statement::Post(_) => Ok(false),
            Statement::Ask(_) => Ok(false),
        }
    }

    /// Drops the posts that every member has harvested, of each context that it looks at, by what its board knows of that. It
    /// answers whether there were any.
    pub(crate) fn prune(&mut self) -> bool
        ensures { (operations : List Operation) → Keeps Alone operations (process_of self.old) (process_of self.new) }
    {
        self.carrier.prune()
    }

    /// Goes on by itself: with its statements, where it is one of so many ranks, and by dropping what it may. It answers whether it did any of that.
    pub(crate) fn step(
        &mut self,
        alloc: Global,
        place: usize,
        ranks: usize,
        ops: &Ops,
    ) -> Result<bool, OutOfMemory>
        ensures { OnOk result (GoesOn (⟦<Ops as Listing>⟧.operations ops.now) ranks place (process_of self.old) (process_of self.new)) }
    {
        if place >= ranks {
            return Ok(self.prune());
        }
        let moved = self.go_on(alloc, ops)?;
        let pruned = self.prune();
        Ok(moved | pruned)
    }

    /// Says what the process has, and gives the frames of what others may lack of its board: its next list, which goes out from this turn
    /// on. They are those that were made ahead, or are made now, into spare room. Where it kept the one frame of its last list, the next list is
    /// that frame again.
    pub(crate) fn make_list(&mut self, alloc: Global, keeps: bool) -> Result<Vec<Rope>, OutOfMemory>
        requires { IsReady self.old }
        ensures keeps { OnOk result ((operations : List Operation) → Keeps Saying operations (process_of self.old) (process_of self.new)) }
        ensures frames { IfOk result (λ made. AreLacked 1048576 (process_of self.new).node made.items) }
        ensures ready { OnOk result (IsReady self.new) }
        ensures sender { self.new.sender ≡ self.old.sender }
        ensures rank { self.new.rank ≡ self.old.rank }
    {
        let ahead = self.notes.ahead.take();
        if let Some(last) = &self.notes.last {
            let again = one_frame(alloc, last)?;
            return Ok(again);
        }
        let list = new_list(alloc, &mut self.carrier.desk, ahead, &mut self.notes.spare)?;
        let last = kept_of(alloc, list.as_slice(), keeps)?;
        self.notes.last = last;
        Ok(list)
    }

    /// The frames of its next list, which go to another process. Where frames may be lost, it keeps one that is all of its list.
    pub(crate) fn make_frames(
        &mut self,
        alloc: Global,
        to: usize,
        turn: u64,
        keeps: bool,
    ) -> Result<Vec<FrameUnderWay>, OutOfMemory>
        requires turn { turn < 4294967296 }
        requires ready { IsReady self.old }
        ensures keeps { OnOk result ((operations : List Operation) → Keeps Saying operations (process_of self.old) (process_of self.new)) }
        ensures list { IfOk result (λ made. (shifts : List ℕ) (size : ℕ) → self.old.sender.out ≤ turn → to ≡ receiver shifts size (process_of self.new).rank.me self.old.sender.place → IsListOf shifts size turn (process_of self.new).rank.me (process_of self.old).sender (process_of self.new).node (map frame_of made.items)) }
        ensures sender { self.new.sender ≡ self.old.sender }
        ensures rank { self.new.rank ≡ self.old.rank }
        ensures join { IfOk result (λ made. join_all (map part_of made.items) ≡ lacking_on (process_of self.new).node) }
        ensures ready { OnOk result (IsReady self.new) }
    {
        let list = self.make_list(alloc, keeps)?;
        frames_with(alloc, list, self.me(), to, turn)
    }

    /// Where its last list is out, says what it has, and notes the frames of the next list, which go to the process that is next; else it notes
    /// none.
    pub(crate) fn say(
        &mut self,
        alloc: Global,
        processes: usize,
        schedule: &Schedule,
        turn: u64,
    ) -> Result<(), OutOfMemory>
        requires some { 0 < processes }
        requires turn { turn < 4294967296 }
        requires ready { IsReady self.old }
        ensures { OnOk result (Makes schedule.now.shifts.items processes turn self.old self.new) }
    {
        if !self.sender.has_sent(turn) {
            self.notes.made = Vec::new(alloc);
            return Ok(());
        }
        let to = schedule.receiver(self.me(), self.sender.place(), processes);
        let made = self.make_frames(alloc, to, turn, schedule.loses_some())?;
        self.sender.sends(turn, made.len(), schedule.shifts());
        self.notes.made = made;
        Ok(())
    }

    // For a turn to come, where it is told of one and its last list is out before that, makes the frames of its next list ahead, of its board as it
    // stands, if it keeps none. Where memory is wanting it makes none.
    fn look_ahead(&mut self, alloc: Global, next: Option<u64>)
        requires { IsReady self.old }
        ensures process { process_of self.new ≡ process_of self.old }
        ensures ready { IsReady self.new }
    {
        let Some(turn) = next else {
            return;
        };
        if self.notes.last.is_some() || !self.sender.has_sent(turn) {
            return;
        }
        self.notes.ahead = None;
        let made = self
            .carrier
            .desk
            .lacking_frames(alloc, MOST_BYTES, &mut self.notes.spare);
        if let Ok(made) = made {
            self.notes.ahead = Some(made);
        }
    }

    /// Takes the frames among these that come to it in this turn, and goes on by itself then. It notes whether it did, how many of its lines were
    /// told before, and where memory is wanting. For a turn behind this one, where it is told of one, it looks ahead.
    pub(crate) fn take_and_go_on(
        &mut self,
        alloc: Global,
        place: usize,
        ranks: usize,
        frames: &[FrameUnderWay],
        turn: u64,
        next: Option<u64>,
        ops: &Ops,
    )
        requires { IsReady self.old }
        ensures { self.new.notes.failed ≡ false → GoesOn (⟦<Ops as Listing>⟧.operations ops.now) ranks place (taken place turn frames.now (process_of self.old)) (process_of self.new) × IsReady self.new }
    {
        self.notes.told = self.lines().len();
        self.notes.posts = self.carrier.posts.count();
        match self.take_then_step(alloc, place, ranks, frames, turn, ops) {
            Ok(changed) => {
                self.notes.changed = changed;
                self.look_ahead(alloc, next);
            }
            Err(_) => self.notes.failed = true,
        }
    }

    // Takes these frames, and goes on then. Where it keeps the frame of its last list, nothing came since, and it can't go on.
    fn take_then_step(
        &mut self,
        alloc: Global,
        place: usize,
        ranks: usize,
        frames: &[FrameUnderWay],
        turn: u64,
        ops: &Ops,
    ) -> Result<bool, OutOfMemory>
        requires { IsReady self.old }
        ensures goes { OnOk result (GoesOn (⟦<Ops as Listing>⟧.operations ops.now) ranks place (taken place turn frames.now (process_of self.old)) (process_of self.new)) }
        ensures ready { OnOk result (IsReady self.new) }
    {
        self.receive_all(alloc, place, frames, turn)?;
        if self.notes.last.is_some() {
            return Ok(false);
        }
        let changed = self.step(alloc, place, ranks, ops)?;
        self.notes.ahead = None;
        self.notes.last = None;
        Ok(changed)
    }

    // Takes the frames among these that come to it in this turn, one after the other.
    fn receive_all(
        &mut self,
        alloc: Global,
        place: usize,
        frames: &[FrameUnderWay],
        turn: u64,
    ) -> Result<(), OutOfMemory>
        requires { IsReady self.old }
        ensures took { OnOk result (process_of self.new ≡ taken place turn frames.now (process_of self.old)) }
        ensures ready { IsReady self.new }
    {
        let mut rest = frames;
        while let [frame, more @ ..] = rest {
            self.receive_own(alloc, place, frame, turn)?;
            rest = more;
        }
        Ok(())
    }

    // Takes the frame, where it comes to it in this turn.
    fn receive_own(
        &mut self,
        alloc: Global,
        place: usize,
        frame: &FrameUnderWay,
        turn: u64,
    ) -> Result<(), OutOfMemory>
        requires { IsReady self.old }
        ensures took { OnOk result (process_of self.new ≡ took place turn frame.now (process_of self.old)) }
        ensures ready { IsReady self.new }
    {
        if frame.comes_to(place, turn) {
            self.receive(alloc, frame)
        } else {
            Ok(())
        }
    }

    /// Takes a frame: what its bytes say is joined to the board as they are read.
    pub(crate) fn receive(
        &mut self,
        alloc: Global,
        frame: &FrameUnderWay,
    ) -> Result<(), OutOfMemory>
        ensures took { OnOk result (process_of self.new ≡ record { rank = (process_of self.old).rank; node = learn (part_of frame.now) (process_of self.old).node; sender = (process_of self.old).sender }) }
        ensures ready { IsReady self.new }
    {
        self.notes.ahead = None;
        self.notes.last = None;
        self.carrier.desk.take_rope(alloc, &frame.bytes.lent())
    }

    /// Its number.
    pub(crate) fn me(&self) -> u8
        ensures { result ≡ (process_of self.now).rank.me }
    {
        self.rank.me().number()
    }

    /// Its node.
    pub(crate) fn node(&self) -> &Node {
        self.carrier.node()
    }

    /// Its lines so far.
    pub(crate) fn lines(&self) -> &[Line] {
        self.rank.lines()
    }

    /// Reports the calls that it has posted since that was last noted, where posts are followed.
    pub(crate) fn tell_posts(&self, turn: u32, observer: &mut dyn Observer) {
        let (posts, told) = (&self.carrier.posts, self.notes.posts);
        posts.tell(told, turn, self.me(), observer);
    }

    /// How many statements are left, with the one whose outcome it waits for.
    pub(crate) fn left(&self) -> usize {
        self.rank.left()
    }

    /// The board of its node.
    pub(crate) fn board(&self) -> &Board
        ensures { look result.now ≡ (process_of self.now).node.board }
    {
        self.carrier.node().board()
    }

    /// Whether it waits for an outcome, or has statements left.
    pub(crate) fn is_waiting(&self) -> bool
        ensures { result ≡ is_waiting (process_of self.now).rank }
    {
        self.rank.is_waiting()
    }

    /// Its node, and how its rank ends.
    pub(crate) fn into_parts(self, alloc: Global) -> Result<(Node, RankEnd), OutOfMemory>
        ensures node { IfOk result (λ parts. node_of parts.0 ≡ (process_of self.entry).node) }
        ensures end { IfOk result (λ parts. end_view parts.1 ≡ end_of_rank (process_of self.entry).rank) }
    {
        let Process { carrier, rank, .. } = self;
        let end = rank.into_end(alloc)?;
        Ok((carrier.into_node(), end))
    }
}
