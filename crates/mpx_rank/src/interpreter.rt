//! A rank that goes on with its statements.
ghost use Rattle.std.specs.Prelude.{◌≡◌, ◌<◌, ◌+◌, ◌∷◌, length, ℕ, IfOk, IsTrue, List, None, OnErr, OnOk, Some, [], true};
ghost use Rattle.std.specs.Option.{option_copied, option_map};
ghost use Rattle.mpx_statement.specs.declared.statement.Statement.TheVariants.{Ask, Post, Wait as WaitFor};
ghost use Rattle.mpx_meaning.specs.Ends.{end_view};
ghost use Rattle.mpx_rank.specs.Moves.{GoesOn, MayGo, MayTry, Moves, StopsShort, bound_first, communicator_in, is_waiting, left_of, refused, statements_left};
ghost use Rattle.mpx_rank.specs.Places.{end_of_rank};
ghost use Rattle.mpx_rank.specs.Shown.{place_of, rank_of, requests_of, wait_of};
ghost use Rattle.mpx_meaning.specs.Standing.{awaited, has_statements, looked_up};

use crate::asking::answer;
use crate::carrier::{Carrier, Heard};
use crate::ending::waits_at;
use crate::origins::push_origins;
use crate::posting_words::words_of;
use crate::waiting::{are_done, close_all};
use join_core::OutOfMemory;
use mpx_group::Proc;
use mpx_meaning::{Line, Origin, RankEnd, bind};
use mpx_num::{Listing, Ops};
use mpx_post::PostError;
use mpx_statement::{Posting, Question, Statement, Word};
use std::alloc::Global;
use std::collections::BTreeMap;

// The call whose outcome a rank waits for, and the word that its new communicator gets.
#[derive(Drop)]
pub(crate) struct Wait<'a, Call> {
    pub(crate) call: Call,
    target: Option<&'a Word>,
}

/// What carries out a rank's statements: who the rank is, what its words are bound to (None: the null communicator), its open requests, the statements that are
/// left, the call whose outcome it waits for, its lines, and which statement each of these belongs to.
#[derive(Drop)]
pub struct Interpreter<'a, C: Carrier> {
    me: Proc,
    bound: BTreeMap<Word, Option<C::Communicator>>,
    requests: BTreeMap<Word, C::Call>,
    todo: &'a [Statement],
    waits: Option<Wait<'a, C::Call>>,
    lines: Vec<Line>,
    origins: Vec<Origin>,
}

impl<'a, C: Carrier> Interpreter<'a, C> {
    /// A rank before its statements: its word `world` is bound to this communicator, where there is one.
    pub fn new(
        alloc: Global,
        me: Proc,
        world: Option<C::Communicator>,
        todo: &'a [Statement],
    ) -> Result<Interpreter<'a, C>, OutOfMemory>
        ensures me { IfOk result (λ rank. (rank_of C.place rank).me ≡ me) }
        ensures bound { IfOk result (λ rank. (word : List ℕ) → (rank_of C.place rank).bound word ≡ bound_first world word) }
        ensures requests { IfOk result (λ rank. (word : List ℕ) → (rank_of C.place rank).requests word ≡ None) }
        ensures todo { IfOk result (λ rank. (rank_of C.place rank).todo ≡ todo.now) }
        ensures waits { IfOk result (λ rank. (rank_of C.place rank).waits ≡ None) }
        ensures lines { IfOk result (λ rank. (rank_of C.place rank).lines ≡ []) }
        ensures origins { IfOk result (λ rank. (rank_of C.place rank).origins ≡ []) }
    {
        let bound = world_alone(alloc, world)?;
        Ok(Interpreter {
            me,
            bound,
            requests: BTreeMap::new(alloc),
            todo,
            waits: None,
            lines: Vec::new(alloc),
            origins: Vec::new(alloc),
        })
    }

    /// Whether it waits for an outcome, or has statements left.
    pub fn is_waiting(&self) -> bool
        ensures { result ≡ is_waiting (rank_of C.place self.now) }
    {
        self.waits.is_some() || !self.todo.is_empty()
    }

    /// Who it is.
    pub fn me(&self) -> Proc
        ensures { result ≡ (rank_of C.place self.now).me }
    {
        self.me
    }

    /// The call whose outcome it waits for.
    pub fn awaited(&self) -> Option<&C::Call>
        ensures { option_map C.place (option_copied result) ≡ option_map place_of (rank_of C.place self.now).waits }
    {
        match &self.waits {
            Some(wait) => Some(&wait.call),
            None => None,
        }
    }

    /// Its open requests.
    pub fn requests(&self) -> &BTreeMap<Word, C::Call>
        ensures { requests_of C.place result.now ≡ (rank_of C.place self.now).requests }
    {
        &self.requests
    }

    /// The statements that are left, without the one whose outcome it waits for.
    pub fn todo(&self) -> &'a [Statement]
        ensures { result.now ≡ (rank_of C.place self.now).todo }
    {
        self.todo
    }

    /// How many statements are left, with the one whose outcome it waits for.
    pub fn left(&self) -> usize
        ensures { result ≡ statements_left (rank_of C.place self.now) }
    {
        if self.waits.is_some() {
            return 1 + self.todo.len();
        }
        self.todo.len()
    }

    /// Its lines so far.
    pub fn lines(&self) -> &[Line]
        ensures { result.now ≡ (rank_of C.place self.now).lines }
    {
        self.lines.as_slice()
    }

    /// Which statement each of them belongs to.
    pub fn origins(&self) -> &[Origin]
        ensures { result.now ≡ (rank_of C.place self.now).origins }
    {
        self.origins.as_slice()
    }

    /// How it ends: its lines, and where it waits.
    pub fn into_end(self, alloc: Global) -> Result<RankEnd, OutOfMemory>
        ensures { IfOk result (λ end. end_view end ≡ end_of_rank (rank_of C.place self.entry)) }
    {
        let Interpreter {
            requests,
            todo,
            waits,
            lines,
            origins,
            ..
        } = self;
        let waits = waits_at::<C>(alloc, requests, todo, waits)?;
        Ok(RankEnd {
            lines,
            origins,
            waits,
        })
    }

    /// Goes on with the statements until an outcome is missing. It answers whether there was a move. An `Err` is want of memory for a
    /// move, and so not where nothing is left to do.
    pub fn go_on(&mut self, alloc: Global, carrier: &mut C, ops: &Ops) -> Result<bool, OutOfMemory>
        requires { MayGo (C.terms (⟦<Ops as Listing>⟧.operations ops.now)) (rank_of C.place self.old) carrier.old }
        ensures goes { IfOk result (GoesOn (C.terms (⟦<Ops as Listing>⟧.operations ops.now)) (rank_of C.place self.old) carrier.old (rank_of C.place self.new) carrier.new) }
        ensures memory { OnErr result (StopsShort (C.terms (⟦<Ops as Listing>⟧.operations ops.now)) (rank_of C.place self.old) carrier.old) }
    {
        let mut moved = false;
        while self.move_on(alloc, carrier, ops)? {
            moved = true;
        }
        Ok(moved)
    }

    // One move: the line of the outcome that the rank waits for, once that is told, else the next statement. It answers
    // whether there was one.
    fn move_on(&mut self, alloc: Global, carrier: &mut C, ops: &Ops) -> Result<bool, OutOfMemory>
        requires { MayTry (C.terms (⟦<Ops as Listing>⟧.operations ops.now)) (rank_of C.place self.old) carrier.old }
        ensures moves { IfOk result (Moves (C.terms (⟦<Ops as Listing>⟧.operations ops.now)) (rank_of C.place self.old) carrier.old (rank_of C.place self.new) carrier.new) }
        ensures memory { OnErr result (IsTrue (is_waiting (rank_of C.place self.old))) }
    {
        match self.waits.take() {
            Some(wait) => self.hear(alloc, carrier, wait, ops),
            None => self.do_next(alloc, carrier, ops),
        }
    }

    // Looks for the outcome that it waits for.
    fn hear(
        &mut self,
        alloc: Global,
        carrier: &mut C,
        wait: Wait<'a, C::Call>,
        ops: &Ops,
    ) -> Result<bool, OutOfMemory>
        requires { (rank_of C.place self.old).waits ≡ None }
        ensures { IfOk result (Moves (C.terms (⟦<Ops as Listing>⟧.operations ops.now)) (record (rank_of C.place self.old) { waits = Some (wait_of C.place wait.entry) }) carrier.old (rank_of C.place self.new) carrier.new) }
    {
        let Wait { call, target } = wait;
        match carrier.hear(alloc, self.me, call, ops)? {
            Heard::NotYet(call) => {
                self.waits = Some(Wait { call, target });
                Ok(false)
            }
            Heard::Told { line, given } => {
                self.lines.push(line)?;
                push_origins(&mut self.origins, 1, self.todo, 1)?;
                bind(alloc, &mut self.bound, target, given)?;
                Ok(true)
            }
        }
    }

    // The next statement.
    fn do_next(&mut self, alloc: Global, carrier: &mut C, ops: &Ops) -> Result<bool, OutOfMemory>
        requires waits { (rank_of C.place self.old).waits ≡ None }
        requires may { MayTry (C.terms (⟦<Ops as Listing>⟧.operations ops.now)) (rank_of C.place self.old) carrier.old }
        ensures moves { IfOk result (Moves (C.terms (⟦<Ops as Listing>⟧.operations ops.now)) (rank_of C.place self.old) carrier.old (rank_of C.place self.new) carrier.new) }
        ensures memory { OnErr result (IsTrue (has_statements (rank_of C.place self.old).todo)) }
    {
        let Some((statement, rest)) = self.todo.split_first() else {
            return Ok(false);
        };
        match statement {
            Statement::Post(posting) => self.post_next(alloc, carrier, posting, rest, ops),
            Statement::Wait(words) => self.wait_next(alloc, carrier, words.as_slice(), rest, ops),
            Statement::Ask(question) => {
                self.ask_next(alloc, carrier, question, rest, ops)?;
                Ok(true)
            }
        }
    }

    // Posts the next statement. Where it is accepted its outcome is awaited, or its request is open from now on. It answers
    // whether it was accepted or refused; else it can't be posted now.
    fn post_next(
        &mut self,
        alloc: Global,
        carrier: &mut C,
        posting: &'a Posting,
        rest: &'a [Statement],
        ops: &Ops,
    ) -> Result<bool, OutOfMemory>
        requires waits { (rank_of C.place self.old).waits ≡ None }
        requires todo { (rank_of C.place self.old).todo ≡ Post posting.now ∷ rest.now }
        requires may { MayTry (C.terms (⟦<Ops as Listing>⟧.operations ops.now)) (rank_of C.place self.old) carrier.old }
        ensures { IfOk result (Moves (C.terms (⟦<Ops as Listing>⟧.operations ops.now)) (rank_of C.place self.old) carrier.old (rank_of C.place self.new) carrier.new) }
    {
        let words = words_of(posting);
        let on = communicator(&self.bound, words.on);
        let call = match carrier.post(alloc, self.me, on, posting, ops) {
            Ok(Some(call)) => call,
            Ok(None) => return Ok(false),
            Err(refusal) => {
                self.be_refused(alloc, posting, rest, refusal)?;
                return Ok(true);
            }
        };
        self.todo = rest;
        match words.request {
            Some(word) => bind(alloc, &mut self.requests, Some(word), call)?,
            None => {
                let target = words.target;
                self.waits = Some(Wait { call, target });
            }
        }
        Ok(true)
    }

    // The post of the next statement was refused, or memory was wanting.
    fn be_refused(
        &mut self,
        alloc: Global,
        posting: &'a Posting,
        rest: &'a [Statement],
        refusal: PostError,
    ) -> Result<(), OutOfMemory>
        requires { (rank_of C.place self.old).waits ≡ None }
        ensures other { OnOk result (refusal ≡ PostError.OutOfMemory → ⊥) }
        ensures line { OnOk result (rank_of C.place self.new ≡ refused (rank_of C.place self.old) posting.now rest.now refusal) }
    {
        if refusal.is_want_of_memory() {
            return Err(OutOfMemory);
        }
        self.lines.push(Line::Refused(refusal))?;
        push_origins(&mut self.origins, 0, self.todo, 1)?;
        self.todo = rest;
        bind(alloc, &mut self.bound, words_of(posting).target, None)?;
        Ok(())
    }

    // Waits for the requests of the next statement: once the calls of all that are open are done, it tells their outcomes, and
    // so closes them. It answers whether it has.
    fn wait_next(
        &mut self,
        alloc: Global,
        carrier: &mut C,
        words: &[Word],
        rest: &'a [Statement],
        ops: &Ops,
    ) -> Result<bool, OutOfMemory>
        requires waits { (rank_of C.place self.old).waits ≡ None }
        requires todo { (rank_of C.place self.old).todo ≡ WaitFor words.now ∷ rest.now }
        ensures { IfOk result (Moves (C.terms (⟦<Ops as Listing>⟧.operations ops.now)) (rank_of C.place self.old) carrier.old (rank_of C.place self.new) carrier.new) }
    {
        if !are_done(alloc, carrier, self.me, &self.requests, words, ops)? {
            return Ok(false);
        }
        close_all(
            alloc,
            carrier,
            self.me,
            &mut self.requests,
            &mut self.lines,
            words,
            ops,
        )?;
        push_origins(&mut self.origins, 0, self.todo, words.len())?;
        self.todo = rest;
        Ok(true)
    }

    // Answers the question of the next statement.
    fn ask_next(
        &mut self,
        alloc: Global,
        carrier: &mut C,
        question: &Question,
        rest: &'a [Statement],
        ops: &Ops,
    ) -> Result<(), OutOfMemory>
        requires waits { (rank_of C.place self.old).waits ≡ None }
        requires todo { (rank_of C.place self.old).todo ≡ Ask question.now ∷ rest.now }
        ensures { OnOk result (Moves (C.terms (⟦<Ops as Listing>⟧.operations ops.now)) (rank_of C.place self.old) carrier.old (rank_of C.place self.new) carrier.new true) }
    {
        let line = answer(alloc, carrier, self.me, &self.bound, question, ops)?;
        self.lines.push(line)?;
        push_origins(&mut self.origins, 0, self.todo, 1)?;
        self.todo = rest;
        Ok(())
    }
}

// The word `world` alone, bound to a communicator, where there is one.
fn world_alone<K: Drop>(
    alloc: Global,
    world: Option<K>,
) -> Result<BTreeMap<Word, Option<K>>, OutOfMemory>
    ensures { IfOk result (λ bound. (word : List ℕ) → looked_up bound word ≡ bound_first world word) }
{
    let mut bound = BTreeMap::new(alloc);
    if let Some(world) = world {
        bound.insert(Word::new(alloc, b"world")?, Some(world))?;
    }
    Ok(bound)
}

/// The communicator that a word is bound to, where it is one.
pub(crate) fn communicator<'m, K>(
    bound: &'m BTreeMap<Word, Option<K>>,
    word: &Word,
) -> Option<&'m K>
    ensures { option_copied result ≡ communicator_in (looked_up bound.now word.now) }
{
    match bound.get(word) {
        Some(Some(communicator)) => Some(communicator),
        Some(None) => None,
        None => None,
    }
}
