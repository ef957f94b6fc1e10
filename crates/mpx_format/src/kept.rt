//! What processes say that they have, kept as frames spell it.
ghost use Rattle.std.specs.Prelude.{◌≡◌, ◌==◌, ◌<◌, ℕ, [], false, List, OnOk, cond, length, map, set, take};
ghost use Rattle.join_nest.specs.Placed.{set_values};
ghost use Rattle.mpx_board.specs.Parts.{AcksView, OfProcesses};
ghost use Rattle.mpx_board.specs.Raised.{stored, view_of_raised};
ghost use Rattle.mpx_format.specs.Kept.{AreKept, ArePieces, Row, pieces_of};

use join_core::OutOfMemory;
use mpx_board::{Raised, VersionVector};
use mpx_group::Proc;
use mpx_rope::Rope;
use std::alloc::Global;

/// How many rows a piece spells.
pub const PIECE_ROWS: usize = 8;

/// What one process says that it has, as frames spell it: a row for each context, eight rows in a piece. A piece without bytes
/// isn't known.
#[derive(Debug, Drop)]
pub struct KeptAcks {
    pub pieces: Vec<Rope>,
}

impl KeptAcks {
    /// The row at this place has changed.
    pub fn forget(&mut self, at: usize)
        ensures { (rows : List Row) (row : Row) → ArePieces self.old.pieces.items rows → ArePieces self.new.pieces.items (set rows at row) }
    {
        let place = at / PIECE_ROWS;
        if place < self.pieces.len() {
            self.pieces[place].clear();
        }
    }

    // The rows at these places have changed.
    fn forget_all_at(&mut self, changes: &[(usize, VersionVector)])
        ensures { (rows : List Row) (values : List (ℕ × OfProcesses ℕ)) → map (λ c. c.0) values ≡ map (λ c. c.0) changes.now
            → ArePieces self.old.pieces.items rows → ArePieces self.new.pieces.items (set_values rows values) }
    {
        for change in changes {
            self.forget(change.0);
        }
    }

    /// The rows from this place on stand elsewhere now.
    pub fn forget_from(&mut self, at: usize)
        ensures { (rows new : List Row) → take at new ≡ take at rows → ArePieces self.old.pieces.items rows → ArePieces self.new.pieces.items new }
    {
        self.pieces.truncate(at / PIECE_ROWS);
    }

    /// Nothing is known.
    pub fn forget_all(&mut self)
        ensures { self.new.pieces.items ≡ [] }
    {
        self.pieces.clear();
    }
}

/// What each process says that it has, by the processes' numbers.
#[derive(Debug, Drop)]
pub struct Kept {
    pub of: Vec<KeptAcks>,
}

impl Kept {
    /// Nothing of any process.
    pub fn new(alloc: Global) -> Kept
        ensures { result.of.items ≡ [] }
    {
        Kept {
            of: Vec::new(alloc),
        }
    }

    /// What the process says, in pieces.
    pub fn pieces(&self, process: Proc) -> &[Rope]
        ensures { result.now ≡ pieces_of self.now.of.items process }
    {
        match self.of.get(process.number() as usize) {
            None => &[],
            Some(kept) => kept.pieces.as_slice(),
        }
    }

    /// Nothing is known of what the process says.
    pub fn forget(&mut self, process: Proc)
        ensures { (p : ℕ) → pieces_of self.new.of.items p ≡ cond (p == process) [] (pieces_of self.old.of.items p) }
    {
        let place = process.number() as usize;
        if place < self.of.len() {
            self.of[place].forget_all();
        }
    }

    // Nothing is known of the rows of the process at these places.
    fn forget_places(&mut self, process: Proc, changes: &[(usize, VersionVector)])
        ensures rows { (rows : List Row) (values : List (ℕ × OfProcesses ℕ)) → map (λ c. c.0) values ≡ map (λ c. c.0) changes.now
            → ArePieces (pieces_of self.old.of.items process) rows → ArePieces (pieces_of self.new.of.items process) (set_values rows values) }
        ensures others { (p : ℕ) → (p == process) ≡ false → pieces_of self.new.of.items p ≡ pieces_of self.old.of.items p }
    {
        let place = process.number() as usize;
        if place < self.of.len() {
            self.of[place].forget_all_at(changes);
        }
    }

    /// Nothing is known of what any process says.
    pub fn forget_all(&mut self)
        ensures { self.new.of.items ≡ [] }
    {
        self.of.clear();
    }

    /// Nothing is known of those whose acknowledgements storing this changes, one way or the other.
    pub fn forget_said(&mut self, said: &Raised)
        ensures stored { (old new : OfProcesses AcksView) → new ≡ stored (view_of_raised said.now) old → AreKept self.old.of.items old → AreKept self.new.of.items new }
        ensures back { (old new : OfProcesses AcksView) → old ≡ stored (view_of_raised said.now) new → AreKept self.old.of.items old → AreKept self.new.of.items new }
    {
        match said {
            Raised::Nothing => {}
            Raised::Places(process, changes) => self.forget_places(*process, changes.values()),
            Raised::Row(process, _) => self.forget(*process),
            Raised::All(_) => self.forget_all(),
        }
    }

    /// Has a place for what the process says.
    pub fn reserve(&mut self, alloc: Global, process: Proc) -> Result<(), OutOfMemory>
        ensures same { (p : ℕ) → pieces_of self.new.of.items p ≡ pieces_of self.old.of.items p }
        ensures place { OnOk result (process < length self.new.of.items) }
    {
        let place = process.number() as usize;
        for _ in self.of.len()..place + 1 {
            self.of.push(KeptAcks {
                pieces: Vec::new(alloc),
            })?;
        }
        Ok(())
    }
}
