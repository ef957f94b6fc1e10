//! A script that was read.
ghost use Rattle.std.specs.Prelude.{◌≡◌, ◌-◌, ◌<◌, ◌≤◌, [], ◌∷◌, ◌++◌, length, map, slice_index_or, slice_set, IfOk, OnOk, vec_len};
ghost use Rattle.std.specs.List.{range_with_len};
ghost use Rattle.mpx_script.specs.ScriptView.{Adds};
ghost use Rattle.mpx_script.specs.Naming.{is_bound, names_at};

use crate::rank_statements::RankStatements;
use crate::script_line::Assignment;
use join_core::OutOfMemory;
use mpx_statement::Statement;
use std::alloc::{AllocError, Global};
use std::marker::Model;

/// A script: how many ranks there are, and each rank's statements. It is made by
/// [`read_script`](crate::read_script) alone.
#[derive(Debug, Drop)]
pub struct Script {
    ranks: u8,
    statements: Vec<RankStatements>,
}

impl Model for Script {
    ghost use Rattle.std.specs.Prelude.{◌≡◌, ◌≤◌, vec_len};
    ghost use Rattle.mpx_script.specs.ScriptView.{ScriptView};

    ghost Value = { ScriptView };

    ghost view = { λ s. record { ranks = s.ranks; statements = s.statements.items } };

    ghost invariant = { λ s. (1 ≤ s.ranks) × (s.ranks ≤ 64) × (vec_len s.statements ≡ s.ranks) };
}

impl Script {
    /// How many ranks there are: 1 to 64.
    pub fn ranks(&self) -> u8
        ensures ranks { result ≡ self.now.ranks }
        ensures within { (1 ≤ result) × (result ≤ 64) }
        ensures each_rank { length self.now.statements ≡ result }
    {
        self.ranks
    }

    /// The rank's statements, in the order of the file; none where the script has no such rank.
    pub fn statements(&self, rank: u8) -> &[Statement]
        ensures { result.now ≡ slice_index_or self.now.statements rank [] }
    {
        match self.statements.get(rank as usize) {
            Some(statements) => statements.as_slice(),
            None => &[],
        }
    }

    /// Whether a rank has bound a name to a communicator; none where the script has no such rank.
    pub(crate) fn has_communicator(&self, rank: u8, word: &[u8]) -> bool
        ensures { result ≡ is_bound (names_at self.now.statements rank).communicators word.now }
    {
        match self.statements.get(rank as usize) {
            Some(statements) => statements.has_communicator(word),
            None => false,
        }
    }

    /// Whether a rank has bound a name to a request; none where the script has no such rank.
    pub(crate) fn has_request(&self, rank: u8, word: &[u8]) -> bool
        ensures { result ≡ is_bound (names_at self.now.statements rank).requests word.now }
    {
        match self.statements.get(rank as usize) {
            Some(statements) => statements.has_request(word),
            None => false,
        }
    }

    /// A script without statements.
    pub(crate) fn new(alloc: Global, ranks: u8) -> Result<Script, AllocError>
        requires some { 1 ≤ ranks }
        requires few { ranks ≤ 64 }
        ensures { IfOk result (λ s. s ≡ record {
          ranks = ranks;
          statements = map (λ rank. []) (range_with_len 0 ranks);
        }) }
    {
        let mut statements = Vec::new(alloc);
        for _ in 0..ranks {
            statements.push(RankStatements::new(alloc))?;
        }
        Ok(Script { ranks, statements })
    }

    /// Adds a statement for its ranks. Where memory runs out, some of them may have it.
    pub(crate) fn add(&mut self, alloc: Global, assignment: Assignment) -> Result<(), OutOfMemory>
        requires some { assignment.from < assignment.to }
        requires within { assignment.to ≤ self.old.ranks }
        ensures ranks { self.new.ranks ≡ self.old.ranks }
        ensures added { OnOk result (Adds assignment.from assignment.to assignment.statement
            self.old.statements self.new.statements) }
    {
        give(alloc, &mut self.statements, assignment)
    }
}

/// Adds a statement at the end of a rank's.
fn push_to(
    alloc: Global,
    statements: &mut Vec<RankStatements>,
    rank: u8,
    statement: Statement,
) -> Result<(), OutOfMemory>
    requires { rank < vec_len statements.old }
    ensures len { vec_len statements.new ≡ vec_len statements.old }
    ensures pushed { OnOk result (statements.new.items
        ≡ slice_set statements.old.items rank (slice_index_or statements.old.items rank [] ++ statement ∷ [])) }
{
    statements[rank as usize].push(alloc, statement)
}

/// Adds a statement for its ranks, a copy of its own for each.
fn give(
    alloc: Global,
    statements: &mut Vec<RankStatements>,
    assignment: Assignment,
) -> Result<(), OutOfMemory>
    requires some { assignment.from < assignment.to }
    requires within { assignment.to ≤ vec_len statements.old }
    ensures len { vec_len statements.new ≡ vec_len statements.old }
    ensures added { OnOk result (Adds assignment.from assignment.to assignment.statement
        statements.old.items statements.new.items) }
{
    let Assignment {
        from,
        to,
        statement,
    } = assignment;
    match give_copies(alloc, statements, from, to, &statement) {
        Ok(()) => push_to(alloc, statements, to - 1, statement),
        Err(e) => {
            drop(statement);
            Err(e)
        }
    }
}

/// Adds copies of a statement for these ranks without their last.
fn give_copies(
    alloc: Global,
    statements: &mut Vec<RankStatements>,
    from: u8,
    to: u8,
    statement: &Statement,
) -> Result<(), OutOfMemory>
    requires some { from < to }
    requires within { to ≤ vec_len statements.old }
    ensures len { vec_len statements.new ≡ vec_len statements.old }
    ensures added { OnOk result (Adds from (to - 1) statement.now statements.old.items statements.new.items) }
{
    for rank in from..to - 1 {
        push_copy(alloc, statements, rank, statement)?;
    }
    Ok(())
}

/// Adds a copy of a statement at the end of a rank's.
fn push_copy(
    alloc: Global,
    statements: &mut Vec<RankStatements>,
    rank: u8,
    statement: &Statement,
) -> Result<(), OutOfMemory>
    requires { rank < vec_len statements.old }
    ensures len { vec_len statements.new ≡ vec_len statements.old }
    ensures pushed { OnOk result (statements.new.items
        ≡ slice_set statements.old.items rank (slice_index_or statements.old.items rank [] ++ statement.now ∷ [])) }
{
    let copied = statement.copy(alloc)?;
    push_to(alloc, statements, rank, copied)
}
