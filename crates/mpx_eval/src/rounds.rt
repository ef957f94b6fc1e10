//! Rounds: every rank in order goes on until it must wait.
ghost use Rattle.std.specs.Prelude.{◌≡◌, ◌<◌, ◌≤◌, ℕ, IfOk, IsTrue, List, OnOk, length, map};
ghost use Rattle.mpx_statement.specs.declared.statement.Statement.{Statement as Said};
ghost use Rattle.mpx_meaning.specs.Evaluation.{State, IsReached};
ghost use Rattle.mpx_eval.specs.Rounds.{AreAtEnd, AreIn, Round, all_left};
ghost use Rattle.mpx_eval.specs.Carrying.{shown};
ghost use Rattle.mpx_eval.specs.Tables.{table_of};

use crate::table::Table;
use join_core::OutOfMemory;
use mpx_num::{Listing, Ops};
use mpx_rank::Interpreter;
use std::alloc::Global;

// Every rank in order goes on until it must wait. It answers whether one moved.
fn round(
    alloc: Global,
    ranks: &mut [Interpreter<'_, Table>],
    table: &mut Table,
    ops: &Ops,
) -> Result<bool, OutOfMemory>
    ensures goes { IfOk result (λ moved. Round (⟦<Ops as Listing>⟧.operations ops.now) (map shown ranks.old) (table_of table.old) (map shown ranks.new) (table_of table.new) moved (length ranks.old)) }
    ensures less { IfOk result (λ moved. IsTrue moved → all_left (map shown ranks.new) < all_left (map shown ranks.old)) }
{
    let mut changed = false;
    for p in 0..ranks.len() {
        let moved = ranks[p].go_on(alloc, table, ops)?;
        changed |= moved;
    }
    Ok(changed)
}

/// Rounds, up to one that moves nobody.
pub(crate) fn rounds(
    alloc: Global,
    ranks: &mut [Interpreter<'_, Table>],
    table: &mut Table,
    ops: &Ops,
) -> Result<(), OutOfMemory>
    ensures { OnOk result ((script : List (List Said)) (count : ℕ) (s : State) → IsReached (⟦<Ops as Listing>⟧.operations ops.now) script count s → AreIn (⟦<Ops as Listing>⟧.operations ops.now) count (map shown ranks.old) (table_of table.old) s
        → AreAtEnd (⟦<Ops as Listing>⟧.operations ops.now) script count (map shown ranks.new) (table_of table.new)) }
{
    while round(alloc, ranks, table, ops)? {}
    Ok(())
}
