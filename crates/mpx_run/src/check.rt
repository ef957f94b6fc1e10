//! The line of a script that is read alone.
ghost use Rattle.std.specs.Prelude.{◌≡◌, IfOk, pos, string_bytes};
ghost use Rattle.mpx_run.specs.Texts.{check_text, statements_upto};

use join_core::OutOfMemory;
use mpx_num::push_number;
use mpx_script::Script;
use std::alloc::Global;

/// `ok N ranks M statements` and a newline, where M counts a statement once for each rank that has it.
pub(crate) fn check_text(alloc: Global, script: &Script) -> Result<String, OutOfMemory>
    ensures { IfOk result (λ text. string_bytes text ≡ check_text script.now) }
{
    let mut text = String::from_str(alloc, "ok ")?;
    push_number(&mut text, i128::from(script.ranks()))?;
    text.push_str(" ranks ")?;
    push_number(&mut text, statement_count(script))?;
    text.push_str(" statements\n")?;
    Ok(text)
}

// How many statements the ranks have.
fn statement_count(script: &Script) -> i128
    ensures { result ≡ pos (statements_upto script.now.statements script.now.ranks) }
{
    let mut count = 0u128;
    for rank in 0..script.ranks() {
        count += script.statements(rank).len() as u128;
    }
    count as i128
}
