//! Which posts a board holds, as text: `NAME CALL: RANK ..` of each call.

use join_nest::Lift;
use mpx_board::Board;
use mpx_name::{Name, Step};
use std::alloc::Global;
use std::io::{self, Write};

/// Adds the calls of which the board holds posts, one after the other with ` | ` between, and of each the processes whose posts these
/// are; `nothing` where there are none. Calls that are dropped aren't told, nor contexts that are dead.
pub(crate) fn push_held(board: &Board, text: &mut Vec<u8>) -> io::Result<()> {
    let mut any = false;
    for (name, known) in board.pair().first.entries() {
        if let Lift::Live(entry) = known {
            for (call, posts) in entry.second.second.entries() {
                if any {
                    text.extend_from_slice(b" | ")?;
                }
                any = true;
                push_call(name, *call, text)?;
                for (process, _) in posts.entries() {
                    write!(text, " {}", process.number())?;
                }
            }
        }
    }
    if !any {
        text.extend_from_slice(b"nothing")?;
    }
    Ok(())
}

// Adds a context and the number of a call on it.
fn push_call(name: &Name, call: u32, text: &mut Vec<u8>) -> io::Result<()> {
    push_name(name, text)?;
    write!(text, " {call}:")
}

// Adds a name without blanks: `world`, and behind it for each step `/CALL.COLOUR` of a communicator that a call made, or
// `/tTAG(RANK,RANK)` of the members that `create_group` gathers.
pub(crate) fn push_name(name: &Name, text: &mut Vec<u8>) -> io::Result<()> {
    text.extend_from_slice(b"world")?;
    for step in name.steps() {
        match step {
            Step::Child { call, colour } => write!(text, "/{call}.{colour}")?,
            Step::Gathering { tag, members } => {
                write!(text, "/t{tag}")?;
                push_members(members.members(), text)?;
            }
        }
    }
    Ok(())
}

// Adds processes in brackets.
fn push_members(members: &[mpx_group::Proc], text: &mut Vec<u8>) -> io::Result<()> {
    let mut between = "(";
    for member in members {
        write!(text, "{between}{}", member.number())?;
        between = ",";
    }
    text.extend_from_slice(b")")?;
    Ok(())
}
