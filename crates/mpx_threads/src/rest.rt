//! Whether no rank can go on, as all ports say once their threads have ended.
ghost use Rattle.std.specs.Prelude.{◌≡◌, ◌≤◌, false, length, true};
ghost use Rattle.mpx_board.specs.Looks.{look};
ghost use Rattle.mpx_node.specs.Shown.{node_of};
ghost use Rattle.mpx_bus.specs.Ports.{node_in};
ghost use Rattle.mpx_meaning.specs.Ends.{asked_view};
ghost use Rattle.mpx_threads.specs.Rest.{EndedOrLacks, HaveBoardInCommon, HaveComeToRest, HaveEnded, HaveEndedOrLack, Lacks, OneLacks};

use crate::worker::Worked;
use join_core::Exact;
use mpx_board::Board;
use mpx_group::Proc;
use mpx_meaning::AskedCall;
use mpx_name::Name;
use mpx_node::Node;

/// Whether all ranks, the first so many processes, have ended; or no rank can hear anything new or go on: all of them have one board,
/// and each that has something left waits for a call of which that board lacks a post. What a run's threads told each other isn't asked.
pub(crate) fn are_at_rest(worked: &[Worked], ranks: usize) -> bool
    requires { ranks ≤ length worked.now }
    ensures yes { result ≡ true → HaveComeToRest ranks worked.now }
    ensures no { result ≡ false → HaveComeToRest ranks worked.now → ⊥ }
{
    if have_ended(worked, ranks) {
        return true;
    }
    if !have_one_board(worked, ranks) {
        return false;
    }
    have_ended_or_lack(worked, ranks)
}

fn have_ended(worked: &[Worked], ranks: usize) -> bool
    requires { ranks ≤ length worked.now }
    ensures yes { result ≡ true → HaveEnded ranks worked.now }
    ensures no { result ≡ false → HaveEnded ranks worked.now → ⊥ }
{
    for p in 0..ranks {
        if worked[p].end.waits.is_some() {
            return false;
        }
    }
    true
}

fn have_one_board(worked: &[Worked], ranks: usize) -> bool
    requires { ranks ≤ length worked.now }
    ensures yes { result ≡ true → HaveBoardInCommon ranks worked.now }
    ensures no { result ≡ false → HaveBoardInCommon ranks worked.now → ⊥ }
{
    for p in 1..ranks {
        if !board_of(&worked[0]).same(board_of(&worked[p])) {
            return false;
        }
    }
    true
}

fn board_of(worked: &Worked) -> &Board
    ensures { look result.now ≡ (node_in worked.now.port).board }
{
    worked.port.node().board()
}

fn have_ended_or_lack(worked: &[Worked], ranks: usize) -> bool
    requires { ranks ≤ length worked.now }
    ensures yes { result ≡ true → HaveEndedOrLack ranks worked.now }
    ensures no { result ≡ false → HaveEndedOrLack ranks worked.now → ⊥ }
{
    for p in 0..ranks {
        if !has_ended_or_lacks(&worked[p]) {
            return false;
        }
    }
    true
}

// Whether a rank has nothing left, or its port lacks a call that it waits for.
fn has_ended_or_lacks(worked: &Worked) -> bool
    ensures yes { result ≡ true → EndedOrLacks worked.now }
    ensures no { result ≡ false → EndedOrLacks worked.now → ⊥ }
{
    let Some(waits) = &worked.end.waits else {
        return true;
    };
    let calls = waits.calls.as_slice();
    for i in 0..calls.len() {
        if lacks(worked.port.node(), &calls[i]) {
            return true;
        }
    }
    false
}

// Whether the node hasn't harvested the call, and its board lacks the post of a member.
fn lacks(node: &Node, asked: &AskedCall) -> bool
    ensures yes { result ≡ true → Lacks (node_of node.now) (asked_view asked.now).1 }
    ensures no { result ≡ false → Lacks (node_of node.now) (asked_view asked.now).1 → ⊥ }
{
    let (name, call) = (&asked.name, asked.call);
    if call < node.front(name) {
        return false;
    }
    let Some(birth) = node.board().birth(name) else {
        return false;
    };
    one_lacks(node.board(), name, call, birth.members())
}

fn one_lacks(board: &Board, name: &Name, call: u32, members: &[Proc]) -> bool
    ensures yes { result ≡ true → OneLacks (look board.now) name.now call members.now }
    ensures no { result ≡ false → OneLacks (look board.now) name.now call members.now → ⊥ }
{
    for i in 0..members.len() {
        if board.holds(name, call, members[i]).is_none() {
            return true;
        }
    }
    false
}
