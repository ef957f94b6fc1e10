//! What a port answers a ticket.
ghost use Rattle.std.specs.Prelude.{◌≡◌, IfOk, OnErr};
ghost use Rattle.mpx_bus.specs.Ports.{KeepsPlan};
ghost use Rattle.mpx_ticket.specs.Tickets.{HoldsAnswer, IsAnswer};

use crate::ticket::{Ticket, TicketTested};
use join_core::{Exact, OutOfMemory};
use mpx_bus::Port;
use mpx_group::Proc;
use std::alloc::Global;

/// What the port of this process answers a ticket: the call's result, or that it has none yet or none any more, or that the post isn't
/// its own. An `Err` is want of memory for a copy of the result, which is there then.
pub fn answer_to(
    alloc: Global,
    port: &Port,
    me: Proc,
    ticket: &Ticket,
) -> Result<TicketTested, OutOfMemory>
    requires me { me ≡ port.now.me }
    requires plan { KeepsPlan port.now }
    ensures answer { IfOk result (λ tested. IsAnswer port.now ticket.now tested) }
    ensures memory { OnErr result (HoldsAnswer port.now ticket.now) }
{
    let node = port.node();
    if let Some(finished) = node.result(&ticket.name, ticket.call) {
        if !finished.mine.same(&ticket.post) {
            return Ok(TicketTested::Strange);
        }
        return Ok(TicketTested::Done(finished.copy(alloc)?));
    }
    if ticket.call < node.front(&ticket.name) {
        return Ok(TicketTested::LetGo);
    }
    let Some(mine) = node.board().holds(&ticket.name, ticket.call, me) else {
        return Ok(TicketTested::Strange);
    };
    if !mine.same(&ticket.post) {
        return Ok(TicketTested::Strange);
    }
    Ok(TicketTested::NotYet)
}
