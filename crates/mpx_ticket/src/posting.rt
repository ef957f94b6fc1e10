//! A post with its ticket.
ghost use Rattle.std.specs.Prelude.{◌≡◌, ◌+◌, ◌<◌, [], ◌∷◌, ◌++◌, IfOk, IfErr, Err, OnOk, OnErr};
ghost use Rattle.mpx_node.specs.Nodes.{Posts, checked_on};
ghost use Rattle.mpx_node.specs.Shown.{node_of};
ghost use Rattle.mpx_bus.specs.declared.act.Act.TheVariants as A;
ghost use Rattle.mpx_bus.specs.Ports.{PortGoes, node_in};
ghost use Rattle.mpx_ticket.specs.Tickets.{IsNextTicket};

use crate::ticket::Ticket;
use join_core::Exact;
use mpx_bus::Port;
use mpx_group::Proc;
use mpx_name::Name;
use mpx_node::Node;
use mpx_num::{Listing, Ops};
use mpx_post::{At, Draft, PostError};
use std::alloc::Global;
use std::sync::ledger::{Book, Ledger, Share};

/// The ticket of the next post on the context, before it is made. An `Err` is the post's first refusal, or want of memory.
pub fn ticket_for(
    alloc: Global,
    node: &Node,
    me: Proc,
    name: &Name,
    draft: &Draft,
    ops: &Ops,
) -> Result<Ticket, PostError>
    requires { me ≡ (node_of node.now).me }
    ensures ok { IfOk result (λ ticket. IsNextTicket (⟦<Ops as Listing>⟧.operations ops.now) (node_of node.now) name.now draft.now ticket) }
    ensures err { IfErr result (λ refusal. Posts name.now (checked_on (⟦<Ops as Listing>⟧.operations ops.now) (node_of node.now) name.now draft.now) (Err refusal) (node_of node.now) (node_of node.now)) }
{
    if let Some(refusal) = node.refusal(name, draft, ops) {
        return Err(refusal);
    }
    let Some(birth) = node.board().birth(name) else {
        return Err(PostError::NotMember);
    };
    let call = node.posted(name);
    let Ok(draft) = draft.copy() else {
        return Err(PostError::OutOfMemory);
    };
    let post = draft.check(alloc, birth, me, &At::on(name, call, false), ops)?;
    match name.copy(alloc) {
        Ok(name) => Ok(Ticket { name, call, post }),
        Err(_) => Err(PostError::OutOfMemory),
    }
}

/// Makes the post, as [`Port::post`] does, and counts it in the book. An `Err` leaves all as before.
pub fn post_counted<L: Ledger>(
    alloc: Global,
    port: &mut Port,
    book: &mut Book<L>,
    share: &mut Share<L>,
    name: &Name,
    draft: Draft,
    ops: &Ops,
) -> Result<u32, PostError>
    requires list { ⟦<Ops as Listing>⟧.operations ops.now ≡ port.old.setup.operations }
    requires some { 0 < share.old.parts }
    ensures port { PortGoes port.old port.new }
    ensures kept { port.new.kept ≡ port.old.kept }
    ensures parts { share.new.parts ≡ share.old.parts }
    ensures ok { OnOk result (port.new.journal ≡ port.old.journal ++ A.Posted name.now draft ∷ []) }
    ensures counted { OnOk result ((book.new.total ≡ book.old.total + 1) × (share.new.amount ≡ share.old.amount + 1)) }
    ensures err { OnErr result (port.new ≡ port.old) }
    ensures uncounted { OnErr result ((book.new.total ≡ book.old.total) × (share.new.amount ≡ share.old.amount)) }
    ensures node { Posts name.now (checked_on port.old.setup.operations (node_in port.old) name.now draft) result (node_in port.old) (node_in port.new) }
{
    let call = port.post(alloc, name, draft, ops)?;
    book.add(share, 1);
    Ok(call)
}
