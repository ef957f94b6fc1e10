//! A ticket, and what it is answered.
use mpx_name::Name;
use mpx_node::Finished;
use mpx_post::Post;

/// A call that a port has posted: its context, its number there, and the port's own post.
#[derive(Debug, Drop)]
pub struct Ticket {
    pub name: Name,
    pub call: u32,
    pub post: Post,
}

/// What a ticket is answered.
#[derive(Debug, Drop)]
pub enum TicketTested {
    /// The call's result: what it gave, beside the ticket's own post.
    Done(Finished),
    /// The port has no result of the call yet.
    NotYet,
    /// The port had the call's result, and has let it go.
    LetGo,
    /// The port made no such post as this call.
    Strange,
}
