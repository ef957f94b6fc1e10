//! Tickets of a port's posts: what a post leaves to ask with, and what the port answers.
#![tactic(auto)]

mod asking;
mod posting;
mod ticket;

pub use asking::answer_to;
pub use posting::{post_counted, ticket_for};
pub use ticket::{Ticket, TicketTested};
