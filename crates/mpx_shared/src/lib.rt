//! A port that several threads use: one posts and looks at results, while another pushes and pops frames.
#![tactic(auto)]

mod contexts;
mod fingerprint;
mod gossip;
mod held_port;
mod laws;
mod port_lock;
mod pull;
mod shared;

pub use laws::{lawful_ports_hold_what_is_so, new_ports_are_lawful};
pub use mpx_ticket::{Ticket, TicketTested};
pub use port_lock::PortLock;
pub use pull::Pull;
pub use shared::{Poster, SharedPort};
