//! The kinds of calls, by the way in which their values are found: one row each of what the posts of a kind have
//! ([`Kind::fields`]), as `specs/Kinds.antt` has it, and its number ([`Kind::code`]), as `specs/Codes.antt` has it.
#![tactic(auto)]

mod coding;
mod kinds;
mod tables;

pub use kinds::{
    Call, Exchange, Fields, Kind, Makes, Mode, Neighbourhood, NewCommunicator, Number, Reduction,
    Seat, Sent,
};
