//! What a process gives to a call: drafts, posts and the rows that they make.
//!
//! A [`Kind`] of call has one row in a table (`mpx_kind`): which fields its posts have, how many counts, and how their items
//! are cut into blocks. A post is seen by contracts as the
//! record of its fields (`specs/Posts.antt`), a row as the list of its posts in rank order (`specs/Rows.antt`), and a
//! communicator as its members and their topology (`mpx_birth`). A draft is accepted or refused by one list of conditions in
//! the order in which they are told, or, where no communicator is at hand, by the limits of all (`specs/Drafts.antt`), and a
//! row is fine where the posts of all ranks agree (`specs/Agreement.antt`).
//!
//! In the order of reading: [`Birth`], [`Kind`], [`Draft`] with [`Draft::check`] and [`Draft::bare`], [`Post`], [`Row`], [`Value`].
#![tactic(auto)]

mod bare;
mod block;
mod counts;
mod draft;
mod draft_refusals;
mod drafted_edges;
mod gathering;
mod graph_fields;
mod graph_parts;
mod making;
mod making_fields;
mod post;
mod post_fields;
mod ranks;
mod refusal_names;
mod row;
mod value;

pub use block::Block;
pub use counts::Counts;
pub use draft::{At, Draft, MOST_CALLS, PostError};
pub use drafted_edges::{DraftedEdge, DraftedGraph, DraftedNeighbour};
pub use gathering::Gathering;
pub use graph_parts::{Edges, OwnNeighbours};
pub use making::Making;
pub use mpx_birth::{Birth, Edge, Neighbour, Neighbours, Topology};
pub use mpx_kind::{
    Call, Exchange, Fields, Kind, Makes, Mode, Neighbourhood, NewCommunicator, Number, Reduction,
    Seat, Sent,
};
pub use post::{Post, have_same_op};
pub use ranks::Ranks;
pub use row::Row;
pub use value::Value;
