//! Bytes of which a part is shared: what a frame is written to, what it is then, and what its reader may share.
//!
//! A [`Rope`] is seen as the list of its bytes. Short fields are written into bytes of its own. Long items are put in as they are, and
//! shared. A [`FrozenRope`] is one that is finished: its copies share all of its bytes. Both lend theirs as a [`RopeRef`]. All bytes in one
//! place are had by [`RopeRef::joined`]; who reads these asks a [`Source`] for items, and gets those of the rope where it has them there. Who reads them
//! where they lie has the near ones as a slice, and the others as a [`Beyond`]: [`RopeRef::apart`].
#![tactic(auto)]

mod beyond;
mod frozen;
mod rope;
mod rope_ref;
mod shared;
mod source;

pub use beyond::Beyond;
pub use frozen::FrozenRope;
pub use rope::Rope;
pub use rope_ref::RopeRef;
pub use source::{FEWEST_SHARED, Source};
