//! Digests: for each context and process, how many of that process's calls a board knows in order ([`digest_of`]), as
//! acknowledgements say it, or as much of that as a process doesn't say yet ([`digest_beyond`]).
//!
//! `specs/Digest.antt` says what a digest of a board is, by its facts; `specs/Reach.antt` how it is found in one pass over the
//! maps that the board is made of. `specs/Beyond.antt` says
//! where nothing is left to say. `specs/Keep.antt` has maps of which some entries are kept.
#![tactic(auto)]

mod digest;
mod quiet;

pub use digest::{digest_beyond, digest_of};
pub use quiet::{number_near, value_near};
