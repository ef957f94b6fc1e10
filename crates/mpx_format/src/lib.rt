//! How boards are spelled in bytes: one table of formats, from which the grammar and the order of refusals both come.
//!
//! A format (`specs/Format.antt`) says how a value is spelled, whether it has a spelling, and what reading gives: the value at
//! the front with the bytes after it, or the first field that is wrong. The formats of frames are built of a few such forms:
//! fields and names in `specs/Fields.antt`, births in `specs/Births.antt`, posts in `specs/Posts.antt`, whole boards in
//! `specs/Contexts.antt`; `specs/Decoding.antt` says which bytes spell a board and how a refusal is placed. The code that
//! reads them is `mpx_decode`, what writes them `mpx_encode`, and what is of both ways `mpx_wire`. There are two versions of
//! frames ([`Version`]), which differ in what stands behind the name of a context, in the kinds of calls and in the operations: the
//! formats of whole contexts, and what these are built of, have the version as a parameter. [`Kept`] is what a process keeps of acknowledgements as
//! they are spelled (`specs/Kept.antt`).
#![tactic(auto)]

mod codes;
mod defects;
mod kept;
mod laws;
mod rising;
mod versions;

pub use codes::code_of_mode;
pub use defects::{Defect, ReadError, SHORT, WireError, not_canonical, out_of_limits, placed};
pub use kept::{Kept, KeptAcks, PIECE_ROWS};
pub use laws::one_spelling;
pub use rising::may_come;
pub use versions::Version;
