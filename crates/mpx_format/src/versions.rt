//! The versions of frames.

/// A version of frames. The first knows live contexts alone; the second tells dead ones, and has the kind of call that frees a
/// communicator. `encode` writes the second, `decode` reads both.
#[derive(Clone, Copy, Debug, PartialEq, Eq)]
pub enum Version {
    One,
    Two,
}
