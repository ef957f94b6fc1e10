//! The composition of affine maps, an operation that a job brings itself: [`Affine`].
#![tactic(auto)]

mod affine;

pub use affine::Affine;
