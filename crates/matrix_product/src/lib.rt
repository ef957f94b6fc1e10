//! The product of matrices modulo a prime, as an operation of a job's own: [`Product`].
#![tactic(auto)]

mod product;

pub use product::Product;
