//! Where a block lies among items: from which place on, and how long it is.
/// So many items, from a place on.
#[derive(Clone, Copy, Debug)]
pub struct Block {
    pub first: usize,
    pub count: usize,
}
