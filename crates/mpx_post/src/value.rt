//! What the posts of a call give one member.
use mpx_num::Items;

/// What the posts of a call give one member.
#[derive(Debug, Drop)]
pub enum Value {
    /// The call gives it nothing.
    Nothing,
    /// There is nothing to give: no member has a lower rank (`MPI_EXSCAN`, MPI 4.1 section 6.11.2).
    Absent,
    /// The items that it gets. There may be any number of them.
    Items(Items),
}
