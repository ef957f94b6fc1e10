//! What is so of all communicators that a call makes.
ghost use Rattle.std.specs.Prelude.{◌≡◌, ◌<◌, ℕ, List, length};
ghost use Rattle.std.specs.List.{All, AllPairs};
ghost use Rattle.mpx_name.specs.Name.{Name};
ghost use Rattle.mpx_num.specs.declared.own.Operation.{Operation};
ghost use Rattle.mpx_birth.specs.Births.{BirthView};
ghost use Rattle.mpx_post.specs.Rows.{RowView};
ghost use Rattle.mpx_value.specs.Children.{AreOfTheirColours, ChildView, IsChildWithin, children};
ghost use Rattle.mpx_value.specs.Histories.{GivesItsChildren};

/// The communicators that a call makes have different colours, in rising order, and each is the one of its colour.
pub fn children_are_told_apart()
    ensures rising { (ops : List Operation) (birth : BirthView) (row : RowView) (name : Name) (call : ℕ) → AllPairs (λ (x y : ChildView). x.colour < y.colour) (children ops birth row name call) }
    ensures told_apart { (ops : List Operation) (birth : BirthView) (row : RowView) (name : Name) (call : ℕ) → AreOfTheirColours ops birth row name call }
{}

/// The members of the communicators that a call makes are members of its communicator.
pub fn children_are_within()
    ensures { (ops : List Operation) (birth : BirthView) (row : RowView) (name : Name) (call : ℕ) → length row ≡ length birth.members → All (IsChildWithin birth) (children ops birth row name call) }
{}

/// A new communicator that a process gets is one that the call makes, with its size, and has the process at this rank.
pub fn new_communicators_are_children()
    ensures { (ops : List Operation) (birth : BirthView) (me : ℕ) (row : RowView) (name : Name) (call : ℕ) → GivesItsChildren ops birth me row name call }
{}
