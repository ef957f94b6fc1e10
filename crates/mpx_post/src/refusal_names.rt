//! The names of refusals, which one tells of memory, and which of a process that is no member.
ghost use Rattle.std.specs.Prelude.{◌≡◌, ◌↔◌, IsTrue, Some};
ghost use Rattle.mpx_post.specs.RefusalNames.{refusal_name};

use crate::draft::PostError;
use std::fmt;

impl PostError {
    /// The name of the reason, as `NotMember`.
    pub fn name(self) -> &'static str
        ensures { result.now ≡ refusal_name self }
    {
        match self {
            PostError::NotMember => "NotMember",
            PostError::Closed => "Closed",
            PostError::RootOutOfRange => "RootOutOfRange",
            PostError::OpNotForType => "OpNotForType",
            PostError::CountsLength => "CountsLength",
            PostError::ItemsLength => "ItemsLength",
            PostError::ItemOutOfRange => "ItemOutOfRange",
            PostError::TooManyItems => "TooManyItems",
            PostError::NoTopology => "NoTopology",
            PostError::CallsUsedUp => "CallsUsedUp",
            PostError::DepthUsedUp => "DepthUsedUp",
            PostError::BadGroup => "BadGroup",
            PostError::BadEdge => "BadEdge",
            PostError::TooManyEdges => "TooManyEdges",
            PostError::BadTag => "BadTag",
            PostError::OutOfMemory => "OutOfMemory",
        }
    }

    /// Whether memory was wanting: of the reasons the one that says nothing of the call.
    pub fn is_want_of_memory(self) -> bool
        ensures { IsTrue result ↔ (self ≡ PostError.OutOfMemory) }
    {
        self == PostError::OutOfMemory
    }

    /// Whether the process isn't a member, as far as its board knows.
    pub fn is_no_member(self) -> bool
        ensures { IsTrue result ↔ (self ≡ PostError.NotMember) }
    {
        self == PostError::NotMember
    }
}

// It prints as its name.
impl fmt::Display for PostError {
    ghost output = { λ refusal. Some (refusal_name refusal) };

    fn fmt<W: fmt::Write>(&self, f: &mut fmt::Formatter<W>) -> fmt::Result {
        let name = self.name();
        write!(f, "{name}")
    }
}
