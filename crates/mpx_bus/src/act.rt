//! What a process did, and what the queue knows of it. No value of these types is made: contracts alone see them.
use mpx_board::Board;
use mpx_name::Name;
use mpx_num::{Numbers, Operation};
use mpx_post::{Draft, Post};
use std::collections::LinkedList;

/// What a process did.
pub enum Act {
    /// It made its next post on a context.
    Posted {
        name: Name,
        draft: Draft,
    },
    /// It stored the result of its next call on a context.
    Harvested {
        name: Name,
    },
    /// It opened a gathering.
    Gathered {
        parent: Name,
        tag: i128,
        ranks: Numbers,
    },
    /// It dropped posts.
    Pruned {
        name: Name,
        number: u32,
    },
    /// It let the results of calls below this one go.
    Forgot {
        name: Name,
        below: u32,
    },
    /// It joined the part that these bytes spell, of a frame that it had popped.
    Took {
        bytes: LinkedList<u8>,
    },
    /// Memory was wanting where it joined the part that these bytes spell, of a frame that it had popped, and this is what was
    /// left of its board.
    StoppedTaking {
        bytes: LinkedList<u8>,
        left: Board,
    },
    /// It said what it has: as much as it says on this board.
    Acknowledged {
        board: Board,
    },
    /// It pushed a frame of these bytes.
    Pushed {
        bytes: LinkedList<u8>,
    },
    /// It popped a frame of these bytes.
    Popped {
        bytes: LinkedList<u8>,
    },
}

/// What all processes agree on from the start: how many they are, what the operations of the job's own mean, and the plan, where
/// there is one.
pub struct Setup {
    pub ranks: u8,
    pub size: u8,
    pub operations: LinkedList<Operation>,
    pub planned: bool,
    pub plan: LinkedList<LinkedList<(Name, Post)>>,
}

/// What is seen of one process: all that it had done at its last step on the queue.
pub struct Seen {
    pub me: u8,
    pub journal: LinkedList<Act>,
}

/// What a pass knows: of the one that makes the others, how many it has made; the processes for which it stands.
pub struct View {
    pub makes: bool,
    pub made: u64,
    pub named: bool,
    pub setup: Setup,
    pub seats: LinkedList<Seen>,
}
