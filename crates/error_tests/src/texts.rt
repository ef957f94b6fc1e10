//! Errors that are plain values.
use crate::shown::shows;
use join_core::OutOfMemory;
use mpx_at_once::AtOnceError;
use mpx_board::{AddPostError, KillError, PruneError};
use mpx_comm::{AskError, GivenError};
use mpx_encode::EncodeError;
use mpx_format::WireError;
use mpx_group::GroupError;
use mpx_match::{Fault, FaultKind};
use mpx_name::NameError;
use mpx_node::PartError;
use mpx_num::{IntegersError, ItemsError, OpsError};
use mpx_post::PostError;
use mpx_ranks::RanksError;
use mpx_request::TurnError;
use mpx_run::RunError;
use mpx_script::{ReadScriptError, ScriptError, ScriptFault};
use mpx_threads::ThreadsError;
use mpx_world::Stopped;
use std::io::ErrorKind;
use std::test::Fail;

const POSTS: [(PostError, &str); 16] = [
    (PostError::NotMember, "NotMember"),
    (PostError::Closed, "Closed"),
    (PostError::RootOutOfRange, "RootOutOfRange"),
    (PostError::OpNotForType, "OpNotForType"),
    (PostError::CountsLength, "CountsLength"),
    (PostError::ItemsLength, "ItemsLength"),
    (PostError::ItemOutOfRange, "ItemOutOfRange"),
    (PostError::TooManyItems, "TooManyItems"),
    (PostError::NoTopology, "NoTopology"),
    (PostError::CallsUsedUp, "CallsUsedUp"),
    (PostError::DepthUsedUp, "DepthUsedUp"),
    (PostError::BadGroup, "BadGroup"),
    (PostError::BadEdge, "BadEdge"),
    (PostError::TooManyEdges, "TooManyEdges"),
    (PostError::BadTag, "BadTag"),
    (PostError::OutOfMemory, "OutOfMemory"),
];

const FAULTS: [(FaultKind, &str); 9] = [
    (FaultKind::Kind, "another kind of call"),
    (
        FaultKind::Mode,
        "a call that blocks beside one that doesn't",
    ),
    (FaultKind::Root, "another root"),
    (FaultKind::Op, "another operation"),
    (FaultKind::ItemType, "another type of items"),
    (FaultKind::Amount, "another number of items"),
    (
        FaultKind::Weights,
        "edges with weights beside edges without",
    ),
    (FaultKind::Edges, "an edge that its other end doesn't tell"),
    (FaultKind::Groups, "another group"),
];

const SCRIPTS: [(ScriptFault, &str); 12] = [
    (ScriptFault::NotAscii, "NotAscii"),
    (ScriptFault::TooLarge, "TooLarge"),
    (ScriptFault::NoRanksLine, "NoRanksLine"),
    (ScriptFault::RanksOutOfRange, "RanksOutOfRange"),
    (ScriptFault::RankOutOfRange, "RankOutOfRange"),
    (ScriptFault::UnknownStatement, "UnknownStatement"),
    (ScriptFault::WrongWords, "WrongWords"),
    (ScriptFault::BadNumber, "BadNumber"),
    (ScriptFault::BadList, "BadList"),
    (ScriptFault::BadName, "BadName"),
    (ScriptFault::NameUnknown, "NameUnknown"),
    (ScriptFault::NameTaken, "NameTaken"),
];

const FRAMES: [(WireError, &str); 7] = [
    (WireError::TooLong, "TooLong"),
    (WireError::BadMagic, "BadMagic"),
    (WireError::BadVersion, "BadVersion"),
    (WireError::ShortFrame, "ShortFrame"),
    (WireError::OutOfLimits(25), "OutOfLimits(25)"),
    (WireError::NotCanonical(36), "NotCanonical(36)"),
    (WireError::OutOfMemory, "OutOfMemory"),
];

const GROUPS: [(GroupError, &str); 4] = [
    (GroupError::BadTriplet, "bad triplet"),
    (GroupError::RankOutOfRange, "rank out of range"),
    (GroupError::RankTwice, "rank listed twice"),
    (GroupError::OutOfMemory, "out of memory"),
];

const NUMBERS: [(ItemsError, &str); 3] = [
    (
        ItemsError::ItemsLength,
        "an odd number of numbers for pairs",
    ),
    (
        ItemsError::ItemOutOfRange,
        "a number is out of the range of its type",
    ),
    (ItemsError::TooManyItems, "more than 4096 items"),
];

#[test]
fn posts_and_faults(rt: HostRuntime) -> Result<(), Fail> {
    for (error, text) in POSTS {
        shows(rt.alloc(), &error, text)?;
    }
    for (kind, text) in FAULTS {
        shows(rt.alloc(), &kind, text)?;
    }
    let fault = Fault {
        what: FaultKind::Root,
        rank: 63,
    };
    shows(rt.alloc(), &fault, "another root at rank 63")?;
    shows(
        rt.alloc(),
        &GivenError::Fault(fault),
        "another root at rank 63",
    )
}

#[test]
fn scripts_and_runs(rt: HostRuntime) -> Result<(), Fail> {
    for (fault, text) in SCRIPTS {
        shows(rt.alloc(), &fault, text)?;
    }
    let refused = ScriptError {
        line: 65_537,
        what: ScriptFault::TooLarge,
    };
    shows(rt.alloc(), &refused, "script line 65537: TooLarge")?;
    shows(
        rt.alloc(),
        &ReadScriptError::Refused(refused),
        "script line 65537: TooLarge",
    )?;
    shows(rt.alloc(), &ReadScriptError::OutOfMemory, "out of memory")?;
    shows(
        rt.alloc(),
        &RunError::Script(refused),
        "script line 65537: TooLarge",
    )?;
    shows(
        rt.alloc(),
        &RunError::TooManyProcesses,
        "too many processes",
    )?;
    shows(rt.alloc(), &RunError::Memory, "out of memory")?;
    shows(
        rt.alloc(),
        &RunError::Read(ErrorKind::UnexpectedEof),
        "read fault",
    )?;
    shows(
        rt.alloc(),
        &RunError::Write(ErrorKind::BrokenPipe),
        "write fault",
    )?;
    shows(rt.alloc(), &RunError::GateGaveUp, "gate gave up")?;
    shows(rt.alloc(), &ThreadsError::OutOfMemory, "out of memory")?;
    shows(rt.alloc(), &ThreadsError::GateGaveUp, "gate gave up")
}

#[test]
fn numbers_groups_and_names(rt: HostRuntime) -> Result<(), Fail> {
    for (error, text) in NUMBERS {
        shows(rt.alloc(), &error, text)?;
    }
    for (error, text) in GROUPS {
        shows(rt.alloc(), &error, text)?;
    }
    shows(
        rt.alloc(),
        &IntegersError::OutOfRange,
        "a number is out of the range of the integers",
    )?;
    shows(rt.alloc(), &IntegersError::OutOfMemory, "out of memory")?;
    shows(rt.alloc(), &OpsError::TooManyOps, "more than 16 operations")?;
    shows(
        rt.alloc(),
        &OpsError::BadWord,
        "a word that is no name, is an operation's or comes twice",
    )?;
    shows(rt.alloc(), &NameError::DepthUsedUp, "depth used up")?;
    shows(rt.alloc(), &NameError::OutOfMemory, "out of memory")?;
    shows(rt.alloc(), &OutOfMemory, "out of memory")
}

#[test]
fn boards_and_frames(rt: HostRuntime) -> Result<(), Fail> {
    for (error, text) in FRAMES {
        shows(rt.alloc(), &error, text)?;
    }
    shows(rt.alloc(), &EncodeError::TooLong, "TooLong")?;
    shows(rt.alloc(), &EncodeError::OutOfMemory, "OutOfMemory")?;
    shows(rt.alloc(), &PartError::DoesNotFit, "DoesNotFit")?;
    shows(rt.alloc(), &PartError::OutOfMemory, "OutOfMemory")?;
    shows(rt.alloc(), &AddPostError::AlreadyPosted, "AlreadyPosted")?;
    shows(rt.alloc(), &AddPostError::OutOfMemory, "OutOfMemory")?;
    shows(rt.alloc(), &PruneError::NoBirth, "NoBirth")?;
    shows(rt.alloc(), &PruneError::AboveFloor(1), "AboveFloor(1)")?;
    shows(rt.alloc(), &KillError::NoBirth, "NoBirth")?;
    shows(rt.alloc(), &Stopped { at: 7 }, "out of memory at event 7")
}

#[test]
fn jobs_of_ranks(rt: HostRuntime) -> Result<(), Fail> {
    shows(
        rt.alloc(),
        &RanksError::BadCount,
        "a job has 1 to 64 ranks, and at most 64 ranks and relays",
    )?;
    shows(rt.alloc(), &RanksError::OutOfMemory, "out of memory")?;
    shows(
        rt.alloc(),
        &RanksError::NoThread,
        "the system refused a thread",
    )?;
    shows(rt.alloc(), &AtOnceError::OutOfMemory, "out of memory")?;
    shows(
        rt.alloc(),
        &AtOnceError::NoThread,
        "the system refused a thread",
    )?;
    shows(rt.alloc(), &TurnError::OutOfMemory, "out of memory")?;
    shows(rt.alloc(), &TurnError::GaveUp(63), "rank 63 gave up")?;
    shows(rt.alloc(), &AskError::NotKnown, "communicator not known")?;
    shows(rt.alloc(), &AskError::NoTopology, "no topology")?;
    shows(rt.alloc(), &AskError::OutOfMemory, "out of memory")?;
    shows(
        rt.alloc(),
        &GivenError::OutOfRange,
        "a number is out of the range of the integers",
    )?;
    shows(rt.alloc(), &GivenError::OutOfMemory, "out of memory")
}
