//! Why a script is refused.
ghost use Rattle.std.specs.Prelude.{◌≡◌, Some};
ghost use Rattle.mpx_script.specs.Faults.{script_fault_name, error_text};
ghost use Rattle.mpx_script.specs.declared.faults.ReadScriptError.TheVariants.{OutOfMemory};
ghost use Rattle.mpx_script.specs.declared.faults.LineError.TheVariants.{OutOfMemory as NoMemory};

use join_core::OutOfMemory;
use std::alloc::{AllocError, AllocFailed};
use std::fmt;
use thiserror::Error;

/// Why a line of a script is refused. A line is asked in this order, and the first that holds is told.
#[derive(Clone, Copy, PartialEq, Eq, Debug)]
pub enum ScriptFault {
    /// A byte of the line isn't ASCII.
    NotAscii,
    /// The script passes 1,048,576 bytes or 65,536 statements in the line.
    TooLarge,
    /// The first line that counts isn't `ranks N`, or no line counts.
    NoRanksLine,
    /// The number of ranks isn't from 1 to 64.
    RanksOutOfRange,
    /// The line is for a rank that isn't there.
    RankOutOfRange,
    /// There is no such statement, operation or type, or the line isn't of the form `R: STATEMENT`.
    UnknownStatement,
    /// The statement has too few words, or too many, or another word where `->` stands.
    WrongWords,
    /// The word of a root, of a single count, of an item, of a key or of a tag is no number, or a colour's word is neither
    /// a number nor `undefined`.
    BadNumber,
    /// The word of a list is no list of numbers, of edges or of neighbours, or the weights of some entries are missing; of
    /// sources and destinations also where one list alone has weights.
    BadList,
    /// The communicator's word or that for the new one is no name.
    BadName,
    /// The communicator's name isn't bound at some rank that the line is for.
    NameUnknown,
    /// The name for the new communicator is bound at some rank that the line is for.
    NameTaken,
}

impl ScriptFault {
    fn name(self) -> &'static str
        ensures { result.now ≡ script_fault_name self }
    {
        match self {
            ScriptFault::NotAscii => "NotAscii",
            ScriptFault::TooLarge => "TooLarge",
            ScriptFault::NoRanksLine => "NoRanksLine",
            ScriptFault::RanksOutOfRange => "RanksOutOfRange",
            ScriptFault::RankOutOfRange => "RankOutOfRange",
            ScriptFault::UnknownStatement => "UnknownStatement",
            ScriptFault::WrongWords => "WrongWords",
            ScriptFault::BadNumber => "BadNumber",
            ScriptFault::BadList => "BadList",
            ScriptFault::BadName => "BadName",
            ScriptFault::NameUnknown => "NameUnknown",
            ScriptFault::NameTaken => "NameTaken",
        }
    }
}

impl fmt::Display for ScriptFault {
    ghost output = { λ fault. Some (script_fault_name fault) };

    fn fmt<W: fmt::Write>(&self, f: &mut fmt::Formatter<W>) -> fmt::Result {
        let name = self.name();
        write!(f, "{name}")
    }
}

/// The refusal of a script. It prints as `script line N: WHAT`.
#[derive(Clone, Copy, PartialEq, Eq, Debug, Error)]
pub struct ScriptError {
    /// The line, from 1 on.
    pub line: u32,
    pub what: ScriptFault,
}

impl fmt::Display for ScriptError {
    ghost output = { λ error. Some (error_text error) };

    fn fmt<W: fmt::Write>(&self, f: &mut fmt::Formatter<W>) -> fmt::Result {
        let line = self.line;
        let what = self.what;
        write!(f, "script line {line}: {what}")
    }
}

/// Why [`read_script`](crate::read_script) gives no script.
#[derive(Debug, Drop, Error)]
pub enum ReadScriptError {
    #[error("{0}")]
    Refused(ScriptError),
    #[error("out of memory")]
    OutOfMemory,
}

impl From<AllocError> for ReadScriptError {
    ghost from_gives = { λ _ e. e ≡ OutOfMemory };

    fn from(_e: AllocError) -> ReadScriptError {
        ReadScriptError::OutOfMemory
    }
}

impl<T: Drop> From<AllocFailed<T>> for ReadScriptError {
    ghost from_gives = { λ _ e. e ≡ OutOfMemory };

    fn from(_e: AllocFailed<T>) -> ReadScriptError {
        ReadScriptError::OutOfMemory
    }
}

impl From<OutOfMemory> for ReadScriptError {
    ghost from_gives = { λ _ e. e ≡ OutOfMemory };

    fn from(_e: OutOfMemory) -> ReadScriptError {
        ReadScriptError::OutOfMemory
    }
}

/// Why a line says nothing.
#[derive(Drop)]
pub enum LineError {
    Fault(ScriptFault),
    OutOfMemory,
}

impl From<AllocError> for LineError {
    ghost from_gives = { λ _ e. e ≡ NoMemory };

    fn from(_e: AllocError) -> LineError {
        LineError::OutOfMemory
    }
}

impl<T: Drop> From<AllocFailed<T>> for LineError {
    ghost from_gives = { λ _ e. e ≡ NoMemory };

    fn from(_e: AllocFailed<T>) -> LineError {
        LineError::OutOfMemory
    }
}

impl From<OutOfMemory> for LineError {
    ghost from_gives = { λ _ e. e ≡ NoMemory };

    fn from(_e: OutOfMemory) -> LineError {
        LineError::OutOfMemory
    }
}
