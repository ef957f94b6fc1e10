//! Why a rank gives up.
use hex::FromHexError;
use join_core::OutOfMemory;
use mpx_comm::{AskError, CallError, GivenError, Request, TurnError, WaitError};
use mpx_job::GivesUp;
use mpx_num::OpsError;
use mpx_post::PostError;
use mpx_ranks::RanksError;
use mpx_wire::{EncodeError, WireError};
use std::alloc::AllocError;
use std::io;
use thiserror::Error;

/// Why a rank gives up, or the program: each error of the library comes here by `?`.
#[derive(Debug, Drop, Error)]
pub enum Why {
    #[error("{0}")]
    Call(#[from] CallError),
    #[error("{0}")]
    Rank(#[from] mpx_program_rank::CallError),
    #[error("{0}")]
    Post(#[from] PostError),
    #[error("{0}")]
    Wait(#[from] WaitError<Request>),
    #[error("{0}")]
    WaitAny(#[from] WaitError<()>),
    #[error("{0}")]
    Turn(#[from] TurnError),
    #[error("{0}")]
    Ask(#[from] AskError),
    #[error("{0}")]
    Given(#[from] GivenError),
    #[error("{0}")]
    Ranks(#[from] RanksError),
    #[error("{0}")]
    Ops(#[from] OpsError),
    #[error("{0}")]
    Encode(#[from] EncodeError),
    #[error("{0}")]
    Wire(#[from] WireError),
    #[error("{0}")]
    Hex(#[from] FromHexError),
    #[error("{0}")]
    Memory(#[from] OutOfMemory),
    #[error("out of memory")]
    Alloc(#[from(alloc)] AllocError),
    #[error("a stream failed")]
    Stream(#[from] io::Error),
    /// A call gave something else than what is asked for, or nothing.
    #[error("no answer")]
    NoAnswer,
}

impl GivesUp for Why {
    fn quitter(&self) -> Option<u8> {
        match self {
            Why::Rank(e) => e.quitter(),
            Why::Call(CallError::GaveUp(_, rank))
            | Why::Wait(WaitError::GaveUp(_, rank))
            | Why::WaitAny(WaitError::GaveUp(_, rank)) => Some(*rank),
            _ => None,
        }
    }
}
