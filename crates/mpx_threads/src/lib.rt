//! Running a script in threads of one program: each rank goes on in a thread of its own, beside the gossip of its process, over one
//! queue of frames that all processes share. What each rank writes begins what it writes in the script's evaluation.
//!
//! In the order of reading: [`run_threads`], which answers a [`ThreadRun`]; its processes (`processes.rt`, `worker.rt`),
//! each a rank beside its gossip (`gossip.rt`), or a relay; the rank's part (`carry.rt`), whose posts a `ThreadDesk` carries (`desk.rt`,
//! `attempt.rt`); whether no rank can go on at the end (`rest.rt`); the [`Gate`], which may hold a process back or end the run; and the
//! [`Onlooker`], who is told how far it is.
#![tactic(auto)]

mod attempt;
mod calm;
mod carry;
mod desk;
mod gate;
mod gossip;
mod looks;
mod onlooker;
mod processes;
mod rest;
mod run;
mod told;
mod watch;
mod worker;

pub use gate::{BusStep, Gate, OpenGate, Pass};
pub use onlooker::{NobodyLooks, Onlooker, SoFar};
pub use run::{ThreadRun, ThreadsError, run_threads};
