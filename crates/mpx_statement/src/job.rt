//! What a call of the program asks for: a [`Job`] is a [`Command`] and the [`Options`] of a run.

/// How a run is made: simulated, or in threads.
#[derive(Clone, Copy, Debug, PartialEq, Eq)]
pub struct Options {
    /// Whether each process has threads of its own; the seed and the loss then count for nothing.
    pub threads: bool,
    /// What all draws of a simulated run follow from.
    pub seed: u64,
    /// How many frames of a hundred a simulated run loses: 0 to 100.
    pub loss: u8,
    /// How many processes only carry frames: 0 to 63.
    pub relays: u8,
    /// How many turns are made at most: 1 to 10,000,000. In threads each process counts its own.
    pub turns: u32,
    /// In how many threads the processes of a simulated run work side by side: 1 to 64, or, where there are 32 processes or
    /// more, at most as many as there are processors. It changes nothing of what comes (tested). In threads each process has its own, and it counts for nothing.
    pub workers: Option<u8>,
}

/// What is asked for.
#[derive(Clone, Copy, Debug, PartialEq, Eq)]
pub enum Command {
    /// The script's ranks are run, over a simulated interconnect or in threads.
    Run,
    /// The script is evaluated, which no loss and no order change.
    Eval,
    /// The script is read alone.
    Check,
}

/// What is asked for, and how a run is made.
#[derive(Clone, Copy, Debug, PartialEq, Eq)]
pub struct Job {
    pub command: Command,
    /// What counts for [`Command::Run`] alone.
    pub options: Options,
}
