//! What the words of a call ask for: a job, and what is asked for beside it.
use mpx_statement::Job;

/// What is asked for beside the job. None of these changes what is printed on the standard output.
#[derive(Clone, Copy, Debug, PartialEq, Eq)]
pub struct Flags {
    /// Whether the status is 6 where the script has a call that is refused or is a fault.
    pub strict: bool,
    /// Whether the standard error is told more: why a run ended, and what is wrong with the script.
    pub explain: bool,
    /// Whether each event of a simulated run is told on the standard error.
    pub trace: bool,
    /// Whether a table of a simulated run's turns stands on the standard error.
    pub table: bool,
}

/// What a call of the program asks for.
#[derive(Clone, Copy, Debug, PartialEq, Eq)]
pub struct Invocation {
    pub job: Job,
    pub flags: Flags,
}
