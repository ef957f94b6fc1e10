//! What is printed of a job.
ghost use Rattle.std.specs.Prelude.{◌≡◌, Err, IfSome, Some, if◌then◌else◌, is_ok, slice_get};
ghost use Rattle.std.specs.List.{list_all};
ghost use Rattle.std.specs.Process.{exit_status};

use crate::running::GivesUp;
use std::fmt::Display;
use std::process::ExitCode;

/// The error of the rank with this number, where it gave up.
pub fn cause_of<A, E>(answers: &[Result<A, E>], rank: u8) -> Option<&E>
    ensures { IfSome result (λ e. slice_get answers.now rank ≡ Some (Err e.now)) }
{
    match answers.get(usize::from(rank)) {
        Some(Err(e)) => Some(e),
        _ => None,
    }
}

/// Prints what each rank answers, in rank order, and after it each error: first those that name no other rank, then the others, each with the
/// cause that the other rank gave. It fails where a rank gave up.
pub fn print_answers<A: Display, E: GivesUp, R: Print + Eprint>(
    rt: &R,
    answers: &[Result<A, E>],
) -> ExitCode
    ensures { exit_status result ≡ (if list_all is_ok answers.now then 0 else 1) }
{
    for (rank, answer) in answers.iter().enumerate() {
        if let Ok(text) = answer {
            let _printed = println!(rt; "rank {rank}: {text}");
        }
    }
    for (rank, answer) in answers.iter().enumerate() {
        if let Err(e) = answer {
            if e.quitter().is_none() {
                let _printed = eprintln!(rt; "rank {rank} gave up: {e}");
            }
        }
    }
    for (rank, answer) in answers.iter().enumerate() {
        if let Err(e) = answer {
            print_after(rt, rank, e, answers);
        }
    }
    status_of(answers)
}

// Success just where every rank answers.
fn status_of<A, E>(answers: &[Result<A, E>]) -> ExitCode
    ensures { exit_status result ≡ (if list_all is_ok answers.now then 0 else 1) }
{
    if all_answer(answers) {
        ExitCode::SUCCESS
    } else {
        ExitCode::FAILURE
    }
}

// Whether every rank answers.
fn all_answer<A, E>(answers: &[Result<A, E>]) -> bool
    ensures { result ≡ list_all is_ok answers.now }
{
    answers.iter().all(|answer| answer.is_ok())
}

// Prints the error of a rank that names another, with what that one gave.
fn print_after<A, E: GivesUp, R: Eprint>(rt: &R, rank: usize, e: &E, answers: &[Result<A, E>]) {
    let Some(other) = e.quitter() else {
        return;
    };
    let _printed = match cause_of(answers, other) {
        Some(cause) => eprintln!(rt; "rank {rank} gave up: {e}: {cause}"),
        None => eprintln!(rt; "rank {rank} gave up: {e}"),
    };
}
