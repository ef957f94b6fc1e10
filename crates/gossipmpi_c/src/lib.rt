//! gossipmpi for programs in C: what a script comes to, as text in the caller's room.
//!
//! Each export reads the bytes of a script and answers a status, which `library/include/gossipmpi.h` names. `needed` is the length of the text. The text is
//! at the beginning of `out` where it fits there. Else `out` is unchanged, and the caller asks again with more room. No call starts a thread, and none keeps
//! anything for the next. Scripts may name the operation `affine`, as those of the program may.
//!
//! What an answer is says `specs/Answers.antt`: of [`gossipmpi_eval`] by `IsEvaluatedTo`, of [`gossipmpi_check`] by `IsCheckedTo`, of [`gossipmpi_explain`] by
//! `IsExplainedTo`; of [`gossipmpi_run`] says `specs/Runs.antt`.
#![tactic(auto)]

ghost use Rattle.gossipmpi_c.specs.Answers.{Answers, IsCheckedTo, IsEvaluatedTo, IsExplainedTo, IsWritten, own_operations};

mod answer;
mod evaluated;
mod explained;
mod options;
mod ran;
mod runs;
mod texts;

use answer::{Asked, answered};
pub use runs::{gossipmpi_run, gossipmpi_run_says};
use std::alloc::Global;

/// The lines of all ranks at the end of the script's evaluation, each as `RANK: LINE`. Of a refused script the text is the refusal. In C:
/// `uint8_t gossipmpi_eval(const uint8_t *script, size_t length, uint8_t *out, size_t room, size_t *needed)`.
#[unsafe(no_mangle)]
pub extern "C" fn gossipmpi_eval(
    alloc: Global,
    script: &[u8],
    out: &mut [u8],
    needed: &mut usize,
) -> u8
    ensures { Answers (IsEvaluatedTo own_operations script.now) out.old out.new needed.new result }
{
    let answer = answered(alloc, script, Asked::Evaluation);
    write_text(answer.text.as_slice(), out, needed);
    answer.end.status()
}

/// Reads the script, and no more: no text, or the refusal. In C:
/// `uint8_t gossipmpi_check(const uint8_t *script, size_t length, uint8_t *out, size_t room, size_t *needed)`.
#[unsafe(no_mangle)]
pub extern "C" fn gossipmpi_check(
    alloc: Global,
    script: &[u8],
    out: &mut [u8],
    needed: &mut usize,
) -> u8
    ensures { Answers (IsCheckedTo own_operations script.now) out.old out.new needed.new result }
{
    let answer = answered(alloc, script, Asked::Reading);
    write_text(answer.text.as_slice(), out, needed);
    answer.end.status()
}

/// What `gossipmpi eval --explain` says of the script: who waits at the end of its evaluation, which calls are refused or are faults, and which results are
/// past their types; of a refused script each refused line. In C:
/// `uint8_t gossipmpi_explain(const uint8_t *script, size_t length, uint8_t *out, size_t room, size_t *needed)`.
#[unsafe(no_mangle)]
pub extern "C" fn gossipmpi_explain(
    alloc: Global,
    script: &[u8],
    out: &mut [u8],
    needed: &mut usize,
) -> u8
    ensures { Answers (IsExplainedTo own_operations script.now) out.old out.new needed.new result }
{
    let answer = answered(alloc, script, Asked::Explanation);
    write_text(answer.text.as_slice(), out, needed);
    answer.end.status()
}

// Gives the text's length, and writes the text where it fits.
fn write_text(text: &[u8], out: &mut [u8], needed: &mut usize)
    ensures { IsWritten text.now out.old out.new needed.new }
{
    *needed = text.len();
    if text.len() <= out.len() {
        let (front, _rest) = out.split_at_mut(text.len());
        front.copy_from_slice(text);
    }
}
