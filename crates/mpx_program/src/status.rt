//! What the program says on the standard error, and its exit status.
ghost use Rattle.std.specs.Prelude.{◌≡◌, ◌++◌, [], OnOk, codes, false};
ghost use Rattle.std.specs.Io.KnownBytes.{Appends};
ghost use Rattle.clap.specs.Words.{kind_of};
ghost use Rattle.mpx_program.specs.Jobs.{Tells};
ghost use Rattle.mpx_program.specs.Status.{advice, cause_text, explanation, message, refusal_status, status, waiting_text, why};

use arrayvec::ArrayVec;
use clap::error::ErrorKind;
use mpx_run::{Cause, End, RunError, WriteFault, write_bytes};
use std::io;
use std::io::Write;

/// The exit status of a job, whose script has calls to complain of or not. No program's own gate gives up; where one does, nothing is
/// printed, as where memory is wanting.
pub fn status_of(answer: &Result<End, RunError>, complains: bool) -> u8
    ensures { result ≡ status complains answer.now }
{
    match answer {
        Ok(_) if complains => 6,
        Ok(End::Finished) => 0,
        Ok(End::Waiting(_, _)) => 3,
        Err(RunError::Script(_)) => 2,
        Err(RunError::TooManyProcesses) => 1,
        Err(RunError::Memory | RunError::GateGaveUp) => 4,
        Err(RunError::Read(_) | RunError::Write(_)) => 5,
    }
}

/// The exit status of a call whose words give no job: 1 for usage, help among it.
pub fn refusal_status(refusal: &clap::Error) -> u8
    ensures { result ≡ refusal_status (kind_of refusal.now) }
{
    match refusal.kind() {
        ErrorKind::OutOfMemory => 4,
        _ => 1,
    }
}

/// Room for what is said before what is explained: 64 ranks that wait take 200 bytes of it.
type Line = ArrayVec<u8, 512>;

/// Writes what the standard error is told of a job: nothing where it is finished. Where the writer fails a beginning of it is out.
pub fn write_message<W: Write>(
    answer: &Result<End, RunError>,
    writer: &mut W,
) -> Result<(), WriteFault>
    ensures { Tells (W.contents writer.old) (W.contents writer.new) result (message answer.now) }
{
    let mut line = Line::new();
    match push_message(answer, &mut line) {
        Ok(()) => write_bytes(writer, line.as_slice()),
        Err(e) => Err(WriteFault { kind: e.kind() }),
    }
}

/// Writes the message of a job, and that its script has calls to complain of; where more is asked for, why it ended, and more. Where the
/// writer fails a beginning of that is out.
pub(crate) fn write_said<W: Write>(
    answer: &Result<End, RunError>,
    complains: bool,
    explains: bool,
    more: &[u8],
    writer: &mut W,
) -> Result<(), WriteFault>
    ensures { Tells (W.contents writer.old) (W.contents writer.new) result (message answer.now ++ advice complains explains answer.now ++ explanation explains answer.now more.now) }
{
    let mut line = Line::new();
    match push_said(answer, complains, explains, &mut line) {
        Ok(()) => write_both(writer, line.as_slice(), if explains { more } else { &[] }),
        Err(e) => Err(WriteFault { kind: e.kind() }),
    }
}

// Writes both, one behind the other.
fn write_both<W: Write>(writer: &mut W, first: &[u8], second: &[u8]) -> Result<(), WriteFault>
    ensures { Tells (W.contents writer.old) (W.contents writer.new) result (first.now ++ second.now) }
{
    match write_bytes(writer, first) {
        Ok(()) => write_bytes(writer, second),
        Err(fault) => Err(fault),
    }
}

// Writes the message of a job.
fn push_message<W: Write>(answer: &Result<End, RunError>, writer: &mut W) -> io::Result<()>
    ensures { OnOk result (Appends (W.contents writer.old) (W.contents writer.new) (message answer.now)) }
{
    match answer {
        Ok(End::Finished) => Ok(()),
        Ok(End::Waiting(ranks, _)) => write_waiting(ranks, writer),
        Err(error) => writeln!(writer, "{error}"),
    }
}

// Writes all that is said but what is explained.
fn push_said<W: Write>(
    answer: &Result<End, RunError>,
    complains: bool,
    explains: bool,
    writer: &mut W,
) -> io::Result<()>
    ensures { OnOk result (Appends (W.contents writer.old) (W.contents writer.new) (message answer.now ++ advice complains explains answer.now ++ explanation explains answer.now [])) }
{
    push_message(answer, writer)?;
    if !explains {
        return write_advice(answer, complains, writer);
    }
    write_why(answer, writer)
}

// Writes how to hear of the calls to complain of, where there are some and the job has come to an end.
fn write_advice<W: Write>(
    answer: &Result<End, RunError>,
    complains: bool,
    writer: &mut W,
) -> io::Result<()>
    ensures { OnOk result (Appends (W.contents writer.old) (W.contents writer.new) (advice complains false answer.now)) }
{
    match answer {
        Ok(_) if complains => {
            writer.write_all(b"calls are refused or are faults: --explain names them\n")
        }
        _ => Ok(()),
    }
}

// Writes why ranks wait, where some do.
fn write_why<W: Write>(answer: &Result<End, RunError>, writer: &mut W) -> io::Result<()>
    ensures { OnOk result (Appends (W.contents writer.old) (W.contents writer.new) (why answer.now)) }
{
    match answer {
        Ok(End::Finished) => Ok(()),
        Ok(End::Waiting(_, cause)) => write_cause(*cause, writer),
        Err(_) => Ok(()),
    }
}

// Writes the line of a cause.
fn write_cause<W: Write>(cause: Cause, writer: &mut W) -> io::Result<()>
    ensures { OnOk result (Appends (W.contents writer.old) (W.contents writer.new) (cause_text cause)) }
{
    match cause {
        Cause::InEveryRun => {
            writer.write_all(b"deadlock: these ranks wait whatever the network does\n")
        }
        Cause::TurnsUsedUp(turns) => writeln!(writer, "turns used up: {turns}"),
        Cause::AllLost => writer.write_all(b"every frame was lost\n"),
        Cause::Unknown => writer.write_all(b"whether they wait in every run isn't known\n"),
    }
}

// Writes the line of the ranks that wait.
fn write_waiting<W: Write>(ranks: &[u8], writer: &mut W) -> io::Result<()>
    ensures { OnOk result (Appends (W.contents writer.old) (W.contents writer.new) (waiting_text ranks.now)) }
{
    writer.write_all(b"waiting:")?;
    for rank in ranks {
        write!(writer, " {rank}")?;
    }
    writer.write_all(b"\n")
}

/// Writes clap's text of a refusal, or `out of memory`. No clause says what clap's text is.
pub(crate) fn write_refusal<W: Write>(
    refusal: &clap::Error,
    writer: &mut W,
) -> Result<(), WriteFault>
    ensures { kind_of refusal.now ≡ ErrorKind.OutOfMemory → Tells (W.contents writer.old) (W.contents writer.new) result (codes "out of memory\n") }
{
    match refusal.kind() {
        ErrorKind::OutOfMemory => write_bytes(writer, b"out of memory\n"),
        _ => match write!(writer, "{refusal}") {
            Ok(()) => Ok(()),
            Err(e) => Err(WriteFault { kind: e.kind() }),
        },
    }
}
