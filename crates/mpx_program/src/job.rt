//! What the program does with what a call asks for, over any streams.
ghost use Rattle.std.specs.Prelude.{◌≡◌, IfErr, IfOk, Ok, false, string_bytes, true};
ghost use Rattle.clap.specs.Words.{kind_of};
ghost use Rattle.mpx_script.specs.Reading.{reading};
ghost use Rattle.mpx_run.specs.Founded.{IsFounded};
ghost use Rattle.mpx_run.specs.Left.{Leaves};
ghost use Rattle.mpx_run.specs.Texts.{ComesTo, IsRefusedFor, is_in_threads};
ghost use Rattle.mpx_program.specs.Explained.{IsFound};
ghost use Rattle.mpx_program.specs.Jobs.{AnswersText, AsFounded, AsPrinted, DoesJobWith, Exits, IsRefused, Tells};
ghost use Rattle.mpx_program.specs.Strict.{IsStrict};

use crate::explaining::{explained, more_of};
use crate::prepared::{Prepared, prepare};
use crate::status::{refusal_status, status_of, write_refusal, write_said};
use mpx_num::{Listing, Ops};
use mpx_run::{
    End, Observer, OpenGate, Printed, RunError, Workers, WriteFault, print_job,
    print_job_in_threads, write_printed,
};
use mpx_words::Invocation;
use std::alloc::Global;
use std::io::{Read, Write};
use std::sync::Wait;
use std::thread::Threads;

/// How the program exits.
#[derive(Drop)]
pub struct Exit {
    pub status: u8,
    /// Whether the message is out on the standard error; where that failed, a beginning of it is.
    pub told: Result<(), WriteFault>,
}

/// What a job reads its script from, what it prints on, and what it says on.
#[derive(Drop)]
pub struct Streams<R: Read, W: Write, E: Write> {
    pub reader: R,
    pub out: W,
    pub err: E,
}

/// Does what a call asks for: reads the script from the reader, once, writes what it comes to to `out`, and tells `err` what is to be said. Where
/// it asks for a run, these workers make it, and `observer` looks on: it is the caller who shows a run as it goes. It waits for nobody, so it is
/// proved to return.
///
/// Who asks what is printed, and with which status, reads `prints` alone. On which nodes a run stands, and how many turns were
/// made by the seed and the loss, says `founded`.
pub fn run_job<K: Workers, R: Read, W: Write, E: Write>(
    workers: &K,
    alloc: Global,
    call: &Invocation,
    streams: &mut Streams<R, W, E>,
    observer: &mut dyn Observer,
    ops: &Ops,
) -> Exit
    requires may { K.may_work workers.now }
    requires alone { is_in_threads call.now.job ≡ false }
    ensures prints { DoesJobWith AsPrinted (⟦<Ops as Listing>⟧.operations ops.now) call.now (R.remaining streams.old.reader) (R.remaining streams.new.reader) (W.contents streams.old.out) (W.contents streams.new.out) result.status (Tells (E.contents streams.old.err) (E.contents streams.new.err) result.told) }
    ensures founded { DoesJobWith AsFounded (⟦<Ops as Listing>⟧.operations ops.now) call.now (R.remaining streams.old.reader) (R.remaining streams.new.reader) (W.contents streams.old.out) (W.contents streams.new.out) result.status (Tells (E.contents streams.old.err) (E.contents streams.new.err) result.told) }
{
    match prepare(alloc, call, &mut streams.reader, ops) {
        Ok(prepared) => {
            observer.begins(&prepared.text);
            let printed = print_job(workers, alloc, &call.job, &prepared.script, observer, ops);
            answer(alloc, call, &prepared, printed, streams, ops)
        }
        Err(failed) => exit_of(
            &Err(failed.error),
            false,
            call.flags.explain,
            more_of(&failed.more),
            &mut streams.err,
        ),
    }
}

/// The same of a call that asks for a run in threads, which may wait for them. On which ports it stands says `founded`.
pub fn run_job_in_threads<T: Threads + Wait + Sync, R: Read, W: Write, E: Write>(
    rt: &T,
    alloc: Global,
    call: &Invocation,
    streams: &mut Streams<R, W, E>,
    observer: &mut dyn Observer,
    ops: &Ops,
) -> Exit
    requires threads { is_in_threads call.now.job ≡ true }
    ensures prints { DoesJobWith AsPrinted (⟦<Ops as Listing>⟧.operations ops.now) call.now (R.remaining streams.old.reader) (R.remaining streams.new.reader) (W.contents streams.old.out) (W.contents streams.new.out) result.status (Tells (E.contents streams.old.err) (E.contents streams.new.err) result.told) }
    ensures founded { DoesJobWith AsFounded (⟦<Ops as Listing>⟧.operations ops.now) call.now (R.remaining streams.old.reader) (R.remaining streams.new.reader) (W.contents streams.old.out) (W.contents streams.new.out) result.status (Tells (E.contents streams.old.err) (E.contents streams.new.err) result.told) }
{
    match prepare(alloc, call, &mut streams.reader, ops) {
        Ok(prepared) => {
            let (job, script) = (&call.job, &prepared.script);
            let printed = print_job_in_threads(rt, alloc, job, script, observer, &OpenGate, ops);
            answer(alloc, call, &prepared, printed, streams, ops)
        }
        Err(failed) => exit_of(
            &Err(failed.error),
            false,
            call.flags.explain,
            more_of(&failed.more),
            &mut streams.err,
        ),
    }
}

/// Tells why the words ask for no job.
pub fn refuse<E: Write>(refusal: &clap::Error, err: &mut E) -> Exit
    ensures { IsRefused (kind_of refusal.now) result.status (Tells (E.contents err.old) (E.contents err.new) result.told) }
{
    Exit {
        status: refusal_status(refusal),
        told: write_refusal(refusal, err),
    }
}

// Writes what a job came to with a script, and tells what is to be said.
fn answer<R: Read, W: Write, E: Write>(
    alloc: Global,
    call: &Invocation,
    prepared: &Prepared,
    printed: Result<Printed, RunError>,
    streams: &mut Streams<R, W, E>,
    ops: &Ops,
) -> Exit
    requires read { reading (⟦<Ops as Listing>⟧.operations ops.now) prepared.now.text.items ≡ Ok prepared.now.script }
    requires strict { IsStrict (⟦<Ops as Listing>⟧.operations ops.now) call.now prepared.now.text.items prepared.now.complains }
    requires found { call.now.flags.explain ≡ true → IsFound (⟦<Ops as Listing>⟧.operations ops.now) call.now.job.command prepared.now.script prepared.now.found }
    requires comes { IfOk printed (λ p. ComesTo IsFounded (⟦<Ops as Listing>⟧.operations ops.now) call.now.job.command call.now.job.options prepared.now.script p.end (string_bytes p.text)) }
    requires left { IfOk printed (λ p. Leaves (⟦<Ops as Listing>⟧.operations ops.now) call.now.job.command call.now.job.options prepared.now.script p.end (string_bytes p.text) p.left) }
    requires refused { IfErr printed (λ e. IsRefusedFor call.now.job prepared.now.script e) }
    ensures unread { R.remaining streams.new.reader ≡ R.remaining streams.old.reader }
    ensures answers { AnswersText AsFounded (⟦<Ops as Listing>⟧.operations ops.now) call.now prepared.now.text.items (W.contents streams.old.out) (W.contents streams.new.out) result.status (Tells (E.contents streams.old.err) (E.contents streams.new.err) result.told) }
{
    match printed {
        Ok(printed) => {
            let Printed { text, end, left } = printed;
            let answer = write_printed(text.as_bytes(), end, &mut streams.out);
            let told = explained(alloc, call, prepared, &answer, &left);
            left.let_go();
            let explains = call.flags.explain;
            exit_of(
                &answer,
                prepared.complains,
                explains,
                more_of(&told),
                &mut streams.err,
            )
        }
        Err(error) => {
            let answer = Err(error);
            let err = &mut streams.err;
            exit_of(&answer, prepared.complains, call.flags.explain, &[], err)
        }
    }
}

// The exit of a job with this answer.
fn exit_of<E: Write>(
    answer: &Result<End, RunError>,
    complains: bool,
    explains: bool,
    more: &[u8],
    err: &mut E,
) -> Exit
    ensures { Exits answer.now complains explains more.now result.status (Tells (E.contents err.old) (E.contents err.new) result.told) }
{
    Exit {
        status: status_of(answer, complains),
        told: write_said(answer, complains, explains, more, err),
    }
}
