//! What is done with what a call asks for.
ghost use Rattle.std.specs.Prelude.{◌≡◌, false, true};
ghost use Rattle.mpx_run.specs.Texts.{is_in_threads};
ghost use Rattle.mpx_program.specs.Jobs.{AsFounded, AsPrinted, IsRefused, Tells};
ghost use Rattle.mpx_program.specs.Answers.{AnswersCall, own_operations};

use crate::job::{Exit, Streams, refuse, run_job, run_job_in_threads};
use clap::error::ErrorKind;
use mpx_affine::Affine;
use mpx_num::{Listing, Ops, OwnOp};
use mpx_sim::{InThreads, Observer};
use mpx_words::Invocation;
use std::alloc::{AllocError, Global};
use std::io::{Read, Write};
use std::sync::Wait;
use std::thread::Threads;

// The operations of the programs' own; no function may hand out boxed objects. One of such a word is never refused: no clause says so.
macro_rules! own_operations {
    ($alloc:expr, $streams:expr) => {{
        let mut list: Vec<Box<dyn OwnOp + Send + Sync + Drop>> = Vec::new($alloc);
        let Ok(affine) = Box::new($alloc, Affine::of_programs()) else {
            return starved(&mut $streams.err);
        };
        if list.push(affine).is_err() {
            return starved(&mut $streams.err);
        }
        let Ok(ops) = Ops::new(list) else {
            return starved(&mut $streams.err);
        };
        ops
    }};
}

// Does what a call asks for, as [`run_job`] does, where scripts may name one operation of a job's own: the composition of
// affine maps, by the word `affine`. Without memory for that operation nothing is read or written, and `err` is told so. It waits for nobody, so it
// is proved to return.
//
// Who asks what is printed, and with which status, reads `prints` alone. That a run is by the seed, the loss, the relays and the turns of the words
// says `founded`.
pub(crate) fn answer<T: Threads + Sync, R: Read, W: Write, E: Write>(
    rt: &T,
    alloc: Global,
    call: &Invocation,
    streams: &mut Streams<R, W, E>,
    observer: &mut dyn Observer,
) -> Exit
    requires alone { is_in_threads call.now.job ≡ false }
    ensures prints { AnswersCall AsPrinted call.now (R.remaining streams.old.reader) (R.remaining streams.new.reader) (W.contents streams.old.out) (W.contents streams.new.out) result.status (Tells (E.contents streams.old.err) (E.contents streams.new.err) result.told) }
    ensures founded { AnswersCall AsFounded call.now (R.remaining streams.old.reader) (R.remaining streams.new.reader) (W.contents streams.old.out) (W.contents streams.new.out) result.status (Tells (E.contents streams.old.err) (E.contents streams.new.err) result.told) }
{
    let ops = own_operations!(alloc, streams);
    do_job(rt, alloc, call, streams, observer, &ops)
}

// Does the call's job by the programs' own operations.
fn do_job<T: Threads + Sync, R: Read, W: Write, E: Write>(
    rt: &T,
    alloc: Global,
    call: &Invocation,
    streams: &mut Streams<R, W, E>,
    observer: &mut dyn Observer,
    ops: &Ops,
) -> Exit
    requires alone { is_in_threads call.now.job ≡ false }
    requires own { ⟦<Ops as Listing>⟧.operations ops.now ≡ own_operations }
    ensures prints { AnswersCall AsPrinted call.now (R.remaining streams.old.reader) (R.remaining streams.new.reader) (W.contents streams.old.out) (W.contents streams.new.out) result.status (Tells (E.contents streams.old.err) (E.contents streams.new.err) result.told) }
    ensures founded { AnswersCall AsFounded call.now (R.remaining streams.old.reader) (R.remaining streams.new.reader) (W.contents streams.old.out) (W.contents streams.new.out) result.status (Tells (E.contents streams.old.err) (E.contents streams.new.err) result.told) }
{
    let workers = InThreads { rt };
    run_job(&workers, alloc, call, streams, observer, ops)
}

// The same of a call that asks for a run in threads, which may wait for them.
pub(crate) fn answer_in_threads<T: Threads + Wait + Sync, R: Read, W: Write, E: Write>(
    rt: &T,
    alloc: Global,
    call: &Invocation,
    streams: &mut Streams<R, W, E>,
    observer: &mut dyn Observer,
) -> Exit
    requires threads { is_in_threads call.now.job ≡ true }
    ensures prints { AnswersCall AsPrinted call.now (R.remaining streams.old.reader) (R.remaining streams.new.reader) (W.contents streams.old.out) (W.contents streams.new.out) result.status (Tells (E.contents streams.old.err) (E.contents streams.new.err) result.told) }
    ensures founded { AnswersCall AsFounded call.now (R.remaining streams.old.reader) (R.remaining streams.new.reader) (W.contents streams.old.out) (W.contents streams.new.out) result.status (Tells (E.contents streams.old.err) (E.contents streams.new.err) result.told) }
{
    let ops = own_operations!(alloc, streams);
    do_job_in_threads(rt, alloc, call, streams, observer, &ops)
}

// Does the job of a call that asks for a run in threads.
fn do_job_in_threads<T: Threads + Wait + Sync, R: Read, W: Write, E: Write>(
    rt: &T,
    alloc: Global,
    call: &Invocation,
    streams: &mut Streams<R, W, E>,
    observer: &mut dyn Observer,
    ops: &Ops,
) -> Exit
    requires threads { is_in_threads call.now.job ≡ true }
    requires own { ⟦<Ops as Listing>⟧.operations ops.now ≡ own_operations }
    ensures prints { AnswersCall AsPrinted call.now (R.remaining streams.old.reader) (R.remaining streams.new.reader) (W.contents streams.old.out) (W.contents streams.new.out) result.status (Tells (E.contents streams.old.err) (E.contents streams.new.err) result.told) }
    ensures founded { AnswersCall AsFounded call.now (R.remaining streams.old.reader) (R.remaining streams.new.reader) (W.contents streams.old.out) (W.contents streams.new.out) result.status (Tells (E.contents streams.old.err) (E.contents streams.new.err) result.told) }
{
    run_job_in_threads(rt, alloc, call, streams, observer, ops)
}

// There is no more memory.
fn starved<E: Write>(err: &mut E) -> Exit
    ensures { IsRefused ErrorKind.OutOfMemory result.status (Tells (E.contents err.old) (E.contents err.new) result.told) }
{
    refuse(&clap::Error::from(AllocError), err)
}
