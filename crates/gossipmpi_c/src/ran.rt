//! A simulated run of a script in the caller's thread: what the program prints of it, and what it says.
ghost use Rattle.std.specs.Prelude.{◌≡◌, ◌++◌, ◌⊎◌, IfOk, List, [], ℕ, Ok, false, true};
ghost use Rattle.mpx_run.specs.Texts.{is_in_threads};
ghost use Rattle.mpx_words.specs.declared.invocation.Invocation.{Invocation};
ghost use Rattle.gossipmpi_c.specs.Answers.{own_operations};
ghost use Rattle.gossipmpi_c.specs.Runs.{AskFor, AskForNone, Declines, DoesCall, IsDeclined, MakesRun, RefusesOptions, RunsTo, RunsWhole, ShowsCall, is_unexplained};

use crate::options::words_of;
use join_core::OutOfMemory;
use mpx_affine::Affine;
use mpx_num::{Listing, Ops, OwnOp};
use mpx_program::{Exit, Streams, refuse, run_job};
use mpx_run::{InOneThread, Observer, Unobserved, is_in_threads};
use mpx_trace::{Table, Trace};
use mpx_words::{Invocation, call_of};
use std::alloc::Global;
use std::str;

/// What a run comes to.
#[derive(Drop)]
pub(crate) struct Ran {
    /// The program's exit status.
    pub(crate) status: u8,
    /// What it prints on the standard output.
    pub(crate) printed: Vec<u8>,
    /// What it says on the standard error.
    pub(crate) said: Vec<u8>,
}

// The status of a call that is none.
const USAGE: u8 = 1;

// The status of a program that has no more memory.
const MEMORY: u8 = 4;

// The status of a program that can't read or write.
const FAULT: u8 = 5;

/// What a run of the script with these options comes to: the program's own, in the caller's thread. Where memory is wanting for anything that is printed,
/// said or shown, there is none of it.
pub(crate) fn run_script(alloc: Global, options: &[u8], script: &[u8]) -> Ran
    ensures { RunsTo options.now script.now result.printed.items result.said.items result.status }
{
    match run_whole(alloc, options, script) {
        Ok(ran) => ran,
        Err(OutOfMemory) => Ran {
            status: MEMORY,
            printed: Vec::new(alloc),
            said: Vec::new(alloc),
        },
    }
}

// The same where memory suffices.
fn run_whole(alloc: Global, options: &[u8], script: &[u8]) -> Result<Ran, OutOfMemory>
    ensures { IfOk result (λ ran. RunsWhole options.now script.now ran.printed.items ran.said.items ran.status) }
{
    let Ok(options) = str::from_utf8(options) else {
        let ran = declined(alloc, b"the options are no text\n")?;
        return Ok(ran);
    };
    let words = words_of(alloc, options)?;
    match call_of(alloc, &words) {
        Ok(call) => {
            let ran = called(alloc, &call, script)?;
            Ok(ran)
        }
        Err(why) => {
            let ran = refused(alloc, &why)?;
            Ok(ran)
        }
    }
}

// Whether memory was wanting: for the job, or for what is written, which is memory here.
fn is_starved(exit: &Exit) -> bool
    ensures { result ≡ false → exit.now.told ≡ Ok tt }
{
    match exit.told {
        Ok(()) => exit.status == MEMORY || exit.status == FAULT,
        Err(_) => true,
    }
}

// Whether it is said that memory was wanting for what is explained.
fn is_unexplained(said: &[u8]) -> bool
    ensures { result ≡ is_unexplained said.now }
{
    said.ends_with(b"out of memory: no more is explained\n")
}

// The options are declined, for this reason.
fn declined(alloc: Global, why: &[u8]) -> Result<Ran, OutOfMemory>
    ensures { IfOk result (λ ran. IsDeclined why.now ran.printed.items ran.said.items ran.status) }
{
    let mut said = Vec::new(alloc);
    said.extend_from_slice(why)?;
    Ok(Ran {
        status: USAGE,
        printed: Vec::new(alloc),
        said,
    })
}

// The words ask for no call.
fn refused(alloc: Global, why: &clap::Error) -> Result<Ran, OutOfMemory>
    ensures { IfOk result (λ ran. (options script : List ℕ) → AskForNone options why.now → RefusesOptions options script ran.printed.items ran.said.items ran.status) }
{
    let mut said = Vec::new(alloc);
    let exit = refuse(why, &mut said);
    if is_starved(&exit) {
        return Err(OutOfMemory);
    }
    Ok(Ran {
        status: exit.status,
        printed: Vec::new(alloc),
        said,
    })
}

// What a call comes to.
fn called(alloc: Global, call: &Invocation, script: &[u8]) -> Result<Ran, OutOfMemory>
    ensures { IfOk result (λ ran. (options : List ℕ) → AskFor options call.now → MakesRun options script.now ran.printed.items ran.said.items ran.status ⊎ Declines options ran.printed.items ran.said.items ran.status) }
{
    if is_in_threads(&call.job) {
        let ran = declined(alloc, b"the library starts no threads\n")?;
        return Ok(ran);
    }
    let ran = by_own(alloc, call, script)?;
    Ok(ran)
}

// The run by the operations of the programs' own.
fn by_own(alloc: Global, call: &Invocation, script: &[u8]) -> Result<Ran, OutOfMemory>
    requires alone { is_in_threads call.now.job ≡ false }
    ensures { IfOk result (λ ran. ShowsCall call.now script.now ran.printed.items ran.said.items ran.status) }
{
    let mut list: Vec<Box<dyn OwnOp + Send + Sync + Drop>> = Vec::new(alloc);
    let Ok(affine) = Box::new(alloc, Affine::of_programs()) else {
        return Err(OutOfMemory);
    };
    if list.push(affine).is_err() {
        return Err(OutOfMemory);
    }
    let Ok(ops) = Ops::new(list) else {
        return Err(OutOfMemory);
    };
    shown(alloc, call, script, &ops)
}

// The same by these operations, behind what is shown of the run as it goes.
fn shown(alloc: Global, call: &Invocation, script: &[u8], ops: &Ops) -> Result<Ran, OutOfMemory>
    requires alone { is_in_threads call.now.job ≡ false }
    requires own { ⟦<Ops as Listing>⟧.operations ops.now ≡ own_operations }
    ensures { IfOk result (λ ran. ShowsCall call.now script.now ran.printed.items ran.said.items ran.status) }
{
    if call.flags.trace {
        let mut trace = Trace::new(alloc, Vec::new(alloc));
        let ran = traced(alloc, call, script, &mut trace, ops)?;
        let all = behind(trace.into_writer(), ran)?;
        return Ok(all);
    }
    if call.flags.table {
        let mut table = Table::new(alloc, Vec::new(alloc));
        let ran = tabled(alloc, call, script, &mut table, ops)?;
        let all = behind(table.into_writer(), ran)?;
        return Ok(all);
    }
    let ran = observed(alloc, call, script, &mut Unobserved, ops)?;
    Ok(ran)
}

// The run with its trace, for all of which memory sufficed.
fn traced(
    alloc: Global,
    call: &Invocation,
    script: &[u8],
    trace: &mut Trace<Vec<u8>>,
    ops: &Ops,
) -> Result<Ran, OutOfMemory>
    requires alone { is_in_threads call.now.job ≡ false }
    requires own { ⟦<Ops as Listing>⟧.operations ops.now ≡ own_operations }
    ensures does { IfOk result (λ ran. DoesCall call.now script.now ran.printed.items ran.said.items ran.status) }
    ensures whole { IfOk result (λ ran. trace.new.whole ≡ true) }
{
    let ran = observed(alloc, call, script, trace, ops)?;
    if !trace.is_whole() {
        return Err(OutOfMemory);
    }
    Ok(ran)
}

// The run with its table, for all of which memory sufficed.
fn tabled(
    alloc: Global,
    call: &Invocation,
    script: &[u8],
    table: &mut Table<Vec<u8>>,
    ops: &Ops,
) -> Result<Ran, OutOfMemory>
    requires alone { is_in_threads call.now.job ≡ false }
    requires own { ⟦<Ops as Listing>⟧.operations ops.now ≡ own_operations }
    ensures does { IfOk result (λ ran. DoesCall call.now script.now ran.printed.items ran.said.items ran.status) }
    ensures whole { IfOk result (λ ran. table.new.whole ≡ true) }
{
    let ran = observed(alloc, call, script, table, ops)?;
    if !table.is_whole() {
        return Err(OutOfMemory);
    }
    Ok(ran)
}

// What a run says stands behind what is shown of it.
fn behind(shown: Vec<u8>, ran: Ran) -> Result<Ran, OutOfMemory>
    ensures said { IfOk result (λ all. all.said.items ≡ shown.items ++ ran.said.items) }
    ensures printed { IfOk result (λ all. all.printed.items ≡ ran.printed.items) }
    ensures status { IfOk result (λ all. all.status ≡ ran.status) }
{
    let Ran {
        status,
        printed,
        said,
    } = ran;
    let mut all = shown;
    all.extend_from_slice(said.as_slice())?;
    Ok(Ran {
        status,
        printed,
        said: all,
    })
}

// The run, on which this one looks.
fn observed(
    alloc: Global,
    call: &Invocation,
    script: &[u8],
    observer: &mut dyn Observer,
    ops: &Ops,
) -> Result<Ran, OutOfMemory>
    requires alone { is_in_threads call.now.job ≡ false }
    requires own { ⟦<Ops as Listing>⟧.operations ops.now ≡ own_operations }
    ensures { IfOk result (λ ran. DoesCall call.now script.now ran.printed.items ran.said.items ran.status) }
{
    let printed = Vec::new(alloc);
    let said = Vec::new(alloc);
    let mut streams = Streams {
        reader: script,
        out: printed,
        err: said,
    };
    let exit = run_job(&InOneThread, alloc, call, &mut streams, observer, ops);
    if is_starved(&exit) {
        return Err(OutOfMemory);
    }
    if is_unexplained(streams.err.as_slice()) {
        return Err(OutOfMemory);
    }
    Ok(Ran {
        status: exit.status,
        printed: streams.out,
        said: streams.err,
    })
}
