//! What a program's `main` calls: what the words of its process ask for, who looks on, and what it exits with.
ghost use Rattle.std.specs.Prelude.{◌≡◌, ◌&&◌, ◌⊎◌, ℕ, IfErr, IfOk, IsErrAnd, List, OnErr, false, true, map, not, string_bytes};
ghost use Rattle.std.specs.Vec.Iter.{into_iter_items};
ghost use Rattle.std.specs.Process.{exit_status};
ghost use Rattle.clap.specs.Words.{kind_of};
ghost use Rattle.clap.specs.declared.error.kind.ErrorKind.TheVariants.{InvalidValue, OutOfMemory};
ghost use Rattle.mpx_program.specs.Jobs.{AsFounded, AsPrinted, IsRefused};
ghost use Rattle.mpx_program.specs.Answers.{Answers, AskFor, EndsBy, MaySay, asks_for_threads, how_to_give};
ghost use Rattle.mpx_program.specs.Showing.{shown_on, shows_lines, shows_rows};

use crate::answering::{answer, answer_in_threads};
use crate::job::{Streams, refuse};
use crate::progress::HowFar;
use crate::seen::Seen;
use mpx_run::{is_in_threads, write_bytes};
use mpx_sim::Observer;
use mpx_words::{Invocation, call_of, not_text};
use std::alloc::{AllocError, Global};
use std::io::{IsTerminal, Read, Write};
use std::process::ExitCode;
use std::sync::Wait;
use std::thread::Threads;
use std::time::Clock;
use std::{env, io};

/// What the words of the process ask for. They are read once: by this a call is answered, and shown.
///
/// A refusal is for words that ask for nothing, for a word that is no text, or for want of memory.
pub fn invocation_of(alloc: Global, args: io::Result<env::Args>) -> Result<Invocation, clap::Error>
    ensures asks { IfOk args (λ args. AskFor (map string_bytes (into_iter_items args)) result) }
    ensures refused { OnErr args (IsErrAnd result (λ why. (kind_of why ≡ InvalidValue) ⊎ (kind_of why ≡ OutOfMemory))) }
{
    match args {
        Ok(args) => {
            let words = in_order(alloc, args)?;
            call_of(alloc, &words)
        }
        Err(error) if error.kind() == io::ErrorKind::OutOfMemory => Err(AllocError.into()),
        Err(_) => Err(not_text(alloc)),
    }
}

// All of these words in their order.
fn in_order(alloc: Global, args: env::Args) -> Result<Vec<String>, AllocError>
    ensures { IfOk result (λ words. words.items ≡ into_iter_items args) }
{
    let mut words = Vec::new(alloc);
    for word in args {
        words.push(word)?;
    }
    Ok(words)
}

/// Who looks on, by what the words ask for; where they ask for nothing, how far a run is.
pub fn seen_by<'a, C: Clock, S: Write + IsTerminal>(
    asked: &Result<Invocation, clap::Error>,
    alloc: Global,
    clock: &'a C,
    out: S,
) -> Seen<'a, C, S>
    ensures trace { IfOk asked.now (λ call. shows_lines result ≡ call.flags.trace) }
    ensures table { IfOk asked.now (λ call. shows_rows result ≡ (not call.flags.trace && call.flags.table)) }
    ensures far { OnErr asked.now ((shows_lines result ≡ false) × (shows_rows result ≡ false)) }
    ensures on { shown_on result ≡ out }
{
    match asked {
        Ok(call) => Seen::of(call.flags, alloc, clock, out),
        Err(_) => Seen::Progress(HowFar::new(clock, out)),
    }
}

/// Whether the words of a process ask for a run in threads. [`exit_code_in_threads`] answers these, and [`exit_code`] all others.
pub fn asks_for_threads(asked: &Result<Invocation, clap::Error>) -> bool
    ensures { result ≡ asks_for_threads asked.now }
{
    match asked {
        Ok(call) => is_in_threads(&call.job),
        Err(_) => false,
    }
}

// What is said where a script is to come from a terminal.
const FROM_TERMINAL: &str =
    "The script is read from this terminal, up to Ctrl-D. From a file: gossipmpi run < my.job
";

/// Where the words of a process ask for something and its input is a terminal, says how a script is given. What fails on the standard error
/// is let go.
pub fn say_how_to_give<I: IsTerminal, E: Write>(
    asked: &Result<Invocation, clap::Error>,
    input: &I,
    err: &mut E,
)
    ensures said { MaySay how_to_give (E.contents err.old) (E.contents err.new) }
    ensures refused { OnErr asked.now (E.contents err.new ≡ E.contents err.old) }
{
    match asked {
        Ok(_) => say_where_typed(input, err),
        Err(_) => {}
    }
}

// Where the input is a terminal, says how a script is given.
fn say_where_typed<I: IsTerminal, E: Write>(input: &I, err: &mut E)
    ensures { MaySay how_to_give (E.contents err.old) (E.contents err.new) }
{
    if input.is_terminal() {
        let _ = write_bytes(err, FROM_TERMINAL.as_bytes());
    }
}

/// Answers what the words of a process ask for, unless that is a run in threads, and gives its status as the process's. It always returns: it
/// waits for nobody. What fails on the standard error is let go: the status stays as it is. Of a call that no words ask for it promises nothing.
pub fn exit_code<T: Threads + Sync, R: Read, W: Write, E: Write>(
    rt: &T,
    alloc: Global,
    asked: &Result<Invocation, clap::Error>,
    streams: &mut Streams<R, W, E>,
    observer: &mut dyn Observer,
) -> ExitCode
    requires alone { asks_for_threads asked.now ≡ false }
    ensures answers { (words : List (List ℕ)) → AskFor words asked.now → EndsBy (Answers AsPrinted words (R.remaining streams.old.reader) (R.remaining streams.new.reader) (W.contents streams.old.out) (W.contents streams.new.out)) (E.contents streams.old.err) (E.contents streams.new.err) (exit_status result) }
    ensures founded { (words : List (List ℕ)) → AskFor words asked.now → EndsBy (Answers AsFounded words (R.remaining streams.old.reader) (R.remaining streams.new.reader) (W.contents streams.old.out) (W.contents streams.new.out)) (E.contents streams.old.err) (E.contents streams.new.err) (exit_status result) }
    ensures refused { IfErr asked.now (λ why. EndsBy (IsRefused (kind_of why)) (E.contents streams.old.err) (E.contents streams.new.err) (exit_status result)) }
    ensures unread { OnErr asked.now (R.remaining streams.new.reader ≡ R.remaining streams.old.reader) }
    ensures unwritten { OnErr asked.now (W.contents streams.new.out ≡ W.contents streams.old.out) }
{
    match asked {
        Ok(call) => {
            let exit = answer(rt, alloc, call, streams, observer);
            ExitCode::from(exit.status)
        }
        Err(why) => ExitCode::from(refuse(why, &mut streams.err).status),
    }
}

/// Answers words that ask for a run in threads, as [`exit_code`] answers all others. It waits for the threads, so it owes no return.
pub fn exit_code_in_threads<T: Threads + Wait + Sync, R: Read, W: Write, E: Write>(
    rt: &T,
    alloc: Global,
    asked: &Result<Invocation, clap::Error>,
    streams: &mut Streams<R, W, E>,
    observer: &mut dyn Observer,
) -> ExitCode
    requires threads { asks_for_threads asked.now ≡ true }
    ensures answers { (words : List (List ℕ)) → AskFor words asked.now → EndsBy (Answers AsPrinted words (R.remaining streams.old.reader) (R.remaining streams.new.reader) (W.contents streams.old.out) (W.contents streams.new.out)) (E.contents streams.old.err) (E.contents streams.new.err) (exit_status result) }
    ensures founded { (words : List (List ℕ)) → AskFor words asked.now → EndsBy (Answers AsFounded words (R.remaining streams.old.reader) (R.remaining streams.new.reader) (W.contents streams.old.out) (W.contents streams.new.out)) (E.contents streams.old.err) (E.contents streams.new.err) (exit_status result) }
{
    match asked {
        Ok(call) => {
            let exit = answer_in_threads(rt, alloc, call, streams, observer);
            ExitCode::from(exit.status)
        }
        Err(_) => unreachable!(),
    }
}
