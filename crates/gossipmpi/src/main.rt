//! The program `gossipmpi`: reads a script on the standard input, and prints what each rank gets, in a run or by the
//! script's evaluation, or how much the script has.
#![tactic(auto)]

use mpx_program::{
    Streams, asks_for_threads, exit_code, exit_code_in_threads, invocation_of, say_how_to_give,
    seen_by,
};
use std::process::ExitCode;
use std::{env, io};

/// Hands on the words of the call and the standard streams.
fn main(rt: HostRuntime) -> ExitCode {
    let asked = invocation_of(rt.alloc(), env::args(&rt));
    let mut seen = seen_by(&asked, rt.alloc(), &rt, rt.stderr());
    let mut streams = Streams {
        reader: rt.reader(),
        out: io::writer(&rt),
        err: rt.stderr(),
    };
    say_how_to_give(&asked, &rt.stdin(), &mut streams.err);
    if asks_for_threads(&asked) {
        return exit_code_in_threads(&rt, rt.alloc(), &asked, &mut streams, &mut seen);
    }
    exit_code(&rt, rt.alloc(), &asked, &mut streams, &mut seen)
}
