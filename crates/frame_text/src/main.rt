//! The program `frame_text`: reads frames, of version 1 or 2, as hexadecimal lines on the standard input and prints, for each,
//! `ok` and the bytes of the board's frame of version 2, or why the bytes spell none. With a number N as the only word it
//! tells instead in how many microseconds the frame on the standard input is copied, read and written N times: `bench/frames`
//! runs it so.
#![tactic(auto)]

mod lines;
mod streams;
mod times;

use std::io;
use std::io::Write;
use std::process::ExitCode;
use streams::print_frames;
use times::{tell_times, turns};

fn tell(rt: &HostRuntime) -> io::Result<()> {
    match turns(rt)? {
        Some(turns) => tell_times(rt, turns),
        None => print_frames(rt.alloc(), &mut rt.reader(), &mut io::writer(rt)),
    }
}

fn main(rt: HostRuntime) -> ExitCode {
    match tell(&rt) {
        Ok(()) => ExitCode::SUCCESS,
        Err(error) => {
            let _told = writeln!(rt.stderr(), "{error}");
            ExitCode::FAILURE
        }
    }
}
