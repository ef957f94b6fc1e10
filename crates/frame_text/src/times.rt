//! How long a frame takes to be copied, read and written.
use mpx_board::Board;
use mpx_wire::{decode, encode};
use std::alloc::{AllocError, Global};
use std::io::Read;
use std::time::Instant;
use std::{env, io};

/// How often, where one word says so.
pub fn turns(rt: &HostRuntime) -> io::Result<Option<u32>> {
    let words: Vec<String> = env::args(rt)?.collect(rt.alloc())?;
    match words.as_slice() {
        [_, word] => Ok(word.as_str().parse::<u32>().ok()),
        _ => Ok(None),
    }
}

fn copy_all(alloc: Global, frame: &[u8], turns: u32) -> Result<usize, AllocError> {
    let mut bytes: usize = 0;
    for _ in 0..turns {
        let copy = Vec::from_slice(alloc, frame)?;
        bytes = bytes.wrapping_add(copy.len());
    }
    Ok(bytes)
}

// How many were read.
fn read_all(alloc: Global, frame: &[u8], turns: u32) -> u32 {
    let mut count: u32 = 0;
    for _ in 0..turns {
        if decode(alloc, frame).is_ok() {
            count = count.wrapping_add(1);
        }
    }
    count
}

// How many bytes were written.
fn write_all(alloc: Global, board: &Board, turns: u32) -> usize {
    let mut bytes: usize = 0;
    for _ in 0..turns {
        if let Ok(frame) = encode(alloc, board) {
            bytes = bytes.wrapping_add(frame.len());
        }
    }
    bytes
}

fn tell(rt: &HostRuntime, frame: &[u8], board: &Board, turns: u32) -> io::Result<()> {
    let alloc = rt.alloc();
    let start = Instant::now(rt)?;
    let copied = copy_all(alloc, frame, turns)?;
    let copying = start.elapsed(rt)?.as_micros();
    let start = Instant::now(rt)?;
    let read = read_all(alloc, frame, turns);
    let reading = start.elapsed(rt)?.as_micros();
    let start = Instant::now(rt)?;
    let written = write_all(alloc, board, turns);
    let writing = start.elapsed(rt)?.as_micros();
    println!(rt; "{copied} bytes copied in {copying} us")?;
    println!(rt; "{read} frames read in {reading} us")?;
    println!(rt; "{written} bytes written in {writing} us")
}

/// Reads a frame from the standard input, and tells in how many microseconds it is copied, read and written so many times.
pub fn tell_times(rt: &HostRuntime, turns: u32) -> io::Result<()> {
    let mut frame = Vec::new(rt.alloc());
    rt.reader().read_to_end(&mut frame)?;
    match decode(rt.alloc(), &frame) {
        Ok(board) => tell(rt, &frame, &board, turns),
        Err(refusal) => println!(rt; "{refusal}"),
    }
}
