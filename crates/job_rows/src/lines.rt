//! A row's own line, scripts that are made of pieces, and texts that are put together.
use std::alloc::{AllocError, Global};
use std::io::{self, Write};

/// The line's word at this place, from 0 on; none where there are fewer.
pub fn word_at(line: &[u8], at: usize) -> &[u8] {
    match line.split(|byte| *byte == b' ').nth(at) {
        Some(word) => word,
        None => b"",
    }
}

/// The number that these digits spell.
pub fn number_of(digits: &[u8]) -> usize {
    let mut number: usize = 0;
    for &digit in digits {
        number = number
            .wrapping_mul(10)
            .wrapping_add(usize::from(digit.wrapping_sub(b'0')));
    }
    number
}

/// The text, where it was told whole. It is dropped here, so that no exit of a caller drops it.
pub fn ended(text: Vec<u8>, told: io::Result<()>) -> io::Result<Vec<u8>> {
    match told {
        Ok(()) => Ok(text),
        Err(error) => {
            drop(text);
            Err(error)
        }
    }
}

/// One text behind the other.
pub fn joined(text: io::Result<Vec<u8>>, end: io::Result<Vec<u8>>) -> io::Result<Vec<u8>> {
    let mut text = text?;
    let told = push_end(&mut text, end);
    ended(text, told)
}

fn push_end(text: &mut Vec<u8>, end: io::Result<Vec<u8>>) -> io::Result<()> {
    let end = end?;
    let pushed = text.extend_from_slice(&end);
    drop(end);
    Ok(pushed?)
}

/// The words of a call of the program: its name, and the line's words from this place on.
pub fn words_of(alloc: Global, line: &[u8], from: usize) -> Result<Vec<String>, AllocError> {
    let mut words = Vec::new(alloc);
    match push_words(alloc, &mut words, line, from) {
        Ok(()) => Ok(words),
        Err(error) => {
            drop(words);
            Err(error)
        }
    }
}

/// The words of a call from the third on, and behind them `--seed 1` so many times.
pub fn many_words(alloc: Global, line: &[u8], count: usize) -> io::Result<Vec<String>> {
    let mut whole = Vec::new(alloc);
    let pushed = push_seeds(&mut whole, line, count);
    let whole = ended(whole, pushed)?;
    let words = words_of(alloc, &whole, 3);
    drop(whole);
    Ok(words?)
}

fn push_seeds(whole: &mut Vec<u8>, line: &[u8], count: usize) -> io::Result<()> {
    whole.extend_from_slice(line)?;
    for _ in 0..count {
        whole.extend_from_slice(b" --seed 1")?;
    }
    Ok(())
}

fn push_words(
    alloc: Global,
    words: &mut Vec<String>,
    line: &[u8],
    from: usize,
) -> Result<(), AllocError> {
    push_word(words, String::from_str(alloc, "gossipmpi")?)?;
    for (i, word) in line.split(|byte| *byte == b' ').enumerate() {
        if i >= from && !word.is_empty() {
            push_word(words, String::from_utf8_lossy(alloc, word)?)?;
        }
    }
    Ok(())
}

fn push_word(words: &mut Vec<String>, word: String) -> Result<(), AllocError> {
    words.push(word)?;
    Ok(())
}

// The piece, where each `%` is the number, and each `|` a line feed.
fn push_piece(text: &mut Vec<u8>, number: usize, piece: &[u8]) -> io::Result<()> {
    for &byte in piece {
        match byte {
            b'%' => write!(text, "{number}")?,
            b'|' => text.push(b'\n')?,
            _ => text.push(byte)?,
        }
    }
    Ok(())
}

// The line's piece, so many times.
fn push_pieces(text: &mut Vec<u8>, line: &[u8]) -> io::Result<()> {
    let count = word_at(line, 0);
    let piece = if count.len() < line.len() {
        &line[count.len() + 1..]
    } else {
        b"".as_slice()
    };
    for number in 0..number_of(count) {
        push_piece(text, number, piece)?;
    }
    Ok(())
}

/// Adds the script of a row of pieces. Each line is a number, a blank and a piece, which stands in the script so many times; in it
/// `%` is the number of the time, from 0 on, and `|` a line feed.
pub fn push_all_pieces(text: &mut Vec<u8>, lines: &[u8]) -> io::Result<()> {
    for line in lines.split(|byte| *byte == b'\n') {
        push_pieces(text, line)?;
    }
    Ok(())
}
