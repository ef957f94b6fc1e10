//! What is told of lines.
ghost use Rattle.std.specs.Prelude.{◌≡◌, ◌++◌, IfOk, OnOk};
ghost use Rattle.std.specs.String.{string_bytes};
ghost use Rattle.hex.specs.Hex.{decode_of};
ghost use Rattle.mpx_board.specs.Looks.{parts_of};
ghost use Rattle.frame_text.specs.Lines.{all_told, board_told, digits_told, frame_told, line_told};

use hex::FromHexError;
use join_core::OutOfMemory;
use mpx_board::Board;
use mpx_wire::{EncodeError, WireError, decode, encode};
use std::alloc::Global;

/// What is told of each line of the text, in lines.
pub fn all_told(alloc: Global, text: &[u8]) -> Result<Vec<u8>, OutOfMemory>
    ensures { IfOk result (λ told. told.items ≡ all_told text.now) }
{
    let mut told = Vec::new(alloc);
    let mut start = 0;
    for i in 0..text.len() {
        if text[i] == b'\n' {
            tell(alloc, &text[start..i], &mut told)?;
            start = i + 1;
        }
    }
    if start < text.len() {
        tell(alloc, &text[start..], &mut told)?;
    }
    Ok(told)
}

// Adds what is told of a line.
fn tell(alloc: Global, line: &[u8], told: &mut Vec<u8>) -> Result<(), OutOfMemory>
    ensures { OnOk result (told.new.items ≡ told.old.items ++ line_told line.now) }
{
    let answer = digits_told(alloc, line)?;
    told.extend_from_slice(answer.as_bytes())?;
    told.push(b'\n')?;
    Ok(())
}

// What is told of the bytes of which these are the digits.
fn digits_told(alloc: Global, digits: &[u8]) -> Result<String, OutOfMemory>
    ensures { IfOk result (λ told. string_bytes told ≡ digits_told (decode_of digits.now)) }
{
    match hex::decode(alloc, digits) {
        Ok(bytes) => frame_told(alloc, &bytes),
        Err(FromHexError::OutOfMemory) => Err(OutOfMemory),
        Err(_) => Ok(format!(in alloc; "not hex")?),
    }
}

fn frame_told(alloc: Global, bytes: &[u8]) -> Result<String, OutOfMemory>
    ensures { IfOk result (λ told. string_bytes told ≡ frame_told bytes.now) }
{
    match decode(alloc, bytes) {
        Ok(board) => board_told(alloc, &board),
        Err(WireError::TooLong) => Ok(format!(in alloc; "TooLong")?),
        Err(WireError::BadMagic) => Ok(format!(in alloc; "BadMagic")?),
        Err(WireError::BadVersion) => Ok(format!(in alloc; "BadVersion")?),
        Err(WireError::ShortFrame) => Ok(format!(in alloc; "ShortFrame")?),
        Err(WireError::OutOfLimits(offset)) => Ok(format!(in alloc; "OutOfLimits({offset})")?),
        Err(WireError::NotCanonical(offset)) => Ok(format!(in alloc; "NotCanonical({offset})")?),
        Err(WireError::OutOfMemory) => Err(OutOfMemory),
    }
}

fn board_told(alloc: Global, board: &Board) -> Result<String, OutOfMemory>
    ensures { IfOk result (λ told. string_bytes told ≡ board_told (parts_of board.now)) }
{
    match encode(alloc, board) {
        Ok(frame) => {
            let digits = hex::encode(alloc, &frame)?;
            Ok(format!(in alloc; "ok {digits}")?)
        }
        Err(EncodeError::TooLong) => Ok(format!(in alloc; "ok TooLong")?),
        Err(EncodeError::OutOfMemory) => Err(OutOfMemory),
    }
}
