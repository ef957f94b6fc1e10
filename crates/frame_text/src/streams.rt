//! From a reader to a writer.
ghost use Rattle.std.specs.Prelude.{OnOk};
ghost use Rattle.frame_text.specs.Lines.{PrintsLines};

use crate::lines::all_told;
use std::alloc::Global;
use std::io;
use std::io::{Read, Write};

/// Reads lines to the reader's end, and then writes what is told of each. Nothing is written before the end is read.
pub fn print_frames<R: Read, W: Write>(
    alloc: Global,
    reader: &mut R,
    writer: &mut W,
) -> io::Result<()>
    ensures { OnOk result (PrintsLines (R.remaining reader.old) (W.contents writer.old) (W.contents writer.new)) }
{
    let mut text = Vec::new(alloc);
    reader.read_to_end(&mut text)?;
    let Ok(told) = all_told(alloc, &text) else {
        return Err(io::ErrorKind::OutOfMemory.into());
    };
    writer.write_all(&told)?;
    writer.flush()
}
