//! Rows: processes that rise, each with a number that isn't 0, in five bytes.
ghost use Rattle.std.specs.Prelude.{◌≡◌, IfOk, IfSome, IsTrue, [], None, Ok};
ghost use Rattle.std.specs.Int.{w32};
ghost use Rattle.std.specs.Ordering.{nat_cmp};
ghost use Rattle.std.specs.FinMap.{is_sorted};
ghost use Rattle.join_nest.specs.Seen.{seen};
ghost use Rattle.mpx_format.specs.Format.{Gives, both, byte, many_read, number};
ghost use Rattle.mpx_format.specs.Fields.{process, some_calls};
ghost use Rattle.mpx_format.specs.Rising.{always, entry};

use crate::entries::read_entries;
use join_core::{Max, OutOfMemory};
use mpx_format::{ReadError, Version};
use mpx_group::Proc;
use mpx_rope::Source;
use std::alloc::Global;

// So many rows: in one loop over their bytes where all of them are right, and else as any entries, which tells the first fault.
pub fn read_rows<'a>(
    version: Version,
    source: Source<'a>,
    count: usize,
    bytes: &'a [u8],
) -> Result<(Vec<(Proc, Max)>, &'a [u8]), ReadError>
    ensures read { Gives (λ x. (seen (λ n. n.0) x.0.items, x.1.now)) result (many_read (entry nat_cmp None process some_calls always) count [] bytes.now) }
    ensures rising { IfOk result (λ x. IsTrue (is_sorted nat_cmp x.0.items)) }
{
    match right_rows(source.alloc(), count, bytes) {
        Err(_) => Err(ReadError::OutOfMemory),
        Ok(None) => read_entries(version, source, &None, count, bytes),
        Ok(Some(read)) => Ok(read),
    }
}

// So many rows, where all of them are right.
fn right_rows(
    alloc: Global,
    count: usize,
    bytes: &[u8],
) -> Result<Option<(Vec<(Proc, Max)>, &[u8])>, OutOfMemory>
    ensures read { IfOk result (λ read. IfSome read (λ x. many_read (entry nat_cmp None process some_calls always) count [] bytes.now
        ≡ Ok (seen (λ n. n.0) x.0.items, x.1.now))) }
    ensures rising { IfOk result (λ read. IfSome read (λ x. IsTrue (is_sorted nat_cmp x.0.items))) }
{
    if bytes.len() / 5 < count {
        return Ok(None);
    }
    let mut rows = Vec::with_capacity(alloc, count)?;
    let mut least = 0;
    let mut rest = bytes;
    for _ in 0..count {
        let Some((process, number, after)) = front_row(rest) else {
            return Ok(None);
        };
        if process < least || 64 <= process || number == 0 {
            return Ok(None);
        }
        least = process + 1;
        rows.push_reserved((Proc::new(process), Max(number)));
        rest = after;
    }
    Ok(Some((rows, rest)))
}

// The process and the number of the row at the front, and the bytes after it, where there are enough.
pub fn front_row(bytes: &[u8]) -> Option<(u8, u32, &[u8])>
    ensures { IfSome result (λ x. (both byte (λ p. number w32)).read bytes.now ≡ Ok ((x.0, x.1), x.2.now)) }
{
    match bytes.split_first_chunk::<5>() {
        None => None,
        Some((row, rest)) => {
            let number = u32::from_be_bytes([row[1], row[2], row[3], row[4]]);
            Some((row[0], number, rest))
        }
    }
}
