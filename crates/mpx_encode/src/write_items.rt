//! Writing items: how many, and the numbers of all of them in two's complement.
ghost use Rattle.std.specs.Prelude.{◌≡◌, ◌≤◌, ◌++◌, OnOk, length};
ghost use Rattle.std.specs.List.{flat_map};
ghost use Rattle.mpx_format.specs.Posts.{integer, items as items_format};

use crate::write_numbers::write_u16;
use join_core::OutOfMemory;
use mpx_num::Spelled;
use mpx_rope::{FEWEST_SHARED, Rope};
use std::alloc::AllocError;

// How many bytes the items take.
pub fn items_len(items: &Spelled) -> usize
    requires { length items.now.nums ≤ 8192 }
    ensures value { result ≡ length ((items_format items.now.ty).spelling items.now.nums) }
    ensures small { result ≤ 65538 }
{
    2 + items.bytes().len()
}

// Writes the items at the end.
pub fn write_items(items: &Spelled, out: &mut Rope) -> Result<(), OutOfMemory>
    requires { length items.now.nums ≤ 8192 }
    ensures { OnOk result (out.new ≡ out.old ++ (items_format items.now.ty).spelling items.now.nums) }
{
    write_u16(items.count() as u16, out)?;
    write_bytes(items, out)?;
    Ok(())
}

// Writes their bytes at the end: where there are many, the frame shares them.
fn write_bytes(items: &Spelled, out: &mut Rope) -> Result<(), AllocError>
    ensures { OnOk result (out.new ≡ out.old ++ flat_map (integer items.now.ty).spelling items.now.nums) }
{
    let bytes = items.bytes();
    if bytes.len() < FEWEST_SHARED {
        out.extend_from_slice(bytes)
    } else {
        out.push_items(items)
    }
}
