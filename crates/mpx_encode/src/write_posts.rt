//! Writing posts: the fields of each kind.
ghost use Rattle.std.specs.Prelude.{◌≡◌, ◌≤◌, ◌+◌, ◌*◌, ◌++◌, true, OnOk, length};
ghost use Rattle.std.specs.List.{flat_map};
ghost use Rattle.mpx_kind.specs.Kinds.{fields_of, is_had};
ghost use Rattle.mpx_post.specs.Posts.{most_counts};
ghost use Rattle.mpx_format.specs.declared.versions.Version.TheVariants.{Two};
ghost use Rattle.mpx_format.specs.Fields.{process};
ghost use Rattle.mpx_format.specs.Codes.{operation, when};
ghost use Rattle.mpx_format.specs.Posts.{count as count_format, counts as counts_format, counts_if, items_spelled, post as post_format, type_spelled};

use crate::write_codes::code_of_operation;
use crate::write_items::{items_len, write_items};
use crate::write_makings::{making_len, write_making};
use crate::write_numbers::{write_u8, write_u16};
use join_core::OutOfMemory;
use mpx_format::code_of_mode;
use mpx_post::{Counts, Post};
use mpx_rope::Rope;

fn write_root(given: &Post, out: &mut Rope) -> Result<(), OutOfMemory>
    ensures { OnOk result (out.new ≡ out.old ++ (when (fields_of given.now.kind).root process).spelling given.now.root) }
{
    match given.root() {
        None => Ok(()),
        Some(root) => write_u8(root, out),
    }
}

fn write_operation(given: &Post, out: &mut Rope) -> Result<(), OutOfMemory>
    ensures { OnOk result (out.new ≡ out.old ++ (when (fields_of given.now.kind).op (operation Two)).spelling given.now.op) }
{
    match given.op() {
        None => Ok(()),
        Some(op) => {
            // so that the proof knows that the operation fits its type
            given.limits();
            write_u8(code_of_operation(op), out)
        }
    }
}

fn write_type(given: &Post, out: &mut Rope) -> Result<(), OutOfMemory>
    ensures { OnOk result (out.new ≡ out.old ++ type_spelled given.now) }
{
    match given.items() {
        None => Ok(()),
        Some(items) => write_u8(items.ty().code(), out),
    }
}

fn write_items_of(given: &Post, out: &mut Rope) -> Result<(), OutOfMemory>
    ensures { OnOk result (out.new ≡ out.old ++ items_spelled given.now) }
{
    match given.items() {
        None => Ok(()),
        Some(items) => write_items(items, out),
    }
}

// How many bytes the type and the items take.
fn typed_len(given: &Post) -> usize
    ensures value { result ≡ length (type_spelled given.now) + length (items_spelled given.now) }
    ensures small { result ≤ 65539 }
{
    match given.items() {
        None => 0,
        Some(items) => 1 + items_len(items),
    }
}

#[inline(never)]
fn write_each_count(counts: &[u16], out: &mut Rope) -> Result<(), OutOfMemory>
    ensures { OnOk result (out.new ≡ out.old ++ flat_map count_format.spelling counts.now) }
{
    for &count in counts {
        write_u16(count, out)?;
    }
    Ok(())
}

// Writes the counts at the end, where the kind has them.
#[inline(always)]
fn write_counts(had: bool, counts: &Counts, out: &mut Rope) -> Result<(), OutOfMemory>
    ensures { OnOk result (out.new ≡ out.old ++ (counts_if had).spelling counts.now) }
{
    if !had {
        return Ok(());
    }
    let list = counts.as_slice();
    write_u16(list.len() as u16, out)?;
    write_each_count(list, out)
}

fn counts_len(had: bool, counts: &Counts) -> usize
    ensures value { result ≡ length ((counts_if had).spelling counts.now) }
    ensures small { result ≤ 2 + 2 * most_counts }
{
    if had {
        2 + 2 * counts.as_slice().len()
    } else {
        0
    }
}

fn root_len(given: &Post) -> usize
    ensures value { result ≡ length ((when (fields_of given.now.kind).root process).spelling given.now.root) }
    ensures small { result ≤ 1 }
{
    match given.root() {
        None => 0,
        Some(_) => 1,
    }
}

fn operation_len(given: &Post) -> usize
    ensures value { result ≡ length ((when (fields_of given.now.kind).op (operation Two)).spelling given.now.op) }
    ensures small { result ≤ 1 }
{
    match given.op() {
        None => 0,
        Some(_) => 1,
    }
}

// How many bytes the post takes.
pub fn post_len(given: &Post) -> usize
    ensures value { result ≡ length ((post_format Two).spelling given.now) }
    ensures small { result ≤ 400000 }
    ensures fits { (post_format Two).fits given.now ≡ true }
{
    // so that the proof knows its limits
    given.limits();
    let _key = given.key();
    let fields = given.kind().fields();
    let counts = counts_len(fields.scounts.is_had(), given.scounts())
        + counts_len(fields.rcounts.is_had(), given.rcounts());
    2 + root_len(given) + operation_len(given) + typed_len(given) + counts + making_len(given)
}

// Writes the post at the end.
pub fn write_post(given: &Post, out: &mut Rope) -> Result<(), OutOfMemory>
    requires { (post_format Two).fits given.now ≡ true }
    ensures { OnOk result (out.new ≡ out.old ++ (post_format Two).spelling given.now) }
{
    let fields = given.kind().fields();
    write_u8(given.kind().code(), out)?;
    write_u8(code_of_mode(given.mode()), out)?;
    write_root(given, out)?;
    write_operation(given, out)?;
    write_type(given, out)?;
    write_counts(fields.scounts.is_had(), given.scounts(), out)?;
    write_counts(fields.rcounts.is_had(), given.rcounts(), out)?;
    write_items_of(given, out)?;
    write_making(given, out)
}
