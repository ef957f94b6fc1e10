//! Posts that the taker has, compared with their bytes where these stand.
ghost use Rattle.std.specs.Prelude.{◌≡◌, ◌++◌, ◌∷◌, [], IfNone, IfSome, Ok, length, ◌≤◌};
ghost use Rattle.std.specs.Bool.{OnTrue};
ghost use Rattle.join_core.specs.FlatSeen.{flat_view};
ghost use Rattle.mpx_num.specs.Codes.{code_of_operation, code_of_type};
ghost use Rattle.mpx_post.specs.Posts.{NoneUnless};
ghost use Rattle.mpx_format.specs.declared.versions.Version.TheVariants.{Two};
ghost use Rattle.mpx_format.specs.Contexts.{posted};
ghost use Rattle.mpx_format.specs.Format.{many_read};
ghost use Rattle.mpx_format.specs.Posts.{count as count_format, counts_if, items as items_format, post as post_format};
ghost use Rattle.mpx_decode.specs.Fronts.{head_spelled, spelled_if};

use crate::big_endian::{read_u8, read_u16};
use crate::counts::read_count;
use crate::items::read_item_count;
use join_core::Flat;
use mpx_format::{Version, code_of_mode};
use mpx_num::{Op, Spelled, Ty, are_equal};
use mpx_post::{Counts, Making, Post};
use mpx_rope::Beyond;

// The bytes behind what is told, where it is a post and just its bytes stand at the front.
pub fn behind_told<'a>(
    version: Version,
    told: &Flat<Post>,
    beyond: &mut Beyond<'a>,
    bytes: &'a [u8],
) -> Option<&'a [u8]>
    ensures some { IfSome result (λ rest. (posted version).read (bytes.now ++ beyond.old) ≡ Ok (flat_view (λ p. p) told.now, rest.now ++ beyond.new)) }
    ensures none { IfNone result (beyond.new ≡ beyond.old) }
    ensures less { length beyond.new ≤ length beyond.old }
{
    match told {
        Flat::Known(post) => match read_u8(bytes) {
            Err(_) => None,
            Ok((form, rest)) => {
                if form == 1 {
                    behind_post(version, post, beyond, rest)
                } else {
                    None
                }
            }
        },
        _ => None,
    }
}

// The bytes behind this post, where just its bytes stand at the front, and it says nothing of a new communicator. Frames of
// version 1, which lacks some kinds and operations, are always read.
fn behind_post<'a>(
    version: Version,
    post: &Post,
    beyond: &mut Beyond<'a>,
    bytes: &'a [u8],
) -> Option<&'a [u8]>
    ensures some { IfSome result (λ rest. (post_format version).read (bytes.now ++ beyond.old) ≡ Ok (post.now, rest.now ++ beyond.new)) }
    ensures none { IfNone result (beyond.new ≡ beyond.old) }
    ensures less { length beyond.new ≤ length beyond.old }
{
    match version {
        Version::One => None,
        Version::Two => behind_fields(post, beyond, bytes),
    }
}

// The same of a frame of version 2.
fn behind_fields<'a>(post: &Post, beyond: &mut Beyond<'a>, bytes: &'a [u8]) -> Option<&'a [u8]>
    ensures some { IfSome result (λ rest. (post_format Two).read (bytes.now ++ beyond.old) ≡ Ok (post.now, rest.now ++ beyond.new)) }
    ensures none { IfNone result (beyond.new ≡ beyond.old) }
    ensures less { length beyond.new ≤ length beyond.old }
{
    if !makes_nothing(post.making()) {
        return None;
    }
    post.limits();
    let head = behind_head(post, bytes)?;
    let fields = post.kind().fields();
    let first = behind_counts(fields.scounts.is_had(), post.scounts(), head)?;
    let both = behind_counts(fields.rcounts.is_had(), post.rcounts(), first)?;
    match post.items() {
        None => Some(both),
        Some(items) => behind_items(items, beyond, both),
    }
}

fn makes_nothing(making: &Making) -> bool
    ensures { OnTrue result (making.now ≡ Making.Nothing) }
{
    matches!(making, Making::Nothing)
}

// The bytes behind its kind and mode, and its root, operation and type, where it has these.
fn behind_head<'a>(post: &Post, bytes: &'a [u8]) -> Option<&'a [u8]>
    ensures { IfSome result (λ rest. bytes.now ≡ head_spelled post.now ++ rest.now) }
{
    let after_kind = behind_code(u16::from(post.kind().code()), bytes)?;
    let after_mode = behind_code(u16::from(code_of_mode(post.mode())), after_kind)?;
    let after_root = behind_root(post.root(), after_mode)?;
    let after_operation = behind_operation(post.op(), after_root)?;
    behind_type(post.ty(), after_operation)
}

fn behind_root(root: Option<u8>, bytes: &[u8]) -> Option<&[u8]>
    ensures { IfSome result (λ rest. bytes.now ≡ spelled_if (λ r. r) root ++ rest.now) }
{
    match root {
        None => Some(bytes),
        Some(root) => behind_code(u16::from(root), bytes),
    }
}

fn behind_operation(op: Option<Op>, bytes: &[u8]) -> Option<&[u8]>
    ensures { IfSome result (λ rest. bytes.now ≡ spelled_if code_of_operation op ++ rest.now) }
{
    match op {
        None => Some(bytes),
        Some(op) => behind_code(op.code(), bytes),
    }
}

fn behind_type(ty: Option<Ty>, bytes: &[u8]) -> Option<&[u8]>
    ensures { IfSome result (λ rest. bytes.now ≡ spelled_if code_of_type ty ++ rest.now) }
{
    match ty {
        None => Some(bytes),
        Some(ty) => behind_code(u16::from(ty.code()), bytes),
    }
}

// The bytes behind the first, where it is this number.
fn behind_code(code: u16, bytes: &[u8]) -> Option<&[u8]>
    ensures { IfSome result (λ rest. bytes.now ≡ code ∷ rest.now) }
{
    match bytes {
        [] => None,
        [first, rest @ ..] => {
            if u16::from(*first) == code {
                Some(rest)
            } else {
                None
            }
        }
    }
}

// The bytes behind these counts, where the kind has such.
fn behind_counts<'a>(had: bool, counts: &Counts, bytes: &'a [u8]) -> Option<&'a [u8]>
    requires { NoneUnless had counts.now }
    ensures { IfSome result (λ rest. (counts_if had).read bytes.now ≡ Ok (counts.now, rest.now)) }
{
    if !had {
        return Some(bytes);
    }
    let list = counts.as_slice();
    match read_u16(bytes) {
        Err(_) => None,
        Ok((len, rest)) => {
            if len as usize == list.len() {
                behind_list(list, rest)
            } else {
                None
            }
        }
    }
}

// The bytes behind these counts.
fn behind_list<'a>(list: &[u16], bytes: &'a [u8]) -> Option<&'a [u8]>
    ensures { IfSome result (λ rest. many_read (λ before. count_format) (length list.now) [] bytes.now ≡ Ok (list.now, rest.now)) }
{
    let mut rest = bytes;
    for i in 0..list.len() {
        match read_count(rest) {
            Err(_) => return None,
            Ok((count, after)) => {
                if count != list[i] {
                    return None;
                }
                rest = after;
            }
        }
    }
    Some(rest)
}

// The bytes behind these items.
fn behind_items<'a>(items: &Spelled, beyond: &mut Beyond<'a>, bytes: &'a [u8]) -> Option<&'a [u8]>
    ensures some { IfSome result (λ rest. (items_format items.now.ty).read (bytes.now ++ beyond.old) ≡ Ok (items.now.nums, rest.now ++ beyond.new)) }
    ensures none { IfNone result (beyond.new ≡ beyond.old) }
    ensures less { length beyond.new ≤ length beyond.old }
{
    let spelled = items.bytes();
    let items = items.count();
    match read_item_count(bytes) {
        Err(_) => None,
        Ok((count, rest)) => {
            if count as usize == items {
                behind_bytes(spelled, beyond, rest)
            } else {
                None
            }
        }
    }
}

// The bytes behind these ones, where they stand at the front, or are shared items beyond it.
fn behind_bytes<'a>(front: &[u8], beyond: &mut Beyond<'a>, bytes: &'a [u8]) -> Option<&'a [u8]>
    ensures some { IfSome result (λ rest. bytes.now ++ beyond.old ≡ front.now ++ (rest.now ++ beyond.new)) }
    ensures none { IfNone result (beyond.new ≡ beyond.old) }
    ensures less { length beyond.new ≤ length beyond.old }
{
    if bytes.len() < front.len() {
        return if bytes.is_empty() {
            behind_shared(front, beyond)
        } else {
            None
        };
    }
    let (there, rest) = bytes.split_at(front.len());
    if are_equal(front, there) {
        Some(rest)
    } else {
        None
    }
}

// The bytes behind these ones, where they are those of the shared items that stand first beyond.
fn behind_shared<'a>(front: &[u8], beyond: &mut Beyond<'a>) -> Option<&'a [u8]>
    ensures some { IfSome result (λ rest. beyond.old ≡ front.now ++ (rest.now ++ beyond.new)) }
    ensures none { IfNone result (beyond.new ≡ beyond.old) }
    ensures less { length beyond.new ≤ length beyond.old }
{
    match beyond.items() {
        None => None,
        Some((items, near, after)) => {
            if are_equal(front, items.bytes()) {
                *beyond = after;
                Some(near)
            } else {
                None
            }
        }
    }
}
