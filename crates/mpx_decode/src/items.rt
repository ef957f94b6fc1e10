//! Reading items, which stand near, or are shared where they lie beyond.
ghost use Rattle.std.specs.Prelude.{◌≡◌, ◌*◌, ◌/◌, ◌++◌, ◌≤◌, [], IfOk, IfSome, Ok, length};
ghost use Rattle.mpx_num.specs.ItemList.{AreItems};
ghost use Rattle.mpx_num.specs.Types.{item_len};
ghost use Rattle.std.specs.Bool.{OnTrue};
ghost use Rattle.mpx_format.specs.Format.{Gives, many_read};
ghost use Rattle.mpx_format.specs.Posts.{integer, item_count, items};
ghost use Rattle.mpx_decode.specs.Near.{GivesNear};

use crate::fields::read_at_most;
use mpx_format::{ReadError, SHORT};
use mpx_num::{MOST_ITEMS, Spelled, Ty};
use mpx_rope::Beyond;

#[tactic(auto, unfolding(mpx_format::specs::Posts::item_count))]
pub fn read_item_count(bytes: &[u8]) -> Result<(u16, &[u8]), ReadError>
    ensures read { Gives (λ x. (x.0, x.1.now)) result (item_count.read bytes.now) }
    ensures few { IfOk result (λ x. x.0 ≤ 4096) }
{
    read_at_most(4096, bytes)
}

// So many numbers of the type, which are whole items.
fn read_numbers<'a>(
    ty: Ty,
    beyond: &mut Beyond<'a>,
    count: usize,
    bytes: &'a [u8],
) -> Result<(Spelled, &'a [u8]), ReadError>
    requires whole { count / item_len ty * item_len ty ≡ count }
    requires few { count ≤ 8192 }
    ensures read { GivesNear beyond.old (λ x. (x.0.nums, x.1.now ++ beyond.new)) result (many_read (λ before. integer ty) count [] (bytes.now ++ beyond.old)) }
    ensures ty { IfOk result (λ x. x.0.ty ≡ ty) }
    ensures len { IfOk result (λ x. length x.0.nums ≡ count) }
    ensures less { length beyond.new ≤ length beyond.old }
{
    let len = count * ty.number_len();
    if bytes.len() < len {
        if bytes.is_empty() {
            if let Some(read) = read_shared(ty, beyond, count) {
                return Ok(read);
            }
        }
        return Err(SHORT);
    }
    let (front, rest) = bytes.split_at(len);
    Ok((beyond.source().items(ty, front, bytes.len())?, rest))
}

// So many numbers of the type, where they are the shared items that stand first beyond.
#[inline(never)]
fn read_shared<'a>(ty: Ty, beyond: &mut Beyond<'a>, count: usize) -> Option<(Spelled, &'a [u8])>
    ensures read { IfSome result (λ x. many_read (λ before. integer ty) count [] beyond.old ≡ Ok (x.0.nums, x.1.now ++ beyond.new)) }
    ensures ty { IfSome result (λ x. x.0.ty ≡ ty) }
    ensures len { IfSome result (λ x. length x.0.nums ≡ count) }
    ensures less { length beyond.new ≤ length beyond.old }
{
    match beyond.items() {
        None => None,
        Some((items, near, after)) => {
            if !are_so_many(items, ty, count) {
                return None;
            }
            match items.copy() {
                Err(_) => None,
                Ok(items) => {
                    *beyond = after;
                    Some((items, near))
                }
            }
        }
    }
}

// Whether these are so many numbers of the type.
fn are_so_many(items: &Spelled, ty: Ty, count: usize) -> bool
    ensures ty { OnTrue result (items.now.ty ≡ ty) }
    ensures count { OnTrue result (length items.now.nums ≡ count) }
    ensures items { AreItems items.now.ty items.now.nums }
{
    // so that their number is known to be small
    let bytes = items.bytes();
    let whole = items.count() * items.ty().item_len();
    items.ty() == ty && whole == count && whole <= bytes.len()
}

// How many items, and the numbers of all of them.
#[tactic(auto, unfolding(mpx_format::specs::Posts::items))]
pub fn read_items<'a>(
    ty: Ty,
    beyond: &mut Beyond<'a>,
    bytes: &'a [u8],
) -> Result<(Spelled, &'a [u8]), ReadError>
    ensures read { GivesNear beyond.old (λ x. (x.0.nums, x.1.now ++ beyond.new)) result ((items ty).read (bytes.now ++ beyond.old)) }
    ensures ty { IfOk result (λ x. x.0.ty ≡ ty) }
    ensures few { IfOk result (λ x. length x.0.nums ≤ MOST_ITEMS * item_len ty) }
    ensures less { length beyond.new ≤ length beyond.old }
{
    let (count, rest) = read_item_count(bytes)?;
    read_numbers(ty, beyond, count as usize * ty.item_len(), rest)
}
