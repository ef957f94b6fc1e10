//! Items as their bytes spell them.
ghost use Rattle.std.specs.Prelude.{◌≡◌, ◌+◌, ◌*◌, ◌<◌, ◌≤◌, ◌↔◌, ◌++◌, [], IsTrue, IfOk, OnOk, length, take, drop, pos, slice_index_or, true};
ghost use Rattle.std.specs.Bool.{Decides};
ghost use Rattle.std.specs.List.{All, flat_map};
ghost use Rattle.mpx_num.specs.Types.{IsInRange, item_len};
ghost use Rattle.mpx_num.specs.ItemList.{AreItems, item_count};
ghost use Rattle.mpx_num.specs.Spelling.{are_whole, bytes_of, number_in, number_len, numbers_in};
ghost use Rattle.mpx_num.specs.KeptSpelled.{spelled_items};

use crate::items::Items;
use crate::types::Ty;
use bytes::Bytes;
use std::alloc::{AllocError, Global};
use std::marker::Model;

// So many bytes are kept in place, at most.
const FEW: usize = 16;

/// Items of one type, kept as the bytes of their numbers, the highest first. Copies share them.
#[derive(Debug, Drop)]
pub struct Spelled {
    kept: KeptBytes,
}

// How the bytes are kept.
#[derive(Debug, Drop)]
enum KeptBytes {
    Few(Ty, u8, [u8; 16]),
    Shared(Ty, Bytes),
}

impl Model for Spelled {
    ghost use Rattle.mpx_num.specs.ItemList.{ItemList};
    ghost use Rattle.mpx_num.specs.KeptSpelled.{AreKept, spelled_items};

    ghost Value = { ItemList };

    ghost view = { λ spelled. spelled_items spelled.kept };

    ghost invariant = { λ spelled. AreKept spelled.kept };
}

impl Spelled {
    /// No items of the type. It takes no memory.
    pub fn empty(ty: Ty) -> Self
        ensures { result ≡ record { ty = ty; nums = [] } }
    {
        Spelled {
            kept: KeptBytes::Few(ty, 0, [0; 16]),
        }
    }

    /// These items.
    pub fn of(alloc: Global, items: &Items) -> Result<Self, AllocError>
        ensures { IfOk result (λ spelled. spelled ≡ items.now) }
    {
        let ty = items.ty();
        let nums = items.nums();
        let Some(room) = nums.len().checked_mul(ty.number_len()) else {
            return Err(AllocError);
        };
        let mut bytes = Vec::with_capacity(alloc, room)?;
        spell_numbers(ty, nums, &mut bytes)?;
        Spelled::new(ty, bytes)
    }

    /// Items of the type whose bytes these are.
    pub fn from_slice(alloc: Global, ty: Ty, bytes: &[u8]) -> Result<Self, AllocError>
        requires { IsTrue (are_whole ty bytes.now) }
        ensures value { IfOk result (λ spelled. spelled ≡ record { ty = ty; nums = numbers_in ty bytes.now }) }
        ensures spelling { IfOk result (λ spelled. flat_map (bytes_of ty) spelled.nums ≡ bytes.now) }
        ensures len { IfOk result (λ spelled. length spelled.nums * number_len ty ≡ length bytes.now) }
        ensures items { IfOk result (λ spelled. AreItems ty spelled.nums) }
    {
        if bytes.len() <= FEW {
            Ok(few(ty, bytes))
        } else {
            shared(ty, Vec::from_slice(alloc, bytes)?)
        }
    }

    // Items of the type whose bytes these are, which it takes over.
    fn new(ty: Ty, bytes: Vec<u8>) -> Result<Self, AllocError>
        requires items { AreItems ty (numbers_in ty bytes.items) }
        requires spelling { flat_map (bytes_of ty) (numbers_in ty bytes.items) ≡ bytes.items }
        ensures { IfOk result (λ spelled. spelled ≡ record { ty = ty; nums = numbers_in ty bytes.items }) }
    {
        if bytes.len() <= FEW {
            Ok(few(ty, &bytes))
        } else {
            shared(ty, bytes)
        }
    }

    /// The type of the items.
    pub fn ty(&self) -> Ty
        ensures { result ≡ self.now.ty }
    {
        match &self.kept {
            KeptBytes::Few(ty, _, _) => *ty,
            KeptBytes::Shared(ty, _) => *ty,
        }
    }

    /// The bytes of the numbers, item by item.
    pub fn bytes(&self) -> &[u8]
        ensures spelled { numbers_in self.now.ty result.now ≡ self.now.nums }
        ensures spelling { result.now ≡ flat_map (bytes_of self.now.ty) self.now.nums }
        ensures len { length result.now ≡ length self.now.nums * number_len self.now.ty }
        ensures most { length self.now.nums ≤ length result.now }
        ensures items { AreItems self.now.ty self.now.nums }
    {
        match &self.kept {
            KeptBytes::Few(_, len, bytes) => &bytes[..*len as usize],
            KeptBytes::Shared(_, bytes) => bytes.as_slice(),
        }
    }

    /// How many items there are.
    pub fn count(&self) -> usize
        ensures value { result ≡ item_count self.now.ty self.now.nums }
        ensures whole { result * item_len self.now.ty ≡ length self.now.nums }
    {
        let ty = self.ty();
        self.bytes().len() / (ty.item_len() * ty.number_len())
    }

    /// The number at this place.
    pub fn number(&self, place: usize) -> i128
        requires { place < length self.now.nums }
        ensures value { result ≡ slice_index_or self.now.nums place (pos 0) }
        ensures in_range { IsInRange self.now.ty result }
    {
        self.number_of(self.ty(), place)
    }

    // The number at this place, of items of this type.
    #[inline(always)]
    pub(crate) fn number_of(&self, ty: Ty, place: usize) -> i128
        requires ty { self.now.ty ≡ ty }
        requires place { place < length self.now.nums }
        ensures value { result ≡ slice_index_or self.now.nums place (pos 0) }
        ensures in_range { IsInRange ty result }
    {
        number_at(ty, self.bytes(), place)
    }

    /// Whether the items are equal in type and numbers.
    pub fn same(&self, other: &Self) -> bool
        ensures { IsTrue result ↔ (self.now ≡ other.now) }
    {
        self.ty() == other.ty() && are_equal(self.bytes(), other.bytes())
    }

    /// A copy, which shares the bytes.
    pub fn copy(&self) -> Result<Self, AllocError>
        ensures { IfOk result (λ copied. copied ≡ self.now) }
    {
        let kept = match &self.kept {
            KeptBytes::Few(ty, len, bytes) => KeptBytes::Few(*ty, *len, *bytes),
            KeptBytes::Shared(ty, bytes) => KeptBytes::Shared(*ty, bytes.slice(..)?),
        };
        Ok(Spelled { kept })
    }
}

// Items of so few bytes.
fn few(ty: Ty, bytes: &[u8]) -> Spelled
    requires items { AreItems ty (numbers_in ty bytes.now) }
    requires spelling { flat_map (bytes_of ty) (numbers_in ty bytes.now) ≡ bytes.now }
    requires few { length bytes.now ≤ 16 }
    ensures { result ≡ record { ty = ty; nums = numbers_in ty bytes.now } }
{
    let mut kept = [0; 16];
    kept[..bytes.len()].copy_from_slice(bytes);
    Spelled {
        kept: KeptBytes::Few(ty, bytes.len() as u8, kept),
    }
}

// Items whose bytes copies share.
fn shared(ty: Ty, bytes: Vec<u8>) -> Result<Spelled, AllocError>
    requires items { AreItems ty (numbers_in ty bytes.items) }
    requires spelling { flat_map (bytes_of ty) (numbers_in ty bytes.items) ≡ bytes.items }
    ensures { IfOk result (λ spelled. spelled ≡ record { ty = ty; nums = numbers_in ty bytes.items }) }
{
    match Bytes::from_vec(bytes) {
        Ok(bytes) => Ok(Spelled {
            kept: KeptBytes::Shared(ty, bytes),
        }),
        Err(_) => Err(AllocError),
    }
}

/// Whether two lists have the same bytes. It looks at all of them, which is faster than a test after each: most are equal.
pub fn are_equal(left: &[u8], right: &[u8]) -> bool
    ensures { Decides result (left.now ≡ right.now) }
{
    if left.len() != right.len() {
        return false;
    }
    let mut equal = true;
    for i in 0..left.len() {
        equal = equal & (left[i] == right[i]);
    }
    equal
}

// Writes numbers of the type at the end.
fn spell_numbers(ty: Ty, nums: &[i128], out: &mut Vec<u8>) -> Result<(), AllocError>
    requires { All (IsInRange ty) nums.now }
    ensures { OnOk result (out.new.items ≡ out.old.items ++ flat_map (bytes_of ty) nums.now) }
{
    for &number in nums {
        spell_number(ty, number, out)?;
    }
    Ok(())
}

// Writes a number of the type at the end.
fn spell_number(ty: Ty, number: i128, out: &mut Vec<u8>) -> Result<(), AllocError>
    requires { IsInRange ty number }
    ensures { OnOk result (out.new.items ≡ out.old.items ++ bytes_of ty number) }
{
    match ty {
        Ty::I8 => out.extend_from_slice(&(number as i8).to_be_bytes()),
        Ty::I16 => out.extend_from_slice(&(number as i16).to_be_bytes()),
        Ty::I32 => out.extend_from_slice(&(number as i32).to_be_bytes()),
        Ty::I64 => out.extend_from_slice(&(number as i64).to_be_bytes()),
        Ty::U8 => out.extend_from_slice(&(number as u8).to_be_bytes()),
        Ty::U16 => out.extend_from_slice(&(number as u16).to_be_bytes()),
        Ty::U32 => out.extend_from_slice(&(number as u32).to_be_bytes()),
        Ty::U64 => out.extend_from_slice(&(number as u64).to_be_bytes()),
        Ty::TwoInt => out.extend_from_slice(&(number as i32).to_be_bytes()),
    }
}

// The number of the type at this place.
#[inline(always)]
fn number_at(ty: Ty, bytes: &[u8], place: usize) -> i128
    requires { (place + 1) * number_len ty ≤ length bytes.now }
    ensures value { result ≡ number_in ty (take (number_len ty) (drop (place * number_len ty) bytes.now)) }
    ensures in_range { IsInRange ty result }
{
    match ty {
        Ty::I8 => i128::from(i8::from_be_bytes(bytes_at(bytes, place))),
        Ty::I16 => i128::from(i16::from_be_bytes(bytes_at(bytes, place))),
        Ty::I32 => i128::from(i32::from_be_bytes(bytes_at(bytes, place))),
        Ty::I64 => i128::from(i64::from_be_bytes(bytes_at(bytes, place))),
        Ty::U8 => i128::from(u8::from_be_bytes(bytes_at(bytes, place))),
        Ty::U16 => i128::from(u16::from_be_bytes(bytes_at(bytes, place))),
        Ty::U32 => i128::from(u32::from_be_bytes(bytes_at(bytes, place))),
        Ty::U64 => i128::from(u64::from_be_bytes(bytes_at(bytes, place))),
        Ty::TwoInt => i128::from(i32::from_be_bytes(bytes_at(bytes, place))),
    }
}

// So many bytes, behind so many times as many.
fn bytes_at<const N: usize>(bytes: &[u8], place: usize) -> [u8; N]
    requires { (place + 1) * N ≤ length bytes.now }
    ensures { result ≡ take N (drop (place * N) bytes.now) }
{
    match bytes[place * N..].split_first_chunk::<N>() {
        None => unreachable!(),
        Some((front, _)) => *front,
    }
}
