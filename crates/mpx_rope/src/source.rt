//! What the reader of a frame may share.
ghost use Rattle.std.specs.Prelude.{◌≡◌, ◌*◌, IsTrue, IfOk, IfSome, length};
ghost use Rattle.std.specs.List.{flat_map};
ghost use Rattle.mpx_num.specs.ItemList.{AreItems};
ghost use Rattle.mpx_num.specs.Spelling.{are_whole, bytes_of, number_len, numbers_in};

use crate::shared::Shared;
use mpx_num::{Spelled, Ty, are_equal};
use std::alloc::{AllocError, Global};

/// Items of fewer bytes are copied.
pub const FEWEST_SHARED: usize = 64;

/// Where the items of a frame come from: they are shared with the rope that its bytes were written to, where it has them, and made of
/// these bytes otherwise. No contract speaks of what it has, since both are the same items.
#[derive(Clone, Copy, Debug)]
pub struct Source<'a> {
    alloc: Global,
    len: usize,
    pieces: &'a [Shared],
}

impl<'a> Source<'a> {
    /// Shares nothing.
    pub fn of(alloc: Global) -> Source<'static> {
        Source::over(alloc, 0, &[])
    }

    // Shares these pieces of a frame of so many bytes.
    pub(crate) fn over(alloc: Global, len: usize, pieces: &'a [Shared]) -> Source<'a> {
        Source { alloc, len, pieces }
    }

    /// The allocator.
    pub fn alloc(&self) -> Global {
        self.alloc
    }

    /// Items of the type whose bytes these are, where so many bytes of the frame are left from the first of these on. That number is a
    /// hint: it says where shared ones are looked for.
    ///
    /// # Errors
    /// `AllocError` where memory is refused.
    pub fn items(&self, ty: Ty, bytes: &[u8], left: usize) -> Result<Spelled, AllocError>
        requires { IsTrue (are_whole ty bytes.now) }
        ensures value { IfOk result (λ items. items ≡ record { ty = ty; nums = numbers_in ty bytes.now }) }
        ensures spelling { IfOk result (λ items. flat_map (bytes_of ty) items.nums ≡ bytes.now) }
        ensures len { IfOk result (λ items. length items.nums * number_len ty ≡ length bytes.now) }
        ensures items { IfOk result (λ items. AreItems ty items.nums) }
    {
        match self.shared(ty, bytes, left) {
            Some(items) => items.copy(),
            None => Spelled::from_slice(self.alloc, ty, bytes),
        }
    }

    // The shared items of the type that stand there, where these are their bytes.
    fn shared(&self, ty: Ty, bytes: &[u8], left: usize) -> Option<&'a Spelled>
        ensures value { IfSome result (λ items. items.now ≡ record { ty = ty; nums = numbers_in ty bytes.now }) }
        ensures spelling { IfSome result (λ items. flat_map (bytes_of ty) items.now.nums ≡ bytes.now) }
        ensures len { IfSome result (λ items. length items.now.nums * number_len ty ≡ length bytes.now) }
        ensures items { IfSome result (λ items. AreItems ty items.now.nums) }
    {
        if bytes.len() < FEWEST_SHARED {
            return None;
        }
        let start = self.len.checked_sub(left)?;
        let items = piece_at(self.pieces, start)?.items();
        if items.ty() == ty && are_equal(items.bytes(), bytes) {
            Some(items)
        } else {
            None
        }
    }
}

// The piece that starts there, by binary search.
fn piece_at<'a>(pieces: &'a [Shared], start: usize) -> Option<&'a Shared> {
    let mut low = 0;
    let mut high = pieces.len();
    while low < high {
        let middle = low + (high - low) / 2;
        if pieces[middle].start() < start {
            low = middle + 1;
        } else {
            high = middle;
        }
    }
    if low < pieces.len() && pieces[low].start() == start {
        Some(&pieces[low])
    } else {
        None
    }
}
