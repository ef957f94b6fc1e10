//! Ropes while they are written.
ghost use Rattle.std.specs.Prelude.{◌≡◌, ◌≤◌, ◌++◌, ◌∷◌, [], IfNone, IfOk, IfSome, OnErr, OnOk, length};
ghost use Rattle.mpx_rope.specs.Ropes.{item_bytes};

use crate::frozen::FrozenRope;
use crate::rope_ref::RopeRef;
use crate::shared::Shared;
use crate::source::FEWEST_SHARED;
use bytes::Bytes;
use mpx_num::Spelled;
use std::alloc::{AllocError, Global};
use std::marker::Model;

// Fewer bytes than these are shared.
const MOST_SHARED: usize = 4_611_686_018_427_387_904;

/// Bytes that are written, of which a part is shared.
#[derive(Debug, Drop)]
pub struct Rope {
    own: Vec<u8>,
    shared: Vec<Shared>,
    carried: usize,
}

impl Model for Rope {
    ghost use Rattle.std.specs.Prelude.{ℕ, List};
    ghost use Rattle.mpx_rope.specs.Ropes.{IsRope, woven};

    ghost Value = { List ℕ };

    ghost view = { λ r. woven 0 r.own.items r.shared.items };

    ghost invariant = { λ r. IsRope r.own.items r.shared.items r.carried };
}

impl Rope {
    /// No bytes. It takes no memory.
    pub fn new(alloc: Global) -> Rope
        ensures { result ≡ [] }
    {
        Rope {
            own: Vec::new(alloc),
            shared: Vec::new(alloc),
            carried: 0,
        }
    }

    /// These bytes, which it takes over.
    pub fn from_vec(alloc: Global, bytes: Vec<u8>) -> Rope
        ensures { result ≡ bytes.items }
    {
        Rope {
            own: bytes,
            shared: Vec::new(alloc),
            carried: 0,
        }
    }

    /// Lets its bytes go, and keeps its room.
    pub fn clear(&mut self)
        ensures { self.new ≡ [] }
    {
        self.own.clear();
        self.shared.clear();
        self.carried = 0;
    }

    /// Has room for so many bytes of its own more.
    pub fn reserve(&mut self, count: usize) -> Result<(), AllocError>
        ensures { self.new ≡ self.old }
    {
        self.own.reserve(count)
    }

    /// How many bytes there are.
    pub fn len(&self) -> usize
        ensures { result ≡ length self.now }
    {
        self.lent().len()
    }

    /// Appends a byte.
    pub fn push(&mut self, byte: u8) -> Result<(), AllocError>
        ensures ok { OnOk result (self.new ≡ self.old ++ byte ∷ []) }
        ensures err { OnErr result (self.new ≡ self.old) }
    {
        push_byte(&mut self.own, byte)
    }

    /// Appends a copy of these bytes.
    pub fn extend_from_slice(&mut self, bytes: &[u8]) -> Result<(), AllocError>
        ensures ok { OnOk result (self.new ≡ self.old ++ bytes.now) }
        ensures err { OnErr result (self.new ≡ self.old) }
    {
        append(&mut self.own, bytes)
    }

    /// Appends the bytes of these items, which are shared, if they aren't few.
    pub fn push_items(&mut self, items: &Spelled) -> Result<(), AllocError>
        ensures ok { OnOk result (self.new ≡ self.old ++ item_bytes items.now) }
        ensures err { OnErr result (self.new ≡ self.old) }
    {
        let bytes = items.bytes();
        if bytes.len() < FEWEST_SHARED {
            self.extend_from_slice(bytes)
        } else {
            self.share(items)
        }
    }

    // Appends the bytes of these items, which are shared.
    fn share(&mut self, items: &Spelled) -> Result<(), AllocError>
        requires { 64 ≤ length (item_bytes items.now) }
        ensures ok { OnOk result (self.new ≡ self.old ++ item_bytes items.now) }
        ensures err { OnErr result (self.new ≡ self.old) }
    {
        let count = items.bytes().len();
        if MOST_SHARED - self.carried <= count {
            return Err(AllocError);
        }
        let place = self.own.len();
        push_piece(&mut self.shared, place, place + self.carried, items)?;
        self.carried += count;
        Ok(())
    }

    /// All its bytes where they lie, if they lie in one place: those of a rope that shares no items.
    pub fn in_one_place(&self) -> Option<&[u8]>
        ensures some { IfSome result (λ bytes. bytes.now ≡ self.now) }
        ensures none { IfNone result (64 ≤ length self.now) }
    {
        self.lent().in_one_place()
    }

    /// The bytes, lent to who reads them.
    pub fn lent(&self) -> RopeRef<'_>
        ensures { result ≡ self.now }
    {
        RopeRef::over(self.own.as_slice(), &self.shared, self.carried)
    }

    /// The bytes, which nobody writes any more. Where it has bytes of its own, it takes memory to count who shares them.
    ///
    /// # Errors
    /// `AllocError` where memory is refused; the rope is let go then.
    pub fn freeze(self) -> Result<FrozenRope, AllocError>
        ensures { IfOk result (λ frozen. frozen ≡ self) }
    {
        let Rope {
            own,
            shared,
            carried,
        } = self;
        Ok(FrozenRope::over(Bytes::from_vec(own)?, shared, carried))
    }
}

fn push_byte(own: &mut Vec<u8>, byte: u8) -> Result<(), AllocError>
    ensures ok { OnOk result (own.new.items ≡ own.old.items ++ byte ∷ []) }
    ensures err { OnErr result (own.new.items ≡ own.old.items) }
{
    match own.push(byte) {
        Ok(()) => Ok(()),
        Err(_) => Err(AllocError),
    }
}

fn append(own: &mut Vec<u8>, bytes: &[u8]) -> Result<(), AllocError>
    ensures ok { OnOk result (own.new.items ≡ own.old.items ++ bytes.now) }
    ensures err { OnErr result (own.new.items ≡ own.old.items) }
{
    own.extend_from_slice(bytes)
}

// Appends these items, which are shared, behind so many own bytes.
fn push_piece(
    pieces: &mut Vec<Shared>,
    place: usize,
    start: usize,
    items: &Spelled,
) -> Result<(), AllocError>
    ensures ok { OnOk result (pieces.new.items ≡ pieces.old.items ++ (place, item_bytes items.now) ∷ []) }
    ensures err { OnErr result (pieces.new.items ≡ pieces.old.items) }
{
    let piece = Shared::new(place, start, items)?;
    match pieces.push(piece) {
        Ok(()) => Ok(()),
        Err(_) => Err(AllocError),
    }
}
