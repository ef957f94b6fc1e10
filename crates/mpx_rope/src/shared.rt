//! Shared items, with their place among own bytes.
ghost use Rattle.std.specs.Prelude.{◌≡◌, IfOk};
ghost use Rattle.mpx_rope.specs.Ropes.{item_bytes};

use mpx_num::Spelled;
use std::alloc::AllocError;
use std::marker::Model;

/// Shared items, behind so many own bytes. Where their bytes start among all is a hint for who looks for them.
#[derive(Debug, Drop)]
pub(crate) struct Shared {
    place: usize,
    start: usize,
    items: Spelled,
}

impl Model for Shared {
    ghost use Rattle.std.specs.Prelude.{ℕ, List};
    ghost use Rattle.mpx_rope.specs.Ropes.{item_bytes};

    ghost Value = { ℕ × List ℕ };

    ghost view = { λ s. (s.place, item_bytes s.items) };
}

impl Shared {
    /// These items, shared from now on, behind so many own bytes.
    pub(crate) fn new(place: usize, start: usize, items: &Spelled) -> Result<Shared, AllocError>
        ensures { IfOk result (λ shared. shared ≡ (place, item_bytes items.now)) }
    {
        Ok(Shared {
            place,
            start,
            items: items.copy()?,
        })
    }

    /// A copy.
    pub(crate) fn copy(&self) -> Result<Shared, AllocError>
        ensures { IfOk result (λ copied. copied ≡ self.now) }
    {
        Shared::new(self.place, self.start, &self.items)
    }

    /// Behind how many own bytes they stand.
    pub(crate) fn place(&self) -> usize
        ensures { result ≡ self.now.0 }
    {
        self.place
    }

    /// Behind how many bytes they stand, of all: a hint.
    pub(crate) fn start(&self) -> usize {
        self.start
    }

    /// The items.
    pub(crate) fn items(&self) -> &Spelled
        ensures { item_bytes result.now ≡ self.now.1 }
    {
        &self.items
    }

    /// Their bytes.
    pub(crate) fn bytes(&self) -> &[u8]
        ensures { result.now ≡ self.now.1 }
    {
        self.items.bytes()
    }
}
