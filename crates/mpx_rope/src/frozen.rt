//! Ropes that are finished.
ghost use Rattle.std.specs.Prelude.{◌≡◌, IfOk};
ghost use Rattle.mpx_rope.specs.Ropes.{IsRope, woven};

use crate::rope_ref::RopeRef;
use crate::shared::Shared;
use bytes::Bytes;
use std::alloc::{AllocError, Global};
use std::marker::Model;

/// The bytes of a rope that nobody writes any more. Copies share all of them.
#[derive(Debug, Drop)]
pub struct FrozenRope {
    own: Bytes,
    shared: Vec<Shared>,
    carried: usize,
}

impl Model for FrozenRope {
    ghost use Rattle.std.specs.Prelude.{ℕ, List};
    ghost use Rattle.mpx_rope.specs.Ropes.{IsRope, woven};

    ghost Value = { List ℕ };

    ghost view = { λ r. woven 0 r.own r.shared.items };

    ghost invariant = { λ r. IsRope r.own r.shared.items r.carried };
}

impl FrozenRope {
    // These own bytes with these pieces between them, which have so many bytes.
    pub(crate) fn over(own: Bytes, shared: Vec<Shared>, carried: usize) -> FrozenRope
        requires { IsRope own shared.items carried }
        ensures { result ≡ woven 0 own shared.items }
    {
        FrozenRope {
            own,
            shared,
            carried,
        }
    }

    /// A copy, which shares the bytes. It takes memory for a list of the shared items, where there are such.
    ///
    /// # Errors
    /// `AllocError` where memory is refused, or a count of copies is too high.
    pub fn copy(&self) -> Result<FrozenRope, AllocError>
        ensures { IfOk result (λ copied. copied ≡ self.now) }
    {
        Ok(FrozenRope {
            own: self.own.slice(..)?,
            shared: copies(*self.shared.allocator(), &self.shared)?,
            carried: self.carried,
        })
    }

    /// The bytes, lent to who reads them.
    pub fn lent(&self) -> RopeRef<'_>
        ensures { result ≡ self.now }
    {
        RopeRef::over(self.own.as_slice(), &self.shared, self.carried)
    }
}

// Copies of these.
fn copies(alloc: Global, pieces: &[Shared]) -> Result<Vec<Shared>, AllocError>
    ensures { IfOk result (λ made. made.items ≡ pieces.now) }
{
    let mut made = Vec::with_capacity(alloc, pieces.len())?;
    for piece in pieces {
        made.push(piece.copy()?)?;
    }
    Ok(made)
}
