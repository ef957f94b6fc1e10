//! The bytes of a rope, lent.
ghost use Rattle.std.specs.Prelude.{◌≡◌, ◌≤◌, ◌++◌, IfNone, IfOk, IfSome, OnOk, length, slice_range};
ghost use Rattle.mpx_rope.specs.Ropes.{ArePlaced, IsRope, woven};

use crate::beyond::{Beyond, near_and_beyond};
use crate::shared::Shared;
use crate::source::Source;
use std::alloc::{AllocError, Global};
use std::marker::Model;

/// The bytes of a rope, lent to who reads them: own ones, and the shared pieces between them.
#[derive(Debug, Drop)]
pub struct RopeRef<'a> {
    own: &'a [u8],
    shared: &'a [Shared],
    carried: usize,
}

impl<'a> Model for RopeRef<'a> {
    ghost use Rattle.std.specs.Prelude.{ℕ, List};
    ghost use Rattle.mpx_rope.specs.Ropes.{IsRope, woven};

    ghost Value = { List ℕ };

    ghost view = { λ r. woven 0 r.own.now r.shared.now };

    ghost invariant = { λ r. IsRope r.own.now r.shared.now r.carried };
}

impl<'a> RopeRef<'a> {
    // These own bytes with these pieces between them, which have so many bytes.
    pub(crate) fn over(own: &'a [u8], shared: &'a [Shared], carried: usize) -> RopeRef<'a>
        requires { IsRope own.now shared.now carried }
        ensures { result ≡ woven 0 own.now shared.now }
    {
        RopeRef {
            own,
            shared,
            carried,
        }
    }

    /// How many bytes there are.
    pub fn len(&self) -> usize
        ensures { result ≡ length self.now }
    {
        self.own.len() + self.carried
    }

    /// All bytes where they lie, if they lie in one place: those of a rope that shares no items.
    pub fn in_one_place(&self) -> Option<&'a [u8]>
        ensures some { IfSome result (λ bytes. bytes.now ≡ self.now) }
        ensures none { IfNone result (64 ≤ length self.now) }
    {
        if self.carried == 0 {
            Some(self.own)
        } else {
            None
        }
    }

    /// A copy of all bytes, in one place.
    pub fn joined(&self, alloc: Global) -> Result<Vec<u8>, AllocError>
        ensures { IfOk result (λ bytes. bytes.items ≡ self.now) }
    {
        let mut bytes = Vec::with_capacity(alloc, self.len())?;
        write_woven(self.own, self.shared, &mut bytes)?;
        Ok(bytes)
    }

    /// The bytes before the first shared items, where they lie, and what lies beyond them.
    pub fn apart(&self, alloc: Global) -> (&'a [u8], Beyond<'a>)
        ensures { self.now ≡ result.0.now ++ result.1 }
    {
        near_and_beyond(self.source(alloc), self.own, self.own.len(), self.shared)
    }

    /// What a reader of all bytes may share.
    pub fn source(&self, alloc: Global) -> Source<'a> {
        Source::over(alloc, self.len(), self.shared)
    }
}

// Writes own bytes at the end, with the shared ones put in.
fn write_woven(own: &[u8], pieces: &[Shared], bytes: &mut Vec<u8>) -> Result<(), AllocError>
    requires { ArePlaced 0 (length own.now) pieces.now }
    ensures { OnOk result (bytes.new.items ≡ bytes.old.items ++ woven 0 own.now pieces.now) }
{
    let mut from: usize = 0;
    for piece in pieces {
        from = write_piece(own, from, piece, bytes)?;
    }
    bytes.extend_from_slice(&own[from..])
}

// Writes the own bytes from a place on to that of the shared ones, and then these. Tells the place.
fn write_piece(
    own: &[u8],
    from: usize,
    piece: &Shared,
    bytes: &mut Vec<u8>,
) -> Result<usize, AllocError>
    requires from { from ≤ piece.now.0 }
    requires place { piece.now.0 ≤ length own.now }
    ensures bytes { OnOk result (bytes.new.items ≡ bytes.old.items ++ slice_range own.now from piece.now.0 ++ piece.now.1) }
    ensures place { IfOk result (λ place. place ≡ piece.now.0) }
{
    let place = piece.place();
    bytes.extend_from_slice(&own[from..place])?;
    bytes.extend_from_slice(piece.bytes())?;
    Ok(place)
}
