//! What of a rope lies beyond the bytes that are near its reader.
ghost use Rattle.std.specs.Prelude.{◌≡◌, [], ◌+◌, ◌++◌, ◌-◌, ◌≤◌, IfSome, length};
ghost use Rattle.mpx_rope.specs.Ropes.{ArePlaced, item_bytes, near_len, woven};

use crate::shared::Shared;
use crate::source::Source;
use mpx_num::Spelled;
use std::alloc::Global;
use std::marker::Model;

/// What stands behind the own bytes that lie near who reads a rope: shared items, and own bytes between them. None of them is copied to be
/// read. Where items stand among the near bytes, its source has them.
#[derive(Debug, Drop)]
pub struct Beyond<'a> {
    source: Source<'a>,
    own: &'a [u8],
    end: usize,
    shared: &'a [Shared],
}

impl<'a> Model for Beyond<'a> {
    ghost use Rattle.std.specs.Prelude.{ℕ, List, ◌-◌, ◌≤◌, length};
    ghost use Rattle.mpx_rope.specs.Ropes.{ArePlaced, woven};

    ghost Value = { List ℕ };

    ghost view = { λ b. woven (b.end - length b.own.now) b.own.now b.shared.now };

    ghost invariant = { λ b. (length b.own.now ≤ b.end) × ArePlaced (b.end - length b.own.now) b.end b.shared.now };
}

impl<'a> Beyond<'a> {
    /// Nothing, where all bytes lie near.
    pub fn nothing(source: Source<'a>) -> Beyond<'a>
        ensures { result ≡ [] }
    {
        Beyond {
            source,
            own: &[],
            end: 0,
            shared: &[],
        }
    }

    /// The allocator.
    pub fn alloc(&self) -> Global {
        self.source.alloc()
    }

    /// Where items come from that stand among the near bytes.
    pub fn source(&self) -> Source<'a> {
        self.source
    }

    /// Whether shared items are among what lies beyond.
    pub fn has_items(&self) -> bool {
        !self.shared.is_empty()
    }

    /// The shared items that stand first, the own bytes behind them, and what lies beyond these.
    pub fn items(&self) -> Option<(&'a Spelled, &'a [u8], Beyond<'a>)>
        ensures { IfSome result (λ x. self.now ≡ item_bytes x.0.now ++ (x.1.now ++ x.2)) }
    {
        match self.shared {
            [] => None,
            [piece, rest @ ..] => {
                if piece.place() == self.end - self.own.len() {
                    let (near, beyond) = near_and_beyond(self.source, self.own, self.end, rest);
                    Some((piece.items(), near, beyond))
                } else {
                    None
                }
            }
        }
    }
}

// The own bytes before the next piece, and what lies beyond them.
pub(crate) fn near_and_beyond<'a>(
    source: Source<'a>,
    own: &'a [u8],
    end: usize,
    shared: &'a [Shared],
) -> (&'a [u8], Beyond<'a>)
    requires { (length own.now ≤ end) × ArePlaced (end - length own.now) end shared.now }
    ensures { woven (end - length own.now) own.now shared.now ≡ result.0.now ++ result.1 }
{
    let count = near_len(own, end - own.len(), shared);
    let (near, own) = own.split_at(count);
    (
        near,
        Beyond {
            source,
            own,
            end,
            shared,
        },
    )
}

// How many own bytes stand before the next piece, where so many are left out in front.
fn near_len(own: &[u8], from: usize, shared: &[Shared]) -> usize
    requires { ArePlaced from (from + length own.now) shared.now }
    ensures is { result ≡ near_len from own.now shared.now }
    ensures within { result ≤ length own.now }
{
    match shared {
        [] => own.len(),
        [piece, ..] => piece.place() - from,
    }
}
