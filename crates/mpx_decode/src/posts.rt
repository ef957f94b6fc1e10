//! Reading posts, each by the fields of its kind.
ghost use Rattle.std.specs.Prelude.{◌≡◌, ◌++◌, ◌≤◌, ℕ, IfOk, List, Ok, length, true};
ghost use Rattle.mpx_post.specs.Posts.{Given, IsMaking};
ghost use Rattle.mpx_format.specs.Format.{Gives};
ghost use Rattle.mpx_format.specs.Posts.{making_for, post};
ghost use Rattle.mpx_decode.specs.Near.{GivesNear};

use crate::codes::{read_kind, read_mode, read_op, read_root, read_type};
use crate::counts::{read_counts, read_items_for};
use crate::entries::WireValue;
use crate::making::read_making;
use mpx_format::{ReadError, Version};
use mpx_kind::Makes;
use mpx_post::{Making, Post};
use mpx_rope::{Beyond, Source};
use std::alloc::Global;

impl WireValue for Post {
    ghost Seen = { Given };

    ghost seen = { λ p. p };

    ghost format = { post };

    ghost says = { λ v. true };

    fn says_something(&self) -> bool {
        true
    }

    fn read<'a>(
        version: Version,
        source: Source<'a>,
        bytes: &'a [u8],
    ) -> Result<(Post, &'a [u8]), ReadError> {
        read_post(version, &mut Beyond::nothing(source), bytes)
    }
}

// What a post of such a kind says of a new communicator, which stands there whatever follows.
fn read_made(makes: Makes, alloc: Global, bytes: &[u8]) -> Result<(Making, &[u8]), ReadError>
    ensures read { Gives (λ x. (x.0, x.1.now)) result ((making_for makes).read bytes.now) }
    ensures is { IfOk result (λ x. IsMaking makes x.0) }
    ensures whole { IfOk result (λ x. (more : List ℕ) → (making_for makes).read (bytes.now ++ more) ≡ Ok (x.0, x.1.now ++ more)) }
{
    read_making(makes, alloc, bytes)
}

// The post at the front, whose items may lie beyond, and the bytes after it.
#[tactic(auto, unfolding(mpx_format::specs::Posts::post))]
pub fn read_post<'a>(
    version: Version,
    beyond: &mut Beyond<'a>,
    bytes: &'a [u8],
) -> Result<(Post, &'a [u8]), ReadError>
    ensures read { GivesNear beyond.old (λ x. (x.0, x.1.now ++ beyond.new)) result ((post version).read (bytes.now ++ beyond.old)) }
    ensures less { length beyond.new ≤ length beyond.old }
{
    let (kind, b1) = read_kind(version, bytes)?;
    let (mode, b2) = read_mode(kind, b1)?;
    let fields = kind.fields();
    let sent = fields.scounts.is_had();
    let got = fields.rcounts.is_had();
    let (root, b3) = read_root(fields.root, b2)?;
    let (op, b4) = read_op(version, fields.op, b3)?;
    let (ty, b5) = read_type(fields.items, op, b4)?;
    let (scounts, b6) = read_counts(sent, beyond.alloc(), b5)?;
    let (rcounts, b7) = read_counts(got, beyond.alloc(), b6)?;
    let (items, b8) = read_items_for(ty, beyond, b7)?;
    let (making, rest) = read_made(fields.makes, beyond.alloc(), b8)?;
    let post = Post::new(kind, mode, root, op, scounts, rcounts, items, making);
    Ok((post, rest))
}
