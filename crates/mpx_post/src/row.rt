//! The posts of all members to one call.
ghost use Rattle.std.specs.Prelude.{◌≡◌, ◌<◌, ◌≤◌, Some, map, length, slice_get, true};
ghost use Rattle.mpx_post.specs.Agreement.{IsFine, first_of, post_at};
ghost use Rattle.mpx_kind.specs.Kinds.{fields_of};
ghost use Rattle.mpx_post.specs.Posts.{numbers_of, type_of};

use crate::post::Post;
use mpx_kind::Kind;
use mpx_num::Spelled;
use std::marker::Model;

/// The posts of all members to one call, in rank order, each lent.
#[derive(Drop)]
pub struct Row<'a> {
    posts: Vec<&'a Post>,
}

impl<'a> Model for Row<'a> {
    ghost use Rattle.std.specs.Prelude.{◌<◌, ◌≤◌, map, length};
    ghost use Rattle.mpx_post.specs.Rows.{RowView};

    ghost Value = { RowView };

    ghost view = { λ r. map (λ p. p.now) r.posts.items };

    ghost invariant = { λ r. (0 < length r.posts.items) × (length r.posts.items ≤ 64) };
}

impl<'a> Row<'a> {
    /// The row of these posts, of which there are 1 to 64.
    pub fn new(posts: Vec<&'a Post>) -> Row<'a>
        requires some { 0 < length posts.items }
        requires small { length posts.items ≤ 64 }
        ensures { result ≡ map (λ p. p.now) posts.entry.items }
    {
        Row { posts }
    }

    /// How many members there are, 1 to 64.
    pub fn len(&self) -> usize
        ensures count { result ≡ length self.now }
        ensures some { 0 < result }
        ensures small { result ≤ 64 }
    {
        self.posts.len()
    }

    /// The post of the member with this rank.
    pub fn post(&self, rank: usize) -> &'a Post
        requires { rank < length self.now }
        ensures there { slice_get self.now rank ≡ Some result.now }
        ensures value { result.now ≡ post_at self.now rank }
    {
        self.posts[rank]
    }

    /// The kind that rank 0 posts.
    pub fn kind(&self) -> Kind
        ensures { result ≡ (first_of self.now).kind }
    {
        prove!(0 < self.len());
        self.post(0).kind()
    }

    /// What the member with this rank gives, in a fine row of a kind whose posts have items.
    pub fn given(&self, rank: usize) -> &'a Spelled
        requires fine { IsFine self.now }
        requires items { (fields_of (first_of self.now).kind).items ≡ true }
        requires rank { rank < length self.now }
        ensures { result.now ≡ record { ty = type_of (first_of self.now); nums = numbers_of (post_at self.now rank) } }
    {
        self.post(rank).items().unwrap()
    }
}
