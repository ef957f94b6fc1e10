//! What members post, for the tables of the tests, and the rows of their posts.
ghost use Rattle.std.specs.Prelude.{length, IfOk, ◌≡◌};

use mpx_birth::Birth;
use mpx_kind::Kind;
use mpx_num::{Op, Ty};
use mpx_post::{Post, Row};
use std::alloc::Global;
use std::test::Fail;
use test_drafts::{Drafted, GraphDraft, bare, just, kinds};

// What a member posts, or drafts.
#[derive(Clone, Copy)]
pub enum Posted {
    // A call of this kind, and no more.
    Just(Kind),
    // These items of this type to a call of this kind, with this operation.
    Items(Kind, Op, Ty, &'static [i128]),
    // Items of 32 bits in so many blocks that are sent and received, and the root.
    Blocks(Kind, i128, &'static [i128], &'static [i128], &'static [i128]),
    // The colour and the key.
    Split(Option<i128>, i128),
    Create(&'static [i128]),
    // Any edges of a graph, without weights.
    Edges(&'static [(i128, i128, i128)]),
    // The own sources and destinations in a graph, without weights.
    Near(&'static [(i128, i128)], &'static [(i128, i128)]),
}

pub fn drafted(posted: &Posted) -> Drafted<'static> {
    match *posted {
        Posted::Just(kind) => just(kind),
        Posted::Items(kind, op, ty, items) => Drafted {
            op,
            ty,
            items,
            ..just(kind)
        },
        Posted::Blocks(kind, root, scounts, rcounts, items) => Drafted {
            root,
            scounts,
            rcounts,
            items,
            ..just(kind)
        },
        Posted::Split(colour, key) => Drafted {
            colour,
            key,
            ..just(kinds::SPLIT)
        },
        Posted::Create(group) => Drafted {
            group,
            ..just(kinds::CREATE)
        },
        Posted::Edges(edges) => graph(kinds::DIST_GRAPH, edges, &[], &[]),
        Posted::Near(sources, destinations) => graph(
            kinds::DIST_GRAPH_ADJACENT,
            &[],
            sources,
            destinations,
        ),
    }
}

fn graph(
    kind: Kind,
    edges: &'static [(i128, i128, i128)],
    sources: &'static [(i128, i128)],
    destinations: &'static [(i128, i128)],
) -> Drafted<'static> {
    Drafted {
        graph: Some(GraphDraft {
            weighted: false,
            edges,
            sources,
            destinations,
        }),
        ..just(kind)
    }
}

// The posts of these drafts, whatever the communicator.
pub fn posts_of(alloc: Global, list: &[Posted]) -> Result<Vec<Post>, Fail> {
    let mut posts = Vec::new(alloc);
    for posted in list {
        match bare(alloc, &drafted(posted))? {
            Some(post) => posts.push(post)?,
            None => Err("no post")?,
        }
    }
    Ok(posts)
}

// The row of these posts, of which there are as many as members.
pub fn row_of<'a>(alloc: Global, birth: &Birth, posts: &'a [Post]) -> Result<Row<'a>, Fail>
    ensures members { IfOk result (λ row. length row ≡ length birth.now.members) }
{
    let mut row = Vec::new(alloc);
    for post in posts {
        row.push(post)?;
    }
    if row.len() != birth.members().len() {
        Err("another number of posts than of members")?;
    }
    Ok(Row::new(row))
}
