//! Whether a post fits its communicator.
ghost use Rattle.std.specs.Prelude.{◌≡◌, ◌≤◌, ◌*◌, ◌==◌, ◌&&◌, nat_lt, length};
ghost use Rattle.std.specs.List.{list_all};
ghost use Rattle.mpx_num.specs.Types.{item_len};
ghost use Rattle.mpx_kind.specs.Kinds.{fields_of};
ghost use Rattle.mpx_post.specs.Posts.{fits_root, fits_type, numbers_of, suits, type_of};
ghost use Rattle.mpx_post.specs.Agreement.{blocks_of, fill, fits_counts, fits_edges, fits_group, is_fit, is_root, seat_of};
ghost use Rattle.mpx_post.specs.Seats.{lacks_topology};
ghost use Rattle.mpx_birth.specs.Topologies.{most_neighbours};

use mpx_birth::{Birth, Edge, Neighbour};
use mpx_kind::{Kind, Seat, Sent};
use mpx_num::{Listing, Ops, Ty, may_stand, op_fits};
use mpx_post::Post;

/// Whether a post fits a communicator that came to be so and has so many members, as the post of this rank.
pub(crate) fn fits(birth: &Birth, size: usize, rank: u8, post: &Post) -> bool
    requires { size ≤ 64 }
    ensures { result ≡ is_fit birth.now.topology size rank post.now }
{
    fits_root(size, post)
        && fits_type(post)
        && fits_counts(&seat(birth, size, rank, post), post)
        && fits_group(size, post)
        && fits_edges(size, post)
        && !lacks_topology(birth, post.kind())
}

// What the numbers of its counts depend on.
fn seat(birth: &Birth, size: usize, rank: u8, post: &Post) -> Seat
    requires { size ≤ 64 }
    ensures value { result ≡ seat_of birth.now.topology size rank post.now }
    ensures size { result.size ≤ 64 }
    ensures sources { result.indegree ≤ most_neighbours }
    ensures destinations { result.outdegree ≤ most_neighbours }
{
    Seat {
        size,
        at_root: is_root(rank, post),
        indegree: birth.indegree(rank),
        outdegree: birth.outdegree(rank),
    }
}

// Whether its calls go along edges, and the communicator has none.
fn lacks_topology(birth: &Birth, kind: Kind) -> bool
    ensures { result ≡ lacks_topology birth.now.topology kind }
{
    kind.needs_topology() & birth.topology().is_none()
}

// As many counts and items are given as the kind asks for.
fn fits_counts(seat: &Seat, post: &Post) -> bool
    requires size { seat.now.size ≤ 64 }
    requires sources { seat.now.indegree ≤ most_neighbours }
    requires destinations { seat.now.outdegree ≤ most_neighbours }
    ensures { result ≡ fits_counts seat.now post.now }
{
    let fields = post.kind().fields();
    post.scounts().as_slice().len() == fields.scounts.of(seat)
        && post.rcounts().as_slice().len() == fields.rcounts.of(seat)
        && are_filled(seat, fields.sent, post)
}

fn is_root(rank: u8, post: &Post) -> bool
    ensures { result ≡ is_root rank post.now }
{
    match post.root() {
        None => false,
        Some(root) => root == rank,
    }
}

fn fits_root(size: usize, post: &Post) -> bool
    ensures { result ≡ fits_root size post.now }
{
    match post.root() {
        None => true,
        Some(root) => usize::from(root) < size,
    }
}

fn fits_type(post: &Post) -> bool
    ensures { result ≡ fits_type post.now }
{
    match post.op() {
        None => true,
        Some(op) => may_stand(op, type_of(post)),
    }
}

/// Whether the post's operation is for its type.
pub(crate) fn suits(post: &Post, ops: &Ops) -> bool
    ensures { result ≡ suits (⟦<Ops as Listing>⟧.operations ops.now) post.now }
{
    match post.op() {
        None => true,
        Some(op) => op_fits(op, type_of(post), ops),
    }
}

fn type_of(post: &Post) -> Ty
    ensures { result ≡ type_of post.now }
{
    match post.items() {
        None => Ty::I8,
        Some(items) => items.ty(),
    }
}

// As many items are given as the blocks have, into which the kind's items are cut so.
fn are_filled(seat: &Seat, sent: Sent, post: &Post) -> bool
    requires sent { sent ≡ (fields_of post.now.kind).sent }
    requires size { seat.now.size ≤ 64 }
    requires sources { seat.now.indegree ≤ most_neighbours }
    requires destinations { seat.now.outdegree ≤ most_neighbours }
    ensures { result ≡ fill (blocks_of seat.now post.now) post.now }
{
    match sent {
        Sent::Any => true,
        Sent::Scounts(number) => gives(post, number.of(seat) * post.scounts().sum()),
        Sent::Rcounts(number) => gives(post, number.of(seat) * post.rcounts().sum()),
    }
}

// So many items are given.
fn gives(post: &Post, count: usize) -> bool
    ensures { result ≡ (count * item_len (type_of post.now) == length (numbers_of post.now)) }
{
    match post.items() {
        None => count == 0,
        Some(items) => count == items.count(),
    }
}

// The ranks of the group are of so many. None of them stands twice, by the type of a post.
fn fits_group(size: usize, post: &Post) -> bool
    ensures { result ≡ fits_group size post.now }
{
    are_below(size, post.group())
}

fn are_below(size: usize, ranks: &[u8]) -> bool
    ensures { result ≡ list_all (λ r. nat_lt r size) ranks.now }
{
    ranks.iter().all(|&rank| usize::from(rank) < size)
}

// The ends of edges are ranks of so many.
fn fits_edges(size: usize, post: &Post) -> bool
    ensures { result ≡ fits_edges size post.now }
{
    are_within(size, post.edges())
        && are_near(size, post.sources())
        && are_near(size, post.destinations())
}

fn are_within(size: usize, edges: &[Edge]) -> bool
    ensures { result ≡ list_all (λ e. nat_lt e.source size && nat_lt e.destination size) edges.now }
{
    edges.iter().all(|edge| {
        usize::from(edge.source) < size && usize::from(edge.destination) < size
    })
}

fn are_near(size: usize, neighbours: &[Neighbour]) -> bool
    ensures { result ≡ list_all (λ n. nat_lt n.rank size) neighbours.now }
{
    neighbours
        .iter()
        .all(|neighbour| usize::from(neighbour.rank) < size)
}
