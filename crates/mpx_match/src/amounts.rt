//! Whether the amounts of a row fit together.
ghost use Rattle.std.specs.Prelude.{◌≡◌, ◌<◌, Some, length};
ghost use Rattle.mpx_post.specs.Posts.{count_of, root_of};
ghost use Rattle.mpx_post.specs.Agreement.{asked_of, asked_of_exchange, asked_of_reduction, asked_on_edges, awaited_on, count_at, post_at, sent_on};
ghost use Rattle.mpx_match.specs.Questions.{is_missed};

use mpx_birth::{Birth, EdgePass, Topology};
use mpx_kind::{Exchange, Kind, Neighbourhood, Reduction};
use mpx_post::{Counts, Post, Row};

/// Whether the amounts of the post of this rank differ from what the kind asks of them.
pub(crate) fn amounts_differ(birth: &Birth, row: &Row<'_>, kind: Kind, rank: usize) -> bool
    requires { rank < length row.now }
    ensures { result ≡ is_missed (asked_of birth.now.topology kind row.now rank (post_at row.now rank)) }
{
    match kind {
        Kind::Exchange(exchange) => exchange_differs(row, exchange, rank),
        Kind::Reduction(reduction) => reduction_differs(row, reduction, rank),
        Kind::Neighbourhood(exchange) => along_edges(birth, row, exchange, rank),
        Kind::NewCommunicator(_) | Kind::Free => false,
    }
}

fn exchange_differs(row: &Row<'_>, exchange: Exchange, rank: usize) -> bool
    requires { rank < length row.now }
    ensures { result ≡ is_missed (asked_of_exchange exchange row.now rank (post_at row.now rank)) }
{
    let root = root_of(row.post(0));
    match exchange {
        Exchange::Barrier => false,
        Exchange::Bcast | Exchange::Alltoall => received(row, rank, 0) != received(row, 0, 0),
        Exchange::Gather => given(row, rank) != given(row, root),
        Exchange::Gatherv => given(row, rank) != received(row, root, rank),
        Exchange::Scatter => received(row, rank, 0) != received(row, root, 0),
        Exchange::Scatterv => received(row, rank, 0) != sent(row, root, rank),
        Exchange::Allgather => given(row, rank) != given(row, 0),
        Exchange::Allgatherv => allgatherv_differs(row, rank),
        Exchange::Alltoallv => alltoallv_differs(row, rank),
    }
}

fn reduction_differs(row: &Row<'_>, reduction: Reduction, rank: usize) -> bool
    requires { rank < length row.now }
    ensures { result ≡ is_missed (asked_of_reduction reduction row.now (post_at row.now rank)) }
{
    match reduction {
        Reduction::ReduceScatterBlock => received(row, rank, 0) != received(row, 0, 0),
        Reduction::ReduceScatter => {
            row.post(rank).rcounts().as_slice() != row.post(0).rcounts().as_slice()
        }
        Reduction::Reduce | Reduction::Allreduce | Reduction::Scan | Reduction::Exscan => {
            given(row, rank) != given(row, 0)
        }
    }
}

// Whether on some edge from this rank another number of items is awaited than sent.
fn along_edges(birth: &Birth, row: &Row<'_>, exchange: Neighbourhood, rank: usize) -> bool
    requires { rank < length row.now }
    ensures { result ≡ is_missed (asked_on_edges exchange birth.now.topology row.now rank (post_at row.now rank)) }
{
    match birth.topology() {
        None => false,
        Some(topology) => {
            prove!(row.len() <= 64);
            along_each(topology, row, exchange, rank as u8)
        }
    }
}

fn along_each(topology: &Topology, row: &Row<'_>, exchange: Neighbourhood, rank: u8) -> bool
    requires { rank < length row.now }
    ensures { result ≡ is_missed (asked_on_edges exchange (Some topology.now) row.now rank (post_at row.now rank)) }
{
    prove!(topology.size() <= 64);
    let destinations = topology.destinations(rank);
    let mut pass = EdgePass::new();
    for place in 0..destinations.len() {
        let other = destinations[place].rank;
        let taken = pass.meet(rank, other, topology.sources(other));
        let sent = sent_on(row, exchange, usize::from(rank), place);
        if sent != awaited_on(row, exchange, usize::from(other), taken) {
            return true;
        }
    }
    false
}

// How many items this rank sends on the edge at this place among its destinations.
fn sent_on(row: &Row<'_>, exchange: Neighbourhood, rank: usize, place: usize) -> usize
    ensures { result ≡ sent_on exchange (post_at row.now rank) place }
{
    match exchange {
        Neighbourhood::Allgather | Neighbourhood::Allgatherv => given(row, rank),
        Neighbourhood::Alltoall => sent(row, rank, 0),
        Neighbourhood::Alltoallv => sent(row, rank, place),
    }
}

// How many items this rank awaits on the edge at this place among its sources.
fn awaited_on(row: &Row<'_>, exchange: Neighbourhood, rank: usize, place: usize) -> usize
    ensures { result ≡ awaited_on exchange (post_at row.now rank) place }
{
    match exchange {
        Neighbourhood::Allgather | Neighbourhood::Alltoall => received(row, rank, 0),
        Neighbourhood::Allgatherv | Neighbourhood::Alltoallv => received(row, rank, place),
    }
}

// Whether some receiver awaits another number of items of this rank than it gives.
fn allgatherv_differs(row: &Row<'_>, rank: usize) -> bool
    ensures { result ≡ is_missed (asked_of_exchange Exchange.Allgatherv row.now rank (post_at row.now rank)) }
{
    for receiver in 0..row.len() {
        if given(row, rank) != received(row, receiver, rank) {
            return true;
        }
    }
    false
}

// Whether some receiver awaits another number of items of this rank than it sends it.
fn alltoallv_differs(row: &Row<'_>, rank: usize) -> bool
    ensures { result ≡ is_missed (asked_of_exchange Exchange.Alltoallv row.now rank (post_at row.now rank)) }
{
    for receiver in 0..row.len() {
        if sent(row, rank, receiver) != received(row, receiver, rank) {
            return true;
        }
    }
    false
}

fn root_of(post: &Post) -> usize
    ensures { result ≡ root_of post.now }
{
    match post.root() {
        None => 0,
        Some(root) => usize::from(root),
    }
}

// How many items the post of this rank gives.
fn given(row: &Row<'_>, rank: usize) -> usize
    ensures { result ≡ count_of (post_at row.now rank) }
{
    if rank < row.len() {
        row.post(rank).count()
    } else {
        0
    }
}

// The send count of this rank's post at a place.
fn sent(row: &Row<'_>, rank: usize, place: usize) -> usize
    ensures { result ≡ count_at (post_at row.now rank).scounts place }
{
    if rank < row.len() {
        count_at(row.post(rank).scounts(), place)
    } else {
        0
    }
}

// The receive count of this rank's post at a place.
fn received(row: &Row<'_>, rank: usize, place: usize) -> usize
    ensures { result ≡ count_at (post_at row.now rank).rcounts place }
{
    if rank < row.len() {
        count_at(row.post(rank).rcounts(), place)
    } else {
        0
    }
}

fn count_at(counts: &Counts, place: usize) -> usize
    ensures { result ≡ count_at counts.now place }
{
    match counts.as_slice().get(place) {
        None => 0,
        Some(&count) => usize::from(count),
    }
}
