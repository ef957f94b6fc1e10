//! The drafts of the calls, as the rows of `specs/Lines.antt` say them, with the mode as an argument where a call has both.
ghost use Rattle.std.specs.Prelude.{◌≡◌, Some};
ghost use Rattle.mpx_post.specs.Drafts.{empty_draft};
ghost use Rattle.mpx_comm.specs.Lines as line;

use mpx_kind::{Call, Exchange, Mode, Neighbourhood, NewCommunicator, Reduction};
use mpx_num::{Numbers, Op, Ty};
use mpx_post::{Draft, DraftedEdge, DraftedGraph, DraftedNeighbour};

// Of items, which are sent in blocks of so many, and received so.
fn of_items(call: Call, ty: Ty, scounts: Numbers, rcounts: Numbers, items: Numbers) -> Draft
    ensures { result ≡ record (empty_draft call) { ty = ty; scounts = scounts; rcounts = rcounts; items = items } }
{
    Draft {
        ty,
        scounts,
        rcounts,
        items,
        ..Draft::of(call)
    }
}

// Of items that go from or to a root, in blocks of so many.
fn rooted(
    call: Call,
    root: i128,
    ty: Ty,
    scounts: Numbers,
    rcounts: Numbers,
    items: Numbers,
) -> Draft
    ensures { result ≡ record (empty_draft call) { root = root; ty = ty; scounts = scounts; rcounts = rcounts; items = items } }
{
    let mut draft = of_items(call, ty, scounts, rcounts, items);
    draft.root = root;
    draft
}

// Of items that are combined.
fn combined(call: Call, op: Op, ty: Ty, rcounts: Numbers, items: Numbers) -> Draft
    ensures { result ≡ record (empty_draft call) { op = op; ty = ty; rcounts = rcounts; items = items } }
{
    let mut draft = of_items(call, ty, Numbers::none(), rcounts, items);
    draft.op = op;
    draft
}

// Exchanges.

pub fn barrier(mode: Mode) -> Draft
    ensures { result ≡ line.barrier mode }
{
    Draft::of(Call::Exchange(Exchange::Barrier, mode))
}

pub fn bcast(mode: Mode, root: i128, ty: Ty, count: i128, items: Numbers) -> Draft
    ensures { result ≡ line.bcast mode root ty count items }
{
    let call = Call::Exchange(Exchange::Bcast, mode);
    rooted(call, root, ty, Numbers::none(), Numbers::one(count), items)
}

pub fn gather(mode: Mode, root: i128, ty: Ty, items: Numbers) -> Draft
    ensures { result ≡ line.gather mode root ty items }
{
    let call = Call::Exchange(Exchange::Gather, mode);
    rooted(call, root, ty, Numbers::none(), Numbers::none(), items)
}

pub fn gatherv(mode: Mode, root: i128, ty: Ty, rcounts: Numbers, items: Numbers) -> Draft
    ensures { result ≡ line.gatherv mode root ty rcounts items }
{
    let call = Call::Exchange(Exchange::Gatherv, mode);
    rooted(call, root, ty, Numbers::none(), rcounts, items)
}

pub fn scatter(mode: Mode, root: i128, ty: Ty, count: i128, items: Numbers) -> Draft
    ensures { result ≡ line.scatter mode root ty count items }
{
    let call = Call::Exchange(Exchange::Scatter, mode);
    rooted(call, root, ty, Numbers::none(), Numbers::one(count), items)
}

pub fn scatterv(
    mode: Mode,
    root: i128,
    ty: Ty,
    scounts: Numbers,
    count: i128,
    items: Numbers,
) -> Draft
    ensures { result ≡ line.scatterv mode root ty scounts count items }
{
    let call = Call::Exchange(Exchange::Scatterv, mode);
    rooted(call, root, ty, scounts, Numbers::one(count), items)
}

pub fn allgather(mode: Mode, ty: Ty, items: Numbers) -> Draft
    ensures { result ≡ line.allgather mode ty items }
{
    let call = Call::Exchange(Exchange::Allgather, mode);
    of_items(call, ty, Numbers::none(), Numbers::none(), items)
}

pub fn allgatherv(mode: Mode, ty: Ty, rcounts: Numbers, items: Numbers) -> Draft
    ensures { result ≡ line.allgatherv mode ty rcounts items }
{
    let call = Call::Exchange(Exchange::Allgatherv, mode);
    of_items(call, ty, Numbers::none(), rcounts, items)
}

pub fn alltoall(mode: Mode, ty: Ty, count: i128, items: Numbers) -> Draft
    ensures { result ≡ line.alltoall mode ty count items }
{
    let call = Call::Exchange(Exchange::Alltoall, mode);
    of_items(call, ty, Numbers::none(), Numbers::one(count), items)
}

pub fn alltoallv(mode: Mode, ty: Ty, scounts: Numbers, rcounts: Numbers, items: Numbers) -> Draft
    ensures { result ≡ line.alltoallv mode ty scounts rcounts items }
{
    let call = Call::Exchange(Exchange::Alltoallv, mode);
    of_items(call, ty, scounts, rcounts, items)
}

// Reductions.

pub fn reduce(mode: Mode, root: i128, op: Op, ty: Ty, items: Numbers) -> Draft
    ensures { result ≡ line.reduce mode root op ty items }
{
    let call = Call::Reduction(Reduction::Reduce, mode);
    let mut draft = combined(call, op, ty, Numbers::none(), items);
    draft.root = root;
    draft
}

pub fn allreduce(mode: Mode, op: Op, ty: Ty, items: Numbers) -> Draft
    ensures { result ≡ line.allreduce mode op ty items }
{
    let call = Call::Reduction(Reduction::Allreduce, mode);
    combined(call, op, ty, Numbers::none(), items)
}

pub fn reduce_scatter_block(mode: Mode, op: Op, ty: Ty, count: i128, items: Numbers) -> Draft
    ensures { result ≡ line.reduce_scatter_block mode op ty count items }
{
    let call = Call::Reduction(Reduction::ReduceScatterBlock, mode);
    combined(call, op, ty, Numbers::one(count), items)
}

pub fn reduce_scatter(mode: Mode, op: Op, ty: Ty, rcounts: Numbers, items: Numbers) -> Draft
    ensures { result ≡ line.reduce_scatter mode op ty rcounts items }
{
    let call = Call::Reduction(Reduction::ReduceScatter, mode);
    combined(call, op, ty, rcounts, items)
}

pub fn scan(mode: Mode, op: Op, ty: Ty, items: Numbers) -> Draft
    ensures { result ≡ line.scan mode op ty items }
{
    let call = Call::Reduction(Reduction::Scan, mode);
    combined(call, op, ty, Numbers::none(), items)
}

pub fn exscan(mode: Mode, op: Op, ty: Ty, items: Numbers) -> Draft
    ensures { result ≡ line.exscan mode op ty items }
{
    let call = Call::Reduction(Reduction::Exscan, mode);
    combined(call, op, ty, Numbers::none(), items)
}

// Along the edges of a graph.

pub fn neighbor_allgather(mode: Mode, ty: Ty, count: i128, items: Numbers) -> Draft
    ensures { result ≡ line.neighbor_allgather mode ty count items }
{
    let call = Call::Neighbourhood(Neighbourhood::Allgather, mode);
    of_items(call, ty, Numbers::none(), Numbers::one(count), items)
}

pub fn neighbor_allgatherv(mode: Mode, ty: Ty, rcounts: Numbers, items: Numbers) -> Draft
    ensures { result ≡ line.neighbor_allgatherv mode ty rcounts items }
{
    let call = Call::Neighbourhood(Neighbourhood::Allgatherv, mode);
    of_items(call, ty, Numbers::none(), rcounts, items)
}

pub fn neighbor_alltoall(mode: Mode, ty: Ty, scount: i128, rcount: i128, items: Numbers) -> Draft
    ensures { result ≡ line.neighbor_alltoall mode ty scount rcount items }
{
    let call = Call::Neighbourhood(Neighbourhood::Alltoall, mode);
    of_items(call, ty, Numbers::one(scount), Numbers::one(rcount), items)
}

pub fn neighbor_alltoallv(
    mode: Mode,
    ty: Ty,
    scounts: Numbers,
    rcounts: Numbers,
    items: Numbers,
) -> Draft
    ensures { result ≡ line.neighbor_alltoallv mode ty scounts rcounts items }
{
    let call = Call::Neighbourhood(Neighbourhood::Alltoallv, mode);
    of_items(call, ty, scounts, rcounts, items)
}

// New communicators.

pub fn dup() -> Draft
    ensures { result ≡ line.dup }
{
    Draft::of(Call::NewCommunicator(NewCommunicator::Dup))
}

pub fn split(colour: Option<i128>, key: i128) -> Draft
    ensures { result ≡ line.split colour key }
{
    let mut draft = Draft::of(Call::NewCommunicator(NewCommunicator::Split));
    draft.colour = colour;
    draft.key = key;
    draft
}

pub fn create(ranks: Numbers) -> Draft
    ensures { result ≡ line.create ranks }
{
    let mut draft = Draft::of(Call::NewCommunicator(NewCommunicator::Create));
    draft.group = ranks;
    draft
}

pub fn create_group() -> Draft
    ensures { result ≡ line.create_group }
{
    Draft::of(Call::NewCommunicator(NewCommunicator::CreateGroup))
}

// Of a new communicator with a graph.
pub fn of_graph(
    new: NewCommunicator,
    weighted: bool,
    edges: Vec<DraftedEdge>,
    sources: Vec<DraftedNeighbour>,
    destinations: Vec<DraftedNeighbour>,
) -> Draft
    ensures { result ≡ line.of_graph new (record { weighted = weighted; edges = edges.items; sources = sources.items; destinations = destinations.items }) }
{
    let graph = DraftedGraph::new(weighted, edges, sources, destinations);
    let mut draft = Draft::of(Call::NewCommunicator(new));
    draft.graph = Some(graph);
    draft
}

// The end of a communicator.

pub fn free() -> Draft
    ensures { result ≡ line.free }
{
    Draft::of(Call::Free)
}
