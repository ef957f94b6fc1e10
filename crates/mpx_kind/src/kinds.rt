//! The kinds of calls, their modes, and what their posts may have.
ghost use Rattle.std.specs.Prelude.{◌≡◌};
ghost use Rattle.mpx_kind.specs.Kinds.{blocking, is_had, kind_of, mode_of, number_in};

/// The kinds of calls (MPI 4.1 sections 6.3 to 6.12, 7.4, 8.5 and 8.6), by the way in which their values are found.
#[derive(Clone, Copy, Debug, PartialEq, Eq)]
pub enum Kind {
    Exchange(Exchange),
    Reduction(Reduction),
    NewCommunicator(NewCommunicator),
    Neighbourhood(Neighbourhood),
    /// `MPI_COMM_FREE` (section 7.4.3), the one kind that frees a communicator.
    Free,
}

/// The kinds that move items as they are (MPI 4.1 sections 6.3 to 6.8).
#[derive(Clone, Copy, Debug, PartialEq, Eq)]
pub enum Exchange {
    /// `MPI_BARRIER` (section 6.3).
    Barrier,
    /// `MPI_BCAST` (section 6.4).
    Bcast,
    /// `MPI_GATHER` (section 6.5).
    Gather,
    /// `MPI_GATHERV` (section 6.5).
    Gatherv,
    /// `MPI_SCATTER` (section 6.6).
    Scatter,
    /// `MPI_SCATTERV` (section 6.6).
    Scatterv,
    /// `MPI_ALLGATHER` (section 6.7).
    Allgather,
    /// `MPI_ALLGATHERV` (section 6.7).
    Allgatherv,
    /// `MPI_ALLTOALL` (section 6.8).
    Alltoall,
    /// `MPI_ALLTOALLV` (section 6.8).
    Alltoallv,
}

/// The kinds that combine items (MPI 4.1 sections 6.9 to 6.11).
#[derive(Clone, Copy, Debug, PartialEq, Eq)]
pub enum Reduction {
    /// `MPI_REDUCE` (section 6.9.1).
    Reduce,
    /// `MPI_ALLREDUCE` (section 6.9.6).
    Allreduce,
    /// `MPI_REDUCE_SCATTER_BLOCK` (section 6.10.1).
    ReduceScatterBlock,
    /// `MPI_REDUCE_SCATTER` (section 6.10.2).
    ReduceScatter,
    /// `MPI_SCAN` (section 6.11.1).
    Scan,
    /// `MPI_EXSCAN` (section 6.11.2).
    Exscan,
}

/// The kinds that make communicators (MPI 4.1 sections 7.4.2 and 8.5.4).
#[derive(Clone, Copy, Debug, PartialEq, Eq)]
pub enum NewCommunicator {
    /// `MPI_COMM_DUP` (section 7.4.2).
    Dup,
    /// `MPI_COMM_SPLIT` (section 7.4.2).
    Split,
    /// `MPI_COMM_CREATE` (section 7.4.2).
    Create,
    /// `MPI_COMM_CREATE_GROUP` (section 7.4.2).
    CreateGroup,
    /// `MPI_DIST_GRAPH_CREATE` (section 8.5.4).
    DistGraph,
    /// `MPI_DIST_GRAPH_CREATE_ADJACENT` (section 8.5.4).
    DistGraphAdjacent,
}

/// The kinds that move items along the edges of a topology (MPI 4.1 section 8.6).
#[derive(Clone, Copy, Debug, PartialEq, Eq)]
pub enum Neighbourhood {
    /// `MPI_NEIGHBOR_ALLGATHER` (section 8.6.1).
    Allgather,
    /// `MPI_NEIGHBOR_ALLGATHERV` (section 8.6.1).
    Allgatherv,
    /// `MPI_NEIGHBOR_ALLTOALL` (section 8.6.2).
    Alltoall,
    /// `MPI_NEIGHBOR_ALLTOALLV` (section 8.6.2).
    Alltoallv,
}

/// Whether a call blocks. Blocking and nonblocking calls don't match (MPI 4.1 section 6.12).
#[derive(Clone, Copy, Debug, PartialEq, Eq)]
pub enum Mode {
    Blocking,
    Nonblocking,
}

/// A kind of call with its mode: calls that make communicators, and those that free them, only block.
#[derive(Clone, Copy, Debug, PartialEq, Eq)]
pub enum Call {
    Exchange(Exchange, Mode),
    Reduction(Reduction, Mode),
    NewCommunicator(NewCommunicator),
    Neighbourhood(Neighbourhood, Mode),
    Free,
}

/// What a post says of the communicator that its call makes.
#[derive(Clone, Copy, Debug, PartialEq, Eq)]
pub enum Makes {
    /// Nothing.
    Nothing,
    /// A colour, which may be undefined, and a key.
    Colour,
    /// The ranks of a group.
    Group,
    /// Any edges between ranks.
    Edges,
    /// The member's own sources and destinations.
    Neighbours,
}

/// What of a member its numbers of counts depend on.
#[derive(Clone, Copy, Debug, PartialEq, Eq)]
pub struct Seat {
    /// The communicator's size.
    pub size: usize,
    /// Whether the member is the root that its post names.
    pub at_root: bool,
    /// How many edges of the communicator's topology come to the member, 0 without one (MPI 4.1 section 8.5.5).
    pub indegree: usize,
    /// How many go from it.
    pub outdegree: usize,
}

/// A number that depends on the communicator and on who asks.
#[derive(Clone, Copy, Debug, PartialEq, Eq)]
pub enum Number {
    Zero,
    One,
    /// 1 at the root, 0 elsewhere.
    OneAtRoot,
    /// The communicator's size.
    Members,
    /// The communicator's size at the root, 0 elsewhere.
    MembersAtRoot,
    /// How many edges come to the member.
    Indegree,
    /// How many edges go from the member.
    Outdegree,
}

/// How the items that a member sends are cut into blocks.
#[derive(Clone, Copy, Debug, PartialEq, Eq)]
pub enum Sent {
    /// There may be any number of items.
    Any,
    /// The send counts, so often, are the blocks' numbers of items.
    Scounts(Number),
    /// The receive counts, so often, are the blocks' numbers of items.
    Rcounts(Number),
}

/// What the posts of a kind have.
#[derive(Clone, Copy, Debug, PartialEq, Eq)]
pub struct Fields {
    pub root: bool,
    pub op: bool,
    pub items: bool,
    /// How many send counts there are.
    pub scounts: Number,
    /// How many receive counts there are.
    pub rcounts: Number,
    pub sent: Sent,
    pub makes: Makes,
}

impl Call {
    /// The blocking call of a kind.
    pub fn blocking(kind: Kind) -> Call
        ensures { result ≡ blocking kind }
    {
        match kind {
            Kind::Exchange(exchange) => Call::Exchange(exchange, Mode::Blocking),
            Kind::Reduction(reduction) => Call::Reduction(reduction, Mode::Blocking),
            Kind::NewCommunicator(new) => Call::NewCommunicator(new),
            Kind::Neighbourhood(exchange) => Call::Neighbourhood(exchange, Mode::Blocking),
            Kind::Free => Call::Free,
        }
    }

    /// Its kind.
    pub fn kind(self) -> Kind
        ensures { result ≡ kind_of self }
    {
        match self {
            Call::Exchange(exchange, _) => Kind::Exchange(exchange),
            Call::Reduction(reduction, _) => Kind::Reduction(reduction),
            Call::NewCommunicator(new) => Kind::NewCommunicator(new),
            Call::Neighbourhood(exchange, _) => Kind::Neighbourhood(exchange),
            Call::Free => Kind::Free,
        }
    }

    /// Its mode.
    pub fn mode(self) -> Mode
        ensures { result ≡ mode_of self }
    {
        match self {
            Call::Exchange(_, mode) => mode,
            Call::Reduction(_, mode) => mode,
            Call::Neighbourhood(_, mode) => mode,
            Call::NewCommunicator(_) | Call::Free => Mode::Blocking,
        }
    }
}

impl Number {
    /// The number for this member.
    pub fn of(self, seat: &Seat) -> usize
        ensures { result ≡ number_in self seat.now }
    {
        match self {
            Number::Zero => 0,
            Number::One => 1,
            Number::OneAtRoot => { if seat.at_root { 1 } else { 0 } }
            Number::Members => seat.size,
            Number::MembersAtRoot => { if seat.at_root { seat.size } else { 0 } }
            Number::Indegree => seat.indegree,
            Number::Outdegree => seat.outdegree,
        }
    }

    /// Whether a kind with so many counts has that list at all.
    pub fn is_had(self) -> bool
        ensures { result ≡ is_had self }
    {
        match self {
            Number::Zero => false,
            _ => true,
        }
    }
}
