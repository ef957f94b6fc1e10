//! The table of kinds: what the posts of each have, and what is so of all kinds of one sort.
ghost use Rattle.std.specs.Prelude.{◌≡◌};
ghost use Rattle.mpx_kind.specs.declared.kinds.Mode.TheVariants.{Nonblocking};
ghost use Rattle.mpx_kind.specs.Kinds.{fields_of, frees, having, is_gathered, makes_communicators, making, may_be, needs_topology};

use crate::kinds::{
    Exchange, Fields, Kind, Makes, Neighbourhood, NewCommunicator, Number, Reduction, Sent,
};

impl Kind {
    /// What its posts have.
    pub fn fields(self) -> Fields
        ensures { result ≡ fields_of self }
    {
        match self {
            Kind::Exchange(exchange) => exchange_fields(exchange),
            Kind::Reduction(reduction) => reduction_fields(reduction),
            Kind::NewCommunicator(new) => making(said_of(new)),
            Kind::Neighbourhood(exchange) => neighbourhood_fields(exchange),
            Kind::Free => having(false, false, false, Number::Zero, Number::Zero, Sent::Any),
        }
    }

    /// Whether there are nonblocking calls of it.
    pub fn may_be_nonblocking(self) -> bool
        ensures { result ≡ may_be Nonblocking self }
    {
        !self.makes_communicators() && !self.frees()
    }

    /// Whether its calls make communicators.
    pub fn makes_communicators(self) -> bool
        ensures { result ≡ makes_communicators self }
    {
        match self {
            Kind::NewCommunicator(_) => true,
            _ => false,
        }
    }

    /// Whether its calls free their communicator.
    pub fn frees(self) -> bool
        ensures { result ≡ frees self }
    {
        match self {
            Kind::Free => true,
            _ => false,
        }
    }

    /// Whether its calls are made on gatherings, on which no others are.
    pub fn is_gathered(self) -> bool
        ensures { result ≡ is_gathered self }
    {
        match self {
            Kind::NewCommunicator(NewCommunicator::CreateGroup) => true,
            _ => false,
        }
    }

    /// Whether its calls go along the edges of a topology, so that a communicator without one has none of them.
    pub fn needs_topology(self) -> bool
        ensures { result ≡ needs_topology self }
    {
        match self {
            Kind::Neighbourhood(_) => true,
            _ => false,
        }
    }
}

// Not inlined, nor are the two below: so each is one look into a table of whole rows.
#[inline(never)]
fn exchange_fields(exchange: Exchange) -> Fields
    ensures { result ≡ fields_of (Kind.Exchange exchange) }
{
    use Number::{Members, MembersAtRoot, One, OneAtRoot, Zero};
    use Sent::{Any, Rcounts, Scounts};
    match exchange {
        Exchange::Barrier => having(false, false, false, Zero, Zero, Any),
        Exchange::Bcast => having(true, false, true, Zero, One, Rcounts(OneAtRoot)),
        Exchange::Gather => having(true, false, true, Zero, Zero, Any),
        Exchange::Gatherv => having(true, false, true, Zero, MembersAtRoot, Any),
        Exchange::Scatter => having(true, false, true, Zero, One, Rcounts(MembersAtRoot)),
        Exchange::Scatterv => having(true, false, true, MembersAtRoot, One, Scounts(OneAtRoot)),
        Exchange::Allgather => having(false, false, true, Zero, Zero, Any),
        Exchange::Allgatherv => having(false, false, true, Zero, Members, Any),
        Exchange::Alltoall => having(false, false, true, Zero, One, Rcounts(Members)),
        Exchange::Alltoallv => having(false, false, true, Members, Members, Scounts(One)),
    }
}

#[inline(never)]
fn reduction_fields(reduction: Reduction) -> Fields
    ensures { result ≡ fields_of (Kind.Reduction reduction) }
{
    use Number::{Members, One, Zero};
    use Sent::{Any, Rcounts};
    match reduction {
        Reduction::Reduce => having(true, true, true, Zero, Zero, Any),
        Reduction::Allreduce => having(false, true, true, Zero, Zero, Any),
        Reduction::ReduceScatterBlock => having(false, true, true, Zero, One, Rcounts(Members)),
        Reduction::ReduceScatter => having(false, true, true, Zero, Members, Rcounts(One)),
        Reduction::Scan => having(false, true, true, Zero, Zero, Any),
        Reduction::Exscan => having(false, true, true, Zero, Zero, Any),
    }
}

// What the posts say of the communicator that is made.
fn said_of(new: NewCommunicator) -> Makes
    ensures { making result ≡ fields_of (Kind.NewCommunicator new) }
{
    match new {
        NewCommunicator::Dup => Makes::Nothing,
        NewCommunicator::Split => Makes::Colour,
        NewCommunicator::Create => Makes::Group,
        NewCommunicator::CreateGroup => Makes::Nothing,
        NewCommunicator::DistGraph => Makes::Edges,
        NewCommunicator::DistGraphAdjacent => Makes::Neighbours,
    }
}

#[inline(never)]
fn neighbourhood_fields(exchange: Neighbourhood) -> Fields
    ensures { result ≡ fields_of (Kind.Neighbourhood exchange) }
{
    use Number::{Indegree, One, Outdegree, Zero};
    use Sent::{Any, Scounts};
    match exchange {
        Neighbourhood::Allgather => having(false, false, true, Zero, One, Any),
        Neighbourhood::Allgatherv => having(false, false, true, Zero, Indegree, Any),
        Neighbourhood::Alltoall => having(false, false, true, One, One, Scounts(Outdegree)),
        Neighbourhood::Alltoallv => {
            having(false, false, true, Outdegree, Indegree, Scounts(One))
        }
    }
}

fn having(root: bool, op: bool, items: bool, scounts: Number, rcounts: Number, sent: Sent) -> Fields
    ensures { result ≡ having root op items scounts rcounts sent }
{
    Fields {
        root,
        op,
        items,
        scounts,
        rcounts,
        sent,
        makes: Makes::Nothing,
    }
}

fn making(makes: Makes) -> Fields
    ensures { result ≡ making makes }
{
    Fields {
        root: false,
        op: false,
        items: false,
        scounts: Number::Zero,
        rcounts: Number::Zero,
        sent: Sent::Any,
        makes,
    }
}
