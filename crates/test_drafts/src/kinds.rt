//! The kinds of calls by names of one word, for the tables of tests.

use mpx_kind::{Exchange, Kind, Neighbourhood, NewCommunicator, Reduction};

pub const BARRIER: Kind = Kind::Exchange(Exchange::Barrier);

pub const BCAST: Kind = Kind::Exchange(Exchange::Bcast);

pub const GATHER: Kind = Kind::Exchange(Exchange::Gather);

pub const GATHERV: Kind = Kind::Exchange(Exchange::Gatherv);

pub const SCATTER: Kind = Kind::Exchange(Exchange::Scatter);

pub const SCATTERV: Kind = Kind::Exchange(Exchange::Scatterv);

pub const ALLGATHER: Kind = Kind::Exchange(Exchange::Allgather);

pub const ALLGATHERV: Kind = Kind::Exchange(Exchange::Allgatherv);

pub const ALLTOALL: Kind = Kind::Exchange(Exchange::Alltoall);

pub const ALLTOALLV: Kind = Kind::Exchange(Exchange::Alltoallv);

pub const REDUCE: Kind = Kind::Reduction(Reduction::Reduce);

pub const ALLREDUCE: Kind = Kind::Reduction(Reduction::Allreduce);

pub const REDUCE_SCATTER_BLOCK: Kind = Kind::Reduction(Reduction::ReduceScatterBlock);

pub const REDUCE_SCATTER: Kind = Kind::Reduction(Reduction::ReduceScatter);

pub const SCAN: Kind = Kind::Reduction(Reduction::Scan);

pub const EXSCAN: Kind = Kind::Reduction(Reduction::Exscan);

pub const DUP: Kind = Kind::NewCommunicator(NewCommunicator::Dup);

pub const SPLIT: Kind = Kind::NewCommunicator(NewCommunicator::Split);

pub const CREATE: Kind = Kind::NewCommunicator(NewCommunicator::Create);

pub const CREATE_GROUP: Kind = Kind::NewCommunicator(NewCommunicator::CreateGroup);

pub const DIST_GRAPH: Kind = Kind::NewCommunicator(NewCommunicator::DistGraph);

pub const DIST_GRAPH_ADJACENT: Kind = Kind::NewCommunicator(NewCommunicator::DistGraphAdjacent);

pub const NEIGHBOR_ALLGATHER: Kind = Kind::Neighbourhood(Neighbourhood::Allgather);

pub const NEIGHBOR_ALLGATHERV: Kind = Kind::Neighbourhood(Neighbourhood::Allgatherv);

pub const NEIGHBOR_ALLTOALL: Kind = Kind::Neighbourhood(Neighbourhood::Alltoall);

pub const NEIGHBOR_ALLTOALLV: Kind = Kind::Neighbourhood(Neighbourhood::Alltoallv);
