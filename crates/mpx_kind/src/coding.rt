//! The number of each kind, by which frames spell it and kinds are told apart.
ghost use Rattle.std.specs.Prelude.{◌≡◌, ◌<◌};
ghost use Rattle.mpx_kind.specs.Codes.{code_of_kind, kind_at};

use crate::kinds::{Exchange, Kind, Neighbourhood, NewCommunicator, Reduction};

impl Kind {
    /// Its number, from 0 to 26.
    pub fn code(self) -> u8
        ensures { result ≡ code_of_kind self }
    {
        match self {
            Kind::Exchange(Exchange::Barrier) => 0,
            Kind::Exchange(Exchange::Bcast) => 1,
            Kind::Exchange(Exchange::Gather) => 2,
            Kind::Exchange(Exchange::Gatherv) => 3,
            Kind::Exchange(Exchange::Scatter) => 4,
            Kind::Exchange(Exchange::Scatterv) => 5,
            Kind::Exchange(Exchange::Allgather) => 6,
            Kind::Exchange(Exchange::Allgatherv) => 7,
            Kind::Exchange(Exchange::Alltoall) => 8,
            Kind::Exchange(Exchange::Alltoallv) => 9,
            Kind::Reduction(Reduction::Reduce) => 10,
            Kind::Reduction(Reduction::Allreduce) => 11,
            Kind::Reduction(Reduction::ReduceScatterBlock) => 12,
            Kind::Reduction(Reduction::ReduceScatter) => 13,
            Kind::Reduction(Reduction::Scan) => 14,
            Kind::Reduction(Reduction::Exscan) => 15,
            Kind::NewCommunicator(NewCommunicator::Dup) => 16,
            Kind::NewCommunicator(NewCommunicator::Split) => 17,
            Kind::NewCommunicator(NewCommunicator::Create) => 18,
            Kind::NewCommunicator(NewCommunicator::CreateGroup) => 19,
            Kind::NewCommunicator(NewCommunicator::DistGraph) => 20,
            Kind::NewCommunicator(NewCommunicator::DistGraphAdjacent) => 21,
            Kind::Neighbourhood(Neighbourhood::Allgather) => 22,
            Kind::Neighbourhood(Neighbourhood::Allgatherv) => 23,
            Kind::Neighbourhood(Neighbourhood::Alltoall) => 24,
            Kind::Neighbourhood(Neighbourhood::Alltoallv) => 25,
            Kind::Free => 26,
        }
    }

    /// The kind with this number.
    pub fn at(code: u8) -> Kind
        requires { code < 27 }
        ensures { result ≡ kind_at code }
    {
        match code {
            0 => Kind::Exchange(Exchange::Barrier),
            1 => Kind::Exchange(Exchange::Bcast),
            2 => Kind::Exchange(Exchange::Gather),
            3 => Kind::Exchange(Exchange::Gatherv),
            4 => Kind::Exchange(Exchange::Scatter),
            5 => Kind::Exchange(Exchange::Scatterv),
            6 => Kind::Exchange(Exchange::Allgather),
            7 => Kind::Exchange(Exchange::Allgatherv),
            8 => Kind::Exchange(Exchange::Alltoall),
            9 => Kind::Exchange(Exchange::Alltoallv),
            10 => Kind::Reduction(Reduction::Reduce),
            11 => Kind::Reduction(Reduction::Allreduce),
            12 => Kind::Reduction(Reduction::ReduceScatterBlock),
            13 => Kind::Reduction(Reduction::ReduceScatter),
            14 => Kind::Reduction(Reduction::Scan),
            15 => Kind::Reduction(Reduction::Exscan),
            16 => Kind::NewCommunicator(NewCommunicator::Dup),
            17 => Kind::NewCommunicator(NewCommunicator::Split),
            18 => Kind::NewCommunicator(NewCommunicator::Create),
            19 => Kind::NewCommunicator(NewCommunicator::CreateGroup),
            20 => Kind::NewCommunicator(NewCommunicator::DistGraph),
            21 => Kind::NewCommunicator(NewCommunicator::DistGraphAdjacent),
            22 => Kind::Neighbourhood(Neighbourhood::Allgather),
            23 => Kind::Neighbourhood(Neighbourhood::Allgatherv),
            24 => Kind::Neighbourhood(Neighbourhood::Alltoall),
            25 => Kind::Neighbourhood(Neighbourhood::Alltoallv),
            26 => Kind::Free,
            _ => unreachable!(),
        }
    }
}
