//! The words that scripts have for calls, operations and types.

use mpx_kind::{Call, Exchange, Kind, Neighbourhood, NewCommunicator, Reduction};
use mpx_num::{Op, Ty};
use mpx_post::Draft;
use mpx_script::later_words_of_line;

/// The word of a kind of call that blocks.
pub(crate) fn call_word(kind: Kind) -> &'static str {
    match kind {
        Kind::Exchange(it) => exchange_word(it),
        Kind::Reduction(it) => reduction_word(it),
        Kind::NewCommunicator(it) => new_communicator_word(it),
        Kind::Neighbourhood(it) => neighbourhood_word(it),
        Kind::Free => "free",
    }
}

fn exchange_word(exchange: Exchange) -> &'static str {
    match exchange {
        Exchange::Barrier => "barrier",
        Exchange::Bcast => "bcast",
        Exchange::Gather => "gather",
        Exchange::Gatherv => "gatherv",
        Exchange::Scatter => "scatter",
        Exchange::Scatterv => "scatterv",
        Exchange::Allgather => "allgather",
        Exchange::Allgatherv => "allgatherv",
        Exchange::Alltoall => "alltoall",
        Exchange::Alltoallv => "alltoallv",
    }
}

fn reduction_word(reduction: Reduction) -> &'static str {
    match reduction {
        Reduction::Reduce => "reduce",
        Reduction::Allreduce => "allreduce",
        Reduction::ReduceScatterBlock => "reduce_scatter_block",
        Reduction::ReduceScatter => "reduce_scatter",
        Reduction::Scan => "scan",
        Reduction::Exscan => "exscan",
    }
}

fn new_communicator_word(call: NewCommunicator) -> &'static str {
    match call {
        NewCommunicator::Dup => "dup",
        NewCommunicator::Split => "split",
        NewCommunicator::Create => "create",
        NewCommunicator::CreateGroup => "create_group",
        NewCommunicator::DistGraph => "dist_graph",
        NewCommunicator::DistGraphAdjacent => "dist_graph_adjacent",
    }
}

fn neighbourhood_word(exchange: Neighbourhood) -> &'static str {
    match exchange {
        Neighbourhood::Allgather => "neighbor_allgather",
        Neighbourhood::Allgatherv => "neighbor_allgatherv",
        Neighbourhood::Alltoall => "neighbor_alltoall",
        Neighbourhood::Alltoallv => "neighbor_alltoallv",
    }
}

/// The word of a draft's operation: one of the job's own is called as in the line of the statement that posts the draft.
pub(crate) fn operation_in<'t>(text: &'t [u8], line: u32, draft: &Draft) -> &'t str {
    if let Op::Own(_) = draft.op {
        return own_word(text, line, draft.call);
    }
    operation_word(draft.op)
}

// OP stands behind C, of `reduce` behind ROOT.
fn own_word(text: &[u8], line: u32, call: Call) -> &str {
    let (fourth, fifth) = later_words_of_line(text, line);
    let word = match call {
        Call::Reduction(Reduction::Reduce, _) => fifth,
        _ => fourth,
    };
    match str::from_utf8(word.unwrap_or(&[])) {
        Ok(word) => word,
        Err(_) => OWN,
    }
}

const OWN: &str = "an operation of the job's own";

fn operation_word(op: Op) -> &'static str {
    match op {
        Op::Max => "max",
        Op::Min => "min",
        Op::Sum => "sum",
        Op::Prod => "prod",
        Op::Land => "land",
        Op::Lor => "lor",
        Op::Lxor => "lxor",
        Op::Band => "band",
        Op::Bor => "bor",
        Op::Bxor => "bxor",
        Op::Maxloc => "maxloc",
        Op::Minloc => "minloc",
        Op::Own(_) => OWN,
    }
}

/// The word of a type.
pub(crate) fn type_word(ty: Ty) -> &'static str {
    match ty {
        Ty::I8 => "i8",
        Ty::I16 => "i16",
        Ty::I32 => "i32",
        Ty::I64 => "i64",
        Ty::U8 => "u8",
        Ty::U16 => "u16",
        Ty::U32 => "u32",
        Ty::U64 => "u64",
        Ty::TwoInt => "2int",
    }
}
