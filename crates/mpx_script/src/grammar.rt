//! What the first words of a line stand for: the number of ranks, a label, or a statement's word.
ghost use Rattle.std.specs.Prelude.{◌≡◌, map};
ghost use Rattle.mpx_script.specs.Grammar.{call_with, rank_count, ranks_number, label_of, kind_named, started_named, local_named, form_named, ends_with_name};
ghost use Rattle.mpx_script.specs.laws.Parts.{has_ranks, has_second, shape_of, shape_of_new};
ghost use Rattle.mpx_statement.specs.Lookups.{below, named};
ghost use Rattle.mpx_script.specs.Words.{words};

use crate::words::first_word;
use mpx_kind::{Call, Exchange, Kind, Mode, Neighbourhood, NewCommunicator, Reduction};
use mpx_num::parse_number;
use mpx_statement::Side;

/// Which ranks a further line is for.
#[derive(Clone, Copy)]
pub enum Label {
    /// Every rank.
    Every,
    /// The rank of this number, which may be none.
    Numbered(i128),
}

/// The number as one below the limit.
pub fn below(limit: u8, number: i128) -> Option<u8>
    ensures { result ≡ below limit number }
{
    if 0 <= number && number < i128::from(limit) {
        Some(number as u8)
    } else {
        None
    }
}

/// A number of ranks: 1 to 64.
pub fn rank_count(number: i128) -> Option<u8>
    ensures { result ≡ rank_count number }
{
    if 1 <= number && number <= 64 {
        Some(number as u8)
    } else {
        None
    }
}

/// The number of a line `ranks N`.
#[tactic(auto, unfolding(crate::specs::Grammar::ranks_number))]
pub fn ranks_number(line: &[u8]) -> Option<i128>
    ensures { result ≡ ranks_number (words line.now) }
{
    let (head, rest) = first_word(line);
    let (number, rest) = first_word(rest);
    let (third, _) = first_word(rest);
    let head = head?;
    let number = number?;
    if head == b"ranks".as_slice() && third.is_none() {
        parse_number(number)
    } else {
        None
    }
}

/// The label of a first word.
#[tactic(auto, unfolding(crate::specs::Grammar::label_of))]
pub fn label_of(word: &[u8]) -> Option<Label>
    ensures { result ≡ label_of word.now }
{
    let (last, front) = word.split_last()?;
    if *last != b':' {
        return None;
    }
    if front == b"*".as_slice() {
        return Some(Label::Every);
    }
    let number = parse_number(front)?;
    Some(Label::Numbered(number))
}

/// What a table has for a word.
pub fn named<T: Copy>(table: &[(&[u8], T)], word: &[u8]) -> Option<T>
    ensures { result ≡ named (map (λ entry. (entry.0.now, entry.1)) table.now) word.now }
{
    for (name, meaning) in table {
        if word == *name {
            return Some(*meaning);
        }
    }
    None
}

// The words of the kinds of calls.
const KINDS: &[(&[u8], Kind)] = &[
    (b"barrier", Kind::Exchange(Exchange::Barrier)),
    (b"bcast", Kind::Exchange(Exchange::Bcast)),
    (b"gather", Kind::Exchange(Exchange::Gather)),
    (b"gatherv", Kind::Exchange(Exchange::Gatherv)),
    (b"scatter", Kind::Exchange(Exchange::Scatter)),
    (b"scatterv", Kind::Exchange(Exchange::Scatterv)),
    (b"allgather", Kind::Exchange(Exchange::Allgather)),
    (b"allgatherv", Kind::Exchange(Exchange::Allgatherv)),
    (b"alltoall", Kind::Exchange(Exchange::Alltoall)),
    (b"alltoallv", Kind::Exchange(Exchange::Alltoallv)),
    (b"reduce", Kind::Reduction(Reduction::Reduce)),
    (b"allreduce", Kind::Reduction(Reduction::Allreduce)),
    (
        b"reduce_scatter_block",
        Kind::Reduction(Reduction::ReduceScatterBlock),
    ),
    (b"reduce_scatter", Kind::Reduction(Reduction::ReduceScatter)),
    (b"scan", Kind::Reduction(Reduction::Scan)),
    (b"exscan", Kind::Reduction(Reduction::Exscan)),
    (b"dup", Kind::NewCommunicator(NewCommunicator::Dup)),
    (b"split", Kind::NewCommunicator(NewCommunicator::Split)),
    (b"create", Kind::NewCommunicator(NewCommunicator::Create)),
    (
        b"create_group",
        Kind::NewCommunicator(NewCommunicator::CreateGroup),
    ),
    (
        b"dist_graph",
        Kind::NewCommunicator(NewCommunicator::DistGraph),
    ),
    (
        b"dist_graph_adjacent",
        Kind::NewCommunicator(NewCommunicator::DistGraphAdjacent),
    ),
    (
        b"neighbor_allgather",
        Kind::Neighbourhood(Neighbourhood::Allgather),
    ),
    (
        b"neighbor_allgatherv",
        Kind::Neighbourhood(Neighbourhood::Allgatherv),
    ),
    (
        b"neighbor_alltoall",
        Kind::Neighbourhood(Neighbourhood::Alltoall),
    ),
    (
        b"neighbor_alltoallv",
        Kind::Neighbourhood(Neighbourhood::Alltoallv),
    ),
    (b"free", Kind::Free),
];

/// The kind of call of a statement's word.
#[tactic(auto, unfolding(crate::specs::Grammar::kind_named))]
pub fn kind_named(word: &[u8]) -> Option<Kind>
    ensures { result ≡ kind_named word.now }
{
    named(KINDS, word)
}

// The kind of a nonblocking call: `i` stands before its blocking call's word.
#[tactic(auto, unfolding(crate::specs::Grammar::started_named))]
fn started_named(word: &[u8]) -> Option<Kind>
    ensures { result ≡ started_named word.now }
{
    match word {
        [b'i', blocking @ ..] => {
            let kind = kind_named(blocking)?;
            if kind.may_be_nonblocking() {
                Some(kind)
            } else {
                None
            }
        }
        _ => None,
    }
}

/// How many requests a wait is for.
#[derive(Clone, Copy)]
pub enum Waited {
    One,
    /// Any number of them, but none.
    All,
}

/// What a statement asks that doesn't wait for an answer.
#[derive(Clone, Copy)]
pub enum QuestionForm {
    /// The neighbours on a side of a communicator.
    Neighbours(Side),
    /// How two communicators compare.
    Compare,
    /// Ranks of a communicator in another one.
    Translate,
}

/// What a statement's word stands for.
#[derive(Clone, Copy)]
pub enum Form {
    /// A call of a kind, and whether it blocks.
    Call(Kind, Mode),
    Wait(Waited),
    Ask(QuestionForm),
}

// The words of the statements that don't post.
const LOCAL_FORMS: &[(&[u8], Form)] = &[
    (b"wait", Form::Wait(Waited::One)),
    (b"waitall", Form::Wait(Waited::All)),
    (
        b"sources",
        Form::Ask(QuestionForm::Neighbours(Side::Sources)),
    ),
    (
        b"destinations",
        Form::Ask(QuestionForm::Neighbours(Side::Destinations)),
    ),
    (b"compare", Form::Ask(QuestionForm::Compare)),
    (b"translate", Form::Ask(QuestionForm::Translate)),
];

// The form of a statement that doesn't post.
#[tactic(auto, unfolding(crate::specs::Grammar::local_named))]
fn local_named(word: &[u8]) -> Option<Form>
    ensures { result ≡ local_named word.now }
{
    named(LOCAL_FORMS, word)
}

/// What a statement's word stands for.
pub fn form_named(word: &[u8]) -> Option<Form>
    ensures { result ≡ form_named word.now }
{
    if let Some(kind) = kind_named(word) {
        return Some(Form::Call(kind, Mode::Blocking));
    }
    match started_named(word) {
        Some(kind) => Some(Form::Call(kind, Mode::Nonblocking)),
        None => local_named(word),
    }
}

/// Whether a call ends with `-> NAME`.
pub fn ends_with_name(kind: Kind, mode: Mode) -> bool
    ensures { result ≡ ends_with_name kind mode }
{
    match mode {
        Mode::Blocking => kind.makes_communicators(),
        Mode::Nonblocking => true,
    }
}

/// The call of a kind with a mode; one that makes communicators, or frees one, only blocks.
pub fn call_with(mode: Mode, kind: Kind) -> Call
    ensures { result ≡ call_with mode kind }
{
    match kind {
        Kind::Exchange(exchange) => Call::Exchange(exchange, mode),
        Kind::Reduction(reduction) => Call::Reduction(reduction, mode),
        Kind::NewCommunicator(new) => Call::NewCommunicator(new),
        Kind::Neighbourhood(exchange) => Call::Neighbourhood(exchange, mode),
        Kind::Free => Call::Free,
    }
}

impl QuestionForm {
    /// Whether it is of two communicators.
    pub fn has_second(self) -> bool
        ensures { result ≡ has_second self }
    {
        match self {
            QuestionForm::Neighbours(_) => false,
            _ => true,
        }
    }

    /// Whether it is of a list of ranks.
    pub fn has_ranks(self) -> bool
        ensures { result ≡ has_ranks self }
    {
        match self {
            QuestionForm::Translate => true,
            _ => false,
        }
    }
}

/// Which words a kind of call has, beside the fields of its posts.
#[derive(Clone, Copy)]
pub struct Shape {
    /// A colour and a key.
    pub colour: bool,
    pub tag: bool,
    /// A list of ranks.
    pub ranks: bool,
    /// A list of edges.
    pub edges: bool,
    /// A list of sources and one of destinations.
    pub neighbours: bool,
}

/// The words of a kind.
pub fn shape_of(kind: Kind) -> Shape
    ensures { result ≡ shape_of kind }
{
    match kind {
        Kind::NewCommunicator(new) => shape_of_new(new),
        _ => Shape {
            colour: false,
            tag: false,
            ranks: false,
            edges: false,
            neighbours: false,
        },
    }
}

fn shape_of_new(new: NewCommunicator) -> Shape
    ensures { result ≡ shape_of_new new }
{
    let nothing = Shape {
        colour: false,
        tag: false,
        ranks: false,
        edges: false,
        neighbours: false,
    };
    match new {
        NewCommunicator::Dup => nothing,
        NewCommunicator::Split => Shape {
            colour: true,
            ..nothing
        },
        NewCommunicator::Create => Shape {
            ranks: true,
            ..nothing
        },
        NewCommunicator::CreateGroup => Shape {
            tag: true,
            ranks: true,
            ..nothing
        },
        NewCommunicator::DistGraph => Shape {
            edges: true,
            ..nothing
        },
        NewCommunicator::DistGraphAdjacent => Shape {
            neighbours: true,
            ..nothing
        },
    }
}
