//! A line of a transcript, as a value.
ghost use Rattle.std.specs.Prelude.{◌≡◌};

use crate::asking::Relation;
use mpx_birth::Neighbour;
use mpx_group::Rank;
use mpx_name::Name;
use mpx_post::PostError;
use mpx_value::Outcome;
use std::marker::Model;

/// A line of a transcript: what a rank is told by one of its statements. Its text is made by [`Line::push_to`].
#[derive(Debug, Drop)]
pub enum Line {
    /// What a call of a context gave: the context, the number of the call there, and its outcome.
    Told {
        name: Name,
        call: u32,
        outcome: Outcome,
    },
    /// Why a post was refused, or why a question isn't answered.
    Refused(PostError),
    /// That a request is not open (any more).
    Idle,
    /// Neighbours, with weights or without.
    Near {
        weighted: bool,
        neighbours: NeighbourList,
    },
    /// How two communicators compare.
    Compared(Relation),
    /// Ranks in another communicator.
    Translated(TranslatedRanks),
    /// That a rank that is asked for is out of range.
    StrayRank,
}

/// Neighbours in their order; contracts see their list.
#[derive(Debug, Drop)]
pub struct NeighbourList {
    neighbours: Vec<Neighbour>,
}

impl Model for NeighbourList {
    ghost use Rattle.std.specs.Prelude.{List};
    ghost use Rattle.mpx_birth.specs.declared.edges.Neighbour.{Neighbour};

    ghost Value = { List Neighbour };

    ghost view = { λ n. n.neighbours.items };
}

impl NeighbourList {
    /// The list of these neighbours.
    pub fn new(neighbours: Vec<Neighbour>) -> NeighbourList
        ensures { result ≡ neighbours.items }
    {
        NeighbourList { neighbours }
    }

    /// The neighbours.
    pub fn as_slice(&self) -> &[Neighbour]
        ensures { result.now ≡ self.now }
    {
        self.neighbours.as_slice()
    }
}

/// Ranks in another communicator, in the order in which they were asked for; contracts see their list.
#[derive(Debug, Drop)]
pub struct TranslatedRanks {
    ranks: Vec<Rank>,
}

impl Model for TranslatedRanks {
    ghost use Rattle.std.specs.Prelude.{List};
    ghost use Rattle.mpx_group.specs.declared.ranks.Rank.{Rank};

    ghost Value = { List Rank };

    ghost view = { λ t. t.ranks.items };
}

impl TranslatedRanks {
    /// The list of these ranks.
    pub fn new(ranks: Vec<Rank>) -> TranslatedRanks
        ensures { result ≡ ranks.items }
    {
        TranslatedRanks { ranks }
    }

    /// The ranks.
    pub fn as_slice(&self) -> &[Rank]
        ensures { result.now ≡ self.now }
    {
        self.ranks.as_slice()
    }
}
