//! Reading births of communicators.
ghost use Rattle.std.specs.Prelude.{◌≡◌, IfOk, length, true};
ghost use Rattle.std.specs.Option.{option_map};
ghost use Rattle.mpx_birth.specs.Births.{BirthView, fits_topology};
ghost use Rattle.mpx_format.specs.Format.{Gives};
ghost use Rattle.mpx_format.specs.Births.{any_topology, birth, nears, topology};

use crate::big_endian::read_u8;
use crate::entries::WireValue;
use crate::lists::read_list;
use crate::names::read_members;
use crate::neighbours::EachNear;
use mpx_birth::{Birth, Neighbours, Topology};
use mpx_format::{ReadError, Version, out_of_limits};
use mpx_rope::Source;
use std::alloc::Global;

fn read_nears(
    weighted: bool,
    size: usize,
    alloc: Global,
    bytes: &[u8],
) -> Result<(Vec<Neighbours>, &[u8]), ReadError>
    ensures read { Gives (λ x. (x.0.items, x.1.now)) result ((nears weighted size).read bytes.now) }
    ensures len { IfOk result (λ x. length x.0.items ≡ size) }
{
    read_list(&EachNear { weighted }, alloc, size, bytes)
}

// 0, or 1 and the neighbours of each of so many ranks, or 2 and the same with weights.
fn read_form(
    size: usize,
    alloc: Global,
    bytes: &[u8],
) -> Result<(Option<(bool, Vec<Neighbours>)>, &[u8]), ReadError>
    ensures read { Gives (λ x. (option_map (λ t. record { weighted = t.0; ranks = t.1.items }) x.0, x.1.now)) result ((any_topology size).read bytes.now) }
    ensures ranks { IfOk result (λ x. fits_topology size (option_map (λ t. record { weighted = t.0; ranks = t.1.items }) x.0)) }
{
    let (form, rest) = read_u8(bytes)?;
    if form == 0 {
        Ok((None, rest))
    } else if form == 1 {
        let (ranks, rest) = read_nears(false, size, alloc, rest)?;
        Ok((Some((false, ranks)), rest))
    } else if form == 2 {
        let (ranks, rest) = read_nears(true, size, alloc, rest)?;
        Ok((Some((true, ranks)), rest))
    } else {
        Err(out_of_limits(bytes))
    }
}

// A topology within its limits, or none.
#[tactic(auto, unfolding(mpx_format::specs::Births::topology))]
fn read_topology(
    size: usize,
    alloc: Global,
    bytes: &[u8],
) -> Result<(Option<Topology>, &[u8]), ReadError>
    ensures read { Gives (λ x. (x.0, x.1.now)) result ((topology size).read bytes.now) }
    ensures ranks { IfOk result (λ x. fits_topology size x.0) }
{
    let (told, rest) = read_form(size, alloc, bytes)?;
    match told {
        None => Ok((None, rest)),
        Some((weighted, ranks)) => match Topology::new(alloc, weighted, ranks)? {
            Some(topology) => Ok((Some(topology), rest)),
            None => Err(out_of_limits(bytes)),
        },
    }
}

impl WireValue for Birth {
    ghost Seen = { BirthView };

    ghost seen = { λ b. b };

    ghost format = { λ version. birth };

    ghost says = { λ v. true };

    fn says_something(&self) -> bool {
        true
    }

    #[tactic(auto, unfolding(mpx_format::specs::Births::birth))]
    fn read<'a>(
        _version: Version,
        source: Source<'a>,
        bytes: &'a [u8],
    ) -> Result<(Birth, &'a [u8]), ReadError> {
        let (members, rest) = read_members(source.alloc(), bytes)?;
        let (topology, rest) = read_topology(members.len(), source.alloc(), rest)?;
        Ok((Birth::from_parts(source.alloc(), members, topology)?, rest))
    }
}
