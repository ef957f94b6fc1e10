//! Reading numbers of calls by process, and acknowledgements.
ghost use Rattle.std.specs.Prelude.{◌≡◌, ◌≢◌, ℕ, IfErr, List, Ok, true};
ghost use Rattle.std.specs.Ordering.{nat_cmp};
ghost use Rattle.std.specs.FinMap.{FinMap};
ghost use Rattle.join_nest.specs.Seen.{keyed_view};
ghost use Rattle.mpx_name.specs.Order.{name_cmp};
ghost use Rattle.mpx_board.specs.Views.{view_of_all_acks};
ghost use Rattle.mpx_format.specs.Format.{Gives, byte};
ghost use Rattle.mpx_format.specs.Fields.{process, name, some_calls, numbers, acks, all_acks, fronts};

use crate::big_endian::read_u8;
use crate::entries::{WireKey, WireValue, read_entries};
use crate::fields::{read_process, read_some_byte, read_some_calls, read_some_names};
use crate::names::read_name;
use crate::process_numbers::read_rows;
use join_core::Max;
use join_nest::Keyed;
use mpx_board::{Digest, VersionVector};
use mpx_format::{ReadError, Version};
use mpx_group::Proc;
use mpx_name::Name;
use mpx_rope::Source;
use std::alloc::Global;

impl WireKey for Proc {
    ghost format = { process };

    fn read(_alloc: Global, bytes: &[u8]) -> Result<(Proc, &[u8]), ReadError> {
        let (number, rest) = read_process(bytes)?;
        Ok((Proc::new(number), rest))
    }
}

impl WireKey for Name {
    ghost format = { name };

    fn read(alloc: Global, bytes: &[u8]) -> Result<(Name, &[u8]), ReadError> {
        read_name(alloc, bytes)
    }
}

impl WireValue for Max {
    ghost Seen = { ℕ };

    ghost seen = { λ m. m.0 };

    ghost format = { λ version. some_calls };

    ghost says = { λ v. true };

    fn says_something(&self) -> bool {
        true
    }

    fn read<'a>(
        _version: Version,
        _source: Source<'a>,
        bytes: &'a [u8],
    ) -> Result<(Max, &'a [u8]), ReadError> {
        let (number, rest) = read_some_calls(bytes)?;
        Ok((Max(number), rest))
    }
}

impl WireValue for VersionVector {
    ghost Seen = { FinMap nat_cmp ℕ };

    ghost seen = { λ m. keyed_view nat_cmp (λ n. n.0) m.entries.items };

    ghost format = { λ version. numbers };

    ghost says = { λ v. true };

    fn says_something(&self) -> bool {
        true
    }

    #[tactic(auto, unfolding(mpx_format::specs::Fields::numbers))]
    fn read<'a>(
        version: Version,
        source: Source<'a>,
        bytes: &'a [u8],
    ) -> Result<(VersionVector, &'a [u8]), ReadError> {
        let (count, rest) = read_some_byte(bytes)?;
        let (entries, rest) = read_rows(version, source, count as usize, rest)?;
        Ok((Keyed::from_rising(entries), rest))
    }
}

impl WireValue for Digest {
    ghost Seen = { FinMap name_cmp (FinMap nat_cmp ℕ) };

    ghost seen = { λ a. keyed_view name_cmp (λ m. keyed_view nat_cmp (λ n. n.0) m.entries.items) a.entries.items };

    ghost format = { λ version. acks };

    ghost says = { λ v. true };

    fn says_something(&self) -> bool {
        true
    }

    #[tactic(auto, unfolding(mpx_format::specs::Fields::acks))]
    fn read<'a>(
        version: Version,
        source: Source<'a>,
        bytes: &'a [u8],
    ) -> Result<(Digest, &'a [u8]), ReadError> {
        let (count, rest) = read_some_names(bytes)?;
        let (entries, rest) = read_entries(version, source, &None, count as usize, rest)?;
        Ok((Keyed::from_rising(entries), rest))
    }
}

#[tactic(auto, unfolding(mpx_format::specs::Fields::all_acks))]
pub fn read_all_acks<'a>(
    version: Version,
    source: Source<'a>,
    bytes: &'a [u8],
) -> Result<(Keyed<Proc, Digest>, &'a [u8]), ReadError>
    ensures gives { Gives (λ x. (view_of_all_acks x.0, x.1.now)) result (all_acks.read bytes.now) }
    ensures some { IfErr result (λ e. (rest : List ℕ) → byte.read bytes.now ≢ Ok (0, rest)) }
{
    let (count, rest) = read_u8(bytes)?;
    let (entries, rest) = read_entries(version, source, &None, count as usize, rest)?;
    Ok((Keyed::from_rising(entries), rest))
}
