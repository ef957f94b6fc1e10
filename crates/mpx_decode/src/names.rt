//! Reading names of contexts.
ghost use Rattle.std.specs.Prelude.{◌≡◌, ◌<◌, ◌≤◌, [], false, length, IfOk};
ghost use Rattle.std.specs.List.{All};
ghost use Rattle.mpx_group.specs.Group.{has_twice};
ghost use Rattle.mpx_name.specs.Name.{IsStep};
ghost use Rattle.mpx_format.specs.Format.{Gives, many_read};
ghost use Rattle.mpx_format.specs.Fields.{member, member_count, members, step, step_count, name, child, gathering};

use crate::big_endian::read_u8;
use crate::fields::{read_call, read_colour, read_process, read_tag};
use crate::lists::{Repeated, read_list};
use mpx_format::{ReadError, out_of_limits};
use mpx_group::{Group, Proc};
use mpx_name::{Name, Step};
use std::alloc::Global;

// MEMBERS

// 1 to 64 processes, none twice.
#[tactic(auto, unfolding(mpx_format::specs::Fields::members))]
pub fn read_members(alloc: Global, bytes: &[u8]) -> Result<(Vec<Proc>, &[u8]), ReadError>
    ensures read { Gives (λ x. (x.0.items, x.1.now)) result (members.read bytes.now) }
    ensures some { IfOk result (λ x. 0 < length x.0.items) }
    ensures few { IfOk result (λ x. length x.0.items ≤ 64) }
    ensures distinct { IfOk result (λ x. has_twice x.0.items ≡ false) }
    ensures below { IfOk result (λ x. All (λ p. p < 64) x.0.items) }
{
    let (count, rest) = read_member_count(bytes)?;
    let (members, rest) = read_distinct(alloc, count, rest)?;
    Ok((members, rest))
}

#[tactic(auto, unfolding(mpx_format::specs::Fields::member_count))]
fn read_member_count(bytes: &[u8]) -> Result<(u8, &[u8]), ReadError>
    ensures read { Gives (λ x. (x.0, x.1.now)) result (member_count.read bytes.now) }
    ensures some { IfOk result (λ x. 0 < x.0) }
    ensures few { IfOk result (λ x. x.0 ≤ 64) }
{
    let (number, rest) = read_u8(bytes)?;
    if 0 < number && number <= 64 {
        Ok((number, rest))
    } else {
        Err(out_of_limits(bytes))
    }
}

// So many processes, none twice. Which were read is marked by their numbers.
#[tactic(auto, unfolding(mpx_format::specs::Fields::member))]
fn read_distinct(alloc: Global, count: u8, bytes: &[u8]) -> Result<(Vec<Proc>, &[u8]), ReadError>
    ensures read { Gives (λ x. (x.0.items, x.1.now)) result (many_read member count [] bytes.now) }
    ensures distinct { IfOk result (λ x. has_twice x.0.items ≡ false) }
    ensures below { IfOk result (λ x. All (λ p. p < 64) x.0.items) }
    ensures len { IfOk result (λ x. length x.0.items ≡ count) }
{
    let mut read = [false; 64];
    let mut members = Vec::with_capacity(alloc, (count as usize).min(bytes.len()))?;
    let mut rest = bytes;
    for _ in 0..count {
        let (number, after) = read_process(rest)?;
        if read[number as usize] {
            return Err(out_of_limits(rest));
        }
        read[number as usize] = true;
        members.push(Proc::new(number))?;
        rest = after;
    }
    Ok((members, rest))
}

// NAMES

// Steps, the oldest first.
struct NameSteps;

impl Repeated for NameSteps {
    type Value = Step;

    ghost format = { λ s before. step };

    ghost Within = { λ s x. IsStep x };

    #[tactic(auto, unfolding(mpx_format::specs::Fields::step))]
    fn read<'a>(
        &self,
        alloc: Global,
        _before: &[Step],
        bytes: &'a [u8],
    ) -> Result<(Step, &'a [u8]), ReadError> {
        let (form, rest) = read_u8(bytes)?;
        if form == 0 {
            read_child(rest)
        } else if form == 1 {
            read_gathering(alloc, rest)
        } else {
            Err(out_of_limits(bytes))
        }
    }
}

// The name of a context, whose steps stand the oldest first.
#[tactic(auto, unfolding(mpx_format::specs::Fields::name, mpx_format::specs::Fields::steps))]
pub fn read_name(alloc: Global, bytes: &[u8]) -> Result<(Name, &[u8]), ReadError>
    ensures { Gives (λ x. (x.0, x.1.now)) result (name.read bytes.now) }
{
    let (count, rest) = read_step_count(bytes)?;
    let (steps, rest) = read_list(&NameSteps, alloc, count as usize, rest)?;
    Ok((Name::of(steps), rest))
}

#[tactic(auto, unfolding(mpx_format::specs::Fields::step_count))]
fn read_step_count(bytes: &[u8]) -> Result<(u8, &[u8]), ReadError>
    ensures read { Gives (λ x. (x.0, x.1.now)) result (step_count.read bytes.now) }
    ensures few { IfOk result (λ x. x.0 ≤ 8) }
{
    let (number, rest) = read_u8(bytes)?;
    if number <= 8 {
        Ok((number, rest))
    } else {
        Err(out_of_limits(bytes))
    }
}

#[tactic(auto, unfolding(mpx_format::specs::Fields::child))]
fn read_child(bytes: &[u8]) -> Result<(Step, &[u8]), ReadError>
    ensures read { Gives (λ x. (x.0, x.1.now)) result (child.read bytes.now) }
    ensures within { IfOk result (λ x. IsStep x.0) }
{
    let (call, rest) = read_call(bytes)?;
    let (colour, rest) = read_colour(rest)?;
    Ok((Step::Child { call, colour }, rest))
}

#[tactic(auto, unfolding(mpx_format::specs::Fields::gathering))]
fn read_gathering(alloc: Global, bytes: &[u8]) -> Result<(Step, &[u8]), ReadError>
    ensures read { Gives (λ x. (x.0, x.1.now)) result (gathering.read bytes.now) }
    ensures within { IfOk result (λ x. IsStep x.0) }
{
    let (tag, rest) = read_tag(bytes)?;
    let (members, rest) = read_members(alloc, rest)?;
    let members = Group::of(members);
    Ok((Step::Gathering { tag, members }, rest))
}
