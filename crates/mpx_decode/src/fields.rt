//! Reading the fields of frames that are one number each.
ghost use Rattle.std.specs.Prelude.{◌≡◌, ◌<◌, ◌≤◌, ◌-◌, ◌^◌, ◌≢◌, IfErr, IfOk, nat_le};
ghost use Rattle.std.specs.Int.{w16, w32};
ghost use Rattle.mpx_format.specs.Format.{Gives, number, only, out_of_limits};
ghost use Rattle.mpx_format.specs.Fields.{process, call, colour, tag, some_calls, some_byte, name_count, some_names};

use crate::big_endian::{read_u8, read_u16, read_u32};
use mpx_format::{ReadError, not_canonical, out_of_limits};

// The number of a process. (A tuple of a `Proc` and a slice can't go through `?`.)
#[tactic(auto, unfolding(mpx_format::specs::Fields::process))]
pub fn read_process(bytes: &[u8]) -> Result<(u8, &[u8]), ReadError>
    ensures read { Gives (λ x. (x.0, x.1.now)) result (process.read bytes.now) }
    ensures small { IfOk result (λ x. x.0 < 64) }
{
    let (number, rest) = read_u8(bytes)?;
    if number < 64 {
        Ok((number, rest))
    } else {
        Err(out_of_limits(bytes))
    }
}

#[tactic(auto, unfolding(mpx_format::specs::Fields::call))]
pub fn read_call(bytes: &[u8]) -> Result<(u32, &[u8]), ReadError>
    ensures read { Gives (λ x. (x.0, x.1.now)) result (call.read bytes.now) }
    ensures small { IfOk result (λ x. x.0 < 2 ^ 32 - 1) }
{
    let (number, rest) = read_u32(bytes)?;
    if number < 4_294_967_295 {
        Ok((number, rest))
    } else {
        Err(out_of_limits(bytes))
    }
}

#[tactic(auto, unfolding(mpx_format::specs::Fields::colour))]
pub fn read_colour(bytes: &[u8]) -> Result<(u32, &[u8]), ReadError>
    ensures read { Gives (λ x. (x.0, x.1.now)) result (colour.read bytes.now) }
    ensures small { IfOk result (λ x. x.0 < 2 ^ 31) }
{
    let (number, rest) = read_u32(bytes)?;
    if number < 2_147_483_648 {
        Ok((number, rest))
    } else {
        Err(out_of_limits(bytes))
    }
}

#[tactic(auto, unfolding(mpx_format::specs::Fields::tag))]
pub fn read_tag(bytes: &[u8]) -> Result<(u16, &[u8]), ReadError>
    ensures read { Gives (λ x. (x.0, x.1.now)) result (tag.read bytes.now) }
    ensures small { IfOk result (λ x. x.0 < 2 ^ 15) }
{
    let (number, rest) = read_u16(bytes)?;
    if number < 32_768 {
        Ok((number, rest))
    } else {
        Err(out_of_limits(bytes))
    }
}

#[tactic(auto, unfolding(mpx_format::specs::Fields::some_calls))]
pub fn read_some_calls(bytes: &[u8]) -> Result<(u32, &[u8]), ReadError>
    ensures gives { Gives (λ x. (x.0, x.1.now)) result (some_calls.read bytes.now) }
    ensures memory { IfErr result (λ e. e ≢ ReadError.OutOfMemory) }
{
    let (number, rest) = read_u32(bytes)?;
    if 0 < number {
        Ok((number, rest))
    } else {
        Err(not_canonical(bytes))
    }
}

#[tactic(auto, unfolding(mpx_format::specs::Fields::some_byte))]
pub fn read_some_byte(bytes: &[u8]) -> Result<(u8, &[u8]), ReadError>
    ensures gives { Gives (λ x. (x.0, x.1.now)) result (some_byte.read bytes.now) }
    ensures memory { IfErr result (λ e. e ≢ ReadError.OutOfMemory) }
{
    let (number, rest) = read_u8(bytes)?;
    if 0 < number {
        Ok((number, rest))
    } else {
        Err(not_canonical(bytes))
    }
}

// A number of two bytes, at most so great.
pub fn read_at_most(most: usize, bytes: &[u8]) -> Result<(u16, &[u8]), ReadError>
    ensures gives { Gives (λ x. (x.0, x.1.now)) result ((only out_of_limits (λ n. nat_le n most) (number w16)).read bytes.now) }
    ensures small { IfOk result (λ x. x.0 ≤ most) }
    ensures memory { IfErr result (λ e. e ≢ ReadError.OutOfMemory) }
{
    let (number, rest) = read_u16(bytes)?;
    if number as usize <= most {
        Ok((number, rest))
    } else {
        Err(out_of_limits(bytes))
    }
}

#[tactic(auto, unfolding(mpx_format::specs::Fields::name_count))]
pub fn read_name_count(bytes: &[u8]) -> Result<(u16, &[u8]), ReadError>
    ensures gives { Gives (λ x. (x.0, x.1.now)) result (name_count.read bytes.now) }
    ensures memory { IfErr result (λ e. e ≢ ReadError.OutOfMemory) }
{
    read_at_most(4096, bytes)
}

#[tactic(auto, unfolding(mpx_format::specs::Fields::some_names))]
pub fn read_some_names(bytes: &[u8]) -> Result<(u16, &[u8]), ReadError>
    ensures gives { Gives (λ x. (x.0, x.1.now)) result (some_names.read bytes.now) }
    ensures memory { IfErr result (λ e. e ≢ ReadError.OutOfMemory) }
{
    let (number, rest) = read_name_count(bytes)?;
    if 0 < number {
        Ok((number, rest))
    } else {
        Err(not_canonical(bytes))
    }
}
