//! Reading numbers, the highest byte first.
ghost use Rattle.std.specs.Prelude.{◌≡◌, ◌≢◌, IfErr};
ghost use Rattle.std.specs.Int.{w16, w32};
ghost use Rattle.mpx_format.specs.Format.{Gives, byte, number};

use mpx_format::{ReadError, SHORT};

pub fn read_u8(bytes: &[u8]) -> Result<(u8, &[u8]), ReadError>
    ensures gives { Gives (λ x. (x.0, x.1.now)) result (byte.read bytes.now) }
    ensures memory { IfErr result (λ e. e ≢ ReadError.OutOfMemory) }
{
    match bytes {
        [] => Err(SHORT),
        [b, rest @ ..] => Ok((*b, rest)),
    }
}

pub fn read_u16(bytes: &[u8]) -> Result<(u16, &[u8]), ReadError>
    ensures gives { Gives (λ x. (x.0, x.1.now)) result ((number w16).read bytes.now) }
    ensures memory { IfErr result (λ e. e ≢ ReadError.OutOfMemory) }
{
    if bytes.len() < 2 {
        return Err(SHORT);
    }
    let (front, rest) = bytes.split_at(2);
    Ok((u16::from_be_bytes([front[0], front[1]]), rest))
}

pub fn read_u32(bytes: &[u8]) -> Result<(u32, &[u8]), ReadError>
    ensures gives { Gives (λ x. (x.0, x.1.now)) result ((number w32).read bytes.now) }
    ensures memory { IfErr result (λ e. e ≢ ReadError.OutOfMemory) }
{
    if bytes.len() < 4 {
        return Err(SHORT);
    }
    let (front, rest) = bytes.split_at(4);
    let number = u32::from_be_bytes([front[0], front[1], front[2], front[3]]);
    Ok((number, rest))
}
