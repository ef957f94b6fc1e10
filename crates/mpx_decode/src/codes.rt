//! Reading the codes of versions, kinds, modes, operations and types, and bytes that say yes or no.
ghost use Rattle.std.specs.Prelude.{◌≡◌, ◌<◌, ◌≤◌, ◌≢◌, nat_lt, IfErr, IfOk, is_some, true};
ghost use Rattle.std.specs.Option.{option_map_or};
ghost use Rattle.mpx_num.specs.Operations.{fits};
ghost use Rattle.mpx_kind.specs.Kinds.{may_be};
ghost use Rattle.mpx_format.specs.Format.{Gives};
ghost use Rattle.mpx_format.specs.Fields.{process};
ghost use Rattle.mpx_format.specs.Codes.{flag, is_operation_code, item_type, kind, kinds_in, mode, operation, version_byte, when};
ghost use Rattle.mpx_format.specs.Posts.{type_for};

use crate::big_endian::read_u8;
use crate::fields::read_process;
use mpx_format::{Defect, ReadError, Version, out_of_limits};
use mpx_kind::{Kind, Mode};
use mpx_num::{Op, Ty, may_stand};

// VERSIONS

/// The version at the front of these bytes, which stand behind the magic of a frame, and the bytes after it. An `Err` says that
/// they end there, or that the version is another one.
pub fn read_version(bytes: &[u8]) -> Result<(Version, &[u8]), ReadError>
    ensures gives { Gives (λ x. (x.0, x.1.now)) result (version_byte.read bytes.now) }
    ensures memory { IfErr result (λ e. e ≢ ReadError.OutOfMemory) }
{
    let (code, rest) = read_u8(bytes)?;
    if code == 1 {
        Ok((Version::One, rest))
    } else if code == 2 {
        Ok((Version::Two, rest))
    } else {
        Err(ReadError::Defect(Defect::BadVersion))
    }
}

// KINDS AND MODES

// How many kinds the version spells.
fn kinds_in(version: Version) -> u8
    ensures value { result ≡ kinds_in version }
    ensures few { result ≤ 27 }
{
    match version {
        Version::One => 26,
        Version::Two => 27,
    }
}

#[tactic(auto, unfolding(mpx_format::specs::Codes::kind))]
pub fn read_kind(version: Version, bytes: &[u8]) -> Result<(Kind, &[u8]), ReadError>
    ensures { Gives (λ x. (x.0, x.1.now)) result ((kind version).read bytes.now) }
{
    let (code, rest) = read_u8(bytes)?;
    if code < kinds_in(version) {
        Ok((Kind::at(code), rest))
    } else {
        Err(out_of_limits(bytes))
    }
}

// A mode of which calls of this kind may be.
#[tactic(auto, unfolding(mpx_format::specs::Codes::mode))]
pub fn read_mode(kind: Kind, bytes: &[u8]) -> Result<(Mode, &[u8]), ReadError>
    ensures read { Gives (λ x. (x.0, x.1.now)) result ((mode kind).read bytes.now) }
    ensures may { IfOk result (λ x. may_be x.0 kind ≡ true) }
{
    let (code, rest) = read_u8(bytes)?;
    if code == 0 {
        Ok((Mode::Blocking, rest))
    } else if code == 1 && kind.may_be_nonblocking() {
        Ok((Mode::Nonblocking, rest))
    } else {
        Err(out_of_limits(bytes))
    }
}

// OPERATIONS AND TYPES

// Whether the version spells an operation by this code.
fn is_operation_code(version: Version, code: u8) -> bool
    ensures { result ≡ is_operation_code version code }
{
    match version {
        Version::One => 0 < code && code < 13,
        Version::Two => (0 < code && code < 13) || (15 < code && code < 32),
    }
}

#[tactic(auto, unfolding(mpx_format::specs::Codes::operation))]
fn read_operation(version: Version, bytes: &[u8]) -> Result<(Op, &[u8]), ReadError>
    ensures { Gives (λ x. (x.0, x.1.now)) result ((operation version).read bytes.now) }
{
    let (code, rest) = read_u8(bytes)?;
    if is_operation_code(version, code) {
        Ok((Op::at(code), rest))
    } else {
        Err(out_of_limits(bytes))
    }
}

#[tactic(auto, unfolding(mpx_format::specs::Codes::item_type))]
fn read_item_type(bytes: &[u8]) -> Result<(Ty, &[u8]), ReadError>
    ensures { Gives (λ x. (x.0, x.1.now)) result (item_type.read bytes.now) }
{
    let (code, rest) = read_u8(bytes)?;
    if 0 < code && code < 10 {
        Ok((Ty::at(code), rest))
    } else {
        Err(out_of_limits(bytes))
    }
}

// The type, beside which the operation may stand where there is one.
fn read_type_for(op: Option<Op>, bytes: &[u8]) -> Result<(Ty, &[u8]), ReadError>
    ensures read { Gives (λ x. (x.0, x.1.now)) result ((type_for op).read bytes.now) }
    ensures fits { IfOk result (λ x. option_map_or (λ o. fits o x.0) op true ≡ true) }
{
    let (ty, rest) = read_item_type(bytes)?;
    match op {
        None => Ok((ty, rest)),
        Some(op) => {
            if may_stand(op, ty) {
                Ok((ty, rest))
            } else {
                Err(out_of_limits(bytes))
            }
        }
    }
}

// YES OR NO

#[tactic(auto, unfolding(mpx_format::specs::Codes::flag))]
pub fn read_flag(bytes: &[u8]) -> Result<(bool, &[u8]), ReadError>
    ensures { Gives (λ x. (x.0, x.1.now)) result (flag.read bytes.now) }
{
    let (code, rest) = read_u8(bytes)?;
    if code == 0 {
        Ok((false, rest))
    } else if code == 1 {
        Ok((true, rest))
    } else {
        Err(out_of_limits(bytes))
    }
}

// WHERE THE KIND HAS THEM

pub fn read_root(had: bool, bytes: &[u8]) -> Result<(Option<u8>, &[u8]), ReadError>
    ensures read { Gives (λ x. (x.0, x.1.now)) result ((when had process).read bytes.now) }
    ensures there { IfOk result (λ x. is_some x.0 ≡ had) }
    ensures below { IfOk result (λ x. option_map_or (λ r. nat_lt r 64) x.0 true ≡ true) }
{
    if had {
        let (root, rest) = read_process(bytes)?;
        Ok((Some(root), rest))
    } else {
        Ok((None, bytes))
    }
}

pub fn read_op(version: Version, had: bool, bytes: &[u8]) -> Result<(Option<Op>, &[u8]), ReadError>
    ensures read { Gives (λ x. (x.0, x.1.now)) result ((when had (operation version)).read bytes.now) }
    ensures there { IfOk result (λ x. is_some x.0 ≡ had) }
{
    if had {
        let (op, rest) = read_operation(version, bytes)?;
        Ok((Some(op), rest))
    } else {
        Ok((None, bytes))
    }
}

// The type of the items, beside which the operation may stand where there is one.
pub fn read_type(had: bool, op: Option<Op>, bytes: &[u8]) -> Result<(Option<Ty>, &[u8]), ReadError>
    ensures read { Gives (λ x. (x.0, x.1.now)) result ((when had (type_for op)).read bytes.now) }
    ensures there { IfOk result (λ x. is_some x.0 ≡ had) }
    ensures fits { IfOk result (λ x. option_map_or (λ ty. option_map_or (λ o. fits o ty) op true) x.0 true ≡ true) }
{
    if had {
        let (ty, rest) = read_type_for(op, bytes)?;
        Ok((Some(ty), rest))
    } else {
        Ok((None, bytes))
    }
}
