//! What is said of births joined as its bytes are read. Where the taker has the birth, it is compared with its bytes where these stand.
ghost use Rattle.std.specs.Prelude.{◌≡◌, ◌++◌, IfOk, IfSome, Ok, OnErr, ◌≤◌, length};
ghost use Rattle.std.specs.Bool.{Decides};
ghost use Rattle.join_core.specs.Flat.{flat_joining};
ghost use Rattle.join_core.specs.FlatSeen.{flat_view};
ghost use Rattle.join_core.specs.Joins.{old_or_joined};
ghost use Rattle.mpx_birth.specs.Births.{same_birth};
ghost use Rattle.mpx_format.specs.Births.{birth as birth_format};
ghost use Rattle.mpx_format.specs.Contexts.{told as told_format};
ghost use Rattle.mpx_format.specs.Format.{byte};
ghost use Rattle.mpx_decode.specs.Raising.{JoinsFront, StandsInFront, StopsBetween};

use crate::big_endian::read_u8;
use crate::contexts::read_told;
use join_core::{Flat, Join, OutOfMemory};
use mpx_birth::Birth;
use mpx_format::{ReadError, Version};
use mpx_group::Proc;
use mpx_rope::{Beyond, Source};

// What is told of the birth.
pub fn raise_birth<'a>(
    version: Version,
    beyond: &mut Beyond<'a>,
    birth: &mut Flat<Birth>,
    bytes: &'a [u8],
) -> Result<&'a [u8], OutOfMemory>
    requires { StandsInFront (told_format birth_format) (bytes.now ++ beyond.old) }
    ensures ok { IfOk result (λ rest. JoinsFront (told_format birth_format) (flat_joining same_birth) (bytes.now ++ beyond.old) (rest.now ++ beyond.new) (flat_view (λ b. b) birth.old) (flat_view (λ b. b) birth.new)) }
    ensures err { OnErr result (StopsBetween (told_format birth_format) (old_or_joined (flat_joining same_birth)) (bytes.now ++ beyond.old) (flat_view (λ b. b) birth.old) (flat_view (λ b. b) birth.new)) }
    ensures less { length beyond.new ≤ length beyond.old }
{
    if let Some(rest) = behind_told(birth, bytes) {
        return Ok(rest);
    }
    let read: Result<(Flat<Birth>, &[u8]), ReadError> = read_told(
        version,
        Source::of(beyond.alloc()),
        bytes,
    );
    match read {
        Err(_) => Err(OutOfMemory),
        Ok((told, rest)) => {
            birth.join_in(beyond.alloc(), &told)?;
            Ok(rest)
        }
    }
}

// The bytes behind what is told, where it is a birth without a topology and just its bytes stand at the front.
fn behind_told<'a>(told: &Flat<Birth>, bytes: &'a [u8]) -> Option<&'a [u8]>
    ensures { IfSome result (λ rest. (told_format birth_format).read bytes.now ≡ Ok (flat_view (λ b. b) told.now, rest.now)) }
{
    match told {
        Flat::Known(birth) => match read_u8(bytes) {
            Err(_) => None,
            Ok((form, rest)) => {
                if form == 1 {
                    behind_birth(birth, rest)
                } else {
                    None
                }
            }
        },
        _ => None,
    }
}

// The bytes behind the birth, where it has no topology and just its bytes stand at the front.
fn behind_birth<'a>(birth: &Birth, bytes: &'a [u8]) -> Option<&'a [u8]>
    ensures { IfSome result (λ rest. birth_format.read bytes.now ≡ Ok (birth.now, rest.now)) }
{
    match birth.topology() {
        Some(_) => None,
        None => {
            let members = birth.members();
            match read_u8(bytes) {
                Err(_) => None,
                Ok((count, rest)) => {
                    if count as usize != members.len() {
                        return None;
                    }
                    let after = behind_members(members, rest)?;
                    behind_zero(after)
                }
            }
        }
    }
}

// The bytes behind the numbers of these members, where they stand at the front.
fn behind_members<'a>(members: &[Proc], bytes: &'a [u8]) -> Option<&'a [u8]>
    ensures { IfSome result (λ rest. bytes.now ≡ members.now ++ rest.now) }
{
    if bytes.len() < members.len() {
        return None;
    }
    let (there, rest) = bytes.split_at(members.len());
    if are_numbers(members, there) {
        Some(rest)
    } else {
        None
    }
}

// Whether these are the members' numbers. It looks at all, so that the compiler can take many at once.
fn are_numbers(members: &[Proc], numbers: &[u8]) -> bool
    ensures { Decides result (members.now ≡ numbers.now) }
{
    if members.len() != numbers.len() {
        return false;
    }
    let mut same = true;
    for i in 0..members.len() {
        same = same & (members[i].number() == numbers[i]);
    }
    same
}

// The bytes behind a zero.
fn behind_zero(bytes: &[u8]) -> Option<&[u8]>
    ensures { IfSome result (λ rest. byte.read bytes.now ≡ Ok (0, rest.now)) }
{
    match bytes {
        [] => None,
        [form, rest @ ..] => { if *form == 0 { Some(rest) } else { None } }
    }
}
