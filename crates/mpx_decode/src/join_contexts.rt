//! What is said of contexts joined as its bytes are read.
ghost use Rattle.std.specs.Prelude.{◌≡◌, ◌≢◌, ◌++◌, ℕ, IfOk, List, Ok, OnErr, ◌≤◌, length};
ghost use Rattle.std.specs.Ordering.{nat_cmp};
ghost use Rattle.join_core.specs.Pair.{pair_between, pair_joining};
ghost use Rattle.join_nest.specs.Between.{keyed_between, trunc_between};
ghost use Rattle.join_nest.specs.Keyed.{keyed_joining};
ghost use Rattle.join_nest.specs.Lift.{dead};
ghost use Rattle.join_nest.specs.Trunc.{trunc_joining};
ghost use Rattle.mpx_board.specs.Parts.{LiftedView, call_between, call_joining, entry_between, entry_joining, lifted_between, lifted_between_laws, lifted_joining, lifted_laws, numbers_between, numbers_joining};
ghost use Rattle.mpx_board.specs.Views.{view_of_calls, view_of_entries, view_of_entry, view_of_lifted, view_of_numbers};
ghost use Rattle.mpx_format.specs.Contexts.{call_posts, context, held as held_format, lift_form, lifted, progress};
ghost use Rattle.mpx_format.specs.Fields.{call as call_format, fronts as fronts_format, name_count};
ghost use Rattle.mpx_decode.specs.Raising.{JoinsFront, PutsCall, RaisesCall, RaisesCalls, StandsInFront, StopsBetween, StopsCall, StopsCalls, contexts as contexts_format, row, rows};

use crate::big_endian::{read_u8, read_u32};
use crate::contexts::read_live;
use crate::entries::WireValue;
use crate::fields::{read_call, read_name_count};
use crate::join_births::raise_birth;
use crate::join_rows::{WireJoin, raise_map};
use join_core::{OutOfMemory, Pair};
use join_nest::{Keyed, Lift, Trunc};
use mpx_board::{CallPosts, Entry, Lifted, VersionVector};
use mpx_format::{ReadError, Version};
use mpx_name::Name;
use mpx_rope::Beyond;

// HELD CALLS

// The dropped front, and the calls at or above it.
fn raise_held<'a>(
    version: Version,
    beyond: &mut Beyond<'a>,
    held: &mut Trunc<CallPosts>,
    bytes: &'a [u8],
) -> Result<&'a [u8], OutOfMemory>
    requires { StandsInFront (held_format version) (bytes.now ++ beyond.old) }
    ensures ok { IfOk result (λ rest. JoinsFront (held_format version) (trunc_joining call_joining) (bytes.now ++ beyond.old) (rest.now ++ beyond.new) (view_of_calls held.old) (view_of_calls held.new)) }
    ensures err { OnErr result (StopsBetween (held_format version) (trunc_between call_between) (bytes.now ++ beyond.old) (view_of_calls held.old) (view_of_calls held.new)) }
    ensures less { length beyond.new ≤ length beyond.old }
{
    match read_u32(bytes) {
        Err(_) => Err(OutOfMemory),
        Ok((dropped, rest)) => match read_u32(rest) {
            Err(_) => Err(OutOfMemory),
            Ok((count, rest)) => {
                held.drop_below(dropped);
                raise_calls(version, beyond, held, count, rest)
            }
        },
    }
}

// So many calls.
fn raise_calls<'a>(
    version: Version,
    beyond: &mut Beyond<'a>,
    held: &mut Trunc<CallPosts>,
    count: u32,
    bytes: &'a [u8],
) -> Result<&'a [u8], OutOfMemory>
    requires { StandsInFront (rows nat_cmp call_format (call_posts version) count) (bytes.now ++ beyond.old) }
    ensures ok { IfOk result (λ rest. RaisesCalls (rows nat_cmp call_format (call_posts version) count) call_joining (bytes.now ++ beyond.old) (rest.now ++ beyond.new) (view_of_calls held.old) (view_of_calls held.new)) }
    ensures err { OnErr result (StopsCalls (rows nat_cmp call_format (call_posts version) count) call_between (bytes.now ++ beyond.old) (view_of_calls held.old) (view_of_calls held.new)) }
    ensures less { length beyond.new ≤ length beyond.old }
{
    let mut rest = bytes;
    for _ in 0..count {
        let after = raise_call(version, beyond, held, rest)?;
        rest = after;
    }
    Ok(rest)
}

// The call at the front. Where it is below the dropped front, it is passed over.
fn raise_call<'a>(
    version: Version,
    beyond: &mut Beyond<'a>,
    held: &mut Trunc<CallPosts>,
    bytes: &'a [u8],
) -> Result<&'a [u8], OutOfMemory>
    requires { StandsInFront (row call_format (call_posts version)) (bytes.now ++ beyond.old) }
    ensures ok { IfOk result (λ rest. RaisesCall (row call_format (call_posts version)) call_joining (bytes.now ++ beyond.old) (rest.now ++ beyond.new) (view_of_calls held.old) (view_of_calls held.new)) }
    ensures err { OnErr result (StopsCall (row call_format (call_posts version)) call_between (bytes.now ++ beyond.old) (view_of_calls held.old) (view_of_calls held.new)) }
    ensures less { length beyond.new ≤ length beyond.old }
{
    let Ok((call, rest)) = read_call(bytes) else {
        return Err(OutOfMemory);
    };
    match held.replace(&call, Keyed::new(beyond.alloc())) {
        None => put_call(version, beyond, held, call, rest),
        Some(mut posts) => {
            let raised = posts.raise(version, beyond, rest);
            held.replace(&call, posts);
            raised
        }
    }
}

// The posts of a call that isn't held are put in, unless it is below the dropped front.
fn put_call<'a>(
    version: Version,
    beyond: &mut Beyond<'a>,
    held: &mut Trunc<CallPosts>,
    call: u32,
    bytes: &'a [u8],
) -> Result<&'a [u8], OutOfMemory>
    requires { StandsInFront (call_posts version) (bytes.now ++ beyond.old) }
    ensures dropped { (view_of_calls held.new).dropped ≡ (view_of_calls held.old).dropped }
    ensures ok { IfOk result (λ rest. PutsCall (call_posts version) call (bytes.now ++ beyond.old) (rest.now ++ beyond.new) (view_of_calls held.old) (view_of_calls held.new)) }
    ensures err { OnErr result ((view_of_calls held.new).calls ≡ (view_of_calls held.old).calls) }
    ensures less { length beyond.new ≤ length beyond.old }
{
    let Ok((posts, rest)) = <CallPosts as WireJoin>::read_new(version, beyond, bytes) else {
        return Err(OutOfMemory);
    };
    if call < held.dropped() {
        return Ok(rest);
    }
    held.put(call, posts)?;
    Ok(rest)
}

// CONTEXTS

// How many calls each process has harvested.
fn raise_fronts<'a>(
    version: Version,
    beyond: &mut Beyond<'a>,
    fronts: &mut VersionVector,
    bytes: &'a [u8],
) -> Result<&'a [u8], OutOfMemory>
    requires { StandsInFront fronts_format (bytes.now ++ beyond.old) }
    ensures ok { IfOk result (λ rest. JoinsFront fronts_format numbers_joining (bytes.now ++ beyond.old) (rest.now ++ beyond.new) (view_of_numbers fronts.old) (view_of_numbers fronts.new)) }
    ensures err { OnErr result (StopsBetween fronts_format numbers_between (bytes.now ++ beyond.old) (view_of_numbers fronts.old) (view_of_numbers fronts.new)) }
    ensures less { length beyond.new ≤ length beyond.old }
{
    match read_u8(bytes) {
        Err(_) => Err(OutOfMemory),
        Ok((count, rest)) => {
            // numbers are spelled as fronts are, but that there is one
            if count == 0 {
                Ok(rest)
            } else {
                fronts.raise(version, beyond, bytes)
            }
        }
    }
}

// How far it is: the fronts and the held calls.
fn raise_progress<'a>(
    version: Version,
    beyond: &mut Beyond<'a>,
    known: &mut Pair<VersionVector, Trunc<CallPosts>>,
    bytes: &'a [u8],
) -> Result<&'a [u8], OutOfMemory>
    requires { StandsInFront (progress version) (bytes.now ++ beyond.old) }
    ensures ok { IfOk result (λ rest. JoinsFront (progress version) (pair_joining numbers_joining (trunc_joining call_joining)) (bytes.now ++ beyond.old) (rest.now ++ beyond.new)
        (view_of_numbers known.old.first, view_of_calls known.old.second) (view_of_numbers known.new.first, view_of_calls known.new.second)) }
    ensures err { OnErr result (StopsBetween (progress version) (pair_between numbers_between (trunc_between call_between)) (bytes.now ++ beyond.old)
        (view_of_numbers known.old.first, view_of_calls known.old.second) (view_of_numbers known.new.first, view_of_calls known.new.second)) }
    ensures less { length beyond.new ≤ length beyond.old }
{
    let rest = raise_fronts(version, beyond, &mut known.first, bytes)?;
    raise_held(version, beyond, &mut known.second, rest)
}

// A live context.
fn raise_context<'a>(
    version: Version,
    beyond: &mut Beyond<'a>,
    entry: &mut Entry,
    bytes: &'a [u8],
) -> Result<&'a [u8], OutOfMemory>
    requires { StandsInFront (context version) (bytes.now ++ beyond.old) }
    ensures ok { IfOk result (λ rest. JoinsFront (context version) entry_joining (bytes.now ++ beyond.old) (rest.now ++ beyond.new) (view_of_entry entry.old) (view_of_entry entry.new)) }
    ensures err { OnErr result (StopsBetween (context version) entry_between (bytes.now ++ beyond.old) (view_of_entry entry.old) (view_of_entry entry.new)) }
    ensures less { length beyond.new ≤ length beyond.old }
{
    let rest = raise_birth(version, beyond, &mut entry.first, bytes)?;
    raise_progress(version, beyond, &mut entry.second, rest)
}

// The same, where the taker's may be dead.
#[inline(never)]
fn raise_live<'a>(
    version: Version,
    beyond: &mut Beyond<'a>,
    known: &mut Lifted,
    bytes: &'a [u8],
) -> Result<&'a [u8], OutOfMemory>
    requires { StandsInFront (lift_form (context version) 0) (bytes.now ++ beyond.old) }
    ensures ok { IfOk result (λ rest. JoinsFront (lift_form (context version) 0) lifted_joining (bytes.now ++ beyond.old) (rest.now ++ beyond.new) (view_of_lifted known.old) (view_of_lifted known.new)) }
    ensures err { OnErr result (StopsBetween (lift_form (context version) 0) lifted_between (bytes.now ++ beyond.old) (view_of_lifted known.old) (view_of_lifted known.new)) }
    ensures less { length beyond.new ≤ length beyond.old }
{
    match known {
        Lift::Live(entry) => raise_context(version, beyond, entry, bytes),
        Lift::Dead => match read_live(version, beyond.source(), bytes) {
            Err(_) => Err(OutOfMemory),
            Ok((_live, rest)) => Ok(rest),
        },
    }
}

// Mostly it is dead already, and nothing is written.
fn bury(known: &mut Lifted)
    ensures { view_of_lifted known.new ≡ dead }
{
    match known {
        Lift::Dead => {}
        Lift::Live(_) => let_die(known),
    }
}

#[inline(never)]
fn let_die(known: &mut Lifted)
    ensures { view_of_lifted known.new ≡ dead }
{
    *known = Lift::Dead;
}

impl WireJoin for Lifted {
    ghost View = { LiftedView };

    ghost view = { view_of_lifted };

    ghost joining = { lifted_joining };

    ghost between = { lifted_between };

    ghost wire = { lifted };

    fn read_new<'a>(
        version: Version,
        beyond: &mut Beyond<'a>,
        bytes: &'a [u8],
    ) -> Result<(Lifted, &'a [u8]), ReadError> {
        <Lifted as WireValue>::read(version, beyond.source(), bytes)
    }

    fn raise<'a>(
        &mut self,
        version: Version,
        beyond: &mut Beyond<'a>,
        bytes: &'a [u8],
    ) -> Result<&'a [u8], OutOfMemory> {
        match version {
            Version::One => raise_live(version, beyond, self, bytes),
            Version::Two => match read_u8(bytes) {
                Err(_) => Err(OutOfMemory),
                Ok((form, rest)) => {
                    if form == 0 {
                        raise_live(version, beyond, self, rest)
                    } else {
                        bury(self);
                        Ok(rest)
                    }
                }
            },
        }
    }

    fn only_byte(&self, version: Version) -> Option<u8> {
        match version {
            Version::One => None,
            Version::Two => match self {
                Lift::Live(_) => None,
                Lift::Dead => Some(1),
            },
        }
    }

    ghost laws = { lifted_laws };

    ghost between_laws = { lifted_between_laws };
}

// What is said of contexts, by name.
pub fn raise_contexts<'a>(
    version: Version,
    beyond: &mut Beyond<'a>,
    contexts: &mut Keyed<Name, Lifted>,
    bytes: &'a [u8],
) -> Result<&'a [u8], OutOfMemory>
    requires { StandsInFront (contexts_format version) (bytes.now ++ beyond.old) }
    ensures ok { IfOk result (λ rest. JoinsFront (contexts_format version) (keyed_joining lifted_joining) (bytes.now ++ beyond.old) (rest.now ++ beyond.new) (view_of_entries contexts.old) (view_of_entries contexts.new)) }
    ensures err { OnErr result (StopsBetween (contexts_format version) (keyed_between lifted_between) (bytes.now ++ beyond.old) (view_of_entries contexts.old) (view_of_entries contexts.new)) }
    ensures some { OnErr result ((rest : List ℕ) → name_count.read bytes.now ≢ Ok (0, rest)) }
    ensures none { IfOk result (λ rest. (left : List ℕ) → name_count.read bytes.now ≡ Ok (0, left) → rest.now ≡ left) }
    ensures less { length beyond.new ≤ length beyond.old }
{
    match read_name_count(bytes) {
        Err(_) => Err(OutOfMemory),
        Ok((count, rest)) => {
            if count == 0 {
                return Ok(rest);
            }
            raise_map(version, beyond, contexts, count as usize, rest)
        }
    }
}
