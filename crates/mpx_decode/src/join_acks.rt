//! Acknowledgements joined as their bytes are read.
ghost use Rattle.std.specs.Prelude.{◌≡◌, ◌≢◌, ◌<◌, ◌-◌, ◌++◌, ◌^◌, ◌∷◌, ℕ, [], IfOk, IfSome, List, Ok, OnErr, length, reverse, ◌≤◌};
ghost use Rattle.std.specs.FinMap.{FinMap};
ghost use Rattle.std.specs.Ordering.{nat_cmp};
ghost use Rattle.join_core.specs.laws.Between.{old_or_joined-laws};
ghost use Rattle.join_core.specs.Joins.{old_or_joined};
ghost use Rattle.join_core.specs.Max.{max_joining};
ghost use Rattle.join_core.specs.laws.Max.{max_laws};
ghost use Rattle.join_nest.specs.Seen.{keyed_view};
ghost use Rattle.mpx_name.specs.Order.{name_cmp};
ghost use Rattle.join_nest.specs.Keyed.{keyed_joining};
ghost use Rattle.join_nest.specs.Between.{keyed_between};
ghost use Rattle.mpx_board.specs.Parts.{acks_between, acks_between_laws, acks_joining, acks_laws, numbers_between, numbers_between_laws, numbers_joining, numbers_laws};
ghost use Rattle.mpx_board.specs.Views.{view_of_all_acks};
ghost use Rattle.mpx_name.specs.Name.{IsName, IsStep};
ghost use Rattle.mpx_name.specs.declared.steps.Step.TheVariants.{Child};
ghost use Rattle.mpx_format.specs.Format.{byte, many_read};
ghost use Rattle.mpx_format.specs.Fields.{all_acks, acks, colour as colour_format, name, numbers, process, some_calls, step as step_format};
ghost use Rattle.mpx_decode.specs.Raising.{JoinsFront, StandsInFront, StopsBetween};

use crate::big_endian::{read_u8, read_u32};
use crate::entries::WireValue;
use crate::fields::{read_some_byte, read_some_calls, read_some_names};
use crate::join_numbers::raise_numbers;
use crate::join_rows::{FrontKey, WireJoin, raise_map};
use crate::process_numbers::front_row;
use join_core::{Max, OutOfMemory};
use join_nest::Keyed;
use mpx_board::{Digest, VersionVector};
use mpx_format::{ReadError, Version};
use mpx_group::Proc;
use mpx_name::{Name, Step};
use mpx_rope::{Beyond, Source};
use std::mem;

impl FrontKey for Proc {
    #[tactic(auto, unfolding(mpx_format::specs::Fields::process))]
    fn behind<'a>(&self, bytes: &'a [u8]) -> Option<&'a [u8]> {
        match bytes {
            [] => None,
            [number, rest @ ..] => {
                if *number == self.number() {
                    Some(rest)
                } else {
                    None
                }
            }
        }
    }
}

impl FrontKey for Name {
    #[inline(always)]
    fn behind<'a>(&self, bytes: &'a [u8]) -> Option<&'a [u8]> {
        let steps = self.steps();
        if steps.len() == 0 {
            return behind_world(bytes);
        }
        if steps.len() == 1 {
            if let Step::Child { call, colour } = &steps[0] {
                return behind_only(*call, *colour, bytes);
            }
        }
        behind_counted(steps, bytes)
    }
}

// The bytes behind the name of no step.
#[tactic(auto, unfolding(mpx_format::specs::Fields::name, mpx_format::specs::Fields::steps, mpx_format::specs::Fields::step_count, mpx_format::specs::Format::many_read))]
fn behind_world(bytes: &[u8]) -> Option<&[u8]>
    ensures { IfSome result (λ rest. name.read bytes.now ≡ Ok ([], rest.now)) }
{
    match bytes {
        [] => None,
        [count, rest @ ..] => { if *count == 0 { Some(rest) } else { None } }
    }
}

// The bytes behind the name of this step alone, as most names are.
fn behind_only(call: u32, colour: u32, bytes: &[u8]) -> Option<&[u8]>
    requires call { call < 2 ^ 32 - 1 }
    requires colour { colour < 2 ^ 31 }
    ensures { IfSome result (λ rest. name.read bytes.now ≡ Ok (Child call colour ∷ [], rest.now)) }
{
    // so that its parts are all there
    if bytes.len() < 10 {
        return None;
    }
    match read_u8(bytes) {
        Err(_) => None,
        Ok((count, rest)) => {
            if count == 1 {
                behind_child(call, colour, rest)
            } else {
                None
            }
        }
    }
}

// The bytes behind the name of these steps.
#[inline(never)]
fn behind_counted<'a>(steps: &[Step], bytes: &'a [u8]) -> Option<&'a [u8]>
    requires { IsName steps.now }
    ensures { IfSome result (λ rest. name.read bytes.now ≡ Ok (reverse steps.now, rest.now)) }
{
    match read_u8(bytes) {
        Err(_) => None,
        Ok((count, rest)) => {
            if count as usize == steps.len() {
                behind_steps(steps, rest)
            } else {
                None
            }
        }
    }
}

// The bytes behind these steps, where they stand at the front and none is a gathering.
fn behind_steps<'a>(steps: &[Step], bytes: &'a [u8]) -> Option<&'a [u8]>
    requires { IsName steps.now }
    ensures { IfSome result (λ rest. many_read (λ before. step_format) (length steps.now) [] bytes.now ≡ Ok (steps.now, rest.now)) }
{
    let mut rest = bytes;
    for i in 0..steps.len() {
        match behind_step(&steps[i], rest) {
            None => return None,
            Some(after) => rest = after,
        }
    }
    Some(rest)
}

fn behind_step<'a>(step: &Step, bytes: &'a [u8]) -> Option<&'a [u8]>
    requires { IsStep step.now }
    ensures { IfSome result (λ rest. step_format.read bytes.now ≡ Ok (step.now, rest.now)) }
{
    match step {
        Step::Gathering { .. } => None,
        Step::Child { call, colour } => behind_child(*call, *colour, bytes),
    }
}

#[tactic(auto, unfolding(mpx_format::specs::Fields::step, mpx_format::specs::Fields::child, mpx_format::specs::Fields::call, mpx_format::specs::Fields::colour))]
fn behind_child(call: u32, colour: u32, bytes: &[u8]) -> Option<&[u8]>
    requires call { call < 2 ^ 32 - 1 }
    requires colour { colour < 2 ^ 31 }
    ensures { IfSome result (λ rest. step_format.read bytes.now ≡ Ok (Child call colour, rest.now)) }
{
    match front_row(bytes) {
        None => None,
        Some((form, number, after)) => {
            if form == 0 && number == call {
                behind_colour(colour, after)
            } else {
                None
            }
        }
    }
}

#[tactic(auto, unfolding(mpx_format::specs::Fields::colour))]
fn behind_colour(colour: u32, bytes: &[u8]) -> Option<&[u8]>
    requires { colour < 2 ^ 31 }
    ensures { IfSome result (λ rest. colour_format.read bytes.now ≡ Ok (colour, rest.now)) }
{
    match read_u32(bytes) {
        Err(_) => None,
        Ok((number, rest)) => { if number == colour { Some(rest) } else { None } }
    }
}

impl WireJoin for Max {
    ghost View = { ℕ };

    ghost view = { λ m. m.0 };

    ghost joining = { max_joining };

    ghost between = { old_or_joined max_joining };

    ghost wire = { λ version. some_calls };

    fn read_new<'a>(
        version: Version,
        beyond: &mut Beyond<'a>,
        bytes: &'a [u8],
    ) -> Result<(Max, &'a [u8]), ReadError> {
        <Max as WireValue>::read(version, Source::of(beyond.alloc()), bytes)
    }

    fn raise<'a>(
        &mut self,
        _version: Version,
        _beyond: &mut Beyond<'a>,
        bytes: &'a [u8],
    ) -> Result<&'a [u8], OutOfMemory> {
        match read_some_calls(bytes) {
            Err(_) => Err(OutOfMemory),
            Ok((number, rest)) => {
                if self.0 < number {
                    self.0 = number;
                }
                Ok(rest)
            }
        }
    }

    ghost laws = { max_laws };

    ghost between_laws = { old_or_joined-laws max_laws };
}

impl WireJoin for VersionVector {
    ghost View = { FinMap nat_cmp ℕ };

    ghost view = { λ m. keyed_view nat_cmp (λ n. n.0) m.entries.items };

    ghost joining = { numbers_joining };

    ghost between = { numbers_between };

    ghost wire = { λ version. numbers };

    fn read_new<'a>(
        version: Version,
        beyond: &mut Beyond<'a>,
        bytes: &'a [u8],
    ) -> Result<(VersionVector, &'a [u8]), ReadError> {
        <VersionVector as WireValue>::read(version, Source::of(beyond.alloc()), bytes)
    }

    fn raise<'a>(
        &mut self,
        version: Version,
        beyond: &mut Beyond<'a>,
        bytes: &'a [u8],
    ) -> Result<&'a [u8], OutOfMemory> {
        match read_some_byte(bytes) {
            Err(_) => Err(OutOfMemory),
            Ok((count, rest)) => {
                let mut entries = mem::replace(self, Keyed::new(beyond.alloc())).into_entries();
                let raised = raise_numbers(version, beyond, &mut entries, count as usize, rest);
                *self = Keyed::from_rising(entries);
                raised
            }
        }
    }

    ghost laws = { numbers_laws };

    ghost between_laws = { numbers_between_laws };
}

impl WireJoin for Digest {
    ghost View = { FinMap name_cmp (FinMap nat_cmp ℕ) };

    ghost view = { λ a. keyed_view name_cmp (λ m. keyed_view nat_cmp (λ n. n.0) m.entries.items) a.entries.items };

    ghost joining = { acks_joining };

    ghost between = { acks_between };

    ghost wire = { λ version. acks };

    fn read_new<'a>(
        version: Version,
        beyond: &mut Beyond<'a>,
        bytes: &'a [u8],
    ) -> Result<(Digest, &'a [u8]), ReadError> {
        <Digest as WireValue>::read(version, Source::of(beyond.alloc()), bytes)
    }

    fn raise<'a>(
        &mut self,
        version: Version,
        beyond: &mut Beyond<'a>,
        bytes: &'a [u8],
    ) -> Result<&'a [u8], OutOfMemory> {
        match read_some_names(bytes) {
            Err(_) => Err(OutOfMemory),
            Ok((count, rest)) => raise_map(version, beyond, self, count as usize, rest),
        }
    }

    ghost laws = { acks_laws };

    ghost between_laws = { acks_between_laws };
}
