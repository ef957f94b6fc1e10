//! Writing names of contexts, and lists of members.
ghost use Rattle.std.specs.Prelude.{◌≡◌, ◌≤◌, ◌+◌, ◌++◌, ◌∷◌, [], true, OnOk, IfSome, length};
ghost use Rattle.std.specs.List.{flat_map, list_all};
ghost use Rattle.mpx_format.specs.Fields.{members as members_format, name, step, steps as steps_format};
ghost use Rattle.mpx_name.specs.declared.steps.Step.TheVariants.{Child, Gathering};
ghost use Rattle.mpx_encode.specs.Room.{room_left};

use crate::room::room_left;
use crate::write_entries::{WriteKey, room_after_list, write_list};
use crate::write_numbers::{write_u8, write_u16};
use join_core::OutOfMemory;
use mpx_group::Proc;
use mpx_name::{Name, Step};
use mpx_rope::Rope;

// Writes the members at the end.
pub fn write_members(members: &[Proc], out: &mut Rope) -> Result<(), OutOfMemory>
    requires { members_format.fits members.now ≡ true }
    ensures { OnOk result (out.new ≡ out.old ++ members_format.spelling members.now) }
{
    write_u8(members.len() as u8, out)?;
    write_list(members, out)
}

fn write_child(call: u32, colour: u32, out: &mut Rope) -> Result<(), OutOfMemory>
    ensures { OnOk result (out.new ≡ out.old ++ step.spelling (Child call colour)) }
{
    out.extend_from_slice(&child_bytes(call, colour))?;
    Ok(())
}

// The nine bytes of a step to a child.
#[tactic(auto, unfolding(mpx_format::specs::Fields::step, mpx_format::specs::Fields::child, mpx_format::specs::Fields::call, mpx_format::specs::Fields::colour))]
fn child_bytes(call: u32, colour: u32) -> [u8; 9]
    ensures { result ≡ step.spelling (Child call colour) }
{
    let a = call.to_be_bytes();
    let b = colour.to_be_bytes();
    [0, a[0], a[1], a[2], a[3], b[0], b[1], b[2], b[3]]
}

fn write_gathering(tag: u16, members: &[Proc], out: &mut Rope) -> Result<(), OutOfMemory>
    requires { members_format.fits members.now ≡ true }
    ensures { OnOk result (out.new ≡ out.old ++ step.spelling (Gathering tag members.now)) }
{
    write_u8(1, out)?;
    write_u16(tag, out)?;
    write_members(members, out)
}

impl WriteKey for Step {
    ghost format = { step };

    ghost ready = { step.fits };

    fn room_after(&self, room: usize) -> Option<usize> {
        match self {
            Step::Child { .. } => room_left(9, room),
            Step::Gathering { members, .. } => room_left(4 + usize::from(members.size()), room),
        }
    }

    fn write(&self, out: &mut Rope) -> Result<(), OutOfMemory> {
        match self {
            Step::Child { call, colour } => write_child(*call, *colour, out),
            Step::Gathering { tag, members } => write_gathering(*tag, members.members(), out),
        }
    }
}

// What is left of so much room behind the steps: mostly there is one, to a child.
fn room_after_steps(steps: &[Step], room: usize) -> Option<usize>
    requires { list_all step.fits steps.now ≡ true }
    ensures value { result ≡ room_left (length (flat_map step.spelling steps.now)) room }
    ensures fits { IfSome result (λ left. list_all step.fits steps.now ≡ true) }
{
    if steps.len() == 1 {
        if let Step::Child { .. } = &steps[0] {
            return room_left(9, room);
        }
    }
    room_after_list(steps, room)
}

// Writes the name of this step alone at the end, as most names are.
#[tactic(auto, unfolding(mpx_format::specs::Fields::steps, mpx_format::specs::Fields::step_count, mpx_format::specs::Fields::step, mpx_format::specs::Fields::child, mpx_format::specs::Fields::call, mpx_format::specs::Fields::colour))]
fn write_only(call: u32, colour: u32, out: &mut Rope) -> Result<(), OutOfMemory>
    ensures { OnOk result (out.new ≡ out.old ++ steps_format.spelling (Child call colour ∷ [])) }
{
    let a = call.to_be_bytes();
    let b = colour.to_be_bytes();
    out.extend_from_slice(&[1, 0, a[0], a[1], a[2], a[3], b[0], b[1], b[2], b[3]])?;
    Ok(())
}

// And this byte behind it.
#[tactic(auto, unfolding(mpx_format::specs::Fields::steps, mpx_format::specs::Fields::step_count, mpx_format::specs::Fields::step, mpx_format::specs::Fields::child, mpx_format::specs::Fields::call, mpx_format::specs::Fields::colour))]
fn write_only_before(call: u32, colour: u32, byte: u8, out: &mut Rope) -> Result<(), OutOfMemory>
    ensures { OnOk result (out.new ≡ out.old ++ (steps_format.spelling (Child call colour ∷ []) ++ byte ∷ [])) }
{
    let a = call.to_be_bytes();
    let b = colour.to_be_bytes();
    out.extend_from_slice(&[1, 0, a[0], a[1], a[2], a[3], b[0], b[1], b[2], b[3], byte])?;
    Ok(())
}

// Writes the name of these steps at the end.
#[inline(never)]
fn write_counted(steps: &[Step], out: &mut Rope) -> Result<(), OutOfMemory>
    requires { steps_format.fits steps.now ≡ true }
    ensures { OnOk result (out.new ≡ out.old ++ steps_format.spelling steps.now) }
{
    write_u8(steps.len() as u8, out)?;
    write_list(steps, out)
}

impl WriteKey for Name {
    ghost format = { name };

    ghost ready = { λ n. true };

    fn room_after(&self, room: usize) -> Option<usize> {
        // so that the proof knows its limits
        let _depth = self.depth();
        let steps = self.steps();
        let left = room_left(1, room)?;
        room_after_steps(steps, left)
    }

    fn write(&self, out: &mut Rope) -> Result<(), OutOfMemory> {
        let steps = self.steps();
        if steps.len() == 0 {
            return write_u8(0, out);
        }
        if steps.len() == 1 {
            if let Step::Child { call, colour } = &steps[0] {
                return write_only(*call, *colour, out);
            }
        }
        write_counted(steps, out)
    }

    fn write_before(&self, byte: u8, out: &mut Rope) -> Result<(), OutOfMemory> {
        let steps = self.steps();
        if steps.len() == 1 {
            if let Step::Child { call, colour } = &steps[0] {
                return write_only_before(*call, *colour, byte, out);
            }
        }
        self.write(out)?;
        write_u8(byte, out)
    }
}
