//! Writing what frames say of contexts, and whole frames.
ghost use Rattle.std.specs.Prelude.{◌≡◌, ◌≤◌, ◌+◌, ◌++◌, ◌&&◌, false, not, true, IfSome, OnOk, length, nat_le};
ghost use Rattle.std.specs.FinMap.{len};
ghost use Rattle.std.specs.List.{list_all};
ghost use Rattle.join_core.specs.Flat.{FlatView};
ghost use Rattle.join_core.specs.FlatSeen.{flat_view};
ghost use Rattle.join_nest.specs.Seen.{seen};
ghost use Rattle.mpx_board.specs.Parts.{AcksView, CallView, LiftedView, OfProcesses, PartsView};
ghost use Rattle.mpx_board.specs.Tidy.{all_entries, are_tidy_acks, are_tidy_posts, is_tidy, is_tidy_acks, is_tidy_call, is_tidy_entry, is_tidy_lifted, is_unknown};
ghost use Rattle.mpx_board.specs.Views.{view_of_acks, view_of_call, view_of_calls, view_of_entry, view_of_lifted, view_of_parts};
ghost use Rattle.mpx_birth.specs.Births.{BirthView};
ghost use Rattle.mpx_post.specs.Posts.{Given};
ghost use Rattle.mpx_format.specs.declared.versions.Version.TheVariants.{Two};
ghost use Rattle.mpx_format.specs.Births.{birth as birth_format};
ghost use Rattle.mpx_format.specs.Contexts.{call_posts, context, frame, held as held_format, lifted, parts as parts_format, posted, told as told_format};
ghost use Rattle.mpx_format.specs.Encoding.{has_many_names, most_names};
ghost use Rattle.mpx_format.specs.Fields.{acks as acks_format, process};
ghost use Rattle.mpx_format.specs.Kept.{AreKept};
ghost use Rattle.mpx_encode.specs.Entries.{both_pass, entries_spelled};
ghost use Rattle.mpx_encode.specs.Keeping.{AreEntriesKept};
ghost use Rattle.mpx_encode.specs.Room.{room_left};

use crate::room::room_left;
use crate::write_births::{birth_len, write_birth};
use crate::write_entries::{WriteValue, room_after_counted, write_entries};
use crate::write_kept::{room_after_kept, write_kept};
use crate::write_numbers::{write_u8, write_u16, write_u32};
use crate::write_posts::{post_len, write_post};
use crate::write_process_numbers::{room_after_fronts, write_fronts};
use join_core::{Flat, OutOfMemory};
use join_nest::{Lift, Trunc};
use mpx_birth::Birth;
use mpx_board::{CallPosts, Digest, Entry, Lifted, Parts};
use mpx_format::Kept;
use mpx_group::Proc;
use mpx_post::Post;
use mpx_rope::Rope;

impl WriteValue for Flat<Post> {
    ghost Seen = { FlatView Given };

    ghost seen = { flat_view (λ p. p) };

    ghost format = { posted Two };

    ghost ready = { λ p. not (is_unknown p) };

    fn room_after(&self, room: usize) -> Option<usize> {
        match self {
            Flat::Unknown => room_left(1, room),
            Flat::Known(post) => room_left(1 + post_len(post), room),
            Flat::Clash => room_left(1, room),
        }
    }

    fn write(&self, out: &mut Rope) -> Result<(), OutOfMemory> {
        match self {
            Flat::Unknown => write_u8(0, out),
            Flat::Known(post) => {
                write_u8(1, out)?;
                write_post(post, out)
            }
            Flat::Clash => write_u8(2, out),
        }
    }
}

// What is left of so much room behind what is told of a birth.
fn room_after_birth(birth: &Flat<Birth>, room: usize) -> Option<usize>
    ensures value { result ≡ room_left (length ((told_format birth_format).spelling (flat_view (λ b. b) birth.now))) room }
    ensures fits { IfSome result (λ left. (told_format birth_format).fits (flat_view (λ b. b) birth.now) ≡ true) }
{
    match birth {
        Flat::Unknown => room_left(1, room),
        Flat::Known(birth) => room_left(1 + birth_len(birth), room),
        Flat::Clash => room_left(1, room),
    }
}

fn write_told_birth(birth: &Flat<Birth>, out: &mut Rope) -> Result<(), OutOfMemory>
    requires { (told_format birth_format).fits (flat_view (λ b. b) birth.now) ≡ true }
    ensures { OnOk result (out.new ≡ out.old ++ (told_format birth_format).spelling (flat_view (λ b. b) birth.now)) }
{
    match birth {
        Flat::Unknown => write_u8(0, out),
        Flat::Known(birth) => {
            write_u8(1, out)?;
            write_birth(birth, out)
        }
        Flat::Clash => write_u8(2, out),
    }
}

impl WriteValue for CallPosts {
    ghost Seen = { CallView };

    ghost seen = { view_of_call };

    ghost format = { call_posts Two };

    ghost ready = { are_tidy_posts };

    fn room_after(&self, room: usize) -> Option<usize> {
        room_after_counted(1, self.entries(), room)
    }

    fn write(&self, out: &mut Rope) -> Result<(), OutOfMemory> {
        let entries = self.entries();
        write_u8(entries.len() as u8, out)?;
        write_entries(entries, out)
    }
}

// What is left of so much room behind the dropped front and the calls at or above it.
fn room_after_held(held: &Trunc<CallPosts>, room: usize) -> Option<usize>
    requires { all_entries is_tidy_call (view_of_calls held.now).calls ≡ true }
    ensures value { result ≡ room_left (length ((held_format Two).spelling (view_of_calls held.now))) room }
    ensures fits { IfSome result (λ left. (held_format Two).fits (view_of_calls held.now) ≡ true) }
{
    let _dropped = held.dropped();
    room_after_counted(8, held.entries(), room)
}

fn write_held(held: &Trunc<CallPosts>, out: &mut Rope) -> Result<(), OutOfMemory>
    requires { (held_format Two).fits (view_of_calls held.now) ≡ true }
    ensures { OnOk result (out.new ≡ out.old ++ (held_format Two).spelling (view_of_calls held.now)) }
{
    let entries = held.entries();
    write_u32(held.dropped(), out)?;
    write_u32(entries.len() as u32, out)?;
    write_entries(entries, out)
}

// What is left of so much room behind what is known of a live context.
fn room_after_context(entry: &Entry, room: usize) -> Option<usize>
    requires { is_tidy_entry (view_of_entry entry.now) ≡ true }
    ensures value { result ≡ room_left (length ((context Two).spelling (view_of_entry entry.now))) room }
    ensures fits { IfSome result (λ left. (context Two).fits (view_of_entry entry.now) ≡ true) }
{
    let behind_birth = room_after_birth(&entry.first, room)?;
    let behind_fronts = room_after_fronts(&entry.second.first, behind_birth)?;
    room_after_held(&entry.second.second, behind_fronts)
}

fn write_context(entry: &Entry, out: &mut Rope) -> Result<(), OutOfMemory>
    requires { (context Two).fits (view_of_entry entry.now) ≡ true }
    ensures { OnOk result (out.new ≡ out.old ++ (context Two).spelling (view_of_entry entry.now)) }
{
    write_told_birth(&entry.first, out)?;
    write_fronts(&entry.second.first, out)?;
    write_held(&entry.second.second, out)
}

// What is left of so much room behind the byte of a live context, and what is known of it.
#[tactic(auto, using(crate::proofs::Rooms::rooms))]
fn room_after_live(entry: &Entry, room: usize) -> Option<usize>
    requires { is_tidy_entry (view_of_entry entry.now) ≡ true }
    ensures value { result ≡ room_left (1 + length ((context Two).spelling (view_of_entry entry.now))) room }
    ensures fits { IfSome result (λ left. (context Two).fits (view_of_entry entry.now) ≡ true) }
{
    let left = room_left(1, room)?;
    room_after_context(entry, left)
}

impl WriteValue for Lifted {
    ghost Seen = { LiftedView };

    ghost seen = { view_of_lifted };

    ghost format = { lifted Two };

    ghost ready = { is_tidy_lifted };

    #[tactic(auto, unfolding(mpx_format::specs::Contexts::lifted))]
    fn room_after(&self, room: usize) -> Option<usize> {
        match self {
            Lift::Live(entry) => room_after_live(entry, room),
            Lift::Dead => room_left(1, room),
        }
    }

    #[tactic(auto, unfolding(mpx_format::specs::Contexts::lifted))]
    fn write(&self, out: &mut Rope) -> Result<(), OutOfMemory> {
        match self {
            Lift::Live(entry) => {
                write_u8(0, out)?;
                write_context(entry, out)
            }
            Lift::Dead => write_u8(1, out),
        }
    }

    #[tactic(auto, unfolding(mpx_format::specs::Contexts::lifted))]
    fn only_byte(&self) -> Option<u8> {
        match self {
            Lift::Live(_) => None,
            Lift::Dead => Some(1),
        }
    }
}

impl WriteValue for Digest {
    ghost Seen = { AcksView };

    ghost seen = { view_of_acks };

    ghost format = { acks_format };

    ghost ready = { λ a. is_tidy_acks a && nat_le (len a) most_names };

    fn room_after(&self, room: usize) -> Option<usize> {
        room_after_counted(2, self.entries(), room)
    }

    fn write(&self, out: &mut Rope) -> Result<(), OutOfMemory> {
        let entries = self.entries();
        write_u16(entries.len() as u16, out)?;
        write_entries(entries, out)
    }
}

// What is left of so much room behind the frame of these parts.
pub fn room_after_frame(parts: &Parts, kept: Option<&Kept>, room: usize) -> Option<usize>
    requires tidy { is_tidy (view_of_parts parts.now) ≡ true }
    requires few { has_many_names (view_of_parts parts.now) ≡ false }
    requires kept { IfSome kept (λ k. AreKept k.now.of.items (view_of_parts parts.now).1) }
    ensures value { result ≡ room_left (length (frame.spelling (Two, view_of_parts parts.now))) room }
    ensures fits { IfSome result (λ left. frame.fits (Two, view_of_parts parts.now) ≡ true) }
{
    let names = parts.first.entries();
    let processes = parts.second.entries();
    let left = room_after_counted(7, names, room)?;
    room_after_all_acks(processes, kept, left)
}

// What is left of so much room behind a byte and then what all processes say.
fn room_after_all_acks(all: &[(Proc, Digest)], kept: Option<&Kept>, room: usize) -> Option<usize>
    requires ready { list_all (λ e. is_tidy_acks e.1 && nat_le (len e.1) most_names) (seen view_of_acks all.now) ≡ true }
    requires kept { IfSome kept (λ k. AreEntriesKept k.now.of.items (seen view_of_acks all.now)) }
    ensures value { result ≡ room_left (1 + length (entries_spelled process acks_format (seen view_of_acks all.now))) room }
    ensures fits { IfSome result (λ left. both_pass process.fits acks_format.fits (seen view_of_acks all.now) ≡ true) }
{
    match kept {
        None => room_after_counted(1, all, room),
        Some(kept) => room_after_kept(all, kept, room),
    }
}

// Writes the frame of these parts at the end.
pub fn write_frame(parts: &Parts, kept: &Kept, out: &mut Rope) -> Result<(), OutOfMemory>
    requires fits { frame.fits (Two, view_of_parts parts.now) ≡ true }
    requires kept { AreKept kept.now.of.items (view_of_parts parts.now).1 }
    ensures { OnOk result (out.new ≡ out.old ++ frame.spelling (Two, view_of_parts parts.now)) }
{
    let names = parts.first.entries();
    let processes = parts.second.entries();
    out.extend_from_slice(b"MPXG\x02")?;
    write_u16(names.len() as u16, out)?;
    write_entries(names, out)?;
    write_u8(processes.len() as u8, out)?;
    write_kept(processes, kept, out)
}
