//! The text of the ranks that have not posted to a call, with where they stand.
ghost use Rattle.std.specs.Prelude.{◌≡◌, ◌++◌, [], OnOk};
ghost use Rattle.mpx_waiting.specs.ToldLines.{follows, is_same_place, member_text, members_text, place_in, place_text, placed_text, row_text, standing};

use crate::number_text::push_decimal;
use join_core::OutOfMemory;
use mpx_eval::MissingMember;
use std::alloc::Global;

// Where a member stands that has not posted to a call.
#[derive(Clone, Copy)]
enum Whereabouts {
    // It has freed the communicator, and posts no more there.
    Closed,
    // It has finished.
    Finished,
    // It waits at this line.
    Line(u32),
}

/// Adds members with commas between. Those in a row that stand at one place are told together, where they are more than two.
pub fn push_members(
    alloc: Global,
    places: &[(u8, u32)],
    members: &[MissingMember],
    told: &mut Vec<u8>,
) -> Result<(), OutOfMemory>
    ensures { OnOk result (told.new.items ≡ told.old.items ++ members_text places.now members.now) }
{
    let Some((member, more)) = members.split_first() else {
        return Ok(());
    };
    let mut first = *member;
    let mut last = *member;
    for member in more {
        if !follows(places, last, *member) {
            push_row(alloc, places, first, last, told)?;
            told.extend_from_slice(b", ")?;
            first = *member;
        }
        last = *member;
    }
    push_row(alloc, places, first, last, told)
}

// Whether a member is the next rank, and stands where that one does.
fn follows(places: &[(u8, u32)], last: MissingMember, member: MissingMember) -> bool
    ensures { result ≡ follows places.now last member }
{
    u32::from(last.rank) + 1 == u32::from(member.rank)
        && is_same_place(place_in(places, last), place_in(places, member))
}

fn is_same_place(one: Whereabouts, other: Whereabouts) -> bool
    ensures { result ≡ is_same_place one other }
{
    match (one, other) {
        (Whereabouts::Closed, Whereabouts::Closed) => true,
        (Whereabouts::Closed, Whereabouts::Finished) => false,
        (Whereabouts::Closed, Whereabouts::Line(_)) => false,
        (Whereabouts::Finished, Whereabouts::Closed) => false,
        (Whereabouts::Finished, Whereabouts::Finished) => true,
        (Whereabouts::Finished, Whereabouts::Line(_)) => false,
        (Whereabouts::Line(_), Whereabouts::Closed) => false,
        (Whereabouts::Line(_), Whereabouts::Finished) => false,
        (Whereabouts::Line(one), Whereabouts::Line(other)) => one == other,
    }
}

// Adds members in a row that stand at one place, from the first to the last.
fn push_row(
    alloc: Global,
    places: &[(u8, u32)],
    first: MissingMember,
    last: MissingMember,
    told: &mut Vec<u8>,
) -> Result<(), OutOfMemory>
    ensures { OnOk result (told.new.items ≡ told.old.items ++ row_text places.now first last) }
{
    if first.rank == last.rank {
        return push_member(alloc, places, last, told);
    }
    if u32::from(first.rank) + 1 == u32::from(last.rank) {
        push_member(alloc, places, first, told)?;
        told.extend_from_slice(b", ")?;
        return push_member(alloc, places, last, told);
    }
    told.extend_from_slice(b"ranks ")?;
    push_decimal(alloc, told, u32::from(first.rank))?;
    told.extend_from_slice(b" to ")?;
    push_decimal(alloc, told, u32::from(last.rank))?;
    push_place(alloc, place_in(places, last), told)
}

// Adds a member, and where it stands.
fn push_member(
    alloc: Global,
    places: &[(u8, u32)],
    member: MissingMember,
    told: &mut Vec<u8>,
) -> Result<(), OutOfMemory>
    ensures { OnOk result (told.new.items ≡ told.old.items ++ member_text places.now member) }
{
    told.extend_from_slice(b"rank ")?;
    push_decimal(alloc, told, u32::from(member.rank))?;
    push_place(alloc, place_in(places, member), told)
}

// Adds where ranks stand.
fn push_place(alloc: Global, place: Whereabouts, told: &mut Vec<u8>) -> Result<(), OutOfMemory>
    ensures { OnOk result (told.new.items ≡ told.old.items ++ placed_text [] place) }
{
    told.extend_from_slice(b" (")?;
    push_standing(alloc, place, told)?;
    told.extend_from_slice(b")")?;
    Ok(())
}

// Adds the line at which a rank waits, or that it has finished, or freed the communicator.
fn push_standing(alloc: Global, place: Whereabouts, told: &mut Vec<u8>) -> Result<(), OutOfMemory>
    ensures { OnOk result (told.new.items ≡ told.old.items ++ place_text place) }
{
    match place {
        Whereabouts::Closed => Ok(told.extend_from_slice(b"closed")?),
        Whereabouts::Finished => Ok(told.extend_from_slice(b"finished")?),
        Whereabouts::Line(line) => {
            told.extend_from_slice(b"at line ")?;
            push_decimal(alloc, told, line)
        }
    }
}

// Where a member stands.
fn place_in(places: &[(u8, u32)], member: MissingMember) -> Whereabouts
    ensures { result ≡ place_in places.now member }
{
    if member.closed {
        return Whereabouts::Closed;
    }
    match standing(places, member.rank) {
        None => Whereabouts::Finished,
        Some(line) => Whereabouts::Line(line),
    }
}

// The line at which a rank waits, or none where it has finished.
fn standing(places: &[(u8, u32)], rank: u8) -> Option<u32>
    ensures { result ≡ standing places.now rank }
{
    for (waiting, line) in places {
        if *waiting == rank {
            return Some(*line);
        }
    }
    None
}
