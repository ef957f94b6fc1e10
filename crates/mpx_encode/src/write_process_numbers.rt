//! Writing the maps of frames: numbers of calls by process, and acknowledgements.
ghost use Rattle.std.specs.Prelude.{◌≡◌, ◌+◌, ◌++◌, ◌-◌, ◌^◌, ◌&&◌, ℕ, true, IfOk, IfSome, OnOk, length, nat_lt, nat_le};
ghost use Rattle.std.specs.FinMap.{is_sorted, len};
ghost use Rattle.std.specs.List.{list_all};
ghost use Rattle.std.specs.Ordering.{nat_cmp};
ghost use Rattle.mpx_board.specs.Parts.{OfProcesses, AcksView};
ghost use Rattle.mpx_board.specs.Tidy.{has_no_zero, is_tidy_numbers, is_tidy_acks};
ghost use Rattle.mpx_board.specs.Views.{view_of_numbers, view_of_acks};
ghost use Rattle.mpx_format.specs.Fields.{process, call, some_calls, numbers, fronts};
ghost use Rattle.join_nest.specs.Seen.{seen};
ghost use Rattle.mpx_encode.specs.Entries.{both_pass, entries_spelled, entry_spelled};
ghost use Rattle.mpx_encode.specs.Room.{room_left};

use crate::room::room_left;
use crate::write_entries::{WriteKey, WriteValue};
use crate::write_numbers::{write_u8, write_u32};
use join_core::{Max, OutOfMemory};
use mpx_board::VersionVector;
use mpx_group::Proc;
use mpx_rope::Rope;

impl WriteKey for Proc {
    ghost format = { process };

    ghost ready = { λ p. true };

    #[tactic(auto, unfolding(mpx_format::specs::Fields::process))]
    fn room_after(&self, room: usize) -> Option<usize> {
        let _number = self.number();
        room_left(1, room)
    }

    #[tactic(auto, unfolding(mpx_format::specs::Fields::process))]
    fn write(&self, out: &mut Rope) -> Result<(), OutOfMemory> {
        write_u8(self.number(), out)
    }
}

// The number of a call.
impl WriteKey for u32 {
    ghost format = { call };

    ghost ready = { λ k. nat_lt k (2 ^ 32 - 1) };

    #[tactic(auto, unfolding(mpx_format::specs::Fields::call))]
    fn room_after(&self, room: usize) -> Option<usize> {
        let _number = *self;
        room_left(4, room)
    }

    #[tactic(auto, unfolding(mpx_format::specs::Fields::call))]
    fn write(&self, out: &mut Rope) -> Result<(), OutOfMemory> {
        write_u32(*self, out)
    }
}

impl WriteValue for Max {
    ghost Seen = { ℕ };

    ghost seen = { λ n. n.0 };

    ghost format = { some_calls };

    ghost ready = { λ n. nat_lt 0 n };

    #[tactic(auto, unfolding(mpx_format::specs::Fields::some_calls))]
    fn room_after(&self, room: usize) -> Option<usize> {
        let _number = self.0;
        room_left(4, room)
    }

    #[tactic(auto, unfolding(mpx_format::specs::Fields::some_calls))]
    fn write(&self, out: &mut Rope) -> Result<(), OutOfMemory> {
        write_u32(self.0, out)
    }
}

impl WriteValue for VersionVector {
    ghost Seen = { OfProcesses ℕ };

    ghost seen = { view_of_numbers };

    ghost format = { numbers };

    ghost ready = { is_tidy_numbers };

    fn room_after(&self, room: usize) -> Option<usize> {
        room_after_rows(self.entries(), room)
    }

    fn write(&self, out: &mut Rope) -> Result<(), OutOfMemory> {
        let entries = self.entries();
        write_u8(entries.len() as u8, out)?;
        write_rows(entries, out)
    }
}

// What is left of so much room behind a byte and then the rows, each of five bytes.
fn room_after_rows(rows: &[(Proc, Max)], room: usize) -> Option<usize>
    requires rising { is_sorted nat_cmp rows.now ≡ true }
    requires some { list_all (λ e. nat_lt 0 e.1) (seen (λ n. n.0) rows.now) ≡ true }
    ensures value { result ≡ room_left (1 + length (entries_spelled process some_calls (seen (λ n. n.0) rows.now))) room }
    ensures fits { IfSome result (λ left. both_pass process.fits some_calls.fits (seen (λ n. n.0) rows.now) ≡ true) }
{
    pass_limits(rows);
    room_left(1 + 5 * rows.len(), room)
}

// Rows whose numbers aren't 0 are within all limits, by their types.
fn pass_limits(rows: &[(Proc, Max)])
    requires { list_all (λ e. nat_lt 0 e.1) (seen (λ n. n.0) rows.now) ≡ true }
    ensures { both_pass process.fits some_calls.fits (seen (λ n. n.0) rows.now) ≡ true }
{
    for row in rows {
        let _process = row.0.number();
        let _number = word(row.1.0);
    }
}

// The number, so that the proof knows its limit.
fn word(number: u32) -> u32
    ensures { result ≡ number }
{
    number
}

// What is left of so much room behind the fronts.
pub fn room_after_fronts(numbers: &VersionVector, room: usize) -> Option<usize>
    requires { has_no_zero (view_of_numbers numbers.now) ≡ true }
    ensures value { result ≡ room_left (length (fronts.spelling (view_of_numbers numbers.now))) room }
    ensures fits { IfSome result (λ left. fronts.fits (view_of_numbers numbers.now) ≡ true) }
{
    room_after_rows(numbers.entries(), room)
}

// Writes the fronts at the end.
pub fn write_fronts(numbers: &VersionVector, out: &mut Rope) -> Result<(), OutOfMemory>
    requires { fronts.fits (view_of_numbers numbers.now) ≡ true }
    ensures { OnOk result (out.new ≡ out.old ++ fronts.spelling (view_of_numbers numbers.now)) }
{
    let entries = numbers.entries();
    write_u8(entries.len() as u8, out)?;
    write_rows(entries, out)
}

// Writes processes with their numbers at the end, four at once as long as there are four.
fn write_rows(rows: &[(Proc, Max)], out: &mut Rope) -> Result<(), OutOfMemory>
    ensures { OnOk result (out.new ≡ out.old ++ entries_spelled process some_calls (seen (λ n. n.0) rows.now)) }
{
    let rest = write_fours(rows, out)?;
    for row in rest {
        out.extend_from_slice(&row_bytes(row))?;
    }
    Ok(())
}

// Writes fours of them at the end, and gives those that are left.
fn write_fours<'a>(
    rows: &'a [(Proc, Max)],
    out: &mut Rope,
) -> Result<&'a [(Proc, Max)], OutOfMemory>
    ensures { IfOk result (λ rest. out.new ++ entries_spelled process some_calls (seen (λ n. n.0) rest.now)
        ≡ out.old ++ entries_spelled process some_calls (seen (λ n. n.0) rows.now)) }
{
    let mut rest = rows;
    while let Some((four, after)) = rest.split_first_chunk::<4>() {
        out.extend_from_slice(&four_bytes(four))?;
        rest = after;
    }
    Ok(rest)
}

// The bytes of four.
fn four_bytes(rows: &[(Proc, Max); 4]) -> [u8; 20]
    ensures { result ≡ entries_spelled process some_calls (seen (λ n. n.0) rows.now) }
{
    let a = row_bytes(&rows[0]);
    let b = row_bytes(&rows[1]);
    let c = row_bytes(&rows[2]);
    let d = row_bytes(&rows[3]);
    [
        a[0], a[1], a[2], a[3], a[4], b[0], b[1], b[2], b[3], b[4], c[0], c[1], c[2], c[3], c[4],
        d[0], d[1], d[2], d[3], d[4],
    ]
}

// The five bytes of one.
#[tactic(auto, unfolding(mpx_format::specs::Fields::process, mpx_format::specs::Fields::some_calls))]
fn row_bytes(row: &(Proc, Max)) -> [u8; 5]
    ensures { result ≡ entry_spelled process some_calls (row.now.0, row.now.1.0) }
{
    let number = row.1.0.to_be_bytes();
    [row.0.number(), number[0], number[1], number[2], number[3]]
}
