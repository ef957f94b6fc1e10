//! Rows of acknowledgements that tell nothing new: they are passed over, and what is kept of them as it is spelled stays.
ghost use Rattle.std.specs.Prelude.{◌++◌, ◌<◌, ℕ, IfSome, IsTrue, List, length};
ghost use Rattle.std.specs.Ordering.{nat_cmp};
ghost use Rattle.std.specs.FinMap.{is_sorted};
ghost use Rattle.join_core.specs.Max.{max_joining};
ghost use Rattle.mpx_name.specs.Order.{name_cmp};
ghost use Rattle.mpx_board.specs.Parts.{numbers_joining};
ghost use Rattle.mpx_board.specs.Views.{view_of_numbers};
ghost use Rattle.mpx_format.specs.Fields.{name, numbers, process, some_calls};
ghost use Rattle.mpx_decode.specs.Raising.{JoinsFront, RaisesRow, RaisesRows, StandsInFront, row};

use crate::fields::read_some_byte;
use crate::join_rows::FrontKey;
use crate::process_numbers::front_row;
use join_core::Max;
use mpx_board::VersionVector;
use mpx_group::Proc;
use mpx_name::Name;

// The bytes behind the row at the front, where it has the name at this place and no number that is new.
pub fn behind_told<'a>(
    entries: &[(Name, VersionVector)],
    at: usize,
    bytes: &'a [u8],
) -> Option<&'a [u8]>
    requires rising { IsTrue (is_sorted name_cmp entries.now) }
    ensures within { IfSome result (λ rest. at < length entries.now) }
    ensures told { IfSome result (λ rest. (more : List ℕ) → StandsInFront (row name numbers) (bytes.now ++ more)
        → RaisesRow name_cmp view_of_numbers (row name numbers) numbers_joining (bytes.now ++ more) (rest.now ++ more) entries.now entries.now) }
{
    if entries.len() <= at {
        return None;
    }
    let entry = &entries[at];
    let rest = entry.0.behind(bytes)?;
    let after = behind_numbers(&entry.1, rest)?;
    Some(after)
}

// The bytes behind the numbers at the front, where they are of the same processes as these, and none is greater.
fn behind_numbers<'a>(held: &VersionVector, bytes: &'a [u8]) -> Option<&'a [u8]>
    ensures { IfSome result (λ rest. (more : List ℕ) → StandsInFront numbers (bytes.now ++ more)
        → JoinsFront numbers numbers_joining (bytes.now ++ more) (rest.now ++ more) (view_of_numbers held.now) (view_of_numbers held.now)) }
{
    let Ok((count, rest)) = read_some_byte(bytes) else {
        return None;
    };
    let rows = held.entries();
    if count as usize != rows.len() {
        return None;
    }
    let after = behind_rows(rows, rest)?;
    Some(after)
}

// The same without the count.
fn behind_rows<'a>(rows: &[(Proc, Max)], bytes: &'a [u8]) -> Option<&'a [u8]>
    requires { IsTrue (is_sorted nat_cmp rows.now) }
    ensures { IfSome result (λ rest. RaisesRows nat_cmp (λ n. n.0) (row process some_calls) max_joining (length rows.now) bytes.now rest.now rows.now rows.now) }
{
    let mut rest = bytes;
    for i in 0..rows.len() {
        match behind_row(rows, i, rest) {
            None => return None,
            Some(after) => rest = after,
        }
    }
    Some(rest)
}

// The bytes behind the number at the front, where it is of the process at this place, and isn't greater.
fn behind_row<'a>(rows: &[(Proc, Max)], at: usize, bytes: &'a [u8]) -> Option<&'a [u8]>
    requires within { at < length rows.now }
    requires rising { IsTrue (is_sorted nat_cmp rows.now) }
    ensures { IfSome result (λ rest. RaisesRow nat_cmp (λ n. n.0) (row process some_calls) max_joining bytes.now rest.now rows.now rows.now) }
{
    let (process, number, after) = front_row(bytes)?;
    let held = &rows[at];
    if process != held.0.number() || number == 0 || held.1.0 < number {
        return None;
    }
    Some(after)
}
