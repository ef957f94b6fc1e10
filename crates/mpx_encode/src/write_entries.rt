//! Keys and values that are written, and lists of them.
ghost use Rattle.std.specs.Prelude.{◌≡◌, ◌+◌, ◌++◌, ◌∷◌, [], ◌&&◌, OnOk, IfSome, true, Bool, length};
ghost use Rattle.std.specs.List.{flat_map, list_all};
ghost use Rattle.join_nest.specs.Seen.{seen};
ghost use Rattle.mpx_format.specs.Format.{Format};
ghost use Rattle.mpx_encode.specs.Room.{room_left};
ghost use Rattle.mpx_encode.specs.Entries.{entry_spelled, entries_spelled, both_pass};

use crate::room::room_left;
use crate::write_numbers::write_u8;
use join_core::OutOfMemory;
use mpx_rope::Rope;

/// A key that is written.
pub trait WriteKey: Ord + Drop {
    ghost format: { Format Self };

    /// What its place asks of it that its own type doesn't keep.
    ghost ready: { Self → Bool };

    /// What is left of so much room behind its spelling, where that fits. It takes no memory.
    fn room_after(&self, room: usize) -> Option<usize>
        requires { ready self.now ≡ true }
        ensures value { result ≡ room_left (length (format.spelling self.now)) room }
        ensures fits { IfSome result (λ left. format.fits self.now ≡ true) };

    /// Writes it at the end.
    fn write(&self, out: &mut Rope) -> Result<(), OutOfMemory>
        requires { format.fits self.now ≡ true }
        ensures { OnOk result (out.new ≡ out.old ++ format.spelling self.now) };

    /// Writes it at the end, and this byte behind it.
    fn write_before(&self, byte: u8, out: &mut Rope) -> Result<(), OutOfMemory>
        requires { format.fits self.now ≡ true }
        ensures { OnOk result (out.new ≡ out.old ++ format.spelling self.now ++ byte ∷ []) }
    {
        self.write(out)?;
        write_u8(byte, out)
    }
}

/// A value that is written.
pub trait WriteValue: Drop {
    /// What it says, wherever it lies in memory.
    ghost Seen: { Type 0 };

    ghost seen: { Self → Seen };

    ghost format: { Format Seen };

    /// What its place asks of it that its own type doesn't keep: no number is 0, no list of names is over 4,096, nothing is
    /// unknown or empty.
    ghost ready: { Seen → Bool };

    /// What is left of so much room behind its spelling, where that fits. It takes no memory.
    fn room_after(&self, room: usize) -> Option<usize>
        requires { ready (seen self.now) ≡ true }
        ensures value { result ≡ room_left (length (format.spelling (seen self.now))) room }
        ensures fits { IfSome result (λ left. format.fits (seen self.now) ≡ true) };

    /// Writes it at the end.
    fn write(&self, out: &mut Rope) -> Result<(), OutOfMemory>
        requires { format.fits (seen self.now) ≡ true }
        ensures { OnOk result (out.new ≡ out.old ++ format.spelling (seen self.now)) };

    /// The byte that spells it, where that is known to be all.
    fn only_byte(&self) -> Option<u8>
        ensures { IfSome result (λ byte. format.spelling (seen self.now) ≡ byte ∷ []) }
    {
        None
    }
}

// What is left of so much room behind these, one after the other.
#[tactic(auto, using(crate::proofs::Rooms::rooms))]
pub fn room_after_list<K: WriteKey>(list: &[K], room: usize) -> Option<usize>
    requires { list_all K.ready list.now ≡ true }
    ensures value { result ≡ room_left (length (flat_map K.format.spelling list.now)) room }
    ensures fits { IfSome result (λ left. list_all K.format.fits list.now ≡ true) }
{
    let mut left = room;
    for key in list {
        left = key.room_after(left)?;
    }
    Some(left)
}

// Writes these at the end, one after the other.
pub fn write_list<K: WriteKey>(list: &[K], out: &mut Rope) -> Result<(), OutOfMemory>
    requires { list_all K.format.fits list.now ≡ true }
    ensures { OnOk result (out.new ≡ out.old ++ flat_map K.format.spelling list.now) }
{
    for key in list {
        key.write(out)?;
    }
    Ok(())
}

// What is left of so much room behind the entries.
#[tactic(auto, using(crate::proofs::Rooms::rooms))]
pub fn room_after_entries<K: WriteKey, J: WriteValue>(
    entries: &[(K, J)],
    room: usize,
) -> Option<usize>
    requires { both_pass K.ready J.ready (seen J.seen entries.now) ≡ true }
    ensures value { result ≡ room_left (length (entries_spelled K.format J.format (seen J.seen entries.now))) room }
    ensures fits { IfSome result (λ left. both_pass K.format.fits J.format.fits (seen J.seen entries.now) ≡ true) }
{
    let mut left = room;
    for entry in entries {
        left = room_after_entry(entry, left)?;
    }
    Some(left)
}

#[tactic(auto, using(crate::proofs::Rooms::rooms))]
fn room_after_entry<K: WriteKey, J: WriteValue>(entry: &(K, J), room: usize) -> Option<usize>
    requires key { K.ready entry.now.0 ≡ true }
    requires value { J.ready (J.seen entry.now.1) ≡ true }
    ensures value { result ≡ room_left (length (entry_spelled K.format J.format (entry.now.0, J.seen entry.now.1))) room }
    ensures key_fits { IfSome result (λ left. K.format.fits entry.now.0 ≡ true) }
    ensures value_fits { IfSome result (λ left. J.format.fits (J.seen entry.now.1) ≡ true) }
{
    let left = entry.0.room_after(room)?;
    entry.1.room_after(left)
}

// What is left of so much room behind so many bytes and then the entries.
#[tactic(auto, using(crate::proofs::Rooms::rooms))]
pub fn room_after_counted<K: WriteKey, J: WriteValue>(
    count_len: usize,
    entries: &[(K, J)],
    room: usize,
) -> Option<usize>
    requires { both_pass K.ready J.ready (seen J.seen entries.now) ≡ true }
    ensures value { result ≡ room_left (count_len + length (entries_spelled K.format J.format (seen J.seen entries.now))) room }
    ensures fits { IfSome result (λ left. both_pass K.format.fits J.format.fits (seen J.seen entries.now) ≡ true) }
{
    let left = room_left(count_len, room)?;
    room_after_entries(entries, left)
}

// Writes the entries at the end.
pub fn write_entries<K: WriteKey, J: WriteValue>(
    entries: &[(K, J)],
    out: &mut Rope,
) -> Result<(), OutOfMemory>
    requires { both_pass K.format.fits J.format.fits (seen J.seen entries.now) ≡ true }
    ensures { OnOk result (out.new ≡ out.old ++ entries_spelled K.format J.format (seen J.seen entries.now)) }
{
    for entry in entries {
        write_entry(entry, out)?;
    }
    Ok(())
}

fn write_entry<K: WriteKey, J: WriteValue>(
    entry: &(K, J),
    out: &mut Rope,
) -> Result<(), OutOfMemory>
    requires key { K.format.fits entry.now.0 ≡ true }
    requires value { J.format.fits (J.seen entry.now.1) ≡ true }
    ensures { OnOk result (out.new ≡ out.old ++ entry_spelled K.format J.format (entry.now.0, J.seen entry.now.1)) }
{
    match entry.1.only_byte() {
        Some(byte) => entry.0.write_before(byte, out),
        None => {
            entry.0.write(out)?;
            entry.1.write(out)
        }
    }
}
