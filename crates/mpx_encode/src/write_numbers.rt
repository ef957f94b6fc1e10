//! Writing numbers, the highest byte first.
ghost use Rattle.std.specs.Prelude.{◌≡◌, ◌++◌, ◌∷◌, [], OnOk};
ghost use Rattle.std.specs.Int.{w16, w32, to_be_bytes};

use byteorder::{BigEndian, ByteOrder};
use join_core::OutOfMemory;
use mpx_rope::Rope;

pub fn write_u8(number: u8, out: &mut Rope) -> Result<(), OutOfMemory>
    ensures { OnOk result (out.new ≡ out.old ++ number ∷ []) }
{
    out.push(number)?;
    Ok(())
}

pub fn write_u16(number: u16, out: &mut Rope) -> Result<(), OutOfMemory>
    ensures { OnOk result (out.new ≡ out.old ++ to_be_bytes w16 number) }
{
    let mut bytes = [0u8; 2];
    BigEndian::write_u16(&mut bytes, number);
    out.extend_from_slice(&bytes)?;
    Ok(())
}

pub fn write_u32(number: u32, out: &mut Rope) -> Result<(), OutOfMemory>
    ensures { OnOk result (out.new ≡ out.old ++ to_be_bytes w32 number) }
{
    let mut bytes = [0u8; 4];
    BigEndian::write_u32(&mut bytes, number);
    out.extend_from_slice(&bytes)?;
    Ok(())
}
