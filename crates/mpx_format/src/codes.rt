//! The code of a mode. Those of kinds, operations and types are their own crates'.
ghost use Rattle.std.specs.Prelude.{◌≡◌};
ghost use Rattle.mpx_format.specs.Codes.{code_of_mode};

use mpx_kind::Mode;

/// The byte by which frames spell a mode.
pub fn code_of_mode(mode: Mode) -> u8
    ensures { result ≡ code_of_mode mode }
{
    match mode {
        Mode::Blocking => 0,
        Mode::Nonblocking => 1,
    }
}
