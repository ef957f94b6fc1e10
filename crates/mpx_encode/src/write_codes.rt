//! The code of an operation.
ghost use Rattle.std.specs.Prelude.{◌≡◌, ◌<◌};
ghost use Rattle.mpx_num.specs.Codes.{code_of_operation};

use mpx_num::Op;

pub fn code_of_operation(op: Op) -> u8
    requires { code_of_operation op < 256 }
    ensures { result ≡ code_of_operation op }
{
    op.code() as u8
}
