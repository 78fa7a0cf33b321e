//! What keeps an operand in storage from being used. Source: GA22-6821, "System Structure",
//! information positioning, and "Interruptions", program interruption.
ghost use Rattle.std.specs.Prelude.{◌≡◌, ◌<◌, IfNone};
ghost use Rattle.s360_store.specs.Plans.{HasBytes};
ghost use Rattle.s360_fixed.specs.Operands.{access_conditions};
ghost use Rattle.s360_fixed.specs.ProgramCodes.{program_code};

use crate::program_code::ProgramCode;
use crate::view::View;
use s360_store::Access;

/// What keeps an operand of so many bytes from being used with the key of the PSW: it is off its
/// boundary, a multiple of so many bytes, or it is outside storage, or it is protected, found in this
/// order.
#[inline(always)]
pub fn operand_exception(
    view: &View,
    address: u32,
    boundary: u32,
    count: u32,
    kind: Access,
) -> Option<ProgramCode>
    requires { 0 < boundary }
    ensures code { result ≡ program_code (access_conditions view.now.core address boundary count kind) }
    ensures inside { IfNone result (HasBytes address count view.now.core) }
{
    if address % boundary != 0 {
        return Some(ProgramCode::Specification);
    }
    let key = view.psw().protection_key();
    ProgramCode::of_access(view.storage().check(address, count, kind, key))
}
