//! Conversions between a word in a register and a packed decimal number in storage. Source:
//! GA22-6821, "Fixed-Point Arithmetic", CONVERT TO BINARY and CONVERT TO DECIMAL.
ghost use Rattle.std.specs.Prelude.{IfOk};
ghost use Rattle.s360_model.specs.Packed.{packed_value};
ghost use Rattle.s360_fixed.specs.Plans.{PutsNothing, PutsOutcome};
ghost use Rattle.s360_logic.specs.Converting.{conversion_outcome, converted_outcome};

use crate::row::Conversion;
use s360_fixed::{CodeSetting, Effect, Ended, ProgramCode, View, operand_exception, put_store};
use s360_store::{Access, Puts};
use s360_word::{PackedFault, RegisterNumber, Word, from_packed, to_packed};
use std::alloc::AllocError;

/// Bytes of a doubleword, and its boundary.
const DOUBLEWORD: u32 = 8;

/// Puts the word of a packed decimal number.
fn put_converted<P: Puts>(
    view: &View,
    r1: RegisterNumber,
    doubleword: u64,
    puts: &mut P,
) -> Result<Ended, AllocError>
    requires none { PutsNothing P.Puts puts.old view.now }
    ensures { IfOk result (PutsOutcome P.Puts puts.new view.now (converted_outcome (packed_value doubleword) view.now r1)) }
{
    match from_packed(doubleword) {
        Ok(word) => Effect::single(word, CodeSetting::unchanged()).put_alone(
            view,
            r1,
            view.next_address(),
            puts,
        ),
        Err(PackedFault::BadDigit) => Ok(Ended::Program(ProgramCode::Data)),
        Err(PackedFault::TooLarge(low)) => {
            let effect = Effect::single(low, CodeSetting::unchanged());
            effect.put(view, r1, view.next_address(), puts)?;
            Ok(Ended::Program(ProgramCode::FixedPointDivide))
        }
    }
}

/// Puts a conversion.
pub(crate) fn put_conversion<P: Puts>(
    view: &View,
    conversion: Conversion,
    r1: RegisterNumber,
    address: u32,
    puts: &mut P,
) -> Result<Ended, AllocError>
    requires none { PutsNothing P.Puts puts.old view.now }
    ensures { IfOk result (PutsOutcome P.Puts puts.new view.now (conversion_outcome conversion view.now r1 address)) }
{
    match conversion {
        Conversion::ToBinary => {
            match operand_exception(view, address, DOUBLEWORD, DOUBLEWORD, Access::Fetch) {
                Some(code) => Ok(Ended::Program(code)),
                None => put_converted(view, r1, view.storage().double(address), puts),
            }
        }
        Conversion::ToDecimal => {
            let packed = to_packed(view.register(r1), view.psw().ascii_mode());
            put_store(view, address, &packed.to_be_bytes(), puts)
        }
    }
}
