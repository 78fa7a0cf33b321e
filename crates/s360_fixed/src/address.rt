//! The addresses of operands. Source: GA22-6821, "System Structure", address generation.
ghost use Rattle.std.specs.Prelude.{◌≡◌, ◌<◌, ◌+◌, ◌^◌, length};
ghost use Rattle.s360_fixed.specs.Operands.{address_part, operand_address};
ghost use Rattle.s360_fixed.specs.Table.{displacement_at, high_digit, low_digit};

use crate::decoder::{displacement, high_register, low_register};
use crate::view::View;
use s360_word::{RegisterNumber, Word};

/// How many addresses there are.
pub const ADDRESSES: u32 = 1 << 24;

/// What a base or an index register adds: nothing where it is register 0.
fn address_part(view: &View, register: RegisterNumber) -> Word
    ensures { result ≡ address_part view.now.core.registers register }
{
    if register.number() == 0 {
        0
    } else {
        view.register(register)
    }
}

/// An operand's address: index plus base plus displacement, modulo 2^24.
#[inline(always)]
pub fn operand_address(
    view: &View,
    index: RegisterNumber,
    base: RegisterNumber,
    displacement: u16,
) -> u32
    ensures address { result ≡ operand_address view.now.core.registers index base displacement }
    ensures below { result < 2 ^ 24 }
{
    let sum = u64::from(address_part(view, index))
        + u64::from(address_part(view, base))
        + u64::from(displacement);
    (sum % u64::from(ADDRESSES)) as u32
}

/// The address that the base and the displacement of two bytes make, from one on.
#[inline(always)]
pub fn based_address(bytes: &[u8], i: usize, view: &View) -> u32
    requires { i + 1 < length bytes.now }
    ensures address { result ≡ operand_address view.now.core.registers 0 (high_digit bytes.now i) (displacement_at bytes.now i) }
    ensures below { result < 2 ^ 24 }
{
    let (base, displacement) = (high_register(bytes, i), displacement(bytes, i));
    operand_address(view, RegisterNumber::new(0), base, displacement)
}

/// The address of the operand in the format RX.
#[inline(always)]
pub fn indexed_address(bytes: &[u8], view: &View) -> u32
    requires { 3 < length bytes.now }
    ensures address { result ≡ operand_address view.now.core.registers (low_digit bytes.now 1) (high_digit bytes.now 2) (displacement_at bytes.now 2) }
    ensures below { result < 2 ^ 24 }
{
    let (base, displacement) = (high_register(bytes, 2), displacement(bytes, 2));
    operand_address(view, low_register(bytes, 1), base, displacement)
}
