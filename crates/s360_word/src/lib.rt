//! Arithmetic on words, with its condition codes: each call is an equation on whole numbers.
//!
//! A word is 32 bits, read as an unsigned number or as a signed one in two's complement. Nothing
//! here takes memory, and only a packed decimal number has an error. Source: GA22-6821,
//! "Fixed-Point Arithmetic" and "Logical Operations".
#![tactic(auto)]

mod arithmetic;
mod condition_code;
mod laws;
mod packed;
mod product;
mod protection_key;
mod register_number;
mod shifts;
mod unit;
mod word;

pub use arithmetic::{
    absolute, add_logical, add_signed, compare_logical, compare_signed, complement,
    negative_absolute, sub_logical, sub_signed, test,
};
pub use condition_code::{Cc, bits_condition};
pub use laws::{packed_restores, shift_overflow_is_a_lost_bit};
pub use packed::{PackedFault, from_packed, to_packed};
pub use product::{divide, multiply};
pub use protection_key::ProtectionKey;
pub use register_number::RegisterNumber;
pub use shifts::{
    shift_left, shift_left_double, shift_logical_left, shift_logical_left_double,
    shift_logical_right, shift_logical_right_double, shift_right, shift_right_double,
};
pub use unit::Unit;
pub use word::Word;
