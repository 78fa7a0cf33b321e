//! The program status word and its fields, which a contract sees as the number of its 64 bits.
//! Source: GA22-6821, "System Structure", program status word, and "Status Switching".
ghost use Rattle.std.specs.Prelude.{◌≡◌, ◌<◌, ◌^◌};
ghost use Rattle.s360_model.specs.Psw.{IsCurrentPsw, current_psw, stored_psw, is_bit_one, channel_mask_of, external_mask_of, protection_key_of, ascii_mode_of};
ghost use Rattle.s360_model.specs.Psw.{machine_check_mask_of, wait_of, problem_state_of, condition_code_of, fixed_point_overflow_mask_of};
ghost use Rattle.s360_model.specs.Psw.{decimal_overflow_mask_of, exponent_underflow_mask_of, significance_mask_of, instruction_address_of, with_condition_code};
ghost use Rattle.s360_model.specs.Psw.{with_instruction_address, with_program_mask, with_system_mask};
ghost use Rattle.s360_psw.specs.InstructionLength.{length_code_of};

use crate::instruction_length::InstructionLength;
use s360_word::{Cc, ProtectionKey, Word};
use std::marker::Model;

// The weight of each field: what a one in its last bit counts for.

/// The system mask, the protection key and the modes and states: bits 0 to 15.
const LEFT_HALFWORD: u64 = 1 << 48;
/// The protection key: bits 8 to 11.
const PROTECTION_KEY: u64 = 1 << 52;
/// The interruption code: bits 16 to 31.
const INTERRUPTION_CODE: u64 = 1 << 32;
/// The instruction length code: bits 32 and 33.
const LENGTH_CODE: u64 = 1 << 30;
/// The condition code: bits 34 and 35.
const CONDITION_CODE: u64 = 1 << 28;

/// How many instruction addresses there are.
const ADDRESSES: u64 = 1 << 24;

/// The system mask: bits 0 to 7.
const SYSTEM_MASK: u64 = 1 << 56;

/// A current PSW: 64 bits, of which bits 16 to 33 are zero.
#[derive(Clone, Copy, PartialEq, Eq)]
pub struct Psw(u64);

impl Model for Psw {
    ghost use Rattle.std.specs.Prelude.{ℕ};
    ghost use Rattle.s360_model.specs.Psw.{IsCurrentPsw};

    ghost Value = { ℕ };

    ghost view = { λ psw. psw.0 };

    ghost invariant = { λ psw. IsCurrentPsw psw.0 };

    ghost inverse = { λ number. record { 0 = number } };
}

impl Psw {
    /// The PSW that a doubleword loads: bits 16 to 33, an interruption code and an instruction
    /// length code, are dropped.
    pub fn from_u64(doubleword: u64) -> Psw
        ensures { result ≡ current_psw doubleword }
    {
        Psw(doubleword / LEFT_HALFWORD * LEFT_HALFWORD + doubleword % LENGTH_CODE)
    }

    /// The doubleword that is stored for it, with this interruption code in bits 16 to 31 and this
    /// length in bits 32 and 33. Loaded again, it gives the same PSW.
    pub fn stored(self, interruption_code: u16, length: InstructionLength) -> u64
        ensures value { result ≡ stored_psw self interruption_code (length_code_of length) }
        ensures loads_again { current_psw result ≡ self }
        ensures current { IsCurrentPsw self }
    {
        self.0
            + u64::from(interruption_code) * INTERRUPTION_CODE
            + u64::from(length.code()) * LENGTH_CODE
    }

    /// Whether a bit is one. Bit 0 is the leftmost.
    fn is_bit_one(self, bit: u8) -> bool
        requires { bit < 64 }
        ensures { result ≡ is_bit_one self bit }
    {
        (self.0 >> (63 - bit)) % 2 == 1
    }

    /// Whether a channel, 0 to 6, may interrupt (bits 0 to 6).
    pub fn channel_mask(self, channel: u8) -> bool
        requires { channel < 7 }
        ensures { result ≡ channel_mask_of self channel }
    {
        self.is_bit_one(channel)
    }

    /// Whether the timer, the interrupt key and external signals may interrupt (bit 7).
    pub fn external_mask(self) -> bool
        ensures { result ≡ external_mask_of self }
    {
        self.is_bit_one(7)
    }

    /// The protection key, against which stores are checked (bits 8 to 11).
    pub fn protection_key(self) -> ProtectionKey
        ensures { result ≡ protection_key_of self }
    {
        ProtectionKey::new((self.0 / PROTECTION_KEY % 16) as u8)
    }

    /// Whether decimal results have the signs and zones of ASCII rather than EBCDIC (bit 12).
    pub fn ascii_mode(self) -> bool
        ensures { result ≡ ascii_mode_of self }
    {
        self.is_bit_one(12)
    }

    /// Whether a machine check may interrupt (bit 13).
    pub fn machine_check_mask(self) -> bool
        ensures { result ≡ machine_check_mask_of self }
    {
        self.is_bit_one(13)
    }

    /// Whether the CPU waits for an interruption and executes no instruction (bit 14).
    pub fn wait(self) -> bool
        ensures { result ≡ wait_of self }
    {
        self.is_bit_one(14)
    }

    /// Whether the CPU is in the problem state, where privileged operations are refused (bit 15).
    pub fn problem_state(self) -> bool
        ensures { result ≡ problem_state_of self }
    {
        self.is_bit_one(15)
    }

    /// The condition code (bits 34 and 35).
    pub fn condition_code(self) -> Cc
        ensures { result ≡ condition_code_of self }
    {
        Cc::new((self.0 / CONDITION_CODE % 4) as u8)
    }

    /// Whether a fixed-point overflow interrupts (bit 36).
    pub fn fixed_point_overflow_mask(self) -> bool
        ensures { result ≡ fixed_point_overflow_mask_of self }
    {
        self.is_bit_one(36)
    }

    /// Whether a decimal overflow interrupts (bit 37).
    pub fn decimal_overflow_mask(self) -> bool
        ensures { result ≡ decimal_overflow_mask_of self }
    {
        self.is_bit_one(37)
    }

    /// Whether an exponent underflow interrupts (bit 38).
    pub fn exponent_underflow_mask(self) -> bool
        ensures { result ≡ exponent_underflow_mask_of self }
    {
        self.is_bit_one(38)
    }

    /// Whether a lost significance interrupts (bit 39).
    pub fn significance_mask(self) -> bool
        ensures { result ≡ significance_mask_of self }
    {
        self.is_bit_one(39)
    }

    /// The address of the next instruction, in bytes from 0, below 2^24 (bits 40 to 63).
    pub fn instruction_address(self) -> u32
        ensures value { result ≡ instruction_address_of self }
        ensures below { result < 2 ^ 24 }
    {
        (self.0 % ADDRESSES) as u32
    }

    /// The same PSW with another condition code.
    pub fn with_condition_code(self, code: Cc) -> Psw
        ensures { result ≡ with_condition_code self code }
    {
        Psw(
            self.0 / LENGTH_CODE * LENGTH_CODE
                + u64::from(code.code()) * CONDITION_CODE
                + self.0 % CONDITION_CODE,
        )
    }

    /// The same PSW with the low 24 bits of this address, in bytes from 0, as the address of the
    /// next instruction.
    pub fn with_instruction_address(self, address: u32) -> Psw
        ensures { result ≡ with_instruction_address self address }
    {
        Psw(self.0 / ADDRESSES * ADDRESSES + u64::from(address) % ADDRESSES)
    }

    /// The same PSW with the condition code of bits 2 and 3 of a word, and the program mask of its
    /// bits 4 to 7.
    pub fn with_program_mask(self, word: Word) -> Psw
        ensures { result ≡ with_program_mask self word }
    {
        Psw(
            self.0 / LENGTH_CODE * LENGTH_CODE
                + u64::from(word) / ADDRESSES % 64 * ADDRESSES
                + self.0 % ADDRESSES,
        )
    }

    /// The same PSW with another system mask: the masks of channels 0 to 6 and the external mask,
    /// bits 0 to 7.
    pub fn with_system_mask(self, mask: u8) -> Psw
        ensures { result ≡ with_system_mask self mask }
    {
        Psw(u64::from(mask) * SYSTEM_MASK + self.0 % SYSTEM_MASK)
    }
}
