//! What an instruction works on: the core as it finds it, the address of the next instruction, and its
//! own length.
ghost use Rattle.std.specs.Prelude.{◌≡◌, ◌<◌, ◌≤◌, length};
ghost use Rattle.s360_store.specs.Plans.{HasRegisters};
ghost use Rattle.s360_fixed.specs.View.{register_of};

use s360_psw::{InstructionLength, Psw};
use s360_store::{Core, Storage};
use s360_word::{RegisterNumber, Word};
use std::marker::Model;

/// What an instruction that was fetched works on. A contract sees the core, the address of the next
/// instruction and the length.
#[derive(Drop)]
pub struct View<'a> {
    core: &'a Core,
    next_address: u32,
    instruction_length: InstructionLength,
}

impl<'a> Model for View<'a> {
    ghost use Rattle.s360_fixed.specs.View.{View as Seen};

    ghost Value = { Seen };

    ghost view = { λ v. record { core = v.core.now; next_address = v.next_address; instruction_length = v.instruction_length } };
}

impl<'a> View<'a> {
    /// The view of an instruction of this length, after which the instruction at `next_address`
    /// comes.
    #[inline(always)]
    pub fn new(core: &'a Core, next_address: u32, instruction_length: InstructionLength) -> View<'a>
        ensures { result ≡ record { core = core.now; next_address = next_address; instruction_length = instruction_length } }
    {
        View {
            core,
            next_address,
            instruction_length,
        }
    }

    /// The core.
    #[inline(always)]
    pub fn core(&self) -> &Core
        ensures { result.now ≡ self.now.core }
    {
        self.core
    }

    /// The PSW.
    #[inline(always)]
    pub fn psw(&self) -> Psw
        ensures psw { result ≡ self.now.core.psw }
        ensures sixteen { HasRegisters self.now.core }
    {
        self.core.psw()
    }

    /// The word in a register.
    #[inline(always)]
    pub fn register(&self, register: RegisterNumber) -> Word
        ensures word { result ≡ register_of self.now register }
        ensures sixteen { HasRegisters self.now.core }
    {
        self.core.register(register)
    }

    /// Main storage.
    #[inline(always)]
    pub fn storage(&self) -> &Storage
        ensures storage { result.now ≡ self.now.core.storage }
        ensures small { length self.now.core.storage.bytes ≤ 1048576 }
    {
        self.core.storage()
    }

    /// The address of the next instruction.
    pub fn next_address(&self) -> u32
        ensures { result ≡ self.now.next_address }
    {
        self.next_address
    }

    /// The length of the instruction.
    pub fn instruction_length(&self) -> InstructionLength
        ensures { result ≡ self.now.instruction_length }
    {
        self.instruction_length
    }
}
