//! What gdb writes into the machine, each an event of its own, which stands and can be taken back. Source: gdb manual,
//! "Packets", `M`, `X`, `P` and `G`.
ghost use Rattle.std.specs.Prelude.{◌≡◌, ◌+◌, ◌-◌, ◌^◌, ◌<◌, ◌≤◌, ◌∷◌, ◌||◌, [], length, nat_le, None, if◌then◌else◌};
ghost use Rattle.s360_machine.specs.Machine.{seen, storage_size};
ghost use Rattle.s360_machine.specs.Refusals.{refusal_of_patch};
ghost use Rattle.s360_remote.specs.Writing.{IsMadeOrBegun, IsWriteEnd, is_other, patch_count, patches_from_register, patches_of_bytes};
ghost use Rattle.s360_remote.specs.Writing.{patches_of_words, register_write, registers_write, storage_write};

use crate::error_number::ErrorNumber;
use crate::registers::{patch_of_psw, patch_of_word, words_of_machine};
use crate::target::Target;
use s360_machine::{Event, Patch};
use s360_packet::REGISTERS;
use s360_store::{Bytes, GREATEST_SIZE};
use s360_word::RegisterNumber;

/// So many bytes has a patch at most.
const PATCH: usize = 256;

impl Target {
    /// Gives storage from an address on these bytes, by patches of at most 256 of them. After want of memory some first ones
    /// of the patches stand.
    pub fn write_storage(&mut self, at: u32, bytes: &[u8]) -> Result<(), ErrorNumber>
        ensures { IsWriteEnd (storage_write self.old at bytes.now) self.old self.new result }
    {
        let size = self.machine().storage().size() as usize;
        if at as usize > size || bytes.len() > size - at as usize {
            return Err(ErrorNumber::Address);
        }
        if !self.has_room_for(bytes.len().div_ceil(PATCH)) {
            return Err(ErrorNumber::Full);
        }
        self.session.forget_dropped();
        self.write_parts(at, bytes)
    }

    /// Gives the register of this number a word.
    pub fn write_register(&mut self, number: u32, word: u32) -> Result<(), ErrorNumber>
        ensures { IsWriteEnd (register_write self.old number word) self.old self.new result }
    {
        if number as usize >= REGISTERS {
            return Err(ErrorNumber::Malformed);
        }
        if !self.has_room_for(1) {
            return Err(ErrorNumber::Full);
        }
        self.session.forget_dropped();
        let patch = patch_of_word(self.machine(), number as u8, word);
        self.patch(patch)
    }

    /// Gives all registers these words, by a patch for the PSW and one for each other that differs. After want of memory
    /// some first ones of the patches stand.
    pub fn write_registers(&mut self, words: &[u32; REGISTERS]) -> Result<(), ErrorNumber>
        ensures { IsWriteEnd (registers_write self.old words.now) self.old self.new result }
    {
        if !self.has_room_for(REGISTERS) {
            return Err(ErrorNumber::Full);
        }
        self.session.forget_dropped();
        let before = words_of_machine(self.machine());
        self.write_words(&before, words)
    }

    /// Whether so many events more can be recorded after those that stand.
    fn has_room_for(&self, events: usize) -> bool
        ensures { result ≡ nat_le (self.now.recorded.standing + events) self.now.recorded.limit }
    {
        (self.standing() as usize).saturating_add(events) <= self.session.limit() as usize
    }

    /// Gives storage from an address on these bytes, all of which are in storage. The record has room for the patches.
    fn write_parts(&mut self, at: u32, bytes: &[u8]) -> Result<(), ErrorNumber>
        requires inside { at + length bytes.now ≤ storage_size (seen self.old.recorded.start) }
        requires small { storage_size (seen self.old.recorded.start) < 2 ^ 32 }
        requires room { self.old.recorded.standing + patch_count (length bytes.now) ≤ self.old.recorded.limit }
        ensures { IsMadeOrBegun self.old (patches_of_bytes at bytes.now) self.new result }
    {
        if bytes.is_empty() {
            return Ok(());
        }
        let (part, rest) = bytes.split_at(bytes.len().min(PATCH));
        let next = at + part.len() as u32;
        let bytes = Bytes::new(part.to_vec(self.alloc)?);
        self.patch(Patch::Bytes { at, bytes })?;
        self.write_parts(next, rest)
    }

    /// Gives those registers their words whose words before were others. The record has room for a patch of each.
    fn write_words(
        &mut self,
        before: &[u32; REGISTERS],
        words: &[u32; REGISTERS],
    ) -> Result<(), ErrorNumber>
        requires room { self.old.recorded.standing + 18 ≤ self.old.recorded.limit }
        ensures { IsMadeOrBegun self.old (patches_of_words before.now words.now) self.new result }
    {
        self.patch_if(
            are_other_psws(before, words),
            patch_of_psw(words[0], words[1]),
        )?;
        self.write_general(before, words, 0)
    }

    /// Does so with the general registers, from this one on.
    fn write_general(
        &mut self,
        before: &[u32; REGISTERS],
        words: &[u32; REGISTERS],
        register: u8,
    ) -> Result<(), ErrorNumber>
        requires number { register ≤ 16 }
        requires room { self.old.recorded.standing + (16 - register) ≤ self.old.recorded.limit }
        ensures { IsMadeOrBegun self.old (patches_from_register before.now words.now register) self.new result }
    {
        if register == 16 {
            return Ok(());
        }
        let number = usize::from(register) + 2;
        let patch = Patch::Register(RegisterNumber::new(register), words[number]);
        self.patch_if(before[number] != words[number], patch)?;
        self.write_general(before, words, register + 1)
    }

    /// Makes a patch if what it puts is something else.
    fn patch_if(&mut self, is_other: bool, patch: Patch) -> Result<(), ErrorNumber>
        requires allowed { refusal_of_patch (storage_size (seen self.old.recorded.start)) patch ≡ None }
        requires room { self.old.recorded.standing < self.old.recorded.limit }
        ensures made { IsMadeOrBegun self.old (if is_other then patch ∷ [] else []) self.new result }
        ensures standing { self.new.recorded.standing ≤ self.old.recorded.standing + 1 }
        ensures limit { self.new.recorded.limit ≡ self.old.recorded.limit }
    {
        if is_other { self.patch(patch) } else { Ok(()) }
    }

    /// Makes a patch that is not refused. Want of memory changes nothing.
    fn patch(&mut self, patch: Patch) -> Result<(), ErrorNumber>
        requires allowed { refusal_of_patch (storage_size (seen self.old.recorded.start)) patch ≡ None }
        requires room { self.old.recorded.standing < self.old.recorded.limit }
        ensures made { IsMadeOrBegun self.old (patch ∷ []) self.new result }
        ensures standing { self.new.recorded.standing ≤ self.old.recorded.standing + 1 }
        ensures limit { self.new.recorded.limit ≡ self.old.recorded.limit }
        ensures start { self.new.recorded.start ≡ self.old.recorded.start }
    {
        // Storage is as large as at the start, and what stands is recorded.
        prove!(self.machine().storage().size() <= GREATEST_SIZE);
        prove!(self.standing() <= self.session.recorded());
        self.session.advance(Event::Patch(patch))?;
        Ok(())
    }
}

/// Whether the words of the PSW are others.
fn are_other_psws(before: &[u32; REGISTERS], words: &[u32; REGISTERS]) -> bool
    ensures { result ≡ is_other before.now words.now 0 || is_other before.now words.now 1 }
{
    before[0] != words[0] || before[1] != words[1]
}
