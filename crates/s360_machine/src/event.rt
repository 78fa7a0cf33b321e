//! The events of the machine, each of which is taken back as one change.
ghost use Rattle.std.specs.Prelude.{◌≡◌, ◌<◌, ◌/◌, None, OnOk, length};
ghost use Rattle.s360_model.specs.Core.{core_with_fetch_bit, core_with_storage_key};
ghost use Rattle.s360_model.specs.Storage.{block_size};
ghost use Rattle.s360_store.specs.Puts.{HasNoPuts};
ghost use Rattle.s360_machine.specs.Machine.{seen, storage_size};
ghost use Rattle.s360_machine.specs.Refusals.{refusal_of_patch};
ghost use Rattle.s360_machine.specs.Step.{after_patch};

use crate::machine::Machine;
use crate::operator::Key;
use s360_psw::Psw;
use s360_store::{BLOCK_SIZE, BlockKey, Bytes, Core, Puts};
use s360_word::{ProtectionKey, RegisterNumber, Unit, Word};
use std::alloc::AllocError;

/// What a patch puts into the machine from outside. It ignores protection.
#[derive(Clone, Debug, PartialEq, Eq)]
pub enum Patch {
    /// Bytes from an address on, at most 256.
    Bytes { at: u32, bytes: Bytes },
    /// A general register's word.
    Register(RegisterNumber, Word),
    /// The storage key of the block that an address lies in. Its fetch bit stays.
    StorageKey { at: u32, key: ProtectionKey },
    /// The fetch bit of the block that an address lies in, if fetches are protected; else nothing.
    FetchBit { at: u32, on: bool },
    /// The current PSW, from a doubleword of which bits 16 to 33 (an interruption code and an
    /// instruction length code) are dropped.
    Psw(u64),
}

impl Drop for Patch {
    fn drop(self) {
        match self {
            Patch::Bytes { at: _, bytes: _ }
            | Patch::Register(_, _)
            | Patch::StorageKey { at: _, key: _ }
            | Patch::FetchBit { at: _, on: _ }
            | Patch::Psw(_) => {}
        }
    }
}

/// What happens to the machine at once.
#[derive(Clone, Debug, PartialEq, Eq, Drop)]
pub enum Event {
    /// The central processing unit takes an interruption, or executes an instruction with the
    /// interruption that it causes.
    Cpu,
    /// The channel of a unit executes one channel command word of the unit's program.
    Channel(Unit),
    /// The timer counts down.
    Tick,
    /// The operator presses a key.
    Key(Key),
    /// A patch.
    Patch(Patch),
}

/// Puts a storage key of the block that an address lies in.
fn put_storage_key<P: Puts>(
    core: &Core,
    at: u32,
    key: ProtectionKey,
    puts: &mut P,
) -> Result<(), AllocError>
    requires none { HasNoPuts core.now (P.made puts.old) (P.may puts.old) (P.past puts.old) (P.count puts.old) }
    requires inside { at < length core.now.storage.bytes }
    ensures made { OnOk result (P.made puts.new core.now ≡ core_with_storage_key (at / block_size) key core.now) }
    ensures may { OnOk result (P.may puts.new core.now) }
{
    // So each byte of storage is in a block.
    prove!(core.storage().size() % BLOCK_SIZE == 0);
    let block = at / BLOCK_SIZE;
    puts.put_key(core, block, core.storage().with_key(block, key))?;
    Ok(())
}

/// Puts a fetch bit of the block that an address lies in, if fetches are protected.
fn put_fetch_bit<P: Puts>(core: &Core, at: u32, on: bool, puts: &mut P) -> Result<(), AllocError>
    requires none { HasNoPuts core.now (P.made puts.old) (P.may puts.old) (P.past puts.old) (P.count puts.old) }
    requires inside { at < length core.now.storage.bytes }
    ensures made { OnOk result (P.made puts.new core.now ≡ core_with_fetch_bit (at / block_size) on core.now) }
    ensures may { OnOk result (P.may puts.new core.now) }
{
    if !core.storage().fetch_protection() {
        return Ok(());
    }
    // So each byte of storage is in a block.
    prove!(core.storage().size() % BLOCK_SIZE == 0);
    let block = at / BLOCK_SIZE;
    puts.put_key(core, block, BlockKey::new(core.storage().key(block), on))?;
    Ok(())
}

impl Machine {
    /// Puts a patch, which leaves all beside the core.
    #[inline(never)]
    pub(crate) fn put_patch<P: Puts>(&self, patch: &Patch, puts: &mut P) -> Result<(), AllocError>
        requires none { HasNoPuts self.now.whole.core (P.made puts.old) (P.may puts.old) (P.past puts.old) (P.count puts.old) }
        requires accepted { refusal_of_patch (storage_size (seen self.now.whole)) patch.now ≡ None }
        ensures made { OnOk result (P.made puts.new self.now.whole.core ≡ (after_patch (seen self.now.whole) patch.now).core) }
        ensures may { OnOk result (P.may puts.new self.now.whole.core) }
    {
        let core = &self.core;
        match patch {
            Patch::Bytes { at, bytes } => puts.put_bytes(core, *at, bytes.as_slice()),
            Patch::Register(register, word) => puts.put_register(core, *register, *word),
            Patch::StorageKey { at, key } => put_storage_key(core, *at, *key, puts),
            Patch::FetchBit { at, on } => put_fetch_bit(core, *at, *on, puts),
            Patch::Psw(doubleword) => puts.put_psw(core, Psw::from_u64(*doubleword)),
        }
    }
}
