//! Status switching: the PSW and its masks, the storage keys and the supervisor call. Source: GA22-6821, "Status Switching".
ghost use Rattle.std.specs.Prelude.{◌≡◌, ◌<◌, ℕ, IfOk, OnOk, Some, [], ◌∷◌, if◌then◌else◌};
ghost use Rattle.s360_model.specs.Psw.{problem_state_of};
ghost use Rattle.s360_store.specs.declared.place.Place.TheVariants.{Psw};
ghost use Rattle.s360_store.specs.declared.protection.Access.TheVariants.{Fetch};
ghost use Rattle.s360_fixed.specs.declared.program_code.ProgramCode.TheVariants.{Privileged};
ghost use Rattle.s360_fixed.specs.ProgramCodes.{program_code};
ghost use Rattle.s360_logic.specs.declared.row.StorageStatus.TheVariants.{LoadPsw, SetSystemMask};
ghost use Rattle.s360_logic.specs.Status.{block_of};
ghost use Rattle.s360_machine.specs.Machine.{seen};
ghost use Rattle.s360_footprint.specs.OperandReadings.{conditions_read, profile_of};
ghost use Rattle.s360_footprint.specs.Readings.{places_read, run};
ghost use Rattle.s360_footprint.specs.StatusRows.{key_conditions_of, key_row, privileged_read, register_status_row, storage_status_row};
ghost use Rattle.s360_source.specs.Walks.{key_walk, walked, with_decided};

use crate::access::push_conditions;
use crate::location::Location;
use crate::part::Part;
use crate::question::Question;
use s360_fixed::ProgramCode;
use s360_logic::{KeyRow, RegisterStatus, StorageStatus};
use s360_machine::Machine;
use s360_store::{Access, BLOCK_SIZE, Place};
use s360_word::{RegisterNumber, Word};
use std::alloc::AllocError;

/// Blocks that an address can name.
const BLOCKS: u32 = 1 << 13;

/// Walks over the state that a privileged instruction needs, and returns what keeps it from being done, which else meets this.
fn push_state(
    question: Question,
    found: &mut Vec<Place>,
    machine: &Machine,
    met: Option<ProgramCode>,
) -> Result<Option<ProgramCode>, AllocError>
    ensures code { IfOk result (λ code. code ≡ (if problem_state_of machine.now.whole.core.psw then Some Privileged else met)) }
    ensures read { OnOk result (found.new.items ≡ with_decided question (Psw ∷ []) found.old.items) }
{
    question.decide(found, &[Part::Place(Place::Psw)])?;
    if machine.psw().problem_state() {
        Ok(Some(ProgramCode::Privileged))
    } else {
        Ok(met)
    }
}

/// The block that a word names, by its number.
fn block_of(word: Word) -> u32
    ensures { result ≡ block_of word }
{
    word / BLOCK_SIZE % BLOCKS
}

/// What keeps the storage key of the block that a word names from being used in the supervisor state: a one in bits 28 to 31, or
/// a block outside storage, found in this order.
fn key_exception(machine: &Machine, word: Word) -> Option<ProgramCode>
    ensures { result ≡ program_code (key_conditions_of (profile_of machine.now.whole.core) word) }
{
    if word % 16 != 0 {
        Some(ProgramCode::Specification)
    } else if block_of(word) >= machine.storage().size() / BLOCK_SIZE {
        Some(ProgramCode::Addressing)
    } else {
        None
    }
}

/// Walks over what is done with the storage key of a block.
fn push_key_made(
    question: Question,
    found: &mut Vec<Place>,
    row: KeyRow,
    r1: RegisterNumber,
    block: u32,
) -> Result<(), AllocError>
    ensures { OnOk result (found.new.items ≡ key_walk question row r1 block found.old.items) }
{
    let (key, register) = (Place::Key(block), Place::Register(r1.number()));
    match row {
        KeyRow::Set => question.store(found, key, &[Part::Place(register)])?,
        KeyRow::Insert => {
            question.store(found, register, &[Part::Place(register), Part::Place(key)])?
        }
    }
    question.store_psw(found, &[])
}

/// Walks over an instruction on the storage key of the block that R2 names.
fn push_key(
    question: Question,
    found: &mut Vec<Place>,
    machine: &Machine,
    row: KeyRow,
    r1: RegisterNumber,
    r2: RegisterNumber,
) -> Result<(), AllocError>
    ensures { (next : ℕ) → OnOk result (found.new.items ≡ walked question (key_row (profile_of machine.now.whole.core) row r1 r2 next) (seen machine.now.whole)
        found.old.items) }
{
    question.decide(found, &[Part::register(r2)])?;
    let word = machine.register(r2);
    match push_state(question, found, machine, key_exception(machine, word))? {
        Some(_) => Ok(()),
        None => {
            push_key_made(question, found, row, r1, block_of(word))?;
            Ok(())
        }
    }
}

/// Walks over a row of registers, or of the second byte of the instruction.
pub(crate) fn push_register_status(
    question: Question,
    found: &mut Vec<Place>,
    machine: &Machine,
    row: RegisterStatus,
    r1: RegisterNumber,
    r2: RegisterNumber,
) -> Result<(), AllocError>
    ensures { (next : ℕ) → OnOk result (found.new.items ≡ walked question (register_status_row (profile_of machine.now.whole.core) row r1 r2 next)
        (seen machine.now.whole) found.old.items) }
{
    match row {
        RegisterStatus::SetProgramMask => {
            question.store_psw(found, &[Part::register(r1)])?;
            Ok(())
        }
        RegisterStatus::SupervisorCall => Ok(()),
        RegisterStatus::StorageKey(row) => {
            push_key(question, found, machine, row, r1, r2)?;
            Ok(())
        }
    }
}

/// Walks over the conditions of a privileged instruction that fetches so many bytes, on the boundary of their number, and returns
/// what keeps it from being done.
fn push_privileged(
    question: Question,
    found: &mut Vec<Place>,
    machine: &Machine,
    address: Location,
    count: u16,
) -> Result<Option<ProgramCode>, AllocError>
    requires { 0 < count }
    ensures code { IfOk result (λ code. code ≡ program_code (run (privileged_read (conditions_read
        (profile_of machine.now.whole.core) address count count Fetch))
        (seen machine.now.whole))) }
    ensures read { OnOk result (found.new.items ≡ with_decided question
        (places_read (privileged_read (conditions_read (profile_of machine.now.whole.core) address count count Fetch))
        (seen machine.now.whole)) found.old.items) }
{
    let met = push_conditions(
        question,
        found,
        machine,
        address,
        count,
        count,
        Access::Fetch,
    )?;
    let exception = push_state(question, found, machine, met)?;
    Ok(exception)
}

/// Walks over SSM: the PSW is made of itself and of a byte.
fn push_system_mask(
    question: Question,
    found: &mut Vec<Place>,
    machine: &Machine,
    address: Location,
) -> Result<(), AllocError>
    ensures { (next : ℕ) → OnOk result (found.new.items ≡ walked question (storage_status_row (profile_of machine.now.whole.core) SetSystemMask address next)
        (seen machine.now.whole) found.old.items) }
{
    match push_privileged(question, found, machine, address, 1)? {
        Some(_) => Ok(()),
        None => {
            question.store_psw(found, &[Part::Bytes(address, 1)])?;
            Ok(())
        }
    }
}

/// Walks over LPSW: the PSW is made of a doubleword alone.
fn push_loaded_psw(
    question: Question,
    found: &mut Vec<Place>,
    machine: &Machine,
    address: Location,
) -> Result<(), AllocError>
    ensures { (next : ℕ) → OnOk result (found.new.items ≡ walked question (storage_status_row (profile_of machine.now.whole.core) LoadPsw address next)
        (seen machine.now.whole) found.old.items) }
{
    match push_privileged(question, found, machine, address, 8)? {
        Some(_) => Ok(()),
        None => {
            question.store(found, Place::Psw, &[Part::Bytes(address, 8)])?;
            Ok(())
        }
    }
}

/// Walks over a row of an operand in storage, or of a unit, which is handed to the channels.
pub(crate) fn push_storage_status(
    question: Question,
    found: &mut Vec<Place>,
    machine: &Machine,
    row: StorageStatus,
    address: Location,
) -> Result<(), AllocError>
    ensures { (next : ℕ) → OnOk result (found.new.items ≡ walked question (storage_status_row (profile_of machine.now.whole.core) row address next)
        (seen machine.now.whole) found.old.items) }
{
    match row {
        StorageStatus::SetSystemMask => {
            push_system_mask(question, found, machine, address)?;
            Ok(())
        }
        StorageStatus::LoadPsw => {
            push_loaded_psw(question, found, machine, address)?;
            Ok(())
        }
        StorageStatus::InputOutput(_) => {
            push_state(question, found, machine, None)?;
            Ok(())
        }
    }
}
