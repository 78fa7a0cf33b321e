//! The exchange of cells with the core: what stands at their places becomes theirs, and theirs stands there. Done again,
//! it restores both.
ghost use Rattle.std.specs.Prelude.{◌≡◌, length};
ghost use Rattle.s360_model.specs.Core.{Core};
ghost use Rattle.s360_store.specs.Cells.{AllFit, AreCellsOf, after_exchange, cells_after_exchange};
ghost use Rattle.s360_store.specs.Items.{AreItems, bytes_of_items, cells_of_items, core_of};
ghost use Rattle.s360_store.specs.Places.{Fits, IsPlaceOf, value_at, with_value};

use crate::items::Item;
use crate::place::{Cell, Place};
use crate::storage::Storage;
use s360_psw::{InstructionLength, Psw};
use s360_word::Word;

/// Exchanges what stands at the cell's place with its value.
fn exchange_cell(psw: &mut Psw, registers: &mut [Word; 16], storage: &mut Storage, cell: &mut Cell)
    requires inside { IsPlaceOf (core_of psw.old registers.old storage.old) cell.old.place }
    requires fits { Fits storage.old.fetch_protection cell.old.place cell.old.value }
    ensures core { core_of psw.new registers.new storage.new ≡ with_value (core_of psw.old registers.old storage.old) cell.old.place cell.old.value }
    ensures cell { cell.new ≡ record { place = cell.old.place; value = value_at (core_of psw.old registers.old storage.old) cell.old.place } }
    ensures fits { Fits storage.old.fetch_protection cell.old.place cell.new.value }
{
    match cell.place {
        Place::Psw => {
            let taken = psw.stored(0, InstructionLength::NotAvailable);
            *psw = Psw::from_u64(cell.value);
            cell.value = taken;
        }
        Place::Register(register) => {
            let taken = u64::from(registers[register as usize]);
            registers[register as usize] = cell.value as u32;
            cell.value = taken;
        }
        Place::Byte(_) | Place::Key(_) => storage.swap(cell),
        _ => unreachable!(),
    }
}

/// Exchanges what stands at the places of items with their values, one after another.
pub(crate) fn exchange_items(
    psw: &mut Psw,
    registers: &mut [Word; 16],
    storage: &mut Storage,
    items: &mut [Item],
    bytes: &mut [u8],
)
    requires items { AreItems items.old }
    requires all { bytes_of_items items.old ≡ length bytes.old }
    requires can { AreCellsOf (core_of psw.old registers.old storage.old) (cells_of_items items.old bytes.old) }
    ensures core { core_of psw.new registers.new storage.new ≡ after_exchange (core_of psw.old registers.old storage.old) (cells_of_items items.old bytes.old) }
    ensures cells { cells_of_items items.new bytes.new ≡ cells_after_exchange (core_of psw.old registers.old storage.old) (cells_of_items items.old bytes.old) }
    ensures fit { AllFit storage.new.fetch_protection (cells_of_items items.new bytes.new) }
    ensures items { AreItems items.new }
    ensures all { bytes_of_items items.new ≡ length bytes.new }
{
    let mut from = 0;
    for item in items.iter_mut() {
        match item {
            Item::Single(cell) => exchange_cell(psw, registers, storage, cell),
            Item::Run { address, count } => {
                let end = from + *count as usize;
                storage.swap_run(*address, &mut bytes[from..end]);
                from = end;
            }
        }
    }
}
