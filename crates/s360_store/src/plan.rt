//! The plan of an event: the values that it will put, each place at most once, in the order of
//! their first puts. A contract sees the list of its cells.
//!
//! They stand as cells do, single ones and runs of bytes. If a byte of a run is put a second time, or
//! there are many single cells and runs, all move into a map that keeps their order, so that puts in
//! any order take constant time.
//!
//! The puts of a register, the PSW, bytes and a storage key say what a plan makes of any core that has the
//! places, so that puts follow one another, whatever the plan has already.
ghost use Rattle.std.specs.Prelude.{◌≡◌, ◌<◌, ◌≤◌, ◌+◌, ◌^◌, ◌⊎◌, ◌↔◌, [], length, slice_get, if◌then◌else◌, IfOk, OnOk, OnErr, IsSome, Some, IsTrue};
ghost use Rattle.s360_model.specs.Core.{core_with_bytes, core_with_key, core_with_psw, core_with_word};
ghost use Rattle.s360_store.specs.Cells.{HasEachOnce};
ghost use Rattle.s360_store.specs.Items.{IsPartAt};
ghost use Rattle.s360_store.specs.PlanParts.{cells_of_entries, cells_of_planned};
ghost use Rattle.s360_store.specs.Plans.{after_put, after_put_bytes, after_put_if, planned_value, AddsToPlan, CanHaveKey, HasBytes, HasPsw, HasRegister};
ghost use Rattle.s360_store.specs.declared.place.Place.TheVariants.{Key, Psw as psw_place, Register};

use crate::block_key::BlockKey;
use crate::cells::Cells;
use crate::items::CellPart;
use crate::place::{Cell, Place};
use indexmap::IndexMap;
use s360_psw::{InstructionLength, Psw};
use s360_word::{RegisterNumber, Word};
use std::alloc::{AllocError, Global};
use std::marker::Model;

/// The cells of a plan.
enum Planned {
    /// Single cells and runs of bytes.
    Cells(Cells),
    /// The values of places.
    Map(IndexMap<Place, u64>),
}

impl Drop for Planned {
    fn drop(self) {
        match self {
            Planned::Cells(_) | Planned::Map(_) => {}
        }
    }
}

/// Values for places, each place at most once, in the order in which they were first put.
pub struct Plan {
    planned: Planned,
    alloc: Global,
}

impl Drop for Plan {
    fn drop(self) {
        let Plan {
            planned: _,
            alloc: _,
        } = self;
    }
}

impl Model for Plan {
    ghost use Rattle.std.specs.Prelude.{List};
    ghost use Rattle.s360_store.specs.declared.place.Cell.{Cell};
    ghost use Rattle.s360_store.specs.PlanParts.{IsPlan, cells_of_planned};

    ghost Value = { List Cell };

    ghost view = { λ p. cells_of_planned p.planned };

    ghost invariant = { λ p. IsPlan (cells_of_planned p.planned) };
}

/// Puts a value at a place of a map. Want of memory leaves its entries as they were.
fn insert(map: &mut IndexMap<Place, u64>, place: Place, value: u64) -> Result<(), AllocError>
    ensures ok { OnOk result (cells_of_entries map.new.entries ≡ after_put (cells_of_entries map.old.entries) place value) }
    ensures err { OnErr result (map.new.entries ≡ map.old.entries) }
{
    map.insert(place, value)?;
    Ok(())
}

/// A map of the values of cells, in their order, with room for one more.
fn map_of(alloc: Global, cells: &Cells) -> Result<IndexMap<Place, u64>, AllocError>
    requires once { HasEachOnce cells.now }
    ensures { IfOk result (λ map. cells_of_entries map.entries ≡ cells.now) }
{
    let mut map = IndexMap::with_capacity(alloc, cells.len() as usize + 1)?;
    for i in 0..cells.len() {
        let cell = cells.cell(i);
        insert(&mut map, cell.place, cell.value)?;
    }
    Ok(map)
}

/// The cell of a map's entry at `i`, counted from 0.
fn entry(map: &IndexMap<Place, u64>, i: u32) -> Cell
    requires { i < length (cells_of_entries map.now.entries) }
    ensures { slice_get (cells_of_entries map.now.entries) i ≡ Some result }
{
    let (place, value) = map.get_index(i as usize).unwrap();
    Cell {
        place: *place,
        value: *value,
    }
}

impl Planned {
    /// Puts a value at a place. Want of memory leaves the cells as they were.
    fn put(&mut self, alloc: Global, place: Place, value: u64) -> Result<(), AllocError>
        requires once { HasEachOnce (cells_of_planned self.old) }
        requires room { IsSome (planned_value (cells_of_planned self.old) place) ⊎ (length (cells_of_planned self.old) < 1000000) }
        ensures ok { OnOk result (cells_of_planned self.new ≡ after_put (cells_of_planned self.old) place value) }
        ensures err { OnErr result (cells_of_planned self.new ≡ cells_of_planned self.old) }
    {
        match self {
            Planned::Map(map) => insert(map, place, value),
            Planned::Cells(cells) => {
                if cells.put(place, value)? {
                    return Ok(());
                }
                let mut map = map_of(alloc, cells)?;
                insert(&mut map, place, value)?;
                *self = Planned::Map(map);
                Ok(())
            }
        }
    }

    /// Puts bytes from an address on as a run, if they can stand as one, and says whether it did. Want of memory
    /// leaves the cells as they were.
    fn put_run(&mut self, address: u32, bytes: &[u8]) -> Result<bool, AllocError>
        requires room { length (cells_of_planned self.old) + length bytes.now ≤ 1000000 }
        requires inside { address + length bytes.now ≤ 2 ^ 32 }
        ensures ok { IfOk result (λ done. cells_of_planned self.new ≡ after_put_if done (cells_of_planned self.old) address bytes.now) }
        ensures err { OnErr result (cells_of_planned self.new ≡ cells_of_planned self.old) }
    {
        match self {
            Planned::Cells(cells) => cells.put_bytes(address, bytes),
            Planned::Map(_) => Ok(false),
        }
    }
}

impl Plan {
    /// An empty plan, which takes no memory.
    pub fn new(alloc: Global) -> Plan
        ensures { result ≡ [] }
    {
        Plan {
            planned: Planned::Cells(Cells::new(alloc)),
            alloc,
        }
    }

    /// The number of places.
    pub fn len(&self) -> u32
        ensures len { result ≡ length self.now }
        ensures few { result ≤ 1000000 }
        ensures once { HasEachOnce self.now }
    {
        match &self.planned {
            Planned::Cells(cells) => cells.len(),
            Planned::Map(map) => map.len() as u32,
        }
    }

    /// Whether nothing was put.
    pub fn is_empty(&self) -> bool
        ensures { IsTrue result ↔ (self.now ≡ []) }
    {
        self.len() == 0
    }

    /// The cell at `i`, counted from 0 in the order of the first puts.
    pub fn cell(&self, i: u32) -> Cell
        requires { i < length self.now }
        ensures { slice_get self.now i ≡ Some result }
    {
        match &self.planned {
            Planned::Cells(cells) => cells.cell(i),
            Planned::Map(map) => entry(map, i),
        }
    }

    /// The part that begins with the cell at `i`, counted from 0 in the order of the first puts.
    pub fn part_at(&self, i: u32) -> CellPart<'_>
        requires { i < length self.now }
        ensures { IsPartAt self.now i result }
    {
        match &self.planned {
            Planned::Cells(cells) => cells.part_at(i),
            Planned::Map(map) => CellPart::Cell(entry(map, i)),
        }
    }

    /// Puts a value at a place. A second value for a place replaces the first. Want of memory
    /// leaves the plan as it was.
    #[inline(always)]
    pub fn put(&mut self, place: Place, value: u64) -> Result<(), AllocError>
        requires { IsSome (planned_value self.old place) ⊎ (length self.old < 1000000) }
        ensures ok { OnOk result (self.new ≡ after_put self.old place value) }
        ensures err { OnErr result (self.new ≡ self.old) }
    {
        self.planned.put(self.alloc, place, value)?;
        Ok(())
    }

    /// Puts bytes from an address on as a run, if they can stand as one, and says whether it did. Want of memory
    /// leaves the plan as it was.
    fn put_run(&mut self, address: u32, bytes: &[u8]) -> Result<bool, AllocError>
        requires few { length self.old + length bytes.now ≤ 1000000 }
        requires inside { address + length bytes.now ≤ 2 ^ 32 }
        ensures ok { IfOk result (λ done. self.new ≡ after_put_if done self.old address bytes.now) }
        ensures err { OnErr result (self.new ≡ self.old) }
    {
        let done = self.planned.put_run(address, bytes)?;
        Ok(done)
    }

    /// Puts a PSW. Want of memory leaves the plan as it was.
    pub fn put_psw(&mut self, psw: Psw) -> Result<(), AllocError>
        requires { length self.old < 1000000 }
        ensures ok { OnOk result (AddsToPlan self.old self.new 1 HasPsw (core_with_psw psw)) }
        ensures cell { OnOk result (self.new ≡ after_put self.old psw_place psw) }
        ensures err { OnErr result (self.new ≡ self.old) }
    {
        self.put(Place::Psw, psw.stored(0, InstructionLength::NotAvailable))?;
        Ok(())
    }

    /// Puts a word into a general register. Want of memory leaves the plan as it was.
    pub fn put_register(&mut self, register: RegisterNumber, word: Word) -> Result<(), AllocError>
        requires { length self.old < 1000000 }
        ensures ok { OnOk result (AddsToPlan self.old self.new 1 (HasRegister register) (core_with_word register word)) }
        ensures cell { OnOk result (self.new ≡ after_put self.old (Register register) word) }
        ensures err { OnErr result (self.new ≡ self.old) }
    {
        self.put(Place::Register(register.number()), u64::from(word))?;
        Ok(())
    }

    /// Puts a storage key and a fetch bit of a block, by the block's number from 0. Want of memory leaves
    /// the plan as it was.
    pub fn put_key(&mut self, block: u32, key: BlockKey) -> Result<(), AllocError>
        requires { length self.old < 1000000 }
        ensures ok { OnOk result (AddsToPlan self.old self.new 1 (CanHaveKey block key) (core_with_key block key)) }
        ensures cell { OnOk result (self.new ≡ after_put self.old (Key block) key) }
        ensures err { OnErr result (self.new ≡ self.old) }
    {
        self.put(Place::Key(block), u64::from(key.number()))?;
        Ok(())
    }

    /// Puts bytes from an address on. Where memory is wanting, the plan is to be dropped.
    pub fn put_bytes(&mut self, address: u32, bytes: &[u8]) -> Result<(), AllocError>
        requires few { length self.old + length bytes.now ≤ 1000000 }
        requires inside { address + length bytes.now ≤ 2 ^ 32 }
        ensures ok { OnOk result (AddsToPlan self.old self.new (length bytes.now) (HasBytes address (length bytes.now)) (core_with_bytes address bytes.now)) }
        ensures cells { OnOk result (self.new ≡ after_put_bytes self.old address bytes.now) }
    {
        if self.put_run(address, bytes)? {
            return Ok(());
        }
        for (i, byte) in bytes.iter().enumerate() {
            self.put(Place::Byte(address + i as u32), u64::from(*byte))?;
        }
        Ok(())
    }

    /// The value put for a place, if there is one.
    pub fn value(&self, place: Place) -> Option<u64>
        ensures { result ≡ planned_value self.now place }
    {
        match &self.planned {
            Planned::Cells(cells) => cells.value(place),
            Planned::Map(map) => map.get(&place).copied(),
        }
    }
}
