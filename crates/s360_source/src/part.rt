//! What something is made of: single places, the registers that an address is made of, and bytes of storage.
ghost use Rattle.std.specs.Prelude.{◌≡◌, ◌+◌, ◌++◌, ◌≤◌, ◌^◌, OnOk};
ghost use Rattle.s360_store.specs.Spans.{byte_places};
ghost use Rattle.s360_channel.specs.Differences.{state_place};
ghost use Rattle.s360_machine.specs.Differences.{media_place};
ghost use Rattle.s360_source.specs.Parts.{address_parts, key_places, keys_from, places_of_part, places_of_parts};

use crate::location::Location;
use s360_machine::ConfiguredUnit;
use s360_store::{BLOCK_SIZE, Place};
use s360_word::RegisterNumber;
use std::alloc::AllocError;

/// Places that something is made of.
#[derive(Clone, Copy)]
pub(crate) enum Part {
    /// A place.
    Place(Place),
    /// The registers of an address, its index and its base. Register 0 is no part of one.
    Address(RegisterNumber, RegisterNumber),
    /// So many bytes of storage from an address on.
    Bytes(Location, u16),
    /// The keys of the blocks that so many bytes lie in.
    Keys(Location, u16),
}

/// Adds the keys of so many blocks from a number on.
fn push_keys(found: &mut Vec<Place>, block: u32, count: u32) -> Result<(), AllocError>
    requires { block + count ≤ 2 ^ 32 }
    ensures { OnOk result (found.new.items ≡ found.old.items ++ keys_from block count) }
{
    for i in 0..count {
        found.push(Place::Key(block + i))?;
    }
    Ok(())
}

/// Adds the keys of the blocks that so many bytes lie in.
fn push_key_places(found: &mut Vec<Place>, address: Location, count: u16) -> Result<(), AllocError>
    ensures { OnOk result (found.new.items ≡ found.old.items ++ key_places address count) }
{
    if count == 0 {
        return Ok(());
    }
    let first = address.number() / BLOCK_SIZE;
    let last = (address.number() + (u32::from(count) - 1)) / BLOCK_SIZE;
    push_keys(found, first, last - first + 1)
}

/// Adds so many bytes of storage from an address on.
fn push_bytes(found: &mut Vec<Place>, address: u32, count: u32) -> Result<(), AllocError>
    requires { address + count ≤ 2 ^ 32 }
    ensures { OnOk result (found.new.items ≡ found.old.items ++ byte_places address count) }
{
    for i in 0..count {
        found.push(Place::Byte(address + i))?;
    }
    Ok(())
}

/// Adds the registers of an address.
fn push_address(
    found: &mut Vec<Place>,
    index: RegisterNumber,
    base: RegisterNumber,
) -> Result<(), AllocError>
    ensures { OnOk result (found.new.items ≡ found.old.items ++ address_parts index base) }
{
    if index.number() != 0 {
        found.push(Place::Register(index.number()))?;
    }
    if base.number() != 0 {
        found.push(Place::Register(base.number()))?;
    }
    Ok(())
}

impl Part {
    /// A register.
    pub(crate) fn register(register: RegisterNumber) -> Part
        ensures { result ≡ Part.Place (Place.Register register) }
    {
        Part::Place(Place::Register(register.number()))
    }

    /// Nothing.
    pub(crate) fn none() -> Part
        ensures { result ≡ Part.Bytes 0 0 }
    {
        Part::Bytes(Location::new(0), 0)
    }

    /// How a unit stands.
    pub(crate) fn state(unit: ConfiguredUnit) -> Part
        ensures { result ≡ Part.Place (state_place unit) }
    {
        Part::Place(Place::UnitState(unit.unit()))
    }

    /// The device of a unit.
    pub(crate) fn media(unit: ConfiguredUnit) -> Part
        ensures { result ≡ Part.Place (media_place unit) }
    {
        Part::Place(Place::UnitMedia(unit.unit()))
    }

    /// Adds its places.
    fn push_to(self, found: &mut Vec<Place>) -> Result<(), AllocError>
        ensures { OnOk result (found.new.items ≡ found.old.items ++ places_of_part self) }
    {
        match self {
            Part::Place(place) => {
                found.push(place)?;
                Ok(())
            }
            Part::Address(index, base) => push_address(found, index, base),
            Part::Bytes(address, count) => push_bytes(found, address.number(), u32::from(count)),
            Part::Keys(address, count) => push_key_places(found, address, count),
        }
    }
}

/// Adds the places of parts.
pub(crate) fn push_parts(found: &mut Vec<Place>, parts: &[Part]) -> Result<(), AllocError>
    ensures { OnOk result (found.new.items ≡ found.old.items ++ places_of_parts parts.now) }
{
    for part in parts {
        part.push_to(found)?;
    }
    Ok(())
}
