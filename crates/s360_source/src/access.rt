//! What an access to an operand in storage meets, and the places that decide it. Source: GA22-6821, "System Structure", protection
//! feature.
ghost use Rattle.std.specs.Prelude.{◌≡◌, ◌<◌, ◌&&◌, IfNone, IfOk, OnOk, if◌then◌else◌, [], nat_eq, not};
ghost use Rattle.s360_store.specs.Plans.{HasBytes};
ghost use Rattle.s360_fixed.specs.Operands.{access_conditions};
ghost use Rattle.s360_fixed.specs.ProgramCodes.{program_code};
ghost use Rattle.s360_machine.specs.Machine.{seen};
ghost use Rattle.s360_footprint.specs.OperandReadings.{conditions_read, guards, profile_of};
ghost use Rattle.s360_footprint.specs.Readings.{places_read, run};
ghost use Rattle.s360_source.specs.Parts.{key_places, places_of_part};
ghost use Rattle.s360_source.specs.Walks.{looks_at_keys, with_decided};

use crate::location::Location;
use crate::part::Part;
use crate::question::Question;
use s360_fixed::ProgramCode;
use s360_machine::Machine;
use s360_store::{Access, Place};
use s360_word::ProtectionKey;
use std::alloc::AllocError;

/// Whether an access under a key looks at the keys of its blocks.
pub(crate) fn is_guarded(machine: &Machine, kind: Access, key: ProtectionKey) -> bool
    ensures { result ≡ (guards (profile_of machine.now.whole.core) kind && not (nat_eq key 0)) }
{
    let is_protected = match kind {
        Access::Fetch => machine.storage().fetch_protection(),
        Access::Store => true,
    };
    is_protected && key.number() != 0
}

/// Whether an access to so many bytes under the key of the PSW looks at their keys.
fn looks_at_keys(machine: &Machine, address: Location, count: u16, kind: Access) -> bool
    ensures { result ≡ looks_at_keys machine.now.whole.core address count kind }
{
    let is_inside = address.number() + u32::from(count) <= machine.storage().size();
    is_inside && is_guarded(machine, kind, machine.psw().protection_key())
}

/// The keys that it looks at.
pub(crate) fn keys_looked_at(machine: &Machine, address: Location, count: u16, kind: Access) -> Part
    ensures { places_of_part result ≡ (if looks_at_keys machine.now.whole.core address count kind then key_places address count else []) }
{
    if looks_at_keys(machine, address, count, kind) {
        Part::Keys(address, count)
    } else {
        Part::Keys(address, 0)
    }
}

/// What keeps so many bytes, on a multiple of the boundary, from being used under the key of the PSW.
fn exception_of(
    machine: &Machine,
    address: Location,
    boundary: u16,
    count: u16,
    kind: Access,
) -> Option<ProgramCode>
    requires { 0 < boundary }
    ensures code { result ≡ program_code (access_conditions machine.now.whole.core address boundary count kind) }
    ensures inside { IfNone result (HasBytes address count machine.now.whole.core) }
{
    if address.number() % u32::from(boundary) != 0 {
        return Some(ProgramCode::Specification);
    }
    let key = machine.psw().protection_key();
    let checked = machine
        .storage()
        .check(address.number(), u32::from(count), kind, key);
    ProgramCode::of_access(checked)
}

/// Walks over the conditions of an access to so many bytes, and returns what keeps them from being used.
pub(crate) fn push_conditions(
    question: Question,
    found: &mut Vec<Place>,
    machine: &Machine,
    address: Location,
    boundary: u16,
    count: u16,
    kind: Access,
) -> Result<Option<ProgramCode>, AllocError>
    requires { 0 < boundary }
    ensures code { IfOk result (λ code. code ≡ program_code (run (conditions_read (profile_of machine.now.whole.core) address boundary count kind)
        (seen machine.now.whole))) }
    ensures read { OnOk result (found.new.items ≡ with_decided question
        (places_read (conditions_read (profile_of machine.now.whole.core) address boundary count kind) (seen machine.now.whole)) found.old.items) }
    ensures inside { IfOk result (λ code. IfNone code (HasBytes address count machine.now.whole.core)) }
{
    let keys = keys_looked_at(machine, address, count, kind);
    question.decide(found, &[Part::Place(Place::Psw), keys])?;
    Ok(exception_of(machine, address, boundary, count, kind))
}
