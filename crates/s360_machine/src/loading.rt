//! The end of initial program loading. Source: GA22-6821, "System Control Panel", initial program
//! loading.
ghost use Rattle.std.specs.Prelude.{ℕ, ◌≡◌, ◌<◌, ◌≤◌, ◌-◌, IfSome, OnOk, drop, length, slice_index, take};
ghost use Rattle.s360_model.specs.Exchanges.{after_if_any};
ghost use Rattle.s360_model.specs.Psw.{current_psw};
ghost use Rattle.s360_model.specs.Storage.{doubleword_at, with_run};
ghost use Rattle.s360_channel.specs.Execution.{core_with_run};
ghost use Rattle.s360_channel.specs.Steps.{LiesIn};
ghost use Rattle.s360_channel.specs.UnitChanges.{units_after_swap};
ghost use Rattle.s360_store.specs.Puts.{HasNoPuts};
ghost use Rattle.s360_store.specs.declared.place.Place.TheVariants.{Byte};
ghost use Rattle.s360_machine.specs.Loading.{core_after_loading, ends_loading, with_behind, with_below};
ghost use Rattle.s360_machine.specs.Machine.{seen};

use crate::machine::Machine;
use crate::run_state::RunState;
use s360_channel::{ConfiguredUnit, Run, UnitChange, UnitState, status_halfword};
use s360_psw::Psw;
use s360_store::{Core, LEAST_SIZE, Puts};
use std::alloc::AllocError;

/// Channel end and device end, and nothing else.
const CLEAN_END: u16 = 0x0C00;

/// The address at which the address of the unit is stored, in two bytes, and the one behind them.
const UNIT: u32 = 2;

const BEHIND: u32 = 4;

/// The byte at an address where a run is stored.
fn stored_byte(core: &Core, run: &Option<Run>, address: u32) -> u8
    requires run { IfSome run.now (λ r. LiesIn core.now.storage r) }
    requires inside { address < length core.now.storage.bytes }
    ensures { result ≡ slice_index (core_with_run run.now core.now).storage.bytes address }
{
    match run {
        Some(run) if address >= run.at && address - run.at < run.bytes.as_slice().len() as u32 => {
            run.bytes[(address - run.at) as usize]
        }
        _ => core.storage().byte(address),
    }
}

/// The byte at an address where a run is stored, and then the address of the unit.
fn loaded_byte(core: &Core, run: &Option<Run>, unit: [u8; 2], address: u32) -> u8
    requires run { IfSome run.now (λ r. LiesIn core.now.storage r) }
    requires inside { address < length core.now.storage.bytes }
    ensures { result ≡ slice_index (with_run (core_with_run run.now core.now).storage.bytes 2 unit) address }
{
    // So the unit's address is inside storage.
    prove!(core.storage().size() >= LEAST_SIZE);
    if address < UNIT {
        return stored_byte(core, run, address);
    }
    if address < BEHIND {
        return unit[(address - UNIT) as usize];
    }
    stored_byte(core, run, address)
}

/// The PSW that then stands at 0.
fn initial_psw(core: &Core, run: &Option<Run>, unit: [u8; 2]) -> Psw
    requires run { IfSome run.now (λ r. LiesIn core.now.storage r) }
    ensures { result ≡ current_psw (doubleword_at (with_run (core_with_run run.now core.now).storage.bytes 2 unit) 0) }
{
    // So the permanent locations are inside storage.
    prove!(core.storage().size() >= LEAST_SIZE);
    Psw::from_u64(u64::from_be_bytes([
        loaded_byte(core, run, unit, 0),
        loaded_byte(core, run, unit, 1),
        loaded_byte(core, run, unit, 2),
        loaded_byte(core, run, unit, 3),
        loaded_byte(core, run, unit, 4),
        loaded_byte(core, run, unit, 5),
        loaded_byte(core, run, unit, 6),
        loaded_byte(core, run, unit, 7),
    ]))
}

/// The bytes of a run below the unit's address.
fn below(run: &Run) -> &[u8]
    ensures { result.now ≡ take (2 - run.now.at) run.now.bytes }
{
    let bytes = run.bytes.as_slice();
    let count = (UNIT.saturating_sub(run.at) as usize).min(bytes.len());
    &bytes[..count]
}

/// Those behind it.
fn behind(run: &Run) -> &[u8]
    ensures { result.now ≡ drop (4 - run.now.at) run.now.bytes }
{
    let bytes = run.bytes.as_slice();
    let count = (BEHIND.saturating_sub(run.at) as usize).min(bytes.len());
    &bytes[count..]
}

/// Puts what of a run lies below the unit's address.
fn put_below<P: Puts>(core: &Core, run: &Option<Run>, puts: &mut P) -> Result<(), AllocError>
    requires inside { IfSome run.now (λ r. LiesIn core.now.storage r) }
    requires may { P.may puts.old core.now }
    requires few { P.count puts.old ≤ 1 }
    requires past { (a : ℕ) → P.past puts.old (Byte a) }
    ensures made { OnOk result (P.made puts.new core.now ≡ with_below run.now (P.made puts.old core.now)) }
    ensures may { OnOk result (P.may puts.new core.now) }
    ensures few { OnOk result (P.count puts.new ≤ 3) }
    ensures past { OnOk result ((a : ℕ) → 2 ≤ a → P.past puts.new (Byte a)) }
{
    match run {
        Some(run) if run.at < UNIT => puts.put_bytes(core, run.at, below(run)),
        _ => Ok(()),
    }
}

/// Puts what of it lies behind.
fn put_behind<P: Puts>(core: &Core, run: &Option<Run>, puts: &mut P) -> Result<(), AllocError>
    requires inside { IfSome run.now (λ r. LiesIn core.now.storage r) }
    requires size { 4 ≤ length core.now.storage.bytes }
    requires may { P.may puts.old core.now }
    requires few { P.count puts.old ≤ 5 }
    requires past { (a : ℕ) → 4 ≤ a → P.past puts.old (Byte a) }
    ensures made { OnOk result (P.made puts.new core.now ≡ with_behind run.now (P.made puts.old core.now)) }
    ensures may { OnOk result (P.may puts.new core.now) }
{
    let Some(run) = run else {
        return Ok(());
    };
    let at = if run.at < BEHIND { BEHIND } else { run.at };
    puts.put_bytes(core, at, behind(run))
}

/// Puts the end of loading from the unit at an address, behind a run: the address is stored, and the PSW at 0 is loaded.
/// The store is not protected. The bytes are put in the order of their addresses.
pub(crate) fn put_loaded<P: Puts>(
    core: &Core,
    address: u16,
    run: &Option<Run>,
    puts: &mut P,
) -> Result<(), AllocError>
    requires none { HasNoPuts core.now (P.made puts.old) (P.may puts.old) (P.past puts.old) (P.count puts.old) }
    requires inside { IfSome run.now (λ r. LiesIn core.now.storage r) }
    ensures made { OnOk result (P.made puts.new core.now ≡ core_after_loading address (core_with_run run.now core.now)) }
    ensures may { OnOk result (P.may puts.new core.now) }
{
    // So the permanent locations are inside storage.
    prove!(core.storage().size() >= LEAST_SIZE);
    let unit = address.to_be_bytes();
    puts.put_psw(core, initial_psw(core, run, unit))?;
    put_below(core, run, puts)?;
    puts.put_bytes(core, UNIT, &unit)?;
    put_behind(core, run, puts)?;
    Ok(())
}

impl Machine {
    /// Whether a channel event that alters the units so ends loading from a unit.
    pub(crate) fn has_loaded(&self, unit: ConfiguredUnit, units: &Option<UnitChange>) -> bool
        ensures { result ≡ ends_loading unit (seen self.now.whole) (after_if_any units_after_swap self.now.whole.units units.now) }
    {
        if self.control.run_state() != RunState::Loading(unit.unit()) {
            return false;
        }
        match (
            &self.units.control(unit).state,
            self.units.state_after(units, unit),
        ) {
            (UnitState::Active(_), UnitState::Waiting(csw)) => {
                status_halfword(&csw.unit, &csw.channel) == CLEAN_END
            }
            _ => false,
        }
    }
}
