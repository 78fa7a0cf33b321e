//! The units as the channels have them. Source: GA22-6821, "Input/Output Operations", states of the input/output
//! system.
ghost use Rattle.std.specs.Prelude.{◌≡◌, true, IfOk};
ghost use Rattle.s360_model.specs.Exchanges.{after_if_any};
ghost use Rattle.s360_channel.specs.Units.{is_active};
ghost use Rattle.s360_channel.specs.ConfiguredUnits.{HasEachUnit, active_beside, active_unit, control_of, idle_units};
ghost use Rattle.s360_channel.specs.ConfiguredUnits.{interrupting_unit, is_occupied, pending_unit, with_control_of};
ghost use Rattle.s360_channel.specs.UnitChanges.{altered_units};
ghost use Rattle.s360_channel.specs.UnitChanges.{IsUnitsChangeTo};
ghost use Rattle.s360_channel.specs.UnitChanges.{unit_change_after_swap, units_after_swap};

use crate::configured_unit::ConfiguredUnit;
use crate::unit_change::{SeveralUnits, UnitChange};
use crate::unit_control::UnitControl;
use crate::unit_state::UnitState;
use arrayvec::ArrayVec;
use s360_psw::Psw;
use s360_word::Unit;
use std::alloc::{AllocError, Global};
use std::marker::Model;
use std::mem;

/// How each unit stands on its channel. A contract sees them one after another, in the order of their addresses.
pub struct Units {
    controls: [UnitControl; 6],
    /// The lowest unit for which a channel executes a program.
    active: Option<ConfiguredUnit>,
}

impl Drop for Units {
    fn drop(self) {
        let Units {
            controls: _,
            active: _,
        } = self;
    }
}

impl Model for Units {
    ghost use Rattle.std.specs.Prelude.{◌≡◌};
    ghost use Rattle.s360_channel.specs.ConfiguredUnits.{HasEachUnit, Units as Controls, active_unit};

    ghost Value = { Controls };

    ghost view = { λ u. u.controls };

    ghost invariant = { λ u. HasEachUnit u.controls × (u.active ≡ active_unit u.controls) };
}

impl Clone for Units {
    ghost use Rattle.std.specs.Prelude.{◌≡◌};

    ghost is_clone = { λ units copied. copied ≡ units };

    fn clone(&self) -> Result<Units, AllocError> {
        let controls = self.controls.clone()?;
        Ok(Units {
            controls,
            active: self.active,
        })
    }
}

/// Whether a channel executes a program for a unit, of units that stand so.
fn is_active_of(controls: &[UnitControl; 6], unit: ConfiguredUnit) -> bool
    requires each { HasEachUnit controls.now }
    ensures { result ≡ is_active (control_of controls.now unit).state }
{
    controls[unit.index()].state.is_active()
}

/// The lowest unit for which a channel executes a program, of units that stand so.
fn lowest_active(controls: &[UnitControl; 6]) -> Option<ConfiguredUnit>
    requires each { HasEachUnit controls.now }
    ensures { result ≡ active_unit controls.now }
{
    ConfiguredUnit::ALL
        .iter()
        .copied()
        .find(|unit| is_active_of(controls, *unit))
}

impl Units {
    /// The units of a new machine, which are idle.
    pub fn idle() -> Units
        ensures { result ≡ idle_units }
    {
        Units {
            controls: [
                UnitControl::idle(),
                UnitControl::idle(),
                UnitControl::idle(),
                UnitControl::idle(),
                UnitControl::idle(),
                UnitControl::idle(),
            ],
            active: None,
        }
    }

    /// The units with one that stands so.
    pub fn with(mut self, unit: ConfiguredUnit, control: UnitControl) -> Units
        ensures { result ≡ with_control_of self unit control }
    {
        self.controls[unit.index()] = control;
        self.active = lowest_active(&self.controls);
        self
    }

    /// The lowest unit for which a channel executes a program.
    #[inline(always)]
    pub fn active(&self) -> Option<ConfiguredUnit>
        ensures { result ≡ active_unit self.now }
    {
        self.active
    }

    /// How a unit stands.
    pub fn control(&self, unit: ConfiguredUnit) -> &UnitControl
        ensures control { result.now ≡ control_of self.now unit }
        ensures each { HasEachUnit self.now }
    {
        &self.controls[unit.index()]
    }

    /// All of them, in the order of their addresses.
    fn as_slice(&self) -> &[UnitControl]
        ensures controls { result.now ≡ self.now }
        ensures each { HasEachUnit self.now }
    {
        &self.controls
    }

    /// The lowest unit of a channel that has a condition for an interruption, by its address.
    pub fn pending_unit(&self, channel: u8) -> Option<Unit>
        ensures { result ≡ pending_unit self.now channel }
    {
        let unit = ConfiguredUnit::ALL.iter().find(|unit| unit.channel() == channel
            && self.control(**unit).is_pending())?;
        Some(unit.unit())
    }

    /// The lowest unit with such a condition whose channel the PSW lets interrupt.
    pub fn interrupting_unit(&self, psw: Psw) -> Option<ConfiguredUnit>
        ensures { result ≡ interrupting_unit psw self.now }
    {
        ConfiguredUnit::ALL.iter().copied().find(|unit| psw.channel_mask(unit.channel())
            && self.control(*unit).is_pending())
    }

    /// Whether a channel executes a program for a unit.
    fn is_active(&self, unit: ConfiguredUnit) -> bool
        ensures { result ≡ is_active (control_of self.now unit).state }
    {
        is_active_of(&self.controls, unit)
    }

    /// The other tape, where a unit is a tape and the other is active.
    pub(crate) fn active_beside(&self, unit: ConfiguredUnit) -> Option<ConfiguredUnit>
        ensures { result ≡ active_beside self.now unit }
    {
        match unit {
            ConfiguredUnit::Tape0 if self.is_active(ConfiguredUnit::Tape1) => Some(
                ConfiguredUnit::Tape1,
            ),
            ConfiguredUnit::Tape1 if self.is_active(ConfiguredUnit::Tape0) => Some(
                ConfiguredUnit::Tape0,
            ),
            _ => None,
        }
    }

    /// Whether the channel of a unit executes another program, and one at a time.
    pub(crate) fn is_occupied(&self, unit: ConfiguredUnit) -> bool
        ensures { result ≡ is_occupied self.now unit }
    {
        self.active_beside(unit).is_some()
    }

    /// What a channel does for a unit once a change is made, if there is one.
    pub fn state_after<'a>(
        &'a self,
        change: &'a Option<UnitChange>,
        unit: ConfiguredUnit,
    ) -> &'a UnitState
        ensures { result.now ≡ (control_of (after_if_any units_after_swap self.now change.now) unit).state }
    {
        let now = self.control(unit);
        match change {
            Some(UnitChange::One(altered, next)) if *altered == unit => &next.state,
            Some(UnitChange::Several(several)) => &several.units().control(unit).state,
            Some(UnitChange::One(..) | UnitChange::Attention(..)) | None => &now.state,
        }
    }

    /// What makes a unit stand so, where it does not.
    pub fn change_of(&self, unit: ConfiguredUnit, next: UnitControl) -> Option<UnitChange>
        ensures { IsUnitsChangeTo self.now result (with_control_of self.now unit next) }
    {
        if self.control(unit).is(&next) {
            None
        } else {
            Some(UnitChange::One(unit, next))
        }
    }

    /// What makes a unit ask for attention, where it does not. It takes no memory.
    pub fn change_of_attention(&self, unit: ConfiguredUnit) -> Option<UnitChange>
        ensures { IsUnitsChangeTo self.now result (with_control_of self.now unit (record (control_of self.now unit) { attention = true })) }
    {
        if self.control(unit).attention {
            None
        } else {
            Some(UnitChange::Attention(unit, true))
        }
    }

    /// The units that stand otherwise than others do.
    fn altered(&self, next: &Units) -> ArrayVec<ConfiguredUnit, 6>
        ensures altered { result.items ≡ altered_units self.now next.now }
        ensures each { HasEachUnit self.now }
        ensures all { HasEachUnit next.now }
    {
        let (now, then) = (self.as_slice(), next.as_slice());
        let mut altered = ArrayVec::new();
        for unit in &ConfiguredUnit::ALL {
            let at = unit.index();
            if !now[at].is(&then[at]) {
                altered.push(*unit);
            }
        }
        altered
    }

    /// What makes all of them stand so.
    pub fn change_to(&self, alloc: Global, next: Units) -> Result<Option<UnitChange>, AllocError>
        ensures { IfOk result (λ change. IsUnitsChangeTo self.now change next) }
    {
        let altered = self.altered(&next);
        if altered.is_empty() {
            return Ok(None);
        }
        let several = SeveralUnits::new(alloc, next, altered)?;
        Ok(Some(UnitChange::Several(several)))
    }

    /// Exchanges the units with what they become.
    pub fn exchange(&mut self, change: &mut UnitChange)
        ensures units { self.new ≡ units_after_swap self.old change.old }
        ensures change { change.new ≡ unit_change_after_swap self.old change.old }
    {
        match change {
            UnitChange::One(unit, control) => {
                mem::swap(&mut self.controls[unit.index()], control);
                self.active = lowest_active(&self.controls);
            }
            UnitChange::Attention(unit, asks) => {
                mem::swap(&mut self.controls[unit.index()].attention, asks);
            }
            UnitChange::Several(several) => several.exchange(self),
        }
    }
}
