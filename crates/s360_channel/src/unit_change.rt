//! What an event alters of the units.
ghost use Rattle.std.specs.Prelude.{◌≡◌, ◌≤◌, IfOk, length};
ghost use Rattle.s360_channel.specs.UnitChanges.{altered_by};

use crate::configured_unit::ConfiguredUnit;
use crate::unit_control::UnitControl;
use crate::units::Units;
use arrayvec::ArrayVec;
use std::alloc::{AllocError, Global};
use std::marker::Model;
use std::{mem, slice};

/// What becomes of units that do not stay as they are.
#[derive(Clone)]
pub enum UnitChange {
    /// One unit stands so.
    One(ConfiguredUnit, UnitControl),
    /// One unit asks for attention, or no longer does.
    Attention(ConfiguredUnit, bool),
    /// Several units stand otherwise.
    Several(SeveralUnits),
}

impl Drop for UnitChange {
    fn drop(self) {
        match self {
            UnitChange::One(_, _) | UnitChange::Attention(_, _) | UnitChange::Several(_) => {}
        }
    }
}

/// What several units become at once. A contract sees how all units stand then, and which of them stand otherwise.
#[derive(Drop)]
pub struct SeveralUnits {
    parts: Box<Parts>,
}

/// The parts of it, which stand apart, since few events alter several units.
#[derive(Clone, Drop)]
struct Parts {
    units: Units,
    altered: ArrayVec<ConfiguredUnit, 6>,
}

impl Model for SeveralUnits {
    ghost use Rattle.std.specs.Prelude.{box_value};
    ghost use Rattle.s360_channel.specs.ConfiguredUnits.{SeveralUnits as Contents};

    ghost Value = { Contents };

    ghost view = { λ s. record { units = (box_value s.parts).units; altered = (box_value s.parts).altered.items } };
}

impl Clone for SeveralUnits {
    ghost use Rattle.std.specs.Prelude.{◌≡◌};

    ghost is_clone = { λ several copied. copied ≡ several };

    fn clone(&self) -> Result<SeveralUnits, AllocError> {
        let parts = self.parts.clone()?;
        Ok(SeveralUnits { parts })
    }
}

impl SeveralUnits {
    /// All units as they stand then, of which these stand otherwise.
    pub(crate) fn new(
        alloc: Global,
        units: Units,
        altered: ArrayVec<ConfiguredUnit, 6>,
    ) -> Result<SeveralUnits, AllocError>
        ensures { IfOk result (λ several. several ≡ record { units = units; altered = altered.items }) }
    {
        let parts = Box::new(alloc, Parts { units, altered })?;
        Ok(SeveralUnits { parts })
    }

    /// Exchanges the units with those that stand here.
    pub(crate) fn exchange(&mut self, units: &mut Units)
        ensures units { units.new ≡ self.old.units }
        ensures several { self.new ≡ record self.old { units = units.old } }
    {
        mem::swap(units, &mut self.parts.units);
    }

    /// All units as they stand then.
    pub(crate) fn units(&self) -> &Units
        ensures { result.now ≡ self.now.units }
    {
        &self.parts.units
    }

    /// The units that stand otherwise.
    fn altered(&self) -> &[ConfiguredUnit]
        ensures altered { result.now ≡ self.now.altered }
        ensures few { length result.now ≤ 6 }
    {
        self.parts.altered.as_slice()
    }
}

impl UnitChange {
    /// The units that it alters.
    pub fn altered(&self) -> &[ConfiguredUnit]
        ensures altered { result.now ≡ altered_by self.now }
        ensures few { length result.now ≤ 6 }
    {
        match self {
            UnitChange::One(unit, _) | UnitChange::Attention(unit, _) => slice::from_ref(unit),
            UnitChange::Several(several) => several.altered(),
        }
    }
}
