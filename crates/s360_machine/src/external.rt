//! The pending external conditions. Source: GA22-6821, "Interruptions", external interruption.
ghost use Rattle.std.specs.Prelude.{◌≡◌};
ghost use Rattle.s360_machine.specs.Interruptions.{external_code};
ghost use Rattle.s360_machine.specs.Machine.{no_external};

/// What interrupts the program as soon as the external mask is one.
#[derive(Clone, Copy, Default, PartialEq, Eq)]
pub struct ExternalConditions {
    /// The timer has passed from zero or more to a negative number.
    pub timer: bool,
    /// The interrupt key was pressed.
    pub key: bool,
}

impl ExternalConditions {
    /// None is pending.
    pub fn none() -> ExternalConditions
        ensures { result ≡ no_external }
    {
        ExternalConditions {
            timer: false,
            key: false,
        }
    }

    /// The code of the interruption in which they all go: 0x80 for the timer and 0x40 for the
    /// interrupt key.
    pub fn code(self) -> u16
        ensures { result ≡ external_code self }
    {
        let timer = if self.timer { 0x80 } else { 0 };
        let key = if self.key { 0x40 } else { 0 };
        timer + key
    }
}
