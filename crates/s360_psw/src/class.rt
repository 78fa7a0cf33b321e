//! The classes of interruptions. Source: GA22-6821, "Interruptions", and "System Structure",
//! permanent storage assignment.
ghost use Rattle.std.specs.Prelude.{◌≡◌, ◌≤◌, ◌+◌};
ghost use Rattle.s360_psw.specs.Class.{new_location_of, old_location_of};

/// A class of interruptions, in the order of its permanent storage locations.
#[derive(Clone, Copy, PartialEq, Eq)]
pub enum Class {
    /// The timer, the interrupt key or an external signal.
    External,
    /// The supervisor call.
    Supervisor,
    /// A program that uses an instruction or an operand improperly, or a result that is exceptional.
    Program,
    /// A fault of the machine itself, which a simulated one never has.
    MachineCheck,
    /// A channel or a device.
    InputOutput,
}

impl Class {
    /// The address of the doubleword where an interruption of this class stores the old PSW.
    pub fn old_location(self) -> u32
        ensures location { result ≡ old_location_of self }
        ensures below { result + 8 ≤ 64 }
    {
        match self {
            Class::External => 24,
            Class::Supervisor => 32,
            Class::Program => 40,
            Class::MachineCheck => 48,
            Class::InputOutput => 56,
        }
    }

    /// The address of the doubleword from which an interruption of this class loads the new PSW.
    pub fn new_location(self) -> u32
        ensures location { result ≡ new_location_of self }
        ensures below { result + 8 ≤ 128 }
    {
        match self {
            Class::External => 88,
            Class::Supervisor => 96,
            Class::Program => 104,
            Class::MachineCheck => 112,
            Class::InputOutput => 120,
        }
    }
}
