//! The address of an input/output unit. Source: GA22-6821, "Input/Output Operations", unit address.
ghost use Rattle.std.specs.Prelude.{◌≡◌};

/// The address of a unit: its high byte is the channel, its low byte the device.
#[derive(Clone, Copy, Debug, PartialEq, Eq, PartialOrd, Ord, Hash)]
pub struct Unit(pub u16);

impl Unit {
    /// The unit with this address.
    pub fn new(address: u16) -> Unit
        ensures { result ≡ record { 0 = address } }
    {
        Unit(address)
    }

    /// Its address.
    pub fn address(self) -> u16
        ensures { result ≡ self.0 }
    {
        self.0
    }
}
