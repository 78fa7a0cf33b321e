//! The units that the machine has. Source: GA22-6821, "Input/Output Operations", unit address;
//! which units there are, and their addresses, is the own profile.
ghost use Rattle.std.specs.Prelude.{◌≡◌, ◌<◌};
ghost use Rattle.s360_channel.specs.ConfiguredUnits.{address_of_unit, channel_of, index_of, kind_of, unit_at};

use s360_word::Unit;

/// How a channel serves its units.
#[derive(Clone, Copy, PartialEq, Eq)]
pub enum ChannelKind {
    /// It executes the programs of all its units side by side.
    Multiplexer,
    /// It executes one program at a time.
    Selector,
}

/// A unit of the machine.
#[derive(Clone, Copy, Default, PartialEq, Eq)]
pub enum ConfiguredUnit {
    /// The card reader of the 2540, 00C.
    #[default]
    Reader,
    /// The card punch of the 2540, 00D.
    Punch,
    /// The printer, a 1403, 00E.
    Printer,
    /// The console, a 1052, 01F.
    Console,
    /// The first magnetic tape, a 2400, 180.
    Tape0,
    /// The second magnetic tape, 181.
    Tape1,
}

impl ConfiguredUnit {
    /// All of them, in the order of their addresses.
    pub const ALL: [ConfiguredUnit; 6] = [
        ConfiguredUnit::Reader,
        ConfiguredUnit::Punch,
        ConfiguredUnit::Printer,
        ConfiguredUnit::Console,
        ConfiguredUnit::Tape0,
        ConfiguredUnit::Tape1,
    ];

    /// The unit at an address, if the machine has it.
    pub fn at(unit: Unit) -> Option<ConfiguredUnit>
        ensures { result ≡ unit_at unit.0 }
    {
        match unit.address() {
            0x00C => Some(ConfiguredUnit::Reader),
            0x00D => Some(ConfiguredUnit::Punch),
            0x00E => Some(ConfiguredUnit::Printer),
            0x01F => Some(ConfiguredUnit::Console),
            0x180 => Some(ConfiguredUnit::Tape0),
            0x181 => Some(ConfiguredUnit::Tape1),
            _ => None,
        }
    }

    /// Its address.
    pub fn unit(self) -> Unit
        ensures { result ≡ record { 0 = address_of_unit self } }
    {
        match self {
            ConfiguredUnit::Reader => Unit::new(0x00C),
            ConfiguredUnit::Punch => Unit::new(0x00D),
            ConfiguredUnit::Printer => Unit::new(0x00E),
            ConfiguredUnit::Console => Unit::new(0x01F),
            ConfiguredUnit::Tape0 => Unit::new(0x180),
            ConfiguredUnit::Tape1 => Unit::new(0x181),
        }
    }

    /// Its place among all of them.
    pub(crate) fn index(self) -> usize
        ensures index { result ≡ index_of self }
        ensures inside { result < 6 }
    {
        match self {
            ConfiguredUnit::Reader => 0,
            ConfiguredUnit::Punch => 1,
            ConfiguredUnit::Printer => 2,
            ConfiguredUnit::Console => 3,
            ConfiguredUnit::Tape0 => 4,
            ConfiguredUnit::Tape1 => 5,
        }
    }

    /// The channel on which it is.
    pub(crate) fn channel(self) -> u8
        ensures channel { result ≡ channel_of self }
        ensures masked { result < 7 }
    {
        match self {
            ConfiguredUnit::Reader
            | ConfiguredUnit::Punch
            | ConfiguredUnit::Printer
            | ConfiguredUnit::Console => 0,
            ConfiguredUnit::Tape0 | ConfiguredUnit::Tape1 => 1,
        }
    }

    /// How its channel serves its units.
    pub(crate) fn kind(self) -> ChannelKind
        ensures { result ≡ kind_of self }
    {
        match self {
            ConfiguredUnit::Reader
            | ConfiguredUnit::Punch
            | ConfiguredUnit::Printer
            | ConfiguredUnit::Console => ChannelKind::Multiplexer,
            ConfiguredUnit::Tape0 | ConfiguredUnit::Tape1 => ChannelKind::Selector,
        }
    }
}
