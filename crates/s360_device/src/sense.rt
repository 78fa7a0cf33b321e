//! Sense bytes: six for each device, of which a device with one sense byte has zeros after it. Source:
//! GA22-6821, "Input/Output Operations", sense data.
ghost use Rattle.std.specs.Prelude.{◌≡◌, ◌≤◌, length, take};
ghost use Rattle.std.specs.Str.{bytes_eq};

use std::marker::Model;

/// Nothing to tell.
pub const NO_SENSE: [u8; 6] = [0, 0, 0, 0, 0, 0];

/// Command reject alone: the device has no such command.
pub const COMMAND_REJECT: [u8; 6] = [0x80, 0, 0, 0, 0, 0];

/// Intervention required alone: the operator has to do something first.
pub const INTERVENTION_REQUIRED: [u8; 6] = [0x40, 0, 0, 0, 0, 0];

/// The sense bytes of a device. A contract sees the list of them.
#[derive(Drop)]
pub(crate) struct SenseBytes {
    bytes: [u8; 6],
}

impl Model for SenseBytes {
    ghost use Rattle.std.specs.Prelude.{◌≡◌, ℕ, List, length};

    ghost Value = { List ℕ };

    ghost view = { λ s. s.bytes };

    ghost invariant = { λ s. length s.bytes ≡ 6 };
}

impl SenseBytes {
    /// These bytes.
    pub(crate) fn new(bytes: [u8; 6]) -> SenseBytes
        ensures { result ≡ bytes }
    {
        SenseBytes { bytes }
    }

    /// All of them.
    pub(crate) fn bytes(&self) -> [u8; 6]
        ensures bytes { result ≡ self.now }
        ensures six { length self.now ≡ 6 }
    {
        self.bytes
    }

    /// The first of them.
    pub(crate) fn first(&self, count: usize) -> &[u8]
        requires few { count ≤ 6 }
        ensures bytes { result.now ≡ take count self.now }
        ensures count { length result.now ≡ count }
    {
        &self.bytes[..count]
    }

    /// Whether they are these.
    pub(crate) fn are(&self, bytes: &[u8; 6]) -> bool
        ensures { result ≡ bytes_eq self.now bytes.now }
    {
        self.bytes == *bytes
    }
}
