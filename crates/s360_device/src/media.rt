//! What is a device's own. Source: GA22-6821, "Input/Output Operations".
ghost use Rattle.std.specs.Prelude.{◌≡◌, ◌<◌, ◌≤◌, ◌^◌, ℕ, IfOk, OnErr, OnOk, length};
ghost use Rattle.s360_device.specs.DeviceRows.{IsRow, WritesMedia, bytes_given};
ghost use Rattle.s360_device.specs.Kinds.{Kind, RestoresBoth};
ghost use Rattle.s360_device.specs.Rows.{row_input};
ghost use Rattle.s360_device.specs.Transfers.{CanWrite};

use crate::row::{Given, Row};
use std::alloc::AllocError;

/// What a device has beside its sense bytes: its media, and the marks and keys that belong to them, with the commands
/// that are its own. A contract sees them with the room that was made in them beside them.
pub trait Media {
    /// What a command, or the operator, does to them. It is exchanged with them, and the same exchange done again takes
    /// it back.
    type Change: Drop;

    // the media with what they keep out of sight, and as the written rules have them
    ghost Whole: { Type 0 };

    ghost Seen: { Type 0 };

    ghost kind: { Kind Whole Seen Self.Change };

    // a value that a contract sees is the whole media and the room in them
    ghost whole: { Self → Whole };

    ghost room_of: { Self → ℕ };

    ghost made: { Whole → ℕ → Self };

    /// How many sense bytes the device gives.
    fn sense_bytes() -> usize
        ensures bytes { result ≡ kind.table.sense_bytes }
        ensures few { result ≤ 6 };

    /// The bytes that a command of its own gives. It takes no memory.
    fn input(&self, code: u8) -> Given<'_>
        ensures bytes { bytes_given result ≡ row_input (kind.table.rows (kind.see (whole self.now)) code) }
        ensures few { length (bytes_given result) < 2 ^ 32 };

    /// What a command of its own is to it. It takes no memory.
    fn row(&self, code: u8) -> Row<Self::Change>
        ensures { IsRow kind (whole self.now) (kind.table.rows (kind.see (whole self.now)) code) result };

    /// What an output does that ends with these bytes; any other command writes nothing.
    fn written(&self, code: u8, bytes: &[u8]) -> Result<Option<Self::Change>, AllocError>
        requires fits { CanWrite (kind.table.rows (kind.see (whole self.now)) code) bytes.now }
        ensures { IfOk result (WritesMedia kind (whole self.now) code bytes.now) };

    /// Makes room for a change, after which its exchange takes no memory. The media are as before. It takes memory only
    /// if the change needs room.
    fn make_room(&mut self, change: &Self::Change) -> Result<(), AllocError>
        ensures contents { whole self.new ≡ whole self.old }
        ensures ok { OnOk result (kind.needs change.now ≤ room_of self.new) }
        ensures memory { OnErr result (0 < kind.needs change.now) };

    /// Exchanges the media with a change for which there is room. It takes no memory.
    fn exchange(&mut self, change: &mut Self::Change)
        requires can { kind.can (whole self.old) change.old }
        requires room { kind.needs change.old ≤ room_of self.old }
        ensures media { whole self.new ≡ kind.after (whole self.old) change.old }
        ensures change { change.new ≡ kind.back (whole self.old) change.old };

    /// Media that are equal to these, with what is kept out of sight.
    fn copy(&self) -> Result<Self, AllocError>
        ensures { IfOk result (λ media. whole media ≡ whole self.now) };

    /// A change that is equal to this one.
    fn copy_change(change: &Self::Change) -> Result<Self::Change, AllocError>
        ensures { IfOk result (λ copied. copied ≡ change.now) };

    // the exchange restores both if it is done again
    ghost restores_both: { RestoresBoth kind };

    // the parts of a value make it
    ghost whole_of_made: { (w : Whole) (room : ℕ) → whole (made w room) ≡ w };

    ghost room_of_made: { (w : Whole) (room : ℕ) → room_of (made w room) ≡ room };

    ghost made_of_parts: { (m : Self) → made (whole m) (room_of m) ≡ m };
}
