//! What every device is to a channel. Source: GA22-6821, "Input/Output Operations".
ghost use Rattle.std.specs.Prelude.{◌≡◌, ◌<◌, ◌≤◌, ◌+◌, ◌^◌, ℕ, Bool, List, length, slice_index, IfOk, OnErr, OnOk};
ghost use Rattle.std.specs.List.{slice_range};
ghost use Rattle.s360_device.specs.declared.device.Begin.{Begin};
ghost use Rattle.s360_device.specs.Transfers.{IsInputOf, IsOutput, CanEndWith, TellsNot};

use std::alloc::AllocError;

/// How a device begins a command as it stands.
#[derive(Clone, Copy)]
pub enum Begin {
    /// It has so many bytes for storage.
    Input(u32),
    /// It takes at most so many bytes from storage.
    Output(u32),
    /// It moves no byte.
    Control,
    /// It cannot begin it yet, and the command is to be offered again.
    NotYet,
    /// It ends it with unit check, and these will be its sense bytes.
    Refused([u8; 6]),
}

/// What a command will do to a device.
#[derive(Clone, Copy, Drop)]
pub struct Planned<C> {
    /// What is to be exchanged with the device.
    pub change: C,
    /// Whether sense bytes or media will differ.
    pub alters: bool,
    /// Whether the command ends with unit exception.
    pub exception: bool,
}

/// A device. Commands are the codes of channel command words.
///
/// A contract sees a device with the room that was made in it beside it. The laws speak of it bare of room.
pub trait Device {
    /// What a command, or the operator, does to the device. It is exchanged with the device, and the
    /// same exchange done again takes it back.
    type Change: Drop;

    // how a command begins, and the bytes that it gives
    ghost begin_of: { Self → ℕ → Begin };

    ghost input_of: { Self → ℕ → List ℕ };

    // whether it ends with unit exception
    ghost exception_of: { Self → ℕ → Bool };

    // the second device, as it is seen, is the first after the command with these bytes of output
    ghost is_after: { Self → ℕ → List ℕ → Self → Type 0 };

    // the sense bytes
    ghost sense_of: { Self → List ℕ };

    // the device with no room in it, the room in it, and what a change needs of it
    ghost bare: { Self → Self };

    ghost room_of: { Self → ℕ };

    ghost needs: { Self.Change → ℕ };

    // the exchange of a bare device with a change: whether it can be made, and what both are afterwards
    ghost can_swap: { Self → Self.Change → Type 0 };

    ghost after_swap: { Self → Self.Change → Self };

    ghost change_after_swap: { Self → Self.Change → Self.Change };

    /// How a command begins. It takes no memory.
    fn begin(&self, command: u8) -> Begin
        ensures begun { result ≡ begin_of self.now command }
        ensures input { IsInputOf result (input_of self.now command) };

    /// Byte `i`, counted from 0, of the bytes that a command gives. It takes no memory.
    fn input_byte(&self, command: u8, i: u32) -> u8
        requires inside { i < length (input_of self.now command) }
        ensures { result ≡ slice_index (input_of self.now command) i };

    /// The bytes that a command gives from the one at `first` on, as many as there are places. It takes no memory.
    fn input_bytes(&self, command: u8, first: u32, into: &mut [u8])
        requires inside { first + length into.old ≤ length (input_of self.now command) }
        requires short { length (input_of self.now command) < 2 ^ 32 }
        ensures { into.new ≡ slice_range (input_of self.now command) first (first + length into.old) }
    {
        for (i, place) in into.iter_mut().enumerate() {
            *place = self.input_byte(command, first + i as u32);
        }
    }

    /// What a command will do that ends with these bytes of output. Only an output takes memory.
    fn plan(&self, command: u8, bytes: &[u8]) -> Result<Planned<Self::Change>, AllocError>
        requires can { CanEndWith (begin_of self.now command) bytes.now }
        ensures can { IfOk result (λ p. can_swap (bare self.now) p.change) }
        ensures row { IfOk result (λ p. is_after self.now command bytes.now (after_swap (bare self.now) p.change)) }
        ensures back { IfOk result (λ p. needs (change_after_swap (bare self.now) p.change) ≡ 0) }
        ensures alters { IfOk result (λ p. TellsNot p.alters (is_after self.now command bytes.now self.now)) }
        ensures exception { IfOk result (λ p. p.exception ≡ exception_of self.now command) }
        ensures memory { OnErr result (IsOutput (begin_of self.now command)) };

    /// Makes room for a change, after which its exchange takes no memory. The device is as before. It takes memory only
    /// if the change needs room.
    fn room(&mut self, change: &Self::Change) -> Result<(), AllocError>
        ensures contents { bare self.new ≡ bare self.old }
        ensures ok { OnOk result (needs change.now ≤ room_of self.new) }
        ensures memory { OnErr result (0 < needs change.now) };

    /// Exchanges the device with a change for which there is room. It takes no memory. Done again, it
    /// restores both; a planned change that was made wants no room to be taken back.
    fn swap(&mut self, change: &mut Self::Change)
        requires can { can_swap (bare self.old) change.old }
        requires room { needs change.old ≤ room_of self.old }
        ensures device { bare self.new ≡ after_swap (bare self.old) change.old }
        ensures change { change.new ≡ change_after_swap (bare self.old) change.old };

    /// The sense bytes. It takes no memory.
    fn sense(&self) -> [u8; 6]
        ensures { result ≡ sense_of self.now };

    /// A device that is equal to this one, with what is kept out of sight.
    fn copy(&self) -> Result<Self, AllocError>
        ensures { IfOk result (λ device. bare device ≡ bare self.now) };

    /// A change that is equal to this one.
    fn copy_change(change: &Self::Change) -> Result<Self::Change, AllocError>
        ensures { IfOk result (λ copied. copied ≡ change.now) };

    // an exchange can be made again, which restores the device and the change
    ghost again: { (d : Self) (x : Self.Change) → can_swap d x → can_swap (after_swap d x) (change_after_swap d x) };

    ghost restores_device: { (d : Self) (x : Self.Change) → can_swap d x → after_swap (after_swap d x) (change_after_swap d x) ≡ d };

    ghost restores_change: { (d : Self) (x : Self.Change) → can_swap d x → change_after_swap (after_swap d x) (change_after_swap d x) ≡ x };
}
