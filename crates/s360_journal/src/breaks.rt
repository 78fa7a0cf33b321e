//! The breakpoints: addresses in storage at which the debugger is to stop (own profile).
ghost use Rattle.std.specs.Prelude.{◌≡◌, [], length};
ghost use Rattle.s360_journal.specs.Breakpoints.{AreBreakpoints, has_address, has_room_for, with_address, without_address};
ghost use Rattle.s360_journal.specs.Running.{stops_at};

use crate::running::Stops;
use crate::session::Session;
use arrayvec::ArrayVec;
use s360_machine::Machine;
use std::marker::Model;

/// So many breakpoints can be set.
const MOST: usize = 64;

/// The breakpoints: a set of at most 64 addresses in bytes from 0, which a contract sees as a list in
/// the order in which they were set. No call takes memory.
#[derive(Drop)]
pub struct Breaks {
    addresses: ArrayVec<u32, MOST>,
}

impl Model for Breaks {
    ghost use Rattle.std.specs.Prelude.{List, ℕ};
    ghost use Rattle.s360_journal.specs.Breakpoints.{AreBreakpoints};

    ghost Value = { List ℕ };

    ghost view = { λ b. b.addresses.items };

    ghost invariant = { λ b. AreBreakpoints b.addresses.items };
}

impl Breaks {
    /// No breakpoints.
    pub fn new() -> Breaks
        ensures { result ≡ [] }
    {
        Breaks {
            addresses: ArrayVec::new(),
        }
    }

    /// Sets a breakpoint at an address, which may have one. `false`, and nothing changes, where 64
    /// others are set.
    pub fn add(&mut self, address: u32) -> bool
        ensures answer { result ≡ has_room_for self.old address }
        ensures breaks { self.new ≡ with_address self.old address }
    {
        if self.has(address) {
            return true;
        }
        self.addresses.try_push(address).is_ok()
    }

    /// Clears the breakpoint at an address, if there is one.
    pub fn remove(&mut self, address: u32)
        ensures { self.new ≡ without_address self.old address }
    {
        self.addresses.retain(|set| *set != address);
    }

    /// Whether there is a breakpoint at an address.
    pub fn has(&self, address: u32) -> bool
        ensures { result ≡ has_address self.now address }
    {
        self.addresses.as_slice().contains(&address)
    }

    /// The number of breakpoints, at most 64.
    pub fn len(&self) -> u32
        ensures value { result ≡ length self.now }
        ensures set { AreBreakpoints self.now }
    {
        self.addresses.len() as u32
    }
}

impl Stops for Breaks {
    ghost stops_of = { λ b. stops_at b };

    fn is_at_stop(&self, machine: &Machine) -> bool {
        if self.addresses.is_empty() {
            return false;
        }
        let psw = machine.psw();
        machine.run().is_operating() && !psw.wait() && self.has(psw.instruction_address())
    }

    #[inline(always)]
    fn is_altered(&self, _session: &Session) -> bool {
        false
    }
}
