//! What conditions read of a machine. Source: gdb manual, "The GDB Agent Expression Mechanism", "Bytecode Descriptions".
ghost use Rattle.std.specs.Prelude.{◌≡◌};
ghost use Rattle.s360_machine.specs.Machine.{seen};
ghost use Rattle.s360_remote.specs.Points.{target_of};

use crate::registers::words_of_machine;
use s360_condition::Readable;
use s360_machine::Machine;
use s360_packet::REGISTERS;
use s360_store::Storage;
use std::marker::Model;

/// The words of a machine's registers, and its storage.
#[derive(Drop)]
pub(crate) struct Readout<'a> {
    words: [u32; REGISTERS],
    storage: &'a Storage,
}

impl<'a> Model for Readout<'a> {
    ghost use Rattle.s360_condition.specs.Target.{Target};

    ghost Value = { Target };

    ghost view = { λ r. record { registers = r.words; storage = r.storage.now.bytes } };
}

impl<'a> Readout<'a> {
    /// Those of a machine.
    pub(crate) fn new(machine: &'a Machine) -> Readout<'a>
        ensures { result ≡ target_of (seen machine.now.whole) }
    {
        Readout {
            words: words_of_machine(machine),
            storage: machine.storage(),
        }
    }
}

impl Readable for Readout<'_> {
    ghost target_of = { λ r. r };

    fn register(&self, number: u16) -> Option<u32> {
        self.words.get(usize::from(number)).copied()
    }

    fn byte(&self, at: u32) -> Option<u8> {
        if at >= self.storage.size() {
            return None;
        }
        Some(self.storage.byte(at))
    }
}
