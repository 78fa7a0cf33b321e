//! What gdb is still to be told. Source: gdb manual, "Stop Reply Packets".
ghost use Rattle.std.specs.Prelude.{◌≡◌};
ghost use Rattle.s360_remote.specs.Driven.{nothing_untold};
ghost use Rattle.s360_remote.specs.Untold.{after_stop, stop_before};

use crate::points::{BytesMet, Points};
use s360_packet::Stop;
use std::marker::Model;

/// What gdb is still to be told.
#[derive(Drop)]
pub(crate) struct Untold {
    /// Watched bytes that were met together with one that it was told of.
    pub(crate) met: BytesMet,
    /// That the machine stands where it does.
    pub(crate) stop: bool,
    /// If gdb asks, whether the last line of its user moved the machine.
    pub(crate) moved: bool,
}

impl Model for Untold {
    ghost use Rattle.s360_remote.specs.Driven.{Untold as Told};

    ghost Value = { Told };

    ghost view = { λ u. record { met = u.met; stop = u.stop; moved = u.moved } };
}

impl Untold {
    /// Nothing.
    pub(crate) fn nothing() -> Untold
        ensures { result ≡ nothing_untold }
    {
        Untold {
            met: BytesMet::new(),
            stop: false,
            moved: false,
        }
    }

    /// The stop that gdb is told before the machine goes on or back, if there is one: it is told now.
    pub(crate) fn take_stop(&mut self, points: &Points) -> Option<Stop>
        ensures stop { result ≡ stop_before self.old points.now.watches }
        ensures after { self.new ≡ after_stop self.old points.now.watches }
    {
        if self.stop {
            self.stop = false;
            return Some(Stop::Trap);
        }
        self.met.keep_watched(points);
        match self.met.take_first() {
            Some(met) => Some(met.stop()),
            None => None,
        }
    }
}
