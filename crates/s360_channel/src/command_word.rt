//! The channel command word at hand: what becomes of its program. Source: GA22-6821, "Input/Output Operations",
//! chaining, and conclusion of input/output operations.
ghost use Rattle.std.specs.Prelude.{◌≡◌, None};
ghost use Rattle.s360_channel.specs.Execution.{after_conclusion, goes_on_after};
ghost use Rattle.s360_channel.specs.Steps.{at_hand, change_of_step, state_after_step};

use crate::ccw::Ccw;
use crate::conclusion::Conclusion;
use crate::engine::ChannelStep;
use crate::program::{Program, Progress};
use s360_device::Device;

/// A channel command word that is executed over a device.
pub(crate) struct CommandWord<'a, D> {
    /// The device.
    pub(crate) device: &'a D,
    /// The program that goes on with it.
    pub(crate) program: &'a Program,
    /// Its address.
    pub(crate) at: u32,
    /// Itself.
    pub(crate) ccw: Ccw,
    /// The command of its record.
    pub(crate) command: u8,
}

impl<D> Drop for CommandWord<'_, D> {
    fn drop(self) {
        let CommandWord {
            device: _,
            program: _,
            at: _,
            ccw: _,
            command: _,
        } = self;
    }
}

impl<D: Device> CommandWord<'_, D> {
    /// The step where its record goes on with the next word.
    pub(crate) fn going_on(&self, progress: Progress) -> ChannelStep<D::Change>
        ensures state { state_after_step self.now.program.now result ≡ goes_on_after self.now.program.now self.now.at progress }
        ensures change { change_of_step result ≡ None }
    {
        ChannelStep::GoesOn {
            program: self.program.going_on_after(self.at, progress),
            change: None,
        }
    }

    /// The step where its command has ended, with the device's change.
    pub(crate) fn concluded(
        &self,
        conclusion: &Conclusion,
        change: Option<D::Change>,
    ) -> ChannelStep<D::Change>
        ensures state { state_after_step self.now.program.now result ≡ after_conclusion (at_hand D.Device self.now) conclusion.now }
        ensures change { change_of_step result ≡ change }
    {
        let flags = &self.ccw.flags;
        if flags.chain_command && !flags.chain_data && conclusion.is_clean() {
            let program = self
                .program
                .going_on_after(self.at, Progress::CommandChained);
            return ChannelStep::GoesOn { program, change };
        }
        let csw = self.program.csw(self.at, conclusion);
        ChannelStep::Ends { csw, change }
    }
}
