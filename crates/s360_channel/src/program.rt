//! A channel program: what a channel keeps of it from one command word to the next. Source:
//! GA22-6821, "Input/Output Operations", execution of input/output operations, and "System Control Panel",
//! initial program loading.
ghost use Rattle.std.specs.Prelude.{◌≡◌, ◌-◌, None, [], length, unwrap_or};
ghost use Rattle.std.specs.Option.{option_copied};
ghost use Rattle.s360_channel.specs.Execution.{after_check, command_with, ends_with, gathered_before};
ghost use Rattle.s360_channel.specs.Execution.{goes_on_after, moved_before};
ghost use Rattle.s360_channel.specs.Programs.{goes_on_with_record, is_first, is_loading, loading_program};
ghost use Rattle.s360_channel.specs.Steps.{change_of_step, state_after_step};
ghost use Rattle.s360_channel.specs.declared.unit_state.UnitState.TheVariants.{Active, Waiting};

use crate::ccw::Ccw;
use crate::conclusion::{Conclusion, next_ccw_address};
use crate::csw::{ChannelStatus, Csw, UnitStatus};
use crate::engine::ChannelStep;
use crate::gathered::Gathered;
use s360_word::ProtectionKey;

/// How the next channel command word follows what went before it.
#[derive(Clone, PartialEq, Eq, Drop)]
pub enum Progress {
    /// It comes first.
    First,
    /// It comes first in initial program loading: a word that stands nowhere, as if it stood at address 0.
    Loading,
    /// It is chained to a command that has ended, and is the next command.
    CommandChained,
    /// It is chained to data: the input of this command goes on, of which so many bytes were moved.
    InputChained { command: u8, moved: u32 },
    /// It is chained to data: the output of this command goes on, for which these bytes were
    /// gathered.
    OutputChained { command: u8, gathered: Gathered },
}

impl Progress {
    /// Whether no word of the program was executed yet.
    pub(crate) fn is_first(&self) -> bool
        ensures { result ≡ is_first self.now }
    {
        matches!(self, Progress::First)
    }

    /// Whether the next word is that with which loading begins.
    pub fn is_loading(&self) -> bool
        ensures { result ≡ is_loading self.now }
    {
        matches!(self, Progress::Loading)
    }

    /// Whether the next word goes on with the same record.
    pub(crate) fn goes_on_with_record(&self) -> bool
        ensures { result ≡ goes_on_with_record self.now }
    {
        match self {
            Progress::First | Progress::Loading | Progress::CommandChained => false,
            Progress::InputChained { .. } | Progress::OutputChained { .. } => true,
        }
    }

    /// The command of a word: where the record goes on that of its first word, and else its own.
    pub fn command_with(&self, ccw: &Ccw) -> u8
        ensures { result ≡ command_with self.now ccw.now }
    {
        match self {
            Progress::InputChained { command, .. } | Progress::OutputChained { command, .. } => {
                *command
            }
            Progress::First | Progress::Loading | Progress::CommandChained => ccw.command,
        }
    }

    /// How many bytes of the input were moved by the words before.
    pub(crate) fn moved_before(&self) -> u32
        ensures { result ≡ moved_before self.now }
    {
        match self {
            Progress::InputChained { moved, .. } => *moved,
            _ => 0,
        }
    }

    /// What the words before have gathered for the output, if there are any.
    pub(crate) fn gathered_before(&self) -> Option<&Gathered>
        ensures { unwrap_or (option_copied result) [] ≡ gathered_before self.now }
    {
        match self {
            Progress::OutputChained { gathered, .. } => Some(gathered),
            _ => None,
        }
    }

    /// How many bytes more an output takes, of a device that takes at most so many.
    pub fn left_within(&self, limit: u32) -> u32
        ensures { result ≡ limit - length (gathered_before self.now) }
    {
        let count = self.gathered_before().map_or(0, Gathered::count);
        (limit as usize).saturating_sub(count) as u32
    }
}

/// A channel program that a unit executes.
#[derive(Clone, PartialEq, Eq)]
pub struct Program {
    /// The protection key of its stores.
    pub key: ProtectionKey,
    /// The address of the next channel command word.
    pub address: u32,
    /// How that word follows what went before it.
    pub progress: Progress,
}

impl Drop for Program {
    fn drop(self) {
        let Program {
            key: _,
            address: _,
            progress: _,
        } = self;
    }
}

impl Program {
    /// The program that initial program loading begins with. Its key is 0. Its first word reads 24 bytes to
    /// address 0, is chained to the command word at 8, and takes a record of any length. It takes no memory.
    pub fn loading() -> Program
        ensures { result ≡ loading_program }
    {
        Program {
            key: ProtectionKey::new(0),
            address: 0,
            progress: Progress::Loading,
        }
    }

    /// The protection key of its stores.
    pub fn key(&self) -> ProtectionKey
        ensures { result ≡ self.now.key }
    {
        self.key
    }

    /// The address of the next channel command word.
    pub fn next_address(&self) -> u32
        ensures { result ≡ self.now.address }
    {
        self.address
    }

    /// The program where it goes on with the word after the one at an address.
    pub(crate) fn going_on_after(&self, at: u32, progress: Progress) -> Program
        ensures { Active result ≡ goes_on_after self.now at progress }
    {
        Program {
            key: self.key,
            address: next_ccw_address(at),
            progress,
        }
    }

    /// The status word where the program has ended with the word at an address.
    pub(crate) fn csw(&self, at: u32, conclusion: &Conclusion) -> Csw
        ensures { Waiting result ≡ ends_with self.now at conclusion.now }
    {
        Csw {
            key: self.key,
            address: next_ccw_address(at),
            unit: conclusion.unit,
            channel: conclusion.channel,
            count: conclusion.residual,
        }
    }

    /// The step where the word at an address has met a check.
    pub(crate) fn checked<C: Drop>(&self, at: u32, status: ChannelStatus) -> ChannelStep<C>
        ensures state { state_after_step self.now result ≡ (after_check self.now at status).state }
        ensures change { change_of_step result ≡ None }
    {
        let conclusion = Conclusion {
            unit: UnitStatus::none(),
            channel: status,
            residual: 0,
        };
        ChannelStep::Ends {
            csw: self.csw(at, &conclusion),
            change: None,
        }
    }
}
