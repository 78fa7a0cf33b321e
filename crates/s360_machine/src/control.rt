//! What the operator's panel works on beside the core. Source: GA22-6821, "System Control Panel".
ghost use Rattle.std.specs.Prelude.{◌≡◌};
ghost use Rattle.s360_machine.specs.ControlCells.{control_after_exchange, control_cells, control_cells_after_exchange};
ghost use Rattle.s360_machine.specs.Machine.{no_external};
ghost use Rattle.s360_machine.specs.Operator.{after_start, after_stop, control_after_key};
ghost use Rattle.s360_machine.specs.Planned.{IsControlChangeTo};
ghost use Rattle.s360_machine.specs.Timer.{control_after_tick};
ghost use Rattle.s360_machine.specs.declared.run_state.RunState.TheVariants.{Operating};

use crate::control_change::ControlChange;
use crate::external::ExternalConditions;
use crate::operator::Key;
use crate::run_state::RunState;
use crate::timer::runs_out;
use s360_word::Word;
use std::marker::Model;

/// The run state and the pending external conditions.
#[derive(Clone, Copy)]
pub(crate) struct Control {
    run_state: RunState,
    external: ExternalConditions,
}

impl Model for Control {
    ghost use Rattle.s360_machine.specs.Machine.{Control as Contents};

    ghost Value = { Contents };

    ghost view = { λ c. record { run_state = c.run_state; external = c.external } };

    ghost inverse = { λ c. record { run_state = c.run_state; external = c.external } };
}

/// The run state after the start key, which works while the machine is stopped.
fn after_start(run_state: RunState) -> RunState
    ensures { result ≡ after_start run_state }
{
    match run_state {
        RunState::Stopped => RunState::Operating,
        RunState::Operating | RunState::Loading(_) => run_state,
    }
}

/// The run state after the stop key, which works while the machine operates.
fn after_stop(run_state: RunState) -> RunState
    ensures { result ≡ after_stop run_state }
{
    match run_state {
        RunState::Operating => RunState::Stopped,
        RunState::Stopped | RunState::Loading(_) => run_state,
    }
}

impl Control {
    /// The control part of a new machine, which operates.
    pub(crate) fn new() -> Control
        ensures { result ≡ record { run_state = Operating; external = no_external } }
    {
        Control {
            run_state: RunState::Operating,
            external: ExternalConditions::none(),
        }
    }

    /// The run state.
    pub(crate) fn run_state(&self) -> RunState
        ensures { result ≡ self.now.run_state }
    {
        self.run_state
    }

    /// The pending external conditions.
    pub(crate) fn external(&self) -> ExternalConditions
        ensures { result ≡ self.now.external }
    {
        self.external
    }

    /// The control part with no external condition pending.
    pub(crate) fn without_external(&self) -> Control
        ensures { result ≡ record self.now { external = no_external } }
    {
        Control {
            external: ExternalConditions::none(),
            ..*self
        }
    }

    /// The control part of the machine that operates.
    pub(crate) fn operating(&self) -> Control
        ensures { result ≡ record self.now { run_state = Operating } }
    {
        Control {
            run_state: RunState::Operating,
            ..*self
        }
    }

    /// The control part after a tick of a timer that held this word.
    pub(crate) fn after_tick(&self, word: Word) -> Control
        ensures { result ≡ control_after_tick word self.now }
    {
        if !runs_out(word) {
            return *self;
        }
        Control {
            external: ExternalConditions {
                timer: true,
                ..self.external
            },
            ..*self
        }
    }

    /// The control part after a key is pressed.
    pub(crate) fn after_key(&self, key: &Key) -> Control
        ensures { result ≡ control_after_key key.now self.now }
    {
        match key {
            Key::Start => Control {
                run_state: after_start(self.run_state),
                ..*self
            },
            Key::Stop => Control {
                run_state: after_stop(self.run_state),
                ..*self
            },
            Key::Reset => Control {
                run_state: RunState::Stopped,
                external: ExternalConditions::none(),
            },
            Key::Interrupt => Control {
                external: ExternalConditions {
                    key: true,
                    ..self.external
                },
                ..*self
            },
            Key::Load(unit) => Control {
                run_state: RunState::Loading(*unit),
                external: ExternalConditions::none(),
            },
            Key::EndOfFile | Key::Request | Key::Enter(_) => *self,
        }
    }

    /// What makes another control part of it.
    pub(crate) fn changes_to(&self, next: &Control) -> ControlChange
        ensures { IsControlChangeTo self.now (control_cells result) next.now }
    {
        match (
            self.run_state == next.run_state,
            self.external == next.external,
        ) {
            (true, true) => ControlChange::Neither,
            (false, true) => ControlChange::Run(next.run_state),
            (true, false) => ControlChange::External(next.external),
            (false, false) => ControlChange::Both(next.run_state, next.external),
        }
    }

    /// Puts a run state, and answers the one that stood there.
    fn exchange_run_state(&mut self, run_state: RunState) -> RunState
        ensures control { self.new ≡ record self.old { run_state = run_state } }
        ensures state { result ≡ self.old.run_state }
    {
        let taken = self.run_state;
        self.run_state = run_state;
        taken
    }

    /// Puts external conditions, and answers those that stood there.
    fn exchange_external(&mut self, external: ExternalConditions) -> ExternalConditions
        ensures control { self.new ≡ record self.old { external = external } }
        ensures conditions { result ≡ self.old.external }
    {
        let taken = self.external;
        self.external = external;
        taken
    }

    /// Exchanges what stands at the places of a change with its values.
    pub(crate) fn exchange(&mut self, change: &mut ControlChange)
        ensures control { self.new ≡ control_after_exchange self.old (control_cells change.old) }
        ensures cells { control_cells change.new ≡ control_cells_after_exchange self.old (control_cells change.old) }
    {
        match *change {
            ControlChange::Neither => {}
            ControlChange::Run(state) => {
                *change = ControlChange::Run(self.exchange_run_state(state));
            }
            ControlChange::External(conditions) => {
                *change = ControlChange::External(self.exchange_external(conditions));
            }
            ControlChange::Both(state, conditions) => {
                let state = self.exchange_run_state(state);
                *change = ControlChange::Both(state, self.exchange_external(conditions));
            }
        }
    }
}
