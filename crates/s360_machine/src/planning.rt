//! What an event alters: its values are put, and those that differ from what stands there are its change.
ghost use Rattle.std.specs.Prelude.{◌≡◌, [], true, None, Err, IfOk, IsOkUnless, MatchOption, OnOk};
ghost use Rattle.s360_store.specs.Cells.{AllFit};
ghost use Rattle.s360_store.specs.CoreChanges.{cells_of_change};
ghost use Rattle.s360_store.specs.Puts.{HasNoPuts};
ghost use Rattle.s360_machine.specs.Changes.{change_of};
ghost use Rattle.s360_machine.specs.Machine.{storage_size, seen};
ghost use Rattle.s360_machine.specs.Planned.{IsChangeTo, LeavesOthers, PutsMachine};
ghost use Rattle.s360_machine.specs.Refusals.{refusal_of};
ghost use Rattle.s360_machine.specs.Step.{after};
ghost use Rattle.s360_machine.specs.declared.refusal.Refusal.TheVariants.{Memory};

use crate::beside::Beside;
use crate::changes::Changes;
use crate::event::Event;
use crate::machine::Machine;
use crate::refusal::Refusal;
use s360_store::{CoreChange, Puts};
use std::alloc::AllocError;

impl Machine {
    /// What an event alters, or why it is refused.
    pub fn plan(&self, event: &Event) -> Result<Changes, Refusal>
        ensures ok { IfOk result (λ changes. IsChangeTo self.now.whole changes (after (seen self.now.whole) event.now)) }
        ensures refused { MatchOption (refusal_of (storage_size (seen self.now.whole)) event.now) (IsOkUnless result Memory) (λ r. result ≡ Err r) }
    {
        if let Some(refusal) = self.refusal(event) {
            return Err(refusal);
        }
        Ok(self.changes_of(event)?)
    }

    /// Puts an event, unless it is refused for its own sake (refusals 2 to 5).
    #[inline(always)]
    fn put_event<P: Puts>(
        &self,
        event: &Event,
        puts: &mut P,
        beside: &mut Beside,
    ) -> Result<(), AllocError>
        requires none { HasNoPuts self.now.whole.core (P.made puts.old) (P.may puts.old) (P.past puts.old) (P.count puts.old) }
        requires leaves { LeavesOthers self.now.whole beside.old }
        requires accepted { refusal_of (storage_size (seen self.now.whole)) event.now ≡ None }
        ensures { OnOk result (PutsMachine self.now.whole (P.made puts.new) (P.may puts.new) beside.new (after (seen self.now.whole) event.now)) }
    {
        match event {
            Event::Cpu => self.put_cpu(puts, beside),
            Event::Channel(unit) => self.put_channel(*unit, puts, beside),
            Event::Tick => self.put_tick(puts, beside),
            Event::Key(key) => self.put_key(key, beside),
            Event::Patch(patch) => self.put_patch(patch, puts),
        }
    }

    /// Puts an event into a change of the core and one beside it, which alter nothing yet.
    #[inline(always)]
    fn put_change(
        &self,
        event: &Event,
        core: &mut CoreChange,
        beside: &mut Beside,
    ) -> Result<(), AllocError>
        requires empty { core.old ≡ record { psw = None; cells = [] } }
        requires leaves { LeavesOthers self.now.whole beside.old }
        requires accepted { refusal_of (storage_size (seen self.now.whole)) event.now ≡ None }
        ensures change { OnOk result (IsChangeTo self.now.whole (change_of (cells_of_change core.new) beside.new) (after (seen self.now.whole) event.now)) }
        ensures fit { OnOk result (AllFit true (cells_of_change core.new)) }
    {
        self.put_event(event, core, beside)?;
        Ok(())
    }

    /// Puts what an event alters, in place of what is there, unless it is refused for its own sake (refusals 2 to 5).
    #[inline(always)]
    pub(crate) fn put_changes(&self, event: &Event, changes: &mut Changes) -> Result<(), AllocError>
        requires accepted { refusal_of (storage_size (seen self.now.whole)) event.now ≡ None }
        ensures { OnOk result (IsChangeTo self.now.whole changes.new (after (seen self.now.whole) event.now)) }
    {
        changes.core.clear();
        changes.beside.clear();
        let Ok(()) = self.put_change(event, &mut changes.core, &mut changes.beside) else {
            changes.core.clear();
            return Err(AllocError);
        };
        Ok(())
    }

    /// What an event alters, unless it is refused for its own sake (refusals 2 to 5).
    fn changes_of(&self, event: &Event) -> Result<Changes, AllocError>
        requires accepted { refusal_of (storage_size (seen self.now.whole)) event.now ≡ None }
        ensures { IfOk result (λ changes. IsChangeTo self.now.whole changes (after (seen self.now.whole) event.now)) }
    {
        let mut changes = Changes::new(self.alloc);
        self.put_changes(event, &mut changes)?;
        Ok(changes)
    }
}
