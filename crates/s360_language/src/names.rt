//! The printed names of places, events, refusals, run states and external conditions.
ghost use Rattle.std.specs.Prelude.{◌≡◌, ◌++◌, OnOk};
ghost use Rattle.s360_language.specs.Names.{event_name, external_name, key_name, patch_name};
ghost use Rattle.s360_language.specs.Names.{place_name, refusal_name, refused_text};
ghost use Rattle.s360_language.specs.Names.{run_state_name};

use s360_machine::{EventKind, ExternalConditions, KeyKind, PatchKind, Refusal, RunState};
use s360_store::{BLOCK_SIZE, Place};
use s360_text::Text;
use std::alloc::AllocError;

/// Adds a place's name.
pub fn push_place(text: &mut Text, place: Place) -> Result<(), AllocError>
    ensures { OnOk result (text.new ≡ text.old ++ place_name place) }
{
    match place {
        Place::Psw => text.push_text("p"),
        Place::Register(number) => text.push_numbered("r", u64::from(number), 1),
        Place::Byte(address) => text.push_numbered("s", u64::from(address), 6),
        Place::Key(block) => text.push_numbered("k", u64::from(block) * u64::from(BLOCK_SIZE), 6),
        Place::Run => text.push_text("run"),
        Place::External => text.push_text("ext"),
        Place::UnitState(unit) => text.push_numbered("u", u64::from(unit.0), 3),
        Place::UnitMedia(unit) => text.push_numbered("d", u64::from(unit.0), 3),
    }
}

/// Adds the name of a key.
fn push_key(text: &mut Text, key: KeyKind) -> Result<(), AllocError>
    ensures { OnOk result (text.new ≡ text.old ++ key_name key) }
{
    match key {
        KeyKind::Start => text.push_text("key start"),
        KeyKind::Stop => text.push_text("key stop"),
        KeyKind::Reset => text.push_text("key reset"),
        KeyKind::Interrupt => text.push_text("key interrupt"),
        KeyKind::EndOfFile => text.push_text("key eof"),
        KeyKind::Request => text.push_text("key request"),
        KeyKind::Enter => text.push_text("enter"),
        KeyKind::Load(unit) => text.push_numbered("load ", u64::from(unit.0), 3),
    }
}

/// The name of a patch.
fn name_of_patch(patch: PatchKind) -> &'static str
    ensures { result.now ≡ patch_name patch }
{
    match patch {
        PatchKind::Bytes => "patch s",
        PatchKind::Register => "patch r",
        PatchKind::StorageKey => "patch k",
        PatchKind::FetchBit => "patch f",
        PatchKind::Psw => "patch p",
    }
}

/// Adds the name of an event of this kind.
pub fn push_event(text: &mut Text, kind: EventKind) -> Result<(), AllocError>
    ensures { OnOk result (text.new ≡ text.old ++ event_name kind) }
{
    match kind {
        EventKind::Cpu => text.push_text("cpu"),
        EventKind::Channel(unit) => text.push_numbered("channel ", u64::from(unit.0), 3),
        EventKind::Tick => text.push_text("tick"),
        EventKind::Key(key) => push_key(text, key),
        EventKind::Patch(patch) => text.push_text(name_of_patch(patch)),
    }
}

/// The name of a refusal.
fn name_of_refusal(refusal: Refusal) -> &'static str
    ensures { result.now ≡ refusal_name refusal }
{
    match refusal {
        Refusal::Memory => "memory",
        Refusal::OutsideStorage => "outside storage",
        Refusal::NoSuchUnit => "no such unit",
        Refusal::LineTooLong => "line too long",
        Refusal::PatchTooLong => "patch too long",
        Refusal::JournalFull => "journal full",
    }
}

/// Adds what a refusal answers: its number and its name.
pub fn push_refusal(text: &mut Text, refusal: Refusal) -> Result<(), AllocError>
    ensures { OnOk result (text.new ≡ text.old ++ refused_text refusal) }
{
    text.push_counted("refused ", u64::from(refusal.number()))?;
    text.push_text(" ")?;
    text.push_text(name_of_refusal(refusal))?;
    text.push_text("\n")
}

/// Adds the name of a run state after a blank.
pub(crate) fn push_run_state(text: &mut Text, run: RunState) -> Result<(), AllocError>
    ensures { OnOk result (text.new ≡ text.old ++ run_state_name run) }
{
    match run {
        RunState::Operating => text.push_text(" operating"),
        RunState::Stopped => text.push_text(" stopped"),
        RunState::Loading(unit) => text.push_numbered(" loading ", u64::from(unit.0), 3),
    }
}

/// The name of the external conditions that are pending, after a blank.
pub(crate) fn name_of_external(external: ExternalConditions) -> &'static str
    ensures { result.now ≡ external_name external }
{
    match (external.timer, external.key) {
        (false, false) => " none",
        (true, false) => " timer",
        (false, true) => " key",
        (true, true) => " timer key",
    }
}
