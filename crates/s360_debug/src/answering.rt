//! What a command answers. Each command has its row in `answer`; those that offer an event share one.
ghost use Rattle.s360_journal.specs.Recorded.{session_of, standing_events, with_standing};
ghost use Rattle.s360_journal.specs.Returning.{one_back};
ghost use Rattle.std.specs.Prelude.{◌≡◌, ◌≢◌, ◌⊎◌, ◌++◌, take, IfOk, OnErr, OnOk, codes};
ghost use Rattle.s360_model.specs.Text.{decimal};
ghost use Rattle.s360_journal.specs.Breakpoints.{with_address, without_address};
ghost use Rattle.s360_journal.specs.Standing.{last_kind_of};
ghost use Rattle.s360_language.specs.declared.command.LineFault.TheVariants.{Memory};
ghost use Rattle.s360_machine.specs.Machine.{seen};
ghost use Rattle.s360_language.specs.Names.{refused_text};
ghost use Rattle.s360_language.specs.Shown.{shown_text};
ghost use Rattle.s360_debug.specs.Answers.{answer_to, state_after, StandsPartly, after_offer, text_of_event, break_text, breaks_text, stop_in, text_of_report};
ghost use Rattle.s360_debug.specs.Answers.{back_text, last_text, place_names, fault_text, changed_after, withdrawal_text, withdrawn};
ghost use Rattle.s360_debug.specs.Debugger.{debugger};
ghost use Rattle.s360_journal.specs.Withdrawals.{is_standing};

use crate::open_line::OpenLine;
use crate::running::answer_run;
use s360_journal::{Breaks, Places, Report, Session, Withdrawal};
use s360_language::{Command, LineFault, Shown, push_event, push_place, push_refusal, push_shown};
use s360_machine::{Event, EventKind, Machine, Refusal};
use s360_text::Text;
use std::alloc::{AllocError, Global};

/// So many places of a report are named.
const NAMED: u32 = 8;

/// Carries a command out, and answers its text. After want of memory some first ones of the events stand
/// that it would have run, and a command that offers none leaves all as it was.
#[tactic(auto, unfolding(crate::specs::Answers::answer_to, crate::specs::Answers::state_after))]
pub fn answer(
    alloc: Global,
    session: &mut Session,
    breaks: &mut Breaks,
    command: Command,
) -> Result<Text, AllocError>
    ensures text { IfOk result (λ text. text ≡ answer_to (debugger session.old breaks.old) command) }
    ensures state { OnOk result (debugger session.new breaks.new ≡ state_after (debugger session.old breaks.old) command) }
    ensures memory { OnErr result (StandsPartly (debugger session.old breaks.old) command session.new) }
    ensures memory_breaks { OnErr result (breaks.new ≡ breaks.old) }
{
    match command {
        Command::Back => answer_back(alloc, session),
        Command::Standing => text_of_number(alloc, "standing ", session.standing()),
        Command::Last(place) => last_text(alloc, session.last_change(place)),
        Command::Show(shown) => text_of_shown(alloc, session.machine(), shown),
        Command::Break { at } => answer_break(alloc, breaks, at),
        Command::Clear { at } => answer_clear(alloc, breaks, at),
        Command::Until => answer_until(alloc, session, breaks),
        Command::Withdraw { number } => answer_withdraw(alloc, session, number),
        Command::Run { most } => answer_run(alloc, session, breaks, most),
        command => match command.into_event() {
            Some(event) => answer_event(alloc, session, event),
            None => unreachable!(),
        },
    }
}

/// What is shown of a part of the machine.
fn text_of_shown(alloc: Global, machine: &Machine, shown: Shown) -> Result<Text, AllocError>
    ensures { IfOk result (λ text. text ≡ shown_text (seen machine.now.whole) shown) }
{
    let mut text = Text::new(alloc);
    push_shown(&mut text, machine, shown)?;
    Ok(text)
}

/// Offers an event, and answers its report or its refusal.
fn answer_event(alloc: Global, session: &mut Session, event: Event) -> Result<Text, AllocError>
    ensures text { IfOk result (λ text. text ≡ text_of_event (session_of session.old) event) }
    ensures state { OnOk result (session.new ≡ after_offer session.old event) }
    ensures memory { OnErr result ((session.new ≡ session.old) ⊎ (session.new ≡ after_offer session.old event)) }
{
    match session.forward(event) {
        Ok(report) => {
            let text = report_text(alloc, session.standing(), &report)?;
            Ok(text)
        }
        Err(Refusal::Memory) => Err(AllocError),
        Err(refusal) => refusal_text(alloc, refusal),
    }
}

/// What a refusal answers.
fn refusal_text(alloc: Global, refusal: Refusal) -> Result<Text, AllocError>
    ensures { IfOk result (λ text. text ≡ refused_text refusal) }
{
    let mut text = Text::new(alloc);
    push_refusal(&mut text, refusal)?;
    Ok(text)
}

/// The report of the change with this number.
fn report_text(alloc: Global, number: u32, report: &Report) -> Result<Text, AllocError>
    ensures { IfOk result (λ text. text ≡ text_of_report number report.now) }
{
    let mut text = Text::new(alloc);
    text.push_decimal(u64::from(number))?;
    match report {
        Report::Idle => text.push_text(" idle")?,
        Report::Changed(places) => push_changed(&mut text, places)?,
    }
    text.push_text("\n")?;
    Ok(text)
}

/// Adds the number of places that were changed, and the names of the first of them.
pub fn push_changed(text: &mut Text, places: &Places) -> Result<(), AllocError>
    ensures { OnOk result (text.new ≡ changed_after text.old places.now) }
{
    text.push_text(" changed ")?;
    text.push_decimal(u64::from(places.len()))?;
    push_places(text, places, places.len().min(NAMED))?;
    if places.len() > NAMED {
        text.push_text(" ..")?;
    }
    Ok(())
}

/// Adds the names of the first places, so many, each after a blank.
fn push_places(text: &mut Text, places: &Places, count: u32) -> Result<(), AllocError>
    ensures { OnOk result (text.new ≡ text.old ++ place_names (take count places.now)) }
{
    for i in 0..count {
        let Some(place) = places.get(i) else {
            return Ok(());
        };
        text.push_text(" ")?;
        push_place(text, place)?;
    }
    Ok(())
}

/// Takes the last change back. Its text is made first, so that want of memory leaves it standing.
fn answer_back(alloc: Global, session: &mut Session) -> Result<Text, AllocError>
    ensures text { IfOk result (λ text. text ≡ back_text session.old.standing (last_kind_of (standing_events session.old))) }
    ensures state { OnOk result (session.new ≡ one_back session.old) }
    ensures memory { OnErr result (session.new ≡ session.old) }
{
    let text = text_of_back(alloc, session.standing(), session.last_event())?;
    let _taken = session.step_back();
    Ok(text)
}

/// The answer to `back` where so many changes stand, the last of which is of this kind.
fn text_of_back(alloc: Global, number: u32, kind: Option<EventKind>) -> Result<Text, AllocError>
    ensures { IfOk result (λ text. text ≡ back_text number kind) }
{
    let Some(kind) = kind else {
        return text_of_line(alloc, "nothing stands");
    };
    let mut text = Text::new(alloc);
    text.push_text("back ")?;
    text.push_decimal(u64::from(number))?;
    text.push_text(" ")?;
    push_event(&mut text, kind)?;
    text.push_text("\n")?;
    Ok(text)
}

/// Sets a breakpoint. Room for its text is made first, so that want of memory leaves all as it was.
fn answer_break(alloc: Global, breaks: &mut Breaks, at: u32) -> Result<Text, AllocError>
    ensures text { IfOk result (λ text. text ≡ break_text breaks.old at) }
    ensures state { OnOk result (breaks.new ≡ with_address breaks.old at) }
    ensures memory { OnErr result (breaks.new ≡ breaks.old) }
{
    let line = OpenLine::new(alloc, "breaks ")?;
    if breaks.add(at) {
        Ok(line.finish(breaks.len()))
    } else {
        text_of_line(alloc, "breaks full")
    }
}

/// A line of these words.
pub fn text_of_line(alloc: Global, words: &str) -> Result<Text, AllocError>
    ensures { IfOk result (λ text. text ≡ words.now ++ codes "\n") }
{
    let mut text = Text::new(alloc);
    text.push_text(words)?;
    text.push_text("\n")?;
    Ok(text)
}

/// A line of these words and a number.
fn text_of_number(alloc: Global, words: &str, number: u32) -> Result<Text, AllocError>
    ensures { IfOk result (λ text. text ≡ words.now ++ decimal number ++ codes "\n") }
{
    let mut text = Text::new(alloc);
    text.push_text(words)?;
    text.push_decimal(u64::from(number))?;
    text.push_text("\n")?;
    Ok(text)
}

/// Clears a breakpoint. Room for its text is made first, so that want of memory leaves all as it was.
fn answer_clear(alloc: Global, breaks: &mut Breaks, at: u32) -> Result<Text, AllocError>
    ensures text { IfOk result (λ text. text ≡ breaks_text (without_address breaks.old at)) }
    ensures state { OnOk result (breaks.new ≡ without_address breaks.old at) }
    ensures memory { OnErr result (breaks.new ≡ breaks.old) }
{
    let line = OpenLine::new(alloc, "breaks ")?;
    breaks.remove(at);
    Ok(line.finish(breaks.len()))
}

/// Goes back to the last stop at a breakpoint. Room for its text is made first, so that want of memory
/// leaves all changes standing.
fn answer_until(alloc: Global, session: &mut Session, breaks: &Breaks) -> Result<Text, AllocError>
    ensures text { IfOk result (λ text. text ≡ codes "until " ++ decimal (stop_in (debugger session.old breaks.now)) ++ codes "\n") }
    ensures state { OnOk result (session.new ≡ with_standing session.old (stop_in (debugger session.old breaks.now))) }
    ensures memory { OnErr result (session.new ≡ session.old) }
{
    let line = OpenLine::new(alloc, "until ")?;
    Ok(line.finish(session.back_until(breaks)))
}

/// Withdraws a change. Its text is made first, so that want of memory leaves all changes standing.
fn answer_withdraw(alloc: Global, session: &mut Session, number: u32) -> Result<Text, AllocError>
    ensures text { IfOk result (λ text. text ≡ withdrawal_text number (is_standing number (standing_events session.old))) }
    ensures state { OnOk result (session.new ≡ withdrawn number session.old) }
    ensures memory { OnErr result (session.new ≡ session.old) }
{
    let text = text_of_number(alloc, "withdrawn ", number)?;
    match session.withdraw(number) {
        Ok(()) => Ok(text),
        Err(Withdrawal::NoSuchChange) => text_of_line(alloc, "no such change"),
        Err(Withdrawal::Memory) => Err(AllocError),
    }
}

/// The number of a place's last change.
fn last_text(alloc: Global, number: Option<u32>) -> Result<Text, AllocError>
    ensures { IfOk result (λ text. text ≡ last_text number) }
{
    match number {
        None => text_of_line(alloc, "last none"),
        Some(number) => text_of_number(alloc, "last ", number),
    }
}

/// What a faulty line answers. Want of memory is no fault of the line, and has no text.
pub fn text_of_fault(alloc: Global, fault: LineFault) -> Result<Text, AllocError>
    ensures { IfOk result (λ text. (text ≡ fault_text fault) × (fault ≢ Memory)) }
{
    let mut text = Text::new(alloc);
    text.push_text("? ")?;
    match fault {
        LineFault::LineTooLong => text.push_text("line too long")?,
        LineFault::Unknown => text.push_text("unknown")?,
        LineFault::Argument(place) => {
            text.push_text("argument ")?;
            text.push_decimal(u64::from(place))?;
        }
        LineFault::Memory => return Err(AllocError),
    }
    text.push_text("\n")?;
    Ok(text)
}
