//! Lines of gdb's user for the target: `monitor LINE`. Each is an inquiry, or a line of the script language with the answer that
//! it has in a script. What it takes back stays recorded.
ghost use Rattle.std.specs.Prelude.{◌≡◌, ◌++◌, false, IfOk, OnErr, OnOk};
ghost use Rattle.s360_debug.specs.Lines.{is_skipped};
ghost use Rattle.s360_debug.specs.Answers.{fault_text};
ghost use Rattle.s360_inquiry.specs.Answers.{answer_to, state_after};
ghost use Rattle.s360_inquiry.specs.Reading.{inquiry_of};
ghost use Rattle.s360_remote.specs.Driven.{fresh};
ghost use Rattle.s360_remote.specs.Monitor.{IsMonitorAnswered, IsAskedBegun, IsMonitorBegun, IsCarriedOut, IsLineBegun, IsLineCut, after_asked, after_line};
ghost use Rattle.s360_remote.specs.Monitor.{answer_to_asked, dropped_text, inquired_of, monitor_text, with_inquired};

use crate::target::Target;
use s360_debug::{answer_line, skips, text_of_fault};
use s360_inquiry::{Inquiry, answer_inquiry, read_inquiry};
use s360_language::LineFault;
use s360_text::Text;
use std::alloc::{AllocError, Global};

/// The lines of the language and the inquiries, with what each does.
const HELP: &str = "\
step: a CPU event
channel U: a channel event of a unit
tick: a tick of the timer
key K: the operator presses start, stop, reset, interrupt, eof or request
enter TEXT: the operator enters a line at the console
load U: the operator presses the load key
patch s A BYTES: puts bytes into storage
patch r R W: puts a word into a register
patch k A K: gives the block of A a storage key
patch f A D: gives the block of A a fetch bit, 0 or 1
patch p Q: puts a doubleword into the PSW
run N: runs at most N events
back: takes back the last change
until: takes changes back to a breakpoint of `break`
withdraw N: withdraws the change of this number
break A: sets a breakpoint of `run` and `until`
clear A: takes one away
standing: counts the changes that stand
last s A, last r R, last k A, last p, last run, last ext, last u U, last d U: the last change of a place
show regs: the general registers
show psw: the PSW and the run state
show s A N: bytes of storage
show k A: a storage key
show ext: the pending external conditions
show u U: what the channel does for a unit
show d U: the sense bytes and the media of a unit
show m U N: an item of a unit's media
show image U: the file of a tape
who P: goes to just before the last change of a place, as `last` names places, and tells it
who m U N: goes to just before the last change of an item of a unit's media, and tells it
why P, why P N: which event stored its value, and what that was made of, 5 or N events deep
why! P, why! P N: the same in full, and what decided each event
goto N, goto start, goto end, goto last: goes to just after change N, to either end, to where one stood before
changes P, changes P N: the last 10 or N changes of a place
stores P, stores P N, stores s A-B, stores s A-B N: the last 10 or N stores into a place or bytes, also of an equal value
readers P, readers P N, readers s A-B, readers s A-B N: the last 10 or N events that read it since the last store there
uses P, uses P N, uses s A-B, uses s A-B N: the same
count P, count s A-B: how many changes altered it
history, history N: the last 10 or N changes
visits A, visits A N, visits svc I, visits svc I N: the last 10 or N events that executed what is at an address, or this SVC
jumps, jumps N: the last 10 or N branches and interruptions
calls: the calls that have not returned, the innermost first
dump A N: bytes of storage with their signs
dump m U N: an item of a unit's media with its signs
units: all units with their media
where: how far the recording stands, and what the CPU does next
save printer FILE: saves the pages that were printed in a file that is not there yet
save punch FILE, save P1 FILE, save P2 FILE, save RP3 FILE: saves the cards that were punched, all or those of a stacker
save console FILE: saves what the console typed, and the lines that were entered
save tape0 FILE, save tape1 FILE: saves the file of a tape
save trace FILE: saves what each change did; FROM and TO behind FILE say from which to which
save! WHAT FILE: writes over a file that is there
";

/// Answers a line. After want of memory it may have been carried out in part, or its text is lost.
pub(crate) fn monitor(target: &mut Target, line: &[u8]) -> Result<Text, AllocError>
    ensures answered { IfOk result (λ text. IsMonitorAnswered (inquiry_of line.now) line.now target.old target.new text) }
    ensures begun { OnErr result (IsMonitorBegun (inquiry_of line.now) line.now target.old target.new) }
{
    match read_inquiry(line) {
        Some(asked) => answer_asked(target, asked),
        None => answer_command(target, line),
    }
}

/// Answers what a line asks of the recording, or tells what is wrong with it.
fn answer_asked(target: &mut Target, asked: Result<Inquiry, LineFault>) -> Result<Text, AllocError>
    ensures text { IfOk result (λ text. text ≡ answer_to_asked (inquired_of (fresh target.old)) asked) }
    ensures state { OnOk result (target.new ≡ after_asked (fresh target.old) asked) }
    ensures begun { OnErr result (IsAskedBegun target.old target.new) }
{
    match asked {
        Ok(inquiry) => answer_of(target, inquiry),
        Err(fault) => tell_fault(target, fault),
    }
}

/// Answers an inquiry.
fn answer_of(target: &mut Target, inquiry: Inquiry) -> Result<Text, AllocError>
    ensures text { IfOk result (λ text. text ≡ answer_to (inquired_of (fresh target.old)) inquiry) }
    ensures state { OnOk result (target.new ≡ with_inquired (fresh target.old) (state_after (inquired_of (fresh target.old)) inquiry)) }
    ensures begun { OnErr result (IsAskedBegun target.old target.new) }
{
    target.session.forget_dropped();
    let alloc = target.alloc;
    let text = answer_inquiry(alloc, &mut target.session, &mut target.stood, inquiry)?;
    Ok(text)
}

/// Tells what is wrong with a line.
fn tell_fault(target: &mut Target, fault: LineFault) -> Result<Text, AllocError>
    ensures text { IfOk result (λ text. text ≡ fault_text fault) }
    ensures state { target.new ≡ fresh target.old }
    ensures begun { IsAskedBegun target.old target.new }
{
    target.session.forget_dropped();
    let text = text_of_fault(target.alloc, fault)?;
    Ok(text)
}

/// Carries a line of the language out, and answers its text. Breakpoints that a line sets are the language's own, beside those
/// of gdb. After want of memory some first ones of the events stand that it would have run, or it was carried out and its text
/// is lost.
fn answer_command(target: &mut Target, line: &[u8]) -> Result<Text, AllocError>
    ensures carried_out { IfOk result (λ text. IsCarriedOut line.now target.old target.new text) }
    ensures begun { OnErr result (IsLineBegun line.now target.old target.new) }
{
    if skips(line) {
        target.session.forget_dropped();
        return Ok(Text::new(target.alloc));
    }
    match line {
        b"help" => text_of(target.alloc, HELP),
        line => carry_out(target, line),
    }
}

/// A text of these words.
fn text_of(alloc: Global, words: &str) -> Result<Text, AllocError>
    ensures { IfOk result (λ text. text ≡ words.now) }
{
    let mut text = Text::new(alloc);
    text.push_text(words)?;
    Ok(text)
}

/// Carries out a line of the language that a script does not skip.
fn carry_out(target: &mut Target, line: &[u8]) -> Result<Text, AllocError>
    requires { is_skipped line.now ≡ false }
    ensures text { IfOk result (λ text. text ≡ monitor_text target.old line.now) }
    ensures state { OnOk result (target.new ≡ after_line target.old line.now) }
    ensures memory { OnErr result (IsLineCut line.now target.old target.new) }
{
    target.session.forget_dropped();
    let alloc = target.alloc;
    let mut text = answer_line(alloc, &mut target.session, &mut target.own_breaks, line)?;
    push_dropped(&mut text, target.session.dropped())?;
    Ok(text)
}

/// Adds how many recorded changes were dropped, if any.
fn push_dropped(text: &mut Text, count: u32) -> Result<(), AllocError>
    ensures { OnOk result (text.new ≡ text.old ++ dropped_text count) }
{
    if count == 0 {
        return Ok(());
    }
    text.push_text("dropped ")?;
    text.push_decimal(u64::from(count))?;
    text.push_text(" recorded changes\n")
}
