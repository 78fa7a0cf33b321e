//! Lines of gdb's user that save: the file is made here, and written elsewhere.
ghost use Rattle.std.specs.Prelude.{◌≡◌, ◌++◌, ℕ, List, IfOk, OnErr, OnOk};
ghost use Rattle.s360_packet.specs.Framing.{framed};
ghost use Rattle.s360_saving.specs.Outcomes.{outcome_text};
ghost use Rattle.s360_remote.specs.Saving.{IsSavingBegun, IsSavingServed, IsWrittenTold};
ghost use Rattle.s360_remote.specs.Replies.{line_text, Adds};

use crate::error_number::ErrorNumber;
use crate::serving::{Then, tell_line};
use crate::target::Target;
use s360_debug::text_of_fault;
use s360_language::LineFault;
use s360_packet::push_packet;
use s360_saving::{Amount, SaveFault, Saving, file_for, outcome_text};
use s360_text::Text;
use std::alloc::AllocError;

/// Hands up the file that a line asks for, or tells what is wrong with the line. The recording stands where it stood; want of
/// memory leaves it at some change.
pub(crate) fn save(
    target: &mut Target,
    asked: Result<Saving<'_>, LineFault>,
    replies: &mut Text,
) -> Result<Then, AllocError>
    ensures served { IfOk result (λ next. Adds (IsSavingServed asked.entry target.old.recorded next) replies.old replies.new) }
    ensures state { OnOk result (target.new ≡ target.old) }
    ensures begun { OnErr result (IsSavingBegun target.old target.new) }
{
    match asked {
        Ok(saving) => Ok(Then::Save(file_for(target.alloc, &mut target.session, saving)?)),
        Err(fault) => {
            tell_line(&text_of_fault(target.alloc, fault)?, replies)?;
            Ok(Then::GoOn)
        }
    }
}

/// Adds what answers a line whose file was written or not, or that memory lacks for that.
pub fn push_written(
    replies: &mut Text,
    amount: Amount,
    outcome: Result<(), SaveFault>,
) -> Result<(), AllocError>
    ensures { OnOk result ((packets : List ℕ) × IsWrittenTold amount outcome packets × (replies.new ≡ replies.old ++ packets)) }
{
    let mut answered = Text::new(replies.alloc());
    match push_outcome(&mut answered, amount, outcome) {
        Ok(()) => replies.push_bytes(answered.as_bytes()),
        Err(AllocError) => push_packet(replies, ErrorNumber::Memory.answer()),
    }
}

/// Tells how the writing of a file ended.
fn push_outcome(
    replies: &mut Text,
    amount: Amount,
    outcome: Result<(), SaveFault>,
) -> Result<(), AllocError>
    ensures { OnOk result (replies.new ≡ replies.old ++ framed (line_text (outcome_text amount outcome))) }
{
    let text = outcome_text(replies.alloc(), amount, outcome)?;
    tell_line(&text, replies)
}
