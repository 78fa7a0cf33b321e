//! What comparisons and tests do: they set the condition code and alter nothing else. Source:
//! GA22-6821, "Logical Operations".
ghost use Rattle.std.specs.Prelude.{IfOk};
ghost use Rattle.s360_fixed.specs.Plans.{PutsNothing, PutsOutcome};
ghost use Rattle.s360_logic.specs.Immediate.{code_alone};

use s360_fixed::{Ended, View};
use s360_store::Puts;
use s360_word::Cc;
use std::alloc::AllocError;

/// Puts a condition code alone.
pub(crate) fn put_code<P: Puts>(view: &View, code: Cc, puts: &mut P) -> Result<Ended, AllocError>
    requires none { PutsNothing P.Puts puts.old view.now }
    ensures { IfOk result (PutsOutcome P.Puts puts.new view.now (code_alone view.now code)) }
{
    let psw = view
        .psw()
        .with_condition_code(code)
        .with_instruction_address(view.next_address());
    puts.put_psw(view.core(), psw)?;
    Ok(Ended::Done)
}
