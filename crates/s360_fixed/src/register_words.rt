//! Registers and as many successive words, and how they are put. Source: GA22-6821, "Fixed-Point Arithmetic", LOAD MULTIPLE
//! and STORE MULTIPLE.
ghost use Rattle.std.specs.Prelude.{◌≤◌, ◌*◌, IfOk};
ghost use Rattle.s360_store.specs.Plans.{HasBytes};
ghost use Rattle.s360_fixed.specs.Plans.{PutsNothing, PutsOutcome, words_loaded, words_stored};
ghost use Rattle.s360_fixed.specs.Storing.{completed};

use crate::ended::Ended;
use crate::puts::{put_next_psw, put_registers, put_words};
use crate::view::View;
use s360_store::Puts;
use s360_word::RegisterNumber;
use std::alloc::AllocError;

/// Registers from R1 on, 15 followed by 0, and the address of as many successive words.
#[derive(Clone, Copy)]
pub(crate) struct RegisterWords {
    /// The first register.
    pub(crate) r1: RegisterNumber,
    /// The number of registers, 1 to 16.
    pub(crate) count: u8,
    /// The address of the first word.
    pub(crate) address: u32,
}

/// Puts registers at successive words, after which the next instruction comes.
pub(crate) fn put_stored<P: Puts>(
    view: &View,
    words: &RegisterWords,
    puts: &mut P,
) -> Result<Ended, AllocError>
    requires inside { HasBytes words.now.address (4 * words.now.count) view.now.core }
    requires count { words.now.count ≤ 16 }
    requires none { PutsNothing P.Puts puts.old view.now }
    ensures { IfOk result (PutsOutcome P.Puts puts.new view.now (completed view.now (words_stored view.now words.now view.now.core))) }
{
    put_next_psw(view, puts)?;
    put_words(view, words, puts)?;
    Ok(Ended::Done)
}

/// Puts successive words in registers, after which the next instruction comes.
pub(crate) fn put_loaded<P: Puts>(
    view: &View,
    words: &RegisterWords,
    puts: &mut P,
) -> Result<Ended, AllocError>
    requires inside { HasBytes words.now.address (4 * words.now.count) view.now.core }
    requires count { words.now.count ≤ 16 }
    requires none { PutsNothing P.Puts puts.old view.now }
    ensures { IfOk result (PutsOutcome P.Puts puts.new view.now (completed view.now (words_loaded view.now words.now view.now.core))) }
{
    // Looked at, since its clauses have that there are sixteen registers.
    let _ = view.register(words.r1);
    put_next_psw(view, puts)?;
    put_registers(view, words, puts)?;
    Ok(Ended::Done)
}
