//! A session, lent to what uses it and then ended. One function alone holds it, since each function that holds
//! a session takes half a minute to prove.

use crate::fault::Fault;
use s360_device::deck_from;
use s360_journal::Session;
use s360_machine::Machine;
use s360_tape::{Tape, blank_tape};
use std::alloc::Global;

/// What a session is lent to.
pub(crate) trait Lent {
    /// Tells that a session is made next.
    fn begin(&self) -> Result<(), Fault> {
        Ok(())
    }

    /// Uses the session, and answers a text.
    fn use_session(&mut self, alloc: Global, session: &mut Session) -> Result<String, Fault>;
}

/// Lends a session over a machine of so many bytes with the cards of a file in its reader and a tape on 180, where at
/// most so many changes may stand.
pub(crate) fn lend_over<L: Lent>(
    alloc: Global,
    size: u32,
    deck: &[u8],
    tape: Tape,
    limit: u8,
    lent: &mut L,
) -> Result<String, Fault> {
    let deck = deck_from(alloc, deck)?;
    let machine = Machine::new(alloc, size, deck, tape, blank_tape(alloc))?;
    lent.begin()?;
    let mut session = Session::new(alloc, machine, u32::from(limit));
    lent.use_session(alloc, &mut session)
}

/// Lends a session over a machine of so many bytes with no card and blank tapes.
pub(crate) fn lend_blank<L: Lent>(
    alloc: Global,
    size: u32,
    limit: u8,
    lent: &mut L,
) -> Result<String, Fault> {
    lend_over(alloc, size, &[], blank_tape(alloc), limit, lent)
}

/// Lends a session over a machine of 65,536 bytes with no card and blank tapes.
pub(crate) fn lend<L: Lent>(alloc: Global, limit: u8, lent: &mut L) -> Result<String, Fault> {
    lend_blank(alloc, 65_536, limit, lent)
}
