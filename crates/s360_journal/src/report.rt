//! What an accepted event altered.
ghost use Rattle.std.specs.Prelude.{◌≡◌, ◌≢◌, ◌↔◌, ◌-◌, List, [], length, slice_get, IfOk, IfSome, IsTrue, OnErr};
ghost use Rattle.s360_machine.specs.Change.{places_of_change};
ghost use Rattle.s360_journal.specs.Reports.{IsReport};

use crate::places::Places;
use s360_machine::Packed;
use std::alloc::{AllocError, Global};

/// What an accepted event altered.
#[derive(Drop)]
pub enum Report {
    /// The places whose value is another than before, at least one.
    Changed(Places),
    /// Nothing. The event stands all the same.
    Idle,
}

/// Whether the last of the changes has no place, or there is none.
pub(crate) fn is_idle(changes: &Packed) -> bool
    ensures last { IfSome (slice_get changes.now (length changes.now - 1)) (λ x. IsTrue result ↔ (places_of_change x ≡ [])) }
    ensures none { changes.now ≡ [] → IsTrue result }
{
    let number = changes.len();
    number == 0 || changes.last_count() == 0
}

impl Report {
    /// The report of the event that made the last of the changes, if there is one. Where nothing was altered it takes no
    /// memory.
    pub(crate) fn of_last(alloc: Global, changes: &Packed) -> Result<Report, AllocError>
        ensures report { IfOk result (λ report. IfSome (slice_get changes.now (length changes.now - 1)) (λ x. IsReport report (places_of_change x))) }
        ensures memory { OnErr result (IfSome (slice_get changes.now (length changes.now - 1)) (λ x. places_of_change x ≢ [])) }
    {
        let places = Places::of_last(alloc, changes)?;
        if places.is_empty() {
            return Ok(Report::Idle);
        }
        Ok(Report::Changed(places))
    }
}
