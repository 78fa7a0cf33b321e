//! Going event by event, where a watch waits for bytes to be read. Source: gdb manual, "Setting Watchpoints".
ghost use Rattle.std.specs.Prelude.{◌≡◌, ℕ, [], false, nat_eq, IfOk, OnErr};
ghost use Rattle.s360_journal.specs.Recorded.{with_standing};
ghost use Rattle.s360_journal.specs.Returning.{one_back};
ghost use Rattle.s360_remote.specs.Moving.{IsMoved, back_by_one, looking_back, looking_on, met_if, most_looks, one_on, why_met};

use crate::accesses::Accesses;
use crate::points::{BytesMet, Points};
use s360_journal::{Pause, Reach, Session, Turn};
use std::alloc::{AllocError, Global};

/// So many events are looked at before gdb is let in.
const LOOKS: u32 = 10_000;

/// Why the machine pauses, and the watched bytes of which gdb is told if that is why.
#[derive(Drop)]
pub(crate) struct Paused {
    pub(crate) why: Pause,
    pub(crate) met: BytesMet,
}

impl Paused {
    /// For another reason than watched bytes.
    fn by(why: Pause) -> Paused
        ensures { result ≡ record { why = why; met = [] } }
    {
        Paused {
            why,
            met: BytesMet::new(),
        }
    }

    /// After an event that met these bytes.
    fn after(why: Pause, met: BytesMet) -> Paused
        ensures { result ≡ record { why = why_met met why; met = met_if (why_met met why) met } }
    {
        let is_met = !met.is_empty();
        match why {
            Pause::Refused(_) | Pause::Idle => Paused::by(why),
            _ if is_met => Paused {
                why: Pause::Watch,
                met,
            },
            _ => Paused::by(why),
        }
    }
}

/// Runs one event. After want of memory it may stand.
fn go_one_on(
    alloc: Global,
    session: &mut Session,
    points: &Points,
    reach: Reach,
) -> Result<Paused, AllocError>
    ensures paused { IfOk result (λ p. IsMoved p.why p.met session.new (one_on points.now reach session.old)) }
    ensures memory { OnErr result ((n : ℕ) × (session.new ≡ (looking_on points.now reach session.old n).recorded)) }
{
    let accesses = Accesses::next(alloc, session)?;
    let why = session.run(points, Turn::Next, reach, 1)?;
    let met = points.with_accessed(points.bytes_altered(session), &accesses);
    Ok(Paused::after(why, met))
}

/// Goes on, event by event. After want of memory some first ones of the events stand.
pub(crate) fn look_on(
    alloc: Global,
    session: &mut Session,
    points: &Points,
    reach: Reach,
) -> Result<Paused, AllocError>
    ensures paused { IfOk result (λ p. IsMoved p.why p.met session.new (looking_on points.now reach session.old most_looks)) }
    ensures memory { OnErr result ((n : ℕ) × (session.new ≡ (looking_on points.now reach session.old n).recorded)) }
{
    for _event in 0..LOOKS {
        let paused = go_one_on(alloc, session, points, reach)?;
        match paused.why {
            Pause::Done => {}
            _ => return Ok(paused),
        }
    }
    Ok(Paused::by(Pause::Done))
}

/// Takes the last change back, which stands, and looks at what it met. After want of memory it is taken back.
fn go_one_back(
    alloc: Global,
    session: &mut Session,
    points: &Points,
    reach: Reach,
) -> Result<Paused, AllocError>
    requires { nat_eq session.old.standing 0 ≡ false }
    ensures paused { IfOk result (λ p. IsMoved p.why p.met session.new (back_by_one points.now reach session.old)) }
    ensures memory { OnErr result (session.new ≡ one_back session.old) }
{
    let altered = points.bytes_altered(session);
    let why = session.run_back(points, reach, 1);
    if let Pause::Watch = why {
        let _taken = session.step_back();
    }
    let accesses = Accesses::next(alloc, session)?;
    let met = points.with_accessed(altered, &accesses);
    Ok(Paused::after(why, met))
}

/// Goes back, change by change. After want of memory some last ones of the changes are taken back.
pub(crate) fn look_back(
    alloc: Global,
    session: &mut Session,
    points: &Points,
    reach: Reach,
) -> Result<Paused, AllocError>
    ensures paused { IfOk result (λ p. IsMoved p.why p.met session.new (looking_back points.now reach session.old most_looks)) }
    ensures memory { OnErr result ((n : ℕ) × (session.new ≡ with_standing session.old n)) }
{
    for _change in 0..LOOKS {
        if session.standing() == 0 {
            return Ok(Paused::by(Pause::RecordStart));
        }
        let paused = go_one_back(alloc, session, points, reach)?;
        match paused.why {
            Pause::Done => {}
            _ => return Ok(paused),
        }
    }
    Ok(Paused::by(Pause::Done))
}
