//! What was measured, as it is printed.
use std::fmt::{self, Display, Formatter};
use std::time::Duration;

/// Nanoseconds in a second.
const NANOSECONDS: u128 = 1_000_000_000;

/// A tenth of a million.
const TENTH: u128 = 100_000;

/// Bytes a second that events work on.
#[derive(Clone, Copy, Debug)]
pub(crate) enum Moved {
    /// Forward.
    Forward(u128),
    /// Forward and back.
    Both { forward: u128, back: u128 },
}

/// Events a second each way, bytes of memory an event where the host tells them, and bytes a second
/// where they are counted.
#[derive(Clone, Copy, Debug)]
pub(crate) struct Measured {
    pub(crate) forward: u128,
    pub(crate) back: u128,
    pub(crate) memory: Option<u64>,
    pub(crate) moved: Option<Moved>,
}

/// A number in millions, with one digit after the point.
#[derive(Clone, Copy, Debug)]
struct Millions(u128);

impl Display for Millions {
    fn fmt<W: fmt::Write>(&self, f: &mut Formatter<W>) -> fmt::Result {
        let Millions(number) = *self;
        let (millions, tenths) = (number / TENTH / 10, number / TENTH % 10);
        write!(f, "{millions}.{tenths}")
    }
}

impl Display for Measured {
    fn fmt<W: fmt::Write>(&self, f: &mut Formatter<W>) -> fmt::Result {
        let (forward, back) = (self.forward, self.back);
        write!(f, "{forward} events a second forward, {back} back")?;
        if let Some(bytes) = self.memory {
            write!(f, ", {bytes} bytes an event")?;
        }
        match self.moved {
            None => Ok(()),
            Some(Moved::Forward(bytes)) => {
                let bytes = Millions(bytes);
                write!(f, ", {bytes} million bytes a second forward")
            }
            Some(Moved::Both { forward, back }) => {
                let (forward, back) = (Millions(forward), Millions(back));
                write!(f, ", {forward} million bytes a second forward, {back} back")
            }
        }
    }
}

/// How many a second so many in this time are.
pub(crate) fn a_second(count: u64, time: Duration) -> u128 {
    u128::from(count) * NANOSECONDS / time.as_nanos().max(1)
}
