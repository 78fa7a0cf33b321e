//! Interruptions that wait until the PSW lets them happen. Source: GA22-6821, "Interruptions".
ghost use Rattle.std.specs.Prelude.{◌≡◌};
ghost use Rattle.s360_psw.specs.Pending.{lets_interrupt, next_interruption_of, takes_external, takes_input_output};

use crate::class::Class;
use crate::psw::Psw;
use s360_word::Unit;

/// What interrupts the program as soon as its mask in the PSW is one.
#[derive(Clone, Copy)]
pub struct Pending {
    /// The timer has passed from zero or more to a negative number.
    pub timer: bool,
    /// The interrupt key was pressed.
    pub key: bool,
    /// The lowest unit of channel 0 that has a condition.
    pub channel0: Option<Unit>,
    /// The lowest unit of channel 1 that has a condition.
    pub channel1: Option<Unit>,
}

impl Psw {
    /// Whether the mask of the external conditions, of channel 0 or of channel 1 is one. Where none is, nothing that
    /// waits can interrupt, and nobody has to ask what does.
    pub fn lets_interrupt(self) -> bool
        ensures { result ≡ lets_interrupt self }
    {
        self.external_mask() || self.channel_mask(0) || self.channel_mask(1)
    }
}

/// Whether an external interruption happens.
fn takes_external(psw: Psw, pending: &Pending) -> bool
    ensures { result ≡ takes_external psw pending.now }
{
    psw.external_mask() && (pending.timer || pending.key)
}

/// Whether an input/output interruption happens, where no external one does.
fn takes_input_output(psw: Psw, pending: &Pending) -> bool
    ensures { result ≡ takes_input_output psw pending.now }
{
    psw.channel_mask(0) && pending.channel0.is_some()
        || psw.channel_mask(1) && pending.channel1.is_some()
}

/// The class of the interruption that happens before the next instruction, if one does: external
/// before input/output.
pub fn next_interruption(psw: &Psw, pending: &Pending) -> Option<Class>
    ensures { result ≡ next_interruption_of psw.now pending.now }
{
    if takes_external(*psw, pending) {
        Some(Class::External)
    } else if takes_input_output(*psw, pending) {
        Some(Class::InputOutput)
    } else {
        None
    }
}
