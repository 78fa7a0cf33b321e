//! The pairs and the order of the general registers. Source: GA22-6821, "System Structure", general
//! registers.
ghost use Rattle.std.specs.Prelude.{◌≡◌, ◌<◌, ◌+◌, ◌%◌, None, Some, if◌then◌else◌};
ghost use Rattle.s360_fixed.specs.Outcomes.{is_odd};
ghost use Rattle.s360_fixed.specs.Storing.{register_distance};

use s360_word::RegisterNumber;

/// The register after R1, where R1 is even.
pub(crate) fn odd_partner(r1: RegisterNumber) -> Option<RegisterNumber>
    ensures { result ≡ (if is_odd r1 then None else Some (r1 + 1)) }
{
    if r1.number() % 2 == 1 {
        None
    } else {
        Some(RegisterNumber::new(r1.number() + 1))
    }
}

/// The register so many after another, 15 followed by 0.
pub(crate) fn register_after(register: RegisterNumber, count: u8) -> RegisterNumber
    requires { count < 16 }
    ensures { result ≡ (register + count) % 16 }
{
    RegisterNumber::new((register.number() + count) % 16)
}

/// How many registers after another one is, 15 followed by 0.
pub(crate) fn distance(from: RegisterNumber, to: RegisterNumber) -> u8
    ensures distance { result ≡ register_distance from to }
    ensures few { result < 16 }
{
    (to.number() + 16 - from.number()) % 16
}
