//! Rows that alter registers, the condition code and the instruction address. Source: GA22-6821, "System Structure".
ghost use Rattle.std.specs.Prelude.{◌≡◌, OnOk};
ghost use Rattle.s360_source.specs.Parts.{places_of_parts};
ghost use Rattle.s360_source.specs.Walks.{altered_walk, computed_walk};

use crate::part::Part;
use crate::question::Question;
use s360_machine::Machine;
use s360_store::Place;
use std::alloc::AllocError;

/// What an instruction alters.
#[derive(Clone, Copy)]
pub(crate) struct Altered<'a> {
    /// What an overflow is made of, which is looked at if its mask is one.
    pub overflow: &'a [Part],
    /// The registers.
    pub registers: &'a [Place],
    /// What each of them is made of.
    pub words: &'a [Part],
    /// What the PSW is made of beside itself.
    pub code: &'a [Part],
}

/// Walks over a row that alters these.
pub(crate) fn push_altered(
    question: Question,
    found: &mut Vec<Place>,
    machine: &Machine,
    altered: &Altered,
) -> Result<(), AllocError>
    ensures { OnOk result (found.new.items ≡ altered_walk question machine.now.whole.core.psw (places_of_parts altered.now.overflow.now)
        altered.now.registers.now (places_of_parts altered.now.words.now) (places_of_parts altered.now.code.now) found.old.items) }
{
    question.decide(found, &[Part::Place(Place::Psw)])?;
    if machine.psw().fixed_point_overflow_mask() {
        question.decide(found, altered.overflow)?;
    }
    question.store_each(found, altered.registers, altered.words)?;
    question.store_psw(found, altered.code)
}

/// What an instruction computes of words: registers, and it may be an overflow and the condition code.
#[derive(Clone, Copy)]
pub(crate) struct Computed<'a> {
    /// The registers.
    pub registers: &'a [Place],
    /// What each of them is made of.
    pub words: &'a [Part],
    /// Whether there may be an overflow, which is made of the same.
    pub may_overflow: bool,
    /// Whether the condition code is set, which is made of the same.
    pub sets_code: bool,
}

/// Walks over a row that computes these.
pub(crate) fn push_computed(
    question: Question,
    found: &mut Vec<Place>,
    machine: &Machine,
    computed: &Computed,
) -> Result<(), AllocError>
    ensures { OnOk result (found.new.items ≡ computed_walk question machine.now.whole.core.psw computed.now.may_overflow computed.now.sets_code
        computed.now.registers.now (places_of_parts computed.now.words.now) found.old.items) }
{
    let words = computed.words;
    let none = &words[..0];
    let altered = Altered {
        overflow: if computed.may_overflow { words } else { none },
        registers: computed.registers,
        words,
        code: if computed.sets_code { words } else { none },
    };
    push_altered(question, found, machine, &altered)
}
