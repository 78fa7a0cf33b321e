//! Instructions that make something of R1 and a second operand. Source: GA22-6821, "Fixed-Point Arithmetic" and "Logical
//! Operations".
ghost use Rattle.std.specs.Prelude.{◌≡◌, OnOk};
ghost use Rattle.s360_footprint.specs.RegisterRows.{compares, keeps_code, may_overflow, uses_first};
ghost use Rattle.s360_source.specs.Parts.{places_of_part};
ghost use Rattle.s360_source.specs.Walks.{combination_walk};

use crate::altering::{Computed, push_computed};
use crate::part::Part;
use crate::question::Question;
use s360_fixed::Combination;
use s360_machine::Machine;
use s360_store::Place;
use s360_word::RegisterNumber;
use std::alloc::AllocError;

/// Whether R1 is read.
fn uses_first(combination: Combination) -> bool
    ensures { result ≡ uses_first combination }
{
    !matches!(
        combination,
        Combination::Second
            | Combination::Tested
            | Combination::Complement
            | Combination::Absolute
            | Combination::NegativeAbsolute
    )
}

/// Whether the condition code stays.
fn keeps_code(combination: Combination) -> bool
    ensures { result ≡ keeps_code combination }
{
    matches!(
        combination,
        Combination::Second | Combination::InsertedCharacter | Combination::LowProduct
    )
}

/// Whether R1 stays.
fn compares(combination: Combination) -> bool
    ensures { result ≡ compares combination }
{
    matches!(
        combination,
        Combination::Comparison | Combination::LogicalComparison
    )
}

/// Whether the result may overflow.
fn may_overflow(combination: Combination) -> bool
    ensures { result ≡ may_overflow combination }
{
    matches!(
        combination,
        Combination::Complement | Combination::Absolute | Combination::Sum | Combination::Difference
    )
}

/// Walks over a combination of R1 and a second operand.
pub(crate) fn push_combination(
    question: Question,
    found: &mut Vec<Place>,
    machine: &Machine,
    combination: Combination,
    r1: RegisterNumber,
    second: Part,
) -> Result<(), AllocError>
    ensures { OnOk result (found.new.items ≡ combination_walk question machine.now.whole.core.psw combination r1 (places_of_part second) found.old.items) }
{
    let both = [Part::register(r1), second];
    let operands = &both[..];
    let first = [Place::Register(r1.number())];
    let registers = &first[..];
    let computed = Computed {
        registers: if compares(combination) {
            &registers[..0]
        } else {
            registers
        },
        words: if uses_first(combination) {
            operands
        } else {
            &operands[1..]
        },
        may_overflow: may_overflow(combination),
        sets_code: !keeps_code(combination),
    };
    push_computed(question, found, machine, &computed)
}
