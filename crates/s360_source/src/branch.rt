//! Branches. Source: GA22-6821, "Branching".
ghost use Rattle.std.specs.Prelude.{◌≡◌, ℕ, OnOk};
ghost use Rattle.s360_fixed.specs.declared.row.IndexBranch.{IndexBranch};
ghost use Rattle.s360_machine.specs.Machine.{seen};
ghost use Rattle.s360_footprint.specs.RegisterRows.{comparand_register, index_row};
ghost use Rattle.s360_source.specs.Parts.{places_of_part};
ghost use Rattle.s360_source.specs.Walks.{branch_walk, walked};

use crate::altering::{Altered, push_altered};
use crate::pair::is_odd;
use crate::part::Part;
use crate::question::Question;
use s360_fixed::Branch;
use s360_machine::Machine;
use s360_store::Place;
use s360_word::RegisterNumber;
use std::alloc::AllocError;

/// Walks over a branch to an address that is made of this part.
pub(crate) fn push_branch(
    question: Question,
    found: &mut Vec<Place>,
    machine: &Machine,
    branch: Branch,
    r1: RegisterNumber,
    target: Part,
) -> Result<(), AllocError>
    ensures { OnOk result (found.new.items ≡ branch_walk question machine.now.whole.core.psw branch r1 (places_of_part target) found.old.items) }
{
    let register = [Place::Register(r1.number())];
    let registers = &register[..];
    let steering = match branch {
        Branch::OnCondition | Branch::AndLink => Part::Place(Place::Psw),
        Branch::OnCount => Part::register(r1),
    };
    let parts = [target, steering];
    let places = &parts[..];
    let altered = Altered {
        overflow: &places[..0],
        registers: match branch {
            Branch::OnCondition => &registers[..0],
            Branch::AndLink | Branch::OnCount => registers,
        },
        words: &places[1..],
        code: match branch {
            Branch::AndLink => &places[..1],
            Branch::OnCondition | Branch::OnCount => places,
        },
    };
    push_altered(question, found, machine, &altered)
}

/// The number of the register that an index is compared with.
fn comparand_register(r3: RegisterNumber) -> u8
    ensures { result ≡ comparand_register r3 }
{
    if is_odd(r3) {
        r3.number()
    } else {
        r3.number() + 1
    }
}

/// Walks over a branch on index.
pub(crate) fn push_index(
    question: Question,
    found: &mut Vec<Place>,
    machine: &Machine,
    r1: RegisterNumber,
    r3: RegisterNumber,
) -> Result<(), AllocError>
    ensures { (branch : IndexBranch) → (address : ℕ) → (next : ℕ) → OnOk result (found.new.items ≡ walked question (index_row branch r1 r3 address next)
        (seen machine.now.whole) found.old.items) }
{
    let sum = Place::Register(r1.number());
    let words = [
        Part::Place(sum),
        Part::Place(Place::Register(r3.number())),
        Part::Place(Place::Register(comparand_register(r3))),
    ];
    let altered = Altered {
        overflow: &[],
        registers: &[sum],
        words: &words[..2],
        code: &words,
    };
    push_altered(question, found, machine, &altered)?;
    Ok(())
}
