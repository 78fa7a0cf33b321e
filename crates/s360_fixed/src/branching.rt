//! Branches. The branch address is taken before the link, the count or the sum is stored. Source:
//! GA22-6821, "Branching".
ghost use Rattle.std.specs.Prelude.{◌≡◌, IfOk};
ghost use Rattle.s360_model.specs.Numbers.{signed};
ghost use Rattle.s360_fixed.specs.Branching.{address_after_branch, branch_outcome, comparand_of};
ghost use Rattle.s360_fixed.specs.Branching.{index_outcome, is_selected, link_of, register_target};
ghost use Rattle.s360_fixed.specs.Plans.{PutsNothing, PutsOutcome};
ghost use Rattle.s360_fixed.specs.Rows.{is_taken};

use crate::effect::Effect;
use crate::ended::Ended;
use crate::registers::odd_partner;
use crate::row::{Branch, IndexBranch};
use crate::setting::CodeSetting;
use crate::view::View;
use s360_store::Puts;
use s360_word::{Cc, RegisterNumber, Word, add_signed, compare_signed};
use std::alloc::AllocError;

/// The branch address in a register; none in register 0.
#[inline(always)]
pub fn register_target(view: &View, r2: RegisterNumber) -> Option<u32>
    ensures { result ≡ register_target view.now r2 }
{
    if r2.number() == 0 {
        None
    } else {
        Some(view.register(r2))
    }
}

/// Where the program goes on.
fn address_after_branch(view: &View, is_taken: bool, target: Option<u32>) -> u32
    ensures { result ≡ address_after_branch view.now is_taken target }
{
    match target {
        Some(target) if is_taken => target,
        _ => view.next_address(),
    }
}

/// Whether a mask of four bits has a one for the condition code, the leftmost for 0.
fn is_selected(mask: RegisterNumber, code: Cc) -> bool
    ensures { result ≡ is_selected mask code }
{
    (mask.number() >> (3 - code.code())) % 2 == 1
}

/// Bits 32 to 63 of the PSW, with the length of this instruction and the address of the next.
fn link_of(view: &View) -> Word
    ensures { result ≡ link_of view.now }
{
    let psw = view.psw().with_instruction_address(view.next_address());
    (psw.stored(0, view.instruction_length()) % 0x1_0000_0000) as u32
}

/// Puts a branch on condition, a branch and link or a branch on count.
#[inline(always)]
pub fn put_branch<P: Puts>(
    view: &View,
    branch: Branch,
    r1: RegisterNumber,
    target: Option<u32>,
    puts: &mut P,
) -> Result<Ended, AllocError>
    requires none { PutsNothing P.Puts puts.old view.now }
    ensures { IfOk result (PutsOutcome P.Puts puts.new view.now (branch_outcome branch view.now r1 target)) }
{
    let (effect, is_taken) = match branch {
        Branch::OnCondition => (Effect::none(), is_selected(r1, view.psw().condition_code())),
        Branch::AndLink => (
            Effect::single(link_of(view), CodeSetting::unchanged()),
            true,
        ),
        Branch::OnCount => {
            let count = view.register(r1).wrapping_sub(1);
            (Effect::single(count, CodeSetting::unchanged()), count != 0)
        }
    };
    effect.put_alone(view, r1, address_after_branch(view, is_taken, target), puts)
}

/// The comparand of a branch on index: in R3 where its number is odd, else in the next register.
fn comparand_of(view: &View, r3: RegisterNumber) -> Word
    ensures { result ≡ comparand_of view.now r3 }
{
    match odd_partner(r3) {
        Some(next) => view.register(next),
        None => view.register(r3),
    }
}

/// Whether a branch on index is taken, by the sum and the comparand.
fn is_taken(branch: IndexBranch, sum: Word, comparand: Word) -> bool
    ensures { result ≡ is_taken branch (signed sum) (signed comparand) }
{
    let is_high = compare_signed(sum, comparand).code() == 2;
    match branch {
        IndexBranch::High => is_high,
        IndexBranch::LowOrEqual => !is_high,
    }
}

/// Puts a branch on index high, or low or equal.
pub fn put_branch_on_index<P: Puts>(
    view: &View,
    branch: IndexBranch,
    r1: RegisterNumber,
    r3: RegisterNumber,
    address: u32,
    puts: &mut P,
) -> Result<Ended, AllocError>
    requires none { PutsNothing P.Puts puts.old view.now }
    ensures { IfOk result (PutsOutcome P.Puts puts.new view.now (index_outcome branch view.now r1 r3 address)) }
{
    let (sum, _) = add_signed(view.register(r1), view.register(r3));
    let is_taken = is_taken(branch, sum, comparand_of(view, r3));
    let next_address = address_after_branch(view, is_taken, Some(address));
    Effect::single(sum, CodeSetting::unchanged()).put_alone(view, r1, next_address, puts)
}
