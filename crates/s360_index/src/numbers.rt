//! Lists of numbers, to whose end a number is put, and from where it is taken again.
ghost use Rattle.std.specs.Prelude.{◌≡◌, OnErr, OnOk};
ghost use Rattle.s360_index.specs.Numbers.{with_number, without_number};

use std::alloc::AllocError;

/// Puts a number at the end of a list, unless it stands there. Want of memory leaves the list as it was.
#[inline(always)]
pub(crate) fn put_number(numbers: &mut Vec<u32>, number: u32) -> Result<(), AllocError>
    ensures ok { OnOk result (numbers.new.items ≡ with_number number numbers.old.items) }
    ensures err { OnErr result (numbers.new.items ≡ numbers.old.items) }
{
    if numbers.last() != Some(&number) {
        // In two steps, of which the compiler puts each where it is called.
        numbers.reserve(1)?;
        numbers.push_reserved(number);
    }
    Ok(())
}

/// Takes a number from the end of a list, if it stands there. It takes no memory.
#[inline(always)]
pub(crate) fn take_number(numbers: &mut Vec<u32>, number: u32)
    ensures { numbers.new.items ≡ without_number number numbers.old.items }
{
    if numbers.last() == Some(&number) {
        let _ = numbers.pop();
    }
}
