//! Which of bytes differ from those that stand there, run by run.
ghost use Rattle.std.specs.Prelude.{◌≡◌, ◌≢◌, ◌<◌, ◌≤◌, ℕ, length, slice_index, IsTrue};
ghost use Rattle.s360_store.specs.Differing.{IsFirstOther, IsNextRun};

/// So many bytes are compared at once.
const STRIDE: usize = 16;

/// Whether each byte differs from that of the other list. All are compared, which the compiler does at once.
#[inline(always)]
fn all_differ(bytes: &[u8], others: &[u8]) -> bool
    requires few { length bytes.now ≡ 16 }
    requires as_many { length others.now ≡ 16 }
    ensures { IsTrue result → (i : ℕ) → i < 16 → slice_index bytes.now i ≢ slice_index others.now i }
{
    let mut is_any_same = false;
    for i in 0..STRIDE {
        is_any_same |= bytes[i] == others[i];
    }
    !is_any_same
}

/// Whether each byte is that of the other list, likewise.
#[inline(always)]
fn all_same(bytes: &[u8], others: &[u8]) -> bool
    requires few { length bytes.now ≡ 16 }
    requires as_many { length others.now ≡ 16 }
    ensures { IsTrue result → (i : ℕ) → i < 16 → slice_index bytes.now i ≡ slice_index others.now i }
{
    let mut is_any_other = false;
    for i in 0..STRIDE {
        is_any_other |= bytes[i] != others[i];
    }
    !is_any_other
}

/// Where the first of bytes is, from a place on, that differs from what stands there: at the end of all, if none does.
#[inline(always)]
pub fn first_other(new: &[u8], stored: &[u8], from: usize) -> usize
    requires as_many { length stored.now ≡ length new.now }
    requires within { from ≤ length new.now }
    ensures { IsFirstOther stored.now new.now from result }
{
    let mut start = from;
    while start + STRIDE <= new.len()
        && all_same(&new[start..start + STRIDE], &stored[start..start + STRIDE])
    {
        start += STRIDE;
    }
    while start < new.len() && new[start] == stored[start] {
        start += 1;
    }
    start
}

/// Where the next of bytes begin and end, from a place on, that differ from what stands there: at the end of all, if none
/// does.
#[inline(always)]
pub fn next_run(new: &[u8], stored: &[u8], from: usize) -> (usize, usize)
    requires as_many { length stored.now ≡ length new.now }
    requires within { from ≤ length new.now }
    ensures { IsNextRun stored.now new.now from result.0 result.1 }
{
    let start = first_other(new, stored, from);
    let mut end = start;
    while end + STRIDE <= new.len()
        && all_differ(&new[end..end + STRIDE], &stored[end..end + STRIDE])
    {
        end += STRIDE;
    }
    while end < new.len() && new[end] != stored[end] {
        end += 1;
    }
    (start, end)
}
