//! The marks of a list of items, by their places.
ghost use Rattle.std.specs.Prelude.{◌≡◌, ◌≤◌, drop, length, IfSome};
ghost use Rattle.s360_tape.specs.Items.{after_mark, before_mark};

use crate::item::TapeItem;

/// The place just after the first mark from a position on, if there is one.
pub(crate) fn after_mark(items: &[TapeItem], position: usize) -> Option<usize>
    requires inside { position ≤ length items.now }
    ensures place { result ≡ after_mark position (drop position items.now) }
    ensures inside { IfSome result (λ place. place ≤ length items.now) }
{
    let mut place = position;
    while place < items.len() {
        if items[place].is_mark() {
            return Some(place + 1);
        }
        place += 1;
    }
    None
}

/// The place just before the mark that is nearest before a position, or 0 where there is none.
pub(crate) fn before_mark(items: &[TapeItem], position: usize) -> usize
    requires inside { position ≤ length items.now }
    ensures place { result ≡ before_mark items.now position }
    ensures inside { result ≤ position }
{
    let mut place = position;
    while place > 0 {
        place -= 1;
        if items[place].is_mark() {
            return place;
        }
    }
    0
}
