//! Single cells, and runs of successive bytes of storage, whose bytes stand in one list.
ghost use Rattle.std.specs.Prelude.{◌≡◌, ◌<◌, ◌≤◌, ◌+◌, length, slice_get, position, drop, IfSome, Some, IsTrue};
ghost use Rattle.std.specs.List.{list_any};
ghost use Rattle.s360_store.specs.Cells.{places_of_cells};
ghost use Rattle.s360_store.specs.Items.{AllMiss, AreItems, HasAddresses, IsItem, IsJoined, IsPartAt, IsReplaced, MissesBytes, bytes_of_item, bytes_of_items};
ghost use Rattle.s360_store.specs.Items.{cells_of_item, cells_of_items, cells_of_part, count_of_item, first_place, has_place, is_in_run, last_place};
ghost use Rattle.s360_store.specs.Plans.{planned_value};
ghost use Rattle.s360_store.specs.Spans.{span_of_item};
ghost use Rattle.s360_store.specs.declared.place.Place.TheVariants.{Byte};

use crate::place::{Cell, Place};
use crate::span::Span;
use std::alloc::AllocError;

/// A single cell, or a run of successive bytes of storage.
#[derive(Clone, Copy)]
pub enum Item {
    /// A cell.
    Single(Cell),
    /// So many bytes from an address on, at least one.
    Run { address: u32, count: u32 },
}

impl Default for Item {
    fn default() -> Item {
        Item::Single(Cell::default())
    }
}

/// A part of cells: one, or those of successive bytes of storage.
#[derive(Clone, Copy)]
pub enum CellPart<'a> {
    /// A cell.
    Cell(Cell),
    /// The cells of bytes from an address on.
    Bytes(u32, &'a [u8]),
}

impl CellPart<'_> {
    /// The number of its cells.
    pub fn len(self) -> usize
        ensures { result ≡ length (cells_of_part self.entry) }
    {
        match self {
            CellPart::Cell(_) => 1,
            CellPart::Bytes(_, bytes) => bytes.len(),
        }
    }

    /// The place of its first cell.
    pub fn first(self) -> Place
        requires { 0 < length (cells_of_part self) }
        ensures { slice_get (places_of_cells (cells_of_part self.entry)) 0 ≡ Some result }
    {
        match self {
            CellPart::Cell(cell) => cell.place,
            CellPart::Bytes(address, _) => Place::Byte(address),
        }
    }
}

/// Whether a place is a byte of a run.
pub(crate) fn is_in_run(address: u32, count: u32, place: Place) -> bool
    ensures { result ≡ is_in_run address count place }
{
    match place {
        Place::Byte(at) => at >= address && at - address < count,
        _ => false,
    }
}

impl Item {
    /// The number of its bytes.
    fn bytes(self) -> u32
        ensures { result ≡ bytes_of_item self }
    {
        match self {
            Item::Single(_) => 0,
            Item::Run { count, .. } => count,
        }
    }

    /// The number of its cells.
    fn len(self) -> u32
        ensures { result ≡ count_of_item self }
    {
        match self {
            Item::Single(_) => 1,
            Item::Run { count, .. } => count,
        }
    }

    /// Its places.
    pub fn span(self) -> Span
        ensures { result ≡ span_of_item self }
    {
        match self {
            Item::Single(cell) => Span::Place(cell.place),
            Item::Run { address, count } => Span::Bytes { address, count },
        }
    }

    /// Whether it has a place.
    fn has(self, place: Place) -> bool
        ensures { result ≡ has_place self place }
    {
        match self {
            Item::Single(cell) => cell.place.is(place),
            Item::Run { address, count } => is_in_run(address, count, place),
        }
    }

    /// Whether it has none of the places of bytes from an address on.
    fn misses(self, address: u32, count: u32) -> bool
        ensures { IsTrue result → MissesBytes self address count }
    {
        let past = u64::from(address) + u64::from(count);
        match self {
            Item::Single(cell) => !is_in_run(address, count, cell.place),
            Item::Run {
                address: first,
                count: own,
            } => past <= u64::from(first)
                || u64::from(first) + u64::from(own) <= u64::from(address),
        }
    }

    /// The place of its first cell.
    fn first(self) -> Place
        ensures { result ≡ first_place self }
    {
        match self {
            Item::Single(cell) => cell.place,
            Item::Run { address, .. } => Place::Byte(address),
        }
    }

    /// The place of its last cell.
    fn last(self) -> Place
        requires item { IsItem self }
        ensures { result ≡ last_place self }
    {
        match self {
            Item::Single(cell) => cell.place,
            Item::Run { address, count } => Place::Byte(address + (count - 1)),
        }
    }
}

/// The cell of a byte of storage.
pub(crate) fn byte_cell(address: u32, byte: u8) -> Cell
    ensures { result ≡ record { place = Byte address; value = byte } }
{
    Cell {
        place: Place::Byte(address),
        value: u64::from(byte),
    }
}

/// The cells of an item from one of them on. The bytes are those from its own on.
fn part_of(item: Item, within: u32, bytes: &[u8]) -> CellPart<'_>
    requires within { within < count_of_item item }
    requires item { IsItem item }
    requires all { bytes_of_item item ≤ length bytes.now }
    ensures is { cells_of_part result ≡ drop within (cells_of_item item bytes.now) }
    ensures small { HasAddresses result }
{
    match item {
        Item::Single(cell) => CellPart::Cell(cell),
        Item::Run { address, count } => {
            CellPart::Bytes(address + within, &bytes[within as usize..count as usize])
        }
    }
}

/// The part that begins with the cell at `i` of items, counted from 0.
pub fn part_at<'a>(items: &[Item], bytes: &'a [u8], i: u32) -> CellPart<'a>
    requires items { AreItems items.now }
    requires all { bytes_of_items items.now ≤ length bytes.now }
    requires inside { i < length (cells_of_items items.now bytes.now) }
    ensures { IsPartAt (cells_of_items items.now bytes.now) i result }
{
    let (mut left, mut rest) = (i, bytes);
    for item in items {
        if left < item.len() {
            return part_of(*item, left, rest);
        }
        left -= item.len();
        rest = rest.split_at(item.bytes() as usize).1;
    }
    unreachable!()
}

/// The value that an item has for a place, if it has the place. The bytes are those from its own on.
fn value_of(item: Item, bytes: &[u8], place: Place) -> Option<u64>
    requires item { IsItem item }
    requires all { bytes_of_item item ≤ length bytes.now }
    ensures { result ≡ planned_value (cells_of_item item bytes.now) place }
{
    match (item, place) {
        (Item::Single(cell), _) if cell.place.is(place) => Some(cell.value),
        (Item::Run { address, count }, Place::Byte(at)) if at >= address && at - address < count =>
            { Some(u64::from(bytes[(at - address) as usize])) }
        _ => None,
    }
}

/// The value that items have for a place, if one has the place.
pub(crate) fn value_at(items: &[Item], bytes: &[u8], place: Place) -> Option<u64>
    requires items { AreItems items.now }
    requires all { bytes_of_items items.now ≤ length bytes.now }
    ensures { result ≡ planned_value (cells_of_items items.now bytes.now) place }
{
    let mut rest = bytes;
    for item in items {
        if let Some(value) = value_of(*item, rest, place) {
            return Some(value);
        }
        rest = rest.split_at(item.bytes() as usize).1;
    }
    None
}

/// The index of the item that has a place, if one has it.
pub(crate) fn find(items: &[Item], place: Place) -> Option<usize>
    ensures { result ≡ position (λ i. has_place i place) items.now }
{
    items.iter().position(|item| item.has(place))
}

/// Whether an item has a place.
pub(crate) fn one_has(items: &[Item], place: Place) -> bool
    ensures { result ≡ list_any (λ i. has_place i place) items.now }
{
    items.iter().any(|item| item.has(place))
}

/// Whether no item has one of the places of bytes from an address on.
pub(crate) fn all_miss(items: &[Item], address: u32, count: u32) -> bool
    ensures { IsTrue result → AllMiss items.now address count }
{
    for item in items {
        if !item.misses(address, count) {
            return false;
        }
    }
    true
}

/// Puts a cell in place of the item at an index if that is a single one, and says whether it is.
pub(crate) fn replace(items: &mut [Item], at: usize, cell: Cell) -> bool
    requires { at < length items.old }
    ensures { IsReplaced items.old items.new at cell result }
{
    match (items[at], cell.place) {
        (Item::Run { .. }, _) | (_, Place::Byte(_)) => false,
        (Item::Single(_), _) => {
            items[at] = Item::Single(cell);
            true
        }
    }
}

/// The item that bytes from an address on are added to, if they follow the last item, with them.
pub(crate) fn joined(items: &[Item], address: u32, count: u32) -> Option<Item>
    requires few { bytes_of_items items.now + count ≤ 1000000 }
    ensures { IfSome result (λ item. IsJoined items.now address count item) }
{
    let last = items.len().checked_sub(1)?;
    match items[last] {
        Item::Run {
            address: first,
            count: before,
        } if u64::from(first) + u64::from(before) == u64::from(address) => Some(Item::Run {
            address: first,
            count: before + count,
        }),
        _ => None,
    }
}
