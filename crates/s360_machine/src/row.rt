//! Rows of 16 bytes: what an event alters of the core where that is the PSW and little beside it, and
//! else how much of it stands in lists apart.
ghost use Rattle.std.specs.Prelude.{None, ◌≡◌, ◌<◌, ◌≤◌, ℕ, [], IfSome, IsTrue, List, length, slice_get, Some, true};
ghost use Rattle.s360_store.specs.Cells.{AllFit, AreCellsOf, after_exchange, cells_after_exchange, places_of_cells};
ghost use Rattle.s360_store.specs.CoreChanges.{cells_of_change};
ghost use Rattle.s360_store.specs.declared.items.Item.{Item as AnItem};
ghost use Rattle.s360_machine.specs.ChangeSpans.{spans_of_row, spans_within};
ghost use Rattle.s360_machine.specs.Rows.{ArePartsOf, HasNoMore, HasSameCounts, IsOver, IsRowOf, beside_of_row, bytes_of_row, cells_of_row, items_of_row};
ghost use Rattle.s360_store.specs.Items.{cells_of_items};
ghost use Rattle.s360_machine.specs.Stretches.{begun_by, next_after, stretches};

use crate::change_spans::SpansWithin;
use s360_psw::Psw;
use s360_store::{BesidePsw, Core, CoreChange, Item, Place, part_at};
use s360_word::{RegisterNumber, Word};

/// What an event alters. Each variant has its smallest fields first, so that none takes more than 16 bytes.
#[derive(Clone, Copy)]
pub(crate) enum PackedRow {
    /// Nothing.
    Nothing,
    /// The PSW.
    Psw(Psw),
    /// The PSW and a general register.
    Register {
        register: RegisterNumber,
        word: Word,
        psw: Psw,
    },
    /// The PSW and so many bytes from an address on, at least one, which stand apart.
    Bytes {
        count: u16,
        address: u32,
        psw: Psw,
    },
    /// Anything else: so many single cells and runs, with so many bytes, and perhaps something beside the core. They
    /// have so many cells.
    More {
        beside: bool,
        items: u32,
        bytes: u32,
        count: u32,
    },
}

impl PackedRow {
    /// The row of a change of the core that has all but its bytes within it, and these bytes.
    #[inline(always)]
    pub(crate) fn within(core: &CoreChange) -> Option<(PackedRow, &[u8])>
        requires { AllFit true (cells_of_change core.now) }
        ensures { IfSome result (λ r. IsRowOf (cells_of_change core.now) r.0 r.1.now) }
    {
        let psw = core.altered_psw();
        match core.beside_psw() {
            BesidePsw::Nothing => Some((psw.map_or(PackedRow::Nothing, PackedRow::Psw), &[])),
            BesidePsw::Register(register, word) => {
                let psw = psw?;
                Some((
                    PackedRow::Register {
                        register,
                        word,
                        psw,
                    },
                    &[],
                ))
            }
            BesidePsw::Run(address, bytes) => {
                let psw = psw?;
                let count = u16::try_from(bytes.len()).ok()?;
                Some((
                    PackedRow::Bytes {
                        count,
                        address,
                        psw,
                    },
                    bytes,
                ))
            }
            BesidePsw::More => None,
        }
    }

    /// Whether all but its bytes stands within it.
    #[inline(always)]
    pub(crate) fn is_within(&self) -> bool
        ensures within { IsTrue result → HasNoMore self.now }
    {
        !matches!(self, PackedRow::More { .. })
    }

    /// Its places.
    #[inline(always)]
    pub(crate) fn spans(&self) -> SpansWithin
        requires { HasNoMore self.now }
        ensures { spans_within result ≡ spans_of_row self.now }
    {
        match self {
            PackedRow::Nothing => SpansWithin::Nothing,
            PackedRow::Psw(_) => SpansWithin::Psw,
            PackedRow::Register { register, .. } => SpansWithin::Register(register.number()),
            PackedRow::Bytes { count, address, .. } => SpansWithin::Bytes {
                address: *address,
                count: u32::from(*count),
            },
            PackedRow::More { .. } => unreachable!(),
        }
    }

    /// Exchanges what stands at its places with its values. The single cells and the runs are its own, and the bytes.
    #[inline(always)]
    pub(crate) fn exchange(&mut self, core: &mut Core, items: &mut [Item], bytes: &mut [u8])
        requires over { IsOver self.old items.old bytes.old }
        requires can { AreCellsOf core.old (cells_of_row self.old items.old bytes.old) }
        ensures core { core.new ≡ after_exchange core.old (cells_of_row self.old items.old bytes.old) }
        ensures cells { cells_of_row self.new items.new bytes.new ≡ cells_after_exchange core.old (cells_of_row self.old items.old bytes.old) }
        ensures over { IsOver self.new items.new bytes.new }
        ensures same { HasSameCounts self.old self.new }
        ensures fit { AllFit core.new.storage.fetch_protection (cells_of_row self.new items.new bytes.new) }
    {
        match self {
            PackedRow::Nothing => {}
            PackedRow::Psw(psw) => core.exchange_psw(psw),
            PackedRow::Register {
                register,
                word,
                psw,
            } => {
                core.exchange_psw(psw);
                core.exchange_register(*register, word);
            }
            PackedRow::Bytes { address, psw, .. } => {
                core.exchange_psw(psw);
                core.exchange_run(bytes, *address);
            }
            PackedRow::More { .. } => core.exchange_items(items, bytes),
        }
    }

    /// The number of single cells and runs that stand apart.
    pub(crate) fn items(&self) -> usize
        ensures { result ≡ items_of_row self.now }
    {
        match self {
            PackedRow::More { items, .. } => *items as usize,
            PackedRow::Nothing
            | PackedRow::Psw(_)
            | PackedRow::Register { .. }
            | PackedRow::Bytes { .. } => 0,
        }
    }

    /// The number of bytes that stand apart.
    pub(crate) fn bytes(&self) -> usize
        ensures { result ≡ bytes_of_row self.now }
    {
        match self {
            PackedRow::Bytes { count, .. } => usize::from(*count),
            PackedRow::More { bytes, .. } => *bytes as usize,
            PackedRow::Nothing | PackedRow::Psw(_) | PackedRow::Register { .. } => 0,
        }
    }

    /// The number of changes beside the core that stand apart: one or none.
    pub(crate) fn beside(&self) -> usize
        ensures { result ≡ beside_of_row self.now }
    {
        match self {
            PackedRow::More { beside, .. } => usize::from(*beside),
            PackedRow::Nothing
            | PackedRow::Psw(_)
            | PackedRow::Register { .. }
            | PackedRow::Bytes { .. } => 0,
        }
    }

    /// The number of its places.
    pub(crate) fn len(&self) -> u32
        ensures few { (is : List AnItem) (bs : List ℕ) → IsOver self.now is bs → result ≤ 1000001 }
        ensures len { (is : List AnItem) (bs : List ℕ) → IsOver self.now is bs → result ≡ length (cells_of_row self.now is bs) }
    {
        match self {
            PackedRow::Nothing => 0,
            PackedRow::Psw(_) => 1,
            PackedRow::Register { .. } => 2,
            PackedRow::Bytes { count, .. } => 1 + u32::from(*count),
            PackedRow::More { count, .. } => *count,
        }
    }

    /// The place at `i`, counted from 0. The single cells and the runs are its own, and the bytes.
    pub(crate) fn place(&self, items: &[Item], bytes: &[u8], i: u32) -> Place
        requires over { IsOver self.now items.now bytes.now }
        requires inside { i < length (cells_of_row self.now items.now bytes.now) }
        ensures { slice_get (places_of_cells (cells_of_row self.now items.now bytes.now)) i ≡ Some result }
    {
        match self {
            PackedRow::More { .. } => part_at(items, bytes, i).first(),
            PackedRow::Register { register, .. } if i == 1 => Place::Register(register.number()),
            PackedRow::Bytes { address, .. } if i > 0 => Place::Byte(*address + (i - 1)),
            PackedRow::Nothing
            | PackedRow::Psw(_)
            | PackedRow::Register { .. }
            | PackedRow::Bytes { .. } => Place::Psw,
        }
    }

    /// The number of maximal stretches of successive bytes among its places.
    pub(crate) fn stretches(&self, items: &[Item], bytes: &[u8]) -> u32
        requires { IsOver self.now items.now bytes.now }
        ensures { result ≡ stretches None (places_of_cells (cells_of_row self.now items.now bytes.now)) }
    {
        match self {
            PackedRow::Nothing | PackedRow::Psw(_) | PackedRow::Register { .. } => 0,
            PackedRow::Bytes { .. } => 1,
            PackedRow::More { .. } => stretches_of(items, bytes),
        }
    }
}

/// How many stretches a single cell or a run begins, where the last one would go on at an address.
fn begun_by(next: Option<u64>, item: Item) -> u32
    ensures begun { result ≡ begun_by next item }
    ensures few { result ≤ 1 }
{
    match (item, next) {
        (Item::Single(_), _) => 0,
        (Item::Run { address, .. }, Some(at)) if at == u64::from(address) => 0,
        (Item::Run { .. }, _) => 1,
    }
}

/// Where a stretch would go on behind a single cell or a run.
fn next_after(item: Item) -> Option<u64>
    ensures { result ≡ next_after item }
{
    match item {
        Item::Single(_) => None,
        Item::Run { address, count } => Some(u64::from(address) + u64::from(count)),
    }
}

/// The number of maximal stretches of successive bytes among the places of single cells and runs.
fn stretches_of(items: &[Item], bytes: &[u8]) -> u32
    requires { ArePartsOf items.now bytes.now }
    ensures { result ≡ stretches None (places_of_cells (cells_of_items items.now bytes.now)) }
{
    let mut next = None;
    let mut count = 0;
    for item in items {
        count += begun_by(next, *item);
        next = next_after(*item);
    }
    count
}
