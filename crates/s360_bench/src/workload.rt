//! The loops that a session is measured by, and what is patched into storage for each. A loop ends
//! with a branch back to its first instruction, or with a transfer in channel to its first command
//! word. Addresses are in hexadecimal.
use s360_machine::{ConfiguredUnit, Event};
use std::fmt::{self, Display, Formatter};

/// Where a loop stands.
pub(crate) const START: u32 = 0x200;

/// Bytes of an area of storage that is patched.
const AREA: usize = 256;

/// AR 1,2; A 1,600; ST 1,604; BCT 3,200.
const ADD_AND_STORE: [u8; 14] = [
    0x1A, 0x12, 0x5A, 0x10, 0x06, 0x00, 0x50, 0x10, 0x06, 0x04, 0x46, 0x30, 0x02, 0x00,
];

/// MVC 400(256),500; MVC 400(256),600; BCT 3,200.
const MOVE_TWICE: [u8; 16] = [
    0xD2, 0xFF, 0x04, 0x00, 0x05, 0x00, 0xD2, 0xFF, 0x04, 0x00, 0x06, 0x00, 0x46, 0x30, 0x02, 0x00,
];

/// XC 400(256),500; BCT 3,200.
const EXCLUSIVE_OR: [u8; 10] = [0xD7, 0xFF, 0x04, 0x00, 0x05, 0x00, 0x46, 0x30, 0x02, 0x00];

/// TR 400(256),500; BCT 3,200.
const TRANSLATE: [u8; 10] = [0xDC, 0xFF, 0x04, 0x00, 0x05, 0x00, 0x46, 0x30, 0x02, 0x00];

/// PACK 400(16),500(16); PACK 400(16),600(16); BCT 3,200.
const PACK_TWICE: [u8; 16] = [
    0xF2, 0xFF, 0x04, 0x00, 0x05, 0x00, 0xF2, 0xFF, 0x04, 0x00, 0x06, 0x00, 0x46, 0x30, 0x02, 0x00,
];

/// CLC 400(256),500; BCT 3,200.
const COMPARE: [u8; 10] = [0xD5, 0xFF, 0x04, 0x00, 0x05, 0x00, 0x46, 0x30, 0x02, 0x00];

/// SVC 5; BCT 3,200. The new PSW goes on at 300, where LPSW 20 loads the old one again.
const CALL: [u8; 6] = [0x0A, 0x05, 0x46, 0x30, 0x02, 0x00];

const CALL_NEW_PSW: [u8; 8] = [0x00, 0x00, 0x00, 0x00, 0x00, 0x00, 0x03, 0x00];

const CALL_RETURN: [u8; 4] = [0x82, 0x00, 0x00, 0x20];

/// SIO C. The word at 48 is the address of the reader's channel program.
const START_READER: [u8; 4] = [0x9C, 0x00, 0x00, 0x0C];

const CHANNEL_ADDRESS: [u8; 4] = [0x00, 0x00, 0x04, 0x00];

/// Read 80 bytes to 500, chained to the next command; transfer in channel to 400.
const READ_CARDS: [u8; 16] = [
    0x02, 0x00, 0x05, 0x00, 0x40, 0x00, 0x00, 0x50, 0x08, 0x00, 0x04, 0x00, 0x00, 0x00, 0x00, 0x00,
];

/// SIO 180. The word at 48 is the address of the tape's channel program.
const START_TAPE: [u8; 4] = [0x9C, 0x00, 0x01, 0x80];

/// Read two blocks of 65,535 bytes to 10000 and rewind, each chained to the next command; transfer in channel to 400.
const READ_BLOCKS: [u8; 32] = [
    0x02, 0x01, 0x00, 0x00, 0x40, 0x00, 0xFF, 0xFF, 0x02, 0x01, 0x00, 0x00, 0x40, 0x00, 0xFF, 0xFF,
    0x07, 0x00, 0x00, 0x00, 0x40, 0x00, 0x00, 0x01, 0x08, 0x00, 0x04, 0x00, 0x00, 0x00, 0x00, 0x00,
];

/// What each of those blocks is filled with.
static BLOCK_FILLINGS: [u8; 2] = [0x01, 0x02];

/// What the bytes of an area are.
#[derive(Clone, Copy, Debug)]
pub(crate) enum Filling {
    /// All are this one.
    Same(u8),
    /// The first is this one, and each other is one more than the one before it, modulo 256.
    Rising(u8),
}

impl Filling {
    /// The bytes of an area.
    pub(crate) fn bytes(self) -> [u8; AREA] {
        let (first, step) = match self {
            Filling::Same(byte) => (byte, 0),
            Filling::Rising(first) => (first, 1),
        };
        let mut bytes = [0; AREA];
        let mut value: u8 = first;
        for byte in &mut bytes {
            *byte = value;
            value = value.wrapping_add(step);
        }
        bytes
    }
}

/// What the events of a pass move or compare: the first of them so many bytes each, and the one that follows them none.
/// These are instructions with operands in storage and a branch, or command words that read blocks and one that rewinds
/// the tape.
#[derive(Clone, Copy, Debug)]
struct Moving {
    events: u8,
    bytes: u16,
}

impl Moving {
    /// The bytes that so many events move from the start of a pass on.
    fn bytes_within(self, events: u32) -> u64 {
        let others = events / (u32::from(self.events) + 1);
        u64::from(events - others) * u64::from(self.bytes)
    }
}

/// What each event of a loop is.
#[derive(Clone, Copy, Debug, PartialEq, Eq)]
enum Turn {
    /// The CPU executes an instruction.
    Instruction,
    /// The card reader's channel executes a command word, which reads a card.
    Card,
    /// The first tape's channel executes a command word, which reads a block or rewinds the tape.
    Block,
}

/// What a loop is: its name, what its events are, its instructions, the areas and the runs of bytes
/// that are patched, each with its address, and what its events move, where it is counted.
#[derive(Clone, Copy, Debug)]
struct LoopRow {
    name: &'static str,
    turn: Turn,
    program: &'static [u8],
    areas: &'static [(u32, Filling)],
    runs: &'static [(u32, &'static [u8])],
    moving: Option<Moving>,
}

static FIXED_ROW: LoopRow = LoopRow {
    name: "fixed",
    turn: Turn::Instruction,
    program: &ADD_AND_STORE,
    areas: &[],
    runs: &[],
    moving: None,
};

static MOVE_ROW: LoopRow = LoopRow {
    name: "mvc",
    turn: Turn::Instruction,
    program: &MOVE_TWICE,
    areas: &[
        (0x500, Filling::Rising(0x00)),
        (0x600, Filling::Rising(0x01)),
    ],
    runs: &[],
    moving: Some(Moving {
        events: 2,
        bytes: 256,
    }),
};

static EXCLUSIVE_OR_ROW: LoopRow = LoopRow {
    name: "xc",
    turn: Turn::Instruction,
    program: &EXCLUSIVE_OR,
    areas: &[(0x500, Filling::Same(0xFF))],
    runs: &[],
    moving: Some(Moving {
        events: 1,
        bytes: 256,
    }),
};

static TRANSLATE_ROW: LoopRow = LoopRow {
    name: "tr",
    turn: Turn::Instruction,
    program: &TRANSLATE,
    areas: &[(0x500, Filling::Rising(0x01))],
    runs: &[],
    moving: Some(Moving {
        events: 1,
        bytes: 256,
    }),
};

static PACK_ROW: LoopRow = LoopRow {
    name: "pack",
    turn: Turn::Instruction,
    program: &PACK_TWICE,
    areas: &[(0x500, Filling::Same(0xF1)), (0x600, Filling::Same(0xF2))],
    runs: &[],
    moving: Some(Moving {
        events: 2,
        bytes: 16,
    }),
};

static COMPARE_LOGICAL_ROW: LoopRow = LoopRow {
    name: "clc",
    turn: Turn::Instruction,
    program: &COMPARE,
    areas: &[
        (0x400, Filling::Rising(0x00)),
        (0x500, Filling::Rising(0x00)),
    ],
    runs: &[],
    moving: Some(Moving {
        events: 1,
        bytes: 256,
    }),
};

static SUPERVISOR_CALL_ROW: LoopRow = LoopRow {
    name: "svc",
    turn: Turn::Instruction,
    program: &CALL,
    areas: &[],
    runs: &[(0x60, &CALL_NEW_PSW), (0x300, &CALL_RETURN)],
    moving: None,
};

static CARDS_ROW: LoopRow = LoopRow {
    name: "cards",
    turn: Turn::Card,
    program: &START_READER,
    areas: &[],
    runs: &[(0x48, &CHANNEL_ADDRESS), (0x400, &READ_CARDS)],
    moving: None,
};

static BLOCKS_ROW: LoopRow = LoopRow {
    name: "blocks",
    turn: Turn::Block,
    program: &START_TAPE,
    areas: &[],
    runs: &[(0x48, &CHANNEL_ADDRESS), (0x400, &READ_BLOCKS)],
    moving: Some(Moving {
        events: 2,
        bytes: 65_535,
    }),
};

/// A loop.
#[derive(Clone, Copy, Debug, PartialEq, Eq)]
pub(crate) enum Workload {
    /// Fixed-point instructions, which work on words.
    Fixed,
    /// Moves from two areas in turn, which differ in each byte.
    Move,
    /// Exclusive ors that turn each bit.
    ExclusiveOr,
    /// Translations of each byte to the number after it, and of FF to 0.
    Translate,
    /// Packings from two areas in turn, which differ in each digit. Half of each result is zeros.
    Pack,
    /// Comparisons of areas that are equal.
    CompareLogical,
    /// Supervisor calls, each with its interruption, and the return by a PSW that is loaded.
    SupervisorCall,
    /// Cards, read by a channel program that one START I/O begins.
    Cards,
    /// Two tape blocks that differ in each byte, read in turns to the same place by such a program.
    Blocks,
}

/// Each loop.
const WORKLOADS: [Workload; 9] = [
    Workload::Fixed,
    Workload::Move,
    Workload::ExclusiveOr,
    Workload::Translate,
    Workload::Pack,
    Workload::CompareLogical,
    Workload::SupervisorCall,
    Workload::Cards,
    Workload::Blocks,
];

impl Workload {
    /// The loop of this name.
    pub(crate) fn named(name: &str) -> Option<Workload> {
        WORKLOADS
            .into_iter()
            .find(|workload| workload.row().name == name)
    }

    /// Its instructions.
    pub(crate) fn program(self) -> &'static [u8] {
        self.row().program
    }

    /// An event of it.
    pub(crate) fn event(self) -> Event {
        match self.row().turn {
            Turn::Instruction => Event::Cpu,
            Turn::Card => Event::Channel(ConfiguredUnit::Reader.unit()),
            Turn::Block => Event::Channel(ConfiguredUnit::Tape0.unit()),
        }
    }

    /// Whether its events are those of a channel, which its instructions start.
    pub(crate) fn is_started(self) -> bool {
        self.row().turn != Turn::Instruction
    }

    /// The number of cards that so many of its events read.
    pub(crate) fn cards(self, events: u32) -> u32 {
        match self.row().turn {
            Turn::Instruction | Turn::Block => 0,
            Turn::Card => events,
        }
    }

    /// The blocks of the tape that its events read, by the byte that each is filled with.
    pub(crate) fn blocks(self) -> &'static [u8] {
        match self.row().turn {
            Turn::Instruction | Turn::Card => &[],
            Turn::Block => &BLOCK_FILLINGS,
        }
    }

    /// The areas that are patched, with their addresses.
    pub(crate) fn areas(self) -> &'static [(u32, Filling)] {
        self.row().areas
    }

    /// The runs of bytes that are patched, with their addresses.
    pub(crate) fn runs(self) -> &'static [(u32, &'static [u8])] {
        self.row().runs
    }

    /// The bytes that so many of its events move or compare, where they are counted.
    pub(crate) fn moved_bytes(self, events: u32) -> Option<u64> {
        Some(self.row().moving?.bytes_within(events))
    }

    fn row(self) -> &'static LoopRow {
        match self {
            Workload::Fixed => &FIXED_ROW,
            Workload::Move => &MOVE_ROW,
            Workload::ExclusiveOr => &EXCLUSIVE_OR_ROW,
            Workload::Translate => &TRANSLATE_ROW,
            Workload::Pack => &PACK_ROW,
            Workload::CompareLogical => &COMPARE_LOGICAL_ROW,
            Workload::SupervisorCall => &SUPERVISOR_CALL_ROW,
            Workload::Cards => &CARDS_ROW,
            Workload::Blocks => &BLOCKS_ROW,
        }
    }
}

impl Display for Workload {
    fn fmt<W: fmt::Write>(&self, f: &mut Formatter<W>) -> fmt::Result {
        f.write_str(self.row().name)
    }
}
