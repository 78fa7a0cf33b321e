//! The lines that are refused growths: what they are to answer, and what stands before them.
use crate::fault::Fault;
use s360_tape::{Tape, blank_tape, tape_from};
use std::alloc::Global;

/// The header of a whole block of the greatest length, and how many bytes follow it.
const HEADER: [u8; 6] = [0xFF, 0xFF, 0x00, 0x00, 0xA0, 0x00];

const LONGEST: usize = 65_535;

/// A file of five blocks of a byte.
const FIVE_BLOCKS: [u8; 35] = [
    1, 0, 0, 0, 0xA0, 0, 0xC1, 1, 0, 1, 0, 0xA0, 0, 0xC2, 1, 0, 1, 0, 0xA0, 0, 0xC3, 1, 0, 1, 0,
    0xA0, 0, 0xC4, 1, 0, 1, 0, 0xA0, 0, 0xC5,
];

/// A card that is no blank.
const CARD: [u8; 80] = [0xC1; 80];

/// What lies in the card reader, or on the tape of 180.
pub(crate) enum Media {
    Nothing,
    Card,
    FiveBlocks,
    LongestBlock,
}

impl Media {
    /// The file of the reader's cards.
    pub(crate) fn deck(&self) -> &'static [u8] {
        match self {
            Media::Card => &CARD,
            _ => &[],
        }
    }

    /// The tape of 180.
    pub(crate) fn tape(&self, alloc: Global) -> Result<Tape, Fault> {
        match self {
            Media::FiveBlocks => Ok(tape_from(alloc, &FIVE_BLOCKS, false)?),
            Media::LongestBlock => {
                let mut file = Vec::from_slice(alloc, &HEADER)?;
                file.resize(HEADER.len() + LONGEST, 0xC1)?;
                Ok(tape_from(alloc, &file, false)?)
            }
            _ => Ok(blank_tape(alloc)),
        }
    }
}

/// A line, and what it is to answer.
pub(crate) struct Step {
    pub(crate) line: &'static str,
    pub(crate) answer: &'static str,
}

impl Step {
    /// The line of the event that it offers, once or again and again.
    pub(crate) fn event(&self) -> &'static str {
        if self.line.starts_with("run") {
            "step"
        } else {
            self.line
        }
    }
}

/// Lines one after another, each of which is to be refused growths. All but the last offer an event.
pub(crate) struct Case {
    pub(crate) media: Media,
    /// The lines of the events that stand before them.
    pub(crate) start: &'static str,
    pub(crate) steps: &'static [Step],
}

/// Lines of each kind. Each event of the run of four moves 32 bytes, for which it wants memory.
pub(crate) static LINES: [Case; 13] = [
    Case {
        media: Media::Nothing,
        start: "",
        steps: &[Step {
            line: "tick",
            answer: "1 changed 4 s000050 s000051 s000052 ext\n",
        }],
    },
    Case {
        media: Media::Nothing,
        start: "patch r 1 5",
        steps: &[Step {
            line: "patch r 1 5",
            answer: "2 idle\n",
        }],
    },
    Case {
        media: Media::Nothing,
        start: "",
        steps: &[Step {
            line: "patch s 300 0102030405060708090A",
            answer: "1 changed 10 s000300 s000301 s000302 s000303 s000304 s000305 s000306 s000307 ..\n",
        }],
    },
    Case {
        media: Media::Nothing,
        start: "",
        steps: &[Step {
            line: "enter AB",
            answer: "1 changed 1 d01F\n",
        }],
    },
    Case {
        media: Media::Nothing,
        start: "",
        steps: &[Step {
            line: "load 180",
            answer: "1 changed 2 run u180\n",
        }],
    },
    Case {
        media: Media::Nothing,
        start: "patch s 400 A1A2A3A4A5A6A7A8A9AAABACADAEAFB0B1B2B3B4B5B6B7B8B9BABBBCBDBEBFC0
patch s 0 D21F06000400D21F07000400D21F08000400D21F09000400",
        steps: &[Step {
            line: "run 4",
            answer: "run 4 done\n",
        }],
    },
    Case {
        media: Media::Nothing,
        start: "patch p 0002000000000000",
        steps: &[Step {
            line: "run 9",
            answer: "run 1 idle\n",
        }],
    },
    Case {
        media: Media::Nothing,
        start: "tick",
        steps: &[Step {
            line: "back",
            answer: "back 1 tick\n",
        }],
    },
    Case {
        media: Media::Nothing,
        start: "tick
patch r 1 5",
        steps: &[Step {
            line: "until",
            answer: "until 0\n",
        }],
    },
    Case {
        media: Media::Nothing,
        start: "tick
patch r 1 5
patch s 300 0102030405060708090A",
        steps: &[Step {
            line: "withdraw 1",
            answer: "withdrawn 1\n",
        }],
    },
    Case {
        media: Media::Nothing,
        start: "",
        steps: &[Step {
            line: "break 200",
            answer: "breaks 1\n",
        }],
    },
    Case {
        media: Media::Nothing,
        start: "tick",
        steps: &[Step {
            line: "last s 50",
            answer: "last 1\n",
        }],
    },
    Case {
        media: Media::Nothing,
        start: "tick",
        steps: &[Step {
            line: "show s 50 4",
            answer: "000050 FFFFFF00\n",
        }],
    },
];

/// A move that spreads a byte, and the same again, which alters the PSW alone.
pub(crate) static MOVES: Case = Case {
    media: Media::Nothing,
    start: "patch r 1 00001000
patch s 1000 C10000000000
patch s 200 D20410011000
patch p 0000000000000200",
    steps: &[
        Step {
            line: "step",
            answer: "5 changed 6 p s001001 s001002 s001003 s001004 s001005\n",
        },
        Step {
            line: "patch p 0000000000000200",
            answer: "6 changed 1 p\n",
        },
        Step {
            line: "step",
            answer: "7 changed 1 p\n",
        },
    ],
};

/// A block that is written after the second of five, of which the later ones are discarded, and withdrawn from before
/// another event.
pub(crate) static WRITTEN_BLOCKS: Case = Case {
    media: Media::FiveBlocks,
    start: "patch p 0000000000000200
patch s 48 00000400
patch s 200 9C0001809D0001809C000180
patch s 400 3700000040000001
patch s 408 3700000000000001
step
channel 180
channel 180
step
patch s 600 E9
patch s 400 0100060000000001
step",
    steps: &[
        Step {
            line: "channel 180",
            answer: "13 changed 2 u180 d180\n",
        },
        Step {
            line: "tick",
            answer: "14 changed 4 s000050 s000051 s000052 ext\n",
        },
        Step {
            line: "withdraw 13",
            answer: "withdrawn 13\n",
        },
    ],
};

/// A block that is written behind the last one of a tape, which has none.
pub(crate) static APPENDED_BLOCKS: Case = Case {
    media: Media::Nothing,
    start: "patch p 0000000000000200
patch s 48 00000400
patch s 200 9C000180
patch s 600 E9
patch s 400 0100060000000001
step",
    steps: &[Step {
        line: "channel 180",
        answer: "7 changed 2 u180 d180\n",
    }],
};

/// A block of the greatest length that is read: each byte, the state of the unit and its media are altered.
pub(crate) static READ_BLOCKS: Case = Case {
    media: Media::LongestBlock,
    start: "patch p 0000000000000200
patch s 48 00000400
patch s 200 9C000180
patch s 400 020006000000FFFF
step",
    steps: &[Step {
        line: "channel 180",
        answer: "6 changed 65537 s000600 s000601 s000602 s000603 s000604 s000605 s000606 s000607 ..\n",
    }],
};

/// A card that is read into two places by chained data: 20 bytes, and then 60 and the card's feed.
pub(crate) static CHAINED_DATA: Case = Case {
    media: Media::Card,
    start: "patch p 0000000000000200
patch s 48 00000400
patch s 200 9C00000C
patch s 400 0200060080000014000007000000003C
step",
    steps: &[
        Step {
            line: "channel C",
            answer: "6 changed 21 s000600 s000601 s000602 s000603 s000604 s000605 s000606 s000607 ..\n",
        },
        Step {
            line: "channel C",
            answer: "7 changed 62 s000700 s000701 s000702 s000703 s000704 s000705 s000706 s000707 ..\n",
        },
    ],
};

/// A read of the console: it waits for a line, which is entered, and then it is read.
pub(crate) static ENTERED_LINES: Case = Case {
    media: Media::Nothing,
    start: "patch p 0000000000000200
patch s 48 00000400
patch s 200 9C00001F
patch s 400 0A00060020000050
step",
    steps: &[
        Step {
            line: "channel 1F",
            answer: "6 idle\n",
        },
        Step {
            line: "enter ABC",
            answer: "7 changed 1 d01F\n",
        },
        Step {
            line: "channel 1F",
            answer: "8 changed 5 s000600 s000601 s000602 u01F d01F\n",
        },
    ],
};

/// Bytes that had one history, and are then told apart: within a run, over three runs and bytes that nothing has altered,
/// and at every second byte.
pub(crate) static PARTED_BYTES: Case = Case {
    media: Media::Nothing,
    start: "patch s 400 0101010101010101",
    steps: &[
        Step {
            line: "patch s 402 0202",
            answer: "2 changed 2 s000402 s000403\n",
        },
        Step {
            line: "patch s 3FE 0303030303030303",
            answer: "3 changed 8 s0003FE s0003FF s000400 s000401 s000402 s000403 s000404 s000405\n",
        },
        Step {
            line: "patch s 400 0403040304030401",
            answer: "4 changed 4 s000400 s000402 s000404 s000406\n",
        },
    ],
};
