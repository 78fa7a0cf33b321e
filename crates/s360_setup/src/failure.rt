//! Why a program did not do all that it was asked for.
ghost use Rattle.std.specs.Prelude.{◌≡◌};
ghost use Rattle.s360_setup.specs.Ending.{stream_name, fault_name, offset_digits, ending_status};
ghost use Rattle.s360_setup.specs.Failures.{failure_of_storage, failure_of_deck, failure_of_tape, failure_of_read, failure_of_script};
ghost use Rattle.s360_setup.specs.declared.failure.Failure.TheVariants.{Memory};

use itoa::Buffer;
use s360_device::DeckFault;
use s360_store::StoreFault;
use s360_tape::TapeFault;
use s360_text::{ReadFault, ScriptFault};
use std::alloc::AllocError;

/// What a fault is of.
#[derive(Clone, Copy, PartialEq, Eq)]
pub enum Stream {
    /// The file of the card reader's deck.
    Reader,
    /// The file of the tape of unit 180.
    Tape0,
    /// The file of the tape of unit 181.
    Tape1,
    /// The script and its answers.
    Script,
    /// What gdb sends, and its answers.
    Connection,
}

/// What went wrong with a stream. Offsets are bytes from the start of the file; those of a tape's file
/// are of the header at which the fault was found.
#[derive(Clone, Copy)]
pub enum Fault {
    /// The file did not open, or reading it failed.
    CannotRead,
    /// The file has more than 67,108,864 bytes.
    FileTooLong,
    /// The card that starts here has less than 80 bytes.
    ShortCard(usize),
    /// Less than six bytes are left for a header.
    ShortHeader(usize),
    /// There are no such flags, or a mark has bytes.
    BadFlags(usize),
    /// A part of a block, a whole block or a mark does not follow what is before it, or the file ends
    /// inside a block.
    PartOutOfPlace(usize),
    /// Fewer bytes are left than the part has.
    ShortBlock(usize),
    /// The block has more than 65,535 bytes with this part.
    BlockTooLong(usize),
    /// A read failed of the script, after it was opened, or of what gdb sends.
    ReadFailed,
    /// The script has more than 1,048,576 bytes.
    ScriptTooLong,
    /// A write of answers failed, or took no byte.
    WriteFailed,
}

/// Why a program did not do all that it was asked for, in the order in which it is found. Want of
/// memory can come at any time.
#[derive(Clone, Copy)]
pub enum Failure {
    /// A word of the command line is not UTF-8.
    Word,
    /// A stream has a fault.
    Stream(Stream, Fault),
    /// No storage has the size that was asked for.
    StorageSize,
    /// A growth was refused.
    Memory,
}

impl Stream {
    /// The name by which an ending tells of it.
    pub fn name(self) -> &'static str
        ensures { result.now ≡ stream_name self }
    {
        match self {
            Stream::Reader => "reader",
            Stream::Tape0 => "tape0",
            Stream::Tape1 => "tape1",
            Stream::Script => "script",
            Stream::Connection => "gdb",
        }
    }

    /// What a fault of reading a file is where the file is of this stream.
    pub fn failure(self, fault: ReadFault) -> Failure
        ensures { result ≡ failure_of_read self fault }
    {
        match fault {
            ReadFault::Failed => Failure::Stream(self, Fault::CannotRead),
            ReadFault::TooLong => Failure::Stream(self, Fault::FileTooLong),
            ReadFault::Memory => Failure::Memory,
        }
    }

    /// What a fault of a tape's file is where the file is of this stream.
    pub fn tape_failure(self, fault: TapeFault) -> Failure
        ensures { result ≡ failure_of_tape self fault }
    {
        match fault {
            TapeFault::ShortHeader(at) => Failure::Stream(self, Fault::ShortHeader(at)),
            TapeFault::BadFlags(at) => Failure::Stream(self, Fault::BadFlags(at)),
            TapeFault::PartOutOfPlace(at) => Failure::Stream(self, Fault::PartOutOfPlace(at)),
            TapeFault::ShortBlock(at) => Failure::Stream(self, Fault::ShortBlock(at)),
            TapeFault::BlockTooLong(at) => Failure::Stream(self, Fault::BlockTooLong(at)),
            TapeFault::Memory => Failure::Memory,
        }
    }
}

impl Fault {
    /// The words by which an ending tells of it.
    pub fn name(self) -> &'static str
        ensures { result.now ≡ fault_name self }
    {
        match self {
            Fault::CannotRead => "cannot read",
            Fault::FileTooLong => "file too long",
            Fault::ShortCard(_) => "short card at ",
            Fault::ShortHeader(_) => "short header at ",
            Fault::BadFlags(_) => "bad flags at ",
            Fault::PartOutOfPlace(_) => "part out of place at ",
            Fault::ShortBlock(_) => "short block at ",
            Fault::BlockTooLong(_) => "block too long at ",
            Fault::ReadFailed => "read failed",
            Fault::ScriptTooLong => "script too long",
            Fault::WriteFailed => "write failed",
        }
    }

    /// The offset that follows those words, in decimal digits, or nothing. It takes no memory.
    pub fn offset(self, digits: &mut Buffer) -> &str
        ensures { result.now ≡ offset_digits self }
    {
        match self {
            Fault::ShortCard(at)
            | Fault::ShortHeader(at)
            | Fault::BadFlags(at)
            | Fault::PartOutOfPlace(at)
            | Fault::ShortBlock(at)
            | Fault::BlockTooLong(at) => digits.format(at),
            _ => "",
        }
    }
}

impl Failure {
    /// The status with which the program ends: 2 for the command line and the storage size, else 1.
    pub fn status(self) -> u8
        ensures { result ≡ ending_status self }
    {
        match self {
            Failure::Word | Failure::StorageSize => 2,
            Failure::Stream(..) | Failure::Memory => 1,
        }
    }
}

impl From<AllocError> for Failure {
    ghost from_gives = { λ _ failure. failure ≡ Memory };

    fn from(_e: AllocError) -> Failure {
        Failure::Memory
    }
}

impl From<StoreFault> for Failure {
    ghost from_gives = { λ fault failure. failure ≡ failure_of_storage fault };

    fn from(fault: StoreFault) -> Failure {
        match fault {
            StoreFault::Size => Failure::StorageSize,
            StoreFault::Memory => Failure::Memory,
        }
    }
}

impl From<DeckFault> for Failure {
    ghost from_gives = { λ fault failure. failure ≡ failure_of_deck fault };

    fn from(fault: DeckFault) -> Failure {
        match fault {
            DeckFault::ShortCard(at) => Failure::Stream(Stream::Reader, Fault::ShortCard(at)),
            DeckFault::Memory => Failure::Memory,
        }
    }
}

impl From<ScriptFault> for Failure {
    ghost from_gives = { λ fault failure. failure ≡ failure_of_script fault };

    fn from(fault: ScriptFault) -> Failure {
        match fault {
            ScriptFault::Read => Failure::Stream(Stream::Script, Fault::ReadFailed),
            ScriptFault::TooLong => Failure::Stream(Stream::Script, Fault::ScriptTooLong),
            ScriptFault::Write => Failure::Stream(Stream::Script, Fault::WriteFailed),
            ScriptFault::Memory => Failure::Memory,
        }
    }
}
