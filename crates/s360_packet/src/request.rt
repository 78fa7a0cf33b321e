//! The requests of gdb. Source: gdb manual, "Remote Serial Protocol", "Packets" and "General Query Packets".
ghost use Rattle.std.specs.Prelude.{◌≡◌};
ghost use Rattle.s360_packet.specs.declared.request.RequestFault.TheVariants.{Memory};

use std::alloc::AllocError;
use std::marker::Model;
use thiserror::Error;

/// Bytes that a request carries, which a contract sees as their list.
#[derive(Drop)]
pub struct Payload {
    bytes: Vec<u8>,
}

impl Model for Payload {
    ghost use Rattle.std.specs.Prelude.{List, ℕ};

    ghost Value = { List ℕ };

    ghost view = { λ p. p.bytes.items };
}

impl Payload {
    /// The bytes of a vector. It takes no memory.
    pub fn new(bytes: Vec<u8>) -> Payload
        ensures { result ≡ bytes.items }
    {
        Payload { bytes }
    }

    /// The bytes.
    pub fn as_slice(&self) -> &[u8]
        ensures { result.now ≡ self.now }
    {
        self.bytes.as_slice()
    }

    /// The bytes as a vector. It takes no memory.
    pub fn into_vec(self) -> Vec<u8>
        ensures { result.items ≡ self }
    {
        self.bytes
    }
}

/// How the instruction at an address stops the machine.
#[derive(Clone, Copy, PartialEq, Eq)]
pub enum Breakpoint {
    /// `0`: by a software breakpoint.
    Software,
    /// `1`: by a hardware breakpoint.
    Hardware,
}

/// What a watch of bytes waits for.
#[derive(Clone, Copy, Default, PartialEq, Eq)]
pub enum Watchpoint {
    /// `2`: that one is altered.
    #[default]
    Write,
    /// `3`: that one is read.
    Read,
    /// `4`: that one is read or stored.
    Access,
}

/// What stops the machine.
#[derive(Clone, Copy, PartialEq, Eq)]
pub enum Point {
    /// The instruction at an address.
    Break(Breakpoint),
    /// Bytes from an address on.
    Watch(Watchpoint),
}

/// Which threads a request is about.
#[derive(Clone, Copy)]
pub enum Thread {
    /// `-1`: all of them.
    Every,
    /// `0`: any one.
    Any,
    /// The one of this number, which is not 0.
    Numbered(u32),
}

/// A request. Addresses and counts are of bytes, and no number is above 32 bits.
#[derive(Drop)]
pub enum Request {
    /// `?`: why the machine stopped.
    Stopped,
    /// `g`: all registers.
    Registers,
    /// `G`: all registers are given these bytes.
    WriteRegisters(Payload),
    /// `p`: the register of this number in the target's description.
    Register(u32),
    /// `P`: the register of this number is given a word.
    WriteRegister {
        number: u32,
        word: u32,
    },
    /// `m`: so many bytes of storage from an address on.
    Storage {
        at: u32,
        count: u32,
    },
    /// `M` and `X`: storage from an address on is given these bytes. By none, gdb asks whether `X` is known.
    WriteStorage {
        at: u32,
        bytes: Payload,
    },
    /// `s`: a step forward.
    Step,
    /// `c`: forward to the next stop.
    Continue,
    /// `bs`: a step back.
    StepBack,
    /// `bc`: back to the last stop.
    ContinueBack,
    /// `Z`: a stop is set, of so many bytes from an address on.
    Insert {
        point: Point,
        at: u32,
        kind: u32,
    },
    /// `Z`: a breakpoint is set with conditions, the bytes behind the first `;` as they stand.
    InsertIf {
        point: Breakpoint,
        at: u32,
        kind: u32,
        conditions: Payload,
    },
    /// `z`: a stop is taken out.
    Remove {
        point: Point,
        at: u32,
        kind: u32,
    },
    /// `qSupported`: what the target can do.
    Supported,
    /// `qXfer:features:read:target.xml`: so many bytes of the target's description from an offset on.
    Description {
        offset: u32,
        count: u32,
    },
    /// `qXfer:memory-map:read`: so many bytes of the memory map from an offset on.
    MemoryMap {
        offset: u32,
        count: u32,
    },
    /// `qs360.moved`, a query of our own: whether the last line of gdb's user moved the machine.
    HasMoved,
    /// `H`: the thread that later requests are about.
    Select(Thread),
    /// `T`: whether a thread is there.
    IsAlive(Thread),
    /// `qC`: the current thread.
    CurrentThread,
    /// `qAttached`: whether gdb was attached to what runs already.
    Attached,
    /// `qfThreadInfo`: the first of the threads' numbers.
    FirstThreads,
    /// `qsThreadInfo`: further ones.
    NextThreads,
    /// `QStartNoAckMode`: packets are not acknowledged any longer.
    StopAcknowledging,
    /// `qRcmd`: a line of gdb's user for the target.
    Command(Payload),
    /// `!`: gdb is to start the machine anew instead of leaving.
    Extend,
    /// `R`: the machine is started anew, and nothing is answered.
    Restart,
    /// `vRun`: the machine is started anew.
    Run,
    /// `D`: gdb leaves.
    Detach,
    /// `k`: the machine is ended, and nothing is answered.
    Kill,
    /// `vKill`: the process of this number is ended.
    KillProcess(u32),
}

/// Why data is no request.
#[derive(Clone, Copy, Debug, PartialEq, Eq, Error)]
pub enum RequestFault {
    /// It is none of those that are known.
    #[error("unknown")]
    Unknown,
    /// A field of it is wrong, missing or too many.
    #[error("malformed")]
    Malformed,
    /// A growth was refused.
    #[error("out of memory")]
    Memory,
}

impl From<AllocError> for RequestFault {
    ghost from_gives = { λ _ fault. fault ≡ Memory };

    fn from(_e: AllocError) -> RequestFault {
        RequestFault::Memory
    }
}
