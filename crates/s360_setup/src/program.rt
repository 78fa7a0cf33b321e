//! The programs over the machine: their names, and what the help of each says.
ghost use Rattle.std.specs.Prelude.{◌≡◌};
ghost use Rattle.s360_setup.specs.Programs.{program_name};

/// A program over the machine. All have one command line.
#[derive(Clone, Copy, PartialEq, Eq)]
pub enum Program {
    /// Carries a script out.
    Debugger,
    /// Serves gdb.
    Server,
}

const DEBUGGER_ABOUT: &str =
    "Debugs programs of a simulated IBM System/360, forward and backward.\n\n\
    A script has a command a line. It is read whole, then carried out, and the answers are\n\
    written to standard output.";

const SERVER_ABOUT: &str =
    "Lets gdb debug programs of a simulated IBM System/360, forward and backward.\n\n\
    gdb's remote protocol is served on standard input and output. A script that is named is\n\
    carried out first, and its answers are written to standard error.";

const DEBUGGER_SCRIPT: &str = "Script of at most 1048576 bytes [default: standard input]";

const SERVER_SCRIPT: &str = "Script of at most 1048576 bytes, carried out first [default: none]";

/// Its lines are worded as those of `monitor help` are.
const DEBUGGER_NOTES: &str = "\
Lines of a script, in which N is decimal and each other number is hexadecimal:
  step: a CPU event
  channel U: a channel event of a unit
  tick: a tick of the timer
  key K: the operator presses start, stop, reset, interrupt, eof or request
  enter TEXT: the operator enters a line at the console
  load U: the operator presses the load key
  patch s A BYTES: puts bytes into storage
  patch r R W: puts a word into a register
  patch k A K: gives the block of A a storage key
  patch f A D: gives the block of A a fetch bit, 0 or 1
  patch p Q: puts a doubleword into the PSW
  run N: runs at most N events
  back: takes back the last change
  until: takes changes back to a breakpoint of `break`
  withdraw N: withdraws the change of this number
  break A: sets a breakpoint of `run` and `until`
  clear A: takes one away
  standing: counts the changes that stand
  last s A, last r R, last k A, last p, last run, last ext, last u U, last d U: the last change of a place
  show regs: the general registers
  show psw: the PSW and the run state
  show s A N: bytes of storage
  show k A: a storage key
  show ext: the pending external conditions
  show u U: what the channel does for a unit
  show d U: the sense bytes and the media of a unit
  show m U N: an item of a unit's media
  show image U: the file of a tape

Example:
  s360dbg --reader cards.deck --tape0 master.tape --protect0 session.s360

In the repository, examples/ has scripts with their answers, docs/guide.md goes from a wrong value
to its cause, and docs/reference/debugger.md has each line in full.

Status: 0 where the script was carried out to its end, 1 for a fault of a file, a stream or
memory, and 2 for a fault of the command line or of the storage size.";

const SERVER_NOTES: &str = "\
Lines: in gdb, `monitor LINE` carries a line of a script out, and `monitor help` lists all lines.

Example:
  gdb-multiarch -x s360.py -ex 'file s360.elf' -ex 'target remote | s360gdb session.s360'

In the repository, examples/ has scripts, decks and tapes, docs/guide.md goes from a wrong value to
its cause, and docs/reference/gdb.md tells what gdb sees and does.

Status: 0 where gdb has left or its input has ended, 1 for a fault of a file, a stream or
memory, and 2 for a fault of the command line or of the storage size.";

impl Program {
    /// Its name, with which each line begins that it tells of itself.
    pub fn name(self) -> &'static str
        ensures { result.now ≡ program_name self }
    {
        match self {
            Program::Debugger => "s360dbg",
            Program::Server => "s360gdb",
        }
    }

    /// What it does, in the words of its help.
    pub(crate) fn purpose<'a>(self) -> &'a str {
        match self {
            Program::Debugger => DEBUGGER_ABOUT,
            Program::Server => SERVER_ABOUT,
        }
    }

    /// What its operand is, in the words of its help.
    pub(crate) fn script<'a>(self) -> &'a str {
        match self {
            Program::Debugger => DEBUGGER_SCRIPT,
            Program::Server => SERVER_SCRIPT,
        }
    }

    /// Lines, an example, pages to read and the statuses, with which its help ends.
    pub(crate) fn notes<'a>(self) -> &'a str {
        match self {
            Program::Debugger => DEBUGGER_NOTES,
            Program::Server => SERVER_NOTES,
        }
    }
}
