//! The answers to gdb, as the data of packets. Source: gdb manual, "Remote Serial Protocol", "Packets", "Stop
//! Reply Packets" and "General Query Packets".
ghost use Rattle.std.specs.Prelude.{◌≡◌, ◌++◌, OnOk, replicate};
ghost use Rattle.s360_packet.specs.Answers.{answer_text, stop_text, registers_text, supported_text, watch_name};
ghost use Rattle.s360_packet.specs.Hexadecimal.{number_text};
ghost use Rattle.s360_packet.specs.Target.{register_text};

use crate::pieces::{push_bytes, push_number, push_two_digits, push_word};
use crate::request::Watchpoint;
use crate::target::{REGISTERS, RegisterValue, description, push_memory_map, push_part};
use s360_text::Text;
use std::alloc::AllocError;

/// A word has so many digits.
const WORD_DIGITS: usize = 8;

/// The digits of the registers that the machine lacks: 17 words and 16 doublewords.
const LACKING_DIGITS: usize = 17 * WORD_DIGITS + 16 * 2 * WORD_DIGITS;

/// What the target can do beyond what each can.
const FEATURES: &str = "\
    ;qXfer:features:read+;ReverseStep+;ReverseContinue+;swbreak+;QStartNoAckMode+\
    ;qXfer:memory-map:read+;ConditionalBreakpoints+\
";

/// Why the machine stopped.
#[derive(Clone, Copy)]
pub enum Stop {
    /// A step is done.
    Trap,
    /// Nothing is left to do: the program has stopped by itself.
    Quiet,
    /// gdb's user interrupted it.
    Interrupt,
    /// A watched byte was altered, read, or one of both.
    Watch { watchpoint: Watchpoint, at: u32 },
    /// The next instruction stands at a breakpoint of gdb's own.
    Breakpoint,
    /// Nothing is left to take back.
    HistoryBegin,
    /// Nothing is left to do again.
    HistoryEnd,
}

/// An answer.
#[derive(Clone, Copy)]
pub enum Answer<'a> {
    /// The request is not known.
    Empty,
    /// It is done.
    Done,
    /// It failed, for a reason of this number.
    Error(u8),
    /// These bytes, of which there is one at least: none would say that the request is not known.
    Bytes(&'a [u8]),
    /// All registers: the two words of the PSW, and the general registers.
    Registers(&'a [u32; REGISTERS]),
    /// One register.
    Register(RegisterValue),
    /// The machine stopped.
    Stopped(Stop),
    /// A text for gdb's user, which is no answer yet.
    Console(&'a [u8]),
    /// A part of the target's description: so many bytes from an offset on.
    Description { offset: u32, count: u32 },
    /// A part of the memory map, of storage that has `size` bytes: so many bytes of the map from an offset on.
    MemoryMap { size: u32, offset: u32, count: u32 },
    /// Whether the last line of gdb's user moved the machine.
    Moved(bool),
    /// What the target can do, and how many bytes of data a packet has at most.
    Supported { size: u32 },
    /// The one thread, whose number is 1.
    Thread,
    /// gdb was attached to what runs already.
    Attached,
    /// The numbers of all threads.
    FirstThreads,
    /// No threads beyond those that were told.
    NoMoreThreads,
}

/// Adds the text of an answer, the data of its packet.
pub fn write_answer(text: &mut Text, answer: Answer<'_>) -> Result<(), AllocError>
    ensures { OnOk result (text.new ≡ text.old ++ answer_text answer.entry) }
{
    match answer {
        Answer::Empty => Ok(()),
        Answer::Done => text.push_text("OK"),
        Answer::Error(number) => {
            text.push_text("E")?;
            push_two_digits(text, number)
        }
        Answer::Bytes(bytes) => push_bytes(text, bytes),
        Answer::Registers(words) => push_registers(text, words),
        Answer::Register(value) => push_register(text, value),
        Answer::Stopped(stop) => push_stop(text, stop),
        Answer::Console(line) => {
            text.push_text("O")?;
            push_bytes(text, line)
        }
        Answer::Description { offset, count } => {
            push_part(text, description().as_bytes(), offset, count)
        }
        Answer::MemoryMap {
            size,
            offset,
            count,
        } => push_memory_map(text, size, offset, count),
        Answer::Moved(moved) => text.push_text(if moved { "1" } else { "0" }),
        Answer::Supported { size } => push_supported(text, size),
        Answer::Thread => text.push_text("QC1"),
        Answer::Attached => text.push_text("1"),
        Answer::FirstThreads => text.push_text("m1"),
        Answer::NoMoreThreads => text.push_text("l"),
    }
}

/// What the address of a watched byte stands behind.
fn watch_name(watchpoint: Watchpoint) -> &'static str
    ensures { result.now ≡ watch_name watchpoint }
{
    match watchpoint {
        Watchpoint::Write => "watch:",
        Watchpoint::Read => "rwatch:",
        Watchpoint::Access => "awatch:",
    }
}

/// Adds why the machine stopped.
fn push_stop(text: &mut Text, stop: Stop) -> Result<(), AllocError>
    ensures { OnOk result (text.new ≡ text.old ++ stop_text stop) }
{
    match stop {
        Stop::Trap => text.push_text("T05"),
        Stop::Quiet => text.push_text("T00"),
        Stop::Interrupt => text.push_text("T02"),
        Stop::Watch { watchpoint, at } => {
            text.push_text("T05")?;
            text.push_text(watch_name(watchpoint))?;
            push_number(text, u64::from(at))?;
            text.push_text(";")
        }
        Stop::Breakpoint => text.push_text("T05swbreak:;"),
        Stop::HistoryBegin => text.push_text("T05replaylog:begin;"),
        Stop::HistoryEnd => text.push_text("T05replaylog:end;"),
    }
}

/// Adds a register's value.
fn push_register(text: &mut Text, value: RegisterValue) -> Result<(), AllocError>
    ensures { OnOk result (text.new ≡ text.old ++ register_text value) }
{
    match value {
        RegisterValue::Word(word) => push_word(text, word),
        RegisterValue::NoWord => push_lacking(text, WORD_DIGITS),
        RegisterValue::NoDoubleword => push_lacking(text, 2 * WORD_DIGITS),
    }
}

/// Adds the values of all registers.
fn push_registers(text: &mut Text, words: &[u32; REGISTERS]) -> Result<(), AllocError>
    ensures { OnOk result (text.new ≡ text.old ++ registers_text words.now) }
{
    for word in words {
        push_word(text, *word)?;
    }
    push_lacking(text, LACKING_DIGITS)
}

/// Adds `x` for each of so many digits that there are not.
fn push_lacking(text: &mut Text, digits: usize) -> Result<(), AllocError>
    ensures { OnOk result (text.new ≡ text.old ++ replicate digits 0x78) }
{
    for _ in 0..digits {
        text.push_byte(b'x')?;
    }
    Ok(())
}

/// Adds what the target can do.
fn push_supported(text: &mut Text, size: u32) -> Result<(), AllocError>
    ensures { OnOk result (text.new ≡ text.old ++ supported_text size) }
{
    text.push_text("PacketSize=")?;
    push_number(text, u64::from(size))?;
    text.push_text(FEATURES)
}
