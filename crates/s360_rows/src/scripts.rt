//! Scripts over readers and writers that are slow or fail.
use crate::fault::Fault;
use crate::held::{Lent, lend};
use crate::rows::{Subject, Words, assert_no_fault, fault_of_rows};
use crate::same::are_same;
use s360_debug::{ScriptFault, run_script};
use s360_journal::Session;
use std::alloc::Global;
use std::io::{self, Read, Write};
use std::test::Fail;

/// Writers have room for so many bytes from the start, so that only the script wants memory.
const ROOM: usize = 4_096;

/// Two registers are patched, added and shown, and shown again once the sum is taken back.
const ADD: &str =
    "patch r 1 7FFFFFFF\npatch r 2 1\npatch s 0 1A12\nstep\nshow regs\nback\nshow regs\n";

const ADD_ANSWERS: &str = "1 changed 1 r1\n\
    2 changed 1 r2\n\
    3 changed 2 s000000 s000001\n\
    4 changed 2 p r1\n\
    r0 00000000 80000000 00000001 00000000\n\
    r4 00000000 00000000 00000000 00000000\n\
    r8 00000000 00000000 00000000 00000000\n\
    rC 00000000 00000000 00000000 00000000\n\
    back 4 cpu\n\
    r0 00000000 7FFFFFFF 00000001 00000000\n\
    r4 00000000 00000000 00000000 00000000\n\
    r8 00000000 00000000 00000000 00000000\n\
    rC 00000000 00000000 00000000 00000000\n";

/// So many lines are carried out by the time that an answer is written behind so many line feeds. The
/// fifth line and the seventh have four of them.
const CARRIED_OUT: [usize; 13] = [1, 2, 3, 4, 5, 5, 5, 5, 6, 7, 7, 7, 7];

/// More reads of one byte than a number of eight bits counts.
const COMMENT: usize = 400;

/// A script has at most so many bytes.
const LONGEST: usize = 1_048_576;

/// More bytes than any stream here gives or takes.
const MANY: usize = 2_000_000;

/// Where a stream stops once, though it would then go on: behind so many bytes, with an error. Without one it gives or
/// takes no byte.
#[derive(Clone, Copy)]
struct Stop {
    after: usize,
    error: Option<io::ErrorKind>,
}

/// A stream that does not stop.
const NEVER: Stop = Stop {
    after: MANY,
    error: None,
};

/// How a writer stops: with an error after which it is at times written again, or another, or it takes no byte.
const STOPS: [Option<io::ErrorKind>; 4] = [
    Some(io::ErrorKind::Interrupted),
    Some(io::ErrorKind::WouldBlock),
    Some(io::ErrorKind::Other),
    None,
];

impl Stop {
    /// Whether a byte is given or taken.
    fn goes_on(&mut self) -> io::Result<bool> {
        if self.after > 0 {
            self.after -= 1;
            return Ok(true);
        }
        self.after = MANY;
        match self.error {
            Some(kind) => Err(io::Error::from(kind)),
            None => Ok(false),
        }
    }
}

/// A reader that gives one byte a call.
#[derive(Drop)]
struct SlowReader<'a> {
    left: &'a [u8],
    stop: Stop,
}

impl<'a> Read for SlowReader<'a> {
    fn read(&mut self, buffer: &mut [u8]) -> io::Result<usize> {
        if !self.stop.goes_on()? {
            return Ok(0);
        }
        let Some((byte, rest)) = self.left.split_first() else {
            return Ok(0);
        };
        let Some(place) = buffer.first_mut() else {
            return Ok(0);
        };
        *place = *byte;
        self.left = rest;
        Ok(1)
    }
}

/// A writer that takes one byte a call.
#[derive(Drop)]
struct SlowWriter {
    taken: Vec<u8>,
    stop: Stop,
}

impl Write for SlowWriter {
    fn write(&mut self, buffer: &[u8]) -> io::Result<usize> {
        let Some(byte) = buffer.first() else {
            return Ok(0);
        };
        if !self.stop.goes_on()? {
            return Ok(0);
        }
        self.taken.push(*byte)?;
        Ok(1)
    }

    fn flush(&mut self) -> io::Result<()> {
        Ok(())
    }
}

/// What a script leaves beside its session.
#[derive(Drop)]
struct Left {
    outcome: Result<u32, ScriptFault>,
    written: Vec<u8>,
}

/// What carrying a script out answers. The callers' proofs have no need of all that it promises.
fn run<R: Read, W: Write>(
    alloc: Global,
    session: &mut Session,
    reader: &mut R,
    writer: &mut W,
) -> Result<u32, ScriptFault> {
    run_script(alloc, session, reader, writer)
}

/// Carries a script out over a reader and a writer that stop so.
fn carry_out(
    alloc: Global,
    session: &mut Session,
    script: &[u8],
    reads: Stop,
    writes: Stop,
) -> Result<Left, Fault> {
    let taken = Vec::with_capacity(alloc, ROOM)?;
    let left = script;
    let mut reader = SlowReader { left, stop: reads };
    let mut writer = SlowWriter {
        taken,
        stop: writes,
    };
    let outcome = run(alloc, session, &mut reader, &mut writer);
    let written = writer.taken;
    match outcome {
        Err(ScriptFault::Memory) => Err(Fault::Memory),
        outcome => Ok(Left { outcome, written }),
    }
}

/// Bytes that are a text, within quotes.
fn quoted(alloc: Global, bytes: &[u8]) -> Result<String, Fault> {
    let text = str::from_utf8(bytes).ok().ok_or(Fault::Unforeseen)?;
    Ok(format!(in alloc; "{text:?}")?)
}

/// Whether a session is as another, in which a script is carried out to its end.
#[derive(Drop)]
struct Beside<'a> {
    other: &'a Session,
    script: &'a [u8],
}

impl<'a> Lent for Beside<'a> {
    fn use_session(&mut self, alloc: Global, session: &mut Session) -> Result<String, Fault> {
        let _left = carry_out(alloc, session, self.script, NEVER, NEVER)?;
        let is_same = session.standing() == self.other.standing()
            && are_same(alloc, session.machine(), self.other.machine())?;
        Ok(format!(in alloc; "{is_same}")?)
    }
}

/// A script over a reader and a writer that stop so. What it leaves is to be as after another script.
#[derive(Drop)]
struct Cut<'a> {
    script: &'a [u8],
    reads: Stop,
    writes: Stop,
    beside: &'a [u8],
}

impl<'a> Lent for Cut<'a> {
    /// Its outcome, the number of bytes written, whether they are a first part of the answers, and whether the
    /// session is as after the other script.
    fn use_session(&mut self, alloc: Global, session: &mut Session) -> Result<String, Fault> {
        let left = carry_out(alloc, session, self.script, self.reads, self.writes)?;
        let (outcome, count) = (left.outcome, left.written.len());
        let is_first = ADD_ANSWERS.as_bytes().starts_with(&left.written);
        let other = &*session;
        let script = self.beside;
        let is_same = lend(alloc, 10, &mut Beside { other, script })?;
        Ok(format!(in alloc; "{outcome:?} {count:X} {is_first} {is_same}")?)
    }
}

/// A script that is carried out to its end, which answers its answers.
#[derive(Drop)]
struct Whole<'a> {
    script: &'a [u8],
}

impl<'a> Lent for Whole<'a> {
    fn use_session(&mut self, alloc: Global, session: &mut Session) -> Result<String, Fault> {
        let left = carry_out(alloc, session, self.script, NEVER, NEVER)?;
        quoted(alloc, &left.written)
    }
}

/// The script behind a long comment.
fn behind_a_comment(alloc: Global) -> Result<Vec<u8>, Fault> {
    let mut script = vec![in alloc; b'*'; COMMENT]?;
    script.push(b'\n').ok().ok_or(Fault::Memory)?;
    script.extend_from_slice(ADD.as_bytes())?;
    Ok(script)
}

/// What a script leaves over streams that do not stop, beside another.
fn text_of_whole(alloc: Global, script: &[u8], beside: &[u8]) -> Result<String, Fault> {
    let mut whole = Cut {
        script,
        reads: NEVER,
        writes: NEVER,
        beside,
    };
    lend(alloc, 10, &mut whole)
}

/// What the script leaves where its reader fails so, beside a session that is begun.
fn text_of_failed_read(alloc: Global, after: usize, kind: io::ErrorKind) -> Result<String, Fault> {
    let error = Some(kind);
    let mut cut = Cut {
        script: ADD.as_bytes(),
        reads: Stop { after, error },
        writes: NEVER,
        beside: &[],
    };
    lend(alloc, 10, &mut cut)
}

/// The first lines of the script that are carried out where its writer stops after so many bytes.
fn carried_out(room: usize) -> Option<usize> {
    let (written, _) = ADD_ANSWERS.split_at_checked(room)?;
    let line_feeds = written.split('\n').count().saturating_sub(1);
    let lines = CARRIED_OUT.get(line_feeds).copied()?;
    let length = ADD.lines().take(lines).fold(0, |length: usize, line| {
        length.saturating_add(line.len() + 1)
    });
    Some(length)
}

/// What the script leaves where its writer stops after so many bytes, beside the lines that are carried out then.
fn text_of_failed_write(alloc: Global, room: usize) -> Result<String, Fault> {
    let length = carried_out(room).ok_or(Fault::Unforeseen)?;
    let (beside, _) = ADD
        .as_bytes()
        .split_at_checked(length)
        .ok_or(Fault::Unforeseen)?;
    let mut cut = Cut {
        script: ADD.as_bytes(),
        reads: NEVER,
        writes: Stop {
            after: room,
            error: STOPS[room % STOPS.len()],
        },
        beside,
    };
    lend(alloc, 10, &mut cut)
}

/// What is wrong where the writer stops after so many bytes: it has taken them and no more, and the session stands as
/// after the line whose answer was cut.
fn fault_of_write(alloc: Global, room: usize) -> Result<String, Fault> {
    let wanted = format!(in alloc; "Err(Write) {room:X} true true")?;
    let text = text_of_failed_write(alloc, room)?;
    if text == wanted {
        return Ok(String::new(alloc));
    }
    Ok(format!(in alloc; "{wanted}: found {text}")?)
}

/// Scripts over streams that give or take one byte a call, and at times stop.
#[derive(Drop)]
struct Scripts;

impl Subject for Scripts {
    fn answer(&mut self, alloc: Global, words: &mut Words<'_>) -> Result<String, Fault> {
        match words.next_word() {
            "limit" => lend(alloc, 1, &mut Whole { script: TICKS }),
            "full" => lend(alloc, 1, &mut Whole { script: PATCHES }),
            "whole" => text_of_whole(alloc, ADD.as_bytes(), ADD.as_bytes()),
            "long" => text_of_whole(alloc, &behind_a_comment(alloc)?, ADD.as_bytes()),
            kind => {
                let kind = match kind {
                    "interrupted" => io::ErrorKind::Interrupted,
                    _ => io::ErrorKind::Other,
                };
                text_of_failed_read(alloc, words.below(0x1_0000) as usize, kind)
            }
        }
    }
}

/// What so many blanks leave beside a session that is begun.
fn text_of_blanks(alloc: Global, count: usize) -> Result<String, Fault> {
    let script = vec![in alloc; b' '; count]?;
    text_of_whole(alloc, &script, &[])
}

#[test]
fn longest_scripts(rt: HostRuntime) -> Result<(), Fail> {
    let cases = [
        (LONGEST, "Ok(0) 0 true true"),
        (LONGEST + 1, "Err(TooLong) 0 true true"),
    ];
    for (count, wanted) in cases {
        let text = text_of_blanks(rt.alloc(), count)?;
        assert_eq!(rt; text.as_str(), wanted);
    }
    Ok(())
}

#[test]
fn slow_streams_that_fail(rt: HostRuntime) {
    for room in 0..ADD_ANSWERS.len() {
        assert_no_fault(&rt, fault_of_write(rt.alloc(), room));
    }
    assert_no_fault(&rt, fault_of_rows(rt.alloc(), &mut Scripts, STREAMS));
}

/// More ticks than may stand where one change may, and more patches.
const TICKS: &[u8] = b"tick\ntick\nrun 5\nstanding\n";

const PATCHES: &[u8] = b"patch r 1 5\npatch r 1 5\n";

/// Scripts over streams that give or take one byte a call: the outcome, the number of bytes written, whether they are
/// a first part of the answers, and whether the session is as it is to be.
const STREAMS: &str = r#"
* a writer with room for all answers
whole -> Ok(7) 18E true true
* a reader that fails once, though it would then give the rest: at its first byte, within a line, behind one, and before
* its end
fails 0 -> Err(Read) 0 true true
fails 5 -> Err(Read) 0 true true
fails 13 -> Err(Read) 0 true true
fails 4C -> Err(Read) 0 true true
interrupted 0 -> Err(Read) 0 true true
interrupted 5 -> Err(Read) 0 true true
interrupted 13 -> Err(Read) 0 true true
interrupted 4C -> Err(Read) 0 true true
* a reader that gives its bytes in more than 300 calls
long -> Ok(7) 18E true true
* a session where one change may stand
limit -> "1 changed 4 s000050 s000051 s000052 ext\nrefused 6 journal full\nrun 0 refused 6 journal full\nstanding 1\n"
full -> "1 changed 1 r1\nrefused 6 journal full\n"
"#;
