//! Lists of calls of each kind, made of a new machine and of a session.
use crate::calls::{calls, text_of_answer};
use crate::fault::Fault;
use crate::held::{Lent, lend_blank};
use s360_device::deck_from;
use s360_journal::{Answer, Session, run_calls};
use s360_machine::Machine;
use s360_tape::blank_tape;
use s360_word::RegisterNumber;
use std::alloc::Global;
use std::process::Abort;

/// A machine has so many bytes.
const STORAGE: u32 = 8_192;

/// So many changes may stand.
const LIMIT: u8 = 6;

/// Calls of each kind, with changes that are taken back, idle events and refusals. The step at 0 is AR of
/// registers 1 and 2.
const EACH_KIND: &str = "back
patch s 0 1A12
patch r 1 7FFFFFFF
patch r 2 1
advance patch s 300 01
patch s 301 02
last s 301
back
last s 301
patch r 2 1
standing
patch s 2000 01
preview step
run 1
last r 1
patch r 3 1
standing
withdraw 4
withdraw 9
last s 300
last r 1
until 0
step
to 3
recorded
again
on 9
last r 1
step back
recorded
patch r 3 1
recorded
again
standing
previous
next
return 2
resume 1
resume 9
next
previous";

/// Their answers where so many changes may stand, and register 1 in the end.
const ANSWERS: &str = "nothing stands
[Byte(0), Byte(1)]
[Register(1)]
[Register(2)]
advanced
[Byte(769)]
Some(5)
Patch(Bytes { at: 769, bytes: Bytes { items: [2] } })
None
idle
5
outside storage
[Psw, Register(1)]
ran 1 done
Some(6)
journal full
6
withdrawn
no such change
None
Some(5)
until 4
[Psw, Register(1)]
until 3
5
true
on 5
Some(5)
stepped back
5
[Register(3)]
5
false
5
back to 0 start
ran 5 end
back to 3 done
ran 1 done
ran 1 end
ran 1 stepped
back to 5 stepped
7FFFFFFF
";

/// Writes the text of an answer on a line of its own.
fn push_answer(alloc: Global, text: &mut String, answer: &Answer) -> Result<(), Fault> {
    let answer = text_of_answer(alloc, answer)?;
    text.push_str(&answer)?;
    Ok(text.push('\n')?)
}

/// The texts of answers, one a line.
fn text_of_answers(alloc: Global, answers: &[Answer]) -> Result<String, Fault> {
    let mut text = String::new(alloc);
    for answer in answers {
        push_answer(alloc, &mut text, answer)?;
    }
    Ok(text)
}

/// The texts of answers, and what is left of the machine.
fn text_of_end(alloc: Global, answers: &[Answer], machine: &Machine) -> Result<String, Fault> {
    let mut text = text_of_answers(alloc, answers)?;
    let first = machine.register(RegisterNumber::new(1));
    writeln!(text, "{first:X}")?;
    Ok(text)
}

/// Lists of calls as a whole, which are made of a new machine.
fn run(alloc: Global) -> Result<String, Fault> {
    let calls = calls(alloc, EACH_KIND)?;
    let deck = deck_from(alloc, &[])?;
    let (first, second) = (blank_tape(alloc), blank_tape(alloc));
    let machine = Machine::new(alloc, STORAGE, deck, first, second)?;
    let outcome = run_calls(alloc, machine, u32::from(LIMIT), calls)?;
    text_of_end(alloc, &outcome.answers, &outcome.machine)
}

/// The same calls, made of a session.
#[derive(Drop)]
struct Calls;

impl Lent for Calls {
    fn use_session(&mut self, alloc: Global, session: &mut Session) -> Result<String, Fault> {
        let calls = calls(alloc, EACH_KIND)?;
        let answers = session.perform_all(calls)?;
        text_of_end(alloc, &answers, session.machine())
    }
}

/// Asserts that these are the answers.
fn assert_answers(rt: &impl Abort, answers: Result<String, Fault>) {
    let answers = answers.expect(rt, "no answers");
    assert_eq!(rt; answers.as_str(), ANSWERS);
}

#[test]
fn lists_of_calls(rt: HostRuntime) {
    assert_answers(&rt, run(rt.alloc()));
    assert_answers(&rt, lend_blank(rt.alloc(), STORAGE, LIMIT, &mut Calls));
}
