//! How the instruction at the instruction address ends, by the calls that plan it: any instruction, and one that is a
//! fixed-point, branch or shift instruction. What is planned beside an interruption code shows whether the instruction
//! was completed.
ghost use Rattle.std.specs.Prelude.{◌≡◌, []};

use crate::fault::Fault;
use crate::rows::{Subject, Words, assert_no_fault, fault_of_rows};
use crate::storage::put_bytes;
use s360_fixed::{Ended, Form, View, is_fixed, plan_fixed};
use s360_logic::{fetch, plan_instruction};
use s360_psw::Psw;
use s360_store::{Core, Place, Plan, Storage};
use std::alloc::{AllocError, Global};

/// Plans a form by the call for fixed-point, branch and shift instructions, if it is one.
fn plan_if_fixed(form: &Form, view: &View, plan: &mut Plan) -> Result<Option<Ended>, AllocError>
    requires { plan.old ≡ [] }
{
    if !is_fixed(form) {
        return Ok(None);
    }
    Ok(Some(plan_fixed(form, view, plan)?))
}

/// What stands before an instruction at `200`.
#[derive(Drop)]
struct Before {
    core: Core,
}

impl Before {
    /// Registers 2 to 4 and the doubleword at `600` are the next words, and all else is zero.
    fn new(alloc: Global, words: &mut Words<'_>) -> Result<Before, Fault> {
        let mut storage = Storage::new(alloc, 0x2000)?;
        let mut registers = [0; 16];
        put_bytes(&mut storage, 0x200, &words.word().to_be_bytes());
        for register in 2..5 {
            registers[register] = words.word();
        }
        put_bytes(&mut storage, 0x600, &words.number().to_be_bytes());
        let core = Core::new(Psw::from_u64(0x200), registers, storage);
        Ok(Before { core })
    }

    /// How it ends, the next address, what is planned for register 1, and how many places are, by an empty plan.
    fn ending(&self, alloc: Global, plan: &mut Plan) -> Result<String, Fault>
        requires { plan.old ≡ [] }
    {
        let planned = plan_instruction(&self.core, plan)?;
        let (ended, next) = (planned.ended, planned.next_address);
        let first = plan.value(Place::Register(1)).unwrap_or_default();
        Ok(format!(in alloc; "{ended:?} {next:X} r1 {first:X} of {}", plan.len())?)
    }

    /// How it ends as a fixed-point, branch or shift instruction, and what is planned for the PSW and register 1, by an
    /// empty plan.
    fn fixed_ending(&self, alloc: Global, plan: &mut Plan) -> Result<String, Fault>
        requires { plan.old ≡ [] }
    {
        let Ok(fetched) = fetch(&self.core) else {
            return Err(Fault::Unforeseen);
        };
        let form = fetched.form().ok_or(Fault::Unforeseen)?;
        let ended = plan_if_fixed(&form, fetched.view(), plan)?;
        let psw = plan.value(Place::Psw).unwrap_or_default();
        let first = plan.value(Place::Register(1)).unwrap_or_default();
        Ok(format!(in alloc; "{ended:?} psw {psw:X} r1 {first:X} of {}", plan.len())?)
    }
}

/// Instructions, each with what stands before it.
#[derive(Drop)]
struct Instructions;

impl Subject for Instructions {
    fn answer(&mut self, alloc: Global, words: &mut Words<'_>) -> Result<String, Fault> {
        let kind = words.next_word();
        let before = Before::new(alloc, words)?;
        match kind {
            "fixed" => before.fixed_ending(alloc, &mut Plan::new(alloc)),
            _ => before.ending(alloc, &mut Plan::new(alloc)),
        }
    }
}

#[test]
fn endings(rt: HostRuntime) {
    assert_no_fault(&rt, fault_of_rows(rt.alloc(), &mut Instructions, ENDINGS));
}

/// A call, an instruction, registers 2 to 4 and the doubleword at `600`, and how it ends.
const ENDINGS: &str = "
* DR by zero loads nothing
any 1D240000 0 7 0 0 -> Program(FixedPointDivide) 202 r1 0 of 0
fixed 1D240000 0 7 0 0 -> Some(Program(FixedPointDivide)) psw 0 r1 0 of 0
* CVB of a number that no word is loads its low 32 bits
any 4F100600 0 0 0 000002147483648C -> Program(FixedPointDivide) 204 r1 80000000 of 2
fixed 4F100600 0 0 0 000002147483648C -> None psw 0 r1 0 of 0
* AR, L and BALR load register 1, and set the condition code, nothing and the address
fixed 1A120000 5 0 0 0 -> Some(Done) psw 20000202 r1 5 of 2
fixed 58100600 0 0 0 C1C2C3C400000000 -> Some(Done) psw 204 r1 C1C2C3C4 of 2
fixed 05120000 300 0 0 0 -> Some(Done) psw 300 r1 40000202 of 2
";
