//! What each instruction makes of a stack, and where it leads. Source: gdb manual, "The GDB Agent Expression Mechanism",
//! "Bytecode Descriptions".
ghost use Rattle.std.specs.Prelude.{◌≡◌, ◌∷◌};
ghost use Rattle.s360_condition.specs.Evaluation.{after_instruction, onwards, Leaves};
ghost use Rattle.s360_condition.specs.Target.{register_value};

use crate::fault::EvaluationFault;
use crate::fetching::fetch;
use crate::instruction::Instruction;
use crate::readable::Readable;
use crate::stack::Stack;

/// Where an instruction leads.
#[derive(Clone, Copy)]
pub enum Next {
    /// To the following instruction.
    Following,
    /// To the instruction at this offset, further on.
    At(u16),
    /// To none: the expression has this value.
    Ended(u64),
}

/// Carries an instruction out.
pub(crate) fn carry_out<T: Readable>(
    instruction: Instruction,
    target: &T,
    stack: &mut Stack,
) -> Result<Next, EvaluationFault>
    ensures { Leaves (after_instruction (T.target_of target.now) instruction stack.old) result stack.new }
{
    match instruction {
        Instruction::Binary(operation) => {
            let b = stack.pop()?;
            let a = stack.pop()?;
            leave(stack, operation.value(a, b)?)
        }
        Instruction::Unary(operation) => {
            let a = stack.pop()?;
            leave(stack, operation.value(a)?)
        }
        Instruction::Ref(width) => {
            let address = stack.pop()?;
            leave(stack, fetch(target, address, width.bytes())?)
        }
        Instruction::Const(n) => leave(stack, n),
        Instruction::Reg(number) => leave(stack, register_value(target, number)?),
        Instruction::Pick(depth) => leave(stack, stack.pick(depth)?),
        Instruction::Pop => {
            stack.pop()?;
            Ok(Next::Following)
        }
        Instruction::Swap => {
            let b = stack.pop()?;
            let a = stack.pop()?;
            stack.push(b)?;
            leave(stack, a)
        }
        Instruction::Rot => {
            let c = stack.pop()?;
            let b = stack.pop()?;
            let a = stack.pop()?;
            stack.push(c)?;
            stack.push(a)?;
            leave(stack, b)
        }
        Instruction::IfGoto(to) => {
            let a = stack.pop()?;
            Ok(if a == 0 {
                Next::Following
            } else {
                Next::At(to)
            })
        }
        Instruction::Goto(to) => Ok(Next::At(to)),
        Instruction::End => Ok(Next::Ended(stack.pop()?)),
    }
}

/// Leaves a value on the stack, and goes on to the following instruction.
fn leave(stack: &mut Stack, value: u64) -> Result<Next, EvaluationFault>
    ensures { Leaves (onwards (value ∷ stack.old)) result stack.new }
{
    stack.push(value)?;
    Ok(Next::Following)
}

/// The word of a register.
fn register_value<T: Readable>(target: &T, number: u16) -> Result<u64, EvaluationFault>
    ensures { result ≡ register_value (T.target_of target.now) number }
{
    match target.register(number) {
        Some(word) => Ok(u64::from(word)),
        None => Err(EvaluationFault::NoSuchRegister),
    }
}
