//! An expression. Source: gdb manual, "The GDB Agent Expression Mechanism", "Bytecode Descriptions".
ghost use Rattle.std.specs.Prelude.{◌≡◌, ◌<◌, Err, length};
ghost use Rattle.s360_condition.specs.Evaluation.{holds, value_of};
ghost use Rattle.s360_condition.specs.Reading.{Reads, most_bytes, reading_of};
ghost use Rattle.s360_condition.specs.declared.fault.ExpressionFault.TheVariants.{TooLong};

use crate::decoder::{first_astray, instructions_in};
use crate::evaluation::{Next, carry_out};
use crate::fault::{EvaluationFault, ExpressionFault};
use crate::instruction::Placed;
use crate::readable::Readable;
use crate::stack::Stack;
use std::alloc::Global;
use std::marker::Model;

/// An expression has at most so many bytes.
const MOST_BYTES: usize = 4096;

/// An expression, which a contract sees as its instructions with their offsets. Each of its jumps goes to an instruction
/// further on.
#[derive(Drop)]
pub struct Expression {
    instructions: Vec<Placed>,
}

impl Model for Expression {
    ghost use Rattle.std.specs.Prelude.{◌≡◌, List, None};
    ghost use Rattle.s360_condition.specs.Reading.{first_astray};
    ghost use Rattle.s360_condition.specs.declared.instruction.Placed.{Placed as InstructionAt};

    ghost Value = { List InstructionAt };

    ghost view = { λ e. e.instructions.items };

    ghost invariant = { λ e. first_astray e.instructions.items ≡ None };
}

impl Expression {
    /// The expression that bytes are, of which gdb sends two hexadecimal digits each. They are refused if there are more
    /// than 4,096, whatever memory there is; at the first code that is unknown or operand that is cut off; and else at the
    /// first jump that goes to no instruction further on.
    pub fn new(alloc: Global, bytes: &[u8]) -> Result<Expression, ExpressionFault>
        ensures reading { Reads (reading_of bytes.now) result }
        ensures too_long { most_bytes < length bytes.now → result ≡ Err TooLong }
    {
        if bytes.len() > MOST_BYTES {
            return Err(ExpressionFault::TooLong);
        }
        let instructions = instructions_in(alloc, bytes)?;
        match first_astray(instructions.as_slice()) {
            Some(at) => Err(ExpressionFault::AstrayJump(at)),
            None => Ok(Expression { instructions }),
        }
    }

    /// The value of the expression over a target, of 64 bits: the top of the stack at `end`. It fails by the first fault
    /// that an instruction meets. It takes no memory, and carries each instruction out once at most.
    pub fn evaluate<T: Readable>(&self, target: &T) -> Result<u64, EvaluationFault>
        ensures { result ≡ value_of (T.target_of target.now) self.now }
    {
        let mut stack = Stack::new();
        let mut pc = 0;
        for placed in self.instructions.as_slice() {
            if placed.at < pc {
                continue;
            }
            match carry_out(placed.instruction, target, &mut stack)? {
                Next::Following => {}
                Next::At(to) => pc = to,
                Next::Ended(value) => return Ok(value),
            }
        }
        Err(EvaluationFault::NoEnd)
    }

    /// Whether the condition holds that the expression is: its value is not zero, or it has none. Then, as with gdbserver,
    /// the target stops, and gdb evaluates the condition itself. It takes no memory.
    pub fn holds<T: Readable>(&self, target: &T) -> bool
        ensures { result ≡ holds (T.target_of target.now) self.now }
    {
        match self.evaluate(target) {
            Ok(value) => value != 0,
            Err(_) => true,
        }
    }
}
