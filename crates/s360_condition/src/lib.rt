//! gdb's agent expressions: the conditions of breakpoints, which are evaluated over the registers and the storage of a
//! target. An expression is bytes, which are read once, and evaluated as often as is wanted, without memory. Of a machine
//! and of packets nothing is known here. Source: the gdb manual, appendix "The GDB Agent Expression Mechanism".
#![tactic(auto)]

mod decoder;
mod evaluation;
mod expression;
mod fault;
mod fetching;
mod instruction;
mod laws;
mod operation;
mod readable;
mod stack;

pub use expression::Expression;
pub use fault::{EvaluationFault, ExpressionFault};
pub use instruction::{Binary, Instruction, Placed, Unary, Width};
pub use laws::expressions_run_by_the_pc;
pub use readable::Readable;
