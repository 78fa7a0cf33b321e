//! The stack of an evaluation. Source: gdb manual, "The GDB Agent Expression Mechanism".
ghost use Rattle.std.specs.Prelude.{◌≡◌, ◌∷◌, ◌<◌, ◌≤◌, [], length, slice_get, MatchResult};
ghost use Rattle.std.specs.Option.{ok_or};
ghost use Rattle.s360_condition.specs.declared.fault.EvaluationFault.TheVariants.{StackOverflow, StackUnderflow};

use crate::fault::EvaluationFault;
use arrayvec::ArrayVec;
use std::marker::Model;

/// A stack has at most so many values.
const MOST: usize = 64;

/// A stack of at most 64 values. A contract sees them with the top first. No call takes memory.
#[derive(Drop)]
pub(crate) struct Stack {
    values: ArrayVec<u64, MOST>,
}

impl Model for Stack {
    ghost use Rattle.std.specs.Prelude.{List, ℕ, reverse};

    ghost Value = { List ℕ };

    ghost view = { λ s. reverse s.values.items };
}

impl Stack {
    /// No values.
    pub(crate) fn new() -> Stack
        ensures { result ≡ [] }
    {
        Stack {
            values: ArrayVec::new(),
        }
    }

    /// Puts a value on the top, if there is room for it.
    pub(crate) fn push(&mut self, value: u64) -> Result<(), EvaluationFault>
        ensures { MatchResult result (λ _. (length self.old < 64) × (self.new ≡ value ∷ self.old)) (λ fault. (64 ≤ length self.old) × (fault ≡ StackOverflow)) }
    {
        match self.values.try_push(value) {
            Ok(()) => Ok(()),
            Err(_) => Err(EvaluationFault::StackOverflow),
        }
    }

    /// Takes the value at the top, if there is one.
    pub(crate) fn pop(&mut self) -> Result<u64, EvaluationFault>
        ensures { MatchResult result (λ value. self.old ≡ value ∷ self.new) (λ fault. (self.old ≡ []) × (fault ≡ StackUnderflow)) }
    {
        match self.values.pop() {
            Some(value) => Ok(value),
            None => Err(EvaluationFault::StackUnderflow),
        }
    }

    /// The value that so many stand above, if there is one.
    pub(crate) fn pick(&self, depth: u8) -> Result<u64, EvaluationFault>
        ensures { result ≡ ok_or (slice_get self.now depth) StackUnderflow }
    {
        let values = self.values.as_slice();
        let depth = usize::from(depth);
        if depth < values.len() {
            Ok(values[values.len() - 1 - depth])
        } else {
            Err(EvaluationFault::StackUnderflow)
        }
    }
}
