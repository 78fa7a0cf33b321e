//! Reads the conditions of a breakpoint as expressions. Source: gdb manual, "Packets", `Z0`.
ghost use Rattle.std.specs.Prelude.{◌≡◌, IsOk, MatchResult, Ok};
ghost use Rattle.s360_condition.specs.Reading.{reading_of};
ghost use Rattle.s360_remote.specs.Conditions.{IsFaultOf, conditions_in, part_of_reading};

use s360_condition::{Expression, ExpressionFault};
use s360_packet::{RequestFault, read_condition};
use std::alloc::{AllocError, Global};

/// The expressions that a list has.
pub(crate) fn read_conditions(alloc: Global, text: &[u8]) -> Result<Vec<Expression>, RequestFault>
    ensures { MatchResult result (λ conditions. conditions_in text.now ≡ Ok conditions.items) (IsFaultOf (conditions_in text.now)) }
{
    let mut conditions = Vec::new(alloc);
    let mut rest = text;
    while !rest.is_empty() {
        let (condition, behind) = read_condition(alloc, rest)?;
        let condition = expression(alloc, condition.as_slice())?;
        if let Err(fault) = conditions.push(condition) {
            return Err(AllocError::from(fault).into());
        }
        rest = behind;
    }
    Ok(conditions)
}

/// The expression of a condition.
fn expression(alloc: Global, bytes: &[u8]) -> Result<Expression, RequestFault>
    ensures { MatchResult result (λ condition. part_of_reading (reading_of bytes.now) ≡ Ok condition) (IsFaultOf (part_of_reading (reading_of bytes.now))) }
{
    match Expression::new(alloc, bytes) {
        Ok(expression) => Ok(expression),
        Err(ExpressionFault::Memory) => Err(RequestFault::Memory),
        Err(_) => Err(RequestFault::Malformed),
    }
}
