//! The instructions in the bytes of an expression. Source: gdb manual, "The GDB Agent Expression Mechanism", "Bytecode
//! Descriptions".
ghost use Rattle.std.specs.Prelude.{◌≡◌, ◌<◌, ◌≤◌, ◌^◌, IfErr, IfOk, Ok, length};
ghost use Rattle.s360_condition.specs.Instructions.{instruction_with, operand_bytes};
ghost use Rattle.s360_condition.specs.Reading.{first_astray, goes_on, instruction_at, instructions_in, FailsBy};

use crate::fault::ExpressionFault;
use crate::fetching::number_of;
use crate::instruction::{Binary, Instruction, Placed, Unary, Width};
use std::alloc::Global;

/// How many bytes of operand stand behind a code; 0 behind one that is not known.
#[tactic(auto, unfolding(crate::specs::Instructions::operand_bytes))]
fn operand_bytes(code: u8) -> usize
    ensures value { result ≡ operand_bytes code }
    ensures few { result ≤ 8 }
{
    match code {
        0x16 | 0x22 | 0x2A | 0x32 => 1,
        0x20 | 0x21 | 0x23 | 0x26 => 2,
        0x24 => 4,
        0x25 => 8,
        _ => 0,
    }
}

/// The instruction of a code with an operand, if it is known.
#[tactic(auto, unfolding(crate::specs::Instructions::operand_bytes, crate::specs::Instructions::instruction_with))]
fn instruction_with(code: u8, operand: u64) -> Option<Instruction>
    requires { operand < 256 ^ operand_bytes code }
    ensures { result ≡ instruction_with code operand }
{
    Some(match code {
        0x02 => Instruction::Binary(Binary::Add),
        0x03 => Instruction::Binary(Binary::Sub),
        0x04 => Instruction::Binary(Binary::Mul),
        0x05 => Instruction::Binary(Binary::DivSigned),
        0x06 => Instruction::Binary(Binary::DivUnsigned),
        0x07 => Instruction::Binary(Binary::RemSigned),
        0x08 => Instruction::Binary(Binary::RemUnsigned),
        0x09 => Instruction::Binary(Binary::Lsh),
        0x0A => Instruction::Binary(Binary::RshSigned),
        0x0B => Instruction::Binary(Binary::RshUnsigned),
        0x0E => Instruction::Unary(Unary::LogNot),
        0x0F => Instruction::Binary(Binary::BitAnd),
        0x10 => Instruction::Binary(Binary::BitOr),
        0x11 => Instruction::Binary(Binary::BitXor),
        0x12 => Instruction::Unary(Unary::BitNot),
        0x13 => Instruction::Binary(Binary::Equal),
        0x14 => Instruction::Binary(Binary::LessSigned),
        0x15 => Instruction::Binary(Binary::LessUnsigned),
        0x16 => Instruction::Unary(Unary::Ext(operand as u8)),
        0x17 => Instruction::Ref(Width::Ref8),
        0x18 => Instruction::Ref(Width::Ref16),
        0x19 => Instruction::Ref(Width::Ref32),
        0x1A => Instruction::Ref(Width::Ref64),
        0x20 => Instruction::IfGoto(operand as u16),
        0x21 => Instruction::Goto(operand as u16),
        0x22..=0x25 => Instruction::Const(operand),
        0x26 => Instruction::Reg(operand as u16),
        0x27 => Instruction::End,
        0x28 => Instruction::Pick(0),
        0x29 => Instruction::Pop,
        0x2A => Instruction::Unary(Unary::ZeroExt(operand as u8)),
        0x2B => Instruction::Swap,
        0x32 => Instruction::Pick(operand as u8),
        0x33 => Instruction::Rot,
        _ => return None,
    })
}

/// The instruction at an offset, from its code and the bytes behind it, and how many bytes its operand has.
fn instruction_at(at: u16, code: u8, bytes: &[u8]) -> Result<(Instruction, usize), ExpressionFault>
    ensures instruction { result ≡ instruction_at at code bytes.now }
    ensures within { IfOk result (λ found. found.1 ≤ length bytes.now) }
{
    let count = operand_bytes(code);
    if bytes.len() < count {
        return Err(ExpressionFault::CutOff(at));
    }
    match instruction_with(code, number_of(&bytes[..count])) {
        Some(instruction) => Ok((instruction, count)),
        None => Err(ExpressionFault::UnknownCode(at)),
    }
}

/// The instructions of the bytes of an expression.
pub(crate) fn instructions_in(alloc: Global, bytes: &[u8]) -> Result<Vec<Placed>, ExpressionFault>
    requires { length bytes.now ≤ 4096 }
    ensures ok { IfOk result (λ found. instructions_in bytes.now 0 0 ≡ Ok found.items) }
    ensures err { IfErr result (λ fault. FailsBy (instructions_in bytes.now 0 0) fault) }
{
    let mut instructions = Vec::new(alloc);
    let mut at = 0;
    while at < bytes.len() {
        let (instruction, operand_bytes) = instruction_at(at as u16, bytes[at], &bytes[at + 1..])?;
        instructions.push(Placed {
            at: at as u16,
            instruction,
        })?;
        at += 1 + operand_bytes;
    }
    Ok(instructions)
}

/// The offset of the first jump that goes to no instruction further on.
pub(crate) fn first_astray(instructions: &[Placed]) -> Option<u16>
    ensures { result ≡ first_astray instructions.now }
{
    for index in 0..instructions.len() {
        let placed = instructions[index];
        if !goes_on(placed.instruction.jump(), &instructions[index + 1..]) {
            return Some(placed.at);
        }
    }
    None
}

/// Whether a jump goes to an instruction further on.
fn goes_on(jump: Option<u16>, behind: &[Placed]) -> bool
    ensures { result ≡ goes_on jump behind.now }
{
    let Some(to) = jump else {
        return true;
    };
    for placed in behind {
        if placed.at == to {
            return true;
        }
    }
    false
}
