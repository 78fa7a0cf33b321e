//! The program status word (PSW): its fields, the doubleword that an interruption stores for it,
//! what an instruction makes of it, and which interruption it lets happen.
//!
//! Bits are numbered from 0 at the left, as in the standard. Nothing here takes memory. Source:
//! GA22-6821, "System Structure", "Status Switching" and "Interruptions".
#![tactic(auto)]

mod class;
mod instruction_length;
mod pending;
mod psw;

pub use class::Class;
pub use instruction_length::InstructionLength;
pub use pending::{Pending, next_interruption};
pub use psw::Psw;
