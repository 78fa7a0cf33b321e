//! Instructions: their operation codes and formats, and the plans of the fixed-point, branch and
//! shift instructions.
//!
//! Source: GA22-6821, "System Structure", "Fixed-Point Arithmetic", "Logical Operations" and
//! "Branching".
#![tactic(auto)]

mod address;
mod arithmetic;
mod branching;
mod decoder;
mod effect;
mod ended;
mod fetch;
mod form;
mod load_store;
mod operand;
mod operation;
mod planner;
mod program_code;
mod puts;
mod register_words;
mod registers;
mod row;
mod second_operand;
mod setting;
mod shifts;
mod view;

pub use address::{ADDRESSES, based_address, indexed_address, operand_address};
pub use arithmetic::{put_combined, put_pair};
pub use branching::{put_branch, put_branch_on_index, register_target};
pub use decoder::{decode, decode_bytes, high_register, length_of, low_register};
pub use effect::Effect;
pub use ended::{Ended, IoOperation};
pub use fetch::fetch_instruction;
pub use form::{Form, Format};
pub use load_store::{put_loads, put_register, put_store, put_stores};
pub use operand::operand_exception;
pub use operation::Operation;
pub use planner::{is_fixed, plan_fixed, put_combined_at, put_fixed, put_pair_at};
pub use program_code::ProgramCode;
pub use puts::put_next_psw;
pub use row::{Branch, Combination, IndexBranch, OperationRow, PairCombination, Shift};
pub use second_operand::{SecondOperand, Width};
pub use setting::{CodeSetting, psw_with};
pub use shifts::{put_pair_shift, put_shift};
pub use view::View;
