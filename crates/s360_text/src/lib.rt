//! Bytes in and out: what a reader has left, read whole, and why a script that it has is not carried out; texts, made
//! piece by piece and written; and numbers as digits.
#![tactic(auto)]

mod digits;
mod one_try;
mod reading;
mod script_fault;
mod text;
mod writing;

pub use digits::number_in;
pub use one_try::OneTry;
pub use reading::{ReadFault, read_whole};
pub use script_fault::ScriptFault;
pub use text::Text;
pub use writing::{Untaken, write_whole};
