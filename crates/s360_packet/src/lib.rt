//! The protocol by which gdb drives a target over a pipe: packets, the requests that they carry, and the answers.
//! Bytes go in and requests come out, answers go in and bytes come out; of a machine nothing is known here.
//! Source: the gdb manual, "Remote Serial Protocol".
#![tactic(auto)]

mod answer;
mod condition;
mod fields;
mod framing;
mod laws;
mod pieces;
mod receiver;
mod request;
mod request_reader;
mod target;

pub use answer::{Answer, Stop, write_answer};
pub use condition::read_condition;
pub use framing::{frame, push_packet};
pub use laws::{all_registers_are_each, packets_are_read_back, requests_are_read_back};
pub use receiver::{Acknowledging, Received, Receiver, Stage};
pub use request::{Breakpoint, Payload, Point, Request, RequestFault, Thread, Watchpoint};
pub use request_reader::read_request;
pub use target::{REGISTERS, RegisterValue, description, register_value};
