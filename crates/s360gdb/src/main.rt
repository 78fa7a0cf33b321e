//! The program: serves gdb over a machine. docs/reference/gdb.md tells of it.
#![tactic(auto)]

mod file;
mod host;
mod opening;
mod program;

use s360_setup::{Program, start};
use std::process::ExitCode;

fn main(rt: HostRuntime) -> ExitCode {
    ExitCode::from(start(&rt, Program::Server, |options| {
        program::run(&rt, options)
    }))
}
