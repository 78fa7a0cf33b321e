//! The program: carries a script out over a machine. docs/reference/debugger.md has its command line.
#![tactic(auto)]

mod program;

use s360_setup::{Program, start};
use std::process::ExitCode;

fn main(rt: HostRuntime) -> ExitCode {
    ExitCode::from(start(&rt, Program::Debugger, |options| {
        program::run(&rt, options)
    }))
}
