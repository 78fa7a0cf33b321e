//! Measures a session, in which a loop of instructions or of channel command words is run forward
//! and then taken back, or a channel command word that moves a block.
//!
//! `s360_bench [LOOP] EVENTS STORAGE` takes the name of a loop or `block`, `fixed` where none is
//! given, and the number of events and the bytes of storage, in decimal.
#![tactic(auto)]

mod bench_fault;
mod block;
mod measure;
mod measured;
mod subject;
mod workload;

use std::env;
use std::process::ExitCode;
use subject::Subject;
use workload::Workload;

/// The status where the command line is wrong.
const USAGE: u8 = 2;

fn main(rt: HostRuntime) -> ExitCode {
    let Some((named, events, size)) = arguments(&rt) else {
        let _ = eprintln!(rt; "usage: s360_bench [LOOP] EVENTS STORAGE");
        let _ = eprintln!(rt;
            "LOOP is fixed (where none is given), mvc, xc, tr, pack, clc, svc, cards, blocks or block"
        );
        return ExitCode::from(USAGE);
    };
    let subject = named.unwrap_or(Subject::Session(Workload::Fixed));
    match subject.measure(&rt, rt.alloc(), events, size) {
        Ok(measured) => {
            if let Some(subject) = named {
                let _ = print!(rt; "{subject}: ");
            }
            let _ = println!(rt; "{events} events, {size} bytes of storage: {measured}");
            ExitCode::SUCCESS
        }
        Err(fault) => {
            let _ = eprintln!(rt; "s360_bench: {fault}");
            ExitCode::FAILURE
        }
    }
}

/// What is named if anything is, the number of events and the bytes of storage, if the command line
/// has just these.
fn arguments(rt: &HostRuntime) -> Option<(Option<Subject>, u32, u32)> {
    let mut words = env::args(rt).ok()?;
    let _ = words.next()?;
    let first = words.next()?;
    let named = Subject::named(first.as_str());
    let events = match named {
        Some(_) => words.next()?.parse().ok()?,
        None => first.parse().ok()?,
    };
    let size = words.next()?.parse().ok()?;
    match words.next() {
        None => Some((named, events, size)),
        Some(_) => None,
    }
}
