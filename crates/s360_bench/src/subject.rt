//! What the command line can ask to be measured.
use crate::bench_fault::BenchFault;
use crate::block::measure_block;
use crate::measure::measure;
use crate::measured::Measured;
use crate::workload::Workload;
use std::alloc::Global;
use std::fmt::{self, Display, Formatter};
use std::fs::Files;
use std::time::Clock;

/// The name of a block.
const BLOCK: &str = "block";

/// What is measured.
#[derive(Clone, Copy, Debug, PartialEq, Eq)]
pub(crate) enum Subject {
    /// A session that runs a loop.
    Session(Workload),
    /// A channel command word that moves a block.
    Block,
}

impl Subject {
    /// The subject of this name.
    pub(crate) fn named(name: &str) -> Option<Subject> {
        if name == BLOCK {
            return Some(Subject::Block);
        }
        Some(Subject::Session(Workload::named(name)?))
    }

    /// Measures it over so many events and bytes of storage.
    pub(crate) fn measure<R: Clock + Files>(
        self,
        rt: &R,
        alloc: Global,
        events: u32,
        size: u32,
    ) -> Result<Measured, BenchFault> {
        match self {
            Subject::Session(workload) => measure(rt, alloc, workload, events, size),
            Subject::Block => measure_block(rt, alloc, events, size),
        }
    }
}

impl Display for Subject {
    fn fmt<W: fmt::Write>(&self, f: &mut Formatter<W>) -> fmt::Result {
        match self {
            Subject::Session(workload) => workload.fmt(f),
            Subject::Block => f.write_str(BLOCK),
        }
    }
}
