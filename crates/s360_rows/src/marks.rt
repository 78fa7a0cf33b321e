//! Marks before and after a call that takes no memory. No clause counts growths of memory. So a test tells on standard
//! output where such a call begins and where it has ended, and `tests/refuse_each_growth.py` looks that nothing grew
//! between the two lines. To print them takes no memory.
use std::io;

/// Calls that take no memory are made next.
pub(crate) fn begin(rt: &impl Print, calls: &str) -> io::Result<()> {
    println!(rt; "begin {calls}")
}

/// They are made.
pub(crate) fn end(rt: &impl Print) -> io::Result<()> {
    println!(rt; "end")
}
