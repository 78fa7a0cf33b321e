//! What the program has of its host beside the connection with gdb.
use std::alloc::Global;

/// Memory, files that it writes, and a stream for its notes.
#[derive(Drop)]
pub(crate) struct Host<F, N> {
    pub(crate) alloc: Global,
    pub(crate) files: F,
    pub(crate) notes: N,
}
