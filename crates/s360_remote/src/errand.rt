//! What is left to do once a byte of gdb was taken.
use s360_saving::FileToWrite;

/// What is to be done beside sending what was answered.
#[derive(Drop)]
pub enum Errand {
    /// Nothing.
    Nothing,
    /// It is to be told that a write dropped so many recorded changes, at least one, which its answer cannot tell.
    TellDropped(u32),
    /// A file is to be written, and then it is to be answered how that ended (`push_written`).
    Write(FileToWrite),
}
