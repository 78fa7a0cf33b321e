//! What a command or the operator does to the reader's media.
use crate::card::ReadStacker;
use crate::motion::Motion;

/// What is exchanged with the media of a reader.
#[derive(Clone, Copy)]
pub struct ReaderChange {
    /// Whether the end-of-file key was pressed.
    pub(crate) end_of_file: bool,
    /// The next card is fed to a stacker, or the last one taken back from there.
    pub(crate) motion: Motion<ReadStacker>,
}
