//! What a command does to the printer's media.
use crate::carriage::Position;
use crate::paper::Record;
use s360_device::Motion;

/// What is exchanged with the media of a printer.
#[derive(Clone)]
pub struct PrinterChange {
    /// A line that is printed, or taken back.
    pub(crate) motion: Motion<Record>,
    /// Where the carriage stands.
    pub(crate) position: Position,
}

impl Drop for PrinterChange {
    fn drop(self) {
        let PrinterChange {
            motion: _,
            position: _,
        } = self;
    }
}
