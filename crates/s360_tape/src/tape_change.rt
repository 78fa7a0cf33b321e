//! What a command does to a tape's media.
use crate::slot_change::SlotChange;

/// What is exchanged with the media of a tape.
#[derive(Clone)]
pub struct TapeChange {
    /// An item that is written, or taken back.
    pub(crate) slot: SlotChange,
    /// The number of items before the position.
    pub(crate) position: usize,
    /// The number of slots whose items can be seen.
    pub(crate) visible: usize,
    /// Whether the tape is unloaded.
    pub(crate) unloaded: bool,
}

impl Drop for TapeChange {
    fn drop(self) {
        let TapeChange {
            slot: _,
            position: _,
            visible: _,
            unloaded: _,
        } = self;
    }
}
