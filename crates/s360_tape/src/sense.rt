//! Sense bytes that tapes alone set. Source: GA22-6866, "2400-Series Magnetic Tape Units".

/// Command reject, since the tape is protected against writing.
pub const WRITE_PROTECTED: [u8; 6] = [0x80, 0x02, 0, 0, 0, 0];

/// Nothing but that the tape is at its load point, from which it does not go backward.
pub const AT_LOAD_POINT: [u8; 6] = [0x00, 0x08, 0, 0, 0, 0];
