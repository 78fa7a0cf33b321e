//! The kinds of parts of an AWSTAPE file.
ghost use Rattle.std.specs.Prelude.{◌≡◌, IfSome};
ghost use Rattle.s360_model.specs.Tables.{entry_in};
ghost use Rattle.s360_tape.specs.Parts.{part_flags, flags_of, goes_inside};

/// What a part of a file is of a tape.
#[derive(Clone, Copy, PartialEq, Eq)]
pub(crate) enum PartKind {
    /// A whole block.
    Whole,
    /// The first part of a block.
    First,
    /// A part of a block that is neither its first nor its last.
    Middle,
    /// The last part of a block.
    Last,
    /// A mark.
    Mark,
}

impl PartKind {
    /// The kind of a part's flags, if there is one.
    pub(crate) fn new(flags: u8) -> Option<PartKind>
        ensures kind { result ≡ entry_in part_flags flags }
        ensures flags { IfSome result (λ kind. flags ≡ flags_of kind) }
    {
        match flags {
            0xA0 => Some(PartKind::Whole),
            0x80 => Some(PartKind::First),
            0x00 => Some(PartKind::Middle),
            0x20 => Some(PartKind::Last),
            0x40 => Some(PartKind::Mark),
            _ => None,
        }
    }

    /// Whether its place is inside a block.
    pub(crate) fn goes_inside(self) -> bool
        ensures { result ≡ goes_inside self }
    {
        matches!(self, PartKind::Middle | PartKind::Last)
    }
}
