//! What an access to storage meets. Source: GA22-6821, "System Structure", protection feature.
ghost use Rattle.std.specs.Prelude.{◌≡◌};
ghost use Rattle.s360_store.specs.Protection.{met_of_both};

/// What an access does. Fetches are protected by an option alone.
#[derive(Clone, Copy, PartialEq, Eq)]
pub enum Access {
    /// Bytes are read.
    Fetch,
    /// Bytes are written.
    Store,
}

/// What an access to an operand meets.
#[derive(Clone, Copy, PartialEq, Eq)]
pub enum Checked {
    /// All bytes are inside, and their keys allow the access.
    Clear,
    /// A byte is outside the storage: program interruption code 5.
    Addressing,
    /// A byte's block has another key: program interruption code 4.
    Protection,
}

impl Checked {
    /// What two accesses meet: a byte outside the storage comes before a protected one.
    pub fn and(self, other: Checked) -> Checked
        ensures { result ≡ met_of_both self other }
    {
        match (self, other) {
            (Checked::Addressing, _) | (_, Checked::Addressing) => Checked::Addressing,
            (Checked::Protection, _) | (_, Checked::Protection) => Checked::Protection,
            (Checked::Clear, Checked::Clear) => Checked::Clear,
        }
    }
}
