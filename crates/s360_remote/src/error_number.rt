//! The numbers of errors, as the C library of a Unix has them. gdb shows the number alone.
ghost use Rattle.std.specs.Prelude.{◌≡◌};
ghost use Rattle.s360_remote.specs.ErrorNumbers.{error_of, error_of_refusal};
ghost use Rattle.s360_remote.specs.declared.error_number.ErrorNumber.TheVariants.{Memory};

use s360_machine::Refusal;
use s360_packet::Answer;
use std::alloc::AllocError;

/// Why a request failed.
#[derive(Clone, Copy, PartialEq, Eq)]
pub enum ErrorNumber {
    /// ESRCH: there is no such thread.
    NoThread,
    /// ENOMEM: a growth was refused.
    Memory,
    /// EFAULT: an address is outside storage.
    Address,
    /// EINVAL: the request is malformed.
    Malformed,
    /// ENOSPC: no more fits.
    Full,
}

impl ErrorNumber {
    /// What tells it.
    pub(crate) fn answer(self) -> Answer<'static>
        ensures { result ≡ error_of self }
    {
        Answer::Error(match self {
            ErrorNumber::NoThread => 3,
            ErrorNumber::Memory => 12,
            ErrorNumber::Address => 14,
            ErrorNumber::Malformed => 22,
            ErrorNumber::Full => 28,
        })
    }
}

impl From<AllocError> for ErrorNumber {
    ghost from_gives = { λ _ e. e ≡ Memory };

    fn from(_e: AllocError) -> ErrorNumber {
        ErrorNumber::Memory
    }
}

impl From<Refusal> for ErrorNumber {
    ghost from_gives = { λ refusal e. e ≡ error_of_refusal refusal };

    fn from(refusal: Refusal) -> ErrorNumber {
        match refusal {
            Refusal::Memory => ErrorNumber::Memory,
            Refusal::OutsideStorage => ErrorNumber::Address,
            Refusal::JournalFull => ErrorNumber::Full,
            Refusal::NoSuchUnit | Refusal::LineTooLong | Refusal::PatchTooLong => {
                ErrorNumber::Malformed
            }
        }
    }
}
