//! Why a call that is well written cannot be played where it stands.
ghost use Rattle.std.specs.Prelude.{◌≡◌};
ghost use Rattle.player.specs.declared.trouble.Trouble.TheVariants.{Memory};

use std::alloc::{AllocError, AllocFailed};
use thiserror::Error;

/// Why a call cannot be played, in the words of standard error (docs/JOURNAL.md, "Malformed
/// lines").
#[derive(Clone, Copy, PartialEq, Eq, Debug, Error)]
pub enum Trouble {
    #[error("no memory left")]
    Memory,
    #[error("the first call of a journal is `ledger DAY`")]
    LedgerFirst,
    #[error("a journal has one `ledger` call, its first")]
    LedgerAgain,
    #[error("`sheet` comes once, and before the first `point`")]
    SheetLate,
    #[error("a point sheet of more than 65536 places")]
    TooManyPlaces,
    #[error("a profile of that name is there already")]
    NameTaken,
    #[error("no profile of that name")]
    NoProfile,
    #[error("a pile has at most two season layers")]
    PileTooHigh,
}

impl From<AllocError> for Trouble {
    ghost from_gives = { λ _ t. t ≡ Memory };

    fn from(_e: AllocError) -> Trouble {
        Trouble::Memory
    }
}

impl<T: Drop> From<AllocFailed<T>> for Trouble {
    ghost from_gives = { λ _ t. t ≡ Memory };

    fn from(_e: AllocFailed<T>) -> Trouble {
        Trouble::Memory
    }
}
