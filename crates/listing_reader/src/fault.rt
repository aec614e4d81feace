//! Why bytes are no listing.

use std::alloc::{AllocError, AllocFailed};

/// Why bytes are no listing. Lines are counted from 0 on.
#[derive(Debug, Clone, Copy, PartialEq, Eq)]
pub enum ListFault {
    /// The line of this number has no form, and every line before it has one.
    NotListing(u32),
    /// With the line of this number there are more halfwords than text can have.
    TooMany(u32),
    /// An allocation was refused.
    NoMemory,
}

impl From<AllocError> for ListFault {
    ghost use Rattle.std.specs.Prelude.{◌≡◌};
    ghost use Rattle.listing_reader.specs.declared.fault.ListFault.TheVariants.{NoMemory as memory};

    ghost from_gives = { λ _ fault. fault ≡ memory };

    fn from(_refused: AllocError) -> ListFault {
        ListFault::NoMemory
    }
}

impl<T: Drop> From<AllocFailed<T>> for ListFault {
    ghost use Rattle.std.specs.Prelude.{◌≡◌};
    ghost use Rattle.listing_reader.specs.declared.fault.ListFault.TheVariants.{NoMemory as memory};

    ghost from_gives = { λ _ fault. fault ≡ memory };

    fn from(_refused: AllocFailed<T>) -> ListFault {
        ListFault::NoMemory
    }
}
