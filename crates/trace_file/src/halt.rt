//! Why the reading of a part stops.

use crate::fault::TraceFault;
use std::alloc::{AllocError, AllocFailed};

/// Why the reading of a part stops.
#[derive(Debug, Clone, Copy, PartialEq, Eq)]
pub(crate) enum Halt {
    /// An allocation was refused.
    Memory,
    /// The bytes end before the part does.
    Short,
    /// The part has a fault of its own.
    Fault(TraceFault),
}

impl From<AllocError> for Halt {
    ghost use Rattle.std.specs.Prelude.{◌≡◌};
    ghost use Rattle.trace_file.specs.declared.halt.Halt.TheVariants.{Memory};

    ghost from_gives = { λ _ halt. halt ≡ Memory };

    fn from(_refused: AllocError) -> Halt {
        Halt::Memory
    }
}

impl<T: Drop> From<AllocFailed<T>> for Halt {
    ghost use Rattle.std.specs.Prelude.{◌≡◌};
    ghost use Rattle.trace_file.specs.declared.halt.Halt.TheVariants.{Memory};

    ghost from_gives = { λ _ halt. halt ≡ Memory };

    fn from(_refused: AllocFailed<T>) -> Halt {
        Halt::Memory
    }
}
