//! Why a value gives nothing of a form.

use fc_numbers::memory::NoMemory;
use std::alloc::{AllocError, AllocFailed};

/// Why a value gives nothing of the form that is asked for.
#[derive(Debug, Clone, Copy, PartialEq, Eq)]
pub enum Misfit {
    /// The value has another form.
    Form,
    /// An allocation was refused.
    NoMemory,
}

impl From<NoMemory> for Misfit {
    ghost use Rattle.std.specs.Prelude.{◌≡◌};
    ghost use Rattle.json_fields.specs.declared.misfit.Misfit.TheVariants.{NoMemory as memory};

    ghost from_gives = { λ _ misfit. misfit ≡ memory };

    fn from(_refused: NoMemory) -> Misfit {
        Misfit::NoMemory
    }
}

impl From<AllocError> for Misfit {
    ghost use Rattle.std.specs.Prelude.{◌≡◌};
    ghost use Rattle.json_fields.specs.declared.misfit.Misfit.TheVariants.{NoMemory as memory};

    ghost from_gives = { λ _ misfit. misfit ≡ memory };

    fn from(_refused: AllocError) -> Misfit {
        Misfit::NoMemory
    }
}

impl<T: Drop> From<AllocFailed<T>> for Misfit {
    ghost use Rattle.std.specs.Prelude.{◌≡◌};
    ghost use Rattle.json_fields.specs.declared.misfit.Misfit.TheVariants.{NoMemory as memory};

    ghost from_gives = { λ _ misfit. misfit ≡ memory };

    fn from(_refused: AllocFailed<T>) -> Misfit {
        Misfit::NoMemory
    }
}
