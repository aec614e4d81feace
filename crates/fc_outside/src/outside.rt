//! Stores of named files, and sinks for bytes.

ghost use Rattle.std.specs.Prelude.{◌≡◌, ℕ, ◌≤◌, List, Option, Some, length, IfOk, OnOk, OnErr};
ghost use Rattle.fc_outside.specs.Outside.{Files, Faults, ReadGives, CountsRead, CountsWrite, CountsPut, SameBut, holding, with_more, GrewByPart};

use std::alloc::{AllocError, Global};

/// Why a read gives no bytes.
#[derive(Debug, Clone, Copy, PartialEq, Eq)]
pub enum ReadNo {
    /// The store failed, or it has nothing under this name.
    Failed,
    /// There are more bytes than the limit.
    TooLong,
    /// An allocation was refused.
    NoMemory,
}

impl From<AllocError> for ReadNo {
    ghost use Rattle.std.specs.Prelude.{◌≡◌};
    ghost use Rattle.fc_outside.specs.declared.outside.ReadNo.TheVariants.{NoMemory};

    ghost from_gives = { λ _ e. e ≡ NoMemory };

    fn from(_refused: AllocError) -> ReadNo {
        ReadNo::NoMemory
    }
}

/// The store failed to write.
#[derive(Debug, Clone, Copy, PartialEq, Eq)]
pub struct WriteFailed;

/// The sink took less than it was given.
#[derive(Debug, Clone, Copy, PartialEq, Eq)]
pub struct PutFailed;

/// Files by name. A name is any text.
pub trait Store {
    /// What each name holds, where the store tells it.
    ghost files: { Self → Files };

    /// The faults of reads.
    ghost reads: { Self → Faults };

    /// The faults of writes.
    ghost writes: { Self → Faults };

    /// The bytes that the name holds, at most `limit`.
    fn read(&mut self, alloc: Global, name: &str, limit: usize) -> Result<Vec<u8>, ReadNo>
        ensures within { IfOk result (λ bytes. length bytes.items ≤ limit) }
        ensures told { (at : List ℕ → Option (List ℕ)) → files self.old ≡ Some at → ReadGives (at name.now) limit result }
        ensures counted { CountsRead name.now (reads self.old) (reads self.new) result }
        ensures files { files self.new ≡ files self.old }
        ensures writes { writes self.new ≡ writes self.old };

    /// Makes the name hold the bytes.
    fn write(&mut self, name: &str, bytes: &[u8]) -> Result<(), WriteFailed>
        ensures written { OnOk result (files self.new ≡ holding name.now bytes.now (files self.old)) }
        ensures others { OnErr result (SameBut name.now (files self.old) (files self.new)) }
        ensures counted { CountsWrite name.now (writes self.old) (writes self.new) result }
        ensures reads { reads self.new ≡ reads self.old };
}

/// A stream that takes bytes, one piece after another.
pub trait Sink {
    /// The bytes so far, where the sink tells them.
    ghost written: { Self → Option (List ℕ) };

    /// How many faults there were.
    ghost faults: { Self → ℕ };

    /// Takes the piece, or counts a fault.
    fn put(&mut self, bytes: &[u8]) -> Result<(), PutFailed>
        ensures taken { OnOk result (written self.new ≡ with_more bytes.now (written self.old)) }
        ensures part { OnErr result (GrewByPart bytes.now (written self.old) (written self.new)) }
        ensures counted { CountsPut (faults self.old) (faults self.new) result };
}
