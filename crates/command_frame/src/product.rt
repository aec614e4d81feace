//! What a command makes, or why it makes nothing.

use crate::answer::Ended;
use crate::fault::Fault;
use fc_numbers::memory::NoMemory;
use sqlite_items::Items;
use std::alloc::AllocError;

/// One output file.
#[derive(Drop)]
pub struct Written {
    /// The place of the file's name in the words, counted from 0.
    pub word: usize,
    /// All that the file is to hold.
    pub bytes: Items<u8>,
}

/// What a command makes.
#[derive(Drop)]
pub struct Product {
    /// Its output files, in the order in which they are written.
    pub files: Items<Written>,
    /// What goes to standard output, after the files.
    pub out: Items<u8>,
    /// How the command ended.
    pub ended: Ended,
}

/// Why a command makes nothing.
#[derive(Debug, Clone, Copy, PartialEq, Eq)]
pub enum Refusal {
    /// An input file, or what is made of them, is refused.
    Fault(Fault),
    /// The store could not read the file that the word at this place names.
    Unread(usize),
    /// An allocation was refused.
    NoMemory,
}

impl From<NoMemory> for Refusal {
    ghost use Rattle.std.specs.Prelude.{◌≡◌};
    ghost use Rattle.command_frame.specs.declared.product.Refusal.TheVariants.{NoMemory as memory};

    ghost from_gives = { λ _ refusal. refusal ≡ memory };

    fn from(_refused: NoMemory) -> Refusal {
        Refusal::NoMemory
    }
}

impl From<AllocError> for Refusal {
    ghost use Rattle.std.specs.Prelude.{◌≡◌};
    ghost use Rattle.command_frame.specs.declared.product.Refusal.TheVariants.{NoMemory as memory};

    ghost from_gives = { λ _ refusal. refusal ≡ memory };

    fn from(_refused: AllocError) -> Refusal {
        Refusal::NoMemory
    }
}
