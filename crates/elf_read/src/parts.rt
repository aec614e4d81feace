//! What a file says of a kernel, and why a file is no kernel.

use fc_numbers::memory::NoMemory;
use guest_input::image::{Function, PartBytes};
use guest_input::ranges::Ranges;
use sqlite_items::Items;

/// The parts of a kernel.
#[derive(Drop)]
pub struct ElfParts {
    /// The place of the first instruction.
    pub entry: u64,
    /// Kernel text, each range padded with zero bytes to whole pages.
    pub ranges: Ranges,
    /// The data parts, each with its place, in the order in which they are placed.
    pub parts: Items<(u64, PartBytes)>,
    /// The functions, in order of their starts; one starts at the first byte of each range.
    pub functions: Items<Function>,
}

/// Why a file is no kernel. The names are printed, and their numbers are 1 to 12 in this order. An ELF file is refused
/// by any of them, the plain form by those from the fourth on.
#[derive(Debug, Clone, Copy, PartialEq, Eq)]
pub enum ElfFault {
    /// The file does not begin as an ELF file does.
    NotElf,
    /// The file is no executable of 64 bits for RISC-V, little endian, or its tables have entries of another size.
    WrongKind,
    /// The header, a table, the bytes of a segment, or the symbols or their names are not inside the file.
    Truncated,
    /// There is no code, or a piece of it is empty.
    NoText,
    /// There are more than four segments of code.
    TooManyTexts,
    /// Some code may be written.
    WritableText,
    /// A segment has more bytes in the file than in memory, lies outside the machine's largest RAM or in a page of
    /// another one's code, or code does not begin at a page.
    Misplaced,
    /// A function starts at an odd place.
    OddFunction,
    /// Text has more than 1,024 pages.
    TooLarge,
    /// There are more than 16,384 functions.
    TooManyFunctions,
    /// The first instruction is not at an even place of text.
    EntryOutside,
    /// An allocation was refused.
    NoMemory,
}

impl From<NoMemory> for ElfFault {
    ghost use Rattle.std.specs.Prelude.{◌≡◌};
    ghost use Rattle.elf_read.specs.declared.parts.ElfFault.TheVariants.{NoMemory as memory};

    ghost from_gives = { λ _ fault. fault ≡ memory };

    fn from(_refused: NoMemory) -> ElfFault {
        ElfFault::NoMemory
    }
}
