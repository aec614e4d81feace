//! Why a file is no image.

use elf_read::parts::ElfFault;
use fc_numbers::memory::NoMemory;

/// A key of an image or a setup, or `other` for a further one.
#[derive(Debug, Clone, Copy, PartialEq, Eq)]
pub enum Field {
    Code,
    Base,
    Entry,
    Text,
    Data,
    Functions,
    Vcpus,
    Ram,
    Steps,
    Hook,
    NameAt,
    Start,
    Events,
    Gstage,
    Other,
}

/// Why a file is no image.
#[derive(Debug, Clone, Copy, PartialEq, Eq)]
pub enum ImageFault {
    /// A fault of an ELF file, or of the kernel that a file of either form lays out (1 to 12).
    Elf(ElfFault),
    /// The file is not one JSON value (20).
    NotJson,
    /// The first key that is missing, too much or of another form (21).
    Shape(Field),
}

impl From<NoMemory> for ImageFault {
    ghost use Rattle.std.specs.Prelude.{◌≡◌};
    ghost use Rattle.guest_image.specs.declared.image.ImageFault.TheVariants.{Elf};
    ghost use Rattle.elf_read.specs.declared.parts.ElfFault.TheVariants as elf;

    ghost from_gives = { λ _ fault. fault ≡ Elf elf.NoMemory };

    fn from(_refused: NoMemory) -> ImageFault {
        ImageFault::Elf(ElfFault::NoMemory)
    }
}
