//! The faults of images and setups as numbers, names and printed texts.

ghost use Rattle.std.specs.Prelude.{◌≡◌, ◌++◌, codes, decimal, string_bytes, IfOk};
ghost use Rattle.guest_image.specs.Faults.{field_name, elf_number, elf_name, image_number, image_name, image_detail, image_fault_text, setup_number, setup_name, setup_detail, setup_fault_text};

use crate::image::{Field, ImageFault};
use crate::setup::SetupFault;
use elf_read::parts::ElfFault;
use fc_numbers::memory::NoMemory;
use std::alloc::Global;

/// The name of the key, or `other`.
pub fn field_name(field: Field) -> &'static str
    ensures { result.now ≡ field_name field }
{
    match field {
        Field::Code => "code",
        Field::Base => "base",
        Field::Entry => "entry",
        Field::Text => "text",
        Field::Data => "data",
        Field::Functions => "functions",
        Field::Vcpus => "vcpus",
        Field::Ram => "ram",
        Field::Steps => "steps",
        Field::Hook => "hook",
        Field::NameAt => "name_at",
        Field::Start => "start",
        Field::Events => "events",
        Field::Gstage => "gstage",
        Field::Other => "other",
    }
}

/// The number of the fault.
pub fn elf_number(fault: ElfFault) -> u8
    ensures { result ≡ elf_number fault }
{
    match fault {
        ElfFault::NotElf => 1,
        ElfFault::WrongKind => 2,
        ElfFault::Truncated => 3,
        ElfFault::NoText => 4,
        ElfFault::TooManyTexts => 5,
        ElfFault::WritableText => 6,
        ElfFault::Misplaced => 7,
        ElfFault::OddFunction => 8,
        ElfFault::TooLarge => 9,
        ElfFault::TooManyFunctions => 10,
        ElfFault::EntryOutside => 11,
        ElfFault::NoMemory => 12,
    }
}

/// The name of the fault.
pub fn elf_name(fault: ElfFault) -> &'static str
    ensures { result.now ≡ elf_name fault }
{
    match fault {
        ElfFault::NotElf => "NotElf",
        ElfFault::WrongKind => "WrongKind",
        ElfFault::Truncated => "Truncated",
        ElfFault::NoText => "NoText",
        ElfFault::TooManyTexts => "TooManyTexts",
        ElfFault::WritableText => "WritableText",
        ElfFault::Misplaced => "Misplaced",
        ElfFault::OddFunction => "OddFunction",
        ElfFault::TooLarge => "TooLarge",
        ElfFault::TooManyFunctions => "TooManyFunctions",
        ElfFault::EntryOutside => "EntryOutside",
        ElfFault::NoMemory => "NoMemory",
    }
}

impl ImageFault {
    /// The number of the fault.
    pub fn number(self) -> u8
        ensures { result ≡ image_number self }
    {
        match self {
            ImageFault::Elf(fault) => elf_number(fault),
            ImageFault::NotJson => 20,
            ImageFault::Shape(_) => 21,
        }
    }

    /// The name of the fault.
    pub fn name(self) -> &'static str
        ensures { result.now ≡ image_name self }
    {
        match self {
            ImageFault::Elf(fault) => elf_name(fault),
            ImageFault::NotJson => "NotJson",
            ImageFault::Shape(_) => "Shape",
        }
    }

    /// `NUMBER NAME`, and the key after a space for a shape.
    #[tactic(auto, unfolding(crate::specs::Faults::image_fault_text))]
    pub fn text(self, alloc: Global) -> Result<String, NoMemory>
        ensures { IfOk result (λ text. string_bytes text ≡ image_fault_text self) }
    {
        let number = self.number();
        let name = self.name();
        match self {
            ImageFault::Shape(field) => {
                let field = field_name(field);
                Ok(format!(in alloc; "{number} {name} {field}")?)
            }
            _ => Ok(format!(in alloc; "{number} {name}")?),
        }
    }
}

impl SetupFault {
    /// The number of the fault.
    pub fn number(self) -> u8
        ensures { result ≡ setup_number self }
    {
        match self {
            SetupFault::NotJson => 1,
            SetupFault::Shape(_) => 2,
            SetupFault::Limit(_) => 3,
            SetupFault::NoHook => 4,
            SetupFault::EventOrder(_) => 5,
            SetupFault::ImageOutsideRam => 6,
            SetupFault::NoMemory => 7,
        }
    }

    /// The name of the fault.
    pub fn name(self) -> &'static str
        ensures { result.now ≡ setup_name self }
    {
        match self {
            SetupFault::NotJson => "NotJson",
            SetupFault::Shape(_) => "Shape",
            SetupFault::Limit(_) => "Limit",
            SetupFault::NoHook => "NoHook",
            SetupFault::EventOrder(_) => "EventOrder",
            SetupFault::ImageOutsideRam => "ImageOutsideRam",
            SetupFault::NoMemory => "NoMemory",
        }
    }

    /// `NUMBER NAME`, and after a space the key for a shape or a limit, or the number of the event.
    #[tactic(auto, unfolding(crate::specs::Faults::setup_fault_text))]
    pub fn text(self, alloc: Global) -> Result<String, NoMemory>
        ensures { IfOk result (λ text. string_bytes text ≡ setup_fault_text self) }
    {
        let number = self.number();
        let name = self.name();
        match self {
            SetupFault::Shape(field) | SetupFault::Limit(field) => {
                let field = field_name(field);
                Ok(format!(in alloc; "{number} {name} {field}")?)
            }
            SetupFault::EventOrder(k) => Ok(format!(in alloc; "{number} {name} {k}")?),
            _ => Ok(format!(in alloc; "{number} {name}")?),
        }
    }
}
