//! Images and setups, made from text and functions.

ghost use Rattle.std.specs.Prelude.{◌≡◌, ◌≤◌, ◌<◌, ◌+◌, ◌*◌, ◌%◌, ◌++◌, [], ◌∷◌, length, codes, vec_len, true, Some, IfOk, OnOk};
ghost use Rattle.fc_numbers.specs.declared.spans.TheConstants.{TEXT_MOST};
ghost use Rattle.fc_numbers.specs.Names.{is_app_name};
ghost use Rattle.guest_maker.specs.Guest.{image_of_guest, names_at, task_names, guest_setup, hostile_setup};

use crate::programs::{BOOT, TRAP};
use crate::text::WORD;
use elf_read::parts::ElfParts;
use fc_numbers::machine::GKind;
use fc_numbers::memory::NoMemory;
use fc_numbers::name::Name;
use fc_numbers::places::{Gpa, RAM_START, Span};
use fc_numbers::shared::SharedBytes;
use fc_numbers::spans::Spans;
use guest_image::image_file::with_digest;
use guest_input::image::{Function, Image, PartBytes, Start};
use guest_input::ranges::Ranges;
use guest_input::setup::Setup;
use sqlite_items::Items;
use std::alloc::Global;

/// Where the tasks of the first vCPU lie.
const FIRST_TASKS: u64 = 0x8010_0000;

/// Where the tasks of the second vCPU lie.
const LAST_TASKS: u64 = 0x8014_0000;

/// The bytes from a task to its name.
const NAME_AT: u64 = 24;

/// The bytes from the first task of a vCPU to its second.
const TASK: u64 = 64;

/// The offset of `switch_to`, behind `boot` and `trap`.
const SWITCH_AT: u32 = WORD * (BOOT.len() + TRAP.len()) as u32;

/// The image of one range of text, which begins where RAM does and holds the first instruction at its start.
pub(crate) fn image_of(
    text: Vec<u8>,
    parts: Items<(u64, PartBytes)>,
    functions: Items<Function>,
) -> Result<Image, NoMemory>
    requires some { 0 < vec_len text }
    requires whole { vec_len text % 4096 ≡ 0 }
    requires most { vec_len text ≤ TEXT_MOST }
    ensures { IfOk result (λ image. image ≡ image_of_guest text.items parts functions) }
{
    let mut spans = Spans::new();
    spans.push(Span {
        start: Gpa(RAM_START),
        end: Gpa(RAM_START + text.len() as u64),
    });
    let bytes = SharedBytes::from_vec(text)?;
    Ok(with_digest(ElfParts {
        entry: RAM_START,
        ranges: Ranges::of(spans, bytes),
        parts,
        functions,
    }))
}

/// Appends a data part of these bytes.
fn push_part(
    alloc: Global,
    parts: &mut Items<(u64, PartBytes)>,
    place: u64,
    bytes: &[u8],
) -> Result<(), NoMemory>
    requires { length bytes.now ≤ 16 }
    ensures { OnOk result (parts.new ≡ parts.old ++ (place, bytes.now) ∷ []) }
{
    let part = PartBytes::of(Items::from_slice(alloc, bytes)?, 0);
    parts.push((place, part))?;
    Ok(())
}

/// Appends the names of the two tasks of a vCPU.
fn push_names(
    alloc: Global,
    parts: &mut Items<(u64, PartBytes)>,
    tasks: u64,
) -> Result<(), NoMemory>
    requires { tasks ≤ LAST_TASKS }
    ensures { OnOk result (parts.new ≡ parts.old ++ names_at tasks) }
{
    push_part(alloc, parts, tasks + NAME_AT, b"red\0")?;
    push_part(alloc, parts, tasks + TASK + NAME_AT, b"blue\0")
}

/// The names of the tasks of both vCPUs, as data parts.
pub(crate) fn task_names(alloc: Global) -> Result<Items<(u64, PartBytes)>, NoMemory>
    ensures { IfOk result (λ parts. parts ≡ task_names) }
{
    let mut parts = Items::new(alloc);
    push_names(alloc, &mut parts, FIRST_TASKS)?;
    push_names(alloc, &mut parts, LAST_TASKS)?;
    Ok(parts)
}

/// A name that is one.
fn name(bytes: &[u8]) -> Name
    requires { is_app_name bytes.now ≡ true }
    ensures { result ≡ bytes.now }
{
    let Some(name) = Name::of(bytes) else {
        unreachable!()
    };
    name
}

/// The setup of the guest of a number.
pub(crate) fn guest_setup(alloc: Global) -> Setup
    ensures { result ≡ guest_setup }
{
    Setup {
        vcpus: 2,
        ram: 0x20_0000,
        steps: 8000,
        hook: Some(Start {
            range: 0,
            offset: SWITCH_AT,
        }),
        name_at: NAME_AT,
        start: Some(name(b"red")),
        events: Items::new(alloc),
        gstage: GKind::Sv39x4,
    }
}

/// The setup of a hostile guest.
pub(crate) fn hostile_setup(alloc: Global) -> Setup
    ensures { result ≡ hostile_setup }
{
    Setup {
        vcpus: 3,
        ram: 0x1_0000,
        steps: 500,
        hook: None,
        name_at: 0,
        start: Some(name(b"sh")),
        events: Items::new(alloc),
        gstage: GKind::Sv39x4,
    }
}
