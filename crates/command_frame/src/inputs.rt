//! The files that a command takes. Each call reads a file and accepts it, or says why there is none.

ghost use Rattle.std.specs.Prelude.{◌≡◌, ◌≤◌, ℕ, List, Option, Some, Ok, Err, IfOk, map, string_bytes, length};
ghost use Rattle.fc_outside.specs.Outside.{Faults};
ghost use Rattle.guest_input.specs.Accepted.{IsImage, IsSetupFor};
ghost use Rattle.function_table.specs.Groups.{groups_of};
ghost use Rattle.view_file.specs.Fits.{IsViewsFor};
ghost use Rattle.command_frame.specs.Answers.{word_at};
ghost use Rattle.trace_file.specs.Trace.{told_of_trace};
ghost use Rattle.trace_file.specs.Lawful.{IsLawfulTrace};
ghost use Rattle.command_frame.specs.Files.{IsHeld, IsTooLong, GivesImage, RefusesImage, GivesSetup, RefusesSetup, GivesViews, RefusesViews, GivesFreeViews, RefusesFreeViews, GivesScript, RefusesScript, GivesTrace, RefusesTrace};
ghost use Rattle.command_frame.specs.Promise.{FileContents, held_by};
ghost use Rattle.command_frame.specs.Taken.{BytesSaid, Takes, CountsFault};

use crate::answer::word_at;
use crate::fault::{Fault, Kind};
use crate::product::Refusal;
use elf_read::parts::ElfFault;
use fc_numbers::places::VcpuNo;
use fc_outside::outside::{ReadNo, Store};
use function_table::table::Table;
use guest_image::image::ImageFault;
use guest_image::image_file::read_image;
use guest_image::setup::SetupFault;
use guest_image::setup_file::read_setup;
use guest_input::image::Image;
use guest_input::setup::Setup;
use std::alloc::Global;
use trace_file::fault::TraceFault;
use trace_file::reading::read_trace;
use trace_file::script::read_script;
use trace_file::trace::{Trace, VCPUS_MOST};
use view_file::fault::ViewFault;
use view_file::read::{parse_views, read_views};
use view_file::views::Views;

/// The most bytes of a file that is read: 192 MiB.
pub const FILE_MOST: usize = 201_326_592;

/// The bytes of the file that the word at this place names.
fn take_bytes<S: Store>(
    alloc: Global,
    store: &mut S,
    words: &[String],
    at: usize,
    kind: Kind,
) -> Result<Vec<u8>, Refusal>
    ensures within { IfOk result (λ bytes. length bytes.items ≤ FILE_MOST) }
    ensures said { (told_of_trace : FileContents) → S.files store.old ≡ Some told_of_trace → BytesSaid (held_by (map string_bytes words.now) told_of_trace at) kind at result }
    ensures counted { CountsFault (word_at (map string_bytes words.now) at) at (S.reads store.old) (S.reads store.new) result }
    ensures files { S.files store.new ≡ S.files store.old }
    ensures writes { S.writes store.new ≡ S.writes store.old }
{
    match store.read(alloc, word_at(words, at), FILE_MOST) {
        Ok(bytes) => Ok(bytes),
        Err(ReadNo::Failed) => Err(Refusal::Unread(at)),
        Err(ReadNo::TooLong) => Err(Refusal::Fault(Fault::TooLong(kind))),
        Err(ReadNo::NoMemory) => Err(Refusal::NoMemory),
    }
}

/// The image that the file gives which the word at this place names.
pub fn take_image<S: Store>(
    alloc: Global,
    store: &mut S,
    words: &[String],
    at: usize,
) -> Result<Image, Refusal>
    ensures lawful { IfOk result (λ image. IsImage image) }
    ensures said { (told_of_trace : FileContents) → S.files store.old ≡ Some told_of_trace
        → let held = held_by (map string_bytes words.now) told_of_trace at in Takes (GivesImage held) (RefusesImage held) at result }
    ensures counted { CountsFault (word_at (map string_bytes words.now) at) at (S.reads store.old) (S.reads store.new) result }
    ensures files { S.files store.new ≡ S.files store.old }
    ensures writes { S.writes store.new ≡ S.writes store.old }
{
    let bytes = take_bytes(alloc, store, words, at, Kind::Image)?;
    match read_image(alloc, &bytes) {
        Ok(image) => Ok(image),
        Err(ImageFault::Elf(ElfFault::NoMemory)) => Err(Refusal::NoMemory),
        Err(fault) => Err(Refusal::Fault(Fault::Image(fault))),
    }
}

/// The setup for the image that the file gives which the word at this place names.
pub fn take_setup<S: Store>(
    alloc: Global,
    store: &mut S,
    words: &[String],
    at: usize,
    image: &Image,
) -> Result<Setup, Refusal>
    ensures lawful { IfOk result (λ setup. IsSetupFor image.now setup) }
    ensures said { (told_of_trace : FileContents) → S.files store.old ≡ Some told_of_trace
        → let held = held_by (map string_bytes words.now) told_of_trace at in Takes (GivesSetup held image.now) (RefusesSetup held image.now) at result }
    ensures counted { CountsFault (word_at (map string_bytes words.now) at) at (S.reads store.old) (S.reads store.new) result }
    ensures files { S.files store.new ≡ S.files store.old }
    ensures writes { S.writes store.new ≡ S.writes store.old }
{
    let bytes = take_bytes(alloc, store, words, at, Kind::Setup)?;
    match read_setup(alloc, &bytes, image) {
        Ok(setup) => Ok(setup),
        Err(SetupFault::NoMemory) => Err(Refusal::NoMemory),
        Err(fault) => Err(Refusal::Fault(Fault::Setup(fault))),
    }
}

/// The views for the image that the file gives which the word at this place names.
pub fn take_views<S: Store>(
    alloc: Global,
    store: &mut S,
    words: &[String],
    at: usize,
    image: &Image,
    table: &Table,
) -> Result<Views, Refusal>
    requires table { table.now ≡ groups_of image.now }
    ensures lawful { IfOk result (λ views. IsViewsFor views image.now) }
    ensures said { (told_of_trace : FileContents) → S.files store.old ≡ Some told_of_trace
        → let held = held_by (map string_bytes words.now) told_of_trace at in Takes (GivesViews held image.now) (RefusesViews held image.now) at result }
    ensures counted { CountsFault (word_at (map string_bytes words.now) at) at (S.reads store.old) (S.reads store.new) result }
    ensures files { S.files store.new ≡ S.files store.old }
    ensures writes { S.writes store.new ≡ S.writes store.old }
{
    let bytes = take_bytes(alloc, store, words, at, Kind::Views)?;
    match read_views(alloc, &bytes, image, table) {
        Ok(views) => Ok(views),
        Err(ViewFault::NoMemory) => Err(Refusal::NoMemory),
        Err(fault) => Err(Refusal::Fault(Fault::Views(fault))),
    }
}

/// The views, for whatever image, that the file gives which the word at this place names.
pub fn take_free_views<S: Store>(
    alloc: Global,
    store: &mut S,
    words: &[String],
    at: usize,
) -> Result<Views, Refusal>
    ensures said { (told_of_trace : FileContents) → S.files store.old ≡ Some told_of_trace
        → let held = held_by (map string_bytes words.now) told_of_trace at in Takes (GivesFreeViews held) (RefusesFreeViews held) at result }
    ensures counted { CountsFault (word_at (map string_bytes words.now) at) at (S.reads store.old) (S.reads store.new) result }
    ensures files { S.files store.new ≡ S.files store.old }
    ensures writes { S.writes store.new ≡ S.writes store.old }
{
    let bytes = take_bytes(alloc, store, words, at, Kind::Views)?;
    match parse_views(alloc, &bytes) {
        Ok(views) => Ok(views),
        Err(ViewFault::NoMemory) => Err(Refusal::NoMemory),
        Err(fault) => Err(Refusal::Fault(Fault::Views(fault))),
    }
}

/// The script for so many vCPUs that the file gives which the word at this place names.
pub fn take_script<S: Store>(
    alloc: Global,
    store: &mut S,
    words: &[String],
    at: usize,
    vcpus: u8,
) -> Result<Vec<VcpuNo>, Refusal>
    requires some { 1 ≤ vcpus }
    requires most { vcpus ≤ VCPUS_MOST }
    ensures said { (told_of_trace : FileContents) → S.files store.old ≡ Some told_of_trace
        → let held = held_by (map string_bytes words.now) told_of_trace at in Takes (λ script. GivesScript held vcpus script.items) (RefusesScript held vcpus) at result }
    ensures counted { CountsFault (word_at (map string_bytes words.now) at) at (S.reads store.old) (S.reads store.new) result }
    ensures files { S.files store.new ≡ S.files store.old }
    ensures writes { S.writes store.new ≡ S.writes store.old }
{
    let bytes = take_bytes(alloc, store, words, at, Kind::Script)?;
    match read_script(alloc, &bytes, vcpus) {
        Ok(script) => Ok(script),
        Err(TraceFault::NoMemory) => Err(Refusal::NoMemory),
        Err(fault) => Err(Refusal::Fault(Fault::Script(fault))),
    }
}

/// The trace that the file gives which the word at this place names.
pub fn take_trace<S: Store>(
    alloc: Global,
    store: &mut S,
    words: &[String],
    at: usize,
) -> Result<Trace, Refusal>
    ensures lawful { IfOk result (λ trace. IsLawfulTrace (told_of_trace trace)) }
    ensures said { (files : FileContents) → S.files store.old ≡ Some files
        → let held = held_by (map string_bytes words.now) files at in Takes (λ trace. GivesTrace held (told_of_trace trace)) (RefusesTrace held) at result }
    ensures counted { CountsFault (word_at (map string_bytes words.now) at) at (S.reads store.old) (S.reads store.new) result }
    ensures files { S.files store.new ≡ S.files store.old }
    ensures writes { S.writes store.new ≡ S.writes store.old }
{
    let bytes = take_bytes(alloc, store, words, at, Kind::Trace)?;
    match read_trace(alloc, &bytes) {
        Ok(trace) => Ok(trace),
        Err(TraceFault::NoMemory) => Err(Refusal::NoMemory),
        Err(fault) => Err(Refusal::Fault(Fault::Trace(fault))),
    }
}
