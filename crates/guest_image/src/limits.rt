//! When a setup is accepted for an image.

ghost use Rattle.std.specs.Prelude.{◌≡◌, ◌≢◌, ◌≤◌, ◌<◌, ◌^◌, nat_le, length, map, IfOk, IfErr, IsTrue, Ok, Err};
ghost use Rattle.std.specs.List.{list_all};
ghost use Rattle.fc_numbers.specs.declared.places.TheConstants.{RAM_START};
ghost use Rattle.guest_input.specs.declared.limits.TheConstants.{EVENTS_MOST};
ghost use Rattle.guest_input.specs.Text.{AreRanges, bytes_of, spans_of};
ghost use Rattle.guest_image.specs.Limits.{is_ram_size, are_steps, only, starts_named, is_named, hook_at, out_of_order, ends_by, holds_image, accepted_setup};
ghost use Rattle.guest_image.specs.declared.setup.SetupFault.TheVariants as setup;

use crate::image::Field;
use crate::setup::{SetupFault, events_for};
use crate::setup_file::Asked;
use fc_numbers::memory::NoMemory;
use fc_numbers::places::{PAGE, RAM_MOST, RAM_START, Span};
use guest_input::image::{Function, Image, PartBytes, Start};
use guest_input::limits::{NAME_AT_MOST, STEPS_MOST, VCPUS_MOST};
use guest_input::setup::{Event, Setup};
use sqlite_items::Items;
use std::alloc::Global;

/// Whether RAM may have this size: whole pages, at least one, and no more than the machine's largest RAM.
fn is_ram_size(ram: u64) -> bool
    ensures { result ≡ is_ram_size ram }
{
    PAGE <= ram && ram <= RAM_MOST && ram % PAGE == 0
}

/// Whether each of the vCPUs may make so many steps.
fn are_steps(vcpus: u64, steps: u64) -> bool
    requires { 1 ≤ vcpus }
    ensures value { result ≡ are_steps vcpus steps }
    ensures small { IsTrue result → steps ≤ STEPS_MOST }
{
    match vcpus.checked_mul(steps) {
        Some(all) => 1 <= steps && all <= STEPS_MOST,
        None => false,
    }
}

fn is_named(name: &[u8], function: &Function) -> bool
    ensures { result ≡ is_named name.now function.now }
{
    function.name.as_slice() == name
}

/// The starts of the functions of this name.
fn starts_named(alloc: Global, name: &[u8], functions: &[Function]) -> Result<Vec<Start>, NoMemory>
    ensures { IfOk result (λ starts. starts.items ≡ starts_named name.now functions.now) }
{
    let starts = functions
        .iter()
        .filter(|function| is_named(name, function))
        .map(|function| function.at)
        .collect(alloc)?;
    Ok(starts)
}

/// The start of the one function that has the hook's name.
fn hook_at(
    alloc: Global,
    hook: &Option<Items<u8>>,
    functions: &[Function],
) -> Result<Option<Start>, SetupFault>
    ensures ok { IfOk result (λ start. hook_at hook.now functions.now ≡ Ok start) }
    ensures err { IfErr result (λ fault. fault ≢ setup.NoMemory → hook_at hook.now functions.now ≡ Err fault) }
{
    let Some(name) = hook else {
        return Ok(None);
    };
    let starts = starts_named(alloc, name.as_slice(), functions)?;
    match starts.as_slice() {
        [start] => Ok(Some(*start)),
        _ => Err(SetupFault::NoHook),
    }
}

/// The number of the first event that is due before the one before it.
fn out_of_order(events: &[Event]) -> Option<u32>
    requires { length events.now ≤ EVENTS_MOST }
    ensures { result ≡ out_of_order 0 0 events.now }
{
    let mut low = 0;
    for k in 0..events.len() {
        if events[k].at < low {
            return Some(k as u32);
        }
        low = events[k].at;
    }
    None
}

fn ends_by(end: u64, place: u64, size: u64) -> bool
    ensures { result ≡ ends_by end place size }
{
    place <= end && size <= end - place
}

fn parts_end_by(end: u64, parts: &[(u64, PartBytes)]) -> bool
    ensures { result ≡ list_all (λ part. ends_by end part.0 (length part.1)) parts.now }
{
    parts.iter().all(|part| ends_by(end, part.0, part.1.len()))
}

fn ranges_end_by(end: u64, ranges: &[Span]) -> bool
    ensures { result ≡ list_all (λ s. nat_le s.end end) ranges.now }
{
    ranges.iter().all(|range| range.end.0 <= end)
}

/// Whether text and data parts end within RAM of this size.
fn holds_image(ram: u64, image: &Image) -> bool
    requires { ram ≤ RAM_MOST }
    ensures value { result ≡ holds_image ram image.now }
    ensures lawful { AreRanges (spans_of image.now.ranges) (bytes_of image.now.ranges) }
{
    let end = RAM_START + ram;
    ranges_end_by(end, image.ranges.spans()) && parts_end_by(end, image.parts.as_slice())
}

/// The setup that is asked for, or the first fault.
#[tactic(auto, unfolding(crate::specs::Limits::accepted_setup))]
pub(crate) fn accept_setup(alloc: Global, image: &Image, asked: Asked) -> Result<Setup, SetupFault>
    ensures ok { IfOk result (λ accepted. accepted_setup image.now asked ≡ Ok accepted) }
    ensures err { IfErr result (λ fault. fault ≢ setup.NoMemory → accepted_setup image.now asked ≡ Err fault) }
    ensures lawful { IfOk result (λ _. AreRanges (spans_of image.now.ranges) (bytes_of image.now.ranges)) }
{
    if asked.vcpus < 1 || asked.vcpus > VCPUS_MOST {
        return Err(SetupFault::Limit(Field::Vcpus));
    }
    if !is_ram_size(asked.ram) {
        return Err(SetupFault::Limit(Field::Ram));
    }
    if !are_steps(asked.vcpus, asked.steps) {
        return Err(SetupFault::Limit(Field::Steps));
    }
    if asked.name_at > NAME_AT_MOST {
        return Err(SetupFault::Limit(Field::NameAt));
    }
    let Some(events) = events_for(alloc, asked.vcpus, asked.events.as_slice())? else {
        return Err(SetupFault::Limit(Field::Events));
    };
    let hook = hook_at(alloc, &asked.hook, image.functions.as_slice())?;
    if let Some(k) = out_of_order(events.as_slice()) {
        return Err(SetupFault::EventOrder(k));
    }
    if !holds_image(asked.ram, image) {
        return Err(SetupFault::ImageOutsideRam);
    }
    Ok(Setup {
        vcpus: asked.vcpus as u8,
        ram: asked.ram,
        steps: asked.steps as u32,
        hook,
        name_at: asked.name_at,
        start: asked.start,
        events,
        gstage: asked.gstage,
    })
}
