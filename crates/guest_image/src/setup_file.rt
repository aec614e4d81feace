//! From the bytes of a file to the setup of a run.

ghost use Rattle.std.specs.Prelude.{◌≡◌, ◌≢◌, [], codes, map, Some, None, IfOk, IfErr, Ok, Err};
ghost use Rattle.serde_json.specs.View.{view};
ghost use Rattle.json_fields.specs.Fields.{whole_of};
ghost use Rattle.json_fields.specs.Members.{member_as, member_or};
ghost use Rattle.guest_image.specs.Asked.{hook_of, asked_start, what_of, event_of, events_of, is_setup_known, asked_of, asked_app_name, kind_named, asked_kind};
ghost use Rattle.guest_image.specs.Limits.{setup_of};
ghost use Rattle.guest_input.specs.Accepted.{IsSetupFor};
ghost use Rattle.guest_input.specs.Text.{AreRanges, bytes_of, spans_of};
ghost use Rattle.fc_numbers.specs.declared.machine.GKind.TheVariants.{Sv39x4};
ghost use Rattle.json_fields.specs.declared.misfit.Misfit.TheVariants.{Form};
ghost use Rattle.guest_image.specs.declared.setup.SetupFault.TheVariants as setup;

use crate::image::Field;
use crate::limits::accept_setup;
use crate::plain::whole_member;
use crate::setup::SetupFault;
use fc_numbers::machine::GKind;
use fc_numbers::memory::NoMemory;
use fc_numbers::name::Name;
use guest_input::image::Image;
use guest_input::setup::Setup;
use json_fields::fields::{array, has_only, is_null, is_object, member, text, triple, whole};
use json_fields::misfit::Misfit;
use json_fields::parse::{Unread, parse};
use serde_json::Value;
use sqlite_items::Items;
use std::alloc::Global;

/// What an event asks for, before it is known that the vCPU is there.
#[derive(Debug, Clone, Copy, PartialEq, Eq)]
pub(crate) enum AskedWhat {
    Key(u8),
    Raise(u64),
    Drop(u64),
}

/// An event as it is asked for.
#[derive(Debug, Clone, Copy, PartialEq, Eq)]
pub(crate) struct AskedEvent {
    pub at: u64,
    pub what: AskedWhat,
}

/// What a setup file says, before its limits are tested.
#[derive(Drop)]
pub(crate) struct Asked {
    pub vcpus: u64,
    pub ram: u64,
    pub steps: u64,
    pub hook: Option<Items<u8>>,
    pub name_at: u64,
    pub start: Option<Name>,
    pub events: Items<AskedEvent>,
    pub gstage: GKind,
}

/// The number at the key, or 0 where there is none.
fn whole_or_zero(value: &Value, key: &str) -> Option<u64>
    ensures { result ≡ member_or whole_of 0 key.now (view value.now) }
{
    match member(value, key) {
        Some(found) => whole(found),
        None => Some(0),
    }
}

/// The name of the hook function: null or a text.
#[tactic(auto, unfolding(crate::specs::Asked::hook_of))]
fn read_hook(alloc: Global, value: &Value) -> Result<Option<Items<u8>>, Misfit>
    ensures ok { IfOk result (λ hook. hook_of (view value.now) ≡ Some hook) }
    ensures err { IfErr result (λ misfit. misfit ≡ Form → hook_of (view value.now) ≡ None) }
{
    if is_null(value) {
        return Ok(None);
    }
    let name = text(value).ok_or(Misfit::Form)?;
    Ok(Some(Items::from_slice(alloc, name.as_bytes())?))
}

fn hook_member(alloc: Global, value: &Value) -> Result<Option<Items<u8>>, Misfit>
    ensures ok { IfOk result (λ hook. member_or hook_of None (codes "hook") (view value.now) ≡ Some hook) }
    ensures err { IfErr result (λ misfit. misfit ≡ Form → member_or hook_of None (codes "hook") (view value.now) ≡ None) }
{
    match member(value, "hook") {
        Some(found) => read_hook(alloc, found),
        None => Ok(None),
    }
}

/// The app name that a text is.
#[tactic(auto, unfolding(crate::specs::Asked::asked_app_name))]
fn read_app_name(value: &Value) -> Option<Name>
    ensures { result ≡ asked_app_name (view value.now) }
{
    match text(value) {
        Some(name) => Name::of(name.as_bytes()),
        None => None,
    }
}

/// The first app name: null or a text that is an app name.
#[tactic(auto, unfolding(crate::specs::Asked::asked_start))]
fn read_start(value: &Value) -> Option<Option<Name>>
    ensures { result ≡ asked_start (view value.now) }
{
    if is_null(value) {
        return Some(None);
    }
    match read_app_name(value) {
        Some(name) => Some(Some(name)),
        None => None,
    }
}

fn start_member(value: &Value) -> Option<Option<Name>>
    ensures { result ≡ member_or asked_start None (codes "start") (view value.now) }
{
    match member(value, "start") {
        Some(found) => read_start(found),
        None => Some(None),
    }
}

/// What the word and the number of an event mean.
#[tactic(auto, unfolding(crate::specs::Asked::what_of))]
fn what(word: &str, number: u64) -> Option<AskedWhat>
    ensures { result ≡ what_of word.now number }
{
    if word == "key" {
        if number < 256 {
            Some(AskedWhat::Key(number as u8))
        } else {
            None
        }
    } else if word == "raise" {
        Some(AskedWhat::Raise(number))
    } else if word == "drop" {
        Some(AskedWhat::Drop(number))
    } else {
        None
    }
}

/// One event: its clock, its word and its number.
#[tactic(auto, unfolding(crate::specs::Asked::event_of))]
fn read_event(value: &Value) -> Option<AskedEvent>
    ensures { result ≡ event_of (view value.now) }
{
    let (at, word, number) = triple(value)?;
    let at = whole(at)?;
    let word = text(word)?;
    let number = whole(number)?;
    let what = what(word, number)?;
    Some(AskedEvent { at, what })
}

/// The events of the file.
#[tactic(auto, unfolding(crate::specs::Asked::events_of))]
fn read_events(alloc: Global, value: &Value) -> Result<Items<AskedEvent>, Misfit>
    ensures ok { IfOk result (λ events. events_of (view value.now) ≡ Some events) }
    ensures err { IfErr result (λ misfit. misfit ≡ Form → events_of (view value.now) ≡ None) }
{
    let items = array(value).ok_or(Misfit::Form)?;
    let mut events = Items::new(alloc);
    for item in items {
        let event = read_event(item).ok_or(Misfit::Form)?;
        events.push(event)?;
    }
    Ok(events)
}

fn events_member(alloc: Global, value: &Value) -> Result<Items<AskedEvent>, Misfit>
    ensures ok { IfOk result (λ events. member_or events_of [] (codes "events") (view value.now) ≡ Some events) }
    ensures err { IfErr result (λ misfit. misfit ≡ Form → member_or events_of [] (codes "events") (view value.now) ≡ None) }
{
    match member(value, "events") {
        Some(found) => read_events(alloc, found),
        None => Ok(Items::new(alloc)),
    }
}

/// The kind of second-stage tables of this name.
fn kind_named(name: &str) -> Option<GKind>
    ensures { result ≡ kind_named name.now }
{
    if name == "sv39x4" {
        Some(GKind::Sv39x4)
    } else if name == "sv48x4" {
        Some(GKind::Sv48x4)
    } else {
        None
    }
}

#[tactic(auto, unfolding(crate::specs::Asked::asked_kind))]
fn read_kind(value: &Value) -> Option<GKind>
    ensures { result ≡ asked_kind (view value.now) }
{
    match text(value) {
        Some(name) => kind_named(name),
        None => None,
    }
}

fn kind_member(value: &Value) -> Option<GKind>
    ensures { result ≡ member_or asked_kind Sv39x4 (codes "gstage") (view value.now) }
{
    match member(value, "gstage") {
        Some(found) => read_kind(found),
        None => Some(GKind::Sv39x4),
    }
}

/// What the value at a key of the setup gives, or the fault of that key.
fn at_field<T>(field: Field, read: Result<T, Misfit>) -> Result<T, SetupFault>
    ensures ok { IfOk result (λ value. read ≡ Ok value) }
    ensures err { IfErr result (λ fault. fault ≢ setup.NoMemory → (read ≡ Err Form) × (fault ≡ setup.Shape field)) }
{
    match read {
        Ok(value) => Ok(value),
        Err(Misfit::Form) => Err(SetupFault::Shape(field)),
        Err(Misfit::NoMemory) => Err(SetupFault::NoMemory),
    }
}

/// Whether the value has no key but those of a setup.
#[tactic(auto, unfolding(crate::specs::Asked::is_setup_known))]
fn is_known(value: &Value) -> bool
    ensures { result ≡ is_setup_known (view value.now) }
{
    has_only(
        value,
        &[
            "vcpus", "ram", "steps", "hook", "name_at", "start", "events", "gstage",
        ],
    )
}

/// What the value says, or the first key that is missing or of another form.
#[tactic(auto, unfolding(crate::specs::Asked::asked_of))]
pub(crate) fn read_asked(alloc: Global, value: &Value) -> Result<Asked, SetupFault>
    ensures ok { IfOk result (λ asked. asked_of (view value.now) ≡ Ok asked) }
    ensures err { IfErr result (λ fault. fault ≢ setup.NoMemory → asked_of (view value.now) ≡ Err fault) }
{
    if !is_object(value) {
        return Err(SetupFault::Shape(Field::Other));
    }
    let vcpus = whole_member(value, "vcpus").ok_or(SetupFault::Shape(Field::Vcpus))?;
    let ram = whole_member(value, "ram").ok_or(SetupFault::Shape(Field::Ram))?;
    let steps = whole_member(value, "steps").ok_or(SetupFault::Shape(Field::Steps))?;
    let hook = at_field(Field::Hook, hook_member(alloc, value))?;
    let name_at = whole_or_zero(value, "name_at").ok_or(SetupFault::Shape(Field::NameAt))?;
    let start = start_member(value).ok_or(SetupFault::Shape(Field::Start))?;
    let events = at_field(Field::Events, events_member(alloc, value))?;
    let gstage = kind_member(value).ok_or(SetupFault::Shape(Field::Gstage))?;
    if !is_known(value) {
        return Err(SetupFault::Shape(Field::Other));
    }
    Ok(Asked {
        vcpus,
        ram,
        steps,
        hook,
        name_at,
        start,
        events,
        gstage,
    })
}

/// The setup that the bytes ask for, or the first fault.
#[tactic(auto, unfolding(crate::specs::Limits::setup_of))]
fn read_accepted(alloc: Global, bytes: &[u8], image: &Image) -> Result<Setup, SetupFault>
    ensures ok { IfOk result (λ accepted. setup_of image.now bytes.now ≡ Ok accepted) }
    ensures err { IfErr result (λ fault. fault ≢ setup.NoMemory → setup_of image.now bytes.now ≡ Err fault) }
    ensures lawful { IfOk result (λ _. AreRanges (spans_of image.now.ranges) (bytes_of image.now.ranges)) }
{
    let value = match parse(alloc, bytes) {
        Ok(value) => value,
        Err(Unread::NotJson) => return Err(SetupFault::NotJson),
        Err(Unread::NoMemory) => return Err(SetupFault::NoMemory),
    };
    let asked = read_asked(alloc, &value)?;
    accept_setup(alloc, image, asked)
}

/// The setup of a run for an image: one JSON object with `vcpus`, `ram` and `steps`, and optionally `hook`,
/// `name_at`, `start`, `events` (`[[clock,"key",byte],[clock,"raise",vcpu],[clock,"drop",vcpu],..]`) and `gstage`
/// (`"sv39x4"` or `"sv48x4"`).
///
/// An Err is the first fault of the file by its number, or want of memory.
pub fn read_setup(alloc: Global, bytes: &[u8], image: &Image) -> Result<Setup, SetupFault>
    ensures ok { IfOk result (λ accepted. setup_of image.now bytes.now ≡ Ok accepted) }
    ensures lawful { IfOk result (λ accepted. IsSetupFor image.now accepted) }
    ensures err { IfErr result (λ fault. fault ≢ setup.NoMemory → setup_of image.now bytes.now ≡ Err fault) }
{
    read_accepted(alloc, bytes, image)
}
