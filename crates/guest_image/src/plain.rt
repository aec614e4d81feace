//! The plain form of an image: one JSON object.

ghost use Rattle.std.specs.Prelude.{◌≡◌, ◌≢◌, IfOk, IfErr, OnOk, Ok, Err, [], ◌∷◌, ◌++◌, if◌then◌else◌, codes, length, map, option_map, Some, None, true, false};
ghost use Rattle.serde_json.specs.View.{view};
ghost use Rattle.json_fields.specs.Fields.{whole_of};
ghost use Rattle.elf_read.specs.Starts.{kept_name};
ghost use Rattle.json_fields.specs.Members.{member_as, member_or};
ghost use Rattle.guest_image.specs.Plain.{hex_of, plain_name, plain_segment, plain_named_place, segments_of, is_filled, plain_parts, plain_named_places, is_image_known, has_key, laid_with, coded_of, single_of, plain_of, segment_of_bytes};
ghost use Rattle.json_fields.specs.declared.misfit.Misfit.TheVariants.{Form};
ghost use Rattle.guest_image.specs.declared.image.ImageFault.TheVariants.{Elf, Shape};
ghost use Rattle.elf_read.specs.declared.parts.ElfFault.TheVariants as elf;

use crate::image::{Field, ImageFault};
use elf_read::laid::{Laid, NamedPlace, Segment};
use elf_read::parts::ElfFault;
use elf_read::starts::keep_name;
use fc_numbers::memory::NoMemory;
use fc_numbers::places::Gpa;
use hex::FromHexError;
use json_fields::fields::{array, has_only, is_object, member, pair, text, whole};
use json_fields::misfit::Misfit;
use serde_json::Value;
use sqlite_items::Items;
use std::alloc::Global;

/// The bytes of a text of hexadecimal digits.
#[tactic(auto, unfolding(crate::specs::Plain::hex_of))]
fn hex_bytes(alloc: Global, value: &Value) -> Result<Items<u8>, Misfit>
    ensures ok { IfOk result (λ bytes. hex_of (view value.now) ≡ Some bytes) }
    ensures err { IfErr result (λ misfit. misfit ≡ Form → hex_of (view value.now) ≡ None) }
{
    let digits = text(value).ok_or(Misfit::Form)?;
    match hex::decode(alloc, digits) {
        Ok(bytes) => Ok(Items::from_vec(bytes)),
        Err(FromHexError::OutOfMemory) => Err(Misfit::NoMemory),
        Err(_) => Err(Misfit::Form),
    }
}

/// The number at the key.
pub(crate) fn whole_member(value: &Value, key: &str) -> Option<u64>
    ensures { result ≡ member_as whole_of key.now (view value.now) }
{
    match member(value, key) {
        Some(found) => whole(found),
        None => None,
    }
}

/// The bytes that the hexadecimal text at the key stands for.
fn hex_member(alloc: Global, value: &Value, key: &str) -> Result<Items<u8>, Misfit>
    ensures ok { IfOk result (λ bytes. member_as hex_of key.now (view value.now) ≡ Some bytes) }
    ensures err { IfErr result (λ misfit. misfit ≡ Form → member_as hex_of key.now (view value.now) ≡ None) }
{
    let found = member(value, key).ok_or(Misfit::Form)?;
    hex_bytes(alloc, found)
}

/// The segment that an address and a hexadecimal text are.
#[tactic(auto, unfolding(crate::specs::Plain::plain_segment))]
fn read_segment(alloc: Global, value: &Value) -> Result<Segment, Misfit>
    ensures ok { IfOk result (λ segment. plain_segment (view value.now) ≡ Some segment) }
    ensures err { IfErr result (λ misfit. misfit ≡ Form → plain_segment (view value.now) ≡ None) }
{
    let (place, digits) = pair(value).ok_or(Misfit::Form)?;
    let place = whole(place).ok_or(Misfit::Form)?;
    let bytes = hex_bytes(alloc, digits)?;
    Ok(segment_at(place, bytes))
}

/// Bytes at a place, with no zeros behind them.
fn segment_at(place: u64, bytes: Items<u8>) -> Segment
    ensures { result ≡ segment_of_bytes place bytes }
{
    let size = bytes.len() as u64;
    Segment {
        place: Gpa(place),
        bytes,
        size,
    }
}

/// A name, as it is kept.
#[tactic(auto, unfolding(crate::specs::Plain::plain_name))]
fn name_bytes(alloc: Global, value: &Value) -> Result<Items<u8>, Misfit>
    ensures ok { IfOk result (λ name. plain_name (view value.now) ≡ Some name) }
    ensures err { IfErr result (λ misfit. misfit ≡ Form → plain_name (view value.now) ≡ None) }
{
    let name = text(value).ok_or(Misfit::Form)?;
    Ok(keep_name(alloc, name.as_bytes())?)
}

/// The place that an address and a name are.
#[tactic(auto, unfolding(crate::specs::Plain::plain_named_place))]
fn read_named(alloc: Global, value: &Value) -> Result<NamedPlace, Misfit>
    ensures ok { IfOk result (λ named. plain_named_place (view value.now) ≡ Some named) }
    ensures err { IfErr result (λ misfit. misfit ≡ Form → plain_named_place (view value.now) ≡ None) }
{
    let (place, name) = pair(value).ok_or(Misfit::Form)?;
    let place = whole(place).ok_or(Misfit::Form)?;
    let name = name_bytes(alloc, name)?;
    Ok(NamedPlace {
        place: Gpa(place),
        name,
    })
}

/// The segments that an array of them is.
#[tactic(auto, unfolding(crate::specs::Plain::segments_of))]
fn read_segments(alloc: Global, value: &Value) -> Result<Vec<Segment>, Misfit>
    ensures ok { IfOk result (λ segments. segments_of (view value.now) ≡ Some segments.items) }
    ensures err { IfErr result (λ misfit. misfit ≡ Form → segments_of (view value.now) ≡ None) }
{
    let items = array(value).ok_or(Misfit::Form)?;
    let mut segments = Vec::new(alloc);
    for item in items {
        let segment = read_segment(alloc, item)?;
        segments.push(segment)?;
    }
    Ok(segments)
}

/// Puts the segment at the end, but for an empty one.
fn push_filled(parts: &mut Vec<Segment>, segment: Segment) -> Result<(), NoMemory>
    ensures { OnOk result (parts.new.items ≡ (if is_filled segment then parts.old.items ++ segment ∷ [] else parts.old.items)) }
{
    if segment.size > 0 {
        parts.push(segment)?;
    }
    Ok(())
}

/// The data parts but the empty ones.
#[tactic(auto, unfolding(crate::specs::Plain::plain_parts, crate::specs::Plain::segments_of))]
fn read_parts(alloc: Global, value: &Value) -> Result<Vec<Segment>, Misfit>
    ensures ok { IfOk result (λ parts. plain_parts (view value.now) ≡ Some parts.items) }
    ensures err { IfErr result (λ misfit. misfit ≡ Form → plain_parts (view value.now) ≡ None) }
{
    let items = array(value).ok_or(Misfit::Form)?;
    let mut parts = Vec::new(alloc);
    for item in items {
        let segment = read_segment(alloc, item)?;
        push_filled(&mut parts, segment)?;
    }
    Ok(parts)
}

/// The places that have names.
#[tactic(auto, unfolding(crate::specs::Plain::plain_named_places))]
fn read_names(alloc: Global, value: &Value) -> Result<Items<NamedPlace>, Misfit>
    ensures ok { IfOk result (λ named. plain_named_places (view value.now) ≡ Some named) }
    ensures err { IfErr result (λ misfit. misfit ≡ Form → plain_named_places (view value.now) ≡ None) }
{
    let items = array(value).ok_or(Misfit::Form)?;
    let mut named = Items::new(alloc);
    for item in items {
        let function = read_named(alloc, item)?;
        named.push(function)?;
    }
    Ok(named)
}

/// The segments of `code`.
fn code_member(alloc: Global, value: &Value) -> Result<Vec<Segment>, Misfit>
    ensures ok { IfOk result (λ code. member_as segments_of (codes "code") (view value.now) ≡ Some code.items) }
    ensures err { IfErr result (λ misfit. misfit ≡ Form → member_as segments_of (codes "code") (view value.now) ≡ None) }
{
    let found = member(value, "code").ok_or(Misfit::Form)?;
    read_segments(alloc, found)
}

/// The data parts of the file but the empty ones; none where the file does not speak of them.
fn parts_member(alloc: Global, value: &Value) -> Result<Vec<Segment>, Misfit>
    ensures ok { IfOk result (λ parts. member_or plain_parts [] (codes "data") (view value.now) ≡ Some parts.items) }
    ensures err { IfErr result (λ misfit. misfit ≡ Form → member_or plain_parts [] (codes "data") (view value.now) ≡ None) }
{
    match member(value, "data") {
        Some(found) => read_parts(alloc, found),
        None => Ok(Vec::new(alloc)),
    }
}

/// The named places of the file; none where the file does not speak of them.
fn names_member(alloc: Global, value: &Value) -> Result<Items<NamedPlace>, Misfit>
    ensures ok { IfOk result (λ named. member_or plain_named_places [] (codes "functions") (view value.now) ≡ Some named) }
    ensures err { IfErr result (λ misfit. misfit ≡ Form → member_or plain_named_places [] (codes "functions") (view value.now) ≡ None) }
{
    match member(value, "functions") {
        Some(found) => read_names(alloc, found),
        None => Ok(Items::new(alloc)),
    }
}

/// What the value at a key of the image gives, or the fault of that key.
fn at_field<T>(field: Field, read: Result<T, Misfit>) -> Result<T, ImageFault>
    ensures ok { IfOk result (λ value. read ≡ Ok value) }
    ensures err { IfErr result (λ fault. fault ≢ Elf elf.NoMemory → (read ≡ Err Form) × (fault ≡ Shape field)) }
{
    match read {
        Ok(value) => Ok(value),
        Err(Misfit::Form) => Err(ImageFault::Shape(field)),
        Err(Misfit::NoMemory) => Err(ImageFault::Elf(ElfFault::NoMemory)),
    }
}

/// Whether there is a member at the key.
#[tactic(auto, unfolding(crate::specs::Plain::has_key))]
fn has_key(value: &Value, key: &str) -> bool
    ensures { result ≡ has_key key.now (view value.now) }
{
    member(value, key).is_some()
}

/// Whether the value has no key but those of an image.
#[tactic(auto, unfolding(crate::specs::Plain::is_image_known))]
fn is_known(value: &Value) -> bool
    ensures { result ≡ is_image_known (view value.now) }
{
    has_only(
        value,
        &["code", "base", "entry", "text", "data", "functions"],
    )
}

/// What the value lays out with this code and entry, or the first further key of another form.
#[tactic(auto, unfolding(crate::specs::Plain::laid_with))]
fn read_with(
    alloc: Global,
    code: Vec<Segment>,
    entry: u64,
    value: &Value,
) -> Result<Laid, ImageFault>
    ensures ok { IfOk result (λ laid. laid_with code.items entry (view value.now) ≡ Ok laid) }
    ensures err { IfErr result (λ fault. fault ≢ Elf elf.NoMemory → laid_with code.items entry (view value.now) ≡ Err fault) }
{
    let parts = at_field(Field::Data, parts_member(alloc, value))?;
    let named = at_field(Field::Functions, names_member(alloc, value))?;
    if !is_known(value) {
        return Err(ImageFault::Shape(Field::Other));
    }
    Ok(Laid {
        code,
        parts,
        writable: false,
        named,
        entry: Some(Gpa(entry)),
    })
}

/// What a value with `code` lays out, or the first key of another form.
#[tactic(auto, unfolding(crate::specs::Plain::coded_of))]
fn read_coded(alloc: Global, value: &Value) -> Result<Laid, ImageFault>
    ensures ok { IfOk result (λ laid. coded_of (view value.now) ≡ Ok laid) }
    ensures err { IfErr result (λ fault. fault ≢ Elf elf.NoMemory → coded_of (view value.now) ≡ Err fault) }
{
    let code = at_field(Field::Code, code_member(alloc, value))?;
    if has_key(value, "base") {
        return Err(ImageFault::Shape(Field::Base));
    }
    let entry = whole_member(value, "entry").ok_or(ImageFault::Shape(Field::Entry))?;
    if has_key(value, "text") {
        return Err(ImageFault::Shape(Field::Text));
    }
    read_with(alloc, code, entry, value)
}

/// One segment.
fn one(alloc: Global, segment: Segment) -> Result<Vec<Segment>, NoMemory>
    ensures { IfOk result (λ segments. segments.items ≡ segment ∷ []) }
{
    let mut segments = Vec::new(alloc);
    segments.push(segment)?;
    Ok(segments)
}

/// What a value with `base` and `text` lays out, or the first key that is missing or of another form.
#[tactic(auto, unfolding(crate::specs::Plain::single_of))]
fn read_single(alloc: Global, value: &Value) -> Result<Laid, ImageFault>
    ensures ok { IfOk result (λ laid. single_of (view value.now) ≡ Ok laid) }
    ensures err { IfErr result (λ fault. fault ≢ Elf elf.NoMemory → single_of (view value.now) ≡ Err fault) }
{
    if !has_key(value, "base") && !has_key(value, "text") {
        return Err(ImageFault::Shape(Field::Code));
    }
    let base = whole_member(value, "base").ok_or(ImageFault::Shape(Field::Base))?;
    let entry = whole_member(value, "entry").ok_or(ImageFault::Shape(Field::Entry))?;
    let bytes = at_field(Field::Text, hex_member(alloc, value, "text"))?;
    let code = one(alloc, segment_at(base, bytes))?;
    read_with(alloc, code, entry, value)
}

/// What the value lays out, or the first key that is missing, too much or of another form.
#[tactic(auto, unfolding(crate::specs::Plain::plain_of))]
pub(crate) fn read_plain(alloc: Global, value: &Value) -> Result<Laid, ImageFault>
    ensures ok { IfOk result (λ laid. plain_of (view value.now) ≡ Ok laid) }
    ensures err { IfErr result (λ fault. fault ≢ Elf elf.NoMemory → plain_of (view value.now) ≡ Err fault) }
{
    if !is_object(value) {
        return Err(ImageFault::Shape(Field::Other));
    }
    if has_key(value, "code") {
        return read_coded(alloc, value);
    }
    read_single(alloc, value)
}
