//! What a views file writes, before names and functions are looked at.

ghost use Rattle.std.specs.Prelude.{◌≡◌, ◌≢◌, ◌↔◌, IsTrue, IfOk, IfErr, Ok, Err, Some, None, codes, map, option_map, length};
ghost use Rattle.serde_json.specs.View.{view};
ghost use Rattle.json_fields.specs.Fields.{whole_of, string_of, json_of, each_of};
ghost use Rattle.json_fields.specs.Members.{member_as};
ghost use Rattle.json_fields.specs.declared.misfit.Misfit.TheVariants.{Form};
ghost use Rattle.view_file.specs.Written.{start_in, written_start, written_starts, written_digest, app_of, apps_of, version_of, written_of, shaped_of, Fails};
ghost use Rattle.view_file.specs.declared.fault.ViewFault.TheVariants.{NotJson, Shape};
ghost use Rattle.view_file.specs.declared.written.Version.TheVariants.{One, Two};

use crate::fault::ViewFault;
use fc_numbers::spans::RANGES_MOST;
use guest_input::image::Start;
use hex::FromHex;
use json_fields::fields::{array, has_only, member, pair, text, whole};
use json_fields::misfit::Misfit;
use json_fields::parse::{Unread, parse};
use serde_json::Value;
use sqlite_items::Items;
use std::alloc::Global;

/// How a views file writes functions.
#[derive(Debug, Clone, Copy, PartialEq, Eq)]
pub enum Version {
    /// 1: each as its offset in range 0 of text.
    One,
    /// 2: each as a range of text and the offset in it.
    Two,
}

/// An app as it is written: its name, whatever it is, and the starts of its functions.
#[derive(Drop)]
pub struct WrittenApp {
    pub name: Items<u8>,
    pub functions: Items<Start>,
}

/// What a views file writes.
#[derive(Drop)]
pub struct Written {
    /// The digest of a kernel's image.
    pub text: [u8; 32],
    /// The starts of the functions that all apps share.
    pub shared: Items<Start>,
    pub apps: Items<WrittenApp>,
}

/// The start of this range and offset, or None where no start has them.
fn start_at(range: u64, offset: u64) -> Option<Start>
    ensures { result ≡ start_in range offset }
{
    if range >= RANGES_MOST as u64 || offset > u32::MAX as u64 {
        return None;
    }
    Some(Start {
        range: range as u8,
        offset: offset as u32,
    })
}

#[tactic(auto, unfolding(crate::specs::Written::written_start))]
fn start_one(value: &Value) -> Option<Start>
    ensures { result ≡ written_start One (view value.now) }
{
    start_at(0, whole(value)?)
}

#[tactic(auto, unfolding(crate::specs::Written::written_start))]
fn start_two(value: &Value) -> Option<Start>
    ensures { result ≡ written_start Two (view value.now) }
{
    let (range, offset) = pair(value)?;
    start_at(whole(range)?, whole(offset)?)
}

fn start(version: Version, value: &Value) -> Option<Start>
    ensures { result ≡ written_start version (view value.now) }
{
    match version {
        Version::One => start_one(value),
        Version::Two => start_two(value),
    }
}

fn each_start(alloc: Global, version: Version, items: &[Value]) -> Result<Items<Start>, Misfit>
    ensures ok { IfOk result (λ found. each_of (written_start version) (map view items.now) ≡ Some found) }
    ensures err { IfErr result (λ misfit. misfit ≡ Form → each_of (written_start version) (map view items.now) ≡ None) }
{
    let mut found = Items::new(alloc);
    for item in items {
        let at = start(version, item).ok_or(Misfit::Form)?;
        found.push(at)?;
    }
    Ok(found)
}

#[tactic(auto, unfolding(crate::specs::Written::written_starts))]
fn starts(alloc: Global, version: Version, value: &Value) -> Result<Items<Start>, Misfit>
    ensures ok { IfOk result (λ found. written_starts version (view value.now) ≡ Some found) }
    ensures err { IfErr result (λ misfit. misfit ≡ Form → written_starts version (view value.now) ≡ None) }
{
    let items = array(value).ok_or(Misfit::Form)?;
    each_start(alloc, version, items)
}

#[tactic(auto, unfolding(crate::specs::Written::written_digest))]
fn digest(value: &Value) -> Option<[u8; 32]>
    ensures { result ≡ written_digest (view value.now) }
{
    match text(value) {
        Some(digits) => <[u8; 32] as FromHex>::from_hex(digits).ok(),
        None => None,
    }
}

fn starts_at(
    alloc: Global,
    version: Version,
    value: &Value,
    key: &str,
) -> Result<Items<Start>, Misfit>
    ensures ok { IfOk result (λ found. member_as (written_starts version) key.now (view value.now) ≡ Some found) }
    ensures err { IfErr result (λ misfit. misfit ≡ Form → member_as (written_starts version) key.now (view value.now) ≡ None) }
{
    let found = member(value, key).ok_or(Misfit::Form)?;
    starts(alloc, version, found)
}

fn bytes_of(alloc: Global, value: &Value) -> Result<Items<u8>, Misfit>
    ensures ok { IfOk result (λ found. string_of (view value.now) ≡ Some found) }
    ensures err { IfErr result (λ misfit. misfit ≡ Form → string_of (view value.now) ≡ None) }
{
    let text = text(value).ok_or(Misfit::Form)?;
    Ok(Items::from_slice(alloc, text.as_bytes())?)
}

fn name_at(alloc: Global, value: &Value) -> Result<Items<u8>, Misfit>
    ensures ok { IfOk result (λ found. member_as string_of (codes "name") (view value.now) ≡ Some found) }
    ensures err { IfErr result (λ misfit. misfit ≡ Form → member_as string_of (codes "name") (view value.now) ≡ None) }
{
    let found = member(value, "name").ok_or(Misfit::Form)?;
    bytes_of(alloc, found)
}

#[tactic(auto, unfolding(crate::specs::Written::app_of))]
fn app(alloc: Global, version: Version, value: &Value) -> Result<WrittenApp, Misfit>
    ensures ok { IfOk result (λ found. app_of version (view value.now) ≡ Some found) }
    ensures err { IfErr result (λ misfit. misfit ≡ Form → app_of version (view value.now) ≡ None) }
{
    if !has_only(value, &["functions", "name"]) {
        return Err(Misfit::Form);
    }
    let name = name_at(alloc, value)?;
    let functions = starts_at(alloc, version, value, "functions")?;
    Ok(WrittenApp { name, functions })
}

fn each_app(alloc: Global, version: Version, items: &[Value]) -> Result<Items<WrittenApp>, Misfit>
    ensures ok { IfOk result (λ found. each_of (app_of version) (map view items.now) ≡ Some found) }
    ensures err { IfErr result (λ misfit. misfit ≡ Form → each_of (app_of version) (map view items.now) ≡ None) }
{
    let mut found = Items::new(alloc);
    for item in items {
        let app = app(alloc, version, item)?;
        found.push(app)?;
    }
    Ok(found)
}

#[tactic(auto, unfolding(crate::specs::Written::apps_of))]
fn apps(alloc: Global, version: Version, value: &Value) -> Result<Items<WrittenApp>, Misfit>
    ensures ok { IfOk result (λ found. apps_of version (view value.now) ≡ Some found) }
    ensures err { IfErr result (λ misfit. misfit ≡ Form → apps_of version (view value.now) ≡ None) }
{
    let items = array(value).ok_or(Misfit::Form)?;
    each_app(alloc, version, items)
}

fn apps_at(alloc: Global, version: Version, value: &Value) -> Result<Items<WrittenApp>, Misfit>
    ensures ok { IfOk result (λ found. member_as (apps_of version) (codes "apps") (view value.now) ≡ Some found) }
    ensures err { IfErr result (λ misfit. misfit ≡ Form → member_as (apps_of version) (codes "apps") (view value.now) ≡ None) }
{
    let found = member(value, "apps").ok_or(Misfit::Form)?;
    apps(alloc, version, found)
}

fn digest_at(value: &Value) -> Option<[u8; 32]>
    ensures { result ≡ member_as written_digest (codes "text") (view value.now) }
{
    match member(value, "text") {
        Some(found) => digest(found),
        None => None,
    }
}

fn version_in(value: &Value) -> Option<Version>
    ensures { result ≡ version_of (view value.now) }
{
    match whole(value) {
        Some(1) => Some(Version::One),
        Some(2) => Some(Version::Two),
        _ => None,
    }
}

fn version_at(value: &Value) -> Option<Version>
    ensures { result ≡ member_as version_of (codes "version") (view value.now) }
{
    match member(value, "version") {
        Some(found) => version_in(found),
        None => None,
    }
}

/// What a value writes, where it is a views file of version 1 or 2.
#[tactic(auto, unfolding(crate::specs::Written::written_of))]
fn from_value(alloc: Global, value: &Value) -> Result<Written, Misfit>
    ensures ok { IfOk result (λ found. written_of (view value.now) ≡ Some found) }
    ensures err { IfErr result (λ misfit. misfit ≡ Form → written_of (view value.now) ≡ None) }
{
    if !has_only(value, &["apps", "shared", "text", "version"]) {
        return Err(Misfit::Form);
    }
    let version = version_at(value).ok_or(Misfit::Form)?;
    let text = digest_at(value).ok_or(Misfit::Form)?;
    let shared = starts_at(alloc, version, value, "shared")?;
    let apps = apps_at(alloc, version, value)?;
    Ok(Written { text, shared, apps })
}

/// What the bytes write.
#[tactic(auto, unfolding(crate::specs::Written::shaped_of))]
pub fn shaped(alloc: Global, bytes: &[u8]) -> Result<Written, ViewFault>
    ensures ok { IfOk result (λ written. shaped_of bytes.now ≡ Ok written) }
    ensures err { IfErr result (λ fault. Fails fault (shaped_of bytes.now)) }
{
    let value = match parse(alloc, bytes) {
        Ok(value) => value,
        Err(Unread::NotJson) => return Err(ViewFault::NotJson),
        Err(Unread::NoMemory) => return Err(ViewFault::NoMemory),
    };
    match from_value(alloc, &value) {
        Ok(written) => Ok(written),
        Err(Misfit::Form) => Err(ViewFault::Shape),
        Err(Misfit::NoMemory) => Err(ViewFault::NoMemory),
    }
}
