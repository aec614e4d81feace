//! A made guest as files, a call of the program over them, what it came to, and the lines of a log.

use facechange_cli::command::face_change_still;
use fc_numbers::places::RAM_START;
use fc_outside::memory::MemStore;
use fc_outside::memory_sink::MemSink;
use guest_input::image::{Image, Start};
use guest_input::setup::Setup;
use sha2::{Digest, Sha256};
use std::alloc::Global;
use std::process::Abort;
use std::str::from_utf8;
use std::test::Fail;

/// Room for each file that the program writes.
const ROOM: usize = 0x4_0000;

/// The data parts of an image, as a member of its file.
fn data_text(alloc: Global, image: &Image) -> Result<String, Fail> {
    let mut text = String::new(alloc);
    for (place, bytes) in image.parts.as_slice() {
        let comma = if text.is_empty() { "" } else { "," };
        let digits = hex::encode(alloc, bytes.written())?;
        let part = format!(in alloc; "{comma}[{place},\"{digits}\"]")?;
        text.push_str(part.as_str())?;
    }
    Ok(text)
}

/// The functions of an image of one range, as a member of its file.
fn functions_text(alloc: Global, image: &Image) -> Result<String, Fail> {
    let mut text = String::new(alloc);
    for function in image.functions.as_slice() {
        let comma = if text.is_empty() { "" } else { "," };
        let place = RAM_START + function.at.offset as u64;
        let name = from_utf8(function.name.as_slice())?;
        let named = format!(in alloc; "{comma}[{place},\"{name}\"]")?;
        text.push_str(named.as_str())?;
    }
    Ok(text)
}

/// The plain image of a made guest, whose text is one range where RAM begins.
pub(crate) fn image_text(alloc: Global, image: &Image) -> Result<String, Fail> {
    let entry = image.entry;
    let text = hex::encode(alloc, image.ranges.bytes())?;
    let data = data_text(alloc, image)?;
    let functions = functions_text(alloc, image)?;
    Ok(format!(in alloc;
        "{{\"base\":{RAM_START},\"entry\":{entry},\"text\":\"{text}\",\"data\":[{data}],\"functions\":[{functions}]}}"
    )?)
}

/// A name in quotes; null where there is none.
fn quoted(alloc: Global, name: Option<&[u8]>) -> Result<String, Fail> {
    let Some(name) = name else {
        return Ok(String::from_str(alloc, "null")?);
    };
    let name = from_utf8(name)?;
    Ok(format!(in alloc; "\"{name}\"")?)
}

/// The name of the function that starts there.
fn name_at(image: &Image, at: Start) -> Option<&[u8]> {
    for function in image.functions.as_slice() {
        if function.at == at {
            return Some(function.name.as_slice());
        }
    }
    None
}

/// The setup of a made guest, which has no events; each vCPU may make so many steps.
pub(crate) fn setup_text(
    alloc: Global,
    image: &Image,
    setup: &Setup,
    steps: u32,
) -> Result<String, Fail> {
    let vcpus = setup.vcpus;
    let ram = setup.ram;
    let name_at_offset = setup.name_at;
    let hook = match setup.hook {
        Some(at) => name_at(image, at),
        None => None,
    };
    let hook = quoted(alloc, hook)?;
    let start = match &setup.start {
        Some(name) => Some(name.bytes()),
        None => None,
    };
    let start = quoted(alloc, start)?;
    Ok(format!(in alloc;
        "{{\"vcpus\":{vcpus},\"ram\":{ram},\"steps\":{steps},\"hook\":{hook},\"name_at\":{name_at_offset},\"start\":{start}}}"
    )?)
}

/// A store in which nothing fails, with these files, and with room for what the program writes.
pub(crate) fn store_of(alloc: Global, files: &[(&str, &[u8])]) -> Result<MemStore, Fail> {
    let mut store = MemStore::new(Vec::new(alloc), Vec::new(alloc));
    for (name, bytes) in files {
        store.room(alloc, name, Some(*bytes), bytes.len())?;
    }
    for name in ["made", "trace", "log"] {
        store.room(alloc, name, None, ROOM)?;
    }
    Ok(store)
}

/// What a call came to, besides the files that it wrote.
#[derive(Drop)]
pub(crate) struct Came {
    pub(crate) status: u8,
    pub(crate) out: MemSink,
    pub(crate) err: MemSink,
}

impl Came {
    /// Compares with a call that ended alike.
    pub(crate) fn is(&self, rt: &impl Abort, label: &str, other: &Came) {
        assert_eq!(rt; self.status, other.status, "{label}: status");
        assert!(rt; self.err.bytes() == other.err.bytes(), "{label}: line");
        assert!(rt; self.out.bytes() == other.out.bytes(), "{label}: console");
    }

    /// That the call ended well.
    pub(crate) fn is_well(&self, rt: &impl Abort, label: &str) {
        assert_eq!(rt; self.status, 0, "{label}: status");
        assert!(rt; self.err.bytes().is_empty(), "{label}: line");
    }
}

/// The call of the program with these words over a store.
pub(crate) fn call(alloc: Global, words: &[&str], store: &mut MemStore) -> Result<Came, Fail> {
    let mut given = Vec::new(alloc);
    for word in words {
        given.push(String::from_str(alloc, word)?)?;
    }
    let mut out = MemSink::new(alloc, ROOM, Vec::new(alloc))?;
    let mut err = MemSink::new(alloc, 256, Vec::new(alloc))?;
    let status = face_change_still(alloc, &given, store, &mut out, &mut err);
    Ok(Came { status, out, err })
}

/// The bytes of a file; none where there is no such file.
pub(crate) fn bytes_of<'a>(store: &'a MemStore, name: &str) -> &'a [u8] {
    store.bytes(name).unwrap_or(b"")
}

/// The digest (SHA-256) of these pieces, one behind the other, in hexadecimal.
pub(crate) fn digest_of(alloc: Global, pieces: &[&[u8]]) -> Result<String, Fail> {
    let mut hasher = Sha256::new();
    for piece in pieces {
        hasher.update(*piece);
    }
    Ok(hex::encode(alloc, hasher.finalize())?)
}

/// What a line of a log tells.
#[derive(Clone, Copy)]
pub(crate) struct Line<'a> {
    /// The app of the view.
    pub(crate) app: &'a str,
    /// The first place of the group that was restored.
    pub(crate) start: &'a str,
}

/// The lines of a log, in order.
pub(crate) fn lines_of(alloc: Global, log: &[u8]) -> Result<Vec<Line<'_>>, Fail> {
    let text = from_utf8(log)?;
    let mut lines = Vec::new(alloc);
    let mut left = text;
    for _ in 0..text.len() {
        let Some((line, rest)) = left.split_once('\n') else {
            break;
        };
        lines.push(Line {
            app: line.split_whitespace().nth(2).ok_or("no app")?,
            start: line.split_whitespace().nth(5).ok_or("no start")?,
        })?;
        left = rest;
    }
    if !left.is_empty() {
        return Err("a line without an end")?;
    }
    Ok(lines)
}
