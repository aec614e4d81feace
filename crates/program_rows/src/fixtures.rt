//! Files for a call of the program, the call itself, and what it came to.

use crate::kernels::Kernel;
use facechange_cli::command::face_change_still;
use fc_outside::memory::MemStore;
use fc_outside::memory_sink::MemSink;
use guest_image::image_file::read_image;
use std::alloc::Global;
use std::process::Abort;
use std::test::Fail;

/// What a call of the program comes to.
#[derive(Clone, Copy)]
pub(crate) struct Wanted {
    pub(crate) status: u8,
    /// What goes to standard output.
    pub(crate) console: &'static [u8],
    /// What the log holds, if there is one.
    pub(crate) log: Option<&'static [u8]>,
    /// What goes to standard error.
    pub(crate) line: &'static [u8],
}

/// Which calls of the outside fail, by their numbers; 0: none. A put that fails takes so many bytes before.
#[derive(Clone, Copy)]
pub(crate) struct Fails {
    pub(crate) read: u64,
    pub(crate) write: u64,
    pub(crate) out: (u64, usize),
    pub(crate) err: (u64, usize),
}

pub(crate) const NONE_FAILS: Fails = Fails {
    read: 0,
    write: 0,
    out: (0, 0),
    err: (0, 0),
};

/// Adds these digits.
fn add(digits: &mut String, pieces: &[&str]) -> Result<(), Fail> {
    for piece in pieces {
        digits.push_str(piece)?;
    }
    Ok(())
}

/// The digits of a kernel's first range.
fn first_range(alloc: Global, kernel: &Kernel) -> Result<String, Fail> {
    let mut digits = String::new(alloc);
    add(&mut digits, kernel.text)?;
    let (zeros, last) = kernel.rest;
    for _ in 0..zeros {
        digits.push_str("00")?;
    }
    digits.push_str(last)?;
    Ok(digits)
}

/// A plain image at 0x80000000 with this text and these further members.
pub(crate) fn plain_image(alloc: Global, text: &str, more: &str) -> Result<String, Fail> {
    Ok(format!(in alloc; "{{\"base\":2147483648,\"entry\":2147483648,\"text\":\"{text}\"{more}}}")?)
}

/// The plain image of a kernel.
pub(crate) fn image_of(alloc: Global, kernel: &Kernel) -> Result<String, Fail> {
    let text = first_range(alloc, kernel)?;
    let more = kernel.more;
    match kernel.second {
        None => plain_image(alloc, text.as_str(), more),
        Some((place, pieces)) => {
            let mut second = String::new(alloc);
            add(&mut second, pieces)?;
            Ok(format!(in alloc;
                "{{\"code\":[[2147483648,\"{text}\"],[{place},\"{second}\"]],\"entry\":2147483648{more}}}"
            )?)
        }
    }
}

/// The digits of the image's digest; none where there is no image.
fn digest_of(alloc: Global, image: &[u8]) -> Result<String, Fail> {
    match read_image(alloc, image) {
        Ok(image) => Ok(hex::encode(alloc, image.digest)?),
        Err(_) => Ok(String::new(alloc)),
    }
}

/// A file of views for the image, of this version.
pub(crate) fn views_in(
    alloc: Global,
    image: &[u8],
    version: u64,
    shared: &str,
    apps: &str,
) -> Result<String, Fail> {
    let digest = digest_of(alloc, image)?;
    Ok(format!(in alloc;
        "{{\"version\":{version},\"text\":\"{digest}\",\"shared\":[{shared}],\"apps\":[{apps}]}}"
    )?)
}

/// A file of views for the image, of version 1.
pub(crate) fn views_of(
    alloc: Global,
    image: &[u8],
    shared: &str,
    apps: &str,
) -> Result<String, Fail> {
    views_in(alloc, image, 1, shared, apps)
}

/// The bytes of these digits, each piece with so many zeros behind it.
pub(crate) fn bytes_of(alloc: Global, parts: &[(&[&str], usize)]) -> Result<Vec<u8>, Fail> {
    let mut all = Vec::new(alloc);
    for (pieces, zeros) in parts {
        for digits in *pieces {
            let bytes = hex::decode(alloc, digits.as_bytes())?;
            all.extend_from_slice(bytes.as_slice())?;
        }
        for _ in 0..*zeros {
            all.push(0)?;
        }
    }
    Ok(all)
}

/// The bytes with those at these places as given.
pub(crate) fn patched(
    alloc: Global,
    bytes: &[u8],
    patches: &[(usize, u8)],
) -> Result<Vec<u8>, Fail> {
    let mut damaged = Vec::from_slice(alloc, bytes)?;
    for (at, byte) in patches {
        if *at < damaged.len() {
            damaged[*at] = *byte;
        }
    }
    Ok(damaged)
}

pub(crate) fn words_of(alloc: Global, given: &[&str]) -> Result<Vec<String>, Fail> {
    let mut all = Vec::new(alloc);
    for word in given {
        all.push(String::from_str(alloc, word)?)?;
    }
    Ok(all)
}

/// What a call came to.
#[derive(Drop)]
pub(crate) struct Came {
    pub(crate) status: u8,
    pub(crate) store: MemStore,
    pub(crate) out: MemSink,
    pub(crate) err: MemSink,
}

impl Came {
    /// Compares with what was worked out.
    pub(crate) fn is(&self, rt: &impl Abort, label: &str, wanted: &Wanted) {
        assert_eq!(rt; self.status, wanted.status, "{label}: status");
        assert!(rt; self.err.bytes() == wanted.line, "{label}: line");
        assert!(rt; self.out.bytes() == wanted.console, "{label}: console");
        assert!(rt; self.store.bytes("log") == wanted.log, "{label}: log");
    }
}

/// The call over a store with these files and room for a trace and a log.
pub(crate) fn call(
    alloc: Global,
    words: &[&str],
    files: &[(&str, &[u8])],
    fails: Fails,
) -> Result<Came, Fail> {
    let words = words_of(alloc, words)?;
    let mut store = MemStore::new(vec![in alloc; fails.read]?, vec![in alloc; fails.write]?);
    for (name, bytes) in files {
        store.room(alloc, name, Some(*bytes), bytes.len())?;
    }
    store.room(alloc, "trace", None, 8192)?;
    store.room(alloc, "log", None, 4096)?;
    let mut out = MemSink::new(alloc, 4096, vec![in alloc; fails.out]?)?;
    let mut err = MemSink::new(alloc, 4096, vec![in alloc; fails.err]?)?;
    let status = face_change_still(alloc, &words, &mut store, &mut out, &mut err);
    Ok(Came {
        status,
        store,
        out,
        err,
    })
}

/// The words of the call of `drive`.
pub(crate) const DRIVE: [&str; 7] = ["drive", "image", "setup", "views", "script", "trace", "log"];

/// Those of `replay`; the trace has a name of its own.
const REPLAY: [&str; 4] = ["replay", "image", "setup", "driven"];

/// A kernel and its views.
#[derive(Drop)]
pub(crate) struct Guest {
    image: String,
    views: String,
}

impl Guest {
    pub(crate) fn new(
        alloc: Global,
        kernel: &Kernel,
        shared: &str,
        apps: &str,
    ) -> Result<Guest, Fail> {
        let image = image_of(alloc, kernel)?;
        let views = views_of(alloc, image.as_bytes(), shared, apps)?;
        Ok(Guest { image, views })
    }

    /// The call with these words over a store with these files.
    pub(crate) fn call(
        &self,
        alloc: Global,
        words: &[&str],
        setup: &str,
        script: &str,
        fails: Fails,
    ) -> Result<Came, Fail> {
        let files = [
            ("image", self.image.as_bytes()),
            ("setup", setup.as_bytes()),
            ("views", self.views.as_bytes()),
            ("script", script.as_bytes()),
        ];
        call(alloc, words, &files, fails)
    }

    /// The call of `drive` by a setup and a script, while nothing fails.
    pub(crate) fn drive(&self, alloc: Global, setup: &str, script: &str) -> Result<Came, Fail> {
        self.call(alloc, &DRIVE, setup, script, NONE_FAILS)
    }

    /// The call of `replay` by a setup and a trace.
    pub(crate) fn replay(&self, alloc: Global, setup: &str, trace: &[u8]) -> Result<Came, Fail> {
        let files = [
            ("image", self.image.as_bytes()),
            ("setup", setup.as_bytes()),
            ("driven", trace),
        ];
        call(alloc, &REPLAY, &files, NONE_FAILS)
    }
}

/// The trace that a call has written; none: no bytes.
pub(crate) fn trace_of(came: &Came) -> &[u8] {
    came.store.bytes("trace").unwrap_or(b"")
}
