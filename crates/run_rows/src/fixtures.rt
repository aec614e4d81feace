//! Kernels, the files of a call of the program, the call, and what it came to.

use facechange_cli::threaded::face_change;
use fc_outside::gate::Gate;
use fc_outside::memory::MemStore;
use fc_outside::memory_sink::MemSink;
use guest_image::image_file::read_image;
use std::alloc::Global;
use std::process::Abort;
use std::sync::Wait;
use std::test::Fail;
use std::thread::Threads;

/// A kernel at 0x80000000: its text, with its listing, and the names of its functions.
#[derive(Clone, Copy)]
pub(crate) struct Kernel {
    /// The digits of the text in pieces, each with so many zero bytes behind it.
    pub(crate) text: &'static [(&'static str, usize)],
    pub(crate) names: &'static str,
}

/// Writes a letter by a function whose first instruction has its halves in two lines, and shuts the run down.
pub(crate) const LETTER: Kernel = Kernel {
    text: &[
        ("ef00e003", 0), // main: jal ra, w
        ("a148", 0), // li a7, 8
        ("73000000", 0), // ecall: shutdown
        ("0100010001000100010001000100010001000100010001000100", 0), // nop, thirteen times
        ("0100010001000100010001000100010001000100010001000100", 0), // and again
        ("13051004", 0), // w: li a0, 65
        ("8548", 0), // li a7, 1
        ("73000000", 0), // ecall: console putchar
        ("8280", 0), // ret
    ],
    names: "[2147483648,\"main\"],[2147483710,\"w\"]",
};

/// Adds 1 to one word again and again.
pub(crate) const COUNTER: Kernel = Kernel {
    text: &[
        ("97220000", 0), // main: auipc t0, 2
        ("8545", 0), // li a1, 1
        ("2fb6b200", 0), // loop: amoadd.d a2, a1, (t0)
        ("f5bf", 0), // j loop
    ],
    names: "[2147483648,\"main\"],[2147483654,\"loop\"]",
};

/// Jumps from line to line and back.
pub(crate) const LINES: Kernel = Kernel {
    text: &[
        ("81a0", 62), // j 64
        ("81a0", 62), // j 128
        ("81a0", 62), // j 192
        ("81b7", 0), // j 0
    ],
    names: "",
};

/// The views of an app `sh` that was seen to use the first function alone.
pub(crate) const FIRST: &str = "{\"name\":\"sh\",\"functions\":[0]}";

/// Two vCPUs with 20 steps each.
pub(crate) const TWENTY: &str = "{\"vcpus\":2,\"ram\":65536,\"steps\":20,\"start\":\"sh\"}";

pub(crate) const RUN: [&str; 6] = ["run", "image", "setup", "views", "trace", "log"];

/// The files that a call reads.
#[derive(Drop)]
pub(crate) struct Files {
    pub(crate) image: String,
    pub(crate) setup: String,
    pub(crate) views: String,
}

impl Files {
    /// The files of a kernel under the views of these apps.
    pub(crate) fn new(
        alloc: Global,
        kernel: &Kernel,
        setup: &str,
        apps: &str,
    ) -> Result<Files, Fail> {
        let mut text = String::new(alloc);
        for (digits, zeros) in kernel.text {
            text.push_str(digits)?;
            for _ in 0..*zeros {
                text.push_str("00")?;
            }
        }
        let names = kernel.names;
        let image = format!(in alloc;
            "{{\"base\":2147483648,\"entry\":2147483648,\"text\":\"{text}\",\"functions\":[{names}]}}"
        )?;
        let digest = hex::encode(alloc, read_image(alloc, image.as_bytes())?.digest)?;
        let views = format!(in alloc;
            "{{\"version\":1,\"text\":\"{digest}\",\"shared\":[],\"apps\":[{apps}]}}"
        )?;
        Ok(Files {
            image,
            setup: String::from_str(alloc, setup)?,
            views,
        })
    }
}

pub(crate) fn words_of(alloc: Global, given: &[&str]) -> Result<Vec<String>, Fail> {
    let mut all = Vec::new(alloc);
    for word in given {
        all.push(String::from_str(alloc, word)?)?;
    }
    Ok(all)
}

/// Which calls of the outside fail, by their numbers; 0: none. A put that fails takes so many bytes before.
#[derive(Clone, Copy)]
pub(crate) struct Fails {
    pub(crate) read: u64,
    pub(crate) write: u64,
    pub(crate) out: (u64, usize),
}

pub(crate) const NONE_FAILS: Fails = Fails {
    read: 0,
    write: 0,
    out: (0, 0),
};

/// What a call came to.
#[derive(Drop)]
pub(crate) struct Came {
    pub(crate) status: u8,
    pub(crate) store: MemStore,
    pub(crate) out: MemSink,
    pub(crate) err: MemSink,
}

impl Came {
    /// Compares the status, the line on standard error and the console with what was worked out.
    pub(crate) fn is(&self, rt: &impl Abort, label: &str, status: u8, line: &[u8], console: &[u8]) {
        assert_eq!(rt; self.status, status, "{label}: status");
        assert!(rt; self.err.bytes() == line, "{label}: line");
        assert!(rt; self.out.bytes() == console, "{label}: console");
    }
}

/// A store with these files, and with room for a trace and a log.
fn store_of(alloc: Global, files: &Files, fails: Fails) -> Result<MemStore, Fail> {
    let mut store = MemStore::new(vec![in alloc; fails.read]?, vec![in alloc; fails.write]?);
    let given = [
        ("image", files.image.as_bytes()),
        ("setup", files.setup.as_bytes()),
        ("views", files.views.as_bytes()),
    ];
    for (name, bytes) in given {
        store.room(alloc, name, Some(bytes), bytes.len())?;
    }
    store.room(alloc, "trace", None, 8192)?;
    store.room(alloc, "log", None, 4096)?;
    Ok(store)
}

/// The call with these words over a store.
fn call_over<R: Threads + Wait + Sync, G: Gate>(
    rt: &R,
    alloc: Global,
    words: &[&str],
    mut store: MemStore,
    out: (u64, usize),
    gate: &G,
) -> Result<Came, Fail> {
    let words = words_of(alloc, words)?;
    let mut out = MemSink::new(alloc, 4096, vec![in alloc; out]?)?;
    let mut err = MemSink::new(alloc, 4096, vec![in alloc; (0, 0)]?)?;
    let status = face_change(rt, alloc, &words, &mut store, &mut out, &mut err, gate);
    Ok(Came {
        status,
        store,
        out,
        err,
    })
}

/// The call with these words over a store with these files.
pub(crate) fn call<R: Threads + Wait + Sync, G: Gate>(
    rt: &R,
    alloc: Global,
    words: &[&str],
    files: &Files,
    fails: Fails,
    gate: &G,
) -> Result<Came, Fail> {
    let store = store_of(alloc, files, fails)?;
    call_over(rt, alloc, words, store, fails.out, gate)
}

/// The replay of the trace that a call has written.
pub(crate) fn replay_of<R: Threads + Wait + Sync, G: Gate>(
    rt: &R,
    alloc: Global,
    came: Came,
    gate: &G,
) -> Result<Came, Fail> {
    let words = ["replay", "image", "setup", "trace"];
    call_over(rt, alloc, &words, came.store, NONE_FAILS.out, gate)
}
