//! Products of several files, what fails at their writing, and the line of each answer.

use crate::answer::Ended;
use crate::fault::{Fault, Kind};
use crate::finish::finish;
use crate::line::{no_words, tell, turn_away};
use crate::product::{Product, Refusal, Written};
use fc_numbers::machine::Stop;
use fc_outside::memory::MemStore;
use fc_outside::memory_sink::MemSink;
use sqlite_items::Items;
use std::alloc::Global;
use std::test::Fail;
use view_file::fault::ViewFault;

/// The words of a command that reads one file and writes two.
const WORDS: [&str; 4] = ["make", "given", "first", "second"];

/// What a command makes of its files.
enum Makes {
    /// The bytes `one` for the word at this place, `two` for the word at this, and `text` for standard output.
    Files(usize, usize, Ends),
    /// Nothing, for this reason.
    Nothing(Refusal),
}

/// How it ends.
enum Ends {
    Well,
    Stopped(Stop),
    Differs(&'static str),
}

/// A command, what fails, and what comes of it.
struct Row {
    label: &'static str,
    makes: Makes,
    /// The number of the write that fails; 0: none.
    write: u64,
    /// The number of the put to standard output that fails after 2 bytes; 0: none.
    out: u64,
    status: u8,
    line: &'static [u8],
    first: Option<&'static [u8]>,
    second: Option<&'static [u8]>,
    console: &'static [u8],
}

static ROWS: [Row; 10] = [
    Row {
        label: "all is written",
        makes: Makes::Files(2, 3, Ends::Well),
        write: 0,
        out: 0,
        status: 0,
        line: b"",
        first: Some(b"one"),
        second: Some(b"two"),
        console: b"text",
    },
    Row {
        label: "the guest was stopped",
        makes: Makes::Files(2, 3, Ends::Stopped(Stop::TableInText)),
        write: 0,
        out: 0,
        status: 9,
        line: b"9 stop TableInText\n",
        first: Some(b"one"),
        second: Some(b"two"),
        console: b"text",
    },
    Row {
        label: "a comparison found a difference",
        makes: Makes::Files(3, 2, Ends::Differs("vcpus 1 2")),
        write: 0,
        out: 0,
        status: 11,
        line: b"11 differs vcpus 1 2\n",
        first: Some(b"two"),
        second: Some(b"one"),
        console: b"text",
    },
    Row {
        label: "two files of one name",
        makes: Makes::Files(2, 2, Ends::Well),
        write: 0,
        out: 0,
        status: 0,
        line: b"",
        first: Some(b"two"),
        second: None,
        console: b"text",
    },
    Row {
        label: "the first write fails",
        makes: Makes::Files(2, 3, Ends::Well),
        write: 1,
        out: 0,
        status: 8,
        line: b"8 write first\n",
        first: None,
        second: None,
        console: b"",
    },
    Row {
        label: "the second write fails, and goes before the stop",
        makes: Makes::Files(2, 3, Ends::Stopped(Stop::TextSplit)),
        write: 2,
        out: 0,
        status: 8,
        line: b"8 write second\n",
        first: Some(b"one"),
        second: None,
        console: b"",
    },
    Row {
        label: "standard output fails",
        makes: Makes::Files(2, 3, Ends::Well),
        write: 0,
        out: 1,
        status: 8,
        line: b"8 write -\n",
        first: Some(b"one"),
        second: Some(b"two"),
        console: b"te",
    },
    Row {
        label: "a file is over the limit",
        makes: Makes::Nothing(Refusal::Fault(Fault::TooLong(Kind::Image))),
        write: 0,
        out: 0,
        status: 3,
        line: b"3 image 0 TooLong\n",
        first: None,
        second: None,
        console: b"",
    },
    Row {
        label: "views are no JSON",
        makes: Makes::Nothing(Refusal::Fault(Fault::Views(ViewFault::NotJson))),
        write: 0,
        out: 0,
        status: 5,
        line: b"5 views 1 NotJson\n",
        first: None,
        second: None,
        console: b"",
    },
    Row {
        label: "a file was not read",
        makes: Makes::Nothing(Refusal::Unread(1)),
        write: 0,
        out: 0,
        status: 7,
        line: b"7 read given\n",
        first: None,
        second: None,
        console: b"",
    },
];

/// The rows, so that a test speaks of any table of this form.
fn rows() -> &'static [Row] {
    &ROWS
}

fn words(alloc: Global) -> Result<Vec<String>, Fail> {
    let mut all = Vec::new(alloc);
    for word in WORDS {
        all.push(String::from_str(alloc, word)?)?;
    }
    Ok(all)
}

fn items(alloc: Global, bytes: &[u8]) -> Result<Items<u8>, Fail> {
    Ok(Items::from_vec(Vec::from_slice(alloc, bytes)?))
}

fn ended(alloc: Global, ends: &Ends) -> Result<Ended, Fail> {
    Ok(match ends {
        Ends::Well => Ended::Finished,
        Ends::Stopped(stop) => Ended::Stopped(*stop),
        Ends::Differs(text) => Ended::Differs(String::from_str(alloc, text)?),
    })
}

/// What the command makes.
fn made(alloc: Global, makes: &Makes) -> Result<Result<Product, Refusal>, Fail> {
    match makes {
        Makes::Nothing(refusal) => Ok(Err(*refusal)),
        Makes::Files(one, two, ends) => {
            let mut files = Items::new(alloc);
            files.push(Written {
                word: *one,
                bytes: items(alloc, b"one")?,
            })?;
            files.push(Written {
                word: *two,
                bytes: items(alloc, b"two")?,
            })?;
            Ok(Ok(Product {
                files,
                out: items(alloc, b"text")?,
                ended: ended(alloc, ends)?,
            }))
        }
    }
}

#[test]
fn products_are_written_in_order_and_told(rt: HostRuntime) -> Result<(), Fail> {
    let alloc = rt.alloc();
    let words = words(alloc)?;
    for row in rows() {
        let label = row.label;
        let mut store = MemStore::new(Vec::new(alloc), vec![in alloc; row.write]?);
        store.room(alloc, "first", None, 16)?;
        store.room(alloc, "second", None, 16)?;
        let mut out = MemSink::new(alloc, 16, vec![in alloc; (row.out, 2)]?)?;
        let mut err = MemSink::new(alloc, 64, Vec::new(alloc))?;
        let told = finish(
            alloc,
            &words,
            made(alloc, &row.makes)?,
            &mut store,
            &mut out,
        );
        assert_eq!(rt;
            tell(&mut err, &words, &told),
            row.status,
            "{label}: status"
        );
        assert!(rt; err.bytes() == row.line, "{label}: line");
        assert!(rt; store.bytes("first") == row.first, "{label}: first file");
        assert!(rt; store.bytes("second") == row.second, "{label}: second file");
        assert!(rt; out.bytes() == row.console, "{label}: standard output");
    }
    Ok(())
}

/// Lines that take no memory and no words.
#[test]
fn short_lines_are_told(rt: HostRuntime) -> Result<(), Fail> {
    let alloc = rt.alloc();
    let mut err = MemSink::new(alloc, 64, Vec::new(alloc))?;
    assert_eq!(rt; turn_away(&mut err), 2);
    assert_eq!(rt; no_words(&mut err), 10);
    assert!(rt; err.bytes() == b"2 words\n10 memory\n".as_slice());
    Ok(())
}
