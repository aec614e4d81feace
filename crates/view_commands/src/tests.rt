//! Profiles, unions and sizes worked out by hand, and what the commands refuse.

use crate::merge::{is_merge, make_merge};
use crate::profile::{is_profile, make_profile};
use crate::show::{is_show, make_show};
use command_frame::finish::finish;
use command_frame::line::tell;
use command_frame::product::{Product, Refusal};
use fc_outside::memory::MemStore;
use fc_outside::memory_sink::MemSink;
use guest_image::image_file::read_image;
use std::alloc::Global;
use std::test::Fail;

/// A profile that was worked out: the kernel's text and functions as a plain image writes them, the setup without its
/// `ram`, and what comes of it. In OUT the digest is left out.
struct Profiled {
    label: &'static str,
    text: &'static str,
    functions: &'static str,
    setup: &'static str,
    status: u8,
    line: &'static [u8],
    apps: Option<&'static str>,
    shared: &'static str,
}

/// `main` calls `put`, which writes, and then shuts down.
const PUT: &str = "ef00c000a148730000000100854813051004730000008280";

const PUT_FUNCTIONS: &str = "[2147483648,\"main\"],[2147483660,\"put\"]";

/// `main` enables interrupts, and jumps to `m`, which shuts down; `hand` is the handler of traps.
const HANDLED: &str =
    "970200009382c201739052101303002073104310736001106f00c0007310401073002010a14873000000";

const HANDLED_FUNCTIONS: &str = "[2147483648,\"main\"],[2147483676,\"hand\"],[2147483684,\"m\"]";

/// auipc a1,0; addi a1,a1,24; jal ra,hook; then `end`: li a7,8; ecall; nop; then `hook`: ret; nop; the name stands behind.
const SWITCH: &str = "9705000093858501ef00c000a14873000000010082800100";

/// The same, but that `main` goes on to the next name: a1 is 2 more, and the hook is called again.
const SWITCHES: &str = "9705000093858501ef00c00089056ff0bfff010082800100";

const SWITCH_FUNCTIONS: &str = "[2147483648,\"main\"],[2147483660,\"end\"],[2147483668,\"hook\"]";

const SWITCHES_FUNCTIONS: &str = "[2147483648,\"main\"],[2147483668,\"hook\"]";

static PROFILES: [Profiled; 4] = [
    Profiled {
        label: "both functions under the first name",
        text: PUT,
        functions: PUT_FUNCTIONS,
        setup: "\"vcpus\":1,\"steps\":100,\"start\":\"sh\"",
        status: 0,
        line: b"",
        apps: Some("{\"functions\":[[0,0],[0,12]],\"name\":\"sh\"}"),
        shared: "",
    },
    Profiled {
        label: "no name, nothing listed",
        text: PUT,
        functions: PUT_FUNCTIONS,
        setup: "\"vcpus\":1,\"steps\":100",
        status: 0,
        line: b"",
        apps: Some(""),
        shared: "",
    },
    Profiled {
        label: "the handler of an interrupt is shared",
        text: HANDLED,
        functions: HANDLED_FUNCTIONS,
        setup: "\"vcpus\":1,\"steps\":100,\"start\":\"sh\",\"events\":[[7,\"raise\",0]]",
        status: 0,
        line: b"",
        apps: Some("{\"functions\":[[0,0],[0,36]],\"name\":\"sh\"}"),
        shared: "[0,28]",
    },
    Profiled {
        label: "a run that a stop ends, with its views",
        text: "97020000afb502102fb6b218",
        functions: "[2147483648,\"main\"]",
        setup: "\"vcpus\":1,\"steps\":100,\"start\":\"sh\"",
        status: 9,
        line: b"9 stop StoreToText\n",
        apps: Some("{\"functions\":[[0,0]],\"name\":\"sh\"}"),
        shared: "",
    },
];

fn profiles() -> &'static [Profiled] {
    &PROFILES
}

/// A kernel whose hook meets names: the digits of the names behind its text, and what comes of it.
struct Switched {
    label: &'static str,
    text: &'static str,
    names: &'static str,
    functions: &'static str,
    status: u8,
    line: &'static [u8],
    apps: Option<&'static str>,
}

static SWITCHED: [Switched; 5] = [
    Switched {
        label: "the hook's first place counts under the old name",
        text: SWITCH,
        names: "65640000",
        functions: SWITCH_FUNCTIONS,
        status: 0,
        line: b"",
        apps: Some(
            "{\"functions\":[[0,12]],\"name\":\"ed\"},{\"functions\":[[0,0],[0,20]],\"name\":\"sh\"}",
        ),
    },
    Switched {
        label: "a function without a name is in no list",
        text: SWITCH,
        names: "00000000",
        functions: SWITCH_FUNCTIONS,
        status: 0,
        line: b"",
        apps: Some("{\"functions\":[[0,0],[0,20]],\"name\":\"sh\"}"),
    },
    Switched {
        label: "a quotation mark and a backslash in a name",
        text: SWITCH,
        names: "225c0000",
        functions: SWITCH_FUNCTIONS,
        status: 0,
        line: b"",
        apps: Some(
            "{\"functions\":[[0,12]],\"name\":\"\\\"\\\\\"},{\"functions\":[[0,0],[0,20]],\"name\":\"sh\"}",
        ),
    },
    Switched {
        label: "each name that a loop meets",
        text: SWITCHES,
        names: "61006200",
        functions: SWITCHES_FUNCTIONS,
        status: 0,
        line: b"",
        apps: Some(
            "{\"functions\":[[0,0],[0,20]],\"name\":\"a\"},{\"functions\":[[0,0],[0,20]],\"name\":\"b\"},{\"functions\":[[0,0],[0,20]],\"name\":\"sh\"}",
        ),
    },
    Switched {
        label: "sixteen names",
        text: SWITCHES,
        names: "6100620063006400650066006700680069006a006b006c006d006e006f00",
        functions: SWITCHES_FUNCTIONS,
        status: 5,
        line: b"5 views 5 TooManyApps\n",
        apps: None,
    },
];

fn switches() -> &'static [Switched] {
    &SWITCHED
}

/// A plain image at 0x80000000.
fn image_of(alloc: Global, text: &str, names: &str, functions: &str) -> Result<String, Fail> {
    Ok(format!(in alloc;
        "{{\"base\":2147483648,\"entry\":2147483648,\"text\":\"{text}{names}\",\"functions\":[{functions}]}}"
    )?)
}

/// The digits of the image's digest; none where there is no image.
fn digest_of(alloc: Global, image: &[u8]) -> Result<String, Fail> {
    match read_image(alloc, image) {
        Ok(image) => Ok(hex::encode(alloc, image.digest)?),
        Err(_) => Ok(String::new(alloc)),
    }
}

/// The text of views, of this version.
fn views_of(
    alloc: Global,
    image: &[u8],
    apps: &str,
    shared: &str,
    version: &str,
) -> Result<String, Fail> {
    let digest = digest_of(alloc, image)?;
    Ok(format!(in alloc;
        "{{\"apps\":[{apps}],\"shared\":[{shared}],\"text\":\"{digest}\",\"version\":{version}}}"
    )?)
}

/// What a command came to.
#[derive(Drop)]
struct Came {
    status: u8,
    store: MemStore,
    out: MemSink,
    err: MemSink,
}

fn words_of(alloc: Global, words: &[&str]) -> Result<Vec<String>, Fail> {
    let mut all = Vec::new(alloc);
    for word in words {
        all.push(String::from_str(alloc, word)?)?;
    }
    Ok(all)
}

/// What the words ask for.
fn make(alloc: Global, words: &[String], store: &mut MemStore) -> Result<Product, Refusal> {
    if is_profile(words) {
        return make_profile(alloc, words, store);
    }
    if is_merge(words) {
        return make_merge(alloc, words, store);
    }
    if is_show(words) {
        return make_show(alloc, words, store);
    }
    Err(Refusal::NoMemory)
}

/// The command over two files and room for a third.
fn call(alloc: Global, words: &[&str], first: &[u8], second: &[u8]) -> Result<Came, Fail> {
    let words = words_of(alloc, words)?;
    let mut store = MemStore::new(Vec::new(alloc), Vec::new(alloc));
    store.room(alloc, "a", Some(first), first.len())?;
    store.room(alloc, "b", Some(second), second.len())?;
    store.room(alloc, "out", None, 4096)?;
    let mut out = MemSink::new(alloc, 4096, Vec::new(alloc))?;
    let mut err = MemSink::new(alloc, 4096, Vec::new(alloc))?;
    let product = make(alloc, &words, &mut store);
    let told = finish(alloc, &words, product, &mut store, &mut out);
    let status = tell(&mut err, &words, &told);
    Ok(Came {
        status,
        store,
        out,
        err,
    })
}

#[test]
fn profiles_are_as_worked_out(rt: HostRuntime) -> Result<(), Fail> {
    let alloc = rt.alloc();
    for row in profiles() {
        let label = row.label;
        let image = image_of(alloc, row.text, "", row.functions)?;
        let members = row.setup;
        let setup = format!(in alloc; "{{\"ram\":65536,{members}}}")?;
        let came = call(
            alloc,
            &["profile", "a", "b", "out"],
            image.as_bytes(),
            setup.as_bytes(),
        )?;
        assert_eq!(rt; came.status, row.status, "{label}: status");
        assert!(rt; came.err.bytes() == row.line, "{label}: line");
        if let Some(apps) = row.apps {
            let wanted = views_of(alloc, image.as_bytes(), apps, row.shared, "2")?;
            assert!(rt;
                came.store.bytes("out") == Some(wanted.as_bytes()),
                "{label}: views"
            );
        }
    }
    Ok(())
}

#[test]
fn names_at_the_hook_have_their_own_functions(rt: HostRuntime) -> Result<(), Fail> {
    let alloc = rt.alloc();
    for row in switches() {
        let label = row.label;
        let image = image_of(alloc, row.text, row.names, row.functions)?;
        let setup = b"{\"ram\":65536,\"vcpus\":1,\"steps\":200,\"start\":\"sh\",\"hook\":\"hook\"}";
        let came = call(
            alloc,
            &["profile", "a", "b", "out"],
            image.as_bytes(),
            setup,
        )?;
        assert_eq!(rt; came.status, row.status, "{label}: status");
        assert!(rt; came.err.bytes() == row.line, "{label}: line");
        let wanted = match row.apps {
            Some(apps) => Some(views_of(alloc, image.as_bytes(), apps, "", "2")?),
            None => None,
        };
        let views = wanted.as_ref().map(|text| text.as_bytes());
        assert!(rt; came.store.bytes("out") == views, "{label}: views");
    }
    Ok(())
}

/// Two views of one kernel, or of two, and their union.
struct Merged {
    label: &'static str,
    first: &'static str,
    second: &'static str,
    /// Whether the second file is for another kernel.
    other: bool,
    status: u8,
    line: &'static [u8],
    apps: Option<&'static str>,
}

const EIGHT: &str =
    "{\"name\":\"a\",\"functions\":[]},{\"name\":\"b\",\"functions\":[]},{\"name\":\"c\",\"functions\":[]},{\"name\":\"d\",\"functions\":[]},{\"name\":\"e\",\"functions\":[]},{\"name\":\"f\",\"functions\":[]},{\"name\":\"g\",\"functions\":[]},{\"name\":\"h\",\"functions\":[]}";

const OTHER_EIGHT: &str =
    "{\"name\":\"A\",\"functions\":[]},{\"name\":\"B\",\"functions\":[]},{\"name\":\"C\",\"functions\":[]},{\"name\":\"D\",\"functions\":[]},{\"name\":\"E\",\"functions\":[]},{\"name\":\"F\",\"functions\":[]},{\"name\":\"G\",\"functions\":[]},{\"name\":\"H\",\"functions\":[]}";

static MERGED: [Merged; 3] = [
    Merged {
        label: "the functions of both under each name",
        first: "{\"name\":\"sh\",\"functions\":[0]}",
        second: "{\"name\":\"vi\",\"functions\":[0]},{\"name\":\"sh\",\"functions\":[12]}",
        other: false,
        status: 0,
        line: b"",
        apps: Some(
            "{\"functions\":[[0,0],[0,12]],\"name\":\"sh\"},{\"functions\":[[0,0]],\"name\":\"vi\"}",
        ),
    },
    Merged {
        label: "views of two kernels",
        first: "",
        second: "",
        other: true,
        status: 5,
        line: b"5 views 3 OtherText\n",
        apps: None,
    },
    Merged {
        label: "sixteen names of two files",
        first: EIGHT,
        second: OTHER_EIGHT,
        other: false,
        status: 5,
        line: b"5 views 5 TooManyApps\n",
        apps: None,
    },
];

fn unions() -> &'static [Merged] {
    &MERGED
}

#[test]
fn unions_are_as_worked_out(rt: HostRuntime) -> Result<(), Fail> {
    let alloc = rt.alloc();
    let image = image_of(alloc, PUT, "", PUT_FUNCTIONS)?;
    let handled = image_of(alloc, HANDLED, "", HANDLED_FUNCTIONS)?;
    for row in unions() {
        let label = row.label;
        let other = if row.other { &handled } else { &image };
        let first = views_of(alloc, image.as_bytes(), row.first, "", "1")?;
        let second = views_of(alloc, other.as_bytes(), row.second, "", "1")?;
        let came = call(
            alloc,
            &["merge", "a", "b", "out"],
            first.as_bytes(),
            second.as_bytes(),
        )?;
        assert_eq!(rt; came.status, row.status, "{label}: status");
        assert!(rt; came.err.bytes() == row.line, "{label}: line");
        let wanted = match row.apps {
            Some(apps) => Some(views_of(alloc, image.as_bytes(), apps, "", "2")?),
            None => None,
        };
        let views = wanted.as_ref().map(|text| text.as_bytes());
        assert!(rt; came.store.bytes("out") == views, "{label}: views");
    }
    Ok(())
}

/// A function that ends in a halfword with low bits 11 and the next are one group: `f` and `g` behind PUT.
const JOINED: &str = "67808280";

const JOINED_FUNCTIONS: &str = "[2147483648,\"main\"],[2147483660,\"f\"],[2147483674,\"g\"]";

#[test]
fn sizes_count_whole_groups(rt: HostRuntime) -> Result<(), Fail> {
    let alloc = rt.alloc();
    let image = image_of(alloc, PUT, "", PUT_FUNCTIONS)?;
    let sh = views_of(
        alloc,
        image.as_bytes(),
        "{\"name\":\"sh\",\"functions\":[0]}",
        "",
        "1",
    )?;
    let came = call(alloc, &["show", "a", "b"], image.as_bytes(), sh.as_bytes())?;
    assert_eq!(rt; came.status, 0, "one of two functions: status");
    assert!(rt;
        came.out.bytes() == b"text 2 2 4096\nsh 1 1 12\n".as_slice(),
        "one of two functions: sizes"
    );
    let joined = image_of(alloc, PUT, JOINED, JOINED_FUNCTIONS)?;
    let second = views_of(
        alloc,
        joined.as_bytes(),
        "{\"name\":\"sh\",\"functions\":[26]}",
        "",
        "1",
    )?;
    let came = call(
        alloc,
        &["show", "a", "b"],
        joined.as_bytes(),
        second.as_bytes(),
    )?;
    assert!(rt;
        came.out.bytes() == b"text 3 2 4096\nsh 2 1 4084\n".as_slice(),
        "one of two joined functions: sizes"
    );
    let unknown = views_of(
        alloc,
        image.as_bytes(),
        "{\"name\":\"sh\",\"functions\":[2]}",
        "",
        "1",
    )?;
    let came = call(
        alloc,
        &["show", "a", "b"],
        image.as_bytes(),
        unknown.as_bytes(),
    )?;
    assert_eq!(rt; came.status, 5, "an unknown function: status");
    assert!(rt;
        came.err.bytes() == b"5 views 4 UnknownFunction 0 2\n".as_slice(),
        "an unknown function: line"
    );
    Ok(())
}
