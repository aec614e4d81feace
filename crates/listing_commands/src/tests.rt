//! What the commands print of small kernels, worked out by hand.

use crate::list::make_list;
use crate::surface::make_surface;
use crate::words::{is_surface, list_of};
use command_frame::answer::Ended;
use command_frame::fault::Fault;
use command_frame::product::{Product, Refusal};
use fc_outside::memory::MemStore;
use guest_image::image_file::read_image;
use std::alloc::Global;
use std::test::Fail;
use view_file::fault::ViewFault;

/// main: jal 12; li a7, 8; ecall; nop; put: li a7, 1; li a0, 65; ecall; ret
const PUT: &str = "ef00c000a148730000000100854813051004730000008280";

const PUT_FUNCTIONS: &str = "[2147483648,\"main\"],[2147483660,\"put\"]";

/// The same, and 67808280 behind it: f, which put is called here, ends in the first halfword of 80828067, and is joined
/// to g, which begins at its second one.
const JOINED: &str = "ef00c000a14873000000010085481305100473000000828067808280";

const JOINED_FUNCTIONS: &str = "[2147483648,\"main\"],[2147483660,\"f\"],[2147483674,\"g\"]";

/// main of PUT, and put of it in a second range.
const SPLIT: &str =
    "{\"code\":[[2147483648,\"ef200000a14873000000\"],[2147491840,\"854813051004730000008280\"]],\"entry\":2147483648,\"functions\":[[2147483648,\"main\"],[2147491840,\"put\"]]}";

const MAIN_LINES: &str = "0x80000000 0x8000000c main\n\
    0x80000000 00c000ef jal rd=1 imm=12\n\
    0x80000004 48a1 addi rd=17 rs1=0 imm=8\n\
    0x80000006 00000073 ecall\n\
    0x8000000a 0001 addi rd=0 rs1=0 imm=0\n";

const F_INSTRUCTIONS: &str = "0x8000000c 0x80001000 f\n\
    0x8000000c 4885 addi rd=17 rs1=0 imm=1\n\
    0x8000000e 04100513 addi rd=10 rs1=0 imm=65\n\
    0x80000012 00000073 ecall\n\
    0x80000016 8082 jalr rd=0 rs1=1 imm=0\n\
    0x80000018 80828067 jalr rd=0 rs1=5 imm=-2040\n";

const F_ZEROS: &str = "0x8000001c zero 2034\n";

const SPLIT_LINES: &str = "0x80002000 0x80003000 put\n\
    0x80002000 4885 addi rd=17 rs1=0 imm=1\n\
    0x80002002 04100513 addi rd=10 rs1=0 imm=65\n\
    0x80002006 00000073 ecall\n\
    0x8000200a 8082 jalr rd=0 rs1=1 imm=0\n\
    0x8000200c zero 2042\n";

/// The plain image of this text and these functions.
fn image_of(alloc: Global, text: &str, functions: &str) -> Result<String, Fail> {
    Ok(format!(in alloc;
        "{{\"base\":2147483648,\"entry\":2147483648,\"text\":\"{text}\",\"functions\":[{functions}]}}"
    )?)
}

/// Views for the image, of version 2.
fn views_of(alloc: Global, image: &str, apps: &str) -> Result<String, Fail> {
    let digest = match read_image(alloc, image.as_bytes()) {
        Ok(image) => hex::encode(alloc, image.digest)?,
        Err(_) => String::new(alloc),
    };
    Ok(format!(in alloc;
        "{{\"version\":2,\"text\":\"{digest}\",\"shared\":[],\"apps\":[{apps}]}}"
    )?)
}

/// A store with an image and views.
fn store_of(alloc: Global, image: &str, views: &str) -> Result<MemStore, Fail> {
    let mut store = MemStore::new(vec![in alloc; 0]?, vec![in alloc; 0]?);
    store.room(alloc, "image", Some(image.as_bytes()), image.len())?;
    store.room(alloc, "views", Some(views.as_bytes()), views.len())?;
    Ok(store)
}

fn words_of(alloc: Global, words: &[&str]) -> Result<Vec<String>, Fail> {
    let mut all = Vec::new(alloc);
    for word in words {
        all.push(String::from_str(alloc, word)?)?;
    }
    Ok(all)
}

/// What the words ask for.
fn made(
    alloc: Global,
    words: &[&str],
    store: &mut MemStore,
) -> Result<Option<Result<Product, Refusal>>, Fail> {
    let words = words_of(alloc, words)?;
    if is_surface(&words) {
        return Ok(Some(make_surface(alloc, &words, store)));
    }
    match list_of(&words) {
        Some(app) => Ok(Some(make_list(alloc, &words, &app, store))),
        None => Ok(None),
    }
}

/// Whether a command was served with no file and this text.
fn is_text(made: &Option<Result<Product, Refusal>>, pieces: &[&str]) -> bool {
    let Some(Ok(product)) = made else {
        return false;
    };
    if !product.files.as_slice().is_empty() || !matches!(product.ended, Ended::Finished) {
        return false;
    }
    let mut rest = product.out.as_slice();
    for piece in pieces {
        match rest.strip_prefix(piece.as_bytes()) {
            Some(behind) => rest = behind,
            None => return false,
        }
    }
    rest.is_empty()
}

/// A listing of a kernel of one range.
struct Row {
    label: &'static str,
    text: &'static str,
    functions: &'static str,
    apps: &'static str,
    app: &'static str,
    /// What is printed, piece by piece.
    wanted: &'static [&'static str],
}

const OF_MAIN: &str = "{\"name\":\"sh\",\"functions\":[[0,0]]}";

static ROWS: [Row; 5] = [
    Row {
        label: "main alone",
        text: PUT,
        functions: PUT_FUNCTIONS,
        apps: OF_MAIN,
        app: "sh",
        wanted: &[MAIN_LINES],
    },
    Row {
        label: "nothing",
        text: PUT,
        functions: PUT_FUNCTIONS,
        apps: "{\"name\":\"sh\",\"functions\":[]}",
        app: "sh",
        wanted: &[],
    },
    Row {
        label: "views without apps",
        text: JOINED,
        functions: JOINED_FUNCTIONS,
        apps: "",
        app: "none",
        wanted: &[MAIN_LINES, F_INSTRUCTIONS, F_ZEROS],
    },
    Row {
        label: "no app of this name",
        text: JOINED,
        functions: JOINED_FUNCTIONS,
        apps: OF_MAIN,
        app: "vi",
        wanted: &[MAIN_LINES, F_INSTRUCTIONS, F_ZEROS],
    },
    Row {
        label: "a joined function",
        text: JOINED,
        functions: JOINED_FUNCTIONS,
        apps: "{\"name\":\"sh\",\"functions\":[[0,26]]}",
        app: "sh",
        wanted: &[F_INSTRUCTIONS, F_ZEROS],
    },
];

fn rows() -> &'static [Row] {
    &ROWS
}

#[test]
fn present_code_is_listed_item_by_item(rt: HostRuntime) -> Result<(), Fail> {
    let alloc = rt.alloc();
    for row in rows() {
        let image = image_of(alloc, row.text, row.functions)?;
        let views = views_of(alloc, image.as_str(), row.apps)?;
        let mut store = store_of(alloc, image.as_str(), views.as_str())?;
        let made = made(alloc, &["list", "image", "views", row.app], &mut store)?;
        let label = row.label;
        assert!(rt; is_text(&made, row.wanted), "{label}");
    }
    Ok(())
}

#[test]
fn the_second_of_two_ranges_is_listed(rt: HostRuntime) -> Result<(), Fail> {
    let alloc = rt.alloc();
    let views = views_of(alloc, SPLIT, "{\"name\":\"sh\",\"functions\":[[1,0]]}")?;
    let mut store = store_of(alloc, SPLIT, views.as_str())?;
    let made = made(alloc, &["list", "image", "views", "sh"], &mut store)?;
    assert!(rt; is_text(&made, &[SPLIT_LINES]));
    Ok(())
}

/// The image of two ranges, a page apart: JOINED, zeros and the open halfword 0067 at the end of the first; at the second a
/// fence whose operands are named, and a halfword that loads 0 into register 0 but is not the least one that does.
fn ragged_image(alloc: Global) -> Result<String, Fail> {
    let mut first = String::from_str(alloc, JOINED)?;
    for _ in 0..2033 {
        first.push_str("0000")?;
    }
    let first = first.as_str();
    Ok(format!(in alloc;
        "{{\"code\":[[2147483648,\"{first}6700\"],[2147491840,\"0f00f00f0140\"]],\"entry\":2147483648,\"functions\":[{JOINED_FUNCTIONS},[2147491840,\"h\"]]}}"
    )?)
}

const RAGGED_LINES: &str = "0x8000001c zero 2033\n\
    0x80000ffe 0067 illegal\n\
    0x80002000 0x80003000 h\n\
    0x80002000 0ff0000f fence *\n\
    0x80002004 4001 addi rd=0 rs1=0 imm=0 *\n\
    0x80002006 zero 2045\n";

#[test]
fn the_last_open_halfword_of_a_range_is_illegal(rt: HostRuntime) -> Result<(), Fail> {
    let alloc = rt.alloc();
    let image = ragged_image(alloc)?;
    let apps = "{\"name\":\"sh\",\"functions\":[[0,12],[1,0]]}";
    let views = views_of(alloc, image.as_str(), apps)?;
    let mut store = store_of(alloc, image.as_str(), views.as_str())?;
    let made = made(alloc, &["list", "image", "views", "sh"], &mut store)?;
    assert!(rt; is_text(&made, &[F_INSTRUCTIONS, RAGGED_LINES]));
    Ok(())
}

#[test]
fn a_surface_has_a_line_for_the_text_and_one_for_each_app(rt: HostRuntime) -> Result<(), Fail> {
    let alloc = rt.alloc();
    let put = image_of(alloc, PUT, PUT_FUNCTIONS)?;
    let two =
        "{\"name\":\"sh\",\"functions\":[[0,0]]},{\"name\":\"vi\",\"functions\":[[0,0],[0,12]]}";
    for (label, image, apps, wanted) in [
        ("no app", put.as_str(), "", ["full 2048 4 1\n", ""]),
        (
            "main alone",
            put.as_str(),
            "{\"name\":\"sh\",\"functions\":[[0,0]]}",
            ["full 2048 4 1\n", "sh 6 2 0\n"],
        ),
        (
            "both",
            put.as_str(),
            "{\"name\":\"sh\",\"functions\":[[0,0],[0,12]]}",
            ["full 2048 4 1\n", "sh 2048 4 1\n"],
        ),
        (
            "two apps",
            put.as_str(),
            two,
            ["full 2048 4 1\nsh 6 2 0\n", "vi 2048 4 1\n"],
        ),
        (
            "one of two ranges",
            SPLIT,
            "{\"name\":\"sh\",\"functions\":[[1,0]]}",
            ["full 4096 4 2\n", "sh 2048 2 1\n"],
        ),
    ] {
        let views = views_of(alloc, image, apps)?;
        let mut store = store_of(alloc, image, views.as_str())?;
        let made = made(alloc, &["surface", "image", "views"], &mut store)?;
        assert!(rt; is_text(&made, &wanted), "{label}");
    }
    Ok(())
}

#[test]
fn refused_files_and_other_words_make_nothing(rt: HostRuntime) -> Result<(), Fail> {
    let alloc = rt.alloc();
    let put = image_of(alloc, PUT, PUT_FUNCTIONS)?;
    let other = views_of(alloc, SPLIT, "")?;
    let mut store = store_of(alloc, put.as_str(), other.as_str())?;
    for words in [
        &["list", "image", "views", "sh"][..],
        &["surface", "image", "views"][..],
    ] {
        let made = made(alloc, words, &mut store)?;
        assert!(rt;
            matches!(
                made,
                Some(Err(Refusal::Fault(Fault::Views(ViewFault::OtherText))))
            )
        );
    }
    for words in [
        &["list", "kernel", "views", "sh"][..],
        &["surface", "kernel", "views"][..],
    ] {
        let made = made(alloc, words, &mut store)?;
        assert!(rt; matches!(made, Some(Err(Refusal::Unread(1)))));
    }
    for words in [
        &[][..],
        &["list"][..],
        &["list", "image", "views"][..],
        &["list", "image", "views", "a b"][..],
        &["list", "image", "views", "12345678901234567"][..],
        &["list", "image", "views", "sh", "more"][..],
        &["surface", "image"][..],
        &["surface", "image", "views", "sh"][..],
    ] {
        assert!(rt; made(alloc, words, &mut store)?.is_none());
    }
    Ok(())
}
