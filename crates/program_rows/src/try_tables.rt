//! Runs, files and lines of the tests of `try`. Each table is handed out by a function, so that a test speaks of any table
//! of this form.

use crate::fixtures::{Fails, NONE_FAILS, Wanted};
use crate::kernels::{
    FOUR_LEVELS, JOINED, JUMPS, Kernel, LOADS, LOADS_BY_PAIR, PUT, PUT_TURNED, SPLIT, STORES,
    TABLE_OF_FOUR, TABLE_OF_THREE, TIMER, WIDE_AT_THE_END, ZERO, ZERO_APART,
};

/// A run of `try image views sh 100 log`: the kernel, and the apps of its views.
pub(crate) struct Row {
    pub(crate) label: &'static str,
    pub(crate) kernel: Kernel,
    pub(crate) apps: &'static str,
    pub(crate) wanted: Wanted,
}

/// Views that list the function at offset 0 alone.
pub(crate) const FIRST: &str = "{\"name\":\"sh\",\"functions\":[0]}";

/// The log of a run in which put is missing.
pub(crate) const PUT_LOG: &[u8] = b"1 0 sh 0x8000000c put+0x0 0x8000000c 0x80001000 main+0x4\n";

static ROWS: [Row; 16] = [
    Row {
        label: "put is missing",
        kernel: PUT_TURNED,
        apps: FIRST,
        wanted: Wanted {
            status: 0,
            console: b"A",
            log: Some(PUT_LOG),
            line: b"",
        },
    },
    Row {
        label: "both are listed",
        kernel: PUT,
        apps: "{\"name\":\"sh\",\"functions\":[0,12]}",
        wanted: Wanted {
            status: 0,
            console: b"A",
            log: Some(b""),
            line: b"",
        },
    },
    Row {
        label: "nothing is listed",
        kernel: PUT,
        apps: "{\"name\":\"sh\",\"functions\":[]}",
        wanted: Wanted {
            status: 0,
            console: b"A",
            log: Some(
                b"0 0 sh 0x80000000 main+0x0 0x80000000 0x8000000c\n1 0 sh 0x8000000c put+0x0 0x8000000c 0x80001000 main+0x4\n",
            ),
            line: b"",
        },
    },
    Row {
        label: "a load of a missing function's byte",
        kernel: LOADS,
        apps: FIRST,
        wanted: Wanted {
            status: 0,
            console: b"B",
            log: Some(b""),
            line: b"",
        },
    },
    Row {
        label: "the same over a pair of instructions",
        kernel: LOADS_BY_PAIR,
        apps: FIRST,
        wanted: Wanted {
            status: 0,
            console: b"B",
            log: Some(b""),
            line: b"",
        },
    },
    Row {
        label: "a zero of the guest's own traps into its handler with cause 2",
        kernel: ZERO,
        apps: FIRST,
        wanted: Wanted {
            status: 0,
            console: b"2",
            log: Some(b""),
            line: b"",
        },
    },
    Row {
        label: "the same where the zero is in a missing function: first it is restored",
        kernel: ZERO_APART,
        apps: "{\"name\":\"sh\",\"functions\":[0,16]}",
        wanted: Wanted {
            status: 0,
            console: b"2",
            log: Some(b"3 0 sh 0x8000000c bad+0x0 0x8000000c 0x80000010\n"),
            line: b"",
        },
    },
    Row {
        label: "f and g are joined",
        kernel: JOINED,
        apps: FIRST,
        wanted: Wanted {
            status: 0,
            console: b"A",
            log: Some(b"1 0 sh 0x8000000c f+0x0 0x8000000c 0x80001000 main+0x4\n"),
            line: b"",
        },
    },
    Row {
        label: "the tenth step is the timer interrupt",
        kernel: TIMER,
        apps: "",
        wanted: Wanted {
            status: 0,
            console: b"5",
            log: Some(b""),
            line: b"",
        },
    },
    Row {
        label: "the store-conditional goes to text",
        kernel: STORES,
        apps: "",
        wanted: Wanted {
            status: 9,
            console: b"",
            log: Some(b""),
            line: b"9 stop StoreToText\n",
        },
    },
    Row {
        label: "satp names a page of text",
        kernel: TABLE_OF_THREE,
        apps: "",
        wanted: Wanted {
            status: 9,
            console: b"",
            log: Some(b""),
            line: b"9 stop TableInText\n",
        },
    },
    Row {
        label: "satp names a page of text, for tables of four levels",
        kernel: TABLE_OF_FOUR,
        apps: "",
        wanted: Wanted {
            status: 9,
            console: b"",
            log: Some(b""),
            line: b"9 stop TableInText\n",
        },
    },
    Row {
        label: "a kernel maps itself by four levels",
        kernel: FOUR_LEVELS,
        apps: "",
        wanted: Wanted {
            status: 0,
            console: b"",
            log: Some(b""),
            line: b"",
        },
    },
    Row {
        label: "a jump behind text",
        kernel: JUMPS,
        apps: "",
        wanted: Wanted {
            status: 9,
            console: b"",
            log: Some(b""),
            line: b"9 stop KernelOutsideText\n",
        },
    },
    Row {
        label: "the halves of an instruction do not stand side by side",
        kernel: SPLIT,
        apps: "",
        wanted: Wanted {
            status: 9,
            console: b"",
            log: Some(b""),
            line: b"9 stop TextSplit\n",
        },
    },
    Row {
        label: "a wide instruction at the end of a range goes on behind it",
        kernel: WIDE_AT_THE_END,
        apps: "",
        wanted: Wanted {
            status: 9,
            console: b"",
            log: Some(b""),
            line: b"9 stop KernelOutsideText\n",
        },
    },
];

pub(crate) fn kernels() -> &'static [Row] {
    &ROWS
}

/// Words that are no listed form.
static FORMS: [(&str, &[&str]); 9] = [
    ("no words", &[]),
    ("the command alone", &["try"]),
    ("no log", &["try", "image", "views", "sh", "100"]),
    (
        "one word more",
        &["try", "image", "views", "sh", "100", "log", "more"],
    ),
    (
        "another command",
        &["run", "image", "views", "sh", "100", "log"],
    ),
    (
        "no app name",
        &["try", "image", "views", "a b", "100", "log"],
    ),
    ("no step", &["try", "image", "views", "sh", "0", "log"]),
    (
        "a leading zero",
        &["try", "image", "views", "sh", "007", "log"],
    ),
    (
        "too many steps",
        &["try", "image", "views", "sh", "16777217", "log"],
    ),
];

pub(crate) fn other_words() -> &'static [(&'static str, &'static [&'static str])] {
    &FORMS
}

/// The file of views of a test.
pub(crate) enum GivenViews {
    /// A file with this text.
    Text(&'static str),
    /// A file with the digest of the image, these shared functions and these apps.
    Listed(&'static str, &'static str),
}

/// An image without text.
const NO_TEXT: &[u8] = b"{\"base\":2147483648,\"entry\":2147483648,\"text\":\"\"}";

/// An image, or with none the first kernel, views, and how they are refused.
pub(crate) struct Refused {
    pub(crate) label: &'static str,
    pub(crate) image: Option<&'static [u8]>,
    pub(crate) views: GivenViews,
    pub(crate) status: u8,
    pub(crate) line: &'static [u8],
}

static FILES: [Refused; 11] = [
    Refused {
        label: "an image without text",
        image: Some(NO_TEXT),
        views: GivenViews::Text(""),
        status: 3,
        line: b"3 image 4 NoText\n",
    },
    Refused {
        label: "an odd number of digits",
        image: Some(b"{\"base\":2147483648,\"entry\":2147483648,\"text\":\"ef0\"}"),
        views: GivenViews::Text(""),
        status: 3,
        line: b"3 image 21 Shape text\n",
    },
    Refused {
        label: "an odd entry",
        image: Some(b"{\"base\":2147483648,\"entry\":2147483649,\"text\":\"6f000000\"}"),
        views: GivenViews::Text(""),
        status: 3,
        line: b"3 image 11 EntryOutside\n",
    },
    Refused {
        label: "an image that is no JSON",
        image: Some(b"{"),
        views: GivenViews::Text(""),
        status: 3,
        line: b"3 image 20 NotJson\n",
    },
    Refused {
        label: "four bytes of an ELF file",
        image: Some(b"\x7fELF"),
        views: GivenViews::Text(""),
        status: 3,
        line: b"3 image 3 Truncated\n",
    },
    Refused {
        label: "five parts of code",
        image: Some(
            b"{\"code\":[[2147483648,\"0100\"],[2147491840,\"0100\"],[2147500032,\"0100\"],[2147508224,\"0100\"],[2147516416,\"0100\"]],\"entry\":2147483648}",
        ),
        views: GivenViews::Text(""),
        status: 3,
        line: b"3 image 5 TooManyTexts\n",
    },
    Refused {
        label: "views that are no JSON",
        image: None,
        views: GivenViews::Text("{"),
        status: 5,
        line: b"5 views 1 NotJson\n",
    },
    Refused {
        label: "views that are a list",
        image: None,
        views: GivenViews::Text("[]"),
        status: 5,
        line: b"5 views 2 Shape\n",
    },
    Refused {
        label: "views of another text",
        image: None,
        views: GivenViews::Text(
            "{\"version\":1,\"text\":\"0000000000000000000000000000000000000000000000000000000000000000\",\"shared\":[],\"apps\":[]}",
        ),
        status: 5,
        line: b"5 views 3 OtherText\n",
    },
    Refused {
        label: "a function that the kernel has not",
        image: None,
        views: GivenViews::Listed("12,2", ""),
        status: 5,
        line: b"5 views 4 UnknownFunction 0 2\n",
    },
    Refused {
        label: "a name with a space",
        image: None,
        views: GivenViews::Listed("", "{\"name\":\"a b\",\"functions\":[]}"),
        status: 5,
        line: b"5 views 6 BadName\n",
    },
];

pub(crate) fn refused_files() -> &'static [Refused] {
    &FILES
}

/// The image of a call that meets failures.
pub(crate) enum GivenImage {
    /// The kernel of the first row.
    Put,
    /// None.
    Absent,
    /// A file with these bytes.
    Bytes(&'static [u8]),
}

/// Which calls fail, and what comes of it.
pub(crate) struct Failing {
    pub(crate) label: &'static str,
    pub(crate) image: GivenImage,
    pub(crate) fails: Fails,
    pub(crate) wanted: Wanted,
}

static FAILINGS: [Failing; 6] = [
    Failing {
        label: "no image",
        image: GivenImage::Absent,
        fails: NONE_FAILS,
        wanted: Wanted {
            status: 7,
            console: b"",
            log: None,
            line: b"7 read image\n",
        },
    },
    Failing {
        label: "the second read fails",
        image: GivenImage::Put,
        fails: Fails {
            read: 2,
            write: 0,
            out: (0, 0),
            err: (0, 0),
        },
        wanted: Wanted {
            status: 7,
            console: b"",
            log: None,
            line: b"7 read views\n",
        },
    },
    Failing {
        label: "the write fails",
        image: GivenImage::Put,
        fails: Fails {
            read: 0,
            write: 1,
            out: (0, 0),
            err: (0, 0),
        },
        wanted: Wanted {
            status: 8,
            console: b"",
            log: None,
            line: b"8 write log\n",
        },
    },
    Failing {
        label: "standard output fails",
        image: GivenImage::Put,
        fails: Fails {
            read: 0,
            write: 0,
            out: (1, 0),
            err: (0, 0),
        },
        wanted: Wanted {
            status: 8,
            console: b"",
            log: Some(PUT_LOG),
            line: b"8 write -\n",
        },
    },
    Failing {
        label: "standard error fails within the line",
        image: GivenImage::Absent,
        fails: Fails {
            read: 0,
            write: 0,
            out: (0, 0),
            err: (2, 3),
        },
        wanted: Wanted {
            status: 7,
            console: b"",
            log: None,
            line: b"7 re",
        },
    },
    Failing {
        label: "standard error fails at once",
        image: GivenImage::Bytes(NO_TEXT),
        fails: Fails {
            read: 0,
            write: 0,
            out: (0, 0),
            err: (1, 0),
        },
        wanted: Wanted {
            status: 3,
            console: b"",
            log: None,
            line: b"",
        },
    },
];

pub(crate) fn failings() -> &'static [Failing] {
    &FAILINGS
}
