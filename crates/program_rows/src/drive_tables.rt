//! Runs, setups, scripts and lines of the tests of `drive`. Each table is handed out by a function, so that a test speaks
//! of any table of this form.

use crate::fixtures::{Fails, Wanted};
use crate::kernels::{
    FINAL, FOUR_LEVELS, Kernel, MASKED, PUT, SPLIT, TABLE_OF_FOUR, TASKS, UNMAPPED, WIDE,
};
use crate::try_tables::FIRST;
use fc_numbers::machine::{End, Stop};

/// A run of `drive image setup views script trace log`, and what it comes to.
pub(crate) struct Run {
    pub(crate) label: &'static str,
    pub(crate) kernel: Kernel,
    /// The shared functions and the apps of its views.
    pub(crate) shared: &'static str,
    pub(crate) apps: &'static str,
    pub(crate) setup: &'static str,
    pub(crate) script: &'static str,
    pub(crate) wanted: Wanted,
    /// The runs of the schedule: a vCPU, and how many steps it makes.
    pub(crate) runs: &'static [(u8, usize)],
    pub(crate) end: End,
}

/// Two vCPUs of the app `sh`, with 20 steps each.
pub(crate) const TWENTY: &str = "{\"vcpus\":2,\"ram\":65536,\"steps\":20,\"start\":\"sh\"}";

/// The same setup with second-stage tables of four levels.
pub(crate) const TWENTY_BY_FOUR: &str =
    "{\"vcpus\":2,\"ram\":65536,\"steps\":20,\"start\":\"sh\",\"gstage\":\"sv48x4\"}";

/// One vCPU without a name, with 100 steps.
const HUNDRED: &str = "{\"vcpus\":1,\"ram\":65536,\"steps\":100}";

/// vCPU 0 mends, and vCPU 1 holds a line from before the mend.
pub(crate) const STALE_SCRIPT: &str = "00000 111 0 111 111";

pub(crate) const STALE_LOG: &[u8] = b"1 0 sh 0x8000003e w+0x0 0x8000003e 0x80001000 main+0x4\n";

static RUNS: [Run; 12] = [
    Run {
        label: "a stale zero is trapped on, and the line is copied anew, both halves of the wide instruction",
        kernel: WIDE,
        shared: "",
        apps: FIRST,
        setup: TWENTY,
        script: STALE_SCRIPT,
        wanted: Wanted {
            status: 0,
            console: b"AA",
            log: Some(STALE_LOG),
            line: b"",
        },
        runs: &[
            (0, 1),
            (1, 2),
            (0, 1),
            (1, 3),
            (0, 1),
            (1, 1),
            (0, 1),
            (1, 1),
        ],
        end: End::Shutdown,
    },
    Run {
        label: "both trap, and the second to trap mends first",
        kernel: WIDE,
        shared: "",
        apps: FIRST,
        setup: TWENTY,
        script: "00000 11111 1 0",
        wanted: Wanted {
            status: 0,
            console: b"AA",
            log: Some(b"2 1 sh 0x8000003e w+0x0 0x8000003e 0x80001000 main+0x4\n"),
            line: b"",
        },
        runs: &[
            (0, 1),
            (1, 1),
            (0, 1),
            (1, 1),
            (0, 1),
            (1, 1),
            (0, 1),
            (1, 1),
            (0, 1),
            (1, 1),
            (0, 1),
            (1, 1),
            (0, 1),
        ],
        end: End::Shutdown,
    },
    Run {
        label: "an interrupt that is due goes before missing code",
        kernel: MASKED,
        shared: "28",
        apps: FIRST,
        setup: "{\"vcpus\":1,\"ram\":65536,\"steps\":100,\"start\":\"sh\",\"events\":[[7,\"raise\",0]]}",
        script: "",
        wanted: Wanted {
            status: 0,
            console: b"",
            log: Some(b"10 0 sh 0x80000024 m+0x0 0x80000024 0x80001000\n"),
            line: b"",
        },
        runs: &[(0, 12)],
        end: End::Shutdown,
    },
    Run {
        label: "without the interrupt the missing code comes first",
        kernel: MASKED,
        shared: "28",
        apps: FIRST,
        setup: "{\"vcpus\":1,\"ram\":65536,\"steps\":100,\"start\":\"sh\"}",
        script: "",
        wanted: Wanted {
            status: 0,
            console: b"",
            log: Some(b"7 0 sh 0x80000024 m+0x0 0x80000024 0x80001000\n"),
            line: b"",
        },
        runs: &[(0, 9)],
        end: End::Shutdown,
    },
    Run {
        label: "an interrupt comes between a trap and its mend, and the entry stands",
        kernel: FINAL,
        shared: "28",
        apps: FIRST,
        setup: "{\"vcpus\":2,\"ram\":65536,\"steps\":100,\"start\":\"sh\",\"events\":[[8,\"raise\",0]]}",
        script: "00000000000 111 000000",
        wanted: Wanted {
            status: 0,
            console: b"",
            log: Some(b"7 0 sh 0x80000024 m+0x0 0x80000024 0x80001000\n"),
            line: b"",
        },
        runs: &[(0, 7), (1, 1), (0, 3)],
        end: End::Shutdown,
    },
    Run {
        label: "a page is unmapped between a trap and its mend, and the entry stands",
        kernel: UNMAPPED,
        shared: "",
        apps: FIRST,
        setup: "{\"vcpus\":2,\"ram\":65536,\"steps\":12,\"start\":\"sh\"}",
        script: "000000000000 111111 0",
        wanted: Wanted {
            status: 0,
            console: b"",
            log: Some(b"8 0 sh 0x80000024 f+0x0 0x80000024 0x80001000\n"),
            line: b"",
        },
        runs: &[
            (0, 8),
            (1, 4),
            (0, 1),
            (1, 1),
            (0, 1),
            (1, 1),
            (0, 1),
            (1, 1),
            (0, 1),
            (1, 5),
        ],
        end: End::Spent,
    },
    Run {
        label: "eight vCPUs make one step each",
        kernel: PUT,
        shared: "",
        apps: "",
        setup: "{\"vcpus\":8,\"ram\":65536,\"steps\":1}",
        script: "",
        wanted: Wanted {
            status: 0,
            console: b"",
            log: Some(b""),
            line: b"",
        },
        runs: &[
            (0, 1),
            (1, 1),
            (2, 1),
            (3, 1),
            (4, 1),
            (5, 1),
            (6, 1),
            (7, 1),
        ],
        end: End::Spent,
    },
    Run {
        label: "what a script asks for behind the end does nothing",
        kernel: PUT,
        shared: "",
        apps: "",
        setup: "{\"vcpus\":2,\"ram\":65536,\"steps\":7}",
        script: "0000000000000000 1111",
        wanted: Wanted {
            status: 0,
            console: b"A",
            log: Some(b""),
            line: b"",
        },
        runs: &[(0, 7)],
        end: End::Shutdown,
    },
    Run {
        label: "the halves of an instruction do not stand side by side",
        kernel: SPLIT,
        shared: "",
        apps: "",
        setup: HUNDRED,
        script: "",
        wanted: Wanted {
            status: 9,
            console: b"",
            log: Some(b""),
            line: b"9 stop TextSplit\n",
        },
        runs: &[(0, 8)],
        end: End::Stopped(Stop::TextSplit),
    },
    Run {
        label: "satp names a page of text, for tables of four levels",
        kernel: TABLE_OF_FOUR,
        shared: "",
        apps: "",
        setup: HUNDRED,
        script: "",
        wanted: Wanted {
            status: 9,
            console: b"",
            log: Some(b""),
            line: b"9 stop TableInText\n",
        },
        runs: &[(0, 7)],
        end: End::Stopped(Stop::TableInText),
    },
    Run {
        label: "a kernel maps itself by four levels",
        kernel: FOUR_LEVELS,
        shared: "",
        apps: "",
        setup: HUNDRED,
        script: "",
        wanted: Wanted {
            status: 0,
            console: b"",
            log: Some(b""),
            line: b"",
        },
        runs: &[(0, 8)],
        end: End::Shutdown,
    },
    Run {
        label: "the hook names six tasks; two of the names are those of apps, whose views lack f",
        kernel: TASKS,
        shared: "0,32",
        apps: "{\"name\":\"sh\",\"functions\":[]},{\"name\":\"abcdefghijklmnop\",\"functions\":[]}",
        setup: "{\"vcpus\":1,\"ram\":65536,\"steps\":100,\"hook\":\"hook\",\"name_at\":8,\"start\":\"sh\"}",
        script: "",
        wanted: Wanted {
            status: 0,
            console: b"",
            log: Some(
                b"34 0 abcdefghijklmnop 0x80000022 f+0x0 0x80000022 0x80001000 main+0x14\n41 0 sh 0x80000022 f+0x0 0x80000022 0x80001000 main+0x14\n",
            ),
            line: b"",
        },
        runs: &[(0, 46)],
        end: End::Shutdown,
    },
];

pub(crate) fn runs() -> &'static [Run] {
    &RUNS
}

/// Scripts for two vCPUs that add to one word.
static ADDING_SCRIPTS: [&str; 10] = [
    "",
    "0",
    "1",
    "01 01 01 01 01 01 01 01 01 01",
    "10 10 10 10 10 10 10 10 10 10",
    "000000000000000000000000000000000000",
    "111111111111111111111111111111111111",
    "00000 11111 1 0 1 0 1 0",
    "0000 1111 00 11 0 1 00 11\n",
    "11111 0 1 0 11 00 111 000 1111 0000",
];

pub(crate) fn adding_scripts() -> &'static [&'static str] {
    &ADDING_SCRIPTS
}

/// A setup and a script, for a kernel with data parts, of which one is refused, and the line that says so.
pub(crate) struct RefusedRun {
    pub(crate) label: &'static str,
    pub(crate) setup: &'static str,
    pub(crate) script: &'static str,
    pub(crate) status: u8,
    pub(crate) line: &'static [u8],
}

static REFUSED: [RefusedRun; 12] = [
    RefusedRun {
        label: "a setup that is no JSON",
        setup: "{",
        script: "",
        status: 4,
        line: b"4 setup 1 NotJson\n",
    },
    RefusedRun {
        label: "a setup without steps",
        setup: "{\"vcpus\":2,\"ram\":65536}",
        script: "",
        status: 4,
        line: b"4 setup 2 Shape steps\n",
    },
    RefusedRun {
        label: "a second stage of five levels",
        setup: "{\"vcpus\":2,\"ram\":65536,\"steps\":20,\"start\":\"sh\",\"gstage\":\"sv57x4\"}",
        script: "",
        status: 4,
        line: b"4 setup 2 Shape gstage\n",
    },
    RefusedRun {
        label: "nine vCPUs",
        setup: "{\"vcpus\":9,\"ram\":65536,\"steps\":20}",
        script: "",
        status: 4,
        line: b"4 setup 3 Limit vcpus\n",
    },
    RefusedRun {
        label: "more than 16,777,216 steps of all",
        setup: "{\"vcpus\":8,\"ram\":65536,\"steps\":2097153}",
        script: "",
        status: 4,
        line: b"4 setup 3 Limit steps\n",
    },
    RefusedRun {
        label: "a hook that is no function",
        setup: "{\"vcpus\":2,\"ram\":65536,\"steps\":20,\"hook\":\"switch_to\"}",
        script: "",
        status: 4,
        line: b"4 setup 4 NoHook\n",
    },
    RefusedRun {
        label: "events out of order",
        setup: "{\"vcpus\":2,\"ram\":65536,\"steps\":20,\"events\":[[7,\"raise\",0],[5,\"key\",65]]}",
        script: "",
        status: 4,
        line: b"4 setup 5 EventOrder 1\n",
    },
    RefusedRun {
        label: "a data part behind the end of RAM",
        setup: "{\"vcpus\":2,\"ram\":16384,\"steps\":20}",
        script: "",
        status: 4,
        line: b"4 setup 6 ImageOutsideRam\n",
    },
    RefusedRun {
        label: "the setup goes before the script",
        setup: "{}",
        script: "x",
        status: 4,
        line: b"4 setup 2 Shape vcpus\n",
    },
    RefusedRun {
        label: "a digit that is no vCPU",
        setup: TWENTY,
        script: "02",
        status: 6,
        line: b"6 script 9 BadVcpu 1\n",
    },
    RefusedRun {
        label: "a letter in a script",
        setup: TWENTY,
        script: "0x",
        status: 6,
        line: b"6 script 8 NotScript 1\n",
    },
    RefusedRun {
        label: "a tab in a script",
        setup: TWENTY,
        script: "0\t1",
        status: 6,
        line: b"6 script 8 NotScript 1\n",
    },
];

pub(crate) fn refused_runs() -> &'static [RefusedRun] {
    &REFUSED
}

/// A run in which calls of the outside fail, and what comes of it.
pub(crate) struct FailingRun {
    pub(crate) label: &'static str,
    pub(crate) fails: Fails,
    /// Whether the trace is whole; else it is absent.
    pub(crate) trace: bool,
    pub(crate) wanted: Wanted,
}

static FAILING: [FailingRun; 7] = [
    FailingRun {
        label: "the image is not read",
        fails: Fails {
            read: 1,
            write: 0,
            out: (0, 0),
            err: (0, 0),
        },
        trace: false,
        wanted: Wanted {
            status: 7,
            console: b"",
            log: None,
            line: b"7 read image\n",
        },
    },
    FailingRun {
        label: "the setup is not read",
        fails: Fails {
            read: 2,
            write: 0,
            out: (0, 0),
            err: (0, 0),
        },
        trace: false,
        wanted: Wanted {
            status: 7,
            console: b"",
            log: None,
            line: b"7 read setup\n",
        },
    },
    FailingRun {
        label: "the views are not read",
        fails: Fails {
            read: 3,
            write: 0,
            out: (0, 0),
            err: (0, 0),
        },
        trace: false,
        wanted: Wanted {
            status: 7,
            console: b"",
            log: None,
            line: b"7 read views\n",
        },
    },
    FailingRun {
        label: "the script is not read",
        fails: Fails {
            read: 4,
            write: 0,
            out: (0, 0),
            err: (0, 0),
        },
        trace: false,
        wanted: Wanted {
            status: 7,
            console: b"",
            log: None,
            line: b"7 read script\n",
        },
    },
    FailingRun {
        label: "the trace is not written",
        fails: Fails {
            read: 0,
            write: 1,
            out: (0, 0),
            err: (0, 0),
        },
        trace: false,
        wanted: Wanted {
            status: 8,
            console: b"",
            log: None,
            line: b"8 write trace\n",
        },
    },
    FailingRun {
        label: "the log is not written",
        fails: Fails {
            read: 0,
            write: 2,
            out: (0, 0),
            err: (0, 0),
        },
        trace: true,
        wanted: Wanted {
            status: 8,
            console: b"",
            log: None,
            line: b"8 write log\n",
        },
    },
    FailingRun {
        label: "standard output takes one byte",
        fails: Fails {
            read: 0,
            write: 0,
            out: (1, 1),
            err: (0, 0),
        },
        trace: true,
        wanted: Wanted {
            status: 8,
            console: b"A",
            log: Some(STALE_LOG),
            line: b"8 write -\n",
        },
    },
];

pub(crate) fn failing_runs() -> &'static [FailingRun] {
    &FAILING
}
