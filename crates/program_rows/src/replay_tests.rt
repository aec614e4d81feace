//! Traces of one driven run that were changed, and what their replay says: each value that is compared, and those that are
//! not.

use crate::drive_tables::{STALE_SCRIPT, TWENTY};
use crate::fixtures::{Guest, Wanted, patched, trace_of};
use crate::kernels::WIDE;
use crate::try_tables::FIRST;
use std::alloc::Global;
use std::test::Fail;

// The run is that of the kernel with a wide instruction, whose two vCPUs make 11 steps in 8 runs. Its trace has one entry
// with one place, and two views.

/// The offset of the steps of the fourth run, which are 3.
const FOURTH_STEPS: usize = 29;

/// The offset of the steps of the last run, which is 1.
const LAST_STEPS: usize = 49;

/// The offset of the clock of the entry, which is 1.
const ENTRY_CLOCK: usize = 61;

/// The offset of the end.
const END: usize = 82;

/// The offset of the values of the first vCPU, the bytes of the values of each, and how many values each has.
const STATES: usize = 83;

const STATE: usize = 345;

const VALUES: usize = 44;

/// The number of the mode among the values, the one that has a single byte.
const MODE: usize = 32;

/// The offset of the digest of the memory, and that of the digest of the pages of the first view.
const MEMORY: usize = 773;

const PAGES: usize = 806;

/// A change of the trace, and what comes of its replay.
struct Change {
    label: &'static str,
    patch: (usize, u8),
    status: u8,
    console: &'static [u8],
    line: &'static [u8],
}

static CHANGES: [Change; 7] = [
    Change {
        label: "a schedule that is too long by one",
        patch: (LAST_STEPS, 2),
        status: 11,
        console: b"",
        line: b"11 differs schedule 11 12\n",
    },
    Change {
        label: "a schedule with a step less, after which the run goes on",
        patch: (FOURTH_STEPS, 2),
        status: 11,
        console: b"",
        line: b"11 differs end Running Shutdown\n",
    },
    Change {
        label: "another end",
        patch: (END, 0),
        status: 11,
        console: b"",
        line: b"11 differs end Shutdown Spent\n",
    },
    Change {
        label: "a stop in the place of the end",
        patch: (END, 3),
        status: 11,
        console: b"",
        line: b"11 differs end Shutdown TableInText\n",
    },
    Change {
        label: "another memory",
        patch: (MEMORY, 0x0d),
        status: 11,
        console: b"",
        line: b"11 differs memory 8dd75040b288398cdbc328cdbd09767dabc37de34b687690637c69a0a3e3860e 0dd75040b288398cdbc328cdbd09767dabc37de34b687690637c69a0a3e3860e\n",
    },
    Change {
        label: "another clock of the entry, which the full kernel has not",
        patch: (ENTRY_CLOCK, 2),
        status: 0,
        console: b"AA",
        line: b"",
    },
    Change {
        label: "other pages of a view, which the full kernel has not",
        patch: (PAGES, 0),
        status: 0,
        console: b"AA",
        line: b"",
    },
];

fn changes() -> &'static [Change] {
    &CHANGES
}

/// The names of the values of a vCPU, in order.
static NAMES: [&str; VALUES] = [
    "x1",
    "x2",
    "x3",
    "x4",
    "x5",
    "x6",
    "x7",
    "x8",
    "x9",
    "x10",
    "x11",
    "x12",
    "x13",
    "x14",
    "x15",
    "x16",
    "x17",
    "x18",
    "x19",
    "x20",
    "x21",
    "x22",
    "x23",
    "x24",
    "x25",
    "x26",
    "x27",
    "x28",
    "x29",
    "x30",
    "x31",
    "pc",
    "mode",
    "sstatus",
    "sie",
    "stvec",
    "scounteren",
    "sscratch",
    "sepc",
    "scause",
    "stval",
    "satp",
    "soft",
    "timer",
];

fn names() -> &'static [&'static str] {
    &NAMES
}

/// The values of each vCPU at the end that are not 0, by their numbers: x1, x17, pc, mode, sstatus and timer. The first has
/// printed, and the second has shut the machine down.
static ENDS: [[(usize, u64); 6]; 2] = [
    [
        (0, 0x8000_0004),
        (16, 1),
        (31, 0x8000_0048),
        (MODE, 1),
        (33, 0x2_0000_0000),
        (43, u64::MAX),
    ],
    [
        (0, 0x8000_0004),
        (16, 8),
        (31, 0x8000_0006),
        (MODE, 1),
        (33, 0x2_0000_0000),
        (43, u64::MAX),
    ],
];

fn ends() -> &'static [[(usize, u64); 6]] {
    &ENDS
}

/// The value of this number.
fn value_of(values: &[(usize, u64)], number: usize) -> u64 {
    for (at, value) in values {
        if *at == number {
            return *value;
        }
    }
    0
}

/// The offset of a value's lowest byte.
fn offset_of(vcpu: usize, number: usize) -> usize {
    let before = number.saturating_mul(8);
    let before = if number > MODE {
        before.saturating_sub(7)
    } else {
        before
    };
    STATE
        .saturating_mul(vcpu)
        .saturating_add(STATES)
        .saturating_add(before)
}

/// The guest of the run, and its trace.
fn guest(alloc: Global) -> Result<(Guest, Vec<u8>), Fail> {
    let guest = Guest::new(alloc, &WIDE, "", FIRST)?;
    let came = guest.drive(alloc, TWENTY, STALE_SCRIPT)?;
    let trace = Vec::from_slice(alloc, trace_of(&came))?;
    Ok((guest, trace))
}

#[test]
fn changed_traces_have_their_first_difference(rt: HostRuntime) -> Result<(), Fail> {
    let alloc = rt.alloc();
    let (guest, trace) = guest(alloc)?;
    for row in changes() {
        let changed = patched(alloc, &trace, &[row.patch])?;
        assert!(rt;
            changed.as_slice() != trace.as_slice(),
            "{}: no change",
            row.label
        );
        let came = guest.replay(alloc, TWENTY, &changed)?;
        let wanted = Wanted {
            status: row.status,
            console: row.console,
            log: None,
            line: row.line,
        };
        came.is(&rt, row.label, &wanted);
    }
    Ok(())
}

/// The lowest bit of each value of each vCPU is the other one.
#[test]
fn each_value_of_each_vcpu_is_compared(rt: HostRuntime) -> Result<(), Fail> {
    let alloc = rt.alloc();
    let (guest, trace) = guest(alloc)?;
    for (vcpu, values) in ends().iter().enumerate() {
        for (number, name) in names().iter().enumerate() {
            let offset = offset_of(vcpu, number);
            let byte = *trace.get(offset).ok_or("a short trace")?;
            let changed = patched(alloc, &trace, &[(offset, byte ^ 1)])?;
            let left = value_of(values, number);
            let right = left ^ 1;
            let came = guest.replay(alloc, TWENTY, &changed)?;
            let line = format!(in alloc; "11 differs vcpu {vcpu} {name} 0x{left:x} 0x{right:x}\n")?;
            assert_eq!(rt; came.status, 11, "{vcpu} {name}: status");
            assert!(rt; came.err.bytes() == line.as_bytes(), "{vcpu} {name}: line");
            assert!(rt; came.out.bytes().is_empty(), "{vcpu} {name}: console");
        }
    }
    Ok(())
}

/// The trace is of two vCPUs.
#[test]
fn setups_of_other_numbers_of_vcpus_differ(rt: HostRuntime) -> Result<(), Fail> {
    let alloc = rt.alloc();
    let (guest, trace) = guest(alloc)?;
    let one = "{\"vcpus\":1,\"ram\":65536,\"steps\":20,\"start\":\"sh\"}";
    let three = "{\"vcpus\":3,\"ram\":65536,\"steps\":20,\"start\":\"sh\"}";
    for (setup, line) in [
        (one, b"11 differs vcpus 1 2\n".as_slice()),
        (three, b"11 differs vcpus 3 2\n".as_slice()),
    ] {
        let came = guest.replay(alloc, setup, &trace)?;
        assert_eq!(rt; came.status, 11, "{setup}: status");
        assert!(rt; came.err.bytes() == line, "{setup}: line");
        assert!(rt; came.out.bytes().is_empty(), "{setup}: console");
    }
    Ok(())
}

/// The bytes end behind the first run of the schedule.
#[test]
fn a_trace_that_is_cut_off_is_refused(rt: HostRuntime) -> Result<(), Fail> {
    let alloc = rt.alloc();
    let (guest, trace) = guest(alloc)?;
    assert!(rt; trace.len() == 870);
    let came = guest.replay(alloc, TWENTY, &trace[..18])?;
    let wanted = Wanted {
        status: 6,
        console: b"",
        log: None,
        line: b"6 trace 2 Truncated 18\n",
    };
    came.is(&rt, "18 bytes", &wanted);
    Ok(())
}
