//! Traces that were worked out by hand, and what their replay says: of a kernel that prints, and of two that are stopped.

use crate::replay::{is_replay, make_replay};
use command_frame::finish::finish;
use command_frame::line::tell;
use fc_outside::memory::MemStore;
use fc_outside::memory_sink::MemSink;
use std::alloc::Global;
use std::test::Fail;

/// The kernels.
#[derive(Clone, Copy)]
enum Kernel {
    /// At 0, `main`: jal put; li a7, 8; ecall. At 12, `put`: li a7, 1; li a0, 'A'; ecall; ret. It prints A and shuts down in
    /// its seventh step.
    Prints,
    /// j 0x80001000: the second step would fetch outside the text.
    Leaves,
    /// auipc t0, 2; srli t0, t0, 12; li t1, 8; slli t1, t1, 60; or t0, t0, t1; csrw satp, t0; j 0x80000ffe: there stands
    /// the first half of a wide instruction, whose second half is mapped to the place 0x80000000. The eighth step is the stop.
    Splits,
}

/// A trace, and what its replay comes to.
struct Row {
    label: &'static str,
    kernel: Kernel,
    vcpus: u8,
    steps: u32,
    end: u8,
    /// The values of each vCPU that are not 0, by their numbers.
    values: &'static [(usize, u64)],
    /// The digest of the memory, in hexadecimal.
    memory: &'static str,
    status: u8,
    line: &'static [u8],
    console: &'static [u8],
}

/// The numbers of values.
const RA: usize = 0;

const FIRST_TEMPORARY: usize = 4;

const SECOND_TEMPORARY: usize = 5;

const A0: usize = 9;

const A7: usize = 16;

const PC: usize = 31;

const MODE: usize = 32;

const SSTATUS: usize = 33;

const STVEC: usize = 35;

const SATP: usize = 41;

const SOFT: usize = 42;

const TIMER: usize = 43;

/// What all vCPUs have at last: supervisor mode, 64-bit user mode, no timer.
const VS: (usize, u64) = (MODE, 1);

const UXL: (usize, u64) = (SSTATUS, 0x2_0000_0000);

const NEVER: (usize, u64) = (TIMER, u64::MAX);

const PRINTED: &[(usize, u64)] = &[
    (RA, 0x8000_0004),
    (A7, 8),
    (PC, 0x8000_0006),
    VS,
    UXL,
    NEVER,
];

const PRINTS_MEMORY: &str = "e6f67307687292c8f6b974648684ff34d7c339a7cbea6b2af26db54144fb4bec";

static ROWS: [Row; 16] = [
    Row {
        label: "the trace of the run",
        kernel: Kernel::Prints,
        vcpus: 1,
        steps: 7,
        end: 1,
        values: PRINTED,
        memory: PRINTS_MEMORY,
        status: 0,
        line: b"",
        console: b"A",
    },
    Row {
        label: "another number of vCPUs, and before all else",
        kernel: Kernel::Prints,
        vcpus: 2,
        steps: 8,
        end: 0,
        values: PRINTED,
        memory: PRINTS_MEMORY,
        status: 11,
        line: b"11 differs vcpus 1 2\n",
        console: b"",
    },
    Row {
        label: "a schedule that is too long by one, before its end and its registers",
        kernel: Kernel::Prints,
        vcpus: 1,
        steps: 8,
        end: 0,
        values: &[(PC, 0x8000_0006), VS, UXL, NEVER],
        memory: PRINTS_MEMORY,
        status: 11,
        line: b"11 differs schedule 7 8\n",
        console: b"",
    },
    Row {
        label: "a schedule after which the run goes on",
        kernel: Kernel::Prints,
        vcpus: 1,
        steps: 6,
        end: 1,
        values: PRINTED,
        memory: PRINTS_MEMORY,
        status: 11,
        line: b"11 differs end Running Shutdown\n",
        console: b"",
    },
    Row {
        label: "another end, before a register",
        kernel: Kernel::Prints,
        vcpus: 1,
        steps: 7,
        end: 0,
        values: &[(PC, 0x8000_0006), VS, UXL, NEVER],
        memory: PRINTS_MEMORY,
        status: 11,
        line: b"11 differs end Shutdown Spent\n",
        console: b"",
    },
    Row {
        label: "another register",
        kernel: Kernel::Prints,
        vcpus: 1,
        steps: 7,
        end: 1,
        values: &[
            (RA, 0x8000_0004),
            (A0, 1),
            (A7, 8),
            (PC, 0x8000_0006),
            VS,
            UXL,
            NEVER,
        ],
        memory: PRINTS_MEMORY,
        status: 11,
        line: b"11 differs vcpu 0 x10 0x0 0x1\n",
        console: b"",
    },
    Row {
        label: "the first of two registers, before the program counter",
        kernel: Kernel::Prints,
        vcpus: 1,
        steps: 7,
        end: 1,
        values: &[(A7, 9), VS, UXL, NEVER],
        memory: PRINTS_MEMORY,
        status: 11,
        line: b"11 differs vcpu 0 x1 0x80000004 0x0\n",
        console: b"",
    },
    Row {
        label: "another program counter",
        kernel: Kernel::Prints,
        vcpus: 1,
        steps: 7,
        end: 1,
        values: &[
            (RA, 0x8000_0004),
            (A7, 8),
            (PC, 0x8000_000a),
            VS,
            UXL,
            NEVER,
        ],
        memory: PRINTS_MEMORY,
        status: 11,
        line: b"11 differs vcpu 0 pc 0x80000006 0x8000000a\n",
        console: b"",
    },
    Row {
        label: "another mode",
        kernel: Kernel::Prints,
        vcpus: 1,
        steps: 7,
        end: 1,
        values: &[(RA, 0x8000_0004), (A7, 8), (PC, 0x8000_0006), UXL, NEVER],
        memory: PRINTS_MEMORY,
        status: 11,
        line: b"11 differs vcpu 0 mode 0x1 0x0\n",
        console: b"",
    },
    Row {
        label: "another control register",
        kernel: Kernel::Prints,
        vcpus: 1,
        steps: 7,
        end: 1,
        values: &[
            (RA, 0x8000_0004),
            (A7, 8),
            (PC, 0x8000_0006),
            VS,
            UXL,
            (STVEC, 0xabc),
            NEVER,
        ],
        memory: PRINTS_MEMORY,
        status: 11,
        line: b"11 differs vcpu 0 stvec 0x0 0xabc\n",
        console: b"",
    },
    Row {
        label: "another software bit",
        kernel: Kernel::Prints,
        vcpus: 1,
        steps: 7,
        end: 1,
        values: &[
            (RA, 0x8000_0004),
            (A7, 8),
            (PC, 0x8000_0006),
            VS,
            UXL,
            (SOFT, 1),
            NEVER,
        ],
        memory: PRINTS_MEMORY,
        status: 11,
        line: b"11 differs vcpu 0 soft 0x0 0x1\n",
        console: b"",
    },
    Row {
        label: "another timer",
        kernel: Kernel::Prints,
        vcpus: 1,
        steps: 7,
        end: 1,
        values: &[
            (RA, 0x8000_0004),
            (A7, 8),
            (PC, 0x8000_0006),
            VS,
            UXL,
            (TIMER, 5),
        ],
        memory: PRINTS_MEMORY,
        status: 11,
        line: b"11 differs vcpu 0 timer 0xffffffffffffffff 0x5\n",
        console: b"",
    },
    Row {
        label: "another memory",
        kernel: Kernel::Prints,
        vcpus: 1,
        steps: 7,
        end: 1,
        values: PRINTED,
        memory: "e7f67307687292c8f6b974648684ff34d7c339a7cbea6b2af26db54144fb4bec",
        status: 11,
        line: b"11 differs memory e6f67307687292c8f6b974648684ff34d7c339a7cbea6b2af26db54144fb4bec e7f67307687292c8f6b974648684ff34d7c339a7cbea6b2af26db54144fb4bec\n",
        console: b"",
    },
    Row {
        label: "a stopped run",
        kernel: Kernel::Leaves,
        vcpus: 1,
        steps: 2,
        end: 4,
        values: &[(PC, 0x8000_1000), VS, UXL, NEVER],
        memory: "847b72549fdbc335efab3cf535e66038cfd1f3a3b53ef316e37b02fc0a475e7b",
        status: 9,
        line: b"9 stop KernelOutsideText\n",
        console: b"",
    },
    Row {
        label: "a stopped run whose trace names another stop",
        kernel: Kernel::Leaves,
        vcpus: 1,
        steps: 2,
        end: 5,
        values: &[(PC, 0x8000_1000), VS, UXL, NEVER],
        memory: "847b72549fdbc335efab3cf535e66038cfd1f3a3b53ef316e37b02fc0a475e7b",
        status: 11,
        line: b"11 differs end KernelOutsideText TextSplit\n",
        console: b"",
    },
    Row {
        label: "a wide instruction over two virtual pages of one place",
        kernel: Kernel::Splits,
        vcpus: 1,
        steps: 8,
        end: 5,
        values: &[
            (FIRST_TEMPORARY, 0x8000_0000_0008_0002),
            (SECOND_TEMPORARY, 0x8000_0000_0000_0000),
            (PC, 0x8000_0ffe),
            VS,
            UXL,
            (SATP, 0x8000_0000_0008_0002),
            NEVER,
        ],
        memory: "1f5f4e1212692633bd94e7238b7f9b97b5910d5bfcbc752a2fd5f1368d3e3c3a",
        status: 9,
        line: b"9 stop TextSplit\n",
        console: b"",
    },
];

/// The image of a kernel, as a file.
fn image(alloc: Global, kernel: Kernel) -> Result<String, Fail> {
    let mut file = String::from_str(
        alloc,
        "{\"base\":2147483648,\"entry\":2147483648,\"text\":\"",
    )?;
    match kernel {
        Kernel::Prints => file.push_str("ef00c000a148730000000100854813051004730000008280\"}")?,
        Kernel::Leaves => file.push_str("6f100000\"}")?,
        Kernel::Splits => {
            file.push_str("9722000093d2c20021437213b3e26200739002186f00b07e")?;
            for _ in 24..4094 {
                file.push_str("00")?;
            }
            file.push_str("9702\",\"data\":[[2147491856,\"010c002000000000\"],")?;
            file.push_str("[2147495936,\"0110002000000000\"],")?;
            file.push_str("[2147500032,\"4b000020000000004b00002000000000\"]]}")?;
        }
    }
    Ok(file)
}

/// The bytes of a trace with one run, no entry, and one view of a page of zeros.
fn trace(alloc: Global, row: &Row) -> Result<Vec<u8>, Fail> {
    let mut bytes = Vec::from_slice(alloc, b"FCTRACE1")?;
    bytes.push(row.vcpus)?;
    bytes.extend_from_slice(&[1, 0, 0, 0, 0])?;
    bytes.extend_from_slice(&row.steps.to_le_bytes())?;
    bytes.extend_from_slice(&[0, 0, 0, 0, row.end])?;
    for _ in 0..row.vcpus {
        for number in 0..44 {
            let mut value = 0;
            for (at, given) in row.values {
                if *at == number {
                    value = *given;
                }
            }
            if number == MODE {
                bytes.push(if value == 0 { 0 } else { 1 })?;
            } else {
                bytes.extend_from_slice(&value.to_le_bytes())?;
            }
        }
    }
    let memory = hex::decode(alloc, row.memory.as_bytes())?;
    bytes.extend_from_slice(memory.as_slice())?;
    bytes.push(1)?;
    bytes.extend_from_slice(&[0; 32])?;
    Ok(bytes)
}

/// What a call came to.
#[derive(Drop)]
struct Came {
    status: u8,
    out: MemSink,
    err: MemSink,
}

/// The command over a store with these files; the read of this number fails.
fn call(alloc: Global, image: &[u8], setup: &[u8], trace: &[u8], read: u64) -> Result<Came, Fail> {
    let mut words = Vec::new(alloc);
    for word in ["replay", "image", "setup", "trace"] {
        words.push(String::from_str(alloc, word)?)?;
    }
    let mut store = MemStore::new(vec![in alloc; read]?, Vec::new(alloc));
    store.room(alloc, "image", Some(image), image.len())?;
    store.room(alloc, "setup", Some(setup), setup.len())?;
    store.room(alloc, "trace", Some(trace), trace.len())?;
    let mut out = MemSink::new(alloc, 64, Vec::new(alloc))?;
    let mut err = MemSink::new(alloc, 256, Vec::new(alloc))?;
    let made = make_replay(alloc, &words, &mut store);
    let told = finish(alloc, &words, made, &mut store, &mut out);
    let status = tell(&mut err, &words, &told);
    Ok(Came { status, out, err })
}

const SETUP: &[u8] = b"{\"vcpus\":1,\"ram\":65536,\"steps\":100}";

#[test]
fn first_difference_is_told(rt: HostRuntime) -> Result<(), Fail> {
    let alloc = rt.alloc();
    for row in &ROWS {
        let image = image(alloc, row.kernel)?;
        let trace = trace(alloc, row)?;
        let came = call(alloc, image.as_bytes(), SETUP, &trace, 0)?;
        let label = row.label;
        assert!(rt; came.err.bytes() == row.line, "{label}: line");
        assert_eq!(rt; came.status, row.status, "{label}: status");
        assert!(rt; came.out.bytes() == row.console, "{label}: console");
    }
    Ok(())
}

/// Files of which one is refused or not read.
struct Refused {
    setup: &'static [u8],
    trace: &'static str,
    read: u64,
    status: u8,
    line: &'static [u8],
}

static REFUSED: [Refused; 5] = [
    Refused {
        setup: SETUP,
        trace: "464354524143453102080000000001000000",
        read: 0,
        status: 6,
        line: b"6 trace 2 Truncated 18\n",
    },
    Refused {
        setup: SETUP,
        trace: "4643545241434532010000000000000000",
        read: 0,
        status: 6,
        line: b"6 trace 1 NotTrace\n",
    },
    Refused {
        setup: b"{\"vcpus\":0,\"ram\":65536,\"steps\":100}",
        trace: "46",
        read: 0,
        status: 4,
        line: b"4 setup 3 Limit vcpus\n",
    },
    Refused {
        setup: SETUP,
        trace: "46",
        read: 2,
        status: 7,
        line: b"7 read setup\n",
    },
    Refused {
        setup: SETUP,
        trace: "46",
        read: 3,
        status: 7,
        line: b"7 read trace\n",
    },
];

#[test]
fn files_are_refused_in_their_order(rt: HostRuntime) -> Result<(), Fail> {
    let alloc = rt.alloc();
    for row in &REFUSED {
        let image = image(alloc, Kernel::Prints)?;
        let trace = hex::decode(alloc, row.trace.as_bytes())?;
        let came = call(alloc, image.as_bytes(), row.setup, &trace, row.read)?;
        let label = row.trace;
        assert!(rt; came.err.bytes() == row.line, "{label}: line");
        assert_eq!(rt; came.status, row.status, "{label}: status");
        assert!(rt; came.out.bytes().is_empty(), "{label}: console");
    }
    Ok(())
}

#[test]
fn words_are_four(rt: HostRuntime) -> Result<(), Fail> {
    let alloc = rt.alloc();
    for (count, wanted) in [(0, false), (3, false), (4, true), (5, false)] {
        let mut words = Vec::new(alloc);
        for _ in 0..count {
            words.push(String::from_str(alloc, "replay")?)?;
        }
        assert_eq!(rt; is_replay(&words), wanted, "{count}");
    }
    let other = vec![in alloc;
        String::from_str(alloc, "replays")?,
        String::new(alloc),
        String::new(alloc),
        String::new(alloc),
    ]?;
    assert!(rt; !is_replay(&other));
    Ok(())
}
