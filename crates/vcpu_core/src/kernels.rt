//! Kernels of the tests with their listings, and what their runs come to, worked out by hand. The tables stand behind
//! functions, so that the proofs of the tests need not carry them.

use fc_numbers::machine::End;

/// A kernel, a setup and views, as files.
#[derive(Clone, Copy)]
pub(crate) struct Files {
    pub(crate) image: &'static str,
    pub(crate) setup: &'static str,
    pub(crate) views: &'static str,
}

/// An entry of a log.
pub(crate) struct Entry {
    pub(crate) at: u32,
    pub(crate) vcpu: u8,
    pub(crate) group: u16,
    pub(crate) pc: u64,
    /// Where the calls return to, the innermost first.
    pub(crate) chain: &'static [u64],
}

/// A run: events one after another, and then of each vCPU in turn until none may step.
pub(crate) struct Row {
    pub(crate) label: &'static str,
    pub(crate) files: Files,
    /// The vCPU of each event, by its digit.
    pub(crate) events: &'static str,
    /// What each of these events was: e for one that is no step, s for a step, o where the vCPU may not step.
    pub(crate) answers: &'static str,
    /// The vCPUs of the first steps, by their digits.
    pub(crate) schedule: &'static str,
    /// How many steps there are.
    pub(crate) clock: u64,
    pub(crate) end: End,
    pub(crate) console: &'static [u8],
    /// The log of the last view.
    pub(crate) log: &'static [Entry],
}

/// One vCPU with 100 steps, and no name.
const ONE: &str = "{\"vcpus\":1,\"ram\":65536,\"steps\":100}";

/// Two vCPUs of the app `sh`, with 20 steps each.
const TWO: &str = "{\"vcpus\":2,\"ram\":65536,\"steps\":20,\"start\":\"sh\"}";

/// The same with 12 steps each.
const SHORT: &str = "{\"vcpus\":2,\"ram\":65536,\"steps\":12,\"start\":\"sh\"}";

/// The same with 100 steps each.
const LONG: &str = "{\"vcpus\":2,\"ram\":65536,\"steps\":100,\"start\":\"sh\"}";

/// The same, and the external line of vCPU 0 is raised at clock 8.
const RAISED: &str =
    "{\"vcpus\":2,\"ram\":65536,\"steps\":100,\"start\":\"sh\",\"events\":[[8,\"raise\",0]]}";

/// A jump in each of four lines, with zero bytes between: at 0, 64 and 128 c.j +64; at 192 c.j -192.
const LINES: Files = Files {
    image: "{\"base\":2147483648,\"entry\":2147483648,\"text\":\"81a0000000000000000000000000000000000000000000000000000000000000000000000000000000000000000000000000000000000000000000000000000081a0000000000000000000000000000000000000000000000000000000000000000000000000000000000000000000000000000000000000000000000000000081a0000000000000000000000000000000000000000000000000000000000000000000000000000000000000000000000000000000000000000000000000000081b7\",\"functions\":[[2147483648,\"main\"]]}",
    setup: ONE,
    views: "{\"version\":1,\"text\":\"ddad7c38ff3fd354c3520d6583da4a6ff45ca35d1ab9c95cbf2df2cf27e642e6\",\"shared\":[],\"apps\":[]}",
};

/// A jump in each of five lines, with zero bytes between: at 0, 64, 128 and 192 c.j +64; at 256 c.j -256.
const FIVE_LINES: Files = Files {
    image: "{\"base\":2147483648,\"entry\":2147483648,\"text\":\"81a0000000000000000000000000000000000000000000000000000000000000000000000000000000000000000000000000000000000000000000000000000081a0000000000000000000000000000000000000000000000000000000000000000000000000000000000000000000000000000000000000000000000000000081a0000000000000000000000000000000000000000000000000000000000000000000000000000000000000000000000000000000000000000000000000000081a0000000000000000000000000000000000000000000000000000000000000000000000000000000000000000000000000000000000000000000000000000001b7\",\"functions\":[[2147483648,\"main\"]]}",
    setup: ONE,
    views: "{\"version\":1,\"text\":\"2403abad467ea3c1ed30cf777a3b87c516a645673f9b99550bfc1ec26c70b3bc\",\"shared\":[],\"apps\":[]}",
};

/// At 0, `main`: jal ra, w; c.li a7, 8; ecall (shutdown); then c.nop. At 62, `w`, whose first instruction has its halves in
/// two lines: li a0, 'A'; c.li a7, 1; ecall (putchar); ret. The app was seen to use `main` alone.
const SPLIT: Files = Files {
    image: "{\"base\":2147483648,\"entry\":2147483648,\"text\":\"ef00e003a1487300000001000100010001000100010001000100010001000100010001000100010001000100010001000100010001000100010001000100130510048548730000008280\",\"functions\":[[2147483648,\"main\"],[2147483710,\"w\"]]}",
    setup: TWO,
    views: "{\"version\":1,\"text\":\"cb628332b121cea912ba015f582ad90b9e779817e0bf823aaef9e974d23ab530\",\"shared\":[],\"apps\":[{\"name\":\"sh\",\"functions\":[0]}]}",
};

/// At 0, `main`: auipc t0, 0; addi t0, t0, 28; csrw stvec, t0; li t1, 512; csrw sie, t1 (external); csrsi sstatus, 2;
/// j m. At 28, `hand`: c.li a7, 8; ecall (shutdown); c.nop. At 36, `m`: c.li a7, 8; ecall. The app was seen to use `main`,
/// and all apps use `hand`.
const HANDLER: Files = Files {
    image: "{\"base\":2147483648,\"entry\":2147483648,\"text\":\"970200009382c201739052101303002073104310736001106f00c000a148730000000100a14873000000\",\"functions\":[[2147483648,\"main\"],[2147483676,\"hand\"],[2147483684,\"m\"]]}",
    setup: RAISED,
    views: "{\"version\":1,\"text\":\"7323832bf7b6aa0a7bdcd56a126cd6999592a2a8441cd85d1e7b25af40aafce3\",\"shared\":[28],\"apps\":[{\"name\":\"sh\",\"functions\":[0]}]}",
};

/// At 0, `main`: auipc t0, 2; c.bnez a0, 26; srli t0, t0, 12; c.li t1, 8; c.slli t1, 60; or t0, t0, t1; csrw satp, t0;
/// jal zero, 0x80001024. At 26, for vCPU 1: auipc t1, 4; sd zero, -18(t1); c.j itself. At 36, `f`: c.j itself. The tables
/// map the virtual pages 0x80000000 and 0x80001000 to the page of text; vCPU 1 clears the entry of the second. The app was
/// seen to use `main` alone.
const UNMAPPED: Files = Files {
    image: "{\"base\":2147483648,\"entry\":2147483648,\"text\":\"9722000019e993d2c20021437213b3e26200739002186f10e00017430000233703fe01a001a0\",\"data\":[[2147491856,\"010c002000000000\"],[2147495936,\"0110002000000000\"],[2147500032,\"4b000020000000004b00002000000000\"]],\"functions\":[[2147483648,\"main\"],[2147483684,\"f\"]]}",
    setup: SHORT,
    views: "{\"version\":1,\"text\":\"112f1d98c59ed0ac8da1c87be926f65603278585db284c1cdfab0234f4b78611\",\"shared\":[],\"apps\":[{\"name\":\"sh\",\"functions\":[0]}]}",
};

/// Two ranges of text, a page apart. At the first byte of either, `low` and `high`: c.li a7, 8. From offset 12 of the
/// second range on, `main`, where the run begins. vCPU 0 maps its own page and the page at 0x80001000, the latter to the
/// first range, and jumps there. vCPU 1 maps the page at 0x80001000 to the second range. The app was seen to use `main` alone.
///
/// addi t0, zero, 1; slli t0, t0, 31; bne a0, zero, other; lui t1, 8; add t1, t1, t0; lui t2, 0x20002; addi t2, t2, 0x401;
/// sd t2, 16(t1); lui t2, 1; add t1, t1, t2; lui t3, 0x20003; addi t3, t3, -0x7ff; sd t3, 0(t1); add t1, t1, t2;
/// lui t3, 0x20001; addi t3, t3, -0x7b5; sd t3, 16(t1); lui t3, 0x20000; addi t3, t3, 0x4b; sd t3, 8(t1);
/// addi t3, zero, 8; slli t3, t3, 60; srli t2, t0, 12; addi t2, t2, 8; or t3, t3, t2; csrw satp, t3; lui t2, 1;
/// add t2, t2, t0; jalr zero, 0(t2);
/// other: lui t1, 10; add t1, t1, t0; lui t3, 0x20001; addi t3, t3, -0x7b5; sd t3, 8(t1); j .
const REMAPPED: Files = Files {
    image: "{\"entry\":2147491852,\"code\":[[2147483648,\"a148\"],[2147491840,\"a14800000000000000000000930210009392f201631605063783000033035300b72300209383134023387300b713000033037300373e0020130e1e802330c30133037300371e0020130ebe842338c301370e0020130ebe042334c301130e8000131ece0393d3c20093838300336e7e0073100e18b7130000b38353006780030037a3000033035300371e0020130ebe842334c3016f000000\"]],\"functions\":[[2147483648,\"low\"],[2147491840,\"high\"],[2147491852,\"main\"]]}",
    setup: LONG,
    views: "{\"version\":2,\"text\":\"796003af748519203419beea77cd7153aa920a4e8dc5e8ff997221fa63e03b78\",\"shared\":[],\"apps\":[{\"name\":\"sh\",\"functions\":[[1,12]]}]}",
};

/// c.j itself.
const SPIN: Files = Files {
    image: "{\"base\":2147483648,\"entry\":2147483648,\"text\":\"01a0\",\"functions\":[[2147483648,\"main\"]]}",
    setup: ONE,
    views: "{\"version\":1,\"text\":\"ce073788e7b3722b391c971d1544240faf22554f04bde7690bf54c90214fe6ab\",\"shared\":[],\"apps\":[]}",
};

static ROWS: [Row; 7] = [
    // Each of the four lines is needed and filled once; then all four windows are held.
    Row {
        label: "four lines",
        files: LINES,
        events: "0000000000000000000000000000000000000000000000000000000000000000000000000000000000000000000000000000000000000",
        answers: "eeseeseeseessssssssssssssssssssssssssssssssssssssssssssssssssssssssssssssssssssssssssssssssssssssssssssssssso",
        schedule: "0000000000000000000000000000000000000000000000000000000000000000000000000000000000000000000000000000",
        clock: 100,
        end: End::Spent,
        console: b"",
        log: &[],
    },
    // The fifth window takes the place of the oldest, which is needed next.
    Row {
        label: "five lines",
        files: FIVE_LINES,
        events: "000000000000000000",
        answers: "eeseeseeseeseesees",
        schedule: "0000000000000000000000000000000000000000000000000000000000000000000000000000000000000000000000000000",
        clock: 100,
        end: End::Spent,
        console: b"",
        log: &[],
    },
    // vCPU 1 takes its window of the first line before vCPU 0 mends, traps on the stale zero, and finds the group there.
    Row {
        label: "a stale window",
        files: SPLIT,
        events: "000001110111111",
        answers: "eeseeeeseeeeees",
        schedule: "01101110101",
        clock: 11,
        end: End::Shutdown,
        console: b"AA",
        log: &[Entry {
            at: 1,
            vcpu: 0,
            group: 1,
            pc: 0x8000_003e,
            chain: &[0x8000_0004],
        }],
    },
    // Both trap, and vCPU 1 mends first: vCPU 0 finds the group there.
    Row {
        label: "two traps",
        files: SPLIT,
        events: "000001111110",
        answers: "eeseeeeseeee",
        schedule: "0101010101010",
        clock: 13,
        end: End::Shutdown,
        console: b"AA",
        log: &[Entry {
            at: 2,
            vcpu: 1,
            group: 1,
            pc: 0x8000_003e,
            chain: &[0x8000_0004],
        }],
    },
    // A step of vCPU 1 makes the clock 8, so that after the mend vCPU 0 takes the interrupt; `m` is never fetched.
    Row {
        label: "an interrupt before the recovered code",
        files: HANDLER,
        events: "00000000000111000000",
        answers: "eessssssseeeeseseess",
        schedule: "00000001000",
        clock: 11,
        end: End::Shutdown,
        console: b"",
        log: &[Entry {
            at: 7,
            vcpu: 0,
            group: 2,
            pc: 0x8000_0024,
            chain: &[],
        }],
    },
    // vCPU 1 unmaps the page of `f` at clock 11; after the mend the next step of vCPU 0 is a page fault.
    Row {
        label: "a page unmapped before the recovered code",
        files: UNMAPPED,
        events: "0000000000001111110",
        answers: "eesssssssseeeesssse",
        schedule: "000000001111010101011111",
        clock: 24,
        end: End::Spent,
        console: b"",
        log: &[Entry {
            at: 8,
            vcpu: 0,
            group: 1,
            pc: 0x8000_0024,
            chain: &[],
        }],
    },
    // vCPU 0 needs and fills, traps, and has not looked up when vCPU 1 remaps the page. It looks up, mends, needs, fills,
    // traps, looks up, mends, needs, fills and steps: nine events, and then a step.
    Row {
        label: "nine events before a step",
        files: REMAPPED,
        events: "1111111111100000000000000000000000000000000000010000000000",
        answers: "eessseesssseessssssssssssseesssssssssssssssseeeseeeeeeeees",
        schedule: "11111110000000000000000000000000000010",
        clock: 200,
        end: End::Spent,
        console: b"",
        log: &[
            Entry {
                at: 36,
                vcpu: 0,
                group: 0,
                pc: 0x8000_0000,
                chain: &[],
            },
            Entry {
                at: 37,
                vcpu: 0,
                group: 1,
                pc: 0x8000_2000,
                chain: &[],
            },
        ],
    },
];

/// The runs of the tests.
pub(crate) fn rows() -> &'static [Row] {
    &ROWS
}

/// A kernel that jumps to itself, with one vCPU of 100 steps.
pub(crate) fn spin() -> Files {
    SPIN
}

/// A kernel whose app is missing the function that it calls, with two vCPUs.
pub(crate) fn split() -> Files {
    SPLIT
}
