//! The kernels of the rows, each once: its text as the hexadecimal digits of each instruction, lowest byte first, with the
//! listing beside it.

/// A kernel as a plain image whose text begins at 0x80000000, where it is entered.
#[derive(Clone, Copy)]
pub(crate) struct Kernel {
    pub(crate) text: &'static [&'static str],
    /// How many zero bytes follow the text, and the digits behind them.
    pub(crate) rest: (usize, &'static str),
    /// The place and the text of a second range.
    pub(crate) second: Option<(u64, &'static [&'static str])>,
    /// Further members of the image: functions and data.
    pub(crate) more: &'static str,
}

/// Nothing behind the text.
const NOTHING: (usize, &str) = (0, "");

/// Calls put, which prints A.
pub(crate) const PUT_TEXT: &[&str] = &[
    "ef00c000", // jal 12
    "a148", // li a7, 8
    "73000000", // ecall
    "0100", // nop
    "8548", // put: li a7, 1
    "13051004", // li a0, 65
    "73000000", // ecall
    "8280", // ret
];

pub(crate) const PUT: Kernel = Kernel {
    text: PUT_TEXT,
    rest: NOTHING,
    second: None,
    more: ",\"functions\":[[2147483648,\"main\"],[2147483660,\"put\"]]",
};

/// The same; the functions stand in the file the other way round.
pub(crate) const PUT_TURNED: Kernel = Kernel {
    text: PUT_TEXT,
    rest: NOTHING,
    second: None,
    more: ",\"functions\":[[2147483660,\"put\"],[2147483648,\"main\"]]",
};

/// The same with `put` in a second range.
pub(crate) const PUT_APART: Kernel = Kernel {
    text: &[
        "ef200000", // jal 8192
        "a148", // li a7, 8
        "73000000", // ecall
    ],
    rest: NOTHING,
    second: Some((
        2147491840,
        &[
            "8548", // put: li a7, 1
            "13051004", // li a0, 65
            "73000000", // ecall
            "8280", // ret
        ],
    )),
    more: ",\"functions\":[[2147483648,\"main\"],[2147491840,\"put\"]]",
};

/// f's last halfword is the first of a wide instruction, so that f and g are one group.
pub(crate) const JOINED: Kernel = Kernel {
    text: &[
        "ef00c000", // jal 12
        "a148", // li a7, 8
        "73000000", // ecall
        "0100", // nop
        "8548", // f: li a7, 1
        "13051004", // li a0, 65
        "73000000", // ecall
        "8280", // ret
        "67808280", // the last halfword of f, and g: ret
    ],
    rest: NOTHING,
    second: None,
    more: ",\"functions\":[[2147483648,\"main\"],[2147483660,\"f\"],[2147483674,\"g\"]]",
};

/// Runs into a zero halfword, and prints the cause of the trap.
const ZERO_TEXT: &[&str] = &[
    "97020000", // auipc t0, 0
    "93820201", // addi t0, t0, 16
    "73905210", // csrw stvec, t0
    "0000", // a zero of the guest's own
    "0100", // nop
    "73252014", // csrr a0, scause
    "13050503", // addi a0, a0, 48
    "8548", // li a7, 1
    "73000000", // ecall
    "a148", // li a7, 8
    "73000000", // ecall
];

pub(crate) const ZERO: Kernel = Kernel {
    text: ZERO_TEXT,
    rest: NOTHING,
    second: None,
    more: ",\"functions\":[[2147483648,\"main\"]]",
};

/// The same with functions at the zero and at the handler.
pub(crate) const ZERO_APART: Kernel = Kernel {
    text: ZERO_TEXT,
    rest: NOTHING,
    second: None,
    more: ",\"functions\":[[2147483648,\"main\"],[2147483660,\"bad\"],[2147483664,\"hand\"]]",
};

/// Loads a byte of d and prints it.
pub(crate) const LOADS: Kernel = Kernel {
    text: &[
        "ef004000", // jal 4
        "03c50001", // lbu a0, 16(ra)
        "8548", // li a7, 1
        "73000000", // ecall
        "a148", // li a7, 8
        "73000000", // ecall
        "4200", // d: the byte 0x42, and padding
    ],
    rest: NOTHING,
    second: None,
    more: ",\"functions\":[[2147483648,\"main\"],[2147483668,\"d\"]]",
};

/// The same by a pair of instructions.
pub(crate) const LOADS_BY_PAIR: Kernel = Kernel {
    text: &[
        "97020000", // auipc t0, 0
        "03c54201", // lbu a0, 20(t0)
        "8548", // li a7, 1
        "73000000", // ecall
        "a148", // li a7, 8
        "73000000", // ecall
        "4280", // d: the byte 0x42, and padding
    ],
    rest: NOTHING,
    second: None,
    more: ",\"functions\":[[2147483648,\"main\"],[2147483668,\"d\"]]",
};

/// Sets the timer to 0, enables its interrupt in the ninth step, and prints the code of the interrupt.
pub(crate) const TIMER: Kernel = Kernel {
    text: &[
        "97020000", // auipc t0, 0
        "93828202", // addi t0, t0, 40
        "73905210", // csrw stvec, t0
        "13030002", // li t1, 32
        "73104310", // csrw sie, t1
        "b7584954", // lui a7, 345237
        "938858d4", // addi a7, a7, -699
        "73000000", // ecall
        "73600110", // csrsi sstatus, 2
        "0100", // nop
        "0100", // nop
        "73252014", // csrr a0, scause
        "13050503", // addi a0, a0, 48
        "8548", // li a7, 1
        "73000000", // ecall
        "a148", // li a7, 8
        "73000000", // ecall
    ],
    rest: NOTHING,
    second: None,
    more: ",\"functions\":[[2147483648,\"main\"]]",
};

/// Stores to its own text.
pub(crate) const STORES: Kernel = Kernel {
    text: &[
        "97020000", // auipc t0, 0
        "afb50210", // lr.d a1, (t0)
        "2fb6b218", // sc.d a2, a1, (t0)
    ],
    rest: NOTHING,
    second: None,
    more: ",\"functions\":[[2147483648,\"main\"]]",
};

/// Names its page of text in satp, with tables of three levels.
pub(crate) const TABLE_OF_THREE: Kernel = Kernel {
    text: &[
        "97020000", // auipc t0, 0
        "93d2c200", // srli t0, t0, 12
        "2143", // li t1, 8
        "7213", // slli t1, t1, 60
        "b3e26200", // or t0, t0, t1
        "73900218", // csrw satp, t0
    ],
    rest: NOTHING,
    second: None,
    more: ",\"functions\":[[2147483648,\"main\"]]",
};

/// The same with tables of four levels.
pub(crate) const TABLE_OF_FOUR: Kernel = Kernel {
    text: &[
        "97020000", // auipc t0, 0
        "93d2c200", // srli t0, t0, 12
        "2543", // li t1, 9
        "7213", // slli t1, t1, 60
        "b3e26200", // or t0, t0, t1
        "73900218", // csrw satp, t0
    ],
    rest: NOTHING,
    second: None,
    more: ",\"functions\":[[2147483648,\"main\"]]",
};

/// Maps itself by tables of four levels, and shuts down behind the mapping.
pub(crate) const FOUR_LEVELS: Kernel = Kernel {
    text: &[
        "97220000", // auipc t0, 2
        "93d2c200", // srli t0, t0, 12
        "2543", // li t1, 9
        "7213", // slli t1, t1, 60
        "b3e26200", // or t0, t0, t1
        "73900218", // csrw satp, t0
        "a148", // li a7, 8
        "73000000", // ecall
    ],
    rest: NOTHING,
    second: None,
    more: ",\"functions\":[[2147483648,\"main\"]],\"data\":[[2147491840,\"010c002000000000\"],[2147495952,\"0110002000000000\"],[2147500032,\"0114002000000000\"],[2147504128,\"4b00002000000000\"]]",
};

/// Jumps behind its text.
pub(crate) const JUMPS: Kernel = Kernel {
    text: &[
        "6f100000", // j 4096
    ],
    rest: NOTHING,
    second: None,
    more: ",\"functions\":[[2147483648,\"main\"]]",
};

/// Two pages of addresses map to one page of text, so that the halves of the last instruction do not stand side by side.
pub(crate) const SPLIT: Kernel = Kernel {
    text: &[
        "97220000", // auipc t0, 2
        "93d2c200", // srli t0, t0, 12
        "2143", // li t1, 8
        "7213", // slli t1, t1, 60
        "b3e26200", // or t0, t0, t1
        "73900218", // csrw satp, t0
        "6f00b07e", // j 4074, to the last halfword of the page
    ],
    // the first half of an auipc
    rest: (4070, "9702"),
    second: None,
    more: ",\"functions\":[[2147483648,\"main\"]],\"data\":[[2147491856,\"010c002000000000\"],[2147495936,\"0110002000000000\"],[2147500032,\"4b000020000000004b00002000000000\"]]",
};

/// The last halfword of the first range begins a wide instruction. The next range is not joined to it, and what follows it
/// is no text.
pub(crate) const WIDE_AT_THE_END: Kernel = Kernel {
    text: &[
        "6f00f07f", // j 4094
    ],
    // the first half of an auipc
    rest: (4090, "9702"),
    second: Some((
        2147491840,
        &[
            "0100", // nop
        ],
    )),
    more: "",
};

/// Calls w behind a line of nops. The last instruction of w stands in another line than its first.
pub(crate) const WIDE: Kernel = Kernel {
    text: &[
        "ef00e003", // jal 62
        "a148", // li a7, 8
        "73000000", // ecall
        "01000100010001000100010001000100010001000100010001000100", // 14 nops
        "010001000100010001000100010001000100010001000100", // 12 nops
        "13051004", // w: li a0, 65
        "8548", // li a7, 1
        "73000000", // ecall
        "8280", // ret
    ],
    rest: NOTHING,
    second: None,
    more: ",\"functions\":[[2147483648,\"main\"],[2147483710,\"w\"]]",
};

/// Enables the external interrupt and jumps to m, which is missing. The handler masks the interrupt and returns.
pub(crate) const MASKED: Kernel = Kernel {
    text: &[
        "97020000", // auipc t0, 0
        "9382c201", // addi t0, t0, 28
        "73905210", // csrw stvec, t0
        "13030020", // li t1, 512
        "73104310", // csrw sie, t1
        "73600110", // csrsi sstatus, 2
        "6f00c000", // j 12
        "73104010", // hand: csrw sie, zero
        "73002010", // sret
        "a148", // m: li a7, 8
        "73000000", // ecall
    ],
    rest: NOTHING,
    second: None,
    more: ",\"functions\":[[2147483648,\"main\"],[2147483676,\"hand\"],[2147483684,\"m\"]]",
};

/// The same, but that the handler shuts the machine down.
pub(crate) const FINAL: Kernel = Kernel {
    text: &[
        "97020000", // auipc t0, 0
        "9382c201", // addi t0, t0, 28
        "73905210", // csrw stvec, t0
        "13030020", // li t1, 512
        "73104310", // csrw sie, t1
        "73600110", // csrsi sstatus, 2
        "6f00c000", // j 12
        "a148", // hand: li a7, 8
        "73000000", // ecall
        "0100", // nop
        "a148", // m: li a7, 8
        "73000000", // ecall
    ],
    rest: NOTHING,
    second: None,
    more: ",\"functions\":[[2147483648,\"main\"],[2147483676,\"hand\"],[2147483684,\"m\"]]",
};

/// vCPU 0 maps itself and goes to the missing f, whose page vCPU 1 unmaps before vCPU 0 mends.
pub(crate) const UNMAPPED: Kernel = Kernel {
    text: &[
        "97220000", // auipc t0, 2
        "19e9", // bnez a0, 22
        "93d2c200", // srli t0, t0, 12
        "2143", // li t1, 8
        "7213", // slli t1, t1, 60
        "b3e26200", // or t0, t0, t1
        "73900218", // csrw satp, t0
        "6f10e000", // j 4110, to f by another page of addresses
        "17430000", // auipc t1, 4
        "233703fe", // sd zero, -18(t1)
        "01a0", // j 0
        "01a0", // f: j 0
    ],
    rest: NOTHING,
    second: None,
    more: ",\"functions\":[[2147483648,\"main\"],[2147483684,\"f\"]],\"data\":[[2147491856,\"010c002000000000\"],[2147495936,\"0110002000000000\"],[2147500032,\"4b000020000000004b00002000000000\"]]",
};

/// Adds 1 to one word again and again; the function that does it is missing.
pub(crate) const ADDS: Kernel = Kernel {
    text: &[
        "97220000", // auipc t0, 2
        "8545", // li a1, 1
        "2fb6b200", // loop: amoadd.d a2, a1, (t0)
        "f5bf", // j -4
    ],
    rest: NOTHING,
    second: None,
    more: ",\"functions\":[[2147483648,\"main\"],[2147483654,\"loop\"]]",
};

/// For each of six tasks: calls the hook, which names the task, and then f. The data are six places, each 8 bytes before a
/// name, and the names: `a b`, one that begins with a zero byte, none (the place is outside RAM), `vi`, 16 letters, `sh`.
pub(crate) const TASKS: Kernel = Kernel {
    text: &[
        "17230000", // auipc t1, 2
        "93030303", // addi t2, t1, 48
        "83350300", // next: ld a1, 0(t1)
        "ef004001", // jal 20
        "ef002001", // jal 18
        "2103", // addi t1, t1, 8
        "e31973fe", // bne t1, t2, -14
        "a148", // li a7, 8
        "73000000", // ecall
        "8280", // hook: ret
        "8280", // f: ret
    ],
    rest: NOTHING,
    second: None,
    more: ",\"functions\":[[2147483648,\"main\"],[2147483680,\"hook\"],[2147483682,\"f\"]],\"data\":[[2147491840,\"282000800000000038200080000000000000000000000000482000800000000058200080000000006820008000000000\"],[2147491888,\"6120620000000000\"],[2147491904,\"0062630000000000\"],[2147491920,\"7669000000000000\"],[2147491936,\"6162636465666768696a6b6c6d6e6f70\"],[2147491952,\"7368000000000000\"]]",
};
