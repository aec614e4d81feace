//! A small program for each cause of a trap and for each control register, with its listing.
//!
//! The programs of causes set `stvec` to a handler, do what the label says, and print three bytes in the handler: the
//! cause as a letter (`a` is 0, `b` is 1), and then `1` where `stval` and where `sepc` are what the privileged manual
//! ("Supervisor Trap Value (stval) Register", "Supervisor Exception Program Counter (sepc) Register") and this profile
//! say. The programs of control registers write all ones, read back, compare with the bits that the register keeps,
//! and print `1` where they agree. Above each program stands its listing.

/// A program and what it prints.
pub(crate) struct Program {
    /// What it does.
    pub(crate) label: &'static str,
    /// Its text: the hexadecimal digits of each instruction, lowest byte first.
    pub(crate) text: &'static str,
    /// Further members of the image.
    pub(crate) more: &'static str,
    /// What it prints.
    pub(crate) console: &'static [u8],
}

/// A root table at 0x80002000 that maps the gibibyte from 0x80000000 to itself, for supervisor mode.
const MAPPED: &str = ",\"data\":[[2147491856,\"cf00002000000000\"]]";

static PROGRAMS: [Program; 27] = [
    // auipc t0, 0; addi t0, t0, 20; csrw stvec, t0; lui t0, 262144; jr t0; csrr t0, scause; addi a0, t0, 97; li a7, 1;
    // ecall; csrr t0, stval; lui t1, 262144; xor t0, t0, t1; seqz a0, t0; addi a0, a0, 48; li a7, 1; ecall; csrr t0,
    // sepc; lui t1, 262144; xor t0, t0, t1; seqz a0, t0; addi a0, a0, 48; li a7, 1; ecall; li a7, 8; ecall
    Program {
        label: "cause 1: a fetch outside RAM",
        text: "970200009382420173905210b702004067800200f3222014138512069308100073000000f322301437030040b3c2620013b51200130505039308100073000000f322101437030040b3c2620013b512001305050393081000730000009308800073000000",
        more: "",
        console: b"b11",
    },
    // auipc t0, 0; addi t0, t0, 16; csrw stvec, t0; no row; csrr t0, scause; addi a0, t0, 97; li a7, 1; ecall; csrr
    // t0, stval; addiw t1, zero, 1; slli t1, t1, 32; addi t1, t1, -1; xor t0, t0, t1; seqz a0, t0; addi a0, a0, 48; li
    // a7, 1; ecall; csrr t0, sepc; auipc t1, 0; addi t1, t1, -60; xor t0, t0, t1; seqz a0, t0; addi a0, a0, 48; li a7,
    // 1; ecall; li a7, 8; ecall
    Program {
        label: "cause 2: a word without a row; its value is the word",
        text: "970200009382020173905210fffffffff3222014138512069308100073000000f32230141b031000131303021303f3ffb3c2620013b51200130505039308100073000000f322101417030000130343fcb3c2620013b512001305050393081000730000009308800073000000",
        more: "",
        console: b"c11",
    },
    // auipc t0, 0; addi t0, t0, 16; csrw stvec, t0; no row: c.lui ra, 0; behind it, never reached; csrr t0, scause;
    // addi a0, t0, 97; li a7, 1; ecall; csrr t0, stval; lui t1, 6; addiw t1, t1, 129; xor t0, t0, t1; seqz a0, t0;
    // addi a0, a0, 48; li a7, 1; ecall; csrr t0, sepc; auipc t1, 0; addi t1, t1, -56; xor t0, t0, t1; seqz a0, t0;
    // addi a0, a0, 48; li a7, 1; ecall; li a7, 8; ecall
    Program {
        label: "cause 2: a compressed form without a row; its value is the halfword",
        text: "97020000938202017390521081600000f3222014138512069308100073000000f3223014376300001b031308b3c2620013b51200130505039308100073000000f322101417030000130383fcb3c2620013b512001305050393081000730000009308800073000000",
        more: "",
        console: b"c11",
    },
    // auipc t0, 0; addi t0, t0, 16; csrw stvec, t0; csrw time, t0; csrr t0, scause; addi a0, t0, 97; li a7, 1; ecall;
    // csrr t0, stval; lui t1, 192; addiw t1, t1, 297; slli t1, t1, 12; addi t1, t1, 115; xor t0, t0, t1; seqz a0, t0;
    // addi a0, a0, 48; li a7, 1; ecall; csrr t0, sepc; auipc t1, 0; addi t1, t1, -64; xor t0, t0, t1; seqz a0, t0;
    // addi a0, a0, 48; li a7, 1; ecall; li a7, 8; ecall
    Program {
        label: "cause 2: a write of time",
        text: "970200009382020173905210739012c0f3222014138512069308100073000000f322301437030c001b0393121313c30013033307b3c2620013b51200130505039308100073000000f322101417030000130303fcb3c2620013b512001305050393081000730000009308800073000000",
        more: "",
        console: b"c11",
    },
    // auipc t0, 0; addi t0, t0, 16; csrw stvec, t0; csrr t0, senvcfg; csrr t0, scause; addi a0, t0, 97; li a7, 1;
    // ecall; csrr t0, stval; lui t1, 68098; addiw t1, t1, 755; xor t0, t0, t1; seqz a0, t0; addi a0, a0, 48; li a7, 1;
    // ecall; csrr t0, sepc; auipc t1, 0; addi t1, t1, -56; xor t0, t0, t1; seqz a0, t0; addi a0, a0, 48; li a7, 1;
    // ecall; li a7, 8; ecall
    Program {
        label: "cause 2: a control register that is not there",
        text: "970200009382020173905210f322a010f3222014138512069308100073000000f32230143723a0101b03332fb3c2620013b51200130505039308100073000000f322101417030000130383fcb3c2620013b512001305050393081000730000009308800073000000",
        more: "",
        console: b"c11",
    },
    // auipc t0, 0; addi t0, t0, 16; csrw stvec, t0; ebreak; csrr t0, scause; addi a0, t0, 97; li a7, 1; ecall; csrr
    // t0, stval; auipc t1, 0; addi t1, t1, -24; xor t0, t0, t1; seqz a0, t0; addi a0, a0, 48; li a7, 1; ecall; csrr
    // t0, sepc; auipc t1, 0; addi t1, t1, -56; xor t0, t0, t1; seqz a0, t0; addi a0, a0, 48; li a7, 1; ecall; li a7,
    // 8; ecall
    Program {
        label: "cause 3: EBREAK; its value is pc",
        text: "97020000938202017390521073001000f3222014138512069308100073000000f322301417030000130383feb3c2620013b51200130505039308100073000000f322101417030000130383fcb3c2620013b512001305050393081000730000009308800073000000",
        more: "",
        console: b"d11",
    },
    // auipc t0, 0; addi t0, t0, 32; csrw stvec, t0; lui t0, 128; addiw t0, t0, 3; slli t0, t0, 12; addi t0, t0, 1; lw
    // t2, 0(t0); csrr t0, scause; addi a0, t0, 97; li a7, 1; ecall; csrr t0, stval; lui t1, 128; addiw t1, t1, 3; slli
    // t1, t1, 12; addi t1, t1, 1; xor t0, t0, t1; seqz a0, t0; addi a0, a0, 48; li a7, 1; ecall; csrr t0, sepc; auipc
    // t1, 0; addi t1, t1, -64; xor t0, t0, t1; seqz a0, t0; addi a0, a0, 48; li a7, 1; ecall; li a7, 8; ecall
    Program {
        label: "cause 4: a misaligned load",
        text: "970200009382020273905210b70208009b8232009392c2009382120083a30200f3222014138512069308100073000000f3223014370308001b0333001313c30013031300b3c2620013b51200130505039308100073000000f322101417030000130303fcb3c2620013b512001305050393081000730000009308800073000000",
        more: "",
        console: b"e11",
    },
    // auipc t0, 0; addi t0, t0, 20; csrw stvec, t0; lui t0, 262144; lw t2, 0(t0); csrr t0, scause; addi a0, t0, 97; li
    // a7, 1; ecall; csrr t0, stval; lui t1, 262144; xor t0, t0, t1; seqz a0, t0; addi a0, a0, 48; li a7, 1; ecall;
    // csrr t0, sepc; auipc t1, 0; addi t1, t1, -52; xor t0, t0, t1; seqz a0, t0; addi a0, a0, 48; li a7, 1; ecall; li
    // a7, 8; ecall
    Program {
        label: "cause 5: a load outside RAM",
        text: "970200009382420173905210b702004083a30200f3222014138512069308100073000000f322301437030040b3c2620013b51200130505039308100073000000f3221014170300001303c3fcb3c2620013b512001305050393081000730000009308800073000000",
        more: "",
        console: b"f11",
    },
    // auipc t0, 0; addi t0, t0, 32; csrw stvec, t0; lui t0, 128; addiw t0, t0, 3; slli t0, t0, 12; addi t0, t0, 2; sw
    // t2, 0(t0); csrr t0, scause; addi a0, t0, 97; li a7, 1; ecall; csrr t0, stval; lui t1, 128; addiw t1, t1, 3; slli
    // t1, t1, 12; addi t1, t1, 2; xor t0, t0, t1; seqz a0, t0; addi a0, a0, 48; li a7, 1; ecall; csrr t0, sepc; auipc
    // t1, 0; addi t1, t1, -64; xor t0, t0, t1; seqz a0, t0; addi a0, a0, 48; li a7, 1; ecall; li a7, 8; ecall
    Program {
        label: "cause 6: a misaligned store",
        text: "970200009382020273905210b70208009b8232009392c2009382220023a07200f3222014138512069308100073000000f3223014370308001b0333001313c30013032300b3c2620013b51200130505039308100073000000f322101417030000130303fcb3c2620013b512001305050393081000730000009308800073000000",
        more: "",
        console: b"g11",
    },
    // auipc t0, 0; addi t0, t0, 20; csrw stvec, t0; lui t0, 262144; sd t2, 0(t0); csrr t0, scause; addi a0, t0, 97; li
    // a7, 1; ecall; csrr t0, stval; lui t1, 262144; xor t0, t0, t1; seqz a0, t0; addi a0, a0, 48; li a7, 1; ecall;
    // csrr t0, sepc; auipc t1, 0; addi t1, t1, -52; xor t0, t0, t1; seqz a0, t0; addi a0, a0, 48; li a7, 1; ecall; li
    // a7, 8; ecall
    Program {
        label: "cause 7: a store outside RAM",
        text: "970200009382420173905210b702004023b07200f3222014138512069308100073000000f322301437030040b3c2620013b51200130505039308100073000000f3221014170300001303c3fcb3c2620013b512001305050393081000730000009308800073000000",
        more: "",
        console: b"h11",
    },
    // auipc t0, 0; addi t0, t0, 32; csrw stvec, t0; auipc t0, 0; addi t0, t0, 16; csrw sepc, t0; sret; ecall; csrr t0,
    // scause; addi a0, t0, 97; li a7, 1; ecall; csrr t0, stval; li t1, 0; xor t0, t0, t1; seqz a0, t0; addi a0, a0,
    // 48; li a7, 1; ecall; csrr t0, sepc; auipc t1, 0; addi t1, t1, -52; xor t0, t0, t1; seqz a0, t0; addi a0, a0, 48;
    // li a7, 1; ecall; li a7, 8; ecall
    Program {
        label: "cause 8: ECALL in user mode; its value is 0",
        text: "9702000093820202739052109702000093820201739012147300201073000000f3222014138512069308100073000000f322301413030000b3c2620013b51200130505039308100073000000f3221014170300001303c3fcb3c2620013b512001305050393081000730000009308800073000000",
        more: "",
        console: b"i11",
    },
    // auipc t0, 0; addi t0, t0, 32; csrw stvec, t0; auipc t0, 0; addi t0, t0, 16; csrw sepc, t0; sret; sret; csrr t0,
    // scause; addi a0, t0, 97; li a7, 1; ecall; csrr t0, stval; lui t1, 66048; addiw t1, t1, 115; xor t0, t0, t1; seqz
    // a0, t0; addi a0, a0, 48; li a7, 1; ecall; csrr t0, sepc; auipc t1, 0; addi t1, t1, -56; xor t0, t0, t1; seqz a0,
    // t0; addi a0, a0, 48; li a7, 1; ecall; li a7, 8; ecall
    Program {
        label: "cause 2: SRET in user mode",
        text: "9702000093820202739052109702000093820201739012147300201073002010f3222014138512069308100073000000f3223014370320101b033307b3c2620013b51200130505039308100073000000f322101417030000130383fcb3c2620013b512001305050393081000730000009308800073000000",
        more: "",
        console: b"c11",
    },
    // auipc t0, 0; addi t0, t0, 44; csrw stvec, t0; addiw t0, zero, -1; slli t0, t0, 44; addi t0, t0, 1; slli t0, t0,
    // 19; addi t0, t0, 2; csrw satp, t0; lui t0, 262144; jr t0; csrr t0, scause; addi a0, t0, 97; li a7, 1; ecall;
    // csrr t0, stval; lui t1, 262144; xor t0, t0, t1; seqz a0, t0; addi a0, a0, 48; li a7, 1; ecall; csrr t0, sepc;
    // lui t1, 262144; xor t0, t0, t1; seqz a0, t0; addi a0, a0, 48; li a7, 1; ecall; li a7, 8; ecall
    Program {
        label: "cause 12: a fetch of a page that is not mapped",
        text: "970200009382c202739052109b02f0ff9392c20293821200939232019382220073900218b702004067800200f3222014138512069308100073000000f322301437030040b3c2620013b51200130505039308100073000000f322101437030040b3c2620013b512001305050393081000730000009308800073000000",
        more: MAPPED,
        console: b"m11",
    },
    // auipc t0, 0; addi t0, t0, 44; csrw stvec, t0; addiw t0, zero, -1; slli t0, t0, 44; addi t0, t0, 1; slli t0, t0,
    // 19; addi t0, t0, 2; csrw satp, t0; lui t0, 262144; lb t2, 0(t0); csrr t0, scause; addi a0, t0, 97; li a7, 1;
    // ecall; csrr t0, stval; lui t1, 262144; xor t0, t0, t1; seqz a0, t0; addi a0, a0, 48; li a7, 1; ecall; csrr t0,
    // sepc; auipc t1, 0; addi t1, t1, -52; xor t0, t0, t1; seqz a0, t0; addi a0, a0, 48; li a7, 1; ecall; li a7, 8;
    // ecall
    Program {
        label: "cause 13: a load of a page that is not mapped",
        text: "970200009382c202739052109b02f0ff9392c20293821200939232019382220073900218b702004083830200f3222014138512069308100073000000f322301437030040b3c2620013b51200130505039308100073000000f3221014170300001303c3fcb3c2620013b512001305050393081000730000009308800073000000",
        more: MAPPED,
        console: b"n11",
    },
    // auipc t0, 0; addi t0, t0, 44; csrw stvec, t0; addiw t0, zero, -1; slli t0, t0, 44; addi t0, t0, 1; slli t0, t0,
    // 19; addi t0, t0, 2; csrw satp, t0; lui t0, 262144; sb t2, 0(t0); csrr t0, scause; addi a0, t0, 97; li a7, 1;
    // ecall; csrr t0, stval; lui t1, 262144; xor t0, t0, t1; seqz a0, t0; addi a0, a0, 48; li a7, 1; ecall; csrr t0,
    // sepc; auipc t1, 0; addi t1, t1, -52; xor t0, t0, t1; seqz a0, t0; addi a0, a0, 48; li a7, 1; ecall; li a7, 8;
    // ecall
    Program {
        label: "cause 15: a store to a page that is not mapped",
        text: "970200009382c202739052109b02f0ff9392c20293821200939232019382220073900218b702004023807200f3222014138512069308100073000000f322301437030040b3c2620013b51200130505039308100073000000f3221014170300001303c3fcb3c2620013b512001305050393081000730000009308800073000000",
        more: MAPPED,
        console: b"p11",
    },
    // li t0, -1; csrw sstatus, t0; csrr t1, sstatus; lui t2, 8; addiw t2, t2, 3; slli t2, t2, 18; addi t2, t2, 290;
    // xor t1, t1, t2; seqz a0, t1; addi a0, a0, 48; li a7, 1; ecall; li a7, 8; ecall
    Program {
        label: "sstatus: all ones are written, and 0x2000c0122 is read back",
        text: "9302f0ff7390021073230010b78300009b833300939323019383231233437300133513001305050393081000730000009308800073000000",
        more: "",
        console: b"1",
    },
    // li t0, -1; csrw sie, t0; csrr t1, sie; li t2, 546; xor t1, t1, t2; seqz a0, t1; addi a0, a0, 48; li a7, 1;
    // ecall; li a7, 8; ecall
    Program {
        label: "sie: all ones are written, and 0x222 is read back",
        text: "9302f0ff73904210732340109303202233437300133513001305050393081000730000009308800073000000",
        more: "",
        console: b"1",
    },
    // li t0, -1; csrw stvec, t0; csrr t1, stvec; li t2, -3; xor t1, t1, t2; seqz a0, t1; addi a0, a0, 48; li a7, 1;
    // ecall; li a7, 8; ecall
    Program {
        label: "stvec: all ones are written, and -3 is read back",
        text: "9302f0ff73905210732350109303d0ff33437300133513001305050393081000730000009308800073000000",
        more: "",
        console: b"1",
    },
    // li t0, -1; csrw scounteren, t0; csrr t1, scounteren; li t2, 2; xor t1, t1, t2; seqz a0, t1; addi a0, a0, 48; li
    // a7, 1; ecall; li a7, 8; ecall
    Program {
        label: "scounteren: all ones are written, and 2 is read back",
        text: "9302f0ff73906210732360109303200033437300133513001305050393081000730000009308800073000000",
        more: "",
        console: b"1",
    },
    // li t0, -1; csrw sscratch, t0; csrr t1, sscratch; li t2, -1; xor t1, t1, t2; seqz a0, t1; addi a0, a0, 48; li a7,
    // 1; ecall; li a7, 8; ecall
    Program {
        label: "sscratch: all ones are written, and -1 is read back",
        text: "9302f0ff73900214732300149303f0ff33437300133513001305050393081000730000009308800073000000",
        more: "",
        console: b"1",
    },
    // li t0, -1; csrw sepc, t0; csrr t1, sepc; li t2, -2; xor t1, t1, t2; seqz a0, t1; addi a0, a0, 48; li a7, 1;
    // ecall; li a7, 8; ecall
    Program {
        label: "sepc: all ones are written, and -2 is read back",
        text: "9302f0ff73901214732310149303e0ff33437300133513001305050393081000730000009308800073000000",
        more: "",
        console: b"1",
    },
    // li t0, -1; csrw scause, t0; csrr t1, scause; li t2, -1; xor t1, t1, t2; seqz a0, t1; addi a0, a0, 48; li a7, 1;
    // ecall; li a7, 8; ecall
    Program {
        label: "scause: all ones are written, and -1 is read back",
        text: "9302f0ff73902214732320149303f0ff33437300133513001305050393081000730000009308800073000000",
        more: "",
        console: b"1",
    },
    // li t0, -1; csrw stval, t0; csrr t1, stval; li t2, -1; xor t1, t1, t2; seqz a0, t1; addi a0, a0, 48; li a7, 1;
    // ecall; li a7, 8; ecall
    Program {
        label: "stval: all ones are written, and -1 is read back",
        text: "9302f0ff73903214732330149303f0ff33437300133513001305050393081000730000009308800073000000",
        more: "",
        console: b"1",
    },
    // li t0, -1; csrw sip, t0; csrr t1, sip; li t2, 2; xor t1, t1, t2; seqz a0, t1; addi a0, a0, 48; li a7, 1; ecall;
    // li a7, 8; ecall
    Program {
        label: "sip: all ones are written, and 2 is read back",
        text: "9302f0ff73904214732340149303200033437300133513001305050393081000730000009308800073000000",
        more: "",
        console: b"1",
    },
    // li t0, -1; csrw satp, t0; csrr t1, satp; li t2, 0; xor t1, t1, t2; seqz a0, t1; addi a0, a0, 48; li a7, 1;
    // ecall; li a7, 8; ecall
    Program {
        label: "satp: all ones are written, and 0 is read back",
        text: "9302f0ff73900218732300189303000033437300133513001305050393081000730000009308800073000000",
        more: "",
        console: b"1",
    },
    // csrr t1, sstatus; addiw t2, zero, 1; slli t2, t2, 33; xor t1, t1, t2; seqz a0, t1; addi a0, a0, 48; li a7, 1;
    // ecall; li a7, 8; ecall
    Program {
        label: "sstatus: at first 2 shifted left by 32",
        text: "732300109b0310009393130233437300133513001305050393081000730000009308800073000000",
        more: "",
        console: b"1",
    },
    // nop; nop; rdtime t1; li t2, 2; xor t1, t1, t2; seqz a0, t1; addi a0, a0, 48; li a7, 1; ecall; li a7, 8; ecall
    Program {
        label: "time: the number of steps before",
        text: "1300000013000000732310c09303200033437300133513001305050393081000730000009308800073000000",
        more: "",
        console: b"1",
    },
];

/// All programs.
pub(crate) fn programs() -> &'static [Program] {
    &PROGRAMS
}
