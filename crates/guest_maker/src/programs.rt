//! The programs of the guest.

use crate::line::{Label, Line};
use rv_decode::Inst;

// Registers, by the names of the calling convention.
const ZERO: u8 = 0;

pub(crate) const RA: u8 = 1;

const SP: u8 = 2;

const TP: u8 = 4;

const TEMPORARY_0: u8 = 5;

const TEMPORARY_1: u8 = 6;

const TEMPORARY_2: u8 = 7;

const S0: u8 = 8;

const A0: u8 = 10;

const A1: u8 = 11;

pub(crate) const A2: u8 = 12;

const A6: u8 = 16;

const A7: u8 = 17;

// Control registers.
const SSTATUS: u16 = 0x100;

const SIE: u16 = 0x104;

const STVEC: u16 = 0x105;

const TIME: u16 = 0xc01;

/// The first function. tp is 0x8010_0000 and 256 KiB more for each vCPU: there lie the two tasks of the vCPU, with
/// their saved registers and names, and behind them their stacks. It sets the trap vector, lets timer interrupts through,
/// prepares the second task, asks for the timer, and runs the first.
pub(crate) const BOOT: [Line; 25] = [
    Line::Plain(Inst::Auipc {
        rd: TP,
        imm: 0x10_0000,
    }),
    Line::Plain(Inst::Slli {
        rd: TEMPORARY_0,
        rs1: A0,
        imm: 18,
    }),
    Line::Plain(Inst::Add {
        rd: TP,
        rs1: TP,
        rs2: TEMPORARY_0,
    }),
    Line::Plain(Inst::Auipc {
        rd: TEMPORARY_1,
        imm: 0,
    }),
    Line::AddDistance {
        rd: TEMPORARY_1,
        rs1: TEMPORARY_1,
        to: Label::Trap,
    },
    Line::Plain(Inst::Csrrw {
        rd: ZERO,
        rs1: TEMPORARY_1,
        csr: STVEC,
    }),
    Line::Plain(Inst::Addi {
        rd: TEMPORARY_1,
        rs1: ZERO,
        imm: 32,
    }),
    Line::Plain(Inst::Csrrw {
        rd: ZERO,
        rs1: TEMPORARY_1,
        csr: SIE,
    }),
    Line::Plain(Inst::Lui {
        rd: TEMPORARY_1,
        imm: 0x1_0000,
    }),
    Line::Plain(Inst::Add {
        rd: SP,
        rs1: TP,
        rs2: TEMPORARY_1,
    }),
    Line::Plain(Inst::Addi {
        rd: S0,
        rs1: ZERO,
        imm: 0,
    }),
    Line::Plain(Inst::Lui {
        rd: TEMPORARY_1,
        imm: 0x2_0000,
    }),
    Line::Plain(Inst::Add {
        rd: TEMPORARY_1,
        rs1: TP,
        rs2: TEMPORARY_1,
    }),
    Line::Plain(Inst::Sd {
        rs1: TP,
        rs2: TEMPORARY_1,
        imm: 64,
    }),
    Line::Plain(Inst::Auipc {
        rd: TEMPORARY_2,
        imm: 0,
    }),
    Line::AddDistance {
        rd: TEMPORARY_2,
        rs1: TEMPORARY_2,
        to: Label::Blue,
    },
    Line::Plain(Inst::Sd {
        rs1: TP,
        rs2: TEMPORARY_2,
        imm: 72,
    }),
    Line::Plain(Inst::Csrrs {
        rd: A0,
        rs1: ZERO,
        csr: TIME,
    }),
    Line::Plain(Inst::Addi {
        rd: A0,
        rs1: A0,
        imm: 400,
    }),
    Line::Plain(Inst::Lui {
        rd: A7,
        imm: 0x5449_5000,
    }),
    Line::Plain(Inst::Addi {
        rd: A7,
        rs1: A7,
        imm: -699,
    }),
    Line::Plain(Inst::Addi {
        rd: A6,
        rs1: ZERO,
        imm: 0,
    }),
    Line::Plain(Inst::Ecall),
    Line::Plain(Inst::Csrrsi {
        rd: ZERO,
        imm: 2,
        csr: SSTATUS,
    }),
    Line::Jump {
        rd: ZERO,
        to: Label::Red,
    },
];

/// The trap handler: it counts the timer interrupt at 128 bytes from tp, and asks for the next one.
pub(crate) const TRAP: [Line; 22] = [
    Line::Plain(Inst::Addi {
        rd: SP,
        rs1: SP,
        imm: -48,
    }),
    Line::Plain(Inst::Sd {
        rs1: SP,
        rs2: TEMPORARY_0,
        imm: 0,
    }),
    Line::Plain(Inst::Sd {
        rs1: SP,
        rs2: A0,
        imm: 8,
    }),
    Line::Plain(Inst::Sd {
        rs1: SP,
        rs2: A1,
        imm: 16,
    }),
    Line::Plain(Inst::Sd {
        rs1: SP,
        rs2: A6,
        imm: 24,
    }),
    Line::Plain(Inst::Sd {
        rs1: SP,
        rs2: A7,
        imm: 32,
    }),
    Line::Plain(Inst::Ld {
        rd: TEMPORARY_0,
        rs1: TP,
        imm: 128,
    }),
    Line::Plain(Inst::Addi {
        rd: TEMPORARY_0,
        rs1: TEMPORARY_0,
        imm: 1,
    }),
    Line::Plain(Inst::Sd {
        rs1: TP,
        rs2: TEMPORARY_0,
        imm: 128,
    }),
    Line::Plain(Inst::Csrrs {
        rd: A0,
        rs1: ZERO,
        csr: TIME,
    }),
    Line::Plain(Inst::Addi {
        rd: A0,
        rs1: A0,
        imm: 400,
    }),
    Line::Plain(Inst::Lui {
        rd: A7,
        imm: 0x5449_5000,
    }),
    Line::Plain(Inst::Addi {
        rd: A7,
        rs1: A7,
        imm: -699,
    }),
    Line::Plain(Inst::Addi {
        rd: A6,
        rs1: ZERO,
        imm: 0,
    }),
    Line::Plain(Inst::Ecall),
    Line::Plain(Inst::Ld {
        rd: TEMPORARY_0,
        rs1: SP,
        imm: 0,
    }),
    Line::Plain(Inst::Ld {
        rd: A0,
        rs1: SP,
        imm: 8,
    }),
    Line::Plain(Inst::Ld {
        rd: A1,
        rs1: SP,
        imm: 16,
    }),
    Line::Plain(Inst::Ld {
        rd: A6,
        rs1: SP,
        imm: 24,
    }),
    Line::Plain(Inst::Ld {
        rd: A7,
        rs1: SP,
        imm: 32,
    }),
    Line::Plain(Inst::Addi {
        rd: SP,
        rs1: SP,
        imm: 48,
    }),
    Line::Plain(Inst::Sret),
];

/// The switch from the task at a0 to the task at a1.
pub(crate) const SWITCH_TO: [Line; 7] = [
    Line::Plain(Inst::Sd {
        rs1: A0,
        rs2: SP,
        imm: 0,
    }),
    Line::Plain(Inst::Sd {
        rs1: A0,
        rs2: RA,
        imm: 8,
    }),
    Line::Plain(Inst::Sd {
        rs1: A0,
        rs2: S0,
        imm: 16,
    }),
    Line::Plain(Inst::Ld {
        rd: SP,
        rs1: A1,
        imm: 0,
    }),
    Line::Plain(Inst::Ld {
        rd: RA,
        rs1: A1,
        imm: 8,
    }),
    Line::Plain(Inst::Ld {
        rd: S0,
        rs1: A1,
        imm: 16,
    }),
    Line::Plain(Inst::Jalr {
        rd: ZERO,
        rs1: RA,
        imm: 0,
    }),
];

/// The first task: it calls two functions and prints `r`, and after a timer interrupt it switches to the other.
pub(crate) const RED: [Line; 12] = [
    Line::Jump {
        rd: RA,
        to: Label::First,
    },
    Line::Jump {
        rd: RA,
        to: Label::Second,
    },
    Line::Plain(Inst::Addi {
        rd: A0,
        rs1: ZERO,
        imm: 114,
    }),
    Line::Plain(Inst::Addi {
        rd: A7,
        rs1: ZERO,
        imm: 1,
    }),
    Line::Plain(Inst::Ecall),
    Line::Plain(Inst::Ld {
        rd: TEMPORARY_0,
        rs1: TP,
        imm: 128,
    }),
    Line::BranchIfEqual {
        rs1: TEMPORARY_0,
        rs2: ZERO,
        to: Label::Red,
    },
    Line::Plain(Inst::Sd {
        rs1: TP,
        rs2: ZERO,
        imm: 128,
    }),
    Line::Plain(Inst::Addi {
        rd: A0,
        rs1: TP,
        imm: 0,
    }),
    Line::Plain(Inst::Addi {
        rd: A1,
        rs1: TP,
        imm: 64,
    }),
    Line::Jump {
        rd: RA,
        to: Label::SwitchTo,
    },
    Line::Jump {
        rd: ZERO,
        to: Label::Red,
    },
];

/// The second task, as the first, with two other functions and `b`.
pub(crate) const BLUE: [Line; 12] = [
    Line::Jump {
        rd: RA,
        to: Label::Third,
    },
    Line::Jump {
        rd: RA,
        to: Label::Fourth,
    },
    Line::Plain(Inst::Addi {
        rd: A0,
        rs1: ZERO,
        imm: 98,
    }),
    Line::Plain(Inst::Addi {
        rd: A7,
        rs1: ZERO,
        imm: 1,
    }),
    Line::Plain(Inst::Ecall),
    Line::Plain(Inst::Ld {
        rd: TEMPORARY_0,
        rs1: TP,
        imm: 128,
    }),
    Line::BranchIfEqual {
        rs1: TEMPORARY_0,
        rs2: ZERO,
        to: Label::Blue,
    },
    Line::Plain(Inst::Sd {
        rs1: TP,
        rs2: ZERO,
        imm: 128,
    }),
    Line::Plain(Inst::Addi {
        rd: A0,
        rs1: TP,
        imm: 64,
    }),
    Line::Plain(Inst::Addi {
        rd: A1,
        rs1: TP,
        imm: 0,
    }),
    Line::Jump {
        rd: RA,
        to: Label::SwitchTo,
    },
    Line::Jump {
        rd: ZERO,
        to: Label::Blue,
    },
];

/// How a function with a drawn body begins: it saves ra and s0, the frame pointer.
pub(crate) const ENTER: [Line; 4] = [
    Line::Plain(Inst::Addi {
        rd: SP,
        rs1: SP,
        imm: -16,
    }),
    Line::Plain(Inst::Sd {
        rs1: SP,
        rs2: RA,
        imm: 8,
    }),
    Line::Plain(Inst::Sd {
        rs1: SP,
        rs2: S0,
        imm: 0,
    }),
    Line::Plain(Inst::Addi {
        rd: S0,
        rs1: SP,
        imm: 16,
    }),
];

/// How it ends.
pub(crate) const LEAVE: [Line; 4] = [
    Line::Plain(Inst::Ld {
        rd: RA,
        rs1: SP,
        imm: 8,
    }),
    Line::Plain(Inst::Ld {
        rd: S0,
        rs1: SP,
        imm: 0,
    }),
    Line::Plain(Inst::Addi {
        rd: SP,
        rs1: SP,
        imm: 16,
    }),
    Line::Plain(Inst::Jalr {
        rd: ZERO,
        rs1: RA,
        imm: 0,
    }),
];
