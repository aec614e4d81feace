//! Words and halfwords that were worked out by hand from the manual's listings, or that are printed in every
//! disassembly, as 0xff010113 for `addi sp,sp,-16`.

use crate::rows::rows;
use crate::{encode, squeeze};
use rv_decode::{Inst, decode32};

#[test]
fn words_of_every_format_are_encoded(rt: HostRuntime) {
    for (i, want) in [
        (Inst::Lui { rd: 5, imm: -4096 }, Some(0xffff_f2b7)),
        (Inst::Jal { rd: 0, imm: -4 }, Some(0xffdf_f06f)),
        (
            Inst::Addi {
                rd: 2,
                rs1: 2,
                imm: -16,
            },
            Some(0xff01_0113),
        ),
        (
            Inst::Addi {
                rd: 1,
                rs1: 0,
                imm: -2048,
            },
            Some(0x8000_0093),
        ),
        (
            Inst::Bne {
                rs1: 15,
                rs2: 0,
                imm: -20,
            },
            Some(0xfe07_96e3),
        ),
        (
            Inst::Sd {
                rs1: 8,
                rs2: 10,
                imm: -24,
            },
            Some(0xfea4_3423),
        ),
        (
            Inst::Srai {
                rd: 10,
                rs1: 10,
                imm: 63,
            },
            Some(0x43f5_5513),
        ),
        (
            Inst::Sub {
                rd: 10,
                rs1: 11,
                rs2: 12,
            },
            Some(0x40c5_8533),
        ),
        (Inst::Fence, Some(0x0000_000f)),
        (Inst::SfenceVma { rs1: 10, rs2: 11 }, Some(0x12b5_0073)),
        (
            Inst::Csrrw {
                rd: 0,
                rs1: 5,
                csr: 0x180,
            },
            Some(0x1802_9073),
        ),
        (
            Inst::Csrrsi {
                rd: 0,
                imm: 2,
                csr: 0x100,
            },
            Some(0x1001_6073),
        ),
        (Inst::LrW { rd: 10, rs1: 11 }, Some(0x1005_a52f)),
        (
            Inst::AmomaxuD {
                rd: 1,
                rs1: 2,
                rs2: 3,
            },
            Some(0xe031_30af),
        ),
        (
            Inst::Addi {
                rd: 1,
                rs1: 0,
                imm: 2048,
            },
            None,
        ),
        (
            Inst::Addi {
                rd: 32,
                rs1: 0,
                imm: 0,
            },
            None,
        ),
        (
            Inst::Beq {
                rs1: 0,
                rs2: 0,
                imm: 3,
            },
            None,
        ),
        (
            Inst::Jal {
                rd: 0,
                imm: 0x10_0000,
            },
            None,
        ),
        (Inst::Lui { rd: 1, imm: 1 }, None),
        (
            Inst::Slli {
                rd: 1,
                rs1: 1,
                imm: 64,
            },
            None,
        ),
        (
            Inst::Slliw {
                rd: 1,
                rs1: 1,
                imm: 32,
            },
            None,
        ),
        (
            Inst::Csrrs {
                rd: 1,
                rs1: 0,
                csr: 0x1000,
            },
            None,
        ),
    ] {
        assert_eq!(rt; encode(&i), want);
    }
}

#[test]
fn the_least_halfword_is_taken(rt: HostRuntime) {
    for (i, want) in [
        (
            Inst::Addi {
                rd: 17,
                rs1: 0,
                imm: 8,
            },
            Some(0x48a1),
        ),
        (
            Inst::Addi {
                rd: 0,
                rs1: 0,
                imm: 0,
            },
            Some(0x0001),
        ),
        // C.ADDI, not C.ADDI16SP.
        (
            Inst::Addi {
                rd: 2,
                rs1: 2,
                imm: 16,
            },
            Some(0x0141),
        ),
        (
            Inst::Addi {
                rd: 8,
                rs1: 2,
                imm: 16,
            },
            Some(0x0800),
        ),
        (Inst::Lui { rd: 15, imm: -4096 }, Some(0x77fd)),
        (
            Inst::Lw {
                rd: 10,
                rs1: 2,
                imm: 4,
            },
            Some(0x4512),
        ),
        (
            Inst::Sd {
                rs1: 2,
                rs2: 1,
                imm: 8,
            },
            Some(0xe406),
        ),
        (Inst::Jal { rd: 0, imm: -10 }, Some(0xbfdd)),
        (
            Inst::Beq {
                rs1: 15,
                rs2: 0,
                imm: 8,
            },
            Some(0xc781),
        ),
        (
            Inst::Sub {
                rd: 15,
                rs1: 15,
                rs2: 14,
            },
            Some(0x8f99),
        ),
        // C.MV, not C.ADD.
        (
            Inst::Add {
                rd: 0,
                rs1: 0,
                rs2: 5,
            },
            Some(0x8016),
        ),
        (
            Inst::Jalr {
                rd: 0,
                rs1: 1,
                imm: 0,
            },
            Some(0x8082),
        ),
        (Inst::Ebreak, Some(0x9002)),
        (Inst::Ecall, None),
        (
            Inst::Sub {
                rd: 15,
                rs1: 14,
                rs2: 15,
            },
            None,
        ),
        (
            Inst::Beq {
                rs1: 15,
                rs2: 0,
                imm: 256,
            },
            None,
        ),
        (
            Inst::Addi {
                rd: 1,
                rs1: 1,
                imm: 32,
            },
            None,
        ),
        (
            Inst::Addi {
                rd: 1,
                rs1: 0,
                imm: 2048,
            },
            None,
        ),
    ] {
        assert_eq!(rt; squeeze(&i), want);
    }
}

/// No two instructions have one word, so that what has the word of the row is the row's instruction.
#[test]
fn one_word_of_every_row_is_encoded_and_decoded(rt: HostRuntime) {
    for (inst, word) in rows() {
        assert!(rt; encode(inst) == Some(*word));
        match decode32(*word) {
            Some(again) => assert!(rt; encode(&again) == Some(*word)),
            None => assert!(rt; false, "at {word}"),
        }
    }
}
