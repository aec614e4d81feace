//! Words and halfwords that were worked out by hand from the manual's listings, or that are printed in every
//! disassembly, as 0xff010113 for `addi sp,sp,-16`.

use crate::{Inst, decode16, decode32};

#[test]
fn words_of_every_format_are_decoded(rt: HostRuntime) {
    assert!(rt; matches!(decode32(0xffff_f2b7), Some(Inst::Lui { rd: 5, imm: -4096 })));
    assert!(rt; matches!(decode32(0x00c0_00ef), Some(Inst::Jal { rd: 1, imm: 12 })));
    assert!(rt; matches!(decode32(0xffdf_f06f), Some(Inst::Jal { rd: 0, imm: -4 })));
    assert!(rt;
        matches!(
            decode32(0xfe07_96e3),
            Some(Inst::Bne {
                rs1: 15,
                rs2: 0,
                imm: -20
            })
        )
    );
    assert!(rt;
        matches!(
            decode32(0xff01_0113),
            Some(Inst::Addi {
                rd: 2,
                rs1: 2,
                imm: -16
            })
        )
    );
    assert!(rt;
        matches!(
            decode32(0x0081_3083),
            Some(Inst::Ld {
                rd: 1,
                rs1: 2,
                imm: 8
            })
        )
    );
    assert!(rt;
        matches!(
            decode32(0xfea4_3423),
            Some(Inst::Sd {
                rs1: 8,
                rs2: 10,
                imm: -24
            })
        )
    );
    assert!(rt;
        matches!(
            decode32(0x43f5_5513),
            Some(Inst::Srai {
                rd: 10,
                rs1: 10,
                imm: 63
            })
        )
    );
    assert!(rt;
        matches!(
            decode32(0x40c5_8533),
            Some(Inst::Sub {
                rd: 10,
                rs1: 11,
                rs2: 12
            })
        )
    );
    assert!(rt;
        matches!(
            decode32(0x0273_72bb),
            Some(Inst::Remuw {
                rd: 5,
                rs1: 6,
                rs2: 7
            })
        )
    );
    assert!(rt; matches!(decode32(0x0ff0_000f), Some(Inst::Fence)));
    assert!(rt; matches!(decode32(0x0000_100f), Some(Inst::FenceI)));
    assert!(rt;
        matches!(
            decode32(0x12b5_0073),
            Some(Inst::SfenceVma { rs1: 10, rs2: 11 })
        )
    );
    assert!(rt;
        matches!(
            decode32(0x1802_9073),
            Some(Inst::Csrrw {
                rd: 0,
                rs1: 5,
                csr: 0x180
            })
        )
    );
    assert!(rt;
        matches!(
            decode32(0xc010_2573),
            Some(Inst::Csrrs {
                rd: 10,
                rs1: 0,
                csr: 0xc01
            })
        )
    );
    assert!(rt;
        matches!(
            decode32(0x1001_6073),
            Some(Inst::Csrrsi {
                rd: 0,
                imm: 2,
                csr: 0x100
            })
        )
    );
    assert!(rt; matches!(decode32(0x1605_a52f), Some(Inst::LrW { rd: 10, rs1: 11 })));
    assert!(rt;
        matches!(
            decode32(0x18c5_b52f),
            Some(Inst::ScD {
                rd: 10,
                rs1: 11,
                rs2: 12
            })
        )
    );
    assert!(rt;
        matches!(
            decode32(0x06e6_a7af),
            Some(Inst::AmoaddW {
                rd: 15,
                rs1: 13,
                rs2: 14
            })
        )
    );
    assert!(rt;
        matches!(
            decode32(0xe031_30af),
            Some(Inst::AmomaxuD {
                rd: 1,
                rs1: 2,
                rs2: 3
            })
        )
    );

    // All zeros, all ones, SLLIW by 32, LR.W with rs2, ECALL with rd, MRET, FLD.
    for w in [
        0,
        0xffff_ffff,
        0x0200_101b,
        0x1015_a52f,
        0x0000_00f3,
        0x3020_0073,
        0x0000_3007,
    ] {
        assert!(rt; decode32(w).is_none(), "at {w}");
    }
}

#[test]
fn halfwords_of_every_form_are_decoded(rt: HostRuntime) {
    assert!(rt;
        matches!(
            decode16(0x0800),
            Some(Inst::Addi {
                rd: 8,
                rs1: 2,
                imm: 16
            })
        )
    );
    assert!(rt;
        matches!(
            decode16(0x43d8),
            Some(Inst::Lw {
                rd: 14,
                rs1: 15,
                imm: 4
            })
        )
    );
    assert!(rt;
        matches!(
            decode16(0x0001),
            Some(Inst::Addi {
                rd: 0,
                rs1: 0,
                imm: 0
            })
        )
    );
    assert!(rt;
        matches!(
            decode16(0x1141),
            Some(Inst::Addi {
                rd: 2,
                rs1: 2,
                imm: -16
            })
        )
    );
    assert!(rt;
        matches!(
            decode16(0x57fd),
            Some(Inst::Addi {
                rd: 15,
                rs1: 0,
                imm: -1
            })
        )
    );
    assert!(rt;
        matches!(
            decode16(0x7139),
            Some(Inst::Addi {
                rd: 2,
                rs1: 2,
                imm: -64
            })
        )
    );
    assert!(rt; matches!(decode16(0x77fd), Some(Inst::Lui { rd: 15, imm: -4096 })));
    assert!(rt;
        matches!(
            decode16(0x97fd),
            Some(Inst::Srai {
                rd: 15,
                rs1: 15,
                imm: 63
            })
        )
    );
    assert!(rt;
        matches!(
            decode16(0x9bc1),
            Some(Inst::Andi {
                rd: 15,
                rs1: 15,
                imm: -16
            })
        )
    );
    assert!(rt;
        matches!(
            decode16(0x8f99),
            Some(Inst::Sub {
                rd: 15,
                rs1: 15,
                rs2: 14
            })
        )
    );
    assert!(rt; matches!(decode16(0xbfdd), Some(Inst::Jal { rd: 0, imm: -10 })));
    assert!(rt;
        matches!(
            decode16(0xc781),
            Some(Inst::Beq {
                rs1: 15,
                rs2: 0,
                imm: 8
            })
        )
    );
    assert!(rt;
        matches!(
            decode16(0xfff5),
            Some(Inst::Bne {
                rs1: 15,
                rs2: 0,
                imm: -4
            })
        )
    );
    assert!(rt;
        matches!(
            decode16(0x1782),
            Some(Inst::Slli {
                rd: 15,
                rs1: 15,
                imm: 32
            })
        )
    );
    assert!(rt;
        matches!(
            decode16(0x60a2),
            Some(Inst::Ld {
                rd: 1,
                rs1: 2,
                imm: 8
            })
        )
    );
    assert!(rt;
        matches!(
            decode16(0x8082),
            Some(Inst::Jalr {
                rd: 0,
                rs1: 1,
                imm: 0
            })
        )
    );
    assert!(rt;
        matches!(
            decode16(0x853e),
            Some(Inst::Add {
                rd: 10,
                rs1: 0,
                rs2: 15
            })
        )
    );
    assert!(rt; matches!(decode16(0x9002), Some(Inst::Ebreak)));
    assert!(rt;
        matches!(
            decode16(0x9782),
            Some(Inst::Jalr {
                rd: 1,
                rs1: 15,
                imm: 0
            })
        )
    );
    assert!(rt;
        matches!(
            decode16(0xe406),
            Some(Inst::Sd {
                rs1: 2,
                rs2: 1,
                imm: 8
            })
        )
    );

    // No compressed instruction, C.ADDI16SP and C.LUI with immediate 0, C.ADDIW and C.LWSP with rd 0, C.JR with
    // register 0, C.FLD, a reserved form of the arithmetic, and the first half of a word.
    for h in [
        0x0000, 0x6101, 0x6081, 0x2001, 0x4002, 0x8002, 0x2000, 0x9c41, 0x0003,
    ] {
        assert!(rt; decode16(h).is_none(), "at {h}");
    }
}
