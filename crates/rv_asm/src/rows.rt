//! One word of every instruction, with its fields: words as the GNU assembler makes them of the same operands.

use rv_decode::Inst;

static ROWS: [(Inst, u32); 97] = [
    (
        Inst::Lui {
            rd: 8,
            imm: -305418240,
        },
        0xedcb_b437,
    ),
    (
        Inst::Auipc {
            rd: 15,
            imm: 1412567040,
        },
        0x5432_1797,
    ),
    (
        Inst::Jal {
            rd: 22,
            imm: -699052,
        },
        0xd545_5b6f,
    ),
    (
        Inst::Jalr {
            rd: 29,
            rs1: 17,
            imm: -1366,
        },
        0xaaa8_8ee7,
    ),
    (
        Inst::Beq {
            rs1: 28,
            rs2: 4,
            imm: -6,
        },
        0xfe4e_0de3,
    ),
    (
        Inst::Bne {
            rs1: 8,
            rs2: 9,
            imm: -2732,
        },
        0xd494_1a63,
    ),
    (
        Inst::Blt {
            rs1: 19,
            rs2: 14,
            imm: 1364,
        },
        0x54e9_ca63,
    ),
    (
        Inst::Bge {
            rs1: 30,
            rs2: 19,
            imm: -4096,
        },
        0x813f_5063,
    ),
    (
        Inst::Bltu {
            rs1: 10,
            rs2: 24,
            imm: 4094,
        },
        0x7f85_6fe3,
    ),
    (
        Inst::Bgeu {
            rs1: 21,
            rs2: 29,
            imm: 2730,
        },
        0x2bda_f5e3,
    ),
    (
        Inst::Lb {
            rd: 16,
            rs1: 1,
            imm: -1366,
        },
        0xaaa0_8803,
    ),
    (
        Inst::Lh {
            rd: 23,
            rs1: 12,
            imm: 100,
        },
        0x0646_1b83,
    ),
    (
        Inst::Lw {
            rd: 30,
            rs1: 23,
            imm: -5,
        },
        0xffbb_af03,
    ),
    (
        Inst::Ld {
            rd: 6,
            rs1: 3,
            imm: -2048,
        },
        0x8001_b303,
    ),
    (
        Inst::Lbu {
            rd: 13,
            rs1: 14,
            imm: 2047,
        },
        0x7ff7_4683,
    ),
    (
        Inst::Lhu {
            rd: 20,
            rs1: 25,
            imm: -1,
        },
        0xfffc_da03,
    ),
    (
        Inst::Lwu {
            rd: 27,
            rs1: 5,
            imm: 1365,
        },
        0x5552_ed83,
    ),
    (
        Inst::Sb {
            rs1: 16,
            rs2: 7,
            imm: -1366,
        },
        0xaa78_0523,
    ),
    (
        Inst::Sh {
            rs1: 27,
            rs2: 12,
            imm: 100,
        },
        0x06cd_9223,
    ),
    (
        Inst::Sw {
            rs1: 7,
            rs2: 17,
            imm: -5,
        },
        0xff13_ada3,
    ),
    (
        Inst::Sd {
            rs1: 18,
            rs2: 22,
            imm: -2048,
        },
        0x8169_3023,
    ),
    (
        Inst::Addi {
            rd: 31,
            rs1: 29,
            imm: 2047,
        },
        0x7ffe_8f93,
    ),
    (
        Inst::Slti {
            rd: 7,
            rs1: 9,
            imm: -1,
        },
        0xfff4_a393,
    ),
    (
        Inst::Sltiu {
            rd: 14,
            rs1: 20,
            imm: 1365,
        },
        0x555a_3713,
    ),
    (
        Inst::Xori {
            rd: 21,
            rs1: 31,
            imm: -1366,
        },
        0xaaaf_ca93,
    ),
    (
        Inst::Ori {
            rd: 28,
            rs1: 11,
            imm: 100,
        },
        0x0645_ee13,
    ),
    (
        Inst::Andi {
            rd: 4,
            rs1: 22,
            imm: -5,
        },
        0xffbb_7213,
    ),
    (
        Inst::Addiw {
            rd: 11,
            rs1: 2,
            imm: -2048,
        },
        0x8001_059b,
    ),
    (
        Inst::Slli {
            rd: 18,
            rs1: 13,
            imm: 42,
        },
        0x02a6_9913,
    ),
    (
        Inst::Srli {
            rd: 25,
            rs1: 24,
            imm: 63,
        },
        0x03fc_5c93,
    ),
    (
        Inst::Srai {
            rd: 1,
            rs1: 4,
            imm: 33,
        },
        0x4212_5093,
    ),
    (
        Inst::Slliw {
            rd: 8,
            rs1: 15,
            imm: 21,
        },
        0x0157_941b,
    ),
    (
        Inst::Srliw {
            rd: 15,
            rs1: 26,
            imm: 31,
        },
        0x01fd_579b,
    ),
    (
        Inst::Sraiw {
            rd: 22,
            rs1: 6,
            imm: 17,
        },
        0x4113_5b1b,
    ),
    (
        Inst::Add {
            rd: 29,
            rs1: 17,
            rs2: 30,
        },
        0x01e8_8eb3,
    ),
    (
        Inst::Sub {
            rd: 5,
            rs1: 28,
            rs2: 4,
        },
        0x404e_02b3,
    ),
    (
        Inst::Sll {
            rd: 12,
            rs1: 8,
            rs2: 9,
        },
        0x0094_1633,
    ),
    (
        Inst::Slt {
            rd: 19,
            rs1: 19,
            rs2: 14,
        },
        0x00e9_a9b3,
    ),
    (
        Inst::Sltu {
            rd: 26,
            rs1: 30,
            rs2: 19,
        },
        0x013f_3d33,
    ),
    (
        Inst::Xor {
            rd: 2,
            rs1: 10,
            rs2: 24,
        },
        0x0185_4133,
    ),
    (
        Inst::Srl {
            rd: 9,
            rs1: 21,
            rs2: 29,
        },
        0x01da_d4b3,
    ),
    (
        Inst::Sra {
            rd: 16,
            rs1: 1,
            rs2: 3,
        },
        0x4030_d833,
    ),
    (
        Inst::Or {
            rd: 23,
            rs1: 12,
            rs2: 8,
        },
        0x0086_6bb3,
    ),
    (
        Inst::And {
            rd: 30,
            rs1: 23,
            rs2: 13,
        },
        0x00db_ff33,
    ),
    (
        Inst::Addw {
            rd: 6,
            rs1: 3,
            rs2: 18,
        },
        0x0121_833b,
    ),
    (
        Inst::Subw {
            rd: 13,
            rs1: 14,
            rs2: 23,
        },
        0x4177_06bb,
    ),
    (
        Inst::Sllw {
            rd: 20,
            rs1: 25,
            rs2: 28,
        },
        0x01cc_9a3b,
    ),
    (
        Inst::Srlw {
            rd: 27,
            rs1: 5,
            rs2: 2,
        },
        0x0022_ddbb,
    ),
    (
        Inst::Sraw {
            rd: 3,
            rs1: 16,
            rs2: 7,
        },
        0x4078_51bb,
    ),
    (
        Inst::Mul {
            rd: 10,
            rs1: 27,
            rs2: 12,
        },
        0x02cd_8533,
    ),
    (
        Inst::Mulh {
            rd: 17,
            rs1: 7,
            rs2: 17,
        },
        0x0313_98b3,
    ),
    (
        Inst::Mulhsu {
            rd: 24,
            rs1: 18,
            rs2: 22,
        },
        0x0369_2c33,
    ),
    (
        Inst::Mulhu {
            rd: 31,
            rs1: 29,
            rs2: 27,
        },
        0x03be_bfb3,
    ),
    (
        Inst::Div {
            rd: 7,
            rs1: 9,
            rs2: 1,
        },
        0x0214_c3b3,
    ),
    (
        Inst::Divu {
            rd: 14,
            rs1: 20,
            rs2: 6,
        },
        0x026a_5733,
    ),
    (
        Inst::Rem {
            rd: 21,
            rs1: 31,
            rs2: 11,
        },
        0x02bf_eab3,
    ),
    (
        Inst::Remu {
            rd: 28,
            rs1: 11,
            rs2: 16,
        },
        0x0305_fe33,
    ),
    (
        Inst::Mulw {
            rd: 4,
            rs1: 22,
            rs2: 21,
        },
        0x035b_023b,
    ),
    (
        Inst::Divw {
            rd: 11,
            rs1: 2,
            rs2: 26,
        },
        0x03a1_45bb,
    ),
    (
        Inst::Divuw {
            rd: 18,
            rs1: 13,
            rs2: 31,
        },
        0x03f6_d93b,
    ),
    (
        Inst::Remw {
            rd: 25,
            rs1: 24,
            rs2: 5,
        },
        0x025c_6cbb,
    ),
    (
        Inst::Remuw {
            rd: 1,
            rs1: 4,
            rs2: 10,
        },
        0x02a2_70bb,
    ),
    (Inst::Fence, 0x0000_000f),
    (Inst::FenceI, 0x0000_100f),
    (Inst::Ecall, 0x0000_0073),
    (Inst::Ebreak, 0x0010_0073),
    (Inst::Sret, 0x1020_0073),
    (Inst::Wfi, 0x1050_0073),
    (Inst::SfenceVma { rs1: 15, rs2: 15 }, 0x12f7_8073),
    (
        Inst::Csrrw {
            rd: 15,
            rs1: 26,
            csr: 0xc01,
        },
        0xc01d_17f3,
    ),
    (
        Inst::Csrrs {
            rd: 22,
            rs1: 6,
            csr: 0x105,
        },
        0x1053_2b73,
    ),
    (
        Inst::Csrrc {
            rd: 29,
            rs1: 17,
            csr: 0x180,
        },
        0x1808_bef3,
    ),
    (
        Inst::Csrrwi {
            rd: 5,
            imm: 28,
            csr: 0x7ff,
        },
        0x7ffe_52f3,
    ),
    (
        Inst::Csrrsi {
            rd: 12,
            imm: 8,
            csr: 0x100,
        },
        0x1004_6673,
    ),
    (
        Inst::Csrrci {
            rd: 19,
            imm: 19,
            csr: 0x140,
        },
        0x1409_f9f3,
    ),
    (Inst::LrW { rd: 26, rs1: 30 }, 0x100f_2d2f),
    (
        Inst::ScW {
            rd: 2,
            rs1: 10,
            rs2: 24,
        },
        0x1985_212f,
    ),
    (
        Inst::AmoswapW {
            rd: 9,
            rs1: 21,
            rs2: 29,
        },
        0x09da_a4af,
    ),
    (
        Inst::AmoaddW {
            rd: 16,
            rs1: 1,
            rs2: 3,
        },
        0x0030_a82f,
    ),
    (
        Inst::AmoxorW {
            rd: 23,
            rs1: 12,
            rs2: 8,
        },
        0x2086_2baf,
    ),
    (
        Inst::AmoandW {
            rd: 30,
            rs1: 23,
            rs2: 13,
        },
        0x60db_af2f,
    ),
    (
        Inst::AmoorW {
            rd: 6,
            rs1: 3,
            rs2: 18,
        },
        0x4121_a32f,
    ),
    (
        Inst::AmominW {
            rd: 13,
            rs1: 14,
            rs2: 23,
        },
        0x8177_26af,
    ),
    (
        Inst::AmomaxW {
            rd: 20,
            rs1: 25,
            rs2: 28,
        },
        0xa1cc_aa2f,
    ),
    (
        Inst::AmominuW {
            rd: 27,
            rs1: 5,
            rs2: 2,
        },
        0xc022_adaf,
    ),
    (
        Inst::AmomaxuW {
            rd: 3,
            rs1: 16,
            rs2: 7,
        },
        0xe078_21af,
    ),
    (Inst::LrD { rd: 10, rs1: 27 }, 0x100d_b52f),
    (
        Inst::ScD {
            rd: 17,
            rs1: 7,
            rs2: 17,
        },
        0x1913_b8af,
    ),
    (
        Inst::AmoswapD {
            rd: 24,
            rs1: 18,
            rs2: 22,
        },
        0x0969_3c2f,
    ),
    (
        Inst::AmoaddD {
            rd: 31,
            rs1: 29,
            rs2: 27,
        },
        0x01be_bfaf,
    ),
    (
        Inst::AmoxorD {
            rd: 7,
            rs1: 9,
            rs2: 1,
        },
        0x2014_b3af,
    ),
    (
        Inst::AmoandD {
            rd: 14,
            rs1: 20,
            rs2: 6,
        },
        0x606a_372f,
    ),
    (
        Inst::AmoorD {
            rd: 21,
            rs1: 31,
            rs2: 11,
        },
        0x40bf_baaf,
    ),
    (
        Inst::AmominD {
            rd: 28,
            rs1: 11,
            rs2: 16,
        },
        0x8105_be2f,
    ),
    (
        Inst::AmomaxD {
            rd: 4,
            rs1: 22,
            rs2: 21,
        },
        0xa15b_322f,
    ),
    (
        Inst::AmominuD {
            rd: 11,
            rs1: 2,
            rs2: 26,
        },
        0xc1a1_35af,
    ),
    (
        Inst::AmomaxuD {
            rd: 18,
            rs1: 13,
            rs2: 31,
        },
        0xe1f6_b92f,
    ),
];

pub(crate) fn rows() -> &'static [(Inst, u32)] {
    &ROWS
}
