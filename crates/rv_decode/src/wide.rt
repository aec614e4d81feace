//! The decoder of 32-bit words: one function for each opcode of more than one row.
//!
//! They are inlined into [`decode32`], and that into the step, so that no instruction is copied on its way.
//!
//! The opcodes are named as in the manual's "RISC-V base opcode map".

ghost use Rattle.std.specs.Prelude.{◌≡◌, bit_and};
ghost use Rattle.rv_decode.specs.Rows.{decode_of};

use crate::Inst;
use crate::fields::{csr, imm_b, imm_i, imm_j, imm_s, imm_u, rd, rs1, rs2, shamt5, shamt6, uimm};

const LUI: u32 = 0x37;

const AUIPC: u32 = 0x17;

const JAL: u32 = 0x6f;

const JALR: u32 = 0x67;

const BRANCH: u32 = 0x63;

const LOAD: u32 = 0x03;

const STORE: u32 = 0x23;

const OP_IMM: u32 = 0x13;

const OP_IMM_32: u32 = 0x1b;

const OP: u32 = 0x33;

const OP_32: u32 = 0x3b;

const MISC_MEM: u32 = 0x0f;

const SYSTEM: u32 = 0x73;

const AMO: u32 = 0x2f;

/// The opcode, bits 6:0. The masks below hold it too.
const OPCODE: u32 = 0x7f;

/// funct3, bits 14:12.
const FUNCT3: u32 = 0x707f;

/// funct3 and funct7, bits 31:25.
const FUNCT7: u32 = 0xfe00_707f;

/// funct3 and bits 31:26, beside the amount of a 64-bit shift.
const FUNCT6: u32 = 0xfc00_707f;

/// funct3 and funct5, bits 31:27, beside aq and rl.
const FUNCT5: u32 = 0xf800_707f;

/// The same and rs2, which is 0 in LR.
const FUNCT5_RS2: u32 = 0xf9f0_707f;

/// funct3, funct7 and rd, which is 0 in SFENCE.VMA.
const FUNCT7_RD: u32 = 0xfe00_7fff;

/// The indirect jumps.
#[inline(always)]
fn decode_jalr(w: u32) -> Option<Inst>
    requires { bit_and w OPCODE ≡ JALR }
    ensures { result ≡ decode_of w }
{
    let rd = rd(w);
    let rs1 = rs1(w);
    let imm = imm_i(w);
    match w & FUNCT3 {
        0x67 => Some(Inst::Jalr { rd, rs1, imm }),
        _ => None,
    }
}

/// The conditional branches.
#[inline(always)]
fn decode_branch(w: u32) -> Option<Inst>
    requires { bit_and w OPCODE ≡ BRANCH }
    ensures { result ≡ decode_of w }
{
    let rs1 = rs1(w);
    let rs2 = rs2(w);
    let imm = imm_b(w);
    match w & FUNCT3 {
        0x63 => Some(Inst::Beq { rs1, rs2, imm }),
        0x1063 => Some(Inst::Bne { rs1, rs2, imm }),
        0x4063 => Some(Inst::Blt { rs1, rs2, imm }),
        0x5063 => Some(Inst::Bge { rs1, rs2, imm }),
        0x6063 => Some(Inst::Bltu { rs1, rs2, imm }),
        0x7063 => Some(Inst::Bgeu { rs1, rs2, imm }),
        _ => None,
    }
}

/// The loads.
#[inline(always)]
fn decode_load(w: u32) -> Option<Inst>
    requires { bit_and w OPCODE ≡ LOAD }
    ensures { result ≡ decode_of w }
{
    let rd = rd(w);
    let rs1 = rs1(w);
    let imm = imm_i(w);
    match w & FUNCT3 {
        0x3 => Some(Inst::Lb { rd, rs1, imm }),
        0x1003 => Some(Inst::Lh { rd, rs1, imm }),
        0x2003 => Some(Inst::Lw { rd, rs1, imm }),
        0x3003 => Some(Inst::Ld { rd, rs1, imm }),
        0x4003 => Some(Inst::Lbu { rd, rs1, imm }),
        0x5003 => Some(Inst::Lhu { rd, rs1, imm }),
        0x6003 => Some(Inst::Lwu { rd, rs1, imm }),
        _ => None,
    }
}

/// The stores.
#[inline(always)]
fn decode_store(w: u32) -> Option<Inst>
    requires { bit_and w OPCODE ≡ STORE }
    ensures { result ≡ decode_of w }
{
    let rs1 = rs1(w);
    let rs2 = rs2(w);
    let imm = imm_s(w);
    match w & FUNCT3 {
        0x23 => Some(Inst::Sb { rs1, rs2, imm }),
        0x1023 => Some(Inst::Sh { rs1, rs2, imm }),
        0x2023 => Some(Inst::Sw { rs1, rs2, imm }),
        0x3023 => Some(Inst::Sd { rs1, rs2, imm }),
        _ => None,
    }
}

/// The operations with an immediate.
#[inline(always)]
fn decode_op_imm(w: u32) -> Option<Inst>
    requires { bit_and w OPCODE ≡ OP_IMM }
    ensures { result ≡ decode_of w }
{
    let rd = rd(w);
    let rs1 = rs1(w);
    match w & FUNCT3 {
        0x13 => Some(Inst::Addi {
            rd,
            rs1,
            imm: imm_i(w),
        }),
        0x2013 => Some(Inst::Slti {
            rd,
            rs1,
            imm: imm_i(w),
        }),
        0x3013 => Some(Inst::Sltiu {
            rd,
            rs1,
            imm: imm_i(w),
        }),
        0x4013 => Some(Inst::Xori {
            rd,
            rs1,
            imm: imm_i(w),
        }),
        0x6013 => Some(Inst::Ori {
            rd,
            rs1,
            imm: imm_i(w),
        }),
        0x7013 => Some(Inst::Andi {
            rd,
            rs1,
            imm: imm_i(w),
        }),
        _ => match w & FUNCT6 {
            0x1013 => Some(Inst::Slli {
                rd,
                rs1,
                imm: shamt6(w),
            }),
            0x5013 => Some(Inst::Srli {
                rd,
                rs1,
                imm: shamt6(w),
            }),
            0x4000_5013 => Some(Inst::Srai {
                rd,
                rs1,
                imm: shamt6(w),
            }),
            _ => None,
        },
    }
}

/// The 32-bit operations with an immediate.
#[inline(always)]
fn decode_op_imm_32(w: u32) -> Option<Inst>
    requires { bit_and w OPCODE ≡ OP_IMM_32 }
    ensures { result ≡ decode_of w }
{
    let rd = rd(w);
    let rs1 = rs1(w);
    match w & FUNCT3 {
        0x1b => Some(Inst::Addiw {
            rd,
            rs1,
            imm: imm_i(w),
        }),
        _ => match w & FUNCT7 {
            0x101b => Some(Inst::Slliw {
                rd,
                rs1,
                imm: shamt5(w),
            }),
            0x501b => Some(Inst::Srliw {
                rd,
                rs1,
                imm: shamt5(w),
            }),
            0x4000_501b => Some(Inst::Sraiw {
                rd,
                rs1,
                imm: shamt5(w),
            }),
            _ => None,
        },
    }
}

/// The operations on two registers.
#[inline(always)]
fn decode_op(w: u32) -> Option<Inst>
    requires { bit_and w OPCODE ≡ OP }
    ensures { result ≡ decode_of w }
{
    let rd = rd(w);
    let rs1 = rs1(w);
    let rs2 = rs2(w);
    match w & FUNCT7 {
        0x33 => Some(Inst::Add { rd, rs1, rs2 }),
        0x4000_0033 => Some(Inst::Sub { rd, rs1, rs2 }),
        0x1033 => Some(Inst::Sll { rd, rs1, rs2 }),
        0x2033 => Some(Inst::Slt { rd, rs1, rs2 }),
        0x3033 => Some(Inst::Sltu { rd, rs1, rs2 }),
        0x4033 => Some(Inst::Xor { rd, rs1, rs2 }),
        0x5033 => Some(Inst::Srl { rd, rs1, rs2 }),
        0x4000_5033 => Some(Inst::Sra { rd, rs1, rs2 }),
        0x6033 => Some(Inst::Or { rd, rs1, rs2 }),
        0x7033 => Some(Inst::And { rd, rs1, rs2 }),
        0x200_0033 => Some(Inst::Mul { rd, rs1, rs2 }),
        0x200_1033 => Some(Inst::Mulh { rd, rs1, rs2 }),
        0x200_2033 => Some(Inst::Mulhsu { rd, rs1, rs2 }),
        0x200_3033 => Some(Inst::Mulhu { rd, rs1, rs2 }),
        0x200_4033 => Some(Inst::Div { rd, rs1, rs2 }),
        0x200_5033 => Some(Inst::Divu { rd, rs1, rs2 }),
        0x200_6033 => Some(Inst::Rem { rd, rs1, rs2 }),
        0x200_7033 => Some(Inst::Remu { rd, rs1, rs2 }),
        _ => None,
    }
}

/// The 32-bit operations on two registers.
#[inline(always)]
fn decode_op_32(w: u32) -> Option<Inst>
    requires { bit_and w OPCODE ≡ OP_32 }
    ensures { result ≡ decode_of w }
{
    let rd = rd(w);
    let rs1 = rs1(w);
    let rs2 = rs2(w);
    match w & FUNCT7 {
        0x3b => Some(Inst::Addw { rd, rs1, rs2 }),
        0x4000_003b => Some(Inst::Subw { rd, rs1, rs2 }),
        0x103b => Some(Inst::Sllw { rd, rs1, rs2 }),
        0x503b => Some(Inst::Srlw { rd, rs1, rs2 }),
        0x4000_503b => Some(Inst::Sraw { rd, rs1, rs2 }),
        0x200_003b => Some(Inst::Mulw { rd, rs1, rs2 }),
        0x200_403b => Some(Inst::Divw { rd, rs1, rs2 }),
        0x200_503b => Some(Inst::Divuw { rd, rs1, rs2 }),
        0x200_603b => Some(Inst::Remw { rd, rs1, rs2 }),
        0x200_703b => Some(Inst::Remuw { rd, rs1, rs2 }),
        _ => None,
    }
}

/// The fences.
#[inline(always)]
fn decode_misc_mem(w: u32) -> Option<Inst>
    requires { bit_and w OPCODE ≡ MISC_MEM }
    ensures { result ≡ decode_of w }
{
    match w & FUNCT3 {
        0xf => Some(Inst::Fence),
        0x100f => Some(Inst::FenceI),
        _ => None,
    }
}

/// The environment calls, supervisor instructions and accesses of control registers.
#[inline(always)]
fn decode_system(w: u32) -> Option<Inst>
    requires { bit_and w OPCODE ≡ SYSTEM }
    ensures { result ≡ decode_of w }
{
    let rd = rd(w);
    let rs1 = rs1(w);
    let rs2 = rs2(w);
    let csr = csr(w);
    match w & FUNCT3 {
        0x1073 => Some(Inst::Csrrw { rd, rs1, csr }),
        0x2073 => Some(Inst::Csrrs { rd, rs1, csr }),
        0x3073 => Some(Inst::Csrrc { rd, rs1, csr }),
        0x5073 => Some(Inst::Csrrwi {
            rd,
            imm: uimm(w),
            csr,
        }),
        0x6073 => Some(Inst::Csrrsi {
            rd,
            imm: uimm(w),
            csr,
        }),
        0x7073 => Some(Inst::Csrrci {
            rd,
            imm: uimm(w),
            csr,
        }),
        _ => match w & FUNCT7_RD {
            0x1200_0073 => Some(Inst::SfenceVma { rs1, rs2 }),
            _ => match w {
                0x73 => Some(Inst::Ecall),
                0x10_0073 => Some(Inst::Ebreak),
                0x1020_0073 => Some(Inst::Sret),
                0x1050_0073 => Some(Inst::Wfi),
                _ => None,
            },
        },
    }
}

/// The load-reserved, store-conditional and atomic memory operations.
#[inline(always)]
fn decode_amo(w: u32) -> Option<Inst>
    requires { bit_and w OPCODE ≡ AMO }
    ensures { result ≡ decode_of w }
{
    let rd = rd(w);
    let rs1 = rs1(w);
    let rs2 = rs2(w);
    match w & FUNCT5 {
        0x1800_202f => Some(Inst::ScW { rd, rs1, rs2 }),
        0x800_202f => Some(Inst::AmoswapW { rd, rs1, rs2 }),
        0x202f => Some(Inst::AmoaddW { rd, rs1, rs2 }),
        0x2000_202f => Some(Inst::AmoxorW { rd, rs1, rs2 }),
        0x6000_202f => Some(Inst::AmoandW { rd, rs1, rs2 }),
        0x4000_202f => Some(Inst::AmoorW { rd, rs1, rs2 }),
        0x8000_202f => Some(Inst::AmominW { rd, rs1, rs2 }),
        0xa000_202f => Some(Inst::AmomaxW { rd, rs1, rs2 }),
        0xc000_202f => Some(Inst::AmominuW { rd, rs1, rs2 }),
        0xe000_202f => Some(Inst::AmomaxuW { rd, rs1, rs2 }),
        0x1800_302f => Some(Inst::ScD { rd, rs1, rs2 }),
        0x800_302f => Some(Inst::AmoswapD { rd, rs1, rs2 }),
        0x302f => Some(Inst::AmoaddD { rd, rs1, rs2 }),
        0x2000_302f => Some(Inst::AmoxorD { rd, rs1, rs2 }),
        0x6000_302f => Some(Inst::AmoandD { rd, rs1, rs2 }),
        0x4000_302f => Some(Inst::AmoorD { rd, rs1, rs2 }),
        0x8000_302f => Some(Inst::AmominD { rd, rs1, rs2 }),
        0xa000_302f => Some(Inst::AmomaxD { rd, rs1, rs2 }),
        0xc000_302f => Some(Inst::AmominuD { rd, rs1, rs2 }),
        0xe000_302f => Some(Inst::AmomaxuD { rd, rs1, rs2 }),
        _ => match w & FUNCT5_RS2 {
            0x1000_202f => Some(Inst::LrW { rd, rs1 }),
            0x1000_302f => Some(Inst::LrD { rd, rs1 }),
            _ => None,
        },
    }
}

/// The instruction of the one row that `w` is of; None exactly where it is of no row.
#[inline(always)]
pub fn decode32(w: u32) -> Option<Inst>
    ensures { result ≡ decode_of w }
{
    match w & OPCODE {
        LUI => Some(Inst::Lui {
            rd: rd(w),
            imm: imm_u(w),
        }),
        AUIPC => Some(Inst::Auipc {
            rd: rd(w),
            imm: imm_u(w),
        }),
        JAL => Some(Inst::Jal {
            rd: rd(w),
            imm: imm_j(w),
        }),
        JALR => decode_jalr(w),
        BRANCH => decode_branch(w),
        LOAD => decode_load(w),
        STORE => decode_store(w),
        OP_IMM => decode_op_imm(w),
        OP_IMM_32 => decode_op_imm_32(w),
        OP => decode_op(w),
        OP_32 => decode_op_32(w),
        MISC_MEM => decode_misc_mem(w),
        SYSTEM => decode_system(w),
        AMO => decode_amo(w),
        _ => None,
    }
}
