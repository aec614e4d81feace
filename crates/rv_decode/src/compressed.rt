//! The decoder of compressed instructions.
//!
//! A halfword is told apart by its quadrant, bits 1:0, and by funct3, bits 15:13. Two values of these have several
//! instructions each, which have functions of their own: arithmetic on the registers 8 to 15, and the group of moves,
//! additions, jumps to a register and EBREAK.

ghost use Rattle.std.specs.Prelude.{◌≡◌, bit_and};
ghost use Rattle.rv_decode.specs.Rows.{decode16_of};

use crate::Inst;
use crate::compressed_fields::{
    amount, branch, double_offset, double_place, double_slot, frame, frame_bits, full, high, jump,
    low, small, source, stack_bits, upper, upper_bits, word_offset, word_place, word_slot,
};

/// The quadrant and funct3.
const FORM: u16 = 0xe003;

/// The same and bits 11:10, which tell shifts by a fixed amount and C.ANDI apart.
const FORM_FUNCT2: u16 = 0xec03;

/// The same, bit 12 and bits 6:5, which tell the operations on two registers apart.
const FORM_FUNCT6: u16 = 0xfc63;

/// The quadrant, funct3 and bits 11:7, a register.
const FORM_RD: u16 = 0xef83;

/// C.ADDI16SP has the form of C.LUI with register 2.
const ADDI16SP: u16 = 0x6101;

/// Bit 12, which tells C.JR and C.MV from C.EBREAK, C.JALR and C.ADD.
const BIT_12: u16 = 0x1000;

/// C.ADDI16SP and C.LUI.
#[inline(always)]
fn decode_upper(h: u16) -> Option<Inst>
    requires { bit_and h FORM ≡ 0x6001 }
    ensures { result ≡ decode16_of h }
{
    if h & FORM_RD == ADDI16SP {
        if frame_bits(h) != 0 {
            Some(Inst::Addi {
                rd: 2,
                rs1: 2,
                imm: frame(h),
            })
        } else {
            None
        }
    } else if full(h) != 2 && upper_bits(h) != 0 {
        Some(Inst::Lui {
            rd: full(h),
            imm: upper(h),
        })
    } else {
        None
    }
}

/// The arithmetic on the registers 8 to 15.
#[inline(always)]
fn decode_arithmetic(h: u16) -> Option<Inst>
    requires { bit_and h FORM ≡ 0x8001 }
    ensures { result ≡ decode16_of h }
{
    let rd = high(h);
    let rs1 = rd;
    let rs2 = low(h);
    match h & FORM_FUNCT2 {
        0x8001 => Some(Inst::Srli {
            rd,
            rs1,
            imm: amount(h),
        }),
        0x8401 => Some(Inst::Srai {
            rd,
            rs1,
            imm: amount(h),
        }),
        0x8801 => Some(Inst::Andi {
            rd,
            rs1,
            imm: small(h),
        }),
        _ => match h & FORM_FUNCT6 {
            0x8c01 => Some(Inst::Sub { rd, rs1, rs2 }),
            0x8c21 => Some(Inst::Xor { rd, rs1, rs2 }),
            0x8c41 => Some(Inst::Or { rd, rs1, rs2 }),
            0x8c61 => Some(Inst::And { rd, rs1, rs2 }),
            0x9c01 => Some(Inst::Subw { rd, rs1, rs2 }),
            0x9c21 => Some(Inst::Addw { rd, rs1, rs2 }),
            _ => None,
        },
    }
}

/// C.JR, C.MV, C.EBREAK, C.JALR and C.ADD.
#[inline(always)]
fn decode_move_or_jump(h: u16) -> Option<Inst>
    requires { bit_and h FORM ≡ 0x8002 }
    ensures { result ≡ decode16_of h }
{
    let first = full(h);
    let second = source(h);
    if h & BIT_12 == 0 {
        if second != 0 {
            Some(Inst::Add {
                rd: first,
                rs1: 0,
                rs2: second,
            })
        } else if first != 0 {
            Some(Inst::Jalr {
                rd: 0,
                rs1: first,
                imm: 0,
            })
        } else {
            None
        }
    } else if second != 0 {
        Some(Inst::Add {
            rd: first,
            rs1: first,
            rs2: second,
        })
    } else if first != 0 {
        Some(Inst::Jalr {
            rd: 1,
            rs1: first,
            imm: 0,
        })
    } else {
        Some(Inst::Ebreak)
    }
}

/// The instruction of the one compressed row that `h` is of; None exactly where it is of no row, as 0x0000 and the
/// floating-point forms.
#[inline(always)]
pub fn decode16(h: u16) -> Option<Inst>
    ensures { result ≡ decode16_of h }
{
    let rd = full(h);
    match h & FORM {
        0x0000 => if stack_bits(h) != 0 {
            Some(Inst::Addi {
                rd: low(h),
                rs1: 2,
                imm: stack_bits(h) as i64,
            })
        } else {
            None
        },
        0x4000 => Some(Inst::Lw {
            rd: low(h),
            rs1: high(h),
            imm: word_offset(h),
        }),
        0x6000 => Some(Inst::Ld {
            rd: low(h),
            rs1: high(h),
            imm: double_offset(h),
        }),
        0xc000 => Some(Inst::Sw {
            rs1: high(h),
            rs2: low(h),
            imm: word_offset(h),
        }),
        0xe000 => Some(Inst::Sd {
            rs1: high(h),
            rs2: low(h),
            imm: double_offset(h),
        }),
        0x0001 => Some(Inst::Addi {
            rd,
            rs1: rd,
            imm: small(h),
        }),
        0x2001 => if rd != 0 {
            Some(Inst::Addiw {
                rd,
                rs1: rd,
                imm: small(h),
            })
        } else {
            None
        },
        0x4001 => Some(Inst::Addi {
            rd,
            rs1: 0,
            imm: small(h),
        }),
        0x6001 => decode_upper(h),
        0x8001 => decode_arithmetic(h),
        0xa001 => Some(Inst::Jal {
            rd: 0,
            imm: jump(h),
        }),
        0xc001 => Some(Inst::Beq {
            rs1: high(h),
            rs2: 0,
            imm: branch(h),
        }),
        0xe001 => Some(Inst::Bne {
            rs1: high(h),
            rs2: 0,
            imm: branch(h),
        }),
        0x0002 => Some(Inst::Slli {
            rd,
            rs1: rd,
            imm: amount(h),
        }),
        0x4002 => if rd != 0 {
            Some(Inst::Lw {
                rd,
                rs1: 2,
                imm: word_slot(h),
            })
        } else {
            None
        },
        0x6002 => if rd != 0 {
            Some(Inst::Ld {
                rd,
                rs1: 2,
                imm: double_slot(h),
            })
        } else {
            None
        },
        0x8002 => decode_move_or_jump(h),
        0xc002 => Some(Inst::Sw {
            rs1: 2,
            rs2: source(h),
            imm: word_place(h),
        }),
        0xe002 => Some(Inst::Sd {
            rs1: 2,
            rs2: source(h),
            imm: double_place(h),
        }),
        _ => None,
    }
}
