//! The halfword that is tried as the compressed form of an instruction.
//!
//! It follows the rows of the compressed instructions, and moves the bits of the immediate to their places, so that no
//! list is searched. It need not be right where there is no compressed form, since it is decoded again.

ghost use Rattle.std.specs.Prelude.{◌≡◌};
ghost use Rattle.rv_words.specs.Candidates.{candidate_of, pattern_of, at_7, at_2, low_at, high_at, small_put, stack_put, frame_put, upper_put, word_put, double_put, word_slot_put, double_slot_put, word_place_put, double_place_put, jump_put, branch_put, try_addi};

use rv_decode::Inst;

/// The low 20 bits of an immediate.
fn pattern(imm: i64) -> u32
    ensures { result ≡ pattern_of imm }
{
    (imm.cast_unsigned() % 0x10_0000) as u32
}

/// A register in bits 11:7.
fn full_at_7(register: u8) -> u32
    ensures { result ≡ at_7 register }
{
    (register as u32 & 31) << 7
}

/// A register in bits 6:2.
fn full_at_2(register: u8) -> u32
    ensures { result ≡ at_2 register }
{
    (register as u32 & 31) << 2
}

/// A register of 8 to 15 in bits 4:2.
fn short_low(register: u8) -> u32
    ensures { result ≡ low_at register }
{
    (register as u32 & 7) << 2
}

/// A register of 8 to 15 in bits 9:7.
fn short_high(register: u8) -> u32
    ensures { result ≡ high_at register }
{
    (register as u32 & 7) << 7
}

/// The immediate of C.ADDI, C.ADDIW, C.LI, C.ANDI, and the amount of a shift.
fn put_small(n: u32) -> u32
    ensures { result ≡ small_put n }
{
    ((n >> 5 & 0x1) << 12) + ((n & 0x1f) << 2)
}

/// The immediate of C.ADDI4SPN.
fn put_stack(n: u32) -> u32
    ensures { result ≡ stack_put n }
{
    ((n >> 4 & 0x3) << 11) + ((n >> 6 & 0xf) << 7) + ((n >> 2 & 0x1) << 6) + ((n >> 3 & 0x1) << 5)
}

/// The immediate of C.ADDI16SP.
fn put_frame(n: u32) -> u32
    ensures { result ≡ frame_put n }
{
    ((n >> 9 & 0x1) << 12)
        + ((n >> 4 & 0x1) << 6)
        + ((n >> 6 & 0x1) << 5)
        + ((n >> 7 & 0x3) << 3)
        + ((n >> 5 & 0x1) << 2)
}

/// The immediate of C.LUI.
fn put_upper(n: u32) -> u32
    ensures { result ≡ upper_put n }
{
    ((n >> 17 & 0x1) << 12) + ((n >> 12 & 0x1f) << 2)
}

/// The offset of C.LW and C.SW.
fn put_word(n: u32) -> u32
    ensures { result ≡ word_put n }
{
    ((n >> 3 & 0x7) << 10) + ((n >> 2 & 0x1) << 6) + ((n >> 6 & 0x1) << 5)
}

/// The offset of C.LD and C.SD.
fn put_double(n: u32) -> u32
    ensures { result ≡ double_put n }
{
    ((n >> 3 & 0x7) << 10) + ((n >> 6 & 0x3) << 5)
}

/// The offset of C.LWSP.
fn put_word_slot(n: u32) -> u32
    ensures { result ≡ word_slot_put n }
{
    ((n >> 5 & 0x1) << 12) + ((n >> 2 & 0x7) << 4) + ((n >> 6 & 0x3) << 2)
}

/// The offset of C.LDSP.
fn put_double_slot(n: u32) -> u32
    ensures { result ≡ double_slot_put n }
{
    ((n >> 5 & 0x1) << 12) + ((n >> 3 & 0x3) << 5) + ((n >> 6 & 0x7) << 2)
}

/// The offset of C.SWSP.
fn put_word_place(n: u32) -> u32
    ensures { result ≡ word_place_put n }
{
    ((n >> 2 & 0xf) << 9) + ((n >> 6 & 0x3) << 7)
}

/// The offset of C.SDSP.
fn put_double_place(n: u32) -> u32
    ensures { result ≡ double_place_put n }
{
    ((n >> 3 & 0x7) << 10) + ((n >> 6 & 0x7) << 7)
}

/// The distance of C.J.
fn put_jump(n: u32) -> u32
    ensures { result ≡ jump_put n }
{
    ((n >> 11 & 0x1) << 12)
        + ((n >> 4 & 0x1) << 11)
        + ((n >> 8 & 0x3) << 9)
        + ((n >> 10 & 0x1) << 8)
        + ((n >> 6 & 0x1) << 7)
        + ((n >> 7 & 0x1) << 6)
        + ((n >> 1 & 0x7) << 3)
        + ((n >> 5 & 0x1) << 2)
}

/// The distance of C.BEQZ and C.BNEZ.
fn put_branch(n: u32) -> u32
    ensures { result ≡ branch_put n }
{
    ((n >> 8 & 0x1) << 12)
        + ((n >> 3 & 0x3) << 10)
        + ((n >> 6 & 0x3) << 5)
        + ((n >> 1 & 0x3) << 3)
        + ((n >> 5 & 0x1) << 2)
}

/// ADDI has four compressed forms. C.ADDI is below C.LI, which is below C.ADDI16SP.
fn addi_candidate(rd: u8, rs1: u8, n: u32) -> u32
    ensures { result ≡ try_addi rd rs1 n }
{
    if rd == rs1 && (n < 32 || 0x10_0000 - 32 <= n) {
        1 + full_at_7(rd) + put_small(n)
    } else if rs1 == 0 {
        0x4001 + full_at_7(rd) + put_small(n)
    } else if rd == 2 {
        0x6101 + put_frame(n)
    } else {
        short_low(rd) + put_stack(n)
    }
}

/// The one halfword that can be the least of an instruction, with its fields cut to the bits of the form; 0 where the
/// instruction has no compressed form. Whether it means the instruction has still to be tried.
#[tactic(auto, unfolding(rv_words::specs::Candidates::candidate_of))]
pub fn candidate(i: &Inst) -> u32
    ensures { result ≡ candidate_of i.now }
{
    match *i {
        Inst::Addi { rd, rs1, imm } => addi_candidate(rd, rs1, pattern(imm)),
        Inst::Addiw { rd, imm, .. } => 0x2001 + full_at_7(rd) + put_small(pattern(imm)),
        Inst::Lui { rd, imm } => 0x6001 + full_at_7(rd) + put_upper(pattern(imm)),
        Inst::Lw { rd, rs1: 2, imm } => 0x4002 + full_at_7(rd) + put_word_slot(pattern(imm)),
        Inst::Lw { rd, rs1, imm } => 0x4000
            + short_low(rd)
            + short_high(rs1)
            + put_word(pattern(imm)),
        Inst::Ld { rd, rs1: 2, imm } => 0x6002 + full_at_7(rd) + put_double_slot(pattern(imm)),
        Inst::Ld { rd, rs1, imm } => 0x6000
            + short_low(rd)
            + short_high(rs1)
            + put_double(pattern(imm)),
        Inst::Sw { rs1: 2, rs2, imm } => 0xc002 + full_at_2(rs2) + put_word_place(pattern(imm)),
        Inst::Sw { rs1, rs2, imm } => 0xc000
            + short_low(rs2)
            + short_high(rs1)
            + put_word(pattern(imm)),
        Inst::Sd { rs1: 2, rs2, imm } => 0xe002 + full_at_2(rs2) + put_double_place(pattern(imm)),
        Inst::Sd { rs1, rs2, imm } => 0xe000
            + short_low(rs2)
            + short_high(rs1)
            + put_double(pattern(imm)),
        Inst::Srli { rd, imm, .. } => 0x8001 + short_high(rd) + put_small(pattern(imm)),
        Inst::Srai { rd, imm, .. } => 0x8401 + short_high(rd) + put_small(pattern(imm)),
        Inst::Andi { rd, imm, .. } => 0x8801 + short_high(rd) + put_small(pattern(imm)),
        Inst::Slli { rd, imm, .. } => 0x0002 + full_at_7(rd) + put_small(pattern(imm)),
        Inst::Sub { rd, rs2, .. } => 0x8c01 + short_high(rd) + short_low(rs2),
        Inst::Xor { rd, rs2, .. } => 0x8c21 + short_high(rd) + short_low(rs2),
        Inst::Or { rd, rs2, .. } => 0x8c41 + short_high(rd) + short_low(rs2),
        Inst::And { rd, rs2, .. } => 0x8c61 + short_high(rd) + short_low(rs2),
        Inst::Subw { rd, rs2, .. } => 0x9c01 + short_high(rd) + short_low(rs2),
        Inst::Addw { rd, rs2, .. } => 0x9c21 + short_high(rd) + short_low(rs2),
        Inst::Jal { imm, .. } => 0xa001 + put_jump(pattern(imm)),
        Inst::Beq { rs1, imm, .. } => 0xc001 + short_high(rs1) + put_branch(pattern(imm)),
        Inst::Bne { rs1, imm, .. } => 0xe001 + short_high(rs1) + put_branch(pattern(imm)),
        Inst::Jalr { rd: 0, rs1, .. } => 0x8002 + full_at_7(rs1),
        Inst::Jalr { rs1, .. } => 0x9002 + full_at_7(rs1),
        Inst::Add { rd, rs1: 0, rs2 } => 0x8002 + full_at_7(rd) + full_at_2(rs2),
        Inst::Add { rd, rs2, .. } => 0x9002 + full_at_7(rd) + full_at_2(rs2),
        Inst::Ebreak => 0x9002,
        _ => 0,
    }
}
