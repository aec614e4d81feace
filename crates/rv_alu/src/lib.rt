//! Integer arithmetic, branch conditions and atomic operations of RV64IMA.
//!
//! [`alu`], [`branch`] and [`amo`] are total: each answers exactly what the tables of `specs/Alu.antt` say, in whole
//! numbers modulo 2^64, for every operation and every pair of sources. They follow the unprivileged RISC-V manual:
//! "RV64I Base Integer Instruction Set", "M Extension for Integer Multiplication and Division" and "A Extension for
//! Atomic Instructions". An instruction with an immediate uses the operation of its register form.
//!
//! Below stands `fc_numbers`, for access widths and sign extension. The crates that execute instructions stand above.
#![tactic(auto)]

ghost use Rattle.std.specs.Prelude.{◌≡◌, ◌+◌, ◌-◌, ◌*◌, ◌/◌, ◌%◌, ◌^◌, ◌<◌, ◌≤◌, ◌*ℤ◌, pos, IsTrue, ◌↔◌};
ghost use Rattle.std.specs.Int.{w64, w32, cast_unsigned, cast_signed, int_shr};
ghost use Rattle.fc_numbers.specs.Numbers.{sext32, sext_of, sext_from};
ghost use Rattle.rv_alu.specs.Alu.{alu_of, branch_of, amo_of, shifted, shifted_word, product_top, product_top_mixed, quotient, remainder, quotient_word, remainder_word, quotient_u, remainder_u, bit_of, below, amo_value};

use fc_numbers::machine::Width;

/// The operations on two registers, named as their instructions are.
#[derive(Debug, Clone, Copy, PartialEq, Eq)]
pub enum AluOp {
    Add,
    Sub,
    Sll,
    Slt,
    Sltu,
    Xor,
    Srl,
    Sra,
    Or,
    And,
    Addw,
    Subw,
    Sllw,
    Srlw,
    Sraw,
    Mul,
    Mulh,
    Mulhsu,
    Mulhu,
    Div,
    Divu,
    Rem,
    Remu,
    Mulw,
    Divw,
    Divuw,
    Remw,
    Remuw,
}

/// The conditions of branches: equal, not equal, below and not below, signed and unsigned.
#[derive(Debug, Clone, Copy, PartialEq, Eq)]
pub enum BranchOp {
    Eq,
    Ne,
    Lt,
    Ge,
    Ltu,
    Geu,
}

/// The operations of atomic memory instructions; the last two compare unsigned numbers.
#[derive(Debug, Clone, Copy, PartialEq, Eq)]
pub enum AmoOp {
    Swap,
    Add,
    Xor,
    And,
    Or,
    Min,
    Max,
    MinU,
    MaxU,
}

/// The low word, sign-extended.
fn extend_word(word: u32) -> u64
    ensures { result ≡ sext32 word }
{
    if word < 0x8000_0000 {
        word as u64
    } else {
        word as u64 + 0xffff_ffff_0000_0000
    }
}

fn bit(b: bool) -> u64
    ensures { result ≡ bit_of b }
{
    if b { 1 } else { 0 }
}

fn low_word(a: u64) -> u32
    ensures { result ≡ a % 2 ^ 32 }
{
    (a % 0x1_0000_0000) as u32
}

fn is_below(a: u64, b: u64) -> bool
    ensures { result ≡ below a b }
{
    a.cast_signed() < b.cast_signed()
}

fn shift_right(a: u64, by: u32) -> u64
    requires { by < 64 }
    ensures { result ≡ shifted a by }
{
    (a.cast_signed() >> by).cast_unsigned()
}

fn shift_right_word(a: u32, by: u32) -> u32
    requires { by < 32 }
    ensures { result ≡ shifted_word a by }
{
    (a.cast_signed() >> by).cast_unsigned()
}

fn high(a: u64, b: u64) -> u64
    ensures { result ≡ a * b / 2 ^ 64 }
{
    ((a as u128 * b as u128) >> 64) as u64
}

fn high_signed(a: u64, b: u64) -> u64
    ensures { result ≡ product_top a b }
{
    ((a.cast_signed() as i128 * b.cast_signed() as i128).cast_unsigned() >> 64) as u64
}

fn high_mixed(a: u64, b: u64) -> u64
    ensures { result ≡ product_top_mixed a b }
{
    ((a.cast_signed() as i128 * b as i128).cast_unsigned() >> 64) as u64
}

fn divide(a: u64, b: u64) -> u64
    ensures { result ≡ quotient a b }
{
    if b == 0 {
        u64::MAX
    } else {
        a.cast_signed()
            .wrapping_div(b.cast_signed())
            .cast_unsigned()
    }
}

fn left_over(a: u64, b: u64) -> u64
    ensures { result ≡ remainder a b }
{
    if b == 0 {
        a
    } else {
        a.cast_signed()
            .wrapping_rem(b.cast_signed())
            .cast_unsigned()
    }
}

fn divide_word(a: u32, b: u32) -> u64
    ensures { result ≡ quotient_word a b }
{
    if b == 0 {
        u64::MAX
    } else {
        extend_word(
            a.cast_signed()
                .wrapping_div(b.cast_signed())
                .cast_unsigned(),
        )
    }
}

fn left_over_word(a: u32, b: u32) -> u64
    ensures { result ≡ remainder_word a b }
{
    if b == 0 {
        extend_word(a)
    } else {
        extend_word(
            a.cast_signed()
                .wrapping_rem(b.cast_signed())
                .cast_unsigned(),
        )
    }
}

fn divide_unsigned(a: u64, b: u64) -> u64
    ensures { result ≡ quotient_u (2 ^ 64 - 1) a b }
{
    if b == 0 { u64::MAX } else { a / b }
}

fn left_over_unsigned(a: u64, b: u64) -> u64
    ensures { result ≡ remainder_u a b }
{
    if b == 0 { a } else { a % b }
}

fn divide_unsigned_word(a: u32, b: u32) -> u32
    ensures { result ≡ quotient_u (2 ^ 32 - 1) a b }
{
    if b == 0 { u32::MAX } else { a / b }
}

fn left_over_unsigned_word(a: u32, b: u32) -> u32
    ensures { result ≡ remainder_u a b }
{
    if b == 0 { a } else { a % b }
}

/// What an operation makes of its two sources, modulo 2^64. W operations work on the low 32 bits and sign-extend.
#[inline(always)]
#[tactic(auto, unfolding(crate::specs::Alu::alu_of))]
pub fn alu(op: AluOp, a: u64, b: u64) -> u64
    ensures { result ≡ alu_of op a b }
{
    match op {
        AluOp::Add => a.wrapping_add(b),
        AluOp::Sub => a.wrapping_sub(b),
        AluOp::Sll => a.wrapping_shl((b % 64) as u32),
        AluOp::Slt => bit(is_below(a, b)),
        AluOp::Sltu => bit(a < b),
        AluOp::Xor => a ^ b,
        AluOp::Srl => a.wrapping_shr((b % 64) as u32),
        AluOp::Sra => shift_right(a, (b % 64) as u32),
        AluOp::Or => a | b,
        AluOp::And => a & b,
        AluOp::Addw => extend_word(low_word(a).wrapping_add(low_word(b))),
        AluOp::Subw => extend_word(low_word(a).wrapping_sub(low_word(b))),
        AluOp::Sllw => extend_word(low_word(a).wrapping_shl((b % 32) as u32)),
        AluOp::Srlw => extend_word(low_word(a).wrapping_shr((b % 32) as u32)),
        AluOp::Sraw => extend_word(shift_right_word(low_word(a), (b % 32) as u32)),
        AluOp::Mul => a.wrapping_mul(b),
        AluOp::Mulh => high_signed(a, b),
        AluOp::Mulhsu => high_mixed(a, b),
        AluOp::Mulhu => high(a, b),
        AluOp::Div => divide(a, b),
        AluOp::Divu => divide_unsigned(a, b),
        AluOp::Rem => left_over(a, b),
        AluOp::Remu => left_over_unsigned(a, b),
        AluOp::Mulw => extend_word(low_word(a).wrapping_mul(low_word(b))),
        AluOp::Divw => divide_word(low_word(a), low_word(b)),
        AluOp::Divuw => extend_word(divide_unsigned_word(low_word(a), low_word(b))),
        AluOp::Remw => left_over_word(low_word(a), low_word(b)),
        AluOp::Remuw => extend_word(left_over_unsigned_word(low_word(a), low_word(b))),
    }
}

/// Whether a branch is taken.
pub fn branch(op: BranchOp, a: u64, b: u64) -> bool
    ensures { result ≡ branch_of op a b }
{
    match op {
        BranchOp::Eq => a == b,
        BranchOp::Ne => a != b,
        BranchOp::Lt => is_below(a, b),
        BranchOp::Ge => !is_below(a, b),
        BranchOp::Ltu => a < b,
        BranchOp::Geu => b <= a,
    }
}

fn amo_double(op: AmoOp, a: u64, b: u64) -> u64
    ensures { result ≡ amo_value op a b }
{
    match op {
        AmoOp::Swap => b,
        AmoOp::Add => a.wrapping_add(b),
        AmoOp::Xor => a ^ b,
        AmoOp::And => a & b,
        AmoOp::Or => a | b,
        AmoOp::Min => if is_below(b, a) { b } else { a },
        AmoOp::Max => if is_below(a, b) { b } else { a },
        AmoOp::MinU => if b < a { b } else { a },
        AmoOp::MaxU => if a < b { b } else { a },
    }
}

/// What an atomic operation stores, of the value that stood in memory and the source register. At four bytes both
/// count by their low 32 bits, and the answer is sign-extended. Atomic instructions have four or eight bytes; every
/// other width counts as eight.
pub fn amo(op: AmoOp, width: Width, old: u64, src: u64) -> u64
    ensures { result ≡ amo_of op width old src }
{
    match width {
        Width::Word => {
            let value = amo_double(op, extend_word(low_word(old)), extend_word(low_word(src)));
            extend_word(low_word(value))
        }
        _ => amo_double(op, old, src),
    }
}

#[cfg(test)]
mod tests {
    use super::*;

    const LEAST: u64 = 0x8000_0000_0000_0000;

    const WORD_LEAST: u64 = 0xffff_ffff_8000_0000;

    #[test]
    fn each_operation_on_two_registers(rt: HostRuntime) {
        for (op, a, b, want) in [
            (AluOp::Add, u64::MAX, 2, 1),
            (AluOp::Sub, 1, 2, u64::MAX),
            (AluOp::Sll, 1, 65, 2),
            (AluOp::Slt, u64::MAX, 1, 1),
            (AluOp::Sltu, u64::MAX, 1, 0),
            (AluOp::Xor, 12, 10, 6),
            (AluOp::Srl, LEAST, 67, 0x1000_0000_0000_0000),
            (AluOp::Sra, LEAST, 1, 0xc000_0000_0000_0000),
            (AluOp::Or, 12, 10, 14),
            (AluOp::And, 12, 10, 8),
            (AluOp::Addw, 0x7fff_ffff, 1, WORD_LEAST),
            (AluOp::Subw, 0x1_0000_0000, 1, u64::MAX),
            (AluOp::Sllw, 1, 63, WORD_LEAST),
            (AluOp::Srlw, WORD_LEAST, 31, 1),
            (AluOp::Sraw, 0x8000_0000, 4, 0xffff_ffff_f800_0000),
        ] {
            assert_eq!(rt; alu(op, a, b), want, "{op:?}");
        }
    }

    #[test]
    fn each_product_and_quotient(rt: HostRuntime) {
        for (op, a, b, want) in [
            (AluOp::Mul, 0x8000_0000_0000_0001, 2, 2),
            (AluOp::Mulh, u64::MAX, 1, u64::MAX),
            (AluOp::Mulhsu, u64::MAX, u64::MAX, u64::MAX),
            (AluOp::Mulhu, u64::MAX, u64::MAX, 0xffff_ffff_ffff_fffe),
            (AluOp::Div, LEAST, u64::MAX, LEAST),
            (AluOp::Div, 0xffff_ffff_ffff_fff9, 2, 0xffff_ffff_ffff_fffd),
            (AluOp::Divu, 7, 0, u64::MAX),
            (AluOp::Rem, LEAST, u64::MAX, 0),
            (AluOp::Rem, 0xffff_ffff_ffff_fff9, 2, u64::MAX),
            (AluOp::Remu, 7, 0, 7),
            (AluOp::Mulw, 0x1_0000_0001, 0xffff_ffff, u64::MAX),
            (AluOp::Divw, 0x8000_0000, 0xffff_ffff, WORD_LEAST),
            (AluOp::Divuw, 0x5_ffff_fffe, 1, 0xffff_ffff_ffff_fffe),
            (AluOp::Remw, 0x8000_0000, 0xffff_ffff, 0),
            (AluOp::Remuw, 0x1_8000_0007, 0, 0xffff_ffff_8000_0007),
        ] {
            assert_eq!(rt; alu(op, a, b), want, "{op:?}");
        }
    }

    #[test]
    fn each_branch_on_minus_one_and_one(rt: HostRuntime) {
        for (op, want) in [
            (BranchOp::Eq, false),
            (BranchOp::Ne, true),
            (BranchOp::Lt, true),
            (BranchOp::Ge, false),
            (BranchOp::Ltu, false),
            (BranchOp::Geu, true),
        ] {
            assert_eq!(rt; branch(op, u64::MAX, 1), want, "{op:?}");
        }
    }

    #[test]
    fn each_atomic_operation_by_word_and_double_word(rt: HostRuntime) {
        for (op, word, double) in [
            (AmoOp::Swap, 1, 0x1_0000_0001),
            (AmoOp::Add, WORD_LEAST, 0x1_8000_0000),
            (AmoOp::Xor, 0x7fff_fffe, 0x1_7fff_fffe),
            (AmoOp::And, 1, 1),
            (AmoOp::Or, 0x7fff_ffff, 0x1_7fff_ffff),
            (AmoOp::Min, 1, 0x7fff_ffff),
            (AmoOp::Max, 0x7fff_ffff, 0x1_0000_0001),
            (AmoOp::MinU, 1, 0x7fff_ffff),
            (AmoOp::MaxU, 0x7fff_ffff, 0x1_0000_0001),
        ] {
            assert_eq!(rt;
                amo(op, Width::Word, 0x7fff_ffff, 0x1_0000_0001),
                word,
                "{op:?}"
            );
            assert_eq!(rt;
                amo(op, Width::Doubleword, 0x7fff_ffff, 0x1_0000_0001),
                double,
                "{op:?}"
            );
        }
        assert_eq!(rt; amo(AmoOp::Min, Width::Word, 0x8000_0000, 1), WORD_LEAST);
        assert_eq!(rt; amo(AmoOp::MinU, Width::Word, 0x8000_0000, 1), 1);
    }
}
