//! The fields of a 32-bit word.
//!
//! The manual's section "Immediate Encoding Variants" names the formats of immediates.

ghost use Rattle.std.specs.Prelude.{◌≡◌};
ghost use Rattle.rv_decode.specs.Fields.{rd_of, rs1_of, rs2_of, csr_of, imm_i_of, imm_s_of, imm_b_of, imm_u_of, imm_j_of, shamt5_of, shamt6_of, uimm_of};

/// The target register.
pub fn rd(w: u32) -> u8
    ensures { result ≡ rd_of w }
{
    (w >> 7 & 0x1f) as u8
}

/// The first source register.
pub fn rs1(w: u32) -> u8
    ensures { result ≡ rs1_of w }
{
    (w >> 15 & 0x1f) as u8
}

/// The second source register.
pub fn rs2(w: u32) -> u8
    ensures { result ≡ rs2_of w }
{
    (w >> 20 & 0x1f) as u8
}

/// The number of a control register.
pub fn csr(w: u32) -> u16
    ensures { result ≡ csr_of w }
{
    (w >> 20) as u16
}

/// The immediate of format I: loads, JALR and operations with an immediate.
pub fn imm_i(w: u32) -> i64
    ensures { result ≡ imm_i_of w }
{
    let n = w >> 20;
    if n < 0x800 {
        n as i64
    } else {
        n as i64 - 0x1000
    }
}

/// The immediate of format S: stores.
pub fn imm_s(w: u32) -> i64
    ensures { result ≡ imm_s_of w }
{
    let n = (w >> 25 << 5) + (w >> 7 & 0x1f);
    if n < 0x800 {
        n as i64
    } else {
        n as i64 - 0x1000
    }
}

/// The immediate of format U: LUI and AUIPC.
pub fn imm_u(w: u32) -> i64
    ensures { result ≡ imm_u_of w }
{
    let n = w & 0xffff_f000;
    if n < 0x8000_0000 {
        n as i64
    } else {
        n as i64 - 0x1_0000_0000
    }
}

/// The immediate of format B: conditional branches.
pub fn imm_b(w: u32) -> i64
    ensures { result ≡ imm_b_of w }
{
    let n = (w >> 31 << 12)
        + ((w >> 7 & 1) << 11)
        + ((w >> 25 & 0x3f) << 5)
        + ((w >> 8 & 0xf) << 1);
    if n < 0x1000 {
        n as i64
    } else {
        n as i64 - 0x2000
    }
}

/// The immediate of format J: JAL.
pub fn imm_j(w: u32) -> i64
    ensures { result ≡ imm_j_of w }
{
    let n = (w >> 31 << 20)
        + ((w >> 12 & 0xff) << 12)
        + ((w >> 20 & 1) << 11)
        + ((w >> 21 & 0x3ff) << 1);
    if n < 0x10_0000 {
        n as i64
    } else {
        n as i64 - 0x20_0000
    }
}

/// The amount of a 64-bit shift.
pub fn shamt6(w: u32) -> i64
    ensures { result ≡ shamt6_of w }
{
    (w >> 20 & 0x3f) as i64
}

/// The amount of a 32-bit shift.
pub fn shamt5(w: u32) -> i64
    ensures { result ≡ shamt5_of w }
{
    (w >> 20 & 0x1f) as i64
}

/// The number in CSRRWI, CSRRSI and CSRRCI.
pub fn uimm(w: u32) -> i64
    ensures { result ≡ uimm_of w }
{
    (w >> 15 & 0x1f) as i64
}
