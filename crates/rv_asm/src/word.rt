//! The 32-bit word of an instruction: one function for each format, and the table of the rows' values.
//!
//! Each format function answers None exactly where a field is out of its range. `value` is the row's value, which has
//! no bit outside the mask of its format; what it is added to lies in the other bits.

ghost use Rattle.std.specs.Prelude.{◌≡◌, ◌≤◌, ◌<◌, Some, None, if◌then◌else◌};
ghost use Rattle.rv_words.specs.Words.{encode_of, fits_signed, wrapped, fits_plain, plain_number, word_u, word_j, word_i, word_b, word_s, word_s6, word_s5, word_r, word_v, word_c, word_ci, word_l, word_a};

use rv_decode::Inst;

/// The masks of the formats: the opcode and the function fields.
const OPCODE: u32 = 0x7f;

const FUNCT3: u32 = 0x707f;

const FUNCT7: u32 = 0xfe00_707f;

const FUNCT6: u32 = 0xfc00_707f;

const FUNCT5: u32 = 0xf800_707f;

const FUNCT5_RS2: u32 = 0xf9f0_707f;

const FUNCT7_RD: u32 = 0xfe00_7fff;

/// The low 12 bits of a number that they hold with its sign.
fn signed_12(imm: i64) -> Option<u32>
    ensures { result ≡ (if fits_signed 11 imm then Some (wrapped 11 imm) else None) }
{
    if imm >= 0x800 || imm < -0x800 {
        None
    } else if imm < 0 {
        Some((imm + 0x1000) as u32)
    } else {
        Some(imm as u32)
    }
}

/// The low 13 bits of a number that they hold with its sign.
fn signed_13(imm: i64) -> Option<u32>
    ensures { result ≡ (if fits_signed 12 imm then Some (wrapped 12 imm) else None) }
{
    if imm >= 0x1000 || imm < -0x1000 {
        None
    } else if imm < 0 {
        Some((imm + 0x2000) as u32)
    } else {
        Some(imm as u32)
    }
}

/// The low 21 bits of a number that they hold with its sign.
fn signed_21(imm: i64) -> Option<u32>
    ensures { result ≡ (if fits_signed 20 imm then Some (wrapped 20 imm) else None) }
{
    if imm >= 0x10_0000 || imm < -0x10_0000 {
        None
    } else if imm < 0 {
        Some((imm + 0x20_0000) as u32)
    } else {
        Some(imm as u32)
    }
}

/// The low 32 bits of a number that they hold with its sign.
fn signed_32(imm: i64) -> Option<u32>
    ensures { result ≡ (if fits_signed 31 imm then Some (wrapped 31 imm) else None) }
{
    if imm >= 0x8000_0000 || imm < -0x8000_0000 {
        None
    } else if imm < 0 {
        Some((imm + 0x1_0000_0000) as u32)
    } else {
        Some(imm as u32)
    }
}

/// A number of `bits` bits with no sign.
fn plain_bits(imm: i64, bits: u32) -> Option<u32>
    requires { bits < 32 }
    ensures { result ≡ (if fits_plain bits imm then Some (plain_number imm) else None) }
{
    let limit = 1i64 << bits;
    if imm >= 0 && imm < limit {
        Some(imm as u32)
    } else {
        None
    }
}

/// Format U: an upper immediate.
fn format_u(value: u32, rd: u8, imm: i64) -> Option<u32>
    requires { value ≤ OPCODE }
    ensures { result ≡ word_u value rd imm }
{
    match signed_32(imm) {
        Some(n) if rd < 32 && n % 0x1000 == 0 => Some(value + ((rd as u32) << 7) + n),
        _ => None,
    }
}

/// Format J: a jump.
fn format_j(value: u32, rd: u8, imm: i64) -> Option<u32>
    requires { value ≤ OPCODE }
    ensures { result ≡ word_j value rd imm }
{
    match signed_21(imm) {
        Some(n) if rd < 32 && n % 2 == 0 => Some(
            value
                + ((rd as u32) << 7)
                + ((n >> 20 & 1) << 31)
                + ((n >> 12 & 0xff) << 12)
                + ((n >> 11 & 1) << 20)
                + ((n >> 1 & 0x3ff) << 21),
        ),
        _ => None,
    }
}

/// Format I: a register and an immediate.
fn format_i(value: u32, rd: u8, rs1: u8, imm: i64) -> Option<u32>
    requires { value ≤ FUNCT3 }
    ensures { result ≡ word_i value rd rs1 imm }
{
    match signed_12(imm) {
        Some(n) if rd < 32 && rs1 < 32 => Some(
            value + ((rd as u32) << 7) + ((rs1 as u32) << 15) + (n << 20),
        ),
        _ => None,
    }
}

/// Format B: a branch.
fn format_b(value: u32, rs1: u8, rs2: u8, imm: i64) -> Option<u32>
    requires { value ≤ FUNCT3 }
    ensures { result ≡ word_b value rs1 rs2 imm }
{
    match signed_13(imm) {
        Some(n) if rs1 < 32 && rs2 < 32 && n % 2 == 0 => Some(
            value
                + ((rs1 as u32) << 15)
                + ((rs2 as u32) << 20)
                + ((n >> 12 & 1) << 31)
                + ((n >> 11 & 1) << 7)
                + ((n >> 5 & 0x3f) << 25)
                + ((n >> 1 & 0xf) << 8),
        ),
        _ => None,
    }
}

/// Format S: a store.
fn format_s(value: u32, rs1: u8, rs2: u8, imm: i64) -> Option<u32>
    requires { value ≤ FUNCT3 }
    ensures { result ≡ word_s value rs1 rs2 imm }
{
    match signed_12(imm) {
        Some(n) if rs1 < 32 && rs2 < 32 => Some(
            value
                + ((rs1 as u32) << 15)
                + ((rs2 as u32) << 20)
                + ((n >> 5 & 0x7f) << 25)
                + ((n & 0x1f) << 7),
        ),
        _ => None,
    }
}

/// A shift by a fixed amount of 6 bits.
fn format_s6(value: u32, rd: u8, rs1: u8, imm: i64) -> Option<u32>
    requires { value ≤ FUNCT6 }
    ensures { result ≡ word_s6 value rd rs1 imm }
{
    match plain_bits(imm, 6) {
        Some(n) if rd < 32 && rs1 < 32 => Some(
            value + ((rd as u32) << 7) + ((rs1 as u32) << 15) + (n << 20),
        ),
        _ => None,
    }
}

/// A shift by a fixed amount of 5 bits.
fn format_s5(value: u32, rd: u8, rs1: u8, imm: i64) -> Option<u32>
    requires { value ≤ FUNCT7 }
    ensures { result ≡ word_s5 value rd rs1 imm }
{
    match plain_bits(imm, 5) {
        Some(n) if rd < 32 && rs1 < 32 => Some(
            value + ((rd as u32) << 7) + ((rs1 as u32) << 15) + (n << 20),
        ),
        _ => None,
    }
}

/// Format R: three registers.
fn format_r(value: u32, rd: u8, rs1: u8, rs2: u8) -> Option<u32>
    requires { value ≤ FUNCT7 }
    ensures { result ≡ word_r value rd rs1 rs2 }
{
    if rd < 32 && rs1 < 32 && rs2 < 32 {
        Some(value + ((rd as u32) << 7) + ((rs1 as u32) << 15) + ((rs2 as u32) << 20))
    } else {
        None
    }
}

/// Two source registers, as in SFENCE.VMA.
fn format_v(value: u32, rs1: u8, rs2: u8) -> Option<u32>
    requires { value ≤ FUNCT7_RD }
    ensures { result ≡ word_v value rs1 rs2 }
{
    if rs1 < 32 && rs2 < 32 {
        Some(value + ((rs1 as u32) << 15) + ((rs2 as u32) << 20))
    } else {
        None
    }
}

/// An access of a control register by a register.
fn format_c(value: u32, rd: u8, rs1: u8, csr: u16) -> Option<u32>
    requires { value ≤ FUNCT3 }
    ensures { result ≡ word_c value rd rs1 csr }
{
    if rd < 32 && rs1 < 32 && csr < 0x1000 {
        Some(value + ((rd as u32) << 7) + ((rs1 as u32) << 15) + ((csr as u32) << 20))
    } else {
        None
    }
}

/// An access of a control register by a number.
fn format_ci(value: u32, rd: u8, imm: i64, csr: u16) -> Option<u32>
    requires { value ≤ FUNCT3 }
    ensures { result ≡ word_ci value rd imm csr }
{
    match plain_bits(imm, 5) {
        Some(n) if rd < 32 && csr < 0x1000 => Some(
            value + ((rd as u32) << 7) + ((csr as u32) << 20) + (n << 15),
        ),
        _ => None,
    }
}

/// A load-reserved.
fn format_l(value: u32, rd: u8, rs1: u8) -> Option<u32>
    requires { value ≤ FUNCT5_RS2 }
    ensures { result ≡ word_l value rd rs1 }
{
    if rd < 32 && rs1 < 32 {
        Some(value + ((rd as u32) << 7) + ((rs1 as u32) << 15))
    } else {
        None
    }
}

/// A store-conditional or an atomic memory operation.
fn format_a(value: u32, rd: u8, rs1: u8, rs2: u8) -> Option<u32>
    requires { value ≤ FUNCT5 }
    ensures { result ≡ word_a value rd rs1 rs2 }
{
    if rd < 32 && rs1 < 32 && rs2 < 32 {
        Some(value + ((rd as u32) << 7) + ((rs1 as u32) << 15) + ((rs2 as u32) << 20))
    } else {
        None
    }
}

/// The word of an instruction, by the rows' values; None exactly where a field is out of its range.
#[tactic(auto, unfolding(rv_words::specs::Words::encode_of))]
pub fn word(i: &Inst) -> Option<u32>
    ensures { result ≡ encode_of i.now }
{
    match *i {
        Inst::Lui { rd, imm } => format_u(0x37, rd, imm),
        Inst::Auipc { rd, imm } => format_u(0x17, rd, imm),
        Inst::Jal { rd, imm } => format_j(0x6f, rd, imm),
        Inst::Jalr { rd, rs1, imm } => format_i(0x67, rd, rs1, imm),
        Inst::Beq { rs1, rs2, imm } => format_b(0x63, rs1, rs2, imm),
        Inst::Bne { rs1, rs2, imm } => format_b(0x1063, rs1, rs2, imm),
        Inst::Blt { rs1, rs2, imm } => format_b(0x4063, rs1, rs2, imm),
        Inst::Bge { rs1, rs2, imm } => format_b(0x5063, rs1, rs2, imm),
        Inst::Bltu { rs1, rs2, imm } => format_b(0x6063, rs1, rs2, imm),
        Inst::Bgeu { rs1, rs2, imm } => format_b(0x7063, rs1, rs2, imm),
        Inst::Lb { rd, rs1, imm } => format_i(0x3, rd, rs1, imm),
        Inst::Lh { rd, rs1, imm } => format_i(0x1003, rd, rs1, imm),
        Inst::Lw { rd, rs1, imm } => format_i(0x2003, rd, rs1, imm),
        Inst::Ld { rd, rs1, imm } => format_i(0x3003, rd, rs1, imm),
        Inst::Lbu { rd, rs1, imm } => format_i(0x4003, rd, rs1, imm),
        Inst::Lhu { rd, rs1, imm } => format_i(0x5003, rd, rs1, imm),
        Inst::Lwu { rd, rs1, imm } => format_i(0x6003, rd, rs1, imm),
        Inst::Sb { rs1, rs2, imm } => format_s(0x23, rs1, rs2, imm),
        Inst::Sh { rs1, rs2, imm } => format_s(0x1023, rs1, rs2, imm),
        Inst::Sw { rs1, rs2, imm } => format_s(0x2023, rs1, rs2, imm),
        Inst::Sd { rs1, rs2, imm } => format_s(0x3023, rs1, rs2, imm),
        Inst::Addi { rd, rs1, imm } => format_i(0x13, rd, rs1, imm),
        Inst::Slti { rd, rs1, imm } => format_i(0x2013, rd, rs1, imm),
        Inst::Sltiu { rd, rs1, imm } => format_i(0x3013, rd, rs1, imm),
        Inst::Xori { rd, rs1, imm } => format_i(0x4013, rd, rs1, imm),
        Inst::Ori { rd, rs1, imm } => format_i(0x6013, rd, rs1, imm),
        Inst::Andi { rd, rs1, imm } => format_i(0x7013, rd, rs1, imm),
        Inst::Addiw { rd, rs1, imm } => format_i(0x1b, rd, rs1, imm),
        Inst::Slli { rd, rs1, imm } => format_s6(0x1013, rd, rs1, imm),
        Inst::Srli { rd, rs1, imm } => format_s6(0x5013, rd, rs1, imm),
        Inst::Srai { rd, rs1, imm } => format_s6(0x4000_5013, rd, rs1, imm),
        Inst::Slliw { rd, rs1, imm } => format_s5(0x101b, rd, rs1, imm),
        Inst::Srliw { rd, rs1, imm } => format_s5(0x501b, rd, rs1, imm),
        Inst::Sraiw { rd, rs1, imm } => format_s5(0x4000_501b, rd, rs1, imm),
        Inst::Add { rd, rs1, rs2 } => format_r(0x33, rd, rs1, rs2),
        Inst::Sub { rd, rs1, rs2 } => format_r(0x4000_0033, rd, rs1, rs2),
        Inst::Sll { rd, rs1, rs2 } => format_r(0x1033, rd, rs1, rs2),
        Inst::Slt { rd, rs1, rs2 } => format_r(0x2033, rd, rs1, rs2),
        Inst::Sltu { rd, rs1, rs2 } => format_r(0x3033, rd, rs1, rs2),
        Inst::Xor { rd, rs1, rs2 } => format_r(0x4033, rd, rs1, rs2),
        Inst::Srl { rd, rs1, rs2 } => format_r(0x5033, rd, rs1, rs2),
        Inst::Sra { rd, rs1, rs2 } => format_r(0x4000_5033, rd, rs1, rs2),
        Inst::Or { rd, rs1, rs2 } => format_r(0x6033, rd, rs1, rs2),
        Inst::And { rd, rs1, rs2 } => format_r(0x7033, rd, rs1, rs2),
        Inst::Addw { rd, rs1, rs2 } => format_r(0x3b, rd, rs1, rs2),
        Inst::Subw { rd, rs1, rs2 } => format_r(0x4000_003b, rd, rs1, rs2),
        Inst::Sllw { rd, rs1, rs2 } => format_r(0x103b, rd, rs1, rs2),
        Inst::Srlw { rd, rs1, rs2 } => format_r(0x503b, rd, rs1, rs2),
        Inst::Sraw { rd, rs1, rs2 } => format_r(0x4000_503b, rd, rs1, rs2),
        Inst::Mul { rd, rs1, rs2 } => format_r(0x200_0033, rd, rs1, rs2),
        Inst::Mulh { rd, rs1, rs2 } => format_r(0x200_1033, rd, rs1, rs2),
        Inst::Mulhsu { rd, rs1, rs2 } => format_r(0x200_2033, rd, rs1, rs2),
        Inst::Mulhu { rd, rs1, rs2 } => format_r(0x200_3033, rd, rs1, rs2),
        Inst::Div { rd, rs1, rs2 } => format_r(0x200_4033, rd, rs1, rs2),
        Inst::Divu { rd, rs1, rs2 } => format_r(0x200_5033, rd, rs1, rs2),
        Inst::Rem { rd, rs1, rs2 } => format_r(0x200_6033, rd, rs1, rs2),
        Inst::Remu { rd, rs1, rs2 } => format_r(0x200_7033, rd, rs1, rs2),
        Inst::Mulw { rd, rs1, rs2 } => format_r(0x200_003b, rd, rs1, rs2),
        Inst::Divw { rd, rs1, rs2 } => format_r(0x200_403b, rd, rs1, rs2),
        Inst::Divuw { rd, rs1, rs2 } => format_r(0x200_503b, rd, rs1, rs2),
        Inst::Remw { rd, rs1, rs2 } => format_r(0x200_603b, rd, rs1, rs2),
        Inst::Remuw { rd, rs1, rs2 } => format_r(0x200_703b, rd, rs1, rs2),
        Inst::Fence => Some(0xf),
        Inst::FenceI => Some(0x100f),
        Inst::Ecall => Some(0x73),
        Inst::Ebreak => Some(0x10_0073),
        Inst::Sret => Some(0x1020_0073),
        Inst::Wfi => Some(0x1050_0073),
        Inst::SfenceVma { rs1, rs2 } => format_v(0x1200_0073, rs1, rs2),
        Inst::Csrrw { rd, rs1, csr } => format_c(0x1073, rd, rs1, csr),
        Inst::Csrrs { rd, rs1, csr } => format_c(0x2073, rd, rs1, csr),
        Inst::Csrrc { rd, rs1, csr } => format_c(0x3073, rd, rs1, csr),
        Inst::Csrrwi { rd, imm, csr } => format_ci(0x5073, rd, imm, csr),
        Inst::Csrrsi { rd, imm, csr } => format_ci(0x6073, rd, imm, csr),
        Inst::Csrrci { rd, imm, csr } => format_ci(0x7073, rd, imm, csr),
        Inst::LrW { rd, rs1 } => format_l(0x1000_202f, rd, rs1),
        Inst::ScW { rd, rs1, rs2 } => format_a(0x1800_202f, rd, rs1, rs2),
        Inst::AmoswapW { rd, rs1, rs2 } => format_a(0x800_202f, rd, rs1, rs2),
        Inst::AmoaddW { rd, rs1, rs2 } => format_a(0x202f, rd, rs1, rs2),
        Inst::AmoxorW { rd, rs1, rs2 } => format_a(0x2000_202f, rd, rs1, rs2),
        Inst::AmoandW { rd, rs1, rs2 } => format_a(0x6000_202f, rd, rs1, rs2),
        Inst::AmoorW { rd, rs1, rs2 } => format_a(0x4000_202f, rd, rs1, rs2),
        Inst::AmominW { rd, rs1, rs2 } => format_a(0x8000_202f, rd, rs1, rs2),
        Inst::AmomaxW { rd, rs1, rs2 } => format_a(0xa000_202f, rd, rs1, rs2),
        Inst::AmominuW { rd, rs1, rs2 } => format_a(0xc000_202f, rd, rs1, rs2),
        Inst::AmomaxuW { rd, rs1, rs2 } => format_a(0xe000_202f, rd, rs1, rs2),
        Inst::LrD { rd, rs1 } => format_l(0x1000_302f, rd, rs1),
        Inst::ScD { rd, rs1, rs2 } => format_a(0x1800_302f, rd, rs1, rs2),
        Inst::AmoswapD { rd, rs1, rs2 } => format_a(0x800_302f, rd, rs1, rs2),
        Inst::AmoaddD { rd, rs1, rs2 } => format_a(0x302f, rd, rs1, rs2),
        Inst::AmoxorD { rd, rs1, rs2 } => format_a(0x2000_302f, rd, rs1, rs2),
        Inst::AmoandD { rd, rs1, rs2 } => format_a(0x6000_302f, rd, rs1, rs2),
        Inst::AmoorD { rd, rs1, rs2 } => format_a(0x4000_302f, rd, rs1, rs2),
        Inst::AmominD { rd, rs1, rs2 } => format_a(0x8000_302f, rd, rs1, rs2),
        Inst::AmomaxD { rd, rs1, rs2 } => format_a(0xa000_302f, rd, rs1, rs2),
        Inst::AmominuD { rd, rs1, rs2 } => format_a(0xc000_302f, rd, rs1, rs2),
        Inst::AmomaxuD { rd, rs1, rs2 } => format_a(0xe000_302f, rd, rs1, rs2),
    }
}
