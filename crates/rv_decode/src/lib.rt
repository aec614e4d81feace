//! The instructions of RV64IMAC with Zicsr, and the two decoders.
//!
//! [`Inst`] has one variant for each instruction that is known here, with its fields as numbers. [`decode32`] reads a
//! word of 32 bits, and [`decode16`] a halfword that is a compressed instruction. A halfword means the instruction
//! that it abbreviates, so both give the same [`Inst`].
//!
//! What a word or a halfword means is a table, in `specs/Rows.antt`: a row has a mask, the bits that a word of the row
//! has under the mask, sometimes a condition, and how the fields are read. The decoders give exactly what the one row
//! that fits says, and None exactly where no row fits; that no two rows share a word is computed over the
//! tables ([`rows_do_not_overlap`]). The decoders themselves branch on the opcode and the function fields.
//!
//! The rows are those of The RISC-V Instruction Set Manual, volume I, "RV32/64G Instruction Set Listings" and "RVC
//! Instruction Set Listings", without floating point, and SRET, WFI and SFENCE.VMA of volume II.
//!
//! Nothing here executes an instruction. Above stand the encoder, the arithmetic and the step of the machine.
#![tactic(auto)]

ghost use Rattle.std.specs.Prelude.{◌≡◌, ℕ, Some, None, All};
ghost use Rattle.rv_decode.specs.Ranges.{FieldsFit};
ghost use Rattle.rv_decode.specs.Rows.{IsOfRow, rows, decode_of, compressed_rows, decode16_of};

mod compressed;
mod compressed_fields;
mod fields;
#[cfg(test)]
mod tests;
mod wide;

pub use compressed::decode16;
pub use wide::decode32;

/// An instruction with its fields: the registers `rd`, `rs1` and `rs2`, below 32; the immediate `imm`, sign-extended,
/// or, for the amount of a fixed shift and the number of CSRRWI, CSRRSI and CSRRCI, zero-extended; the number `csr` of
/// a control register, below 4,096. An upper immediate is the whole value, a multiple of 4,096. The bits aq and rl of
/// an atomic instruction and the operands of a fence are no fields, since no instruction here depends on them.
#[derive(Clone, Copy, Drop)]
pub enum Inst {
    // RV64I, "Integer Computational Instructions" and "Control Transfer Instructions".
    /// LUI: the upper immediate.
    Lui { rd: u8, imm: i64 },
    /// AUIPC: the upper immediate added to the pc.
    Auipc { rd: u8, imm: i64 },
    /// JAL: jump and link.
    Jal { rd: u8, imm: i64 },
    /// JALR: jump to a register and link.
    Jalr { rd: u8, rs1: u8, imm: i64 },
    /// BEQ: branch where equal.
    Beq { rs1: u8, rs2: u8, imm: i64 },
    /// BNE: branch where not equal.
    Bne { rs1: u8, rs2: u8, imm: i64 },
    /// BLT: branch where less, signed.
    Blt { rs1: u8, rs2: u8, imm: i64 },
    /// BGE: branch where not less, signed.
    Bge { rs1: u8, rs2: u8, imm: i64 },
    /// BLTU: branch where less, unsigned.
    Bltu { rs1: u8, rs2: u8, imm: i64 },
    /// BGEU: branch where not less, unsigned.
    Bgeu { rs1: u8, rs2: u8, imm: i64 },

    // RV64I, "Load and Store Instructions".
    /// LB: load a byte, sign-extended.
    Lb { rd: u8, rs1: u8, imm: i64 },
    /// LH: load 2 bytes, sign-extended.
    Lh { rd: u8, rs1: u8, imm: i64 },
    /// LW: load 4 bytes, sign-extended.
    Lw { rd: u8, rs1: u8, imm: i64 },
    /// LD: load 8 bytes.
    Ld { rd: u8, rs1: u8, imm: i64 },
    /// LBU: load a byte, zero-extended.
    Lbu { rd: u8, rs1: u8, imm: i64 },
    /// LHU: load 2 bytes, zero-extended.
    Lhu { rd: u8, rs1: u8, imm: i64 },
    /// LWU: load 4 bytes, zero-extended.
    Lwu { rd: u8, rs1: u8, imm: i64 },
    /// SB: store a byte.
    Sb { rs1: u8, rs2: u8, imm: i64 },
    /// SH: store 2 bytes.
    Sh { rs1: u8, rs2: u8, imm: i64 },
    /// SW: store 4 bytes.
    Sw { rs1: u8, rs2: u8, imm: i64 },
    /// SD: store 8 bytes.
    Sd { rs1: u8, rs2: u8, imm: i64 },

    // RV64I, "Integer Register-Immediate Instructions".
    /// ADDI: add an immediate.
    Addi { rd: u8, rs1: u8, imm: i64 },
    /// SLTI: set where less than an immediate, signed.
    Slti { rd: u8, rs1: u8, imm: i64 },
    /// SLTIU: set where less than an immediate, unsigned.
    Sltiu { rd: u8, rs1: u8, imm: i64 },
    /// XORI: exclusive or with an immediate.
    Xori { rd: u8, rs1: u8, imm: i64 },
    /// ORI: or with an immediate.
    Ori { rd: u8, rs1: u8, imm: i64 },
    /// ANDI: and with an immediate.
    Andi { rd: u8, rs1: u8, imm: i64 },
    /// ADDIW: add an immediate, 32 bits.
    Addiw { rd: u8, rs1: u8, imm: i64 },
    /// SLLI: shift left by 0 to 63.
    Slli { rd: u8, rs1: u8, imm: i64 },
    /// SRLI: shift right by 0 to 63, zeros come in.
    Srli { rd: u8, rs1: u8, imm: i64 },
    /// SRAI: shift right by 0 to 63, the sign comes in.
    Srai { rd: u8, rs1: u8, imm: i64 },
    /// SLLIW: shift left by 0 to 31, 32 bits.
    Slliw { rd: u8, rs1: u8, imm: i64 },
    /// SRLIW: shift right by 0 to 31, 32 bits, zeros come in.
    Srliw { rd: u8, rs1: u8, imm: i64 },
    /// SRAIW: shift right by 0 to 31, 32 bits, the sign comes in.
    Sraiw { rd: u8, rs1: u8, imm: i64 },

    // RV64I, "Integer Register-Register Operations".
    /// ADD.
    Add { rd: u8, rs1: u8, rs2: u8 },
    /// SUB.
    Sub { rd: u8, rs1: u8, rs2: u8 },
    /// SLL: shift left.
    Sll { rd: u8, rs1: u8, rs2: u8 },
    /// SLT: set where less, signed.
    Slt { rd: u8, rs1: u8, rs2: u8 },
    /// SLTU: set where less, unsigned.
    Sltu { rd: u8, rs1: u8, rs2: u8 },
    /// XOR.
    Xor { rd: u8, rs1: u8, rs2: u8 },
    /// SRL: shift right, zeros come in.
    Srl { rd: u8, rs1: u8, rs2: u8 },
    /// SRA: shift right, the sign comes in.
    Sra { rd: u8, rs1: u8, rs2: u8 },
    /// OR.
    Or { rd: u8, rs1: u8, rs2: u8 },
    /// AND.
    And { rd: u8, rs1: u8, rs2: u8 },
    /// ADDW: add, 32 bits.
    Addw { rd: u8, rs1: u8, rs2: u8 },
    /// SUBW: subtract, 32 bits.
    Subw { rd: u8, rs1: u8, rs2: u8 },
    /// SLLW: shift left, 32 bits.
    Sllw { rd: u8, rs1: u8, rs2: u8 },
    /// SRLW: shift right, 32 bits, zeros come in.
    Srlw { rd: u8, rs1: u8, rs2: u8 },
    /// SRAW: shift right, 32 bits, the sign comes in.
    Sraw { rd: u8, rs1: u8, rs2: u8 },

    // The M extension for multiplication and division.
    /// MUL: the low half of the product.
    Mul { rd: u8, rs1: u8, rs2: u8 },
    /// MULH: the high half of the signed product.
    Mulh { rd: u8, rs1: u8, rs2: u8 },
    /// MULHSU: the high half of the product of signed and unsigned.
    Mulhsu { rd: u8, rs1: u8, rs2: u8 },
    /// MULHU: the high half of the unsigned product.
    Mulhu { rd: u8, rs1: u8, rs2: u8 },
    /// DIV: the signed quotient.
    Div { rd: u8, rs1: u8, rs2: u8 },
    /// DIVU: the unsigned quotient.
    Divu { rd: u8, rs1: u8, rs2: u8 },
    /// REM: the signed remainder.
    Rem { rd: u8, rs1: u8, rs2: u8 },
    /// REMU: the unsigned remainder.
    Remu { rd: u8, rs1: u8, rs2: u8 },
    /// MULW: the product, 32 bits.
    Mulw { rd: u8, rs1: u8, rs2: u8 },
    /// DIVW: the signed quotient, 32 bits.
    Divw { rd: u8, rs1: u8, rs2: u8 },
    /// DIVUW: the unsigned quotient, 32 bits.
    Divuw { rd: u8, rs1: u8, rs2: u8 },
    /// REMW: the signed remainder, 32 bits.
    Remw { rd: u8, rs1: u8, rs2: u8 },
    /// REMUW: the unsigned remainder, 32 bits.
    Remuw { rd: u8, rs1: u8, rs2: u8 },

    // RV64I and the privileged manual: fences, calls and supervisor instructions.
    /// FENCE: order of memory accesses.
    Fence,
    /// FENCE.I: order of stores and instruction fetches.
    FenceI,
    /// ECALL: call of the environment.
    Ecall,
    /// EBREAK: breakpoint.
    Ebreak,
    /// SRET: return from a supervisor trap.
    Sret,
    /// WFI: wait for an interrupt.
    Wfi,
    /// SFENCE.VMA: order of stores and translations.
    SfenceVma { rs1: u8, rs2: u8 },

    // The Zicsr extension for control and status registers.
    /// CSRRW: read and write a control register.
    Csrrw { rd: u8, rs1: u8, csr: u16 },
    /// CSRRS: read a control register and set bits.
    Csrrs { rd: u8, rs1: u8, csr: u16 },
    /// CSRRC: read a control register and clear bits.
    Csrrc { rd: u8, rs1: u8, csr: u16 },
    /// CSRRWI: the same as CSRRW with a number of 5 bits.
    Csrrwi { rd: u8, imm: i64, csr: u16 },
    /// CSRRSI: the same as CSRRS with a number of 5 bits.
    Csrrsi { rd: u8, imm: i64, csr: u16 },
    /// CSRRCI: the same as CSRRC with a number of 5 bits.
    Csrrci { rd: u8, imm: i64, csr: u16 },

    // The A extension for atomic instructions, 4 bytes.
    /// LR.W: load 4 bytes and reserve.
    LrW { rd: u8, rs1: u8 },
    /// SC.W: store 4 bytes where reserved.
    ScW { rd: u8, rs1: u8, rs2: u8 },
    /// AMOSWAP.W: exchange, 4 bytes.
    AmoswapW { rd: u8, rs1: u8, rs2: u8 },
    /// AMOADD.W: add to memory, 4 bytes.
    AmoaddW { rd: u8, rs1: u8, rs2: u8 },
    /// AMOXOR.W: exclusive or into memory, 4 bytes.
    AmoxorW { rd: u8, rs1: u8, rs2: u8 },
    /// AMOAND.W: and into memory, 4 bytes.
    AmoandW { rd: u8, rs1: u8, rs2: u8 },
    /// AMOOR.W: or into memory, 4 bytes.
    AmoorW { rd: u8, rs1: u8, rs2: u8 },
    /// AMOMIN.W: signed minimum into memory, 4 bytes.
    AmominW { rd: u8, rs1: u8, rs2: u8 },
    /// AMOMAX.W: signed maximum into memory, 4 bytes.
    AmomaxW { rd: u8, rs1: u8, rs2: u8 },
    /// AMOMINU.W: unsigned minimum into memory, 4 bytes.
    AmominuW { rd: u8, rs1: u8, rs2: u8 },
    /// AMOMAXU.W: unsigned maximum into memory, 4 bytes.
    AmomaxuW { rd: u8, rs1: u8, rs2: u8 },

    // The A extension, 8 bytes.
    /// LR.D: load 8 bytes and reserve.
    LrD { rd: u8, rs1: u8 },
    /// SC.D: store 8 bytes where reserved.
    ScD { rd: u8, rs1: u8, rs2: u8 },
    /// AMOSWAP.D: exchange, 8 bytes.
    AmoswapD { rd: u8, rs1: u8, rs2: u8 },
    /// AMOADD.D: add to memory, 8 bytes.
    AmoaddD { rd: u8, rs1: u8, rs2: u8 },
    /// AMOXOR.D: exclusive or into memory, 8 bytes.
    AmoxorD { rd: u8, rs1: u8, rs2: u8 },
    /// AMOAND.D: and into memory, 8 bytes.
    AmoandD { rd: u8, rs1: u8, rs2: u8 },
    /// AMOOR.D: or into memory, 8 bytes.
    AmoorD { rd: u8, rs1: u8, rs2: u8 },
    /// AMOMIN.D: signed minimum into memory, 8 bytes.
    AmominD { rd: u8, rs1: u8, rs2: u8 },
    /// AMOMAX.D: signed maximum into memory, 8 bytes.
    AmomaxD { rd: u8, rs1: u8, rs2: u8 },
    /// AMOMINU.D: unsigned minimum into memory, 8 bytes.
    AmominuD { rd: u8, rs1: u8, rs2: u8 },
    /// AMOMAXU.D: unsigned maximum into memory, 8 bytes.
    AmomaxuD { rd: u8, rs1: u8, rs2: u8 },
}

/// Each row of both tables is the meaning of every word, or halfword, that fits it, and what fits no row has no
/// meaning. So no two rows share a word, and the order of the rows does not matter. Nothing runs here: this is the law
/// that the tables define one meaning.
pub fn rows_do_not_overlap()
    ensures words { All (λ r. (w : ℕ) → IsOfRow r w → decode_of w ≡ Some (r.reads w)) rows }
    ensures halfwords { All (λ r. (h : ℕ) → IsOfRow r h → decode16_of h ≡ Some (r.reads h)) compressed_rows }
    ensures no_word { (w : ℕ) → All (λ r. IsOfRow r w → ⊥) rows → decode_of w ≡ None }
    ensures no_halfword { (h : ℕ) → All (λ r. IsOfRow r h → ⊥) compressed_rows → decode16_of h ≡ None }
{}

/// The law that each field of a decoded instruction is in its range: registers are below 32, an immediate fits its
/// format, and the distance of a branch or a jump is even. Nothing runs here.
pub fn decoded_fields_fit()
    ensures words { (w : ℕ) (i : Inst) → decode_of w ≡ Some i → FieldsFit i }
    ensures halfwords { (h : ℕ) (i : Inst) → decode16_of h ≡ Some i → FieldsFit i }
{}
