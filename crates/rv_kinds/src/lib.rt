//! The classes of instructions that have one effect in common.
//!
//! [`kind_of`] names the class of each of the 97 instructions, with the operation, width and fields that tell it from
//! the others of its class. It is a table and nothing more: `specs/Kinds.antt` has the same row for each instruction,
//! and what a class does is said and done by `rv_step`, which stands above.
//!
//! Below stand `rv_decode`, whose instructions are classified, `rv_alu`, whose operations they name, and `fc_numbers`.
#![tactic(auto)]

ghost use Rattle.std.specs.Prelude.{◌≡◌, ◌<◌};
ghost use Rattle.rv_kinds.specs.Kinds.{kind_of, alu_by_register, alu_by_number, branch_kind, load_kind, store_kind, csr_by_register, csr_by_number, reserve_kind, conditional_kind, amo_kind};

use fc_numbers::machine::Width;
use rv_alu::{AluOp, AmoOp, BranchOp};
use rv_decode::Inst;

/// How an access changes a control register (unprivileged manual, "Zicsr").
#[derive(Debug, Clone, Copy, PartialEq, Eq)]
pub enum CsrOp {
    /// The source is written.
    Write,
    /// The bits of the source are set.
    Set,
    /// The bits of the source are cleared.
    Clear,
}

/// Whether a load extends its number by the number's sign, or by zeros.
#[derive(Debug, Clone, Copy, PartialEq, Eq)]
pub enum Sign {
    Signed,
    Unsigned,
}

/// A register, by its number, or a number.
#[derive(Clone, Copy, Drop)]
pub enum Source {
    Register(u8),
    Number(i64),
}

/// Arithmetic on a register and a source.
#[derive(Clone, Copy, Drop)]
pub struct Alu {
    pub source: Source,
    pub op: AluOp,
    pub rs1: u8,
    pub rd: u8,
}

/// A branch on two registers.
#[derive(Clone, Copy, Drop)]
pub struct Branch {
    pub op: BranchOp,
    pub rs2: u8,
    pub rs1: u8,
    /// The distance, in bytes.
    pub imm: i64,
}

/// A load from the address in rs1.
#[derive(Clone, Copy, Drop)]
pub struct Load {
    pub width: Width,
    pub sign: Sign,
    pub rs1: u8,
    pub rd: u8,
    /// The offset, in bytes.
    pub imm: i64,
}

/// A store of rs2 to the address in rs1.
#[derive(Clone, Copy, Drop)]
pub struct Store {
    pub width: Width,
    pub rs2: u8,
    pub rs1: u8,
    /// The offset, in bytes.
    pub imm: i64,
}

/// An access to a control register.
#[derive(Clone, Copy, Drop)]
pub struct CsrAccess {
    pub source: Source,
    pub op: CsrOp,
    pub rd: u8,
    /// The number of the control register.
    pub csr: u16,
}

/// LR: a load from the address in rs1 that reserves it.
#[derive(Clone, Copy, Drop)]
pub struct LoadReserved {
    pub width: Width,
    pub rs1: u8,
    pub rd: u8,
}

/// SC: a store of rs2 to the address in rs1, where it is reserved.
#[derive(Clone, Copy, Drop)]
pub struct StoreConditional {
    pub width: Width,
    pub rd: u8,
    pub rs1: u8,
    pub rs2: u8,
}

/// An atomic operation with rs2 on memory at the address in rs1.
#[derive(Clone, Copy, Drop)]
pub struct Amo {
    pub op: AmoOp,
    pub width: Width,
    pub rs2: u8,
    pub rs1: u8,
    pub rd: u8,
}

/// A register, and the number that goes to it, or the distance from here of the address that does.
#[derive(Clone, Copy, Drop)]
pub struct UpperImmediate {
    pub rd: u8,
    pub imm: i64,
}

/// A jump of so many bytes from here. The address behind it goes to rd.
#[derive(Clone, Copy, Drop)]
pub struct Jump {
    pub rd: u8,
    /// The distance, in bytes.
    pub imm: i64,
}

/// A jump to so many bytes from the address in rs1. The address behind it goes to rd.
#[derive(Clone, Copy, Drop)]
pub struct JumpRegister {
    pub rs1: u8,
    pub rd: u8,
    /// The offset, in bytes.
    pub imm: i64,
}

/// The class of an instruction, with what distinguishes it there. Registers are numbers below 32.
///
/// What has a number of 64 bits has it at the same place in every class, no class is one of four bytes that move as one,
/// and no two registers stand beside each other in the order in which [`Inst`] has them, which would move as one: so a step
/// moves all of it without taking it apart. That is why two classes have their fields here.
#[derive(Clone, Copy, Drop)]
pub enum Kind {
    Alu(Alu),
    Branch(Branch),
    Load(Load),
    Store(Store),
    /// LUI: the number goes to rd.
    Lui(UpperImmediate),
    /// AUIPC: the address so many bytes from here goes to rd.
    Auipc(UpperImmediate),
    /// JAL: a jump of so many bytes from here.
    Jal(Jump),
    /// JALR: a jump to so many bytes from the address in rs1.
    Jalr(JumpRegister),
    /// An instruction that only goes on: the fences of memory, and WFI.
    Nothing,
    /// ECALL.
    Call,
    /// EBREAK.
    Break,
    /// SRET.
    Return,
    /// SFENCE.VMA.
    FenceVma,
    /// An access to a control register, as in [`CsrAccess`].
    Csr {
        op: CsrOp,
        rd: u8,
        csr: u16,
        source: Source,
    },
    Reserve(LoadReserved),
    /// SC, as in [`StoreConditional`].
    Conditional {
        width: Width,
        rd: u8,
        rs1: u8,
        rs2: u8,
    },
    Amo(Amo),
}

fn alu_by_register(op: AluOp, rd: u8, rs1: u8, rs2: u8) -> Kind
    ensures { result ≡ alu_by_register op rd rs1 rs2 }
{
    Kind::Alu(Alu {
        op,
        rd,
        rs1,
        source: Source::Register(rs2),
    })
}

fn alu_by_number(op: AluOp, rd: u8, rs1: u8, imm: i64) -> Kind
    ensures { result ≡ alu_by_number op rd rs1 imm }
{
    Kind::Alu(Alu {
        op,
        rd,
        rs1,
        source: Source::Number(imm),
    })
}

fn branch_kind(op: BranchOp, rs1: u8, rs2: u8, imm: i64) -> Kind
    ensures { result ≡ branch_kind op rs1 rs2 imm }
{
    Kind::Branch(Branch { op, rs1, rs2, imm })
}

fn load_kind(width: Width, sign: Sign, rd: u8, rs1: u8, imm: i64) -> Kind
    ensures { result ≡ load_kind width sign rd rs1 imm }
{
    Kind::Load(Load {
        width,
        sign,
        rd,
        rs1,
        imm,
    })
}

fn store_kind(width: Width, rs1: u8, rs2: u8, imm: i64) -> Kind
    ensures { result ≡ store_kind width rs1 rs2 imm }
{
    Kind::Store(Store {
        width,
        rs1,
        rs2,
        imm,
    })
}

fn csr_by_register(op: CsrOp, rd: u8, csr: u16, rs1: u8) -> Kind
    ensures { result ≡ csr_by_register op rd csr rs1 }
{
    Kind::Csr {
        op,
        rd,
        csr,
        source: Source::Register(rs1),
    }
}

fn csr_by_number(op: CsrOp, rd: u8, csr: u16, imm: i64) -> Kind
    ensures { result ≡ csr_by_number op rd csr imm }
{
    Kind::Csr {
        op,
        rd,
        csr,
        source: Source::Number(imm),
    }
}

fn reserve_kind(width: Width, rd: u8, rs1: u8) -> Kind
    ensures { result ≡ reserve_kind width rd rs1 }
{
    Kind::Reserve(LoadReserved { width, rd, rs1 })
}

fn conditional_kind(width: Width, rd: u8, rs1: u8, rs2: u8) -> Kind
    ensures { result ≡ conditional_kind width rd rs1 rs2 }
{
    Kind::Conditional {
        width,
        rd,
        rs1,
        rs2,
    }
}

fn amo_kind(op: AmoOp, width: Width, rd: u8, rs1: u8, rs2: u8) -> Kind
    ensures { result ≡ amo_kind op width rd rs1 rs2 }
{
    Kind::Amo(Amo {
        op,
        width,
        rd,
        rs1,
        rs2,
    })
}

/// The class of the instruction. Inlined, so that a step decodes, classifies and executes without copies in between.
#[inline(always)]
#[tactic(auto, unfolding(crate::specs::Kinds::kind_of))]
pub fn kind_of(inst: &Inst) -> Kind
    ensures { result ≡ kind_of inst.now }
{
    match *inst {
        Inst::Lui { rd, imm } => Kind::Lui(UpperImmediate { rd, imm }),
        Inst::Auipc { rd, imm } => Kind::Auipc(UpperImmediate { rd, imm }),
        Inst::Jal { rd, imm } => Kind::Jal(Jump { rd, imm }),
        Inst::Jalr { rd, rs1, imm } => Kind::Jalr(JumpRegister { rd, rs1, imm }),
        Inst::Beq { rs1, rs2, imm } => branch_kind(BranchOp::Eq, rs1, rs2, imm),
        Inst::Bne { rs1, rs2, imm } => branch_kind(BranchOp::Ne, rs1, rs2, imm),
        Inst::Blt { rs1, rs2, imm } => branch_kind(BranchOp::Lt, rs1, rs2, imm),
        Inst::Bge { rs1, rs2, imm } => branch_kind(BranchOp::Ge, rs1, rs2, imm),
        Inst::Bltu { rs1, rs2, imm } => branch_kind(BranchOp::Ltu, rs1, rs2, imm),
        Inst::Bgeu { rs1, rs2, imm } => branch_kind(BranchOp::Geu, rs1, rs2, imm),
        Inst::Lb { rd, rs1, imm } => load_kind(Width::Byte, Sign::Signed, rd, rs1, imm),
        Inst::Lh { rd, rs1, imm } => load_kind(Width::Halfword, Sign::Signed, rd, rs1, imm),
        Inst::Lw { rd, rs1, imm } => load_kind(Width::Word, Sign::Signed, rd, rs1, imm),
        Inst::Ld { rd, rs1, imm } => load_kind(Width::Doubleword, Sign::Signed, rd, rs1, imm),
        Inst::Lbu { rd, rs1, imm } => load_kind(Width::Byte, Sign::Unsigned, rd, rs1, imm),
        Inst::Lhu { rd, rs1, imm } => load_kind(Width::Halfword, Sign::Unsigned, rd, rs1, imm),
        Inst::Lwu { rd, rs1, imm } => load_kind(Width::Word, Sign::Unsigned, rd, rs1, imm),
        Inst::Sb { rs1, rs2, imm } => store_kind(Width::Byte, rs1, rs2, imm),
        Inst::Sh { rs1, rs2, imm } => store_kind(Width::Halfword, rs1, rs2, imm),
        Inst::Sw { rs1, rs2, imm } => store_kind(Width::Word, rs1, rs2, imm),
        Inst::Sd { rs1, rs2, imm } => store_kind(Width::Doubleword, rs1, rs2, imm),
        Inst::Addi { rd, rs1, imm } => alu_by_number(AluOp::Add, rd, rs1, imm),
        Inst::Slti { rd, rs1, imm } => alu_by_number(AluOp::Slt, rd, rs1, imm),
        Inst::Sltiu { rd, rs1, imm } => alu_by_number(AluOp::Sltu, rd, rs1, imm),
        Inst::Xori { rd, rs1, imm } => alu_by_number(AluOp::Xor, rd, rs1, imm),
        Inst::Ori { rd, rs1, imm } => alu_by_number(AluOp::Or, rd, rs1, imm),
        Inst::Andi { rd, rs1, imm } => alu_by_number(AluOp::And, rd, rs1, imm),
        Inst::Addiw { rd, rs1, imm } => alu_by_number(AluOp::Addw, rd, rs1, imm),
        Inst::Slli { rd, rs1, imm } => alu_by_number(AluOp::Sll, rd, rs1, imm),
        Inst::Srli { rd, rs1, imm } => alu_by_number(AluOp::Srl, rd, rs1, imm),
        Inst::Srai { rd, rs1, imm } => alu_by_number(AluOp::Sra, rd, rs1, imm),
        Inst::Slliw { rd, rs1, imm } => alu_by_number(AluOp::Sllw, rd, rs1, imm),
        Inst::Srliw { rd, rs1, imm } => alu_by_number(AluOp::Srlw, rd, rs1, imm),
        Inst::Sraiw { rd, rs1, imm } => alu_by_number(AluOp::Sraw, rd, rs1, imm),
        Inst::Add { rd, rs1, rs2 } => alu_by_register(AluOp::Add, rd, rs1, rs2),
        Inst::Sub { rd, rs1, rs2 } => alu_by_register(AluOp::Sub, rd, rs1, rs2),
        Inst::Sll { rd, rs1, rs2 } => alu_by_register(AluOp::Sll, rd, rs1, rs2),
        Inst::Slt { rd, rs1, rs2 } => alu_by_register(AluOp::Slt, rd, rs1, rs2),
        Inst::Sltu { rd, rs1, rs2 } => alu_by_register(AluOp::Sltu, rd, rs1, rs2),
        Inst::Xor { rd, rs1, rs2 } => alu_by_register(AluOp::Xor, rd, rs1, rs2),
        Inst::Srl { rd, rs1, rs2 } => alu_by_register(AluOp::Srl, rd, rs1, rs2),
        Inst::Sra { rd, rs1, rs2 } => alu_by_register(AluOp::Sra, rd, rs1, rs2),
        Inst::Or { rd, rs1, rs2 } => alu_by_register(AluOp::Or, rd, rs1, rs2),
        Inst::And { rd, rs1, rs2 } => alu_by_register(AluOp::And, rd, rs1, rs2),
        Inst::Addw { rd, rs1, rs2 } => alu_by_register(AluOp::Addw, rd, rs1, rs2),
        Inst::Subw { rd, rs1, rs2 } => alu_by_register(AluOp::Subw, rd, rs1, rs2),
        Inst::Sllw { rd, rs1, rs2 } => alu_by_register(AluOp::Sllw, rd, rs1, rs2),
        Inst::Srlw { rd, rs1, rs2 } => alu_by_register(AluOp::Srlw, rd, rs1, rs2),
        Inst::Sraw { rd, rs1, rs2 } => alu_by_register(AluOp::Sraw, rd, rs1, rs2),
        Inst::Mul { rd, rs1, rs2 } => alu_by_register(AluOp::Mul, rd, rs1, rs2),
        Inst::Mulh { rd, rs1, rs2 } => alu_by_register(AluOp::Mulh, rd, rs1, rs2),
        Inst::Mulhsu { rd, rs1, rs2 } => alu_by_register(AluOp::Mulhsu, rd, rs1, rs2),
        Inst::Mulhu { rd, rs1, rs2 } => alu_by_register(AluOp::Mulhu, rd, rs1, rs2),
        Inst::Div { rd, rs1, rs2 } => alu_by_register(AluOp::Div, rd, rs1, rs2),
        Inst::Divu { rd, rs1, rs2 } => alu_by_register(AluOp::Divu, rd, rs1, rs2),
        Inst::Rem { rd, rs1, rs2 } => alu_by_register(AluOp::Rem, rd, rs1, rs2),
        Inst::Remu { rd, rs1, rs2 } => alu_by_register(AluOp::Remu, rd, rs1, rs2),
        Inst::Mulw { rd, rs1, rs2 } => alu_by_register(AluOp::Mulw, rd, rs1, rs2),
        Inst::Divw { rd, rs1, rs2 } => alu_by_register(AluOp::Divw, rd, rs1, rs2),
        Inst::Divuw { rd, rs1, rs2 } => alu_by_register(AluOp::Divuw, rd, rs1, rs2),
        Inst::Remw { rd, rs1, rs2 } => alu_by_register(AluOp::Remw, rd, rs1, rs2),
        Inst::Remuw { rd, rs1, rs2 } => alu_by_register(AluOp::Remuw, rd, rs1, rs2),
        Inst::Fence => Kind::Nothing,
        Inst::FenceI => Kind::Nothing,
        Inst::Ecall => Kind::Call,
        Inst::Ebreak => Kind::Break,
        Inst::Sret => Kind::Return,
        Inst::Wfi => Kind::Nothing,
        Inst::SfenceVma { .. } => Kind::FenceVma,
        Inst::Csrrw { rd, rs1, csr } => csr_by_register(CsrOp::Write, rd, csr, rs1),
        Inst::Csrrs { rd, rs1, csr } => csr_by_register(CsrOp::Set, rd, csr, rs1),
        Inst::Csrrc { rd, rs1, csr } => csr_by_register(CsrOp::Clear, rd, csr, rs1),
        Inst::Csrrwi { rd, imm, csr } => csr_by_number(CsrOp::Write, rd, csr, imm),
        Inst::Csrrsi { rd, imm, csr } => csr_by_number(CsrOp::Set, rd, csr, imm),
        Inst::Csrrci { rd, imm, csr } => csr_by_number(CsrOp::Clear, rd, csr, imm),
        Inst::LrW { rd, rs1 } => reserve_kind(Width::Word, rd, rs1),
        Inst::ScW { rd, rs1, rs2 } => conditional_kind(Width::Word, rd, rs1, rs2),
        Inst::AmoswapW { rd, rs1, rs2 } => amo_kind(AmoOp::Swap, Width::Word, rd, rs1, rs2),
        Inst::AmoaddW { rd, rs1, rs2 } => amo_kind(AmoOp::Add, Width::Word, rd, rs1, rs2),
        Inst::AmoxorW { rd, rs1, rs2 } => amo_kind(AmoOp::Xor, Width::Word, rd, rs1, rs2),
        Inst::AmoandW { rd, rs1, rs2 } => amo_kind(AmoOp::And, Width::Word, rd, rs1, rs2),
        Inst::AmoorW { rd, rs1, rs2 } => amo_kind(AmoOp::Or, Width::Word, rd, rs1, rs2),
        Inst::AmominW { rd, rs1, rs2 } => amo_kind(AmoOp::Min, Width::Word, rd, rs1, rs2),
        Inst::AmomaxW { rd, rs1, rs2 } => amo_kind(AmoOp::Max, Width::Word, rd, rs1, rs2),
        Inst::AmominuW { rd, rs1, rs2 } => amo_kind(AmoOp::MinU, Width::Word, rd, rs1, rs2),
        Inst::AmomaxuW { rd, rs1, rs2 } => amo_kind(AmoOp::MaxU, Width::Word, rd, rs1, rs2),
        Inst::LrD { rd, rs1 } => reserve_kind(Width::Doubleword, rd, rs1),
        Inst::ScD { rd, rs1, rs2 } => conditional_kind(Width::Doubleword, rd, rs1, rs2),
        Inst::AmoswapD { rd, rs1, rs2 } => amo_kind(AmoOp::Swap, Width::Doubleword, rd, rs1, rs2),
        Inst::AmoaddD { rd, rs1, rs2 } => amo_kind(AmoOp::Add, Width::Doubleword, rd, rs1, rs2),
        Inst::AmoxorD { rd, rs1, rs2 } => amo_kind(AmoOp::Xor, Width::Doubleword, rd, rs1, rs2),
        Inst::AmoandD { rd, rs1, rs2 } => amo_kind(AmoOp::And, Width::Doubleword, rd, rs1, rs2),
        Inst::AmoorD { rd, rs1, rs2 } => amo_kind(AmoOp::Or, Width::Doubleword, rd, rs1, rs2),
        Inst::AmominD { rd, rs1, rs2 } => amo_kind(AmoOp::Min, Width::Doubleword, rd, rs1, rs2),
        Inst::AmomaxD { rd, rs1, rs2 } => amo_kind(AmoOp::Max, Width::Doubleword, rd, rs1, rs2),
        Inst::AmominuD { rd, rs1, rs2 } => amo_kind(AmoOp::MinU, Width::Doubleword, rd, rs1, rs2),
        Inst::AmomaxuD { rd, rs1, rs2 } => amo_kind(AmoOp::MaxU, Width::Doubleword, rd, rs1, rs2),
    }
}
