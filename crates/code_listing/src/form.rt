//! How an instruction is written: its name and its fields.

ghost use Rattle.std.specs.Prelude.{◌≡◌};
ghost use Rattle.code_listing.specs.Forms.{form_of, rd_imm, rd_imm_csr, rd_rs1, rd_rs1_csr, rd_rs1_imm, rd_rs1_rs2, rs1_rs2, rs1_rs2_imm};

use rv_decode::Inst;

/// The fields that an instruction has, as numbers.
#[derive(Clone, Copy)]
pub(crate) struct Fields {
    /// The register that is written.
    pub(crate) rd: Option<i64>,
    /// The first register that is read.
    pub(crate) rs1: Option<i64>,
    /// The second register that is read.
    pub(crate) rs2: Option<i64>,
    /// The immediate, with its sign.
    pub(crate) imm: Option<i64>,
    /// The number of the control register.
    pub(crate) csr: Option<i64>,
}

/// The standard's name of an instruction, and its fields.
#[derive(Clone, Copy)]
pub(crate) struct Form {
    /// The name, in lower case.
    pub(crate) name: &'static str,
    pub(crate) fields: Fields,
}

const NO_FIELDS: Fields = Fields {
    rd: None,
    rs1: None,
    rs2: None,
    imm: None,
    csr: None,
};

/// The fields rd and imm.
fn rd_imm(rd: u8, imm: i64) -> Fields
    ensures { result ≡ rd_imm rd imm }
{
    Fields {
        rd: Some(i64::from(rd)),
        imm: Some(imm),
        ..NO_FIELDS
    }
}

/// The fields rd, imm and csr.
fn rd_imm_csr(rd: u8, imm: i64, csr: u16) -> Fields
    ensures { result ≡ rd_imm_csr rd imm csr }
{
    Fields {
        rd: Some(i64::from(rd)),
        imm: Some(imm),
        csr: Some(i64::from(csr)),
        ..NO_FIELDS
    }
}

/// The fields rd and rs1.
fn rd_rs1(rd: u8, rs1: u8) -> Fields
    ensures { result ≡ rd_rs1 rd rs1 }
{
    Fields {
        rd: Some(i64::from(rd)),
        rs1: Some(i64::from(rs1)),
        ..NO_FIELDS
    }
}

/// The fields rd, rs1 and csr.
fn rd_rs1_csr(rd: u8, rs1: u8, csr: u16) -> Fields
    ensures { result ≡ rd_rs1_csr rd rs1 csr }
{
    Fields {
        rd: Some(i64::from(rd)),
        rs1: Some(i64::from(rs1)),
        csr: Some(i64::from(csr)),
        ..NO_FIELDS
    }
}

/// The fields rd, rs1 and imm.
fn rd_rs1_imm(rd: u8, rs1: u8, imm: i64) -> Fields
    ensures { result ≡ rd_rs1_imm rd rs1 imm }
{
    Fields {
        rd: Some(i64::from(rd)),
        rs1: Some(i64::from(rs1)),
        imm: Some(imm),
        ..NO_FIELDS
    }
}

/// The fields rd, rs1 and rs2.
fn rd_rs1_rs2(rd: u8, rs1: u8, rs2: u8) -> Fields
    ensures { result ≡ rd_rs1_rs2 rd rs1 rs2 }
{
    Fields {
        rd: Some(i64::from(rd)),
        rs1: Some(i64::from(rs1)),
        rs2: Some(i64::from(rs2)),
        ..NO_FIELDS
    }
}

/// The fields rs1 and rs2.
fn rs1_rs2(rs1: u8, rs2: u8) -> Fields
    ensures { result ≡ rs1_rs2 rs1 rs2 }
{
    Fields {
        rs1: Some(i64::from(rs1)),
        rs2: Some(i64::from(rs2)),
        ..NO_FIELDS
    }
}

/// The fields rs1, rs2 and imm.
fn rs1_rs2_imm(rs1: u8, rs2: u8, imm: i64) -> Fields
    ensures { result ≡ rs1_rs2_imm rs1 rs2 imm }
{
    Fields {
        rs1: Some(i64::from(rs1)),
        rs2: Some(i64::from(rs2)),
        imm: Some(imm),
        ..NO_FIELDS
    }
}

/// A name and fields.
fn named(name: &'static str, fields: Fields) -> Form
    ensures name { result.name.now ≡ name.now }
    ensures fields { result.fields ≡ fields }
{
    Form { name, fields }
}

/// How the instruction is written.
#[tactic(auto, unfolding(crate::specs::Forms::form_of))]
pub(crate) fn form_of(i: &Inst) -> Form
    ensures name { result.name.now ≡ (form_of i.now).name }
    ensures fields { result.fields ≡ (form_of i.now).fields }
{
    match *i {
        Inst::Lui { rd, imm } => named("lui", rd_imm(rd, imm)),
        Inst::Auipc { rd, imm } => named("auipc", rd_imm(rd, imm)),
        Inst::Jal { rd, imm } => named("jal", rd_imm(rd, imm)),
        Inst::Jalr { rd, rs1, imm } => named("jalr", rd_rs1_imm(rd, rs1, imm)),
        Inst::Beq { rs1, rs2, imm } => named("beq", rs1_rs2_imm(rs1, rs2, imm)),
        Inst::Bne { rs1, rs2, imm } => named("bne", rs1_rs2_imm(rs1, rs2, imm)),
        Inst::Blt { rs1, rs2, imm } => named("blt", rs1_rs2_imm(rs1, rs2, imm)),
        Inst::Bge { rs1, rs2, imm } => named("bge", rs1_rs2_imm(rs1, rs2, imm)),
        Inst::Bltu { rs1, rs2, imm } => named("bltu", rs1_rs2_imm(rs1, rs2, imm)),
        Inst::Bgeu { rs1, rs2, imm } => named("bgeu", rs1_rs2_imm(rs1, rs2, imm)),
        Inst::Lb { rd, rs1, imm } => named("lb", rd_rs1_imm(rd, rs1, imm)),
        Inst::Lh { rd, rs1, imm } => named("lh", rd_rs1_imm(rd, rs1, imm)),
        Inst::Lw { rd, rs1, imm } => named("lw", rd_rs1_imm(rd, rs1, imm)),
        Inst::Ld { rd, rs1, imm } => named("ld", rd_rs1_imm(rd, rs1, imm)),
        Inst::Lbu { rd, rs1, imm } => named("lbu", rd_rs1_imm(rd, rs1, imm)),
        Inst::Lhu { rd, rs1, imm } => named("lhu", rd_rs1_imm(rd, rs1, imm)),
        Inst::Lwu { rd, rs1, imm } => named("lwu", rd_rs1_imm(rd, rs1, imm)),
        Inst::Sb { rs1, rs2, imm } => named("sb", rs1_rs2_imm(rs1, rs2, imm)),
        Inst::Sh { rs1, rs2, imm } => named("sh", rs1_rs2_imm(rs1, rs2, imm)),
        Inst::Sw { rs1, rs2, imm } => named("sw", rs1_rs2_imm(rs1, rs2, imm)),
        Inst::Sd { rs1, rs2, imm } => named("sd", rs1_rs2_imm(rs1, rs2, imm)),
        Inst::Addi { rd, rs1, imm } => named("addi", rd_rs1_imm(rd, rs1, imm)),
        Inst::Slti { rd, rs1, imm } => named("slti", rd_rs1_imm(rd, rs1, imm)),
        Inst::Sltiu { rd, rs1, imm } => named("sltiu", rd_rs1_imm(rd, rs1, imm)),
        Inst::Xori { rd, rs1, imm } => named("xori", rd_rs1_imm(rd, rs1, imm)),
        Inst::Ori { rd, rs1, imm } => named("ori", rd_rs1_imm(rd, rs1, imm)),
        Inst::Andi { rd, rs1, imm } => named("andi", rd_rs1_imm(rd, rs1, imm)),
        Inst::Addiw { rd, rs1, imm } => named("addiw", rd_rs1_imm(rd, rs1, imm)),
        Inst::Slli { rd, rs1, imm } => named("slli", rd_rs1_imm(rd, rs1, imm)),
        Inst::Srli { rd, rs1, imm } => named("srli", rd_rs1_imm(rd, rs1, imm)),
        Inst::Srai { rd, rs1, imm } => named("srai", rd_rs1_imm(rd, rs1, imm)),
        Inst::Slliw { rd, rs1, imm } => named("slliw", rd_rs1_imm(rd, rs1, imm)),
        Inst::Srliw { rd, rs1, imm } => named("srliw", rd_rs1_imm(rd, rs1, imm)),
        Inst::Sraiw { rd, rs1, imm } => named("sraiw", rd_rs1_imm(rd, rs1, imm)),
        Inst::Add { rd, rs1, rs2 } => named("add", rd_rs1_rs2(rd, rs1, rs2)),
        Inst::Sub { rd, rs1, rs2 } => named("sub", rd_rs1_rs2(rd, rs1, rs2)),
        Inst::Sll { rd, rs1, rs2 } => named("sll", rd_rs1_rs2(rd, rs1, rs2)),
        Inst::Slt { rd, rs1, rs2 } => named("slt", rd_rs1_rs2(rd, rs1, rs2)),
        Inst::Sltu { rd, rs1, rs2 } => named("sltu", rd_rs1_rs2(rd, rs1, rs2)),
        Inst::Xor { rd, rs1, rs2 } => named("xor", rd_rs1_rs2(rd, rs1, rs2)),
        Inst::Srl { rd, rs1, rs2 } => named("srl", rd_rs1_rs2(rd, rs1, rs2)),
        Inst::Sra { rd, rs1, rs2 } => named("sra", rd_rs1_rs2(rd, rs1, rs2)),
        Inst::Or { rd, rs1, rs2 } => named("or", rd_rs1_rs2(rd, rs1, rs2)),
        Inst::And { rd, rs1, rs2 } => named("and", rd_rs1_rs2(rd, rs1, rs2)),
        Inst::Addw { rd, rs1, rs2 } => named("addw", rd_rs1_rs2(rd, rs1, rs2)),
        Inst::Subw { rd, rs1, rs2 } => named("subw", rd_rs1_rs2(rd, rs1, rs2)),
        Inst::Sllw { rd, rs1, rs2 } => named("sllw", rd_rs1_rs2(rd, rs1, rs2)),
        Inst::Srlw { rd, rs1, rs2 } => named("srlw", rd_rs1_rs2(rd, rs1, rs2)),
        Inst::Sraw { rd, rs1, rs2 } => named("sraw", rd_rs1_rs2(rd, rs1, rs2)),
        Inst::Mul { rd, rs1, rs2 } => named("mul", rd_rs1_rs2(rd, rs1, rs2)),
        Inst::Mulh { rd, rs1, rs2 } => named("mulh", rd_rs1_rs2(rd, rs1, rs2)),
        Inst::Mulhsu { rd, rs1, rs2 } => named("mulhsu", rd_rs1_rs2(rd, rs1, rs2)),
        Inst::Mulhu { rd, rs1, rs2 } => named("mulhu", rd_rs1_rs2(rd, rs1, rs2)),
        Inst::Div { rd, rs1, rs2 } => named("div", rd_rs1_rs2(rd, rs1, rs2)),
        Inst::Divu { rd, rs1, rs2 } => named("divu", rd_rs1_rs2(rd, rs1, rs2)),
        Inst::Rem { rd, rs1, rs2 } => named("rem", rd_rs1_rs2(rd, rs1, rs2)),
        Inst::Remu { rd, rs1, rs2 } => named("remu", rd_rs1_rs2(rd, rs1, rs2)),
        Inst::Mulw { rd, rs1, rs2 } => named("mulw", rd_rs1_rs2(rd, rs1, rs2)),
        Inst::Divw { rd, rs1, rs2 } => named("divw", rd_rs1_rs2(rd, rs1, rs2)),
        Inst::Divuw { rd, rs1, rs2 } => named("divuw", rd_rs1_rs2(rd, rs1, rs2)),
        Inst::Remw { rd, rs1, rs2 } => named("remw", rd_rs1_rs2(rd, rs1, rs2)),
        Inst::Remuw { rd, rs1, rs2 } => named("remuw", rd_rs1_rs2(rd, rs1, rs2)),
        Inst::Fence => named("fence", NO_FIELDS),
        Inst::FenceI => named("fence.i", NO_FIELDS),
        Inst::Ecall => named("ecall", NO_FIELDS),
        Inst::Ebreak => named("ebreak", NO_FIELDS),
        Inst::Sret => named("sret", NO_FIELDS),
        Inst::Wfi => named("wfi", NO_FIELDS),
        Inst::SfenceVma { rs1, rs2 } => named("sfence.vma", rs1_rs2(rs1, rs2)),
        Inst::Csrrw { rd, rs1, csr } => named("csrrw", rd_rs1_csr(rd, rs1, csr)),
        Inst::Csrrs { rd, rs1, csr } => named("csrrs", rd_rs1_csr(rd, rs1, csr)),
        Inst::Csrrc { rd, rs1, csr } => named("csrrc", rd_rs1_csr(rd, rs1, csr)),
        Inst::Csrrwi { rd, imm, csr } => named("csrrwi", rd_imm_csr(rd, imm, csr)),
        Inst::Csrrsi { rd, imm, csr } => named("csrrsi", rd_imm_csr(rd, imm, csr)),
        Inst::Csrrci { rd, imm, csr } => named("csrrci", rd_imm_csr(rd, imm, csr)),
        Inst::LrW { rd, rs1 } => named("lr.w", rd_rs1(rd, rs1)),
        Inst::ScW { rd, rs1, rs2 } => named("sc.w", rd_rs1_rs2(rd, rs1, rs2)),
        Inst::AmoswapW { rd, rs1, rs2 } => named("amoswap.w", rd_rs1_rs2(rd, rs1, rs2)),
        Inst::AmoaddW { rd, rs1, rs2 } => named("amoadd.w", rd_rs1_rs2(rd, rs1, rs2)),
        Inst::AmoxorW { rd, rs1, rs2 } => named("amoxor.w", rd_rs1_rs2(rd, rs1, rs2)),
        Inst::AmoandW { rd, rs1, rs2 } => named("amoand.w", rd_rs1_rs2(rd, rs1, rs2)),
        Inst::AmoorW { rd, rs1, rs2 } => named("amoor.w", rd_rs1_rs2(rd, rs1, rs2)),
        Inst::AmominW { rd, rs1, rs2 } => named("amomin.w", rd_rs1_rs2(rd, rs1, rs2)),
        Inst::AmomaxW { rd, rs1, rs2 } => named("amomax.w", rd_rs1_rs2(rd, rs1, rs2)),
        Inst::AmominuW { rd, rs1, rs2 } => named("amominu.w", rd_rs1_rs2(rd, rs1, rs2)),
        Inst::AmomaxuW { rd, rs1, rs2 } => named("amomaxu.w", rd_rs1_rs2(rd, rs1, rs2)),
        Inst::LrD { rd, rs1 } => named("lr.d", rd_rs1(rd, rs1)),
        Inst::ScD { rd, rs1, rs2 } => named("sc.d", rd_rs1_rs2(rd, rs1, rs2)),
        Inst::AmoswapD { rd, rs1, rs2 } => named("amoswap.d", rd_rs1_rs2(rd, rs1, rs2)),
        Inst::AmoaddD { rd, rs1, rs2 } => named("amoadd.d", rd_rs1_rs2(rd, rs1, rs2)),
        Inst::AmoxorD { rd, rs1, rs2 } => named("amoxor.d", rd_rs1_rs2(rd, rs1, rs2)),
        Inst::AmoandD { rd, rs1, rs2 } => named("amoand.d", rd_rs1_rs2(rd, rs1, rs2)),
        Inst::AmoorD { rd, rs1, rs2 } => named("amoor.d", rd_rs1_rs2(rd, rs1, rs2)),
        Inst::AmominD { rd, rs1, rs2 } => named("amomin.d", rd_rs1_rs2(rd, rs1, rs2)),
        Inst::AmomaxD { rd, rs1, rs2 } => named("amomax.d", rd_rs1_rs2(rd, rs1, rs2)),
        Inst::AmominuD { rd, rs1, rs2 } => named("amominu.d", rd_rs1_rs2(rd, rs1, rs2)),
        Inst::AmomaxuD { rd, rs1, rs2 } => named("amomaxu.d", rd_rs1_rs2(rd, rs1, rs2)),
    }
}
