//! A vCPU, and what an instruction comes to.

ghost use Rattle.std.specs.Prelude.{◌≡◌, ◌+◌, ◌%◌, ◌^◌, ◌<◌};
ghost use Rattle.rv_step.specs.Site.{reg_of, source_value, wrote, after, plus};

use fc_numbers::machine::{End, Mode};
use fc_numbers::places::{Gpa, Va, VcpuNo};
use fc_numbers::regs::Regs;
use rv_csr::CsrFile;
use rv_kinds::Source;

/// What one vCPU keeps.
#[derive(Debug, Clone, Copy)]
pub struct Vcpu {
    /// The integer registers.
    pub regs: Regs,
    /// Where the next instruction is.
    pub pc: Va,
    /// The privilege mode.
    pub mode: Mode,
    /// The control registers.
    pub csr: CsrFile,
    /// The aligned 8 bytes that LR reserved, if a reservation stands.
    pub reserved: Option<Gpa>,
    /// Which of the run's vCPUs it is.
    pub number: VcpuNo,
}

/// What an instruction comes to.
#[derive(Debug, Clone, Copy, PartialEq, Eq)]
pub enum Effect {
    /// The run goes on at the vCPU's pc.
    Next,
    /// The same after a store, an AMO or a successful SC, which wrote at this place.
    Wrote(Gpa),
    /// The instruction raises an exception, and the vCPU stands as it did before it. `tval` is what stval is to hold;
    /// for an illegal instruction it is 0 here, and whoever has its bits puts them there.
    Trap { cause: u64, tval: u64 },
    /// The run ends, and all stands as it did before the instruction.
    End(End),
}

/// Register n, by the low 5 bits of n.
pub(crate) fn register(vcpu: &Vcpu, n: u8) -> u64
    ensures { result ≡ reg_of vcpu.now n }
{
    vcpu.regs.get(n % 32)
}

/// The value of a source.
pub(crate) fn source_value(vcpu: &Vcpu, source: Source) -> u64
    ensures { result ≡ source_value vcpu.now source }
{
    match source {
        Source::Register(n) => register(vcpu, n),
        Source::Number(imm) => imm.cast_unsigned(),
    }
}

/// The address after an instruction of `len` bytes.
pub(crate) fn following(vcpu: &Vcpu, len: u8) -> u64
    ensures { result ≡ after vcpu.now len }
{
    vcpu.pc.0.wrapping_add(len as u64)
}

/// Writes the register `rd` and goes on.
pub(crate) fn write_back(vcpu: &mut Vcpu, len: u8, rd: u8, value: u64)
    ensures { vcpu.new ≡ wrote vcpu.old len rd value }
{
    let to = following(vcpu, len);
    vcpu.regs.set(rd % 32, value);
    vcpu.pc = Va(to);
}

/// The address that a register and an offset make.
pub(crate) fn address(vcpu: &Vcpu, rs1: u8, imm: i64) -> u64
    ensures { result ≡ plus (reg_of vcpu.now rs1) imm }
{
    register(vcpu, rs1).wrapping_add(imm.cast_unsigned())
}

/// The address so many bytes from the instruction.
pub(crate) fn relative(vcpu: &Vcpu, imm: i64) -> u64
    ensures { result ≡ plus vcpu.now.pc imm }
{
    vcpu.pc.0.wrapping_add(imm.cast_unsigned())
}
