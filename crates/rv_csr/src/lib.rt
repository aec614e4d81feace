//! The control and status registers that a guest has.
//!
//! [`CsrFile`] holds the nine registers that keep a value; `sip` and `time` are read from the lines and the clock that
//! the caller hands in. [`CsrFile::read`] and [`CsrFile::write`] answer exactly by the table of `specs/Csr.antt`, and
//! the address-translation mode in `satp` is always Bare, Sv39 or Sv48. The registers and their fields are those of the
//! privileged RISC-V manual, "Supervisor-Level ISA"; which of their bits a write keeps is this project's choice.
//!
//! Below stands `fc_numbers`, for privilege modes. `trap_unit` and the crates that translate addresses and execute
//! instructions stand above.
#![tactic(auto)]

ghost use Rattle.std.specs.Prelude.{◌≡◌, ◌+◌, ◌-◌, ◌*◌, ◌/◌, ◌%◌, ◌^◌, ◌<◌, true};
ghost use Rattle.rv_csr.specs.declared.TheConstants.{MXR_BIT, SUM_BIT};
ghost use Rattle.page_table.specs.Mode.{has_mode};
ghost use Rattle.rv_csr.specs.Csr.{fresh, csr_read, csr_write, csr_wrote, is_set, may_access, satp_after, satp_bits};

use fc_numbers::machine::Mode;
use page_table::{MODE_BARE, MODE_SHIFT, MODE_SV39, MODE_SV48, PPN_COUNT, mode_of};
use std::marker::Model;

/// The number of `sstatus`.
pub const SSTATUS: u16 = 0x100;
/// The number of `sie`.
pub const SIE: u16 = 0x104;
/// The number of `stvec`.
pub const STVEC: u16 = 0x105;
/// The number of `scounteren`.
pub const SCOUNTEREN: u16 = 0x106;
/// The number of `sscratch`.
pub const SSCRATCH: u16 = 0x140;
/// The number of `sepc`.
pub const SEPC: u16 = 0x141;
/// The number of `scause`.
pub const SCAUSE: u16 = 0x142;
/// The number of `stval`.
pub const STVAL: u16 = 0x143;
/// The number of `sip`.
pub const SIP: u16 = 0x144;
/// The number of `satp`.
pub const SATP: u16 = 0x180;
/// The number of `time`.
pub const TIME: u16 = 0xc01;

/// sstatus.SIE: interrupts are taken in supervisor mode.
pub const STATUS_SIE: u64 = 0x2;
/// sstatus.SPIE: what SIE was before the trap.
pub const STATUS_SPIE: u64 = 0x20;
/// sstatus.SPP: the trap came from supervisor mode.
pub const STATUS_SPP: u64 = 0x100;
/// sstatus.SUM: supervisor mode may load from and store to pages of user mode.
pub const STATUS_SUM: u64 = 0x4_0000;
/// sstatus.MXR: pages that may be executed may be loaded from.
pub const STATUS_MXR: u64 = 0x8_0000;
/// sstatus.UXL with the value 2: user mode has 64-bit registers.
pub const STATUS_UXL: u64 = 0x2_0000_0000;
/// The bits of sstatus that a write keeps: SIE, SPIE, SPP, SUM and MXR.
pub const STATUS_KEPT: u64 = 0xc_0122;

/// The bits of sie that a write keeps: SSIE, STIE and SEIE, for software, timer and external interrupts.
pub const INTERRUPTS: u64 = 0x222;
/// scounteren.TM: user mode may read `time`.
pub const COUNTER_TIME: u64 = 0x2;
/// The bit of sstatus that is SIE.
pub const SIE_BIT: u32 = 1;
/// The bit of sstatus that is SPIE.
pub const SPIE_BIT: u32 = 5;
/// The bit of sstatus that is SPP.
pub const SPP_BIT: u32 = 8;
/// The bit of sstatus that is SUM.
pub const SUM_BIT: u32 = 18;
/// The bit of sstatus that is MXR.
pub const MXR_BIT: u32 = 19;
/// The bit of scounteren that is TM.
pub const TIME_BIT: u32 = 1;

/// The registers that keep a value. In contracts they are the record of the nine numbers.
#[derive(Debug, Clone, Copy, PartialEq, Eq)]
pub struct CsrFile {
    /// Supervisor status.
    pub sstatus: u64,
    /// Supervisor interrupt enable.
    pub sie: u64,
    /// Where traps lead to.
    pub stvec: u64,
    /// Which counters user mode may read.
    pub scounteren: u64,
    /// The supervisor's own.
    pub sscratch: u64,
    /// Where the trap came from.
    pub sepc: u64,
    /// Why the trap came.
    pub scause: u64,
    /// What the trap is about, as an address.
    pub stval: u64,
    /// Address translation and the root of its table.
    pub satp: u64,
}

impl Model for CsrFile {
    ghost use Rattle.std.specs.Prelude.{◌≡◌, true};
    ghost use Rattle.page_table.specs.Mode.{has_mode};
    ghost use Rattle.rv_csr.specs.Csrs.{Csrs};

    ghost Value = { Csrs };

    ghost view = { λ f. record { sstatus = f.sstatus; sie = f.sie; stvec = f.stvec; scounteren = f.scounteren; sscratch = f.sscratch; sepc = f.sepc; scause = f.scause; stval = f.stval; satp = f.satp } };

    ghost invariant = { λ f. has_mode f.satp ≡ true };

    ghost inverse = { λ v. record { sstatus = v.sstatus; sie = v.sie; stvec = v.stvec; scounteren = v.scounteren; sscratch = v.sscratch; sepc = v.sepc; scause = v.scause; stval = v.stval; satp = v.satp } };
}

/// There is no such register here, or this mode may not use it so.
#[derive(Debug, Clone, Copy, PartialEq, Eq)]
pub struct Illegal;

/// Whether bit `n` is set.
pub fn has_bit(v: u64, n: u32) -> bool
    requires { n < 64 }
    ensures { result ≡ is_set v n }
{
    (v >> n) % 2 == 1
}

/// Whether the mode may name the register at all.
fn may_name(csr: &CsrFile, n: u16, mode: Mode) -> bool
    ensures { result ≡ may_access csr.now n mode }
{
    match mode {
        Mode::Vs => true,
        Mode::Vu => n == TIME && has_bit(csr.scounteren, TIME_BIT),
    }
}

/// MODE and PPN of a satp, and 0 elsewhere.
fn satp_kept(v: u64) -> u64
    ensures { result ≡ satp_bits v }
{
    (mode_of(v) << MODE_SHIFT) + v % PPN_COUNT
}

/// What satp holds after a write of v.
fn satp_written(old: u64, v: u64) -> u64
    requires { has_mode old ≡ true }
    ensures value { result ≡ satp_after old v }
    ensures mode { has_mode result ≡ true }
{
    match mode_of(v) {
        MODE_BARE => 0,
        MODE_SV39 | MODE_SV48 => satp_kept(v),
        _ => old,
    }
}

impl CsrFile {
    /// The values at a start: all zero but UXL.
    pub fn new() -> CsrFile
        ensures { result ≡ fresh }
    {
        CsrFile {
            sstatus: STATUS_UXL,
            sie: 0,
            stvec: 0,
            scounteren: 0,
            sscratch: 0,
            sepc: 0,
            scause: 0,
            stval: 0,
            satp: 0,
        }
    }

    /// SUM of sstatus: whether supervisor mode may load from and store to pages of user mode.
    pub fn sum(&self) -> bool
        ensures { result ≡ is_set self.now.sstatus SUM_BIT }
    {
        has_bit(self.sstatus, SUM_BIT)
    }

    /// MXR of sstatus: whether pages that may be executed may be loaded from.
    pub fn mxr(&self) -> bool
        ensures { result ≡ is_set self.now.sstatus MXR_BIT }
    {
        has_bit(self.sstatus, MXR_BIT)
    }

    /// What the mode reads in register n at this clock, where the interrupt lines are `lines`.
    pub fn read(&self, n: u16, mode: Mode, clock: u64, lines: u64) -> Result<u64, Illegal>
        ensures { result ≡ csr_read self.now n mode clock lines }
    {
        if !may_name(self, n, mode) {
            return Err(Illegal);
        }
        match n {
            SSTATUS => Ok((self.sstatus & STATUS_KEPT) | STATUS_UXL),
            SIE => Ok(self.sie & INTERRUPTS),
            STVEC => Ok(self.stvec),
            SCOUNTEREN => Ok(self.scounteren & COUNTER_TIME),
            SSCRATCH => Ok(self.sscratch),
            SEPC => Ok(self.sepc),
            SCAUSE => Ok(self.scause),
            STVAL => Ok(self.stval),
            SIP => Ok(lines),
            SATP => Ok(satp_kept(self.satp)),
            TIME => Ok(clock),
            _ => Err(Illegal),
        }
    }

    /// Writes v into register n. Where that is illegal nothing changes, and nothing here at `sip`, whose software bit
    /// is not a register's.
    pub fn write(&mut self, n: u16, mode: Mode, v: u64) -> Result<(), Illegal>
        ensures answer { result ≡ csr_wrote n mode }
        ensures after { self.new ≡ csr_write self.old n mode v }
    {
        if mode == Mode::Vu {
            return Err(Illegal);
        }
        match n {
            SSTATUS => self.sstatus = (v & STATUS_KEPT) | STATUS_UXL,
            SIE => self.sie = v & INTERRUPTS,
            STVEC => self.stvec = v & 0xffff_ffff_ffff_fffd,
            SCOUNTEREN => self.scounteren = v & COUNTER_TIME,
            SSCRATCH => self.sscratch = v,
            SEPC => self.sepc = v & 0xffff_ffff_ffff_fffe,
            SCAUSE => self.scause = v,
            STVAL => self.stval = v,
            SIP => {}
            SATP => self.satp = satp_written(self.satp, v),
            _ => return Err(Illegal),
        }
        Ok(())
    }
}

#[cfg(test)]
mod tests {
    use super::*;

    #[test]
    fn each_register_at_a_start_and_after_a_write_of_all_ones(rt: HostRuntime) {
        for (n, fresh, kept) in [
            (0x100, 0x2_0000_0000, 0x2_000c_0122),
            (0x104, 0, 0x222),
            (0x105, 0, 0xffff_ffff_ffff_fffd),
            (0x106, 0, 2),
            (0x140, 0, u64::MAX),
            (0x141, 0, 0xffff_ffff_ffff_fffe),
            (0x142, 0, u64::MAX),
            (0x143, 0, u64::MAX),
            (0x144, 0x22, 0x22),
            (0x180, 0, 0),
        ] {
            let mut csr = CsrFile::new();
            assert_eq!(rt;
                csr.read(n, Mode::Vs, 7, 0x22),
                Ok(fresh),
                "{n:x} at a start"
            );
            assert_eq!(rt; csr.write(n, Mode::Vs, u64::MAX), Ok(()), "{n:x}");
            assert_eq!(rt;
                csr.read(n, Mode::Vs, 7, 0x22),
                Ok(kept),
                "{n:x} when written"
            );
            assert_eq!(rt;
                csr.read(n, Mode::Vu, 7, 0x22),
                Err(Illegal),
                "{n:x} in user mode"
            );
            assert_eq!(rt;
                csr.write(n, Mode::Vu, 0),
                Err(Illegal),
                "{n:x} in user mode"
            );
            assert_eq!(rt; csr.read(n, Mode::Vs, 7, 0x22), Ok(kept), "{n:x} as it was");
        }
    }

    #[test]
    fn time_is_read_by_leave_and_never_written(rt: HostRuntime) {
        let mut csr = CsrFile::new();
        assert_eq!(rt; csr.read(0xc01, Mode::Vs, 7, 0), Ok(7));
        assert_eq!(rt; csr.read(0xc01, Mode::Vu, 7, 0), Err(Illegal));
        assert_eq!(rt; csr.write(0x106, Mode::Vs, 2), Ok(()));
        assert_eq!(rt; csr.read(0xc01, Mode::Vu, 7, 0), Ok(7));
        assert_eq!(rt; csr.write(0xc01, Mode::Vs, 9), Err(Illegal));
        assert_eq!(rt; csr.read(0xc00, Mode::Vs, 7, 0), Err(Illegal));
        assert_eq!(rt; csr.write(0xc00, Mode::Vs, 9), Err(Illegal));
    }

    #[test]
    fn satp_keeps_bare_sv39_and_sv48_alone(rt: HostRuntime) {
        let mut csr = CsrFile::new();
        for (v, want) in [
            (0x8fff_ffff_ffff_fff5, 0x8000_0fff_ffff_fff5),
            (0xa000_0000_0000_0001, 0x8000_0fff_ffff_fff5),
            (0x9ff0_0000_0000_0001, 0x9000_0000_0000_0001),
            (0x7000_0000_0000_0001, 0x9000_0000_0000_0001),
            (0x8000_0000_0000_0001, 0x8000_0000_0000_0001),
            (0x0000_0000_0000_0007, 0),
            (0xf000_0000_0000_0001, 0),
        ] {
            assert_eq!(rt; csr.write(0x180, Mode::Vs, v), Ok(()), "{v:x}");
            assert_eq!(rt; csr.satp, want, "{v:x}");
        }
    }
}
