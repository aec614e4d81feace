//! Trap entry, return from a trap, and the interrupt that is due.
//!
//! [`enter`], [`sret`] and [`pending`] are total and answer exactly by `specs/Trap.antt`: what a hart does with `sstatus`,
//! `sepc`, `scause`, `stval` and `stvec` at a trap that is delegated to supervisor mode, at SRET, and with the lines of
//! the three supervisor interrupts (privileged RISC-V manual, "Supervisor-Level ISA").
//!
//! Below stand `fc_numbers` and `rv_csr`. The crates that execute instructions and step a board stand above.
#![tactic(auto)]

ghost use Rattle.std.specs.Prelude.{◌≡◌, ℕ, ◌==◌, ◌&&◌, not, false, None, ◌+◌, ◌-◌, ◌*◌, ◌/◌, ◌%◌, ◌^◌, ◌<◌};
ghost use Rattle.trap_unit.specs.Trap.{entered, entered_at, returned, return_mode, due, are_open, trap_status, return_status, vector};

use fc_numbers::machine::Mode;
use fc_numbers::places::Va;
use rv_csr::{CsrFile, SIE_BIT, SPIE_BIT, SPP_BIT, STATUS_SIE, STATUS_SPIE, STATUS_SPP, has_bit};

/// The bit of scause that tells an interrupt.
pub const INTERRUPT: u64 = 0x8000_0000_0000_0000;

/// The code of a supervisor software interrupt, and its bit of the lines.
pub const SOFTWARE: u8 = 1;
/// The code of a supervisor timer interrupt, and its bit of the lines.
pub const TIMER: u8 = 5;
/// The code of a supervisor external interrupt, and its bit of the lines.
pub const EXTERNAL: u8 = 9;

/// All bits but SIE, SPIE and SPP.
const STATUS_OTHERS: u64 = 0xffff_ffff_ffff_fedd;

/// The bit of stvec that asks for a place of its own for each interrupt.
const VECTORED_BIT: u32 = 0;

/// The bits of stvec that are the address: all but the two of its mode.
const STVEC_BASE: u64 = 0xffff_ffff_ffff_fffc;

fn status_in_trap(status: u64, mode: Mode) -> u64
    ensures { result ≡ trap_status status mode }
{
    let spie = if has_bit(status, SIE_BIT) {
        STATUS_SPIE
    } else {
        0
    };
    let spp = match mode {
        Mode::Vs => STATUS_SPP,
        Mode::Vu => 0,
    };
    (status & STATUS_OTHERS) | spie | spp
}

fn status_after(status: u64) -> u64
    ensures { result ≡ return_status status }
{
    let sie = if has_bit(status, SPIE_BIT) {
        STATUS_SIE
    } else {
        0
    };
    (status & STATUS_OTHERS) | sie | STATUS_SPIE
}

fn handler(stvec: u64, cause: u64) -> u64
    ensures { result ≡ vector stvec cause }
{
    let base = stvec & STVEC_BASE;
    if cause >= INTERRUPT && has_bit(stvec, VECTORED_BIT) {
        base.wrapping_add((cause - INTERRUPT).wrapping_mul(4))
    } else {
        base
    }
}

/// Enters a trap of this cause that came at `pc` in this mode. The answer is the address to go on at, in supervisor
/// mode. An interrupt of a code has the cause [`INTERRUPT`] plus the code.
pub fn enter(csr: &mut CsrFile, mode: Mode, cause: u64, tval: u64, pc: Va) -> Va
    ensures after { csr.new ≡ entered csr.old mode cause tval pc }
    ensures place { result ≡ entered_at csr.old cause }
{
    csr.sstatus = status_in_trap(csr.sstatus, mode);
    csr.sepc = pc.0;
    csr.scause = cause;
    csr.stval = tval;
    Va(handler(csr.stvec, cause))
}

/// Returns from a trap, as SRET does. The answer is the mode and the address to go on with.
pub fn sret(csr: &mut CsrFile) -> (Mode, Va)
    ensures after { csr.new ≡ returned csr.old }
    ensures mode { result.0 ≡ return_mode csr.old }
    ensures place { result.1 ≡ csr.old.sepc }
{
    let mode = if has_bit(csr.sstatus, SPP_BIT) {
        Mode::Vs
    } else {
        Mode::Vu
    };
    csr.sstatus = status_after(csr.sstatus);
    (mode, Va(csr.sepc))
}

fn is_open(csr: &CsrFile, mode: Mode) -> bool
    ensures { result ≡ are_open csr.now mode }
{
    match mode {
        Mode::Vu => true,
        Mode::Vs => has_bit(csr.sstatus, SIE_BIT),
    }
}

/// Whether interrupts are taken in this mode and one of them is enabled. Where not, none is due, whatever the lines are.
pub fn may_interrupt(csr: &CsrFile, mode: Mode) -> bool
    ensures answer { result ≡ (are_open csr.now mode && not (csr.now.sie == 0)) }
    ensures none { result ≡ false → (lines : ℕ) → due csr.now mode lines ≡ None }
{
    is_open(csr, mode) && csr.sie != 0
}

/// The code of the interrupt that is due in this mode with these lines, if one is.
pub fn pending(csr: &CsrFile, mode: Mode, lines: u64) -> Option<u8>
    ensures { result ≡ due csr.now mode lines }
{
    if !is_open(csr, mode) {
        return None;
    }
    let asked = lines & csr.sie;
    if has_bit(asked, EXTERNAL as u32) {
        Some(EXTERNAL)
    } else if has_bit(asked, SOFTWARE as u32) {
        Some(SOFTWARE)
    } else if has_bit(asked, TIMER as u32) {
        Some(TIMER)
    } else {
        None
    }
}

#[cfg(test)]
mod tests {
    use super::*;

    #[test]
    fn entry_is_direct_but_for_vectored_interrupts(rt: HostRuntime) {
        for (stvec, cause, want) in [
            (0x8000_1000, 2, 0x8000_1000),
            (0x8000_1000, INTERRUPT + 9, 0x8000_1000),
            (0x8000_1001, 2, 0x8000_1000),
            (0x8000_1001, INTERRUPT + 9, 0x8000_1024),
            (0xffff_ffff_ffff_fffd, INTERRUPT + 5, 0x10),
        ] {
            let mut csr = CsrFile::new();
            csr.stvec = stvec;
            assert_eq!(rt;
                enter(&mut csr, Mode::Vu, cause, 6, Va(8)),
                Va(want),
                "{stvec:x} {cause:x}"
            );
            assert_eq!(rt; (csr.sepc, csr.scause, csr.stval), (8, cause, 6));
        }
    }

    #[test]
    fn status_is_kept_over_a_trap_and_its_return(rt: HostRuntime) {
        for (mode, before, inside, after) in [
            (Mode::Vu, 0x2_000c_0002, 0x2_000c_0020, 0x2_000c_0022),
            (Mode::Vu, 0x2_0000_0120, 0x2_0000_0000, 0x2_0000_0020),
            (Mode::Vs, 0x2_0000_0002, 0x2_0000_0120, 0x2_0000_0022),
            (Mode::Vs, 0x2_0004_0000, 0x2_0004_0100, 0x2_0004_0020),
        ] {
            let mut csr = CsrFile::new();
            csr.sstatus = before;
            let _handler = enter(&mut csr, mode, 8, 0, Va(0x8000_0004));
            assert_eq!(rt; csr.sstatus, inside, "{before:x}");
            assert_eq!(rt; sret(&mut csr), (mode, Va(0x8000_0004)), "{before:x}");
            assert_eq!(rt; csr.sstatus, after, "{before:x}");
        }
    }

    #[test]
    fn interrupts_come_external_first_then_software_then_timer(rt: HostRuntime) {
        let mut csr = CsrFile::new();
        csr.sie = 0x222;
        for (lines, want) in [
            (0x222, Some(9)),
            (0x22, Some(1)),
            (0x20, Some(5)),
            (0xdd, None),
        ] {
            assert_eq!(rt; pending(&csr, Mode::Vu, lines), want, "{lines:x}");
            assert_eq!(rt; pending(&csr, Mode::Vs, lines), None, "{lines:x}");
        }
        csr.sstatus = 2;
        csr.sie = 0x20;
        assert_eq!(rt; pending(&csr, Mode::Vs, 0x222), Some(5));
    }
}
