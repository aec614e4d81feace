//! Instructions on values worked out by hand, over memory of two pages of which the first is kernel text.

ghost use Rattle.std.specs.Prelude.{◌≡◌, [], ◌∷◌};

use crate::execute::execute;
use crate::vcpu::{Effect, Vcpu};
use device_feed::feed::Feed;
use fc_numbers::machine::{Access, End, GKind, Mode, Stop, Width};
use fc_numbers::memory::NoMemory;
use fc_numbers::places::{Gpa, PAGE, RAM_START, Span, Va, VcpuNo};
use fc_numbers::regs::Regs;
use fc_numbers::spans::Spans;
use gstage::stage::Flat;
use guest_input::setup::Setup;
use guest_ram::GuestRam;
use rv_csr::CsrFile;
use rv_decode::Inst;
use sqlite_items::Items;
use std::alloc::Global;
use std::test::Fail;
use sv39_walk::cache::WalkCache;

const TEXT: u64 = RAM_START;

const DATA: u64 = RAM_START + PAGE;

const PC: u64 = RAM_START + 0x100;

/// Both pages begin with these eight bytes.
const OLD: u64 = 0x1122_3344_ffff_fffe;

/// A vCPU in this mode, with this address in x5 and this number in x6.
fn vcpu(mode: Mode, x5: u64, x6: u64) -> Vcpu {
    let mut regs = Regs::new();
    regs.set(5, x5);
    regs.set(6, x6);
    Vcpu {
        regs,
        pc: Va(PC),
        mode,
        csr: CsrFile::new(),
        reserved: None,
        number: VcpuNo(0),
    }
}

/// The text: the first page.
fn first_page() -> Spans
    ensures { result.items ≡ record { start = TEXT; end = DATA } ∷ [] }
{
    let mut text = Spans::new();
    text.push(Span {
        start: Gpa(TEXT),
        end: Gpa(DATA),
    });
    text
}

/// What the instruction comes to, the first eight bytes of the second page after it, and the byte for the console.
fn executed(
    alloc: Global,
    inst: &Inst,
    vcpu: &mut Vcpu,
) -> Result<(Effect, u64, Option<u8>), NoMemory> {
    let mut ram = GuestRam::new(alloc, 2 * PAGE, first_page())?;
    ram.place(Gpa(TEXT), &OLD.to_le_bytes());
    ram.place(Gpa(DATA), &OLD.to_le_bytes());
    let setup = Setup {
        vcpus: 1,
        ram: 2 * PAGE,
        steps: 1,
        hook: None,
        name_at: 0,
        start: None,
        events: Items::new(alloc),
        gstage: GKind::Sv39x4,
    };
    let mut feed = Feed::open(alloc, &setup)?;
    let stage = Flat {
        text: first_page(),
        ram: ram.span(),
    };
    let mut put = None;
    let mut cache = WalkCache::new();
    let effect = execute(
        inst, 4, vcpu, &mut ram, &mut cache, &mut feed, &stage, &mut put, 7,
    );
    let after = ram.load(Gpa(DATA), Width::Doubleword).unwrap_or(0);
    Ok((effect, after, put))
}

fn next() -> Effect {
    Effect::Next
}

fn trap(cause: u64, tval: u64) -> Effect {
    Effect::Trap { cause, tval }
}

fn stop(stop: Stop) -> Effect {
    Effect::End(End::Stopped(stop))
}

fn wrote(place: u64) -> Effect {
    Effect::Wrote(Gpa(place))
}

#[test]
fn each_access_by_mode_and_address(rt: HostRuntime) -> Result<(), Fail> {
    for (access, mode, at, want) in [
        (Access::Load, Mode::Vs, DATA, next()),
        (Access::Load, Mode::Vu, TEXT, next()),
        (Access::Load, Mode::Vs, DATA + 4, trap(4, DATA + 4)),
        (Access::Load, Mode::Vs, DATA + PAGE, trap(5, DATA + PAGE)),
        (Access::Store, Mode::Vs, DATA, wrote(DATA)),
        (Access::Store, Mode::Vs, TEXT, stop(Stop::StoreToText)),
        (Access::Store, Mode::Vs, DATA + 4, trap(6, DATA + 4)),
        (Access::Store, Mode::Vs, 0, trap(7, 0)),
        (Access::Fetch, Mode::Vs, TEXT, stop(Stop::StoreToText)),
    ] {
        let inst = match access {
            Access::Load => Inst::Ld {
                rd: 7,
                rs1: 5,
                imm: 0,
            },
            Access::Store => Inst::Sd {
                rs1: 5,
                rs2: 6,
                imm: 0,
            },
            Access::Fetch => Inst::ScD {
                rd: 7,
                rs1: 5,
                rs2: 6,
            },
        };
        let mut vcpu = vcpu(mode, at, 1);
        let (effect, _, put) = executed(rt.alloc(), &inst, &mut vcpu)?;
        assert_eq!(rt; effect, want, "{access:?} {at:x}");
        assert_eq!(rt; put, None);
    }
    Ok(())
}

#[test]
fn each_instruction_of_the_system_by_mode(rt: HostRuntime) -> Result<(), Fail> {
    for (inst, mode, want) in [
        (Inst::Ebreak, Mode::Vs, trap(3, PC)),
        (Inst::Ecall, Mode::Vu, trap(8, 0)),
        (Inst::Ecall, Mode::Vs, next()),
        (Inst::Sret, Mode::Vu, trap(2, 0)),
        (Inst::Sret, Mode::Vs, next()),
        (Inst::SfenceVma { rs1: 0, rs2: 0 }, Mode::Vu, trap(2, 0)),
        (Inst::SfenceVma { rs1: 0, rs2: 0 }, Mode::Vs, next()),
        (Inst::Wfi, Mode::Vu, next()),
        (
            Inst::Csrrs {
                rd: 7,
                rs1: 0,
                csr: 0xc01,
            },
            Mode::Vs,
            next(),
        ),
        (
            Inst::Csrrs {
                rd: 7,
                rs1: 5,
                csr: 0xc01,
            },
            Mode::Vs,
            trap(2, 0),
        ),
        (
            Inst::Csrrwi {
                rd: 7,
                imm: 1,
                csr: 0x140,
            },
            Mode::Vu,
            trap(2, 0),
        ),
    ] {
        let mut vcpu = vcpu(mode, 0, 0);
        let (effect, _, _) = executed(rt.alloc(), &inst, &mut vcpu)?;
        assert_eq!(rt; effect, want, "{mode:?}");
    }
    Ok(())
}

#[test]
fn atomic_operation_returns_the_old_value(rt: HostRuntime) -> Result<(), Fail> {
    for (inst, x7, memory) in [
        (
            Inst::AmoaddW {
                rd: 7,
                rs1: 5,
                rs2: 6,
            },
            0xffff_ffff_ffff_fffe,
            0x1122_3344_0000_0001,
        ),
        (
            Inst::AmoswapD {
                rd: 7,
                rs1: 5,
                rs2: 6,
            },
            OLD,
            3,
        ),
        (
            Inst::ScW {
                rd: 7,
                rs1: 5,
                rs2: 6,
            },
            1,
            OLD,
        ),
        (Inst::LrW { rd: 7, rs1: 5 }, 0xffff_ffff_ffff_fffe, OLD),
    ] {
        let mut vcpu = vcpu(Mode::Vs, DATA, 3);
        let (_, after, _) = executed(rt.alloc(), &inst, &mut vcpu)?;
        assert_eq!(rt; vcpu.regs.get(7), x7);
        assert_eq!(rt; after, memory);
        assert_eq!(rt; vcpu.pc, Va(PC + 4));
    }
    Ok(())
}

#[test]
fn store_conditional_stores_once_where_its_word_is_reserved(rt: HostRuntime) -> Result<(), Fail> {
    let inst = Inst::ScW {
        rd: 7,
        rs1: 5,
        rs2: 6,
    };
    for (reserved, x7, memory) in [
        (None, 1, OLD),
        (Some(Gpa(DATA)), 0, 0x0000_0003_ffff_fffe),
        (Some(Gpa(DATA + 8)), 1, OLD),
    ] {
        let mut vcpu = vcpu(Mode::Vs, DATA + 4, 3);
        vcpu.reserved = reserved;
        let (_, after, _) = executed(rt.alloc(), &inst, &mut vcpu)?;
        assert_eq!(rt; vcpu.regs.get(7), x7, "{reserved:?}");
        assert_eq!(rt; after, memory, "{reserved:?}");
        assert_eq!(rt; vcpu.reserved, None, "{reserved:?}");
    }
    Ok(())
}

#[test]
fn supervisor_call_puts_a_byte_or_ends_the_run(rt: HostRuntime) -> Result<(), Fail> {
    for (number, want, byte, pc) in [
        (1, next(), Some(0x41), PC + 4),
        (8, Effect::End(End::Shutdown), None, PC),
    ] {
        let mut vcpu = vcpu(Mode::Vs, 0, 0);
        vcpu.regs.set(17, number);
        vcpu.regs.set(10, 0x141);
        let (effect, _, put) = executed(rt.alloc(), &Inst::Ecall, &mut vcpu)?;
        assert_eq!(rt; effect, want);
        assert_eq!(rt; put, byte);
        assert_eq!(rt; vcpu.pc, Va(pc));
    }
    Ok(())
}
