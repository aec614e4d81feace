//! Control registers, supervisor calls, SRET and SFENCE.VMA.

ghost use Rattle.std.specs.Prelude.{◌≡◌, ◌<◌, ◌≤◌, ◌+◌, ◌-◌, ◌%◌, ◌^◌, None, Some};
ghost use Rattle.guest_ram.specs.Ram.{Ram};
ghost use Rattle.device_feed.specs.Devices.{lines_of, with_soft};
ghost use Rattle.device_feed.specs.Calls.{Called, called};
ghost use Rattle.rv_step.specs.Site.{OnVcpu, OnDevices, Outcome, Site, wrote, moved_to, after, source_value};
ghost use Rattle.rv_step.specs.Classes.{did_csr, did_call, did_return, did_fence, changed, fed, csr_value, called_by, is_writing, is_zero, illegal_effect};

use crate::causes::{ILLEGAL_INSTRUCTION, USER_CALL};
use crate::vcpu::{Effect, Vcpu, following, source_value, write_back};
use device_feed::feed::Feed;
use device_feed::sbi::Sbi;
use fc_numbers::machine::{End, Mode};
use fc_numbers::places::{Va, VcpuNo};
use rv_csr::{Illegal, SIP, has_bit};
use rv_kinds::{CsrAccess, CsrOp, Source};
use trap_unit::sret;

/// What an illegal instruction comes to. Its bits are not known here.
fn illegal() -> Effect
    ensures { result ≡ illegal_effect }
{
    Effect::Trap {
        cause: ILLEGAL_INSTRUCTION,
        tval: 0,
    }
}

fn is_zero(source: Source) -> bool
    ensures { result ≡ is_zero source }
{
    match source {
        Source::Register(n) => n == 0,
        Source::Number(imm) => imm.cast_unsigned() == 0,
    }
}

/// Whether an access with this source writes: reading alone is setting or clearing by source 0.
fn is_writing(op: CsrOp, source: Source) -> bool
    ensures { result ≡ is_writing op source }
{
    match op {
        CsrOp::Write => true,
        CsrOp::Set | CsrOp::Clear => !is_zero(source),
    }
}

fn change(op: CsrOp, old: u64, x: u64) -> u64
    ensures { result ≡ changed op old x }
{
    match op {
        CsrOp::Write => x,
        CsrOp::Set => old | x,
        CsrOp::Clear => old & (u64::MAX - x),
    }
}

/// A write of `sip` sets or clears the software bit.
fn feed_soft(feed: &mut Feed, number: VcpuNo, csr: u16, value: u64)
    ensures { feed.new ≡ fed feed.old number csr value }
{
    if csr == SIP {
        feed.set_soft(number, has_bit(value, 1));
    }
}

/// An access to a control register.
#[inline(always)]
#[tactic(auto, unfolding(crate::specs::Classes::did_csr))]
pub(crate) fn do_csr(
    vcpu: &mut Vcpu,
    feed: &mut Feed,
    len: u8,
    inst: CsrAccess,
    clock: u64,
) -> Effect
    ensures { let made : OnDevices = record { vcpu = vcpu.new; devices = feed.new; effect = result } in made ≡ did_csr vcpu.old feed.old len inst clock }
{
    let number = vcpu.number;
    let lines = feed.lines(number, clock);
    let Ok(old) = vcpu.csr.read(inst.csr, vcpu.mode, clock, lines) else {
        return illegal();
    };
    if !is_writing(inst.op, inst.source) {
        write_back(vcpu, len, inst.rd, old);
        return Effect::Next;
    }
    let value = change(inst.op, old, source_value(vcpu, inst.source));
    match vcpu.csr.write(inst.csr, vcpu.mode, value) {
        Err(Illegal) => illegal(),
        Ok(()) => {
            write_back(vcpu, len, inst.rd, old);
            feed_soft(feed, number, inst.csr, value);
            Effect::Next
        }
    }
}

/// A call of supervisor mode, which the devices answer.
#[inline(always)]
fn supervisor_call(
    vcpu: &mut Vcpu,
    feed: &mut Feed,
    len: u8,
    clock: u64,
    put: &mut Option<u8>,
) -> Effect
    requires { put.old ≡ None }
    ensures { (ram : Ram) → (let made : Outcome = record { vcpu = vcpu.new; ram = ram; devices = feed.new; put = put.new; effect = result } in let s : Site = record { vcpu = vcpu.old; ram = ram; devices = feed.old }
        in made ≡ called_by s len (called feed.old vcpu.old.regs vcpu.old.number clock)) }
{
    let number = vcpu.number;
    let to = following(vcpu, len);
    match feed.sbi(&mut vcpu.regs, number, clock) {
        Sbi::Done => {
            vcpu.pc = Va(to);
            Effect::Next
        }
        Sbi::Put(byte) => {
            *put = Some(byte);
            vcpu.pc = Va(to);
            Effect::Next
        }
        Sbi::Shutdown => Effect::End(End::Shutdown),
    }
}

/// ECALL.
#[inline(always)]
#[tactic(auto, unfolding(crate::specs::Classes::did_call))]
pub(crate) fn do_call(
    vcpu: &mut Vcpu,
    feed: &mut Feed,
    len: u8,
    clock: u64,
    put: &mut Option<u8>,
) -> Effect
    requires { put.old ≡ None }
    ensures { (ram : Ram) → (let made : Outcome = record { vcpu = vcpu.new; ram = ram; devices = feed.new; put = put.new; effect = result } in let s : Site = record { vcpu = vcpu.old; ram = ram; devices = feed.old }
        in made ≡ did_call s len clock) }
{
    match vcpu.mode {
        Mode::Vu => Effect::Trap {
            cause: USER_CALL,
            tval: 0,
        },
        Mode::Vs => supervisor_call(vcpu, feed, len, clock, put),
    }
}

/// SRET.
#[tactic(auto, unfolding(crate::specs::Classes::did_return))]
pub(crate) fn do_return(vcpu: &mut Vcpu) -> Effect
    ensures { let made : OnVcpu = record { vcpu = vcpu.new; effect = result } in made ≡ did_return vcpu.old }
{
    match vcpu.mode {
        Mode::Vu => illegal(),
        Mode::Vs => {
            let (mode, pc) = sret(&mut vcpu.csr);
            vcpu.mode = mode;
            vcpu.pc = pc;
            Effect::Next
        }
    }
}

/// SFENCE.VMA.
#[tactic(auto, unfolding(crate::specs::Classes::did_fence))]
pub(crate) fn do_fence(vcpu: &mut Vcpu, len: u8) -> Effect
    ensures { let made : OnVcpu = record { vcpu = vcpu.new; effect = result } in made ≡ did_fence vcpu.old len }
{
    match vcpu.mode {
        Mode::Vu => illegal(),
        Mode::Vs => {
            let to = following(vcpu, len);
            vcpu.pc = Va(to);
            Effect::Next
        }
    }
}
