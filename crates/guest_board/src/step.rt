//! One step of one vCPU.

ghost use Rattle.std.specs.Prelude.{◌≡◌, ◌+◌, ◌*◌, ◌^◌, ◌<◌, ◌≤◌, ℕ, None, slice_index};
ghost use Rattle.gstage.specs.Stage.{IsFor};
ghost use Rattle.guest_ram.specs.Ram.{Ram, CanStore};
ghost use Rattle.rv_decode.specs.Rows.{decode_of, decode16_of};
ghost use Rattle.rv_step.specs.Site.{Site};
ghost use Rattle.device_feed.specs.Devices.{Devices, lines_of};
ghost use Rattle.sv39_walk.specs.Cache.{Fits, KeepsFits};
ghost use Rattle.trap_unit.specs.Trap.{due};
ghost use Rattle.guest_board.specs.Fetch.{fetched, text_place};
ghost use Rattle.guest_board.specs.declared.step.StepStart.TheVariants.{Fetches as Begun};
ghost use Rattle.guest_board.specs.Made.{Made, ended, ends, in_trap, left_by, nesting_of, plain, settled, told, trapped, vcpu_after};
ghost use Rattle.guest_board.specs.Step.{by_inst, due_at, made_by, place_of, start_by, step_start, word};

use crate::fetch::{Fetched, fetch, place_in_text};
use device_feed::feed::Feed;
use fc_numbers::machine::{End, Mode};
use fc_numbers::places::Gpa;
use gstage::stage::SecondStage;
use guest_ram::GuestRam;
use rv_decode::{Inst, decode16, decode32};
use rv_step::causes::ILLEGAL_INSTRUCTION;
use rv_step::execute::execute;
use rv_step::vcpu::{Effect, Vcpu};
use sv39_walk::cache::WalkCache;
use trap_unit::{INTERRUPT, enter, may_interrupt, pending};

/// What a step does to the depth of traps.
#[derive(Debug, Clone, Copy)]
pub enum Nesting {
    Stays,
    Interrupts,
    Traps,
    Returns,
}

/// What a step leaves besides the machine's parts: the end of the run, the place that was written, and what it does to
/// the depth of traps.
#[derive(Debug, Clone, Copy)]
pub struct StepOutcome {
    pub end: Option<End>,
    pub wrote: Option<Gpa>,
    pub nesting: Nesting,
}

/// What the rest of a step leaves: what becomes of the run, and the byte for the console, if there is one.
#[derive(Debug, Clone, Copy)]
pub(crate) struct CarriedOut {
    pub(crate) left: StepOutcome,
    pub(crate) put: Option<u8>,
}

/// An instruction that was fetched: what its bits say, None where nothing, the bits, and how many bytes they are.
#[derive(Clone, Copy, Drop)]
struct Code {
    inst: Option<Inst>,
    bits: u32,
    len: u8,
}

/// What a step begins with: an interrupt that is due, by its code, or a fetch.
#[derive(Debug, Clone, Copy)]
pub enum StepStart {
    Interrupt(u8),
    Fetches(Fetched),
}

fn left_plain(nesting: Nesting) -> StepOutcome
    ensures { result ≡ plain nesting }
{
    StepOutcome {
        end: None,
        wrote: None,
        nesting,
    }
}

#[cold]
#[inline(never)]
#[tactic(auto, unfolding(crate::specs::Made::in_trap))]
fn trap(v: &mut Vcpu, cause: u64, tval: u64)
    ensures { v.new ≡ in_trap v.old cause tval }
{
    let mode = v.mode;
    let pc = v.pc;
    v.pc = enter(&mut v.csr, mode, cause, tval, pc);
    v.mode = Mode::Vs;
}

#[inline(always)]
fn settle(v: &mut Vcpu, effect: Effect, bits: u32, nesting: Nesting) -> StepOutcome
    ensures vcpu { v.new ≡ vcpu_after effect bits v.old }
    ensures left { result ≡ left_by effect nesting }
{
    match effect {
        Effect::Next => left_plain(nesting),
        Effect::Wrote(place) => StepOutcome {
            end: None,
            wrote: Some(place),
            nesting,
        },
        Effect::Trap { cause, tval } => {
            let value = if cause == ILLEGAL_INSTRUCTION {
                bits as u64
            } else {
                tval
            };
            trap(v, cause, value);
            left_plain(Nesting::Traps)
        }
        Effect::End(end) => StepOutcome {
            end: Some(end),
            wrote: None,
            nesting: Nesting::Stays,
        },
    }
}

#[inline(always)]
#[tactic(auto, unfolding(crate::specs::Made::nesting_of))]
fn nesting_by(inst: &Inst) -> Nesting
    ensures { result ≡ nesting_of inst.now }
{
    match *inst {
        Inst::Sret => Nesting::Returns,
        _ => Nesting::Stays,
    }
}

/// Nothing for the console.
fn quiet(left: StepOutcome) -> CarriedOut
    ensures left { result.left ≡ left }
    ensures put { result.put ≡ None }
{
    CarriedOut { left, put: None }
}

/// What an instruction does, or the trap where the bits are of none.
#[tactic(auto, unfolding(crate::specs::Step::by_inst))]
fn act<S: SecondStage>(
    code: Code,
    v: &mut Vcpu,
    ram: &mut GuestRam,
    cache: &mut WalkCache,
    feed: &mut Feed,
    stage: &S,
    clock: u64,
) -> CarriedOut
    requires stage { IsFor (S.text stage.now) (S.ram stage.now) ram.old }
    requires stamps { CanStore ram.old }
    requires fits { Fits ram.old cache.old }
    ensures fits { Fits ram.new cache.new }
    ensures others { KeepsFits ram.old ram.new }
    ensures made { let got : Made = record { vcpu = v.new; ram = ram.new; devices = feed.new; put = result.put; left = result.left }
        in let s : Site = record { vcpu = v.old; ram = ram.old; devices = feed.old }
        in got ≡ by_inst code.inst code.bits code.len clock s }
{
    match code.inst {
        None => {
            trap(v, ILLEGAL_INSTRUCTION, code.bits as u64);
            quiet(left_plain(Nesting::Traps))
        }
        Some(inst) => {
            let mut put = None;
            let effect = execute(&inst, code.len, v, ram, cache, feed, stage, &mut put, clock);
            let left = settle(v, effect, code.bits, nesting_by(&inst));
            CarriedOut { left, put }
        }
    }
}

/// The rest of a step that begins so.
#[tactic(auto, unfolding(crate::specs::Step::made_by))]
pub(crate) fn carry_out<S: SecondStage>(
    start: StepStart,
    v: &mut Vcpu,
    ram: &mut GuestRam,
    cache: &mut WalkCache,
    feed: &mut Feed,
    stage: &S,
    clock: u64,
) -> CarriedOut
    requires stage { IsFor (S.text stage.now) (S.ram stage.now) ram.old }
    requires stamps { CanStore ram.old }
    requires fits { Fits ram.old cache.old }
    ensures fits { Fits ram.new cache.new }
    ensures others { KeepsFits ram.old ram.new }
    ensures made { let made : Made = record { vcpu = v.new; ram = ram.new; devices = feed.new; put = result.put; left = result.left }
        in let s : Site = record { vcpu = v.old; ram = ram.old; devices = feed.old }
        in made ≡ made_by start clock s }
{
    let code = match start {
        StepStart::Fetches(Fetched::Short { half, .. }) => Code {
            inst: decode16(half),
            bits: half as u32,
            len: 2,
        },
        StepStart::Fetches(Fetched::Long { first, second, .. }) => {
            let bits = first as u32 + 65536 * second as u32;
            Code {
                inst: decode32(bits),
                bits,
                len: 4,
            }
        }
        StepStart::Interrupt(code) => {
            trap(v, INTERRUPT + code as u64, 0);
            return quiet(left_plain(Nesting::Interrupts));
        }
        StepStart::Fetches(Fetched::Faults { cause, tval }) => {
            trap(v, cause, tval);
            return quiet(left_plain(Nesting::Traps));
        }
        StepStart::Fetches(Fetched::Stops(stop)) => {
            return quiet(StepOutcome {
                end: Some(End::Stopped(stop)),
                wrote: None,
                nesting: Nesting::Stays,
            });
        }
    };
    act(code, v, ram, cache, feed, stage, clock)
}

/// The interrupt that is due at this clock, if one is. The lines are asked for only where one may be taken.
#[inline(always)]
fn due_now(v: &Vcpu, feed: &Feed, clock: u64) -> Option<u8>
    ensures { result ≡ due v.now.csr v.now.mode (lines_of feed.now v.now.number clock) }
{
    if may_interrupt(&v.csr, v.mode) {
        pending(&v.csr, v.mode, feed.lines(v.number, clock))
    } else {
        None
    }
}

/// What the vCPU's next step begins with.
#[tactic(auto, unfolding(crate::specs::Step::step_start))]
pub(crate) fn begin<S: SecondStage>(
    v: &Vcpu,
    ram: &GuestRam,
    cache: &mut WalkCache,
    feed: &Feed,
    stage: &S,
    clock: u64,
) -> StepStart
    requires stage { IsFor (S.text stage.now) (S.ram stage.now) ram.now }
    requires fits { Fits ram.now cache.old }
    ensures value { let s : Site = record { vcpu = v.now; ram = ram.now; devices = feed.now } in result ≡ step_start s clock }
    ensures fits { Fits ram.now cache.new }
{
    match due_now(v, feed, clock) {
        Some(code) => StepStart::Interrupt(code),
        None => StepStart::Fetches(fetch(v, ram, cache, stage)),
    }
}

/// The place in text that a step fetches which begins so.
pub(crate) fn place_fetched(start: &StepStart) -> Option<Gpa>
    ensures { result ≡ place_of start.now }
{
    match start {
        StepStart::Interrupt(_) => None,
        StepStart::Fetches(got) => place_in_text(got),
    }
}
