//! Loads, stores and atomic operations.

ghost use Rattle.std.specs.Prelude.{◌≡◌, ◌<◌, ◌≤◌, ◌+◌, ◌-◌, ◌*◌, ◌%◌, ◌^◌, true, false, None, Some, nat_lt, if◌then◌else◌};
ghost use Rattle.fc_numbers.specs.Numbers.{sext_of, sext_from};
ghost use Rattle.gstage.specs.Stage.{IsFor};
ghost use Rattle.guest_ram.specs.Value.{count_of};
ghost use Rattle.guest_ram.specs.Ram.{is_inside, is_text, value, with_value, CanStore, frame_of, stamp_of};
ghost use Rattle.rv_alu.specs.Alu.{amo_of};
ghost use Rattle.sv39_walk.specs.Cache.{Fits, KeepsFits};
ghost use Rattle.rv_step.specs.Reach.{reached, IsReached};
ghost use Rattle.rv_step.specs.Site.{OnVcpu, OnMemory, wrote, moved_to, after};
ghost use Rattle.rv_step.specs.Classes.{did_load, did_store, did_amo, did_reserve, did_conditional, extended, load_from, store_to, amo_at, reserve_at, conditional_at, doubleword_of, is_reserved};

use crate::reach::reach;
use crate::vcpu::{Effect, Vcpu, address, following, register, write_back};
use fc_numbers::machine::{Access, Width};
use fc_numbers::places::{Gpa, Va};
use gstage::stage::SecondStage;
use guest_ram::GuestRam;
use rv_alu::amo;
use rv_kinds::{Amo, Load, LoadReserved, Sign, Store, StoreConditional};
use sv39_walk::cache::WalkCache;
use sv39_walk::laws::stores_keep_fits;

/// A number of fewer bits than 64, of which there are `size`, sign-extended.
fn extend_low(size: u64, sign: u64, low: u64) -> u64
    requires order { sign < size }
    requires low { low < size }
    requires size { size ≤ 2 ^ 32 }
    ensures { result ≡ (if nat_lt low sign then low else low + (2 ^ 64 - size)) }
{
    if low < sign {
        low
    } else {
        low + (0xffff_ffff_ffff_ffff - size + 1)
    }
}

fn extend(width: Width, sign: Sign, x: u64) -> u64
    ensures { result ≡ extended width sign x }
{
    if sign == Sign::Unsigned {
        return x;
    }
    match width {
        Width::Byte => extend_low(0x100, 0x80, x % 0x100),
        Width::Halfword => extend_low(0x1_0000, 0x8000, x % 0x1_0000),
        Width::Word => extend_low(0x1_0000_0000, 0x8000_0000, x % 0x1_0000_0000),
        Width::Doubleword => x,
    }
}

/// The number at a place of memory.
fn number_at(ram: &GuestRam, place: Gpa, width: Width) -> u64
    requires inside { is_inside ram.now place ≡ true }
    requires aligned { place % count_of width ≡ 0 }
    ensures { result ≡ value ram.now place width }
{
    let Ok(number) = ram.load(place, width) else {
        unreachable!()
    };
    number
}

/// Stores at a place of memory outside text. Every cache that fitted the memory fits it afterwards.
fn put_at(ram: &mut GuestRam, place: Gpa, width: Width, x: u64)
    requires inside { is_inside ram.old place ≡ true }
    requires aligned { place % count_of width ≡ 0 }
    requires free { is_text ram.old place ≡ false }
    requires stamp { CanStore ram.old }
    ensures after { ram.new ≡ with_value ram.old place width x }
    ensures fits { KeepsFits ram.old ram.new }
{
    // The call says that the memory is laid out with its text in it.
    let _laid = ram.text();
    stores_keep_fits();
    let Ok(()) = ram.store(place, width, x) else {
        unreachable!()
    };
}

/// A load.
#[tactic(auto, unfolding(crate::specs::Classes::did_load))]
pub(crate) fn do_load<S: SecondStage>(
    vcpu: &mut Vcpu,
    ram: &GuestRam,
    cache: &mut WalkCache,
    stage: &S,
    len: u8,
    inst: Load,
) -> Effect
    requires stage { IsFor (S.text stage.now) (S.ram stage.now) ram.now }
    requires fits { Fits ram.now cache.old }
    ensures made { let made : OnVcpu = record { vcpu = vcpu.new; effect = result } in made ≡ did_load vcpu.old ram.now len inst }
    ensures fits { Fits ram.now cache.new }
{
    let at = address(vcpu, inst.rs1, inst.imm);
    match reach(vcpu, ram, cache, stage, Access::Load, inst.width, at) {
        Ok(place) => {
            let x = number_at(ram, place, inst.width);
            write_back(vcpu, len, inst.rd, extend(inst.width, inst.sign, x));
            Effect::Next
        }
        Err(effect) => effect,
    }
}

/// A store.
#[tactic(auto, unfolding(crate::specs::Classes::did_store))]
pub(crate) fn do_store<S: SecondStage>(
    vcpu: &mut Vcpu,
    ram: &mut GuestRam,
    cache: &mut WalkCache,
    stage: &S,
    len: u8,
    inst: Store,
) -> Effect
    requires stage { IsFor (S.text stage.now) (S.ram stage.now) ram.old }
    requires stamp { CanStore ram.old }
    requires fits { Fits ram.old cache.old }
    ensures made { let made : OnMemory = record { vcpu = vcpu.new; ram = ram.new; effect = result } in made ≡ did_store vcpu.old ram.old len inst }
    ensures fits { Fits ram.new cache.new }
    ensures others { KeepsFits ram.old ram.new }
{
    let at = address(vcpu, inst.rs1, inst.imm);
    match reach(vcpu, ram, cache, stage, Access::Store, inst.width, at) {
        Ok(place) => {
            put_at(ram, place, inst.width, register(vcpu, inst.rs2));
            let to = following(vcpu, len);
            vcpu.pc = Va(to);
            Effect::Wrote(place)
        }
        Err(effect) => effect,
    }
}

/// An atomic operation on memory.
#[tactic(auto, unfolding(crate::specs::Classes::did_amo))]
pub(crate) fn do_amo<S: SecondStage>(
    vcpu: &mut Vcpu,
    ram: &mut GuestRam,
    cache: &mut WalkCache,
    stage: &S,
    len: u8,
    inst: Amo,
) -> Effect
    requires stage { IsFor (S.text stage.now) (S.ram stage.now) ram.old }
    requires stamp { CanStore ram.old }
    requires fits { Fits ram.old cache.old }
    ensures made { let made : OnMemory = record { vcpu = vcpu.new; ram = ram.new; effect = result } in made ≡ did_amo vcpu.old ram.old len inst }
    ensures fits { Fits ram.new cache.new }
    ensures others { KeepsFits ram.old ram.new }
{
    let at = register(vcpu, inst.rs1);
    match reach(vcpu, ram, cache, stage, Access::Store, inst.width, at) {
        Ok(place) => {
            let old = number_at(ram, place, inst.width);
            let new = amo(inst.op, inst.width, old, register(vcpu, inst.rs2));
            put_at(ram, place, inst.width, new);
            write_back(vcpu, len, inst.rd, extend(inst.width, Sign::Signed, old));
            Effect::Wrote(place)
        }
        Err(effect) => effect,
    }
}

/// The aligned 8 bytes that a place is in.
fn doubleword(place: Gpa) -> Gpa
    ensures { result ≡ doubleword_of place }
{
    Gpa(place.0 - place.0 % 8)
}

fn is_reserved(reserved: Option<Gpa>, place: Gpa) -> bool
    ensures { result ≡ is_reserved reserved place }
{
    match reserved {
        None => false,
        Some(at) => at.0 == doubleword(place).0,
    }
}

/// LR.
#[tactic(auto, unfolding(crate::specs::Classes::did_reserve))]
pub(crate) fn do_reserve<S: SecondStage>(
    vcpu: &mut Vcpu,
    ram: &GuestRam,
    cache: &mut WalkCache,
    stage: &S,
    len: u8,
    inst: LoadReserved,
) -> Effect
    requires stage { IsFor (S.text stage.now) (S.ram stage.now) ram.now }
    requires fits { Fits ram.now cache.old }
    ensures made { let made : OnVcpu = record { vcpu = vcpu.new; effect = result } in made ≡ did_reserve vcpu.old ram.now len inst }
    ensures fits { Fits ram.now cache.new }
{
    let at = register(vcpu, inst.rs1);
    match reach(vcpu, ram, cache, stage, Access::Load, inst.width, at) {
        Ok(place) => {
            let x = number_at(ram, place, inst.width);
            write_back(vcpu, len, inst.rd, extend(inst.width, Sign::Signed, x));
            vcpu.reserved = Some(doubleword(place));
            Effect::Next
        }
        Err(effect) => effect,
    }
}

/// SC.
#[tactic(auto, unfolding(crate::specs::Classes::did_conditional))]
pub(crate) fn do_conditional<S: SecondStage>(
    vcpu: &mut Vcpu,
    ram: &mut GuestRam,
    cache: &mut WalkCache,
    stage: &S,
    len: u8,
    inst: StoreConditional,
) -> Effect
    requires stage { IsFor (S.text stage.now) (S.ram stage.now) ram.old }
    requires stamp { CanStore ram.old }
    requires fits { Fits ram.old cache.old }
    ensures made { let made : OnMemory = record { vcpu = vcpu.new; ram = ram.new; effect = result } in made ≡ did_conditional vcpu.old ram.old len inst }
    ensures fits { Fits ram.new cache.new }
    ensures others { KeepsFits ram.old ram.new }
{
    let at = register(vcpu, inst.rs1);
    match reach(vcpu, ram, cache, stage, Access::Store, inst.width, at) {
        Ok(place) => {
            if is_reserved(vcpu.reserved, place) {
                put_at(ram, place, inst.width, register(vcpu, inst.rs2));
                write_back(vcpu, len, inst.rd, 0);
                vcpu.reserved = None;
                Effect::Wrote(place)
            } else {
                write_back(vcpu, len, inst.rd, 1);
                vcpu.reserved = None;
                Effect::Next
            }
        }
        Err(effect) => effect,
    }
}
