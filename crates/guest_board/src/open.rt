//! The parts of a board before the first step.

ghost use Rattle.std.specs.Prelude.{◌≡◌, ◌+◌, ◌≤◌, All, IfOk, Some, None, length};
ghost use Rattle.guest_input.specs.Accepted.{IsImage, IsSetupFor, PartsEndBy};
ghost use Rattle.guest_input.specs.TextIn.{cut};
ghost use Rattle.guest_ram.specs.Ram.{Ram, placed};
ghost use Rattle.sv39_walk.specs.Cache.{Fits, empty_cache};
ghost use Rattle.fc_numbers.specs.Spans.{text_size};
ghost use Rattle.fc_numbers.specs.declared.places.TheConstants.{RAM_MOST, RAM_START};
ghost use Rattle.guest_board.specs.First.{first_slot, first_slots, first_vcpu, first_ram, with_parts, text_parts};
ghost use Rattle.guest_board.specs.OpenFacts.{LieBelow};

use crate::slot::Slot;
use fc_numbers::machine::Mode;
use fc_numbers::memory::NoMemory;
use fc_numbers::name::Name;
use fc_numbers::places::{Gpa, Span, Va, VcpuNo};
use fc_numbers::regs::Regs;
use guest_input::image::{Image, PartBytes};
use guest_input::setup::Setup;
use guest_ram::GuestRam;
use rv_csr::CsrFile;
use rv_step::vcpu::Vcpu;
use std::alloc::Global;
use sv39_walk::cache::WalkCache;
use sv39_walk::laws::new_caches_fit;

fn start_vcpu(entry: u64, i: u8) -> Vcpu
    ensures { result ≡ first_vcpu entry i }
{
    let mut regs = Regs::new();
    regs.set(10, i as u64);
    Vcpu {
        regs,
        pc: Va(entry),
        mode: Mode::Vs,
        csr: CsrFile::new(),
        reserved: None,
        number: VcpuNo(i),
    }
}

fn again(name: &Option<Name>) -> Option<Name>
    ensures { result ≡ name.now }
{
    match name {
        None => None,
        Some(name) => Name::of(name.bytes()),
    }
}

fn start_slot(entry: u64, name: &Option<Name>, i: u8) -> Slot
    ensures { result ≡ first_slot entry name.now i }
{
    Slot {
        vcpu: start_vcpu(entry, i),
        made: 0,
        name: again(name),
        depth: 0,
    }
}

/// The vCPUs at the entry, each with the first app name.
#[tactic(auto, unfolding(crate::specs::First::first_slots))]
pub(crate) fn start_slots(
    alloc: Global,
    entry: u64,
    name: &Option<Name>,
    count: u8,
) -> Result<Vec<Slot>, NoMemory>
    ensures { IfOk result (λ slots. slots.items ≡ first_slots entry name.now count) }
{
    let mut slots = Vec::new(alloc);
    for i in 0..count {
        slots.push(start_slot(entry, name, i))?;
    }
    Ok(slots)
}

/// For each vCPU a cache that keeps nothing.
pub(crate) fn new_caches(alloc: Global, count: u8) -> Result<Vec<WalkCache>, NoMemory>
    ensures many { IfOk result (λ caches. length caches.items ≡ count) }
    ensures fit { IfOk result (λ caches. (ram : Ram) → All (Fits ram) caches.items) }
{
    new_caches_fit();
    let mut caches = Vec::new(alloc);
    for _ in 0..count {
        caches.push(WalkCache::new())?;
    }
    Ok(caches)
}

/// Places the ranges of text, whose bytes stand one after another.
#[tactic(auto, using(crate::proofs::Parts::placed_size))]
fn place_ranges(ram: &mut GuestRam, spans: &[Span], bytes: &[u8])
    requires sizes { text_size spans.now ≡ length bytes.now }
    requires inside { LieBelow (RAM_START + length ram.old.bytes) spans.now }
    ensures after { ram.new ≡ with_parts ram.old (text_parts (cut spans.now bytes.now)) }
    ensures size { length ram.new.bytes ≡ length ram.old.bytes }
{
    match spans {
        [] => {}
        [span, rest @ ..] => {
            let (here, behind) = bytes.split_at((span.end.0 - span.start.0) as usize);
            ram.place(span.start, here);
            place_ranges(ram, rest, behind);
        }
    }
}

/// Places the bytes of a data part.
fn place_part(ram: &mut GuestRam, at: Gpa, bytes: &PartBytes)
    requires low { RAM_START ≤ at }
    requires high { at + length bytes.now ≤ RAM_START + length ram.old.bytes }
    requires most { at + length bytes.now ≤ RAM_START + RAM_MOST }
    ensures after { ram.new ≡ placed ram.old at bytes.now }
    ensures size { length ram.new.bytes ≡ length ram.old.bytes }
{
    let written = bytes.written();
    let count = written.len() as u64;
    ram.place(at, written);
    ram.place_zeros(Gpa(at.0 + count), bytes.len() - count);
}

/// Places the data parts of an image, one after another.
fn place_parts(ram: &mut GuestRam, image: &Image)
    requires image { IsImage image.now }
    requires ends { PartsEndBy (RAM_START + length ram.old.bytes) image.now.parts }
    ensures { ram.new ≡ with_parts ram.old image.now.parts }
{
    for part in image.parts.as_slice() {
        place_part(ram, Gpa(part.0), &part.1);
    }
}

/// The memory: zeros, the text, and then the data parts.
#[tactic(auto, unfolding(crate::specs::First::first_ram))]
pub(crate) fn start_ram(alloc: Global, image: &Image, setup: &Setup) -> Result<GuestRam, NoMemory>
    requires image { IsImage image.now }
    requires setup { IsSetupFor image.now setup.now }
    ensures { IfOk result (λ ram. ram ≡ first_ram image.now setup.now.ram) }
{
    let mut ram = GuestRam::new(alloc, setup.ram, image.ranges.copy_spans())?;
    place_ranges(&mut ram, image.ranges.spans(), image.ranges.bytes());
    place_parts(&mut ram, image);
    Ok(ram)
}
