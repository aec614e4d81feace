//! The frames in which a walk reads entries.

ghost use Rattle.std.specs.Prelude.{◌≡◌, ◌≤◌, ◌<◌, ◌+◌, ◌%◌, ◌^◌, ◌++◌, ◌∷◌, [], true, All, Contains, length, map};
ghost use Rattle.arrayvec.specs.ArrayVec.{array_vec_len};
ghost use Rattle.guest_ram.specs.Ram.{frame_of, is_inside};
ghost use Rattle.page_table.specs.declared.TheConstants.{LEVELS_MOST};
ghost use Rattle.sv39_walk.specs.declared.cache.TheConstants.{READS_MOST};
ghost use Rattle.sv39_walk.specs.Cache.{IsNow};
ghost use Rattle.sv39_walk.specs.ReadFacts.{frames_from, frames_read};

use crate::cache::{READS_MOST, Read};
use crate::entry::is_fault;
use crate::{Asked, index, is_canonical, read_entry};
use arrayvec::ArrayVec;
use fc_numbers::places::{Gpa, PAGE, RAM_START};
use guest_ram::GuestRam;
use page_table::{
    LEVELS_MOST, MODE_BARE, PPN_COUNT, PTE_SIZE, is_leaf, levels_of, mode_of, page_number,
};

/// The frames that a walk read, in order.
pub(crate) type Reads = ArrayVec<Read, READS_MOST>;

/// The frame of a place of memory, and its stamp.
fn read_at(ram: &GuestRam, at: Gpa) -> Read
    requires { is_inside ram.now at ≡ true }
    ensures frame { result.frame ≡ frame_of at }
    ensures now { IsNow ram.now result }
{
    let _whole_memory = ram.bytes();
    let frame = ((at.0 - RAM_START) / PAGE) as u32;
    Read {
        frame,
        stamp: ram.frame_stamp(frame),
    }
}

/// Adds the frames that a walk over so many levels reads, from the table at this place on.
#[tactic(auto, unfolding(crate::specs::ReadFacts::frames_from))]
fn add_frames(ram: &GuestRam, q: &Asked, levels: u64, table: u64, reads: &mut Reads)
    requires some { 0 < levels }
    requires most { levels ≤ LEVELS_MOST }
    requires low { table < 2 ^ 56 }
    requires page { table % 4096 ≡ 0 }
    requires room { array_vec_len reads.old + levels ≤ READS_MOST }
    requires now { All (IsNow ram.now) reads.old.items }
    ensures frames { map (λ r. r.frame) reads.new.items ≡ map (λ r. r.frame) reads.old.items ++ frames_from ram.now q.now levels table }
    ensures now { All (IsNow ram.now) reads.new.items }
{
    let level = levels - 1;
    let at = Gpa(table + PTE_SIZE * index(q.va, level));
    let pte = match read_entry(ram, at) {
        Ok(pte) => pte,
        Err(_) => return,
    };
    reads.push(read_at(ram, at));
    if is_fault(q, level, pte) || is_leaf(pte) {
        return;
    }
    add_frames(ram, q, level, page_number(pte) * PAGE, reads);
}

/// The frames that the translation of an address reads.
pub(crate) fn reads_of(ram: &GuestRam, satp: u64, q: &Asked) -> Reads
    ensures frames { map (λ r. r.frame) result.items ≡ frames_read ram.now satp q.now }
    ensures now { All (IsNow ram.now) result.items }
{
    let mut reads = Reads::new();
    let levels = levels_of(satp);
    if mode_of(satp) != MODE_BARE && is_canonical(levels, q.va) {
        add_frames(ram, q, levels, (satp % PPN_COUNT) * PAGE, &mut reads);
    }
    reads
}

/// These reads in as many slots as there are; the other slots have the spare one.
pub(crate) fn in_slots(reads: &[Read], spare: Read) -> [Read; READS_MOST]
    requires few { length reads.now ≤ READS_MOST }
    ensures found { All (Contains result) reads.now }
    ensures each { All (Contains (spare ∷ reads.now)) result }
{
    let mut slots = [spare; READS_MOST];
    slots[..reads.len()].copy_from_slice(reads);
    slots
}
