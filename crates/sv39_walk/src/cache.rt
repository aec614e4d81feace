//! Answers of walks that are kept.

ghost use Rattle.std.specs.Prelude.{◌≡◌, ◌≤◌, ◌<◌, ◌+◌, ◌-◌, ◌%◌, length, IfSome, IsTrue as Holds};
ghost use Rattle.sv39_walk.specs.Walk.{asked, walked, walked_for, KeepsLow};
ghost use Rattle.sv39_walk.specs.Page.{in_page, page_start};
ghost use Rattle.sv39_walk.specs.Cache.{Fits, FitsOne, IsLive, IsNow, empty_cache};

use crate::reads::{in_slots, reads_of};
use crate::{Asked, Walked, translate};
use fc_numbers::machine::{Access, Mode};
use fc_numbers::places::{Gpa, PAGE, Va};
use guest_ram::GuestRam;
use page_table::{MODE_BARE, mode_of};
use rv_csr::CsrFile;
use std::marker::Model;

/// How many answers a cache keeps.
pub const CACHE_MOST: usize = 64;

/// The most entries that a walk reads.
pub const READS_MOST: usize = 4;

/// A frame in which a walk read an entry, and how many stores it had seen then.
#[derive(Debug, Clone, Copy, PartialEq, Eq, Default)]
pub struct Read {
    pub frame: u32,
    pub stamp: u32,
}

/// An answer that is kept, with all that it was asked. Where fewer entries were read, the last stands again.
#[derive(Clone, Copy)]
pub struct Kept {
    pub satp: u64,
    pub asked: Asked,
    pub answer: Walked,
    pub reads: [Read; READS_MOST],
}

/// Answers of walks of one guest memory, kept with the stamps of the frames that they read. In contracts it is the list
/// of its slots. Each access to an address has one slot, by the number of the page and by the kind of access: what is
/// asked later of the slot takes the place of what was asked earlier.
#[derive(Drop)]
pub struct WalkCache {
    slots: [Option<Kept>; CACHE_MOST],
}

impl Model for WalkCache {
    ghost use Rattle.std.specs.Prelude.{List, Option};
    ghost use Rattle.sv39_walk.specs.declared.cache.Kept.{Kept};

    ghost Value = { List (Option Kept) };

    ghost view = { λ cache. cache.slots };
}

/// The first address of the page of an address.
fn start_of(va: Va) -> Va
    ensures { result ≡ page_start va }
{
    Va(va.0 - va.0 % PAGE)
}

/// The answer for an address of a page, by that for the page's first address.
fn moved(answer: Walked, va: Va) -> Walked
    requires { KeepsLow 0 answer }
    ensures { result ≡ in_page answer (va % 4096) }
{
    match answer {
        Walked::At(place) => Walked::At(Gpa(place.0 + va.0 % PAGE)),
        other => other,
    }
}

/// Whether the frames of a kept answer have seen no store since.
fn is_live(ram: &GuestRam, kept: &Kept) -> bool
    requires { FitsOne ram.now kept.now }
    ensures { Holds result → IsLive ram.now kept.now }
{
    kept.reads
        .iter()
        .all(|read| ram.frame_stamp(read.frame) == read.stamp)
}

/// The slot of an access to an address.
fn slot_of(va: Va, access: Access) -> usize
    ensures { result < CACHE_MOST }
{
    let first = match access {
        Access::Fetch => 0,
        Access::Load => CACHE_MOST as u64 / 3,
        Access::Store => CACHE_MOST as u64 * 2 / 3,
    };
    ((va.0 / PAGE + first) % CACHE_MOST as u64) as usize
}

/// The first frame of memory, which has one at least, and its stamp.
fn first_frame(ram: &GuestRam) -> Read
    ensures { IsNow ram.now result }
{
    let _whole_pages = ram.bytes();
    Read {
        frame: 0,
        stamp: ram.frame_stamp(0),
    }
}

/// What is kept of a translation.
#[cold]
#[inline(never)]
fn kept_of(ram: &GuestRam, satp: u64, asked: Asked) -> Kept
    ensures answer { result.answer ≡ walked ram.now satp asked }
    ensures satp { result.satp ≡ satp }
    ensures asked { result.asked ≡ asked }
    ensures fits { FitsOne ram.now result }
{
    let reads = reads_of(ram, satp, &asked);
    let answer = translate(ram, satp, &asked);
    let reads = in_slots(reads.as_slice(), first_frame(ram));
    Kept {
        satp,
        asked,
        answer,
        reads,
    }
}

impl WalkCache {
    /// A cache that keeps nothing. It fits every memory.
    pub fn new() -> WalkCache
        ensures { result ≡ empty_cache }
    {
        WalkCache {
            slots: [None; CACHE_MOST],
        }
    }

    /// The kept answer of the slot, where it is one of just this and live.
    fn found(&self, ram: &GuestRam, satp: u64, asked: &Asked, slot: usize) -> Option<Walked>
        requires slot { slot < CACHE_MOST }
        requires fits { Fits ram.now self.now }
        ensures { IfSome result (λ answer. answer ≡ walked ram.now satp asked.now) }
    {
        let kept = self.slots[slot].as_ref()?;
        if kept.satp == satp && kept.asked == *asked && is_live(ram, kept) {
            Some(kept.answer)
        } else {
            None
        }
    }

    /// The answer of this translation, kept or read anew; it is kept in the slot from now on.
    fn answer_in(&mut self, ram: &GuestRam, satp: u64, asked: Asked, slot: usize) -> Walked
        requires slot { slot < CACHE_MOST }
        requires fits { Fits ram.now self.old }
        ensures value { result ≡ walked ram.now satp asked }
        ensures fits { Fits ram.now self.new }
    {
        if let Some(answer) = self.found(ram, satp, &asked, slot) {
            return answer;
        }
        let kept = kept_of(ram, satp, asked);
        let answer = kept.answer;
        self.slots[slot] = Some(kept);
        answer
    }

    /// Translates the address for the access, as [`crate::walk`] does, and keeps the answer. It reads table entries only
    /// where no live answer is kept.
    #[inline(never)]
    pub fn cached_walk(
        &mut self,
        ram: &GuestRam,
        satp: u64,
        mode: Mode,
        sum: bool,
        mxr: bool,
        access: Access,
        va: Va,
    ) -> Walked
        requires { Fits ram.now self.old }
        ensures value { result ≡ walked ram.now satp (asked mode sum mxr access va) }
        ensures low { KeepsLow va result }
        ensures fits { Fits ram.now self.new }
    {
        let page = Asked {
            mode,
            sum,
            mxr,
            access,
            va: start_of(va),
        };
        let answer = self.answer_in(ram, satp, page, slot_of(va, access));
        moved(answer, va)
    }

    /// Translates the address for an access of a vCPU with these registers, in this mode, as [`crate::walk_for`] does, and
    /// keeps the answer. Where satp asks for no translation nothing is kept.
    #[inline(always)]
    #[tactic(auto, unfolding(crate::specs::Walk::walked))]
    pub fn cached_for(
        &mut self,
        ram: &GuestRam,
        csr: &CsrFile,
        mode: Mode,
        access: Access,
        va: Va,
    ) -> Walked
        requires { Fits ram.now self.old }
        ensures value { result ≡ walked_for ram.now csr.now mode access va }
        ensures low { KeepsLow va result }
        ensures fits { Fits ram.now self.new }
    {
        if mode_of(csr.satp) == MODE_BARE {
            return Walked::At(Gpa(va.0));
        }
        self.cached_walk(ram, csr.satp, mode, csr.sum(), csr.mxr(), access, va)
    }
}
