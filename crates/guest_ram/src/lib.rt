//! The guest's memory.
//!
//! [`GuestRam`] is a list of bytes from [`fc_numbers::places::RAM_START`] on. The kernel's text stands in it with its
//! original bytes. Beside the bytes there is a stamp for each page, which counts the stores to it.
//!
//! Promised: a load gives the value of its bytes, the lowest byte first; a store changes its own bytes and its
//! page's stamp and nothing else; both answer [`OutsideRam`] exactly for places outside. The kernel's text is never
//! stored to, which is a condition of `store`.
//!
//! It stands on `fc_numbers` alone. The page walk, the instructions and the board stand on it. It never translates an
//! address, and knows of no view: views have pages of their own.
#![tactic(auto)]

ghost use Rattle.std.specs.Prelude.{◌≡◌, ◌≤◌, ◌<◌, ◌+◌, ◌-◌, ◌%◌, ◌^◌, length, replicate, true, false, IfOk, MatchOption};
ghost use Rattle.fc_numbers.specs.declared.machine.Width.TheVariants.{Halfword};
ghost use Rattle.guest_ram.specs.Value.{count_of};
ghost use Rattle.guest_ram.specs.Ram.{is_inside, is_text, frame_of, stamp_of, loaded, stored, store_answer, value, placed, zero_ram, IsLaid, IsLawful, CanStore};

use fc_numbers::machine::Width;
use fc_numbers::memory::NoMemory;
use fc_numbers::places::{Gpa, PAGE, RAM_MOST, RAM_START, Span};
use fc_numbers::spans::{self, Spans};
use std::alloc::Global;
use std::marker::Model;

mod bytes;
#[cfg(test)]
mod tests;

pub use bytes::count;

/// The place is not one of the guest's memory.
#[derive(Debug, Clone, Copy, PartialEq, Eq)]
pub struct OutsideRam;

/// The guest's memory. In contracts it is its bytes, the ranges of the kernel's text, and a stamp for each page.
#[derive(Drop)]
pub struct GuestRam {
    bytes: Vec<u8>,
    text: Spans,
    stamps: Vec<u32>,
}

impl Model for GuestRam {
    ghost use Rattle.guest_ram.specs.Ram.{Ram};

    ghost Value = { Ram };

    ghost use Rattle.guest_ram.specs.Laid.{ram_of, IsWell};

    ghost view = { ram_of };

    ghost invariant = { IsWell };
}

impl GuestRam {
    /// Memory of so many bytes, all zero, with the kernel's text at these places.
    #[tactic(auto, using(crate::proofs::Parts::nothing_stored))]
    pub fn new(alloc: Global, bytes: u64, text: Spans) -> Result<GuestRam, NoMemory>
        requires { IsLawful bytes text.items }
        ensures zeros { IfOk result (λ ram. ram ≡ zero_ram bytes text.items) }
        ensures fresh { IfOk result CanStore }
    {
        let stamps = vec![in alloc; 0u32; (bytes / PAGE) as usize]?;
        let bytes = vec![in alloc; 0u8; bytes as usize]?;
        Ok(GuestRam {
            bytes,
            text,
            stamps,
        })
    }

    /// Puts these bytes down before the guest runs, in text too. No stamp changes: this is no store of the guest.
    #[tactic(auto, using(crate::proofs::Parts::length_overwritten), unfolding(crate::specs::Ram::placed))]
    pub fn place(&mut self, at: Gpa, bytes: &[u8])
        requires low { RAM_START ≤ at }
        requires high { at + length bytes.now ≤ RAM_START + length self.old.bytes }
        ensures after { self.new ≡ placed self.old at bytes.now }
        ensures len { length self.new.bytes ≡ length self.old.bytes }
        ensures text { self.new.text ≡ self.old.text }
        ensures stamps { self.new.stamps ≡ self.old.stamps }
    {
        bytes::overwrite(&mut self.bytes, (at.0 - RAM_START) as usize, bytes);
    }

    /// Puts so many zero bytes down before the guest runs, in text too. No stamp changes.
    #[tactic(auto, using(crate::proofs::Parts::length_overwritten), unfolding(crate::specs::Ram::placed))]
    pub fn place_zeros(&mut self, at: Gpa, count: u64)
        requires low { RAM_START ≤ at }
        requires high { at + count ≤ RAM_START + length self.old.bytes }
        ensures after { self.new ≡ placed self.old at (replicate count 0) }
        ensures len { length self.new.bytes ≡ length self.old.bytes }
        ensures text { self.new.text ≡ self.old.text }
        ensures stamps { self.new.stamps ≡ self.old.stamps }
    {
        bytes::clear(&mut self.bytes, (at.0 - RAM_START) as usize, count as usize);
    }

    /// The ranges of the kernel's text, in order of place.
    pub fn text(&self) -> &[Span]
        ensures value { result.now ≡ self.now.text }
        ensures laid { IsLaid self.now }
    {
        self.text.as_slice()
    }

    /// The places of memory.
    pub fn span(&self) -> Span
        ensures start { result.start ≡ RAM_START }
        ensures end { result.end ≡ RAM_START + length self.now.bytes }
    {
        Span {
            start: Gpa(RAM_START),
            end: Gpa(RAM_START + self.bytes.len() as u64),
        }
    }

    /// The whole memory from [`RAM_START`] on, with the original text in it.
    pub fn bytes(&self) -> &[u8]
        ensures value { result.now ≡ self.now.bytes }
        ensures laid { IsLaid self.now }
    {
        &self.bytes
    }

    /// Whether the place is in the kernel's text.
    pub fn in_text(&self, at: Gpa) -> bool
        ensures { result ≡ is_text self.now at }
    {
        spans::in_text(self.text.as_slice(), at)
    }

    /// Whether the place is one of memory.
    pub fn is_inside(&self, at: Gpa) -> bool
        ensures { result ≡ is_inside self.now at }
    {
        RAM_START <= at.0 && at.0 - RAM_START < self.bytes.len() as u64
    }

    /// How many stores the page has seen.
    pub fn frame_stamp(&self, frame: u32) -> u32
        requires { frame < length self.now.stamps }
        ensures { result ≡ stamp_of self.now frame }
    {
        self.stamps[frame as usize]
    }

    /// The halfword at an even place of memory.
    #[tactic(auto, using(crate::proofs::Room::room))]
    pub fn load_half(&self, at: Gpa) -> u16
        requires inside { is_inside self.now at ≡ true }
        requires even { at % 2 ≡ 0 }
        ensures { result ≡ value self.now at Halfword }
    {
        bytes::half_at(&self.bytes, (at.0 - RAM_START) as usize)
    }

    /// The number at an aligned place; [`OutsideRam`] exactly for a place outside memory.
    #[inline(always)]
    #[tactic(auto, using(crate::proofs::Room::room))]
    pub fn load(&self, at: Gpa, width: Width) -> Result<u64, OutsideRam>
        requires { at % count_of width ≡ 0 }
        ensures { result ≡ loaded self.now at width }
    {
        if !self.is_inside(at) {
            return Err(OutsideRam);
        }
        Ok(bytes::value_of(&self.bytes, (at.0 - RAM_START) as usize, width))
    }

    /// Writes the low bytes of `v` at an aligned place outside text, and raises the stamp of its page by 1.
    /// [`OutsideRam`] exactly for a place outside memory, and then nothing is changed.
    #[tactic(auto, using(crate::proofs::Room::room), unfolding(crate::specs::Ram::with_value))]
    pub fn store(&mut self, at: Gpa, width: Width, v: u64) -> Result<(), OutsideRam>
        requires aligned { at % count_of width ≡ 0 }
        requires free { is_text self.old at ≡ false }
        requires stamp { stamp_of self.old (frame_of at) < 4294967295 }
        ensures answer { result ≡ store_answer self.old at }
        ensures after { self.new ≡ stored self.old at width v }
    {
        if !self.is_inside(at) {
            return Err(OutsideRam);
        }
        let offset = (at.0 - RAM_START) as usize;
        bytes::put(&mut self.bytes, offset, width, v);
        self.stamps[offset / PAGE as usize] += 1;
        Ok(())
    }
}
