//! Translation of a guest's addresses by its page tables.
//!
//! [`walk`] is the translation that satp asks for: none, or Sv39 with three levels of tables in the guest's memory, or
//! Sv48 with four.
//!
//! Promised: the answer of a walk is that of the sequence of entries that the privileged manual reads, at most three
//! or four, each in the table that the one before names, up to a leaf or to the first entry that faults or stands in the
//! kernel's text. The walk never writes: it sets no accessed or dirty bit, and asks for them instead.
//!
//! It stands on `guest_ram`, whose memory it reads. The fetch, the instructions, the hook and the chain of a recovery
//! translate by it. A walk that keeps answers belongs beside [`walk`], with the same clauses.
#![tactic(auto)]

ghost use Rattle.std.specs.Prelude.{◌≡◌, ◌≤◌, ◌<◌, ◌+◌, ◌*◌, ◌/◌, ◌^◌, ◌%◌, IfSome, Result, Ok, Err};
ghost use Rattle.page_table.specs.declared.TheConstants.{LEVELS_MOST};
ghost use Rattle.page_table.specs.Level.{index_at, page_size};
ghost use Rattle.page_table.specs.Mode.{is_canonical};
ghost use Rattle.sv39_walk.specs.Walk.{asked, entry_read, walk_from, walked, walked_for, place_for, IsTranslation, KeepsLow};

use entry::is_fault;
use fc_numbers::machine::{Access, Mode, Width};
use fc_numbers::places::{Gpa, PAGE, Va};
use guest_ram::GuestRam;
use page_table::{
    LEVELS_MOST, MODE_BARE, PPN_COUNT, PTE_SIZE, is_leaf, levels_of, mode_of, page_number,
};
use rv_csr::CsrFile;

pub mod cache;
mod entry;
pub mod laws;
mod reads;
#[cfg(test)]
mod tests;

/// What a translation is asked for.
#[derive(Debug, Clone, Copy, PartialEq, Eq)]
pub struct Asked {
    pub mode: Mode,
    /// SUM of sstatus: supervisor mode may load from and store to user pages.
    pub sum: bool,
    /// MXR of sstatus: loads may read pages that may only be run.
    pub mxr: bool,
    pub access: Access,
    pub va: Va,
}

/// The answer of a translation.
#[derive(Debug, Clone, Copy, PartialEq, Eq)]
pub enum Walked {
    /// The address is at this place.
    At(Gpa),
    /// The tables do not map the address for this access.
    PageFault,
    /// A table entry is outside memory.
    AccessFault,
    /// A table entry is in the kernel's text.
    TableInText,
}

/// The entry at this place, or the answer of a walk that cannot read it.
pub(crate) fn read_entry(ram: &GuestRam, at: Gpa) -> Result<u64, Walked>
    requires { at % 8 ≡ 0 }
    ensures { result ≡ entry_read ram.now at }
{
    if ram.in_text(at) && ram.is_inside(at) {
        return Err(Walked::TableInText);
    }
    ram.load(at, Width::Doubleword)
        .map_err(|_| Walked::AccessFault)
}

/// The number of the entry for the address in a table of the level.
pub(crate) fn index(va: Va, level: u64) -> u64
    requires { level < LEVELS_MOST }
    ensures value { result ≡ index_at level va }
    ensures low { result < 512 }
{
    page_table::index(va.0, level)
}

/// The offset of the address in the page that a leaf of the level maps.
fn within_page(va: Va, level: u64) -> u64
    requires { level < LEVELS_MOST }
    ensures value { result ≡ va % page_size level }
    ensures within { result % 4096 ≡ va % 4096 }
    ensures low { result < 2 ^ 39 }
{
    page_table::within_page(va.0, level)
}

/// The walk over so many levels, from the table at this place on.
#[tactic(auto, unfolding(crate::specs::Walk::walk_from))]
fn descend(ram: &GuestRam, q: &Asked, levels: u64, table: u64) -> Walked
    requires some { 0 < levels }
    requires most { levels ≤ LEVELS_MOST }
    requires low { table < 2 ^ 56 }
    requires page { table % 4096 ≡ 0 }
    ensures value { result ≡ walk_from ram.now q.now levels table }
    ensures low { KeepsLow q.now.va result }
{
    let level = levels - 1;
    let pte = match read_entry(ram, Gpa(table + PTE_SIZE * index(q.va, level))) {
        Ok(pte) => pte,
        Err(answer) => return answer,
    };
    if is_fault(q, level, pte) {
        return Walked::PageFault;
    }
    if is_leaf(pte) {
        return Walked::At(Gpa(page_number(pte) * PAGE + within_page(q.va, level)));
    }
    descend(ram, q, level, page_number(pte) * PAGE)
}

/// Whether tables of so many levels map the address.
pub(crate) fn is_canonical(levels: u64, va: Va) -> bool
    requires some { 3 ≤ levels }
    requires most { levels ≤ LEVELS_MOST }
    ensures { result ≡ is_canonical levels va }
{
    page_table::is_canonical(levels, va.0)
}

#[tactic(auto, unfolding(crate::specs::Walk::walked))]
pub(crate) fn translate(ram: &GuestRam, satp: u64, q: &Asked) -> Walked
    ensures value { result ≡ walked ram.now satp q.now }
    ensures low { KeepsLow q.now.va result }
{
    if mode_of(satp) == MODE_BARE {
        return Walked::At(Gpa(q.va.0));
    }
    let levels = levels_of(satp);
    if !is_canonical(levels, q.va) {
        return Walked::PageFault;
    }
    descend(ram, q, levels, (satp % PPN_COUNT) * PAGE)
}

/// Translates the address for the access, by satp and by SUM and MXR of sstatus. It reads table entries and writes
/// nothing. A satp that a guest wrote has the MODE 0 (Bare), 8 (Sv39) or 9 (Sv48); any other is walked as Sv39.
pub fn walk(
    ram: &GuestRam,
    satp: u64,
    mode: Mode,
    sum: bool,
    mxr: bool,
    access: Access,
    va: Va,
) -> Walked
    ensures translation { IsTranslation ram.now satp (asked mode sum mxr access va) result }
    ensures value { result ≡ walked ram.now satp (asked mode sum mxr access va) }
    ensures low { KeepsLow va result }
{
    let q = Asked {
        mode,
        sum,
        mxr,
        access,
        va,
    };
    translate(ram, satp, &q)
}

/// Translates the address for an access of a vCPU with these registers, in this mode: by its satp, and by SUM and MXR
/// of its sstatus.
pub fn walk_for(ram: &GuestRam, csr: &CsrFile, mode: Mode, access: Access, va: Va) -> Walked
    ensures value { result ≡ walked_for ram.now csr.now mode access va }
    ensures low { KeepsLow va result }
{
    walk(ram, csr.satp, mode, csr.sum(), csr.mxr(), access, va)
}

/// The place that [`walk_for`] finds, if there is one.
#[tactic(auto, unfolding(crate::specs::Walk::place_for))]
pub fn place_for(ram: &GuestRam, csr: &CsrFile, mode: Mode, access: Access, va: Va) -> Option<Gpa>
    ensures value { result ≡ place_for ram.now csr.now mode access va }
    ensures low { IfSome result (λ place. place % 4096 ≡ va % 4096) }
{
    match walk_for(ram, csr, mode, access, va) {
        Walked::At(place) => Some(place),
        Walked::PageFault | Walked::AccessFault | Walked::TableInText => None,
    }
}
