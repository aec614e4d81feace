//! The second-stage table of a view.

ghost use Rattle.std.specs.Prelude.{◌≡◌, ℕ, ◌+◌, ◌*◌, ◌<◌, ◌≤◌, IfOk, List, length};
ghost use Rattle.fc_numbers.specs.declared.places.Span.{Span};
ghost use Rattle.gstage.specs.Stage.{placed_among};
ghost use Rattle.gstage.specs.Walk.{walked_leaf};
ghost use Rattle.gstage.specs.Map.{AreSpans, mapped, allows, frame_of_page, found, looked_up};
ghost use Rattle.gstage.specs.Layout.{page_entry, pointer_to, lower_value, entry_value, placed_by, IsBuiltOf};
ghost use Rattle.gstage.specs.Table.{Table, pages_of};

use crate::stage::{Placed, SecondStage};
use crate::walk::{Leaf, walk};
use fc_numbers::machine::{Access, GKind};
use fc_numbers::memory::NoMemory;
use fc_numbers::places::{Gpa, PAGE, RAM_MOST, RAM_START, Span, ViewNo};
use fc_numbers::spans::{Spans, offset_of};
use page_table::{PTE_W, has_bit};
use std::alloc::Global;
use std::marker::Model;

/// The entries of a page of the list, which is a table below the root.
pub const TABLE: usize = 512;

/// The pages of the root, which has four times as many entries (16 KiB).
pub const ROOT_PAGES: usize = 4;

/// The entries of the root.
pub const ROOT: usize = 2048;

/// The tables of level 0, enough for the largest RAM.
pub const LEAF_TABLES: usize = 32;

/// The number of the GiB that RAM is in.
pub const RAM_GIB: usize = 2;

/// The host page of text page 0 of view 0: the first that is no page of RAM.
pub const TEXT_PAGES: u64 = 16_384;

/// The host pages of a view's text.
pub const VIEW_PAGES: u64 = 1024;

/// What a page number is counted in within an entry: it begins at bit 10.
pub const PTE_PPN: u64 = 0x400;

/// V: a pointer to a table.
pub const POINTER: u64 = 0x01;

/// V, X, U and A: a page that may be executed alone.
pub const TEXT_LEAF: u64 = 0x59;

/// V, R, W, X, U, A and D: a page that is free.
pub const RAM_LEAF: u64 = 0xdf;

/// A host page: a page of RAM, or a page of the text of a view.
#[derive(Debug, Clone, Copy, PartialEq, Eq)]
pub enum Frame {
    Ram(u32),
    Text(ViewNo, u32),
}

/// What a look-up answers.
#[derive(Debug, Clone, Copy, PartialEq, Eq)]
pub enum G {
    /// The access goes to this host page.
    Frame(Frame),
    /// The page may be executed alone, and the access is a load or a store.
    ExecOnly,
    /// The place is outside RAM.
    Unmapped,
}

/// The table of one view for one text and one RAM.
#[derive(Drop)]
pub struct GTable {
    kind: GKind,
    /// The pages of the list before the tables of level 0.
    above: usize,
    entries: Vec<u64>,
    text: Spans,
    ram: Span,
    view: ViewNo,
}

impl Model for GTable {
    ghost use Rattle.gstage.specs.Table.{Table};

    ghost Value = { Table };

    ghost use Rattle.gstage.specs.Built.{table_inside, IsBuilt};

    ghost view = { table_inside };

    ghost invariant = { IsBuilt };
}

/// An entry that points to the table at this page of the list.
fn pointer_to(page: usize) -> u64
    requires { page < 64 }
    ensures { result ≡ pointer_to page }
{
    page as u64 * PTE_PPN + POINTER
}

/// The entry of the n-th page from the start of RAM on.
#[tactic(auto, using(crate::proofs::Pages::few_pages), unfolding(crate::specs::Layout::page_entry))]
fn page_entry(text: &[Span], ram: &Span, view: u8, n: u64) -> u64
    requires spans { AreSpans text.now ram.now }
    requires few { n < 16384 }
    ensures { result ≡ page_entry text.now ram.now view n }
{
    let at = Gpa(RAM_START + PAGE * n);
    match offset_of(text, at) {
        Some(offset) => {
            let page = TEXT_PAGES + VIEW_PAGES * view as u64 + offset / PAGE;
            page * PTE_PPN + TEXT_LEAF
        }
        None => {
            if ram.contains(at) {
                n * PTE_PPN + RAM_LEAF
            } else {
                0
            }
        }
    }
}

/// Entry k from the table of level 1 on, which is this page of the list.
#[tactic(auto, unfolding(crate::specs::Layout::lower_value))]
fn lower_value(text: &[Span], ram: &Span, view: u8, page: usize, k: usize) -> u64
    requires spans { AreSpans text.now ram.now }
    requires page { page ≤ 5 }
    requires few { k < 16896 }
    ensures { result ≡ lower_value text.now ram.now view page k }
{
    if k < LEAF_TABLES {
        pointer_to(page + 1 + k)
    } else if k < TABLE {
        0
    } else {
        page_entry(text, ram, view, (k - TABLE) as u64)
    }
}

/// Entry i of the table of this kind.
#[tactic(auto, unfolding(crate::specs::Layout::entry_value))]
fn entry_value(kind: GKind, text: &[Span], ram: &Span, view: u8, i: usize) -> u64
    requires spans { AreSpans text.now ram.now }
    requires few { i < TABLE * pages_of kind }
    ensures { result ≡ entry_value kind text.now ram.now view i }
{
    match kind {
        GKind::Sv39x4 => {
            if i < ROOT {
                if i == RAM_GIB {
                    pointer_to(ROOT_PAGES)
                } else {
                    0
                }
            } else {
                lower_value(text, ram, view, ROOT_PAGES, i - ROOT)
            }
        }
        GKind::Sv48x4 => {
            if i < ROOT {
                if i == 0 { pointer_to(ROOT_PAGES) } else { 0 }
            } else if i < ROOT + TABLE {
                if i == ROOT + RAM_GIB {
                    pointer_to(ROOT_PAGES + 1)
                } else {
                    0
                }
            } else {
                lower_value(text, ram, view, ROOT_PAGES + 1, i - (ROOT + TABLE))
            }
        }
    }
}

/// The pages of the list before the tables of level 0.
fn pages_above(kind: GKind) -> usize
    ensures value { result + LEAF_TABLES ≡ pages_of kind }
    ensures most { result ≤ 6 }
{
    match kind {
        GKind::Sv39x4 => ROOT_PAGES + 1,
        GKind::Sv48x4 => ROOT_PAGES + 2,
    }
}

/// All entries of the table, in order.
fn entries_of(
    alloc: Global,
    kind: GKind,
    text: &[Span],
    ram: &Span,
    view: u8,
) -> Result<Vec<u64>, NoMemory>
    requires { AreSpans text.now ram.now }
    ensures size { IfOk result (λ entries. length entries.items ≡ TABLE * pages_of kind) }
    ensures laid { IfOk result (λ entries. IsBuiltOf kind text.now ram.now view entries.items) }
{
    let count = TABLE * (pages_above(kind) + LEAF_TABLES);
    let mut entries = Vec::with_capacity(alloc, count)?;
    for i in 0..count {
        entries.push(entry_value(kind, text, ram, view, i))?;
    }
    Ok(entries)
}

/// Where the places of a page lie, by its entry of level 0.
fn placed_by(entry: u64) -> Placed
    ensures { result ≡ placed_by entry }
{
    if entry == 0 {
        Placed::Outside
    } else if has_bit(entry, PTE_W) {
        Placed::Ram
    } else {
        Placed::Text
    }
}

/// The host page of a page number.
fn frame_of(page: u64) -> Frame
    requires { page < 278528 }
    ensures { result ≡ frame_of_page page }
{
    if page < TEXT_PAGES {
        Frame::Ram(page as u32)
    } else {
        let page = page - TEXT_PAGES;
        Frame::Text(
            ViewNo((page / VIEW_PAGES) as u8),
            (page % VIEW_PAGES) as u32,
        )
    }
}

/// Whether the access is allowed at a leaf. Every access is one of user level.
fn allows(leaf: Leaf, access: Access) -> bool
    ensures { result ≡ allows leaf access }
{
    match access {
        Access::Fetch => leaf.user && leaf.execute,
        Access::Load => leaf.user && leaf.read,
        Access::Store => leaf.user && leaf.write,
    }
}

impl GTable {
    /// The table of this kind and this view for this text and this RAM.
    pub fn build(
        alloc: Global,
        text: Spans,
        ram: Span,
        view: ViewNo,
        kind: GKind,
    ) -> Result<GTable, NoMemory>
        requires { AreSpans text.items ram }
        ensures kind { IfOk result (λ table. table.kind ≡ kind) }
        ensures text { IfOk result (λ table. table.text ≡ text.items) }
        ensures ram { IfOk result (λ table. table.ram ≡ ram) }
        ensures view { IfOk result (λ table. table.view ≡ view) }
        ensures size { IfOk result (λ table. length table.entries ≡ TABLE * pages_of kind) }
        ensures maps { IfOk result (λ table. (at : ℕ) → walked_leaf kind table.entries at ≡ mapped text.items ram view at) }
    {
        let entries = entries_of(alloc, kind, text.as_slice(), &ram, view.0)?;
        Ok(GTable {
            kind,
            above: pages_above(kind),
            entries,
            text,
            ram,
            view,
        })
    }

    /// Where an access to the place goes, by the walk of the table.
    #[tactic(auto, using(crate::proofs::Pages::mapped_page, crate::proofs::Pages::found_mapped, crate::proofs::Pages::looked_leaf))]
    pub fn lookup(&self, at: Gpa, access: Access) -> G
        ensures walk { result ≡ found (walked_leaf self.now.kind self.now.entries at) access }
        ensures map { result ≡ looked_up self.now.text self.now.ram self.now.view at access }
    {
        match walk(self.kind, &self.entries, at.0) {
            Some(leaf) => {
                if allows(leaf, access) {
                    G::Frame(frame_of(leaf.page))
                } else {
                    G::ExecOnly
                }
            }
            None => G::Unmapped,
        }
    }
}

impl SecondStage for GTable {
    ghost text = { λ (t : Table). t.text };

    ghost ram = { λ (t : Table). t.ram };

    /// By the entry of level 0, which stands at the number of its page: this is on the way of every access.
    fn place(&self, at: Gpa, access: Access) -> Placed {
        let first = TABLE * self.above;
        // A place before RAM comes out far behind it.
        let offset = at.0.wrapping_sub(RAM_START);
        if offset >= RAM_MOST {
            return Placed::Outside;
        }
        placed_by(self.entries[first + (offset / PAGE) as usize])
    }
}
