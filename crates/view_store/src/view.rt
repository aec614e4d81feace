//! One view.

ghost use Rattle.std.specs.Prelude.{◌≡◌, ◌≤◌, ◌<◌, ◌+◌, ◌*◌, ◌↔◌, [], ℕ, false, length, slice_index, slice_index_or, if◌then◌else◌, IfOk, IsTrue};
ghost use Rattle.fc_numbers.specs.Spans.{text_size};
ghost use Rattle.guest_input.specs.Text.{bytes_of};
ghost use Rattle.function_table.specs.Groups.{groups_count};
ghost use Rattle.view_store.specs.Paged.{IsLawfulView, is_present, mask_of, masked, patched, window_of};

use crate::pages::{copy_line, mask, restore_group};
use chain_log::entry::LogEntry;
use fc_numbers::memory::NoMemory;
use fc_numbers::places::{GroupNo, ViewNo};
use fc_numbers::shared::SharedBytes;
use fc_numbers::spans::end_of;
use fc_numbers::window::{LINE, Window};
use function_table::table::Table;
use guest_input::image::Image;
use std::alloc::Global;
use std::marker::Model;

/// What a patch did.
#[derive(Debug, Clone, Copy, PartialEq, Eq)]
pub enum Patched {
    /// The group was absent; it was restored and logged.
    Recovered,
    /// The group was present, and nothing was changed.
    WasPresent,
}

/// One view. In contracts it is its number, the bytes of text and its groups, the base and the log.
#[derive(Drop)]
pub struct View {
    number: ViewNo,
    text: SharedBytes,
    table: Table,
    pages: Vec<u16>,
    base: Vec<bool>,
    present: Vec<bool>,
    log: Vec<LogEntry>,
}

impl Model for View {
    ghost use Rattle.view_store.specs.Paged.{PagedView};
    ghost use Rattle.view_store.specs.PagedIn.{paged_of, IsPaged};

    ghost Value = { PagedView };

    ghost view = { paged_of };

    ghost invariant = { IsPaged };
}

impl View {
    /// View `view` of this image, with an empty log; the base has one truth for each group.
    pub fn build(
        alloc: Global,
        image: &Image,
        table: &Table,
        view: ViewNo,
        base: Vec<bool>,
    ) -> Result<View, NoMemory>
        requires table { text_size table.now.text ≡ length (bytes_of image.now.ranges) }
        requires base { length base.items ≡ groups_count table.now }
        ensures { IfOk result (λ v. v ≡ record { number = view; text = bytes_of image.now.ranges; groups = table.now; base = base.items; log = [] }) }
    {
        let text = image.ranges.share_bytes()?;
        let table = table.share()?;
        let pages = mask(alloc, text.as_slice(), &table, base.as_slice())?;
        let present = Vec::from_slice(alloc, base.as_slice())?;
        let log = Vec::with_capacity(alloc, present.len())?;
        Ok(View {
            number: view,
            text,
            table,
            pages,
            base,
            present,
            log,
        })
    }

    /// The view's number.
    pub fn number(&self) -> ViewNo
        ensures value { result ≡ self.now.number }
        ensures lawful { IsLawfulView self.now }
    {
        self.number
    }

    /// Writes line `line` of the pages as they are into the window, and the halfword behind it: 0 where the line's range of
    /// text ends.
    #[tactic(auto, unfolding(crate::specs::Paged::window_of))]
    pub fn read_line(&self, line: u32, window: &mut Window)
        requires { 64 * line < text_size self.now.groups.text }
        ensures { window.new ≡ window_of self.now line }
    {
        let from = LINE * line as u64;
        let end = end_of(self.table.text(), from);
        copy_line(&self.pages, line, from + LINE < end, window);
    }

    /// The mask, halfword by halfword.
    #[tactic(auto, using(crate::proofs::PageLemmas::mask_same))]
    pub fn pages(&self) -> &[u16]
        ensures value { result.now ≡ mask_of self.now }
        ensures long { 2 * length result.now ≡ length self.now.text }
        ensures each { (n : ℕ) → slice_index result.now n ≡ masked self.now n }
        ensures lawful { IsLawfulView self.now }
    {
        &self.pages
    }

    /// Whether the group is in the base or logged.
    pub fn present(&self, g: GroupNo) -> bool
        requires { g < groups_count self.now.groups }
        ensures { result ≡ is_present self.now.base self.now.log g }
    {
        self.present[g.0 as usize]
    }

    /// The entries of the restored groups, in the order in which they were restored.
    pub fn log(&self) -> &[LogEntry]
        ensures value { result.now ≡ self.now.log }
        ensures lawful { IsLawfulView self.now }
    {
        &self.log
    }

    /// Restores the whole group of the entry and appends the entry, where the group is absent.
    #[tactic(auto, using(crate::proofs::PageLemmas::patched_keeps))]
    pub fn patch(&mut self, entry: LogEntry) -> Patched
        requires view { entry.view ≡ self.old.number }
        requires group { entry.group < groups_count self.old.groups }
        ensures after { self.new ≡ patched self.old entry }
        ensures number { self.new.number ≡ self.old.number }
        ensures groups { self.new.groups ≡ self.old.groups }
        ensures answer { result ≡ (if is_present self.old.base self.old.log entry.group then Patched.WasPresent else Patched.Recovered) }
    {
        let group = entry.group;
        let mark = group.0 as usize;
        if self.present[mark] {
            return Patched::WasPresent;
        }
        restore_group(&mut self.pages, self.text.as_slice(), &self.table, group);
        self.present[mark] = true;
        match self.log.push(entry) {
            Ok(()) => {}
            Err(_) => unreachable!(),
        }
        Patched::Recovered
    }
}
