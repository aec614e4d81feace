//! The mask of a text: the halfwords of some groups, and zeros.

ghost use Rattle.std.specs.Prelude.{◌≡◌, ◌≤◌, ◌<◌, ◌+◌, ◌-◌, ◌*◌, ◌/◌, ◌%◌, ◌^◌, ◌&&◌, ◌==◌, ◌∷◌, ◌++◌, ℕ, true, false, [], drop, take, length, nat_lt, slice_index, slice_index_or, if◌then◌else◌, IfOk};
ghost use Rattle.fc_numbers.specs.Spans.{in_text, offset_in, text_size};
ghost use Rattle.function_table.specs.Groups.{IsGroups, IsRangeOf, group_in, groups_count, half_of, is_between};

use fc_numbers::memory::NoMemory;
use fc_numbers::places::{Gpa, GroupNo, Span};
use fc_numbers::spans::{offset_of, text_size};
use fc_numbers::window::Window;
use function_table::table::Table;
use lane_kernels::keep_or_zero;
use std::alloc::Global;
use std::ops::Range;

/// How many halfwords are masked at a time.
const BLOCK: usize = 256;

/// The mark of a halfword that is kept; a halfword of mark 0 is not.
const KEEP: u16 = 0xffff;

/// The halfwords of a text from number `at` on: as many as there is place for.
fn read_halves(halves: &mut [u16], text: &[u8], at: usize)
    requires { 2 * (at + length halves.old) ≤ length text.now }
    ensures len { length halves.new ≡ length halves.old }
    ensures each { (n : ℕ) → n < length halves.new → slice_index halves.new n ≡ half_of text.now (at + n) }
{
    for n in 0..halves.len() {
        let low = 2 * (at + n);
        halves[n] = text[low] as u16 + 256 * text[low + 1] as u16;
    }
}

/// Writes the original halfwords from number `at` on into the pages where they are marked to be kept, and 0 elsewhere.
fn keep_block(pages: &mut [u16], text: &[u8], marks: &[u16], at: usize)
    requires few { length marks.now ≤ BLOCK }
    requires pages { at + length marks.now ≤ length pages.old }
    requires text { 2 * length pages.old ≡ length text.now }
    ensures len { length pages.new ≡ length pages.old }
    ensures each { (n : ℕ) → slice_index pages.new n
        ≡ (if is_between at (at + length marks.now) n then (if slice_index marks.now (n - at) == 0 then 0 else half_of text.now n) else slice_index pages.old n) }
{
    let end = at + marks.len();
    let mut halves = [0; BLOCK];
    read_halves(&mut halves[..marks.len()], text, at);
    keep_or_zero(&halves[..marks.len()], marks, &mut pages[at..end]);
}

/// Writes the original halfwords into the pages where they are marked to be kept, and 0 elsewhere.
fn keep_all(pages: &mut [u16], text: &[u8], marks: &[u16])
    requires marks { length marks.now ≡ length pages.old }
    requires text { 2 * length pages.old ≡ length text.now }
    ensures len { length pages.new ≡ length pages.old }
    ensures each { (n : ℕ) → slice_index pages.new n ≡ (if slice_index marks.now n == 0 then 0 else half_of text.now n) }
{
    let mut at = 0;
    while at < marks.len() {
        let end = marks.len().min(at + BLOCK);
        keep_block(pages, text, &marks[at..end], at);
        at = end;
    }
}

/// Writes the original halfwords from number `from` up to, and without, `to` into the pages.
fn restore(pages: &mut [u16], text: &[u8], from: usize, to: usize)
    requires from { from ≤ to }
    requires to { to ≤ length pages.old }
    requires text { 2 * length pages.old ≡ length text.now }
    ensures each { (n : ℕ) → slice_index pages.new n
        ≡ (if is_between from to n then half_of text.now n else slice_index pages.old n) }
    ensures len { length pages.new ≡ length pages.old }
{
    let marks = [KEEP; BLOCK];
    let mut at = from;
    while at < to {
        let end = to.min(at + BLOCK);
        keep_block(pages, text, &marks[..end - at], at);
        at = end;
    }
}

/// The number of the halfword at a place of text, counted through all ranges.
fn half_number(text: &[Span], place: Gpa) -> usize
    requires few { text_size text.now < 2 ^ 64 }
    requires text { in_text text.now place ≡ true }
    ensures { result ≡ offset_in text.now place / 2 }
{
    match offset_of(text, place) {
        Some(offset) => (offset / 2) as usize,
        None => unreachable!(),
    }
}

/// How many halfwords a span has.
fn halves_in(span: Span) -> usize
    ensures { result ≡ (span.end - span.start) / 2 }
{
    (span.end.0.saturating_sub(span.start.0) / 2) as usize
}

/// The numbers of the halfwords of group g.
fn halves_of(table: &Table, g: GroupNo) -> Range<usize>
    requires group { g < groups_count table.now }
    ensures order { result.start ≤ result.end }
    ensures within { 2 * result.end ≤ text_size table.now.text }
    ensures each { (n : ℕ) → 2 * n < text_size table.now.text → is_between result.start result.end n ≡ (group_in table.now.starts (2 * n) == g) }
{
    let span = table.range(g);
    let start = half_number(table.text(), span.start);
    let end = start + halves_in(span);
    start..end
}

/// Restores the halfwords of group g.
pub(crate) fn restore_group(pages: &mut Vec<u16>, text: &[u8], table: &Table, g: GroupNo)
    requires group { g < groups_count table.now }
    requires size { text_size table.now.text ≡ length text.now }
    requires long { 2 * length pages.old.items ≡ length text.now }
    ensures each { (n : ℕ) → slice_index pages.new.items n
        ≡ (if group_in table.now.starts (2 * n) == g then half_of text.now n else slice_index pages.old.items n) }
    ensures len { length pages.new.items ≡ length pages.old.items }
{
    let halves = halves_of(table, g);
    restore(pages, text, halves.start, halves.end);
}

/// Marks the halfwords from number `from` up to, and without, `to` as kept.
fn mark(marks: &mut [u16], from: usize, to: usize)
    requires from { from ≤ to }
    requires to { to ≤ length marks.old }
    ensures len { length marks.new ≡ length marks.old }
    ensures each { (n : ℕ) → slice_index marks.new n ≡ (if is_between from to n then KEEP else slice_index marks.old n) }
{
    for n in from..to {
        marks[n] = KEEP;
    }
}

/// Marks the halfwords of the kept groups.
fn mark_kept(marks: &mut [u16], table: &Table, kept: &[bool])
    requires kept { length kept.now ≡ groups_count table.now }
    requires marks { 2 * length marks.old ≡ text_size table.now.text }
    ensures len { length marks.new ≡ length marks.old }
    ensures each { (n : ℕ) → 2 * n < text_size table.now.text → slice_index marks.new n
        ≡ (if slice_index_or kept.now (group_in table.now.starts (2 * n)) false then KEEP else slice_index marks.old n) }
{
    for g in 0..table.groups() {
        if kept[g as usize] {
            let halves = halves_of(table, GroupNo(g));
            mark(marks, halves.start, halves.end);
        }
    }
}

/// One mark for each halfword of text: whether it is of a kept group.
fn marks_of(alloc: Global, table: &Table, kept: &[bool]) -> Result<Vec<u16>, NoMemory>
    requires kept { length kept.now ≡ groups_count table.now }
    ensures len { IfOk result (λ marks. 2 * length marks.items ≡ text_size table.now.text) }
    ensures each { IfOk result (λ marks. (n : ℕ) → 2 * n < text_size table.now.text → slice_index marks.items n
        ≡ (if slice_index_or kept.now (group_in table.now.starts (2 * n)) false then KEEP else 0)) }
{
    let halves = text_size(table.text()) / 2;
    let mut marks = vec![in alloc; 0u16; halves as usize]?;
    mark_kept(&mut marks, table, kept);
    Ok(marks)
}

/// The halfwords of the marked groups, and zeros.
pub(crate) fn mask(
    alloc: Global,
    text: &[u8],
    table: &Table,
    kept: &[bool],
) -> Result<Vec<u16>, NoMemory>
    requires size { text_size table.now.text ≡ length text.now }
    requires marks { length kept.now ≡ groups_count table.now }
    ensures len { IfOk result (λ pages. 2 * length pages.items ≡ length text.now) }
    ensures each { IfOk result (λ pages. (n : ℕ) → slice_index pages.items n
        ≡ (if slice_index_or kept.now (group_in table.now.starts (2 * n)) false then half_of text.now n else 0)) }
{
    let marks = marks_of(alloc, table, kept)?;
    let mut pages = vec![in alloc; 0u16; marks.len()]?;
    keep_all(&mut pages, text, &marks);
    Ok(pages)
}

/// Copies a line of the pages into the window, and the halfword behind it where text goes on there; else 0.
pub(crate) fn copy_line(pages: &[u16], line: u32, goes_on: bool, window: &mut Window)
    requires inside { 32 * line + 32 ≤ length pages.now }
    requires more { goes_on ≡ true → 32 * line + 32 < length pages.now }
    ensures { window.new ≡ record { line = line; halves = take 32 (drop (32 * line) pages.now) ++ (if goes_on then slice_index pages.now (32 * line + 32) else 0) ∷ [] } }
{
    let first = 32 * line as usize;
    let behind = if goes_on { pages[first + 32] } else { 0 };
    window.line = line;
    window.halves = [behind; 33];
    window.halves[..32].copy_from_slice(&pages[first..first + 32]);
}
