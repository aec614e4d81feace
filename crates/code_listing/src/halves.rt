//! The halfwords of a group.

ghost use Rattle.std.specs.Prelude.{◌≡◌, ◌≤◌, ◌<◌, ◌+◌, ◌*◌, ◌/◌, ◌^◌, true, length};
ghost use Rattle.fc_numbers.specs.Spans as spans;
ghost use Rattle.fc_numbers.specs.Spans.{offset_in, size_of, text_size};
ghost use Rattle.function_table.specs.Groups.{groups_count, range_of};
ghost use Rattle.view_store.specs.Paged.{mask_of};
ghost use Rattle.code_listing.specs.Listing.{halves_at};

use fc_numbers::laws::{offsets_are_below, offsets_rise};
use fc_numbers::places::{Gpa, GroupNo, Span};
use fc_numbers::spans::offset_of;
use function_table::table::Table;
use std::ops::Range;
use view_store::view::View;

/// The number of the halfword at a place of text, counted through all ranges.
fn half_number(text: &[Span], place: Gpa) -> usize
    requires few { text_size text.now < 2 ^ 64 }
    requires text { spans.in_text text.now place ≡ true }
    ensures { result ≡ offset_in text.now place / 2 }
{
    match offset_of(text, place) {
        Some(offset) => (offset / 2) as usize,
        None => unreachable!(),
    }
}

/// How many halfwords a span has.
fn halves_in(span: Span) -> usize
    ensures { result ≡ size_of span / 2 }
{
    (span.end.0.saturating_sub(span.start.0) / 2) as usize
}

/// The numbers of the halfwords of a group, counted through all ranges of text.
fn halves_of(table: &Table, g: GroupNo) -> Range<usize>
    requires group { g < groups_count table.now }
    ensures start { result.start ≡ offset_in table.now.text (range_of table.now g).start / 2 }
    ensures end { result.end ≡ result.start + size_of (range_of table.now g) / 2 }
    ensures within { 2 * result.end ≤ text_size table.now.text }
    ensures few { result.end < 2 ^ 32 }
{
    offsets_rise();
    offsets_are_below();
    let range = table.range(g);
    let start = half_number(table.text(), range.start);
    let end = start + halves_in(range);
    start..end
}

/// How many halfwords a group has.
pub(crate) fn group_size(table: &Table, g: GroupNo) -> usize
    requires group { g < groups_count table.now }
    ensures value { result ≡ size_of (range_of table.now g) / 2 }
    ensures few { result < 2 ^ 32 }
{
    let halves = halves_of(table, g);
    halves.end - halves.start
}

/// The halfwords that a view has of a group.
pub(crate) fn group_halves<'a>(view: &'a View, table: &Table, g: GroupNo) -> &'a [u16]
    requires groups { view.now.groups ≡ table.now }
    requires group { g < groups_count table.now }
    ensures value { result.now ≡ halves_at (mask_of view.now) table.now g }
    ensures long { length result.now ≡ size_of (range_of table.now g) / 2 }
    ensures few { size_of (range_of table.now g) / 2 < 2 ^ 32 }
{
    let halves = halves_of(table, g);
    &view.pages()[halves.start..halves.end]
}

/// The place of a group's first halfword.
pub(crate) fn first_place(table: &Table, g: GroupNo) -> Gpa
    requires group { g < groups_count table.now }
    ensures value { result ≡ (range_of table.now g).start }
    ensures room { result + size_of (range_of table.now g) < 2 ^ 64 }
{
    table.range(g).start
}
