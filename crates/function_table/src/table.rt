//! The table of functions and groups.

ghost use Rattle.std.specs.Prelude.{All, [], ◌∷◌, Some, None, ◌≡◌, ◌≤◌, ◌<◌, ◌+◌, ◌^◌, ◌==◌, if◌then◌else◌, length, filter, slice_index, slice_index_or, IfOk, IfSome};
ghost use Rattle.std.specs.Arc.{arc_slice_items};
ghost use Rattle.std.specs.List.{list_any};
ghost use Rattle.std.specs.List.Sorted.{IsNonDecreasingBy};
ghost use Rattle.fc_numbers.specs.declared.places.TheConstants.{RAM_START, RAM_MOST};
ghost use Rattle.fc_numbers.specs.Spans.{IsTextBelow, offset_in, size_of, text_size};
ghost use Rattle.guest_input.specs.Text.{IsStartIn, flat_of, no_span};
ghost use Rattle.guest_input.specs.Accepted.{IsAscendingFrom, IsImage, offsets_of, starts_of};
ghost use Rattle.function_table.specs.Groups.{Groups, IsGroups, IsRangeOf, function_at, group_at, group_in, groups_count, groups_of, has_start, in_groups_text, is_closed, is_function, range_of};

use crate::halves::is_closed_start;
use fc_numbers::memory::NoMemory;
use fc_numbers::places::{Gpa, GroupNo, Span};
use fc_numbers::spans::{Spans, offset_of, place_of, text_size};
use guest_input::image::{Function, Image, Start};
use guest_input::ranges::copy_of;
use std::alloc::Global;
use std::marker::Model;
use std::sync::ArcSlice;

/// The functions and groups of one image's text. In contracts it is the ranges of text, the offsets of all functions
/// and the offsets at which the groups after the first begin. Owners share one copy of the numbers.
#[derive(Drop)]
pub struct Table {
    text: Spans,
    functions: ArcSlice<u32>,
    starts: ArcSlice<u32>,
}

impl Model for Table {
    ghost use Rattle.function_table.specs.Groups.{Groups};
    ghost use Rattle.function_table.specs.TableIn.{groups_in, IsGroupTable};

    ghost Value = { Groups };

    ghost view = { groups_in };

    ghost invariant = { IsGroupTable };
}

/// How many bytes the range of this number has; 0 where there is none.
fn size_at(text: &[Span], range: usize) -> u64
    ensures { result ≡ size_of (slice_index_or text.now range no_span) }
{
    match text.get(range) {
        Some(span) => span.end.0.saturating_sub(span.start.0),
        None => 0,
    }
}

/// The offset in text of a start; None where it is in no range.
fn flat_in(text: &[Span], at: Start) -> Option<u32>
    requires { IsTextBelow (RAM_START + RAM_MOST) text.now }
    ensures { result ≡ (if has_start text.now at then Some (flat_of text.now at) else None) }
{
    let range = at.range as usize;
    if range >= text.len() || at.offset as u64 >= size_at(text, range) {
        return None;
    }
    Some(text_size(&text[..range]) as u32 + at.offset)
}

/// The offsets of these functions in text.
fn offsets(alloc: Global, text: &[Span], functions: &[Function]) -> Result<ArcSlice<u32>, NoMemory>
    requires text { IsTextBelow (RAM_START + RAM_MOST) text.now }
    requires inside { All (IsStartIn text.now) (starts_of functions.now) }
    ensures { IfOk result (λ offsets. arc_slice_items offsets ≡ offsets_of text.now (starts_of functions.now)) }
{
    let mut offsets = Vec::with_capacity(alloc, functions.len())?;
    for function in functions {
        match flat_in(text, function.at) {
            Some(offset) => offsets.push(offset)?,
            None => unreachable!(),
        }
    }
    let offsets = ArcSlice::from_vec(offsets)?;
    Ok(offsets)
}

/// Those of these offsets at which a group begins that is not the first.
fn closed_starts(
    alloc: Global,
    text: &[Span],
    bytes: &[u8],
    functions: &[u32],
) -> Result<ArcSlice<u32>, NoMemory>
    ensures { IfOk result (λ starts. arc_slice_items starts ≡ filter (is_closed text.now bytes.now) functions.now) }
{
    let starts = functions
        .iter()
        .copied()
        .filter(|start| is_closed_start(text, bytes, *start))
        .collect(alloc)?;
    let starts = ArcSlice::from_vec(starts)?;
    Ok(starts)
}

/// How many of these ascending starts are at most the offset.
fn count_up_to(starts: &[u32], offset: u32) -> usize
    requires { IsNonDecreasingBy (λ start. start) starts.now }
    ensures value { result ≡ group_in starts.now offset }
    ensures within { result ≤ length starts.now }
{
    starts.partition_point(|start| *start <= offset)
}

/// Whether the offset is one of these ascending ones.
fn has_offset(offsets: &[u32], offset: u32) -> bool
    requires { IsNonDecreasingBy (λ start. start) offsets.now }
    ensures { result ≡ list_any (λ start. start == offset) offsets.now }
{
    offsets.binary_search(&offset).is_ok()
}

/// The g-th of 0 and the starts.
fn first_in(starts: &[u32], g: usize) -> u64
    requires { g ≤ length starts.now }
    ensures { result ≡ slice_index (0 ∷ starts.now) g }
{
    if g == 0 { 0 } else { starts[g - 1] as u64 }
}

/// The g-th of the starts, and the end of text behind the last.
fn end_in(text: &[Span], starts: &[u32], g: usize) -> u64
    requires { text_size text.now < 2 ^ 64 }
    ensures { result ≡ slice_index_or starts.now g (text_size text.now) }
{
    if g < starts.len() {
        starts[g] as u64
    } else {
        text_size(text)
    }
}

/// The place so many bytes behind a place.
fn behind(place: Gpa, bytes: u64) -> Gpa
    requires { place + bytes < 2 ^ 64 }
    ensures { result ≡ place + bytes }
{
    Gpa(place.0 + bytes)
}

/// The places from the g-th of 0 and the starts up to the next start or the end of text.
fn range_in(text: &[Span], starts: &[u32], g: GroupNo) -> Span
    requires some { g ≤ length starts.now }
    requires text { IsTextBelow (RAM_START + RAM_MOST) text.now }
    requires starts { IsAscendingFrom 0 starts.now (text_size text.now) }
    ensures { let t : Groups = record { text = text.now; functions = []; starts = starts.now } in result ≡ range_of t g }
{
    let first = first_in(starts, g.0 as usize);
    let end = end_in(text, starts, g.0 as usize);
    let start = place_of(text, first);
    Span {
        start,
        end: behind(start, end - first),
    }
}

impl Table {
    /// The table of this image.
    pub fn of(alloc: Global, image: &Image) -> Result<Table, NoMemory>
        requires { IsImage image.now }
        ensures { IfOk result (λ table. table ≡ groups_of image.now) }
    {
        let text = image.ranges.copy_spans();
        let functions = offsets(alloc, text.as_slice(), image.functions.as_slice())?;
        let starts = closed_starts(
            alloc,
            text.as_slice(),
            image.ranges.bytes(),
            functions.as_slice(),
        )?;
        Ok(Table {
            text,
            functions,
            starts,
        })
    }

    /// Another owner of the same table, without a copy of the numbers.
    pub fn share(&self) -> Result<Table, NoMemory>
        ensures value { IfOk result (λ table. table ≡ self.now) }
        ensures lawful { IfOk result (λ table. IsGroups table) }
    {
        Ok(Table {
            text: copy_of(self.text.as_slice()),
            functions: self.functions.clone()?,
            starts: self.starts.clone()?,
        })
    }

    /// The offset in text of this place; None outside text.
    fn offset(&self, at: Gpa) -> Option<u32>
        ensures { result ≡ (if in_groups_text self.now at then Some (offset_in self.now.text at) else None) }
    {
        match offset_of(self.text.as_slice(), at) {
            Some(offset) => Some(offset as u32),
            None => None,
        }
    }

    /// The function that holds this place, counted from 0 in order of address; None outside text.
    pub fn function_at(&self, at: Gpa) -> Option<u32>
        ensures value { result ≡ (if in_groups_text self.now at then Some (function_at self.now at) else None) }
        ensures within { IfSome result (λ n. n < length self.now.functions) }
    {
        let offset = self.offset(at)?;
        Some((count_up_to(self.functions.as_slice(), offset) - 1) as u32)
    }

    /// The group that holds this place; None outside text.
    pub fn group_of(&self, at: Gpa) -> Option<GroupNo>
        ensures value { result ≡ (if in_groups_text self.now at then Some (group_at self.now at) else None) }
        ensures within { IfSome result (λ g. g < groups_count self.now) }
    {
        let offset = self.offset(at)?;
        Some(GroupNo(count_up_to(self.starts.as_slice(), offset) as u16))
    }

    /// The places of group g.
    pub fn range(&self, g: GroupNo) -> Span
        requires { g < groups_count self.now }
        ensures value { result ≡ range_of self.now g }
        ensures exact { IsRangeOf self.now g result }
    {
        range_in(self.text.as_slice(), self.starts.as_slice(), g)
    }

    /// The places of the ranges of text.
    pub fn text(&self) -> &[Span]
        ensures value { result.now ≡ self.now.text }
        ensures lawful { IsGroups self.now }
    {
        self.text.as_slice()
    }

    /// The offset in text of a start; None where the start is in no range.
    pub fn flat(&self, at: Start) -> Option<u32>
        ensures { result ≡ (if has_start self.now.text at then Some (flat_of self.now.text at) else None) }
    {
        flat_in(self.text.as_slice(), at)
    }

    /// Whether a function starts there.
    pub fn is_function(&self, at: Start) -> bool
        ensures { result ≡ is_function self.now at }
    {
        match self.flat(at) {
            Some(offset) => has_offset(self.functions.as_slice(), offset),
            None => false,
        }
    }

    /// How many groups there are.
    pub fn groups(&self) -> u16
        ensures count { result ≡ groups_count self.now }
        ensures lawful { IsGroups self.now }
    {
        self.starts.as_slice().len() as u16 + 1
    }
}
