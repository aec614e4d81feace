//! Kernel text as ranges of places. A place of text is one of a range. Its offset counts the bytes of the ranges, one
//! after another: the second range begins at the offset that the first one ends at.

ghost use Rattle.std.specs.Prelude.{◌≡◌, ◌<◌, ◌+◌, ◌^◌, Some, None, if◌then◌else◌};
ghost use Rattle.fc_numbers.specs.Spans.{end_in, in_text, offset_in, place_in, size_of, text_size};

use crate::places::{Gpa, Span};
use arrayvec::ArrayVec;

/// The most ranges of kernel text.
pub const RANGES_MOST: usize = 4;

/// The most bytes of kernel text, in all ranges (1,024 pages, 4 MiB).
pub const TEXT_MOST: u64 = 0x40_0000;

/// The ranges of kernel text, in order of place.
pub type Spans = ArrayVec<Span, RANGES_MOST>;

/// How many bytes a range has.
fn size_of(span: Span) -> u64
    ensures { result ≡ size_of span }
{
    span.end.0.saturating_sub(span.start.0)
}

/// Whether the place is one of text.
pub fn in_text(spans: &[Span], place: Gpa) -> bool
    ensures { result ≡ in_text spans.now place }
{
    match spans {
        [] => false,
        [span, rest @ ..] => span.contains(place) || in_text(rest, place),
    }
}

/// How many bytes all ranges have.
pub fn text_size(spans: &[Span]) -> u64
    requires few { text_size spans.now < 2 ^ 64 }
    ensures { result ≡ text_size spans.now }
{
    let mut size = 0;
    for span in spans {
        size += size_of(*span);
    }
    size
}

/// The offset of a place in these ranges, behind so many bytes; None outside them.
fn offset_from(spans: &[Span], place: Gpa, before: u64) -> Option<u64>
    requires few { before + text_size spans.now < 2 ^ 64 }
    ensures { result ≡ (if in_text spans.now place then Some (before + offset_in spans.now place) else None) }
{
    match spans {
        [] => None,
        [span, rest @ ..] => {
            if span.contains(place) {
                Some(before + (place.0 - span.start.0))
            } else {
                offset_from(rest, place, before + size_of(*span))
            }
        }
    }
}

/// The offset of a place of text; None outside text.
pub fn offset_of(spans: &[Span], place: Gpa) -> Option<u64>
    requires few { text_size spans.now < 2 ^ 64 }
    ensures { result ≡ (if in_text spans.now place then Some (offset_in spans.now place) else None) }
{
    offset_from(spans, place, 0)
}

/// The place of a byte of this range.
fn place_within(span: Span, offset: u64) -> Gpa
    requires { offset < size_of span }
    ensures { result ≡ span.start + offset }
{
    Gpa(span.start.0 + offset)
}

/// The place of the byte at an offset of text.
pub fn place_of(spans: &[Span], offset: u64) -> Gpa
    requires inside { offset < text_size spans.now }
    ensures { result ≡ place_in spans.now offset }
{
    let mut left = offset;
    for span in spans {
        let size = size_of(*span);
        if left < size {
            return place_within(*span, left);
        }
        left -= size;
    }
    Gpa(0)
}

/// The offset behind the range that holds the byte at an offset of text.
pub fn end_of(spans: &[Span], offset: u64) -> u64
    requires few { text_size spans.now < 2 ^ 64 }
    requires inside { offset < text_size spans.now }
    ensures { result ≡ end_in spans.now offset }
{
    let mut before = 0;
    for span in spans {
        let end = before + size_of(*span);
        if offset < end {
            return end;
        }
        before = end;
    }
    before
}
