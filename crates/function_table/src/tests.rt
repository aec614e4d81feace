//! Functions and groups of small kernels, worked out by hand.

ghost use Rattle.std.specs.Prelude.{All, [], ◌∷◌, Contains, ◌≡◌, ◌≤◌, ◌<◌, ◌+◌, ◌*◌, ◌^◌, ℕ, true, IfOk, length, map};
ghost use Rattle.fc_numbers.specs.Spans.{in_text, text_size};
ghost use Rattle.guest_input.specs.Text.{AreRanges, IsStartIn, bytes_before};
ghost use Rattle.guest_input.specs.Accepted.{IsImage, IsStarts, offsets_of};
ghost use Rattle.guest_input.specs.declared.limits.TheConstants.{FUNCTIONS_MOST};

use crate::table::Table;
use fc_numbers::memory::NoMemory;
use fc_numbers::places::{Gpa, GroupNo, Span};
use fc_numbers::shared::SharedBytes;
use fc_numbers::spans::Spans;
use guest_input::image::{Function, Image, Start};
use guest_input::ranges::Ranges;
use sqlite_items::Items;
use std::alloc::Global;
use std::test::Fail;

/// The place at which each of these kernels begins.
const BASE: u64 = 0x8000_0000;

/// The places of so many pages from a place on.
fn pages(start: u64, count: u64) -> Span
    requires { start + count * 4096 < 2 ^ 64 }
    ensures { result ≡ record { start = start; end = start + count * 4096 } }
{
    Span {
        start: Gpa(start),
        end: Gpa(start + count * 4096),
    }
}

/// One range of so many pages.
fn one_span(count: u32) -> Spans
    ensures { result.items ≡ record { start = BASE; end = BASE + count * 4096 } ∷ [] }
{
    let mut spans = Spans::new();
    spans.push(pages(BASE, count as u64));
    spans
}

/// Two ranges of a page each, a page apart.
fn two_spans() -> Spans
    ensures { result.items ≡ record { start = BASE; end = BASE + 4096 } ∷ record { start = BASE + 8192; end = BASE + 12288 } ∷ [] }
{
    let mut spans = Spans::new();
    spans.push(pages(BASE, 1));
    spans.push(pages(BASE + 8192, 1));
    spans
}

/// The starts at these offsets in the first range.
fn first_starts(alloc: Global, offsets: &[u32]) -> Result<Vec<Start>, NoMemory>
    ensures { IfOk result (λ starts. starts.items ≡ map (λ offset. record { range = 0; offset = offset }) offsets.now) }
{
    let starts = offsets
        .iter()
        .map(|offset| Start {
            range: 0,
            offset: *offset,
        })
        .collect(alloc)?;
    Ok(starts)
}

/// A kernel of these ranges, of these bytes, with functions at these starts.
fn kernel(alloc: Global, spans: Spans, bytes: Vec<u8>, starts: &[Start]) -> Result<Image, NoMemory>
    requires text { AreRanges spans.items bytes.items }
    requires inside { All (IsStartIn spans.items) starts.now }
    requires starts { IsStarts (offsets_of spans.items starts.now) (text_size spans.items) }
    requires heads { (n : ℕ) → n < length spans.items → Contains (offsets_of spans.items starts.now) (bytes_before spans.items n) }
    requires few { length starts.now ≤ FUNCTIONS_MOST }
    requires entry { in_text spans.items BASE ≡ true }
    ensures { IfOk result (λ image. IsImage image) }
{
    let mut functions = Items::new(alloc);
    for at in starts {
        functions.push(Function {
            at: *at,
            name: Items::new(alloc),
        })?;
    }
    Ok(Image {
        entry: BASE,
        ranges: Ranges::of(spans, SharedBytes::from_vec(bytes)?),
        parts: Items::new(alloc),
        functions,
        digest: [0; 32],
    })
}

/// So many pages, which begin with this text.
fn padded(alloc: Global, count: u32, text: &[u8]) -> Result<Vec<u8>, NoMemory>
    requires most { count ≤ 8 }
    requires text { length text.now ≤ count * 4096 }
    ensures { IfOk result (λ bytes. length bytes.items ≡ count * 4096) }
{
    let mut bytes = vec![in alloc; 0u8; count as usize * 4096]?;
    bytes[..text.len()].copy_from_slice(text);
    Ok(bytes)
}

/// A kernel of one range of so many pages, which begins with this text and has functions at these offsets.
fn one_range(alloc: Global, count: u32, text: &[u8], offsets: &[u32]) -> Result<Image, NoMemory>
    requires some { 1 ≤ count }
    requires most { count ≤ 8 }
    requires text { length text.now ≤ count * 4096 }
    requires starts { IsStarts offsets.now (count * 4096) }
    requires few { length offsets.now ≤ FUNCTIONS_MOST }
    ensures { IfOk result (λ image. IsImage image) }
{
    let bytes = padded(alloc, count, text)?;
    let starts = first_starts(alloc, offsets)?;
    kernel(alloc, one_span(count), bytes, starts.as_slice())
}

/// A kernel of two ranges of a page each, a page apart. The first one ends in a halfword with low bits 11. Functions
/// start at the first bytes of both ranges, and at byte 12 of the second.
fn two_ranges(alloc: Global) -> Result<Image, NoMemory>
    ensures { IfOk result (λ image. IsImage image) }
{
    let mut bytes = padded(alloc, 2, &[])?;
    bytes[4094] = 0x67;
    let starts = [
        Start {
            range: 0,
            offset: 0,
        },
        Start {
            range: 1,
            offset: 0,
        },
        Start {
            range: 1,
            offset: 12,
        },
    ];
    kernel(alloc, two_spans(), bytes, &starts)
}

fn start(range: u8, offset: u32) -> Start {
    Start { range, offset }
}

/// The offsets 0, 2, 4 .. of so many functions.
fn evens(alloc: Global, n: u32) -> Result<Vec<u32>, NoMemory>
    requires some { 1 ≤ n }
    requires most { n ≤ 16384 }
    ensures starts { IfOk result (λ v. IsStarts v.items (2 * n)) }
    ensures len { IfOk result (λ v. length v.items ≡ n) }
{
    let mut offsets = vec![in alloc; 0u32]?;
    for k in 1..n {
        offsets.push(2 * k)?;
    }
    Ok(offsets)
}

/// A jump to `put`, which prints `A`, and then a shutdown.
const PRINTS: [u8; 24] = [
    0xef, 0x00, 0xc0, 0x00, 0xa1, 0x48, 0x73, 0x00, 0x00, 0x00, 0x01, 0x00, 0x85, 0x48, 0x13, 0x05,
    0x10, 0x04, 0x73, 0x00, 0x00, 0x00, 0x82, 0x80,
];

/// The same, where the function at 12 ends in 0x8067, and one more function follows at 26.
const JOINED: [u8; 28] = [
    0xef, 0x00, 0xc0, 0x00, 0xa1, 0x48, 0x73, 0x00, 0x00, 0x00, 0x01, 0x00, 0x85, 0x48, 0x13, 0x05,
    0x10, 0x04, 0x73, 0x00, 0x00, 0x00, 0x82, 0x80, 0x67, 0x80, 0x82, 0x80,
];

#[test]
fn each_place_has_its_function_and_group(rt: HostRuntime) -> Result<(), Fail> {
    let alloc = rt.alloc();
    let table = Table::of(alloc, &one_range(alloc, 1, &PRINTS, &[0, 12])?)?;
    assert!(rt; table.groups() == 2);
    for (offset, function, group) in [(0, 0, 0), (11, 0, 0), (12, 1, 1), (23, 1, 1), (4095, 1, 1)] {
        assert!(rt;
            table.function_at(Gpa(BASE + offset)) == Some(function),
            "at {offset}"
        );
        assert!(rt;
            table.group_of(Gpa(BASE + offset)) == Some(GroupNo(group)),
            "at {offset}"
        );
    }
    for place in [0, BASE - 1, BASE + 4096, u64::MAX] {
        assert!(rt; table.function_at(Gpa(place)).is_none(), "at {place:x}");
        assert!(rt; table.group_of(Gpa(place)).is_none(), "at {place:x}");
    }
    Ok(())
}

#[test]
fn a_function_that_ends_open_is_joined_to_the_next(rt: HostRuntime) -> Result<(), Fail> {
    let alloc = rt.alloc();
    let table = Table::of(alloc, &one_range(alloc, 1, &JOINED, &[0, 12, 26])?)?;
    assert!(rt; table.groups() == 2);
    for (offset, function, group) in [
        (10, 0, 0),
        (12, 1, 1),
        (24, 1, 1),
        (26, 2, 1),
        (4094, 2, 1),
    ] {
        assert!(rt;
            table.function_at(Gpa(BASE + offset)) == Some(function),
            "at {offset}"
        );
        assert!(rt;
            table.group_of(Gpa(BASE + offset)) == Some(GroupNo(group)),
            "at {offset}"
        );
    }
    Ok(())
}

#[test]
fn the_most_functions_have_a_group_each(rt: HostRuntime) -> Result<(), Fail> {
    let alloc = rt.alloc();
    let offsets = evens(alloc, 16384)?;
    let table = Table::of(alloc, &one_range(alloc, 8, &[0], &offsets)?)?;
    assert!(rt; table.groups() == 16384);
    for (offset, n) in [(0, 0), (3, 1), (16384, 8192), (32767, 16383)] {
        assert!(rt;
            table.function_at(Gpa(BASE + offset)) == Some(n as u32),
            "at {offset}"
        );
        assert!(rt;
            table.group_of(Gpa(BASE + offset)) == Some(GroupNo(n)),
            "at {offset}"
        );
    }
    Ok(())
}

#[test]
fn no_function_is_joined_to_one_of_the_next_range(rt: HostRuntime) -> Result<(), Fail> {
    let alloc = rt.alloc();
    let table = Table::of(alloc, &two_ranges(alloc)?)?;
    assert!(rt; table.groups() == 3);
    for (place, group) in [
        (BASE, Some(0)),
        (BASE + 4095, Some(0)),
        (BASE + 4096, None),
        (BASE + 8191, None),
        (BASE + 8192, Some(1)),
        (BASE + 8203, Some(1)),
        (BASE + 8204, Some(2)),
        (BASE + 12287, Some(2)),
        (BASE + 12288, None),
    ] {
        assert!(rt;
            table.group_of(Gpa(place)).map(|group| group.0) == group,
            "at {place:x}"
        );
    }
    for (at, offset, is) in [
        (start(0, 0), Some(0), true),
        (start(0, 12), Some(12), false),
        (start(0, 4096), None, false),
        (start(1, 0), Some(4096), true),
        (start(1, 12), Some(4108), true),
        (start(2, 0), None, false),
    ] {
        assert!(rt; table.flat(at) == offset);
        assert!(rt; table.is_function(at) == is);
    }
    let second = table.range(GroupNo(1));
    assert!(rt; second.start == Gpa(BASE + 8192));
    assert!(rt; second.end == Gpa(BASE + 8204));
    Ok(())
}
