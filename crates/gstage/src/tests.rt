//! The table of a view and the walk of entries, on values worked out by hand.

ghost use Rattle.std.specs.Prelude.{◌≡◌, [], ◌∷◌};
ghost use Rattle.fc_numbers.specs.declared.places.Span.{Span};

use crate::stage::{Flat, Placed, SecondStage};
use crate::table::{Frame, G, GTable};
use crate::walk::{Leaf, walk};
use fc_numbers::machine::{Access, GKind};
use fc_numbers::places::{Gpa, Span, ViewNo};
use fc_numbers::spans::Spans;
use std::test::Fail;

fn span(start: u64, end: u64) -> Span
    ensures start { result.start ≡ start }
    ensures end { result.end ≡ end }
{
    Span {
        start: Gpa(start),
        end: Gpa(end),
    }
}

fn one(only: Span) -> Spans
    ensures { result.items ≡ only ∷ [] }
{
    let mut spans = Spans::new();
    spans.push(only);
    spans
}

/// The text of two ranges, of two pages and of one, with a page between.
fn two() -> Spans
    ensures { result.items ≡ record { start = 2147491840; end = 2147500032 } ∷ record { start = 2147504128; end = 2147508224 } ∷ [] }
{
    let mut spans = Spans::new();
    spans.push(span(0x8000_2000, 0x8000_4000));
    spans.push(span(0x8000_5000, 0x8000_6000));
    spans
}

fn small_ram() -> Span
    ensures start { result.start ≡ 2147483648 }
    ensures end { result.end ≡ 2147516416 }
{
    span(0x8000_0000, 0x8000_8000)
}

fn text_page(view: u8, page: u32) -> G {
    G::Frame(Frame::Text(ViewNo(view), page))
}

#[test]
fn text_of_a_view_may_be_executed_alone(rt: HostRuntime) -> Result<(), Fail> {
    for kind in [GKind::Sv39x4, GKind::Sv48x4] {
        let text = one(span(0x8000_0000, 0x8000_1000));
        let ram = span(0x8000_0000, 0x8001_0000);
        let table = GTable::build(rt.alloc(), text, ram, ViewNo(3), kind)?;
        for (at, access, want) in [
            (0x8000_0000, Access::Fetch, text_page(3, 0)),
            (0x8000_0fff, Access::Fetch, text_page(3, 0)),
            (0x8000_0000, Access::Load, G::ExecOnly),
            (0x8000_0ff8, Access::Store, G::ExecOnly),
            (0x8000_1000, Access::Store, G::Frame(Frame::Ram(1))),
            (0x8000_ffff, Access::Load, G::Frame(Frame::Ram(15))),
            (0x8001_0000, Access::Fetch, G::Unmapped),
            (0x7fff_ffff, Access::Fetch, G::Unmapped),
            (0x200_8000_0000, Access::Fetch, G::Unmapped),
            (0x4_0000_8000_0000, Access::Fetch, G::Unmapped),
        ] {
            assert_eq!(rt; table.lookup(Gpa(at), access), want, "{kind:?} at {at:x}");
        }
    }
    Ok(())
}

#[test]
fn pages_of_text_are_counted_through_the_ranges(rt: HostRuntime) -> Result<(), Fail> {
    let table = GTable::build(rt.alloc(), two(), small_ram(), ViewNo(1), GKind::Sv39x4)?;
    for (at, want) in [
        (0x8000_1fff, G::Frame(Frame::Ram(1))),
        (0x8000_2000, text_page(1, 0)),
        (0x8000_3fff, text_page(1, 1)),
        (0x8000_4000, G::Frame(Frame::Ram(4))),
        (0x8000_5000, text_page(1, 2)),
        (0x8000_6000, G::Frame(Frame::Ram(6))),
    ] {
        assert_eq!(rt; table.lookup(Gpa(at), Access::Fetch), want, "at {at:x}");
    }
    Ok(())
}

#[test]
fn all_stages_place_alike(rt: HostRuntime) -> Result<(), Fail> {
    let narrow = GTable::build(rt.alloc(), two(), small_ram(), ViewNo(15), GKind::Sv39x4)?;
    let wide = GTable::build(rt.alloc(), two(), small_ram(), ViewNo(15), GKind::Sv48x4)?;
    let flat = Flat {
        text: two(),
        ram: small_ram(),
    };
    for (at, want) in [
        (0x8000_1fff, Placed::Ram),
        (0x8000_2000, Placed::Text),
        (0x8000_3fff, Placed::Text),
        (0x8000_4000, Placed::Ram),
        (0x8000_5fff, Placed::Text),
        (0x8000_6000, Placed::Ram),
        (0x8000_8000, Placed::Outside),
        (0x8400_0000, Placed::Outside),
        (0, Placed::Outside),
    ] {
        assert_eq!(rt;
            narrow.place(Gpa(at), Access::Load),
            want,
            "Sv39x4 at {at:x}"
        );
        assert_eq!(rt; wide.place(Gpa(at), Access::Load), want, "Sv48x4 at {at:x}");
        assert_eq!(rt; flat.place(Gpa(at), Access::Load), want, "ranges at {at:x}");
    }
    Ok(())
}

/// A leaf that may be read and executed.
fn leaf(level: u32, page: u64, write: bool) -> Option<Leaf> {
    Some(Leaf {
        level,
        page,
        read: true,
        write,
        execute: true,
        user: true,
    })
}

#[test]
fn leaf_of_2_mib_is_walked_by_the_manual(rt: HostRuntime) -> Result<(), Fail> {
    for (entry, want) in [
        ((0x200 << 10) + 0xdf, leaf(1, 0x203, true)),
        // D = 0
        ((0x200 << 10) + 0x5f, leaf(1, 0x203, false)),
        // A = 0
        ((0x200 << 10) + 0x9f, None),
        // V = 0
        ((0x200 << 10) + 0xde, None),
        // W without R
        ((0x200 << 10) + 0xdd, None),
        // not aligned to 2 MiB
        ((0x201 << 10) + 0xdf, None),
        // a reserved high bit
        ((1 << 54) + (0x200 << 10) + 0xdf, None),
        // a pointer to a page of zeros, and one with U set
        ((3 << 10) + 0x01, None),
        ((3 << 10) + 0x11, None),
    ] {
        let mut entries = vec![in rt.alloc(); 0u64; 2560]?;
        assert_eq!(rt; entries.len(), 2560);
        entries[2] = (4 << 10) + 0x01;
        entries[2048] = entry;
        assert_eq!(rt;
            walk(GKind::Sv39x4, &entries, 0x8000_3abc),
            want,
            "at entry {entry:x}"
        );
    }
    Ok(())
}

#[test]
fn root_of_four_levels_is_one_level_higher(rt: HostRuntime) -> Result<(), Fail> {
    for (entry, want) in [
        // 1 GiB from 0x4000_0000 on, at level 2
        ((0x4_0000 << 10) + 0xdf, leaf(2, 0x4_0003, true)),
        // not aligned to 1 GiB
        ((0x4_0200 << 10) + 0xdf, None),
        (0, None),
    ] {
        let mut entries = vec![in rt.alloc(); 0u64; 2560]?;
        assert_eq!(rt; entries.len(), 2560);
        entries[0] = (4 << 10) + 0x01;
        entries[2050] = entry;
        assert_eq!(rt;
            walk(GKind::Sv48x4, &entries, 0x8000_3abc),
            want,
            "at entry {entry:x}"
        );
    }
    Ok(())
}
