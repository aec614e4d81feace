//! Views of a small kernel, worked out by hand.

ghost use Rattle.std.specs.Prelude.{◌≡◌, ◌<◌, ◌+◌, ◌*◌, ◌^◌, [], ◌∷◌, IfOk, length};
ghost use Rattle.fc_numbers.specs.Spans.{text_size};
ghost use Rattle.guest_input.specs.Accepted.{IsImage};
ghost use Rattle.view_store.specs.Paged.{window_of};

use crate::view::{Patched, View};
use chain_log::entry::{Chain, LogEntry};
use fc_numbers::memory::NoMemory;
use fc_numbers::places::{Gpa, GroupNo, Span, VcpuNo, ViewNo};
use fc_numbers::shared::SharedBytes;
use fc_numbers::spans::{Spans, text_size};
use fc_numbers::window::Window;
use function_table::table::Table;
use guest_input::image::{Function, Image, Start};
use guest_input::ranges::Ranges;
use sqlite_items::Items;
use std::alloc::Global;
use std::test::Fail;

/// The place at which the kernel begins.
const BASE: u64 = 0x8000_0000;

/// The places of one page from a place on.
fn page(start: u64) -> Span
    requires { start + 4096 < 2 ^ 64 }
    ensures { result ≡ record { start = start; end = start + 4096 } }
{
    Span {
        start: Gpa(start),
        end: Gpa(start + 4096),
    }
}

/// Two ranges of a page each, a page apart.
fn two_spans() -> Spans
    ensures { result.items ≡ record { start = BASE; end = BASE + 4096 } ∷ record { start = BASE + 8192; end = BASE + 12288 } ∷ [] }
{
    let mut spans = Spans::new();
    spans.push(page(BASE));
    spans.push(page(BASE + 8192));
    spans
}

/// A function at this start.
fn function(alloc: Global, range: u8, offset: u32) -> Function
    ensures { result.at ≡ record { range = range; offset = offset } }
{
    Function {
        at: Start { range, offset },
        name: Items::new(alloc),
    }
}

/// Code of the first range: a function at 0, one at 12 that ends in the halfword 0x8067, and so is joined to the one at 26.
const JOINED: [u8; 28] = [
    0xef, 0x00, 0xc0, 0x00, 0xa1, 0x48, 0x73, 0x00, 0x00, 0x00, 0x01, 0x00, 0x85, 0x48, 0x13, 0x05,
    0x10, 0x04, 0x73, 0x00, 0x00, 0x00, 0x82, 0x80, 0x67, 0x80, 0x82, 0x80,
];

/// The bytes of two pages: the first one begins with `JOINED` and ends in an open halfword.
fn text(alloc: Global) -> Result<Vec<u8>, NoMemory>
    ensures { IfOk result (λ bytes. length bytes.items ≡ 8192) }
{
    let mut bytes = vec![in alloc; 0u8; 8192]?;
    bytes[..28].copy_from_slice(&JOINED);
    bytes[4094] = 0x67;
    bytes[4096] = 0x13;
    bytes[8128] = 0xa5;
    Ok(bytes)
}

/// A kernel of two ranges of this text, with a function at the first byte of the second range.
fn kernel(alloc: Global) -> Result<Image, NoMemory>
    ensures { IfOk result (λ image. IsImage image) }
{
    let bytes = text(alloc)?;
    let mut functions = Items::new(alloc);
    functions.push(function(alloc, 0, 0))?;
    functions.push(function(alloc, 0, 12))?;
    functions.push(function(alloc, 0, 26))?;
    functions.push(function(alloc, 1, 0))?;
    Ok(Image {
        entry: BASE,
        ranges: Ranges::of(two_spans(), SharedBytes::from_vec(bytes)?),
        parts: Items::new(alloc),
        functions,
        digest: [0; 32],
    })
}

/// The window of a line of the view.
fn read_window(view: &View, line: u32) -> Window
    requires { 64 * line < text_size view.now.groups.text }
    ensures { result ≡ window_of view.now line }
{
    let mut window = Window::default();
    view.read_line(line, &mut window);
    window
}

/// The entry of a group for view 1.
fn entry_of(group: u16, at: u32) -> LogEntry
    ensures view { result.view ≡ 1 }
    ensures group { result.group ≡ group }
{
    LogEntry {
        view: ViewNo(1),
        group: GroupNo(group),
        vcpu: VcpuNo(0),
        at,
        pc: Gpa(BASE),
        chain: Chain::new(),
    }
}

#[test]
fn a_missing_group_is_restored_whole_and_once(rt: HostRuntime) -> Result<(), Fail> {
    let alloc = rt.alloc();
    let image = kernel(alloc)?;
    let table = Table::of(alloc, &image)?;
    let base = vec![in alloc; true, false, false]?;
    assert!(rt; table.groups() == 3);
    assert!(rt; text_size(table.text()) == 8192);
    let mut view = View::build(alloc, &image, &table, ViewNo(1), base)?;
    for (line, at, half) in [
        (0, 0, 0x00ef),
        (0, 5, 0x0001),
        (0, 6, 0),
        (0, 13, 0),
        (63, 31, 0),
        (127, 0, 0),
    ] {
        assert!(rt; read_window(&view, line).halves[at] == half, "line {line}");
    }
    assert!(rt; !view.present(GroupNo(1)));
    assert!(rt; view.patch(entry_of(1, 7)) == Patched::Recovered);
    assert!(rt; view.patch(entry_of(1, 8)) == Patched::WasPresent);
    assert!(rt; view.patch(entry_of(0, 9)) == Patched::WasPresent);
    for (line, at, half) in [
        (0, 0, 0x00ef),
        (0, 6, 0x4885),
        (0, 12, 0x8067),
        (0, 13, 0x8082),
        (62, 32, 0),
        (63, 31, 0x0067),
        (64, 0, 0),
    ] {
        assert!(rt; read_window(&view, line).halves[at] == half, "line {line}");
    }
    assert!(rt; view.patch(entry_of(2, 10)) == Patched::Recovered);
    for (line, at, half) in [
        // The halfword behind the last line of a range is not that of the next range.
        (63, 32, 0),
        (64, 0, 0x0013),
        // The halfword behind a line within a range is that of the next line.
        (126, 32, 0x00a5),
        // Nothing stands behind the last line of text.
        (127, 0, 0x00a5),
        (127, 32, 0),
    ] {
        assert!(rt; read_window(&view, line).halves[at] == half, "line {line}");
    }
    assert!(rt; read_window(&view, 63).line == 63);
    assert!(rt; view.present(GroupNo(2)));
    assert!(rt; view.log().len() == 2);
    assert!(rt; view.log().first().is_some_and(|entry| entry.at == 7));
    Ok(())
}
