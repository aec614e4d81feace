//! The chain of small kernels, and the line of an entry, worked out by hand.

ghost use Rattle.std.specs.Prelude.{◌≡◌, ◌<◌, ◌+◌, ◌^◌, [], ◌∷◌, IfOk};
ghost use Rattle.guest_input.specs.Accepted.{IsImage};
ghost use Rattle.guest_input.specs.Text.{spans_of};

use crate::chain::chain_of;
use crate::entry::{Chain, LogEntry};
use crate::line::print_entry;
use fc_numbers::machine::Mode;
use fc_numbers::memory::NoMemory;
use fc_numbers::places::{Gpa, GroupNo, Span, VcpuNo, ViewNo};
use fc_numbers::regs::Regs;
use fc_numbers::shared::SharedBytes;
use fc_numbers::spans::Spans;
use function_table::table::Table;
use guest_input::image::{Function, Image, Start};
use guest_input::ranges::Ranges;
use guest_ram::GuestRam;
use rv_csr::CsrFile;
use sqlite_items::Items;
use std::alloc::Global;
use std::test::Fail;

/// The place at which these kernels begin.
const BASE: u64 = 0x8000_0000;

/// The places of one page from a place on.
fn page(start: u64) -> Span
    requires { start + 4096 < 2 ^ 64 }
    ensures { result ≡ record { start = start; end = start + 4096 } }
{
    Span {
        start: Gpa(start),
        end: Gpa(start + 4096),
    }
}

/// Two ranges of a page each, a page apart.
fn two_spans() -> Spans
    ensures { result.items ≡ record { start = BASE; end = BASE + 4096 } ∷ record { start = BASE + 8192; end = BASE + 12288 } ∷ [] }
{
    let mut spans = Spans::new();
    spans.push(page(BASE));
    spans.push(page(BASE + 8192));
    spans
}

/// A function of this name at this start.
fn function(alloc: Global, range: u8, offset: u32, name: &[u8]) -> Result<Function, NoMemory>
    ensures { IfOk result (λ function. function.at ≡ record { range = range; offset = offset }) }
{
    Ok(Function {
        at: Start { range, offset },
        name: Items::from_slice(alloc, name)?,
    })
}

/// A kernel of two ranges of zeros, with `main` at 0 of the first, and `put` at 0 and `get` at 12 of the second.
fn kernel(alloc: Global) -> Result<Image, NoMemory>
    ensures image { IfOk result (λ image. IsImage image) }
    ensures spans { IfOk result (λ image. spans_of image.ranges ≡ record { start = BASE; end = BASE + 4096 } ∷ record { start = BASE + 8192; end = BASE + 12288 } ∷ []) }
{
    let bytes = vec![in alloc; 0u8; 8192]?;
    let mut functions = Items::new(alloc);
    functions.push(function(alloc, 0, 0, b"main")?)?;
    functions.push(function(alloc, 1, 0, b"put")?)?;
    functions.push(function(alloc, 1, 12, b"get")?)?;
    Ok(Image {
        entry: BASE,
        ranges: Ranges::of(two_spans(), SharedBytes::from_vec(bytes)?),
        parts: Items::new(alloc),
        functions,
        digest: [0; 32],
    })
}

#[test]
fn a_line_names_functions_group_and_chain(rt: HostRuntime) -> Result<(), Fail> {
    let alloc = rt.alloc();
    let image = kernel(alloc)?;
    let table = Table::of(alloc, &image)?;
    assert!(rt; table.groups() == 3);
    let mut chain = Chain::new();
    chain.push(Gpa(BASE + 4));
    let entry = LogEntry {
        view: ViewNo(1),
        group: GroupNo(2),
        vcpu: VcpuNo(0),
        at: 1,
        pc: Gpa(BASE + 0x2010),
        chain,
    };
    let line = print_entry(alloc, &entry, b"sh", &image, &table)?;
    assert!(rt;
        line.as_slice() == b"1 0 sh 0x80002010 get+0x4 0x8000200c 0x80003000 main+0x4\n".as_slice()
    );
    Ok(())
}

/// The stack: a frame at 0x80002010 with the return address 0x8000000c, and one above it at 0x80002020 with the
/// return address 0x80000014 and no frame above.
const STACK: [u8; 32] = [
    0x20, 0x20, 0x00, 0x80, 0, 0, 0, 0, 0x0c, 0x00, 0x00, 0x80, 0, 0, 0, 0, 0, 0, 0, 0, 0, 0, 0, 0,
    0x14, 0x00, 0x00, 0x80, 0, 0, 0, 0,
];

#[test]
fn the_return_address_and_the_frames_make_the_chain(rt: HostRuntime) -> Result<(), Fail> {
    let alloc = rt.alloc();
    let mut text = Spans::new();
    text.push(page(BASE));
    let mut ram = GuestRam::new(alloc, 65536, text)?;
    ram.place(Gpa(BASE + 0x2000), &STACK);
    let csr = CsrFile::new();
    for (ra, fp, want) in [
        (BASE + 4, BASE + 0x2010, [4, 12, 20]),
        (BASE + 5, BASE + 0x2020, [5, 20, 0]),
        (BASE + 4096, BASE + 0x2010, [12, 20, 0]),
        (0, BASE + 0x2014, [0, 0, 0]),
        (BASE + 8, 8, [8, 0, 0]),
    ] {
        let mut regs = Regs::new();
        regs.set(1, ra);
        regs.set(8, fp);
        let chain = chain_of(&ram, &csr, Mode::Vs, &regs);
        for (k, offset) in want.iter().enumerate() {
            let place = if *offset == 0 {
                None
            } else {
                Some(Gpa(BASE + *offset))
            };
            assert!(rt;
                chain.as_slice().get(k).copied() == place,
                "place {k} at {fp:x}"
            );
        }
        assert!(rt; chain.len() <= 3, "at {fp:x}");
    }
    Ok(())
}
