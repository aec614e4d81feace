//! A trap of a small kernel, looked up by hand.

ghost use Rattle.std.specs.Prelude.{◌≡◌, [], ◌∷◌, IfOk};
ghost use Rattle.guest_input.specs.Accepted.{IsImage};
ghost use Rattle.guest_input.specs.Text.{spans_of};

use crate::look;
use arrayvec::ArrayVec;
use chain_log::entry::{Chain, Trapped};
use fc_numbers::memory::NoMemory;
use fc_numbers::places::{Gpa, Span, VcpuNo, ViewNo};
use fc_numbers::shared::SharedBytes;
use fc_numbers::spans::Spans;
use function_table::table::Table;
use guest_input::image::{Function, Image, Start};
use guest_input::ranges::Ranges;
use sqlite_items::Items;
use std::alloc::Global;
use std::test::Fail;

/// The places of one page from the start of memory.
fn one_page() -> Spans
    ensures { result.items ≡ record { start = 0x80000000; end = 0x80001000 } ∷ [] }
{
    let mut spans = Spans::new();
    spans.push(Span {
        start: Gpa(0x8000_0000),
        end: Gpa(0x8000_1000),
    });
    spans
}

/// A function at this offset of the first range.
fn function(alloc: Global, offset: u32) -> Function
    ensures { result.at ≡ record { range = 0; offset = offset } }
{
    Function {
        at: Start { range: 0, offset },
        name: Items::new(alloc),
    }
}

/// A kernel of one page of zeros, with functions at 0 and at 12.
fn kernel(alloc: Global) -> Result<Image, NoMemory>
    ensures image { IfOk result (λ image. IsImage image) }
    ensures spans { IfOk result (λ image. spans_of image.ranges ≡ record { start = 0x80000000; end = 0x80001000 } ∷ []) }
{
    let bytes = vec![in alloc; 0u8; 4096]?;
    let mut functions = Items::new(alloc);
    functions.push(function(alloc, 0))?;
    functions.push(function(alloc, 12))?;
    Ok(Image {
        entry: 0x8000_0000,
        ranges: Ranges::of(one_page(), SharedBytes::from_vec(bytes)?),
        parts: Items::new(alloc),
        functions,
        digest: [0; 32],
    })
}

#[test]
fn a_trap_asks_for_the_group_of_its_place(rt: HostRuntime) -> Result<(), Fail> {
    let alloc = rt.alloc();
    let image = kernel(alloc)?;
    let table = Table::of(alloc, &image)?;
    let mut chain = Chain::new();
    chain.push(Gpa(0x8000_0004));
    let looked = look(
        &table,
        Trapped {
            view: ViewNo(3),
            vcpu: VcpuNo(2),
            at: 7,
            pc: Gpa(0x8000_000c),
            chain,
        },
    );
    assert!(rt; looked.group.0 == 1);
    let entry = looked.entry;
    assert!(rt; entry.view.0 == 3);
    assert!(rt; entry.group.0 == 1);
    assert!(rt; entry.vcpu.0 == 2);
    assert!(rt; entry.at == 7);
    assert!(rt; entry.pc.0 == 0x8000_000c);
    assert!(rt; entry.chain.len() == 1);
    let caller = &entry.chain[0];
    assert!(rt; caller.0 == 0x8000_0004);
    Ok(())
}
