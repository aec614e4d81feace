//! Names in small memories, worked out by hand.

ghost use Rattle.std.specs.Prelude.{◌≡◌, IfOk, length};

use super::*;
use fc_numbers::memory::NoMemory;
use fc_numbers::places::{Gpa, PAGE, Span};
use fc_numbers::spans::Spans;
use rv_csr::SATP;
use std::alloc::Global;
use std::test::Fail;

/// Memory of five pages. The second is the kernel's text.
const SIZE: u64 = 5 * PAGE;

const TEXT: u64 = RAM_START + PAGE;

/// The last page of memory.
const LAST: u64 = RAM_START + 4 * PAGE;

fn memory(alloc: Global) -> Result<GuestRam, NoMemory>
    ensures { IfOk result (λ ram. length ram.bytes ≡ 20480) }
{
    let mut text = Spans::new();
    text.push(Span {
        start: Gpa(TEXT),
        end: Gpa(TEXT + PAGE),
    });
    GuestRam::new(alloc, SIZE, text)
}

fn is_named(name: Option<Name>, want: &[u8]) -> bool {
    match name {
        Some(name) => name.bytes() == want,
        None => want.is_empty(),
    }
}

#[test]
fn name_is_the_bytes_before_a_zero_byte_or_sixteen(rt: HostRuntime) -> Result<(), Fail> {
    let csr = CsrFile::new();
    for (bytes, want) in [
        (b"abcdefghijklmnop", b"abcdefghijklmnop".as_slice()),
        (b"vi\0defghijklmnop", b"vi".as_slice()),
        (b"!~\0             ", b"!~".as_slice()),
        (b"\0bcdefghijklmnop", b"".as_slice()),
        (b"a b\0efghijklmnop", b"".as_slice()),
        (b"abcdefghijklmno\x7f", b"".as_slice()),
    ] {
        let mut ram = memory(rt.alloc())?;
        ram.place(Gpa(RAM_START + 8), bytes);
        assert!(rt; is_named(app_name(&ram, &csr, RAM_START + 3, 5), want));
        assert!(rt; is_named(app_name(&ram, &csr, 5, RAM_START + 3), want));
        assert!(rt; is_named(app_name(&ram, &csr, u64::MAX, RAM_START + 9), want));
    }
    Ok(())
}

#[test]
fn name_is_read_in_text_and_never_outside_memory(rt: HostRuntime) -> Result<(), Fail> {
    let csr = CsrFile::new();
    let mut ram = memory(rt.alloc())?;
    ram.place(Gpa(TEXT), b"sh\0");
    ram.place(Gpa(LAST + PAGE - 16), b"abcdefghijklmnop");
    for (a1, name_at, want) in [
        (TEXT, 0, b"sh".as_slice()),
        (LAST, PAGE - 16, b"abcdefghijklmnop".as_slice()),
        (LAST, PAGE - 15, b"".as_slice()),
        (LAST, PAGE, b"".as_slice()),
        (RAM_START - 1, 0, b"".as_slice()),
        (0, 0, b"".as_slice()),
    ] {
        assert!(rt; is_named(app_name(&ram, &csr, a1, name_at), want));
    }
    Ok(())
}

/// satp of MODE 8 with the page number of the first page of memory, and of the page of text.
const TABLES: u64 = 0x8000_0000_0008_0000;

const TABLES_IN_TEXT: u64 = 0x8000_0000_0008_0001;

/// Pointers to the tables of levels 1 and 0, the third and the fourth page of memory.
const TO_LEVEL_1: u64 = 0x8_0002 << 10 | 1;

const TO_LEVEL_0: u64 = 0x8_0003 << 10 | 1;

/// The last page of memory with R and A, and the same as a page of user mode.
const LEAF: u64 = 0x8_0004 << 10 | 0x43;

const USER_LEAF: u64 = LEAF | 0x10;

/// Memory in which the page 0 of addresses is the last of memory, page 1 the same by this entry, and no other is.
fn tables(alloc: Global, second: u64) -> Result<GuestRam, NoMemory>
    ensures { IfOk result (λ ram. length ram.bytes ≡ 20480) }
{
    let mut ram = memory(alloc)?;
    ram.place(Gpa(RAM_START), &TO_LEVEL_1.to_le_bytes());
    ram.place(Gpa(RAM_START + 2 * PAGE), &TO_LEVEL_0.to_le_bytes());
    ram.place(Gpa(RAM_START + 3 * PAGE), &LEAF.to_le_bytes());
    ram.place(Gpa(RAM_START + 3 * PAGE + 8), &second.to_le_bytes());
    ram.place(Gpa(LAST), b"cd\0");
    ram.place(Gpa(LAST + PAGE - 2), b"ab");
    Ok(ram)
}

#[test]
fn name_is_loaded_by_the_tables_of_the_kernel(rt: HostRuntime) -> Result<(), Fail> {
    let end = PAGE - 2;
    for (second, satp, sum, a1, want) in [
        (LEAF, TABLES, 0, end, b"abcd".as_slice()),
        (0, TABLES, 0, end, b"".as_slice()),
        (0, TABLES, 0, 0, b"cd".as_slice()),
        (USER_LEAF, TABLES, 0, end, b"".as_slice()),
        (USER_LEAF, TABLES, 1 << 18, end, b"abcd".as_slice()),
        (LEAF, TABLES_IN_TEXT, 0, end, b"".as_slice()),
        (LEAF, 0, 0, LAST, b"cd".as_slice()),
    ] {
        let ram = tables(rt.alloc(), second)?;
        let mut csr = CsrFile::new();
        csr.sstatus |= sum;
        assert_eq!(rt; csr.write(SATP, Mode::Vs, satp), Ok(()));
        assert!(rt; is_named(app_name(&ram, &csr, a1, 0), want));
    }
    Ok(())
}
