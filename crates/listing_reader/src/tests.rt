//! Listings by hand, and lines that have no form.

use crate::fault::ListFault;
use crate::reading::{Held, read_listing};
use fc_numbers::places::Gpa;
use std::alloc::Global;
use std::test::Fail;

/// The kernel that calls a function to print a byte: what its view has of its first function.
const MAIN: &[u8] = b"0x80000000 0x8000000c main
0x80000000 00c000ef jal rd=1 imm=12
0x80000004 48a1 addi rd=17 rs1=0 imm=8
0x80000006 00000073 ecall
0x8000000a 0001 addi rd=0 rs1=0 imm=0
";

/// Its halfwords.
const MAIN_HALVES: [(u64, u16); 6] = [
    (0x8000_0000, 0x00ef),
    (0x8000_0002, 0x00c0),
    (0x8000_0004, 0x48a1),
    (0x8000_0006, 0x0073),
    (0x8000_0008, 0x0000),
    (0x8000_000a, 0x0001),
];

/// What the bytes hold; there are no more than a page of them.
fn read(alloc: Global, bytes: &[u8]) -> Result<Vec<Held>, ListFault> {
    if bytes.len() > 4096 {
        return Err(ListFault::NoMemory);
    }
    read_listing(alloc, bytes)
}

/// Why the bytes are refused, if they are.
fn fault_of(alloc: Global, bytes: &[u8]) -> Option<ListFault> {
    match read(alloc, bytes) {
        Ok(_) => None,
        Err(fault) => Some(fault),
    }
}

fn held(at: u64, half: u16) -> Held {
    Held { at: Gpa(at), half }
}

#[test]
fn a_listing_is_read_halfword_by_halfword(rt: HostRuntime) -> Result<(), Fail> {
    let halves = read(rt.alloc(), MAIN)?;
    assert_eq!(rt; halves.len(), MAIN_HALVES.len());
    for (n, (at, half)) in MAIN_HALVES.iter().enumerate() {
        assert_eq!(rt; halves.get(n), Some(&held(*at, *half)), "halfword {n}");
    }
    Ok(())
}

#[test]
fn no_bytes_hold_nothing(rt: HostRuntime) -> Result<(), Fail> {
    let halves = read(rt.alloc(), b"")?;
    assert_eq!(rt; halves.len(), 0);
    Ok(())
}

#[test]
fn zeros_are_as_many_as_the_line_says(rt: HostRuntime) -> Result<(), Fail> {
    let halves = read(rt.alloc(), b"0x8000001c zero 2034\n")?;
    assert_eq!(rt; halves.len(), 2034);
    assert_eq!(rt; halves.get(0), Some(&held(0x8000_001c, 0)));
    assert_eq!(rt; halves.get(2033), Some(&held(0x8000_1000 - 2, 0)));
    Ok(())
}

#[test]
fn lines_with_a_star_and_illegal_ones_hold_their_halfwords(rt: HostRuntime) -> Result<(), Fail> {
    let text: &[u8] = b"0x0 6081 illegal\n0x2 00000013 addi rd=0 rs1=0 imm=0 *\n0x6 0002  any\n";
    let halves = read(rt.alloc(), text)?;
    for (n, (at, half)) in [(0, 0x6081), (2, 0x0013), (4, 0), (6, 2)]
        .iter()
        .enumerate()
    {
        assert_eq!(rt; halves.get(n), Some(&held(*at, *half)), "halfword {n}");
    }
    assert_eq!(rt; halves.len(), 4);
    Ok(())
}

#[test]
fn the_first_line_without_a_form_is_told(rt: HostRuntime) {
    let alloc = rt.alloc();
    for (text, line) in [
        (b"x".as_slice(), 0),
        (b"0x0 zero 1", 0),
        (b"\n", 0),
        (b"0x0 zero 1\n0x2 zero 0\n", 1),
        (b"0x0 zero 2097153\n", 0),
        (b"0x0 zero 01\n", 0),
        (b"0x0 zero 1 \n", 0),
        (b"0x00 zero 1\n", 0),
        (b"0x zero 1\n", 0),
        (b"0x0  zero 1\n", 0),
        (b"0xA zero 1\n", 0),
        (b"0x10000000000000000 zero 1\n", 0),
        (b"0xffffffffffffffff zero 2\n", 0),
        (b"0xfffffffffffffffe 00000013 nop\n", 0),
        (b"0x0 0001\n", 0),
        (b"0x0 00001 addi\n", 0),
        (b"0x0 000A addi\n", 0),
        (b"0x0 0x8 \n", 0),
        (b"0x0 0x8 two words\n", 0),
        (b"0x0 8 main\n", 0),
    ] {
        assert_eq!(rt; fault_of(alloc, text), Some(ListFault::NotListing(line)));
    }
}

#[test]
fn the_last_place_has_64_bits(rt: HostRuntime) -> Result<(), Fail> {
    let halves = read(rt.alloc(), b"0xffffffffffffffff 0001 \n")?;
    assert_eq!(rt; halves.get(0), Some(&held(0xffff_ffff_ffff_ffff, 1)));
    Ok(())
}

#[test]
fn more_halfwords_than_text_can_have_are_refused(rt: HostRuntime) {
    let alloc = rt.alloc();
    assert_eq!(rt; fault_of(alloc, b"0x0 zero 2097152\n"), None);
    assert_eq!(rt;
        fault_of(alloc, b"0x0 zero 2097152\n0x0 zero 1\n"),
        Some(ListFault::TooMany(1))
    );
    assert_eq!(rt;
        fault_of(
            alloc,
            b"0x0 zero 2097151\n0x0 0x2 main\n0x0 00000013 nop\nx\n"
        ),
        Some(ListFault::TooMany(2))
    );
}
