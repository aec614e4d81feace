//! ELF files laid out by hand, and files that differ from a good one in a byte or two.

use crate::fields::{ELFCLASS64, ELFDATA2LSB, EM_RISCV, ET_EXEC, PT_LOAD, SHT_SYMTAB};
use crate::parts::{ElfFault, ElfParts};
use crate::read::{ELF_MARK, read_elf};
use std::alloc::{AllocError, Global};
use std::test::Fail;

/// Two functions, `main` at 0 and `put` at 12.
const TEXT: [u8; 24] = [
    0xef, 0x00, 0xc0, 0x00, 0xa1, 0x48, 0x73, 0x00, 0x00, 0x00, 0x01, 0x00, 0x85, 0x48, 0x13, 0x05,
    0x10, 0x04, 0x73, 0x00, 0x00, 0x00, 0x82, 0x80,
];

/// A program header whose file bytes begin with the text.
#[derive(Clone, Copy)]
struct Piece {
    flags: u32,
    address: u64,
    place: u64,
    filesz: u64,
    memsz: u64,
}

/// A segment whose addresses are its places.
fn segment(flags: u32, place: u64, filesz: u64, memsz: u64) -> Piece {
    Piece {
        flags,
        address: place,
        place,
        filesz,
        memsz,
    }
}

/// Text of a page at the start of RAM, and data behind it.
fn kernel() -> [Piece; 2] {
    [
        segment(5, 0x8000_0000, 24, 24),
        segment(6, 0x8000_1000, 2, 4),
    ]
}

/// Where `main` and `put` of the kernel are.
const FUNCTIONS: [(u32, u64); 2] = [(1, 0x8000_0000), (6, 0x8000_000c)];

fn put_u16(file: &mut Vec<u8>, number: u16) -> Result<(), AllocError> {
    file.extend_from_slice(&number.to_le_bytes())
}

fn put_u32(file: &mut Vec<u8>, number: u32) -> Result<(), AllocError> {
    file.extend_from_slice(&number.to_le_bytes())
}

fn put_u64(file: &mut Vec<u8>, number: u64) -> Result<(), AllocError> {
    file.extend_from_slice(&number.to_le_bytes())
}

/// 64 bytes: execution begins at this address, program headers stand at 64, three section headers behind all else.
fn put_header(
    file: &mut Vec<u8>,
    entry: u64,
    pieces: u16,
    sections: u64,
) -> Result<(), AllocError> {
    file.extend_from_slice(&ELF_MARK)?;
    file.extend_from_slice(&[ELFCLASS64, ELFDATA2LSB, 1, 0])?;
    put_u64(file, 0)?;
    put_u16(file, ET_EXEC)?;
    put_u16(file, EM_RISCV)?;
    put_u32(file, 1)?;
    put_u64(file, entry)?;
    put_u64(file, 64)?;
    put_u64(file, sections)?;
    put_u32(file, 0)?;
    for number in [64, 56, pieces, 64, 3, 0] {
        put_u16(file, number)?;
    }
    Ok(())
}

/// 56 bytes: a segment whose file bytes begin at this offset.
fn put_segment(file: &mut Vec<u8>, offset: u64, piece: &Piece) -> Result<(), AllocError> {
    put_u32(file, PT_LOAD)?;
    put_u32(file, piece.flags)?;
    for number in [
        offset,
        piece.address,
        piece.place,
        piece.filesz,
        piece.memsz,
        4096,
    ] {
        put_u64(file, number)?;
    }
    Ok(())
}

/// 24 bytes: a symbol.
fn put_symbol(file: &mut Vec<u8>, name: u32, info: u8, value: u64) -> Result<(), AllocError> {
    put_u32(file, name)?;
    file.extend_from_slice(&[info, 0, 0, 0])?;
    put_u64(file, value)?;
    put_u64(file, 0)
}

/// 64 bytes: a section.
fn put_section(
    file: &mut Vec<u8>,
    kind: u32,
    offset: u64,
    size: u64,
    link: u32,
) -> Result<(), AllocError> {
    put_u32(file, 0)?;
    put_u32(file, kind)?;
    for number in [0, 0, offset, size] {
        put_u64(file, number)?;
    }
    put_u32(file, link)?;
    put_u32(file, 0)?;
    put_u64(file, 8)?;
    put_u64(file, 0)
}

/// The most segments and functions that a file is laid out with here.
const MOST: usize = 100;

/// A file of these segments and functions: headers, 24 bytes of text, symbols, strings, sections.
fn elf(
    alloc: Global,
    entry: u64,
    pieces: &[Piece],
    functions: &[(u32, u64)],
) -> Result<Vec<u8>, AllocError> {
    let count = pieces.len().min(MOST) as u16;
    let text = 64 + 56 * count as u64;
    let symbols = text + 24;
    let size = 24 * (1 + functions.len().min(MOST) as u64);
    let strings = symbols + size;
    let mut file = Vec::new(alloc);
    put_header(&mut file, entry, count, strings + 16)?;
    for piece in pieces {
        put_segment(&mut file, text, piece)?;
    }
    file.extend_from_slice(&TEXT)?;
    put_symbol(&mut file, 0, 0, 0)?;
    for (name, address) in functions {
        put_symbol(&mut file, *name, 0x12, *address)?;
    }
    file.extend_from_slice(b"\0main\0put\0\0\0\0\0\0\0")?;
    put_section(&mut file, 0, 0, 0, 0)?;
    put_section(&mut file, SHT_SYMTAB, symbols, size, 2)?;
    put_section(&mut file, 3, strings, 10, 0)?;
    Ok(file)
}

/// The file with these bytes at these offsets.
fn patched(alloc: Global, file: &[u8], patches: &[(usize, u8)]) -> Result<Vec<u8>, AllocError> {
    let mut patched = Vec::from_slice(alloc, file)?;
    for (at, byte) in patches {
        if *at < patched.len() {
            patched[*at] = *byte;
        }
    }
    Ok(patched)
}

/// Entry, ranges, functions and data parts in one line.
fn told(alloc: Global, kernel: &ElfParts) -> Result<String, Fail> {
    let mut told = format!(in alloc; "{:x}", kernel.entry)?;
    for range in kernel.ranges.spans() {
        let line = format!(in alloc; " {:x}-{:x}", range.start.0, range.end.0)?;
        told.push_str(line.as_str())?;
    }
    for function in kernel.functions.as_slice() {
        let name = str::from_utf8(function.name.as_slice())?;
        let line = format!(in alloc; " {name}@{}+{}", function.at.range, function.at.offset)?;
        told.push_str(line.as_str())?;
    }
    for (place, bytes) in kernel.parts.as_slice() {
        let line = format!(in alloc; " {place:x}:{}/{}", bytes.written().len(), bytes.len())?;
        told.push_str(line.as_str())?;
    }
    Ok(told)
}

#[test]
fn kernel_is_read(rt: HostRuntime) -> Result<(), Fail> {
    let alloc = rt.alloc();
    let file = elf(alloc, 0x8000_0000, &kernel(), &FUNCTIONS)?;
    assert_eq!(rt; file.len(), 480);
    let Ok(kernel) = read_elf(alloc, file.as_slice()) else {
        panic!(rt; "the kernel is refused");
    };
    let line = told(alloc, &kernel)?;
    assert_eq!(rt;
        line.as_str(),
        "80000000 80000000-80001000 main@0+0 put@0+12 80001000:2/4"
    );
    let text = kernel.ranges.bytes();
    assert!(rt; text.starts_with(&TEXT));
    assert_eq!(rt; text.iter().filter(|byte| **byte != 0).count(), 15);
    Ok(())
}

#[test]
fn segments_of_code_become_ranges(rt: HostRuntime) -> Result<(), Fail> {
    let alloc = rt.alloc();
    let first = segment(5, 0x8000_0000, 24, 24);
    let next = segment(5, 0x8000_1000, 24, 24);
    let apart = segment(5, 0x8000_2000, 24, 24);
    let last = segment(5, 0x83ff_f000, 8, 4096);
    let high = Piece {
        flags: 5,
        address: 0xffff_ffff_8000_0000,
        place: 0x8000_2000,
        filesz: 24,
        memsz: 24,
    };
    let hidden = Piece {
        address: 0x8000_0000,
        ..apart
    };
    for (label, entry, pieces, functions, want) in [
        (
            "that touch after padding are one",
            0x8000_1004,
            [first, next].as_slice(),
            [(1, 0x8000_0000), (6, 0x8000_1004)].as_slice(),
            "80001004 80000000-80002000 main@0+0 put@0+4100",
        ),
        (
            "in order of place",
            0x8000_1004,
            [next, first].as_slice(),
            [(6, 0x8000_1004), (1, 0x8000_0000)].as_slice(),
            "80001004 80000000-80002000 main@0+0 put@0+4100",
        ),
        (
            "apart are two, with starts in each",
            0x8000_2002,
            [first, apart].as_slice(),
            [(1, 0x8000_000c), (6, 0x8000_2004), (1, 0x8000_1000)].as_slice(),
            "80002002 80000000-80001000 80002000-80003000 (head)@0+0 main@0+12 (head)@1+0 put@1+4",
        ),
        (
            "four, two of which touch",
            0x8000_0000,
            [apart, last, next, first].as_slice(),
            [(1, 0x83ff_fffe)].as_slice(),
            "80000000 80000000-80003000 83fff000-84000000 (head)@0+0 (head)@1+0 main@1+4094",
        ),
        (
            "at addresses of their own",
            0xffff_ffff_8000_0004,
            [first, high].as_slice(),
            [(1, 0xffff_ffff_8000_000c), (6, 0x8000_2000)].as_slice(),
            "80002004 80000000-80001000 80002000-80003000 (head)@0+0 (head)@1+0 main@1+12",
        ),
        (
            "of which the first has an address",
            0x8000_0000,
            [hidden, first].as_slice(),
            [(1, 0x8000_000c)].as_slice(),
            "80002000 80000000-80001000 80002000-80003000 (head)@0+0 (head)@1+0 main@1+12",
        ),
    ] {
        let file = elf(alloc, entry, pieces, functions)?;
        let Ok(kernel) = read_elf(alloc, file.as_slice()) else {
            panic!(rt; "segments {label}: refused");
        };
        let line = told(alloc, &kernel)?;
        assert_eq!(rt; line.as_str(), want, "segments {label}");
    }
    Ok(())
}

#[test]
fn segments_that_make_no_text_are_refused(rt: HostRuntime) -> Result<(), Fail> {
    let alloc = rt.alloc();
    let first = segment(5, 0x8000_0000, 24, 24);
    let next = segment(5, 0x8000_1000, 24, 24);
    let apart = segment(5, 0x8000_2000, 24, 24);
    let more = segment(5, 0x8000_3000, 24, 24);
    for (label, pieces, want) in [
        (
            "five, though all touch",
            [first, next, apart, more, segment(5, 0x8000_4000, 24, 24)].as_slice(),
            ElfFault::TooManyTexts,
        ),
        (
            "one of which may be written",
            [first, segment(7, 0x8000_1000, 24, 24)].as_slice(),
            ElfFault::WritableText,
        ),
        (
            "twice at one place",
            [first, first].as_slice(),
            ElfFault::Misplaced,
        ),
        (
            "in a page of another one",
            [segment(5, 0x8000_0000, 24, 4097), next].as_slice(),
            ElfFault::Misplaced,
        ),
        (
            "one not at a page",
            [first, segment(5, 0x8000_2002, 24, 24)].as_slice(),
            ElfFault::Misplaced,
        ),
        (
            "with data in a page of the second",
            [first, apart, segment(6, 0x8000_2ffe, 0, 2)].as_slice(),
            ElfFault::Misplaced,
        ),
        (
            "of more than 1,024 pages in all",
            [first, segment(5, 0x8000_1000, 0, 0x40_0000)].as_slice(),
            ElfFault::TooLarge,
        ),
    ] {
        let file = elf(alloc, 0x8000_0000, pieces, &FUNCTIONS)?;
        match read_elf(alloc, file.as_slice()) {
            Ok(_) => panic!(rt; "segments {label}: taken"),
            Err(fault) => assert_eq!(rt; fault, want, "segments {label}"),
        }
    }
    Ok(())
}

#[test]
fn data_over_data_is_taken_as_often_as_it_comes(rt: HostRuntime) -> Result<(), Fail> {
    let alloc = rt.alloc();
    let mut pieces = Vec::new(alloc);
    pieces.push(segment(5, 0x8000_0000, 24, 24))?;
    for _ in 0..65 {
        pieces.push(segment(6, 0x8000_1000, 24, 0x10_0000))?;
    }
    let file = elf(alloc, 0x8000_0000, pieces.as_slice(), &FUNCTIONS)?;
    let Ok(kernel) = read_elf(alloc, file.as_slice()) else {
        panic!(rt; "the kernel is refused");
    };
    let parts = kernel.parts.as_slice();
    assert_eq!(rt; parts.len(), 65);
    for (place, bytes) in parts {
        assert_eq!(rt; (*place, bytes.len()), (0x8000_1000, 0x10_0000));
        assert_eq!(rt; bytes.written(), TEXT.as_slice());
    }
    Ok(())
}

#[test]
fn first_fault_is_answered(rt: HostRuntime) -> Result<(), Fail> {
    let alloc = rt.alloc();
    let file = elf(alloc, 0x8000_0000, &kernel(), &FUNCTIONS)?;
    for (patches, want) in [
        ([(1, 0), (4, 1)], ElfFault::NotElf),
        ([(4, 1), (40, 0xff)], ElfFault::WrongKind),
        ([(54, 55), (54, 55)], ElfFault::WrongKind),
        ([(40, 0xff), (68, 4)], ElfFault::Truncated),
        ([(73, 0xff), (68, 4)], ElfFault::Truncated),
        ([(392, 3), (68, 4)], ElfFault::Truncated),
        ([(68, 4), (24, 1)], ElfFault::NoText),
        ([(124, 7), (68, 7)], ElfFault::WritableText),
        ([(68, 7), (96, 25)], ElfFault::WritableText),
        ([(96, 25), (256, 13)], ElfFault::Misplaced),
        ([(145, 0), (256, 13)], ElfFault::Misplaced),
        ([(88, 8), (256, 13)], ElfFault::Misplaced),
        ([(256, 13), (24, 1)], ElfFault::OddFunction),
        ([(106, 0x50), (146, 0x80)], ElfFault::TooLarge),
        ([(24, 1), (24, 1)], ElfFault::EntryOutside),
        ([(25, 0x10), (25, 0x10)], ElfFault::EntryOutside),
    ] {
        let file = patched(alloc, file.as_slice(), patches.as_slice())?;
        match read_elf(alloc, file.as_slice()) {
            Ok(_) => panic!(rt; "a damaged file is taken"),
            Err(fault) => assert_eq!(rt; fault, want),
        }
    }
    Ok(())
}
