//! The segments, the sections and the named functions of a file.

ghost use Rattle.std.specs.Prelude.{◌≡◌, ◌≢◌, ◌≤◌, ◌<◌, ◌*◌, ◌+◌, ◌++◌, ◌∷◌, [], ℕ, true, ◌==◌, cond, length, take, drop, map, IfOk, IfSome, OnOk, option_copied, option_map, Some, None};
ghost use Rattle.std.specs.List.{filter, find, slice_get, before_first, position};
ghost use Rattle.elf_read.specs.Starts.{kept_name};
ghost use Rattle.elf_read.specs.Fields.{segment_at, segments_in, section_at, sections_in, is_segment, is_function_symbol, piece, string_at, named_at, named_of, named_in};
ghost use Rattle.elf_read.specs.Addresses.{is_within, has_address, place_of_address};
ghost use Rattle.elf_read.specs.declared.fields.TheConstants.{PHDR_SIZE, SHDR_SIZE};
ghost use Rattle.elf_read.specs.Elf.{is_inside_file, has_strings, are_symbols, symbol_table, strings_of, named_by};

use crate::fields::{
    Header, PHDR_SIZE, ProgramHeader, SHDR_SIZE, SYM_SIZE, SectionHeader, Symbol,
    read_program_header, read_section_header, read_symbol,
};
use crate::kernel::whole_pages;
use crate::laid::NamedPlace;
use crate::starts::{front, keep_name};
use fc_numbers::memory::NoMemory;
use fc_numbers::places::{Gpa, RAM_MOST, RAM_START};
use sqlite_items::Items;
use std::alloc::Global;

/// Whether a piece of the file is inside it. A piece of no bytes is, whatever its offset.
pub fn is_inside(file: &[u8], offset: u64, size: u64) -> bool
    ensures { result ≡ is_inside_file file.now offset size }
{
    let length = file.len() as u64;
    size == 0 || (offset <= length && size <= length - offset)
}

fn push_segment(segments: &mut Items<ProgramHeader>, segment: ProgramHeader) -> Result<(), NoMemory>
    ensures { OnOk result (segments.new ≡ segments.old ++ cond (is_segment segment) (segment ∷ []) []) }
{
    if segment.is_segment() {
        segments.push(segment)?;
    }
    Ok(())
}

/// The segments, in the order of their headers.
pub fn segments(
    alloc: Global,
    file: &[u8],
    header: &Header,
) -> Result<Items<ProgramHeader>, NoMemory>
    requires { is_inside_file file.now header.now.e_phoff (PHDR_SIZE * header.now.e_phnum) ≡ true }
    ensures { IfOk result (λ segments. segments ≡ segments_in file.now header.now) }
{
    let mut segments = Items::new(alloc);
    for n in 0..header.e_phnum {
        let segment = read_program_header(file, header.e_phoff + PHDR_SIZE * n as u64);
        push_segment(&mut segments, segment)?;
    }
    Ok(segments)
}

/// The sections, in the order of their headers.
pub fn sections(
    alloc: Global,
    file: &[u8],
    header: &Header,
) -> Result<Items<SectionHeader>, NoMemory>
    requires { is_inside_file file.now header.now.e_shoff (SHDR_SIZE * header.now.e_shnum) ≡ true }
    ensures { IfOk result (λ sections. sections ≡ sections_in file.now header.now) }
{
    let mut sections = Items::new(alloc);
    for n in 0..header.e_shnum {
        sections.push(read_section_header(file, header.e_shoff + SHDR_SIZE * n as u64))?;
    }
    Ok(sections)
}

/// The first table of symbols.
pub fn symbol_table(sections: &[SectionHeader]) -> Option<SectionHeader>
    ensures { result ≡ symbol_table sections.now }
{
    sections
        .iter()
        .copied()
        .find(|section| section.is_symbol_table())
}

/// The section of this number.
fn section(sections: &[SectionHeader], number: u32) -> Option<SectionHeader>
    ensures { result ≡ slice_get sections.now number }
{
    sections.get(number as usize).copied()
}

/// Whether the table of symbols and the section of its strings are inside the file.
pub fn are_symbols(file: &[u8], sections: &[SectionHeader], table: Option<SectionHeader>) -> bool
    ensures { result ≡ are_symbols file.now sections.now table }
{
    let Some(table) = table else {
        return true;
    };
    if !is_inside(file, table.sh_offset, table.sh_size) {
        return false;
    }
    match section(sections, table.sh_link) {
        Some(strings) => is_inside(file, strings.sh_offset, strings.sh_size),
        None => false,
    }
}

/// The bytes of a piece of the file.
pub fn piece(file: &[u8], offset: u64, size: u64) -> &[u8]
    requires { is_inside_file file.now offset size ≡ true }
    ensures { result.now ≡ piece file.now offset size }
{
    if size == 0 {
        &file[..0]
    } else {
        &file[offset as usize..(offset + size) as usize]
    }
}

/// What stands from this offset on.
fn rest(strings: &[u8], at: usize) -> &[u8]
    ensures { result.now ≡ drop at strings.now }
{
    if at < strings.len() {
        &strings[at..]
    } else {
        &strings[strings.len()..]
    }
}

/// Where the first zero byte is.
fn zero_at(bytes: &[u8]) -> Option<usize>
    ensures place { result ≡ position (λ byte. byte == 0) bytes.now }
    ensures within { IfSome result (λ at. at < length bytes.now) }
{
    bytes.iter().position(|byte| *byte == 0)
}

/// The bytes before the first zero byte.
fn before_zero(bytes: &[u8]) -> &[u8]
    ensures { result.now ≡ before_first (λ byte. byte == 0) bytes.now }
{
    match zero_at(bytes) {
        Some(end) => &bytes[..end],
        None => bytes,
    }
}

/// The name at this offset of the strings, as it is kept.
fn name_at(alloc: Global, strings: &[u8], at: u32) -> Result<Items<u8>, NoMemory>
    ensures { IfOk result (λ name. name ≡ kept_name (string_at strings.now at)) }
{
    keep_name(alloc, before_zero(front(rest(strings, at as usize))))
}

/// Whether the segment lies in the machine's largest RAM.
fn is_within(segment: &ProgramHeader) -> bool
    ensures { result ≡ is_within segment.now }
{
    RAM_START <= segment.p_paddr.0
        && segment.p_paddr.0 <= RAM_START + RAM_MOST
        && segment.p_memsz <= RAM_START + RAM_MOST - segment.p_paddr.0
}

/// Whether the segment lies in RAM and its pages hold the address.
fn has_address(segment: &ProgramHeader, address: u64) -> bool
    ensures { result ≡ has_address address segment.now }
{
    is_within(segment)
        && segment.p_vaddr <= address
        && address - segment.p_vaddr < whole_pages(segment.p_memsz)
}

/// The first of the segments that has the address.
fn segment_with(code: &[ProgramHeader], address: u64) -> Option<ProgramHeader>
    ensures { result ≡ find (has_address address) code.now }
{
    code.iter()
        .copied()
        .find(|segment| has_address(segment, address))
}

/// The place of an address, by the first executable segment that has it.
#[tactic(auto, unfolding(crate::specs::Addresses::place_of_address), using(crate::proofs::TableLemmas::found_passes))]
pub fn place_of_address(code: &[ProgramHeader], address: u64) -> Option<Gpa>
    ensures { result ≡ place_of_address code.now address }
{
    match segment_with(code, address) {
        Some(segment) => Some(Gpa(address - segment.p_vaddr + segment.p_paddr.0)),
        None => None,
    }
}

/// Puts the place of a symbol at the end, where it is a function's and its address has a place.
fn push_symbol(
    alloc: Global,
    named: &mut Items<NamedPlace>,
    code: &[ProgramHeader],
    strings: &[u8],
    symbol: Symbol,
) -> Result<(), NoMemory>
    ensures { OnOk result (named.new ≡ named.old ++ named_of code.now strings.now symbol) }
{
    if !symbol.is_function() {
        return Ok(());
    }
    if let Some(place) = place_of_address(code, symbol.st_value) {
        let name = name_at(alloc, strings, symbol.st_name)?;
        named.push(NamedPlace { place, name })?;
    }
    Ok(())
}

/// The functions of a table of symbols.
fn named_in(
    alloc: Global,
    file: &[u8],
    code: &[ProgramHeader],
    table: &SectionHeader,
    strings: &[u8],
) -> Result<Items<NamedPlace>, NoMemory>
    requires { is_inside_file file.now table.now.sh_offset table.now.sh_size ≡ true }
    ensures { IfOk result (λ named. named ≡ named_in file.now code.now table.now strings.now) }
{
    let mut named = Items::new(alloc);
    for n in 0..table.sh_size / SYM_SIZE {
        let symbol = read_symbol(file, table.sh_offset + SYM_SIZE * n);
        push_symbol(alloc, &mut named, code, strings, symbol)?;
    }
    Ok(named)
}

/// The bytes of the section of this number, where there is one.
fn strings<'f>(file: &'f [u8], strings: Option<SectionHeader>) -> &'f [u8]
    requires { has_strings file.now strings ≡ true }
    ensures { result.now ≡ strings_of file.now strings }
{
    match strings {
        Some(strings) => piece(file, strings.sh_offset, strings.sh_size),
        None => &file[..0],
    }
}

/// The functions that the file's symbols name, where their addresses have places.
pub fn named_by(
    alloc: Global,
    file: &[u8],
    code: &[ProgramHeader],
    sections: &[SectionHeader],
    table: Option<SectionHeader>,
) -> Result<Items<NamedPlace>, NoMemory>
    requires { are_symbols file.now sections.now table ≡ true }
    ensures { IfOk result (λ named. named ≡ named_by file.now code.now sections.now table) }
{
    match table {
        Some(table) => {
            let strings = strings(file, section(sections, table.sh_link));
            named_in(alloc, file, code, &table, strings)
        }
        None => Ok(Items::new(alloc)),
    }
}
