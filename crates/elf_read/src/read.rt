//! Reading a kernel from an ELF file.

ghost use Rattle.std.specs.Prelude.{◌≡◌, ◌≢◌, ℕ, List, true, map, IfOk, IfErr, Ok, Err};
ghost use Rattle.std.specs.List.{list_all, list_any};
ghost use Rattle.guest_input.specs.Accepted.{IsImage};
ghost use Rattle.elf_read.specs.Fields.{is_writable_segment, segments_in, sections_in};
ghost use Rattle.elf_read.specs.Elf.{has_mark, has_entries, is_kind, are_tables, is_loaded, code_of, data_of, segment_of, layout_of, are_symbols, symbol_table, named_by, laid_by, elf_of};
ghost use Rattle.elf_read.specs.Kernel.{image_with};

use crate::fields::{
    EHDR_SIZE, ELFCLASS64, ELFDATA2LSB, EM_RISCV, ET_EXEC, Header, PHDR_SIZE, ProgramHeader,
    SHDR_SIZE, read_header, u16_at,
};
use crate::kernel::kernel_of_laid;
use crate::laid::{Laid, NamedPlace, Segment};
use crate::parts::{ElfFault, ElfParts};
use crate::tables::{
    are_symbols, is_inside, named_by, piece, place_of_address, sections, segments, symbol_table,
};
use fc_numbers::memory::NoMemory;
use sqlite_items::Items;
use std::alloc::Global;

/// The first bytes of an ELF file.
pub const ELF_MARK: [u8; 4] = [0x7f, b'E', b'L', b'F'];

/// Whether the file begins as an ELF file does.
#[tactic(auto, unfolding(crate::specs::Elf::has_mark))]
pub fn has_mark(file: &[u8]) -> bool
    ensures { result ≡ has_mark file.now }
{
    match file.get(..4) {
        Some(mark) => mark == ELF_MARK.as_slice(),
        None => false,
    }
}

fn has_entries(count: u16, size: u16, want: u64) -> bool
    ensures { result ≡ has_entries count size want }
{
    count == 0 || size as u64 == want
}

/// Whether a file with a whole header is an executable of 64 bits for RISC-V, little endian.
#[tactic(auto, unfolding(crate::specs::Elf::is_kind))]
fn is_kind(file: &[u8]) -> bool
    ensures { result ≡ is_kind file.now }
{
    (file.len() as u64) < EHDR_SIZE
        || (file[4] == ELFCLASS64
            && file[5] == ELFDATA2LSB
            && u16_at(file, 16) == ET_EXEC
            && u16_at(file, 18) == EM_RISCV
            && has_entries(u16_at(file, 56), u16_at(file, 54), PHDR_SIZE)
            && has_entries(u16_at(file, 60), u16_at(file, 58), SHDR_SIZE))
}

/// Whether the tables of headers are inside the file.
#[tactic(auto, unfolding(crate::specs::Elf::are_tables))]
fn are_tables(file: &[u8], header: &Header) -> bool
    ensures { result ≡ are_tables file.now header.now }
{
    is_inside(file, header.e_phoff, PHDR_SIZE * header.e_phnum as u64)
        && is_inside(file, header.e_shoff, SHDR_SIZE * header.e_shnum as u64)
}

/// Whether the file bytes of each segment are inside the file.
fn are_loaded(file: &[u8], segments: &[ProgramHeader]) -> bool
    ensures { result ≡ list_all (is_loaded file.now) segments.now }
{
    segments.iter().all(|segment| is_inside(file, segment.p_offset, segment.p_filesz))
}

fn code_of(alloc: Global, segments: &[ProgramHeader]) -> Result<Vec<ProgramHeader>, NoMemory>
    ensures { IfOk result (λ found. found.items ≡ code_of segments.now) }
{
    Ok(
        segments
            .iter()
            .copied()
            .filter(|segment| segment.is_executable())
            .collect(alloc)?,
    )
}

fn data_of(alloc: Global, segments: &[ProgramHeader]) -> Result<Vec<ProgramHeader>, NoMemory>
    ensures { IfOk result (λ found. found.items ≡ data_of segments.now) }
{
    Ok(
        segments
            .iter()
            .copied()
            .filter(|segment| !segment.is_executable())
            .collect(alloc)?,
    )
}

/// The segment of a header, with its bytes of the file.
fn segment_of(alloc: Global, file: &[u8], header: &ProgramHeader) -> Result<Segment, NoMemory>
    requires { is_loaded file.now header.now ≡ true }
    ensures { IfOk result (λ segment. segment ≡ segment_of file.now header.now) }
{
    let bytes = Items::from_slice(alloc, piece(file, header.p_offset, header.p_filesz))?;
    Ok(Segment {
        place: header.p_paddr,
        bytes,
        size: header.p_memsz,
    })
}

/// The segments of headers, with their bytes of the file.
fn loaded(alloc: Global, file: &[u8], headers: &[ProgramHeader]) -> Result<Vec<Segment>, NoMemory>
    requires { list_all (is_loaded file.now) headers.now ≡ true }
    ensures { IfOk result (λ segments. segments.items ≡ map (segment_of file.now) headers.now) }
{
    let mut segments = Vec::new(alloc);
    for header in headers {
        segments.push(segment_of(alloc, file, header)?)?;
    }
    Ok(segments)
}

fn are_writable(code: &[ProgramHeader]) -> bool
    ensures { result ≡ list_any is_writable_segment code.now }
{
    code.iter().any(|segment| segment.is_writable())
}

/// What the segments lay out, with functions at these places.
fn layout(
    alloc: Global,
    file: &[u8],
    header: &Header,
    segments: &[ProgramHeader],
    code: &[ProgramHeader],
    named: Items<NamedPlace>,
) -> Result<Laid, NoMemory>
    requires loaded { list_all (is_loaded file.now) segments.now ≡ true }
    requires code { code.now ≡ code_of segments.now }
    ensures { IfOk result (λ laid. laid ≡ layout_of file.now header.now segments.now named) }
{
    let others = data_of(alloc, segments)?;
    Ok(Laid {
        code: loaded(alloc, file, code)?,
        parts: loaded(alloc, file, others.as_slice())?,
        writable: are_writable(code),
        named,
        entry: place_of_address(code, header.e_entry),
    })
}

/// The kernel that the tables of the file give, or the first fault.
#[tactic(auto, unfolding(crate::specs::Elf::laid_by, crate::specs::Elf::are_tables))]
fn kernel_by(alloc: Global, file: &[u8], header: &Header) -> Result<ElfParts, ElfFault>
    requires { are_tables file.now header.now ≡ true }
    ensures ok { IfOk result (λ kernel. laid_by file.now header.now (segments_in file.now header.now) (sections_in file.now header.now) ≡ Ok kernel) }
    ensures err { IfErr result (λ fault. fault ≢ ElfFault.NoMemory → laid_by file.now header.now (segments_in file.now header.now) (sections_in file.now header.now) ≡ Err fault) }
    ensures image { IfOk result (λ kernel. (digest : List ℕ) → IsImage (image_with digest kernel)) }
{
    let segments = segments(alloc, file, header)?;
    if !are_loaded(file, segments.as_slice()) {
        return Err(ElfFault::Truncated);
    }
    let sections = sections(alloc, file, header)?;
    let table = symbol_table(sections.as_slice());
    if !are_symbols(file, sections.as_slice(), table) {
        return Err(ElfFault::Truncated);
    }
    let code = code_of(alloc, segments.as_slice())?;
    let named = named_by(alloc, file, code.as_slice(), sections.as_slice(), table)?;
    let laid = layout(
        alloc,
        file,
        header,
        segments.as_slice(),
        code.as_slice(),
        named,
    )?;
    kernel_of_laid(alloc, laid)
}

/// The kernel that the file holds, or the first fault. Want of memory may be answered at any point.
#[tactic(auto, unfolding(crate::specs::Elf::elf_of))]
pub fn read_elf(alloc: Global, file: &[u8]) -> Result<ElfParts, ElfFault>
    ensures ok { IfOk result (λ kernel. elf_of file.now ≡ Ok kernel) }
    ensures err { IfErr result (λ fault. fault ≢ ElfFault.NoMemory → elf_of file.now ≡ Err fault) }
    // With any digest it is an image that may be run.
    ensures image { IfOk result (λ kernel. (digest : List ℕ) → IsImage (image_with digest kernel)) }
{
    if !has_mark(file) {
        return Err(ElfFault::NotElf);
    }
    if !is_kind(file) {
        return Err(ElfFault::WrongKind);
    }
    if (file.len() as u64) < EHDR_SIZE {
        return Err(ElfFault::Truncated);
    }
    let header = read_header(file);
    if !are_tables(file, &header) {
        return Err(ElfFault::Truncated);
    }
    kernel_by(alloc, file, &header)
}
