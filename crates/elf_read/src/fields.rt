//! What stands in an ELF file, read at an offset; names are those of ELF-64.

ghost use Rattle.std.specs.Prelude.{◌≡◌, ◌+◌, ◌<◌, ◌^◌, slice_index};
ghost use Rattle.elf_read.specs.Fields.{u16_at, u32_at, u64_at, header_of, program_header, section_header, symbol};

use fc_numbers::places::Gpa;

/// `e_ident[EI_CLASS]`: 64-bit objects.
pub const ELFCLASS64: u8 = 2;

/// `e_ident[EI_DATA]`: little endian.
pub const ELFDATA2LSB: u8 = 1;

/// `e_type`: an executable file.
pub const ET_EXEC: u16 = 2;

/// `e_machine`: RISC-V.
pub const EM_RISCV: u16 = 243;

/// `p_type`: a segment that is loaded.
pub const PT_LOAD: u32 = 1;

/// `p_flags`: the segment is executable.
pub const PF_X: u32 = 1;

/// `p_flags`: the segment is writable.
pub const PF_W: u32 = 2;

/// `sh_type`: a table of symbols.
pub const SHT_SYMTAB: u32 = 2;

/// `sh_flags`: the section is compressed.
pub const SHF_COMPRESSED: u64 = 0x800;

/// The low four bits of `st_info`: a function.
pub const STT_FUNC: u8 = 2;

/// The bytes of the ELF header.
pub const EHDR_SIZE: u64 = 64;

/// The bytes of a program header.
pub const PHDR_SIZE: u64 = 56;

/// The bytes of a section header.
pub const SHDR_SIZE: u64 = 64;

/// The bytes of a symbol.
pub const SYM_SIZE: u64 = 24;

/// The ELF header: where execution begins, and where and how many the headers of segments and sections are.
#[derive(Clone, Copy)]
pub struct Header {
    pub e_entry: u64,
    pub e_phoff: u64,
    pub e_shoff: u64,
    pub e_phnum: u16,
    pub e_shnum: u16,
}

/// A program header: a piece of the file, and where it stands in memory.
#[derive(Clone, Copy)]
pub struct ProgramHeader {
    pub p_type: u32,
    pub p_flags: u32,
    pub p_offset: u64,
    pub p_vaddr: u64,
    pub p_paddr: Gpa,
    pub p_filesz: u64,
    pub p_memsz: u64,
}

/// A section header: a piece of the file, and what it holds.
#[derive(Clone, Copy)]
pub struct SectionHeader {
    pub sh_type: u32,
    pub sh_flags: u64,
    pub sh_offset: u64,
    pub sh_size: u64,
    pub sh_link: u32,
}

/// A symbol: the offset of its name in the strings, its type and its address.
#[derive(Clone, Copy)]
pub struct Symbol {
    pub st_name: u32,
    pub st_info: u8,
    pub st_value: u64,
}

/// A byte of the file, 0 past its end.
fn u8_at(file: &[u8], at: u64) -> u8
    ensures { result ≡ slice_index file.now at }
{
    if at < file.len() as u64 {
        file[at as usize]
    } else {
        0
    }
}

/// A number of 2 bytes.
#[tactic(auto, unfolding(crate::specs::Fields::u16_at))]
pub fn u16_at(file: &[u8], at: u64) -> u16
    requires { at + 2 < 2 ^ 64 }
    ensures { result ≡ u16_at file.now at }
{
    u8_at(file, at) as u16 + 0x100 * u8_at(file, at + 1) as u16
}

/// A number of 4 bytes.
#[tactic(auto, unfolding(crate::specs::Fields::u32_at))]
fn u32_at(file: &[u8], at: u64) -> u32
    requires { at + 4 < 2 ^ 64 }
    ensures { result ≡ u32_at file.now at }
{
    u16_at(file, at) as u32 + 0x1_0000 * u16_at(file, at + 2) as u32
}

/// A number of 8 bytes.
#[tactic(auto, unfolding(crate::specs::Fields::u64_at))]
fn u64_at(file: &[u8], at: u64) -> u64
    requires { at + 8 < 2 ^ 64 }
    ensures { result ≡ u64_at file.now at }
{
    u32_at(file, at) as u64 + 0x1_0000_0000 * u32_at(file, at + 4) as u64
}

/// The header of the file.
#[tactic(auto, unfolding(crate::specs::Fields::header_of))]
pub fn read_header(file: &[u8]) -> Header
    ensures { result ≡ header_of file.now }
{
    Header {
        e_entry: u64_at(file, 24),
        e_phoff: u64_at(file, 32),
        e_shoff: u64_at(file, 40),
        e_phnum: u16_at(file, 56),
        e_shnum: u16_at(file, 60),
    }
}

/// The program header at this offset.
#[tactic(auto, unfolding(crate::specs::Fields::program_header))]
pub fn read_program_header(file: &[u8], at: u64) -> ProgramHeader
    requires { at + 56 < 2 ^ 64 }
    ensures { result ≡ program_header file.now at }
{
    ProgramHeader {
        p_type: u32_at(file, at),
        p_flags: u32_at(file, at + 4),
        p_offset: u64_at(file, at + 8),
        p_vaddr: u64_at(file, at + 16),
        p_paddr: Gpa(u64_at(file, at + 24)),
        p_filesz: u64_at(file, at + 32),
        p_memsz: u64_at(file, at + 40),
    }
}

/// The section header at this offset.
#[tactic(auto, unfolding(crate::specs::Fields::section_header))]
pub fn read_section_header(file: &[u8], at: u64) -> SectionHeader
    requires { at + 64 < 2 ^ 64 }
    ensures { result ≡ section_header file.now at }
{
    SectionHeader {
        sh_type: u32_at(file, at + 4),
        sh_flags: u64_at(file, at + 8),
        sh_offset: u64_at(file, at + 24),
        sh_size: u64_at(file, at + 32),
        sh_link: u32_at(file, at + 40),
    }
}

/// The symbol at this offset.
#[tactic(auto, unfolding(crate::specs::Fields::symbol))]
pub fn read_symbol(file: &[u8], at: u64) -> Symbol
    requires { at + 24 < 2 ^ 64 }
    ensures { result ≡ symbol file.now at }
{
    Symbol {
        st_name: u32_at(file, at),
        st_info: u8_at(file, at + 4),
        st_value: u64_at(file, at + 8),
    }
}

impl ProgramHeader {
    ghost use Rattle.elf_read.specs.Fields.{is_segment, is_executable, is_writable_segment};

    /// Whether the segment is loaded and takes memory.
    pub fn is_segment(&self) -> bool
        ensures { result ≡ is_segment self.now }
    {
        self.p_type == PT_LOAD && self.p_memsz > 0
    }

    /// Whether the segment may be executed.
    pub fn is_executable(&self) -> bool
        ensures { result ≡ is_executable self.now }
    {
        self.p_flags & PF_X != 0
    }

    /// Whether the segment may be written.
    pub fn is_writable(&self) -> bool
        ensures { result ≡ is_writable_segment self.now }
    {
        self.p_flags & PF_W != 0
    }
}

impl SectionHeader {
    ghost use Rattle.elf_read.specs.Fields.{is_symbol_table};

    /// Whether the section is a table of symbols that is not compressed.
    pub fn is_symbol_table(&self) -> bool
        ensures { result ≡ is_symbol_table self.now }
    {
        self.sh_type == SHT_SYMTAB && self.sh_flags & SHF_COMPRESSED == 0
    }
}

impl Symbol {
    ghost use Rattle.elf_read.specs.Fields.{is_function_symbol};

    /// Whether the symbol is a function's.
    pub fn is_function(&self) -> bool
        ensures { result ≡ is_function_symbol self.now }
    {
        self.st_info % 16 == STT_FUNC
    }
}
