//! Page-table entries and the levels of a table, as both stages of translation have them.
//!
//! The bits of an entry have the manual's names (privileged manual, "Sv39: Page-Based 39-bit Virtual-Memory System").
//! A table has 512 entries of [`PTE_SIZE`] bytes; level 0 is the lowest, and each level above takes 9 bits more of an
//! address. MODE of satp says how many levels there are. Addresses and entries are plain numbers here: the walks stand above.
#![tactic(auto)]

ghost use Rattle.std.specs.Prelude.{◌≡◌, ◌<◌, ◌≤◌, ◌%◌, ◌^◌};
ghost use Rattle.page_table.specs.Entry.{has_bit, is_aligned, is_leaf, ppn};
ghost use Rattle.page_table.specs.Level.{index_at, page_size};
ghost use Rattle.page_table.specs.Mode.{is_canonical, levels_of, satp_mode};

/// The bytes of an entry.
pub const PTE_SIZE: u64 = 8;

/// The entry is valid.
pub const PTE_V: u32 = 0;

/// The page may be loaded from.
pub const PTE_R: u32 = 1;

/// The page may be stored to.
pub const PTE_W: u32 = 2;

/// The page may be run.
pub const PTE_X: u32 = 3;

/// The page is a user page.
pub const PTE_U: u32 = 4;

/// The page was accessed.
pub const PTE_A: u32 = 6;

/// The page was written to.
pub const PTE_D: u32 = 7;

/// The lowest bit of the page number in an entry.
pub const PPN_SHIFT: u32 = 10;

/// The page numbers that an entry can name: 44 bits.
pub const PPN_COUNT: u64 = 0x1000_0000_0000;

/// The levels of the deepest table, that of Sv48.
pub const LEVELS_MOST: u64 = 4;

/// MODE of satp for Bare: no translation.
pub const MODE_BARE: u64 = 0;

/// MODE of satp for Sv39, three levels.
pub const MODE_SV39: u64 = 8;

/// MODE of satp for Sv48, four levels.
pub const MODE_SV48: u64 = 9;

/// The lowest bit of MODE in satp, which has bits 63 to 60.
pub const MODE_SHIFT: u32 = 60;

/// Whether a bit of the entry is set.
pub fn has_bit(pte: u64, bit: u32) -> bool
    requires { bit < 64 }
    ensures { result ≡ has_bit pte bit }
{
    (pte >> bit) % 2 == 1
}

/// The number of the page that the entry names.
pub fn page_number(pte: u64) -> u64
    ensures value { result ≡ ppn pte }
    ensures low { result < 2 ^ 44 }
{
    (pte >> PPN_SHIFT) % PPN_COUNT
}

/// Whether the entry maps a page; else it points to a table.
pub fn is_leaf(pte: u64) -> bool
    ensures { result ≡ is_leaf pte }
{
    has_bit(pte, PTE_R) || has_bit(pte, PTE_X)
}

/// MODE of a satp.
pub fn mode_of(satp: u64) -> u64
    ensures { result ≡ satp_mode satp }
{
    satp >> MODE_SHIFT
}

/// How many levels the tables have that satp asks for, where it asks for any.
pub fn levels_of(satp: u64) -> u64
    ensures value { result ≡ levels_of satp }
    ensures some { 3 ≤ result }
    ensures most { result ≤ LEVELS_MOST }
{
    if mode_of(satp) == MODE_SV48 { 4 } else { 3 }
}

/// Whether tables of so many levels, three or four, map the address: 39 or 48 bits, extended by its sign.
pub fn is_canonical(levels: u64, address: u64) -> bool
    requires some { 3 ≤ levels }
    requires most { levels ≤ LEVELS_MOST }
    ensures { result ≡ is_canonical levels address }
{
    let above = if levels == 3 {
        (address >> 38, 0x3ff_ffff)
    } else {
        (address >> 47, 0x1_ffff)
    };
    above.0 == 0 || above.0 == above.1
}

/// Whether the page of a leaf of this level is the first of as many as the leaf maps.
pub fn is_aligned(pte: u64, level: u64) -> bool
    requires { level < LEVELS_MOST }
    ensures { result ≡ is_aligned level pte }
{
    let page = page_number(pte);
    match level {
        0 => true,
        1 => page % 0x200 == 0,
        2 => page % 0x4_0000 == 0,
        _ => page % 0x800_0000 == 0,
    }
}

/// The number of the entry for an address in a table of the level. Each arm divides by a constant, since this stands on
/// the way of every access.
pub fn index(address: u64, level: u64) -> u64
    requires { level < LEVELS_MOST }
    ensures value { result ≡ index_at level address }
    ensures low { result < 512 }
{
    match level {
        0 => (address >> 12) % 512,
        1 => (address >> 21) % 512,
        2 => (address >> 30) % 512,
        _ => (address >> 39) % 512,
    }
}

/// The offset of the address, in bytes, in the page that a leaf of the level maps.
pub fn within_page(address: u64, level: u64) -> u64
    requires { level < LEVELS_MOST }
    ensures value { result ≡ address % page_size level }
    ensures within { result % 4096 ≡ address % 4096 }
    ensures low { result < 2 ^ 39 }
{
    match level {
        0 => address % 0x1000,
        1 => address % 0x20_0000,
        2 => address % 0x4000_0000,
        _ => address % 0x80_0000_0000,
    }
}

#[cfg(test)]
mod tests {
    use super::*;

    #[test]
    fn levels_take_nine_bits_each_above_the_page(rt: HostRuntime) {
        let address = 0x1234_5678_9abc_def0;
        for (level, number, offset) in [
            (0, 0x1cd, 0xef0),
            (1, 0x0d5, 0x1c_def0),
            (2, 0x1e2, 0x1abc_def0),
            (3, 0x0ac, 0x78_9abc_def0),
        ] {
            assert_eq!(rt; index(address, level), number, "level {level}");
            assert_eq!(rt; within_page(address, level), offset, "level {level}");
        }
    }
}
