//! Walks over tables made by hand.

ghost use Rattle.std.specs.Prelude.{◌≡◌, ◌+◌, ◌∷◌, [], ℕ, IfOk, length};
ghost use Rattle.guest_ram.specs.Ram.{AreStampsBelow};
ghost use Rattle.sv39_walk.specs.Cache.{Fits, KeepsFits};

use super::*;
use crate::cache::WalkCache;
use crate::laws::{new_caches_fit, stores_keep_fits};
use fc_numbers::memory::NoMemory;
use fc_numbers::places::{RAM_START, Span};
use fc_numbers::spans::Spans;
use guest_ram::OutsideRam;
use std::alloc::Global;
use std::test::Fail;

const V: u64 = 0x01;

const R: u64 = 0x02;

const W: u64 = 0x04;

const X: u64 = 0x08;

const U: u64 = 0x10;

const G: u64 = 0x20;

const A: u64 = 0x40;

const D: u64 = 0x80;

/// Memory of five pages: the tables of levels 2, 1 and 0, the kernel's text, and one page more.
const SIZE: u64 = 5 * PAGE;

const TEXT: u64 = RAM_START + 3 * PAGE;

/// satp of MODE 8 with the page number of the level 2 table.
const SATP: u64 = 0x8000_0000_0008_0000;

/// Entry 1 at level 2, entry 2 at level 1, entry 3 at level 0.
const VA: u64 = 0x4040_3123;

/// Pointers to the pages of memory.
const TO_LEVEL_1: u64 = 0x8_0001 << 10 | V;

const TO_LEVEL_0: u64 = 0x8_0002 << 10 | V;

const TO_TEXT: u64 = 0x8_0003 << 10 | V;

const TO_PAST_END: u64 = 0x8_0005 << 10 | V;

/// Pages of 4 KiB, 2 MiB and 1 GiB, and the place of `VA` in each.
const PAGES: [(u64, Walked); 3] = [
    (0x1_2345 << 10, Walked::At(Gpa(0x1234_5123))),
    (0x1_2200 << 10, Walked::At(Gpa(0x1220_3123))),
    (0x8_0000 << 10, Walked::At(Gpa(0x8040_3123))),
];

fn empty_memory(alloc: Global) -> Result<GuestRam, NoMemory>
    ensures { IfOk result (λ ram. length ram.bytes ≡ 20480) }
{
    let mut text = Spans::new();
    text.push(Span {
        start: Gpa(TEXT),
        end: Gpa(TEXT + PAGE),
    });
    GuestRam::new(alloc, SIZE, text)
}

/// Memory in which the walk of `VA` comes to `pte` at the level.
fn tables(alloc: Global, level: u64, pte: u64) -> Result<GuestRam, NoMemory> {
    let mut ram = empty_memory(alloc)?;
    let at_level_2 = if level == 2 { pte } else { TO_LEVEL_1 };
    let at_level_1 = if level == 1 { pte } else { TO_LEVEL_0 };
    ram.place(Gpa(RAM_START + 8), &at_level_2.to_le_bytes());
    ram.place(Gpa(RAM_START + PAGE + 16), &at_level_1.to_le_bytes());
    ram.place(Gpa(RAM_START + 2 * PAGE + 24), &pte.to_le_bytes());
    Ok(ram)
}

#[test]
fn leaf_maps_or_faults_by_its_bits_alike_at_every_level(rt: HostRuntime) -> Result<(), Fail> {
    use Access::{Fetch, Load, Store};
    use Mode::{Vs, Vu};
    for (bits, mode, sum, mxr, access, maps) in [
        (V | R | A, Vs, false, false, Load, true),
        (V | R | W | A | D, Vs, false, false, Store, true),
        (V | X | A, Vs, false, false, Fetch, true),
        (V | R | A | G | 0x300, Vs, false, false, Load, true),
        (R | W | X | A | D, Vs, false, false, Load, false),
        (V | W | A | D, Vs, false, false, Store, false),
        (V | W | X | A | D, Vs, false, false, Fetch, false),
        (V | R | A | 1 << 54, Vs, false, false, Load, false),
        (V | R | A | 1 << 63, Vs, false, false, Load, false),
        (V | R | W | D, Vs, false, false, Load, false),
        (V | X | D, Vs, false, false, Fetch, false),
        (V | R | W | A, Vs, false, false, Load, true),
        (V | R | W | A, Vs, false, false, Store, false),
        (V | R | A | D, Vs, false, false, Store, false),
        (V | R | W | A | D, Vs, false, false, Fetch, false),
        (V | X | A, Vs, false, false, Load, false),
        (V | X | A, Vs, false, true, Load, true),
        (V | X | A | D, Vs, false, true, Store, false),
        (V | R | A, Vu, true, false, Load, false),
        (V | R | W | A | D, Vu, true, false, Store, false),
        (V | X | A, Vu, true, true, Fetch, false),
        (V | R | A | U, Vu, false, false, Load, true),
        (V | R | W | A | D | U, Vu, false, false, Store, true),
        (V | X | A | U, Vu, false, false, Fetch, true),
        (V | X | A | U, Vu, false, true, Load, true),
        (V | R | A | U, Vs, false, false, Load, false),
        (V | R | A | U, Vs, true, false, Load, true),
        (V | R | W | A | D | U, Vs, false, false, Store, false),
        (V | R | W | A | D | U, Vs, true, false, Store, true),
        (V | X | A | U, Vs, true, true, Fetch, false),
    ] {
        for (level, (page, place)) in [(0, PAGES[0]), (1, PAGES[1]), (2, PAGES[2])] {
            let ram = tables(rt.alloc(), level, page | bits)?;
            let want = if maps { place } else { Walked::PageFault };
            let got = walk(&ram, SATP, mode, sum, mxr, access, Va(VA));
            assert_eq!(rt; got, want, "bits {bits:#x} at level {level} for {access:?}");
        }
    }
    Ok(())
}

#[test]
fn pointer_and_superpage_fault_where_their_level_forbids_them(rt: HostRuntime) -> Result<(), Fail> {
    for (level, pte, want) in [
        (0, TO_LEVEL_0, Walked::PageFault),
        (1, TO_LEVEL_0 | U, Walked::PageFault),
        (1, TO_LEVEL_0 | A, Walked::PageFault),
        (1, TO_LEVEL_0 | D, Walked::PageFault),
        (2, TO_LEVEL_1 | U, Walked::PageFault),
        (2, TO_LEVEL_1 | A, Walked::PageFault),
        (2, TO_LEVEL_1 | D, Walked::PageFault),
        (1, TO_TEXT, Walked::TableInText),
        (2, TO_TEXT, Walked::TableInText),
        (1, TO_PAST_END, Walked::AccessFault),
        (2, TO_PAST_END, Walked::AccessFault),
        (1, 0x1_2201 << 10 | V | R | A, Walked::PageFault),
        (1, 0x1_2300 << 10 | V | R | A, Walked::PageFault),
        (2, 0x8_0001 << 10 | V | R | A, Walked::PageFault),
        (2, 0xa_0000 << 10 | V | R | A, Walked::PageFault),
    ] {
        let ram = tables(rt.alloc(), level, pte)?;
        let got = walk(&ram, SATP, Mode::Vs, false, false, Access::Load, Va(VA));
        assert_eq!(rt; got, want, "entry {pte:#x} at level {level}");
    }
    Ok(())
}

#[test]
fn root_table_and_sign_of_the_address_decide_first(rt: HostRuntime) -> Result<(), Fail> {
    let leaf: u64 = 0x8_0000 << 10 | V | R | A;
    let mut ram = empty_memory(rt.alloc())?;
    ram.place(Gpa(RAM_START), &leaf.to_le_bytes());
    ram.place(Gpa(RAM_START + 8 * 0x100), &leaf.to_le_bytes());
    ram.place(Gpa(RAM_START + SIZE - 8), &leaf.to_le_bytes());
    for (satp, va, want) in [
        (SATP, 0x123, Walked::At(Gpa(0x8000_0123))),
        (SATP, 0xffff_ffc0_0000_0123, Walked::At(Gpa(0x8000_0123))),
        (SATP, 0x0000_0040_0000_0123, Walked::PageFault),
        (SATP, 0xffff_ff80_0000_0123, Walked::PageFault),
        (SATP, 0x8000_0000_0000_0123, Walked::PageFault),
        (SATP, 0xffff_ffff_ffff_f123, Walked::PageFault),
        (SATP | 0xffff << 44, 0x123, Walked::At(Gpa(0x8000_0123))),
        (
            SATP + 4,
            0xffff_ffff_ffff_f123,
            Walked::At(Gpa(0xbfff_f123)),
        ),
        (SATP + 5, 0x123, Walked::AccessFault),
        (SATP - 1, 0xffff_ffff_ffff_f123, Walked::AccessFault),
        (SATP + 3, 0x123, Walked::TableInText),
        (0x8_0003, 0x123, Walked::At(Gpa(0x123))),
        (
            0x8_0000,
            0x8000_0000_0000_0123,
            Walked::At(Gpa(0x8000_0000_0000_0123)),
        ),
    ] {
        let got = walk(&ram, satp, Mode::Vs, false, false, Access::Load, Va(va));
        assert_eq!(rt; got, want, "satp {satp:#x} at {va:#x}");
    }
    Ok(())
}

/// satp of MODE 9 with the page number of the level 3 table, the first page of memory.
const SATP_SV48: u64 = 0x9000_0000_0008_0000;

/// Entry 5 at level 3, entry 1 at level 2, entry 2 at level 1, entry 3 at level 0.
const VA_SV48: u64 = 0x0280_4040_3123;

/// Memory in which the walk of `VA_SV48` begins with this entry at level 3, and can go on to level 0.
fn deep_tables(alloc: Global, at_level_3: u64) -> Result<GuestRam, NoMemory> {
    let leaf: u64 = 0x1_2345 << 10 | V | R | A;
    let to_level_1: u64 = 0x8_0002 << 10 | V;
    let to_level_0: u64 = 0x8_0004 << 10 | V;
    let mut ram = empty_memory(alloc)?;
    ram.place(Gpa(RAM_START + 8 * 5), &at_level_3.to_le_bytes());
    ram.place(Gpa(RAM_START + PAGE + 8), &to_level_1.to_le_bytes());
    ram.place(Gpa(RAM_START + 2 * PAGE + 16), &to_level_0.to_le_bytes());
    ram.place(Gpa(RAM_START + 4 * PAGE + 24), &leaf.to_le_bytes());
    Ok(ram)
}

#[test]
fn four_levels_are_read_where_satp_has_mode_9(rt: HostRuntime) -> Result<(), Fail> {
    let huge: u64 = 0x800_0000 << 10 | V | R | A;
    let huge_misaligned: u64 = 0x804_0000 << 10 | V | R | A;
    let to_level_2: u64 = 0x8_0001 << 10 | V;
    for (name, at_level_3, satp, va, want) in [
        (
            "four entries",
            to_level_2,
            SATP_SV48,
            VA_SV48,
            Walked::At(Gpa(0x1234_5123)),
        ),
        (
            "512 GiB",
            huge,
            SATP_SV48,
            VA_SV48,
            Walked::At(Gpa(0x80_4040_3123)),
        ),
        (
            "a leaf that is not aligned",
            huge_misaligned,
            SATP_SV48,
            VA_SV48,
            Walked::PageFault,
        ),
        (
            "a pointer with U",
            to_level_2 | U,
            SATP_SV48,
            VA_SV48,
            Walked::PageFault,
        ),
        (
            "bit 47 alone",
            to_level_2,
            SATP_SV48,
            0x8280_4040_3123,
            Walked::PageFault,
        ),
        (
            "bits 63 to 48 alone",
            to_level_2,
            SATP_SV48,
            0xffff_0280_4040_3123,
            Walked::PageFault,
        ),
        (
            "too wide for three levels",
            to_level_2,
            SATP,
            VA_SV48,
            Walked::PageFault,
        ),
    ] {
        let ram = deep_tables(rt.alloc(), at_level_3)?;
        let got = walk(&ram, satp, Mode::Vs, false, false, Access::Load, Va(va));
        assert_eq!(rt; got, want, "{name}");
    }
    Ok(())
}

/// satp of MODE 8 with the page number of the third page of memory.
const SATP_KEPT: u64 = 0x8000_0000_0008_0002;

/// The place of the leaf entry for the page at 0x80001000.
const LEAF: u64 = 0x8000_4008;

/// A leaf entry that maps a page to the first page of memory, to be run in supervisor mode.
const TO_FIRST_PAGE: u64 = 0x8_0000 << 10 | V | X | A | R;

/// The kernel's text: the first page of memory.
fn first_page() -> Spans
    ensures { result.items ≡ record { start = RAM_START; end = RAM_START + 4096 } ∷ [] }
{
    let mut text = Spans::new();
    text.push(Span {
        start: Gpa(RAM_START),
        end: Gpa(RAM_START + PAGE),
    });
    text
}

/// Memory of 64 KiB in which the pages at 0x80000000 and 0x80001000 both lead to the first page, the text.
fn memory_of_two_leaves(alloc: Global) -> Result<GuestRam, NoMemory>
    ensures text { IfOk result (λ ram. ram.text ≡ record { start = RAM_START; end = RAM_START + 4096 } ∷ []) }
    ensures stamps { IfOk result (λ ram. AreStampsBelow ram 1) }
{
    let mut ram = GuestRam::new(alloc, 0x1_0000, first_page())?;
    ram.place(Gpa(0x8000_2010), &0x2000_0c01_u64.to_le_bytes());
    ram.place(Gpa(0x8000_3000), &0x2000_1001_u64.to_le_bytes());
    ram.place(Gpa(0x8000_4000), &TO_FIRST_PAGE.to_le_bytes());
    ram.place(Gpa(LEAF), &TO_FIRST_PAGE.to_le_bytes());
    Ok(ram)
}

/// Stores a leaf entry, as a guest does.
fn store_leaf(ram: &mut GuestRam, pte: u64) -> Result<(), OutsideRam>
    requires text { ram.old.text ≡ record { start = RAM_START; end = RAM_START + 4096 } ∷ [] }
    requires stamps { AreStampsBelow ram.old 100 }
    ensures fits { KeepsFits ram.old ram.new }
    ensures text { ram.new.text ≡ ram.old.text }
    ensures stamps { (n : ℕ) → AreStampsBelow ram.old n → AreStampsBelow ram.new (n + 1) }
{
    // The call says that the memory is laid out with its text in it.
    let _laid = ram.text();
    stores_keep_fits();
    ram.store(Gpa(LEAF), Width::Doubleword, pte)
}

/// The kept translation of an address for a fetch in supervisor mode.
fn kept(cache: &mut WalkCache, ram: &GuestRam, va: u64) -> Walked
    requires { Fits ram.now cache.old }
    ensures { Fits ram.now cache.new }
{
    cache.cached_walk(
        ram,
        SATP_KEPT,
        Mode::Vs,
        false,
        false,
        Access::Fetch,
        Va(va),
    )
}

#[test]
fn kept_translation_follows_each_store_to_its_entry(rt: HostRuntime) -> Result<(), Fail> {
    let at_text = Walked::At(Gpa(RAM_START));
    let mut ram = memory_of_two_leaves(rt.alloc())?;
    new_caches_fit();
    let mut cache = WalkCache::new();
    assert_eq!(rt;
        kept(&mut cache, &ram, 0x8000_1000),
        at_text,
        "as it was placed"
    );
    assert_eq!(rt;
        kept(&mut cache, &ram, 0x8000_1000),
        at_text,
        "as it is kept"
    );
    assert!(rt; store_leaf(&mut ram, 0).is_ok());
    assert_eq!(rt;
        kept(&mut cache, &ram, 0x8000_1000),
        Walked::PageFault,
        "0 was stored"
    );
    assert_eq!(rt;
        kept(&mut cache, &ram, 0x8000_0000),
        at_text,
        "another page of that table"
    );
    assert!(rt; store_leaf(&mut ram, TO_FIRST_PAGE).is_ok());
    assert_eq!(rt;
        kept(&mut cache, &ram, 0x8000_1000),
        at_text,
        "the entry was stored again"
    );
    Ok(())
}
