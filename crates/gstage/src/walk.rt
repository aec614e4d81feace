//! The walk of a list of entries (privileged manual, "Sv39x4: Page-Based 41-bit Virtual-Memory System" and "Sv48x4:
//! Page-Based 50-bit Virtual-Memory System").

ghost use Rattle.std.specs.Prelude.{◌≡◌, ◌≤◌, ◌<◌, ◌+◌, ◌*◌, ◌/◌, ◌%◌, ◌^◌, slice_index};
ghost use Rattle.gstage.specs.Walk.{is_valid, is_pointer, leaf_at, walked_from, walked_leaf, top, bits};

use fc_numbers::machine::GKind;
use page_table::{
    PTE_A, PTE_D, PTE_R, PTE_U, PTE_V, PTE_W, PTE_X, has_bit, index, is_leaf, page_number,
};

/// A leaf: the host page that it maps a place to, and what may be done there.
#[derive(Debug, Clone, Copy, PartialEq, Eq)]
pub struct Leaf {
    /// The level of the table that it stands in: 0 for a page of 4 KiB.
    pub level: u32,
    /// The number of the host page.
    pub page: u64,
    pub read: bool,
    pub write: bool,
    pub execute: bool,
    pub user: bool,
}

/// Whether an entry says anything.
fn is_valid(entry: u64) -> bool
    ensures { result ≡ is_valid entry }
{
    has_bit(entry, PTE_V) && !(has_bit(entry, PTE_W) && !has_bit(entry, PTE_R)) && entry < 1 << 54
}

fn is_pointer(entry: u64) -> bool
    ensures { result ≡ is_pointer entry }
{
    !(has_bit(entry, PTE_U) || has_bit(entry, PTE_A) || has_bit(entry, PTE_D))
}

/// What is left of a page number where the pages of a leaf of this level are taken away. Each arm divides by a
/// constant, since this stands on the way of every access.
fn page_in_leaf(level: u32, page: u64) -> u64
    requires { level ≤ 3 }
    ensures value { result ≡ page % 512 ^ level }
    ensures most { result < 2 ^ 27 }
{
    match level {
        0 => 0,
        1 => page % 512,
        2 => page % 262_144,
        _ => page % 134_217_728,
    }
}

/// The leaf that an entry of this level is.
fn leaf_at(level: u32, at: u64, entry: u64) -> Option<Leaf>
    requires { level ≤ 3 }
    ensures { result ≡ leaf_at level at entry }
{
    let page = page_number(entry);
    if has_bit(entry, PTE_A) && page_in_leaf(level, page) == 0 {
        Some(Leaf {
            level,
            page: page + page_in_leaf(level, at >> 12),
            read: has_bit(entry, PTE_R),
            write: has_bit(entry, PTE_W) && has_bit(entry, PTE_D),
            execute: has_bit(entry, PTE_X),
            user: has_bit(entry, PTE_U),
        })
    } else {
        None
    }
}

/// The entry at an index of the list; 0, which is no valid entry, past its end.
fn entry_at(entries: &[u64], index: u64) -> u64
    ensures { result ≡ slice_index entries.now index }
{
    let index = index as usize;
    if index < entries.len() {
        entries[index]
    } else {
        0
    }
}

/// The walk from an entry of this level on.
fn walk_from(entries: &[u64], at: u64, level: u32, entry: u64) -> Option<Leaf>
    requires { level ≤ 3 }
    ensures { result ≡ walked_from entries.now at level entry }
{
    if !is_valid(entry) {
        return None;
    }
    if is_leaf(entry) {
        return leaf_at(level, at, entry);
    }
    if level == 0 || !is_pointer(entry) {
        return None;
    }
    let below = entry_at(
        entries,
        512 * page_number(entry) + index(at, level as u64 - 1),
    );
    walk_from(entries, at, level - 1, below)
}

/// The level of the root.
fn top(kind: GKind) -> u32
    ensures value { result ≡ top kind }
    ensures most { result ≤ 3 }
{
    match kind {
        GKind::Sv39x4 => 2,
        GKind::Sv48x4 => 3,
    }
}

/// How many places there are.
fn places(kind: GKind) -> u64
    ensures { result ≡ 2 ^ bits kind }
{
    match kind {
        GKind::Sv39x4 => 1 << 41,
        GKind::Sv48x4 => 1 << 50,
    }
}

/// The index of a place in the root.
fn root_index(kind: GKind, at: u64) -> u64
    ensures { result ≡ at / 2 ^ (12 + 9 * top kind) }
{
    match kind {
        GKind::Sv39x4 => at >> 30,
        GKind::Sv48x4 => at >> 39,
    }
}

/// The leaf that the walk of the entries finds for a place.
pub fn walk(kind: GKind, entries: &[u64], at: u64) -> Option<Leaf>
    ensures { result ≡ walked_leaf kind entries.now at }
{
    if at >= places(kind) {
        return None;
    }
    let root = entry_at(entries, root_index(kind, at));
    walk_from(entries, at, top(kind), root)
}
