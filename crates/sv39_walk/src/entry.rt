//! When an entry of a guest's page table is a page fault (privileged manual, "Virtual Address Translation Process").

ghost use Rattle.std.specs.Prelude.{◌≡◌, ◌<◌};
ghost use Rattle.page_table.specs.declared.TheConstants.{LEVELS_MOST};
ghost use Rattle.sv39_walk.specs.Entry.{is_bad_leaf, is_bad_pointer, is_clean, is_fault, is_permitted, is_unlawful, may_run, may_touch};

use crate::Asked;
use fc_numbers::machine::{Access, Mode};
use page_table::{
    LEVELS_MOST, PTE_A, PTE_D, PTE_R, PTE_U, PTE_V, PTE_W, PTE_X, has_bit, is_aligned, is_leaf,
};

fn is_unlawful(pte: u64) -> bool
    ensures { result ≡ is_unlawful pte }
{
    !has_bit(pte, PTE_V) || (has_bit(pte, PTE_W) && !has_bit(pte, PTE_R)) || pte >> 54 != 0
}

fn is_bad_pointer(level: u64, pte: u64) -> bool
    ensures { result ≡ is_bad_pointer level pte }
{
    level == 0 || has_bit(pte, PTE_U) || has_bit(pte, PTE_A) || has_bit(pte, PTE_D)
}

fn may_touch(q: &Asked, pte: u64) -> bool
    ensures { result ≡ may_touch q.now pte }
{
    match q.mode {
        Mode::Vu => has_bit(pte, PTE_U),
        Mode::Vs => !has_bit(pte, PTE_U) || q.sum,
    }
}

fn may_run(mode: Mode, pte: u64) -> bool
    ensures { result ≡ may_run mode pte }
{
    match mode {
        Mode::Vu => has_bit(pte, PTE_X) && has_bit(pte, PTE_U),
        Mode::Vs => has_bit(pte, PTE_X) && !has_bit(pte, PTE_U),
    }
}

fn is_permitted(q: &Asked, pte: u64) -> bool
    ensures { result ≡ is_permitted q.now.access q.now pte }
{
    match q.access {
        Access::Fetch => may_run(q.mode, pte),
        Access::Load => (has_bit(pte, PTE_R) || (has_bit(pte, PTE_X) && q.mxr))
            && may_touch(q, pte),
        Access::Store => has_bit(pte, PTE_W) && may_touch(q, pte),
    }
}

fn is_clean(access: Access, pte: u64) -> bool
    ensures { result ≡ is_clean access pte }
{
    match access {
        Access::Store => !has_bit(pte, PTE_D),
        _ => false,
    }
}

fn is_bad_leaf(q: &Asked, level: u64, pte: u64) -> bool
    requires { level < LEVELS_MOST }
    ensures { result ≡ is_bad_leaf q.now level pte }
{
    !is_aligned(pte, level)
        || !has_bit(pte, PTE_A)
        || is_clean(q.access, pte)
        || !is_permitted(q, pte)
}

/// Whether the entry is a page fault at the level.
#[tactic(auto, unfolding(crate::specs::Entry::is_fault))]
pub(crate) fn is_fault(q: &Asked, level: u64, pte: u64) -> bool
    requires { level < LEVELS_MOST }
    ensures { result ≡ is_fault q.now level pte }
{
    if is_unlawful(pte) {
        return true;
    }
    if is_leaf(pte) {
        is_bad_leaf(q, level, pte)
    } else {
        is_bad_pointer(level, pte)
    }
}
