//! What a board keeps of each vCPU.

ghost use Rattle.std.specs.Prelude.{◌≡◌, ◌+◌, ◌-◌, ◌%◌, ◌<◌, ◌≤◌, ◌^◌, ℕ, None, Some, length, map, slice_index_or, slice_set};
ghost use Rattle.std.specs.List.{list_all};
ghost use Rattle.guest_board.specs.Board.{broken, broken_by, deeper, end_after, is_spent, kept, no_slot};

use crate::rules::Rules;
use crate::step::Nesting;
use fc_numbers::machine::End;
use fc_numbers::name::Name;
use fc_numbers::places::Gpa;
use rv_step::vcpu::Vcpu;

/// A vCPU and what is counted beside it.
#[derive(Drop)]
pub struct Slot {
    pub vcpu: Vcpu,
    /// The steps that it made.
    pub made: u32,
    /// The name of the app that it runs, if it runs one.
    pub name: Option<Name>,
    /// The depth of traps.
    pub depth: u32,
}

fn release(slot: &mut Slot, place: Gpa)
    ensures { slot.new ≡ broken place slot.old }
{
    if let Some(word) = slot.vcpu.reserved {
        if word.0 == place.0 - place.0 % 8 {
            slot.vcpu.reserved = None;
        }
    }
}

fn release_all(slots: &mut [Slot], place: Gpa)
    ensures { slots.new ≡ map (broken place) slots.old }
{
    for slot in slots.iter_mut() {
        release(slot, place);
    }
}

/// Breaks the reservations that the others have of what vCPU `at` wrote.
pub(crate) fn break_others(slots: &mut [Slot], at: usize, wrote: Option<Gpa>)
    requires { at < length slots.old }
    ensures { slots.new ≡ slice_set (broken_by wrote slots.old) at (slice_index_or slots.old at no_slot) }
{
    match wrote {
        None => {}
        Some(place) => {
            let own = slots[at].vcpu.reserved;
            release_all(slots, place);
            slots[at].vcpu.reserved = own;
        }
    }
}

/// Whether no vCPU has steps left. Vcpu `at`, which has just stepped, is looked at first.
fn are_spent(rules: &Rules, slots: &[Slot], at: usize) -> bool
    requires { at < length slots.now }
    ensures { result ≡ is_spent rules.now slots.now }
{
    let steps = rules.steps;
    if slots[at].made < steps {
        return false;
    }
    slots.iter().all(|slot| steps <= slot.made)
}

/// The end after a step of vCPU `at` that ends the run so.
pub(crate) fn end_by(rules: &Rules, slots: &[Slot], at: usize, end: Option<End>) -> Option<End>
    requires { at < length slots.now }
    ensures { result ≡ end_after rules.now slots.now end }
{
    match end {
        Some(end) => Some(end),
        None => if are_spent(rules, slots, at) {
            Some(End::Spent)
        } else {
            None
        },
    }
}

/// Notes how a run that goes on ends now, if it does. Nothing is written where it goes on.
#[inline(always)]
pub(crate) fn note_end(noted: &mut Option<End>, end: Option<End>)
    requires { noted.old ≡ None }
    ensures { noted.new ≡ end }
{
    if let Some(end) = end {
        *noted = Some(end);
    }
}

/// The depth of traps after such a step that enters a trap or returns.
#[cold]
#[inline(never)]
fn deepen_at_trap(nesting: Nesting, depth: u32) -> u32
    requires { depth < 2 ^ 32 - 1 }
    ensures { result ≡ deeper nesting depth }
{
    match nesting {
        Nesting::Stays => depth,
        Nesting::Interrupts => depth + 1,
        Nesting::Traps => if depth == 0 { 0 } else { depth + 1 },
        Nesting::Returns => depth.saturating_sub(1),
    }
}

/// The depth of traps after a step that is no hook step.
pub(crate) fn deepen(nesting: Nesting, depth: u32) -> u32
    requires { depth < 2 ^ 32 - 1 }
    ensures { result ≡ deeper nesting depth }
{
    match nesting {
        Nesting::Stays => depth,
        _ => deepen_at_trap(nesting, depth),
    }
}
