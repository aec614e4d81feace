//! The lists that a feed makes of its events, and the search among them.

ghost use Rattle.std.specs.Prelude.{◌≡◌, ◌≤◌, ◌<◌, ◌+◌, IfOk, IsSome, length, take, slice_get};
ghost use Rattle.std.specs.List.Sorted.{IsNonDecreasingBy};
ghost use Rattle.guest_input.specs.declared.setup.Event.{Event};
ghost use Rattle.device_feed.specs.Devices.{due_events};
ghost use Rattle.device_feed.specs.Lists.{no_levels, levels_after, levels_from, due_keys_of, if_due};

use fc_numbers::memory::NoMemory;
use guest_input::setup::{Event, What};
use std::alloc::Global;

/// The most vCPUs of a run.
pub const VCPUS_MOST: usize = 8;

/// The external lines of all vCPUs, by their numbers.
pub type Levels = [bool; VCPUS_MOST];

/// A key, and the clock from which it is due.
#[derive(Debug, Clone, Copy, PartialEq, Eq)]
pub struct DueKey {
    pub at: u64,
    pub byte: u8,
}

/// Sets the external line that an event raises or drops.
fn set_level(levels: &mut [bool], what: What)
    ensures { levels.new ≡ levels_after levels.old what }
{
    match what {
        What::Key(_) => {}
        What::Raise(v) => {
            if (v.0 as usize) < levels.len() {
                levels[v.0 as usize] = true;
            }
        }
        What::Drop(v) => {
            if (v.0 as usize) < levels.len() {
                levels[v.0 as usize] = false;
            }
        }
    }
}

/// The external lines of all vCPUs after each of the events.
pub fn levels_of(alloc: Global, events: &[Event]) -> Result<Vec<Levels>, NoMemory>
    ensures { IfOk result (λ levels. levels.items ≡ levels_from no_levels events.now) }
{
    let mut levels = [false; VCPUS_MOST];
    let mut all = Vec::with_capacity(alloc, events.len())?;
    for event in events {
        set_level(&mut levels, event.what);
        all.push(levels)?;
    }
    Ok(all)
}

/// The keys of the events.
pub fn keys_of(alloc: Global, events: &[Event]) -> Result<Vec<DueKey>, NoMemory>
    ensures { IfOk result (λ keys. keys.items ≡ due_keys_of events.now) }
{
    let mut keys = Vec::new(alloc);
    for event in events {
        match event.what {
            What::Key(byte) => keys.push(DueKey { at: event.at, byte })?,
            What::Raise(_) | What::Drop(_) => {}
        }
    }
    Ok(keys)
}

/// How many of the events, which are in order of their clocks, are due.
pub fn due_count(events: &[Event], clock: u64) -> usize
    requires { IsNonDecreasingBy (λ (e : Event). e.at) events.now }
    ensures within { result ≤ length events.now }
    ensures due { due_events clock events.now ≡ take result events.now }
{
    events.partition_point(|event| event.at <= clock)
}

/// The key after the first `taken` ones, where it is due.
pub fn first_due(keys: &[DueKey], taken: usize, clock: u64) -> Option<u8>
    ensures value { result ≡ if_due clock (slice_get keys.now taken) }
    ensures within { IsSome result → taken < length keys.now }
{
    match keys.get(taken) {
        Some(key) if key.at <= clock => Some(key.byte),
        _ => None,
    }
}
