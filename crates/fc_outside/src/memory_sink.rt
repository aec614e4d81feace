//! A sink in memory, which fails exactly where it is told to.

ghost use Rattle.std.specs.Prelude.{◌≡◌, ◌-◌, ◌+◌, ◌≤◌, ◌<◌, ◌^◌, ◌++◌, ◌||◌, nat_lt, is_some, false, [], Some, None, IfOk, OnOk, OnErr, is_err, length, take};
ghost use Rattle.fc_outside.specs.Outside.{CountsPut, GrewByPart};
ghost use Rattle.fc_outside.specs.Memory.{Poured, listed_part, next_part, put_fails, part_size, put_in};

use crate::outside::{PutFailed, Sink};
use fc_numbers::memory::NoMemory;
use std::alloc::Global;
use std::marker::Model;

/// Bytes in memory. A put fails exactly where it is listed or the piece does not fit, and takes no memory.
#[derive(Drop)]
pub struct MemSink {
    bytes: Vec<u8>,
    most: usize,
    failing: Vec<(u64, usize)>,
    made: u64,
    faults: u64,
}

impl Model for MemSink {
    ghost use Rattle.std.specs.Prelude.{◌<◌, ◌≤◌, ◌^◌, vec_capacity, vec_len};
    ghost use Rattle.fc_outside.specs.Memory.{Poured, IsRoomy};

    ghost Value = { Poured };

    ghost view = { λ s. record { bytes = s.bytes.items; most = s.most; failing = s.failing.items; made = s.made; faults = s.faults } };

    ghost invariant = { λ s. IsRoomy (vec_len s.bytes) s.most (vec_capacity s.bytes) s.made s.faults };
}

/// How many bytes the put of this number is to take, by the first entry for it.
fn listed_part(failing: &[(u64, usize)], number: u64) -> Option<usize>
    ensures { result ≡ listed_part failing.now number }
{
    for (at, part) in failing {
        if *at == number {
            return Some(*part);
        }
    }
    None
}

/// How many bytes of a piece a put takes, and whether it fails.
fn part_size(listed: Option<usize>, room: usize, size: usize) -> (usize, bool)
    ensures size { result.0 ≡ part_size listed room size }
    ensures fails { result.1 ≡ (is_some listed || nat_lt room size) }
    ensures fits { result.0 ≤ room }
    ensures within { result.0 ≤ size }
    ensures whole { result.1 ≡ false → result.0 ≡ size }
{
    match listed {
        Some(part) => (part.min(room).min(size), true),
        None if size <= room => (size, false),
        None => (0, true),
    }
}

impl MemSink {
    /// A sink without bytes, with room for `most`. The list numbers the puts, from 1, that are to fail, each with how
    /// many bytes it takes.
    pub fn new(alloc: Global, most: usize, failing: Vec<(u64, usize)>) -> Result<MemSink, NoMemory>
        ensures { IfOk result (λ s. s ≡ record { bytes = []; most = most; failing = failing.items; made = 0; faults = 0 }) }
    {
        let bytes = Vec::with_capacity(alloc, most)?;
        Ok(MemSink {
            bytes,
            most,
            failing,
            made: 0,
            faults: 0,
        })
    }

    /// The bytes so far.
    pub fn bytes(&self) -> &[u8]
        ensures { result.now ≡ self.now.bytes }
    {
        &self.bytes
    }

    /// How many bytes the next put is to take, where it is listed.
    fn next_part(&self) -> Option<usize>
        ensures { result ≡ next_part self.now }
    {
        if self.made == u64::MAX {
            return None;
        }
        listed_part(&self.failing, self.made + 1)
    }
}

impl Sink for MemSink {
    ghost written = { λ s. Some s.bytes };

    ghost faults = { λ s. s.faults };

    fn put(&mut self, bytes: &[u8]) -> Result<(), PutFailed>
        // It fails exactly where it is listed or the piece does not fit.
        ensures fails { is_err result ≡ put_fails self.old bytes.now }
        ensures state { self.new ≡ put_in self.old bytes.now }
        ensures taken { OnOk result (self.new.bytes ≡ self.old.bytes ++ bytes.now) }
        ensures part { OnErr result (GrewByPart bytes.now (Some self.old.bytes) (Some self.new.bytes)) }
        ensures counted { CountsPut self.old.faults self.new.faults result }
    {
        let listed = self.next_part();
        let (size, fails) = part_size(listed, self.most - self.bytes.len(), bytes.len());
        self.bytes.extend_from_slice(&bytes[..size]).unwrap();
        self.made = self.made.saturating_add(1);
        if fails {
            self.faults = self.faults.saturating_add(1);
            return Err(PutFailed);
        }
        Ok(())
    }
}
