//! A count of faults, with the name at the last one.

ghost use Rattle.std.specs.Prelude.{◌≡◌, ◌≤◌, ◌<◌, ◌^◌, []};
ghost use Rattle.fc_outside.specs.Outside.{Faults, IsFaultOf, kept_fault_name, risen};

use arrayvec::ArrayVec;
use std::marker::Model;

/// How many bytes of a name are kept.
pub const NAME_KEPT: usize = 4096;

/// How many faults there were, up to the greatest number of 64 bits, where the count stays, and the first 4,096 bytes
/// of the name at the last one.
#[derive(Drop)]
pub struct FaultCount {
    count: u64,
    last: ArrayVec<u8, 4096>,
}

impl Model for FaultCount {
    ghost use Rattle.std.specs.Prelude.{◌<◌, ◌^◌};
    ghost use Rattle.fc_outside.specs.Outside.{Faults};

    ghost Value = { Faults };

    ghost view = { λ faults. record { count = faults.count; last = faults.last.items } };

    ghost invariant = { λ faults. faults.count < 2 ^ 64 };
}

impl FaultCount {
    /// No faults yet.
    pub fn new() -> FaultCount
        ensures count { result.count ≡ 0 }
        ensures last { result.last ≡ [] }
    {
        FaultCount {
            count: 0,
            last: ArrayVec::new(),
        }
    }

    /// One more fault, of this name.
    pub fn rise(&mut self, name: &str)
        ensures value { self.new ≡ risen self.old name.now }
        ensures fault { IsFaultOf name.now self.old self.new }
    {
        self.count = self.count.saturating_add(1);
        self.last = first_bytes(name.as_bytes());
    }

    /// How many there were.
    pub fn count(&self) -> u64
        ensures { result ≡ self.now.count }
    {
        self.count
    }

    /// What is kept of the name at the last one.
    pub fn last(&self) -> &[u8]
        ensures { result.now ≡ self.now.last }
    {
        self.last.as_slice()
    }
}

/// The first bytes of a name, at most as many as are kept.
#[tactic(auto, using(std::proofs::lemmas::List::take_min))]
fn first_bytes(name: &[u8]) -> ArrayVec<u8, 4096>
    ensures { result.items ≡ kept_fault_name name.now }
{
    let size = NAME_KEPT.min(name.len());
    let mut first = ArrayVec::new();
    first.try_extend_from_slice(&name[..size]).unwrap();
    first
}
