//! Log entries of a trace.

ghost use Rattle.std.specs.Prelude.{◌≡◌};

use chain_log::entry::{Chain, LogEntry};

/// What stands before the chain of an entry, as plain numbers.
#[derive(Debug, Clone, Copy)]
pub(crate) struct Head {
    /// The number of the view.
    pub view: u8,
    /// The number of the group that was restored.
    pub group: u16,
    /// The number of the vCPU that trapped.
    pub vcpu: u8,
    /// The clock of the trap.
    pub at: u32,
    /// The place that was fetched.
    pub pc: u64,
    /// How many places the chain has.
    pub places: u8,
}

/// The same entry once more. It needs no memory: a chain has its places in itself.
pub fn copy_of(entry: &LogEntry) -> LogEntry
    ensures { result ≡ entry.now }
{
    let mut chain = Chain::new();
    let places = entry.chain.as_slice();
    'places: for place in places {
        chain.push(*place);
    }
    LogEntry {
        view: entry.view,
        group: entry.group,
        vcpu: entry.vcpu,
        at: entry.at,
        pc: entry.pc,
        chain,
    }
}
