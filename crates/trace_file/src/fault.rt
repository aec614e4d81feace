//! Why bytes are no trace or no script.

use std::alloc::{AllocError, AllocFailed};
use std::fmt::{self, Display, Formatter, Write};

/// Why bytes are no trace or no script: the first fault that they meet in reading order. The number before each variant
/// is printed with its name and with what it holds.
#[derive(Debug, Clone, Copy, PartialEq, Eq)]
pub enum TraceFault {
    /// 1: the bytes do not begin with the mark and a number of vCPUs.
    NotTrace,
    /// 2: the bytes end inside a trace; how many there are.
    Truncated(u64),
    /// 3: the run of this number, from 0 on, names no vCPU, has no steps, or has the vCPU of the run before.
    BadRun(u32),
    /// 4: the entry of this number, from 0 on, is out of order or out of range.
    BadEntry(u32),
    /// 5: bytes stand behind the trace.
    Trailing,
    /// 6: the runs have too many steps.
    TooLarge,
    /// 7: an allocation was refused.
    NoMemory,
    /// 8: the byte at this offset is no part of a script.
    NotScript(u64),
    /// 9: the digit at this offset names no vCPU.
    BadVcpu(u64),
    /// 10: there is no such end, mode or number of views.
    BadTail,
}

impl From<AllocError> for TraceFault {
    ghost use Rattle.std.specs.Prelude.{◌≡◌};
    ghost use Rattle.trace_file.specs.declared.fault.TraceFault.TheVariants.{NoMemory as memory};

    ghost from_gives = { λ _ fault. fault ≡ memory };

    fn from(_refused: AllocError) -> TraceFault {
        TraceFault::NoMemory
    }
}

impl<T: Drop> From<AllocFailed<T>> for TraceFault {
    ghost use Rattle.std.specs.Prelude.{◌≡◌};
    ghost use Rattle.trace_file.specs.declared.fault.TraceFault.TheVariants.{NoMemory as memory};

    ghost from_gives = { λ _ fault. fault ≡ memory };

    fn from(_refused: AllocFailed<T>) -> TraceFault {
        TraceFault::NoMemory
    }
}

impl Display for TraceFault {
    ghost use Rattle.std.specs.Prelude.{Some};
    ghost use Rattle.trace_file.specs.Faults.{shown_trace_fault};

    ghost output = { λ fault. Some (shown_trace_fault fault) };

    fn fmt<W: Write>(&self, f: &mut Formatter<W>) -> fmt::Result {
        match self {
            TraceFault::NotTrace => f.write_str("1 NotTrace"),
            TraceFault::Truncated(length) => write!(f, "2 Truncated {length}"),
            TraceFault::BadRun(number) => write!(f, "3 BadRun {number}"),
            TraceFault::BadEntry(number) => write!(f, "4 BadEntry {number}"),
            TraceFault::Trailing => f.write_str("5 Trailing"),
            TraceFault::TooLarge => f.write_str("6 TooLarge"),
            TraceFault::NoMemory => f.write_str("7 NoMemory"),
            TraceFault::NotScript(at) => write!(f, "8 NotScript {at}"),
            TraceFault::BadVcpu(at) => write!(f, "9 BadVcpu {at}"),
            TraceFault::BadTail => f.write_str("10 BadTail"),
        }
    }
}
