//! Privilege modes, kinds and widths of access, and how a run ends.

/// The privilege modes of a guest under the hypervisor extension (privileged manual, "Hypervisor Extension").
#[derive(Debug, Clone, Copy, PartialEq, Eq)]
pub enum Mode {
    /// Virtual user mode.
    Vu,
    /// Virtual supervisor mode.
    Vs,
}

/// What an access to memory is for.
#[derive(Debug, Clone, Copy, PartialEq, Eq)]
pub enum Access {
    Fetch,
    Load,
    Store,
}

/// How many bytes an access has: 1, 2, 4 or 8.
#[derive(Debug, Clone, Copy, PartialEq, Eq)]
pub enum Width {
    Byte,
    Halfword,
    Word,
    Doubleword,
}

/// The kind of a second-stage table (privileged manual, "Two-Stage Address Translation").
#[derive(Debug, Clone, Copy, PartialEq, Eq)]
pub enum GKind {
    /// Three levels, and places of 41 bits.
    Sv39x4,
    /// Four levels, and places of 50 bits.
    Sv48x4,
}

/// Why the monitor stops a run by name.
#[derive(Debug, Clone, Copy, PartialEq, Eq)]
pub enum Stop {
    /// A store, SC or AMO that translates to kernel text.
    StoreToText,
    /// A page-table entry read in kernel text.
    TableInText,
    /// VS-mode code fetched in RAM outside kernel text.
    KernelOutsideText,
    /// A 32-bit instruction whose halves are not both in text, side by side.
    TextSplit,
}

/// How a run ended.
#[derive(Debug, Clone, Copy, PartialEq, Eq)]
pub enum End {
    /// Every vCPU made all its steps.
    Spent,
    /// The guest asked for shutdown.
    Shutdown,
    /// The monitor stopped the run.
    Stopped(Stop),
}
