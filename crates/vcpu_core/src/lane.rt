//! What a vCPU holds of its view, and where it is in the recovery of missing code.

use chain_log::entry::Trapped;
use fc_numbers::places::VcpuNo;
use guest_board::seen::Windows;
use recovery::Looked;

/// Where a vCPU is in the recovery of missing code.
#[derive(Drop)]
pub enum Phase {
    /// It steps.
    Running,
    /// It needs the line of text of this number.
    Wants(u32),
    /// It trapped on a zero halfword.
    Trapped(Trapped),
    /// The group of its trap is known.
    Looked(Looked),
}

/// What a vCPU holds of its view, and its phase.
#[derive(Drop)]
pub struct Lane {
    /// The vCPU's number.
    pub vcpu: VcpuNo,
    /// The view, with copies of lines of its pages.
    pub windows: Windows,
    pub phase: Phase,
}

/// Why a turn ended.
#[derive(Debug, Clone, Copy, PartialEq, Eq)]
pub enum Then {
    /// As many steps as it may make were made.
    Limit,
    /// A line is needed, which is not held.
    Need,
    /// A zero halfword trapped.
    Zero,
    /// The vCPU may not step.
    Over,
}

/// What an event of a lane that runs is to its turn: a step, `hooked` where it fetched the hook's place; or its end.
#[derive(Debug, Clone, Copy)]
pub enum Taken {
    Step { hooked: bool },
    End(Then),
}

/// What a turn did.
#[derive(Debug, Clone, Copy, PartialEq, Eq)]
pub struct Turned {
    /// How many steps it made.
    pub steps: u32,
    pub then: Then,
}

/// What one event was.
#[derive(Debug, Clone, Copy, PartialEq, Eq)]
pub enum Went {
    /// None: the vCPU may not step.
    Over,
    /// A step.
    Stepped,
    /// An event that the full kernel does not have.
    Erased,
}
