//! A trap on a missing function, and the log entry that it becomes.

use arrayvec::ArrayVec;
use fc_numbers::places::{Gpa, GroupNo, VcpuNo, ViewNo};

/// The most places of a chain, that of the return address counted.
pub const CHAIN_MOST: usize = 16;

/// A call chain: places in text, the innermost caller first.
pub type Chain = ArrayVec<Gpa, CHAIN_MOST>;

/// A trap of a vCPU on a zero halfword of its view: the clock `at`, the place `pc` that was fetched, and the call
/// chain at that moment.
#[derive(Drop)]
pub struct Trapped {
    pub view: ViewNo,
    pub vcpu: VcpuNo,
    pub at: u32,
    pub pc: Gpa,
    pub chain: Chain,
}

/// A group that was restored in a view, and the trap that asked for it.
#[derive(Drop)]
pub struct LogEntry {
    pub view: ViewNo,
    pub group: GroupNo,
    pub vcpu: VcpuNo,
    pub at: u32,
    pub pc: Gpa,
    pub chain: Chain,
}
