//! A trace, and the limits of its parts.

use crate::state::State;
use chain_log::entry::LogEntry;
use fc_numbers::machine::End;
use fc_numbers::places::VcpuNo;

/// The bytes with which each trace begins.
pub const MARK: [u8; 8] = *b"FCTRACE1";

/// The most vCPUs.
pub const VCPUS_MOST: u8 = 8;

/// The most steps of a schedule.
pub const STEPS_MOST: u32 = 16_777_216;

/// The most views, the full view counted: their numbers are below it.
pub const VIEWS_MOST: u8 = 16;

/// The most groups of joined functions: their numbers are below it.
pub const GROUPS_MOST: u16 = 16_384;

/// The bytes of a digest (SHA-256).
pub const DIGEST: usize = 32;

/// What a run was: its schedule, what it restored, how it ended, and what it left.
#[derive(Drop)]
pub struct Trace {
    /// How many vCPUs the run had.
    pub vcpus: u8,
    /// The vCPU of each step, in order.
    pub schedule: Vec<VcpuNo>,
    /// The entries of the logs: view after view, each view's in the order of its log.
    pub entries: Vec<LogEntry>,
    /// How the run ended.
    pub end: End,
    /// The state of each vCPU at the end, by number.
    pub states: Vec<State>,
    /// The digest of the memory at the end, with the original text.
    pub memory: [u8; DIGEST],
    /// The digest of each view's pages at the end, by number; their halfwords are written lowest byte first.
    pub pages: Vec<[u8; DIGEST]>,
}
