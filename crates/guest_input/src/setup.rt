//! The setup of a run.

use crate::image::Start;
use fc_numbers::machine::GKind;
use fc_numbers::name::Name;
use fc_numbers::places::VcpuNo;
use sqlite_items::Items;

/// What a device event does.
#[derive(Debug, Clone, Copy, PartialEq, Eq)]
pub enum What {
    /// A key is there: its byte.
    Key(u8),
    /// The external line of a vCPU is raised.
    Raise(VcpuNo),
    /// The external line of a vCPU is dropped.
    Drop(VcpuNo),
}

/// A device event.
#[derive(Debug, Clone, Copy, PartialEq, Eq)]
pub struct Event {
    /// The clock, in steps of all vCPUs, from which on the event is due.
    pub at: u64,
    pub what: What,
}

/// How a run is set up.
#[derive(Drop)]
pub struct Setup {
    /// The number of vCPUs, 1 to 8.
    pub vcpus: u8,
    /// The bytes of RAM, whole pages.
    pub ram: u64,
    /// The steps that each vCPU may make.
    pub steps: u32,
    /// The start of the function at which the kernel switches tasks, where there is one.
    pub hook: Option<Start>,
    /// The bytes from a1 to the name of the next task at the hook.
    pub name_at: u64,
    /// The app name of every vCPU at first, where there is one.
    pub start: Option<Name>,
    /// The device events, in order of their clocks.
    pub events: Items<Event>,
    /// The kind of the second-stage tables.
    pub gstage: GKind,
}
