//! The runs of a schedule.

/// A run: so many steps of one vCPU, one after another.
#[derive(Debug, Clone, Copy, PartialEq, Eq)]
pub(crate) struct Run {
    /// The number of the vCPU.
    pub vcpu: u8,
    /// How many steps it makes.
    pub steps: u32,
}

/// What came before a run.
#[derive(Debug, Clone, Copy)]
pub(crate) struct Before {
    /// The vCPU of the run before, if there is one.
    pub vcpu: Option<u8>,
    /// The steps of all runs so far.
    pub steps: u32,
}
