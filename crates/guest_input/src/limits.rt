//! How much there may be of what a run is made of. These limits are this project's own.

/// The most vCPUs.
pub const VCPUS_MOST: u64 = 8;

/// The most steps of all vCPUs together.
pub const STEPS_MOST: u64 = 16_777_216;

/// The most bytes from a1 to the name at the hook.
pub const NAME_AT_MOST: u64 = 65_535;

/// The most device events.
pub const EVENTS_MOST: usize = 65_536;

/// The most functions of an image, each `(head)` counted.
pub const FUNCTIONS_MOST: usize = 16_384;
