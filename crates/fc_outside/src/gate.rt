//! What a worker passes before each of its rounds.

use fc_numbers::places::VcpuNo;

/// A gate, which a worker passes before each round. It may hold the worker up, and answers nothing. Each round passes it
/// once, which tests alone show.
pub trait Gate: Sync {
    /// The worker of this vCPU is about to make its round of this number, counted from 0.
    fn pass(&self, vcpu: VcpuNo, round: u64);
}

/// A gate that is always open.
#[derive(Drop)]
pub struct OpenGate;

impl Gate for OpenGate {
    fn pass(&self, _: VcpuNo, _: u64) {}
}
