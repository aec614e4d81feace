//! Gates that hold workers up until another has come to a round.

use fc_numbers::places::VcpuNo;
use fc_outside::gate::Gate;
use std::sync::atomic::AtomicU64;
use std::sync::atomic::Ordering::SeqCst;
use std::thread::yield_now;

/// How often a worker yields while it waits for another.
const YIELDS: u32 = 2_000_000;

/// The worker of this vCPU waits before a round of its own until the other of two workers has begun another.
#[derive(Clone, Copy)]
pub(crate) struct Hold {
    pub(crate) vcpu: u8,
    pub(crate) before: u64,
    pub(crate) until: u64,
}

/// A gate for two workers.
#[derive(Drop)]
pub(crate) struct HoldingGate {
    holds: &'static [Hold],
    /// The rounds that the workers of vCPU 0 and vCPU 1 have begun.
    first: AtomicU64,
    second: AtomicU64,
    /// How often a worker waited in vain.
    late: AtomicU64,
}

impl HoldingGate {
    pub(crate) fn new(holds: &'static [Hold]) -> HoldingGate {
        HoldingGate {
            holds,
            first: AtomicU64::new(0),
            second: AtomicU64::new(0),
            late: AtomicU64::new(0),
        }
    }

    /// Whether each worker that was held up saw the other come.
    pub(crate) fn was_kept(&self) -> bool {
        self.late.load(SeqCst) == 0
    }

    fn begun(&self, vcpu: u8) -> &AtomicU64 {
        if vcpu == 0 { &self.first } else { &self.second }
    }

    fn wait_for(&self, vcpu: u8, round: u64) {
        for _ in 0..YIELDS {
            if self.begun(vcpu).load(SeqCst) > round {
                return;
            }
            yield_now();
        }
        self.late.fetch_add(1, SeqCst);
    }
}

impl Gate for HoldingGate {
    fn pass(&self, vcpu: VcpuNo, round: u64) {
        self.begun(vcpu.0).fetch_add(1, SeqCst);
        for hold in self.holds {
            if hold.vcpu == vcpu.0 && hold.before == round {
                self.wait_for(1 - hold.vcpu.min(1), hold.until);
            }
        }
    }
}
