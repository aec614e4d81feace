//! What the tests of a crew share: two guests with their listings, gates that count rounds or hold a worker up, and a run.

use crate::crew::{Ran, crew_run};
use crate::rig::Rig;
use fc_numbers::places::VcpuNo;
use fc_outside::gate::Gate;
use function_table::table::Table;
use guest_image::image_file::read_image;
use guest_image::setup_file::read_setup;
use std::alloc::Global;
use std::sync::Wait;
use std::sync::atomic::AtomicU64;
use std::sync::atomic::Ordering::SeqCst;
use std::test::Fail;
use std::thread::{Threads, yield_now};
use view_file::read::read_views;

/// A kernel, a setup and views, as files.
#[derive(Clone, Copy)]
pub(crate) struct Files {
    image: &'static str,
    setup: &'static str,
    views: &'static str,
}

/// Two vCPUs of the app `sh`, with 20 steps each.
const SETUP: &str = "{\"vcpus\":2,\"ram\":65536,\"steps\":20,\"start\":\"sh\"}";

/// At 0, `main`: jal ra, w; c.li a7, 8; ecall (shutdown); then c.nop. At 62, `w`, whose first instruction has its halves in
/// two lines: li a0, 'A'; c.li a7, 1; ecall (putchar); ret. The app was seen to use `main` alone.
pub(crate) const SPLIT: Files = Files {
    image: "{\"base\":2147483648,\"entry\":2147483648,\"text\":\"ef00e003a1487300000001000100010001000100010001000100010001000100010001000100010001000100010001000100010001000100010001000100130510048548730000008280\",\"functions\":[[2147483648,\"main\"],[2147483710,\"w\"]]}",
    setup: SETUP,
    views: "{\"version\":1,\"text\":\"cb628332b121cea912ba015f582ad90b9e779817e0bf823aaef9e974d23ab530\",\"shared\":[],\"apps\":[{\"name\":\"sh\",\"functions\":[0]}]}",
};

/// At 0, `main`: auipc t0, 2; c.li a1, 1. At 6, `loop`: amoadd.d a2, a1, (t0); c.j loop. The app was seen to use `main`
/// alone.
pub(crate) const COUNTER: Files = Files {
    image: "{\"base\":2147483648,\"entry\":2147483648,\"text\":\"9722000085452fb6b200f5bf\",\"functions\":[[2147483648,\"main\"],[2147483654,\"loop\"]]}",
    setup: SETUP,
    views: "{\"version\":1,\"text\":\"f17450d1e8ce6c20af99de33dd112f6456ff1055af2b6c78c3254db02746cf86\",\"shared\":[],\"apps\":[{\"name\":\"sh\",\"functions\":[0]}]}",
};

/// How often a worker yields while it waits for another.
const YIELDS: u32 = 2_000_000;

/// What two workers have come to: the rounds that each began, by vCPU number.
#[derive(Drop)]
struct Begun {
    first: AtomicU64,
    second: AtomicU64,
}

impl Begun {
    fn new() -> Begun {
        Begun {
            first: AtomicU64::new(0),
            second: AtomicU64::new(0),
        }
    }

    fn of(&self, vcpu: u8) -> &AtomicU64 {
        if vcpu == 0 { &self.first } else { &self.second }
    }
}

/// A gate that counts the rounds of two workers, and whether each worker's came as 0, 1, 2 ..
#[derive(Drop)]
pub(crate) struct Counting {
    begun: Begun,
    astray: AtomicU64,
}

impl Counting {
    pub(crate) fn new() -> Counting {
        Counting {
            begun: Begun::new(),
            astray: AtomicU64::new(0),
        }
    }

    /// How many rounds the worker of this vCPU began.
    pub(crate) fn count(&self, vcpu: u8) -> u64 {
        self.begun.of(vcpu).load(SeqCst)
    }

    /// Whether each worker's rounds came in order, none left out.
    pub(crate) fn in_order(&self) -> bool {
        self.astray.load(SeqCst) == 0
    }
}

impl Gate for Counting {
    fn pass(&self, vcpu: VcpuNo, round: u64) {
        if self.begun.of(vcpu.0).fetch_add(1, SeqCst) != round {
            self.astray.store(1, SeqCst);
        }
    }
}

/// The worker of this vCPU waits before a round of its own until the other worker has come to another.
#[derive(Clone, Copy)]
pub(crate) struct Hold {
    pub(crate) vcpu: u8,
    pub(crate) before: u64,
    pub(crate) until: u64,
}

/// A gate that holds workers up, of two.
#[derive(Drop)]
pub(crate) struct Holding {
    holds: &'static [Hold],
    begun: Begun,
    late: AtomicU64,
}

impl Holding {
    pub(crate) fn new(holds: &'static [Hold]) -> Holding {
        Holding {
            holds,
            begun: Begun::new(),
            late: AtomicU64::new(0),
        }
    }

    /// Whether each worker that was held up saw the other come.
    pub(crate) fn was_kept(&self) -> bool {
        self.late.load(SeqCst) == 0
    }

    fn wait_for(&self, vcpu: u8, round: u64) {
        for _ in 0..YIELDS {
            if self.begun.of(vcpu).load(SeqCst) > round {
                return;
            }
            yield_now();
        }
        self.late.store(1, SeqCst);
    }
}

impl Gate for Holding {
    fn pass(&self, vcpu: VcpuNo, round: u64) {
        self.begun.of(vcpu.0).fetch_add(1, SeqCst);
        for hold in self.holds {
            if hold.vcpu == vcpu.0 && hold.before == round {
                self.wait_for(1 - hold.vcpu.min(1), hold.until);
            }
        }
    }
}

/// The run of these files to its end, by a worker for each vCPU, under this gate.
pub(crate) fn run<R: Threads + Wait + Sync, G: Gate>(
    rt: &R,
    alloc: Global,
    files: Files,
    gate: &G,
) -> Result<Ran, Fail> {
    let image = read_image(alloc, files.image.as_bytes())?;
    let setup = read_setup(alloc, files.setup.as_bytes(), &image)?;
    let table = Table::of(alloc, &image)?;
    let views = read_views(alloc, files.views.as_bytes(), &image, &table)?;
    let rig = Rig::open(alloc, &image, table, &setup, views)?;
    Ok(crew_run(rt, rig, gate))
}
