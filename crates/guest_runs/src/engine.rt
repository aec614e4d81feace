//! The events of a run, to its end.

ghost use Rattle.std.specs.Prelude.{◌≡◌, ◌<◌, [], true, false};
ghost use Rattle.vcpu_core.specs.World.{go_all};
ghost use Rattle.vcpu_core.specs.Waits.{all_left};
ghost use Rattle.guest_runs.specs.Engine.{round_of, IsIdle, RunsOut};

use fc_numbers::places::VcpuNo;
use vcpu_core::lane::Went;
use vcpu_core::machine::Core;

/// How many events of a run's one vCPU are asked for at once.
const ROW: u32 = 4096;

/// Makes an event of each vCPU of the script, in order. One that may not step, as after the end, does nothing.
fn follow(core: &mut Core, script: &[VcpuNo])
    ensures { core.new ≡ go_all core.old script.now }
{
    for i in script {
        // How many there were shows in the core.
        let _ = core.go_on(*i, 1);
    }
}

/// Makes an event of each of so many vCPUs, and says whether one of them might step.
fn go_round(core: &mut Core, vcpus: u8) -> bool
    ensures after { core.new ≡ go_all core.old (round_of vcpus) }
    ensures idle { result ≡ false → IsIdle vcpus core.new }
    ensures falls { result ≡ true → all_left core.new < all_left core.old }
{
    let mut went = false;
    for i in 0..vcpus {
        match core.go(VcpuNo(i)) {
            Went::Stepped | Went::Erased => went = true,
            Went::Over => {}
        }
    }
    went
}

/// Makes the events of a run's one vCPU, until it may not step.
fn run_alone(core: &mut Core)
    ensures { RunsOut [] 1 core.old core.new }
{
    loop {
        if core.go_on(VcpuNo(0), ROW) == 0 {
            return;
        }
    }
}

/// Makes the events of the script, and then an event of vCPU 0, 1, .. again and again, until no vCPU may step.
pub fn run_out(core: &mut Core, script: &[VcpuNo], vcpus: u8)
    ensures { RunsOut script.now vcpus core.old core.new }
{
    follow(core, script);
    if vcpus == 1 {
        run_alone(core);
        return;
    }
    loop {
        if !go_round(core, vcpus) {
            return;
        }
    }
}
