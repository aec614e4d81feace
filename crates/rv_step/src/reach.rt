//! The place that an access of an instruction reaches.

ghost use Rattle.std.specs.Prelude.{◌≡◌, ◌<◌, ◌%◌, ◌^◌, IfOk};
ghost use Rattle.gstage.specs.Stage.{IsFor};
ghost use Rattle.sv39_walk.specs.Cache.{Fits};
ghost use Rattle.rv_step.specs.Reach.{is_access_aligned, reached, IsReached};

use crate::causes::{access_fault_cause, misaligned_cause, page_fault_cause};
use crate::resolve::{Resolved, resolve};
use crate::vcpu::{Effect, Vcpu};
use fc_numbers::machine::{Access, End, Stop, Width};
use fc_numbers::places::{Gpa, Va};
use gstage::stage::SecondStage;
use guest_ram::GuestRam;
use sv39_walk::cache::WalkCache;

fn is_aligned(at: u64, width: Width) -> bool
    ensures { result ≡ is_access_aligned at width }
{
    match width {
        Width::Byte => true,
        Width::Halfword => at % 2 == 0,
        Width::Word => at % 4 == 0,
        Width::Doubleword => at % 8 == 0,
    }
}

/// The place that the access reaches from the address `at`, or what the instruction comes to instead: a trap, or the end
/// of the run.
#[inline(always)]
#[tactic(auto, unfolding(crate::specs::Reach::reached))]
pub(crate) fn reach<S: SecondStage>(
    vcpu: &Vcpu,
    ram: &GuestRam,
    cache: &mut WalkCache,
    stage: &S,
    access: Access,
    width: Width,
    at: u64,
) -> Result<Gpa, Effect>
    requires stage { IsFor (S.text stage.now) (S.ram stage.now) ram.now }
    requires fits { Fits ram.now cache.old }
    ensures value { result ≡ reached vcpu.now ram.now access width at }
    ensures placed { IfOk result (IsReached ram.now access width) }
    ensures fits { Fits ram.now cache.new }
{
    if !is_aligned(at, width) {
        return Err(Effect::Trap {
            cause: misaligned_cause(access),
            tval: at,
        });
    }
    match resolve(vcpu, ram, cache, stage, access, Va(at)) {
        Resolved::Ram(place) => Ok(place),
        Resolved::Text(place) => match access {
            Access::Fetch | Access::Load => Ok(place),
            Access::Store => Err(Effect::End(End::Stopped(Stop::StoreToText))),
        },
        Resolved::PageFault => Err(Effect::Trap {
            cause: page_fault_cause(access),
            tval: at,
        }),
        Resolved::AccessFault => Err(Effect::Trap {
            cause: access_fault_cause(access),
            tval: at,
        }),
        Resolved::TableInText => Err(Effect::End(End::Stopped(Stop::TableInText))),
    }
}
