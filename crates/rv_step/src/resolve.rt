//! Where an address leads.

ghost use Rattle.std.specs.Prelude.{◌≡◌, ◌≤◌, ◌<◌, ◌%◌, ◌^◌, true, false};
ghost use Rattle.gstage.specs.Stage.{IsFor};
ghost use Rattle.guest_ram.specs.Ram.{is_inside, is_text, IsLaid};
ghost use Rattle.sv39_walk.specs.Cache.{Fits};
ghost use Rattle.sv39_walk.specs.Walk.{walked_for, KeepsLow};
ghost use Rattle.rv_step.specs.Site.{resolved, resolve_walked, IsPlaced};

use crate::vcpu::Vcpu;
use fc_numbers::machine::Access;
use fc_numbers::places::{Gpa, Va};
use gstage::stage::{Placed, SecondStage};
use guest_ram::GuestRam;
use sv39_walk::Walked;
use sv39_walk::cache::WalkCache;

/// Where an address leads.
#[derive(Debug, Clone, Copy, PartialEq, Eq)]
pub enum Resolved {
    /// To a place in RAM outside kernel text.
    Ram(Gpa),
    /// To a place in kernel text.
    Text(Gpa),
    /// Nowhere: the guest's tables do not let the access through.
    PageFault,
    /// To a place outside RAM, or a table entry is outside RAM.
    AccessFault,
    /// Nowhere: a table entry is in kernel text.
    TableInText,
}

/// Where the address leads for this access, in the vCPU's mode and by its control registers. The stage tells text from
/// other RAM. The cache is one of this memory, and keeps the answer.
#[inline(always)]
#[tactic(auto, unfolding(crate::specs::Site::resolved))]
pub fn resolve<S: SecondStage>(
    vcpu: &Vcpu,
    ram: &GuestRam,
    cache: &mut WalkCache,
    stage: &S,
    access: Access,
    va: Va,
) -> Resolved
    requires stage { IsFor (S.text stage.now) (S.ram stage.now) ram.now }
    requires fits { Fits ram.now cache.old }
    ensures value { result ≡ resolved vcpu.now ram.now access va }
    ensures placed { IsPlaced ram.now va result }
    ensures fits { Fits ram.now cache.new }
{
    // The call says that the memory is laid out with its text in it.
    let _laid = ram.text();
    match cache.cached_for(ram, &vcpu.csr, vcpu.mode, access, va) {
        Walked::At(place) => match stage.place(place, access) {
            Placed::Text => Resolved::Text(place),
            Placed::Ram => Resolved::Ram(place),
            Placed::Outside => Resolved::AccessFault,
        },
        Walked::PageFault => Resolved::PageFault,
        Walked::AccessFault => Resolved::AccessFault,
        Walked::TableInText => Resolved::TableInText,
    }
}
