//! Views, second-stage tables and lanes before the first event.

ghost use Rattle.std.specs.Prelude.{◌≡◌, ◌≤◌, ◌<◌, ◌+◌, ◌*◌, ◌^◌, ℕ, IfOk, length};
ghost use Rattle.function_table.specs.Groups.{groups_of, groups_count};
ghost use Rattle.guest_input.specs.Accepted.{IsImage};
ghost use Rattle.guest_input.specs.declared.setup.Setup.{Setup};
ghost use Rattle.view_file.specs.Fits.{IsViewsFor};
ghost use Rattle.vcpu_core.specs.Stages.{AreOfKind, AreStagesFor};
ghost use Rattle.vcpu_core.specs.First.{first_paged_views, first_lanes};

use crate::lane::{Lane, Phase};
use arrayvec::ArrayVec;
use fc_numbers::machine::GKind;
use fc_numbers::memory::NoMemory;
use fc_numbers::places::{VcpuNo, ViewNo};
use function_table::table::Table;
use gstage::table::GTable;
use guest_board::seen::Windows;
use guest_input::image::Image;
use guest_input::ranges::copy_of;
use guest_ram::GuestRam;
use std::alloc::Global;
use view_file::views::Views;
use view_store::view::View;

/// A view for each app and the full view, each with its base and an empty log.
#[tactic(auto, unfolding(crate::specs::First::first_paged_views), using(crate::proofs::Bases::base_of_long, crate::proofs::Bases::one_more))]
pub fn start_views(
    alloc: Global,
    image: &Image,
    profile: &Views,
    table: &Table,
) -> Result<Vec<View>, NoMemory>
    requires image { IsImage image.now }
    requires views { IsViewsFor profile.now image.now }
    requires table { table.now ≡ groups_of image.now }
    ensures { (setup : Setup) → IfOk result (λ views.
        views.items ≡ first_paged_views (record { image = image.now; setup = setup; views = profile.now }) (length profile.now.apps + 1)) }
{
    let count = profile.apps.len() as u8 + 1;
    let mut views = Vec::new(alloc);
    for v in 0..count {
        let view = ViewNo(v);
        let base = profile.base(alloc, view, table)?;
        views.push(View::build(alloc, image, table, view, base)?)?;
    }
    Ok(views)
}

/// The second-stage table of each view, of this kind, for the text and the RAM of this memory.
#[tactic(auto, using(crate::proofs::Staged::spans_of))]
pub fn start_stages(
    alloc: Global,
    ram: &GuestRam,
    profile: &Views,
    kind: GKind,
) -> Result<Vec<GTable>, NoMemory>
    ensures stages { IfOk result (λ stages. AreStagesFor ram.now (length profile.now.apps + 1) stages.items) }
    ensures kinds { IfOk result (λ stages. AreOfKind kind stages.items) }
{
    let count = profile.apps.len() as u8 + 1;
    let mut stages = Vec::new(alloc);
    for v in 0..count {
        let text = copy_of(ram.text());
        stages.push(GTable::build(alloc, text, ram.span(), ViewNo(v), kind)?)?;
    }
    Ok(stages)
}

/// Lanes of this view that run and hold nothing.
#[tactic(auto, unfolding(crate::specs::First::first_lanes), using(crate::proofs::Bases::one_more))]
pub(crate) fn start_lanes(alloc: Global, view: ViewNo, count: u8) -> Result<Vec<Lane>, NoMemory>
    ensures { IfOk result (λ lanes. lanes.items ≡ first_lanes view count) }
{
    let mut lanes = Vec::new(alloc);
    for i in 0..count {
        lanes.push(Lane {
            vcpu: VcpuNo(i),
            windows: Windows {
                view,
                held: ArrayVec::new(),
                cleared: None,
            },
            phase: Phase::Running,
        })?;
    }
    Ok(lanes)
}
