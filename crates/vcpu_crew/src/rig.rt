//! What the workers of a crew share, and what each of them has of its own.

ghost use Rattle.std.specs.Prelude.{◌≡◌, ◌<◌, ◌≤◌, ◌+◌, ℕ, IfOk, length};
ghost use Rattle.guest_input.specs.Accepted.{IsImage, IsSetupFor};
ghost use Rattle.function_table.specs.Groups.{groups_of};
ghost use Rattle.view_file.specs.Fits.{IsViewsFor};
ghost use Rattle.view_file.specs.Named.{view_named};
ghost use Rattle.run_evidence.specs.Config.{Config};
ghost use Rattle.turn_table.specs.Passes.{IsPassOf, config_in, known};
ghost use Rattle.vcpu_core.specs.First.{first_lane};
ghost use Rattle.vcpu_crew.specs.Rig.{AreFirst, IsRig, OwnsBelow, config_of_rig};

use arrayvec::ArrayVec;
use fc_numbers::memory::NoMemory;
use fc_numbers::places::{VcpuNo, ViewNo};
use function_table::table::Table;
use gstage::table::GTable;
use guest_board::board::Board;
use guest_board::seen::Windows;
use guest_input::image::Image;
use guest_input::setup::Setup;
use std::alloc::Global;
use turn_table::pass::{Pass, Turns};
use vcpu_core::lane::{Lane, Phase};
use vcpu_core::open::{start_stages, start_views};
use view_file::views::Views;

/// What all workers read.
#[derive(Drop)]
pub struct Shared {
    /// The board and the views, which the workers take in turns.
    pub(crate) turns: Turns,
    /// The second-stage table of each view, by view number.
    pub(crate) stages: Vec<GTable>,
    /// The groups of the image.
    pub(crate) table: Table,
    /// The views file of the run.
    pub(crate) views: Views,
}

/// A crew before its run, with all the memory that the run takes.
#[derive(Drop)]
pub struct Rig {
    pub(crate) shared: Shared,
    /// The pass and the lane of each vCPU, by vCPU number.
    pub(crate) workers: Vec<(Pass, Lane)>,
}

impl Rig {
    /// A rig for a run of this image by this setup under these views, before the first step: each view has its base and an
    /// empty log. `table` is the image's groups. An Err is want of memory.
    pub fn open(
        alloc: Global,
        image: &Image,
        table: Table,
        setup: &Setup,
        views: Views,
    ) -> Result<Rig, NoMemory>
        requires image { IsImage image.now }
        requires setup { IsSetupFor image.now setup.now }
        requires views { IsViewsFor views image.now }
        requires table { table ≡ groups_of image.now }
        ensures rig { IfOk result (λ rig. IsRig rig) }
        ensures config { IfOk result (λ rig. config_of_rig rig ≡ record { image = image.now; setup = setup.now; views = views }) }
    {
        let board = Board::open(alloc, image, setup)?;
        let stages = start_stages(alloc, board.ram(), &views, setup.gstage)?;
        let opened = start_views(alloc, image, &views, &table)?;
        let first = views.choose(setup.start.as_ref());
        let (turns, pass) = Turns::open(alloc, image, setup, &views, board, opened)?;
        let workers = start_workers(alloc, &turns, pass, first, setup.vcpus)?;
        Ok(Rig {
            shared: Shared {
                turns,
                stages,
                table,
                views,
            },
            workers,
        })
    }

    /// What the workers share, and the pass and the lane of each vCPU, by vCPU number.
    pub fn into_parts(self) -> (Shared, Vec<(Pass, Lane)>)
        requires { IsRig self }
        ensures shared { result.0 ≡ self.shared }
        ensures workers { result.1.items ≡ self.workers.items }
    {
        let Rig { shared, workers } = self;
        (shared, workers)
    }
}

/// A lane of this view that runs and holds nothing.
fn start_lane(vcpu: VcpuNo, view: ViewNo) -> Lane
    ensures { result ≡ first_lane view vcpu }
{
    Lane {
        vcpu,
        windows: Windows {
            view,
            held: ArrayVec::new(),
            cleared: None,
        },
        phase: Phase::Running,
    }
}

/// A pass and a lane for each vCPU, by vCPU number.
fn start_workers(
    alloc: Global,
    turns: &Turns,
    pass: Pass,
    view: ViewNo,
    count: u8,
) -> Result<Vec<(Pass, Lane)>, NoMemory>
    requires some { 0 < count }
    requires same { IsPassOf turns.now pass }
    requires count { count ≡ (config_in turns.now).setup.vcpus }
    requires view { let c : Config = config_in turns.now in view ≡ view_named c.views c.setup.start }
    requires pass { OwnsBelow (config_in turns.now) count (known pass) }
    ensures { IfOk result (λ workers. AreFirst turns.now 0 workers.items) }
{
    let mut rest = pass;
    let mut workers = Vec::new(alloc);
    let mut left = count;
    while left > 1 {
        left -= 1;
        let last = turns.split(&mut rest);
        workers.insert(0, (last, start_lane(VcpuNo(left), view)))?;
    }
    workers.insert(0, (rest, start_lane(VcpuNo(0), view)))?;
    Ok(workers)
}
