//! The run of one vCPU under the view of its app, to its end.

ghost use Rattle.std.specs.Prelude.{◌≡◌, ℕ, List, None, IfOk};
ghost use Rattle.guest_input.specs.Accepted.{IsImage, IsSetupFor};
ghost use Rattle.function_table.specs.Groups.{groups_of};
ghost use Rattle.view_file.specs.Fits.{IsViewsFor};
ghost use Rattle.guest_runs.specs.Alone.{IsRunOf};

use crate::engine::run_out;
use crate::log::log_text;
use fc_numbers::machine::End;
use fc_numbers::memory::NoMemory;
use function_table::table::Table;
use guest_board::laws::{idle_runs_have_ended, steps_count_one};
use guest_input::image::Image;
use guest_input::setup::Setup;
use std::alloc::Global;
use vcpu_core::laws::{every_order_is_sound, without_hook_first_view_logs_all_misses};
use vcpu_core::machine::Core;
use view_file::views::Views;

/// What a run came to: its end, the bytes that the guest wrote, and the lines of its log.
#[derive(Drop)]
pub struct Ran {
    pub end: End,
    pub console: Vec<u8>,
    pub log: Vec<u8>,
}

/// Runs the one vCPU of a setup without a hook to its end: the full kernel's run, whose log has a line for each miss.
pub fn run_alone(
    alloc: Global,
    image: &Image,
    table: &Table,
    views: &Views,
    setup: &Setup,
) -> Result<Ran, NoMemory>
    requires image { IsImage image.now }
    requires table { table.now ≡ groups_of image.now }
    requires views { IsViewsFor views.now image.now }
    requires setup { IsSetupFor image.now setup.now }
    requires alone { setup.now.vcpus ≡ 1 }
    requires unhooked { setup.now.hook ≡ None }
    ensures { IfOk result (λ ran. (schedule : List ℕ)
        × IsRunOf (record { image = image.now; setup = setup.now; views = views.now }) schedule ran.end ran.console.items ran.log.items) }
{
    every_order_is_sound();
    idle_runs_have_ended();
    steps_count_one();
    without_hook_first_view_logs_all_misses();
    let mut core = Core::open(alloc, image, table, setup, views)?;
    run_out(&mut core, &[], setup.vcpus);
    let view = views.choose(setup.start.as_ref());
    let log = log_text(alloc, image, table, views, core.log(view))?;
    let console = Vec::from_slice(alloc, core.console())?;
    match core.end() {
        Some(end) => Ok(Ran { end, console, log }),
        None => unreachable!(),
    }
}
