//! The run of all vCPUs of a setup by a script, to its end, and its trace.

ghost use Rattle.std.specs.Prelude.{◌≡◌, IfOk};
ghost use Rattle.guest_input.specs.Accepted.{IsImage, IsSetupFor};
ghost use Rattle.function_table.specs.Groups.{groups_of};
ghost use Rattle.trace_file.specs.Trace.{told_of_trace};
ghost use Rattle.view_file.specs.Fits.{IsViewsFor};
ghost use Rattle.guest_runs.specs.Driven.{IsDriven};

use crate::engine::run_out;
use fc_numbers::memory::NoMemory;
use fc_numbers::places::VcpuNo;
use function_table::table::Table;
use guest_board::laws::{idle_runs_have_ended, steps_count_one};
use guest_input::image::Image;
use guest_input::setup::Setup;
use run_trace::laws::{runs_have_sound_traces, traces_of_runs_are_lawful};
use run_trace::taken::trace_of_run;
use std::alloc::Global;
use trace_file::trace::Trace;
use vcpu_core::laws::every_order_is_sound;
use vcpu_core::machine::Core;
use view_file::views::Views;

/// What a run by a script came to: its trace, and the bytes that the guest wrote.
#[derive(Drop)]
pub struct Driven {
    pub trace: Trace,
    pub console: Vec<u8>,
}

/// Runs the vCPUs of a setup to the end of the run: an event of each vCPU of the script, in order, and then of vCPU 0, 1,
/// .. again and again. The trace is sound. An Err is want of memory.
pub fn drive(
    alloc: Global,
    image: &Image,
    table: &Table,
    setup: &Setup,
    views: &Views,
    script: &[VcpuNo],
) -> Result<Driven, NoMemory>
    requires image { IsImage image.now }
    requires table { table.now ≡ groups_of image.now }
    requires setup { IsSetupFor image.now setup.now }
    requires views { IsViewsFor views.now image.now }
    ensures { IfOk result (λ driven. IsDriven (record { image = image.now; setup = setup.now; views = views.now }) script.now (told_of_trace driven.trace) driven.console.items) }
{
    every_order_is_sound();
    idle_runs_have_ended();
    steps_count_one();
    runs_have_sound_traces();
    traces_of_runs_are_lawful();
    let mut core = Core::open(alloc, image, table, setup, views)?;
    run_out(&mut core, script, setup.vcpus);
    let (board, views) = core.into_parts();
    let trace = trace_of_run(alloc, &board, &views)?;
    let console = Vec::from_slice(alloc, board.console())?;
    Ok(Driven { trace, console })
}
