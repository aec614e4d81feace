//! What `run` makes: the trace of a run of all vCPUs at once, the log of what their views missed, and the console.

ghost use Rattle.std.specs.Prelude.{◌≡◌, ℕ, List, Option, Some, true, false, IfOk, map, string_bytes};
ghost use Rattle.guest_input.specs.Accepted.{IsImage, IsSetupFor};
ghost use Rattle.function_table.specs.Groups.{groups_of};
ghost use Rattle.trace_file.specs.Trace.{told_of_trace};
ghost use Rattle.view_file.specs.Fits.{IsViewsFor};
ghost use Rattle.command_frame.specs.Promise.{FileContents};
ghost use Rattle.command_frame.specs.Command.{MakeSaid, MakeCounts, HasOutputs};
ghost use Rattle.command_frame.specs.declared.product.Written.{Written};
ghost use Rattle.run_command.specs.Run.{IsCrewRun, IsRunForm, IsRunMade, run_outputs, run_request};

use command_frame::inputs::{take_image, take_setup, take_views};
use command_frame::product::{Product, Refusal};
use command_frame::products::{ended_of, two_files};
use fc_numbers::memory::NoMemory;
use fc_outside::gate::Gate;
use fc_outside::outside::Store;
use function_table::table::Table;
use guest_input::image::Image;
use guest_input::setup::Setup;
use guest_runs::laws::justified_entries_are_printable;
use guest_runs::log::log_text;
use run_trace::laws::{runs_have_sound_traces, traces_of_runs_are_lawful};
use run_trace::taken::trace_of_run;
use sqlite_items::Items;
use std::alloc::Global;
use std::sync::Wait;
use std::thread::Threads;
use trace_file::trace::Trace;
use trace_file::writing::write_trace;
use vcpu_crew::crew::crew_run;
use vcpu_crew::rig::Rig;
use view_file::views::Views;

/// The places of the files in the words.
const IMAGE: usize = 1;

const SETUP: usize = 2;

const VIEWS: usize = 3;

const TRACE: usize = 4;

const LOG: usize = 5;

/// What a crew's run came to.
#[derive(Drop)]
struct CrewRan {
    /// The trace of the run.
    trace: Trace,
    /// The bytes that the guest wrote.
    console: Vec<u8>,
    /// The groups that the crew was given.
    table: Table,
    /// The views that the crew was given.
    views: Views,
}

/// Whether the words are of the form `run IMAGE SETUP VIEWS TRACE LOG`.
pub fn is_run(words: &[String]) -> bool
    ensures yes { result ≡ true → IsRunForm (map string_bytes words.now) }
    ensures no { result ≡ false → IsRunForm (map string_bytes words.now) → ⊥ }
{
    match words {
        [verb, _, _, _, _, _] => verb.as_str() == "run",
        _ => false,
    }
}

/// Runs all vCPUs of a setup to the end of the run, each in a thread of its own where one can be made. The trace is sound.
/// An Err is want of memory.
fn run_crew<R: Threads + Wait + Sync, G: Gate>(
    rt: &R,
    alloc: Global,
    image: &Image,
    setup: &Setup,
    table: Table,
    views: Views,
    gate: &G,
) -> Result<CrewRan, NoMemory>
    requires image { IsImage image.now }
    requires table { table ≡ groups_of image.now }
    requires setup { IsSetupFor image.now setup.now }
    requires views { IsViewsFor views image.now }
    ensures run { IfOk result (λ ran. IsCrewRun (record { image = image.now; setup = setup.now; views = views }) (told_of_trace ran.trace) ran.console.items) }
    ensures table { IfOk result (λ ran. ran.table ≡ table) }
    ensures views { IfOk result (λ ran. ran.views ≡ views) }
{
    runs_have_sound_traces();
    traces_of_runs_are_lawful();
    let rig = Rig::open(alloc, image, table, setup, views)?;
    let ran = crew_run(rt, rig, gate);
    let trace = trace_of_run(alloc, &ran.board, &ran.views)?;
    let console = Vec::from_slice(alloc, ran.board.console())?;
    Ok(CrewRan {
        trace,
        console,
        table: ran.table,
        views: ran.profile,
    })
}

/// What is made of the run of all vCPUs of a setup: trace and log go to their files, in this order, and the console to
/// standard output. An Err is want of memory.
fn make_product<R: Threads + Wait + Sync, G: Gate>(
    rt: &R,
    alloc: Global,
    image: &Image,
    setup: &Setup,
    table: Table,
    views: Views,
    gate: &G,
) -> Result<Product, NoMemory>
    requires image { IsImage image.now }
    requires table { table ≡ groups_of image.now }
    requires setup { IsSetupFor image.now setup.now }
    requires views { IsViewsFor views image.now }
    ensures made { IfOk result (λ p. IsRunMade (record { image = image.now; setup = setup.now; views = views }) p) }
    ensures outputs { IfOk result (λ p. map (λ (f : Written). f.word) p.files ≡ run_outputs) }
{
    justified_entries_are_printable();
    let ran = run_crew(rt, alloc, image, setup, table, views, gate)?;
    let trace = write_trace(alloc, &ran.trace)?;
    let log = log_text(alloc, image, &ran.table, &ran.views, &ran.trace.entries)?;
    let ended = ended_of(ran.trace.end);
    let files = two_files(alloc, (TRACE, trace), (LOG, log))?;
    Ok(Product {
        files,
        out: Items::from_vec(ran.console),
        ended,
    })
}

/// Runs all vCPUs of the image by the setup, under the views, each in a thread of its own. Trace and log go to their files,
/// in this order, and the console to standard output. May wait for ever.
pub fn make_run<R: Threads + Wait + Sync, S: Store, G: Gate>(
    rt: &R,
    alloc: Global,
    words: &[String],
    store: &mut S,
    gate: &G,
) -> Result<Product, Refusal>
    ensures said { (told_of_trace : FileContents) → S.files store.old ≡ Some told_of_trace → MakeSaid (run_request (map string_bytes words.now)) told_of_trace result }
    ensures counted { MakeCounts (run_request (map string_bytes words.now)) (S.reads store.old) (S.reads store.new) result }
    ensures outputs { HasOutputs (run_request (map string_bytes words.now)) result }
    ensures files { S.files store.new ≡ S.files store.old }
    ensures writes { S.writes store.new ≡ S.writes store.old }
{
    let image = take_image(alloc, store, words, IMAGE)?;
    let table = Table::of(alloc, &image)?;
    let setup = take_setup(alloc, store, words, SETUP, &image)?;
    let views = take_views(alloc, store, words, VIEWS, &image, &table)?;
    Ok(make_product(rt, alloc, &image, &setup, table, views, gate)?)
}
