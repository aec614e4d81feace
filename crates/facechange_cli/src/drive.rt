//! What `drive` makes: the trace of a run of several vCPUs, the log of what their views missed, and the console.

ghost use Rattle.std.specs.Prelude.{◌≡◌, ℕ, List, Option, Some, map, string_bytes};
ghost use Rattle.command_frame.specs.Promise.{FileContents};
ghost use Rattle.command_frame.specs.Command.{MakeSaid, MakeCounts, HasOutputs};
ghost use Rattle.facechange_cli.specs.Requests.{drive_request};

use command_frame::inputs::{take_image, take_script, take_setup, take_views};
use command_frame::product::{Product, Refusal};
use command_frame::products::{ended_of, two_files};
use fc_outside::outside::Store;
use function_table::table::Table;
use guest_runs::driven::drive;
use guest_runs::laws::justified_entries_are_printable;
use guest_runs::log::log_text;
use sqlite_items::Items;
use std::alloc::Global;
use trace_file::writing::write_trace;

/// The places of the files in the words.
const IMAGE: usize = 1;

const SETUP: usize = 2;

const VIEWS: usize = 3;

const SCRIPT: usize = 4;

const TRACE: usize = 5;

const LOG: usize = 6;

/// Runs the image by the setup, under the views, in the order of the script. Trace and log go to their files, in this
/// order, and the console to standard output.
pub(crate) fn make_drive<S: Store>(
    alloc: Global,
    words: &[String],
    store: &mut S,
) -> Result<Product, Refusal>
    ensures said { (told : FileContents) → S.files store.old ≡ Some told → MakeSaid (drive_request (map string_bytes words.now)) told result }
    ensures counted { MakeCounts (drive_request (map string_bytes words.now)) (S.reads store.old) (S.reads store.new) result }
    ensures outputs { HasOutputs (drive_request (map string_bytes words.now)) result }
    ensures files { S.files store.new ≡ S.files store.old }
    ensures writes { S.writes store.new ≡ S.writes store.old }
{
    justified_entries_are_printable();
    let image = take_image(alloc, store, words, IMAGE)?;
    let table = Table::of(alloc, &image)?;
    let setup = take_setup(alloc, store, words, SETUP, &image)?;
    let views = take_views(alloc, store, words, VIEWS, &image, &table)?;
    let script = take_script(alloc, store, words, SCRIPT, setup.vcpus)?;
    let driven = drive(alloc, &image, &table, &setup, &views, &script)?;
    let trace = write_trace(alloc, &driven.trace)?;
    let log = log_text(alloc, &image, &table, &views, &driven.trace.entries)?;
    let ended = ended_of(driven.trace.end);
    let files = two_files(alloc, (TRACE, trace), (LOG, log))?;
    Ok(Product {
        files,
        out: Items::from_vec(driven.console),
        ended,
    })
}
