//! What `try` makes: the console of the full kernel's run, and the log of what its view missed.

ghost use Rattle.std.specs.Prelude.{◌≡◌, ℕ, List, Option, Some, map, string_bytes};
ghost use Rattle.command_frame.specs.Promise.{FileContents};
ghost use Rattle.command_frame.specs.Command.{MakeSaid, MakeCounts, HasOutputs};
ghost use Rattle.facechange_cli.specs.Setups.{IsAlone};
ghost use Rattle.facechange_cli.specs.Requests.{try_request};

use command_frame::inputs::{take_image, take_views};
use command_frame::product::{Product, Refusal};
use command_frame::products::{ended_of, one_file};
use fc_outside::outside::Store;
use function_table::table::Table;
use guest_input::setup::Setup;
use guest_runs::alone::run_alone;
use sqlite_items::Items;
use std::alloc::Global;

/// The places of the image, of the views and of the log in the words.
const IMAGE: usize = 1;

const VIEWS: usize = 2;

const LOG: usize = 5;

/// Runs the image by the setup, under the views. The log goes to its file, and the console to standard output.
pub(crate) fn make_trial<S: Store>(
    alloc: Global,
    words: &[String],
    setup: &Setup,
    store: &mut S,
) -> Result<Product, Refusal>
    requires { IsAlone setup.now }
    ensures said { (told : FileContents) → S.files store.old ≡ Some told → MakeSaid (try_request (map string_bytes words.now) setup.now) told result }
    ensures counted { MakeCounts (try_request (map string_bytes words.now) setup.now) (S.reads store.old) (S.reads store.new) result }
    ensures outputs { HasOutputs (try_request (map string_bytes words.now) setup.now) result }
    ensures files { S.files store.new ≡ S.files store.old }
    ensures writes { S.writes store.new ≡ S.writes store.old }
{
    let image = take_image(alloc, store, words, IMAGE)?;
    let table = Table::of(alloc, &image)?;
    let views = take_views(alloc, store, words, VIEWS, &image, &table)?;
    let ran = run_alone(alloc, &image, &table, &views, setup)?;
    let files = one_file(alloc, LOG, ran.log)?;
    Ok(Product {
        files,
        out: Items::from_vec(ran.console),
        ended: ended_of(ran.end),
    })
}
