//! What `surface` makes: how much code of the kernel the view of each app has.

ghost use Rattle.std.specs.Prelude.{◌≡◌, ℕ, List, Option, Some, map, string_bytes};
ghost use Rattle.command_frame.specs.Promise.{FileContents};
ghost use Rattle.command_frame.specs.Command.{MakeSaid, MakeCounts, HasOutputs};
ghost use Rattle.listing_commands.specs.Requests.{surface_request};

use crate::printed::printed;
use code_listing::surface::surface;
use command_frame::inputs::{take_image, take_views};
use command_frame::product::{Product, Refusal};
use fc_outside::outside::Store;
use function_table::table::Table;
use std::alloc::Global;

/// The places of the files in the words.
const IMAGE: usize = 1;

const VIEWS: usize = 2;

/// Counts the halfwords, the open halfwords and the pages of the kernel's text and of the view of each app.
pub fn make_surface<S: Store>(
    alloc: Global,
    words: &[String],
    store: &mut S,
) -> Result<Product, Refusal>
    ensures said { (told : FileContents) → S.files store.old ≡ Some told → MakeSaid (surface_request (map string_bytes words.now)) told result }
    ensures counted { MakeCounts (surface_request (map string_bytes words.now)) (S.reads store.old) (S.reads store.new) result }
    ensures outputs { HasOutputs (surface_request (map string_bytes words.now)) result }
    ensures files { S.files store.new ≡ S.files store.old }
    ensures writes { S.writes store.new ≡ S.writes store.old }
{
    let image = take_image(alloc, store, words, IMAGE)?;
    let table = Table::of(alloc, &image)?;
    let views = take_views(alloc, store, words, VIEWS, &image, &table)?;
    let text = surface(alloc, &image, &table, &views)?;
    Ok(printed(alloc, text))
}
