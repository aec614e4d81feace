//! What `list` makes: the listing of the code that the view of an app has.

ghost use Rattle.std.specs.Prelude.{◌≡◌, ℕ, List, Option, Some, map, string_bytes, IfOk};
ghost use Rattle.command_frame.specs.Promise.{FileContents};
ghost use Rattle.command_frame.specs.Command.{MakeSaid, MakeCounts, HasOutputs};
ghost use Rattle.guest_input.specs.Accepted.{IsImage};
ghost use Rattle.function_table.specs.Groups.{groups_of};
ghost use Rattle.view_file.specs.Fits.{IsViewsFor};
ghost use Rattle.listing_commands.specs.Requests.{list_request, listing_for};

use crate::printed::printed;
use code_listing::listing::listing;
use code_listing::surface::built_view;
use command_frame::inputs::{take_image, take_views};
use command_frame::product::{Product, Refusal};
use fc_numbers::memory::NoMemory;
use fc_numbers::name::Name;
use fc_outside::outside::Store;
use function_table::table::Table;
use guest_input::image::Image;
use std::alloc::Global;
use view_file::views::Views;

/// The places of the files in the words.
const IMAGE: usize = 1;

const VIEWS: usize = 2;

/// The listing of the view that the app of this name has as it is built.
fn listing_for(
    alloc: Global,
    image: &Image,
    table: &Table,
    views: &Views,
    app: &Name,
) -> Result<Vec<u8>, NoMemory>
    requires image { IsImage image.now }
    requires table { table.now ≡ groups_of image.now }
    requires views { IsViewsFor views.now image.now }
    ensures { IfOk result (λ text. text.items ≡ listing_for image.now views.now app.now) }
{
    let view = built_view(alloc, image, table, views, views.choose(Some(app)))?;
    listing(alloc, &view, image, table)
}

/// Lists the code that the view of this app has before any recovery, or that of the full view where no app has the name.
pub fn make_list<S: Store>(
    alloc: Global,
    words: &[String],
    app: &Name,
    store: &mut S,
) -> Result<Product, Refusal>
    ensures said { (told : FileContents) → S.files store.old ≡ Some told → MakeSaid (list_request (map string_bytes words.now) app.now) told result }
    ensures counted { MakeCounts (list_request (map string_bytes words.now) app.now) (S.reads store.old) (S.reads store.new) result }
    ensures outputs { HasOutputs (list_request (map string_bytes words.now) app.now) result }
    ensures files { S.files store.new ≡ S.files store.old }
    ensures writes { S.writes store.new ≡ S.writes store.old }
{
    let image = take_image(alloc, store, words, IMAGE)?;
    let table = Table::of(alloc, &image)?;
    let views = take_views(alloc, store, words, VIEWS, &image, &table)?;
    let text = listing_for(alloc, &image, &table, &views, app)?;
    Ok(printed(alloc, text))
}
