//! The text of a log.

ghost use Rattle.std.specs.Prelude.{◌≡◌, All, IfOk};
ghost use Rattle.guest_input.specs.Accepted.{IsImage};
ghost use Rattle.function_table.specs.Groups.{groups_of};
ghost use Rattle.guest_runs.specs.Log.{IsPrintable, app_name_of_view, log_text};

use chain_log::entry::LogEntry;
use chain_log::line::print_entry;
use fc_numbers::memory::NoMemory;
use fc_numbers::places::ViewNo;
use function_table::table::Table;
use guest_input::image::Image;
use std::alloc::Global;
use view_file::views::Views;

/// The name of the app whose view this is; empty for the full view.
fn app_name(views: &Views, view: ViewNo) -> &[u8]
    ensures { result.now ≡ app_name_of_view views.now view }
{
    if view.0 == 0 {
        return b"";
    }
    match views.apps.as_slice().get(view.0 as usize - 1) {
        Some(app) => app.name.bytes(),
        None => b"",
    }
}

/// The lines of entries, in their order, each with the name of the app whose view it is of. An Err is want of memory.
pub fn log_text(
    alloc: Global,
    image: &Image,
    table: &Table,
    views: &Views,
    entries: &[LogEntry],
) -> Result<Vec<u8>, NoMemory>
    requires image { IsImage image.now }
    requires table { table.now ≡ groups_of image.now }
    requires entries { All (IsPrintable table.now) entries.now }
    ensures { IfOk result (λ text. text.items ≡ log_text image.now views.now entries.now) }
{
    let mut text = Vec::new(alloc);
    for entry in entries {
        let app = app_name(views, entry.view);
        let line = print_entry(alloc, entry, app, image, table)?;
        text.extend_from_slice(line.as_slice())?;
    }
    Ok(text)
}
