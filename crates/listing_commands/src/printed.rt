//! What a command makes that prints a text.

ghost use Rattle.std.specs.Prelude.{◌≡◌};
ghost use Rattle.listing_commands.specs.Requests.{IsPrinted};

use command_frame::answer::Ended;
use command_frame::product::Product;
use sqlite_items::Items;
use std::alloc::Global;

/// The text goes to standard output, and no file is written.
pub(crate) fn printed(alloc: Global, text: Vec<u8>) -> Product
    ensures { IsPrinted text.items result }
{
    Product {
        files: Items::new(alloc),
        out: Items::from_vec(text),
        ended: Ended::Finished,
    }
}
