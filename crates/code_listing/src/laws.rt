//! What a listing has. Nothing here runs: the function has a law as its contract.

ghost use Rattle.code_listing.specs.ReadBack.{ListingsAreReadBack};

use fc_numbers::laws::places_are_in_text;
use listing_reader::laws::{
    heads_are_read, lines_are_read_in_order, numbers_are_one_line, shorts_are_read, wides_are_read,
    zeros_are_read,
};

/// A view's listing, read back, gives in order of place every halfword of the view's present groups, and nothing else.
pub fn listings_are_read_back()
    ensures { ListingsAreReadBack }
{
    heads_are_read();
    zeros_are_read();
    shorts_are_read();
    wides_are_read();
    lines_are_read_in_order();
    numbers_are_one_line();
    places_are_in_text();
}
