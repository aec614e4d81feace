//! What `list` prints. Nothing here runs: each function has a law as its contract.

ghost use Rattle.listing_commands.specs.ReadBack.{AcceptedNamesArePrinted, ListedCodeIsReadBack};

use code_listing::laws::listings_are_read_back;

/// Each function of an accepted image has a name of printed characters without spaces.
pub fn accepted_names_are_printed()
    ensures { AcceptedNamesArePrinted }
{}

/// What `list` prints, read back, gives in order of place every halfword of the code that the app's view has as it is built,
/// and nothing else.
pub fn listed_code_is_read_back()
    ensures { ListedCodeIsReadBack }
{
    accepted_names_are_printed();
    listings_are_read_back();
}
