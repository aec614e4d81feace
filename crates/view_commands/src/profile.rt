//! The command `profile`.

ghost use Rattle.std.specs.Prelude.{◌≡◌, ℕ, List, Option, Some, true, false, map, string_bytes};
ghost use Rattle.command_frame.specs.Promise.{FileContents};
ghost use Rattle.command_frame.specs.Command.{MakeSaid, MakeCounts, HasOutputs};
ghost use Rattle.view_commands.specs.Words.{IsProfileForm};
ghost use Rattle.view_commands.specs.Requests.{profile_request};

use command_frame::fault::Fault;
use command_frame::inputs::{take_image, take_setup};
use command_frame::product::{Product, Refusal};
use command_frame::products::{ended_of, one_file};
use fc_outside::outside::Store;
use function_table::table::Table;
use profiler::profile::{ProfileFault, profile};
use sqlite_items::Items;
use std::alloc::Global;
use view_file::fault::ViewFault;
use view_file::write::write_views;

/// The places of the files in the words.
const IMAGE: usize = 1;

const SETUP: usize = 2;

const OUT: usize = 3;

/// Whether the words are of the form of `profile`.
pub fn is_profile(words: &[String]) -> bool
    ensures yes { result ≡ true → IsProfileForm (map string_bytes words.now) }
    ensures no { result ≡ false → IsProfileForm (map string_bytes words.now) → ⊥ }
{
    match words {
        [verb, _, _, _] => verb.as_str() == "profile",
        _ => false,
    }
}

/// Runs the image by the setup once in full. The views that the run shows go to their file.
pub fn make_profile<S: Store>(
    alloc: Global,
    words: &[String],
    store: &mut S,
) -> Result<Product, Refusal>
    ensures said { (told : FileContents) → S.files store.old ≡ Some told → MakeSaid (profile_request (map string_bytes words.now)) told result }
    ensures counted { MakeCounts (profile_request (map string_bytes words.now)) (S.reads store.old) (S.reads store.new) result }
    ensures outputs { HasOutputs (profile_request (map string_bytes words.now)) result }
    ensures files { S.files store.new ≡ S.files store.old }
    ensures writes { S.writes store.new ≡ S.writes store.old }
{
    let image = take_image(alloc, store, words, IMAGE)?;
    let table = Table::of(alloc, &image)?;
    let setup = take_setup(alloc, store, words, SETUP, &image)?;
    let profiled = match profile(alloc, &image, &table, &setup) {
        Ok(profiled) => profiled,
        Err(ProfileFault::TooManyApps) => {
            return Err(Refusal::Fault(Fault::Views(ViewFault::TooManyApps)));
        }
        Err(ProfileFault::NoMemory) => return Err(Refusal::NoMemory),
    };
    let text = write_views(alloc, &profiled.views)?;
    let files = one_file(alloc, OUT, text)?;
    Ok(Product {
        files,
        out: Items::new(alloc),
        ended: ended_of(profiled.end),
    })
}
