//! The command `merge`.

ghost use Rattle.std.specs.Prelude.{◌≡◌, ℕ, List, Option, Some, true, false, map, string_bytes};
ghost use Rattle.command_frame.specs.Promise.{FileContents};
ghost use Rattle.command_frame.specs.Command.{MakeSaid, MakeCounts, HasOutputs};
ghost use Rattle.view_commands.specs.Words.{IsMergeForm};
ghost use Rattle.view_commands.specs.Requests.{RefusesBy, merge_request};

use command_frame::answer::Ended;
use command_frame::fault::Fault;
use command_frame::inputs::take_free_views;
use command_frame::product::{Product, Refusal};
use command_frame::products::one_file;
use fc_outside::outside::Store;
use sqlite_items::Items;
use std::alloc::Global;
use view_file::fault::ViewFault;
use view_file::merge::merge;
use view_file::write::write_views;

/// The places of the files in the words.
const FIRST: usize = 1;

const SECOND: usize = 2;

const OUT: usize = 3;

/// Whether the words are of the form of `merge`.
pub fn is_merge(words: &[String]) -> bool
    ensures yes { result ≡ true → IsMergeForm (map string_bytes words.now) }
    ensures no { result ≡ false → IsMergeForm (map string_bytes words.now) → ⊥ }
{
    match words {
        [verb, _, _, _] => verb.as_str() == "merge",
        _ => false,
    }
}

/// The refusal for a fault of views.
fn refusal_of(fault: ViewFault) -> Refusal
    ensures { RefusesBy fault result }
{
    match fault {
        ViewFault::NoMemory => Refusal::NoMemory,
        other => Refusal::Fault(Fault::Views(other)),
    }
}

/// Joins two views of one kernel. The union goes to its file.
pub fn make_merge<S: Store>(
    alloc: Global,
    words: &[String],
    store: &mut S,
) -> Result<Product, Refusal>
    ensures said { (told : FileContents) → S.files store.old ≡ Some told → MakeSaid (merge_request (map string_bytes words.now)) told result }
    ensures counted { MakeCounts (merge_request (map string_bytes words.now)) (S.reads store.old) (S.reads store.new) result }
    ensures outputs { HasOutputs (merge_request (map string_bytes words.now)) result }
    ensures files { S.files store.new ≡ S.files store.old }
    ensures writes { S.writes store.new ≡ S.writes store.old }
{
    let first = take_free_views(alloc, store, words, FIRST)?;
    let second = take_free_views(alloc, store, words, SECOND)?;
    let union = match merge(alloc, &first, &second) {
        Ok(union) => union,
        Err(fault) => return Err(refusal_of(fault)),
    };
    let text = write_views(alloc, &union)?;
    let files = one_file(alloc, OUT, text)?;
    Ok(Product {
        files,
        out: Items::new(alloc),
        ended: Ended::Finished,
    })
}
