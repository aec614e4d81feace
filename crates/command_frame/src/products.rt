//! What commands make of the end of a run, and of bytes that are to be a file.

ghost use Rattle.std.specs.Prelude.{◌≡◌, [], ◌∷◌, IfOk};
ghost use Rattle.command_frame.specs.Products.{ended_of, file_of};

use crate::answer::Ended;
use crate::product::Written;
use fc_numbers::machine::End;
use fc_numbers::memory::NoMemory;
use sqlite_items::Items;
use std::alloc::Global;

/// How a command ends whose run ended so.
pub fn ended_of(end: End) -> Ended
    ensures { result ≡ ended_of end }
{
    match end {
        End::Spent | End::Shutdown => Ended::Finished,
        End::Stopped(stop) => Ended::Stopped(stop),
    }
}

/// The output file that the word at this place names.
fn file_of(word: usize, bytes: Vec<u8>) -> Written
    ensures { result ≡ file_of word bytes.items }
{
    Written {
        word,
        bytes: Items::from_vec(bytes),
    }
}

/// One output file, that the word at this place names.
pub fn one_file(alloc: Global, word: usize, bytes: Vec<u8>) -> Result<Items<Written>, NoMemory>
    ensures { IfOk result (λ files. files ≡ file_of word bytes.items ∷ []) }
{
    let mut files = Items::new(alloc);
    files.push(file_of(word, bytes))?;
    Ok(files)
}

/// Two output files, in the order in which they are written, that the words at these places name.
pub fn two_files(
    alloc: Global,
    first: (usize, Vec<u8>),
    second: (usize, Vec<u8>),
) -> Result<Items<Written>, NoMemory>
    ensures { IfOk result (λ files. files ≡ file_of first.0 first.1.items ∷ file_of second.0 second.1.items ∷ []) }
{
    let mut files = Items::new(alloc);
    files.push(file_of(first.0, first.1))?;
    files.push(file_of(second.0, second.1))?;
    Ok(files)
}
