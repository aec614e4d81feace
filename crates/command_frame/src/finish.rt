//! The writing of a product.

ghost use Rattle.std.specs.Prelude.{◌≡◌, [], map, string_bytes, take};
ghost use Rattle.fc_outside.specs.Outside.{Files, Faults};
ghost use Rattle.command_frame.specs.Answers.{IsFormed};
ghost use Rattle.command_frame.specs.Finished.{outside_of, written, Writes, IsDone, Finishes};

use crate::answer::{Answer, word_at};
use crate::product::{Product, Refusal, Written};
use fc_numbers::memory::NoMemory;
use fc_outside::outside::{Sink, Store};
use std::alloc::Global;

/// What a command came to, and what is told of it.
#[derive(Drop)]
pub struct Told {
    /// What it came to.
    pub answer: Answer,
    /// The text of the fault where it is refused.
    pub formed: String,
}

/// Writes the files, one after another, up to one that cannot be written: the place of its name.
#[tactic(auto, using(crate::proofs::Written::written_more))]
fn write_files<S: Store>(store: &mut S, words: &[String], files: &[Written]) -> Result<(), usize>
    ensures files { Writes (map string_bytes words.now) files.now (S.files store.old) (S.files store.new) (S.writes store.old) (S.writes store.new) result }
    ensures reads { S.reads store.new ≡ S.reads store.old }
{
    for file in files {
        if store
            .write(word_at(words, file.word), file.bytes.as_slice())
            .is_err()
        {
            return Err(file.word);
        }
    }
    Ok(())
}

/// Writes the files and then standard output.
fn deliver<S: Store, K: Sink>(
    words: &[String],
    product: Product,
    store: &mut S,
    out: &mut K,
) -> Answer
    ensures { let before = outside_of (S.files store.old) (S.reads store.old) (S.writes store.old) (K.written out.old) (K.faults out.old) in
        let after = outside_of (S.files store.new) (S.reads store.new) (S.writes store.new) (K.written out.new) (K.faults out.new) in
        IsDone (map string_bytes words.now) product before after result }
{
    let Product {
        files,
        out: text,
        ended,
    } = product;
    if let Err(at) = write_files(store, words, files.as_slice()) {
        return Answer::Unwritten(Some(at));
    }
    if !text.is_empty() && out.put(text.as_slice()).is_err() {
        return Answer::Unwritten(None);
    }
    Answer::Served(ended)
}

/// An answer that is no refusal.
fn plain(alloc: Global, answer: Answer) -> Told
    ensures answer { result.answer ≡ answer }
    ensures formed { string_bytes result.formed ≡ [] }
{
    Told {
        answer,
        formed: String::new(alloc),
    }
}

/// The answer of a command that made this, once it is written, or that makes nothing. All that takes memory comes
/// before the first write.
pub fn finish<S: Store, K: Sink>(
    alloc: Global,
    words: &[String],
    made: Result<Product, Refusal>,
    store: &mut S,
    out: &mut K,
) -> Told
    ensures formed { IsFormed result.answer (string_bytes result.formed) }
    ensures finished { let before = outside_of (S.files store.old) (S.reads store.old) (S.writes store.old) (K.written out.old) (K.faults out.old) in
        let after = outside_of (S.files store.new) (S.reads store.new) (S.writes store.new) (K.written out.new) (K.faults out.new) in
        Finishes (map string_bytes words.now) made before after result.answer }
{
    match made {
        Ok(product) => plain(alloc, deliver(words, product, store, out)),
        Err(Refusal::Fault(fault)) => match fault.text(alloc) {
            Ok(formed) => Told {
                answer: Answer::Refused(fault),
                formed,
            },
            Err(NoMemory) => plain(alloc, Answer::NoMemory),
        },
        Err(Refusal::Unread(at)) => plain(alloc, Answer::Unread(at)),
        Err(Refusal::NoMemory) => plain(alloc, Answer::NoMemory),
    }
}
