//! The line on standard error. It takes no memory, so that want of memory can be told too.

ghost use Rattle.std.specs.Prelude.{◌≡◌, [], codes, map, string_bytes};
ghost use Rattle.command_frame.specs.Answers.{status_of, word_of, answer_line, IsFormed};
ghost use Rattle.command_frame.specs.Lines.{number_of, line_with, IsTold, Puts};
ghost use Rattle.command_frame.specs.declared.answer.Answer.TheVariants as answer;
ghost use Rattle.command_frame.specs.declared.status.Status.TheVariants as status;

use crate::answer::Answer;
use crate::finish::Told;
use crate::status::Status;
use fc_outside::outside::Sink;
use itoa::Buffer;

/// Puts the piece, and says whether it was taken.
fn put_piece<E: Sink>(err: &mut E, piece: &str) -> bool
    ensures { Puts piece.now (E.faults err.old) (E.faults err.new) (E.written err.old) (E.written err.new) result }
{
    err.put(piece.as_bytes()).is_ok()
}

/// Puts the line of a status on standard error, piece by piece, up to one that is not taken. That it fails changes
/// nothing else.
fn put_line<E: Sink>(err: &mut E, status: Status, word: &str, detail: &str)
    ensures { IsTold (E.faults err.old) (E.faults err.new) (E.written err.old) (E.written err.new) (line_with status word.now detail.now) }
{
    let mut number = Buffer::new();
    if put_piece(err, number.format(status.number()))
        && put_piece(err, word)
        && put_piece(err, detail)
    {
        let _ = put_piece(err, "\n");
    }
}

/// Puts the line of the answer on standard error, none where all went well, and says with which number the program ends.
pub fn tell<E: Sink>(err: &mut E, words: &[String], told: &Told) -> u8
    requires { IsFormed told.now.answer (string_bytes told.now.formed) }
    ensures status { result ≡ number_of (status_of told.now.answer) }
    ensures told { IsTold (E.faults err.old) (E.faults err.new) (E.written err.old) (E.written err.new) (answer_line (map string_bytes words.now) told.now.answer) }
{
    let status = told.answer.status();
    if status != Status::Finished {
        let detail = told.answer.detail(words, told.formed.as_str());
        put_line(err, status, told.answer.word(), detail);
    }
    status.number()
}

/// Says that the words are no listed form.
pub fn turn_away<E: Sink>(err: &mut E) -> u8
    ensures status { result ≡ number_of status.Words }
    ensures told { IsTold (E.faults err.old) (E.faults err.new) (E.written err.old) (E.written err.new) (line_with status.Words (codes " words") []) }
{
    put_line(err, Status::Words, " words", "");
    Status::Words.number()
}

/// Says that memory ran out before there were words.
pub fn no_words<E: Sink>(err: &mut E) -> u8
    ensures status { result ≡ number_of status.NoMemory }
    ensures told { IsTold (E.faults err.old) (E.faults err.new) (E.written err.old) (E.written err.new) (line_with status.NoMemory (word_of answer.NoMemory) []) }
{
    put_line(err, Status::NoMemory, Answer::NoMemory.word(), "");
    Status::NoMemory.number()
}
