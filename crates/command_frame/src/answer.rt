//! What a command comes to: its status, and what the line on standard error says besides.

ghost use Rattle.std.specs.Prelude.{◌≡◌, map, string_bytes};
ghost use Rattle.command_frame.specs.Answers.{status_of, word_of, stop_name, word_at, detail_of, IsFormed};

use crate::fault::Fault;
use crate::status::Status;
use fc_numbers::machine::Stop;

/// How a command ended that was served.
#[derive(Drop)]
pub enum Ended {
    /// The guest shut down, or made all its steps, or the command runs no guest.
    Finished,
    /// The monitor stopped the guest.
    Stopped(Stop),
    /// A comparison found this difference.
    Differs(String),
}

/// What a command came to. Files are named by the place of their word, counted from 0.
#[derive(Drop)]
pub enum Answer {
    /// The command was served, and its output is where it belongs.
    Served(Ended),
    /// A file, or what is made of files, is refused.
    Refused(Fault),
    /// The store could not read the file that the word at this place names.
    Unread(usize),
    /// The file that the word at this place names could not be written; with none, standard output.
    Unwritten(Option<usize>),
    /// An allocation was refused.
    NoMemory,
}

/// The name of a stop.
fn stop_name(stop: Stop) -> &'static str
    ensures { result.now ≡ stop_name stop }
{
    match stop {
        Stop::StoreToText => "StoreToText",
        Stop::TableInText => "TableInText",
        Stop::KernelOutsideText => "KernelOutsideText",
        Stop::TextSplit => "TextSplit",
    }
}

/// The word at a place; none past the end.
pub(crate) fn word_at(words: &[String], at: usize) -> &str
    ensures { result.now ≡ word_at (map string_bytes words.now) at }
{
    match words.get(at) {
        Some(word) => word.as_str(),
        None => "",
    }
}

impl Answer {
    /// How the program ends.
    pub fn status(&self) -> Status
        ensures { result ≡ status_of self.now }
    {
        match self {
            Answer::Served(Ended::Finished) => Status::Finished,
            Answer::Served(Ended::Stopped(_)) => Status::Stopped,
            Answer::Served(Ended::Differs(_)) => Status::Differs,
            Answer::Refused(fault) => fault.kind().status(),
            Answer::Unread(_) => Status::Unread,
            Answer::Unwritten(_) => Status::Unwritten,
            Answer::NoMemory => Status::NoMemory,
        }
    }

    /// The word of the line, with a space before it, and one behind it where a detail follows.
    pub(crate) fn word(&self) -> &'static str
        ensures { result.now ≡ word_of self.now }
    {
        match self {
            Answer::Served(Ended::Finished) => "",
            Answer::Served(Ended::Stopped(_)) => " stop ",
            Answer::Served(Ended::Differs(_)) => " differs ",
            Answer::Refused(fault) => fault.kind().word(),
            Answer::Unread(_) => " read ",
            Answer::Unwritten(_) => " write ",
            Answer::NoMemory => " memory",
        }
    }

    /// What happened, to what, or where; `formed` is the text of a fault.
    pub(crate) fn detail<'a>(&'a self, words: &'a [String], formed: &'a str) -> &'a str
        requires { IsFormed self.now formed.now }
        ensures { result.now ≡ detail_of (map string_bytes words.now) self.now }
    {
        match self {
            Answer::Served(Ended::Finished) => "",
            Answer::Served(Ended::Stopped(stop)) => stop_name(*stop),
            Answer::Served(Ended::Differs(text)) => text.as_str(),
            Answer::Refused(_) => formed,
            Answer::Unread(at) => word_at(words, *at),
            Answer::Unwritten(Some(at)) => word_at(words, *at),
            Answer::Unwritten(None) => "-",
            Answer::NoMemory => "",
        }
    }
}
