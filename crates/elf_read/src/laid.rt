//! A kernel as its file lays it out.

use fc_numbers::places::Gpa;
use sqlite_items::Items;
use std::marker::Model;

/// A piece of a kernel: code or data.
#[derive(Drop)]
pub struct Segment {
    /// The place of its first byte.
    pub place: Gpa,
    /// The bytes that the file has.
    pub bytes: Items<u8>,
    /// The bytes that it has in memory: those of the file, and zeros behind them.
    pub size: u64,
}

/// A place where a function starts.
#[derive(Drop)]
pub struct NamedPlace {
    pub place: Gpa,
    /// The name of the function, as it is kept.
    pub name: Items<u8>,
}

/// A kernel as its file lays it out, before it is known whether it may be run. In contracts it is the record of these
/// fields, with lists for the vectors.
#[derive(Drop)]
pub struct Laid {
    /// The segments of code.
    pub code: Vec<Segment>,
    /// The data parts, in the order in which they are placed.
    pub parts: Vec<Segment>,
    /// Whether some code may be written.
    pub writable: bool,
    /// Where functions start. Places outside text do not count.
    pub named: Items<NamedPlace>,
    /// The place of the first instruction, where the file names one.
    pub entry: Option<Gpa>,
}

impl Model for Laid {
    ghost use Rattle.elf_read.specs.Laid.{Layout};
    ghost use Rattle.elf_read.specs.LaidIn.{layout_in};

    ghost Value = { Layout };

    ghost view = { layout_in };
}
