//! The image of a kernel.

ghost use Rattle.std.specs.Prelude.{◌≡◌, ◌≤◌, ◌+◌, ◌-◌, ◌++◌, length, replicate};
ghost use Rattle.fc_numbers.specs.declared.places.TheConstants.{RAM_MOST};

use crate::ranges::Ranges;
use sqlite_items::Items;
use std::marker::Model;

/// Where a function starts: the number of the range of text, from 0 on, and the bytes from the start of that range. Starts
/// are ordered by range, and in one range by offset.
#[derive(Debug, Clone, Copy, PartialEq, Eq, PartialOrd, Ord)]
pub struct Start {
    pub range: u8,
    pub offset: u32,
}

/// A function of the text: its start, and its kept name.
#[derive(Drop)]
pub struct Function {
    pub at: Start,
    pub name: Items<u8>,
}

/// The bytes of a data part: those that the file has, and zeros behind them. In contracts they are one list.
#[derive(Drop)]
pub struct PartBytes {
    written: Items<u8>,
    zeros: u64,
}

impl Model for PartBytes {
    ghost use Rattle.std.specs.Prelude.{List, ℕ};
    ghost use Rattle.guest_input.specs.PartIn.{part_bytes, IsPart};

    ghost Value = { List ℕ };

    ghost view = { part_bytes };

    ghost invariant = { IsPart };
}

impl PartBytes {
    /// These bytes, and so many zeros behind them.
    pub fn of(written: Items<u8>, zeros: u64) -> PartBytes
        requires { length written + zeros ≤ RAM_MOST }
        ensures { result ≡ written ++ replicate zeros 0 }
    {
        PartBytes { written, zeros }
    }

    /// The bytes that the file has; [`PartBytes::zeros`] says how many zeros stand behind them.
    pub fn written(&self) -> &[u8]
        ensures value { result.now ++ replicate (length self.now - length result.now) 0 ≡ self.now }
        ensures most { length result.now ≤ length self.now }
    {
        self.written.as_slice()
    }

    /// How many bytes there are in all.
    pub fn len(&self) -> u64
        ensures value { result ≡ length self.now }
        ensures most { result ≤ RAM_MOST }
    {
        self.written.len() as u64 + self.zeros
    }
}

/// The image of a kernel.
#[derive(Drop)]
pub struct Image {
    /// The place of the first instruction.
    pub entry: u64,
    /// Kernel text, each range padded with zero bytes to whole pages.
    pub ranges: Ranges,
    /// The data parts, each with its place, in the order in which they are placed.
    pub parts: Items<(u64, PartBytes)>,
    /// The functions, in order of their starts; one starts at the first byte of each range.
    pub functions: Items<Function>,
    /// SHA-256 of the places and sizes of text, the starts of the functions, and the padded text.
    pub digest: [u8; 32],
}
