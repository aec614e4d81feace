//! The lines of the items of some halfwords.

ghost use Rattle.std.specs.Prelude.{◌≡◌, ◌≤◌, ◌<◌, ◌+◌, ◌*◌, ◌^◌, ◌==◌, ◌++◌, not, Some, None, codes, length, OnOk};
ghost use Rattle.rv_decode.specs.Rows.{decode_of, decode16_of};
ghost use Rattle.rv_words.specs.Words.{encode_of};
ghost use Rattle.rv_words.specs.Candidates.{candidate_of};
ghost use Rattle.code_listing.specs.Items.{items_of};
ghost use Rattle.code_listing.specs.Lines.{half_text, is_encoding, item_line, item_lines, item_text, word_text};

use crate::items::{Item, first_item, item_size};
use crate::text::{push_decimal, push_half, push_hex, push_instruction};
use fc_numbers::memory::NoMemory;
use fc_numbers::places::Gpa;
use rv_asm::{encode, squeeze};
use rv_decode::{Inst, decode16, decode32};
use rv_words::candidates_are_least;
use std::alloc::Global;

/// Whether the assembler gives this word for the instruction.
fn is_own_word(i: &Inst, word: u32) -> bool
    ensures { result ≡ is_encoding (encode_of i.now) word }
{
    match encode(i) {
        Some(own) => own == word,
        None => false,
    }
}

/// Whether the assembler gives this halfword, which means the instruction.
fn is_own_half(i: &Inst, half: u16) -> bool
    requires { decode16_of half ≡ Some i.now }
    ensures { result ≡ (candidate_of i.now == half) }
{
    candidates_are_least();
    match squeeze(i) {
        Some(own) => own == half,
        None => false,
    }
}

/// Appends what a word means.
fn push_word(alloc: Global, out: &mut Vec<u8>, word: u32) -> Result<(), NoMemory>
    ensures { OnOk result (out.new.items ≡ out.old.items ++ word_text (decode_of word) word) }
{
    match decode32(word) {
        Some(i) => push_instruction(alloc, out, &i, !is_own_word(&i, word)),
        None => {
            out.extend_from_slice(b"illegal")?;
            Ok(())
        }
    }
}

/// Appends what a halfword means.
fn push_short(alloc: Global, out: &mut Vec<u8>, half: u16) -> Result<(), NoMemory>
    ensures { OnOk result (out.new.items ≡ out.old.items ++ half_text (decode16_of half) half) }
{
    match decode16(half) {
        Some(i) => push_instruction(alloc, out, &i, !is_own_half(&i, half)),
        None => {
            out.extend_from_slice(b"illegal")?;
            Ok(())
        }
    }
}

/// Appends what the line of an item says behind its place.
#[tactic(auto, unfolding(crate::specs::Lines::item_text))]
fn push_item(alloc: Global, out: &mut Vec<u8>, item: Item) -> Result<(), NoMemory>
    ensures { OnOk result (out.new.items ≡ out.old.items ++ item_text item) }
{
    match item {
        Item::Zeros { count } => {
            out.extend_from_slice(b"zero ")?;
            push_decimal(alloc, out, count as u64)
        }
        Item::Wide { low, high } => {
            push_half(alloc, out, high)?;
            push_half(alloc, out, low)?;
            out.push(b' ')?;
            push_word(alloc, out, low as u32 + 0x1_0000 * high as u32)
        }
        Item::Short { half } => {
            push_half(alloc, out, half)?;
            out.push(b' ')?;
            push_short(alloc, out, half)
        }
    }
}

/// Appends the line of an item at this place.
fn push_line(alloc: Global, out: &mut Vec<u8>, place: u64, item: Item) -> Result<(), NoMemory>
    ensures { OnOk result (out.new.items ≡ out.old.items ++ item_line place item) }
{
    push_hex(alloc, out, place)?;
    out.push(b' ')?;
    push_item(alloc, out, item)?;
    out.push(b'\n')?;
    Ok(())
}

/// Appends the lines of some halfwords, the first of which is at the place of this number.
fn push_lines_from(
    alloc: Global,
    out: &mut Vec<u8>,
    place: u64,
    halves: &[u16],
) -> Result<(), NoMemory>
    requires few { length halves.now < 2 ^ 32 }
    requires place { place + 2 * length halves.now < 2 ^ 64 }
    ensures { OnOk result (out.new.items ≡ out.old.items ++ item_lines place (items_of halves.now)) }
{
    let mut at = 0;
    while at < halves.len() {
        let item = first_item(&halves[at..]);
        push_line(alloc, out, place + 2 * at as u64, item)?;
        at += item_size(item);
    }
    Ok(())
}

/// Appends the lines of some halfwords, the first of which is at this place.
pub(crate) fn push_lines(
    alloc: Global,
    out: &mut Vec<u8>,
    place: Gpa,
    halves: &[u16],
) -> Result<(), NoMemory>
    requires few { length halves.now < 2 ^ 32 }
    requires place { place + 2 * length halves.now < 2 ^ 64 }
    ensures { OnOk result (out.new.items ≡ out.old.items ++ item_lines place (items_of halves.now)) }
{
    push_lines_from(alloc, out, place.0, halves)
}
