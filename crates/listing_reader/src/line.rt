//! The lines of a listing.

ghost use Rattle.std.specs.Prelude.{◌≡◌, ◌≤◌, ◌<◌, ◌+◌, ◌*◌, ◌^◌, true, IfSome};
ghost use Rattle.listing_reader.specs.Lines.{digits_of, line_by_form, head_line_of, is_name, is_within_addresses, line_of_text, line_place, line_size, zeros_of};

use crate::words::{cut_at, is_place, number_in, place_of, printed_number};

/// The most halfwords of a listing: those of the largest text (4 MiB).
pub const HALVES_MOST: u64 = 0x20_0000;

/// The most digits of a place of 64 bits.
pub(crate) const PLACE_DIGITS: usize = 16;

/// The most digits of a number of zeros.
pub(crate) const COUNT_DIGITS: usize = 7;

/// What a line says.
#[derive(Debug, Clone, Copy, PartialEq, Eq)]
pub enum Line {
    /// The head of a group, which holds no halfword.
    Head,
    /// So many halfwords 0.
    Zeros { at: u64, count: u32 },
    /// An instruction of 32 bits.
    Wide { at: u64, low: u16, high: u16 },
    /// One halfword.
    Short { at: u64, half: u16 },
}

/// The place of the first halfword; 0 where the line holds none.
fn line_place(line: Line) -> u64
    ensures { result ≡ line_place line }
{
    match line {
        Line::Head => 0,
        Line::Zeros { at, .. } => at,
        Line::Wide { at, .. } => at,
        Line::Short { at, .. } => at,
    }
}

/// How many halfwords the line holds.
pub(crate) fn line_size(line: Line) -> u64
    ensures { result ≡ line_size line }
{
    match line {
        Line::Head => 0,
        Line::Zeros { count, .. } => count as u64,
        Line::Wide { .. } => 2,
        Line::Short { .. } => 1,
    }
}

/// Whether the bytes are a name: one or more, and no space.
fn is_name(bytes: &[u8]) -> bool
    ensures { result ≡ is_name bytes.now }
{
    !bytes.is_empty() && cut_at(b' ', bytes).is_none()
}

/// The head of a group, from the end of its range and its name.
fn head_of(word: &[u8], behind: &[u8]) -> Option<Line>
    ensures { result ≡ head_line_of word.now behind.now }
{
    place_of(word)?;
    if is_name(behind) {
        Some(Line::Head)
    } else {
        None
    }
}

/// The zeros from a place on, by their number.
fn zeros_of(at: u64, word: &[u8]) -> Option<Line>
    ensures { result ≡ zeros_of at word.now }
{
    let count = printed_number(10, COUNT_DIGITS, word)?;
    if 1 <= count && count <= HALVES_MOST {
        Some(Line::Zeros {
            at,
            count: count as u32,
        })
    } else {
        None
    }
}

/// The halfwords of 4 or 8 digits.
fn digits_of(at: u64, word: &[u8]) -> Option<Line>
    ensures { result ≡ digits_of at word.now }
{
    if word.len() == 4 {
        let half = number_in(16, word)? as u16;
        Some(Line::Short { at, half })
    } else if word.len() == 8 {
        let bits = number_in(16, word)?;
        let low = (bits % 0x1_0000) as u16;
        let high = (bits / 0x1_0000) as u16;
        Some(Line::Wide { at, low, high })
    } else {
        None
    }
}

/// The line of a place, the word behind it, and what stands behind that.
fn form_of(at: u64, word: &[u8], behind: &[u8]) -> Option<Line>
    ensures { result ≡ line_by_form at word.now behind.now }
{
    if is_place(word) {
        head_of(word, behind)
    } else if word == b"zero".as_slice() {
        zeros_of(at, behind)
    } else {
        digits_of(at, word)
    }
}

/// Whether the place of the last halfword has 64 bits.
fn is_within(line: Line) -> bool
    ensures { result ≡ is_within_addresses line }
{
    let further = 2 * line_size(line).saturating_sub(1);
    line_place(line).checked_add(further).is_some()
}

/// What a line without its newline says, where it has a form.
#[tactic(auto, unfolding(crate::specs::Lines::line_of_text))]
pub(crate) fn line_of(text: &[u8]) -> Option<Line>
    ensures value { result ≡ line_of_text text.now }
    ensures within { IfSome result (λ line. is_within_addresses line ≡ true) }
{
    let (first, behind) = cut_at(b' ', text)?;
    let at = place_of(first)?;
    let (second, behind) = cut_at(b' ', behind)?;
    let line = form_of(at, second, behind)?;
    if is_within(line) { Some(line) } else { None }
}
