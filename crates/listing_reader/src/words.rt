//! Words of lines, and the numbers that they write.

ghost use Rattle.std.specs.Prelude.{◌≡◌, ◌≤◌, ◌<◌, ◌+◌, ◌-◌, ◌*◌, ◌^◌, ◌==◌, length, option_map, position, IfSome};
ghost use Rattle.listing_reader.specs.Lines.{cut_at, digit_value, is_place, is_printed_number, number_behind, number_in, place_of_word, printed_number};

use crate::line::PLACE_DIGITS;

/// Where the first of these bytes stands.
fn first_of(byte: u8, bytes: &[u8]) -> Option<usize>
    ensures { result ≡ position (λ b. b == byte) bytes.now }
{
    bytes.iter().position(|b| *b == byte)
}

/// What stands before the first of these bytes, and what stands behind it.
pub(crate) fn cut_at(byte: u8, bytes: &[u8]) -> Option<(&[u8], &[u8])>
    ensures { option_map (λ cut. (cut.0.now, cut.1.now)) result ≡ cut_at byte bytes.now }
{
    match first_of(byte, bytes) {
        Some(at) => Some((&bytes[..at], &bytes[at + 1..])),
        None => None,
    }
}

/// The value of a digit, in lower case; 16 where the byte is none.
fn digit_value(byte: u8) -> u8
    ensures value { result ≡ digit_value byte }
    ensures most { result ≤ 16 }
{
    match byte {
        b'0'..=b'9' => byte - b'0',
        b'a'..=b'f' => byte - b'a' + 10,
        _ => 16,
    }
}

/// The number of these digits of the base 10 or 16, of which there are at most 16.
pub(crate) fn number_in(base: u64, digits: &[u8]) -> Option<u64>
    requires base { base ≤ 16 }
    requires short { length digits.now ≤ 16 }
    ensures value { result ≡ number_in base digits.now }
    ensures below { IfSome result (λ n. n < 16 ^ length digits.now) }
{
    let mut n: u64 = 0;
    for byte in digits {
        let digit = digit_value(*byte) as u64;
        if digit >= base {
            return None;
        }
        n = n * base + digit;
    }
    Some(n)
}

/// The number that the digits print, where they are so many at most.
pub(crate) fn printed_number(base: u64, most: usize, digits: &[u8]) -> Option<u64>
    requires base { base ≤ 16 }
    requires short { most ≤ 16 }
    ensures { result ≡ printed_number base most digits.now }
{
    if digits.is_empty() || digits.len() > most || (digits.len() > 1 && digits[0] == b'0') {
        return None;
    }
    number_in(base, digits)
}

/// Whether the word begins as a place does.
pub(crate) fn is_place(word: &[u8]) -> bool
    ensures { result ≡ is_place word.now }
{
    word.starts_with(b"0x")
}

/// The place that the word prints.
pub(crate) fn place_of(word: &[u8]) -> Option<u64>
    ensures { result ≡ place_of_word word.now }
{
    if !is_place(word) {
        return None;
    }
    printed_number(16, PLACE_DIGITS, &word[2..])
}
