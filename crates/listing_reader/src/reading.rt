//! The halfwords of a listing.

ghost use Rattle.std.specs.Prelude.{◌≡◌, ℕ, ◌≤◌, ◌<◌, ◌+◌, ◌-◌, ◌*◌, ◌^◌, ◌++◌, [], ◌∷◌, true, length, option_map, replicate, IfSome, OnOk};
ghost use Rattle.listing_reader.specs.Lines.{is_within_addresses, line_halves, line_place, line_size};
ghost use Rattle.listing_reader.specs.Reading.{AnswersListing, halves_read, held_from, lines_of_listing, read_after, read_from};

use crate::fault::ListFault;
use crate::line::{HALVES_MOST, Line, line_of, line_size};
use crate::words::cut_at;
use fc_numbers::places::Gpa;
use std::alloc::{AllocError, Global};

/// A halfword and its place.
#[derive(Debug, Clone, Copy, PartialEq, Eq)]
pub struct Held {
    pub at: Gpa,
    pub half: u16,
}

/// Appends a halfword with its place.
fn push_half(held: &mut Vec<Held>, at: u64, half: u16) -> Result<(), AllocError>
    ensures { OnOk result (held.new.items ≡ held.old.items ++ held_from at (half ∷ [])) }
{
    held.push(Held { at: Gpa(at), half })?;
    Ok(())
}

/// Appends so many zeros, the first at this place.
fn push_zeros(held: &mut Vec<Held>, at: u64, count: u32) -> Result<(), AllocError>
    requires { at + 2 * (count - 1) < 2 ^ 64 }
    ensures { OnOk result (held.new.items ≡ held.old.items ++ held_from at (replicate count 0)) }
{
    for k in 0..count {
        push_half(held, at + 2 * k as u64, 0)?;
    }
    Ok(())
}

/// Appends the halfwords of a line, with their places.
fn push_line(held: &mut Vec<Held>, line: Line) -> Result<(), AllocError>
    requires { is_within_addresses line ≡ true }
    ensures { OnOk result (held.new.items ≡ held.old.items ++ held_from (line_place line) (line_halves line)) }
{
    match line {
        Line::Head => Ok(()),
        Line::Zeros { at, count } => push_zeros(held, at, count),
        Line::Wide { at, low, high } => {
            push_half(held, at, low)?;
            push_half(held, at + 2, high)
        }
        Line::Short { at, half } => push_half(held, at, half),
    }
}

/// The first line of some bytes, and what stands behind it; None where it has no form.
fn next_line(bytes: &[u8]) -> Option<(Line, &[u8])>
    requires { 0 < length bytes.now }
    ensures read { (n before : ℕ) → read_from n before (lines_of_listing bytes.now) ≡ read_after n before (option_map (λ next. (next.0, next.1.now)) result) }
    ensures within { IfSome result (λ next. is_within_addresses next.0 ≡ true) }
    ensures shorter { IfSome result (λ next. length next.1.now < length bytes.now) }
{
    let Some((text, behind)) = cut_at(b'\n', bytes) else {
        return None;
    };
    match line_of(text) {
        Some(line) => Some((line, behind)),
        None => None,
    }
}

/// The halfwords that the lines of a listing hold, in order, or the first line that is refused. There are fewer than 4 GiB
/// of bytes.
pub fn read_listing(alloc: Global, bytes: &[u8]) -> Result<Vec<Held>, ListFault>
    requires { length bytes.now < 2 ^ 32 }
    ensures { AnswersListing (λ held. held.items) result (halves_read bytes.now) }
{
    let mut held = Vec::new(alloc);
    let mut rest = bytes;
    let mut number: u32 = 0;
    while !rest.is_empty() {
        let Some((line, behind)) = next_line(rest) else {
            return Err(ListFault::NotListing(number));
        };
        if held.len() as u64 + line_size(line) > HALVES_MOST {
            return Err(ListFault::TooMany(number));
        }
        push_line(&mut held, line)?;
        rest = behind;
        number += 1;
    }
    Ok(held)
}
