//! What a vCPU does by the halfwords that its lane holds of a view.

ghost use Rattle.std.specs.Prelude.{◌≡◌, ◌≤◌, ◌<◌, true, option_copied};
ghost use Rattle.fc_numbers.specs.Spans.{AreRangesFrom, in_text, offset_in, text_size};
ghost use Rattle.fc_numbers.specs.declared.places.TheConstants.{RAM_START};
ghost use Rattle.fc_numbers.specs.declared.spans.TheConstants.{TEXT_MOST};
ghost use Rattle.guest_board.specs.Step.{place_of};
ghost use Rattle.guest_board.specs.SeenFacts.{IsPlacedIn};
ghost use Rattle.guest_board.specs.Seen.{by_start, by_window, by_halves, is_cleared, line_no, window_at};

use crate::fetch::{Fetched, place_in_text, replace_halves};
use crate::step::StepStart;
use arrayvec::ArrayVec;
use fc_numbers::places::{Gpa, Span, ViewNo};
use fc_numbers::spans::offset_of;
use fc_numbers::window::{LINE, Window};

/// What a lane holds of its view.
#[derive(Drop)]
pub struct Windows {
    /// The view.
    pub view: ViewNo,
    /// Copies of lines of the view's pages, the newest first.
    pub held: ArrayVec<Window, 4>,
    /// The places whose zeros are the guest's own, if it has any.
    pub cleared: Option<Span>,
}

/// What a vCPU does by its windows: nothing, since it may not step; a need of the line of a number; a trap on the zero
/// at a place; a step that begins so.
#[derive(Debug, Clone, Copy)]
pub enum Verdict {
    Idle,
    Needs(u32),
    Zeroes(Gpa),
    Goes(StepStart),
}

/// What a step over windows did.
#[derive(Debug, Clone, Copy)]
pub enum Seen {
    /// The vCPU stepped; `hooked` where the step fetched the hook's place, and only then may the vCPU have another name.
    Stepped { hooked: bool },
    /// No window of the line of this number is held.
    Need(u32),
    /// The halfword at a place is zero, outside the cleared places.
    Zero(Gpa),
    /// The vCPU may not step.
    Over,
}

fn is_in_cleared(cleared: &Option<Span>, place: Gpa) -> bool
    ensures { result ≡ is_cleared cleared.now place }
{
    match cleared {
        None => false,
        Some(span) => span.contains(place),
    }
}

fn read_halves(cleared: &Option<Span>, got: Fetched, place: Gpa, first: u16, second: u16) -> Verdict
    ensures { result ≡ by_halves cleared.now got place first second }
{
    if first == 0 && !is_in_cleared(cleared, place) {
        Verdict::Zeroes(place)
    } else {
        Verdict::Goes(StepStart::Fetches(replace_halves(got, first, second)))
    }
}

/// The offset in text of a place that may lie behind the first range.
#[inline(never)]
#[tactic(auto, using(crate::proofs::Parts::few_bytes))]
fn offset_behind(text: &[Span], place: Gpa) -> u64
    requires ranges { AreRangesFrom RAM_START text.now }
    requires few { text_size text.now ≤ TEXT_MOST }
    requires inside { in_text text.now place ≡ true }
    ensures value { result ≡ offset_in text.now place }
    ensures below { result < TEXT_MOST }
{
    match offset_of(text, place) {
        Some(offset) => offset,
        None => unreachable!(),
    }
}

/// The offset in text of a place. Most texts are one range, which is looked at first.
#[tactic(auto, using(crate::proofs::Parts::few_bytes))]
fn offset_at(text: &[Span], place: Gpa) -> u64
    requires ranges { AreRangesFrom RAM_START text.now }
    requires few { text_size text.now ≤ TEXT_MOST }
    requires inside { in_text text.now place ≡ true }
    ensures value { result ≡ offset_in text.now place }
    ensures below { result < TEXT_MOST }
{
    match text {
        [first, ..] if first.contains(place) => place.0 - first.start.0,
        _ => offset_behind(text, place),
    }
}

/// The first of the windows of a line.
fn window_at(held: &[Window], line: u32) -> Option<&Window>
    ensures { option_copied result ≡ window_at line held.now }
{
    held.iter().find(|window| window.line == line)
}

#[inline(always)]
fn read_window(text: &[Span], seen: &Windows, got: Fetched, place: Gpa) -> Verdict
    requires ranges { AreRangesFrom RAM_START text.now }
    requires few { text_size text.now ≤ TEXT_MOST }
    requires inside { in_text text.now place ≡ true }
    ensures { result ≡ by_window text.now seen.now.cleared got place (window_at (line_no text.now place) seen.now.held.items) }
{
    let offset = offset_at(text, place);
    let line = (offset / LINE) as u32;
    match window_at(&seen.held, line) {
        None => Verdict::Needs(line),
        Some(window) => {
            let n = (offset / 2 % 32) as usize;
            read_halves(
                &seen.cleared,
                got,
                place,
                window.halves[n],
                window.halves[n + 1],
            )
        }
    }
}

/// What a vCPU does whose next step begins so.
#[inline(always)]
pub(crate) fn judge(text: &[Span], seen: &Windows, start: StepStart) -> Verdict
    requires ranges { AreRangesFrom RAM_START text.now }
    requires few { text_size text.now ≤ TEXT_MOST }
    requires inside { IsPlacedIn text.now (place_of start) }
    ensures { result ≡ by_start text.now seen.now start }
{
    match start {
        StepStart::Interrupt(code) => Verdict::Goes(StepStart::Interrupt(code)),
        StepStart::Fetches(got) => match place_in_text(&got) {
            None => Verdict::Goes(StepStart::Fetches(got)),
            Some(place) => read_window(text, seen, got, place),
        },
    }
}
