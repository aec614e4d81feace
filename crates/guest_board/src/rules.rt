//! The rules of a run.

ghost use Rattle.std.specs.Prelude.{◌≡◌, ◌≤◌, ◌+◌, ◌<◌, ◌^◌, length};
ghost use Rattle.fc_numbers.specs.Spans.{text_size};
ghost use Rattle.guest_input.specs.Text.{start_place};
ghost use Rattle.guest_input.specs.Accepted.{IsImage};
ghost use Rattle.guest_board.specs.First.{hook_place, rules_of};

use fc_numbers::places::{Gpa, Span};
use fc_numbers::spans::{place_of, text_size};
use guest_input::image::{Image, Start};
use guest_input::setup::Setup;

/// What the steps of a run go by, besides the state of the machine.
#[derive(Debug, Clone, Copy, PartialEq, Eq)]
pub struct Rules {
    /// The steps that each vCPU may make.
    pub steps: u32,
    /// The place of the first instruction of the function at which the kernel switches tasks, where one is named.
    pub hook: Option<Gpa>,
    /// The bytes from a1 to the name of the next task, where the hook's first instruction is fetched.
    pub name_at: u64,
}

/// The place of a start; 0 where no byte of text has its offset.
fn place_of_start(spans: &[Span], at: Start) -> Gpa
    requires few { text_size spans.now < 2 ^ 63 }
    ensures { result ≡ start_place spans.now at }
{
    let range = (at.range as usize).min(spans.len());
    let offset = text_size(&spans[..range]) + at.offset as u64;
    if offset < text_size(spans) {
        place_of(spans, offset)
    } else {
        Gpa(0)
    }
}

fn place_of_hook(spans: &[Span], hook: &Option<Start>) -> Option<Gpa>
    requires few { text_size spans.now < 2 ^ 63 }
    ensures { result ≡ hook_place spans.now hook.now }
{
    match hook {
        None => None,
        Some(at) => Some(place_of_start(spans, *at)),
    }
}

/// The rules of a run of this image by this setup.
pub(crate) fn rules_of(image: &Image, setup: &Setup) -> Rules
    ensures { result ≡ rules_of image.now setup.now }
{
    Rules {
        steps: setup.steps,
        hook: place_of_hook(image.ranges.spans(), &setup.hook),
        name_at: setup.name_at,
    }
}
