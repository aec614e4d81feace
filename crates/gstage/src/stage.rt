//! What a second stage answers, and the stage that compares places with the ranges of text and the span of RAM.

ghost use Rattle.std.specs.Prelude.{◌≡◌, ℕ, List};
ghost use Rattle.fc_numbers.specs.declared.places.Span.{Span};
ghost use Rattle.gstage.specs.Stage.{placed_among};

use fc_numbers::machine::Access;
use fc_numbers::places::{Gpa, Span};
use fc_numbers::spans::{Spans, in_text};

/// Where a guest place lies.
#[derive(Debug, Clone, Copy, PartialEq, Eq)]
pub enum Placed {
    /// In RAM outside kernel text.
    Ram,
    /// In kernel text.
    Text,
    /// Outside RAM.
    Outside,
}

/// A second stage of translation for one kernel text and one RAM.
pub trait SecondStage {
    /// The ranges of kernel text.
    ghost text: { Self → List Span };

    /// The places of RAM.
    ghost ram: { Self → Span };

    /// Where the place lies for this access.
    fn place(&self, at: Gpa, access: Access) -> Placed
        ensures { result ≡ placed_among (text self.now) (ram self.now) at };
}

/// The stage that compares a place with the ranges of text and the span of RAM.
#[derive(Drop)]
pub struct Flat {
    /// The ranges of kernel text.
    pub text: Spans,
    /// The places of RAM.
    pub ram: Span,
}

impl SecondStage for Flat {
    ghost text = { λ s. s.text.items };

    ghost ram = { λ s. s.ram };

    fn place(&self, at: Gpa, access: Access) -> Placed {
        if in_text(self.text.as_slice(), at) {
            Placed::Text
        } else if self.ram.contains(at) {
            Placed::Ram
        } else {
            Placed::Outside
        }
    }
}
