//! The bytes of kernel text, with the places where they stand.

ghost use Rattle.std.specs.Prelude.{◌≡◌, ◌≤◌, length, IfOk};
ghost use Rattle.guest_input.specs.Text.{AreRanges, bytes_of, spans_of};

use fc_numbers::memory::NoMemory;
use fc_numbers::places::Span;
use fc_numbers::shared::SharedBytes;
use fc_numbers::spans::Spans;
use std::marker::Model;

/// The ranges of kernel text, one to four, in order of place. In contracts they are the list of ranges, each a place
/// and its bytes. The bytes of all ranges lie one after another, so that an offset in text is an index.
#[derive(Drop)]
pub struct Ranges {
    spans: Spans,
    bytes: SharedBytes,
}

impl Model for Ranges {
    ghost use Rattle.std.specs.Prelude.{List};
    ghost use Rattle.guest_input.specs.Text.{Range};
    ghost use Rattle.guest_input.specs.TextIn.{ranges_in, IsText};

    ghost Value = { List Range };

    ghost view = { ranges_in };

    ghost invariant = { IsText };
}

impl Ranges {
    /// The ranges at these places, of these bytes one after another.
    #[tactic(auto, using(crate::proofs::Cut::cut_spans, crate::proofs::Cut::cut_bytes))]
    pub fn of(spans: Spans, bytes: SharedBytes) -> Ranges
        requires { AreRanges spans.items bytes }
        ensures spans { spans_of result ≡ spans.items }
        ensures bytes { bytes_of result ≡ bytes }
    {
        Ranges { spans, bytes }
    }

    /// The places of the ranges.
    #[tactic(auto, using(crate::proofs::Cut::cut_spans, crate::proofs::Cut::cut_bytes))]
    pub fn spans(&self) -> &[Span]
        ensures value { result.now ≡ spans_of self.now }
        ensures lawful { AreRanges (spans_of self.now) (bytes_of self.now) }
    {
        self.spans.as_slice()
    }

    /// The bytes of all ranges, one after another.
    #[tactic(auto, using(crate::proofs::Cut::cut_spans, crate::proofs::Cut::cut_bytes))]
    pub fn bytes(&self) -> &[u8]
        ensures value { result.now ≡ bytes_of self.now }
        ensures lawful { AreRanges (spans_of self.now) (bytes_of self.now) }
    {
        self.bytes.as_slice()
    }

    /// Another owner of the bytes of all ranges.
    #[tactic(auto, using(crate::proofs::Cut::cut_spans, crate::proofs::Cut::cut_bytes))]
    pub fn share_bytes(&self) -> Result<SharedBytes, NoMemory>
        ensures value { IfOk result (λ bytes. bytes ≡ bytes_of self.now) }
    {
        self.bytes.share()
    }

    /// A copy of the places of the ranges.
    #[tactic(auto, using(crate::proofs::Cut::cut_spans, crate::proofs::Cut::cut_bytes))]
    pub fn copy_spans(&self) -> Spans
        ensures value { result.items ≡ spans_of self.now }
    {
        copy_of(self.spans())
    }
}

/// A copy of these spans.
pub fn copy_of(spans: &[Span]) -> Spans
    requires { length spans.now ≤ 4 }
    ensures { result.items ≡ spans.now }
{
    let mut copy = Spans::new();
    for span in spans {
        copy.push(*span);
    }
    copy
}
