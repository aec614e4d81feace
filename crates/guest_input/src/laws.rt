//! How starts are ordered, and how the bytes of text and its ranges go together. Nothing here runs: each function has a
//! law as its contract.

ghost use Rattle.guest_input.specs.Starts.{EqualStartsAreOne, StartsAreOrdered};
ghost use Rattle.guest_input.specs.TextLaws.{BytesOfCut, SpansOfCut};

/// The order of starts is total.
#[tactic(auto, using(crate::proofs::Starts::starts_ordered))]
pub fn starts_are_ordered()
    ensures { StartsAreOrdered }
{}

/// Starts that compare alike are one.
#[tactic(auto, using(crate::proofs::Starts::equal_one))]
pub fn equal_starts_are_one()
    ensures { EqualStartsAreOne }
{}

/// Bytes that are cut at the sizes of ranges stand at the places of these ranges.
#[tactic(auto, using(crate::proofs::Cut::cut_spans))]
pub fn spans_of_cut()
    ensures { SpansOfCut }
{}

/// Bytes that are cut at the sizes of ranges are still the same bytes.
#[tactic(auto, using(crate::proofs::Cut::cut_bytes))]
pub fn bytes_of_cut()
    ensures { BytesOfCut }
{}
