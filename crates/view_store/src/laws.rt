//! What a view's mask and its windows are. Nothing here runs: each function has a law as its contract.

ghost use Rattle.view_store.specs.Paged.{MaskIsMasked, WindowsAreOfTheMask};

/// Halfword n of the mask is that of the text where its group is present, and 0 elsewhere.
#[tactic(auto, using(crate::proofs::PageLemmas::mask_at))]
pub fn mask_is_masked()
    ensures { MaskIsMasked }
{}

/// Each halfword of a window is that of the mask.
pub fn windows_are_lines_of_the_mask()
    ensures { WindowsAreOfTheMask }
{}
