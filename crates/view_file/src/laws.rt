//! That a reading has one answer. Nothing here runs: each function has a law as its contract.

ghost use Rattle.view_file.specs.Once.{ReadsOnce, ParsesOnce};

/// The same bytes give the same views for an image, or the same fault: views and faults exclude each other, and each is
/// one. Want of memory, which may come at any time, is left out.
#[tactic(auto, using(crate::proofs::Once::reads_once))]
pub fn readings_are_one()
    ensures { ReadsOnce }
{}

/// The same bytes write the same views, or have the same fault, but for want of memory.
pub fn parsings_are_one()
    ensures { ParsesOnce }
{}
