//! That files decide what they give. Nothing here runs: each function has a law as its contract.
//!
//! That each cause has its answer is a law of each command, in the crate of the commands: a promise is no plain value,
//! so no clause speaks of all promises at once. The lemmas for any promise stand in `proofs/Exact.antt`.

ghost use Rattle.std.specs.Prelude.{Option, List, ℕ};
ghost use Rattle.guest_input.specs.declared.image.Image.{Image};
ghost use Rattle.guest_input.specs.declared.setup.Setup.{Setup};
ghost use Rattle.trace_file.specs.Trace.{Told};
ghost use Rattle.view_file.specs.declared.views.Views.{Views};
ghost use Rattle.command_frame.specs.Exact.{IsSure};
ghost use Rattle.command_frame.specs.Files.{GivesImage, RefusesImage, GivesSetup, RefusesSetup, GivesViews, RefusesViews, GivesFreeViews, RefusesFreeViews, GivesScript, RefusesScript, GivesTrace, RefusesTrace};

use view_file::laws::{parsings_are_one, readings_are_one};

/// A file gives one image, or is refused as an image for one reason, and not both.
#[tactic(auto, using(crate::proofs::Sure::image_sure))]
pub fn image_files_are_sure()
    ensures { IsSure Image GivesImage RefusesImage }
{}

/// For an image, a file gives one setup, or is refused as a setup for one reason, and not both.
#[tactic(auto, using(crate::proofs::Sure::setup_sure))]
pub fn setup_files_are_sure()
    ensures { (i : Image) → IsSure Setup (λ held. GivesSetup held i) (λ held. RefusesSetup held i) }
{}

/// For an image, a file gives one value of views, or is refused as views for one reason, and not both.
#[tactic(auto, using(crate::proofs::Sure::views_sure))]
pub fn views_files_are_sure()
    ensures { (i : Image) → IsSure Views (λ held. GivesViews held i) (λ held. RefusesViews held i) }
{
    readings_are_one();
}

/// Without an image, a file gives one value of views, or is refused as views for one reason, and not both.
#[tactic(auto, using(crate::proofs::Sure::free_views_sure))]
pub fn free_views_files_are_sure()
    ensures { IsSure Views GivesFreeViews RefusesFreeViews }
{
    parsings_are_one();
}

/// For so many vCPUs, a file gives one script, or is refused as a script for one reason, and not both.
#[tactic(auto, using(crate::proofs::Sure::script_sure))]
pub fn script_files_are_sure()
    ensures { (vcpus : ℕ) → IsSure (List ℕ) (λ held. GivesScript held vcpus) (λ held. RefusesScript held vcpus) }
{}

/// A file gives one trace, or is refused as a trace for one reason, and not both.
#[tactic(auto, using(crate::proofs::Sure::trace_sure))]
pub fn trace_files_are_sure()
    ensures { IsSure Told GivesTrace RefusesTrace }
{}
