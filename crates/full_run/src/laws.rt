//! What a schedule and the number of its steps that exist say of each other. Nothing here runs: each function has a law as
//! its contract.

ghost use Rattle.full_run.specs.Laws.{EachHasLongest, LawfulIsWhole, LongestIsOne, RunsKeepVcpus};

use guest_board::laws::steps_count_one;
use run_evidence::laws::lawful_schedules_grow;

/// A schedule has a number of steps that exist.
#[tactic(auto, using(crate::proofs::Longest::each_has_longest))]
pub fn each_has_longest()
    ensures { EachHasLongest }
{
    lawful_schedules_grow();
}

/// A schedule has one number of steps that exist.
#[tactic(auto, using(crate::proofs::Longest::longest_is_one))]
pub fn longest_is_one()
    ensures { LongestIsOne }
{}

/// All steps of a schedule exist exactly where it is lawful.
#[tactic(auto, using(crate::proofs::Longest::lawful_is_whole))]
pub fn lawful_is_whole()
    ensures { LawfulIsWhole }
{}

/// A run keeps the vCPUs of its setup.
#[tactic(auto, using(crate::proofs::Longest::runs_keep_vcpus))]
pub fn runs_keep_vcpus()
    ensures { RunsKeepVcpus }
{
    steps_count_one();
}
