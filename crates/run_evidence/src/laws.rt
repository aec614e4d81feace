//! That evidence stays evidence, and what grows with a schedule. Nothing here runs: each function has a law as its contract.

ghost use Rattle.run_evidence.specs.Growing.{RunsAppend, BoardsMove, LawfulGrows, FrontsAreLawful, StoppedStays, AllowedIsFromStart, AllowedFromStays, AllowedFromGrows, AllowedJoins};
ghost use Rattle.run_evidence.specs.Stays.{JustifiedStays, AllowedStays};

/// An entry that is justified stays so when the schedule grows.
#[tactic(auto, using(crate::proofs::Staying::justified_stays))]
pub fn justified_entries_stay()
    ensures { JustifiedStays }
{}

/// Fetches that are allowed stay so when the logs grow.
#[tactic(auto, using(crate::proofs::Staying::allowed_stays))]
pub fn allowed_fetches_stay()
    ensures { AllowedStays }
{}

/// The run of a schedule and what comes after it is the second run from where the first one ends.
pub fn runs_append()
    ensures { RunsAppend }
{}

/// One more step of the schedule is one step of the board.
pub fn boards_move()
    ensures { BoardsMove }
{}

/// A lawful schedule with one more step that exists is lawful.
pub fn lawful_schedules_grow()
    ensures { LawfulGrows }
{}

/// A front part of a lawful schedule is lawful.
pub fn fronts_are_lawful()
    ensures { FrontsAreLawful }
{}

/// A vCPU that may not step may not after further steps.
pub fn stopped_vcpus_stay()
    ensures { StoppedStays }
{}

/// All fetches are allowed exactly where those from step 0 on are.
pub fn allowed_is_from_the_start()
    ensures { AllowedIsFromStart }
{}

/// Fetches that are allowed from a step on stay so when the logs grow.
pub fn later_fetches_stay()
    ensures { AllowedFromStays }
{}

/// Fetches that are allowed from a step on stay so after one more step whose fetch is allowed.
pub fn later_fetches_grow()
    ensures { AllowedFromGrows }
{}

/// All fetches are allowed where those of a front part are, and those after it.
pub fn allowed_fetches_join()
    ensures { AllowedJoins }
{}
