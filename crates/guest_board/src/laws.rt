//! What every step of the machine leaves as it is, whatever it begins with: by the original memory or by windows. Nothing
//! here runs: each function has a law as its contract.

ghost use Rattle.guest_board.specs.Laws.{ClockCountsSteps, EndsChangeNothing, EndsStay, FullStepsBegin, IdleRunsHaveEnded, IdleVcpusStay, NamesStay, NumberOfVcpusStays, StepsCountOne, StepsKeepText, StepsLeaveOthers, StepsReleaseOthers};

/// A step of the full machine is a step that begins with what is next by the original memory.
#[tactic(auto, using(crate::proofs::Steps::full_steps_begin))]
pub fn full_steps_begin()
    ensures { FullStepsBegin }
{}

/// No step changes kernel text or the size of memory, and each page counts one more store at most.
#[tactic(auto, using(crate::proofs::Stays::stepped_keeps))]
pub fn steps_keep_text()
    ensures { StepsKeepText }
{}

/// A step that ends the run by a stop or a shutdown changes nothing but the end, the count of its vCPU and the clock.
#[tactic(auto, using(crate::proofs::Ends::ends_only))]
pub fn ends_change_nothing()
    ensures { EndsChangeNothing }
{}

/// A step of one vCPU leaves all that is kept of the others, but that it breaks their reservations of what it wrote.
#[tactic(auto, using(crate::proofs::Others::releases_others, crate::proofs::Others::leaves_others))]
pub fn steps_leave_others()
    ensures but_for_reservations { StepsLeaveOthers }
    ensures exactly { StepsReleaseOthers }
{}

/// A step keeps the number of vCPUs, and counts one step more of its own and of all.
#[tactic(auto, using(crate::proofs::Steps::number_stays, crate::proofs::Steps::counts_one, crate::proofs::Steps::clock_counts))]
pub fn steps_count_one()
    ensures vcpus { NumberOfVcpusStays }
    ensures made { StepsCountOne }
    ensures clock { ClockCountsSteps }
{}

/// Where the run has ended nothing happens any more.
#[tactic(auto, using(crate::proofs::Idle::ends_stay))]
pub fn ends_stay()
    ensures { EndsStay }
{}

/// A step that does not fetch the hook's place keeps the name of its vCPU.
#[tactic(auto, using(crate::proofs::Steps::names_stay))]
pub fn names_stay()
    ensures { NamesStay }
{}

/// A vCPU that may not step may not after a step of another either.
#[tactic(auto, using(crate::proofs::Idle::idle_vcpus_stay))]
pub fn idle_vcpus_stay()
    ensures { IdleVcpusStay }
{}

/// Where nobody may step after a step, the run has ended.
#[tactic(auto, using(crate::proofs::Idle::idle_runs_have_ended))]
pub fn idle_runs_have_ended()
    ensures { IdleRunsHaveEnded }
{}
