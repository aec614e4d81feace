//! What is true after any list of events, and of truthful lanes. Nothing here runs: each function has a law as its contract.

ghost use Rattle.std.specs.Prelude.{◌≡◌, ℕ, None, List};
ghost use Rattle.run_evidence.specs.Config.{Config, IsConfig};
ghost use Rattle.vcpu_core.specs.First.{first_world};
ghost use Rattle.vcpu_core.specs.declared.lane.Went.TheVariants.{Over};
ghost use Rattle.vcpu_core.specs.World.{go_all, went_of, erased};
ghost use Rattle.vcpu_core.specs.Rows.{StagesServe, TruthfulLanesArePlaced, TruthfulLanesStay};
ghost use Rattle.vcpu_core.specs.Sound.{HasTruthfulLanes, IsSound};
ghost use Rattle.vcpu_core.specs.Bound.{OneInTenSteps};
ghost use Rattle.vcpu_core.specs.Missed.{HasEnded, EachLogsItsMisses, EachLogsMissesSoFar, FirstLogsAllMisses};
ghost use Rattle.vcpu_core.specs.Undisturbed.{CoveredLogsNothing, OneVcpuIsUndisturbed};

/// After any list of events the board is the full kernel's run of the steps that were made, in a lawful schedule; the
/// views are numbered in order, each over the image's text with its base; every fetch of kernel text was allowed; every
/// entry names missing code about to be fetched; and no view has a group twice.
#[tactic(auto, using(crate::proofs::Start::sound_of_events))]
pub fn every_order_is_sound()
    ensures { (c : Config) → IsConfig c → (is : List ℕ) → IsSound c (go_all (first_world c) is) (erased (first_world c) is) }
{}

/// After any list of events each lane is its vCPU's, and truthful for the steps that were made and the logs.
#[tactic(auto, using(crate::proofs::Start::truthful_of_events))]
pub fn lanes_are_truthful_after_every_order()
    ensures { (c : Config) → IsConfig c → (is : List ℕ) → HasTruthfulLanes c (go_all (first_world c) is) (erased (first_world c) is) }
{}

/// A truthful lane stays truthful when other vCPUs step and when logs grow.
pub fn truthful_lanes_stay()
    ensures { TruthfulLanesStay }
{}

/// Second-stage tables that serve the board after one schedule serve it after any other.
pub fn stages_serve_every_board()
    ensures { StagesServe }
{}

/// What the rows ask of a lane is true of a truthful one.
#[tactic(auto, using(crate::proofs::Stays::truthful_lanes_are_placed))]
pub fn truthful_lanes_are_placed()
    ensures { TruthfulLanesArePlaced }
{}

/// After any list of events, of ten events of one vCPU, each of which is one and between which no other vCPU steps, at
/// least one is a step. Other vCPUs may need, fill, trap, look up and mend between them.
#[tactic(auto, using(crate::proofs::Bound::one_in_ten_steps))]
pub fn one_in_ten_events_steps()
    ensures { OneInTenSteps }
{}

/// Where each fetch of the steps that were made is of code in the base of its view, an undisturbed list of events logs
/// nothing, in no view.
#[tactic(auto, using(crate::proofs::Undisturbed::covered_logs_nothing))]
pub fn covered_undisturbed_events_log_nothing()
    ensures { CoveredLogsNothing }
{}

/// With one vCPU, a list of events after which the run has ended is undisturbed.
#[tactic(auto, using(crate::proofs::Alone::one_is_undisturbed))]
pub fn one_vcpu_is_undisturbed()
    ensures { OneVcpuIsUndisturbed }
{}

/// With one vCPU, the log of each view is exactly the misses under that view, in order, at any time; one entry more may
/// stand, of this moment.
#[tactic(auto, using(crate::proofs::SoFar::each_logs_misses_so_far))]
pub fn one_vcpu_logs_its_misses_so_far()
    ensures { (c : Config) → IsConfig c → c.setup.vcpus ≡ 1 → (is : List ℕ)
        → EachLogsMissesSoFar c (go_all (first_world c) is) (erased (first_world c) is) }
{}

/// With one vCPU, once the run has ended, the log of each view is exactly the misses under that view, in order.
#[tactic(auto, using(crate::proofs::OneVcpu::each_logs_its_misses))]
pub fn one_vcpu_logs_its_misses()
    ensures { (c : Config) → IsConfig c → c.setup.vcpus ≡ 1 → (is : List ℕ) → HasEnded (go_all (first_world c) is)
        → EachLogsItsMisses c (go_all (first_world c) is) (erased (first_world c) is) }
{}

/// With one vCPU and no hook, so that no name changes, the log of the view of the setup's name is every miss of an
/// ended run, in order.
pub fn without_hook_first_view_logs_all_misses()
    ensures { (c : Config) → IsConfig c → c.setup.vcpus ≡ 1 → c.setup.hook ≡ None → (is : List ℕ) → HasEnded (go_all (first_world c) is)
        → FirstLogsAllMisses c (go_all (first_world c) is) (erased (first_world c) is) }
{}

/// With one vCPU, an event is `Over` only where the run has ended: until then the vCPU may step.
#[tactic(auto, using(crate::proofs::Ended::over_is_ended))]
pub fn one_vcpu_goes_on_until_the_end()
    ensures { (c : Config) → IsConfig c → c.setup.vcpus ≡ 1 → (is : List ℕ) → went_of (go_all (first_world c) is) 0 ≡ Over
        → HasEnded (go_all (first_world c) is) }
{}
