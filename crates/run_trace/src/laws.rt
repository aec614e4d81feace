//! What traces of runs are. Nothing here runs: each function has a law as its contract.

ghost use Rattle.run_trace.specs.Sound.{RunsHaveSoundTraces, TracesOfRunsAreLawful, ZerosReachTheGuest};

use guest_board::laws::steps_count_one;

/// The trace of a run is sound.
pub fn runs_have_sound_traces()
    ensures { RunsHaveSoundTraces }
{
    steps_count_one();
}

/// The trace of a run has a text: each of its parts is in the range of the format.
pub fn traces_of_runs_are_lawful()
    ensures { TracesOfRunsAreLawful }
{
    steps_count_one();
}

/// A zero halfword of text that a step fetches reaches the guest: the step is the trap of an illegal instruction.
pub fn zeros_reach_the_guest()
    ensures { ZerosReachTheGuest }
{}
