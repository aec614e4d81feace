//! What is logged under the views of a run's own profile: nothing.

ghost use Rattle.profile_laws.specs.Profiled.{OneVcpuLogsNothing, OneVcpuTracesNothing, RoundRobinLogsNothing};

use guest_board::laws::steps_count_one;
use guest_runs::laws::justified_entries_are_printable;
use vcpu_core::laws::{
    covered_undisturbed_events_log_nothing, every_order_is_sound, one_vcpu_is_undisturbed,
};

/// Under the views of its profile, an undisturbed list of events whose steps are the round-robin schedule, to the end of the
/// run, logs nothing. A disturbed one may: a vCPU may trap on code that another vCPU's step then unmaps.
pub fn round_robin_logs_nothing()
    ensures { RoundRobinLogsNothing }
{
    covered_undisturbed_events_log_nothing();
    every_order_is_sound();
    justified_entries_are_printable();
}

/// With one vCPU, under the views of its profile, every list of events after which the run has ended logs nothing.
pub fn one_vcpu_logs_nothing()
    ensures { OneVcpuLogsNothing }
{
    covered_undisturbed_events_log_nothing();
    every_order_is_sound();
    justified_entries_are_printable();
    one_vcpu_is_undisturbed();
    steps_count_one();
}

/// With one vCPU, under the views of the profile of the same image and setup, the trace of what `guest_runs::driven::drive`
/// gives has no entry, whatever the script is.
pub fn one_vcpu_traces_nothing()
    ensures { OneVcpuTracesNothing }
{
    every_order_is_sound();
    one_vcpu_logs_nothing();
}
