//! The first difference between a run and a trace.

ghost use Rattle.std.specs.Prelude.{◌≡◌, ◌<◌, IfSome, length};
ghost use Rattle.trace_file.specs.Trace.{told_of_trace};
ghost use Rattle.replay_command.specs.Comparisons.{IsNumbered, first_difference, run_compared, values_compared, vcpus_compared};

use crate::comparison::Comparison;
use fc_numbers::places::VcpuNo;
use guest_board::board::Board;
use run_trace::parts::{memory_digest, vcpu_state};
use trace_file::state::{State, first_difference, values_of_state};
use trace_file::trace::Trace;

/// The first value in which two states of a vCPU differ.
fn value_difference(vcpu: u8, left: &State, right: &State) -> Option<Comparison>
    ensures value { result ≡ first_difference (values_compared vcpu left.now right.now) }
    ensures numbered { IfSome result IsNumbered }
{
    let number = first_difference(left, right)?;
    Some(Comparison::Value {
        vcpu,
        number,
        left: values_of_state(left)[number],
        right: values_of_state(right)[number],
    })
}

/// The first value in which the vCPUs of a board differ from these states, vCPU after vCPU.
fn vcpu_difference(board: &Board, states: &[State]) -> Option<Comparison>
    requires { length states.now ≡ length board.now.state.slots }
    ensures value { result ≡ first_difference (vcpus_compared board.now.state states.now (length states.now)) }
    ensures numbered { IfSome result IsNumbered }
{
    for i in 0..board.vcpus() {
        let left = vcpu_state(board, VcpuNo(i));
        match value_difference(i, &left, &states[i as usize]) {
            Some(difference) => return Some(difference),
            None => {}
        }
    }
    None
}

/// The first difference between a board that has made so many steps of a trace's schedule and the trace, of as many vCPUs.
pub fn run_difference(board: &Board, made: u32, trace: &Trace) -> Option<Comparison>
    requires vcpus { trace.now.vcpus ≡ length board.now.state.slots }
    requires states { length trace.now.states.items ≡ trace.now.vcpus }
    ensures value { result ≡ first_difference (run_compared board.now.state (told_of_trace trace.now) made) }
    ensures numbered { IfSome result IsNumbered }
{
    let schedule = Comparison::Schedule {
        left: made as usize,
        right: trace.schedule.len(),
    };
    if schedule.differs() {
        return Some(schedule);
    }
    let ending = Comparison::Ending {
        left: board.end(),
        right: trace.end,
    };
    if ending.differs() {
        return Some(ending);
    }
    match vcpu_difference(board, &trace.states) {
        Some(value) => return Some(value),
        None => {}
    }
    let memory = Comparison::Memory {
        left: memory_digest(board.ram()),
        right: trace.memory,
    };
    if memory.differs() {
        return Some(memory);
    }
    None
}
