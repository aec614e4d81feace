//! The trace of a run that has ended.

ghost use Rattle.std.specs.Prelude.{◌≡◌, ◌++◌, ◌<◌, IfOk, OnOk, IsSome, length, map};
ghost use Rattle.std.specs.List.{AllByRecursion, flat_map};
ghost use Rattle.trace_file.specs.Lawful.{IsState, IsDigest};
ghost use Rattle.trace_file.specs.Trace.{told_of_trace};
ghost use Rattle.run_trace.specs.Told.{vcpu_states, pages_digest, IsEntryInRange, IsToldBy, IsInRange};

use crate::parts::{entry_of, memory_digest, pages_digest, vcpu_state};
use chain_log::entry::LogEntry;
use fc_numbers::memory::NoMemory;
use fc_numbers::places::VcpuNo;
use guest_board::board::Board;
use std::alloc::Global;
use trace_file::state::State;
use trace_file::trace::{DIGEST, Trace};
use view_store::view::View;

/// The states of all vCPUs, by number.
fn states_of(alloc: Global, board: &Board) -> Result<Vec<State>, NoMemory>
    ensures value { IfOk result (λ states. states.items ≡ vcpu_states board.now.state) }
    ensures range { IfOk result (λ states. AllByRecursion IsState states.items) }
{
    let mut states = Vec::new(alloc);
    for i in 0..board.vcpus() {
        states.push(vcpu_state(board, VcpuNo(i)))?;
    }
    Ok(states)
}

/// Copies the entries of a log behind those that are there.
fn push_log(entries: &mut Vec<LogEntry>, log: &[LogEntry]) -> Result<(), NoMemory>
    ensures value { OnOk result (entries.new.items ≡ entries.old.items ++ log.now) }
    ensures range { OnOk result (AllByRecursion IsEntryInRange entries.old.items → AllByRecursion IsEntryInRange entries.new.items) }
{
    for entry in log {
        entries.push(entry_of(entry))?;
    }
    Ok(())
}

/// The entries of all logs, view after view.
fn entries_of(alloc: Global, views: &[View]) -> Result<Vec<LogEntry>, NoMemory>
    ensures value { IfOk result (λ entries. entries.items ≡ flat_map (λ p. p.log) views.now) }
    ensures range { IfOk result (λ entries. AllByRecursion IsEntryInRange entries.items) }
{
    let mut entries = Vec::new(alloc);
    for view in views {
        push_log(&mut entries, view.log())?;
    }
    Ok(entries)
}

/// The digest of each view's pages.
fn pages_of(alloc: Global, views: &[View]) -> Result<Vec<[u8; DIGEST]>, NoMemory>
    ensures value { IfOk result (λ pages. pages.items ≡ map pages_digest views.now) }
    ensures range { IfOk result (λ pages. AllByRecursion IsDigest pages.items) }
{
    let mut pages = Vec::new(alloc);
    for view in views {
        pages.push(pages_digest(alloc, view)?)?;
    }
    Ok(pages)
}

/// The trace of a run that has ended: its schedule, the entries of the views' logs, view after view, how it ended, and
/// what it left. An Err is want of memory.
pub fn trace_of_run(alloc: Global, board: &Board, views: &[View]) -> Result<Trace, NoMemory>
    requires { IsSome board.now.state.end }
    ensures told { IfOk result (λ t. IsToldBy board.now views.now (told_of_trace t)) }
    ensures ranges { IfOk result (λ t. IsInRange (told_of_trace t)) }
{
    let end = match board.end() {
        Some(end) => end,
        None => unreachable!(),
    };
    // No run has more steps than a trace may have; the clock says so.
    let _steps = board.clock();
    let schedule = Vec::from_slice(alloc, board.schedule())?;
    let entries = entries_of(alloc, views)?;
    let states = states_of(alloc, board)?;
    let pages = pages_of(alloc, views)?;
    Ok(Trace {
        vcpus: board.vcpus(),
        schedule,
        entries,
        end,
        states,
        memory: memory_digest(board.ram()),
        pages,
    })
}
