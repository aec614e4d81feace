//! Reading a trace from bytes, part by part.
//!
//! Each reader gives a part and the bytes behind it. Where the part holds values that contracts see by a model, its
//! answer is matched, since `?` does not pass such values on.

ghost use Rattle.std.specs.Prelude.{◌≡◌, ◌≤◌, ◌<◌, ◌+◌, ◌^◌, ◌++◌, replicate, length, Ok, IfOk, OnOk, OnErr};
ghost use Rattle.std.specs.Int.{w8, w32, w64};
ghost use Rattle.trace_file.specs.Entries.{entry_form, head_form, entries_form, after_entry};
ghost use Rattle.trace_file.specs.Form.{number, items, seen, repeated_form};
ghost use Rattle.trace_file.specs.Gives.{Gives, Answers};
ghost use Rattle.trace_file.specs.Runs.{run_form, runs_form, after_run, at_first, runs_of, schedule_of};
ghost use Rattle.trace_file.specs.States.{value_form, values_form, state_form, states_form};
ghost use Rattle.trace_file.specs.Lawful.{IsLawfulTrace};
ghost use Rattle.trace_file.specs.Trace.{Told, vcpus_form, end_form, digest_form, pages_form, trace_form, told_of_trace, text_of_trace, trace_of};
ghost use Rattle.trace_file.specs.Values.{state_of};

use crate::entries::Head;
use crate::fault::TraceFault;
use crate::halt::Halt;
use crate::parts::{digest_at, u8_at, u16_at, u32_at, u64_at};
use crate::runs::{Before, Run};
use crate::state::{MODE_AT, State, VALUES, state_of_values};
use crate::trace::{DIGEST, GROUPS_MOST, MARK, STEPS_MOST, Trace, VCPUS_MOST, VIEWS_MOST};
use chain_log::entry::{CHAIN_MOST, Chain, LogEntry};
use fc_numbers::machine::{End, Mode, Stop};
use fc_numbers::places::{Gpa, GroupNo, VcpuNo, ViewNo};
use std::alloc::{AllocError, Global};

/// The mark, and the number of vCPUs.
#[tactic(auto, unfolding(crate::specs::Trace::vcpus_form))]
fn vcpus_at(bytes: &[u8]) -> Result<(u8, &[u8]), Halt>
    ensures { Gives (λ x. (x.0, x.1.now)) result (vcpus_form.read bytes.now) }
{
    let Some(rest) = bytes.strip_prefix(MARK.as_slice()) else {
        return Err(Halt::Fault(TraceFault::NotTrace));
    };
    match rest {
        [] => Err(Halt::Fault(TraceFault::NotTrace)),
        [vcpus, rest @ ..] => {
            if *vcpus == 0 || *vcpus > VCPUS_MOST {
                return Err(Halt::Fault(TraceFault::NotTrace));
            }
            Ok((*vcpus, rest))
        }
    }
}

/// Run k of a trace of so many vCPUs, behind these runs.
#[tactic(auto, unfolding(crate::specs::Runs::run_form))]
fn run_at(vcpus: u8, k: u32, before: Before, bytes: &[u8]) -> Result<(Run, &[u8]), Halt>
    requires { before.steps ≤ STEPS_MOST }
    ensures gives { Gives (λ x. (x.0, x.1.now)) result ((run_form vcpus k before).read bytes.now) }
    ensures few { IfOk result (λ x. before.steps + x.0.steps ≤ STEPS_MOST) }
{
    let (vcpu, rest) = u8_at(bytes)?;
    let (steps, rest) = u32_at(rest)?;
    let again = match before.vcpu {
        None => false,
        Some(last) => last == vcpu,
    };
    if vcpus <= vcpu || steps == 0 || again {
        return Err(Halt::Fault(TraceFault::BadRun(k)));
    }
    if before.steps as u64 + steps as u64 > STEPS_MOST as u64 {
        return Err(Halt::Fault(TraceFault::TooLarge));
    }
    Ok((Run { vcpu, steps }, rest))
}

/// Entry k, behind one of view `before`, up to its chain.
#[tactic(auto, unfolding(crate::specs::Entries::head_form))]
fn head_at(
    vcpus: u8,
    steps: u32,
    k: u32,
    before: ViewNo,
    bytes: &[u8],
) -> Result<(Head, &[u8]), Halt>
    ensures gives { Gives (λ x. (x.0, x.1.now)) result ((head_form vcpus steps k before).read bytes.now) }
    ensures few { IfOk result (λ x. x.0.places ≤ CHAIN_MOST) }
{
    let (view, rest) = u8_at(bytes)?;
    let (group, rest) = u16_at(rest)?;
    let (vcpu, rest) = u8_at(rest)?;
    let (at, rest) = u32_at(rest)?;
    let (pc, rest) = u64_at(rest)?;
    let (places, rest) = u8_at(rest)?;
    if view == 0
        || view >= VIEWS_MOST
        || view < before.0
        || group >= GROUPS_MOST
        || vcpus <= vcpu
        || at > steps
        || places as usize > CHAIN_MOST
    {
        return Err(Halt::Fault(TraceFault::BadEntry(k)));
    }
    Ok((
        Head {
            view,
            group,
            vcpu,
            at,
            pc,
            places,
        },
        rest,
    ))
}

/// So many places of a chain.
fn chain_at(places: u8, bytes: &[u8]) -> Result<(Chain, &[u8]), Halt>
    requires { places ≤ CHAIN_MOST }
    ensures { Gives (λ x. (x.0.items, x.1.now)) result ((repeated_form places (number w64)).read bytes.now) }
{
    let mut chain = Chain::new();
    let mut rest = bytes;
    'places: for _k in 0..places {
        let (place, after) = u64_at(rest)?;
        chain.push(Gpa(place));
        rest = after;
    }
    Ok((chain, rest))
}

/// Entry k, behind one of view `before`.
#[tactic(auto, unfolding(crate::specs::Entries::entry_form))]
fn entry_at(
    vcpus: u8,
    steps: u32,
    k: u32,
    before: ViewNo,
    bytes: &[u8],
) -> Result<(LogEntry, &[u8]), Halt>
    ensures { Gives (λ x. (x.0, x.1.now)) result ((entry_form vcpus steps k before).read bytes.now) }
{
    let (head, rest) = head_at(vcpus, steps, k, before, bytes)?;
    match chain_at(head.places, rest) {
        Err(halt) => Err(halt),
        Ok((chain, rest)) => Ok((
            LogEntry {
                view: ViewNo(head.view),
                group: GroupNo(head.group),
                vcpu: VcpuNo(head.vcpu),
                at: head.at,
                pc: Gpa(head.pc),
                chain,
            },
            rest,
        )),
    }
}

/// How the run ended.
#[tactic(auto, unfolding(crate::specs::Trace::end_form))]
fn end_at(bytes: &[u8]) -> Result<(End, &[u8]), Halt>
    ensures { Gives (λ x. (x.0, x.1.now)) result (end_form.read bytes.now) }
{
    let (number, rest) = u8_at(bytes)?;
    let end = match number {
        0 => End::Spent,
        1 => End::Shutdown,
        2 => End::Stopped(Stop::StoreToText),
        3 => End::Stopped(Stop::TableInText),
        4 => End::Stopped(Stop::KernelOutsideText),
        5 => End::Stopped(Stop::TextSplit),
        _ => return Err(Halt::Fault(TraceFault::BadTail)),
    };
    Ok((end, rest))
}

/// Value k of a state.
fn value_at(k: usize, bytes: &[u8]) -> Result<(u64, &[u8]), Halt>
    ensures { Gives (λ x. (x.0, x.1.now)) result ((value_form k tt).read bytes.now) }
{
    if k != MODE_AT {
        return u64_at(bytes);
    }
    let (mode, rest) = u8_at(bytes)?;
    if mode > 1 {
        return Err(Halt::Fault(TraceFault::BadTail));
    }
    Ok((mode as u64, rest))
}

/// The values of a state.
fn values_at(bytes: &[u8]) -> Result<([u64; VALUES], &[u8]), Halt>
    ensures { Gives (λ x. (x.0, x.1.now)) result (values_form.read bytes.now) }
{
    let mut values = [0; VALUES];
    let mut rest = bytes;
    'values: for k in 0..VALUES {
        let (value, after) = value_at(k, rest)?;
        values[k] = value;
        rest = after;
    }
    Ok((values, rest))
}

/// A state.
#[tactic(auto, unfolding(crate::specs::States::state_form))]
fn state_at(bytes: &[u8]) -> Result<(State, &[u8]), Halt>
    ensures { Gives (λ x. (x.0, x.1.now)) result (state_form.read bytes.now) }
{
    let (values, rest) = values_at(bytes)?;
    Ok((state_of_values(&values), rest))
}

/// Adds so many steps of a vCPU.
fn add_run(schedule: &mut Vec<VcpuNo>, vcpu: VcpuNo, steps: u32) -> Result<(), AllocError>
    ensures { OnOk result (schedule.new.items ≡ schedule.old.items ++ replicate steps vcpu) }
{
    'steps: for _k in 0..steps {
        schedule.push(vcpu)?;
    }
    Ok(())
}

/// The schedule of so many runs.
fn some_runs(
    alloc: Global,
    vcpus: u8,
    count: u32,
    bytes: &[u8],
) -> Result<(Vec<VcpuNo>, &[u8]), Halt>
    ensures gives { Gives (λ x. (x.0.items, x.1.now)) result ((seen schedule_of runs_of (items (run_form vcpus) after_run count 0 at_first)).read bytes.now) }
    ensures few { IfOk result (λ x. length x.0.items ≤ STEPS_MOST) }
{
    let mut schedule = Vec::new(alloc);
    let mut before = Before {
        vcpu: None,
        steps: 0,
    };
    let mut rest = bytes;
    'runs: for k in 0..count {
        let (run, after) = run_at(vcpus, k, before, rest)?;
        add_run(&mut schedule, VcpuNo(run.vcpu), run.steps)?;
        before = Before {
            vcpu: Some(run.vcpu),
            steps: before.steps + run.steps,
        };
        rest = after;
    }
    Ok((schedule, rest))
}

/// The schedule.
#[tactic(auto, unfolding(crate::specs::Runs::runs_form))]
fn runs_at(alloc: Global, vcpus: u8, bytes: &[u8]) -> Result<(Vec<VcpuNo>, &[u8]), Halt>
    ensures gives { Gives (λ x. (x.0.items, x.1.now)) result ((runs_form vcpus).read bytes.now) }
    ensures few { IfOk result (λ x. length x.0.items ≤ STEPS_MOST) }
{
    let (count, rest) = u32_at(bytes)?;
    some_runs(alloc, vcpus, count, rest)
}

/// So many entries.
fn some_entries(
    alloc: Global,
    vcpus: u8,
    steps: u32,
    count: u32,
    bytes: &[u8],
) -> Result<(Vec<LogEntry>, &[u8]), Halt>
    ensures { Gives (λ x. (x.0.items, x.1.now)) result ((items (entry_form vcpus steps) after_entry count 0 0).read bytes.now) }
{
    let mut entries = Vec::new(alloc);
    let mut before = ViewNo(0);
    let mut rest = bytes;
    'entries: for k in 0..count {
        match entry_at(vcpus, steps, k, before, rest) {
            Err(halt) => return Err(halt),
            Ok((entry, after)) => {
                before = entry.view;
                entries.push(entry)?;
                rest = after;
            }
        }
    }
    Ok((entries, rest))
}

/// The entries of a trace of so many vCPUs and steps.
#[tactic(auto, unfolding(crate::specs::Entries::entries_form))]
fn entries_at(
    alloc: Global,
    vcpus: u8,
    steps: u32,
    bytes: &[u8],
) -> Result<(Vec<LogEntry>, &[u8]), Halt>
    ensures { Gives (λ x. (x.0.items, x.1.now)) result ((entries_form vcpus steps).read bytes.now) }
{
    let (count, rest) = u32_at(bytes)?;
    some_entries(alloc, vcpus, steps, count, rest)
}

/// The states of so many vCPUs.
#[tactic(auto, unfolding(crate::specs::States::states_form))]
fn states_at(alloc: Global, vcpus: u8, bytes: &[u8]) -> Result<(Vec<State>, &[u8]), Halt>
    ensures { Gives (λ x. (x.0.items, x.1.now)) result ((states_form vcpus).read bytes.now) }
{
    let mut states = Vec::new(alloc);
    let mut rest = bytes;
    'states: for _k in 0..vcpus {
        let (state, after) = state_at(rest)?;
        states.push(state)?;
        rest = after;
    }
    Ok((states, rest))
}

/// So many digests.
fn some_pages(alloc: Global, count: u8, bytes: &[u8]) -> Result<(Vec<[u8; DIGEST]>, &[u8]), Halt>
    ensures { Gives (λ x. (x.0.items, x.1.now)) result ((repeated_form count digest_form).read bytes.now) }
{
    let mut pages = Vec::new(alloc);
    let mut rest = bytes;
    'pages: for _k in 0..count {
        let (digest, after) = digest_at(rest)?;
        pages.push(digest)?;
        rest = after;
    }
    Ok((pages, rest))
}

/// The digests of the views' pages.
#[tactic(auto, unfolding(crate::specs::Trace::pages_form))]
fn pages_at(alloc: Global, bytes: &[u8]) -> Result<(Vec<[u8; DIGEST]>, &[u8]), Halt>
    ensures { Gives (λ x. (x.0.items, x.1.now)) result (pages_form.read bytes.now) }
{
    let (count, rest) = u8_at(bytes)?;
    if count == 0 || count > VIEWS_MOST {
        return Err(Halt::Fault(TraceFault::BadTail));
    }
    some_pages(alloc, count, rest)
}

/// A trace at the front of bytes.
#[tactic(auto, unfolding(crate::specs::Trace::trace_form))]
fn trace_at(alloc: Global, bytes: &[u8]) -> Result<(Trace, &[u8]), Halt>
    ensures { Gives (λ x. (told_of_trace x.0, x.1.now)) result (trace_form.read bytes.now) }
{
    let (vcpus, rest) = vcpus_at(bytes)?;
    let (schedule, rest) = match runs_at(alloc, vcpus, rest) {
        Ok(found) => found,
        Err(halt) => return Err(halt),
    };
    let (entries, rest) = match entries_at(alloc, vcpus, schedule.len() as u32, rest) {
        Ok(found) => found,
        Err(halt) => return Err(halt),
    };
    let (end, rest) = end_at(rest)?;
    let (states, rest) = states_at(alloc, vcpus, rest)?;
    let (memory, rest) = digest_at(rest)?;
    let (pages, rest) = pages_at(alloc, rest)?;
    Ok((
        Trace {
            vcpus,
            schedule,
            entries,
            end,
            states,
            memory,
            pages,
        },
        rest,
    ))
}

/// The trace whose text the bytes are, all of them, or the first fault.
fn whole_trace(alloc: Global, bytes: &[u8]) -> Result<Trace, TraceFault>
    ensures { Answers told_of_trace result (trace_of bytes.now) }
{
    match trace_at(alloc, bytes) {
        Ok((t, rest)) => {
            if !rest.is_empty() {
                return Err(TraceFault::Trailing);
            }
            Ok(t)
        }
        Err(Halt::Memory) => Err(TraceFault::NoMemory),
        Err(Halt::Short) => Err(TraceFault::Truncated(bytes.len() as u64)),
        Err(Halt::Fault(fault)) => Err(fault),
    }
}

/// The trace whose text the bytes are, all of them, or the first fault that they meet in reading order.
pub fn read_trace(alloc: Global, bytes: &[u8]) -> Result<Trace, TraceFault>
    // What is read is lawful, and the bytes are its text.
    ensures found { IfOk result (λ t. IsLawfulTrace (told_of_trace t) × (bytes.now ≡ text_of_trace (told_of_trace t))) }
    // The text of a lawful trace is read, unless memory runs out.
    ensures only { (t : Told) → IsLawfulTrace t → bytes.now ≡ text_of_trace t → Answers told_of_trace result (Ok t) }
    // Which fault it is.
    ensures exact { Answers told_of_trace result (trace_of bytes.now) }
{
    whole_trace(alloc, bytes)
}
