//! Writing a trace as bytes, part by part.

ghost use Rattle.std.specs.Prelude.{◌≡◌, ◌≤◌, ◌<◌, ◌+◌, ◌^◌, ◌++◌, length, IfOk, OnOk, slice_index};
ghost use Rattle.std.specs.List.{flat_map};
ghost use Rattle.std.specs.Int.{w8, w16, w32, w64, to_le_bytes};
ghost use Rattle.trace_file.specs.Runs.{run_text, runs_from, runs_of};
ghost use Rattle.trace_file.specs.Entries.{entry_text};
ghost use Rattle.trace_file.specs.States.{state_text, value_form, values_form};
ghost use Rattle.trace_file.specs.Lawful.{IsLawfulTrace};
ghost use Rattle.trace_file.specs.Trace.{end_number, told_of_trace, text_of_trace};

use crate::runs::Run;
use crate::state::{MODE_AT, State, VALUES, values_of_state};
use crate::trace::{DIGEST, MARK, Trace};
use chain_log::entry::LogEntry;
use fc_numbers::machine::{End, Stop};
use fc_numbers::memory::NoMemory;
use fc_numbers::places::{Gpa, GroupNo, VcpuNo, ViewNo};
use std::alloc::{AllocError, Global};

/// How many runs a schedule has that begins with a step of vCPU `first`.
fn count_runs(first: u8, rest: &[VcpuNo]) -> u32
    requires { length rest.now < 2 ^ 31 }
    ensures { result ≡ length (runs_from first 1 rest.now) }
{
    let mut last = first;
    let mut runs = 1;
    'rest: for vcpu in rest {
        let next = vcpu.0;
        if last != next {
            last = next;
            runs += 1;
        }
    }
    runs
}

#[tactic(auto, unfolding(crate::specs::Runs::run_form))]
fn put_run(out: &mut Vec<u8>, run: &Run) -> Result<(), AllocError>
    ensures { OnOk result (out.new.items ≡ out.old.items ++ run_text run.now) }
{
    let [a, b, c, d] = run.steps.to_le_bytes();
    out.extend_from_slice(&[run.vcpu, a, b, c, d])?;
    Ok(())
}

/// Writes the runs of a schedule that begins with a step of vCPU `first`.
fn put_runs(out: &mut Vec<u8>, first: u8, rest: &[VcpuNo]) -> Result<(), AllocError>
    requires { length rest.now < 2 ^ 31 }
    ensures { OnOk result (out.new.items ≡ out.old.items ++ flat_map run_text (runs_from first 1 rest.now)) }
{
    let mut last = Run {
        vcpu: first,
        steps: 1,
    };
    'rest: for vcpu in rest {
        let next = vcpu.0;
        if last.vcpu == next {
            last.steps += 1;
        } else {
            put_run(out, &last)?;
            last = Run {
                vcpu: next,
                steps: 1,
            };
        }
    }
    put_run(out, &last)?;
    Ok(())
}

fn put_places(out: &mut Vec<u8>, places: &[Gpa]) -> Result<(), AllocError>
    ensures { OnOk result (out.new.items ≡ out.old.items ++ flat_map (λ place. to_le_bytes w64 place) places.now) }
{
    'places: for place in places {
        out.extend_from_slice(&place.0.to_le_bytes())?;
    }
    Ok(())
}

fn put_byte(out: &mut Vec<u8>, byte: u8) -> Result<(), AllocError>
    ensures { OnOk result (out.new.items ≡ out.old.items ++ to_le_bytes w8 byte) }
{
    out.extend_from_slice(&byte.to_le_bytes())?;
    Ok(())
}

fn put_u32(out: &mut Vec<u8>, number: u32) -> Result<(), AllocError>
    ensures { OnOk result (out.new.items ≡ out.old.items ++ to_le_bytes w32 number) }
{
    out.extend_from_slice(&number.to_le_bytes())?;
    Ok(())
}

fn put_view(out: &mut Vec<u8>, view: ViewNo) -> Result<(), AllocError>
    ensures { OnOk result (out.new.items ≡ out.old.items ++ to_le_bytes w8 view) }
{
    put_byte(out, view.0)
}

fn put_group(out: &mut Vec<u8>, group: GroupNo) -> Result<(), AllocError>
    ensures { OnOk result (out.new.items ≡ out.old.items ++ to_le_bytes w16 group) }
{
    out.extend_from_slice(&group.0.to_le_bytes())?;
    Ok(())
}

fn put_vcpu(out: &mut Vec<u8>, vcpu: VcpuNo) -> Result<(), AllocError>
    ensures { OnOk result (out.new.items ≡ out.old.items ++ to_le_bytes w8 vcpu) }
{
    put_byte(out, vcpu.0)
}

fn put_place(out: &mut Vec<u8>, place: Gpa) -> Result<(), AllocError>
    ensures { OnOk result (out.new.items ≡ out.old.items ++ to_le_bytes w64 place) }
{
    out.extend_from_slice(&place.0.to_le_bytes())?;
    Ok(())
}

fn put_entry(out: &mut Vec<u8>, entry: &LogEntry) -> Result<(), AllocError>
    ensures { OnOk result (out.new.items ≡ out.old.items ++ entry_text entry.now) }
{
    put_view(out, entry.view)?;
    put_group(out, entry.group)?;
    put_vcpu(out, entry.vcpu)?;
    put_u32(out, entry.at)?;
    put_place(out, entry.pc)?;
    put_byte(out, entry.chain.len() as u8)?;
    put_places(out, entry.chain.as_slice())?;
    Ok(())
}

fn put_entries(out: &mut Vec<u8>, entries: &[LogEntry]) -> Result<(), AllocError>
    ensures { OnOk result (out.new.items ≡ out.old.items ++ flat_map entry_text entries.now) }
{
    'entries: for entry in entries {
        put_entry(out, entry)?;
    }
    Ok(())
}

fn put_value(out: &mut Vec<u8>, k: usize, value: u64) -> Result<(), AllocError>
    requires { k ≡ MODE_AT → value < 2 ^ 8 }
    ensures { OnOk result (out.new.items ≡ out.old.items ++ (value_form k tt).spell value) }
{
    if k == MODE_AT {
        out.extend_from_slice(&(value as u8).to_le_bytes())?;
    } else {
        out.extend_from_slice(&value.to_le_bytes())?;
    }
    Ok(())
}

fn put_values(out: &mut Vec<u8>, values: &[u64; VALUES]) -> Result<(), AllocError>
    requires { slice_index values.now MODE_AT < 2 ^ 8 }
    ensures { OnOk result (out.new.items ≡ out.old.items ++ values_form.spell values.now) }
{
    'values: for k in 0..VALUES {
        put_value(out, k, values[k])?;
    }
    Ok(())
}

#[tactic(auto, using(crate::proofs::Texts::state_pieces, crate::proofs::Texts::mode_fits))]
fn put_state(out: &mut Vec<u8>, state: &State) -> Result<(), AllocError>
    ensures { OnOk result (out.new.items ≡ out.old.items ++ state_text state.now) }
{
    put_values(out, &values_of_state(state))?;
    Ok(())
}

fn put_states(out: &mut Vec<u8>, states: &[State]) -> Result<(), AllocError>
    ensures { OnOk result (out.new.items ≡ out.old.items ++ flat_map state_text states.now) }
{
    'states: for state in states {
        put_state(out, state)?;
    }
    Ok(())
}

fn put_pages(out: &mut Vec<u8>, pages: &[[u8; DIGEST]]) -> Result<(), AllocError>
    ensures { OnOk result (out.new.items ≡ out.old.items ++ flat_map (λ digest. digest) pages.now) }
{
    'pages: for digest in pages {
        out.extend_from_slice(digest)?;
    }
    Ok(())
}

/// The number of an end.
fn end_byte(end: End) -> u8
    ensures { result ≡ end_number end }
{
    match end {
        End::Spent => 0,
        End::Shutdown => 1,
        End::Stopped(Stop::StoreToText) => 2,
        End::Stopped(Stop::TableInText) => 3,
        End::Stopped(Stop::KernelOutsideText) => 4,
        End::Stopped(Stop::TextSplit) => 5,
    }
}

/// Writes the runs of a schedule behind their number.
#[tactic(auto, using(crate::proofs::RunLaws::runs_split))]
fn put_schedule(out: &mut Vec<u8>, schedule: &[VcpuNo]) -> Result<(), AllocError>
    requires { length schedule.now < 2 ^ 31 }
    ensures { OnOk result (out.new.items ≡ out.old.items ++ (to_le_bytes w32 (length (runs_of schedule.now)) ++ flat_map run_text (runs_of schedule.now))) }
{
    let [first, rest @ ..] = schedule else {
        return put_u32(out, 0);
    };
    put_u32(out, count_runs(first.0, rest))?;
    put_runs(out, first.0, rest)?;
    Ok(())
}

/// Writes entries behind their number.
fn put_log(out: &mut Vec<u8>, entries: &[LogEntry]) -> Result<(), AllocError>
    requires { length entries.now < 2 ^ 32 }
    ensures { OnOk result (out.new.items ≡ out.old.items ++ (to_le_bytes w32 (length entries.now) ++ flat_map entry_text entries.now)) }
{
    put_u32(out, entries.len() as u32)?;
    put_entries(out, entries)?;
    Ok(())
}

/// The mark and the number of vCPUs.
fn start(alloc: Global, vcpus: u8) -> Result<Vec<u8>, AllocError>
    ensures { IfOk result (λ v. v.items ≡ MARK ++ to_le_bytes w8 vcpus) }
{
    let mut out = Vec::from_slice(alloc, &MARK)?;
    put_byte(&mut out, vcpus)?;
    Ok(out)
}

/// The text of a trace.
fn text(alloc: Global, t: &Trace) -> Result<Vec<u8>, AllocError>
    requires { IsLawfulTrace (told_of_trace t.now) }
    ensures { IfOk result (λ v. v.items ≡ text_of_trace (told_of_trace t.now)) }
{
    let mut out = start(alloc, t.vcpus)?;
    put_schedule(&mut out, &t.schedule)?;
    put_log(&mut out, &t.entries)?;
    put_byte(&mut out, end_byte(t.end))?;
    put_states(&mut out, &t.states)?;
    out.extend_from_slice(&t.memory)?;
    put_byte(&mut out, t.pages.len() as u8)?;
    put_pages(&mut out, &t.pages)?;
    Ok(out)
}

/// The one text of a lawful trace.
pub fn write_trace(alloc: Global, trace: &Trace) -> Result<Vec<u8>, NoMemory>
    requires { IsLawfulTrace (told_of_trace trace.now) }
    ensures { IfOk result (λ v. v.items ≡ text_of_trace (told_of_trace trace.now)) }
{
    Ok(text(alloc, trace)?)
}
