//! The command `bench`: five lines on the run of the guest of a number.

ghost use Rattle.std.specs.Prelude.{◌≡◌, ℕ, List, IfNone, IfOk, IfSome, map, string_bytes};
ghost use Rattle.fc_outside.specs.Outside.{Faults};
ghost use Rattle.trace_file.specs.Trace.{told_of_trace};
ghost use Rattle.command_frame.specs.Promise.{FileContents};
ghost use Rattle.command_frame.specs.Command.{MakeSaid, MakeCounts, HasOutputs};
ghost use Rattle.bench_command.specs.Bench.{IsBenchForm, bench_lines, bench_request, count_lines, end_lines};

use command_frame::fault::Fault;
use command_frame::number::number_of;
use command_frame::product::{Product, Refusal};
use command_frame::products::ended_of;
use fc_numbers::memory::NoMemory;
use function_table::table::Table;
use guest_maker::make_guest;
use guest_runs::driven::{Driven, drive};
use profiler::profile::{ProfileFault, profile};
use replay_command::comparison::end_name;
use sqlite_items::Items;
use std::alloc::Global;
use trace_file::trace::Trace;
use view_file::fault::ViewFault;

/// The steps of each vCPU in the run that is profiled.
const PROFILED_STEPS: u32 = 2_000;

/// The steps of each vCPU in the run that the lines tell of.
const DRIVEN_STEPS: u32 = 8_000;

/// The number of the guest that `bench N` asks for; None exactly where the words are not of this form.
pub fn bench_of(words: &[String]) -> Option<u64>
    ensures some { IfSome result (λ seed. IsBenchForm (map string_bytes words.now) seed) }
    ensures none { IfNone result ((seed : ℕ) → IsBenchForm (map string_bytes words.now) seed → ⊥) }
{
    let [verb, number] = words else {
        return None;
    };
    if verb.as_str() != "bench" {
        return None;
    }
    let seed = number_of(number.as_str())?;
    Some(seed)
}

/// How much a run has made: steps, bytes of the console, entries.
fn count_lines(
    alloc: Global,
    steps: usize,
    console: usize,
    recovered: usize,
) -> Result<String, NoMemory>
    ensures { IfOk result (λ text. string_bytes text ≡ count_lines steps console recovered) }
{
    Ok(format!(in alloc; "steps {steps}\nconsole {console}\nrecovered {recovered}\n")?)
}

/// How a run has ended, and with what in memory.
fn end_lines(alloc: Global, trace: &Trace) -> Result<String, NoMemory>
    ensures { IfOk result (λ text. string_bytes text ≡ end_lines (told_of_trace trace.now)) }
{
    let end = end_name(Some(trace.end));
    let memory = hex::encode(alloc, trace.memory.as_slice())?;
    Ok(format!(in alloc; "end {end}\nmemory {memory}\n")?)
}

/// The five lines on a run.
fn lines_of(alloc: Global, driven: &Driven) -> Result<String, NoMemory>
    ensures { IfOk result (λ text. string_bytes text ≡ bench_lines (told_of_trace driven.now.trace) driven.now.console.items) }
{
    let steps = driven.trace.schedule.len();
    let recovered = driven.trace.entries.len();
    let mut lines = count_lines(alloc, steps, driven.console.len(), recovered)?;
    let end = end_lines(alloc, &driven.trace)?;
    lines.push_str(end.as_str())?;
    Ok(lines)
}

/// Makes the guest of the number, profiles it, drives it under the views of the profile, and tells in five lines what came of
/// it. They go to standard output.
pub fn make_bench(alloc: Global, seed: u64) -> Result<Product, Refusal>
    ensures said { (words : List (List ℕ)) (told_of_trace : FileContents) → MakeSaid (bench_request words seed) told_of_trace result }
    ensures counted { (words : List (List ℕ)) (reads : Faults) → MakeCounts (bench_request words seed) reads reads result }
    ensures outputs { (words : List (List ℕ)) → HasOutputs (bench_request words seed) result }
{
    let (image, mut setup) = make_guest(alloc, seed)?;
    let table = Table::of(alloc, &image)?;
    setup.steps = PROFILED_STEPS;
    let profiled = match profile(alloc, &image, &table, &setup) {
        Ok(profiled) => profiled,
        Err(ProfileFault::TooManyApps) => {
            return Err(Refusal::Fault(Fault::Views(ViewFault::TooManyApps)));
        }
        Err(ProfileFault::NoMemory) => return Err(Refusal::NoMemory),
    };
    setup.steps = DRIVEN_STEPS;
    let driven = drive(alloc, &image, &table, &setup, &profiled.views, &[])?;
    let lines = lines_of(alloc, &driven)?;
    Ok(Product {
        files: Items::new(alloc),
        out: Items::from_slice(alloc, lines.as_bytes())?,
        ended: ended_of(driven.trace.end),
    })
}
