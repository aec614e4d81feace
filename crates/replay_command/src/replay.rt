//! What `replay` makes: the console of the full kernel's run by a trace's schedule, where it is what the trace tells; else the
//! first difference.

ghost use Rattle.std.specs.Prelude.{◌≡◌, ℕ, List, Option, Some, true, false, IfOk, map, string_bytes};
ghost use Rattle.guest_input.specs.Accepted.{IsImage, IsSetupFor};
ghost use Rattle.trace_file.specs.Trace.{told_of_trace};
ghost use Rattle.trace_file.specs.Lawful.{IsLawfulTrace};
ghost use Rattle.full_run.specs.Replay.{config_of_full_run};
ghost use Rattle.command_frame.specs.Promise.{FileContents};
ghost use Rattle.command_frame.specs.Command.{MakeSaid, MakeCounts, HasOutputs};
ghost use Rattle.replay_command.specs.Comparisons.{IsNumbered};
ghost use Rattle.replay_command.specs.Replay.{IsReplayForm, IsReplay, IsProductOfDifference, replay_request};

use crate::compare::run_difference;
use crate::comparison::Comparison;
use command_frame::answer::Ended;
use command_frame::inputs::{take_image, take_setup, take_trace};
use command_frame::product::{Product, Refusal};
use command_frame::products::ended_of;
use fc_numbers::memory::NoMemory;
use fc_outside::outside::Store;
use full_run::laws::{each_has_longest, runs_keep_vcpus};
use full_run::replay;
use guest_input::image::Image;
use guest_input::setup::Setup;
use sqlite_items::Items;
use std::alloc::Global;
use trace_file::trace::Trace;

/// The places of the files in the words.
const IMAGE: usize = 1;

const SETUP: usize = 2;

const TRACE: usize = 3;

/// Whether the words are of the form `replay IMAGE SETUP TRACE`.
pub fn is_replay(words: &[String]) -> bool
    ensures yes { result ≡ true → IsReplayForm (map string_bytes words.now) }
    ensures no { result ≡ false → IsReplayForm (map string_bytes words.now) → ⊥ }
{
    match words {
        [verb, _, _, _] => verb.as_str() == "replay",
        _ => false,
    }
}

/// What is made of a difference: its text, and no output.
fn differing(alloc: Global, difference: &Comparison) -> Result<Product, NoMemory>
    requires { IsNumbered difference.now }
    ensures { IfOk result (λ p. IsProductOfDifference difference.now p) }
{
    let text = difference.text(alloc)?;
    Ok(Product {
        files: Items::new(alloc),
        out: Items::new(alloc),
        ended: Ended::Differs(text),
    })
}

/// What is made of a trace: the first difference from the full kernel's run of its schedule, or the console of that run.
fn replayed(alloc: Global, image: &Image, setup: &Setup, trace: &Trace) -> Result<Product, NoMemory>
    requires image { IsImage image.now }
    requires setup { IsSetupFor image.now setup.now }
    requires trace { IsLawfulTrace (told_of_trace trace.now) }
    ensures { IfOk result (λ p. IsReplay (config_of_full_run image.now setup.now) (told_of_trace trace.now) p) }
{
    each_has_longest();
    runs_keep_vcpus();
    let vcpus = Comparison::Vcpus {
        left: setup.vcpus,
        right: trace.vcpus,
    };
    if vcpus.differs() {
        return differing(alloc, &vcpus);
    }
    let ran = replay(alloc, image, setup, &trace.schedule)?;
    match run_difference(&ran.board, ran.made, trace) {
        Some(difference) => return differing(alloc, &difference),
        None => {}
    }
    Ok(Product {
        files: Items::new(alloc),
        out: Items::from_slice(alloc, ran.board.console())?,
        ended: ended_of(trace.end),
    })
}

/// Runs the full kernel by the schedule of a trace, and compares what came of it with the trace. The first difference is
/// told; where there is none, the console goes to standard output.
pub fn make_replay<S: Store>(
    alloc: Global,
    words: &[String],
    store: &mut S,
) -> Result<Product, Refusal>
    ensures said { (told_of_trace : FileContents) → S.files store.old ≡ Some told_of_trace → MakeSaid (replay_request (map string_bytes words.now)) told_of_trace result }
    ensures counted { MakeCounts (replay_request (map string_bytes words.now)) (S.reads store.old) (S.reads store.new) result }
    ensures outputs { HasOutputs (replay_request (map string_bytes words.now)) result }
    ensures files { S.files store.new ≡ S.files store.old }
    ensures writes { S.writes store.new ≡ S.writes store.old }
{
    let image = take_image(alloc, store, words, IMAGE)?;
    let setup = take_setup(alloc, store, words, SETUP, &image)?;
    let trace = take_trace(alloc, store, words, TRACE)?;
    Ok(replayed(alloc, &image, &setup, &trace)?)
}
