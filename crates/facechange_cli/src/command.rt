//! The top call of the program.

ghost use Rattle.std.specs.Prelude.{◌≡◌, ℕ, List, Option, Some, map, string_bytes};
ghost use Rattle.command_frame.specs.Promise.{FileContents};
ghost use Rattle.command_frame.specs.Command.{MakeSaid, MakeCounts, HasOutputs};
ghost use Rattle.command_frame.specs.Finished.{outside_of};
ghost use Rattle.command_frame.specs.Lines.{IsTold};
ghost use Rattle.facechange_cli.specs.Words.{IsForm};
ghost use Rattle.facechange_cli.specs.Requests.{request_of};
ghost use Rattle.facechange_cli.specs.Top.{AreAnswered};

use crate::drive::make_drive;
use crate::trial::make_trial;
use crate::words::{Command, command_of};
use bench_command::bench::make_bench;
use command_frame::finish::finish;
use command_frame::line::{tell, turn_away};
use command_frame::product::{Product, Refusal};
use fc_outside::outside::{Sink, Store};
use listing_commands::list::make_list;
use listing_commands::surface::make_surface;
use replay_command::replay::make_replay;
use std::alloc::Global;
use view_commands::merge::make_merge;
use view_commands::profile::make_profile;
use view_commands::show::make_show;

/// What the command makes of its input files, or why it makes nothing.
fn make<S: Store>(
    alloc: Global,
    words: &[String],
    command: &Command,
    store: &mut S,
) -> Result<Product, Refusal>
    requires { IsForm (map string_bytes words.now) command.now }
    ensures said { (told : FileContents) → S.files store.old ≡ Some told → MakeSaid (request_of (map string_bytes words.now) command.now) told result }
    ensures counted { MakeCounts (request_of (map string_bytes words.now) command.now) (S.reads store.old) (S.reads store.new) result }
    ensures outputs { HasOutputs (request_of (map string_bytes words.now) command.now) result }
    ensures files { S.files store.new ≡ S.files store.old }
    ensures writes { S.writes store.new ≡ S.writes store.old }
{
    match command {
        Command::Try(setup) => make_trial(alloc, words, setup, store),
        Command::Drive => make_drive(alloc, words, store),
        Command::Profile => make_profile(alloc, words, store),
        Command::Merge => make_merge(alloc, words, store),
        Command::Show => make_show(alloc, words, store),
        Command::Replay => make_replay(alloc, words, store),
        Command::List(app) => make_list(alloc, words, app, store),
        Command::Surface => make_surface(alloc, words, store),
        Command::Bench(seed) => make_bench(alloc, *seed),
    }
}

/// Does what the words ask for, and answers the status with which the program ends. Where it is not 0, a line on `err`
/// says why. `try IMAGE VIEWS APP STEPS LOG` runs a kernel on one vCPU under the view of an app, writes a line to LOG
/// for each missing function that it reached, and what the guest wrote to `out`.
/// `drive IMAGE SETUP VIEWS SCRIPT TRACE LOG` runs a kernel on several vCPUs in the order of a script, and writes the trace
/// of the run, its log, and what the guest wrote to `out`.
/// `profile IMAGE SETUP OUT` runs the full kernel, vCPU after vCPU, and writes the views that the run shows; `merge A B OUT`
/// writes the union of two views files; `show IMAGE VIEWS` writes the sizes of the views to `out`.
/// `replay IMAGE SETUP TRACE` runs the full kernel in the order of a trace, and compares: what the guest wrote goes to
/// `out` where all is as the trace tells, and else the first difference is on the line.
/// `list IMAGE VIEWS APP` writes the code that an app's view holds to `out`, instruction by instruction, and `surface IMAGE
/// VIEWS` how much of the text each app's view holds. `bench N` makes the guest of a number, profiles it, drives it under the
/// views of its profile, and writes five lines on that run to `out`.
pub fn face_change_still<S: Store, K: Sink, E: Sink>(
    alloc: Global,
    words: &[String],
    store: &mut S,
    out: &mut K,
    err: &mut E,
) -> u8
    ensures { let before = outside_of (S.files store.old) (S.reads store.old) (S.writes store.old) (K.written out.old) (K.faults out.old) in
        let after = outside_of (S.files store.new) (S.reads store.new) (S.writes store.new) (K.written out.new) (K.faults out.new) in
        AreAnswered (map string_bytes words.now) before after (IsTold (E.faults err.old) (E.faults err.new) (E.written err.old) (E.written err.new)) result }
{
    let Some(command) = command_of(alloc, words) else {
        return turn_away(err);
    };
    let made = make(alloc, words, &command, store);
    let told = finish(alloc, words, made, store, out);
    tell(err, words, &told)
}
