//! The top call of the program, with threads.

ghost use Rattle.std.specs.Prelude.{ℕ, map, string_bytes};
ghost use Rattle.command_frame.specs.Finished.{outside_of};
ghost use Rattle.command_frame.specs.Lines.{IsTold};
ghost use Rattle.facechange_cli.specs.Top.{AnswersAll};

use crate::command::face_change_still;
use command_frame::finish::finish;
use command_frame::line::tell;
use fc_outside::gate::Gate;
use fc_outside::outside::{Sink, Store};
use run_command::run::{is_run, make_run};
use std::alloc::Global;
use std::sync::Wait;
use std::thread::Threads;

/// Does what the words ask for, and answers the status with which the program ends. Where it is not 0, a line on `err`
/// says why. `run IMAGE SETUP VIEWS TRACE LOG` runs a kernel on several vCPUs at once, each in a thread of its own where one
/// can be made, and writes the trace of the run, its log, and what the guest wrote to `out`; it may wait for ever. Each
/// worker calls the gate once in each of its rounds, before it takes anything.
/// All other words are those of [`face_change_still`].
pub fn face_change<R: Threads + Wait + Sync, S: Store, K: Sink, E: Sink, G: Gate>(
    rt: &R,
    alloc: Global,
    words: &[String],
    store: &mut S,
    out: &mut K,
    err: &mut E,
    gate: &G,
) -> u8
    ensures { let before = outside_of (S.files store.old) (S.reads store.old) (S.writes store.old) (K.written out.old) (K.faults out.old) in
        let after = outside_of (S.files store.new) (S.reads store.new) (S.writes store.new) (K.written out.new) (K.faults out.new) in
        AnswersAll (map string_bytes words.now) before after (IsTold (E.faults err.old) (E.faults err.new) (E.written err.old) (E.written err.new)) result }
{
    if !is_run(words) {
        return face_change_still(alloc, words, store, out, err);
    }
    let made = make_run(rt, alloc, words, store, gate);
    let told = finish(alloc, words, made, store, out);
    tell(err, words, &told)
}
