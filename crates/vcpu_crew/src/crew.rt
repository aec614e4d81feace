//! All workers, and the run that they made.

ghost use Rattle.std.specs.Prelude.{◌≡◌, ◌<◌, length, vec_len};
ghost use Rattle.run_evidence.specs.Config.{image_groups};
ghost use Rattle.turn_table.specs.Passes.{IsBeside, IsPassOf, config_in, known};
ghost use Rattle.vcpu_crew.specs.Rig.{IsEquipped, IsRig, config_of_rig, config_of_shared};
ghost use Rattle.vcpu_crew.specs.Round.{IsBetweenRounds};
ghost use Rattle.vcpu_crew.specs.Crew.{AreFinished, AreWorkers, HasRun, HasRunAll, HasStopped, IsFinished, IsWholeRun, IsWorker};

use crate::rig::{Rig, Shared};
use crate::round::{Rounded, round};
use fc_outside::gate::Gate;
use function_table::table::Table;
use guest_board::board::Board;
use std::sync::Wait;
use std::thread::{Threads, for_each_mut, yield_now};
use turn_table::pass::{Pass, Turns};
use vcpu_core::lane::Lane;
use view_file::views::Views;
use view_store::view::View;

/// What a crew hands back.
#[derive(Drop)]
pub struct Ran {
    /// The board, whose run has ended.
    pub board: Board,
    /// The views, by view number.
    pub views: Vec<View>,
    /// The groups that the rig was opened with.
    pub table: Table,
    /// The views file that the rig was opened with.
    pub profile: Views,
}

/// Makes rounds until the vCPU of the worker may not step.
fn make_rounds<W: Wait, G: Gate>(rt: &W, rig: &Shared, pass: &mut Pass, lane: &mut Lane, gate: &G)
    requires rig { IsEquipped rig.now }
    requires same { IsPassOf rig.now.turns pass.old }
    requires worker { IsBetweenRounds (config_of_shared rig.now) (known pass.old) lane.old }
    ensures same { IsBeside pass.old pass.new }
    ensures worker { IsBetweenRounds (config_of_shared rig.now) (known pass.new) lane.new }
    ensures vcpu { lane.new.vcpu ≡ lane.old.vcpu }
    ensures stopped { HasStopped (config_of_shared rig.now) (known pass.new).seen lane.new.vcpu }
{
    let mut n: u64 = 0;
    for _ in rt.forever() {
        match round(rt, rig, pass, lane, gate, n) {
            Rounded::Over => return,
            Rounded::Went => n = n.saturating_add(1),
        }
        // Else the worker that gave the board last takes it again before another can.
        yield_now();
    }
    unreachable!()
}

/// The whole run of one worker.
fn run_worker<W: Wait, G: Gate>(rt: &W, rig: &Shared, gate: &G, worker: &mut (Pass, Lane))
    requires rig { IsEquipped rig.now }
    requires worker { IsWorker rig.now.turns worker.old.1.vcpu worker.old }
    ensures { IsFinished rig.now.turns worker.old.1.vcpu worker.new }
{
    let (pass, lane) = worker;
    make_rounds(rt, rig, pass, lane, gate);
    // Tells what the rule of the table says of the pass.
    rig.turns.look(pass);
}

/// The runs of all workers, each in a thread of its own where one can be made.
fn run_workers<R: Threads + Wait + Sync, G: Gate>(
    rt: &R,
    rig: &Shared,
    gate: &G,
    workers: &mut [(Pass, Lane)],
)
    requires rig { IsEquipped rig.now }
    requires some { 0 < length workers.old }
    requires workers { AreWorkers rig.now.turns workers.old }
    ensures count { length workers.new ≡ length workers.old }
    ensures finished { AreFinished rig.now.turns workers.new }
{
    let threads = workers.len();
    let run = move |_: usize, worker: &mut (Pass, Lane)|
        requires { IsEquipped rig.now × IsWorker rig.now.turns worker.now.1.vcpu worker.now }
        ensures { IsFinished rig.entry.now.turns worker.entry.now.1.vcpu worker.exit.now }
    { run_worker(rt, rig, gate, worker) };
    for_each_mut(rt, workers, threads, &run);
}

/// One pass of all, which owns what each of them owned.
fn joined(turns: &Turns, mut workers: Vec<(Pass, Lane)>) -> Pass
    requires some { 0 < vec_len workers }
    requires finished { AreFinished turns.now workers.items }
    ensures same { IsPassOf turns.now result }
    ensures run { HasRunAll (config_in turns.now) (vec_len workers) (known result) }
{
    let Some((mut all, _)) = workers.pop() else {
        unreachable!()
    };
    while let Some((pass, _)) = workers.pop() {
        turns.join(&mut all, pass);
    }
    all
}

/// Runs the crew: one worker for each vCPU, each making rounds until its vCPU may not step. The run has then ended. Takes
/// no memory but what a thread takes; where no thread can be made, the workers run one after another. May wait for ever.
pub fn crew_run<R: Threads + Wait + Sync, G: Gate>(rt: &R, rig: Rig, gate: &G) -> Ran
    requires { IsRig rig }
    ensures run { IsWholeRun (config_of_rig rig) result.board result.views.items }
    ensures table { result.table ≡ image_groups (config_of_rig rig) }
    ensures profile { result.profile ≡ (config_of_rig rig).views }
{
    let Rig {
        shared,
        mut workers,
    } = rig;
    run_workers(rt, &shared, gate, workers.as_mut_slice());
    let pass = joined(&shared.turns, workers);
    let Shared {
        turns,
        stages: _,
        table,
        views: profile,
    } = shared;
    let (board, views) = turns.close(pass);
    Ran {
        board,
        views,
        table,
        profile,
    }
}
