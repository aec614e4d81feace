//! One round of a worker.

ghost use Rattle.std.specs.Prelude.{◌≡◌};
ghost use Rattle.turn_table.specs.Passes.{IsBeside, IsPassOf, known};
ghost use Rattle.vcpu_core.specs.declared.lane.Phase.{Phase};
ghost use Rattle.vcpu_core.specs.declared.lane.Then.{Then};
ghost use Rattle.vcpu_core.specs.Lanes.{IsLooked, IsTrapped, IsWanting};
ghost use Rattle.vcpu_crew.specs.declared.round.Rounded.{Rounded};
ghost use Rattle.vcpu_crew.specs.Rig.{IsEquipped, config_of_shared};
ghost use Rattle.vcpu_crew.specs.Round.{IsBetweenRounds, IsRound, round_answer};

use crate::rig::Shared;
use fc_outside::gate::Gate;
use std::sync::Wait;
use turn_table::pass::Pass;
use vcpu_core::lane::{Lane, Phase, Then};
use vcpu_core::rows::{fill, look_up, mend, turn};

/// How many steps a turn makes at most.
pub const TURN_LIMIT: u32 = 64;

/// What a round came to.
#[derive(Debug, Clone, Copy, PartialEq, Eq)]
pub enum Rounded {
    /// The worker goes on.
    Went,
    /// Its vCPU may not step.
    Over,
}

fn answer_of(then: Then) -> Rounded
    ensures { result ≡ round_answer then }
{
    match then {
        Then::Over => Rounded::Over,
        Then::Limit | Then::Need | Then::Zero => Rounded::Went,
    }
}

/// Takes the board, makes steps of the worker's vCPU from its lane, and gives the board back.
fn make_turn<W: Wait>(rt: &W, rig: &Shared, pass: &mut Pass, lane: &mut Lane) -> Rounded
    requires rig { IsEquipped rig.now }
    requires same { IsPassOf rig.now.turns pass.old }
    requires worker { IsBetweenRounds (config_of_shared rig.now) (known pass.old) lane.old }
    requires phase { lane.old.phase ≡ Phase.Running }
    ensures same { IsBeside pass.old pass.new }
    ensures did { IsRound (config_of_shared rig.now) (known pass.old) lane.old lane.old.phase (known pass.new) lane.new result }
    ensures worker { IsBetweenRounds (config_of_shared rig.now) (known pass.new) lane.new }
    ensures vcpu { lane.new.vcpu ≡ lane.old.vcpu }
{
    let mut board = rig.turns.take_board(rt, pass);
    let stages = rig.stages.as_slice();
    let turned = turn(&mut board, &rig.views, stages, lane, TURN_LIMIT);
    rig.turns.give_board(pass, board);
    answer_of(turned.then)
}

/// Takes the lane's view, and from it the window that the lane wants, and gives the view back.
fn take_window<W: Wait>(rt: &W, rig: &Shared, pass: &mut Pass, lane: &mut Lane)
    requires rig { IsEquipped rig.now }
    requires same { IsPassOf rig.now.turns pass.old }
    requires worker { IsBetweenRounds (config_of_shared rig.now) (known pass.old) lane.old }
    requires phase { IsWanting lane.old.phase }
    ensures same { IsBeside pass.old pass.new }
    ensures did { IsRound (config_of_shared rig.now) (known pass.old) lane.old lane.old.phase (known pass.new) lane.new Rounded.Went }
    ensures worker { IsBetweenRounds (config_of_shared rig.now) (known pass.new) lane.new }
    ensures vcpu { lane.new.vcpu ≡ lane.old.vcpu }
{
    let view = rig.turns.take_view(rt, pass, lane.windows.view);
    fill(&view, lane);
    rig.turns.give_view(pass, view);
}

/// Looks up the group of the lane's trap.
fn look_trap(rig: &Shared, _pass: &Pass, lane: &mut Lane)
    requires rig { IsEquipped rig.now }
    requires worker { IsBetweenRounds (config_of_shared rig.now) (known _pass.now) lane.old }
    requires phase { IsTrapped lane.old.phase }
    ensures did { IsRound (config_of_shared rig.now) (known _pass.now) lane.old lane.old.phase (known _pass.now) lane.new Rounded.Went }
    ensures worker { IsBetweenRounds (config_of_shared rig.now) (known _pass.now) lane.new }
    ensures vcpu { lane.new.vcpu ≡ lane.old.vcpu }
{
    look_up(&rig.table, lane);
}

/// Takes the lane's view, mends it, and gives it back.
fn mend_view<W: Wait>(rt: &W, rig: &Shared, pass: &mut Pass, lane: &mut Lane)
    requires rig { IsEquipped rig.now }
    requires same { IsPassOf rig.now.turns pass.old }
    requires worker { IsBetweenRounds (config_of_shared rig.now) (known pass.old) lane.old }
    requires phase { IsLooked lane.old.phase }
    ensures same { IsBeside pass.old pass.new }
    ensures did { IsRound (config_of_shared rig.now) (known pass.old) lane.old lane.old.phase (known pass.new) lane.new Rounded.Went }
    ensures worker { IsBetweenRounds (config_of_shared rig.now) (known pass.new) lane.new }
    ensures vcpu { lane.new.vcpu ≡ lane.old.vcpu }
{
    let mut view = rig.turns.take_view(rt, pass, lane.windows.view);
    // Restored or found present: the round goes on alike.
    let _ = mend(&mut view, &rig.table, lane);
    rig.turns.give_view(pass, view);
}

/// The gate, and then by the lane's phase a turn of 64 steps at most, a fill, a lookup or a mend. `Over` exactly where the
/// turn said that the vCPU may not step. The pass holds nothing between two rounds, its lane is its own vCPU's and
/// truthful for the schedule and the logs that the pass has seen, and it has seen every step of its vCPU. A round of a
/// turn adds to the schedule found at the taking the turn's steps, made from this lane; a fill and a mend are from the
/// view as it was taken. `n` is the round's number, for the gate. May wait for ever.
pub fn round<W: Wait, G: Gate>(
    rt: &W,
    rig: &Shared,
    pass: &mut Pass,
    lane: &mut Lane,
    gate: &G,
    n: u64,
) -> Rounded
    requires rig { IsEquipped rig.now }
    requires same { IsPassOf rig.now.turns pass.old }
    requires worker { IsBetweenRounds (config_of_shared rig.now) (known pass.old) lane.old }
    ensures same { IsBeside pass.old pass.new }
    ensures did { IsRound (config_of_shared rig.now) (known pass.old) lane.old lane.old.phase (known pass.new) lane.new result }
    ensures worker { IsBetweenRounds (config_of_shared rig.now) (known pass.new) lane.new }
    ensures vcpu { lane.new.vcpu ≡ lane.old.vcpu }
{
    gate.pass(lane.vcpu, n);
    match lane.phase {
        Phase::Running => make_turn(rt, rig, pass, lane),
        Phase::Wants(_) => {
            take_window(rt, rig, pass, lane);
            Rounded::Went
        }
        Phase::Trapped(_) => {
            look_trap(rig, pass, lane);
            Rounded::Went
        }
        Phase::Looked(_) => {
            mend_view(rt, rig, pass, lane);
            Rounded::Went
        }
    }
}
