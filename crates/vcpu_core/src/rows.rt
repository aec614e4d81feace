//! The rows of the view machine, by the phase of a lane: steps, a fill, a lookup, a mend.
//!
//! Each row says two things: exactly what board, view and lane are after it, and what it keeps in every run and for all
//! logs that its board, its view and its lane are of. So one thread with a whole core, and many that take the board or a
//! view in turn, use the same rows.

ghost use Rattle.std.specs.Prelude.{◌≡◌, ◌≤◌, ◌<◌, ◌+◌, ◌-◌, ◌*◌, false, true, length};
ghost use Rattle.view_file.specs.Named.{view_named};
ghost use Rattle.guest_board.specs.declared.seen.Windows.{Windows};
ghost use Rattle.gstage.specs.Stage.{IsFor};
ghost use Rattle.fc_numbers.specs.Spans.{text_size};
ghost use Rattle.view_store.specs.Paged.{window_of};
ghost use Rattle.rv_step.specs.Kept.{KeepsText};
ghost use Rattle.guest_board.specs.Board.{may, name_of};
ghost use Rattle.guest_board.specs.Seen.{trapped_at};
ghost use Rattle.vcpu_core.specs.declared.lane.Phase.TheVariants.{Trapped as TrappedAt};
ghost use Rattle.vcpu_core.specs.Stages.{AreStagesFor};
ghost use Rattle.vcpu_core.specs.Lanes.{in_phase, IsLooked, IsTrapped, IsWanting, fill_row, look_row, mend_answer, mend_row, mend_view, seated, went_by, with_newest};
ghost use Rattle.vcpu_core.specs.Placed.{IsPlacedPhase};
ghost use Rattle.vcpu_core.specs.Rows.{FillKeeps, LookKeeps, MendKeeps, TurnsKeep};
ghost use Rattle.vcpu_core.specs.Turns.{IsPhaseAfter, board_after, lane_after, taken_by, turns_of, verdict_for};

use crate::lane::{Lane, Phase, Taken, Then, Turned, Went};
use arrayvec::ArrayVec;
use fc_numbers::machine::Access;
use fc_numbers::places::{Gpa, VcpuNo, ViewNo};
use fc_numbers::window::Window;
use function_table::table::Table;
use gstage::stage::{Placed, SecondStage};
use gstage::table::GTable;
use guest_board::board::Board;
use guest_board::seen::{Seen, Windows};
use recovery::look;
use std::mem;
use view_file::views::Views;
use view_store::view::{Patched, View};

/// Drops the windows and the cleared range where they are of another view.
fn seat(view: ViewNo, windows: &mut Windows)
    ensures { windows.new ≡ seated view windows.old }
{
    if windows.view.0 != view.0 {
        windows.view = view;
        windows.held = ArrayVec::new();
        windows.cleared = None;
    }
}

/// Puts the lane into the phase of a trap on the zero at this place.
#[cold]
#[inline(never)]
fn note_trap(board: &Board, lane: &mut Lane, place: Gpa)
    requires { lane.old.vcpu < length board.now.state.slots }
    ensures { lane.new ≡ in_phase lane.old lane.old.windows (TrappedAt (trapped_at board.now.state lane.old.vcpu lane.old.windows.view place)) }
{
    let trapped = board.trapped(lane.vcpu, lane.windows.view, place);
    lane.phase = Phase::Trapped(trapped);
}

/// One event of a lane that runs, whose vCPU has this view and may step. Each access of a step asks the stage where its
/// place lies.
pub(crate) fn take_step<S: SecondStage>(
    board: &mut Board,
    views: &Views,
    stage: &S,
    view: ViewNo,
    lane: &mut Lane,
) -> Taken
    requires may { may board.old.rules board.old.state lane.old.vcpu ≡ true }
    requires phase { lane.old.phase ≡ Phase.Running }
    requires view { view ≡ view_named views.now (name_of board.old.state lane.old.vcpu) }
    requires stage { IsFor (S.text stage.now) (S.ram stage.now) board.old.state.ram }
    ensures board { board.new ≡ board_after views.now board.old lane.old }
    ensures lane { lane.new ≡ lane_after views.now board.old lane.old }
    ensures answer { result ≡ taken_by board.old.rules (verdict_for views.now board.old lane.old) }
    ensures keeps { KeepsText board.old.state.ram board.new.state.ram }
{
    seat(view, &mut lane.windows);
    match board.step_ready(lane.vcpu, &lane.windows, stage) {
        Seen::Over => unreachable!(),
        Seen::Stepped { hooked } => Taken::Step { hooked },
        Seen::Need(line) => {
            lane.phase = Phase::Wants(line);
            Taken::End(Then::Need)
        }
        Seen::Zero(place) => {
            note_trap(board, lane, place);
            Taken::End(Then::Zero)
        }
    }
}

/// The view of a vCPU by its name.
#[cold]
#[inline(never)]
pub(crate) fn view_named(board: &Board, views: &Views, vcpu: VcpuNo) -> ViewNo
    requires { vcpu < length board.now.state.slots }
    ensures value { result ≡ view_named views.now (name_of board.now.state vcpu) }
    ensures within { result ≤ length views.now.apps }
{
    views.choose(board.name_of(vcpu))
}

/// The view of a vCPU after a step: it is asked for anew only where the step fetched the hook's place.
pub(crate) fn view_after(
    hooked: bool,
    view: ViewNo,
    board: &Board,
    views: &Views,
    vcpu: VcpuNo,
) -> ViewNo
    requires number { vcpu < length board.now.state.slots }
    requires view { hooked ≡ false → view ≡ view_named views.now (name_of board.now.state vcpu) }
    requires within { view ≤ length views.now.apps }
    ensures value { result ≡ view_named views.now (name_of board.now.state vcpu) }
    ensures within { result ≤ length views.now.apps }
{
    if hooked {
        view_named(board, views, vcpu)
    } else {
        view
    }
}

/// Makes steps of a lane that runs, until so many were made, or a line is needed, or a zero traps, or the vCPU may not
/// step. `stages` has the second-stage table of each view, in order, for the board's memory.
pub fn turn(
    board: &mut Board,
    views: &Views,
    stages: &[GTable],
    lane: &mut Lane,
    limit: u32,
) -> Turned
    requires number { lane.old.vcpu < length board.old.state.slots }
    requires phase { lane.old.phase ≡ Phase.Running }
    requires some { 1 ≤ limit }
    requires stages { AreStagesFor board.old.state.ram (length views.now.apps + 1) stages.now }
    ensures exact { turns_of views.now limit board.old lane.old ≡ record { board = board.new; lane = lane.new; answer = result } }
    ensures phase { IsPhaseAfter result.then lane.new.phase }
    ensures stages { AreStagesFor board.new.state.ram (length views.now.apps + 1) stages.now }
    ensures kept { TurnsKeep views.now board.old lane.old board.new lane.new result.steps }
{
    let mut view = view_named(board, views, lane.vcpu);
    for steps in 0..limit {
        if !board.may(lane.vcpu) {
            return Turned {
                steps,
                then: Then::Over,
            };
        }
        match take_step(board, views, &stages[view.0 as usize], view, lane) {
            Taken::Step { hooked } => view = view_after(hooked, view, board, views, lane.vcpu),
            Taken::End(then) => return Turned { steps, then },
        }
    }
    Turned {
        steps: limit,
        then: Then::Limit,
    }
}

/// The second stage of one event. The step is compiled for it apart from those of a turn and a row, so that each has one
/// caller and becomes part of it.
#[derive(Drop)]
struct EventStage<'a> {
    table: &'a GTable,
}

impl<'a> SecondStage for EventStage<'a> {
    ghost text = { λ s. s.table.now.text };

    ghost ram = { λ s. s.table.now.ram };

    #[inline(always)]
    fn place(&self, at: Gpa, access: Access) -> Placed {
        self.table.place(at, access)
    }
}

/// The second stage of a row of events, likewise.
#[derive(Drop)]
pub(crate) struct RowStage<'a> {
    pub(crate) table: &'a GTable,
}

impl<'a> SecondStage for RowStage<'a> {
    ghost text = { λ s. s.table.now.text };

    ghost ram = { λ s. s.table.now.ram };

    #[inline(always)]
    fn place(&self, at: Gpa, access: Access) -> Placed {
        self.table.place(at, access)
    }
}

/// One event of a lane that runs, whose vCPU may step.
#[inline(always)]
pub fn step_once(board: &mut Board, views: &Views, stages: &[GTable], lane: &mut Lane) -> Went
    requires may { may board.old.rules board.old.state lane.old.vcpu ≡ true }
    requires phase { lane.old.phase ≡ Phase.Running }
    requires stages { AreStagesFor board.old.state.ram (length views.now.apps + 1) stages.now }
    ensures board { board.new ≡ board_after views.now board.old lane.old }
    ensures lane { lane.new ≡ lane_after views.now board.old lane.old }
    ensures answer { result ≡ went_by (verdict_for views.now board.old lane.old) }
    ensures stages { AreStagesFor board.new.state.ram (length views.now.apps + 1) stages.now }
{
    let view = views.choose(board.name_of(lane.vcpu));
    let stage = EventStage {
        table: &stages[view.0 as usize],
    };
    match take_step(board, views, &stage, view, lane) {
        Taken::Step { .. } => Went::Stepped,
        Taken::End(_) => Went::Erased,
    }
}

/// Takes the window of a line, in front, where the next steps look first; of four the oldest goes. The window is written
/// where it stays.
#[tactic(auto, using(crate::proofs::Newest::newest_of_four, crate::proofs::Newest::newest_of_few))]
fn hold(view: &View, line: u32, held: &mut ArrayVec<Window, 4>)
    requires { 64 * line < text_size view.now.groups.text }
    ensures { held.new.items ≡ with_newest held.old.items (window_of view.now line) }
{
    if !held.is_full() {
        held.push(Window::default());
    }
    let windows = held.as_mut_slice();
    windows.rotate_right(1);
    view.read_line(line, &mut windows[0]);
}

/// Takes the window of the line that the lane wants, of its view as it is.
#[cold]
#[inline(never)]
pub fn fill(view: &View, lane: &mut Lane)
    requires phase { IsWanting lane.old.phase }
    requires view { view.now.number ≡ lane.old.windows.view }
    requires placed { IsPlacedPhase view.now.groups lane.old lane.old.phase }
    ensures exact { lane.new ≡ fill_row view.now lane.old lane.old.phase }
    ensures kept { FillKeeps view.now lane.old lane.new }
{
    match &lane.phase {
        Phase::Wants(line) => {
            hold(view, *line, &mut lane.windows.held);
            lane.phase = Phase::Running;
        }
        _ => unreachable!(),
    }
}

/// Looks up the group of the lane's trap.
#[cold]
#[inline(never)]
pub fn look_up(table: &Table, lane: &mut Lane)
    requires phase { IsTrapped lane.old.phase }
    requires placed { IsPlacedPhase table.now lane.old lane.old.phase }
    ensures exact { lane.new ≡ look_row table.now lane.old lane.old.phase }
    ensures kept { LookKeeps table.now lane.old lane.new }
{
    match mem::replace(&mut lane.phase, Phase::Running) {
        Phase::Trapped(trap) => lane.phase = Phase::Looked(look(table, trap)),
        _ => unreachable!(),
    }
}

/// Restores and logs the group that the lane asks for, where it is absent. Either way the lane's windows are dropped, and
/// the group's range becomes its cleared range.
#[cold]
#[inline(never)]
pub fn mend(view: &mut View, table: &Table, lane: &mut Lane) -> Patched
    requires phase { IsLooked lane.old.phase }
    requires view { view.old.number ≡ lane.old.windows.view }
    requires groups { view.old.groups ≡ table.now }
    requires placed { IsPlacedPhase table.now lane.old lane.old.phase }
    ensures view { view.new ≡ mend_view view.old lane.old.phase }
    ensures lane { lane.new ≡ mend_row table.now lane.old lane.old.phase }
    ensures answer { result ≡ mend_answer view.old lane.old.phase }
    ensures kept { MendKeeps view.old lane.old view.new lane.new result }
{
    match mem::replace(&mut lane.phase, Phase::Running) {
        Phase::Looked(looked) => {
            lane.windows.held.clear();
            lane.windows.cleared = Some(table.range(looked.group));
            view.patch(looked.entry)
        }
        _ => unreachable!(),
    }
}
