//! The core of a run.

ghost use Rattle.std.specs.Prelude.{◌↔◌, replicate, ◌≡◌, ◌≢◌, ◌≤◌, ◌<◌, ◌+◌, List, IfOk, length, slice_set, true};
ghost use Rattle.guest_input.specs.Accepted.{IsImage, IsSetupFor};
ghost use Rattle.guest_ram.specs.Ram.{IsLaid};
ghost use Rattle.guest_board.specs.Board.{Seat, may};
ghost use Rattle.view_file.specs.declared.views.Views.{Views};
ghost use Rattle.function_table.specs.Groups.{Groups, groups_of};
ghost use Rattle.view_file.specs.Fits.{IsViewsFor};
ghost use Rattle.vcpu_core.specs.declared.lane.Lane.{Lane};
ghost use Rattle.vcpu_core.specs.declared.lane.Phase.{Phase};
ghost use Rattle.vcpu_core.specs.declared.lane.Phase.TheVariants.{Running};
ghost use Rattle.vcpu_core.specs.First.{first_world};
ghost use Rattle.vcpu_core.specs.Placed.{IsPlacedPhase};
ghost use Rattle.vcpu_core.specs.Stages.{AreStagesFor};
ghost use Rattle.vcpu_core.specs.Waits.{all_left, left_of};
ghost use Rattle.vcpu_core.specs.World.{World, go_of, went_of, go_all, gone, went_in, AreViewsOf, IsReady, paged_in, lane_of, row_count, row_limit};

use crate::lane::{Lane, Phase, Taken, Then, Went};
use crate::open::{start_lanes, start_stages, start_views};
use crate::rows::{RowStage, fill, look_up, mend, step_once, take_step, view_after, view_named};
use chain_log::entry::LogEntry;
use fc_numbers::machine::End;
use fc_numbers::memory::NoMemory;
use fc_numbers::places::{VcpuNo, ViewNo};
use function_table::table::Table;
use gstage::table::GTable;
use guest_board::board::Board;
use guest_input::image::Image;
use guest_input::setup::Setup;
use std::alloc::Global;
use std::marker::Model;
use view_file::views::Views;
use view_store::view::View;

/// A board whose vCPUs fetch from views. In contracts it is the view machine: the profile's views, the groups of the
/// text, the board, the views with their logs, and the lanes. Each view has its second-stage table, which every access of
/// a step under the view asks where its place lies; what it answers follows from the board's memory.
#[derive(Drop)]
pub struct Core<'a> {
    profile: &'a Views,
    table: &'a Table,
    board: Board,
    stages: Vec<GTable>,
    views: Vec<View>,
    lanes: Vec<Lane>,
}

impl<'a> Model for Core<'a> {
    ghost use Rattle.vcpu_core.specs.World.{World};

    ghost Value = { World };

    ghost use Rattle.vcpu_core.specs.Whole.{world_of, IsWhole};

    ghost view = { world_of };

    ghost invariant = { IsWhole };
}

/// One event of a lane that does not run: a fill, a lookup or a mend.
#[tactic(auto, unfolding(crate::specs::World::gone))]
fn rest_event(table: &Table, views: &mut [View], lane: &mut Lane)
    requires rests { lane.old.phase ≢ Phase.Running }
    requires view { lane.old.windows.view < length views.old }
    requires paged { (paged_in views.old lane.old.windows.view).number ≡ lane.old.windows.view }
    requires groups { (paged_in views.old lane.old.windows.view).groups ≡ table.now }
    requires placed { IsPlacedPhase table.now lane.old lane.old.phase }
    ensures { (profile : Views) → (board : Seat) → (lanes : List Lane) →
        (let old : World = record { profile = profile; groups = table.now; board = board; paged_views = views.old; lanes = lanes } in
        let new : World = record { profile = profile; groups = table.now; board = board; paged_views = views.new; lanes = slice_set lanes lane.old.vcpu lane.new } in
        new ≡ gone old lane.old.vcpu lane.old lane.old.phase) }
{
    match lane.phase {
        Phase::Running => unreachable!(),
        Phase::Wants(_) => {
            let view = lane.windows.view.0 as usize;
            fill(&views[view], lane);
        }
        Phase::Trapped(_) => look_up(table, lane),
        Phase::Looked(_) => {
            let view = lane.windows.view.0 as usize;
            // Restored or found present: the event is the same.
            let _ = mend(&mut views[view], table, lane);
        }
    }
}

/// One event by the lane's phase, of a vCPU that may step.
#[inline(always)]
fn event(
    profile: &Views,
    table: &Table,
    board: &mut Board,
    stages: &[GTable],
    views: &mut [View],
    lane: &mut Lane,
) -> Went
    requires may { may board.old.rules board.old.state lane.old.vcpu ≡ true }
    requires view { lane.old.windows.view < length views.old }
    requires paged { (paged_in views.old lane.old.windows.view).number ≡ lane.old.windows.view }
    requires groups { (paged_in views.old lane.old.windows.view).groups ≡ table.now }
    requires placed { IsPlacedPhase table.now lane.old lane.old.phase }
    requires stages { AreStagesFor board.old.state.ram (length profile.now.apps + 1) stages.now }
    ensures after { (lanes : List Lane) →
        (let old : World = record { profile = profile.now; groups = table.now; board = board.old; paged_views = views.old; lanes = lanes } in
        let new : World = record { profile = profile.now; groups = table.now; board = board.new; paged_views = views.new; lanes = slice_set lanes lane.old.vcpu lane.new } in
        new ≡ gone old lane.old.vcpu lane.old lane.old.phase) }
    ensures answer { (lanes : List Lane) →
        (let old : World = record { profile = profile.now; groups = table.now; board = board.old; paged_views = views.old; lanes = lanes } in
        result ≡ went_in old lane.old.vcpu lane.old lane.old.phase) }
    ensures stages { AreStagesFor board.new.state.ram (length profile.now.apps + 1) stages.now }
{
    match lane.phase {
        Phase::Running => step_once(board, profile, stages, lane),
        _ => {
            rest_event(table, views, lane);
            Went::Erased
        }
    }
}

/// Events of a lane that runs, one after another: steps, and fills of the lines that they need. They end where so many
/// were made, at a zero that traps, and where the vCPU may not step. Answers how many they were.
fn row(
    profile: &Views,
    board: &mut Board,
    stages: &[GTable],
    views: &[View],
    lane: &mut Lane,
    limit: u32,
) -> u32
    requires may { may board.old.rules board.old.state lane.old.vcpu ≡ true }
    requires running { lane.old.phase ≡ Running }
    requires some { 1 ≤ limit }
    requires stages { AreStagesFor board.old.state.ram (length profile.now.apps + 1) stages.now }
    requires laid { IsLaid board.old.state.ram }
    requires views { AreViewsOf board.old.state.ram profile.now views.now }
    ensures after { (groups : Groups) → (lanes : List Lane) →
        (let old : World = record { profile = profile.now; groups = groups; board = board.old; paged_views = views.now; lanes = lanes } in
        let new : World = record { profile = profile.now; groups = groups; board = board.new; paged_views = views.now; lanes = slice_set lanes lane.old.vcpu lane.new } in
        lane.old.vcpu < length lanes → lane_of old lane.old.vcpu ≡ lane.old → new ≡ go_all old (replicate result lane.old.vcpu)) }
    ensures count { (groups : Groups) → (lanes : List Lane) →
        (let old : World = record { profile = profile.now; groups = groups; board = board.old; paged_views = views.now; lanes = lanes } in
        lane.old.vcpu < length lanes → lane_of old lane.old.vcpu ≡ lane.old → result ≡ row_count old lane.old.vcpu limit) }
    ensures some { 1 ≤ result }
    ensures most { result ≤ limit }
    ensures stages { AreStagesFor board.new.state.ram (length profile.now.apps + 1) stages.now }
{
    let mut view = view_named(board, profile, lane.vcpu);
    let mut made = 0;
    while made < limit && board.may(lane.vcpu) {
        let stage = RowStage {
            table: &stages[view.0 as usize],
        };
        made += 1;
        match take_step(board, profile, &stage, view, lane) {
            Taken::Step { hooked } => view = view_after(hooked, view, board, profile, lane.vcpu),
            Taken::End(then) => match then {
                Then::Need => {
                    if made == limit {
                        return made;
                    }
                    made += 1;
                    fill(&views[view.0 as usize], lane);
                }
                _ => return made,
            },
        }
    }
    made
}

impl<'a> Core<'a> {
    /// The core before the first event of a run of this image by this setup, under these views: each view has its base and
    /// an empty log, each vCPU the view of the setup's first name. `table` is the image's groups.
    #[tactic(auto, unfolding(crate::specs::First::first_world), using(crate::proofs::Start::first_ready))]
    pub fn open(
        alloc: Global,
        image: &Image,
        table: &'a Table,
        setup: &Setup,
        profile: &'a Views,
    ) -> Result<Core<'a>, NoMemory>
        requires image { IsImage image.now }
        requires setup { IsSetupFor image.now setup.now }
        requires views { IsViewsFor profile.now image.now }
        requires table { table.now ≡ groups_of image.now }
        ensures { IfOk result (λ core. core ≡ first_world (record { image = image.now; setup = setup.now; views = profile.now })) }
    {
        let board = Board::open(alloc, image, setup)?;
        let stages = start_stages(alloc, board.ram(), profile, setup.gstage)?;
        let views = start_views(alloc, image, profile, table)?;
        let lanes = start_lanes(alloc, profile.choose(setup.start.as_ref()), setup.vcpus)?;
        Ok(Core {
            profile,
            table,
            board,
            stages,
            views,
            lanes,
        })
    }

    /// The bytes that the guest wrote.
    pub fn console(&self) -> &[u8]
        ensures { result.now ≡ self.now.board.state.console }
    {
        self.board.console()
    }

    /// How the run ended, if it has.
    pub fn end(&self) -> Option<End>
        ensures { result ≡ self.now.board.state.end }
    {
        self.board.end()
    }

    /// How many views there are: the full view, and one for each app.
    pub fn views(&self) -> usize
        ensures { result ≡ length self.now.paged_views }
    {
        self.views.len()
    }

    /// The entries of view v so far, in the order in which the groups were restored.
    pub fn log(&self, v: ViewNo) -> &[LogEntry]
        requires { v < length self.now.paged_views }
        ensures { result.now ≡ (paged_in self.now.paged_views v).log }
    {
        self.views[v.0 as usize].log()
    }

    /// The board and the views, as they are.
    pub fn into_parts(self) -> (Board, Vec<View>)
        ensures board { result.0 ≡ self.entry.board }
        ensures views { result.1.items ≡ self.entry.paged_views }
    {
        let Core { board, views, .. } = self;
        (board, views)
    }

    /// One event of vCPU i, by the phase of its lane: a step, a need, a trap, a fill, a lookup or a mend; `Over` exactly
    /// where the vCPU may not step, and then nothing changes. Of ten events of a vCPU, between which no other vCPU steps,
    /// at least one is a step. Each event but `Over` leaves less of the vCPU's run, and less of the run of all.
    #[inline(always)]
    #[tactic(auto, using(crate::proofs::Waiting::go_left, crate::proofs::LeftOver::go_falls))]
    pub fn go(&mut self, i: VcpuNo) -> Went
        ensures after { self.new ≡ go_of self.old i }
        ensures answer { result ≡ went_of self.old i }
        ensures nearer { result ≢ Went.Over → left_of self.new i < left_of self.old i }
        ensures falls { result ≢ Went.Over → all_left self.new < all_left self.old }
    {
        self.make_event(i)
    }

    /// Events of vCPU i one after another, at most `limit`: one, or, where its lane runs, steps and the fills that they
    /// need, until the vCPU may not step or a zero traps. Answers how many they were: none where the vCPU may not step.
    /// Each leaves less of the run of all.
    pub fn go_on(&mut self, i: VcpuNo, limit: u32) -> u32
        requires some { 1 ≤ limit }
        ensures after { self.new ≡ go_all self.old (replicate result i) }
        ensures count { result ≡ row_count self.old i (row_limit (lane_of self.old i).phase limit) }
        ensures most { result ≤ limit }
        ensures falls { 1 ≤ result → all_left self.new < all_left self.old }
        ensures one { limit ≡ 1 → self.new ≡ go_of self.old i }
        ensures answer { (1 ≤ result) ↔ (may self.old.board.rules self.old.board.state i ≡ true) }
        ensures idle { result ≡ 0 → went_of self.new i ≡ Went.Over }
    {
        if !self.board.may(i) {
            return 0;
        }
        match self.lanes[i.0 as usize].phase {
            Phase::Running => self.make_row(i, limit),
            _ => {
                self.make_rest(i);
                1
            }
        }
    }

    /// Events of vCPU i, whose lane runs. Answers how many they were.
    fn make_row(&mut self, i: VcpuNo, limit: u32) -> u32
        requires may { may self.old.board.rules self.old.board.state i ≡ true }
        requires running { (lane_of self.old i).phase ≡ Running }
        requires some { 1 ≤ limit }
        ensures after { self.new ≡ go_all self.old (replicate result i) }
        ensures count { result ≡ row_count self.old i (row_limit (lane_of self.old i).phase limit) }
        ensures some { 1 ≤ result }
        ensures most { result ≤ limit }
        ensures ready { IsReady self.old }
        ensures laid { IsLaid self.old.board.state.ram }
    {
        let at = i.0 as usize;
        // The call says that the memory is laid out.
        let _laid = self.board.ram().text();
        row(
            self.profile,
            &mut self.board,
            &self.stages,
            &self.views,
            &mut self.lanes[at],
            limit,
        )
    }

    /// The event of vCPU i, whose lane does not run.
    #[tactic(auto, unfolding(crate::specs::World::go_of))]
    fn make_rest(&mut self, i: VcpuNo)
        requires may { may self.old.board.rules self.old.board.state i ≡ true }
        requires rests { (lane_of self.old i).phase ≢ Running }
        ensures after { self.new ≡ go_of self.old i }
        ensures rests { (lane_of self.old i).phase ≢ Running }
        ensures ready { IsReady self.old }
    {
        let at = i.0 as usize;
        // The call says that the memory is laid out.
        let _laid = self.board.ram().text();
        rest_event(self.table, &mut self.views, &mut self.lanes[at]);
    }

    #[inline(always)]
    #[tactic(auto, unfolding(crate::specs::World::go_of, crate::specs::World::went_of))]
    fn make_event(&mut self, i: VcpuNo) -> Went
        ensures after { self.new ≡ go_of self.old i }
        ensures answer { result ≡ went_of self.old i }
        ensures ready { IsReady self.old }
    {
        if !self.board.may(i) {
            return Went::Over;
        }
        let at = i.0 as usize;
        let _laid = self.board.ram().text();
        event(
            self.profile,
            self.table,
            &mut self.board,
            &self.stages,
            &mut self.views,
            &mut self.lanes[at],
        )
    }
}
