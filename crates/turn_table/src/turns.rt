//! The calls: open, split, join, take, give, look and close.

ghost use Rattle.std.specs.Prelude.{◌≡◌, ℕ, ◌<◌, ◌≤◌, ◌+◌, ◌++◌, ◌⊎◌, [], ◌∷◌, true, false, None, Some, IfOk, MatchBool, map, length, replicate, vec_capacity};
ghost use Rattle.std.specs.Slots.{slots_items, IsFull};
ghost use Rattle.view_store.specs.Paged.{PagedView};
ghost use Rattle.run_evidence.specs.Config.{Config, IsLawfulSchedule};
ghost use Rattle.run_evidence.specs.Evidence.{log_in};
ghost use Rattle.run_evidence.specs.Growing.{Begins, IsAllowedFrom, board_of, paged_at, views_count, logs_of};
ghost use Rattle.turn_table.specs.declared.known.Guarded.{Guarded};
ghost use Rattle.turn_table.specs.Numbers.{at, times};
ghost use Rattle.turn_table.specs.Sound.{IsEvidence, AreSoundLogs};
ghost use Rattle.turn_table.specs.Rule.{AreViews, AreSlots, IsTruthfulPass, config_of, slots_of, view_slot};
ghost use Rattle.turn_table.specs.Steps.{IsConsistent, TookBoard, TookView, after_board, after_view, first_known, greatest_alone, with_board, with_view, without_greatest};
ghost use Rattle.turn_table.specs.Calls.{HasOneMore, IsJoined, IsOwnSteps, IsUnchanged, OwnsAll, OwnsSeveral};
ghost use Rattle.turn_table.specs.Passes.{HoldsNothing, IsBeside, IsPassOf, config_in, known};

use crate::known::{Guarded, Key, Known};
use crate::pass::{Pass, Turns};
use crate::rule::{Apart, Give, Look, TakeBoard, TakeView, Together};
use atomic_table::{Closed, Refused, Seat, Table};
use fc_numbers::memory::NoMemory;
use fc_numbers::places::ViewNo;
use guest_board::board::Board;
use guest_input::image::Image;
use guest_input::setup::Setup;
use std::alloc::{AllocError, Global};
use std::snapshot::Snapshot;
use std::sync::Wait;
use std::thread::yield_now;
use view_file::views::Views;
use view_store::view::View;

impl Turns {
    /// Opens a table for the board and the views of a run by this image, setup and views file. The first pass owns
    /// every vCPU number, and has seen the board's schedule and the views' logs.
    pub fn open(
        alloc: Global,
        image: &Image,
        setup: &Setup,
        profile: &Views,
        board: Board,
        views: Vec<View>,
    ) -> Result<(Turns, Pass), NoMemory>
        requires some_vcpu { 0 < setup.now.vcpus }
        requires board { let c : Config = record { image = image.now; setup = setup.now; views = profile.now } in board ≡ board_of c board.schedule }
        requires many { let c : Config = record { image = image.now; setup = setup.now; views = profile.now } in length views.items ≡ views_count c }
        requires each { let c : Config = record { image = image.now; setup = setup.now; views = profile.now } in AreViews c (logs_of views.items) views.items }
        requires sound { let c : Config = record { image = image.now; setup = setup.now; views = profile.now } in AreSoundLogs c board.schedule (logs_of views.items) }
        ensures { let c : Config = record { image = image.now; setup = setup.now; views = profile.now } in
            IfOk result (λ t. (config_in t.0 ≡ c) × IsPassOf t.0 t.1 × (known t.1 ≡ first_known c board.schedule (logs_of views.items))) }
    {
        let key = Key {
            image: Snapshot::of(image),
            setup: Snapshot::of(setup),
            profile: Snapshot::of(profile),
            board: Snapshot::of(&board),
            views: Snapshot::of(&views),
        };
        let room = Vec::with_capacity(alloc, views.len())?;
        let words = zeros(alloc, views.len() + 1)?;
        let slots = filled(alloc, board, views)?;
        match Table::new(alloc, &words, slots, &key) {
            Ok((table, seat)) => Ok((Turns { table, room }, Pass { seat })),
            Err(Refused { slots: _ }) => Err(NoMemory),
        }
    }

    fn try_board(&self, seat: &mut Seat<Option<Guarded>, Known>) -> bool
        requires same { seat.old.table_id ≡ self.now.table.shared.table_id }
        requires live { seat.old.me.0.live ≡ true }
        requires free { seat.old.me.0.holds ≡ None }
        ensures same { seat.new.table_id ≡ seat.old.table_id }
        ensures took { MatchBool result (TookBoard seat.old.me seat.new.me) (seat.new.me ≡ seat.old.me) }
    {
        self.table
            .shared
            .compare_exchange::<TakeBoard>(seat, 0, 0, 1)
            == 0
    }

    fn try_view(&self, seat: &mut Seat<Option<Guarded>, Known>, k: ViewNo) -> bool
        requires same { seat.old.table_id ≡ self.now.table.shared.table_id }
        requires live { seat.old.me.0.live ≡ true }
        requires free { seat.old.me.0.holds ≡ None }
        requires number { k < views_count (config_in self.now) }
        ensures same { seat.new.table_id ≡ seat.old.table_id }
        ensures took { MatchBool result (TookView (k + 1) k seat.old.me seat.new.me) (seat.new.me ≡ seat.old.me) }
    {
        self.table
            .shared
            .compare_exchange::<TakeView>(seat, word_of(k), 0, 1)
            == 0
    }

    /// Cuts off a pass that owns the greatest number alone, and has seen as much.
    pub fn split(&self, pass: &mut Pass) -> Pass
        requires same { IsPassOf self.now pass.old }
        requires free { HoldsNothing pass.old }
        requires several { OwnsSeveral (known pass.old) }
        ensures same { IsBeside pass.old pass.new × IsBeside pass.old result }
        ensures left { known pass.new ≡ without_greatest (known pass.old) }
        ensures right { known result ≡ greatest_alone (known pass.old) }
    {
        let seat = self.table.shared.split_seat::<Apart>(&mut pass.seat);
        Pass { seat }
    }

    /// Takes in another pass, with its numbers. The schedule then seen begins with what each had seen, and of each
    /// view's log it is the longer of the two.
    pub fn join(&self, pass: &mut Pass, other: Pass)
        requires same { IsPassOf self.now pass.old × IsPassOf self.now other }
        requires free { HoldsNothing pass.old × HoldsNothing other }
        ensures same { IsBeside pass.old pass.new }
        ensures both { IsJoined (known pass.old) (known other) (known pass.new) }
    {
        let Pass { seat } = other;
        self.merge(&mut pass.seat, seat);
    }

    fn merge(&self, seat: &mut Seat<Option<Guarded>, Known>, other: Seat<Option<Guarded>, Known>)
        requires same { (seat.old.table_id ≡ self.now.table.shared.table_id) × (other.table_id ≡ self.now.table.shared.table_id) }
        requires live { (seat.old.me.0.live ≡ true) × (other.me.0.live ≡ true) }
        requires free { (seat.old.me.0.holds ≡ None) × (other.me.0.holds ≡ None) }
        requires empty { (seat.old.me.1 ≡ []) × (other.me.1 ≡ []) }
        ensures same { seat.new.table_id ≡ seat.old.table_id }
        ensures both { IsJoined seat.old.me.0 other.me.0 seat.new.me.0 }
        ensures live { seat.new.me.0.live ≡ true }
        ensures empty { seat.new.me.1 ≡ [] }
    {
        self.table.shared.join_seat::<Together>(seat, other);
        self.table.shared.load::<Look>(seat, 0);
    }

    /// Looks at the table. Nothing changes, and the rule tells what it says of the pass.
    pub fn look(&self, pass: &mut Pass)
        requires { IsPassOf self.now pass.old }
        ensures same { IsBeside pass.old pass.new }
        ensures kept { known pass.new ≡ known pass.old }
        ensures consistent { IsConsistent (known pass.new) }
    {
        self.table.shared.load::<Look>(&mut pass.seat, 0);
    }

    /// Takes the board, once no other pass has it: the board of a lawful schedule, which begins with the schedule seen,
    /// justifies the logs seen, and has the counted steps of each vCPU that the pass owns. Waits, trying again, and may
    /// wait for ever.
    pub fn take_board<W: Wait>(&self, rt: &W, pass: &mut Pass) -> Board
        requires same { IsPassOf self.now pass.old }
        requires free { HoldsNothing pass.old }
        ensures same { IsBeside pass.old pass.new }
        ensures pass { known pass.new ≡ with_board (known pass.old) result.schedule }
        ensures seen { Begins (known pass.old).seen result.schedule }
        ensures board { result ≡ board_of (config_of (known pass.old)) result.schedule }
        ensures lawful { IsLawfulSchedule (config_of (known pass.old)) result.schedule }
        ensures evidence { (v : ℕ) → IsEvidence (config_of (known pass.old)) result.schedule v (log_in (known pass.old).logs v) }
        ensures counts { (i steps : ℕ) → at (known pass.old).counts i ≡ Some steps → steps ≡ times i result.schedule }
    {
        let shared = &self.table.shared;
        for _ in rt.forever() {
            if self.try_board(&mut pass.seat) {
                match shared.exchange(&mut pass.seat, 0, None) {
                    Some(Guarded::Board(board)) => return board,
                    _ => unreachable!(),
                }
            }
            yield_now();
        }
        unreachable!()
    }

    /// Gives back the board that was taken, after zero or more steps of the pass's own vCPU, each of which exists and
    /// fetches what the logs seen allow.
    pub fn give_board(&self, pass: &mut Pass, board: Board)
        requires same { IsPassOf self.now pass.old }
        requires taken { (known pass.old).holds ≡ Some 0 }
        requires board { board ≡ board_of (config_of (known pass.old)) board.schedule }
        requires lawful { IsLawfulSchedule (config_of (known pass.old)) board.schedule }
        requires steps { IsOwnSteps (known pass.old) board.schedule }
        requires allowed { IsAllowedFrom (config_of (known pass.old)) (known pass.old).logs board.schedule (length (known pass.old).seen) }
        ensures same { IsBeside pass.old pass.new }
        ensures pass { known pass.new ≡ after_board (known pass.old) board.schedule }
    {
        let shared = &self.table.shared;
        drop(shared.exchange(&mut pass.seat, 0, Some(Guarded::Board(board))));
        shared.swap::<Give>(&mut pass.seat, 0, 0);
    }

    /// Takes view k, once no other pass has it. Its log begins with the log seen of it. Waits, trying again, and may
    /// wait for ever.
    pub fn take_view<W: Wait>(&self, rt: &W, pass: &mut Pass, k: ViewNo) -> View
        requires same { IsPassOf self.now pass.old }
        requires free { HoldsNothing pass.old }
        requires number { k < views_count (config_in self.now) }
        ensures same { IsBeside pass.old pass.new }
        ensures pass { known pass.new ≡ with_view (known pass.old) (k + 1) k result.log }
        ensures number { k < length (known pass.old).logs }
        ensures seen { Begins (log_in (known pass.old).logs k) result.log }
        ensures view { result ≡ paged_at (config_of (known pass.old)) k result.log }
    {
        let shared = &self.table.shared;
        let word = word_of(k);
        for _ in rt.forever() {
            if self.try_view(&mut pass.seat, k) {
                match shared.exchange(&mut pass.seat, word, None) {
                    Some(Guarded::View(view)) => return view,
                    _ => unreachable!(),
                }
            }
            yield_now();
        }
        unreachable!()
    }

    /// Gives back the view that was taken, unchanged or with one more entry that the schedule seen justifies.
    pub fn give_view(&self, pass: &mut Pass, view: View)
        requires same { IsPassOf self.now pass.old }
        requires number { view.number < views_count (config_in self.now) }
        requires taken { (known pass.old).holds ≡ Some (view.number + 1) }
        requires view { view ≡ paged_at (config_of (known pass.old)) view.number view.log }
        requires log { IsUnchanged (known pass.old) view.number view.log ⊎ HasOneMore (known pass.old) view.number view.log }
        ensures same { IsBeside pass.old pass.new }
        ensures pass { known pass.new ≡ after_view (known pass.old) view.number view.log }
    {
        let shared = &self.table.shared;
        let word = word_of(view.number());
        drop(shared.exchange(&mut pass.seat, word, Some(Guarded::View(view))));
        shared.swap::<Give>(&mut pass.seat, word, 0);
    }

    /// Ends the table, once one pass owns every number. The board comes back, and the views in the order of their
    /// numbers. Takes no memory.
    pub fn close(self, pass: Pass) -> (Board, Vec<View>)
        requires same { IsPassOf self pass }
        requires free { HoldsNothing pass }
        requires all { OwnsAll (config_in self).setup.vcpus (known pass) }
        ensures board { result.0 ≡ board_of (config_in self) result.0.schedule }
        ensures many { length result.1.items ≡ views_count (config_in self) }
        ensures each { AreViews (config_in self) (logs_of result.1.items) result.1.items }
        ensures sound { AreSoundLogs (config_in self) result.0.schedule (logs_of result.1.items) }
        ensures pass { IsTruthfulPass (config_in self) result.0.schedule (logs_of result.1.items) (known pass) }
    {
        let Turns { table, room } = self;
        let Pass { seat } = pass;
        hand_back(table.close_with(seat), room)
    }
}

/// The word and the slot of a view.
fn word_of(k: ViewNo) -> usize
    ensures { result ≡ k + 1 }
{
    k.0 as usize + 1
}

fn view_of(found: Option<Guarded>) -> View
    requires { (view : PagedView) × (found ≡ Some (Guarded.View view)) }
    ensures { found ≡ Some (Guarded.View result) }
{
    let Some(Guarded::View(view)) = found else {
        unreachable!()
    };
    view
}

/// The board and the views, taken out of the slots.
fn hand_back(
    mut closed: Closed<Option<Guarded>, Global>,
    mut views: Vec<View>,
) -> (Board, Vec<View>)
    requires full { IsFull closed.slots }
    requires slots { AreSlots (slots_items closed.slots) (vec_capacity views) }
    requires empty { views.items ≡ [] }
    ensures { slots_items closed.slots ≡ slots_of result.0 result.1.items }
{
    let Some(Guarded::Board(board)) = closed.take(0) else {
        unreachable!()
    };
    let mut i = 1;
    while i < closed.slot_count() {
        views.push_reserved(view_of(closed.take(i)));
        i += 1;
    }
    closed.free();
    (board, views)
}

fn zeros(alloc: Global, count: usize) -> Result<Vec<u64>, AllocError>
    ensures { IfOk result (λ v. v.items ≡ replicate count 0) }
{
    let mut words = Vec::new(alloc);
    words.resize(count, 0)?;
    Ok(words)
}

/// The slots: the board, and then each view.
fn filled(alloc: Global, board: Board, views: Vec<View>) -> Result<Vec<Option<Guarded>>, AllocError>
    ensures { IfOk result (λ v. v.items ≡ Some (Guarded.Board board) ∷ map view_slot views.items) }
{
    let mut slots = Vec::new(alloc);
    slots.push(Some(Guarded::Board(board)))?;
    for view in views {
        slots.push(Some(Guarded::View(view)))?;
    }
    Ok(slots)
}
