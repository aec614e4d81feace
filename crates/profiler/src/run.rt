//! The round-robin run, and what is seen of it.

ghost use Rattle.std.specs.Prelude.{◌≡◌, ◌<◌, true, Ok, Err, OnOk, length, option_and_then, slice_get};
ghost use Rattle.fc_numbers.specs.declared.machine.End.{End};
ghost use Rattle.function_table.specs.Groups.{groups_of};
ghost use Rattle.guest_input.specs.Accepted.{IsImage, IsSetupFor, starts_of};
ghost use Rattle.guest_board.specs.Board.{may, moved, name_of, next_of, step_of};
ghost use Rattle.profiler.specs.Profile.{start_of, unviewed};
ghost use Rattle.profiler.specs.Tally.{AddsPlace, AddsStep, IsTooMuchAfter, IsWithin, Runs};
ghost use Rattle.profiler.specs.declared.profile.ProfileFault.TheVariants.{TooManyApps};

use crate::profile::ProfileFault;
use crate::tally::{Listed, Tally};
use crate::turns::next_in_turn;
use fc_numbers::machine::End;
use fc_numbers::memory::NoMemory;
use fc_numbers::places::{Gpa, VcpuNo};
use function_table::table::Table;
use guest_board::board::{Board, Full};
use guest_board::laws::{
    full_steps_begin, idle_runs_have_ended, steps_count_one, steps_leave_others,
};
use guest_input::image::{Function, Image, Start};
use guest_input::setup::Setup;
use run_evidence::laws::{boards_move, runs_append};
use std::alloc::Global;

/// The start of function n, if there are so many.
fn start_at(functions: &[Function], n: usize) -> Option<Start>
    ensures { result ≡ slice_get (starts_of functions.now) n }
{
    if n < functions.len() {
        Some(functions[n].at)
    } else {
        None
    }
}

/// The start of the function that holds a place.
fn start_of(image: &Image, table: &Table, place: Gpa) -> Option<Start>
    requires { table.now ≡ groups_of image.now }
    ensures { result ≡ start_of image.now place }
{
    let n = table.function_at(place)?;
    start_at(image.functions.as_slice(), n as usize)
}

/// Lists the function that holds a place, if there is a place and a function holds it.
fn note_place(
    image: &Image,
    table: &Table,
    tally: &mut Tally,
    listed: Listed,
    place: Option<Gpa>,
) -> Result<(), NoMemory>
    requires table { table.now ≡ groups_of image.now }
    requires within { IsWithin listed (length tally.old.used.items) }
    ensures { OnOk result (AddsPlace tally.old listed (option_and_then (start_of image.now) place) tally.new) }
{
    let Some(place) = place else {
        return Ok(());
    };
    match start_of(image, table, place) {
        Some(at) => tally.note(listed, at),
        None => Ok(()),
    }
}

/// A step of vCPU i: the place in text that it fetched, if it did.
fn step(board: &mut Board, i: VcpuNo) -> Option<Gpa>
    requires { may board.old.rules board.old.state i ≡ true }
    ensures board { board.new ≡ moved board.old i (step_of board.old.rules board.old.state i) }
    ensures place { result ≡ next_of board.old.state i }
    ensures vcpus { length board.new.state.slots ≡ length board.old.state.slots }
{
    full_steps_begin();
    steps_count_one();
    match board.step_full(i) {
        Full::Stepped(place) => place,
        Full::Over => None,
    }
}

/// A step of vCPU i, whose fetch and whose name are noted.
fn take_turn(
    alloc: Global,
    image: &Image,
    table: &Table,
    board: &mut Board,
    tally: &mut Tally,
    i: VcpuNo,
) -> Result<(), ProfileFault>
    requires table { table.now ≡ groups_of image.now }
    requires may { may board.old.rules board.old.state i ≡ true }
    requires inside { i < length board.old.state.slots }
    requires long { length tally.old.used.items ≡ length tally.old.names.items }
    ensures board { board.new ≡ moved board.old i (step_of board.old.rules board.old.state i) }
    ensures tally { OnOk result (AddsStep image.now board.old.state i (name_of board.new.state i) tally.old tally.new) }
    ensures many { result ≡ Err TooManyApps → IsTooMuchAfter image.now board.old.state i (name_of board.new.state i) tally.old }
{
    let listed = tally.listed(board.name_of(i), board.depth_of(i));
    let place = step(board, i);
    note_place(image, table, tally, listed, place)?;
    tally.meet(alloc, board.name_of(i))
}

/// Makes the round-robin run to its end: what was seen of it, and how it ended.
pub(crate) fn run(
    alloc: Global,
    image: &Image,
    table: &Table,
    setup: &Setup,
) -> Result<(Tally, End), ProfileFault>
    requires image { IsImage image.now }
    requires table { table.now ≡ groups_of image.now }
    requires setup { IsSetupFor image.now setup.now }
    ensures { Runs (unviewed image.now setup.now) result }
{
    full_steps_begin();
    steps_count_one();
    steps_leave_others();
    idle_runs_have_ended();
    boards_move();
    runs_append();
    let mut board = Board::open(alloc, image, setup)?;
    let mut tally = Tally::new(alloc);
    tally.meet(alloc, setup.start.as_ref())?;
    let mut last = VcpuNo(setup.vcpus - 1);
    while let Some(i) = next_in_turn(&board, last) {
        take_turn(alloc, image, table, &mut board, &mut tally, i)?;
        // No board makes more steps than it has room for; the call says so.
        let _steps = board.clock();
        last = i;
    }
    match board.end() {
        Some(end) => Ok((tally, end)),
        None => unreachable!(),
    }
}
