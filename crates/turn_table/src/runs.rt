//! What the tests use: a small run of two vCPUs, a step of one, and two threads with a pass each.

ghost use Rattle.std.specs.Prelude.{◌≡◌, ◌<◌, ◌+◌, ℕ, [], None, Some, true, false, IfOk, OnOk, IfSome, length, slice_index_or};
ghost use Rattle.function_table.specs.Groups.{groups_of, groups_count, group_at};
ghost use Rattle.guest_input.specs.declared.image.Image.{Image};
ghost use Rattle.guest_board.specs.Board.{may, moved, step_of, next_of};
ghost use Rattle.guest_input.specs.Accepted.{IsImage};
ghost use Rattle.guest_input.specs.declared.setup.Setup.{Setup};
ghost use Rattle.view_file.specs.Fits.{IsViewsFor};
ghost use Rattle.run_evidence.specs.Config.{Config};
ghost use Rattle.run_evidence.specs.Growing.{views_count, logs_of};
ghost use Rattle.turn_table.specs.Rule.{config_of};
ghost use Rattle.turn_table.specs.Steps.{first_known, own};
ghost use Rattle.turn_table.specs.Passes.{HoldsNothing, IsBeside, IsPassOf, config_in, known};
ghost use Rattle.turn_table.specs.Tried.{IsRunOfTwoVcpus, IsStepped, WentOn, fresh_views};

use crate::pass::{Pass, Turns};
use fc_numbers::memory::NoMemory;
use fc_numbers::places::{Gpa, VcpuNo, ViewNo};
use function_table::table::Table;
use guest_board::board::{Board, Full};
use guest_image::image_file::read_image;
use guest_image::setup_file::read_setup;
use guest_input::image::Image;
use guest_input::setup::Setup;
use std::alloc::Global;
use std::process::Abort;
use std::sync::Wait;
use std::sync::atomic::AtomicU64;
use std::sync::atomic::Ordering::SeqCst;
use std::thread::{Threads, join, yield_now};
use view_file::read::read_views;
use view_file::views::Views;
use view_store::view::View;

/// At 0, `main`: jal w; li a7, 8; ecall; then no-operations. At 62, `w`, whose first instruction has its halves in two
/// lines: li a0, 'A'; li a7, 1; ecall; ret.
const IMAGE: &str =
    "{\"base\":2147483648,\"entry\":2147483648,\"text\":\"ef00e003a1487300000001000100010001000100010001000100010001000100010001000100010001000100010001000100010001000100010001000100130510048548730000008280\",\"functions\":[[2147483648,\"main\"],[2147483710,\"w\"]]}";

/// The app `sh` was seen to use `main` alone.
const VIEWS: &str =
    "{\"version\":1,\"text\":\"cb628332b121cea912ba015f582ad90b9e779817e0bf823aaef9e974d23ab530\",\"shared\":[],\"apps\":[{\"name\":\"sh\",\"functions\":[0]}]}";

const SETUP: &str = "{\"vcpus\":2,\"ram\":65536,\"steps\":20,\"start\":\"sh\"}";

/// How often a thread yields while it waits for the other. It says so where that was not enough.
const YIELDS: u32 = 2_000_000;

/// Each view with its base and an empty log.
#[tactic(auto, unfolding(crate::specs::Tried::fresh_views), using(crate::proofs::Trying::base_of_long))]
fn first_views(
    alloc: Global,
    image: &Image,
    profile: &Views,
    groups: &Table,
) -> Result<Vec<View>, NoMemory>
    requires image { IsImage image.now }
    requires views { IsViewsFor profile.now image.now }
    requires groups { groups.now ≡ groups_of image.now }
    ensures { (setup : Setup) → IfOk result (λ views.
        views.items ≡ fresh_views (record { image = image.now; setup = setup; views = profile.now }) (length profile.now.apps + 1)) }
{
    let count = profile.apps.as_slice().len() as u8 + 1;
    let mut views = Vec::new(alloc);
    for v in 0..count {
        let view = ViewNo(v);
        let base = profile.base(alloc, view, groups)?;
        views.push(View::build(alloc, image, groups, view, base)?)?;
    }
    Ok(views)
}

/// What the run is made of.
fn fixture(alloc: Global) -> Result<Option<(Image, Setup, Table, Views)>, NoMemory>
    ensures { IfOk result (λ o. IfSome o (λ t. IsRunOfTwoVcpus t.0 t.1 t.2 t.3)) }
{
    let Ok(image) = read_image(alloc, IMAGE.as_bytes()) else {
        return Ok(None)
    };
    let Ok(setup) = read_setup(alloc, SETUP.as_bytes(), &image) else {
        return Ok(None)
    };
    let groups = Table::of(alloc, &image)?;
    let Ok(profile) = read_views(alloc, VIEWS.as_bytes(), &image, &groups) else {
        return Ok(None)
    };
    if setup.vcpus != 2 || profile.apps.len() < 1 {
        return Ok(None);
    }
    Ok(Some((image, setup, groups, profile)))
}

fn open_run(
    alloc: Global,
    image: &Image,
    setup: &Setup,
    groups: &Table,
    profile: &Views,
) -> Result<(Turns, Pass), NoMemory>
    requires { IsRunOfTwoVcpus image.now setup.now groups.now profile.now }
    ensures { let c : Config = record { image = image.now; setup = setup.now; views = profile.now } in
        IfOk result (λ t. (config_in t.0 ≡ c) × IsPassOf t.0 t.1 × (known t.1 ≡ first_known c [] (logs_of (fresh_views c (views_count c))))) }
{
    let board = Board::open(alloc, image, setup)?;
    let views = first_views(alloc, image, profile, groups)?;
    Turns::open(alloc, image, setup, profile, board, views)
}

fn full_step(board: &mut Board, i: VcpuNo) -> Option<Gpa>
    requires { may board.old.rules board.old.state i ≡ true }
    ensures after { board.new ≡ moved board.old i (step_of board.old.rules board.old.state i) }
    ensures place { result ≡ next_of board.old.state i }
{
    match board.step_full(i) {
        Full::Over => unreachable!(),
        Full::Stepped(place) => place,
    }
}

fn in_base(base: &[bool], groups: &Table, place: Option<Gpa>) -> bool
    requires { length base.now ≡ groups_count groups.now }
    ensures { result ≡ true → (p : ℕ) → place ≡ Some p → slice_index_or base.now (group_at groups.now p) false ≡ true }
{
    match place {
        None => true,
        Some(place) => match groups.group_of(place) {
            None => false,
            Some(group) => base[group.0 as usize],
        },
    }
}

/// One full step of vCPU i, where its fetch is of a group in the base of its view.
#[tactic(auto, using(crate::proofs::Trying::base_of_long))]
fn stepped(
    alloc: Global,
    mut board: Board,
    i: VcpuNo,
    profile: &Views,
    groups: &Table,
) -> Result<Option<Board>, NoMemory>
    requires views { (image : Image) × IsViewsFor profile.now image × (groups.now ≡ groups_of image) }
    ensures { IfOk result (λ o. IfSome o (λ b. IsStepped board b i profile.now groups.now)) }
{
    if !board.may(i) {
        return Ok(None);
    }
    let view = profile.choose(board.name_of(i));
    let base = profile.base(alloc, view, groups)?;
    let place = full_step(&mut board, i);
    if in_base(base.as_slice(), groups, place) {
        Ok(Some(board))
    } else {
        Ok(None)
    }
}

/// The pass takes the board, makes one step of its vCPU, and gives it back.
fn go_once<R: Wait + Abort>(
    rt: &R,
    alloc: Global,
    turns: &Turns,
    pass: &mut Pass,
    i: VcpuNo,
    profile: &Views,
    groups: &Table,
) -> Result<(), NoMemory>
    requires same { IsPassOf turns.now pass.old }
    requires free { HoldsNothing pass.old }
    requires own { own (known pass.old) ≡ i }
    requires views { (image : Image) × IsViewsFor profile.now image × (groups.now ≡ groups_of image) × ((config_of (known pass.old)).image ≡ image) × ((config_of (known pass.old)).views ≡ profile.now) }
    ensures same { IsBeside pass.old pass.new }
    ensures went { OnOk result (WentOn (known pass.old) (known pass.new)) }
{
    let board = turns.take_board(rt, pass);
    let board = stepped(alloc, board, i, profile, groups)?;
    assert!(rt; board.is_some());
    match board {
        None => {}
        Some(board) => turns.give_board(pass, board),
    }
    Ok(())
}

/// Holds the board, says so, and waits until the other thread gave view 1 back.
fn hold_board<W: Wait>(
    rt: &W,
    turns: &Turns,
    mut pass: Pass,
    held: &AtomicU64,
    given: &AtomicU64,
) -> (Pass, bool)
    requires same { IsPassOf turns.now pass }
    requires free { HoldsNothing pass }
    ensures same { IsPassOf turns.now result.0 }
    ensures went { WentOn (known pass) (known result.0) }
{
    let board = turns.take_board(rt, &mut pass);
    held.store(1, SeqCst);
    let mut seen = false;
    for _ in 0..YIELDS {
        if given.load(SeqCst) == 1 {
            seen = true;
            break;
        }
        yield_now();
    }
    turns.give_board(&mut pass, board);
    (pass, seen)
}

/// Waits until the board is held, takes view 1 and gives it back unchanged. It says so where the board was held: or it
/// might be done before the other thread takes the board.
fn visit_view<W: Wait>(
    rt: &W,
    turns: &Turns,
    mut pass: Pass,
    held: &AtomicU64,
    given: &AtomicU64,
) -> Pass
    requires same { IsPassOf turns.now pass }
    requires free { HoldsNothing pass }
    requires view { 1 < views_count (config_in turns.now) }
    ensures same { IsPassOf turns.now result }
    ensures went { WentOn (known pass) (known result) }
{
    let mut out = 0;
    for _ in 0..YIELDS {
        if held.load(SeqCst) == 1 {
            out = 1;
            break;
        }
        yield_now();
    }
    let view = turns.take_view(rt, &mut pass, ViewNo(1));
    turns.give_view(&mut pass, view);
    given.store(out, SeqCst);
    pass
}

fn beside<R: Threads + Wait + Sync>(
    rt: &R,
    turns: &Turns,
    one: Pass,
    two: Pass,
) -> (Pass, Pass, bool)
    requires same { IsPassOf turns.now one × IsPassOf turns.now two }
    requires free { HoldsNothing one × HoldsNothing two }
    requires view { 1 < views_count (config_in turns.now) }
    ensures same { IsPassOf turns.now result.0 × IsPassOf turns.now result.1 }
    ensures one { WentOn (known one) (known result.0) }
    ensures two { WentOn (known two) (known result.1) }
{
    let held = AtomicU64::new(0);
    let given = AtomicU64::new(0);
    let out = &held;
    let back = &given;
    let ((one, seen), two) = join(
        rt,
        move || -> (Pass, bool)
            requires { IsPassOf turns.now one × HoldsNothing one }
            ensures { IsPassOf turns.entry.now result.0 × WentOn (known one) (known result.0) }
        { hold_board(rt, turns, one, out, back) },
        move || -> Pass
            requires { IsPassOf turns.now two × HoldsNothing two × (1 < views_count (config_in turns.now)) }
            ensures { IsPassOf turns.entry.now result × WentOn (known two) (known result) }
        { visit_view(rt, turns, two, out, back) },
    );
    (one, two, seen)
}

/// Two passes on one thread, each of which makes one step of its vCPU.
pub fn step_each<R: Wait + Abort>(
    rt: &R,
    alloc: Global,
) -> Result<Option<(Board, Vec<View>)>, NoMemory> {
    let Some((image, setup, groups, profile)) = fixture(alloc)? else {
        return Ok(None)
    };
    let (turns, mut one) = open_run(alloc, &image, &setup, &groups, &profile)?;
    let mut two = turns.split(&mut one);
    go_once(rt, alloc, &turns, &mut one, VcpuNo(0), &profile, &groups)?;
    go_once(rt, alloc, &turns, &mut two, VcpuNo(1), &profile, &groups)?;
    turns.join(&mut one, two);
    Ok(Some(turns.close(one)))
}

/// Two passes on two threads, of which one holds the board while the other visits a view; and whether it did.
pub fn hold_and_visit<R: Threads + Wait + Sync>(
    rt: &R,
    alloc: Global,
) -> Result<Option<(Board, Vec<View>, bool)>, NoMemory> {
    let Some((image, setup, groups, profile)) = fixture(alloc)? else {
        return Ok(None)
    };
    let (turns, mut one) = open_run(alloc, &image, &setup, &groups, &profile)?;
    let two = turns.split(&mut one);
    let (mut one, two, seen) = beside(rt, &turns, one, two);
    turns.join(&mut one, two);
    let (board, views) = turns.close(one);
    Ok(Some((board, views, seen)))
}
