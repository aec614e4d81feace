//! Runs of a core by lists of events, and a turn on its own. What they come to was worked out by hand.

ghost use Rattle.std.specs.Prelude.{◌≡◌, ◌<◌, IfOk, length};
ghost use Rattle.function_table.specs.Groups.{groups_of};
ghost use Rattle.guest_input.specs.Accepted.{IsImage, IsSetupFor};
ghost use Rattle.view_file.specs.Fits.{IsViewsFor};
ghost use Rattle.vcpu_core.specs.Stages.{AreStagesFor};

use crate::kernels::{Entry, Files, Row, rows, spin, split};
use crate::lane::{Lane, Phase, Then, Turned, Went};
use crate::machine::Core;
use crate::open::start_stages;
use crate::rows::turn;
use arrayvec::ArrayVec;
use chain_log::entry::LogEntry;
use fc_numbers::machine::{End, GKind};
use fc_numbers::places::{Gpa, VcpuNo, ViewNo};
use fc_numbers::window::Window;
use function_table::table::Table;
use guest_board::board::Board;
use guest_board::seen::Windows;
use guest_image::image_file::read_image;
use guest_image::setup_file::read_setup;
use guest_input::image::Image;
use guest_input::setup::Setup;
use std::alloc::Global;
use std::process::Abort;
use std::test::Fail;
use view_file::read::read_views;
use view_file::views::Views;
use view_store::view::View;

/// What a run is made of.
#[derive(Drop)]
struct Parts {
    image: Image,
    setup: Setup,
    table: Table,
    profile: Views,
}

/// The parts that these files give.
fn read(alloc: Global, files: Files) -> Result<Parts, Fail>
    ensures image { IfOk result (λ parts. IsImage parts.image) }
    ensures setup { IfOk result (λ parts. IsSetupFor parts.image parts.setup) }
    ensures table { IfOk result (λ parts. parts.table ≡ groups_of parts.image) }
    ensures views { IfOk result (λ parts. IsViewsFor parts.profile parts.image) }
{
    let image = read_image(alloc, files.image.as_bytes())?;
    let setup = read_setup(alloc, files.setup.as_bytes(), &image)?;
    let table = Table::of(alloc, &image)?;
    let profile = read_views(alloc, files.views.as_bytes(), &image, &table)?;
    Ok(Parts {
        image,
        setup,
        table,
        profile,
    })
}

/// What a run came to: a letter for each event, and the board and the views at the end.
#[derive(Drop)]
struct Played {
    answers: Vec<u8>,
    board: Board,
    views: Vec<View>,
}

/// The most rounds of all vCPUs behind the events.
const ROUNDS: u32 = 2000;

fn letter(went: Went) -> u8 {
    match went {
        Went::Over => b'o',
        Went::Stepped => b's',
        Went::Erased => b'e',
    }
}

/// The letters of these events.
fn letters(alloc: Global, core: &mut Core, events: &str) -> Result<Vec<u8>, Fail> {
    let mut letters = Vec::new(alloc);
    for digit in events.as_bytes() {
        let went = core.go(VcpuNo(digit.saturating_sub(b'0')));
        letters.push(letter(went))?;
    }
    Ok(letters)
}

/// One event of each vCPU; whether one of them could go on.
fn go_round(core: &mut Core, count: u8) -> bool {
    let mut some = false;
    for i in 0..count {
        if core.go(VcpuNo(i)) != Went::Over {
            some = true;
        }
    }
    some
}

/// Events of each vCPU in turn, until none may step.
fn run_out(core: &mut Core, count: u8) {
    for _ in 0..ROUNDS {
        if !go_round(core, count) {
            break;
        }
    }
}

/// The run of these files by these events.
fn play(alloc: Global, files: Files, events: &str) -> Result<Played, Fail> {
    let parts = read(alloc, files)?;
    let mut core = Core::open(
        alloc,
        &parts.image,
        &parts.table,
        &parts.setup,
        &parts.profile,
    )?;
    let answers = letters(alloc, &mut core, events)?;
    run_out(&mut core, parts.setup.vcpus);
    let (board, views) = core.into_parts();
    Ok(Played {
        answers,
        board,
        views,
    })
}

/// Whether the schedule begins with the vCPUs of these digits.
fn begins(schedule: &[VcpuNo], digits: &[u8]) -> bool {
    for (k, digit) in digits.iter().enumerate() {
        match schedule.get(k) {
            Some(i) => if i.0 != digit.saturating_sub(b'0') {
                return false;
            },
            None => return false,
        }
    }
    true
}

/// Whether these are the places.
fn are_places(chain: &[Gpa], wanted: &[u64]) -> bool {
    for (k, place) in wanted.iter().enumerate() {
        match chain.get(k) {
            Some(found) => if found.0 != *place {
                return false;
            },
            None => return false,
        }
    }
    chain.len() == wanted.len()
}

fn is_entry(entry: &LogEntry, wanted: &Entry) -> bool {
    entry.at == wanted.at
        && entry.vcpu.0 == wanted.vcpu
        && entry.group.0 == wanted.group
        && entry.pc.0 == wanted.pc
        && are_places(entry.chain.as_slice(), wanted.chain)
}

/// Whether these are the entries.
fn are_entries(log: &[LogEntry], wanted: &[Entry]) -> bool {
    for (k, entry) in wanted.iter().enumerate() {
        match log.get(k) {
            Some(found) => if !is_entry(found, entry) {
                return false;
            },
            None => return false,
        }
    }
    log.len() == wanted.len()
}

impl Played {
    /// Compares with what was worked out.
    fn is(&self, rt: &impl Abort, row: &Row) {
        let label = row.label;
        assert!(rt;
            self.answers.as_slice() == row.answers.as_bytes(),
            "{label}: answers"
        );
        assert!(rt;
            begins(self.board.schedule(), row.schedule.as_bytes()),
            "{label}: schedule"
        );
        assert_eq!(rt; self.board.clock(), row.clock, "{label}: clock");
        assert!(rt; self.board.end() == Some(row.end), "{label}: end");
        assert!(rt; self.board.console() == row.console, "{label}: console");
        let last = self.views.last();
        assert!(rt;
            last.is_some_and(|view| are_entries(view.log(), row.log)),
            "{label}: log"
        );
    }
}

#[test]
fn runs_go_as_worked_out(rt: HostRuntime) -> Result<(), Fail> {
    for row in rows() {
        let played = play(rt.alloc(), row.files, row.events)?;
        played.is(&rt, row);
    }
    Ok(())
}

/// A lane of vCPU 0 under the full view, with one window of the first line, whose halfwords are all a jump to itself.
fn lone_lane() -> Lane
    ensures vcpu { result.vcpu ≡ 0 }
    ensures phase { result.phase ≡ Phase.Running }
{
    let mut held = ArrayVec::new();
    held.push(Window {
        line: 0,
        halves: [0xa001; 33],
    });
    Lane {
        vcpu: VcpuNo(0),
        windows: Windows {
            view: ViewNo(0),
            held,
            cleared: None,
        },
        phase: Phase::Running,
    }
}

#[test]
fn a_turn_ends_at_its_limit_and_where_no_step_is_left(rt: HostRuntime) -> Result<(), Fail> {
    let alloc = rt.alloc();
    let parts = read(alloc, spin())?;
    let mut board = Board::open(alloc, &parts.image, &parts.setup)?;
    let stages = start_stages(alloc, board.ram(), &parts.profile, GKind::Sv39x4)?;
    let mut lane = lone_lane();
    assert!(rt; board.vcpus() == 1);
    let first = turn(&mut board, &parts.profile, &stages, &mut lane, 30);
    assert!(rt; first.steps == 30);
    assert!(rt; first.then == Then::Limit);
    assert!(rt; board.vcpus() == 1);
    assert!(rt; matches!(lane.phase, Phase::Running));
    assert!(rt; lane.vcpu.0 == 0);
    let last = turn(&mut board, &parts.profile, &stages, &mut lane, 1000);
    assert!(rt; last.steps == 70);
    assert!(rt; last.then == Then::Over);
    assert!(rt; board.end() == Some(End::Spent));
    Ok(())
}

#[test]
fn a_row_of_events_makes_needs_and_fills_and_ends_at_its_limit(
    rt: HostRuntime,
) -> Result<(), Fail> {
    let alloc = rt.alloc();
    let parts = read(alloc, spin())?;
    let mut core = Core::open(
        alloc,
        &parts.image,
        &parts.table,
        &parts.setup,
        &parts.profile,
    )?;
    // The need of the line, its fill and 100 steps: 12 rows of 8 events and one of 6.
    let mut last = 0;
    let mut of_last = 0;
    for row in 1..20 {
        let made = core.go_on(VcpuNo(0), 8);
        if made != 0 {
            last = row;
            of_last = made;
        }
    }
    assert!(rt; last == 13);
    assert!(rt; of_last == 6);
    assert!(rt; core.end() == Some(End::Spent));
    Ok(())
}

#[test]
fn a_row_of_events_ends_at_a_trap_and_with_the_run(rt: HostRuntime) -> Result<(), Fail> {
    let alloc = rt.alloc();
    let parts = read(alloc, split())?;
    let mut core = Core::open(
        alloc,
        &parts.image,
        &parts.table,
        &parts.setup,
        &parts.profile,
    )?;
    // A need, its fill, the call, and the zero of `w`.
    assert_eq!(rt; core.go_on(VcpuNo(0), 100), 4);
    // The look-up, and the mend.
    assert_eq!(rt; core.go_on(VcpuNo(0), 100), 1);
    assert_eq!(rt; core.go_on(VcpuNo(0), 100), 1);
    // A need, its fill, and a step; a need of the next line, its fill, and five steps, of which the last shuts down.
    assert_eq!(rt; core.go_on(VcpuNo(0), 100), 10);
    assert_eq!(rt; core.go_on(VcpuNo(0), 100), 0);
    assert!(rt; core.end() == Some(End::Shutdown));
    assert!(rt; core.console() == b"A".as_slice());
    Ok(())
}
