//! The trace of a small run. The states are worked out by hand; the digests were taken by another program.

ghost use Rattle.std.specs.Prelude.{IsSome};

use crate::parts::{memory_digest, pages_digest, vcpu_state};
use crate::taken::trace_of_run;
use fc_numbers::machine::{End, Mode};
use fc_numbers::places::{VcpuNo, ViewNo};
use function_table::table::Table;
use guest_board::board::{Board, Full};
use guest_image::image_file::read_image;
use guest_image::setup_file::read_setup;
use std::alloc::Global;
use std::process::Abort;
use std::test::Fail;
use trace_file::state::State;
use trace_file::trace::Trace;
use view_store::view::View;

/// jal 12; li a7, 8; ecall; nop; put: li a7, 1; li a0, 65; ecall; ret
const IMAGE: &[u8] =
    b"{\"base\":2147483648,\"entry\":2147483648,\"text\":\"ef00c000a148730000000100854813051004730000008280\",\"functions\":[[2147483648,\"main\"],[2147483660,\"put\"]]}";

const SETUP: &[u8] = b"{\"vcpus\":1,\"ram\":65536,\"steps\":100}";

/// The digest of 64 KiB of memory that begin with the text, and of the page of text.
const MEMORY: &str = "e6f67307687292c8f6b974648684ff34d7c339a7cbea6b2af26db54144fb4bec";

const PAGES: &str = "a88f869ece785ed9a8a3ede8b6da3aefe61095437337ec2ae9e60ad40f8423c4";

fn image_file() -> &'static [u8] {
    IMAGE
}

fn setup_file() -> &'static [u8] {
    SETUP
}

fn memory_digits() -> &'static str {
    MEMORY
}

fn pages_digits() -> &'static str {
    PAGES
}

/// The board before its first step, and the view that has every group.
fn open(alloc: Global) -> Result<(Board, View), Fail> {
    let image = read_image(alloc, image_file())?;
    let setup = read_setup(alloc, setup_file(), &image)?;
    let table = Table::of(alloc, &image)?;
    let base = vec![in alloc; true; table.groups() as usize]?;
    let view = View::build(alloc, &image, &table, ViewNo(0), base)?;
    Ok((Board::open(alloc, &image, &setup)?, view))
}

/// The steps of vCPU 0, to its end.
fn run_out(board: &mut Board) {
    for _ in 0..100 {
        match board.step_full(VcpuNo(0)) {
            Full::Stepped(_) | Full::Over => {}
        }
    }
}

/// Whether this is the digest of these digits.
fn is_digest(alloc: Global, digest: &[u8], digits: &str) -> Result<bool, Fail> {
    Ok(hex::encode(alloc, digest)?.as_str() == digits)
}

/// The call of put left its return address; the last call asked for function 8, which ends the run.
fn has_registers(state: &State) -> bool {
    state.x1 == 0x8000_0004 && state.x10 == 0 && state.x17 == 8 && state.pc == 0x8000_0006
}

/// The mode and the status of the start; no interrupt is asked for.
fn has_mode(state: &State) -> bool {
    state.mode == Mode::Vs && state.sstatus == 2 << 32 && state.soft == 0 && state.timer == u64::MAX
}

/// Whether these are steps of vCPU 0.
fn are_of_first(schedule: &[VcpuNo]) -> bool {
    for i in schedule {
        if i.0 != 0 {
            return false;
        }
    }
    true
}

/// Compares with what was worked out.
fn is_worked_out(rt: &impl Abort, alloc: Global, trace: &Trace) -> Result<(), Fail> {
    assert_eq!(rt; trace.vcpus, 1);
    assert_eq!(rt; trace.schedule.len(), 7);
    assert!(rt; are_of_first(trace.schedule.as_slice()));
    assert_eq!(rt; trace.entries.len(), 0);
    assert!(rt; trace.end == End::Shutdown);
    assert!(rt; is_digest(alloc, trace.memory.as_slice(), memory_digits())?);
    assert_eq!(rt; trace.pages.len(), 1);
    assert!(rt; is_digest(alloc, trace.pages[0].as_slice(), pages_digits())?);
    assert_eq!(rt; trace.states.len(), 1);
    assert!(rt; has_registers(&trace.states[0]));
    assert!(rt; has_mode(&trace.states[0]));
    Ok(())
}

/// The trace of this run, which has ended.
fn traced(alloc: Global, board: &Board, view: View) -> Result<Trace, Fail>
    requires { IsSome board.now.state.end }
{
    let mut views = Vec::new(alloc);
    views.push(view)?;
    Ok(trace_of_run(alloc, board, &views)?)
}

#[test]
fn a_run_to_its_end_has_its_trace(rt: HostRuntime) -> Result<(), Fail> {
    let alloc = rt.alloc();
    let (mut board, view) = open(alloc)?;
    run_out(&mut board);
    match board.end() {
        Some(_) => is_worked_out(&rt, alloc, &traced(alloc, &board, view)?),
        None => Err("the run goes on")?,
    }
}

/// Before the first step: the number of a vCPU is in a0, and memory and pages are those of the image.
#[test]
fn parts_are_told_at_any_time(rt: HostRuntime) -> Result<(), Fail> {
    let alloc = rt.alloc();
    let (board, view) = open(alloc)?;
    assert_eq!(rt; board.vcpus(), 1);
    let pc = vcpu_state(&board, VcpuNo(0)).pc;
    assert_eq!(rt; pc, 0x8000_0000);
    assert!(rt; is_digest(alloc, &memory_digest(board.ram()), memory_digits())?);
    assert!(rt; is_digest(alloc, &pages_digest(alloc, &view)?, pages_digits())?);
    Ok(())
}
