//! A kernel of two functions on one vCPU. It calls `put`, which prints `A`, and shuts the machine down in its seventh step.

use crate::{Replayed, Rerun, replay};
use fc_numbers::machine::End;
use fc_numbers::memory::NoMemory;
use fc_numbers::places::{Gpa, VcpuNo};
use guest_board::board::Full;
use guest_image::image_file::read_image;
use guest_image::setup_file::read_setup;
use std::alloc::Global;
use std::test::Fail;

/// main: jal put; li a7, 8; ecall; nop. put: li a7, 1; li a0, 'A'; ecall; ret.
fn kernel() -> &'static [u8] {
    b"{\"base\":2147483648,\"entry\":2147483648,\"text\":\"ef00c000a148730000000100854813051004730000008280\"}"
}

fn setup() -> &'static [u8] {
    b"{\"vcpus\":1,\"ram\":65536,\"steps\":100}"
}

/// What comes of these steps; none where the files are refused, or there are too many steps for a test.
fn replayed(alloc: Global, schedule: &[VcpuNo]) -> Result<Option<Replayed>, NoMemory> {
    let Ok(image) = read_image(alloc, kernel()) else {
        return Ok(None);
    };
    let Ok(setup) = read_setup(alloc, setup(), &image) else {
        return Ok(None);
    };
    if schedule.len() > 16 {
        return Ok(None);
    }
    Ok(Some(replay(alloc, &image, &setup, schedule)?))
}

/// The run before its first step; none where the files are refused.
fn opened(alloc: Global) -> Result<Option<Rerun>, NoMemory> {
    let Ok(image) = read_image(alloc, kernel()) else {
        return Ok(None);
    };
    let Ok(setup) = read_setup(alloc, setup(), &image) else {
        return Ok(None);
    };
    Ok(Some(Rerun::open(alloc, &image, &setup)?))
}

#[test]
fn steps_are_made_as_far_as_they_exist(rt: HostRuntime) -> Result<(), Fail> {
    let alloc = rt.alloc();
    let zero = VcpuNo(0);
    let whole = replayed(alloc, &[zero; 10])?.ok_or("no run")?;
    assert_eq!(rt; whole.made, 7);
    assert_eq!(rt; whole.board.end(), Some(End::Shutdown));
    assert!(rt; whole.board.console() == b"A".as_slice());
    let part = replayed(alloc, &[zero; 3])?.ok_or("no run")?;
    assert_eq!(rt; part.made, 3);
    assert!(rt; part.board.end().is_none());
    let other = replayed(alloc, &[zero, VcpuNo(1), zero])?.ok_or("no run")?;
    assert_eq!(rt; other.made, 1);
    let empty = replayed(alloc, &[])?.ok_or("no run")?;
    assert_eq!(rt; empty.made, 0);
    Ok(())
}

#[test]
fn a_run_is_made_again_step_by_step(rt: HostRuntime) -> Result<(), Fail> {
    let alloc = rt.alloc();
    let mut rerun = opened(alloc)?.ok_or("no run")?;
    assert!(rt; matches!(rerun.step(VcpuNo(0)), Full::Stepped(Some(Gpa(0x8000_0000)))));
    assert!(rt; matches!(rerun.step(VcpuNo(0)), Full::Stepped(Some(Gpa(0x8000_000c)))));
    assert!(rt; matches!(rerun.step(VcpuNo(1)), Full::Over));
    assert_eq!(rt; rerun.board().clock(), 2);
    Ok(())
}
