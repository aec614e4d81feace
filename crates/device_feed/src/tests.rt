//! The devices on events and calls worked out by hand.

ghost use Rattle.std.specs.Prelude.{◌≤◌, length};
ghost use Rattle.guest_input.specs.Accepted.{AreEvents, IsSetup};

use crate::feed::Feed;
use crate::sbi::Sbi;
use fc_numbers::machine::GKind;
use fc_numbers::memory::NoMemory;
use fc_numbers::places::VcpuNo;
use fc_numbers::regs::Regs;
use guest_input::setup::{Event, Setup, What};
use sqlite_items::Items;
use std::alloc::Global;
use std::test::Fail;

/// A setup of two vCPUs with these events.
fn two_vcpus(events: Vec<Event>) -> Setup
    requires events { AreEvents 2 0 events.items }
    requires few { length events.items ≤ 65536 }
    ensures { IsSetup result }
{
    Setup {
        vcpus: 2,
        ram: 0x1_0000,
        steps: 100,
        hook: None,
        name_at: 0,
        start: None,
        events: Items::from_vec(events),
        gstage: GKind::Sv39x4,
    }
}

/// The answer of a call and the registers a0 and a1 after it.
fn call(feed: &mut Feed, number: (u64, u64), a0: u64, a1: u64, clock: u64) -> (Sbi, u64, u64) {
    let mut regs = Regs::new();
    regs.set(17, number.0);
    regs.set(16, number.1);
    regs.set(10, a0);
    regs.set(11, a1);
    let sbi = feed.sbi(&mut regs, VcpuNo(1), clock);
    (sbi, regs.get(10), regs.get(11))
}

#[test]
fn last_due_raise_or_drop_decides_the_external_line(rt: HostRuntime) -> Result<(), Fail> {
    let events = vec![in rt.alloc();
        Event {
            at: 3,
            what: What::Raise(VcpuNo(0))
        },
        Event {
            at: 3,
            what: What::Drop(VcpuNo(0))
        },
        Event {
            at: 3,
            what: What::Raise(VcpuNo(1))
        },
        Event {
            at: 5,
            what: What::Raise(VcpuNo(0))
        },
        Event {
            at: 7,
            what: What::Drop(VcpuNo(1))
        },
    ]?;
    let feed = Feed::open(rt.alloc(), &two_vcpus(events))?;
    for (clock, v, want) in [
        (2, 0, 0),
        (2, 1, 0),
        (3, 0, 0),
        (3, 1, 0x200),
        (5, 0, 0x200),
        (6, 1, 0x200),
        (7, 1, 0),
        (7, 0, 0x200),
        (7, 2, 0),
    ] {
        assert_eq!(rt; feed.lines(VcpuNo(v), clock), want, "vCPU {v} at {clock}");
    }
    Ok(())
}

#[test]
fn due_keys_are_taken_once_in_order(rt: HostRuntime) -> Result<(), Fail> {
    let events = vec![in rt.alloc();
        Event {
            at: 1,
            what: What::Key(65)
        },
        Event {
            at: 1,
            what: What::Raise(VcpuNo(0))
        },
        Event {
            at: 1,
            what: What::Key(66)
        },
        Event {
            at: 4,
            what: What::Key(67)
        },
    ]?;
    let mut feed = Feed::open(rt.alloc(), &two_vcpus(events))?;
    for (clock, want) in [
        (0, u64::MAX),
        (1, 65),
        (2, 66),
        (3, u64::MAX),
        (9, 67),
        (9, u64::MAX),
    ] {
        assert_eq!(rt;
            call(&mut feed, (2, 5), 1, 77, clock),
            (Sbi::Done, want, 77),
            "at {clock}"
        );
    }
    Ok(())
}

#[test]
fn timer_is_due_from_its_value_on(rt: HostRuntime) -> Result<(), Fail> {
    let mut feed = Feed::open(rt.alloc(), &two_vcpus(vec![in rt.alloc()]?))?;
    assert_eq!(rt; feed.lines(VcpuNo(1), 1000), 0);
    assert_eq!(rt;
        call(&mut feed, (0x5449_4D45, 0), 10, 77, 3),
        (Sbi::Done, 0, 0)
    );
    assert_eq!(rt; feed.timer(VcpuNo(1)), 10);
    assert_eq!(rt; feed.lines(VcpuNo(1), 9), 0);
    assert_eq!(rt; feed.lines(VcpuNo(1), 10), 0x20);
    assert_eq!(rt; feed.lines(VcpuNo(0), 10), 0);
    Ok(())
}

#[test]
fn mask_that_names_no_vcpu_sets_no_bit(rt: HostRuntime) -> Result<(), Fail> {
    let invalid = u64::MAX - 2;
    for (mask, base, want, soft) in [
        (0b101, 0, invalid, (false, false)),
        (0b10, 0, 0, (false, true)),
        (0b11, 0, 0, (true, true)),
        (1, 1, 0, (false, true)),
        (0b100, u64::MAX - 1, invalid, (false, false)),
        (0, u64::MAX, 0, (true, true)),
        (1 << 63, u64::MAX, 0, (true, true)),
        (0, 77, 0, (false, false)),
        (1 << 63, 0, invalid, (false, false)),
    ] {
        let mut feed = Feed::open(rt.alloc(), &two_vcpus(vec![in rt.alloc()]?))?;
        assert_eq!(rt;
            call(&mut feed, (0x73_5049, 0), mask, base, 0),
            (Sbi::Done, want, 0),
            "{mask} from {base}"
        );
        assert_eq!(rt;
            (feed.soft(VcpuNo(0)), feed.soft(VcpuNo(1))),
            soft,
            "{mask} from {base}"
        );
    }
    Ok(())
}

#[test]
fn other_calls_answer_by_the_table(rt: HostRuntime) -> Result<(), Fail> {
    let unsupported = (Sbi::Done, u64::MAX - 1, 0);
    for (number, want) in [
        ((1, 9), (Sbi::Put(0x41), 0, 77)),
        ((8, 9), (Sbi::Shutdown, 0x3_2141, 77)),
        ((0x10, 0), unsupported),
        ((0, 0), unsupported),
        ((0x5449_4D45, 1), unsupported),
        ((0x73_5049, 1), unsupported),
    ] {
        let mut feed = Feed::open(rt.alloc(), &two_vcpus(vec![in rt.alloc()]?))?;
        assert_eq!(rt;
            call(&mut feed, number, 0x3_2141, 77, 0),
            want,
            "{number:?}"
        );
    }
    Ok(())
}

#[test]
fn software_bit_is_the_software_line(rt: HostRuntime) -> Result<(), Fail> {
    let mut feed = Feed::open(rt.alloc(), &two_vcpus(vec![in rt.alloc()]?))?;
    feed.set_soft(VcpuNo(1), true);
    feed.set_soft(VcpuNo(2), true);
    assert_eq!(rt;
        (
            feed.lines(VcpuNo(0), 0),
            feed.lines(VcpuNo(1), 0),
            feed.lines(VcpuNo(2), 0)
        ),
        (0, 2, 0)
    );
    feed.set_soft(VcpuNo(1), false);
    assert_eq!(rt; feed.lines(VcpuNo(1), 0), 0);
    Ok(())
}
