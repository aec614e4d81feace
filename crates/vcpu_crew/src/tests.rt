//! Runs of a crew of two workers, each in a thread of its own.

use crate::crew::Ran;
use crate::guests::{COUNTER, Counting, Hold, Holding, SPLIT, run};
use chain_log::entry::LogEntry;
use fc_numbers::machine::End;
use std::test::Fail;

#[test]
fn each_round_passes_its_gate_once(rt: HostRuntime) -> Result<(), Fail> {
    let gate = Counting::new();
    let ran = run(&rt, rt.alloc(), COUNTER, &gate)?;
    assert!(rt; gate.in_order());
    // A need, a fill and a turn to the end; and one of the two traps, looks up, mends, and takes another window.
    assert!(rt; gate.count(0) >= 3);
    assert!(rt; gate.count(1) >= 3);
    assert!(rt; gate.count(0).saturating_add(gate.count(1)) >= 11);
    assert!(rt; ran.board.end() == Some(End::Spent));
    assert!(rt; ran.board.clock() == 40);
    Ok(())
}

/// The worker of vCPU 0 begins only once that of vCPU 1 has.
static SECOND_FIRST: [Hold; 1] = [Hold {
    vcpu: 0,
    before: 0,
    until: 0,
}];

#[test]
fn a_worker_begins_while_another_waits_at_its_gate(rt: HostRuntime) -> Result<(), Fail> {
    let gate = Holding::new(&SECOND_FIRST);
    let ran = run(&rt, rt.alloc(), SPLIT, &gate)?;
    assert!(rt; gate.was_kept(), "vCPU 1 did not begin while vCPU 0 waited");
    assert!(rt; ran.board.end() == Some(End::Shutdown));
    assert!(rt; !ran.board.console().is_empty());
    assert!(rt; ran.views.last().is_some_and(|view| view.log().len() == 1));
    Ok(())
}

/// The worker of vCPU 0 comes to its third round after the first, in which its trap would be looked up. There it waits
/// until the worker of vCPU 1, which begins only then, has mended.
static MENDED_BETWEEN: [Hold; 2] = [
    Hold {
        vcpu: 1,
        before: 0,
        until: 3,
    },
    Hold {
        vcpu: 0,
        before: 3,
        until: 6,
    },
];

/// The entry is of vCPU 1 at clock 4, of the group of `loop`, with no caller.
fn is_of_the_second(entry: &LogEntry) -> bool {
    entry.at == 4
        && entry.vcpu.0 == 1
        && entry.view.0 == 1
        && entry.group.0 == 1
        && entry.pc.0 == 0x8000_0006
        && entry.chain.is_empty()
}

#[test]
fn a_worker_mends_while_another_stands_trapped(rt: HostRuntime) -> Result<(), Fail> {
    let gate = Holding::new(&MENDED_BETWEEN);
    let ran = run(&rt, rt.alloc(), COUNTER, &gate)?;
    assert!(rt; gate.was_kept(), "a worker was not seen to go on");
    assert!(rt; ran.board.end() == Some(End::Spent));
    // Nine times each, one more.
    let sum = ran.board.ram().bytes().get(0x2000).copied();
    assert!(rt; sum == Some(18));
    assert!(rt; ran.views.len() == 2);
    let log = ran.views.last();
    assert!(rt; log.is_some_and(|view| view.log().len() == 1));
    assert!(rt; log.is_some_and(|view| view.log().iter().all(is_of_the_second)));
    Ok(())
}
