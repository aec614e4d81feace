//! Runs of several vCPUs by scripts, worked out by hand: the console, the log and the trace; and what refuses a run.

use crate::drive_tables::{
    STALE_LOG, STALE_SCRIPT, TWENTY, TWENTY_BY_FOUR, adding_scripts, failing_runs, refused_runs,
    runs,
};
use crate::fixtures::{DRIVE, Guest, NONE_FAILS, Wanted, trace_of, words_of};
use crate::kernels::{ADDS, UNMAPPED, WIDE};
use crate::try_tables::FIRST;
use facechange_cli::command::face_change_still;
use fc_numbers::machine::End;
use fc_outside::memory_sink::MemSink;
use fc_outside::outside::{ReadNo, Store, WriteFailed};
use std::alloc::Global;
use std::process::Abort;
use std::test::Fail;
use trace_file::fault::TraceFault;
use trace_file::reading::read_trace;
use trace_file::trace::Trace;

/// The digest of 64 KiB of memory with the text of the kernel that adds and, at 0x80002000, the number 18.
const EIGHTEEN: &str = "1b23c6ba486e75fb4c59ec7479f3df1987b40e7377b880f148bacc6759787547";

/// Compares the runs of a schedule with those that were worked out.
fn has_runs(rt: &impl Abort, label: &str, trace: &Trace, runs: &[(u8, usize)]) {
    let mut at = 0;
    for (vcpu, steps) in runs {
        for _ in 0..*steps {
            let made = trace.schedule.get(at).map(|i| i.0);
            assert_eq!(rt; made, Some(*vcpu), "{label}: step {at}");
            at = at.saturating_add(1);
        }
    }
    assert_eq!(rt; trace.schedule.len(), at, "{label}: steps");
}

/// What the replay of a run comes to: its console and its status, and no log.
fn replay_of(run: &Wanted) -> Wanted {
    Wanted {
        status: run.status,
        console: run.console,
        log: None,
        line: run.line,
    }
}

/// The full kernel, run by the trace, writes the same and ends alike.
#[test]
fn scripts_run_as_worked_out(rt: HostRuntime) -> Result<(), Fail> {
    let alloc = rt.alloc();
    for row in runs() {
        let guest = Guest::new(alloc, &row.kernel, row.shared, row.apps)?;
        let came = guest.drive(alloc, row.setup, row.script)?;
        came.is(&rt, row.label, &row.wanted);
        let trace = read_trace(alloc, trace_of(&came))?;
        has_runs(&rt, row.label, &trace, row.runs);
        assert!(rt; trace.end == row.end, "{}: end", row.label);
        let replayed = guest.replay(alloc, row.setup, trace_of(&came))?;
        let label = format!(in alloc; "{}, replayed", row.label)?;
        replayed.is(&rt, label.as_str(), &replay_of(&row.wanted));
    }
    Ok(())
}

/// The kernel of the first run, whose views lack `w`.
fn stale_guest(alloc: Global) -> Result<Guest, Fail> {
    Guest::new(alloc, &WIDE, "", FIRST)
}

/// A second stage of four levels changes no byte of console, log and trace.
#[test]
fn both_second_stages_give_one_trace(rt: HostRuntime) -> Result<(), Fail> {
    let alloc = rt.alloc();
    let guest = stale_guest(alloc)?;
    let wanted = Wanted {
        status: 0,
        console: b"AA",
        log: Some(STALE_LOG),
        line: b"",
    };
    let three = guest.drive(alloc, TWENTY, STALE_SCRIPT)?;
    three.is(&rt, "three levels", &wanted);
    let four = guest.drive(alloc, TWENTY_BY_FOUR, STALE_SCRIPT)?;
    four.is(&rt, "four levels", &wanted);
    assert!(rt; !trace_of(&three).is_empty());
    assert!(rt; trace_of(&three) == trace_of(&four));
    Ok(())
}

/// Whatever the order, each of the two adds nine times to one word, and the missing function is logged once.
#[test]
fn every_order_adds_up(rt: HostRuntime) -> Result<(), Fail> {
    let alloc = rt.alloc();
    let guest = Guest::new(alloc, &ADDS, "", FIRST)?;
    let digest = hex::decode(alloc, EIGHTEEN.as_bytes())?;
    for script in adding_scripts() {
        let came = guest.drive(alloc, TWENTY, script)?;
        assert_eq!(rt; came.status, 0, "{script}: status");
        let trace = read_trace(alloc, trace_of(&came))?;
        assert!(rt; trace.end == End::Spent, "{script}: end");
        assert!(rt;
            trace.memory.as_slice() == digest.as_slice(),
            "{script}: memory"
        );
        assert_eq!(rt; trace.entries.len(), 1, "{script}: entries");
        let log = came.store.bytes("log").unwrap_or(b"");
        assert!(rt;
            log.ends_with(b" sh 0x80000006 loop+0x0 0x80000006 0x80001000\n"),
            "{script}: log"
        );
        let replayed = guest.replay(alloc, TWENTY, trace_of(&came))?;
        assert_eq!(rt; replayed.status, 0, "{script}: replay");
    }
    Ok(())
}

#[test]
fn refused_setups_and_scripts_have_their_lines(rt: HostRuntime) -> Result<(), Fail> {
    let alloc = rt.alloc();
    let guest = Guest::new(alloc, &UNMAPPED, "", FIRST)?;
    for row in refused_runs() {
        let came = guest.drive(alloc, row.setup, row.script)?;
        let wanted = Wanted {
            status: row.status,
            console: b"",
            log: None,
            line: row.line,
        };
        came.is(&rt, row.label, &wanted);
        assert!(rt; came.store.bytes("trace") == None, "{}: trace", row.label);
    }
    Ok(())
}

/// The most steps that a setup may ask for.
#[test]
fn sixteen_million_steps_are_accepted(rt: HostRuntime) -> Result<(), Fail> {
    let alloc = rt.alloc();
    let guest = stale_guest(alloc)?;
    let setup = "{\"vcpus\":8,\"ram\":65536,\"steps\":2097152}";
    let came = guest.drive(alloc, setup, "")?;
    assert_eq!(rt; came.status, 0);
    assert!(rt; came.out.bytes() == b"AAAAAAAA".as_slice());
    Ok(())
}

#[test]
fn failing_calls_of_a_driven_run_have_their_lines(rt: HostRuntime) -> Result<(), Fail> {
    let alloc = rt.alloc();
    let guest = stale_guest(alloc)?;
    for row in failing_runs() {
        let came = guest.call(alloc, &DRIVE, TWENTY, STALE_SCRIPT, row.fails)?;
        came.is(&rt, row.label, &row.wanted);
        let trace = came.store.bytes("trace").is_some();
        assert_eq!(rt; trace, row.trace, "{}: trace", row.label);
    }
    Ok(())
}

/// Where trace and log are one file, it holds the log, which is written last.
#[test]
fn one_file_for_trace_and_log_holds_the_log(rt: HostRuntime) -> Result<(), Fail> {
    let alloc = rt.alloc();
    let guest = stale_guest(alloc)?;
    let words = ["drive", "image", "setup", "views", "script", "log", "log"];
    let came = guest.call(alloc, &words, TWENTY, STALE_SCRIPT, NONE_FAILS)?;
    let wanted = Wanted {
        status: 0,
        console: b"AA",
        log: Some(STALE_LOG),
        line: b"",
    };
    came.is(&rt, "one file", &wanted);
    Ok(())
}

/// A store that does not tell what it holds, and says of each file that it is over the limit.
#[derive(Drop)]
struct Overfull;

impl Store for Overfull {
    ghost use Rattle.std.specs.Prelude.{None, []};

    ghost files = { λ _. None };

    ghost reads = { λ _. record { count = 0; last = [] } };

    ghost writes = { λ _. record { count = 0; last = [] } };

    fn read(&mut self, _alloc: Global, _name: &str, _limit: usize) -> Result<Vec<u8>, ReadNo> {
        Err(ReadNo::TooLong)
    }

    fn write(&mut self, _name: &str, _bytes: &[u8]) -> Result<(), WriteFailed> {
        Ok(())
    }
}

#[test]
fn a_file_over_the_limit_is_refused(rt: HostRuntime) -> Result<(), Fail> {
    let alloc = rt.alloc();
    let words = words_of(alloc, &DRIVE)?;
    let mut out = MemSink::new(alloc, 16, Vec::new(alloc))?;
    let mut err = MemSink::new(alloc, 64, Vec::new(alloc))?;
    let status = face_change_still(alloc, &words, &mut Overfull, &mut out, &mut err);
    assert_eq!(rt; status, 3);
    assert!(rt; err.bytes() == b"3 image 0 TooLong\n".as_slice());
    Ok(())
}

/// The trace of the first run, with less and with more behind it.
#[test]
fn every_front_part_of_a_trace_is_refused(rt: HostRuntime) -> Result<(), Fail> {
    let alloc = rt.alloc();
    let came = stale_guest(alloc)?.drive(alloc, TWENTY, STALE_SCRIPT)?;
    let trace = trace_of(&came);
    for size in 0..trace.len() {
        let wanted = if size < 9 {
            TraceFault::NotTrace
        } else {
            TraceFault::Truncated(size as u64)
        };
        let fault = read_trace(alloc, &trace[..size]).err();
        assert!(rt; fault == Some(wanted), "the first {size} bytes");
    }
    let mut longer = Vec::from_slice(alloc, trace)?;
    longer.push(0)?;
    assert!(rt; read_trace(alloc, &longer).err() == Some(TraceFault::Trailing));
    Ok(())
}
