//! Runs of several vCPUs at once: what is the same in every order, what a gate leaves open, and what refuses a run.

use crate::fixtures::{
    COUNTER, Came, FIRST, Fails, Files, LETTER, LINES, NONE_FAILS, RUN, TWENTY, call, replay_of,
    words_of,
};
use crate::gates::{Hold, HoldingGate};
use facechange_cli::command::face_change_still;
use fc_numbers::machine::End;
use fc_outside::gate::OpenGate;
use fc_outside::memory::MemStore;
use fc_outside::memory_sink::MemSink;
use std::alloc::Global;
use std::process::Abort;
use std::test::Fail;
use trace_file::reading::read_trace;

/// The trace that a call has written; none: no bytes.
fn trace_of(came: &Came) -> &[u8] {
    came.store.bytes("trace").unwrap_or(b"")
}

/// Compares the end and the number of steps of the trace that a call has written.
fn ends_after(rt: &impl Abort, alloc: Global, came: &Came, end: End, steps: usize) {
    match read_trace(alloc, trace_of(came)) {
        Ok(trace) => {
            assert!(rt; trace.end == end, "end");
            assert_eq!(rt; trace.schedule.len(), steps, "steps");
        }
        Err(_) => assert!(rt; false, "the trace could not be read"),
    }
}

/// The first worker begins only once the second has.
static SECOND_FIRST: [Hold; 1] = [Hold {
    vcpu: 0,
    before: 0,
    until: 0,
}];

#[test]
fn a_run_goes_on_while_a_worker_waits_and_its_trace_replays(rt: HostRuntime) -> Result<(), Fail> {
    let alloc = rt.alloc();
    let files = Files::new(alloc, &LETTER, TWENTY, FIRST)?;
    let gate = HoldingGate::new(&SECOND_FIRST);
    let came = call(&rt, alloc, &RUN, &files, NONE_FAILS, &gate)?;
    assert!(rt;
        gate.was_kept(),
        "the second worker did not begin while the first waited"
    );
    assert_eq!(rt; came.status, 0);
    let console = Vec::from_slice(alloc, came.out.bytes())?;
    assert!(rt; !console.is_empty());
    let again = replay_of(&rt, alloc, came, &OpenGate)?;
    again.is(&rt, "replay", 0, b"", &console);
    Ok(())
}

#[test]
fn one_vcpu_makes_all_its_steps_under_the_full_view(rt: HostRuntime) -> Result<(), Fail> {
    let alloc = rt.alloc();
    let setup = "{\"vcpus\":1,\"ram\":65536,\"steps\":100}";
    let files = Files::new(alloc, &LINES, setup, "")?;
    let came = call(&rt, alloc, &RUN, &files, NONE_FAILS, &OpenGate)?;
    came.is(&rt, "run", 0, b"", b"");
    assert!(rt; came.store.bytes("log") == Some(b"".as_slice()));
    ends_after(&rt, alloc, &came, End::Spent, 100);
    Ok(())
}

/// The one line of the log names the missing loop, about to be fetched by one vCPU or the other after its two steps.
fn logs_the_loop(log: &[u8]) -> bool {
    log.len() > 4 && log.ends_with(b" sh 0x80000006 loop+0x0 0x80000006 0x80001000\n")
}

/// However two vCPUs add to one word, nothing is lost, and the one missing function is logged once. Each trace replays.
#[test]
fn additions_add_up_in_every_order(rt: HostRuntime) -> Result<(), Fail> {
    let alloc = rt.alloc();
    let files = Files::new(alloc, &COUNTER, TWENTY, FIRST)?;
    for _ in 0..20 {
        let came = call(&rt, alloc, &RUN, &files, NONE_FAILS, &OpenGate)?;
        came.is(&rt, "run", 0, b"", b"");
        ends_after(&rt, alloc, &came, End::Spent, 40);
        assert!(rt; came.store.bytes("log").is_some_and(logs_the_loop));
        let again = replay_of(&rt, alloc, came, &OpenGate)?;
        again.is(&rt, "replay", 0, b"", b"");
    }
    Ok(())
}

/// The worker of vCPU 0 comes to the round in which its trap would be mended. There it waits until the worker of vCPU 1,
/// which begins only then, has mended.
static MENDED_BETWEEN: [Hold; 2] = [
    Hold {
        vcpu: 1,
        before: 0,
        until: 3,
    },
    Hold {
        vcpu: 0,
        before: 3,
        until: 6,
    },
];

#[test]
fn one_vcpu_mends_while_another_stands_in_a_recovery(rt: HostRuntime) -> Result<(), Fail> {
    let alloc = rt.alloc();
    let files = Files::new(alloc, &COUNTER, TWENTY, FIRST)?;
    let gate = HoldingGate::new(&MENDED_BETWEEN);
    let came = call(&rt, alloc, &RUN, &files, NONE_FAILS, &gate)?;
    assert!(rt; gate.was_kept(), "a worker was not seen to go on");
    came.is(&rt, "run", 0, b"", b"");
    ends_after(&rt, alloc, &came, End::Spent, 40);
    let log = b"4 1 sh 0x80000006 loop+0x0 0x80000006 0x80001000\n";
    assert!(rt; came.store.bytes("log") == Some(log.as_slice()));
    Ok(())
}

/// The call that promises to return does not know the words of `run`.
#[test]
fn without_threads_a_run_is_no_listed_form(rt: HostRuntime) -> Result<(), Fail> {
    let alloc = rt.alloc();
    let words = words_of(alloc, &RUN)?;
    let mut store = MemStore::new(Vec::new(alloc), Vec::new(alloc));
    let mut out = MemSink::new(alloc, 64, Vec::new(alloc))?;
    let mut err = MemSink::new(alloc, 64, Vec::new(alloc))?;
    let status = face_change_still(alloc, &words, &mut store, &mut out, &mut err);
    assert_eq!(rt; status, 2);
    assert!(rt; err.bytes() == b"2 words\n".as_slice());
    Ok(())
}

/// A call of `run` that is refused or fails.
#[derive(Clone, Copy)]
struct Failing {
    label: &'static str,
    setup: &'static str,
    fails: Fails,
    status: u8,
    line: &'static [u8],
    /// Whether the trace, and the log, were written.
    trace: bool,
    log: bool,
}

/// A read that fails: nothing is written.
fn unread(label: &'static str, read: u64, line: &'static [u8]) -> Failing {
    Failing {
        label,
        setup: TWENTY,
        fails: Fails {
            read,
            write: 0,
            out: (0, 0),
        },
        status: 7,
        line,
        trace: false,
        log: false,
    }
}

/// A write that fails: what comes before it is written.
fn unwritten(label: &'static str, write: u64, line: &'static [u8], trace: bool) -> Failing {
    Failing {
        label,
        setup: TWENTY,
        fails: Fails {
            read: 0,
            write,
            out: (0, 0),
        },
        status: 8,
        line,
        trace,
        log: false,
    }
}

/// A setup is refused; then each read, each write and the output fail once.
fn failing_runs() -> [Failing; 7] {
    [
        Failing {
            label: "nine vCPUs",
            setup: "{\"vcpus\":9,\"ram\":65536,\"steps\":20}",
            fails: NONE_FAILS,
            status: 4,
            line: b"4 setup 3 Limit vcpus\n",
            trace: false,
            log: false,
        },
        unread("image unread", 1, b"7 read image\n"),
        unread("setup unread", 2, b"7 read setup\n"),
        unread("views unread", 3, b"7 read views\n"),
        unwritten("trace unwritten", 1, b"8 write trace\n", false),
        unwritten("log unwritten", 2, b"8 write log\n", true),
        Failing {
            label: "output unwritten",
            setup: TWENTY,
            fails: Fails {
                read: 0,
                write: 0,
                out: (1, 0),
            },
            status: 8,
            line: b"8 write -\n",
            trace: true,
            log: true,
        },
    ]
}

#[test]
fn refused_and_failing_runs_have_their_lines(rt: HostRuntime) -> Result<(), Fail> {
    let alloc = rt.alloc();
    for row in failing_runs() {
        let files = Files::new(alloc, &LETTER, row.setup, FIRST)?;
        let came = call(&rt, alloc, &RUN, &files, row.fails, &OpenGate)?;
        came.is(&rt, row.label, row.status, row.line, b"");
        assert_eq!(rt;
            came.store.bytes("trace").is_some(),
            row.trace,
            "{}: trace",
            row.label
        );
        assert_eq!(rt;
            came.store.bytes("log").is_some(),
            row.log,
            "{}: log",
            row.label
        );
    }
    Ok(())
}
