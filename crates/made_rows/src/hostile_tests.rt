//! Hostile guests, driven under a view of one function, and replayed.

use crate::fixtures::{
    Came, bytes_of, call, digest_of, image_text, lines_of, setup_text, store_of,
};
use crate::hostile_tables::{digests, stopped};
use fc_outside::memory::MemStore;
use guest_maker::make_hostile;
use std::alloc::Global;
use std::process::Abort;
use std::test::Fail;

/// The factor and the addend of the generator of made guests.
const FACTOR: u64 = 6_364_136_223_846_793_005;

const ADDEND: u64 = 1_442_695_040_888_963_407;

/// A script of 1,000 events of three vCPUs, drawn by the generator of made guests, which begins with this number.
fn script(alloc: Global, seed: u64) -> Result<String, Fail> {
    let mut script = String::new(alloc);
    let mut state = seed;
    for _ in 0..1000 {
        state = state.wrapping_mul(FACTOR).wrapping_add(ADDEND);
        let drawn = state / 0x2_0000_0000;
        let digit = match drawn % 3 {
            0 => "0",
            1 => "1",
            _ => "2",
        };
        script.push_str(digit)?;
    }
    Ok(script)
}

/// The views with the app of a hostile guest, which lists the first function alone.
fn views(alloc: Global, digest: &[u8]) -> Result<String, Fail> {
    let digest = hex::encode(alloc, digest)?;
    Ok(format!(in alloc;
        "{{\"version\":1,\"text\":\"{digest}\",\"shared\":[],\"apps\":[{{\"name\":\"sh\",\"functions\":[0]}}]}}"
    )?)
}

/// That no view has restored a group twice, by the lines of a log.
fn has_no_group_twice(rt: &impl Abort, alloc: Global, log: &[u8]) -> Result<(), Fail> {
    let lines = lines_of(alloc, log)?;
    for (at, line) in lines.iter().enumerate() {
        for (before, other) in lines.iter().enumerate() {
            assert!(rt;
                before == at || other.app != line.app || other.start != line.start,
                "{} {} twice",
                line.app,
                line.start
            );
        }
    }
    Ok(())
}

/// The line of a guest; it is empty, and the status is 0, unless the guest is stopped.
fn line_of(number: usize) -> &'static [u8] {
    for (at, line) in stopped() {
        if *at == number {
            return *line;
        }
    }
    b""
}

/// A store with the files of the hostile guest of a number.
fn store(alloc: Global, seed: u64) -> Result<MemStore, Fail> {
    let (image, setup) = make_hostile(alloc, seed)?;
    let file = image_text(alloc, &image)?;
    let given = setup_text(alloc, &image, &setup, setup.steps)?;
    let views = views(alloc, image.digest.as_slice())?;
    let script = script(alloc, seed)?;
    let files = [
        ("image", file.as_bytes()),
        ("setup", given.as_bytes()),
        ("views", views.as_bytes()),
        ("script", script.as_bytes()),
    ];
    store_of(alloc, &files)
}

/// That the replay of the trace in a store ends as the run that wrote it.
fn is_replayed(
    rt: &impl Abort,
    alloc: Global,
    label: &str,
    store: &mut MemStore,
    driven: &Came,
) -> Result<(), Fail> {
    let words = ["replay", "image", "setup", "trace"];
    let replayed = call(alloc, &words, store)?;
    replayed.is(rt, label, driven);
    Ok(())
}

/// Drives the hostile guest of a number, compares trace and log with this digest, and replays the trace.
fn runs_and_is_replayed(
    rt: &impl Abort,
    alloc: Global,
    number: usize,
    digest: &str,
) -> Result<(), Fail> {
    let mut store = store(alloc, number as u64)?;
    let words = ["drive", "image", "setup", "views", "script", "trace", "log"];
    let driven = call(alloc, &words, &mut store)?;
    let line = line_of(number);
    let status = if line.is_empty() { 0 } else { 9 };
    assert_eq!(rt; driven.status, status, "{number}: status");
    assert!(rt; driven.err.bytes() == line, "{number}: line");
    assert!(rt; driven.out.bytes().is_empty(), "{number}: console");
    let made = digest_of(alloc, &[bytes_of(&store, "trace"), bytes_of(&store, "log")])?;
    assert_eq!(rt; made.as_str(), digest, "{number}: trace and log");
    has_no_group_twice(rt, alloc, bytes_of(&store, "log"))?;
    is_replayed(rt, alloc, "replay", &mut store, &driven)
}

/// Whatever a guest does, its run ends or is stopped by name, and the full kernel does the same. The guests are run in four
/// quarters of sixteen, 0 to 3.
fn quarter_runs(rt: &impl Abort, alloc: Global, quarter: usize) -> Result<(), Fail> {
    for (number, digest) in digests().iter().enumerate() {
        if number / 16 == quarter {
            runs_and_is_replayed(rt, alloc, number, digest)?;
        }
    }
    Ok(())
}

#[test]
fn hostile_guests_0_to_15_run_and_are_replayed(rt: HostRuntime) -> Result<(), Fail> {
    quarter_runs(&rt, rt.alloc(), 0)
}

#[test]
fn hostile_guests_16_to_31_run_and_are_replayed(rt: HostRuntime) -> Result<(), Fail> {
    quarter_runs(&rt, rt.alloc(), 1)
}

#[test]
fn hostile_guests_32_to_47_run_and_are_replayed(rt: HostRuntime) -> Result<(), Fail> {
    quarter_runs(&rt, rt.alloc(), 2)
}

#[test]
fn hostile_guests_48_to_63_run_and_are_replayed(rt: HostRuntime) -> Result<(), Fail> {
    quarter_runs(&rt, rt.alloc(), 3)
}
