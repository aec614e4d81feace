//! The guest of 7: profiled, driven under that profile and under views that list nothing, and replayed.

use crate::fixtures::{bytes_of, call, digest_of, image_text, lines_of, setup_text, store_of};
use fc_numbers::machine::End;
use fc_outside::memory::MemStore;
use guest_image::image_file::read_image;
use guest_image::setup_file::read_setup;
use guest_maker::make_guest;
use std::alloc::Global;
use std::process::Abort;
use std::test::Fail;
use trace_file::reading::read_trace;

/// The steps of each vCPU in the run that is profiled; in a driven run they make 8,000 each.
const PROFILED: u32 = 2000;

/// The profile of that run: what the two tasks call, and, for both, the trap handler.
const PROFILE: &[u8] =
    b"{\"apps\":[{\"functions\":[[0,188],[0,264],[0,3564],[0,7188]],\"name\":\"blue\"},{\"functions\":[[0,0],[0,188],[0,216],[0,1712],[0,3780]],\"name\":\"red\"}],\"shared\":[[0,100]],\"text\":\"6929c47ddca31d1c149b48d519bca095d94fd7d11423823adcabc9e4f1a05e5d\",\"version\":2}";

/// Views of both tasks that list nothing.
const NOTHING: &[u8] =
    b"{\"version\":1,\"text\":\"6929c47ddca31d1c149b48d519bca095d94fd7d11423823adcabc9e4f1a05e5d\",\"shared\":[],\"apps\":[{\"name\":\"red\",\"functions\":[]},{\"name\":\"blue\",\"functions\":[]}]}";

/// The log of the run under these views. A function whose last halfword has the low bits of a longer instruction is restored
/// with the next one.
const LOG: &str = "512 0 blue 0x800000c0 switch_to+0x4 0x800000bc 0x800000d8 red+0x2c
524 0 blue 0x80000108 blue+0x0 0x800000d8 0x80000160 blue+0x0
526 0 blue 0x80001c14 f153+0x0 0x80001c14 0x80001c44 blue+0x4
552 0 blue 0x80000dec f73+0x0 0x80000dec 0x80000e10 blue+0x8
856 0 blue 0x80000064 trap+0x0 0x80000064 0x800000bc blue+0x8
0 0 red 0x80000000 boot+0x0 0x80000000 0x80000064
50 0 red 0x800000d8 red+0x0 0x800000d8 0x80000160
52 0 red 0x80000ec4 f78+0x0 0x80000ec4 0x80000eec red+0x4
74 0 red 0x800006b0 f31+0x0 0x800006b0 0x800006e0 red+0x8
436 0 red 0x80000064 trap+0x0 0x80000064 0x800000bc red+0x8 red+0x8
510 0 red 0x800000bc switch_to+0x0 0x800000bc 0x800000d8 red+0x2c
";

/// The digests of the traces of the two driven runs, and that of the 468 letters that both print.
const TRACE_UNDER_PROFILE: &str =
    "19b74bfc724cb0b6032d342494cb1a4094405cd51d685c8d3889ace28d7fc48d";

const TRACE_UNDER_NOTHING: &str =
    "9e55925bfdeb84c34293ac86e13351ec5fa1f89caf347e451eb40109a985a56b";

const CONSOLE: &str = "ee601cfa4b4199709f5bf80dc6786d9a38a399b2eb19273c2cbfc14eff46ab36";

/// A script of 500 events of each vCPU, by turns.
fn script(alloc: Global) -> Result<String, Fail> {
    let mut script = String::new(alloc);
    for _ in 0..500 {
        script.push_str("01")?;
    }
    Ok(script)
}

/// A store with the guest as files: its image, the setups of a short run and of a long one, a script, and two views files of
/// which the first is to be made.
fn store(alloc: Global) -> Result<MemStore, Fail> {
    let (image, setup) = make_guest(alloc, 7)?;
    let file = image_text(alloc, &image)?;
    let short = setup_text(alloc, &image, &setup, PROFILED)?;
    let long = setup_text(alloc, &image, &setup, setup.steps)?;
    let script = script(alloc)?;
    let files = [
        ("image", file.as_bytes()),
        ("short", short.as_bytes()),
        ("long", long.as_bytes()),
        ("script", script.as_bytes()),
        ("nothing", NOTHING),
    ];
    store_of(alloc, &files)
}

/// Drives the guest under the views of this name, compares the trace with this digest, and replays it.
fn runs_and_is_replayed(
    rt: &impl Abort,
    alloc: Global,
    store: &mut MemStore,
    views: &str,
    digest: &str,
) -> Result<(), Fail> {
    let words = ["drive", "image", "long", views, "script", "trace", "log"];
    let driven = call(alloc, &words, store)?;
    driven.is_well(rt, views);
    let console = digest_of(alloc, &[driven.out.bytes()])?;
    assert_eq!(rt; console.as_str(), CONSOLE, "{views}: console");
    let made = digest_of(alloc, &[bytes_of(store, "trace")])?;
    assert_eq!(rt; made.as_str(), digest, "{views}: trace");
    let trace = read_trace(alloc, bytes_of(store, "trace"))?;
    assert_eq!(rt; trace.schedule.len(), 16_000, "{views}: steps");
    assert!(rt; trace.end == End::Spent, "{views}: end");
    let words = ["replay", "image", "long", "trace"];
    let replayed = call(alloc, &words, store)?;
    replayed.is(rt, views, &driven);
    Ok(())
}

#[test]
fn files_of_a_made_guest_give_it_again(rt: HostRuntime) -> Result<(), Fail> {
    let alloc = rt.alloc();
    let (image, setup) = make_guest(alloc, 7)?;
    let file = image_text(alloc, &image)?;
    let read = read_image(alloc, file.as_bytes())?;
    assert!(rt; read.digest == image.digest);
    assert_eq!(rt; read.entry, image.entry);
    assert_eq!(rt; read.parts.len(), 4);
    assert_eq!(rt; read.functions.len(), 205);
    let file = setup_text(alloc, &image, &setup, setup.steps)?;
    let given = read_setup(alloc, file.as_bytes(), &read)?;
    assert_eq!(rt; given.vcpus, setup.vcpus);
    assert_eq!(rt; given.ram, setup.ram);
    assert_eq!(rt; given.steps, setup.steps);
    assert!(rt; given.hook == setup.hook);
    assert_eq!(rt; given.name_at, setup.name_at);
    let start = given.start.ok_or("no start")?;
    assert!(rt; start.bytes() == b"red".as_slice());
    Ok(())
}

/// Under the profile of the first quarter of its run the guest misses nothing in the whole of it.
#[test]
fn a_made_guest_is_profiled_driven_and_replayed(rt: HostRuntime) -> Result<(), Fail> {
    let alloc = rt.alloc();
    let mut store = store(alloc)?;
    let words = ["profile", "image", "short", "made"];
    let profiled = call(alloc, &words, &mut store)?;
    profiled.is_well(&rt, "profile");
    assert!(rt; profiled.out.bytes().is_empty());
    assert!(rt; bytes_of(&store, "made") == PROFILE);
    runs_and_is_replayed(&rt, alloc, &mut store, "made", TRACE_UNDER_PROFILE)?;
    assert!(rt; store.bytes("log") == Some(b"".as_slice()));
    Ok(())
}

/// Under views that list nothing each function is restored for each of the two tasks that reaches it, and no letter changes.
#[test]
fn each_task_restores_what_it_reaches(rt: HostRuntime) -> Result<(), Fail> {
    let alloc = rt.alloc();
    let mut store = store(alloc)?;
    runs_and_is_replayed(&rt, alloc, &mut store, "nothing", TRACE_UNDER_NOTHING)?;
    let log = bytes_of(&store, "log");
    assert!(rt; log == LOG.as_bytes());
    for line in &lines_of(alloc, log)? {
        assert!(rt; line.app == "red" || line.app == "blue", "{}", line.app);
    }
    Ok(())
}
