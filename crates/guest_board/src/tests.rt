//! Small kernels, stepped by hand.

ghost use Rattle.std.specs.Prelude.{◌≡◌, ◌<◌, ◌≤◌, ◌+◌, [], ◌∷◌, IfOk, length};
ghost use Rattle.gstage.specs.Stage.{IsFor};
ghost use Rattle.guest_input.specs.Accepted.{IsImage, IsSetup};
ghost use Rattle.guest_input.specs.Text.{spans_of};

use crate::board::{Board, Full};
use crate::seen::{Seen, Windows};
use arrayvec::ArrayVec;
use fc_numbers::machine::{End, GKind, Stop, Width};
use fc_numbers::memory::NoMemory;
use fc_numbers::places::{Gpa, Span, VcpuNo, ViewNo};
use fc_numbers::shared::SharedBytes;
use fc_numbers::spans::Spans;
use fc_numbers::window::Window;
use gstage::stage::Flat;
use guest_input::image::{Function, Image, Start};
use guest_input::ranges::Ranges;
use guest_input::setup::{Event, Setup, What};
use sqlite_items::Items;
use std::alloc::Global;
use std::test::Fail;

/// The place of the first range of the text of these kernels.
const BASE: u64 = 0x8000_0000;

/// At 0, `main`: jal put; li a7, 8; ecall. At 12, `put`: li a7, 1; li a0, 'A'; ecall; ret.
const PRINTS: [u8; 24] = [
    0xef, 0x00, 0xc0, 0x00, 0xa1, 0x48, 0x73, 0x00, 0x00, 0x00, 0x01, 0x00, 0x85, 0x48, 0x13, 0x05,
    0x10, 0x04, 0x73, 0x00, 0x00, 0x00, 0x82, 0x80,
];

/// Two ranges of a page each, a page apart.
fn two_pages() -> Spans
    ensures { result.items ≡ record { start = BASE; end = BASE + 4096 } ∷ record { start = BASE + 8192; end = BASE + 12288 } ∷ [] }
{
    let mut spans = Spans::new();
    spans.push(Span {
        start: Gpa(BASE),
        end: Gpa(BASE + 4096),
    });
    spans.push(Span {
        start: Gpa(BASE + 8192),
        end: Gpa(BASE + 12288),
    });
    spans
}

/// A function at the start of a range.
fn function(alloc: Global, range: u8) -> Function
    ensures { result.at ≡ record { range = range; offset = 0 } }
{
    Function {
        at: Start { range, offset: 0 },
        name: Items::new(alloc),
    }
}

/// The bytes of two pages, which begin with this code. The last halfword of the first begins a wide instruction.
fn pages_of(alloc: Global, code: &[u8]) -> Result<Vec<u8>, NoMemory>
    requires { length code.now ≤ 4094 }
    ensures { IfOk result (λ bytes. length bytes.items ≡ 8192) }
{
    let mut bytes = vec![in alloc; 0u8; 8192]?;
    bytes[..code.len()].copy_from_slice(code);
    bytes[4094..4097].copy_from_slice(&[0x97, 0x02, 0x01]);
    Ok(bytes)
}

/// The kernel of this code, with a function at the start of each range.
fn kernel(alloc: Global, code: &[u8]) -> Result<Image, NoMemory>
    requires { length code.now ≤ 4094 }
    ensures image { IfOk result (λ image. IsImage image) }
    ensures spans { IfOk result (λ image. spans_of image.ranges ≡ record { start = BASE; end = BASE + 4096 } ∷ record { start = BASE + 8192; end = BASE + 12288 } ∷ []) }
    ensures parts { IfOk result (λ image. image.parts ≡ []) }
{
    let bytes = pages_of(alloc, code)?;
    let mut functions = Items::new(alloc);
    functions.push(function(alloc, 0))?;
    functions.push(function(alloc, 1))?;
    Ok(Image {
        entry: BASE,
        ranges: Ranges::of(two_pages(), SharedBytes::from_vec(bytes)?),
        parts: Items::new(alloc),
        functions,
        digest: [0; 32],
    })
}

/// A setup of so many vCPUs, each with so many steps, and a hook, where the external line of vCPU 0 is raised after six
/// steps.
fn setup(
    alloc: Global,
    vcpus: u8,
    steps: u32,
    hook: Option<Start>,
    name_at: u64,
) -> Result<Setup, NoMemory>
    requires some { 1 ≤ vcpus }
    requires few { vcpus ≤ 8 }
    requires steps { 1 ≤ steps }
    requires short { steps ≤ 100 }
    requires near { name_at ≤ 100 }
    ensures setup { IfOk result (λ setup. IsSetup setup) }
    ensures ram { IfOk result (λ setup. setup.ram ≡ 65536) }
{
    let mut events = Items::new(alloc);
    events.push(Event {
        at: 6,
        what: What::Raise(VcpuNo(0)),
    })?;
    Ok(Setup {
        vcpus,
        ram: 0x1_0000,
        steps,
        hook,
        name_at,
        start: None,
        events,
        gstage: GKind::Sv39x4,
    })
}

/// The board of a run of this code without a hook.
fn opened(alloc: Global, code: &[u8], vcpus: u8, steps: u32) -> Result<Board, NoMemory>
    requires code { length code.now ≤ 4094 }
    requires some { 1 ≤ vcpus }
    requires few { vcpus ≤ 8 }
    requires steps { 1 ≤ steps }
    requires short { steps ≤ 100 }
{
    let image = kernel(alloc, code)?;
    let setup = setup(alloc, vcpus, steps, None, 0)?;
    Board::open(alloc, &image, &setup)
}

/// The board of a run of one vCPU by this code. The hook is at an offset of the first range.
fn hooked(alloc: Global, code: &[u8], offset: u32, name_at: u64) -> Result<Board, NoMemory>
    requires code { length code.now ≤ 4094 }
    requires near { name_at ≤ 100 }
{
    let image = kernel(alloc, code)?;
    let hook = Start { range: 0, offset };
    let setup = setup(alloc, 1, 20, Some(hook), name_at)?;
    Board::open(alloc, &image, &setup)
}

/// The place that a step of the full machine fetches; None where the vCPU may not step, or fetches no place of text.
fn fetched(board: &mut Board, i: u8) -> Option<u64> {
    match board.step_full(VcpuNo(i)) {
        Full::Stepped(Some(place)) => Some(place.0),
        _ => None,
    }
}

/// A step of vCPU 0 by these windows.
fn step_by(board: &mut Board, seen: &Windows, stage: &Flat) -> Seen
    requires { IsFor stage.now.text.items stage.now.ram board.old.state.ram }
    ensures { IsFor stage.now.text.items stage.now.ram board.new.state.ram }
{
    board.step_seen(VcpuNo(0), seen, stage)
}

/// Where the seven instructions of a vCPU are fetched.
const PLACES: [u64; 7] = [
    0x8000_0000,
    0x8000_000c,
    0x8000_000e,
    0x8000_0012,
    0x8000_0016,
    0x8000_0004,
    0x8000_0006,
];

#[test]
fn two_vcpus_step_by_turns(rt: HostRuntime) -> Result<(), Fail> {
    let mut board = opened(rt.alloc(), &PRINTS, 2, 20)?;
    for k in 0..13usize {
        let i = (k % 2) as u8;
        assert_eq!(rt; fetched(&mut board, i), Some(PLACES[k / 2]), "step {k}");
        let console = match k {
            0..=5 => b"".as_slice(),
            6 => b"A".as_slice(),
            _ => b"AA".as_slice(),
        };
        assert!(rt; board.console() == console, "console after step {k}");
        assert!(rt; board.end().is_some() == (k == 12), "end after step {k}");
    }
    assert!(rt; board.end() == Some(End::Shutdown), "end");
    assert!(rt; fetched(&mut board, 1).is_none(), "behind the end");
    assert!(rt; board.clock() == 13, "clock");
    for (n, i) in board.schedule().iter().enumerate() {
        assert!(rt; i.0 as usize == n % 2, "schedule at {n}");
    }
    assert!(rt; board.vcpus() == 2, "vcpus");
    assert!(rt; board.steps_of(VcpuNo(0)) == 7, "steps of vCPU 0");
    assert!(rt; board.steps_of(VcpuNo(1)) == 6, "steps of vCPU 1");
    assert!(rt; board.depth_of(VcpuNo(0)) == 0, "depth of vCPU 0");
    Ok(())
}

/// A window of a line, all zeros but for two halfwords side by side.
fn window(line: u32, n: usize, first: u16, second: u16) -> Window
    requires { n < 32 }
{
    let mut halves = [0; 33];
    halves[n] = first;
    halves[n + 1] = second;
    Window { line, halves }
}

/// No window of view 1.
fn no_windows() -> Windows
    ensures { result.held.items ≡ [] }
{
    Windows {
        view: ViewNo(1),
        held: ArrayVec::new(),
        cleared: None,
    }
}

#[test]
fn a_step_over_windows_needs_traps_and_goes(rt: HostRuntime) -> Result<(), Fail> {
    let mut board = opened(rt.alloc(), &PRINTS, 1, 2)?;
    let stage = board.flat();
    let mut seen = no_windows();
    assert!(rt;
        matches!(step_by(&mut board, &seen, &stage), Seen::Need(0)),
        "no window"
    );
    seen.held.push(window(0, 0, 0x00ef, 0x00c0));
    assert!(rt;
        matches!(
            step_by(&mut board, &seen, &stage),
            Seen::Stepped { hooked: false }
        ),
        "a jump"
    );
    assert!(rt;
        matches!(step_by(&mut board, &seen, &stage), Seen::Zero(place) if place.0 == 0x8000_000c),
        "a zero"
    );
    assert!(rt; board.vcpus() == 1, "vcpus");
    let trap = board.trapped(VcpuNo(0), seen.view, Gpa(0x8000_000c));
    assert!(rt; trap.view.0 == 1, "view");
    assert!(rt; trap.vcpu.0 == 0, "vcpu");
    assert!(rt; trap.at == 1, "clock of the trap");
    assert!(rt; trap.pc.0 == 0x8000_000c, "place");
    assert!(rt; trap.chain.len() == 1, "length of the chain");
    let caller = &trap.chain[0];
    assert!(rt; caller.0 == 0x8000_0004, "caller");
    assert!(rt; board.clock() == 1, "clock after the trap");
    seen.cleared = Some(Span {
        start: Gpa(0x8000_000c),
        end: Gpa(0x8000_1000),
    });
    assert!(rt;
        matches!(
            step_by(&mut board, &seen, &stage),
            Seen::Stepped { hooked: false }
        ),
        "an own zero"
    );
    assert!(rt; board.end() == Some(End::Spent), "end");
    assert!(rt;
        matches!(step_by(&mut board, &seen, &stage), Seen::Over),
        "behind the end"
    );
    assert!(rt; board.vcpus() == 1, "vcpus");
    let vcpu = board.vcpu(VcpuNo(0));
    assert!(rt; vcpu.pc.0 == 0, "pc");
    assert!(rt; vcpu.csr.sepc == 0x8000_000c, "sepc");
    assert!(rt; vcpu.csr.scause == 2, "scause");
    Ok(())
}

/// At 0: j 62. At 62: li a0, 65, which ends in the next line.
const CROSSES: [u8; 66] = [
    0x6f, 0x00, 0xe0, 0x03, 0, 0, 0, 0, 0, 0, 0, 0, 0, 0, 0, 0, //
    0, 0, 0, 0, 0, 0, 0, 0, 0, 0, 0, 0, 0, 0, 0, 0, //
    0, 0, 0, 0, 0, 0, 0, 0, 0, 0, 0, 0, 0, 0, 0, 0, //
    0, 0, 0, 0, 0, 0, 0, 0, 0, 0, 0, 0, 0, 0, 0x13, 0x05, //
    0x10, 0x04,
];

#[test]
fn first_window_of_a_line_counts(rt: HostRuntime) -> Result<(), Fail> {
    let mut board = opened(rt.alloc(), &CROSSES, 1, 2)?;
    assert_eq!(rt; fetched(&mut board, 0), Some(0x8000_0000), "the jump");
    let stage = board.flat();
    let mut seen = no_windows();
    seen.held.push(window(1, 0, 0x0513, 0x0410));
    assert!(rt;
        matches!(step_by(&mut board, &seen, &stage), Seen::Need(0)),
        "window of another line"
    );
    seen.held.push(window(0, 31, 0x0513, 0x0420));
    seen.held.push(window(0, 31, 0x0513, 0x0430));
    assert!(rt;
        matches!(
            step_by(&mut board, &seen, &stage),
            Seen::Stepped { hooked: false }
        ),
        "two windows of the line"
    );
    assert!(rt; board.vcpus() == 1, "vcpus");
    assert!(rt;
        board.vcpu(VcpuNo(0)).regs.get(10) == 66,
        "the number of the first"
    );
    Ok(())
}

/// j 4094.
const JUMPS: [u8; 4] = [0x6f, 0x00, 0xf0, 0x7f];

#[test]
fn wide_instruction_ends_in_its_range(rt: HostRuntime) -> Result<(), Fail> {
    let mut board = opened(rt.alloc(), &JUMPS, 1, 20)?;
    let ram = board.ram();
    assert!(rt; ram.in_text(Gpa(0x8000_2000)), "the second range is text");
    assert!(rt;
        ram.load(Gpa(0x8000_2000), Width::Word) == Ok(1),
        "the bytes of the second range"
    );
    assert_eq!(rt; fetched(&mut board, 0), Some(0x8000_0000), "the jump");
    assert_eq!(rt; fetched(&mut board, 0), None, "the wide instruction");
    assert!(rt;
        board.end() == Some(End::Stopped(Stop::KernelOutsideText)),
        "end"
    );
    assert!(rt; board.clock() == 2, "clock");
    Ok(())
}

/// At 0, three tasks are switched to: auipc a1, 0; addi a1, a1, 56; jal 32; addi a1, a1, 8; jal 32; addi a1, a1, 8; jal 32.
/// At 32: ret. Eight bytes from where a1 points to stand the names `red`, `blue`, and none.
const SWITCHES: [u8; 80] = [
    0x97, 0x05, 0x00, 0x00, 0x93, 0x85, 0x85, 0x03, 0xef, 0x00, 0x80, 0x01, 0xa1, 0x05, 0xef, 0x00,
    0x20, 0x01, 0xa1, 0x05, 0xef, 0x00, 0xc0, 0x00, 0, 0, 0, 0, 0, 0, 0, 0, //
    0x82, 0x80, 0, 0, 0, 0, 0, 0, 0, 0, 0, 0, 0, 0, 0, 0, //
    0, 0, 0, 0, 0, 0, 0, 0, 0, 0, 0, 0, 0, 0, 0, 0, //
    b'r', b'e', b'd', 0, 0, 0, 0, 0, b'b', b'l', b'u', b'e', 0, 0, 0, 0,
];

/// At 0: interrupts of the external line are let in, and traps go to 32: li t0, 512; csrw sie, t0; auipc t0, 0;
/// addi t0, t0, 24; csrw stvec, t0; csrsi sstatus, 2; j 24. At 32: auipc a1, 0; j 64. At 64: no instruction.
/// At 72: the name `red`.
const TRAPS: [u8; 80] = [
    0x93, 0x02, 0x00, 0x20, 0x73, 0x90, 0x42, 0x10, 0x97, 0x02, 0x00, 0x00, 0x93, 0x82, 0x82, 0x01,
    0x73, 0x90, 0x52, 0x10, 0x73, 0x60, 0x01, 0x10, 0x6f, 0x00, 0x00, 0x00, 0, 0, 0, 0, //
    0x97, 0x05, 0x00, 0x00, 0x6f, 0x00, 0xc0, 0x01, 0, 0, 0, 0, 0, 0, 0, 0, //
    0, 0, 0, 0, 0, 0, 0, 0, 0, 0, 0, 0, 0, 0, 0, 0, //
    0, 0, 0, 0, 0, 0, 0, 0, b'r', b'e', b'd', 0, 0, 0, 0, 0,
];

/// The same up to 32, where a second trap comes and goes: auipc t0, 0; addi t0, t0, 16; csrw stvec, t0; no instruction.
/// At 48: sret.
const NESTS: [u8; 52] = [
    0x93, 0x02, 0x00, 0x20, 0x73, 0x90, 0x42, 0x10, 0x97, 0x02, 0x00, 0x00, 0x93, 0x82, 0x82, 0x01,
    0x73, 0x90, 0x52, 0x10, 0x73, 0x60, 0x01, 0x10, 0x6f, 0x00, 0x00, 0x00, 0, 0, 0, 0, //
    0x97, 0x02, 0x00, 0x00, 0x93, 0x82, 0x02, 0x01, 0x73, 0x90, 0x52, 0x10, 0, 0, 0, 0, //
    0x73, 0x00, 0x20, 0x10,
];

/// sret.
const RETURNS: [u8; 4] = [0x73, 0x00, 0x20, 0x10];

/// Whether vCPU 0 has this name, or none where it is empty, and this depth of traps.
fn stands(board: &Board, name: &str, depth: u32) -> bool {
    if board.vcpus() == 0 {
        return false;
    }
    let same = match board.name_of(VcpuNo(0)) {
        None => name.is_empty(),
        Some(found) => found.bytes() == name.as_bytes(),
    };
    same && board.depth_of(VcpuNo(0)) == depth
}

/// The first step of a run by this code after which vCPU 0 has another name or depth than the listed ones. The hook is at
/// an offset of the first range.
fn first_other(
    alloc: Global,
    code: &[u8],
    hook: u32,
    name_at: u64,
    want: &[(&str, u32)],
) -> Result<Option<usize>, NoMemory>
    requires code { length code.now ≤ 4094 }
    requires near { name_at ≤ 100 }
{
    let mut board = hooked(alloc, code, hook, name_at)?;
    for (k, (name, depth)) in want.iter().enumerate() {
        let stepped = matches!(board.step_full(VcpuNo(0)), Full::Stepped(_));
        if !stepped || !stands(&board, name, *depth) {
            return Ok(Some(k));
        }
    }
    Ok(None)
}

/// Name and depth after each step: the hook is run three times.
const TASKS: [(&str, u32); 10] = [
    ("", 0),
    ("", 0),
    ("", 0),
    ("red", 0),
    ("red", 0),
    ("red", 0),
    ("blue", 0),
    ("blue", 0),
    ("blue", 0),
    ("", 0),
];

/// The instruction of the hook traps.
const TRAPPED_HOOK: [(&str, u32); 11] = [
    ("", 0),
    ("", 0),
    ("", 0),
    ("", 0),
    ("", 0),
    ("", 0),
    ("", 1),
    ("", 1),
    ("", 1),
    ("red", 0),
    ("red", 0),
];

/// An interrupt is taken at the place of the hook.
const INTERRUPTED_HOOK: [(&str, u32); 10] = [
    ("", 0),
    ("", 0),
    ("", 0),
    ("", 0),
    ("", 0),
    ("", 0),
    ("", 1),
    ("", 1),
    ("", 1),
    ("", 2),
];

/// A trap within an interrupt comes and goes, and another comes.
const NESTED: [(&str, u32); 13] = [
    ("", 0),
    ("", 0),
    ("", 0),
    ("", 0),
    ("", 0),
    ("", 0),
    ("", 1),
    ("", 1),
    ("", 1),
    ("", 1),
    ("", 2),
    ("", 1),
    ("", 2),
];

/// An SRET outside a trap.
const UNNESTED: [(&str, u32); 2] = [("", 0), ("", 0)];

#[test]
fn hooks_name_the_next_task_and_traps_count(rt: HostRuntime) -> Result<(), Fail> {
    let alloc = rt.alloc();
    let other = first_other(alloc, &SWITCHES, 32, 8, &TASKS)?;
    assert_eq!(rt; other, None, "the hook names the next task");
    let other = first_other(alloc, &TRAPS, 64, 40, &TRAPPED_HOOK)?;
    assert_eq!(rt; other, None, "a hook whose instruction traps is one");
    let other = first_other(alloc, &TRAPS, 24, 40, &INTERRUPTED_HOOK)?;
    assert_eq!(rt; other, None, "an interrupt at the hook is none");
    let other = first_other(alloc, &NESTS, 4092, 0, &NESTED)?;
    assert_eq!(rt; other, None, "traps and their returns");
    let other = first_other(alloc, &RETURNS, 4092, 0, &UNNESTED)?;
    assert_eq!(rt; other, None, "a return outside a trap");
    Ok(())
}
