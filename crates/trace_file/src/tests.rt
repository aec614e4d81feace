//! The trace of a run of two vCPUs, worked out by hand, its faults, and scripts.
//!
//! The kernel is one page: a jump to a function at offset 62, which puts `A`, and then the call to shut down. The view
//! lacks the function, so vCPU 0 restores it at clock 1. vCPU 0 makes 4 steps and vCPU 1, which shuts down, 7.

use crate::entries::copy_of;
use crate::fault::TraceFault;
use crate::reading::read_trace;
use crate::script::read_script;
use crate::state::{VALUES, first_difference, state_of_values, value_name};
use crate::trace::DIGEST;
use crate::writing::write_trace;
use fc_numbers::machine::{End, Mode};
use fc_numbers::places::{Gpa, GroupNo, VcpuNo, ViewNo};
use std::alloc::{AllocError, Global};
use std::test::Fail;

/// SHA-256 of 64 KiB: the page of the kernel, and zeros.
const MEMORY: [u8; DIGEST] = [
    0x8d, 0xd7, 0x50, 0x40, 0xb2, 0x88, 0x39, 0x8c, 0xdb, 0xc3, 0x28, 0xcd, 0xbd, 0x09, 0x76, 0x7d,
    0xab, 0xc3, 0x7d, 0xe3, 0x4b, 0x68, 0x76, 0x90, 0x63, 0x7c, 0x69, 0xa0, 0xa3, 0xe3, 0x86, 0x0e,
];

/// SHA-256 of the page of the kernel, which both views have whole in the end.
const PAGES: [u8; DIGEST] = [
    0x87, 0x39, 0x83, 0xb4, 0x60, 0x7d, 0x54, 0x68, 0xe3, 0x9f, 0x90, 0xf6, 0x10, 0xc8, 0x55, 0xd5,
    0x73, 0xd7, 0x89, 0x93, 0x46, 0x2f, 0x79, 0x21, 0xd2, 0x28, 0x8c, 0x4a, 0x70, 0x1c, 0xb6, 0x11,
];

/// View 1, group 1, vCPU 0, clock 1, the place 0x8000003e, and a chain of the one place 0x80000004.
const ENTRY: [u8; 25] = [
    1, 1, 0, 0, 1, 0, 0, 0, 0x3e, 0, 0, 0x80, 0, 0, 0, 0, 1, 4, 0, 0, 0x80, 0, 0, 0, 0,
];

/// The state of a vCPU that came as far as this offset of text, with this number of a call.
fn push_state(bytes: &mut Vec<u8>, call: u64, offset: u64) -> Result<(), AllocError> {
    for k in 0..VALUES {
        let value: u64 = match k {
            0 => 0x8000_0004,
            16 => call,
            31 => 0x8000_0000 | offset,
            33 => 0x2_0000_0000,
            43 => 0xffff_ffff_ffff_ffff,
            _ => 0,
        };
        if k == 32 {
            bytes.push(1)?;
        } else {
            bytes.extend_from_slice(&value.to_le_bytes())?;
        }
    }
    Ok(())
}

/// The trace, 870 bytes.
fn file(alloc: Global) -> Result<Vec<u8>, AllocError> {
    let mut bytes = Vec::from_slice(alloc, b"FCTRACE1\x02\x08\0\0\0")?;
    for (vcpu, steps) in [
        (0, 1),
        (1, 2),
        (0, 1),
        (1, 3),
        (0, 1),
        (1, 1),
        (0, 1),
        (1, 1),
    ] {
        bytes.extend_from_slice(&[vcpu, steps, 0, 0, 0])?;
    }
    bytes.extend_from_slice(&[1, 0, 0, 0])?;
    bytes.extend_from_slice(&ENTRY)?;
    bytes.push(1)?;
    push_state(&mut bytes, 1, 0x48)?;
    push_state(&mut bytes, 8, 6)?;
    bytes.extend_from_slice(&MEMORY)?;
    bytes.push(2)?;
    bytes.extend_from_slice(&PAGES)?;
    bytes.extend_from_slice(&PAGES)?;
    Ok(bytes)
}

/// Why the bytes are refused, if they are.
fn fault_of(alloc: Global, bytes: &[u8]) -> Option<TraceFault> {
    match read_trace(alloc, bytes) {
        Ok(_) => None,
        Err(fault) => Some(fault),
    }
}

/// The same as it is printed, or `taken`.
fn ends(alloc: Global, bytes: &[u8]) -> Result<String, AllocError> {
    match fault_of(alloc, bytes) {
        None => String::from_str(alloc, "taken"),
        Some(fault) => format!(in alloc; "{fault}"),
    }
}

#[test]
fn a_trace_is_read_and_written_again(rt: HostRuntime) -> Result<(), Fail> {
    let alloc = rt.alloc();
    let bytes = file(alloc)?;
    assert_eq!(rt; bytes.len(), 870);
    let trace = read_trace(alloc, &bytes)?;
    assert_eq!(rt; trace.vcpus, 2);
    assert_eq!(rt; trace.end, End::Shutdown);
    assert_eq!(rt; trace.memory, MEMORY);
    assert!(rt; trace.pages.as_slice() == [PAGES, PAGES].as_slice());
    let text = write_trace(alloc, &trace)?;
    assert!(rt; text.as_slice() == bytes.as_slice());
    Ok(())
}

#[test]
fn a_schedule_is_read_from_its_runs(rt: HostRuntime) -> Result<(), Fail> {
    let alloc = rt.alloc();
    let trace = read_trace(alloc, &file(alloc)?)?;
    assert_eq!(rt; trace.schedule.len(), 11);
    for (step, vcpu) in [0, 1, 1, 0, 1, 1, 1, 0, 1, 0, 1].iter().enumerate() {
        assert_eq!(rt;
            trace.schedule.get(step),
            Some(&VcpuNo(*vcpu)),
            "step {step}"
        );
    }
    Ok(())
}

#[test]
fn an_entry_is_read_with_its_chain(rt: HostRuntime) -> Result<(), Fail> {
    let alloc = rt.alloc();
    let trace = read_trace(alloc, &file(alloc)?)?;
    assert_eq!(rt; trace.entries.len(), 1);
    for entry in &trace.entries {
        let entry = copy_of(entry);
        assert_eq!(rt;
            (entry.view, entry.group, entry.vcpu),
            (ViewNo(1), GroupNo(1), VcpuNo(0))
        );
        assert_eq!(rt; (entry.at, entry.pc), (1, Gpa(0x8000_003e)));
        assert!(rt; entry.chain.as_slice() == [Gpa(0x8000_0004)].as_slice());
    }
    Ok(())
}

#[test]
fn states_are_read_value_by_value(rt: HostRuntime) -> Result<(), Fail> {
    let alloc = rt.alloc();
    let trace = read_trace(alloc, &file(alloc)?)?;
    let mut wanted = [0; VALUES];
    wanted[0] = 0x8000_0004;
    wanted[16] = 8;
    wanted[31] = 0x8000_0006;
    wanted[32] = 1;
    wanted[33] = 0x2_0000_0000;
    wanted[43] = 0xffff_ffff_ffff_ffff;
    let wanted = state_of_values(&wanted);
    assert_eq!(rt; wanted.mode, Mode::Vs);
    assert_eq!(rt; trace.states.len(), 2);
    let found = ["x17", "none"];
    for (state, want) in trace.states.iter().zip(found.iter()) {
        let name = match first_difference(state, &wanted) {
            Some(k) => value_name(k),
            None => "none",
        };
        assert_eq!(rt; name, *want);
    }
    Ok(())
}

#[test]
fn every_shorter_file_is_refused_and_a_longer_one(rt: HostRuntime) -> Result<(), Fail> {
    let alloc = rt.alloc();
    let mut bytes = file(alloc)?;
    for n in 0..bytes.len() {
        let want = if n < 9 {
            TraceFault::NotTrace
        } else {
            TraceFault::Truncated(n as u64)
        };
        assert_eq!(rt; fault_of(alloc, &bytes[..n]), Some(want), "{n} bytes");
    }
    bytes.push(0)?;
    assert_eq!(rt; fault_of(alloc, &bytes), Some(TraceFault::Trailing));
    Ok(())
}

#[test]
fn files_that_break_off_are_refused_where_they_do(rt: HostRuntime) -> Result<(), Fail> {
    let alloc = rt.alloc();
    for (bytes, want) in [
        (
            b"FCTRACE1\x02\x08\0\0\0\0\x01\0\0\0".as_slice(),
            "2 Truncated 18",
        ),
        (
            b"FCTRACE1\x01\0\0\0\0\x02\0\0\0\x02\0\0\0\0\0\0\0\0\0\0\0\0\0\0\0\0\x01\0\0\0\0\0\0\0\0\0\0\0\0\0\0\0\0".as_slice(),
            "4 BadEntry 1",
        ),
    ] {
        assert_eq!(rt; ends(alloc, bytes)?.as_str(), want);
    }
    Ok(())
}

#[test]
fn one_wrong_byte_is_refused_by_name(rt: HostRuntime) -> Result<(), Fail> {
    let alloc = rt.alloc();
    for (at, byte, want) in [
        (0, 0x47, "1 NotTrace"),
        (8, 0, "1 NotTrace"),
        (8, 9, "1 NotTrace"),
        (13, 2, "3 BadRun 0"),
        (14, 0, "3 BadRun 0"),
        (18, 0, "3 BadRun 1"),
        (17, 1, "6 TooLarge"),
        (22, 1, "6 TooLarge"),
        (57, 0, "4 BadEntry 0"),
        (57, 15, "taken"),
        (57, 16, "4 BadEntry 0"),
        (59, 0x40, "4 BadEntry 0"),
        (60, 2, "4 BadEntry 0"),
        (61, 11, "taken"),
        (61, 12, "4 BadEntry 0"),
        (73, 17, "4 BadEntry 0"),
        (82, 6, "10 BadTail"),
        (339, 2, "10 BadTail"),
        (805, 0, "10 BadTail"),
        (805, 1, "5 Trailing"),
        (805, 3, "2 Truncated 870"),
        (805, 17, "10 BadTail"),
    ] {
        let mut bytes = file(alloc)?;
        assert!(rt; at < bytes.len());
        bytes[at] = byte;
        assert_eq!(rt; ends(alloc, &bytes)?.as_str(), want, "{byte} at {at}");
    }
    Ok(())
}

/// The vCPUs that a script for two asks for, as digits, or why it is refused.
fn asked(alloc: Global, script: &[u8]) -> Result<String, AllocError> {
    let mut digits = String::new(alloc);
    match read_script(alloc, script, 2) {
        Ok(schedule) => {
            for vcpu in &schedule {
                digits.push_str(if vcpu.0 == 0 { "0" } else { "1" })?;
            }
            Ok(digits)
        }
        Err(fault) => format!(in alloc; "{fault}"),
    }
}

#[test]
fn scripts_are_digits_with_blanks_between(rt: HostRuntime) -> Result<(), Fail> {
    let alloc = rt.alloc();
    for (script, want) in [
        ("", ""),
        ("00000 111 0\n111 111\n", "000001110111111"),
        ("02", "9 BadVcpu 1"),
        ("0x", "8 NotScript 1"),
        ("0 2x", "9 BadVcpu 2"),
        ("0\t2", "8 NotScript 1"),
        ("0 \r2", "8 NotScript 2"),
        ("0018", "8 NotScript 3"),
    ] {
        assert_eq!(rt; asked(alloc, script.as_bytes())?.as_str(), want);
    }
    Ok(())
}
