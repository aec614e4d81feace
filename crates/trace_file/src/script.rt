//! Scripts: the order of vCPUs as a text of digits.

ghost use Rattle.std.specs.Prelude.{◌≡◌, ◌≤◌, position};
ghost use Rattle.trace_file.specs.Gives.{Answers};
ghost use Rattle.trace_file.specs.Script.{is_digit, is_wrong, script_of};

use crate::fault::TraceFault;
use crate::trace::VCPUS_MOST;
use fc_numbers::places::VcpuNo;
use std::alloc::Global;

/// Whether the byte is a digit 0 to 7.
fn is_digit(byte: u8) -> bool
    ensures { result ≡ is_digit byte }
{
    b'0' <= byte && byte <= b'7'
}

/// Whether the byte is neither blank nor the digit of one of so many vCPUs.
fn is_wrong(vcpus: u8, byte: u8) -> bool
    ensures { result ≡ is_wrong vcpus byte }
{
    !(byte == b' ' || byte == b'\n' || (is_digit(byte) && byte - b'0' < vcpus))
}

/// Where the first wrong byte stands.
fn first_wrong(bytes: &[u8], vcpus: u8) -> Option<usize>
    ensures { result ≡ position (λ byte. is_wrong vcpus byte) bytes.now }
{
    bytes.iter().position(|byte| is_wrong(vcpus, *byte))
}

/// The vCPUs of a script's digits, or the fault of its first wrong byte.
pub fn read_script(alloc: Global, bytes: &[u8], vcpus: u8) -> Result<Vec<VcpuNo>, TraceFault>
    requires some { 1 ≤ vcpus }
    requires most { vcpus ≤ VCPUS_MOST }
    ensures { Answers (λ v. v.items) result (script_of vcpus bytes.now) }
{
    if let Some(at) = first_wrong(bytes, vcpus) {
        if is_digit(bytes[at]) {
            return Err(TraceFault::BadVcpu(at as u64));
        }
        return Err(TraceFault::NotScript(at as u64));
    }
    let mut schedule = Vec::new(alloc);
    'bytes: for byte in bytes {
        if is_digit(*byte) {
            schedule.push(VcpuNo(*byte - b'0'))?;
        }
    }
    Ok(schedule)
}
