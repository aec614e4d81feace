//! The parts of a trace: what it tells of a vCPU, of the memory and of a view.

ghost use Rattle.std.specs.Prelude.{◌≡◌, ◌^◌, ◌<◌, ℕ, length, slice_index, IfOk};
ghost use Rattle.std.specs.List.{AllByRecursion};
ghost use Rattle.trace_file.specs.Lawful.{IsState, IsDigest};
ghost use Rattle.run_trace.specs.Told.{vcpu_state, memory_digest, bytes_of_halves, pages_digest, IsEntryInRange};

use chain_log::entry::LogEntry;
use fc_numbers::memory::NoMemory;
use fc_numbers::places::{Gpa, VcpuNo};
use guest_board::board::Board;
use guest_ram::GuestRam;
use sha2::{Digest, Sha256};
use std::alloc::Global;
use trace_file::entries::copy_of;
use trace_file::state::{State, values_of_state};
use trace_file::trace::DIGEST;
use view_store::view::View;

/// What the type says: each is below 2 to the power of 64. Nothing is done.
fn are_numbers(values: &[u64])
    ensures { AllByRecursion (λ n. n < 2 ^ 64) values.now }
{}

/// What the type says: each is below 256. Nothing is done.
fn are_bytes(bytes: &[u8])
    ensures { (i : ℕ) → slice_index bytes.now i < 256 }
{}

/// What the type says: the place is below 2 to the power of 64. Nothing is done.
fn is_place(place: Gpa)
    ensures { place < 2 ^ 64 }
{
    let _number = place.0;
}

/// What the type says: each is below 2 to the power of 64. Nothing is done.
fn are_places(places: &[Gpa])
    ensures { AllByRecursion (λ p. p < 2 ^ 64) places.now }
{
    for place in places {
        is_place(*place);
    }
}

/// The state of vCPU i.
#[tactic(auto, unfolding(crate::specs::Told::vcpu_state))]
pub fn vcpu_state(board: &Board, i: VcpuNo) -> State
    requires { i < length board.now.state.slots }
    ensures value { result ≡ vcpu_state board.now.state i }
    ensures range { IsState result }
{
    let vcpu = board.vcpu(i);
    let state = State {
        x1: vcpu.regs.get(1),
        x2: vcpu.regs.get(2),
        x3: vcpu.regs.get(3),
        x4: vcpu.regs.get(4),
        x5: vcpu.regs.get(5),
        x6: vcpu.regs.get(6),
        x7: vcpu.regs.get(7),
        x8: vcpu.regs.get(8),
        x9: vcpu.regs.get(9),
        x10: vcpu.regs.get(10),
        x11: vcpu.regs.get(11),
        x12: vcpu.regs.get(12),
        x13: vcpu.regs.get(13),
        x14: vcpu.regs.get(14),
        x15: vcpu.regs.get(15),
        x16: vcpu.regs.get(16),
        x17: vcpu.regs.get(17),
        x18: vcpu.regs.get(18),
        x19: vcpu.regs.get(19),
        x20: vcpu.regs.get(20),
        x21: vcpu.regs.get(21),
        x22: vcpu.regs.get(22),
        x23: vcpu.regs.get(23),
        x24: vcpu.regs.get(24),
        x25: vcpu.regs.get(25),
        x26: vcpu.regs.get(26),
        x27: vcpu.regs.get(27),
        x28: vcpu.regs.get(28),
        x29: vcpu.regs.get(29),
        x30: vcpu.regs.get(30),
        x31: vcpu.regs.get(31),
        pc: vcpu.pc.0,
        mode: vcpu.mode,
        sstatus: vcpu.csr.sstatus,
        sie: vcpu.csr.sie,
        stvec: vcpu.csr.stvec,
        scounteren: vcpu.csr.scounteren,
        sscratch: vcpu.csr.sscratch,
        sepc: vcpu.csr.sepc,
        scause: vcpu.csr.scause,
        stval: vcpu.csr.stval,
        satp: vcpu.csr.satp,
        soft: board.feed().soft(i) as u64,
        timer: board.feed().timer(i),
    };
    are_numbers(&values_of_state(&state));
    state
}

/// The same entry once more.
pub(crate) fn entry_of(entry: &LogEntry) -> LogEntry
    ensures value { result ≡ entry.now }
    ensures range { IsEntryInRange result }
{
    is_place(entry.pc);
    are_places(entry.chain.as_slice());
    copy_of(entry)
}

/// The digest of the memory, with the original text in it.
pub fn memory_digest(ram: &GuestRam) -> [u8; DIGEST]
    ensures value { result ≡ memory_digest ram.now }
    ensures range { IsDigest result }
{
    let digest = Sha256::digest(ram.bytes());
    are_bytes(&digest);
    digest
}

/// Halfwords as bytes, the lower byte of each first.
fn page_bytes(alloc: Global, halves: &[u16]) -> Result<Vec<u8>, NoMemory>
    ensures { IfOk result (λ bytes. bytes.items ≡ bytes_of_halves halves.now) }
{
    let mut bytes = Vec::new(alloc);
    for half in halves {
        bytes.extend_from_slice(&half.to_le_bytes())?;
    }
    Ok(bytes)
}

/// The digest of the pages of a view.
pub fn pages_digest(alloc: Global, view: &View) -> Result<[u8; DIGEST], NoMemory>
    ensures value { IfOk result (λ digest. digest ≡ pages_digest view.now) }
    ensures range { IfOk result (λ digest. IsDigest digest) }
{
    let bytes = page_bytes(alloc, view.pages())?;
    let digest = Sha256::digest(bytes.as_slice());
    are_bytes(&digest);
    Ok(digest)
}
