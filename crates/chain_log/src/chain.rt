//! The call chain of a vCPU.

ghost use Rattle.std.specs.Prelude.{◌≡◌, ◌≤◌, ◌<◌, ◌+◌, ◌-◌, ◌%◌, ◌^◌, ◌++◌, IfSome, length};
ghost use Rattle.arrayvec.specs.ArrayVec.{array_vec_len};
ghost use Rattle.chain_log.specs.Chain.{address_below, chain_of, code_at, frame_at, frame_places_from, doubleword_at};

use crate::entry::{CHAIN_MOST, Chain};
use arrayvec::ArrayVec;
use fc_numbers::machine::{Access, Mode, Width};
use fc_numbers::places::{Gpa, Va};
use fc_numbers::regs::{FP, RA, Regs};
use guest_ram::GuestRam;
use rv_csr::CsrFile;
use sv39_walk::place_for;

/// What a frame holds: the place in text of the return address that it saved, and the frame pointer that it saved.
#[derive(Clone, Copy)]
pub struct Frame {
    pub place: Gpa,
    pub up: u64,
}

/// The place in text that an address is executed from.
#[tactic(auto, unfolding(crate::specs::Chain::code_at))]
fn code_at(ram: &GuestRam, csr: &CsrFile, mode: Mode, va: Va) -> Option<Gpa>
    ensures { result ≡ code_at ram.now csr.now mode va }
{
    let place = place_for(ram, csr, mode, Access::Fetch, va)?;
    if ram.in_text(place) {
        Some(place)
    } else {
        None
    }
}

/// The 8 bytes at an address.
#[tactic(auto, unfolding(crate::specs::Chain::doubleword_at))]
fn word_at(ram: &GuestRam, csr: &CsrFile, mode: Mode, va: Va) -> Option<u64>
    requires { va % 8 ≡ 0 }
    ensures { result ≡ doubleword_at ram.now csr.now mode va }
{
    let place = place_for(ram, csr, mode, Access::Load, va)?;
    match ram.load(place, Width::Doubleword) {
        Ok(word) => Some(word),
        Err(_) => None,
    }
}

/// So many bytes below an address.
fn bytes_below(f: u64, n: u64) -> Va
    requires { 0 < n }
    ensures { result ≡ address_below f n }
{
    Va(f.wrapping_sub(n))
}

/// What the frame of frame pointer f holds.
#[tactic(auto, unfolding(crate::specs::Chain::frame_at))]
fn frame_at(ram: &GuestRam, csr: &CsrFile, mode: Mode, f: u64) -> Option<Frame>
    ensures { result ≡ frame_at ram.now csr.now mode f }
{
    if f % 8 != 0 {
        return None;
    }
    let ra = word_at(ram, csr, mode, bytes_below(f, 8))?;
    let up = word_at(ram, csr, mode, bytes_below(f, 16))?;
    let place = code_at(ram, csr, mode, Va(ra))?;
    Some(Frame { place, up })
}

/// Adds the places of the frame of f and of the frames above it, as far as the chain has room.
fn add_frames(chain: &mut Chain, ram: &GuestRam, csr: &CsrFile, mode: Mode, mut f: u64)
    ensures { chain.new.items ≡ chain.old.items ++ frame_places_from ram.now csr.now mode (CHAIN_MOST - array_vec_len chain.old) f }
{
    'frames: while chain.len() < CHAIN_MOST {
        match frame_at(ram, csr, mode, f) {
            None => return,
            Some(frame) => {
                chain.push(frame.place);
                if frame.up <= f {
                    return;
                }
                f = frame.up;
            }
        }
    }
}

/// The call chain of a vCPU with these registers: the place of its return address, and those that its frame pointer
/// leads to, each in text.
#[tactic(auto, unfolding(crate::specs::Chain::chain_of))]
pub fn chain_of(ram: &GuestRam, csr: &CsrFile, mode: Mode, regs: &Regs) -> Chain
    ensures { result.items ≡ chain_of ram.now csr.now mode regs.now }
{
    let mut chain = Chain::new();
    if let Some(place) = code_at(ram, csr, mode, Va(regs.get(RA))) {
        chain.push(place);
    }
    add_frames(&mut chain, ram, csr, mode, regs.get(FP));
    chain
}
