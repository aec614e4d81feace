//! The name of the app that a guest kernel switches to.
//!
//! A kernel that switches tasks calls one function with the next task as its second argument, in register a1, and the
//! name of the task's app stands in the task, `name_at` bytes from its start. [`app_name`] reads that name as the kernel
//! itself would: in supervisor mode, by the kernel's own tables.
//!
//! Promised: the name is exactly that of `specs/Hook.antt`. Reading it changes nothing and stops nothing: where the
//! bytes cannot be read, or are no name of an app, there is no name.
//!
//! Below stand the memory, the control registers and the page walk. The board, which knows when the function is called,
//! stands above.
#![tactic(auto)]

ghost use Rattle.std.specs.Prelude.{◌≡◌};
ghost use Rattle.switch_hook.specs.Hook.{address_after, app_name_of, byte_at, name_at_address};

use arrayvec::ArrayVec;
use fc_numbers::machine::{Access, Mode};
use fc_numbers::name::{NAME_MOST, Name};
use fc_numbers::places::{RAM_START, Va};
use guest_ram::GuestRam;
use rv_csr::CsrFile;
use sv39_walk::place_for;

#[cfg(test)]
mod tests;

/// The byte that a load in supervisor mode reads at an address.
#[tactic(auto, unfolding(crate::specs::Hook::byte_at, guest_ram::specs::Value::value_at))]
fn byte_at(ram: &GuestRam, csr: &CsrFile, va: Va) -> Option<u8>
    ensures { result ≡ byte_at ram.now csr.now va }
{
    let place = place_for(ram, csr, Mode::Vs, Access::Load, va)?;
    if ram.is_inside(place) {
        Some(ram.bytes()[(place.0 - RAM_START) as usize])
    } else {
        None
    }
}

/// The address so many bytes after another; after the last address comes the first.
fn address_after(at: Va, n: u64) -> Va
    ensures { result ≡ address_after at n }
{
    Va(at.0.wrapping_add(n))
}

/// The name of the app at an address.
fn name_at_address(ram: &GuestRam, csr: &CsrFile, at: Va) -> Option<Name>
    ensures { result ≡ name_at_address ram.now csr.now at }
{
    let mut name: ArrayVec<u8, NAME_MOST> = ArrayVec::new();
    for k in 0..NAME_MOST {
        let byte = byte_at(ram, csr, address_after(at, k as u64))?;
        if byte == 0 {
            break;
        }
        name.push(byte);
    }
    Name::of(name.as_slice())
}

/// The name of the app that the kernel switches to when it calls its function with this second argument, `name_at` bytes
/// from where that argument points to. None where a byte of it cannot be loaded, and where the bytes are no name of an
/// app: before the first zero byte, or 16 of them where none is zero.
pub fn app_name(ram: &GuestRam, csr: &CsrFile, a1: u64, name_at: u64) -> Option<Name>
    ensures { result ≡ app_name_of ram.now csr.now a1 name_at }
{
    name_at_address(ram, csr, address_after(Va(a1), name_at))
}
