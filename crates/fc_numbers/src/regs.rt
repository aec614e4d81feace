//! The 32 integer registers (unprivileged manual, "Programmers' Model for Base Integer ISA"), and sign extension.

ghost use Rattle.std.specs.Prelude.{◌≡◌, ◌≤◌, ◌<◌};
ghost use Rattle.fc_numbers.specs.Numbers.{get_reg, set_reg, zero_regs, sext_of};

use std::marker::Model;

/// Register x1: the return address, in the standard calling convention.
pub const RA: u8 = 1;

/// Register x8: the frame pointer.
pub const FP: u8 = 8;

/// Register x10: the first argument, and the first answer.
pub const A0: u8 = 10;

/// Register x11: the second argument, and the second answer.
pub const A1: u8 = 11;

/// Register x16: the number of the function of a supervisor call.
pub const A6: u8 = 16;

/// Register x17: the number of the extension of a supervisor call.
pub const A7: u8 = 17;

/// The registers x0 to x31; x0 is always 0. In contracts they are the list of the 32 numbers.
#[derive(Debug, Clone, Copy)]
pub struct Regs {
    values: [u64; 32],
}

impl Model for Regs {
    ghost use Rattle.std.specs.Prelude.{ℕ, List, ◌≡◌, slice_index};

    ghost Value = { List ℕ };

    ghost view = { λ regs. regs.values };

    ghost invariant = { λ regs. slice_index regs.values 0 ≡ 0 };

    ghost inverse = { λ values. record { values = values } };
}

impl Regs {
    /// Registers that are all zero.
    pub fn new() -> Regs
        ensures { result ≡ zero_regs }
    {
        Regs { values: [0; 32] }
    }

    /// Register n.
    pub fn get(&self, n: u8) -> u64
        requires { n < 32 }
        ensures { result ≡ get_reg self.now n }
    {
        self.values[n as usize]
    }

    /// Writes register n; register 0 is not written.
    pub fn set(&mut self, n: u8, v: u64)
        requires { n < 32 }
        ensures { self.new ≡ set_reg self.old n v }
    {
        if n != 0 {
            self.values[n as usize] = v;
        }
    }
}

/// The low `bits` bits of v, sign-extended to 64 bits.
pub fn sext(v: u64, bits: u8) -> u64
    requires some { 1 ≤ bits }
    requires most { bits ≤ 64 }
    ensures { result ≡ sext_of bits v }
{
    let size: u128 = 1 << bits;
    let low = v as u128 % size;
    if low < size / 2 {
        low as u64
    } else {
        (low + (0x1_0000_0000_0000_0000 - size)) as u64
    }
}
