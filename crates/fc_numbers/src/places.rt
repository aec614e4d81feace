//! Places, addresses and numbers. In contracts each is the plain number that it holds.

ghost use Rattle.std.specs.Prelude.{◌≡◌};
ghost use Rattle.fc_numbers.specs.Spans.{holds};

use std::marker::Model;

/// The place at which RAM begins (2 GiB, where the boards that the SBI knows have it).
pub const RAM_START: u64 = 0x8000_0000;

/// The most bytes of RAM (64 MiB).
pub const RAM_MOST: u64 = 0x400_0000;

/// The bytes of a page.
pub const PAGE: u64 = 4096;

/// A guest-physical place: the number of a byte of the guest's memory.
#[derive(Debug, Clone, Copy, PartialEq, Eq, Default)]
pub struct Gpa(pub u64);

impl Model for Gpa {
    ghost use Rattle.std.specs.Prelude.{ℕ, ◌<◌, ◌^◌};

    ghost Value = { ℕ };

    ghost view = { λ place. place.0 };

    ghost invariant = { λ place. place.0 < 2 ^ 64 };

    ghost inverse = { λ n. record { 0 = n } };
}

/// A virtual address of the guest.
#[derive(Debug, Clone, Copy, PartialEq, Eq, Default)]
pub struct Va(pub u64);

impl Model for Va {
    ghost use Rattle.std.specs.Prelude.{ℕ, ◌<◌, ◌^◌};

    ghost Value = { ℕ };

    ghost view = { λ address. address.0 };

    ghost invariant = { λ address. address.0 < 2 ^ 64 };

    ghost inverse = { λ n. record { 0 = n } };
}

/// The number of a vCPU, from 0 on.
#[derive(Debug, Clone, Copy, PartialEq, Eq, Default)]
pub struct VcpuNo(pub u8);

impl Model for VcpuNo {
    ghost use Rattle.std.specs.Prelude.{ℕ, ◌<◌, ◌^◌};

    ghost Value = { ℕ };

    ghost view = { λ vcpu. vcpu.0 };

    ghost invariant = { λ vcpu. vcpu.0 < 2 ^ 8 };

    ghost inverse = { λ n. record { 0 = n } };
}

/// The number of a view: 0 is the full view, and view n is that of the n-th app.
#[derive(Debug, Clone, Copy, PartialEq, Eq, Default)]
pub struct ViewNo(pub u8);

impl Model for ViewNo {
    ghost use Rattle.std.specs.Prelude.{ℕ, ◌<◌, ◌^◌};

    ghost Value = { ℕ };

    ghost view = { λ number. number.0 };

    ghost invariant = { λ number. number.0 < 2 ^ 8 };

    ghost inverse = { λ n. record { 0 = n } };
}

/// The number of a group of joined functions, from 0 on, in order of address.
#[derive(Debug, Clone, Copy, PartialEq, Eq, Default)]
pub struct GroupNo(pub u16);

impl Model for GroupNo {
    ghost use Rattle.std.specs.Prelude.{ℕ, ◌<◌, ◌^◌};

    ghost Value = { ℕ };

    ghost view = { λ group. group.0 };

    ghost invariant = { λ group. group.0 < 2 ^ 16 };

    ghost inverse = { λ n. record { 0 = n } };
}

/// The places from `start` up to, and without, `end`.
#[derive(Debug, Clone, Copy, PartialEq, Eq, Default)]
pub struct Span {
    pub start: Gpa,
    pub end: Gpa,
}

impl Span {
    /// Whether the place is one of the span's.
    pub fn contains(&self, place: Gpa) -> bool
        ensures { result ≡ holds self.now place }
    {
        self.start.0 <= place.0 && place.0 < self.end.0
    }
}
