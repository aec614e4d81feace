//! The numbers from which a guest is made.

ghost use Rattle.std.specs.Prelude.{◌≡◌, ◌<◌, ◌^◌};
ghost use Rattle.guest_maker.specs.Generator.{answer, generator_next};

use std::marker::Model;

/// The factor and the addend of the generator, which is linear congruential modulo 2^64.
const FACTOR: u64 = 6_364_136_223_846_793_005;

const ADDEND: u64 = 1_442_695_040_888_963_407;

/// Only the high bits of a state are an answer: what a state is divided by.
const LOW_BITS: u64 = 0x2_0000_0000;

/// A generator of numbers. In contracts it is the number that is its state.
#[derive(Drop)]
pub(crate) struct Generator(u64);

impl Model for Generator {
    ghost use Rattle.std.specs.Prelude.{ℕ, ◌<◌, ◌^◌};

    ghost Value = { ℕ };

    ghost view = { λ generator. generator.0 };

    ghost invariant = { λ generator. generator.0 < 2 ^ 64 };

    ghost inverse = { λ n. record { 0 = n } };
}

impl Generator {
    pub(crate) fn new(seed: u64) -> Generator
        ensures { result ≡ seed }
    {
        Generator(seed)
    }

    /// The next answer, below 2^31.
    pub(crate) fn draw(&mut self) -> u32
        ensures state { self.new ≡ generator_next self.old }
        ensures value { result ≡ answer self.new }
        ensures small { result < 2 ^ 31 }
    {
        self.0 = self.0.wrapping_mul(FACTOR).wrapping_add(ADDEND);
        (self.0 / LOW_BITS) as u32
    }
}
