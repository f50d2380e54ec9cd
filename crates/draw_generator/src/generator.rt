ghost use Rattle.std.specs.Prelude.{◌≡◌, ◌%◌, ◌<◌, ◌≤◌, ◌^◌};
ghost use Rattle.draw_generator.specs.Draws.{next_state, drawn};

use std::marker::Model;

const MULTIPLIER: u64 = 6_364_136_223_846_793_005;

const INCREMENT: u64 = 1_442_695_040_888_963_407;

/// A linear congruential generator modulo 2^64, with the multiplier and increment of Knuth's MMIX.
///
/// Contracts see it as its state. A draw gives the upper 31 bits of the new state.
#[derive(Clone, Copy, Debug, PartialEq, Eq)]
pub struct Generator {
    state: u64,
}

impl Model for Generator {
    ghost use Rattle.std.specs.Prelude.{ℕ};
    ghost use Rattle.draw_generator.specs.Draws.{IsState};

    ghost Value = { ℕ };

    ghost view = { λ g. g.state };

    ghost invariant = { λ g. IsState g.state };

    ghost inverse = { λ x. record { state = x } };
}

impl Generator {
    /// The generator whose state is the seed.
    pub fn new(seed: u64) -> Generator
        ensures { result ≡ seed }
    {
        Generator { state: seed }
    }

    pub fn state(&self) -> u64
        ensures { result ≡ self.now }
    {
        self.state
    }

    pub fn draw(&mut self) -> u64
        ensures state { self.new ≡ next_state self.old }
        ensures number { result ≡ drawn self.old }
        ensures range { result < 2 ^ 31 }
    {
        self.state = self.state.wrapping_mul(MULTIPLIER).wrapping_add(INCREMENT);
        self.state >> 33
    }

    /// Draws a number below the count: what is left of a draw when it is divided by the count.
    pub fn draw_below(&mut self, count: u64) -> u64
        requires { 1 ≤ count }
        ensures state { self.new ≡ next_state self.old }
        ensures number { result ≡ drawn self.old % count }
        ensures range { result < count }
    {
        self.draw() % count
    }
}
