//! The generator of the drill, and the layout table that the drill uses.

ghost use Rattle.std.specs.Prelude.{◌≡◌, ◌<◌, ◌≤◌};
ghost use Rattle.t7_script.specs.Draws.{drawn, next_state};

use std::marker::Model;
use t7_sample::SAMPLE;

const FACTOR: u64 = 6_364_136_223_846_793_005;

const STEP: u64 = 1_442_695_040_888_963_407;

/// The generator of the drill: a state of 64 bits, which each draw moves on.
///
/// Contracts see it as its state.
#[derive(Drop)]
pub struct Draw {
    state: u64,
}

impl Model for Draw {
    ghost use Rattle.std.specs.Prelude.{ℕ};

    ghost Value = { ℕ };

    ghost view = { λ d. d.state };
}

impl Draw {
    /// The generator before its first draw.
    pub fn new(seed: u64) -> Draw
        ensures { result ≡ seed }
    {
        Draw { state: seed }
    }

    /// Draws one of the k numbers from 0 on, where k is at least 1.
    pub fn next(&mut self, k: u64) -> u64
        requires { 1 ≤ k }
        ensures state { self.new ≡ next_state self.old }
        ensures number { result ≡ drawn k self.old }
        ensures below { result < k }
    {
        self.state = self.state.wrapping_mul(FACTOR).wrapping_add(STEP);
        (self.state >> 33) % k
    }
}

/// The bytes of the layout table that the drill uses: all 32 roles and no other template, each template's fields one behind another.
pub fn sample() -> &'static [u8]
    ensures { result.now ≡ SAMPLE.now }
{
    SAMPLE.as_bytes()
}
