use std::marker::Model;

const MULTIPLIER: u64 = 1_103_515_245;

const INCREMENT: u64 = 12_345;

const MODULUS: u64 = 1 << 31;

/// A linear congruential generator of numbers. A contract sees its state.
#[derive(Drop)]
pub(crate) struct Draws {
    state: u32,
}

impl Model for Draws {
    ghost use Rattle.std.specs.Prelude.{ℕ};

    ghost Value = { ℕ };

    ghost view = { λ d. d.state };
}

impl Draws {
    ghost use Rattle.std.specs.Prelude.{◌≡◌, ◌/◌};
    ghost use Rattle.generator.specs.Draws.{next_state, state_behind};

    /// The generator that begins with this number.
    pub(crate) fn new(seed: u32) -> Draws
        ensures { result ≡ seed }
    {
        Draws { state: seed }
    }

    /// Draws a number: the upper bits of the next state.
    pub(crate) fn draw(&mut self) -> u32
        ensures number { result ≡ self.new / 65536 }
        ensures state { self.new ≡ next_state self.old }
    {
        let state = (MULTIPLIER * u64::from(self.state) + INCREMENT) % MODULUS;
        self.state = state as u32;
        self.state / 65_536
    }

    /// Passes over so many numbers.
    #[tactic(auto, using(crate::proofs::DrawLemmas::state_behind_all, crate::proofs::DrawLemmas::state_behind_more))]
    pub(crate) fn skip(&mut self, count: u32)
        ensures { self.new ≡ state_behind count self.old }
    {
        for _ in 0..count {
            self.draw();
        }
    }
}
