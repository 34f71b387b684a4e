// The generator of the demonstration.
ghost use Rattle.std.specs.Prelude.{◌≡◌};

use card_events::Num;
use std::marker::Model;

const FACTOR: u64 = 6_364_136_223_846_793_005;

const SUMMAND: u64 = 1_442_695_040_888_963_407;

/// A linear congruential generator. Clauses see it as the number below 2^64 where it is.
#[derive(Drop)]
pub struct Generator {
    x: u64,
}

impl Model for Generator {
    ghost use Rattle.std.specs.Prelude.{ℕ};

    ghost Value = { ℕ };

    ghost view = { λ g. g.x };
}

impl Generator {
    ghost use Rattle.std.specs.Prelude.{◌≡◌, ◌<◌, ◌%◌, ◌^◌};
    ghost use Rattle.card_demo.specs.Generator.{drawn, stepped};

    /// It begins at this number.
    pub fn new(start: Num) -> Generator
        ensures { result ≡ start }
    {
        Generator { x: start.get() }
    }

    // Steps to the next number.
    #[tactic(auto, unfolding(crate::specs::Generator::stepped))]
    fn step(&mut self)
        ensures { self.new ≡ stepped self.old }
    {
        self.x = self.x.wrapping_mul(FACTOR).wrapping_add(SUMMAND);
    }

    /// Steps, and gives the remainder of the upper 31 bits at a division by a number above 0.
    #[tactic(auto, unfolding(crate::specs::Generator::drawn))]
    pub fn below(&mut self, limit: u32) -> u32
        requires { 0 < limit }
        ensures next { self.new ≡ stepped self.old }
        ensures value { result ≡ drawn self.old % limit }
        ensures bound { result < limit }
    {
        self.step();
        (self.x >> 33) as u32 % limit
    }
}
