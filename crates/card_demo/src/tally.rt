// How many requests there were.
use std::marker::Model;

/// How many requests there were, and how many of them were refused.
#[derive(Drop)]
pub struct Tally {
    count: u64,
    refused: u64,
}

impl Model for Tally {
    ghost use Rattle.std.specs.Prelude.{◌≤◌};
    ghost use Rattle.card_demo.specs.Progress as spec;

    ghost Value = { spec.Tally };

    ghost view = { λ t. record { count = t.count; refused = t.refused } };

    ghost invariant = { λ t. t.refused ≤ t.count };
}

impl Tally {
    ghost use Rattle.std.specs.Prelude.{◌≡◌, ◌≤◌, ◌<◌, ◌+◌, ◌^◌, if◌then◌else◌};

    /// None.
    pub fn new() -> Tally
        ensures { result ≡ record { count = 0; refused = 0 } }
    {
        Tally {
            count: 0,
            refused: 0,
        }
    }

    /// One more, which was refused or not. There were fewer than 2^63.
    pub fn note(&mut self, refused: bool)
        requires room { self.old.count < 2 ^ 63 }
        ensures count { self.new.count ≡ self.old.count + 1 }
        ensures refused { self.new.refused ≡ self.old.refused + (if refused then 1 else 0) }
    {
        if refused {
            self.refused += 1;
        }
        self.count += 1;
    }

    /// How many there were.
    pub fn count(&self) -> u64
        ensures { result ≡ self.now.count }
    {
        self.count
    }

    /// How many were refused.
    pub fn refused(&self) -> u64
        ensures value { result ≡ self.now.refused }
        ensures bound { self.now.refused ≤ self.now.count }
    {
        self.refused
    }
}
