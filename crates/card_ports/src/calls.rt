// The calls of a form in memory.
ghost use Rattle.std.specs.Prelude.{◌≡◌};
ghost use Rattle.card_ports.specs.Forms as spec;

use std::marker::Model;

// One more, where the count can rise.
fn count_on(n: u64) -> u64
    ensures { result ≡ spec.count_on n }
{
    if n < u64::MAX { n + 1 } else { n }
}

/// The calls of a form in memory that can fail. They are counted from 1; those that are listed fail, and no other.
#[derive(Drop)]
pub struct Calls {
    fails: Vec<u64>,
    made: u64,
    faults: u64,
}

impl Model for Calls {
    ghost use Rattle.card_ports.specs.Forms as spec;

    ghost Value = { spec.Calls };

    ghost view = { λ c. record { fails = c.fails.items; made = c.made; faults = c.faults } };
}

impl Calls {
    ghost use Rattle.std.specs.Prelude.{◌≡◌, ◌≤◌, IsTrue};
    ghost use Rattle.card_ports.specs.Counts.{Rose};
    ghost use Rattle.card_ports.specs.Forms.{no_calls, fails_next, after_call, after_fault};

    /// No call was made, and the listed ones fail.
    pub fn new(fails: Vec<u64>) -> Calls
        ensures { result ≡ no_calls fails.items }
    {
        Calls {
            fails,
            made: 0,
            faults: 0,
        }
    }

    fn is_next_listed(&self) -> bool
        ensures { result ≡ fails_next self.now }
    {
        let call = count_on(self.made);
        self.fails.iter().any(|listed| *listed == call)
    }

    /// Makes the next call. Whether it fails, which is counted.
    pub fn fails_now(&mut self) -> bool
        ensures fails { result ≡ fails_next self.old }
        ensures calls { self.new ≡ after_call self.old }
        ensures count { self.old.faults ≤ self.new.faults }
        ensures rose { IsTrue result → Rose self.old.faults self.new.faults }
    {
        let fails = self.is_next_listed();
        self.made = count_on(self.made);
        if fails {
            self.faults = count_on(self.faults);
        }
        fails
    }

    /// Counts a fault that isn't of a listed call.
    pub fn count_fault(&mut self)
        ensures calls { self.new ≡ after_fault self.old }
        ensures count { self.old.faults ≤ self.new.faults }
        ensures rose { Rose self.old.faults self.new.faults }
    {
        let faults = count_on(self.faults);
        self.faults = faults;
    }
}
