// Which demonstrations there are.

use card_events::Num;
use std::marker::Model;

const MOST_ACCOUNTS: u64 = 1000;

const MOST_CYCLES: u64 = 60;

/// A demonstration: where its generator begins, how many accounts it opens, at most 1,000, and how many cycles they go through,
/// 1 to 60.
#[derive(Drop)]
pub struct Demonstration {
    start: Num,
    accounts: u32,
    cycles: u32,
}

impl Model for Demonstration {
    ghost use Rattle.card_words.specs.Demonstrations.{Demonstration, IsInRange};

    ghost Value = { Demonstration };

    ghost view = { λ d. record { start = d.start; accounts = d.accounts; cycles = d.cycles } };

    ghost invariant = { λ d. IsInRange d.accounts d.cycles };
}

impl Demonstration {
    ghost use Rattle.std.specs.Prelude.{◌≡◌};
    ghost use Rattle.card_words.specs.Demonstrations.{demonstration, IsInRange};

    /// The demonstration of these numbers, None where there are too many accounts or cycles, or no cycle.
    #[tactic(auto, unfolding(crate::specs::Demonstrations::demonstration))]
    pub fn new(start: Num, accounts: Num, cycles: Num) -> Option<Demonstration>
        ensures { result ≡ demonstration start accounts cycles }
    {
        let accounts = accounts.get();
        let cycles = cycles.get();
        if accounts <= MOST_ACCOUNTS && 1 <= cycles && cycles <= MOST_CYCLES {
            Some(Demonstration {
                start,
                accounts: accounts as u32,
                cycles: cycles as u32,
            })
        } else {
            None
        }
    }

    /// Where the generator begins.
    pub fn start(&self) -> Num
        ensures { result ≡ self.now.start }
    {
        self.start
    }

    /// How many accounts are opened.
    pub fn accounts(&self) -> u32
        ensures value { result ≡ self.now.accounts }
        ensures range { IsInRange self.now.accounts self.now.cycles }
    {
        self.accounts
    }

    /// How many cycles they go through.
    pub fn cycles(&self) -> u32
        ensures value { result ≡ self.now.cycles }
        ensures range { IsInRange self.now.accounts self.now.cycles }
    {
        self.cycles
    }
}
