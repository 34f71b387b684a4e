// The run of the generated requests.

use crate::generator::Generator;
use crate::ledger::MemoryLedger;
use crate::requests::{amend, bill, charge, fees_from_2011, opening, payment, roll};
use crate::tally::Tally;
use crate::totals::Totals;
use card_events::{NoMemory, Num, Request};
use std::alloc::Global;
use std::marker::Model;

/// How far a demonstration is: its ledger, its generator, and how many requests there were. No list of requests is made: each
/// is drawn when it is its turn.
#[derive(Drop)]
pub struct Progress {
    ledger: MemoryLedger,
    generator: Generator,
    tally: Tally,
}

impl Model for Progress {
    ghost use Rattle.card_demo.specs.Progress as spec;

    ghost Value = { spec.Progress };

    ghost view = { λ p. record { state = p.ledger; x = p.generator; count = p.tally.count; refused = p.tally.refused } };
}

impl Progress {
    ghost use Rattle.std.specs.Prelude.{◌≡◌, ◌≤◌, ◌<◌, ◌+◌, ◌^◌, true, IfOk, OnOk};
    ghost use Rattle.card_demo.specs.Progress.{after, at_start};
    ghost use Rattle.card_demo.specs.Requests.{one};
    ghost use Rattle.card_demo.specs.Requests as spec;
    ghost use Rattle.card_demo.specs.Summary.{all_entries};
    ghost use Rattle.card_demo.specs.Sums.{totals};
    ghost use Rattle.card_events.specs.Dated.{is_dated};

    /// An empty ledger, and the generator at this number.
    pub fn new(alloc: Global, seed: Num) -> Progress
        ensures { result ≡ at_start seed }
    {
        Progress {
            ledger: MemoryLedger::new(alloc),
            generator: Generator::new(seed),
            tally: Tally::new(),
        }
    }

    // Has the ledger carry out a request.
    fn send(&mut self, alloc: Global, request: &Request) -> Result<(), NoMemory>
        requires dated { is_dated request.now ≡ true }
        requires room { self.old.count < 2 ^ 63 }
        ensures { OnOk result (self.new ≡ after self.old (one request.now self.old.x)) }
    {
        let refused = self.ledger.apply(alloc, request)?;
        self.tally.note(refused);
        Ok(())
    }

    // The fees and the first day.
    fn begin(&mut self, alloc: Global) -> Result<(), NoMemory>
        requires room { self.old.count ≤ 2 ^ 61 }
        ensures { OnOk result (self.new ≡ after self.old (spec.beginning self.old.x)) }
    {
        self.send(alloc, &fees_from_2011())?;
        self.send(alloc, &roll(0))
    }

    // Opens the i-th account.
    fn open_account(&mut self, alloc: Global, i: u32) -> Result<(), NoMemory>
        requires room { self.old.count < 2 ^ 63 }
        ensures { OnOk result (self.new ≡ after self.old (spec.opening i self.old.x)) }
    {
        let request = opening(alloc, i, &mut self.generator)?;
        self.send(alloc, &request)
    }

    // Opens the first so many accounts.
    fn open_all(&mut self, alloc: Global, accounts: u32) -> Result<(), NoMemory>
        requires accounts { accounts ≤ 1000 }
        requires room { self.old.count ≤ 2 ^ 61 }
        ensures { OnOk result (self.new ≡ after self.old (spec.openings accounts self.old.x)) }
    {
        for i in 0..accounts {
            self.open_account(alloc, i + 1)?;
        }
        Ok(())
    }

    // Bills cycle t of account i.
    fn send_bill(&mut self, alloc: Global, t: u32, i: u32) -> Result<(), NoMemory>
        requires room { self.old.count < 2 ^ 63 }
        ensures { OnOk result (self.new ≡ after self.old (spec.bill t i self.old.x)) }
    {
        let request = bill(alloc, t, i)?;
        self.send(alloc, &request)
    }

    // Sends the j-th charge of account i in cycle t.
    fn send_charge(&mut self, alloc: Global, t: u32, i: u32, j: u32) -> Result<(), NoMemory>
        requires first { 1 ≤ t }
        requires last { t ≤ 61 }
        requires room { self.old.count < 2 ^ 63 }
        ensures { OnOk result (self.new ≡ after self.old (spec.charge t i j self.old.x)) }
    {
        let request = charge(alloc, t, i, j, &mut self.generator)?;
        self.send(alloc, &request)
    }

    // Sends the four charges of account i in cycle t.
    fn send_charges(&mut self, alloc: Global, t: u32, i: u32) -> Result<(), NoMemory>
        requires first { 1 ≤ t }
        requires last { t ≤ 61 }
        requires room { self.old.count + 4 < 2 ^ 63 }
        ensures { OnOk result (self.new ≡ after self.old (spec.charges t i 4 self.old.x)) }
    {
        for j in 0..4_u32 {
            self.send_charge(alloc, t, i, j + 1)?;
        }
        Ok(())
    }

    // Sends the payment of account i in cycle t.
    fn send_payment(&mut self, alloc: Global, t: u32, i: u32) -> Result<(), NoMemory>
        requires first { 1 ≤ t }
        requires last { t ≤ 61 }
        requires room { self.old.count < 2 ^ 63 }
        ensures { OnOk result (self.new ≡ after self.old (spec.payment t i self.old.x)) }
    {
        let request = payment(alloc, t, i, &mut self.generator)?;
        self.send(alloc, &request)
    }

    // Sends the amend of account i in cycle t.
    fn send_amend(&mut self, alloc: Global, t: u32, i: u32) -> Result<(), NoMemory>
        requires room { self.old.count < 2 ^ 63 }
        ensures { OnOk result (self.new ≡ after self.old (spec.amend t i self.old.x)) }
    {
        let request = amend(alloc, t, i, &mut self.generator)?;
        self.send(alloc, &request)
    }

    // Sends the seven requests of account i in cycle t.
    fn pass_account(&mut self, alloc: Global, t: u32, i: u32) -> Result<(), NoMemory>
        requires first { 1 ≤ t }
        requires last { t ≤ 61 }
        requires room { self.old.count + 7 < 2 ^ 63 }
        ensures { OnOk result (self.new ≡ after self.old (spec.account_cycle t i self.old.x)) }
    {
        self.send_bill(alloc, t, i)?;
        self.send_charges(alloc, t, i)?;
        self.send_payment(alloc, t, i)?;
        self.send_amend(alloc, t, i)
    }

    // Sends those of the first so many accounts.
    fn pass_accounts(&mut self, alloc: Global, t: u32, accounts: u32) -> Result<(), NoMemory>
        requires accounts { accounts ≤ 1000 }
        requires first { 1 ≤ t }
        requires last { t ≤ 61 }
        requires room { self.old.count ≤ 2 ^ 62 }
        ensures { OnOk result (self.new ≡ after self.old (spec.accounts_cycle t accounts self.old.x)) }
    {
        for i in 0..accounts {
            self.pass_account(alloc, t, i + 1)?;
        }
        Ok(())
    }

    // A cycle of all accounts, and the roll to the next month.
    fn pass_cycle(&mut self, alloc: Global, accounts: u32, t: u32) -> Result<(), NoMemory>
        requires accounts { accounts ≤ 1000 }
        requires first { 1 ≤ t }
        requires last { t ≤ 60 }
        requires room { self.old.count ≤ 2 ^ 62 }
        ensures { OnOk result (self.new ≡ after self.old (spec.cycle accounts t self.old.x)) }
    {
        self.pass_accounts(alloc, t, accounts)?;
        self.send(alloc, &roll(t))
    }

    // The first so many cycles.
    fn pass_cycles(&mut self, alloc: Global, accounts: u32, cycles: u32) -> Result<(), NoMemory>
        requires accounts { accounts ≤ 1000 }
        requires cycles { cycles ≤ 60 }
        requires room { self.old.count ≤ 2 ^ 61 }
        ensures { OnOk result (self.new ≡ after self.old (spec.cycles accounts cycles self.old.x)) }
    {
        for t in 0..cycles {
            self.pass_cycle(alloc, accounts, t + 1)?;
        }
        Ok(())
    }

    /// Has the ledger carry out all requests of a demonstration of so many accounts, at most 1,000, and cycles, at most 60. There were at
    /// most 2^60 requests before.
    pub fn run(&mut self, alloc: Global, accounts: u32, cycles: u32) -> Result<(), NoMemory>
        requires accounts { accounts ≤ 1000 }
        requires cycles { cycles ≤ 60 }
        requires room { self.old.count ≤ 2 ^ 60 }
        ensures { OnOk result (self.new ≡ after self.old (spec.all_pieces self.old.x accounts cycles)) }
    {
        self.begin(alloc)?;
        self.open_all(alloc, accounts)?;
        self.pass_cycles(alloc, accounts, cycles)
    }

    /// How many requests there were and were refused so far.
    pub fn tally(&self) -> &Tally
        ensures { result.now ≡ record { count = self.now.count; refused = self.now.refused } }
    {
        &self.tally
    }

    /// The sums over the first so many accounts, at most 1,000, up to the end of today.
    pub fn totals(&mut self, alloc: Global, accounts: u32) -> Result<Totals, NoMemory>
        requires accounts { accounts ≤ 1000 }
        ensures same { self.new ≡ self.old }
        ensures totals { IfOk result (λ t. t ≡ totals (all_entries self.old.state accounts)) }
    {
        self.ledger.totals(alloc, accounts)
    }
}
