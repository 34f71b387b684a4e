use crate::side::Side;
use crate::sums::Sums;
use card_events::{Day, NoMemory};
use card_model::{Entry, EntryKind};
use std::alloc::Global;
use std::marker::Model;

/// The debits and the credits of each kind by days, over all accounts.
#[derive(Drop)]
pub struct Totals {
    debits: Sums,
    credits: Sums,
}

impl Model for Totals {
    ghost use Rattle.card_trial.specs.Totals.{BothSums};

    ghost Value = { BothSums };

    ghost view = { λ t. record { debits = t.debits; credits = t.credits } };
}

impl Totals {
    ghost use Rattle.std.specs.Prelude.{◌≡◌, ◌+◌, ◌*◌, ◌<◌, ◌≤◌, ◌^◌, ℕ, List, pos, length, IfOk};
    ghost use Rattle.card_model.specs.declared.entry.Entry.{Entry};
    ghost use Rattle.card_trial.specs.Sums.{all_between, of_all_kinds};
    ghost use Rattle.card_trial.specs.Totals.{AreEntered, AreEnough, AreNothing, AreSmall, AreTotals, HaveRoom, IsTakenOut};

    /// Nothing is entered yet. It wants 8.6 MB.
    pub fn new(alloc: Global) -> Result<Totals, NoMemory>
        ensures { IfOk result AreNothing }
    {
        Ok(Totals {
            debits: Sums::new(alloc)?,
            credits: Sums::new(alloc)?,
        })
    }

    /// All of it is taken out.
    pub fn clear(&mut self)
        ensures { AreNothing self.new }
    {
        self.debits.clear();
        self.credits.clear();
    }

    /// Enters entries, for which there is room: all sums of a side, and 2^63 cents for each entry, are less than 2^127.
    pub fn put_in(&mut self, entries: &[Entry])
        requires { HaveRoom (length entries.now) self.old }
        ensures { AreEntered entries.now self.old self.new }
    {
        self.debits.put_in(Side::Debits, entries);
        self.credits.put_in(Side::Credits, entries);
    }

    /// Takes entries out that were entered before.
    pub fn take_out(&mut self, entries: &[Entry])
        requires { AreEnough entries.now self.old }
        ensures { IsTakenOut entries.now self.old self.new }
    {
        self.debits.take_out(Side::Debits, entries);
        self.credits.take_out(Side::Credits, entries);
    }

    /// The debits of a kind from one day to another, in cents: 0 where this one is before that.
    pub fn debits(&self, from: Day, to: Day, kind: EntryKind) -> i128
        ensures { (lists : List (List Entry)) → AreTotals lists self.now → result ≡ pos (all_between Side.Debits from to kind lists) }
    {
        self.debits.between(from, to, kind)
    }

    /// The credits of a kind from one day to another, in cents: 0 where this one is before that.
    pub fn credits(&self, from: Day, to: Day, kind: EntryKind) -> i128
        ensures { (lists : List (List Entry)) → AreTotals lists self.now → result ≡ pos (all_between Side.Credits from to kind lists) }
    {
        self.credits.between(from, to, kind)
    }

    /// The debits of all kinds from one day to another, in cents. All debits and all credits are at most 2^120 each.
    pub fn all_debits(&self, from: Day, to: Day) -> u128
        requires { AreSmall self.now }
        ensures value { (lists : List (List Entry)) → AreTotals lists self.now → result ≡ of_all_kinds Side.Debits from to lists }
        ensures bound { result ≤ 2 ^ 123 }
    {
        self.debits.of_all_kinds(from, to)
    }

    /// The credits of all kinds from one day to another, in cents. All debits and all credits are at most 2^120 each.
    pub fn all_credits(&self, from: Day, to: Day) -> u128
        requires { AreSmall self.now }
        ensures value { (lists : List (List Entry)) → AreTotals lists self.now → result ≡ of_all_kinds Side.Credits from to lists }
        ensures bound { result ≤ 2 ^ 123 }
    {
        self.credits.of_all_kinds(from, to)
    }
}
