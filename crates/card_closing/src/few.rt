ghost use Rattle.std.specs.Prelude.{◌≡◌, [], ◌∷◌, ◌++◌, true, false};

use crate::amount::Amount;
use std::marker::Model;

// Up to four amounts. Clauses see the list of them.
#[derive(Drop)]
pub struct Few {
    count: u8,
    amounts: [Amount; 4],
}

impl Model for Few {
    ghost use Rattle.std.specs.Prelude.{◌≡◌, ◌≤◌, length, take};
    ghost use Rattle.card_model.specs.Cycles.{Amounts};

    ghost Value = { Amounts };

    ghost view = { λ f. take f.count f.amounts };

    ghost invariant = { λ f. (f.count ≤ 4) × (length f.amounts ≡ 4) };
}

impl Few {
    // No amounts.
    pub fn none() -> Few
        ensures { result ≡ [] }
    {
        Few {
            count: 0,
            amounts: [Amount::new(0, 0); 4],
        }
    }

    // The amounts.
    pub fn as_slice(&self) -> &[Amount]
        ensures { result.now ≡ self.now }
    {
        &self.amounts[..self.count as usize]
    }

    // One amount more, at the end, where there is a place for it, and whether there was.
    pub fn push(&mut self, amount: Amount) -> bool
        ensures room { result ≡ true → self.new ≡ self.old ++ amount ∷ [] }
        ensures full { result ≡ false → self.new ≡ self.old }
    {
        if self.count as usize >= self.amounts.len() {
            return false;
        }
        self.amounts[self.count as usize] = amount;
        self.count += 1;
        true
    }

    // The same amounts.
    pub fn copy(&self) -> Few
        ensures { result ≡ self.now }
    {
        Few {
            count: self.count,
            amounts: self.amounts,
        }
    }
}
