ghost use Rattle.std.specs.Prelude.{◌≡◌, unsigned_abs, Some};
ghost use Rattle.card_events.specs.Money.{sign_text, money_text};

use crate::Cents;
use std::fmt;

/// Cents as an amount of money: an optional minus, the units, a point and two digits.
#[derive(Clone, Copy)]
pub struct Money(pub Cents);

impl Money {
    fn sign(&self) -> &'static str
        ensures { result.now ≡ sign_text self.now.0 }
    {
        if self.0 < 0 { "-" } else { "" }
    }

    fn size(&self) -> u64
        ensures { result ≡ unsigned_abs self.now.0 }
    {
        self.0.unsigned_abs()
    }
}

impl fmt::Display for Money {
    ghost output = { λ m. Some (money_text m.0) };

    #[tactic(auto, using(crate::proofs::Texts::texts), unfolding(crate::specs::Money::money_text))]
    fn fmt<W: fmt::Write>(&self, f: &mut fmt::Formatter<W>) -> fmt::Result {
        let size = self.size();
        write!(
            f,
            "{}{}.{}{}",
            self.sign(),
            size / 100,
            size % 100 / 10,
            size % 10
        )
    }
}
