// Amounts of money of any size.
ghost use Rattle.std.specs.Prelude.{◌≡◌, unsigned_abs, Some};
ghost use Rattle.card_events.specs.Money.{money_text, sign_text};

use std::fmt;

/// Cents of any size as an amount of money: an optional minus, the units, a point and two digits.
#[derive(Clone, Copy)]
pub struct WideMoney(pub i128);

impl WideMoney {
    fn sign(&self) -> &'static str
        ensures { result.now ≡ sign_text self.now.0 }
    {
        if self.0 < 0 { "-" } else { "" }
    }

    fn size(&self) -> u128
        ensures { result ≡ unsigned_abs self.now.0 }
    {
        self.0.unsigned_abs()
    }
}

impl fmt::Display for WideMoney {
    ghost output = { λ m. Some (money_text m.0) };

    #[tactic(auto, using(card_events::proofs::Texts::texts), unfolding(card_events::specs::Money::money_text))]
    fn fmt<W: fmt::Write>(&self, f: &mut fmt::Formatter<W>) -> fmt::Result {
        let size = self.size();
        write!(
            f,
            "{}{}.{}{}",
            self.sign(),
            size / 100,
            size % 100 / 10,
            size % 10
        )
    }
}
