// The opening of the account of the cases.
ghost use Rattle.std.specs.Prelude.{◌≡◌};
ghost use Rattle.card_cases.specs.Account.{opening};

use crate::values::{day, num};
use card_events::{Post, Terms};
use std::process::Abort;

pub fn opening(rt: &impl Abort) -> Post
    ensures { result ≡ opening }
{
    Post::Open {
        day: day(rt, 19_728),
        terms: Terms {
            close: num(rt, 5),
            purchase: num(rt, 1_999),
            cash: num(rt, 2_499),
            transfer: num(rt, 2_199),
            penalty: num(rt, 2_999),
            floor: num(rt, 2_500),
            pct: num(rt, 100),
        },
    }
}
