// Why an opening isn't accepted.
ghost use Rattle.std.specs.Prelude.{◌≡◌, ◌<◌, true, not, None, nat_lt, nat_le, is_some, [], ◌∷◌};
ghost use Rattle.card_events.specs.Billing.{IsCloseDay};
ghost use Rattle.card_events.specs.History.{is_open, terms_in};
ghost use Rattle.card_model.specs.Rates.{index_on};
ghost use Rattle.card_model.specs.Refusals.{bad_terms_of, first_reason, reason_to_open, where_true};

use card_events::{ACCOUNT_LIMIT, Day, Post, RATE_LIMIT, Refusal, Terms};
use card_fees::{IndexTable, SharedRows};

// The first term that is out of its range: the closing day is 1 to 28, rates are at most 9,999 basis points, the floor is
// at most 1,000,000 cents, the part at most 10,000 basis points.
fn bad_term(terms: &Terms) -> Option<Refusal>
    ensures close_day { result ≡ None → IsCloseDay terms.now.close }
    ensures value { result ≡ bad_terms_of terms.now }
{
    if terms.close.get() == 0 || terms.close.get() > 28 {
        Some(Refusal::BadTerms(1))
    } else if terms.purchase.get() > RATE_LIMIT as u64 {
        Some(Refusal::BadTerms(2))
    } else if terms.cash.get() > RATE_LIMIT as u64 {
        Some(Refusal::BadTerms(3))
    } else if terms.transfer.get() > RATE_LIMIT as u64 {
        Some(Refusal::BadTerms(4))
    } else if terms.penalty.get() > RATE_LIMIT as u64 {
        Some(Refusal::BadTerms(5))
    } else if terms.floor.get() > 1_000_000 {
        Some(Refusal::BadTerms(6))
    } else if terms.pct.get() > 10_000 {
        Some(Refusal::BadTerms(7))
    } else {
        None
    }
}

/// Why the opening of an account isn't accepted today, where so many accounts exist: terms out of their ranges, a day ahead, no
/// index on the day where the rates follow it (12 CFR 1026.55(b)(2)), or a full ledger. `BadTerms` gives the place of the first
/// bad term, from 1. None where it is accepted. It doesn't allocate.
#[tactic(auto, unfolding(card_model::specs::Refusals::reason_to_open, card_model::specs::Refusals::no_index))]
pub fn open_reason(today: Day, accounts: usize, shared: &SharedRows, post: &Post) -> Option<Refusal>
    requires opens { is_open post.now ≡ true }
    ensures value { result ≡ reason_to_open today accounts shared.now post.now }
    ensures room { result ≡ None → accounts < 1_000_000 }
    ensures close_day { result ≡ None → IsCloseDay (terms_in post.now).close }
{
    match post {
        Post::Open { day, terms } => opening_reason(today, accounts, *day, terms, None),
        Post::OpenVariable { day, terms } => {
            let without = no_index(shared.index(), *day);
            opening_reason(today, accounts, *day, terms, without)
        }
        _ => unreachable!(),
    }
}

// Why rates can't follow the index from a day on.
fn no_index(index: &IndexTable, day: Day) -> Option<Refusal>
    ensures { result ≡ where_true (not (is_some (index_on index.now day))) Refusal.NoIndex }
{
    match index.on(day) {
        Some(_) => None,
        None => Some(Refusal::NoIndex),
    }
}

// The first reason against an opening, where this one is there for want of an index.
fn opening_reason(
    today: Day,
    accounts: usize,
    day: Day,
    terms: &Terms,
    without: Option<Refusal>,
) -> Option<Refusal>
    ensures value { result ≡ first_reason (bad_terms_of terms.now ∷ where_true (nat_lt today day) Refusal.DayAhead ∷ without ∷ where_true (nat_le 1000000 accounts) Refusal.LedgerFull ∷ []) }
    ensures room { result ≡ None → accounts < 1_000_000 }
    ensures close_day { result ≡ None → IsCloseDay terms.now.close }
{
    match bad_term(terms) {
        Some(refusal) => Some(refusal),
        None => later_open_reason(today, accounts, day, without),
    }
}

fn later_open_reason(
    today: Day,
    accounts: usize,
    day: Day,
    without: Option<Refusal>,
) -> Option<Refusal>
    ensures room { result ≡ None → accounts < 1_000_000 }
    ensures value { result ≡ first_reason (where_true (nat_lt today day) Refusal.DayAhead ∷ without ∷ where_true (nat_le 1000000 accounts) Refusal.LedgerFull ∷ []) }
{
    if today < day {
        return Some(Refusal::DayAhead);
    }
    match without {
        Some(refusal) => Some(refusal),
        None if accounts >= ACCOUNT_LIMIT => Some(Refusal::LedgerFull),
        None => None,
    }
}
