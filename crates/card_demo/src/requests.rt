// The requests of the demonstration, each drawn from the generator.
ghost use Rattle.std.specs.Prelude.{◌≡◌, ◌≤◌, ℕ, true, IfOk};
ghost use Rattle.card_events.specs.Dated.{is_dated};
ghost use Rattle.card_demo.specs.Requests.{one};
ghost use Rattle.card_demo.specs.Requests as spec;

use crate::generator::Generator;
use crate::names::{
    account_name, amend_key, bill_key, charge_key, date, days_before, name, number, payment_key,
    twentieth,
};
use card_events::{Channel, NoMemory, Place, Post, Request, Shared, Terms};
use std::alloc::Global;

/// The fees from 2011-01-02 on: 30.00, and 41.00 where one is repeated.
#[tactic(auto, unfolding(card_events::specs::Dated::is_dated, card_events::specs::Dated::is_dated_shared))]
pub fn fees_from_2011() -> Request
    ensures request { result ≡ spec.fees_from_2011 }
    ensures dated { is_dated result ≡ true }
{
    Request::Shared(Shared::FeeRow {
        day: date(2011, 1, 2),
        first: number(3000),
        repeat: number(4100),
    })
}

/// The roll to the 20th of the month that lies so many months, at most 60, after January 2024.
#[tactic(auto, unfolding(card_events::specs::Dated::is_dated, card_events::specs::Dated::is_dated_shared))]
pub fn roll(n: u32) -> Request
    requires { n ≤ 60 }
    ensures request { result ≡ spec.roll_to (spec.twentieth n) }
    ensures dated { is_dated result ≡ true }
{
    Request::Shared(Shared::Roll(twentieth(n)))
}

fn terms_closing(close: u32) -> Terms
    ensures { result ≡ spec.terms_closing close }
{
    Terms {
        close: number(close),
        purchase: number(1999),
        cash: number(2499),
        transfer: number(2199),
        penalty: number(2999),
        floor: number(2500),
        pct: number(100),
    }
}

/// The opening of the i-th account.
#[tactic(auto, unfolding(crate::specs::Requests::opening, card_events::specs::Dated::is_dated, card_events::specs::Dated::is_dated_post))]
pub fn opening(alloc: Global, i: u32, generator: &mut Generator) -> Result<Request, NoMemory>
    ensures request { IfOk result (λ r. one r generator.new ≡ spec.opening i generator.old) }
    ensures dated { IfOk result (λ r. is_dated r ≡ true) }
{
    let account = account_name(alloc, i)?;
    let key = name("o");
    let terms = terms_closing(16 + generator.below(4));
    let day = date(2024, 1, 5);
    Ok(Request::Post {
        account,
        key,
        post: Post::Open { day, terms },
    })
}

fn place_at(n: u32) -> Place
    ensures { result ≡ spec.place_at n }
{
    if n == 0 {
        Place::Purchase
    } else if n == 1 {
        Place::Cash
    } else {
        Place::Transfer
    }
}

/// The bill of cycle t of account i.
#[tactic(auto, unfolding(crate::specs::Requests::bill, card_events::specs::Dated::is_dated, card_events::specs::Dated::is_dated_post))]
pub fn bill(alloc: Global, t: u32, i: u32) -> Result<Request, NoMemory>
    ensures request { IfOk result (λ r. (x : ℕ) → one r x ≡ spec.bill t i x) }
    ensures dated { IfOk result (λ r. is_dated r ≡ true) }
{
    let account = account_name(alloc, i)?;
    let key = bill_key(alloc, t)?;
    let cycle = number(t);
    Ok(Request::Post {
        account,
        key,
        post: Post::Bill { cycle },
    })
}

/// The j-th charge of account i in cycle t, which is from 1 to 61.
#[tactic(auto, unfolding(crate::specs::Requests::charge, card_events::specs::Dated::is_dated, card_events::specs::Dated::is_dated_post))]
pub fn charge(
    alloc: Global,
    t: u32,
    i: u32,
    j: u32,
    generator: &mut Generator,
) -> Result<Request, NoMemory>
    requires first { 1 ≤ t }
    requires last { t ≤ 61 }
    ensures request { IfOk result (λ r. one r generator.new ≡ spec.charge t i j generator.old) }
    ensures dated { IfOk result (λ r. is_dated r ≡ true) }
{
    let account = account_name(alloc, i)?;
    let key = charge_key(alloc, t, j)?;
    let day = days_before(twentieth(t - 1), generator.below(10));
    let place = place_at(generator.below(3));
    let cents = number(100 + generator.below(20_000));
    Ok(Request::Post {
        account,
        key,
        post: Post::Charge { day, place, cents },
    })
}

/// The payment of account i in cycle t, which is from 1 to 61.
#[tactic(auto, unfolding(crate::specs::Requests::payment, card_events::specs::Dated::is_dated, card_events::specs::Dated::is_dated_post))]
pub fn payment(
    alloc: Global,
    t: u32,
    i: u32,
    generator: &mut Generator,
) -> Result<Request, NoMemory>
    requires first { 1 ≤ t }
    requires last { t ≤ 61 }
    ensures request { IfOk result (λ r. one r generator.new ≡ spec.payment t i generator.old) }
    ensures dated { IfOk result (λ r. is_dated r ≡ true) }
{
    let account = account_name(alloc, i)?;
    let key = payment_key(alloc, t)?;
    let day = days_before(twentieth(t - 1), generator.below(10));
    let minute = number(generator.below(1440));
    let cents = number(100 + generator.below(30_000));
    Ok(Request::Post {
        account,
        key,
        post: Post::Payment {
            day,
            minute,
            channel: Channel::Online,
            cents,
        },
    })
}

/// The amend of the first charge of account i, in cycle t.
#[tactic(auto, unfolding(crate::specs::Requests::amend, card_events::specs::Dated::is_dated, card_events::specs::Dated::is_dated_post))]
pub fn amend(alloc: Global, t: u32, i: u32, generator: &mut Generator) -> Result<Request, NoMemory>
    ensures request { IfOk result (λ r. one r generator.new ≡ spec.amend t i generator.old) }
    ensures dated { IfOk result (λ r. is_dated r ≡ true) }
{
    let account = account_name(alloc, i)?;
    let key = amend_key(alloc, t)?;
    let cents = number(generator.below(5000));
    Ok(Request::Post {
        account,
        key,
        post: Post::Amend {
            target: number(3),
            day: date(2024, 1, 10),
            cents,
        },
    })
}
