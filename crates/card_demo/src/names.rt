// Names and days of the demonstration.
ghost use Rattle.std.specs.Prelude.{◌≡◌, ◌≤◌, ◌+◌, ◌-◌, true, IfOk};
ghost use Rattle.card_events.specs.Civil.{day_at, is_date};
ghost use Rattle.card_events.specs.Range.{first_calendar_day, last_request_day};
ghost use Rattle.card_events.specs.Names.{is_name};
ghost use Rattle.card_demo.specs.Requests as spec;

use card_events::{Day, Name, NoMemory, Num};
use std::alloc::Global;

/// The name with this text, which is one.
pub fn name(text: &str) -> Name
    requires { is_name text.now ≡ true }
    ensures { result ≡ text.now }
{
    match Name::read(text.as_bytes()) {
        Some(name) => name,
        None => unreachable!(),
    }
}

/// The name of the i-th account.
#[tactic(auto, using(crate::proofs::NameLemmas::lettered))]
pub fn account_name(alloc: Global, i: u32) -> Result<Name, NoMemory>
    ensures { IfOk result (λ name. name ≡ spec.account i) }
{
    let text = format!(in alloc; "d{i}")?;
    Ok(name(&text))
}

/// The key of the bill of cycle t.
#[tactic(auto, using(crate::proofs::NameLemmas::lettered))]
pub fn bill_key(alloc: Global, t: u32) -> Result<Name, NoMemory>
    ensures { IfOk result (λ name. name ≡ spec.bill_key t) }
{
    let text = format!(in alloc; "b{t}")?;
    Ok(name(&text))
}

/// The key of the j-th charge of cycle t.
#[tactic(auto, using(crate::proofs::NameLemmas::dashed, crate::proofs::NameLemmas::texts))]
pub fn charge_key(alloc: Global, t: u32, j: u32) -> Result<Name, NoMemory>
    ensures { IfOk result (λ name. name ≡ spec.charge_key t j) }
{
    let text = format!(in alloc; "c{t}-{j}")?;
    Ok(name(&text))
}

/// The key of the payment of cycle t.
#[tactic(auto, using(crate::proofs::NameLemmas::lettered))]
pub fn payment_key(alloc: Global, t: u32) -> Result<Name, NoMemory>
    ensures { IfOk result (λ name. name ≡ spec.payment_key t) }
{
    let text = format!(in alloc; "p{t}")?;
    Ok(name(&text))
}

/// The key of the amend of cycle t.
#[tactic(auto, using(crate::proofs::NameLemmas::lettered))]
pub fn amend_key(alloc: Global, t: u32) -> Result<Name, NoMemory>
    ensures { IfOk result (λ name. name ≡ spec.amend_key t) }
{
    let text = format!(in alloc; "a{t}")?;
    Ok(name(&text))
}

/// A number of requests.
pub fn number(n: u32) -> Num
    ensures { result ≡ n }
{
    match Num::new(n as u64) {
        Some(number) => number,
        None => unreachable!(),
    }
}

/// The day with this date, which the calendar has.
pub fn date(y: u16, m: u8, d: u8) -> Day
    requires { is_date y m d ≡ true }
    ensures { result ≡ day_at y m d }
{
    match Day::from_ymd(y, m, d) {
        Some(day) => day,
        None => unreachable!(),
    }
}

/// The 20th of the month that lies so many months, at most 60, after January 2024.
#[tactic(auto, using(crate::proofs::DayLemmas::is_there, crate::proofs::DayLemmas::is_late, crate::proofs::DayLemmas::is_early), unfolding(crate::specs::Requests::twentieth))]
pub fn twentieth(n: u32) -> Day
    requires { n ≤ 60 }
    ensures day { result ≡ spec.twentieth n }
    ensures first { first_calendar_day + 9 ≤ result }
    ensures last { result ≤ last_request_day }
{
    date((2024 + n / 12) as u16, (n % 12 + 1) as u8, 20)
}

/// The day that lies so many days before today. The calendar has it.
pub fn days_before(today: Day, days: u32) -> Day
    requires { first_calendar_day + days ≤ today }
    ensures { result ≡ today - days }
{
    match Day::from_number(today.number() - days as i32) {
        Some(day) => day,
        None => unreachable!(),
    }
}
