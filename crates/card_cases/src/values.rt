// Days, numbers, names and tables.
ghost use Rattle.std.specs.Prelude.{◌≡◌, ◌≤◌};
ghost use Rattle.card_events.specs.Business.{last_minute};

use card_events::{Anchor, Calendar, Channel, Day, Money, Name, Num, closing, credit_day, due};
use card_fees::FeeTable;
use std::alloc::Global;
use std::process::Abort;
use std::test::Fail;

pub fn day(rt: &impl Abort, n: u16) -> Day
    ensures { result ≡ n }
{
    Day::from_number(i32::from(n)).expect(rt, "a day")
}

pub fn num(rt: &impl Abort, n: u32) -> Num
    ensures { result ≡ n }
{
    Num::new(u64::from(n)).expect(rt, "a number")
}

pub fn name(rt: &impl Abort, text: &str) -> Name
    ensures { result ≡ text.now }
{
    Name::read(text.as_bytes()).expect(rt, "a name")
}

static MONEY: [(i64, &str); 3] = [
    (5, "0.05"),
    (-123_456, "-1234.56"),
    (i64::MIN, "-92233720368547758.08"),
];

#[test]
fn texts_of_values(rt: HostRuntime) -> Result<(), Fail> {
    for &(cents, text) in &MONEY {
        assert_eq!(rt; Money(cents).to_string(rt.alloc())?.as_str(), text);
    }
    let leap = day(&rt, 19_782);
    assert_eq!(rt; leap.to_string(rt.alloc())?.as_str(), "2024-02-29");
    Ok(())
}

// An account of 2023-01-29 that closes its cycles on the 28th, and one of 2024-01-10 that closes them on the 5th.
fn of_28th(rt: &impl Abort) -> Anchor
    ensures { result.close_day ≡ 28 }
{
    Anchor {
        opened: day(rt, 19_386),
        close_day: 28,
    }
}

fn of_5th(rt: &impl Abort) -> Anchor
    ensures { result.close_day ≡ 5 }
{
    Anchor {
        opened: day(rt, 19_732),
        close_day: 5,
    }
}

// The closing and the due date of the first cycle. The shortest time between them is 24 days: from 2023-02-28 to 2023-03-24.
#[test]
fn first_cycles(rt: HostRuntime) {
    assert_eq!(rt; closing(of_28th(&rt), 1), Some(day(&rt, 19_416)));
    assert_eq!(rt; due(of_28th(&rt), 1), Some(day(&rt, 19_440)));
    assert_eq!(rt; closing(of_5th(&rt), 1), Some(day(&rt, 19_758)));
    assert_eq!(rt; due(of_5th(&rt), 1), Some(day(&rt, 19_783)));
}

// The day as of which an online payment of 2024-11-24, a due date, counts.
fn credited(rt: &impl Abort, alloc: Global, minute: u16) -> i32
    requires { minute ≤ last_minute }
{
    let anchor = Anchor {
        opened: day(rt, 19_723),
        close_day: 28,
    };
    let calendar = Calendar::new(alloc);
    credit_day(anchor, day(rt, 20_051), minute, Channel::Online, &calendar).number()
}

#[test]
fn payments_count_until_five(rt: HostRuntime) {
    assert_eq!(rt; credited(&rt, rt.alloc(), 1_020), 20_051);
    assert_eq!(rt; credited(&rt, rt.alloc(), 1_021), 20_052);
}

// Rows for 2011-01-02, and two for 2024-02-01, of which the later one counts.
#[test]
fn fee_rows(rt: HostRuntime) -> Result<(), Fail> {
    let mut table = FeeTable::new(rt.alloc());
    table.add(day(&rt, 19_754), 3_200, 4_300)?;
    table.add(day(&rt, 14_976), 3_000, 4_100)?;
    table.add(day(&rt, 19_754), 3_100, 4_200)?;
    let table = table.copy(rt.alloc())?;
    assert_eq!(rt; table.on(Day::first()), None);
    assert_eq!(rt; table.on(day(&rt, 19_753)), Some((3_000, 4_100)));
    assert_eq!(rt; table.on(day(&rt, 19_754)), Some((3_100, 4_200)));
    Ok(())
}
