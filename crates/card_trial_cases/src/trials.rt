ghost use Rattle.card_events.specs.Blanks.{IsBlankOf};

use crate::keeper::Untold;
use card_desk::Desk;
use card_events::{Day, Reply, Request, Steps};
use card_lines::{Line, read_day, read_line};
use card_model::EntryKind;
use card_trial::LedgerDesk;
use std::alloc::Global;
use std::marker::Brand;
use std::process::Abort;
use std::sync::ledger::{Blank, Ledger};
use std::test::Fail;

// Lines of requests and questions, and what a kind comes to then, from one day to another: its debits and its credits, in cents.
struct Case {
    lines: &'static [&'static [u8]],
    first: &'static [u8],
    last: &'static [u8],
    kind: EntryKind,
    debits: i128,
    credits: i128,
}

// A charge.
static CHARGED: [Case; 2] = [
    Case {
        lines: &[
            b"roll 2024-03-01",
            b"open a o 2024-03-01 5 1999 2499 2199 2999 2500 100",
            b"charge a c1 2024-03-01 purchase 1250",
            b"show a",
        ],
        first: b"2024-03-01",
        last: b"2024-03-01",
        kind: EntryKind::Charge,
        debits: 1_250,
        credits: 0,
    },
    Case {
        lines: &[],
        first: b"2011-01-01",
        last: b"2024-02-29",
        kind: EntryKind::Charge,
        debits: 0,
        credits: 0,
    },
];

// A dispute, and its resolution in full, which takes the charge back from its own day on.
static DISPUTED: [Case; 3] = [
    Case {
        lines: &[
            b"roll 2024-02-16",
            b"open d o 2024-01-16 15 1999 2499 2199 2999 2500 100",
            b"charge d c1 2024-02-01 purchase 5000",
            b"bill d b1 1",
            b"roll 2024-04-17",
            b"dispute d x1 2024-04-16 2 5000",
        ],
        first: b"2024-04-16",
        last: b"2024-04-16",
        kind: EntryKind::Hold,
        debits: 5_000,
        credits: 5_000,
    },
    Case {
        lines: &[b"show d"],
        first: b"2011-01-01",
        last: b"2024-04-17",
        kind: EntryKind::Interest,
        debits: 165,
        credits: 0,
    },
    Case {
        lines: &[b"resolve d y1 2024-04-17 4 5000"],
        first: b"2024-04-16",
        last: b"2024-04-16",
        kind: EntryKind::Hold,
        debits: 0,
        credits: 0,
    },
];

// A charge of an earlier cycle that is corrected, and then moved to a later day, with the interest on it.
static CORRECTED: [Case; 4] = [
    Case {
        lines: &[
            b"feerow 2011-01-02 3000 4100",
            b"roll 2024-01-10",
            b"open a o 2024-01-06 5 1999 2499 2199 2999 2500 100",
            b"charge a c1 2024-01-10 cash 50000",
            b"roll 2024-02-10",
            b"charge a c2 2024-02-08 purchase 1000",
        ],
        first: b"2024-01-10",
        last: b"2024-02-05",
        kind: EntryKind::Interest,
        debits: 924,
        credits: 0,
    },
    Case {
        lines: &[b"amend a m1 2 2024-01-10 20000"],
        first: b"2024-01-10",
        last: b"2024-02-05",
        kind: EntryKind::Interest,
        debits: 370,
        credits: 0,
    },
    Case {
        lines: &[],
        first: b"2024-01-10",
        last: b"2024-01-10",
        kind: EntryKind::Charge,
        debits: 20_000,
        credits: 0,
    },
    Case {
        lines: &[b"amend a m2 2 2024-01-12 20000"],
        first: b"2024-01-10",
        last: b"2024-01-10",
        kind: EntryKind::Charge,
        debits: 0,
        credits: 0,
    },
];

// A payment in time that is returned after the due date, with a fee on that day and none on the due date.
static RETURNED: [Case; 4] = [
    Case {
        lines: &[
            b"feerow 2011-01-02 3000 4100",
            b"roll 2024-01-10",
            b"open a o 2024-01-06 5 1999 2499 2199 2999 2500 100",
            b"charge a c1 2024-01-10 purchase 100000",
            b"roll 2024-02-06",
            b"bill a b1 1",
            b"roll 2024-02-20",
            b"payment a p1 2024-02-20 600 online 3000",
            b"roll 2024-03-10",
        ],
        first: b"2024-02-20",
        last: b"2024-03-10",
        kind: EntryKind::Payment,
        debits: 0,
        credits: 3_000,
    },
    Case {
        lines: &[b"return a r1 2024-03-10 4"],
        first: b"2024-02-20",
        last: b"2024-03-10",
        kind: EntryKind::Fee,
        debits: 2_500,
        credits: 0,
    },
    Case {
        lines: &[],
        first: b"2024-03-10",
        last: b"2024-03-10",
        kind: EntryKind::Return,
        debits: 3_000,
        credits: 0,
    },
    Case {
        lines: &[],
        first: b"2024-03-01",
        last: b"2024-03-02",
        kind: EntryKind::Fee,
        debits: 0,
        credits: 0,
    },
];

// A payment of which a part goes to the credit balance, and a later charge and a refund that use it up.
static CREDITED: [Case; 3] = [
    Case {
        lines: &[
            b"feerow 2011-01-02 3000 4100",
            b"roll 2024-01-10",
            b"open a o 2024-01-06 5 1999 2499 2199 2999 2500 100",
            b"charge a c1 2024-01-10 purchase 5000",
            b"payment a p1 2024-01-10 600 online 7000",
            b"charge a c2 2024-01-10 purchase 1500",
            b"refund a f1 500",
            b"show a",
        ],
        first: b"2024-01-10",
        last: b"2024-01-10",
        kind: EntryKind::Charge,
        debits: 6_500,
        credits: 0,
    },
    Case {
        lines: &[],
        first: b"2024-01-10",
        last: b"2024-01-10",
        kind: EntryKind::Payment,
        debits: 0,
        credits: 7_000,
    },
    Case {
        lines: &[],
        first: b"2024-01-10",
        last: b"2024-01-10",
        kind: EntryKind::Refund,
        debits: 500,
        credits: 0,
    },
];

fn day(rt: &impl Abort, text: &[u8]) -> Day {
    read_day(text).expect(rt, "a day")
}

// Carries out a request, which is accepted.
fn accept<L: Ledger, M: Ledger>(
    rt: &impl Abort,
    alloc: Global,
    ledger: &mut LedgerDesk,
    request: &Request,
    steps: &mut Steps<L>,
    put_off: &mut Steps<M>,
) {
    assert!(rt; request.is_dated());
    let mut keeper = Untold {};
    let accepted = match ledger.apply(alloc, &mut keeper, request, steps, put_off) {
        Ok(Reply::Done | Reply::Accepted(_)) => true,
        _ => false,
    };
    assert!(rt; accepted);
}

// Carries out a line.
fn carry_out<L: Ledger, M: Ledger>(
    rt: &impl Abort,
    alloc: Global,
    ledger: &mut LedgerDesk,
    line: &[u8],
    steps: &mut Steps<L>,
    put_off: &mut Steps<M>,
) -> Result<(), Fail> {
    match read_line(line) {
        Line::Request(request) => accept(rt, alloc, ledger, &request, steps, put_off),
        Line::Show(account) => {
            let _view = ledger.show(alloc, &account, steps)?;
        }
        Line::Bad(_) => assert!(rt; false),
    }
    Ok(())
}

// Whether the totals are those of a case, between its days.
fn are_of(rt: &impl Abort, ledger: &LedgerDesk, case: &Case) -> bool {
    let first = day(rt, case.first);
    let last = day(rt, case.last);
    let totals = ledger.totals();
    totals.debits(first, last, case.kind) == case.debits
        && totals.credits(first, last, case.kind) == case.credits
}

// Carries out the lines of a case, and brings all accounts to today.
fn run_case<L: Ledger, M: Ledger>(
    rt: &impl Abort,
    alloc: Global,
    ledger: &mut LedgerDesk,
    case: &Case,
    steps: &mut Steps<L>,
    put_off: &mut Steps<M>,
) -> Result<(), Fail> {
    for line in case.lines {
        carry_out(rt, alloc, ledger, line, steps, put_off)?;
    }
    ledger.to_today(alloc, steps)?;
    Ok(())
}

// Each case goes on from the one before it.
fn run_cases<L: Ledger, M: Ledger>(
    rt: &impl Abort,
    alloc: Global,
    cases: &[Case],
    blank: Blank,
    other: Blank,
) -> Result<(), Fail>
    requires own { IsBlankOf L.name L.parts blank.name blank.parts }
    requires other { IsBlankOf M.name M.parts other.name other.parts }
{
    let mut steps = Steps::<L>::new(blank);
    let mut put_off = Steps::<M>::new(other);
    let mut ledger = LedgerDesk::of(alloc, Desk::new(alloc))?;
    for case in cases {
        run_case(rt, alloc, &mut ledger, case, &mut steps, &mut put_off)?;
        assert!(rt; are_of(rt, &ledger, case));
    }
    Ok(())
}

// With ledgers of their own.
fn try_cases(rt: &impl Abort, alloc: Global, cases: &[Case]) -> Result<(), Fail> {
    run_cases::<Brand, Brand>(rt, alloc, cases, Blank::new(1), Blank::new(1))
}

#[test]
fn a_charge(rt: HostRuntime) -> Result<(), Fail> {
    try_cases(&rt, rt.alloc(), &CHARGED)
}

#[test]
fn a_dispute(rt: HostRuntime) -> Result<(), Fail> {
    try_cases(&rt, rt.alloc(), &DISPUTED)
}

#[test]
fn a_correction(rt: HostRuntime) -> Result<(), Fail> {
    try_cases(&rt, rt.alloc(), &CORRECTED)
}

#[test]
fn a_return(rt: HostRuntime) -> Result<(), Fail> {
    try_cases(&rt, rt.alloc(), &RETURNED)
}

#[test]
fn a_credit_balance(rt: HostRuntime) -> Result<(), Fail> {
    try_cases(&rt, rt.alloc(), &CREDITED)
}
