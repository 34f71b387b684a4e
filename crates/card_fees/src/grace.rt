// Whether a statement was paid, and how purchases bear interest after it.
ghost use Rattle.std.specs.Prelude.{◌≡◌, ℕ, ◌+◌, List, Some, nat_le};
ghost use Rattle.card_fees.specs.Asked.{IsInCalendar};
ghost use Rattle.card_fees.specs.Tallied.{IsTallyOf};
ghost use Rattle.card_model.specs.Interest.{case_after};
ghost use Rattle.card_model.specs.Payments as payments;
ghost use Rattle.card_model.specs.declared.due_cycle.DueCycle.{DueCycle};
ghost use Rattle.card_posts.specs.Posted.{StandsFor};

use crate::DueCycle;
use crate::counting::repaid_reaches;
use crate::tally::{Sum, Tally};
use card_model::GraceCase;
use card_posts::Posts;

// whether the sums of some days reach an amount
fn reaches(sum: &Sum, amount: u64) -> bool
    ensures { result ≡ nat_le amount (sum.now.paid + sum.now.credited) }
{
    amount <= sum.paid || amount - sum.paid <= sum.credited
}

// whether the payments and credits after the closing of a cycle, up to its due date, reach an amount
fn is_repaid(posts: &Posts, c: &DueCycle, amount: u64, tally: &Tally) -> bool
    requires known { IsInCalendar c.now }
    ensures { (holidays : List ℕ) (day : ℕ) → StandsFor holidays posts.now → IsTallyOf posts.now.corrected day tally.now → result ≡ nat_le amount (payments.counted posts.now.corrected (c.now.closing + 1) c.now.due + payments.credited posts.now.corrected (c.now.closing + 1) c.now.due) }
{
    let from = c.closing.next();
    match tally.held(from, c.due) {
        Some(sum) => reaches(&sum, amount),
        None => repaid_reaches(posts, from, c.due, amount),
    }
}

/// Whether the payments and the merchants' credits with effective days after a cycle's closing and up to its due date, without
/// the payments returned by then, reach its grace amount. A statement without a due payment counts as paid (12 CFR
/// 1026.54(a)(1)). The cycle closed before its due date, which is there. Sums that the tally holds are read off it; what it
/// counted is right for these posts. The corrected list is that of the posts under some calendar. It doesn't allocate.
#[tactic(auto, unfolding(card_model::specs::Payments::is_paid))]
pub fn paid(posts: &Posts, c: &DueCycle, tally: &Tally) -> bool
    requires known { IsInCalendar c.now }
    ensures { (holidays : List ℕ) (day : ℕ) → StandsFor holidays posts.now → IsTallyOf posts.now.corrected day tally.now → result ≡ payments.is_paid posts.now.corrected c.now }
{
    !c.has_due_payment || is_repaid(posts, c, c.grace_amount, tally)
}

// whether a statement was paid, where there is one
fn paid_before(posts: &Posts, before: Option<DueCycle>, tally: &Tally) -> bool
    requires known { (c : DueCycle) → before ≡ Some c → IsInCalendar c }
    ensures { (holidays : List ℕ) (day : ℕ) → StandsFor holidays posts.now → IsTallyOf posts.now.corrected day tally.now → result ≡ payments.is_paid_if_any posts.now.corrected before }
{
    match before {
        Some(c) => paid(posts, &c, tally),
        None => true,
    }
}

/// How purchases bear interest in a cycle, at its closing (12 CFR 1026.54(a)(1)), by the cycle before it and the one before
/// that: none does where the last statement was paid and the one before it too; where the last wasn't, what was repaid by its
/// due date bears none; where the one before it wasn't, all bear interest. The first cycle has no cycle before it. They closed
/// before their due dates, which are there. Sums that the tally holds are read off it; what it counted is right for these
/// posts. The corrected list is that of the posts under some calendar. It doesn't allocate.
pub fn purchase_case(
    posts: &Posts,
    before: Option<DueCycle>,
    last: Option<DueCycle>,
    tally: &Tally,
) -> GraceCase
    requires before { (c : DueCycle) → before ≡ Some c → IsInCalendar c }
    requires last { (c : DueCycle) → last ≡ Some c → IsInCalendar c }
    ensures { (holidays : List ℕ) (day : ℕ) → StandsFor holidays posts.now → IsTallyOf posts.now.corrected day tally.now → result ≡ case_after posts.now.corrected before last }
{
    match last {
        Some(c) => case_after(posts, before, &c, tally),
        None => GraceCase::None,
    }
}

// how purchases bear interest after a statement
fn case_after(posts: &Posts, before: Option<DueCycle>, last: &DueCycle, tally: &Tally) -> GraceCase
    requires before { (c : DueCycle) → before ≡ Some c → IsInCalendar c }
    requires last { IsInCalendar last.now }
    ensures { (holidays : List ℕ) (day : ℕ) → StandsFor holidays posts.now → IsTallyOf posts.now.corrected day tally.now → result ≡ case_after posts.now.corrected before (Some last.now) }
{
    if !paid_before(posts, before, tally) {
        return GraceCase::Plain;
    }
    if paid(posts, last, tally) {
        return GraceCase::None;
    }
    GraceCase::Lowered(last.due)
}
