// Making the statements of Bills that were accepted without one.
ghost use Rattle.std.specs.Prelude.{◌≡◌, ◌+◌, ◌≤◌, ℕ, [], ◌∷◌, List, None, IfOk, OnOk, OnErr, ◌<◌, length, slice_index_or, take, vec_len, vec_capacity};
ghost use Rattle.card_book.specs.Stands.{day_to_fold, steps_over};
ghost use Rattle.card_daily.specs.Given.{IsSound};
ghost use Rattle.card_events.specs.History.{anchor_of};
ghost use Rattle.card_events.specs.Range.{last_calendar_day, last_request_day};
ghost use Rattle.card_events.specs.declared.post.Post.TheVariants as variants;
ghost use Rattle.card_model.specs.Cycles.{IssuedRow};
ghost use Rattle.card_posts.specs.Posted.{StandsFor};
ghost use Rattle.card_past.specs.Rows.{issued_as, issued_from};
ghost use Rattle.card_past.specs.Making.{AreLeft, AreToMake, AreToMakeBeside, IsMade, IsNext, folded_at, steps_on};
ghost use Rattle.card_past.specs.Owes.{bills_in};
ghost use Rattle.card_past.specs.Pasts.{AreSame, PastBegins};
ghost use Rattle.card_past.specs.Foldings.{FoldsOn, IsFolding, day_of};
ghost use Rattle.card_past.specs.Waiting.{given_by};

use crate::book_if_any::BookIfAny;
use crate::forward::folded_on;
use crate::issued::IssuedIfAny;
use crate::issuing::{issued_by, push_issued};
use crate::owed::Owed;
use crate::past::{Past, copy_past, cut, ends_of};
use crate::told::Told;
use card_book::{Inputs, Issued};
use card_dayend::make_cycle_room;
use card_events::{Day, Kept, NoMemory, Steps};
use card_fees::SharedRows;
use card_posts::Posts;
use std::alloc::Global;
use std::sync::ledger::Ledger;

/// The Book at the end of a Bill's day, and the row that the Bill issues.
#[derive(Drop)]
pub struct Made {
    pub book: BookIfAny,
    pub row: IssuedIfAny,
}

// Folds a copy of a Book to the end of a post's day, and makes the row that the post issues.
fn made_on<L: Ledger>(
    alloc: Global,
    inputs: &Inputs,
    book: &BookIfAny,
    past: &mut Past,
    bill: u32,
    kept: &Kept,
    steps: &mut Steps<L>,
) -> Result<Made, NoMemory>
    requires folded { FoldsOn inputs.now kept.now.accepted book.now past.old }
    requires small { (cycle : ℕ) → kept.now.post ≡ variants.Bill cycle → cycle ≤ last_calendar_day }
    ensures folding { IfOk result (λ made. IsFolding inputs.now (folded_at kept.now.accepted made.book past.new)) }
    ensures row { IfOk result (λ made. issued_as made.row ≡ issued_from inputs.now past.new.track.cycles.items bill kept.now.accepted kept.now.post) }
    ensures steps { OnOk result (steps.new ≡ steps.old + steps_over inputs.now kept.now.accepted (day_to_fold inputs.now (day_of book.now))) }
    ensures most { steps.new ≤ steps.old + steps_over inputs.now kept.now.accepted (day_to_fold inputs.now (day_of book.now)) }
    ensures begins { PastBegins past.old past.new }
{
    let later = folded_on(alloc, inputs, book, past, kept.accepted, steps)?;
    let row = issued_by(alloc, inputs, &later, past, &kept.post, bill, kept.accepted)?;
    Ok(Made { book: later, row })
}

/// Makes the row of the next Bill, with what is kept of the account's book folded to the end of the Bill's day. If memory runs out, no
/// row is made.
pub fn make_next<L: Ledger>(
    alloc: Global,
    _told: &Told,
    posts: &Posts,
    issued: &mut Vec<Issued>,
    bill: u32,
    book: &BookIfAny,
    past: &mut Past,
    shared: &SharedRows,
    steps: &mut Steps<L>,
) -> Result<BookIfAny, NoMemory>
    requires stands { StandsFor shared.now.holidays posts.now }
    requires sound { IsSound (given_by posts.now.history _told.now.rows shared.now) }
    requires next { IsNext shared.now posts.now.history _told.now.rows issued.old.items bill book.now past.old }
    ensures made { IfOk result (λ later. (reached : ℕ) (r : IssuedRow) (rest : List IssuedRow) → AreLeft shared.now posts.now.history _told.now.rows issued.old.items (r ∷ rest) (folded_at reached book.now past.old) → r.bill ≡ bill → IsMade shared.now posts.now.history _told.now.rows issued.old.items issued.new.items r rest later past.new) }
    ensures err { OnErr result (issued.new.items ≡ issued.old.items) }
    ensures front { take (length issued.old.items) issued.new.items ≡ issued.old.items }
    ensures capacity { vec_capacity issued.old ≤ vec_capacity issued.new }
    ensures steps { OnOk result ((reached : ℕ) (r : IssuedRow) (rest : List IssuedRow) → AreLeft shared.now posts.now.history _told.now.rows issued.old.items (r ∷ rest) (folded_at reached book.now past.old) → r.bill ≡ bill → steps.new ≡ steps.old + steps_over (given_by posts.now.history _told.now.rows shared.now) r.day (reached + 1)) }
    ensures most { (reached : ℕ) (r : IssuedRow) (rest : List IssuedRow) → AreLeft shared.now posts.now.history _told.now.rows issued.old.items (r ∷ rest) (folded_at reached book.now past.old) → r.bill ≡ bill → steps.new ≤ steps.old + steps_over (given_by posts.now.history _told.now.rows shared.now) r.day (reached + 1) }
    ensures begins { PastBegins past.old past.new }
{
    make_cycle_room(issued)?;
    let kept = match posts.get(bill) {
        Some(kept) => kept,
        None => unreachable!(),
    };
    let inputs = Inputs::new(posts, issued, shared);
    let made = made_on(alloc, &inputs, book, past, bill, kept, steps)?;
    push_issued(issued, made.row);
    Ok(made.book)
}

fn bill_at(owed: &[Owed], at: usize) -> u32
    requires { at < length owed.now }
    ensures { result ≡ slice_index_or (bills_in owed.now) at 0 }
{
    owed[at].bill
}

/// Makes the rows of all these Bills, one after the other, with what is kept of the account's book folded to the day of the last of them,
/// which isn't after today. It takes the steps of one fold over all rows. If memory runs out, some rows are made, behind those that were.
pub fn make_all<L: Ledger>(
    alloc: Global,
    told: &Told,
    posts: &Posts,
    issued: &mut Vec<Issued>,
    owed: &[Owed],
    _today: Day,
    book: &BookIfAny,
    past: &mut Past,
    shared: &SharedRows,
    steps: &mut Steps<L>,
) -> Result<BookIfAny, NoMemory>
    requires stands { StandsFor shared.now.holidays posts.now }
    requires sound { IsSound (given_by posts.now.history told.now.rows shared.now) }
    requires last { _today ≤ last_request_day }
    requires left { AreToMake shared.now posts.now.history told.now.rows issued.old.items (bills_in owed.now) _today book.now past.old }
    ensures made { IfOk result (λ later. AreToMake shared.now posts.now.history told.now.rows issued.new.items [] _today later past.new) }
    ensures within { IfOk result (λ later. day_to_fold (given_by posts.now.history told.now.rows shared.now) (day_of book.now) ≤ _today + 1 → day_to_fold (given_by posts.now.history told.now.rows shared.now) (day_of later) ≤ _today + 1) }
    ensures steps { IfOk result (λ later. steps.new + steps_on shared.now posts.now.history told.now.rows _today later ≡ steps.old + steps_on shared.now posts.now.history told.now.rows _today book.now) }
    ensures most { steps.new ≤ steps.old + steps_on shared.now posts.now.history told.now.rows _today book.now }
    ensures front { take (length issued.old.items) issued.new.items ≡ issued.old.items }
    ensures capacity { vec_capacity issued.old ≤ vec_capacity issued.new }
    ensures begins { PastBegins past.old past.new }
{
    let mut later = book.copy(alloc)?;
    for i in 0..owed.len() {
        let bill = bill_at(owed, i);
        later = make_next(
            alloc, told, posts, issued, bill, &later, past, shared, steps,
        )?;
    }
    Ok(later)
}

// Makes the rows of all these Bills on the way to the end of today. If memory runs out, some rows are made, behind those that were.
fn fold_with_all<L: Ledger>(
    alloc: Global,
    told: &Told,
    posts: &Posts,
    issued: &mut Vec<Issued>,
    owed: &[Owed],
    today: Day,
    book: &BookIfAny,
    past: &mut Past,
    shared: &SharedRows,
    steps: &mut Steps<L>,
) -> Result<BookIfAny, NoMemory>
    requires stands { StandsFor shared.now.holidays posts.now }
    requires sound { IsSound (given_by posts.now.history told.now.rows shared.now) }
    requires opened { (anchor_of posts.now.history).opened ≤ today }
    requires last { today ≤ last_request_day }
    requires left { AreToMake shared.now posts.now.history told.now.rows issued.old.items (bills_in owed.now) today book.now past.old }
    requires later { day_to_fold (given_by posts.now.history told.now.rows shared.now) (day_of book.now) ≤ today + 1 }
    ensures folding { IfOk result (λ b. IsFolding (given_by posts.now.history told.now.rows shared.now) (folded_at today b past.new)) }
    ensures rows { OnOk result (issued.new.items ≡ told.now.rows) }
    ensures room { OnOk result (vec_len issued.new < vec_capacity issued.new) }
    ensures steps { OnOk result (steps.new ≡ steps.old + steps_on shared.now posts.now.history told.now.rows today book.now) }
    ensures most { steps.new ≤ steps.old + steps_on shared.now posts.now.history told.now.rows today book.now }
    ensures front { take (length issued.old.items) issued.new.items ≡ issued.old.items }
    ensures capacity { vec_capacity issued.old ≤ vec_capacity issued.new }
    ensures begins { PastBegins past.old past.new }
{
    let made = make_all(
        alloc, told, posts, issued, owed, today, book, past, shared, steps,
    )?;
    make_cycle_room(issued)?;
    let inputs = Inputs::new(posts, issued, shared);
    let later = folded_on(alloc, &inputs, &made, past, today, steps)?;
    Ok(later)
}

/// Makes the rows of all these Bills on the way to the end of today. It takes the steps of one fold over all rows. If memory runs out,
/// what is made and what is recorded is as it was.
pub fn reach_with_all<L: Ledger>(
    alloc: Global,
    told: &Told,
    posts: &Posts,
    issued: &mut Vec<Issued>,
    owed: &[Owed],
    today: Day,
    book: &BookIfAny,
    past: &mut Past,
    shared: &SharedRows,
    steps: &mut Steps<L>,
) -> Result<BookIfAny, NoMemory>
    requires stands { StandsFor shared.now.holidays posts.now }
    requires sound { IsSound (given_by posts.now.history told.now.rows shared.now) }
    requires opened { (anchor_of posts.now.history).opened ≤ today }
    requires last { today ≤ last_request_day }
    requires left { AreToMake shared.now posts.now.history told.now.rows issued.old.items (bills_in owed.now) today book.now past.old }
    requires later { day_to_fold (given_by posts.now.history told.now.rows shared.now) (day_of book.now) ≤ today + 1 }
    requires marked { length past.old.since.items ≡ length past.old.track.cycles.items }
    ensures folding { IfOk result (λ b. IsFolding (given_by posts.now.history told.now.rows shared.now) (folded_at today b past.new)) }
    ensures rows { OnOk result (issued.new.items ≡ told.now.rows) }
    ensures steps { OnOk result (steps.new ≡ steps.old + steps_on shared.now posts.now.history told.now.rows today book.now) }
    ensures most { steps.new ≤ steps.old + steps_on shared.now posts.now.history told.now.rows today book.now }
    ensures begins { OnOk result (PastBegins past.old past.new) }
    ensures same { OnErr result (AreSame past.old past.new) }
    ensures front { OnErr result (issued.new.items ≡ issued.old.items) }
    ensures room { vec_len issued.old < vec_capacity issued.old → vec_len issued.new < vec_capacity issued.new }
{
    let ends = ends_of(past);
    let count = issued.len();
    match fold_with_all(
        alloc, told, posts, issued, owed, today, book, past, shared, steps,
    ) {
        Ok(later) => Ok(later),
        Err(NoMemory) => {
            cut(past, &ends);
            issued.truncate(count);
            Err(NoMemory)
        }
    }
}

// Makes the rows of all these Bills, and room for one more. If memory runs out, some rows are made, behind those that were.
fn make_with_room<L: Ledger>(
    alloc: Global,
    told: &Told,
    posts: &Posts,
    issued: &mut Vec<Issued>,
    owed: &[Owed],
    _today: Day,
    book: &BookIfAny,
    past: &mut Past,
    shared: &SharedRows,
    steps: &mut Steps<L>,
) -> Result<(), NoMemory>
    requires stands { StandsFor shared.now.holidays posts.now }
    requires sound { IsSound (given_by posts.now.history told.now.rows shared.now) }
    requires last { _today ≤ last_request_day }
    requires left { AreToMake shared.now posts.now.history told.now.rows issued.old.items (bills_in owed.now) _today book.now past.old }
    ensures rows { OnOk result (issued.new.items ≡ told.now.rows) }
    ensures room { OnOk result (vec_len issued.new < vec_capacity issued.new) }
    ensures most { steps.new ≤ steps.old + steps_on shared.now posts.now.history told.now.rows _today book.now }
    ensures front { take (length issued.old.items) issued.new.items ≡ issued.old.items }
    ensures capacity { vec_capacity issued.old ≤ vec_capacity issued.new }
{
    make_all(
        alloc, told, posts, issued, owed, _today, book, past, shared, steps,
    )?;
    make_cycle_room(issued)?;
    Ok(())
}

/// Makes the rows of all these Bills on a copy of what is kept of the account's book, so that the account's own fold stays at the day last
/// reached. It takes at most the steps of a fold from the day after that one to today. If memory runs out, what is made is as it was.
pub fn make_beside<L: Ledger>(
    alloc: Global,
    told: &Told,
    posts: &Posts,
    issued: &mut Vec<Issued>,
    owed: &[Owed],
    today: Day,
    book: &BookIfAny,
    past: &Past,
    shared: &SharedRows,
    steps: &mut Steps<L>,
) -> Result<(), NoMemory>
    requires stands { StandsFor shared.now.holidays posts.now }
    requires sound { IsSound (given_by posts.now.history told.now.rows shared.now) }
    requires last { today ≤ last_request_day }
    requires left { AreToMakeBeside shared.now posts.now.history told.now.rows issued.old.items (bills_in owed.now) today book.now past.now }
    ensures rows { OnOk result (issued.new.items ≡ told.now.rows) }
    ensures most { steps.new ≤ steps.old + steps_on shared.now posts.now.history told.now.rows today book.now }
    ensures front { OnErr result (issued.new.items ≡ issued.old.items) }
    ensures room { vec_len issued.old < vec_capacity issued.old → vec_len issued.new < vec_capacity issued.new }
{
    let count = issued.len();
    let mut copied = copy_past(past, alloc)?;
    match make_with_room(
        alloc,
        told,
        posts,
        issued,
        owed,
        today,
        book,
        &mut copied,
        shared,
        steps,
    ) {
        Ok(()) => Ok(()),
        Err(NoMemory) => {
            issued.truncate(count);
            Err(NoMemory)
        }
    }
}
