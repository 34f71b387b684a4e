// The steps of a Book and the cycles that it closes: the account of the cases with its opening alone, folded to 2024-03-10.
ghost use Rattle.std.specs.Prelude.{◌≡◌, ◌+◌, [], IfOk, OnOk};
ghost use Rattle.card_cases.specs.Alone.{IsAlone, given_alone, no_rows};
ghost use Rattle.card_book.specs.Stands as kept;
ghost use Rattle.card_daily.specs.Stands.{IsBlank};
ghost use Rattle.card_posts.specs.Posted.{StandsFor};
ghost use Rattle.card_events.specs.Blanks.{IsBlankOf};

use crate::account::opening;
use crate::values::{day, name};
use card_book::Book;
use card_daily::{Cycle, Inputs, Track};
use card_events::{NoMemory, Steps};
use card_fees::SharedRows;
use card_posts::Posts;
use std::alloc::Global;
use std::marker::Brand;
use std::process::Abort;
use std::sync::ledger::{Blank, Ledger};
use std::test::Fail;

fn opened(rt: &impl Abort, alloc: Global) -> Result<Posts, Fail>
    ensures alone { IfOk result (λ posts. IsAlone posts.history) }
    ensures stands { IfOk result (λ posts. StandsFor [] posts) }
{
    let key = name(rt, "o");
    Ok(Posts::start(alloc, &key, day(rt, 19_728), &opening(rt))?)
}

fn inputs<'a>(posts: &'a Posts, shared: &'a SharedRows) -> Inputs<'a>
    requires stands { StandsFor [] posts.now }
    requires alone { IsAlone posts.now.history }
    requires nothing { shared.now ≡ no_rows }
    ensures { result ≡ given_alone posts.now.history }
{
    Inputs::new(posts, &[], shared)
}

// A step for the opening day, 2024-02-05 and 2024-03-05, which close cycles, 2024-03-02, the day after a due date, and the last
// day.
fn folded<L: Ledger>(
    rt: &impl Abort,
    alloc: Global,
    posts: &Posts,
    inputs: &Inputs,
    track: &mut Track,
    steps: &mut Steps<L>,
) -> Result<Book, NoMemory>
    requires alone { IsAlone posts.now.history }
    requires given { inputs.now ≡ given_alone posts.now.history }
    requires blank { IsBlank track.old }
    ensures stands { IfOk result (λ b. kept.StandsFor inputs.now b track.new) }
    ensures five { OnOk result (steps.new ≡ steps.old + 5) }
{
    let mut book = Book::start(alloc, inputs)?;
    book.advance(alloc, inputs, track, day(rt, 19_792), steps)?;
    Ok(book)
}

// The first of its two cycles, with a counter of its own.
fn first_cycle<L: Ledger>(
    rt: &impl Abort,
    alloc: Global,
    posts: &Posts,
    inputs: &Inputs,
    blank: Blank,
) -> Result<Cycle, NoMemory>
    requires own { IsBlankOf L.name L.parts blank.name blank.parts }
    requires alone { IsAlone posts.now.history }
    requires given { inputs.now ≡ given_alone posts.now.history }
{
    let mut track = Track {
        entries: Vec::new(alloc),
        cycles: Vec::new(alloc),
        fees: Vec::new(alloc),
    };
    let mut steps = Steps::<L>::new(blank);
    let book = folded(rt, alloc, posts, inputs, &mut track, &mut steps)?;
    assert!(rt; book.whole() && track.cycles.len() == 2);
    track.cycles[0].copy(alloc)
}

// Nothing happened in it.
fn is_first(cycle: &Cycle) -> bool {
    cycle.number == 1 && cycle.closing.number() == 19_758 && cycle.new_balance == 0
}

// With a counter that counts nothing.
#[test]
fn a_book_and_its_cycles(rt: HostRuntime) -> Result<(), Fail> {
    let alloc = rt.alloc();
    let shared = SharedRows::new(alloc);
    let posts = opened(&rt, alloc)?;
    let inputs = inputs(&posts, &shared);
    let cycle = first_cycle::<Brand>(&rt, alloc, &posts, &inputs, Blank::new(1))?;
    assert!(rt; is_first(&cycle));
    Ok(())
}
