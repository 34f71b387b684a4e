// A day of an account, and a span of days.
ghost use Rattle.std.specs.Prelude.{◌≡◌, ◌+◌, ◌-◌, ◌≤◌, OnOk};
ghost use Rattle.card_rates.specs.Laws.{AreQuiet};
ghost use Rattle.card_daily.specs.Given.{IsDayOf, Tallies, opened_in};
ghost use Rattle.card_daily.specs.Stands.{AreBefore, Begins, KeepsRoom};

use crate::{close_day, opening_day, pass_quiet, row_day};
use card_daily::{Inputs, State, Track, due_day, post_day};
use card_events::{Day, NoMemory};
use card_fees::Tally;
use std::alloc::Global;

/// Folds a day: what its due date brings, its posts in order, its row on each segment, and the closing where it is one. The
/// day isn't before the opening day and at most 2099-12-31, and the days before it are folded. Its posts are looked for from a
/// place on, for speed alone. What the tally counted of payments and credits is right for the account's posts up to the day, and
/// stays so, also if memory runs out; state and track are then of no use, but that the track begins with what it held.
pub fn next_day(
    alloc: Global,
    inputs: &Inputs,
    day: Day,
    near: usize,
    state: &mut State,
    track: &mut Track,
    tally: &mut Tally,
) -> Result<(), NoMemory>
    requires dated { IsDayOf inputs.now day }
    requires before { AreBefore inputs.now day state.old track.old }
    requires tally { Tallies inputs.now day tally.old }
    ensures folded { OnOk result (AreBefore inputs.now (day + 1) state.new track.new) }
    ensures begins { Begins track.old track.new }
    ensures room { KeepsRoom track.old track.new }
    ensures tally { Tallies inputs.now day tally.new }
{
    let _opening = opening_day(inputs);
    due_day(inputs, day, state, track, tally)?;
    post_day(alloc, inputs, day, near, state, track, tally)?;
    row_day(inputs.index(), day, state)?;
    close_day(alloc, inputs, day, state, track, tally)?;
    Ok(())
}

// How many days there are from one to another.
fn days_to(first: Day, end: Day) -> u32
    requires { first ≤ end }
    ensures { result ≡ end - first }
{
    (end.number() - first.number()) as u32
}

/// Folds a span: days on which nothing happens, from a first one on, each with its row on each segment, and the day that ends
/// them. That day isn't before the first one and at most 2099-12-31, the first isn't before the opening day, the days between
/// are no break days by the penalties begun so far, and the days before the first are folded. The posts of the last day are looked
/// for from a place on, for speed alone. What the tally counted of payments and credits is right for the account's posts up to the
/// last day, and stays so, also if memory runs out; state and track are then of no use, but that the track begins with what it
/// held.
pub fn next_span(
    alloc: Global,
    inputs: &Inputs,
    first: Day,
    end: Day,
    near: usize,
    state: &mut State,
    track: &mut Track,
    tally: &mut Tally,
) -> Result<(), NoMemory>
    requires opened { opened_in inputs.now ≤ first }
    requires order { first ≤ end }
    requires dated { IsDayOf inputs.now end }
    requires quiet { AreQuiet inputs.now.history inputs.now.issued inputs.now.shared state.old.rates.penalties first (end - first) }
    requires before { AreBefore inputs.now first state.old track.old }
    requires tally { Tallies inputs.now end tally.old }
    ensures folded { OnOk result (AreBefore inputs.now (end + 1) state.new track.new) }
    ensures begins { Begins track.old track.new }
    ensures room { KeepsRoom track.old track.new }
    ensures tally { Tallies inputs.now end tally.new }
{
    let _opening = opening_day(inputs);
    pass_quiet(inputs.index(), first, days_to(first, end), state)?;
    next_day(alloc, inputs, end, near, state, track, tally)
}
