// A dispute that is resolved.
ghost use Rattle.std.specs.Prelude.{◌≡◌, ◌≤◌, ℕ, List, OnOk, OnErr, pos, ◌≤ℤ◌, cond, Option, slice_index_or, vec_capacity};
ghost use Rattle.card_model.specs.Limits.{balance_limit};
ghost use Rattle.card_bounds.specs.Bounds.{moved};
ghost use Rattle.card_effects.specs.Entering.{Leaves};
ghost use Rattle.card_events.specs.History.{CorrectedPost};
ghost use Rattle.card_events.specs.SharedRows.{SharedRows};
ghost use Rattle.card_events.specs.declared.post.Post.TheVariants as post;
ghost use Rattle.card_model.specs.Books.{Book, account_of};
ghost use Rattle.card_model.specs.Cycles.{IssuedRow};
ghost use Rattle.card_model.specs.Effects.{effect, is_held_by, moved_by};
ghost use Rattle.card_model.specs.Entries.{sum_of};
ghost use Rattle.card_posts.specs.Posted.{StandsFor};
ghost use Rattle.card_rates.specs.Laws.{seen_in};
ghost use Rattle.card_segments.specs.Balances.{AreWithin};
ghost use Rattle.card_effects.specs.Accounts.{AreOf};
ghost use Rattle.card_effects.specs.HoldEntering.{EntersOf};
ghost use Rattle.card_effects.specs.Seen.{charge_named};

use crate::charges::segment_of;
use crate::disputes::note_of;
use crate::seen::{charge_seen, post_seen};
use card_events::{Cents, NoMemory, Num, Slot};
use card_posts::Posts;
use card_rates::{DayPost, RateBook};
use card_segments::{Entry, EntryKind, Segments};

// What an entry moves to Held, if it is of a post.
fn held_of(entry: &Entry, post: Num) -> Cents
    ensures { result ≡ cond (is_held_by post entry.now) entry.now.cents (pos 0) }
{
    let is_held = entry.post as u64 == post.get()
        && entry.segment == 1
        && entry.kind == EntryKind::Hold;
    if is_held { entry.cents } else { 0 }
}

// The sum of what entries of a post move to Held.
fn held_sum(entries: &[Entry], post: Num) -> Cents
    requires { moved entries.now ≤ balance_limit }
    ensures { result ≡ sum_of (is_held_by post) entries.now }
{
    let mut sum = 0;
    for entry in entries {
        sum += held_of(entry, post);
    }
    sum
}

// What a Dispute moved to Held, as its entries record it.
pub fn moved_by(entries: &[Entry], dispute: Num) -> Cents
    requires { moved entries.now ≤ balance_limit }
    ensures value { result ≡ pos (moved_by dispute entries.now) }
    ensures low { pos 0 ≤ℤ result }
    ensures high { result ≤ℤ pos balance_limit }
{
    let sum = held_sum(entries, dispute);
    if sum < 0 { 0 } else { sum }
}

fn charge_named(dispute: &Option<DayPost>) -> u64
    ensures { result ≡ charge_named dispute.now }
{
    match dispute {
        Some(dispute) => dispute.post.charge_disputed(),
        None => 0,
    }
}

/// A Resolve of a Dispute, by the Dispute's number: what the Dispute moved leaves Held and is debited to the charge's segment
/// again (12 CFR 1026.13(e), (f)). It uses up the credit balance first (12 CFR 1026.11(a)). What the Resolve confirmed as an
/// error lowers the charge, and not what is put back. Condition: segments and rates of the account; entries that move at most
/// 10^15 cents together, interest apart; Held with at least what the Dispute moved; and balances of at most 10^15 cents in
/// size. If memory runs out, balances and entries are as they were.
pub fn resolve(
    posts: &Posts,
    segments: &mut Segments,
    rates: &RateBook,
    slot: &Slot,
    dispute: Num,
    out: &mut Vec<Entry>,
) -> Result<(), NoMemory>
    requires account { AreOf posts.now.history segments.old.segments rates.now }
    requires moved { moved out.old.items ≤ balance_limit }
    requires held { pos (moved_by dispute out.old.items) ≤ℤ slice_index_or segments.old.balances 1 (pos 0) }
    requires small { AreWithin balance_limit segments.old.balances }
    ensures stands { OnOk result ((day cents : ℕ) → EntersOf posts.now (post.Resolve day dispute cents) slot.now rates.now segments.old out.old.items segments.new out.new.items) }
    ensures left { Leaves result segments.old segments.new out.old.items out.new.items }
    ensures capacity { vec_capacity out.old ≤ vec_capacity out.new }
{
    let disputed = charge_named(&post_seen(posts, dispute.get(), slot.day));
    let charge = charge_seen(posts, disputed, slot.day);
    let segment = segment_of(rates, segments, &charge, slot.day);
    let cents = moved_by(out, dispute);
    let note = note_of(slot);
    segments.release(segment, cents, &note, out)?;
    Ok(())
}
