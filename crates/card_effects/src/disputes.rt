// A charge that is disputed.
ghost use Rattle.std.specs.Prelude.{◌≡◌, ℕ, List, OnOk, OnErr, min, pos, ◌≤ℤ◌, unsigned_abs, Option, vec_capacity, ◌≤◌};
ghost use Rattle.card_model.specs.Limits.{balance_limit};
ghost use Rattle.card_effects.specs.Entering.{Leaves};
ghost use Rattle.card_events.specs.History.{CorrectedPost};
ghost use Rattle.card_events.specs.SharedRows.{SharedRows};
ghost use Rattle.card_events.specs.declared.post.Post.TheVariants as post;
ghost use Rattle.card_model.specs.Books.{Book, account_of};
ghost use Rattle.card_model.specs.Cycles.{IssuedRow};
ghost use Rattle.card_model.specs.Effects.{effect};
ghost use Rattle.card_model.specs.declared.entry.EntryKind.TheVariants as kind;
ghost use Rattle.card_posts.specs.Posted.{StandsFor};
ghost use Rattle.card_rates.specs.Laws.{seen_in};
ghost use Rattle.card_segments.specs.Balances.{AreWithin};
ghost use Rattle.card_effects.specs.Accounts.{AreOf};
ghost use Rattle.card_effects.specs.HoldEntering.{EntersOf};

use crate::charges::{cents_of, segment_of};
use crate::seen::charge_seen;
use card_events::{Cents, NoMemory, Num, Slot};
use card_posts::Posts;
use card_rates::RateBook;
use card_segments::{Entry, EntryKind, Note, Segments};

// The note of the entries of a Dispute or a Resolve.
pub(crate) fn note_of(slot: &Slot) -> Note
    ensures { result ≡ record { day = slot.now.day; kind = kind.Hold; post = slot.now.number } }
{
    Note {
        day: slot.day,
        kind: EntryKind::Hold,
        post: slot.number,
    }
}

// The least of the claim, the charge and the balance.
fn least(claim: Num, charge: u64, balance: Cents) -> Cents
    requires { pos 0 ≤ℤ balance }
    ensures value { result ≡ pos (min claim (min charge (unsigned_abs balance))) }
    ensures low { pos 0 ≤ℤ result }
    ensures within { result ≤ℤ balance }
{
    claim.get().min(charge).min(balance.unsigned_abs()) as Cents
}

/// A Dispute of a charge, by the charge's number, with the amount that is claimed: it moves the least of the claim, the
/// charge's corrected cents and the balance of the charge's segment to Held (12 CFR 1026.13(d)). The segment is that of the
/// charge's place on its corrected day. Condition: segments and rates of the account, and balances of at most 10^15 cents in
/// size. If memory runs out, balances and entries are as they were.
pub fn dispute(
    posts: &Posts,
    segments: &mut Segments,
    rates: &RateBook,
    slot: &Slot,
    charge: Num,
    claim: Num,
    out: &mut Vec<Entry>,
) -> Result<(), NoMemory>
    requires account { AreOf posts.now.history segments.old.segments rates.now }
    requires small { AreWithin balance_limit segments.old.balances }
    ensures stands { OnOk result ((day : ℕ) → EntersOf posts.now (post.Dispute day charge claim) slot.now rates.now segments.old out.old.items segments.new out.new.items) }
    ensures left { Leaves result segments.old segments.new out.old.items out.new.items }
    ensures capacity { vec_capacity out.old ≤ vec_capacity out.new }
{
    let disputed = charge_seen(posts, charge.get(), slot.day);
    let segment = segment_of(rates, segments, &disputed, slot.day);
    let cents = least(claim, cents_of(&disputed), segments.balance(segment));
    let note = note_of(slot);
    segments.hold(segment, cents, &note, out)?;
    Ok(())
}
