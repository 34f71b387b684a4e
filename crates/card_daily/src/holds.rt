// A charge that is disputed, and a dispute that is resolved.
ghost use Rattle.std.specs.Prelude.{◌≡◌, ◌≤◌, ℕ, Bool, Option, OnOk, OnErr, pos, ◌≤ℤ◌, slice_index_or};
ghost use Rattle.card_model.specs.Limits.{balance_limit};
ghost use Rattle.card_bounds.specs.Bounds.{moved};
ghost use Rattle.card_effects.specs.Standing.{IsSlotOf};
ghost use Rattle.card_events.specs.History.{CorrectedPost};
ghost use Rattle.card_events.specs.declared.post.Post.TheVariants as post;
ghost use Rattle.card_closing.specs.Rows.{Rows};
ghost use Rattle.card_effects.specs.Accounts.{AreOf};
ghost use Rattle.card_model.specs.Books.{Book};
ghost use Rattle.card_model.specs.Cycles.{IssuedRow};
ghost use Rattle.card_model.specs.Effects.{effect, moved_by};
ghost use Rattle.card_model.specs.Segments.{SegmentTerms};
ghost use Rattle.card_segments.specs.Balances.{AreWithin};
ghost use Rattle.card_daily.specs.Given.{account_in, seen_in};
ghost use Rattle.card_daily.specs.Posts.{EntersOn, LeavesRest};
ghost use Rattle.card_daily.specs.Stands.{Begins, KeepsRoom};

use crate::{Inputs, State, Track};
use card_effects::{dispute, resolve};
use card_events::{NoMemory, Num, Slot};

// Enters a Dispute of a charge, by the charge's number.
pub(crate) fn enter_dispute(
    inputs: &Inputs,
    slot: &Slot,
    charge: Num,
    claim: Num,
    state: &mut State,
    track: &mut Track,
) -> Result<(), NoMemory>
    requires account { AreOf inputs.now.history state.old.segments.segments state.old.rates }
    requires small { AreWithin balance_limit state.old.segments.balances }
    ensures stands { OnOk result ((on : ℕ) → EntersOn inputs.now (post.Dispute on charge claim) slot.now state.old state.new track.old track.new) }
    ensures left { LeavesRest result state.old state.new track.old track.new }
    ensures room { KeepsRoom track.old track.new }
{
    dispute(
        inputs.posts(),
        &mut state.segments,
        &state.rates,
        slot,
        charge,
        claim,
        &mut track.entries,
    )
}

// Enters a Resolve of a Dispute, by the Dispute's number.
pub(crate) fn enter_resolve(
    inputs: &Inputs,
    slot: &Slot,
    target: Num,
    state: &mut State,
    track: &mut Track,
) -> Result<(), NoMemory>
    requires account { AreOf inputs.now.history state.old.segments.segments state.old.rates }
    requires moved { moved track.old.entries.items ≤ balance_limit }
    requires held { pos (moved_by target track.old.entries.items) ≤ℤ slice_index_or state.old.segments.balances 1 (pos 0) }
    requires small { AreWithin balance_limit state.old.segments.balances }
    ensures stands { OnOk result ((on cents : ℕ) → EntersOn inputs.now (post.Resolve on target cents) slot.now state.old state.new track.old track.new) }
    ensures left { LeavesRest result state.old state.new track.old track.new }
    ensures room { KeepsRoom track.old track.new }
{
    resolve(
        inputs.posts(),
        &mut state.segments,
        &state.rates,
        slot,
        target,
        &mut track.entries,
    )
}
