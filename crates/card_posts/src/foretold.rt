// What one more post changes, found without entering it.
ghost use Rattle.std.specs.Prelude.{◌≡◌, ◌≤◌, ◌++◌, [], ◌∷◌, length};
ghost use Rattle.card_events.specs.Range.{last_request_day};
ghost use Rattle.card_events.specs.History.{corrected};
ghost use Rattle.card_events.specs.declared.kept.Kept.{Kept};
ghost use Rattle.card_posts.specs.Change.{IsFirstChange};
ghost use Rattle.card_posts.specs.Corrections.{corrections_from};
ghost use Rattle.card_posts.specs.Effect.{corrected_with};
ghost use Rattle.card_posts.specs.Effect as spec;
ghost use Rattle.card_posts.specs.Posted.{IsReceived, target_of};
ghost use Rattle.card_posts.specs.Stored.{IsKept};

use crate::correction::changed_by;
use crate::correction_table::CorrectionTable;
use crate::effect::{Effect, day_of_next, effect_with};
use crate::refresh::after_one;
use card_events::{Anchor, Calendar, Day, Kept, Post};

// The first day on which the corrected list differs with one more post: its effective day, or the least of that and the days that
// the post which it corrects leaves and moves to. What waits for that one never counts before it.
pub fn first_with(
    history: &[Kept],
    corrections: &CorrectionTable,
    effects: &[Effect],
    accepted: Day,
    post: &Post,
    anchor: &Anchor,
    calendar: &Calendar,
) -> Day
    requires kept { IsKept anchor.now history.now }
    requires corrections { corrections.now.each ≡ corrections_from history.now 1 history.now }
    requires effects { effects.now ≡ spec.effects anchor.now calendar.now history.now }
    requires target { target_of post.now ≤ length history.now }
    requires dated { accepted ≤ last_request_day }
    requires received { IsReceived anchor.now.opened accepted post.now }
    ensures { (k : Kept) → k.accepted ≡ accepted → k.post ≡ post.now → IsFirstChange result (corrected_with 1 5 history.now effects.now) (corrected anchor.now calendar.now (history.now ++ k ∷ [])) }
{
    let own = day_of_next(history, effects, accepted, post, anchor, calendar);
    let number = changed_by(history, post);
    if number == 0 {
        return own;
    }
    let now = effect_with(
        history,
        corrections,
        effects,
        number,
        post,
        anchor,
        calendar,
    );
    after_one(own, &effects[number as usize - 1], &now)
}
