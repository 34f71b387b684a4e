// What payments and merchants' credits bring to the rows of the cycle.
ghost use Rattle.std.specs.Prelude.{◌≡◌, ◌+◌, ◌<◌, ◌≤◌, [], ◌∷◌, map, length, OnOk, OnErr};
ghost use Rattle.card_model.specs.Limits.{balance_limit};
ghost use Rattle.card_segments.specs.Parts.{AreOnSegments, parts_sum};
ghost use Rattle.card_effects.specs.Repaid.{AreRepaid};
ghost use Rattle.card_closing.specs.Rows.{without_post};

use card_closing::CycleRows;
use card_events::{Cents, NoMemory, Slot};
use card_segments::Parts;

/// Takes all that a payment brought out of the rows. It doesn't allocate.
pub fn unpay(rows: &mut [CycleRows], post: u32)
    ensures { rows.new ≡ map (without_post post) rows.old }
{
    for row in rows.iter_mut() {
        row.unpaid(post);
    }
}

// Brings one part to the rows of its segment. Credit has none.
fn repay_part(rows: &mut [CycleRows], segment: u8, cents: u64, slot: &Slot) -> Result<(), NoMemory>
    requires known { segment < length rows.old + 2 }
    requires limit { cents ≤ balance_limit }
    ensures repaid { OnOk result (AreRepaid slot.now.day slot.now.number ((segment, cents) ∷ []) rows.old rows.new) }
    ensures others { OnOk result (map (without_post slot.now.number) rows.new ≡ map (without_post slot.now.number) rows.old) }
    ensures err { OnErr result (rows.new ≡ rows.old) }
    ensures len { length rows.new ≡ length rows.old }
{
    if segment < 2 || cents == 0 {
        return Ok(());
    }
    let row = &mut rows[segment as usize - 2];
    row.repaid(slot.day, cents as Cents, slot.number)?;
    Ok(())
}

// Brings each part to the rows of its segment, until memory runs out.
fn repay_parts(rows: &mut [CycleRows], parts: &Parts, slot: &Slot) -> Result<(), NoMemory>
    requires on_segments { AreOnSegments (length rows.old + 2) parts.now }
    requires limit { parts_sum parts.now ≤ balance_limit }
    ensures repaid { OnOk result (AreRepaid slot.now.day slot.now.number parts.now rows.old rows.new) }
    ensures others { map (without_post slot.now.number) rows.new ≡ map (without_post slot.now.number) rows.old }
{
    let items = parts.items();
    for i in 0..items.len() {
        let (segment, cents) = items[i];
        repay_part(rows, segment, cents, slot)?;
    }
    Ok(())
}

/// Brings the parts of a payment or a merchant's credit to the rows of the cycle, one for each segment from number 2 on:
/// what was repaid by the due date bears no interest (12 CFR 1026.54(a)(1)). Condition: no part is of Held; rows for each
/// part's segment, Credit apart; and together at most 10^15 cents. The clause is for posts of the cycle that aren't among
/// the payments returned so far. If memory runs out, all that the post has brought is taken out, so that rows to which it
/// had brought nothing are as they were.
pub fn repay(rows: &mut [CycleRows], parts: &Parts, slot: &Slot) -> Result<(), NoMemory>
    requires on_segments { AreOnSegments (length rows.old + 2) parts.now }
    requires limit { parts_sum parts.now ≤ balance_limit }
    ensures repaid { OnOk result (AreRepaid slot.now.day slot.now.number parts.now rows.old rows.new) }
    ensures err { OnErr result (rows.new ≡ map (without_post slot.now.number) rows.old) }
{
    match repay_parts(rows, parts, slot) {
        Ok(()) => Ok(()),
        Err(NoMemory) => {
            unpay(rows, slot.number);
            Err(NoMemory)
        }
    }
}
