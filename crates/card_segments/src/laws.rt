//! Laws on balances. Their functions do nothing; their clauses are what holds.

ghost use Rattle.std.specs.Prelude.{◌≡◌, ℕ, ◌<◌, ◌≤◌, List, [], ◌∷◌, ◌++◌, length, replicate, ℤ, pos};
ghost use Rattle.std.specs.List.{All};
ghost use Rattle.card_events.specs.declared.anchor.Anchor.{Anchor};
ghost use Rattle.card_events.specs.declared.post.Terms.{Terms};
ghost use Rattle.card_model.specs.Entries.{AreBalances, debit, holds, lowers, owed, posted, releases};
ghost use Rattle.card_model.specs.Segments.{kept_segments};
ghost use Rattle.card_model.specs.declared.entry.Entry.{Entry};
ghost use Rattle.card_model.specs.declared.entry.Note.{Note};
ghost use Rattle.card_segments.specs.Balances.{AreOn, opening_segments, total};
ghost use Rattle.card_segments.specs.Unposted.{BalancesBefore, BalancesGoBack};

/// Where each balance is the sum of its segment's entries, so it is after more entries on segments that are there, and
/// after a segment is added.
pub fn balances_are_sums()
    ensures start { (n : ℕ) → AreBalances [] (replicate n (pos 0)) }
    ensures after_entries { (entries more : List Entry) (balances : List ℤ) → AreBalances entries balances → AreOn (length balances) more → AreBalances (entries ++ more) (posted more balances) }
    ensures after_segment { (entries : List Entry) (balances : List ℤ) → AreBalances entries balances → AreBalances entries (balances ++ pos 0 ∷ []) }
{}

/// The entries of each call are on segments that are there.
pub fn entries_are_on_segments()
    ensures debit { (note : Note) (id cents credit n : ℕ) → 1 < n → id < n → AreOn n (debit note id cents credit) }
    ensures credit { (note : Note) (id cents n : ℕ) → id < n → AreOn n (lowers note id cents) }
    ensures hold { (note : Note) (id cents n : ℕ) → 1 < n → id < n → AreOn n (holds note id cents) }
    ensures release { (note : Note) (id cents credit n : ℕ) → 1 < n → id < n → AreOn n (releases note id cents credit) }
{}

/// Where each balance is the sum of its segment's entries, the sum of the balances is what the entries owe.
pub fn owed_is_the_sum()
    ensures { (entries : List Entry) (balances : List ℤ) → AreBalances entries balances → total balances ≡ owed entries }
{}

/// An account without posts has the opening segments.
pub fn opening()
    ensures { (anchor : Anchor) (terms : Terms) → kept_segments anchor terms [] ≡ opening_segments anchor.opened }
{}

/// Where each balance is the sum of its segment's entries, so it was before the last of these.
pub fn balances_go_back()
    ensures { BalancesGoBack }
{}

/// The same of balances that were taken back segment by segment.
pub fn balances_before()
    ensures { BalancesBefore }
{}
