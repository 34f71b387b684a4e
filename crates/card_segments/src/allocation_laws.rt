//! Laws on allocation. Their functions do nothing; their clauses are what holds.

ghost use Rattle.card_segments.specs.AllocationLaws.{PutBackIsOfEntries, PutBackUndoesTake};

/// Where no segment but Held is above 0 while Credit isn't 0, parts that are put back right after they were taken leave
/// the balances from before.
pub fn put_back_undoes_take()
    ensures { PutBackUndoesTake }
{}

/// Where each balance is the sum of its segment's entries, the parts that a payment's entries record are put back as the
/// ledger puts those entries back.
pub fn put_back_is_of_entries()
    ensures { PutBackIsOfEntries }
{}
