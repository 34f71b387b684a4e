//! Laws of kept rows and of accounts apart, for all rows and all requests. Their functions do nothing; their clauses are what holds.
ghost use Rattle.std.specs.Prelude.{◌≡◌, ◌++◌, ◌+◌, length, ℕ, true, List, []};
ghost use Rattle.std.specs.List.{list_all};
ghost use Rattle.card_events.specs.declared.request.Request.{Request};
ghost use Rattle.card_ports.specs.declared.row.Row.{Row};
ghost use Rattle.card_model.specs.Machine.{State, start, step, run, accepted_from};
ghost use Rattle.card_model.specs.Isolated.{Isolation};
ghost use Rattle.card_rows.specs.Held.{is_request};
ghost use Rattle.card_desk.specs.Apart.{LooksIsolated, RequestsStandApart};
ghost use Rattle.card_desk.specs.Kept.{AreSound, AreDamaged, IsRunOf, rows_from, rows_of, new_rows};

/// The rows of what is newly accepted of requests are sound, and a run of the accepted ones alone ends in the state of the
/// whole run. Sound rows, in either format, continue with those written for what is newly accepted after them. Sound rows are
/// damaged nowhere: so no row that a desk wrote is ever called damaged, and a desk that is loaded from them is in the writer's
/// state.
pub fn load_of_rows()
    ensures sound { (requests : List Request) → list_all is_request requests ≡ true → AreSound (rows_of (accepted_from start requests)) (accepted_from start requests) }
    ensures state { (requests : List Request) → run (accepted_from start requests) ≡ run requests }
    ensures goes_on { (rows : List Row) (requests more : List Request) → AreSound rows requests → list_all is_request more ≡ true → AreSound (rows ++ rows_from (length rows + 1) (accepted_from (run requests) more)) (requests ++ accepted_from (run requests) more) }
    ensures not_damaged { (rows : List Row) (requests : List Request) (n : ℕ) → AreSound rows requests → AreDamaged rows n → ⊥ }
{}

/// A desk without rows is a new one; and where a desk is that of its rows, it still is after one more request, with the row
/// that this one adds.
pub fn rows_of_a_desk()
    ensures first { IsRunOf [] start }
    ensures next { (rows : List Row) (s : State) (r : Request) → IsRunOf rows s → is_request r ≡ true → IsRunOf (rows ++ new_rows s r) (step s r).0 }
{}

/// Sound rows are the rows of one list of requests.
pub fn rows_tell_requests()
    ensures { (rows : List Row) (these those : List Request) → AreSound rows these → AreSound rows those → these ≡ those }
{}

/// Over two lists of requests that agree on one account and on what all accounts share, with equal replies to the latter and
/// the ledger never full for an opening of that account: all replies on the account are equal, and so are its posts, its issued
/// statements, its cycles, and the answers to what is asked of it. No other account's requests reach it.
pub fn isolation()
    ensures lists { Isolation }
    ensures cycles { LooksIsolated }
{}

/// A single request changes the posts and issued statements of no account but the one that it names; and its reply depends on
/// today, the shared requests, that account's own lists and, for an opening, the number of accounts, and on nothing else.
pub fn requests_stand_apart()
    ensures { RequestsStandApart }
{}
