//! Laws of trial balances. Their functions do nothing; their clauses are what holds.
ghost use Rattle.card_trial.specs.Laws.{DebitsAndCredits};

/// Where all accounts have reached today, after any run: debits less credits of all kinds, of all days up to one that isn't after today,
/// are what is owed on all accounts at its end; and on each day the debits of hold are as much as its credits.
pub fn debits_and_credits()
    ensures { DebitsAndCredits }
{}
