use card_account::{EntryList, Statement, Tasks};
use card_events::{Cents, Day, Name, Num};

/// What can be asked of a desk.
#[derive(Drop)]
pub enum Ask {
    /// What is owed on the account today.
    Show(Name),
    /// The statement of the account's cycle of this number, as it was issued.
    Issued(Name, Num),
    /// The statement of the account's cycle of this number, as the book of today has it.
    Restated(Name, Num),
    /// The entries of the account up to the end of today.
    Entries(Name),
    /// The open tasks of all accounts.
    Work,
}

/// The answer to what is asked. Cents are signed; a credit balance is given as a number of at least 0.
#[derive(Drop)]
pub enum View {
    /// The account isn't there.
    NoAccount,
    /// No Bill has issued the cycle, or it isn't closed before today.
    NoStatement,
    /// Today, what is owed, the credit balance, and the amount held in dispute.
    Show {
        day: Day,
        owed: Cents,
        credit: Cents,
        held: Cents,
    },
    /// The statement of the cycle.
    Statement(Statement),
    /// The entries of the account in the order of the fold, with its segments.
    Entries(EntryList),
    /// The open tasks, by day, account, kind and post.
    Work(Tasks),
}
