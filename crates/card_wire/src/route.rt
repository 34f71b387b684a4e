// What a path names.
ghost use Rattle.std.specs.Prelude.{◌≡◌};

use crate::account_name::AccountName;
use card_events::Num;

/// What a path names, with its account and its cycle.
#[derive(Drop)]
pub enum Route<'a> {
    /// `/posts`
    Posts,
    /// `/accounts/{account}`
    Account(AccountName<'a>),
    /// `/accounts/{account}/statements/{cycle}`
    Statement(AccountName<'a>, Num),
    /// `/accounts/{account}/cycles/{cycle}`
    Cycle(AccountName<'a>, Num),
    /// `/accounts/{account}/entries`
    Entries(AccountName<'a>),
    /// `/work`
    Work,
}

impl<'a> Route<'a> {
    ghost use Rattle.std.specs.Prelude.{◌≡◌};
    ghost use Rattle.card_wire.specs.Routes.{method_of};

    /// Its method: POST for `/posts`, GET for all others.
    pub fn method(&self) -> &'static [u8]
        ensures { result.now ≡ method_of self.now }
    {
        match self {
            Route::Posts => b"POST",
            Route::Account(_) => b"GET",
            Route::Statement(_, _) => b"GET",
            Route::Cycle(_, _) => b"GET",
            Route::Entries(_) => b"GET",
            Route::Work => b"GET",
        }
    }
}
