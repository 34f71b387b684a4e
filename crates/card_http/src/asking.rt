// What a route asks of a ledger.
ghost use Rattle.std.specs.Prelude.{◌≡◌};
ghost use Rattle.card_http.specs.Outcomes.{asked};

use card_desk::Ask;
use card_wire::Route;

/// What this route asks. None: it asks nothing.
#[tactic(auto, unfolding(crate::specs::Outcomes::asked))]
pub fn read_ask(route: &Route) -> Option<Ask>
    ensures { result ≡ asked route.now }
{
    match route {
        Route::Posts => None,
        Route::Account(account) => Some(Ask::Show(account.name())),
        Route::Statement(account, cycle) => Some(Ask::Issued(account.name(), *cycle)),
        Route::Cycle(account, cycle) => Some(Ask::Restated(account.name(), *cycle)),
        Route::Entries(account) => Some(Ask::Entries(account.name())),
        Route::Work => Some(Ask::Work),
    }
}
