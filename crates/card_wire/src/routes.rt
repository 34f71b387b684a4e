// The six routes, and which of them a path has.
ghost use Rattle.std.specs.Prelude.{◌≡◌, Ok, IfOk};
ghost use Rattle.matchit.specs.Params.{AllText};
ghost use Rattle.matchit.specs.Route.{parse_route};
ghost use Rattle.matchit.specs.Router.{InsertsRead};
ghost use Rattle.card_wire.specs.Taken.{account_taken, cycle_taken, placed_route, taken};

use crate::account_name::AccountName;
use crate::route::Route;
use card_events::{NoMemory, Num};
use card_lines::read_number;
use matchit::{Params, Router};
use std::alloc::Global;
use std::marker::Model;

// A route without its account and cycle.
#[derive(Clone, Copy)]
pub enum Place {
    Posts,
    Account,
    Statement,
    Cycle,
    Entries,
    Work,
}

/// The six routes.
#[derive(Drop)]
pub struct Routes {
    router: Router<Place>,
}

impl Model for Routes {
    ghost use Rattle.std.specs.Prelude.{◌≡◌, ⊤};
    ghost use Rattle.card_wire.specs.Taken.{six_routes};

    ghost Value = { ⊤ };

    ghost view = { λ r. tt };

    ghost invariant = { λ r. r.router ≡ six_routes };
}

impl Routes {
    ghost use Rattle.std.specs.Prelude.{◌≡◌};
    ghost use Rattle.card_wire.specs.Routes.{route_of};

    /// The six routes. They take memory; to find one in them takes none.
    pub fn new(alloc: Global) -> Result<Routes, NoMemory> {
        let mut router = Router::new(alloc);
        put(&mut router, "/posts", Place::Posts)?;
        put(&mut router, "/accounts/{account}", Place::Account)?;
        put(
            &mut router,
            "/accounts/{account}/statements/{cycle}",
            Place::Statement,
        )?;
        put(
            &mut router,
            "/accounts/{account}/cycles/{cycle}",
            Place::Cycle,
        )?;
        put(&mut router, "/accounts/{account}/entries", Place::Entries)?;
        put(&mut router, "/work", Place::Work)?;
        Ok(Routes { router })
    }

    /// The route of a path, with its account and its cycle, where its account is a name and its cycle a number of at most twelve
    /// digits, without a sign and with no leading zero but `0` itself. Nothing else matches: no slash at the end, no percent
    /// sign that stands for another byte.
    pub fn find<'a>(&self, path: &'a str) -> Option<Route<'a>>
        ensures { result ≡ route_of path.now }
    {
        match self.router.at(path) {
            Ok(found) => route_at(*found.value, &found.params),
            Err(_) => None,
        }
    }
}

// Adds a route.
fn put(router: &mut Router<Place>, route: &str, place: Place) -> Result<(), NoMemory>
    ensures { IfOk result (λ u. InsertsRead (parse_route route.now) place router.old router.new (Ok u)) }
{
    match router.insert(route, place) {
        Ok(()) => Ok(()),
        Err(_) => Err(NoMemory),
    }
}

// The route of this place, with the account and the cycle that were taken from the path.
fn route_at<'a>(place: Place, params: &Params<'_, 'a>) -> Option<Route<'a>>
    requires text { AllText (taken params.now) }
    ensures { result ≡ placed_route place (taken params.now) }
{
    match place {
        Place::Posts => Some(Route::Posts),
        Place::Account => Some(Route::Account(account_in(params)?)),
        Place::Statement => {
            let account = account_in(params)?;
            let cycle = cycle_in(params)?;
            Some(Route::Statement(account, cycle))
        }
        Place::Cycle => {
            let account = account_in(params)?;
            let cycle = cycle_in(params)?;
            Some(Route::Cycle(account, cycle))
        }
        Place::Entries => Some(Route::Entries(account_in(params)?)),
        Place::Work => Some(Route::Work),
    }
}

// The account, where it is a name.
fn account_in<'a>(params: &Params<'_, 'a>) -> Option<AccountName<'a>>
    requires text { AllText (taken params.now) }
    ensures { result ≡ account_taken (taken params.now) }
{
    AccountName::read(params.get("account")?)
}

// The cycle, where it is a number.
fn cycle_in(params: &Params<'_, '_>) -> Option<Num>
    requires text { AllText (taken params.now) }
    ensures { result ≡ cycle_taken (taken params.now) }
{
    read_number(params.get("cycle")?.as_bytes())
}
