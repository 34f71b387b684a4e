// What a head asks for.
ghost use Rattle.std.specs.Prelude.{◌≡◌, ◌≤◌, IfOk};
ghost use Rattle.card_wire.specs.Wants as spec;

use crate::body::BODY_LIMIT;
use crate::framing::body_length;
use crate::head::Head;
use crate::path::path_of;
use crate::route::Route;
use crate::routes::Routes;

/// What a request asks for, and how many bytes its body has.
#[derive(Drop)]
pub struct Wanted<'a> {
    pub route: Route<'a>,
    pub length: u64,
}

/// Why a request is answered without its body. The first that applies is given, in this order.
#[derive(Clone, Copy)]
pub enum Early {
    /// A Transfer-Encoding is there, or Content-Length twice, or it isn't 1 to 9 digits.
    BadRequest,
    /// The path has no route.
    NotFound,
    /// The route has another method.
    BadMethod,
    /// The body is longer than 16,384 bytes.
    TooLarge,
}

/// What the head asks for.
#[tactic(auto, unfolding(crate::specs::Wants::with_length, crate::specs::Wants::with_route))]
pub fn judge<'a>(routes: &Routes, head: &'a Head) -> Result<Wanted<'a>, Early>
    ensures value { result ≡ spec.wanted head.now }
    ensures few { IfOk result (λ w. w.length ≤ spec.body_limit) }
{
    let Some(length) = body_length(head) else {
        return Err(Early::BadRequest);
    };
    let Some(route) = routes.find(path_of(head.target())) else {
        return Err(Early::NotFound);
    };
    if head.method() != route.method() {
        return Err(Early::BadMethod);
    }
    if length > BODY_LIMIT as u64 {
        return Err(Early::TooLarge);
    }
    Ok(Wanted { route, length })
}
