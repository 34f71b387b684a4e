// The rows of requests.
ghost use Rattle.std.specs.Prelude.{◌≡◌, true, IfOk, OnOk};
ghost use Rattle.card_events.specs.Dated.{is_dated};
ghost use Rattle.card_desk.specs.Kept as spec;
ghost use Rattle.card_rows.specs.Held.{is_request};

use card_events::{NoMemory, Request};
use card_ports::{Body, Row};
use card_rows::encode;
use std::alloc::Global;

/// The row of a request, whose days are days of requests, under a number.
pub fn row_of(alloc: Global, seq: u64, request: &Request) -> Result<Row, NoMemory>
    requires { is_dated request.now ≡ true }
    ensures value { IfOk result (λ row. row ≡ spec.row_of seq request.now) }
    ensures held { OnOk result (is_request request.now ≡ true) }
{
    let body = encode(alloc, request)?;
    Ok(Row {
        seq,
        body: Body::of(body.into_bytes()),
    })
}
