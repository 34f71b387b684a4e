// Reading a kept row.
ghost use Rattle.std.specs.Prelude.{◌≡◌};
ghost use Rattle.card_rows.specs.Reading.{GivesSome, request_in};
ghost use Rattle.card_rows.specs.Reading as spec;
ghost use Rattle.card_rows.specs.Spelling.{is_code};

use crate::fields::{read_byte, read_name};
use crate::format::Format;
use crate::kinds::{read_post, read_shared};
use card_events::Request;

#[tactic(auto, unfolding(crate::specs::Reading::request_in))]
pub fn read_row(bytes: &[u8]) -> Option<Request>
    ensures { result ≡ request_in bytes.now }
{
    let mut left = bytes;
    let rest = &mut left;
    match read_request(rest) {
        Some(request) => whole(request, rest),
        None => None,
    }
}

fn whole(request: Request, rest: &[u8]) -> Option<Request>
    ensures { result ≡ spec.whole (request, rest.now) }
{
    match rest {
        [] => Some(request),
        [_, ..] => None,
    }
}

#[tactic(auto, unfolding(crate::specs::Reading::read_request))]
fn read_request(rest: &mut &[u8]) -> Option<Request>
    ensures { GivesSome result rest.new.now (spec.read_request rest.old.now) }
{
    let format = read_format(rest)?;
    let code = read_code(format, rest)?;
    read_coded(format, code, rest)
}

#[tactic(auto, unfolding(crate::specs::Reading::read_format, crate::specs::Reading::format_in))]
fn read_format(rest: &mut &[u8]) -> Option<Format>
    ensures { GivesSome result rest.new.now (spec.read_format rest.old.now) }
{
    match read_byte(rest)? {
        1 => Some(Format::First),
        2 => Some(Format::Second),
        _ => None,
    }
}

#[tactic(auto, unfolding(crate::specs::Reading::read_code))]
fn read_code(format: Format, rest: &mut &[u8]) -> Option<u8>
    ensures { GivesSome result rest.new.now (spec.read_code format rest.old.now) }
{
    code_in(format, read_byte(rest)?)
}

#[tactic(auto, unfolding(crate::specs::Reading::code_in))]
fn code_in(format: Format, code: u8) -> Option<u8>
    ensures { result ≡ spec.code_in format code }
{
    if has_code(format, code) {
        Some(code)
    } else {
        None
    }
}

fn has_code(format: Format, code: u8) -> bool
    ensures { result ≡ is_code format code }
{
    match format {
        Format::First => code <= 20,
        Format::Second => true,
    }
}

// whether a shared request has the code
fn is_shared_code(code: u8) -> bool
    ensures { result ≡ spec.is_shared_code code }
{
    code < 4 || code == 21
}

#[tactic(auto, unfolding(crate::specs::Reading::read_coded))]
fn read_coded(format: Format, code: u8, rest: &mut &[u8]) -> Option<Request>
    ensures { GivesSome result rest.new.now (spec.read_coded format code rest.old.now) }
{
    if is_shared_code(code) {
        read_for_all(format, code, rest)
    } else {
        read_posted(format, code, rest)
    }
}

#[tactic(auto, unfolding(crate::specs::Reading::read_for_all))]
fn read_for_all(format: Format, code: u8, rest: &mut &[u8]) -> Option<Request>
    ensures { GivesSome result rest.new.now (spec.read_for_all format code rest.old.now) }
{
    let shared = read_shared(format, code, rest)?;
    Some(Request::Shared(shared))
}

#[tactic(auto, unfolding(crate::specs::Reading::read_posted))]
fn read_posted(format: Format, code: u8, rest: &mut &[u8]) -> Option<Request>
    ensures { GivesSome result rest.new.now (spec.read_posted format code rest.old.now) }
{
    let account = read_name(rest)?;
    let key = read_name(rest)?;
    let post = read_post(format, code, rest)?;
    Some(Request::Post { account, key, post })
}
