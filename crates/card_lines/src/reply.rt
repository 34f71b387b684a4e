// The texts of replies, each a whole line.
ghost use Rattle.std.specs.Prelude.{◌≡◌, ◌++◌, [], ◌∷◌, codes, decimal, IfOk};
ghost use Rattle.std.specs.String.{string_bytes};
ghost use Rattle.card_lines.specs.Replies as spec;

use crate::refusal::{refusal_name, refusal_value};
use arrayvec::ArrayString;
use card_events::{Cents, Day, Name, NoMemory, Refusal, Reply};
use itoa::Buffer;
use std::alloc::Global;
use std::fmt;

// The bytes of the longest line of an accepted post, whose number has at most ten digits.
const ACCEPTED: usize = 14;

/// The line of a reply, with its line feed: `ok`, `ok NUMBER`, or `no NUMBER NAME` and the refusal's value where it has one.
#[tactic(auto, using(crate::proofs::TextRules::texts), unfolding(crate::specs::Replies::reply_text))]
pub fn reply_text(alloc: Global, reply: &Reply) -> Result<String, NoMemory>
    ensures { IfOk result (λ text. string_bytes text ≡ spec.reply_text reply.now) }
{
    match reply {
        Reply::Done => Ok(String::from_str(alloc, "ok\n")?),
        Reply::Accepted(number) => Ok(String::from_str(alloc, accepted_line(*number).as_str())?),
        Reply::Refused(refusal) => refusal_text(alloc, refusal),
    }
}

/// The line of a post that was accepted under a number, as most replies are. It doesn't allocate.
#[tactic(auto, using(crate::proofs::TextRules::texts), unfolding(crate::specs::Replies::reply_text))]
pub fn accepted_line(number: u32) -> ArrayString<ACCEPTED>
    ensures { result.bytes ≡ spec.reply_text (Reply.Accepted number) }
{
    let mut digits = Buffer::new();
    let mut line = ArrayString::new();
    line.push_str("ok ");
    line.push_str(digits.format(number));
    line.push_str("\n");
    line
}

#[tactic(auto, using(crate::proofs::TextRules::texts), unfolding(crate::specs::Replies::refusal_text))]
fn refusal_text(alloc: Global, refusal: &Refusal) -> Result<String, NoMemory>
    ensures { IfOk result (λ text. string_bytes text ≡ spec.refusal_text refusal.now) }
{
    let number = refusal.number();
    let name = refusal_name(refusal);
    match refusal_value(refusal) {
        None => Ok(format!(in alloc; "no {number} {name}\n")?),
        Some(value) => Ok(format!(in alloc; "no {number} {name} {value}\n")?),
    }
}

/// The line that answers a bad line or record, with its line feed. Lines and records count from 1, fields too; field 0 is a
/// line that is too long.
#[tactic(auto, using(crate::proofs::TextRules::texts), unfolding(crate::specs::Replies::bad_text))]
pub fn bad_text(alloc: Global, line: u64, field: u8) -> Result<String, NoMemory>
    ensures { IfOk result (λ text. string_bytes text ≡ spec.bad_text line field) }
{
    Ok(format!(in alloc; "bad {line} {field}\n")?)
}

/// The line that shows an account, with its line feed: on this day it owes these cents (negative for a credit balance), and
/// these are held as credit, and in dispute.
pub fn show_text(
    alloc: Global,
    account: &Name,
    day: Day,
    owed: Cents,
    credit: Cents,
    held: Cents,
) -> Result<String, NoMemory>
    ensures { IfOk result (λ text. string_bytes text ≡ spec.show_text account.now day owed credit held) }
{
    account_text(
        alloc,
        name_text(account),
        day,
        &Balances { owed, credit, held },
    )
}

/// The name of an account as text.
pub fn name_text(account: &Name) -> &str
    ensures { result.now ≡ account.now }
{
    match str::from_utf8(account.bytes()) {
        Ok(name) => name,
        Err(_) => unreachable!(),
    }
}

#[tactic(auto, using(crate::proofs::TextRules::texts), unfolding(crate::specs::Replies::show_text))]
fn account_text(
    alloc: Global,
    account: &str,
    day: Day,
    balances: &Balances,
) -> Result<String, NoMemory>
    ensures { IfOk result (λ text. string_bytes text ≡ spec.show_text account.now day balances.now.owed balances.now.credit balances.now.held) }
{
    Ok(format!(in alloc; "show {account} {day} {balances}\n")?)
}

/// What an account owes, and what is held as credit and in dispute, in cents.
#[derive(Drop)]
struct Balances {
    owed: Cents,
    credit: Cents,
    held: Cents,
}

impl fmt::Display for Balances {
    ghost use Rattle.std.specs.Prelude.{Some};
    ghost use Rattle.card_lines.specs.Replies.{balances_text};

    ghost output = { λ b. Some (balances_text b.owed b.credit b.held) };

    #[tactic(auto, using(crate::proofs::TextRules::texts), unfolding(crate::specs::Replies::balances_text))]
    fn fmt<W: fmt::Write>(&self, f: &mut fmt::Formatter<W>) -> fmt::Result {
        let Balances { owed, credit, held } = self;
        write!(f, "owed {owed} credit {credit} held {held}")
    }
}
