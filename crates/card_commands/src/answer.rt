// The result of an item, and what is written for it.
ghost use Rattle.std.specs.Prelude.{◌≡◌, false, IfOk, IfSome, OnOk, OnErr};
ghost use Rattle.std.specs.String.{string_bytes};
ghost use Rattle.card_desk.specs.Applied as applied;
ghost use Rattle.card_desk.specs.Kept.{Fits};
ghost use Rattle.card_desk.specs.Views.{seen};
ghost use Rattle.card_desk.specs.declared.view.Ask.TheVariants as ask;
ghost use Rattle.card_ports.specs.Rows.{AddsRows, KeepsRows};
ghost use Rattle.card_model.specs.Machine.{State};
ghost use Rattle.card_commands.specs.Answers.{answer_text, is_refused, item_rows, next, reply_in};
ghost use Rattle.card_commands.specs.Answers as spec;
ghost use Rattle.card_demo.specs.Progress.{is_refusal};
ghost use Rattle.card_lines.specs.Replies as lines;
ghost use Rattle.card_text.specs.Items.{IsDatedItem};

use card_desk::{Desk, Fault, View, uncounted};
use card_events::{Name, NoMemory, Refusal, Reply};
use card_lines::{bad_text, reply_text, show_text};
use card_ports::Keeper;
use card_text::Item;
use std::alloc::Global;

/// Carries out an item's request, where it is one, and gives the reply to it. Where it is newly accepted its row is kept.
#[tactic(auto, unfolding(crate::specs::Answers::reply_in, crate::specs::Answers::next, crate::specs::Answers::item_rows))]
pub fn carry_out<K: Keeper>(
    alloc: Global,
    desk: &mut Desk,
    keeper: &mut K,
    item: &Item,
) -> Result<Option<Reply>, Fault>
    requires dated { IsDatedItem item.now }
    requires fits { Fits (K.rows keeper.old) desk.old.state }
    ensures reply { IfOk result (λ reply. reply ≡ reply_in desk.old.state item.now) }
    ensures next { OnOk result (desk.new.state ≡ next desk.old.state item.now) }
    ensures kept { OnOk result (AddsRows (K.rows keeper.old) (K.rows keeper.new) (item_rows desk.old.state item.now)) }
    ensures fits { OnOk result (Fits (K.rows keeper.new) desk.new.state) }
    ensures rows_stay { OnErr result (KeepsRows (K.rows keeper.old) (K.rows keeper.new)) }
    ensures counts { applied.IsCounted Fault.Keeper Fault.Memory (K.faults keeper.old) (K.faults keeper.new) result }
{
    match item {
        Item::Request(request) => match uncounted::apply(alloc, desk, keeper, request) {
            Ok(reply) => Ok(Some(reply)),
            Err(fault) => Err(fault),
        },
        Item::Show(_) | Item::Bad { .. } => Ok(None),
    }
}

/// The number under which an item's post was accepted, where this is the reply to it. The line of that reply is then all that is written
/// for the item.
#[tactic(auto, unfolding(crate::specs::Answers::reply_in, crate::specs::Answers::answer_text, crate::specs::Answers::is_refused))]
pub fn accepted_number(item: &Item, reply: &Option<Reply>) -> Option<u32>
    ensures text { IfSome result (λ n. (s : State) → reply.now ≡ reply_in s item.now → answer_text s item.now ≡ lines.reply_text (Reply.Accepted n)) }
    ensures refused { IfSome result (λ n. (s : State) → reply.now ≡ reply_in s item.now → is_refused s item.now ≡ false) }
{
    match (item, reply) {
        (Item::Request(_), Some(Reply::Accepted(number))) => Some(*number),
        _ => None,
    }
}

/// What is written for an item that was carried out with this reply, and whether that is `no` or `bad`.
#[tactic(auto, unfolding(crate::specs::Answers::reply_in, crate::specs::Answers::next, crate::specs::Answers::answer_text, crate::specs::Answers::is_refused))]
pub fn answer(
    alloc: Global,
    desk: &mut Desk,
    item: &Item,
    reply: &Option<Reply>,
) -> Result<(String, bool), NoMemory>
    ensures state { desk.new.state ≡ desk.old.state }
    ensures text { (s : State) → desk.old.state ≡ next s item.now → reply.now ≡ reply_in s item.now → IfOk result (λ a. string_bytes a.0 ≡ answer_text s item.now) }
    ensures refused { (s : State) → desk.old.state ≡ next s item.now → reply.now ≡ reply_in s item.now → IfOk result (λ a. a.1 ≡ is_refused s item.now) }
{
    match item {
        Item::Request(_) => answer_request(alloc, reply),
        Item::Show(account) => answer_show(alloc, desk, account),
        Item::Bad { number, field } => Ok((bad_text(alloc, *number, *field)?, true)),
    }
}

fn answer_request(alloc: Global, reply: &Option<Reply>) -> Result<(String, bool), NoMemory>
    ensures text { IfOk result (λ a. string_bytes a.0 ≡ spec.text_for reply.now) }
    ensures refused { IfOk result (λ a. a.1 ≡ spec.is_refused_by reply.now) }
{
    match reply {
        Some(reply) => Ok((reply_text(alloc, reply)?, is_refusal(reply))),
        None => Ok((String::new(alloc), false)),
    }
}

#[tactic(auto, unfolding(card_desk::specs::Views::seen))]
fn answer_show(alloc: Global, desk: &mut Desk, account: &Name) -> Result<(String, bool), NoMemory>
    ensures state { desk.new.state ≡ desk.old.state }
    ensures text { IfOk result (λ a. string_bytes a.0 ≡ spec.view_text account.now (seen desk.old.state (ask.Show account.now))) }
    ensures refused { IfOk result (λ a. a.1 ≡ spec.is_no_account (seen desk.old.state (ask.Show account.now))) }
{
    let view = uncounted::show(alloc, desk, account)?;
    Ok((view_text(alloc, account, &view)?, is_no_account(&view)))
}

#[tactic(auto, unfolding(crate::specs::Answers::view_text, card_lines::specs::Replies::reply_text))]
fn view_text(alloc: Global, account: &Name, view: &View) -> Result<String, NoMemory>
    ensures { IfOk result (λ text. string_bytes text ≡ spec.view_text account.now view.now) }
{
    match view {
        View::NoAccount => reply_text(alloc, &Reply::Refused(Refusal::UnknownAccount)),
        View::Show {
            day,
            owed,
            credit,
            held,
        } => show_text(alloc, account, *day, *owed, *credit, *held),
        View::NoStatement | View::Statement(_) | View::Entries(_) | View::Work(_) => {
            Ok(String::new(alloc))
        }
    }
}

fn is_no_account(view: &View) -> bool
    ensures { result ≡ spec.is_no_account view.now }
{
    matches!(view, View::NoAccount)
}

fn is_refusal(reply: &Reply) -> bool
    ensures { result ≡ is_refusal reply.now }
{
    matches!(reply, Reply::Refused(_))
}
