// Why a post under a new key isn't accepted, by the posts and, of a Penalty or a Refund, by the book of today.
ghost use Rattle.std.specs.Prelude.{◌≡◌, true, false, List, Some};
ghost use Rattle.card_account.specs.Verdicts.{refunds_no_amount};
ghost use Rattle.card_events.specs.Dated.{is_dated_post};
ghost use Rattle.card_events.specs.declared.post.Post.TheVariants as post;
ghost use Rattle.card_events.specs.History.{is_open};
ghost use Rattle.card_model.specs.Cycles.{IssuedRow};
ghost use Rattle.card_model.specs.Refusals.{Present, book_today, reason_against};
ghost use Rattle.card_reasons.specs.Reasons.{judged_of, reads_book};

use card_book::{Folded, Present};
use card_events::{Num, Post, Refusal};
use card_reasons::{is_no_amount, ordered_bill_reason, penalty_reason, post_reason, refund_reason};

/// Whether a post is judged by the book of today: a Penalty or a Refund.
pub fn reads_book(post: &Post) -> bool
    ensures { result ≡ reads_book post.now }
{
    matches!(post, Post::Penalty | Post::Refund { .. })
}

/// Whether a post is a Refund of an amount that is out of its range, which needs no book to be refused.
pub fn refunds_no_amount(post: &Post) -> bool
    ensures { result ≡ refunds_no_amount post.now }
{
    match post {
        Post::Refund { cents } => is_no_amount(*cents),
        _ => false,
    }
}

// Why a Refund isn't accepted today.
fn refund_today(now: &Present, folded: &Folded, cents: Num) -> Option<Refusal>
    requires book { folded.now.book ≡ book_today now.now }
    ensures { result ≡ reason_against now.now (post.Refund cents) }
{
    if is_no_amount(cents) {
        return Some(Refusal::AmountRange);
    }
    refund_reason(now.posts(), cents, folded.credit())
}

// Why a Penalty isn't accepted today.
fn penalty_today(now: &Present, folded: &Folded) -> Option<Refusal>
    requires book { folded.now.book ≡ book_today now.now }
    ensures { result ≡ reason_against now.now post.Penalty }
{
    penalty_reason(now.posts(), folded.late_today(now))
}

/// Why a Penalty or a Refund isn't accepted today under a new key, by the book of today: the first reason, and None where it is
/// accepted. Of another post it says nothing.
pub fn reason_by_book(now: &Present, folded: &Folded, post: &Post) -> Option<Refusal>
    requires book { folded.now.book ≡ book_today now.now }
    ensures { reads_book post.now ≡ true → result ≡ reason_against now.now post.now }
{
    match post {
        Post::Penalty => penalty_today(now, folded),
        Post::Refund { cents } => refund_today(now, folded, *cents),
        _ => None,
    }
}

// Why a Bill isn't accepted today, whatever was issued.
fn bill_today(now: &Present, cycle: Num) -> Option<Refusal>
    ensures { (issued : List IssuedRow) → result ≡ reason_against (judged_of now.now.today now.now.shared issued now.now.lists.posts) (post.Bill cycle) }
{
    ordered_bill_reason(now.posts(), &now.anchor(), now.today(), cycle)
}

/// Why another post isn't accepted today under a new key, by the posts alone, whatever was issued: the first reason, and None where it is
/// accepted. It is no opening, Penalty or Refund, and its days are days of requests.
pub fn reason_by_posts(now: &Present, post: &Post) -> Option<Refusal>
    requires not_open { is_open post.now ≡ false }
    requires no_book { reads_book post.now ≡ false }
    requires dated { is_dated_post post.now ≡ true }
    ensures { (issued : List IssuedRow) → result ≡ reason_against (judged_of now.now.today now.now.shared issued now.now.lists.posts) post.now }
{
    match post {
        Post::Bill { cycle } => bill_today(now, *cycle),
        _ => post_reason(now.posts(), &now.anchor(), now.today(), post),
    }
}
