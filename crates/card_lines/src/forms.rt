// The forms of fields.
ghost use Rattle.std.specs.Prelude.{◌≡◌, true, false, ◌&&◌, ◌≤◌, ◌<◌, ◌^◌, length, take, drop, MatchOption};
ghost use Rattle.std.specs.Char.{is_ascii_digit};
ghost use Rattle.std.specs.List.{list_all};
ghost use Rattle.card_lines.specs.Forms.{number_of, is_decimal, value_after, day_of, request_day_at, category_of, place_in, place_of, channel_of, plan_kind_of, finding_of};
ghost use Rattle.card_lines.specs.Forms as spec;

use crate::word::is_word;
use card_events::{Category, Channel, Day, Finding, Num, Place, PlanKind};

/// The number with these digits: at most twelve, without a sign, and with no leading zero but `0` itself.
#[tactic(auto, unfolding(crate::specs::Forms::number_of))]
pub fn read_number(text: &[u8]) -> Option<Num>
    ensures { result ≡ number_of text.now }
{
    if !has_decimal_form(text) {
        return None;
    }
    match read_digits(text) {
        None => None,
        Some(value) => Num::new(value),
    }
}

// One to twelve bytes, and no zero before another byte.
#[tactic(auto, unfolding(crate::specs::Forms::is_decimal))]
fn has_decimal_form(text: &[u8]) -> bool
    ensures decides { (result && list_all is_ascii_digit text.now) ≡ is_decimal text.now }
    ensures few { result ≡ true → length text.now ≤ 12 }
{
    match text {
        [] => false,
        [first, others @ ..] => others.len() < 12 && (others.is_empty() || *first != b'0'),
    }
}

// The number of at most twelve digits. None comes exactly where a byte is no digit.
fn read_digits(text: &[u8]) -> Option<u64>
    requires { length text.now ≤ 12 }
    ensures { MatchOption result (list_all is_ascii_digit text.now ≡ false) (λ v. (list_all is_ascii_digit text.now ≡ true) × (v ≡ value_after 0 text.now) × (v < 10 ^ length text.now)) }
{
    let mut value = 0;
    for b in text {
        if !b.is_ascii_digit() {
            return None;
        }
        value = 10 * value + (*b - b'0') as u64;
    }
    Some(value)
}

/// Each byte is a decimal digit.
pub fn are_digits(text: &[u8]) -> bool
    ensures { result ≡ list_all is_ascii_digit text.now }
{
    text.iter().all(|b| b.is_ascii_digit())
}

/// The number of at most twelve digits, leading zeros among them.
pub fn digits_value(text: &[u8]) -> u64
    requires digits { list_all is_ascii_digit text.now ≡ true }
    requires length { length text.now ≤ 12 }
    ensures value { result ≡ value_after 0 text.now }
    ensures bound { result < 10 ^ length text.now }
{
    let mut value = 0;
    for b in text {
        value = 10 * value + (*b - b'0') as u64;
    }
    value
}

/// The day that is written `YYYY-MM-DD`, where the calendar has it and it lies from 2011-01-01 to 2099-12-31.
#[tactic(auto, unfolding(crate::specs::Forms::day_of))]
pub fn read_day(text: &[u8]) -> Option<Day>
    ensures { result ≡ day_of text.now }
{
    if !has_day_form(text) {
        return None;
    }
    let year = read_digits(&text[..4])?;
    let month = read_digits(&text[5..7])?;
    let day = read_digits(&text[8..])?;
    request_day(year, month, day)
}

// Ten bytes, the fifth and the eighth of them dashes.
#[tactic(auto, unfolding(crate::specs::Forms::is_day_text))]
fn has_day_form(text: &[u8]) -> bool
    ensures decides { (result && (list_all is_ascii_digit (take 4 text.now) && (list_all is_ascii_digit (take 2 (drop 5 text.now)) && list_all is_ascii_digit (drop 8 text.now)))) ≡ spec.is_day_text text.now }
    ensures ten { result ≡ true → length text.now ≡ 10 }
{
    text.len() == 10 && text[4] == b'-' && text[7] == b'-'
}

#[tactic(auto, unfolding(crate::specs::Forms::request_day_at))]
fn request_day(year: u64, month: u64, day: u64) -> Option<Day>
    ensures { result ≡ request_day_at year month day }
{
    if year > 2102 || month > 12 || day > 31 {
        return None;
    }
    match Day::from_ymd(year as u16, month as u8, day as u8) {
        Some(day) if day.is_request_day() => Some(day),
        _ => None,
    }
}

/// The category with this word.
#[tactic(auto, unfolding(crate::specs::Forms::category_of))]
pub fn read_category(text: &[u8]) -> Option<Category>
    ensures { result ≡ category_of text.now }
{
    if is_word(text, b"purchase") {
        Some(Category::Purchase)
    } else if is_word(text, b"cash") {
        Some(Category::Cash)
    } else if is_word(text, b"transfer") {
        Some(Category::Transfer)
    } else {
        None
    }
}

/// The place with this word: a category's, or `plan:` and the number of a plan.
#[tactic(auto, unfolding(crate::specs::Forms::place_of))]
pub fn read_place(text: &[u8]) -> Option<Place>
    ensures { result ≡ place_of text.now }
{
    if text.len() >= 5 && is_word(&text[..5], b"plan:") {
        read_number(&text[5..]).map(Place::Plan)
    } else {
        read_category(text).map(whole_category)
    }
}

fn whole_category(category: Category) -> Place
    ensures { result ≡ place_in category }
{
    match category {
        Category::Purchase => Place::Purchase,
        Category::Cash => Place::Cash,
        Category::Transfer => Place::Transfer,
    }
}

/// The channel with this word.
#[tactic(auto, unfolding(crate::specs::Forms::channel_of))]
pub fn read_channel(text: &[u8]) -> Option<Channel>
    ensures { result ≡ channel_of text.now }
{
    if is_word(text, b"mail") {
        Some(Channel::Mail)
    } else if is_word(text, b"online") {
        Some(Channel::Online)
    } else {
        None
    }
}

/// The kind of plan with this word.
#[tactic(auto, unfolding(crate::specs::Forms::plan_kind_of))]
pub fn read_plan_kind(text: &[u8]) -> Option<PlanKind>
    ensures { result ≡ plan_kind_of text.now }
{
    if is_word(text, b"promo") {
        Some(PlanKind::Promo)
    } else if is_word(text, b"deferred") {
        Some(PlanKind::Deferred)
    } else {
        None
    }
}

/// The finding with this word.
#[tactic(auto, unfolding(crate::specs::Forms::finding_of))]
pub fn read_finding(text: &[u8]) -> Option<Finding>
    ensures { result ≡ finding_of text.now }
{
    if is_word(text, b"keep") {
        Some(Finding::Keep)
    } else if is_word(text, b"reduce") {
        Some(Finding::Reduce)
    } else {
        None
    }
}
