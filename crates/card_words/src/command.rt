// What is asked for.
ghost use Rattle.std.specs.Prelude.{◌≡◌, ◌≤◌, map, option_map, IfSome};
ghost use Rattle.std.specs.String.{string_bytes};
ghost use Rattle.card_lines.specs.Forms.{day_of, name_of, number_of};
ghost use Rattle.card_words.specs.Commands.{demonstration_of};
ghost use Rattle.card_words.specs.Commands as spec;
ghost use Rattle.card_words.specs.Usage.{usage_line};

use crate::demonstration::Demonstration;
use card_events::{Day, Name, Num};
use card_lines::{read_day, read_number};

/// What is asked for.
#[derive(Drop)]
pub enum Command {
    /// Reads request lines, and replies to each.
    Apply,
    /// Reads records of CSV, and replies to each.
    Import,
    /// Writes the entries of an account as CSV.
    Export(Name),
    /// Writes the open tasks of all accounts.
    Work,
    /// Writes the statement of the account's cycle of this number, as it was issued.
    Statement(Name, Num),
    /// Writes it as the book of today has it.
    Restate(Name, Num),
    /// Writes what it takes to repay its balances, as it was issued.
    Repay(Name, Num),
    /// Writes the replies to generated requests over a ledger of their own.
    Demo(Demonstration),
    /// Answers requests over HTTP: the port to listen on, and how many connections are attended to.
    Serve { port: u16, count: u32 },
    /// Does what `Apply` does, and writes the debits and credits of each kind from one day to another behind the replies.
    Trial { from: Day, to: Day },
}

fn command_of_word(word: &str) -> Option<Command>
    ensures { result ≡ spec.command_of_word word.now }
{
    if word == "apply" {
        Some(Command::Apply)
    } else if word == "import" {
        Some(Command::Import)
    } else if word == "work" {
        Some(Command::Work)
    } else {
        None
    }
}

// The export of an account with this name, where it is a name.
#[tactic(auto, unfolding(card_lines::specs::Forms::name_of))]
fn export_of(account: &str) -> Option<Command>
    ensures { result ≡ option_map Command.Export (name_of account.now) }
{
    match Name::read(account.as_bytes()) {
        Some(name) => Some(Command::Export(name)),
        None => None,
    }
}

fn command_of_account(word: &str, account: &str) -> Option<Command>
    ensures { result ≡ spec.command_of_account word.now account.now }
{
    if word == "export" {
        export_of(account)
    } else {
        None
    }
}

fn is_cycle(number: Num) -> bool
    ensures { result ≡ spec.is_cycle number }
{
    let number = number.get();
    1 <= number && number <= 1_200
}

// The number of a cycle.
#[tactic(auto, unfolding(crate::specs::Commands::cycle_of))]
fn cycle_of(word: &str) -> Option<Num>
    ensures { result ≡ spec.cycle_of word.now }
{
    match read_number(word.as_bytes()) {
        Some(number) => { if is_cycle(number) { Some(number) } else { None } }
        None => None,
    }
}

// The command of a word about a cycle of an account.
fn command_about(word: &str, name: Name, cycle: Num) -> Option<Command>
    ensures { result ≡ spec.command_about word.now name cycle }
{
    if word == "statement" {
        Some(Command::Statement(name, cycle))
    } else if word == "restate" {
        Some(Command::Restate(name, cycle))
    } else if word == "repay" {
        Some(Command::Repay(name, cycle))
    } else {
        None
    }
}

#[tactic(auto, unfolding(card_lines::specs::Forms::name_of))]
fn command_of_cycle(word: &str, account: &str, cycle: &str) -> Option<Command>
    ensures { result ≡ spec.command_of_cycle word.now (name_of account.now) (spec.cycle_of cycle.now) }
{
    let cycle = cycle_of(cycle)?;
    let name = Name::read(account.as_bytes())?;
    command_about(word, name, cycle)
}

// A decimal number from low to high.
fn number_between(text: &str, low: u64, high: u64) -> Option<u64>
    ensures value { result ≡ spec.number_between low high text.now }
    ensures bounds { IfSome result (λ n. (low ≤ n) × (n ≤ high)) }
{
    let number = read_number(text.as_bytes())?.get();
    if number >= low && number <= high {
        Some(number)
    } else {
        None
    }
}

fn server_of(port: &str, count: &str) -> Option<Command>
    ensures { result ≡ spec.server_of (spec.number_between 1 65535 port.now) (spec.number_between 1 1000000 count.now) }
{
    let port = number_between(port, 1, 65_535)?;
    let count = number_between(count, 1, 1_000_000)?;
    Some(Command::Serve {
        port: port as u16,
        count: count as u32,
    })
}

// A trial balance from one day to another that isn't before it.
fn trial_of(from: &str, to: &str) -> Option<Command>
    ensures { result ≡ spec.trial_of (day_of from.now) (day_of to.now) }
{
    let from = read_day(from.as_bytes())?;
    let to = read_day(to.as_bytes())?;
    if from <= to {
        Some(Command::Trial { from, to })
    } else {
        None
    }
}

fn command_of_two(word: &str, first: &str, second: &str) -> Option<Command>
    ensures { result ≡ spec.command_of_two word.now first.now second.now }
{
    if word == "serve" {
        server_of(first, second)
    } else if word == "trial" {
        trial_of(first, second)
    } else {
        command_of_cycle(word, first, second)
    }
}

// The demonstration of three words, where they are numbers in range.
fn read_demonstration(start: &str, accounts: &str, cycles: &str) -> Option<Demonstration>
    ensures { result ≡ demonstration_of (number_of start.now) (number_of accounts.now) (number_of cycles.now) }
{
    let start = read_number(start.as_bytes())?;
    let accounts = read_number(accounts.as_bytes())?;
    let cycles = read_number(cycles.as_bytes())?;
    Demonstration::new(start, accounts, cycles)
}

fn command_of_numbers(word: &str, start: &str, accounts: &str, cycles: &str) -> Option<Command>
    ensures { result ≡ spec.command_of_numbers word.now start.now accounts.now cycles.now }
{
    if word == "demo" {
        read_demonstration(start, accounts, cycles).map(Command::Demo)
    } else {
        None
    }
}

/// The command that the words are, if they are one. It doesn't allocate.
pub fn command_of(words: &[String]) -> Option<Command>
    ensures { result ≡ spec.command_of (map string_bytes words.now) }
{
    match words {
        [word] => command_of_word(word.as_str()),
        [word, account] => command_of_account(word.as_str(), account.as_str()),
        [word, first, second] => command_of_two(word.as_str(), first.as_str(), second.as_str()),
        [word, start, accounts, cycles] => command_of_numbers(
            word.as_str(),
            start.as_str(),
            accounts.as_str(),
            cycles.as_str(),
        ),
        _ => None,
    }
}

/// What is said of words that are no command, with its line feed: the ten forms.
#[tactic(auto, unfolding(crate::specs::Usage::usage_line))]
pub fn usage_line() -> &'static str
    ensures { result.now ≡ usage_line }
{
    "usage: apply | import | statement ACCOUNT CYCLE | restate ACCOUNT CYCLE | export ACCOUNT | work | demo START ACCOUNTS CYCLES | serve PORT COUNT | repay ACCOUNT CYCLE | trial FROM TO\n"
}
