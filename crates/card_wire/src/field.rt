// The fields of requests, by the names of their members.
ghost use Rattle.std.specs.Prelude.{◌≡◌, ◌≤◌, length};
ghost use Rattle.card_wire.specs.Fields as spec;

use card_lines::{PostKind, Word};

/// A field of a request.
#[derive(Clone, Copy)]
pub enum Field {
    Account,
    Key,
    Day,
    Place,
    Category,
    Channel,
    Plan,
    End,
    Effective,
    Finding,
    Minute,
    Cents,
    Rate,
    After,
    First,
    Repeat,
    Target,
    Cycle,
    Close,
    Purchase,
    Cash,
    Transfer,
    Penalty,
    Floor,
    Pct,
}

impl Field {
    ghost use Rattle.std.specs.Prelude.{◌≡◌};
    ghost use Rattle.card_wire.specs.Fields.{field_name, is_number};

    /// The name of its member.
    #[tactic(auto, unfolding(crate::specs::Fields::field_name))]
    pub fn name(self) -> &'static str
        ensures { result.now ≡ field_name self }
    {
        match self {
            Field::Account => "account",
            Field::Key => "key",
            Field::Day => "day",
            Field::Place => "place",
            Field::Category => "category",
            Field::Channel => "channel",
            Field::Plan => "plan",
            Field::End => "end",
            Field::Effective => "effective",
            Field::Finding => "finding",
            Field::Minute => "minute",
            Field::Cents => "cents",
            Field::Rate => "rate",
            Field::After => "after",
            Field::First => "first",
            Field::Repeat => "repeat",
            Field::Target => "target",
            Field::Cycle => "cycle",
            Field::Close => "close",
            Field::Purchase => "purchase",
            Field::Cash => "cash",
            Field::Transfer => "transfer",
            Field::Penalty => "penalty",
            Field::Floor => "floor",
            Field::Pct => "pct",
        }
    }

    /// It is a JSON number; each other field is a string.
    #[tactic(auto, unfolding(crate::specs::Fields::is_number))]
    pub fn is_number(self) -> bool
        ensures { result ≡ is_number self }
    {
        match self {
            Field::Minute
            | Field::Cents
            | Field::Rate
            | Field::After
            | Field::First
            | Field::Repeat
            | Field::Target
            | Field::Cycle
            | Field::Close
            | Field::Purchase
            | Field::Cash
            | Field::Transfer
            | Field::Penalty
            | Field::Floor
            | Field::Pct => true,
            Field::Account
            | Field::Key
            | Field::Day
            | Field::Place
            | Field::Category
            | Field::Channel
            | Field::Plan
            | Field::End
            | Field::Effective
            | Field::Finding => false,
        }
    }
}

/// The fields of the word, in order.
#[tactic(auto, unfolding(crate::specs::Fields::fields_of))]
pub fn fields_of(word: Word) -> &'static [Field]
    ensures fields { result.now ≡ spec.fields_of word }
    ensures few { length result.now ≤ 10 }
{
    match word {
        Word::Roll => &[Field::Day],
        Word::Holiday => &[Field::Day],
        Word::FeeRow => &[Field::Day, Field::First, Field::Repeat],
        Word::Index => &[Field::Day, Field::Rate],
        Word::Show => &[],
        Word::Post(kind) => post_fields(kind),
    }
}

#[tactic(auto, unfolding(crate::specs::Fields::post_fields))]
fn post_fields(kind: PostKind) -> &'static [Field]
    ensures fields { result.now ≡ spec.post_fields kind }
    ensures few { length result.now ≤ 10 }
{
    match kind {
        PostKind::Open | PostKind::OpenVariable => &[
            Field::Account,
            Field::Key,
            Field::Day,
            Field::Close,
            Field::Purchase,
            Field::Cash,
            Field::Transfer,
            Field::Penalty,
            Field::Floor,
            Field::Pct,
        ],
        PostKind::Charge => &[
            Field::Account,
            Field::Key,
            Field::Day,
            Field::Place,
            Field::Cents,
        ],
        PostKind::Credit => &[
            Field::Account,
            Field::Key,
            Field::Day,
            Field::Place,
            Field::Cents,
        ],
        PostKind::Payment => &[
            Field::Account,
            Field::Key,
            Field::Day,
            Field::Minute,
            Field::Channel,
            Field::Cents,
        ],
        PostKind::Return => &[Field::Account, Field::Key, Field::Day, Field::Target],
        PostKind::Plan => &[
            Field::Account,
            Field::Key,
            Field::Day,
            Field::Plan,
            Field::Rate,
            Field::End,
            Field::After,
        ],
        PostKind::Notice => &[
            Field::Account,
            Field::Key,
            Field::Day,
            Field::Category,
            Field::Rate,
            Field::Effective,
        ],
        PostKind::Lower => &[
            Field::Account,
            Field::Key,
            Field::Day,
            Field::Category,
            Field::Rate,
        ],
        PostKind::Penalty => &[Field::Account, Field::Key],
        PostKind::Review => &[Field::Account, Field::Key, Field::Day, Field::Finding],
        PostKind::Dispute => &[
            Field::Account,
            Field::Key,
            Field::Day,
            Field::Target,
            Field::Cents,
        ],
        PostKind::Ack => &[Field::Account, Field::Key, Field::Day, Field::Target],
        PostKind::Resolve => &[
            Field::Account,
            Field::Key,
            Field::Day,
            Field::Target,
            Field::Cents,
        ],
        PostKind::AskRefund => &[Field::Account, Field::Key, Field::Day],
        PostKind::Refund => &[Field::Account, Field::Key, Field::Cents],
        PostKind::Amend => &[
            Field::Account,
            Field::Key,
            Field::Target,
            Field::Day,
            Field::Cents,
        ],
        PostKind::Bill => &[Field::Account, Field::Key, Field::Cycle],
    }
}
