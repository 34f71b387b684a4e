// Names of accounts in a path.
use card_events::{Name, is_name};
use std::marker::Model;

/// The name of an account, where it stands in a path.
#[derive(Drop)]
pub struct AccountName<'a> {
    text: &'a str,
}

impl<'a> Model for AccountName<'a> {
    ghost use Rattle.std.specs.Prelude.{◌≡◌, true, ℕ, List};
    ghost use Rattle.card_events.specs.Names.{is_name};

    ghost Value = { List ℕ };

    ghost view = { λ n. n.text.now };

    ghost invariant = { λ n. is_name n.text.now ≡ true };
}

impl<'a> AccountName<'a> {
    ghost use Rattle.std.specs.Prelude.{◌≡◌};
    ghost use Rattle.card_wire.specs.Routes.{account_of};

    /// The name that this text is. None: it is no name.
    pub fn read(text: &'a str) -> Option<AccountName<'a>>
        ensures { result ≡ account_of text.now }
    {
        if is_name(text.as_bytes()) {
            Some(AccountName { text })
        } else {
            None
        }
    }

    /// The name, as a ledger has it.
    pub fn name(&self) -> Name
        ensures { result ≡ self.now }
    {
        match Name::read(self.text.as_bytes()) {
            Some(name) => name,
            None => unreachable!(),
        }
    }
}
