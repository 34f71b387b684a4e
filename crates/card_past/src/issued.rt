// The row that a post issues, if it issues one.
use card_book::Issued;
use card_events::NoMemory;
use std::alloc::Global;
use std::marker::Model;

/// The row that a post issues, if it issues one. It lies in memory of its own, since only a Bill issues one. Clauses see it as an
/// option.
#[derive(Drop)]
pub struct IssuedIfAny {
    made: Option<Box<Issued>>,
}

impl Model for IssuedIfAny {
    ghost use Rattle.std.specs.Prelude.{Option};
    ghost use Rattle.std.specs.Option.{option_map};
    ghost use Rattle.card_model.specs.Cycles.{IssuedRow};

    ghost Value = { Option IssuedRow };

    ghost view = { λ r. option_map (λ b. b.value) r.made };
}

impl IssuedIfAny {
    ghost use Rattle.std.specs.Prelude.{◌≡◌, None, Some, IfOk};
    ghost use Rattle.std.specs.Option.{option_map};

    /// None.
    pub fn none() -> IssuedIfAny
        ensures { result ≡ None }
    {
        IssuedIfAny { made: None }
    }

    /// This row.
    pub fn of(alloc: Global, made: Issued) -> Result<IssuedIfAny, NoMemory>
        ensures { IfOk result (λ r. r ≡ Some made) }
    {
        let made = Box::new(alloc, made)?;
        Ok(IssuedIfAny { made: Some(made) })
    }

    /// It as an option, where it lies.
    pub fn into_boxed(self) -> Option<Box<Issued>>
        ensures { option_map (λ b. b.value) result ≡ self }
    {
        self.made
    }
}
