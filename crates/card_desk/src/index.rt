use crate::name_key::NameKey;
use card_events::NoMemory;
use std::alloc::Global;
use std::collections::HashMap;
use std::marker::Model;

/// An index of names, which are bytes: the number that was given to each. A name is found in about the same time however many there
/// are. Clauses see the index as a list of names and numbers, which they read by `place_of`.
#[derive(Drop)]
pub struct NameIndex {
    places: HashMap<NameKey, u32>,
}

impl Model for NameIndex {
    ghost use Rattle.std.specs.Prelude.{List, ℕ};

    ghost Value = { List (List ℕ × ℕ) };

    ghost view = { λ i. i.places.entries };
}

impl NameIndex {
    ghost use Rattle.std.specs.Prelude.{◌≡◌, ℕ, List, [], OnOk, OnErr, Some, None, true};
    ghost use Rattle.card_events.specs.Names.{is_name};
    ghost use Rattle.card_desk.specs.IndexPlaces.{place_of, Places};

    /// No name has a number.
    pub fn new(alloc: Global) -> NameIndex
        ensures { result ≡ [] }
    {
        NameIndex {
            places: HashMap::new(alloc),
        }
    }

    /// The number of a name. None comes exactly where the name has none.
    pub fn find(&self, name: &[u8]) -> Option<u32>
        requires { is_name name.now ≡ true }
        ensures { result ≡ place_of name.now self.now }
    {
        self.places.get(&NameKey::of(name)).copied()
    }

    /// Gives the name this number. If memory runs out, the index is as it was.
    pub fn insert(&mut self, name: &[u8], place: u32) -> Result<(), NoMemory>
        requires { is_name name.now ≡ true }
        ensures ok { OnOk result (Places self.old self.new name.now (Some place)) }
        ensures err { OnErr result (self.new ≡ self.old) }
    {
        self.places.insert(NameKey::of(name), place)?;
        Ok(())
    }

    /// Takes the name's number away.
    pub fn remove(&mut self, name: &[u8])
        requires { is_name name.now ≡ true }
        ensures { Places self.old self.new name.now None }
    {
        let _ = self.places.remove(&NameKey::of(name));
    }
}
