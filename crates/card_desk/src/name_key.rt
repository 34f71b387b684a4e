ghost use Rattle.std.specs.Prelude.{◌≡◌, [], ◌∷◌, nat_eq};
ghost use Rattle.std.specs.Cmp.Lexicographic.{pointwise, bytes_decides, nat_list_eq_equiv};
ghost use Rattle.std.specs.Cmp.{partial_equiv_from_equiv};
ghost use Rattle.std.proofs.Common.{ap};

use std::hash::{Hash, Hasher};
use std::marker::Model;

// The most bytes that a name has.
const LONGEST: usize = 32;

/// A name as a key of a map. Its bytes lie in the value itself.
#[derive(Drop)]
pub struct NameKey {
    bytes: [u8; LONGEST],
    length: u8,
}

impl Model for NameKey {
    ghost use Rattle.std.specs.Prelude.{◌≤◌, ℕ, List, take};

    ghost Value = { List ℕ };

    ghost view = { λ k. take k.length k.bytes };

    ghost invariant = { λ k. k.length ≤ 32 };
}

impl NameKey {
    ghost use Rattle.std.specs.Prelude.{true};
    ghost use Rattle.card_events.specs.Names.{is_name};

    /// The key of the name with these bytes.
    pub fn of(name: &[u8]) -> NameKey
        requires { is_name name.now ≡ true }
        ensures { result ≡ name.now }
    {
        let mut bytes = [0; LONGEST];
        bytes[..name.len()].copy_from_slice(name);
        NameKey {
            bytes,
            length: name.len() as u8,
        }
    }

    // the bytes of the name
    fn bytes(&self) -> &[u8]
        ensures { result.now ≡ self.now }
    {
        &self.bytes[..self.length as usize]
    }
}

impl PartialEq for NameKey {
    ghost eq = { pointwise nat_eq };

    ghost laws = { partial_equiv_from_equiv nat_list_eq_equiv };

    fn eq(&self, other: &NameKey) -> bool {
        self.bytes() == other.bytes()
    }
}

impl Eq for NameKey {
    ghost laws = { nat_list_eq_equiv };
}

// The bytes are written in one piece, which a hasher takes several at a time.
impl Hash for NameKey {
    ghost hash_input = { λ k. k ∷ [] };

    ghost respects_eq = { λ x y same. ap (λ k. k ∷ []) ((bytes_decides x y).0 same) };

    fn hash<H: Hasher>(&self, state: &mut H) {
        state.write(self.bytes());
    }
}
