ghost use Rattle.std.specs.Prelude.{◌≡◌};

use std::marker::Model;

// An amount of a segment in nine bytes, where a pair takes sixteen: each account keeps such amounts for each closed cycle.
// Clauses see the pair of the segment's number and the cents.
#[derive(Clone, Copy)]
pub struct Amount {
    segment: u8,
    cents: [u8; 8],
}

impl Model for Amount {
    ghost use Rattle.std.specs.Prelude.{ℕ, length, ◌≡◌, ◌<◌, slice_index_or};
    ghost use Rattle.std.specs.Int.{w64, from_le_bytes, to_le_bytes};
    ghost use Rattle.std.proofs.Common.{refl};
    ghost use Rattle.std.proofs.lemmas.Nat.{le_bytes_8};

    ghost Value = { ℕ × ℕ };

    ghost view = { λ a. (a.segment, from_le_bytes w64 a.cents) };

    ghost inverse = { λ v. record { segment = v.0; cents = to_le_bytes w64 v.1 } };

    ghost inverse_ok = { λ a h i. record { segment = a.segment; cents = le_bytes_8 a.cents (from_le_bytes w64 a.cents) h.0 h.1 refl i } };

    ghost invariant = { λ a. (length a.cents ≡ 8) × ((i : ℕ) → slice_index_or a.cents i 0 < 256) };
}

impl Amount {
    // The amount of a segment.
    pub fn new(segment: u8, cents: u64) -> Amount
        ensures { result ≡ (segment, cents) }
    {
        Amount {
            segment,
            cents: cents.to_le_bytes(),
        }
    }

    // Its segment and its cents.
    pub fn pair(self) -> (u8, u64)
        ensures { result ≡ self }
    {
        (self.segment, u64::from_le_bytes(self.cents))
    }
}
