// Where things may stand in a list, by numbers that are made of their names.
ghost use Rattle.std.specs.Prelude.{◌≡◌, ◌<◌, ◌≤◌, ◌++◌, ◌∷◌, ℕ, List, min, [], length, get_or};
ghost use Rattle.gq_program.specs.Name_keys.{AreWithin};

use std::marker::Model;

/// Numbers are distinguished by what is left of them when they are divided by so much.
const REMAINDERS: usize = 61;

/// A place as far as it is reported: this one stands for all later ones too.
const LAST: u8 = 255;

/// A place, as far as it is reported.
fn reported(place: usize) -> u8
    ensures { result ≡ min place 255 }
{
    place.min(255) as u8
}

/// Where in a list things may stand, by numbers that are made of their names. Those whose numbers leave the same remainder stand between the first place of one
/// of them and the last. So a search goes over few.
#[derive(Drop)]
pub struct KeyIndex {
    first: [u8; REMAINDERS],
    past: [u8; REMAINDERS],
}

impl Model for KeyIndex {
    ghost use Rattle.std.specs.Prelude.{ℕ, List};
    ghost use Rattle.gq_program.specs.Name_keys.{KeyRanges};

    ghost Value = { KeyRanges };

    ghost view = { λ p. record { first = p.first; past = p.past } };
}

impl KeyIndex {
    /// Of nothing.
    pub fn new() -> KeyIndex
        ensures { AreWithin result [] }
    {
        KeyIndex {
            first: [LAST; REMAINDERS],
            past: [0; REMAINDERS],
        }
    }

    /// The places among which a number stands in a list of so many, wherever it does: from the first up to the second.
    pub fn range(&self, key: u64, count: usize) -> (usize, usize)
        ensures end { result.1 ≤ count }
        ensures within { (keys : List ℕ) → AreWithin self.now keys → length keys ≡ count →
            (i : ℕ) → i < length keys → get_or keys i 0 ≡ key → (result.0 ≤ i) × (i < result.1) }
    {
        let remainder = (key % REMAINDERS as u64) as usize;
        let past = self.past[remainder];
        let end = if past == LAST {
            count
        } else {
            count.min(usize::from(past))
        };
        (usize::from(self.first[remainder]), end)
    }

    /// Reports of a number that is put at the end of a list of so many.
    pub fn put(&mut self, key: u64, count: usize)
        ensures { (keys : List ℕ) → AreWithin self.old keys → length keys ≡ count → AreWithin self.new (keys ++ key ∷ []) }
    {
        let remainder = (key % REMAINDERS as u64) as usize;
        self.first[remainder] = self.first[remainder].min(reported(count));
        self.past[remainder] = reported(count.saturating_add(1));
    }
}
