// The set bits of a word, one after the other.
ghost use Rattle.std.specs.Prelude.{◌≡◌, ℕ, List};
ghost use Rattle.std.specs.Iterator.{YieldsFirst, item_count};
ghost use Rattle.relations.specs.Sets.{ones_from};

use std::marker::Model;

/// The places of the ones of a word that are still to come, from the lowest up.
#[derive(Drop)]
pub struct SetBits {
    rest: u64,
}

impl Model for SetBits {
    ghost Value = { List ℕ };

    ghost view = { λ bits. ones_from 0 64 bits.rest };
}

impl SetBits {
    pub fn new(word: u64) -> SetBits
        ensures { result ≡ ones_from 0 64 word }
    {
        SetBits { rest: word }
    }
}

impl Iterator for SetBits {
    type Item = u32;

    ghost next_gives = { YieldsFirst (λ rest. rest) };

    ghost remaining = { item_count (λ rest. rest) };

    fn next(&mut self) -> Option<u32> {
        if self.rest == 0 {
            return None;
        }
        let place = self.rest.trailing_zeros();
        self.rest -= 1 << place;
        Some(place)
    }
}
