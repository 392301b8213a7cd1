// Remainders without a division.
ghost use Rattle.std.specs.Prelude.{◌≡◌, ◌<◌, ◌≤◌, ◌%◌, ◌^◌};

use std::marker::Model;

/// A number that words are divided by for their remainders, with its inverse.
#[derive(Drop)]
pub struct Divisor {
    count: u64,
    /// The least number of 2^64ths that is at least one count-th; 0 in the place of 2^64, and where the number is 0.
    inverse: u64,
}

impl Model for Divisor {
    ghost use Rattle.std.specs.Prelude.{ℕ};
    ghost use Rattle.node_maps.specs.Rooms.{IsInverse};

    ghost Value = { ℕ };

    ghost view = { λ a. a.count };

    ghost invariant = { λ a. IsInverse a.count a.inverse };
}

impl Divisor {
    /// The divisor of that number.
    pub fn of(count: usize) -> Divisor
        ensures { result ≡ count }
    {
        if count == 0 {
            return Divisor {
                count: 0,
                inverse: 0,
            };
        }
        Divisor {
            count: count as u64,
            inverse: (u64::MAX / (count as u64)).wrapping_add(1),
        }
    }

    /// The remainder of a word. The low half of its product with the inverse is so many 2^64ths of the number as the remainder is of it.
    #[inline(always)]
    pub fn remainder(&self, word: u32) -> usize
        requires some { 0 < self.now }
        requires few { self.now ≤ 2 ^ 32 }
        ensures { result ≡ word % self.now }
    {
        let part = self.inverse.wrapping_mul(u64::from(word));
        ((u128::from(part) * u128::from(self.count)) >> 64) as usize
    }
}
