//! Hashes of the numbers of places, for a table that holds all the numbers below some count.
ghost use Rattle.std.specs.Prelude.{◌≡◌, ◌+◌, ◌*◌, ◌/◌, ◌%◌, fold};

use std::hash::Hasher;

/// How many places that follow one another share a group of the table.
const NEIGHBOURS: u64 = 9;

/// Puts places that follow one another beside each other in the table, so that commands on pages that
/// came one after the other find them in the same memory.
#[derive(Clone, Copy)]
pub struct PlaceHasher {
    number: u64,
}

impl Default for PlaceHasher {
    ghost is_default = { λ h. h ≡ record { number = 0 } };

    fn default() -> PlaceHasher {
        PlaceHasher { number: 0 }
    }
}

impl Hasher for PlaceHasher {
    ghost write = { λ h bytes. record { number = fold (λ n b. n / 256 + b * 16777216) h.number bytes } };

    ghost finish = { λ h. h.number / 9 + (h.number % 9 + 1) * 16777216 };

    #[inline(always)]
    fn finish(&self) -> u64 {
        // The upper byte of the lower half tells the neighbours of a group apart.
        self.number / NEIGHBOURS + (self.number % NEIGHBOURS + 1) * 0x100_0000
    }

    #[inline(always)]
    fn write(&mut self, bytes: &[u8]) {
        for byte in bytes {
            self.number = self.number / 256 + *byte as u64 * 0x100_0000;
        }
    }
}
