//! Hashes of pages, by page set and number.
ghost use Rattle.std.specs.Prelude.{◌≡◌, ◌+◌, ◌*◌, ◌/◌, ◌%◌, ◌^◌, fold};

use std::hash::Hasher;

/// An odd number, by whose multiples the hashes are scattered.
const SCATTER: u64 = 0x9e37_79b9_7f4a_7c15;

/// Scatters pages, but leaves eight pages with numbers that follow one another beside each other, so that
/// commands on pages of one part of a page set find them in the same memory.
///
/// It is given the two bytes of the page set and then the four of the number.
#[derive(Clone, Copy)]
pub struct PageHasher {
    page: u64,
}

impl Default for PageHasher {
    ghost is_default = { λ h. h ≡ record { page = 0 } };

    fn default() -> PageHasher {
        PageHasher { page: 0 }
    }
}

impl Hasher for PageHasher {
    ghost use Rattle.page_index.specs.Hashes.{page_hash};

    ghost write = { λ h bytes. record { page = fold (λ p b. p / 256 + b * 2 ^ 40) h.page bytes } };

    ghost finish = { λ h. page_hash h.page };

    #[inline(always)]
    fn finish(&self) -> u64 {
        let set = self.page % 0x1_0000;
        let number = self.page / 0x1_0000;
        let scattered = (set + number / 8 * 0x1_0000).wrapping_mul(SCATTER) / 0x1_0000_0000;
        // The upper byte tells pages beside each other apart.
        (scattered + number % 8 * 0x2000_0000) % 0x1_0000_0000
    }

    #[inline(always)]
    fn write(&mut self, bytes: &[u8]) {
        for byte in bytes {
            self.page = self.page / 256 + *byte as u64 * 0x100_0000_0000;
        }
    }
}
