//! Which pages are visited, and in which order.

/// Visits to so many pages.
#[derive(Clone, Copy)]
pub struct Walk {
    pub pages: u32,
    /// How far their numbers, from 0 on, are apart.
    pub apart: u32,
    /// Not in the order of their numbers, round by round, but in one that follows no pattern.
    pub is_scattered: bool,
}

impl Walk {
    /// The page that is visited in a turn.
    pub fn page_at(&self, turn: u32) -> u32 {
        let pages = self.pages.max(1);
        let place = if self.is_scattered {
            (scattered(turn as u64) % pages as u64) as u32
        } else {
            turn % pages
        };
        place.wrapping_mul(self.apart)
    }
}

// The mixing of the generator SplitMix64.
fn scattered(turn: u64) -> u64 {
    let once = (turn ^ (turn >> 30)).wrapping_mul(0xbf58_476d_1ce4_e5b9);
    let twice = (once ^ (once >> 27)).wrapping_mul(0x94d0_49bb_1331_11eb);
    twice ^ (twice >> 31)
}
