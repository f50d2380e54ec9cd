//! Where an event lies between the left and the right side.

ghost use Rattle.std.specs.Prelude.{◌≡◌, ◌≤◌};

/// The first pixel of events, and how many pixels they have. Right of them there is room for the longest name.
pub const LEFT: u64 = 76;

pub const BREADTH: u64 = 1_190;

/// The left and the right side of lanes.
pub const EDGE: u64 = 8;

pub const RIGHT: u64 = 1_392;

/// How many events are drawn at most.
const MOST_EVENTS: u64 = 4_000;

/// The events that are drawn: their first place, their count, and whether they are all.
#[derive(Clone, Copy, Debug, PartialEq, Eq)]
pub struct Scale {
    pub from: u64,
    pub count: u64,
    pub is_whole: bool,
}

impl Scale {
    ghost use Rattle.run_picture.specs.Places as spec;

    /// Whether a place is one of those.
    pub fn has(&self, place: u64) -> bool
        ensures { result ≡ spec.has self.now place }
    {
        self.from <= place && place - self.from < self.count
    }

    /// Whether something that goes from one place to another is in the picture.
    pub fn meets(&self, first: u64, last: u64) -> bool
        ensures { result ≡ spec.meets self.now first last }
    {
        self.is_whole || (self.from <= last && (first <= self.from || self.has(first)))
    }

    /// The pixel of a place. What lies before the first place is at the left side, and what lies behind the last at the right one.
    #[tactic(auto, unfolding(crate::specs::Places::across_of))]
    pub fn across(&self, place: u64) -> u64
        ensures exact { result ≡ spec.across_of self.now place }
        ensures within { result ≤ 1266 }
    {
        let behind = place.saturating_sub(self.from).min(self.count);
        let pixels = behind.saturating_mul(BREADTH) / self.count.max(1);
        LEFT + pixels.min(BREADTH)
    }

    /// Whether the event at a place is drawn: each of a short run, and each so many-th of a long one.
    pub fn draws(&self, place: u64) -> bool
        ensures { result ≡ spec.draws self.now place }
    {
        self.has(place) && place % (self.count / MOST_EVENTS + 1) == 0
    }
}
