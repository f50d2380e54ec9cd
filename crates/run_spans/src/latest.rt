ghost use Rattle.std.specs.Prelude.{◌≡◌, ◌==◌, ◌&&◌};
ghost use Rattle.run_spans.specs.LatestEvents as spec;

/// An event: its place, its member and its choice. Place 0 is none.
#[derive(Clone, Copy, Debug, PartialEq, Eq)]
pub struct At {
    pub place: u64,
    pub member: u8,
    pub choice: u64,
}

impl At {
    pub fn none() -> At
        ensures { result ≡ spec.none }
    {
        At {
            place: 0,
            member: 0,
            choice: 0,
        }
    }

    /// Whether it is this member's, and of this choice.
    pub fn is_by(&self, member: u8, choice: u64) -> bool
        ensures { result ≡ spec.is_by self.now member choice }
    {
        self.member == member && self.choice == choice
    }
}

/// The latest event of a kind, and the latest by somebody else than that one's.
#[derive(Clone, Copy, Debug)]
pub struct Latest {
    last: At,
    other: At,
}

impl Latest {
    #[tactic(auto, using(crate::proofs::LatestNoted::none_noted))]
    pub fn new() -> Latest
        ensures { spec.by_others result ≡ spec.never }
    {
        Latest {
            last: At::none(),
            other: At::none(),
        }
    }

    /// One more event of the kind.
    #[tactic(auto, using(crate::proofs::LatestNoted::noted))]
    pub fn note(&mut self, at: At)
        ensures { spec.by_others self.new ≡ spec.with_event at (spec.by_others self.old) }
    {
        self.other = self.by_others(at.member, at.choice);
        self.last = at;
    }

    /// The latest that isn't by this member and choice.
    #[tactic(auto, unfolding(crate::specs::LatestEvents::by_others))]
    pub fn by_others(&self, member: u8, choice: u64) -> At
        ensures { result ≡ spec.by_others self.now member choice }
    {
        if self.last.is_by(member, choice) {
            self.other
        } else {
            self.last
        }
    }
}
