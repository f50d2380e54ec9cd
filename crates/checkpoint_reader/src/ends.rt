ghost use Rattle.std.specs.Prelude.{◌≡◌, ◌-◌, ◌<◌};

use ds_base::MemberId;
use std::marker::Model;

/// Up to which byte each log is known to be whole records, in the order of the members: 0 where nothing is known.
#[derive(Drop)]
pub struct KnownEnds {
    ends: [u64; 32],
}

impl Model for KnownEnds {
    ghost use Rattle.std.specs.Prelude.{ℕ, List};

    ghost Value = { List ℕ };

    ghost view = { λ k. k.ends };
}

// Where the member's end stands.
fn index_of(member: MemberId) -> usize
    ensures place { result ≡ member - 1 }
    ensures within { result < 32 }
{
    member.number() as usize - 1
}

impl KnownEnds {
    ghost use Rattle.checkpoint_reader.specs.Ends.{nothing_known, end_of, with_end};

    /// Nothing is known.
    pub fn nothing() -> KnownEnds
        ensures { result ≡ nothing_known }
    {
        KnownEnds { ends: [0; 32] }
    }

    /// The same once more.
    pub fn copied(&self) -> KnownEnds
        ensures { result ≡ self.now }
    {
        KnownEnds { ends: self.ends }
    }

    /// Up to where the member's log is known to be whole records.
    pub fn of(&self, member: MemberId) -> u64
        ensures { result ≡ end_of self.now member }
    {
        match self.ends.get(index_of(member)) {
            Some(end) => *end,
            None => 0,
        }
    }

    /// It is known up to this byte now.
    pub fn set(&mut self, member: MemberId, end: u64)
        ensures { self.new ≡ with_end self.old member end }
    {
        let at = index_of(member);
        self.ends[at] = end;
    }
}
