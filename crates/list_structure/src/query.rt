ghost use Rattle.std.specs.Prelude.{◌≡◌, ◌≤◌, ◌<◌, ◌↔◌, IsTrue};
ghost use Rattle.list_structure.specs.Askers.{place_of, IsAsker};
ghost use Rattle.list_structure.specs.Cells.{is_asked};
ghost use Rattle.list_structure.specs.declared.query.Cell.TheVariants.{Asked};

use ds_base::{MemberId, TranId};
use lock_names::{Mode, Name};

/// Who asks: a member's slot. Slot 0 is the member's own, and its agents have one each from 1 on, up to 16.
#[derive(Clone, Copy, Debug, PartialEq, Eq)]
pub struct Asker {
    pub member: MemberId,
    pub slot: u8,
}

/// What a member answers when it is asked whether a lock is in the way of its own.
#[derive(Clone, Copy, Debug, PartialEq, Eq)]
pub enum CellAnswer {
    /// It isn't.
    Clean,
    /// A transaction of the member holds a lock that is in the way.
    Conflict { by: TranId },
    /// Only locks of rollbacks that wait for this member's restart are in the way.
    Postponed { member: MemberId },
}

/// What has become of a query of one asker to one member.
#[derive(Clone, Copy, Debug, PartialEq, Eq)]
pub enum Cell {
    /// Nothing was asked.
    Empty,
    /// The member hasn't answered yet.
    Asked {
        name: Name,
        mode: Mode,
    },
    /// The member has answered, as the entry of the name had this version, by this event.
    Answered {
        name: Name,
        mode: Mode,
        answer: CellAnswer,
        version: u64,
        event: u64,
    },
}

/// A query that waits for its answer.
#[derive(Clone, Copy, Debug, PartialEq, Eq)]
pub struct Query {
    pub asker: Asker,
    pub name: Name,
    pub mode: Mode,
}

impl Cell {
    /// Whether the cell waits for an answer.
    pub fn is_asked(&self) -> bool
        ensures { result ≡ is_asked self.now }
    {
        matches!(self, Cell::Asked { .. })
    }

    /// Whether the cell waits for an answer about this name and mode.
    pub fn is_asked_for(&self, name: &Name, mode: Mode) -> bool
        ensures { IsTrue result ↔ (self.now ≡ Asked name.now mode) }
    {
        *self == Cell::Asked { name: *name, mode }
    }
}

impl Asker {
    // The place of the asker among all, by member and slot, from 0.
    pub(crate) fn place(self) -> usize
        requires { self.slot ≤ 16 }
        ensures place { result ≡ place_of self }
        ensures range { result < 544 }
    {
        (self.member.number() as usize - 1) * 17 + self.slot as usize
    }

    // The asker at a place.
    pub(crate) fn at(place: usize) -> Asker
        requires { place < 544 }
        ensures place { place_of result ≡ place }
        ensures range { IsAsker result }
    {
        let member = MemberId::new(place as u64 / 17 + 1).unwrap();
        Asker {
            member,
            slot: (place % 17) as u8,
        }
    }
}
