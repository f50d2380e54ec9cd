//! The answers of other members that they have nothing in the way of a lock.
ghost use Rattle.std.specs.Prelude.{◌≡◌, ◌-◌, ◌≤◌, ◌<◌, ◌+◌, ℕ, [], ◌++◌, length, slice_index_or};
ghost use Rattle.list_structure.specs.declared.query.Cell.TheVariants.{Empty};
ghost use Rattle.facility.specs.LockCommands.{clean_version, clean_among, stamped};

use ds_base::MemberId;
use list_structure::{Cell, CellAnswer};
use lock_names::{Mode, Name, is_same_mode, is_same_name};
use std::marker::Model;

/// Members that have nothing in the way, each with the version of the entry at which it said so.
#[derive(Drop)]
pub struct Clean {
    answers: [(MemberId, u64); 32],
    count: usize,
}

impl Model for Clean {
    ghost use Rattle.std.specs.Prelude.{ℕ, ◌≤◌, List, take};

    ghost Value = { List (ℕ × ℕ) };

    ghost view = { λ c. take c.count c.answers };

    ghost invariant = { λ c. c.count ≤ 32 };
}

/// The version at which the cell's member had nothing in the way of this name and mode, if it answered so.
fn clean_version(cell: &Cell, name: &Name, mode: Mode) -> Option<u64>
    ensures { result ≡ clean_version name.now mode cell.now }
{
    match cell {
        Cell::Answered {
            name: asked_name,
            mode: asked_mode,
            answer: CellAnswer::Clean,
            version,
            ..
        } if is_same_name(asked_name, name) && is_same_mode(*asked_mode, mode) => Some(*version),
        _ => None,
    }
}

impl Clean {
    /// Nobody.
    fn new() -> Clean
        ensures { result ≡ [] }
    {
        let nobody = (MemberId::new(1).unwrap(), 0);
        Clean {
            answers: [nobody; 32],
            count: 0,
        }
    }

    /// Adds a member that said so at this version, if it did.
    fn note(&mut self, member: MemberId, version: Option<u64>)
        requires { length self.old < 32 }
        ensures list { self.new ≡ self.old ++ stamped member version }
        ensures length { length self.new ≤ length self.old + 1 }
    {
        if let Some(version) = version {
            self.answers[self.count] = (member, version);
            self.count += 1;
        }
    }

    /// Those who have answered so in these cells about this name and mode.
    #[tactic(auto, using(crate::proofs::Answers::clean_start))]
    pub fn among(cells: &[Cell], name: &Name, mode: Mode) -> Clean
        requires { length cells.now ≡ 32 }
        ensures { result ≡ clean_among (λ k. clean_version name.now mode (slice_index_or cells.now (k - 1) Empty)) 32 }
    {
        let mut clean = Clean::new();
        for at in 0..32usize {
            let member = MemberId::new(at as u64 + 1).unwrap();
            clean.note(member, clean_version(&cells[at], name, mode));
        }
        clean
    }

    pub fn as_slice(&self) -> &[(MemberId, u64)]
        ensures { result.now ≡ self.now }
    {
        &self.answers[..self.count]
    }
}
