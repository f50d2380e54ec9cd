//! The rows of lanes, in which bars stand side by side.

ghost use Rattle.std.specs.Prelude.{◌≡◌, ◌<◌, ℕ, [], length, slice_set, IfOk, IfSome};
ghost use Rattle.run_picture.specs.Rooms as spec;

use ds_base::NoMemory;
use std::alloc::Global;

// The group's lane, which has no rows, and those of the members of a report.
const LANES: u64 = 33;

/// For each lane its rows, each by the pixel where its last bar with its name ends.
#[derive(Drop)]
pub struct Rows {
    ends: Vec<Vec<u64>>,
}

// The first row whose last bar ends left of a pixel.
fn free_row(ends: &[u64], from: u64) -> Option<usize>
    ensures exact { result ≡ spec.free_row from ends.now }
    ensures within { IfSome result (λ row. row < length ends.now) }
{
    ends.iter().position(|end| *end < from)
}

fn fill(ends: &mut Vec<u64>, row: Option<usize>, to: u64) -> Result<usize, NoMemory>
    requires { IfSome row (λ r. r < length ends.old.items) }
    ensures row { IfOk result (λ given. given ≡ spec.row_in row ends.old.items) }
    ensures ends { IfOk result (λ _. ends.new.items ≡ spec.filled row to ends.old.items) }
{
    match row {
        Some(row) => {
            ends[row] = to;
            Ok(row)
        }
        None => {
            let row = ends.len();
            ends.push(to)?;
            Ok(row)
        }
    }
}

#[tactic(auto, unfolding(crate::specs::Rooms::row_for, crate::specs::Rooms::with_bar))]
fn take_row(ends: &mut Vec<u64>, from: u64, to: u64) -> Result<usize, NoMemory>
    ensures row { IfOk result (λ row. row ≡ spec.row_for from ends.old.items) }
    ensures ends { IfOk result (λ _. ends.new.items ≡ spec.with_bar from to ends.old.items) }
{
    let row = free_row(ends, from);
    fill(ends, row, to)
}

impl Rows {
    /// No rows.
    pub fn new(alloc: Global) -> Result<Rows, NoMemory>
        ensures lanes { IfOk result (λ rows. length (spec.ends_in rows) ≡ 33) }
        ensures empty { IfOk result (λ rows. (member : ℕ) → spec.ends_of (spec.ends_in rows) member ≡ []) }
    {
        let mut ends = Vec::new(alloc);
        for _lane in 0..LANES {
            ends.push(Vec::new(alloc))?;
        }
        Ok(Rows { ends })
    }

    /// Gives a bar its room from one pixel to another in a member's lane, and answers the number of the row, from 0: the first whose
    /// last bar ends before, or one more.
    #[tactic(auto, using(crate::proofs::Rooms::row_given, crate::proofs::Rooms::ends_given, crate::proofs::Rooms::no_row, crate::proofs::Rooms::no_ends))]
    pub fn take_room(&mut self, member: u8, from: u64, to: u64) -> Result<usize, NoMemory>
        ensures row { IfOk result (λ row. row ≡ spec.row_for from (spec.ends_of (spec.ends_in self.old) member)) }
        ensures ends { IfOk result (λ _. spec.ends_in self.new ≡ slice_set (spec.ends_in self.old) member (spec.with_bar from to (spec.ends_of (spec.ends_in self.old) member))) }
    {
        let lane = usize::from(member);
        if lane < self.ends.len() {
            let row = take_row(&mut self.ends[lane], from, to)?;
            Ok(row)
        } else {
            Ok(0)
        }
    }

    /// How many rows a lane has.
    pub fn count(&self, member: u64) -> u64
        ensures { result ≡ length (spec.ends_of (spec.ends_in self.now) member) }
    {
        match self.ends.get(member as usize) {
            Some(ends) => ends.len() as u64,
            None => 0,
        }
    }
}
