//! Which transaction has which seat.

ghost use Rattle.std.specs.Prelude.{◌≡◌, ℕ, ◌+◌, ◌*◌, ◌≤◌, vec_len, slice_index_or, IfOk};

use ds_base::NoMemory;
use std::alloc::Global;

// Those of all members that an event can name, with the choices from 0 to 16 of each.
const SEATS: usize = 4_352;

fn place_of(member: u8, choice: u64) -> usize
    requires { choice ≤ 16 }
    ensures { result ≡ 17 * member + choice }
{
    17 * usize::from(member) + choice as usize
}

fn nobody(alloc: Global) -> Result<Vec<Option<usize>>, NoMemory>
    ensures whole { IfOk result (λ numbers. vec_len numbers ≡ 4352) }
    ensures empty { IfOk result (λ numbers. (k : ℕ) → slice_index_or numbers.items k None ≡ None) }
{
    let mut numbers = Vec::new(alloc);
    for _seat in 0..SEATS {
        numbers.push(None)?;
    }
    Ok(numbers)
}

/// For each seat of each member the number of the transaction that has it.
#[derive(Drop)]
pub struct Seats {
    numbers: Vec<Option<usize>>,
    ghost whole: { vec_len numbers ≡ 4352 },
}

impl Seats {
    ghost use Rattle.run_spans.specs.Holders as spec;

    #[tactic(auto, using(crate::proofs::Tables::seats_empty))]
    pub fn new(alloc: Global) -> Result<Seats, NoMemory>
        ensures { IfOk result (λ seats. spec.holder_in seats ≡ spec.nobody) }
    {
        Ok(Seats {
            numbers: nobody(alloc)?,
        })
    }

    /// The number of the transaction that has a seat.
    #[tactic(auto, using(crate::proofs::Tables::holder_read, crate::proofs::Tables::no_holder))]
    pub fn holder(&self, member: u8, choice: u64) -> Option<usize>
        ensures { result ≡ spec.holder_in self.now member choice }
    {
        if choice <= 16 {
            self.numbers[place_of(member, choice)]
        } else {
            None
        }
    }

    /// Gives a seat to a transaction, or to nobody.
    #[tactic(auto, using(crate::proofs::Tables::seat_given))]
    pub fn give(&mut self, member: u8, choice: u64, number: Option<usize>)
        requires { choice ≤ 16 }
        ensures { spec.holder_in self.new ≡ spec.with_holder member choice number (spec.holder_in self.old) }
    {
        self.numbers[place_of(member, choice)] = number;
    }
}
