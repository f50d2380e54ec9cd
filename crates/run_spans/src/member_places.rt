//! A place for each member.

ghost use Rattle.std.specs.Prelude.{◌≡◌, ℕ, vec_len, slice_index, IfOk};

use ds_base::NoMemory;
use std::alloc::Global;

// All members that an event can name.
const MEMBERS: usize = 256;

fn zeros(alloc: Global) -> Result<Vec<u64>, NoMemory>
    ensures whole { IfOk result (λ places. vec_len places ≡ 256) }
    ensures zero { IfOk result (λ places. (k : ℕ) → slice_index places.items k ≡ 0) }
{
    let mut places = Vec::new(alloc);
    for _member in 0..MEMBERS {
        places.push(0)?;
    }
    Ok(places)
}

/// For each member the place of its latest event of a kind, 0 where there was none.
#[derive(Drop)]
pub struct MemberPlaces {
    places: Vec<u64>,
    ghost whole: { vec_len places ≡ 256 },
}

impl MemberPlaces {
    ghost use Rattle.run_spans.specs.Places as spec;

    #[tactic(auto, using(crate::proofs::Tables::places_zero))]
    pub fn new(alloc: Global) -> Result<MemberPlaces, NoMemory>
        ensures { IfOk result (λ places. spec.place_in places ≡ spec.nowhere) }
    {
        Ok(MemberPlaces {
            places: zeros(alloc)?,
        })
    }

    #[tactic(auto, unfolding(crate::specs::Places::place_at))]
    pub fn get(&self, member: u8) -> u64
        ensures { result ≡ spec.place_in self.now member }
    {
        self.places[usize::from(member)]
    }

    #[tactic(auto, using(crate::proofs::Tables::place_put))]
    pub fn put(&mut self, member: u8, place: u64)
        ensures { spec.place_in self.new ≡ spec.with_place member place (spec.place_in self.old) }
    {
        self.places[usize::from(member)] = place;
    }
}
