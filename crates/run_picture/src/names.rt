ghost use Rattle.std.specs.Prelude.{◌≡◌, OnOk};
ghost use Rattle.run_picture.specs.Names as spec;

use ds_base::NoMemory;
use std::alloc::Global;
use std::collections::BTreeMap;

/// Numbers by names.
#[derive(Drop)]
pub struct NameNumbers {
    numbers: BTreeMap<Vec<u8>, u64>,
}

impl NameNumbers {
    pub fn new(alloc: Global) -> NameNumbers
        ensures { spec.number_of result ≡ spec.no_number }
    {
        NameNumbers {
            numbers: BTreeMap::new(alloc),
        }
    }

    #[tactic(auto, unfolding(crate::specs::Names::number_of))]
    pub fn get(&self, name: &[u8]) -> Option<u64>
        ensures { result ≡ spec.number_of self.now name.now }
    {
        self.numbers.get(name).copied()
    }

    /// Gives a name its number, in place of the one that it had.
    pub fn put(&mut self, alloc: Global, name: &[u8], number: u64) -> Result<(), NoMemory>
        ensures { OnOk result (spec.number_of self.new ≡ spec.with_number name.now number (spec.number_of self.old)) }
    {
        self.numbers.insert(Vec::from_slice(alloc, name)?, number)?;
        Ok(())
    }
}
