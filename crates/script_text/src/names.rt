ghost use Rattle.std.specs.Prelude.{◌≡◌, List, ℕ, ◌||◌, false, OnOk, bytes_eq};
ghost use Rattle.script_text.specs.Indexes.{is_kept};

use ds_base::NoMemory;
use std::alloc::Global;
use std::collections::BTreeSet;

/// The names that were used.
#[derive(Drop)]
pub struct Names {
    kept: BTreeSet<Vec<u8>>,
}

impl Names {
    pub fn new(alloc: Global) -> Names
        ensures { (q : List ℕ) → is_kept result q ≡ false }
    {
        Names {
            kept: BTreeSet::new(alloc),
        }
    }

    pub fn has(&self, name: &[u8]) -> bool
        ensures { result ≡ is_kept self.now name.now }
    {
        self.kept.contains(name)
    }

    pub fn add(&mut self, alloc: Global, name: &[u8]) -> Result<(), NoMemory>
        ensures { OnOk result ((q : List ℕ) → is_kept self.new q ≡ (is_kept self.old q || bytes_eq q name.now)) }
    {
        self.kept.insert(Vec::from_slice(alloc, name)?)?;
        Ok(())
    }
}
