ghost use Rattle.std.specs.Prelude.{◌≡◌, OnOk, IfOk, option_copied};
ghost use Rattle.std.specs.FinMap as finite;

use ds_base::{Lrsn, NoMemory, Sequence};
use std::alloc::Global;
use std::collections::BTreeMap;
use std::marker::Model;

/// A map from numbers, in their order.
#[derive(Drop)]
pub struct NumberMap<T> {
    numbers: BTreeMap<Lrsn, T>,
}

impl<T> Model for NumberMap<T> {
    ghost use Rattle.std.specs.FinMap as finite;
    ghost use Rattle.std.specs.Ordering.{nat_cmp};
    ghost use Rattle.std.specs.Coded.{coded_ℕ};

    ghost Value = { finite.FinMap nat_cmp T };

    ghost coded = { finite.code coded_ℕ T.code };

    ghost view = { λ m. finite.from_entries m.numbers.entries };
}

impl<T: Drop> NumberMap<T> {
    pub fn new(alloc: Global) -> NumberMap<T>
        ensures { result ≡ finite.empty }
    {
        NumberMap {
            numbers: BTreeMap::new(alloc),
        }
    }

    pub fn get(&self, number: Lrsn) -> Option<&T>
        ensures { option_copied result ≡ finite.get self.now number }
    {
        self.numbers.get(&number)
    }

    /// Takes the number's value out.
    pub fn take(&mut self, number: Lrsn) -> Option<T>
        ensures value { result ≡ finite.get self.old number }
        ensures gone { self.new ≡ finite.remove self.old number }
    {
        self.numbers.remove(&number)
    }

    pub fn put(&mut self, number: Lrsn, value: T) -> Result<(), NoMemory>
        ensures { OnOk result (self.new ≡ finite.insert self.old number value) }
    {
        self.numbers.insert(number, value)?;
        Ok(())
    }

    /// The numbers, in order, with their values.
    pub fn into_list(self, alloc: Global) -> Result<Sequence<(Lrsn, T)>, NoMemory>
        ensures { IfOk result (λ list. list ≡ finite.entries self) }
    {
        let NumberMap { numbers } = self;
        let list: Vec<(Lrsn, T)> = numbers.into_iter().collect(alloc)?;
        Ok(Sequence::from_vec(list))
    }
}
