ghost use Rattle.std.specs.Prelude.{◌≡◌, OnOk, IfOk};
ghost use Rattle.std.specs.FinMap as finite;

use ds_base::{NoMemory, PageId, Sequence};
use std::alloc::Global;
use std::collections::BTreeMap;
use std::marker::Model;

/// A map from pages, in the order of their names.
#[derive(Drop)]
pub struct PageMap<T> {
    pages: BTreeMap<PageId, T>,
}

impl<T> Model for PageMap<T> {
    ghost use Rattle.std.specs.FinMap as finite;
    ghost use Rattle.page_records.specs.Pages.{page_cmp, coded_page};

    ghost Value = { finite.FinMap page_cmp T };

    ghost coded = { finite.code coded_page T.code };

    ghost view = { λ m. finite.from_entries m.pages.entries };
}

impl<T: Drop> PageMap<T> {
    pub fn new(alloc: Global) -> PageMap<T>
        ensures { result ≡ finite.empty }
    {
        PageMap {
            pages: BTreeMap::new(alloc),
        }
    }

    /// Takes the page's value out.
    pub fn take(&mut self, id: PageId) -> Option<T>
        ensures value { result ≡ finite.get self.old id }
        ensures gone { self.new ≡ finite.remove self.old id }
    {
        self.pages.remove(&id)
    }

    pub fn put(&mut self, id: PageId, value: T) -> Result<(), NoMemory>
        ensures { OnOk result (self.new ≡ finite.insert self.old id value) }
    {
        self.pages.insert(id, value)?;
        Ok(())
    }

    /// The pages, in order, with their values.
    pub fn into_list(self, alloc: Global) -> Result<Sequence<(PageId, T)>, NoMemory>
        ensures { IfOk result (λ list. list ≡ finite.entries self) }
    {
        let PageMap { pages } = self;
        let list: Vec<(PageId, T)> = pages.into_iter().collect(alloc)?;
        Ok(Sequence::from_vec(list))
    }
}
