ghost use Rattle.std.specs.Prelude.{◌≡◌, [], ◌∷◌, ◌++◌, IfOk, OnOk, OnErr, option_copied};
ghost use Rattle.ds_model.specs.RecordBytes.{IsAllowed};
ghost use Rattle.page_chain.specs.Chains.{version_of};
ghost use Rattle.redone_pages.specs.Ranges.{HasPage};
ghost use Rattle.redone_pages.specs.Lasts.{last_in_records};
ghost use Rattle.redone_pages.specs.Held.{or_zeros};

use crate::apply::{apply_record, copy_of};
use crate::lasts::{Lasts, raise_record};
use crate::range::TableRange;
use ds_base::{NoMemory, PageId};
use log_record::LogRecord;
use page_format::Page;
use past_items::Past;
use std::alloc::Global;
use std::collections::BTreeMap;
use std::marker::Model;

/// The pages of some tables as the records so far make them of pages of zeros, and the last page of each page set that they
/// change.
///
/// Contracts see the records; no record is held.
#[derive(Drop)]
pub struct RedonePages {
    range: TableRange,
    // those of the tables that a record has changed
    pages: BTreeMap<PageId, Page>,
    lasts: Lasts,
    past: Past<LogRecord>,
}

impl Model for RedonePages {
    ghost use Rattle.redone_pages.specs.Redone.{Redone, AreRedone};

    ghost Value = { Redone };

    ghost view = { λ m. record { records = m.past.items; range = m.range } };

    ghost invariant = { λ m. AreRedone m.range m.pages.entries m.lasts m.past.items };
}

impl RedonePages {
    /// Before the first record.
    pub fn new(alloc: Global, range: TableRange) -> RedonePages
        ensures records { result.records ≡ [] }
        ensures range { result.range ≡ range }
    {
        RedonePages {
            range,
            pages: BTreeMap::new(alloc),
            lasts: [0; 129],
            past: Past::new(),
        }
    }

    /// Does the changes of the record in the pages of the tables. Where memory is wanting, all is as before the first record.
    ///
    /// It takes time in the number of these changes times the logarithm of the number of pages.
    pub fn take(&mut self, alloc: Global, it: &LogRecord) -> Result<(), NoMemory>
        requires { IsAllowed it.now }
        ensures ok { OnOk result (self.new.records ≡ self.old.records ++ it.now ∷ []) }
        ensures err { OnErr result (self.new.records ≡ []) }
        ensures range { self.new.range ≡ self.old.range }
    {
        match apply_record(alloc, &self.range, &mut self.pages, it) {
            Ok(()) => {
                raise_record(&mut self.lasts, it);
                self.past = self.past.and(it);
                Ok(())
            }
            Err(error) => {
                self.pages.clear();
                self.lasts = [0; 129];
                self.past = Past::new();
                Err(error)
            }
        }
    }

    /// The tables whose pages are made.
    pub fn range(&self) -> TableRange
        ensures { result ≡ self.now.range }
    {
        self.range
    }

    /// The page, if a record has changed it. Else it is all zeros.
    pub fn page(&self, id: PageId) -> Option<&Page>
        requires { HasPage self.now.range id }
        ensures { or_zeros (option_copied result) ≡ version_of id self.now.records }
    {
        self.pages.get(&id)
    }

    /// A copy of the page.
    ///
    /// It takes time in the logarithm of the number of pages, as `page` does.
    pub fn image(&self, alloc: Global, id: PageId) -> Result<Page, NoMemory>
        requires { HasPage self.now.range id }
        ensures { IfOk result (λ page. page ≡ version_of id self.now.records) }
    {
        match self.page(id) {
            Some(page) => copy_of(alloc, page),
            None => Ok(Page::zero(alloc)?),
        }
    }

    /// The greatest number of a page of the set that a record has changed, or 0. It knows that of each page set.
    pub fn last(&self, set: u16) -> u32
        ensures { result ≡ last_in_records set 0 self.now.records }
    {
        match self.lasts.get(set as usize) {
            Some(last) => *last,
            None => 0,
        }
    }
}
