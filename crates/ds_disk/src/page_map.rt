//! The pages of a disk in memory, in the order of their names.
ghost use Rattle.std.specs.Prelude.{◌≡◌, length, true, All, IfOk, OnOk, OnErr};
ghost use Rattle.std.specs.FinMap as map;
ghost use Rattle.ds_disk.specs.Pages.{AreBytes, page_at, put_pages};
ghost use Rattle.ds_disk.specs.Written.{have_bytes};

use ds_base::{Bytes, NoMemory, PageId};
use std::alloc::Global;
use std::collections::BTreeMap;
use std::marker::Model;

#[derive(Drop)]
struct Page {
    bytes: Box<[u8; 4096]>,
}

impl Model for Page {
    ghost use Rattle.std.specs.Prelude.{ℕ, List};

    ghost Value = { List ℕ };

    ghost view = { λ p. p.bytes.value };
}

impl Page {
    fn new(alloc: Global, bytes: &[u8; 4096]) -> Result<Page, NoMemory>
        ensures { IfOk result (λ page. page ≡ bytes.now) }
    {
        Ok(Page {
            bytes: Box::new(alloc, *bytes)?,
        })
    }

    fn copy(&self, into: &mut [u8; 4096])
        ensures { into.new ≡ self.now }
    {
        *into = *self.bytes;
    }
}

/// The pages that were written, which contracts see as a finite map.
#[derive(Drop)]
pub struct PageMap {
    alloc: Global,
    written: BTreeMap<PageId, Page>,
}

impl Model for PageMap {
    ghost use Rattle.std.specs.FinMap as map;
    ghost use Rattle.std.specs.Coded.{coded_ℕ, coded_list};
    ghost use Rattle.ds_disk.specs.Pages.{Pages, coded_page};

    ghost Value = { Pages };

    ghost coded = { map.code coded_page (coded_list coded_ℕ) };

    ghost view = { λ p. map.from_entries p.written.entries };
}

impl PageMap {
    pub fn new(alloc: Global) -> PageMap
        ensures { result ≡ map.empty }
    {
        PageMap {
            alloc,
            written: BTreeMap::new(alloc),
        }
    }

    /// Copies a page.
    pub fn read(&self, id: PageId, into: &mut [u8; 4096])
        ensures { into.new ≡ page_at self.now id }
    {
        match self.written.get(&id) {
            Some(page) => page.copy(into),
            None => *into = [0; 4096],
        }
    }

    pub fn write(&mut self, id: PageId, from: &[u8; 4096]) -> Result<(), NoMemory>
        ensures ok { OnOk result (self.new ≡ map.insert self.old id from.now) }
        ensures err { OnErr result (self.new ≡ self.old) }
        ensures bytes { AreBytes from.now }
    {
        let page = Page::new(self.alloc, from)?;
        self.written.insert(id, page)?;
        Ok(())
    }

    pub fn write_all(&mut self, pages: &[(PageId, Bytes)]) -> Result<(), NoMemory>
        requires { All (λ page. length page.1 ≡ 4096) pages.now }
        ensures put { OnOk result (self.new ≡ put_pages self.old pages.now) }
        ensures bytes { OnOk result (have_bytes self.old ≡ true → have_bytes self.new ≡ true) }
    {
        for (id, bytes) in pages {
            let mut page = [0; 4096];
            page.copy_from_slice(bytes.as_slice());
            self.write(*id, &page)?;
        }
        Ok(())
    }
}
