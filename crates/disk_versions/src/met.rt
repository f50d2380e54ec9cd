//! The pages of some tables, as log records make them one after the other, beside those of a disk.

ghost use Rattle.std.specs.Prelude.{◌≡◌, ◌==◌, [], ◌∷◌, ◌++◌, None, Some, OnOk};
ghost use Rattle.std.specs.Str.{bytes_eq};
ghost use Rattle.ds_disk.specs.Pages.{page_at};
ghost use Rattle.ds_model.specs.RecordBytes.{IsAllowed};
ghost use Rattle.page_format.specs.Fields.{lrsn_of};
ghost use Rattle.page_chain.specs.Chains.{images_of};
ghost use Rattle.page_images.specs.Images.{Images};
ghost use Rattle.redone_pages.specs.Ranges.{HasPage};
ghost use Rattle.sound_disk.specs.Versions.{current};
ghost use Rattle.disk_versions.specs.Reading.{Reads};
ghost use Rattle.disk_versions.specs.Met.{mark_of, AreMet, IsPut, HaveMarks, IsFresh, IsSameNow, IsMetNow, IsNextMark, MeetsAlso};

use crate::page::{is_zero, load};
use ds_base::{Lrsn, NoMemory, PageId};
use ds_disk::{Disk, DiskError};
use ds_model::LogRecord;
use page_chain::chain_laws;
use page_format::Page;
use page_redo::pages_of;
use redone_pages::{RedonePages, TableRange};
use std::alloc::Global;
use std::collections::BTreeMap;

/// What is kept of a page of the disk.
#[derive(Clone, Copy, Debug)]
pub struct Mark {
    /// The number that it bears.
    pub lrsn: Lrsn,
    /// Whether the records so far made this page at some time.
    pub is_met: bool,
}

/// The pages of some tables as the records so far make them, and of each that they change a mark of the page that is on disk.
///
/// Of the disk one page is in memory at a time.
#[derive(Drop)]
pub struct MetPages {
    pub made: RedonePages,
    pub marks: BTreeMap<PageId, Mark>,
}

/// Leaves the page in version 2.
pub fn renew_old(page: &mut Page)
    ensures { page.new ≡ current page.old }
{
    if page.is_old() {
        page.renew();
    }
}

// The page on disk, in version 2.
fn read_current<D: Disk>(alloc: Global, disk: &mut D, id: PageId) -> Result<Page, DiskError>
    ensures { Reads (D.contents disk.old) (D.contents disk.new) (D.faults disk.old) (D.faults disk.new) (λ page c. page ≡ current (page_at c.pages id)) result }
{
    let mut page = Page::zero(alloc)?;
    load(disk, id, &mut page)?;
    renew_old(&mut page);
    Ok(page)
}

// The mark of the page on disk before a record changes it.
fn fresh_mark<D: Disk>(alloc: Global, disk: &mut D, id: PageId) -> Result<Mark, DiskError>
    ensures { Reads (D.contents disk.old) (D.contents disk.new) (D.faults disk.old) (D.faults disk.new) (λ mark c. IsFresh (page_at c.pages id) mark) result }
{
    let page = read_current(alloc, disk, id)?;
    Ok(Mark {
        lrsn: page.lrsn(),
        is_met: is_zero(&page),
    })
}

fn is_same(a: &Page, b: &Page) -> bool
    ensures { result ≡ bytes_eq a.now b.now }
{
    a.bytes().as_slice() == b.bytes().as_slice()
}

fn bears(image: &Page, lrsn: Lrsn) -> bool
    ensures { result ≡ (lrsn_of image.now == lrsn) }
{
    image.lrsn().number() == lrsn.number()
}

// Whether the page on disk, which bears this number, is the one that was made. It is read only where that one bears it too.
fn is_same_now<D: Disk>(
    alloc: Global,
    disk: &mut D,
    id: PageId,
    image: &Page,
    lrsn: Lrsn,
) -> Result<bool, DiskError>
    ensures { Reads (D.contents disk.old) (D.contents disk.new) (D.faults disk.old) (D.faults disk.new) (λ same c. IsSameNow image.now (page_at c.pages id) lrsn same) result }
{
    let is_its = bears(image, lrsn);
    if !is_its {
        return Ok(false);
    }
    let page = read_current(alloc, disk, id)?;
    Ok(is_same(image, &page))
}

impl MetPages {
    /// Before the first record.
    pub fn new(alloc: Global, range: TableRange) -> MetPages
        ensures records { result.made.records ≡ [] }
        ensures range { result.made.range ≡ range }
        ensures met { (at : Images) → AreMet at result }
    {
        MetPages {
            made: RedonePages::new(alloc, range),
            marks: BTreeMap::new(alloc),
        }
    }

    fn put(&mut self, id: PageId, mark: Mark) -> Result<(), NoMemory>
        ensures made { self.new.made ≡ self.old.made }
        ensures put { OnOk result (IsPut id mark self.old self.new) }
    {
        self.marks.insert(id, mark)?;
        Ok(())
    }

    /// The page's mark, if it has one.
    pub fn mark_of(&self, id: PageId) -> Option<Mark>
        ensures { result ≡ mark_of self.now id }
    {
        match self.marks.get(&id) {
            Some(mark) => Some(*mark),
            None => None,
        }
    }

    // Marks a page that has no mark.
    fn mark_fresh<D: Disk>(
        &mut self,
        alloc: Global,
        disk: &mut D,
        id: PageId,
    ) -> Result<(), DiskError>
        requires { mark_of self.old id ≡ None }
        ensures made { self.new.made ≡ self.old.made }
        ensures there { OnOk result (HaveMarks (id ∷ []) self.old self.new) }
        ensures met { Reads (D.contents disk.old) (D.contents disk.new) (D.faults disk.old) (D.faults disk.new) (λ _ c. AreMet (page_at c.pages) self.old → AreMet (page_at c.pages) self.new) result }
    {
        chain_laws();
        let mark = fresh_mark(alloc, disk, id)?;
        self.put(id, mark)?;
        Ok(())
    }

    // Marks the page, if it is one of the tables and has no mark.
    fn mark<D: Disk>(&mut self, alloc: Global, disk: &mut D, id: PageId) -> Result<(), DiskError>
        ensures made { self.new.made ≡ self.old.made }
        ensures there { OnOk result (HaveMarks (id ∷ []) self.old self.new) }
        ensures met { Reads (D.contents disk.old) (D.contents disk.new) (D.faults disk.old) (D.faults disk.new) (λ _ c. AreMet (page_at c.pages) self.old → AreMet (page_at c.pages) self.new) result }
    {
        if !self.made.range().has_page(id) {
            return Ok(());
        }
        let old = self.mark_of(id);
        match old {
            Some(_) => Ok(()),
            None => self.mark_fresh(alloc, disk, id),
        }
    }

    fn mark_all<D: Disk>(
        &mut self,
        alloc: Global,
        disk: &mut D,
        pages: &[PageId],
    ) -> Result<(), DiskError>
        ensures made { self.new.made ≡ self.old.made }
        ensures there { OnOk result (HaveMarks pages.now self.old self.new) }
        ensures met { Reads (D.contents disk.old) (D.contents disk.new) (D.faults disk.old) (D.faults disk.new) (λ _ c. AreMet (page_at c.pages) self.old → AreMet (page_at c.pages) self.new) result }
    {
        for id in pages {
            self.mark(alloc, disk, *id)?;
        }
        Ok(())
    }

    // Whether the records so far made the page on disk, of which this is the mark.
    fn is_met<D: Disk>(
        &self,
        alloc: Global,
        disk: &mut D,
        id: PageId,
        mark: &Mark,
    ) -> Result<bool, DiskError>
        requires { HasPage self.now.made.range id }
        ensures { Reads (D.contents disk.old) (D.contents disk.new) (D.faults disk.old) (D.faults disk.new) (λ met c. IsMetNow (images_of self.now.made.records id) (page_at c.pages id) mark.now met) result }
    {
        if mark.is_met {
            return Ok(true);
        }
        let image = self.made.image(alloc, id)?;
        is_same_now(alloc, disk, id, &image, mark.lrsn)
    }

    // The mark of the page behind the records so far, which was this one before the last of them.
    fn next_mark<D: Disk>(
        &self,
        alloc: Global,
        disk: &mut D,
        id: PageId,
        mark: &Mark,
    ) -> Result<Mark, DiskError>
        requires { HasPage self.now.made.range id }
        ensures { Reads (D.contents disk.old) (D.contents disk.new) (D.faults disk.old) (D.faults disk.new) (λ next c. IsNextMark (images_of self.now.made.records id) (page_at c.pages id) mark.now next) result }
    {
        let is_met = self.is_met(alloc, disk, id, mark)?;
        Ok(Mark {
            lrsn: mark.lrsn,
            is_met,
        })
    }

    // Enters whether the page on disk, of which this is the mark, was made.
    fn meet_marked<D: Disk>(
        &mut self,
        alloc: Global,
        disk: &mut D,
        id: PageId,
        mark: &Mark,
    ) -> Result<(), DiskError>
        requires page { HasPage self.old.made.range id }
        requires mark { mark_of self.old id ≡ Some mark.now }
        ensures made { self.new.made ≡ self.old.made }
        ensures met { Reads (D.contents disk.old) (D.contents disk.new) (D.faults disk.old) (D.faults disk.new) (λ _ c. MeetsAlso (page_at c.pages) (id ∷ []) self.old self.new) result }
    {
        let next = self.next_mark(alloc, disk, id, mark)?;
        self.put(id, next)?;
        Ok(())
    }

    // Enters whether the page on disk was made, if the page is one of the tables.
    fn meet<D: Disk>(&mut self, alloc: Global, disk: &mut D, id: PageId) -> Result<(), DiskError>
        ensures made { self.new.made ≡ self.old.made }
        ensures met { Reads (D.contents disk.old) (D.contents disk.new) (D.faults disk.old) (D.faults disk.new) (λ _ c. MeetsAlso (page_at c.pages) (id ∷ []) self.old self.new) result }
    {
        if !self.made.range().has_page(id) {
            return Ok(());
        }
        let old = self.mark_of(id);
        match &old {
            Some(mark) => self.meet_marked(alloc, disk, id, mark),
            None => Ok(()),
        }
    }

    fn meet_all<D: Disk>(
        &mut self,
        alloc: Global,
        disk: &mut D,
        pages: &[PageId],
    ) -> Result<(), DiskError>
        ensures made { self.new.made ≡ self.old.made }
        ensures met { Reads (D.contents disk.old) (D.contents disk.new) (D.faults disk.old) (D.faults disk.new) (λ _ c. MeetsAlso (page_at c.pages) pages.now self.old self.new) result }
    {
        for id in pages {
            self.meet(alloc, disk, *id)?;
        }
        Ok(())
    }

    /// Does the changes of the record in the pages of the tables, and compares each of these with that on disk where both bear the
    /// same number.
    pub fn take<D: Disk>(
        &mut self,
        alloc: Global,
        disk: &mut D,
        it: &LogRecord,
    ) -> Result<(), DiskError>
        requires { IsAllowed it.now }
        ensures records { OnOk result (self.new.made.records ≡ self.old.made.records ++ it.now ∷ []) }
        ensures range { self.new.made.range ≡ self.old.made.range }
        ensures met { Reads (D.contents disk.old) (D.contents disk.new) (D.faults disk.old) (D.faults disk.new) (λ _ c. AreMet (page_at c.pages) self.old → AreMet (page_at c.pages) self.new) result }
    {
        chain_laws();
        let pages = pages_of(alloc, it)?;
        self.mark_all(alloc, disk, pages.as_slice())?;
        self.made.take(alloc, it)?;
        self.meet_all(alloc, disk, pages.as_slice())
    }
}
