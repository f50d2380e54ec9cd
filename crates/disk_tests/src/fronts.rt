ghost use Rattle.std.specs.Prelude.{IfOk};
ghost use Rattle.std.specs.List.{AllByRecursion};
ghost use Rattle.ds_model.specs.RecordBytes.{IsAllowed};

use crate::records::record;
use ds_base::{Bytes, PageId, Sequence};
use ds_model::{Body, LogRecord};
use page_format::{Page, Patch};
use page_records::by_page;
use page_versions::{apply_record, is_placed, is_version};
use std::alloc::Global;
use std::test::Fail;

const ID: PageId = PageId { set: 1, number: 7 };

/// A change of a page of the set.
fn patched(alloc: Global, lrsn: u8, number: u32) -> Result<LogRecord, Fail>
    ensures { IfOk result IsAllowed }
{
    let patch = Patch {
        page: PageId { set: 1, number },
        offset: 100,
        bytes: Bytes::from_vec(vec![in alloc; lrsn]?),
    };
    let patches = Sequence::from_vec(vec![in alloc; patch]?);
    record(u128::from(lrsn), 0, Body::System { patches })
}

/// Three records, of which the first and the last change the page.
fn changes(alloc: Global) -> Result<[LogRecord; 3], Fail>
    ensures { IfOk result (λ records. AllByRecursion IsAllowed records) }
{
    let first = patched(alloc, 3, 7)?;
    let second = patched(alloc, 4, 8)?;
    let third = patched(alloc, 5, 7)?;
    Ok([first, second, third])
}

/// Whether the page is a version by a front of the records.
fn is_front(alloc: Global, records: &[LogRecord], page: &Page) -> Result<bool, Fail>
    requires { AllByRecursion IsAllowed records.now }
{
    let changed = by_page(alloc, records)?;
    Ok(is_version(alloc, ID, records, changed.as_slice(), page)?)
}

/// Whether it is one that may stand on a disk.
fn may_stand(alloc: Global, records: &[LogRecord], page: &mut Page) -> Result<bool, Fail>
    requires { AllByRecursion IsAllowed records.now }
{
    let changed = by_page(alloc, records)?;
    Ok(is_placed(alloc, ID, records, changed.as_slice(), false, page)?)
}

#[test]
fn a_page_is_a_version_by_a_front_of_the_records(rt: HostRuntime) -> Result<(), Fail> {
    let alloc = rt.alloc();
    let records = changes(alloc)?;
    let mut page = Page::zero(alloc)?;
    assert!(rt; is_front(alloc, &records, &page)?);
    apply_record(&mut page, ID, &records[0]);
    assert!(rt; is_front(alloc, &records, &page)?);
    assert!(rt; !may_stand(alloc, &records, &mut page)?);
    apply_record(&mut page, ID, &records[2]);
    assert!(rt; is_front(alloc, &records, &page)?);
    Ok(())
}

#[test]
fn a_page_that_no_record_changed_is_no_version(rt: HostRuntime) -> Result<(), Fail> {
    let alloc = rt.alloc();
    let first = patched(alloc, 3, 7)?;
    let mut page = Page::zero(alloc)?;
    apply_record(&mut page, ID, &first);
    let other = [patched(alloc, 3, 8)?];
    assert!(rt; !is_front(alloc, &other, &page)?);
    Ok(())
}
