use ds_base::{Bytes, Lrsn, PageId};
use ds_model::{Body, LogRecord, Version};
use page_format::{Page, Patch, Patches};
use page_redo::{FieldFault, bring_forward, pages_of};
use std::alloc::Global;
use std::test::Fail;

fn patch(alloc: Global, number: u32) -> Result<Patch, Fail> {
    let mut bytes = Bytes::new(alloc);
    bytes.extend(b"x")?;
    Ok(Patch {
        page: PageId { set: 2, number },
        offset: 40,
        bytes,
    })
}

/// A record that changes pages 7, 8 and 7 again.
fn record(alloc: Global) -> Result<LogRecord, Fail> {
    let mut patches = Patches::new(alloc);
    for number in [7, 8, 7] {
        patches.push(patch(alloc, number)?)?;
    }
    Ok(LogRecord {
        version: Version::Two,
        lrsn: Lrsn::new(5).unwrap(),
        tran: Lrsn::new(0).unwrap(),
        body: Body::System { patches },
    })
}

fn has_two_pages(alloc: Global, it: &LogRecord) -> Result<bool, Fail> {
    let pages = pages_of(alloc, it)?;
    Ok(matches!(pages.as_slice(), [first, second] if first.number == 7 && second.number == 8))
}

/// Whether the records change the page once it has a mark, and not without one.
fn is_changed_once(alloc: Global, id: PageId, records: &[LogRecord]) -> Result<bool, Fail> {
    let mut page = Page::zero(alloc)?;
    let changed = bring_forward(&mut page, id, records) == Ok(true);
    let told = page.bytes()[25] == 5 && page.bytes()[40] == b'x';
    Ok(changed && told && bring_forward(&mut page, id, records) == Err(FieldFault { at: 0 }))
}

#[test]
fn a_record_changes_two_pages_and_no_page_without_a_mark(rt: HostRuntime) -> Result<(), Fail> {
    let alloc = rt.alloc();
    let records = [record(alloc)?];
    assert!(rt; has_two_pages(alloc, &records[0])?);
    assert!(rt; is_changed_once(alloc, PageId { set: 2, number: 7 }, &records)?);
    Ok(())
}
