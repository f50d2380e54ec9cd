use ds_base::TableId;
use page_format::Page;
use redone_pages::{RedonePages, TableRange};
use std::test::Fail;
use table_images::{heap_end, heap_page_stands, index_end, index_page_stands, is_blank};

#[test]
fn no_records_leave_no_pages(rt: HostRuntime) -> Result<(), Fail> {
    let alloc = rt.alloc();
    let table = TableId::new(1).unwrap();
    let page = Page::zero(alloc)?;
    assert!(rt;
        is_blank(&page)
            && heap_page_stands(&page, table.heap_page(0), 0, 0)
            && index_page_stands(&page, table.index_page(0), false, 0)
    );
    let range = TableRange {
        first: table,
        last: table,
    };
    let made = RedonePages::new(alloc, range);
    assert!(rt; heap_end(table, &made, 0) == 1 && index_end(table, &made, 0) == 2);
    Ok(())
}
