use ds_base::{Lrsn, PageId, TableId};
use heap_space::format_heap;
use index_leaf::format_index;
use page_format::{PAGE_SIZE, Page, Patch};
use std::alloc::Global;
use std::test::Fail;
use table_pages::{is_heap_header, is_index_header, is_node_page, is_row_page};

fn table() -> TableId {
    TableId::new(1).unwrap()
}

/// The page of this name after the patches that are for it.
fn page_after(alloc: Global, id: PageId, patches: &[Patch]) -> Result<Page, Fail> {
    let mut page = Page::zero(alloc)?;
    for patch in patches {
        let end = patch.offset as usize + patch.bytes.as_slice().len();
        if patch.page.is_same(id) && end <= PAGE_SIZE {
            page.apply(patch, Lrsn::new(5).unwrap());
        }
    }
    Ok(page)
}

/// The header page of a new heap.
fn heap_header(alloc: Global) -> Result<Page, Fail> {
    let patches = format_heap(alloc, table())?;
    page_after(alloc, table().heap_page(0), patches.as_slice())
}

/// A page of a new index.
fn index_page(alloc: Global, id: PageId) -> Result<Page, Fail> {
    let patches = format_index(alloc, table())?;
    page_after(alloc, id, patches.as_slice())
}

#[test]
fn the_header_of_a_new_heap_is_right_until_a_byte_is_changed(rt: HostRuntime) -> Result<(), Fail> {
    let heap = table().heap_page(0);
    let mut page = heap_header(rt.alloc())?;
    assert!(rt; is_heap_header(&page, heap) && !is_row_page(&page, heap));
    page.bytes_mut()[40] = 1;
    assert!(rt; !is_heap_header(&page, heap));
    Ok(())
}

#[test]
fn pages_of_a_new_index_are_right_until_a_byte_is_changed(rt: HostRuntime) -> Result<(), Fail> {
    let index = table().index_page(0);
    let page = index_page(rt.alloc(), index)?;
    assert!(rt; is_index_header(&page, index) && !is_node_page(&page, index));
    let root = table().index_page(1);
    let mut page = index_page(rt.alloc(), root)?;
    assert!(rt; is_node_page(&page, root));
    page.bytes_mut()[79] = 1;
    assert!(rt; !is_node_page(&page, root));
    Ok(())
}
