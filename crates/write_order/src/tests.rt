use crate::{Rank, rank_by_name};
use ds_base::PageId;
use std::test::Fail;

#[test]
fn a_leaf_is_written_before_its_branch_and_behind_its_right_page(
    rt: HostRuntime,
) -> Result<(), Fail> {
    let heap = rank_by_name(PageId { set: 1, number: 3 });
    assert_eq!(rt; heap, Some(Rank::HeapPage));
    assert_eq!(rt; rank_by_name(PageId { set: 2, number: 3 }), None);
    assert!(rt; Rank::Leaf(9).is_before(&Rank::Leaf(4)));
    assert!(rt; Rank::Leaf(4).is_before(&Rank::Branch(4)));
    assert!(rt; !Rank::Leaf(4).is_before(&Rank::HeapHeader));
    Ok(())
}
