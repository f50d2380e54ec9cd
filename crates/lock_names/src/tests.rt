ghost use Rattle.ds_model.specs.RecordBytes.{IsTable};

use super::*;
use ds_model::{PageId, TableId};
use std::test::Fail;

fn table(number: u64) -> TableId
    requires { IsTable number }
{
    TableId::new(number).unwrap()
}

#[test]
fn a_name_falls_on_its_entry(rt: HostRuntime) -> Result<(), Fail> {
    let page = |set, number| Name::Page(PageId { set, number });
    let rows = [
        (Name::Row(table(1), 10), 4096, 3915),
        (Name::Space(table(64)), u32::MAX, 12_459_842),
        (page(2, 7), 4096, 3848),
        (Name::Set(65_535), u32::MAX, 37_109_194),
    ];
    for (name, entries, entry) in &rows {
        prove!(*entries >= 1);
        assert_eq!(rt; entry_of(name, *entries), *entry);
    }
    Ok(())
}
