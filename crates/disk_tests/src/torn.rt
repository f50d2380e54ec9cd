use std::test::Fail;
use torn_records::is_torn;

/// Changed pages of version 2: one patch of three bytes.
const PATCHED: [u8; 44] = [
    0, 0, 0, 44, 3, 2, 0, 0, 0, 0, 0, 0, 0, 0, 0, 9, 0, 0, 0, 0, 0, 0, 0, 0, 0, 0, 1, 0, 2, 0, 0,
    0, 5, 0, 8, 0, 3, 7, 8, 9, 0, 0, 0, 44,
];

#[test]
fn fronts_of_a_record_are_torn(rt: HostRuntime) -> Result<(), Fail> {
    let alloc = rt.alloc();
    for count in [0, 3, 5, 26, 28, 35, 43] {
        assert!(rt; is_torn(alloc, &PATCHED[..count])?);
    }
    assert!(rt; !is_torn(alloc, &PATCHED)?);
    assert!(rt; !is_torn(alloc, &[0, 0, 65])?);
    assert!(rt; !is_torn(alloc, &[0, 0, 0, 44, 3, 2, 0, 0, 0, 0, 0, 0, 0, 0, 0, 9, 1])?);
    Ok(())
}
