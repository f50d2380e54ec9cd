use super::*;
use ds_base::MemberId;
use ds_disk::{Disk, DiskError};
use std::fs;
use std::test::Fail;

/// A disk over an empty folder.
fn emptied(rt: HostRuntime, folder: &str) -> Result<FileDisk<HostRuntime>, Fail> {
    let _ = fs::remove_dir_all(&rt, folder);
    fs::create_dir(&rt, folder)?;
    Ok(FileDisk::new(rt, String::from_str(rt.alloc(), folder)?))
}

#[test]
fn a_log_grows_is_read_and_is_cut(rt: HostRuntime) -> Result<(), Fail> {
    let mut disk = emptied(rt, "logs")?;
    let first = MemberId::new(1).unwrap();
    let last = MemberId::new(32).unwrap();
    let mut bytes = [0; 4];
    assert!(rt; disk.read_log(last, 0, &mut bytes) == Ok(0));
    assert!(rt; disk.cut_log(last, 0) == Ok(()));
    assert!(rt; disk.append_log(last, b"abc") == Ok(()));
    assert!(rt; disk.append_log(last, b"defg") == Ok(()));
    assert!(rt; disk.log_length(last) == Ok(7));
    assert!(rt; disk.read_log(last, 5, &mut bytes) == Ok(2));
    assert!(rt; &bytes[..2] == b"fg".as_slice());
    assert!(rt; disk.read_log(last, u64::MAX, &mut bytes) == Ok(0));
    assert!(rt; disk.cut_log(last, 5) == Ok(()));
    assert!(rt; disk.append_log(first, b"first") == Ok(()));
    assert!(rt; disk.append_log(last, b"x") == Ok(()));
    assert!(rt; disk.append_log(last, b"y") == Ok(()));
    assert!(rt; fs::read(&rt, "logs/log-32.log")?.as_slice() == b"abcdexy".as_slice());
    assert!(rt; fs::read(&rt, "logs/log-01.log")?.as_slice() == b"first".as_slice());
    fs::remove_dir_all(&rt, "logs")?;
    Ok(())
}
