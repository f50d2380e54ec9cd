ghost use Rattle.std.specs.Prelude.{◌≡◌};
ghost use Rattle.ds_base.specs.Ids.{IsLrsn};
ghost use Rattle.log_record.specs.Given.{Fits};

use crate::{MemberLog, MustForce};
use ds_base::Lrsn;
use log_record::{Body, LogRecord, Version};
use std::test::Fail;

fn lrsn(number: u128) -> Lrsn
    requires { IsLrsn number }
    ensures { result ≡ number }
{
    Lrsn::new(number).unwrap()
}

fn commit() -> LogRecord
    ensures { Fits result }
{
    LogRecord {
        version: Version::Two,
        lrsn: lrsn(5),
        tran: lrsn(5),
        body: Body::Commit,
    }
}

#[test]
fn two_commits_fill_a_buffer_of_61_bytes(rt: HostRuntime) -> Result<(), Fail> {
    let mut log = MemberLog::new(rt.alloc(), 61)?;
    assert_eq!(rt; log.put(&commit()), Ok(()));
    assert_eq!(rt; log.room(), 31);
    assert_eq!(rt; log.stable(), lrsn(0));
    assert_eq!(rt; log.last(), lrsn(5));
    assert_eq!(rt; log.put(&commit()), Ok(()));
    assert_eq!(rt; log.put(&commit()), Err(MustForce { room: 1 }));
    assert_eq!(rt; log.pending().len(), 60);
    log.forced();
    assert_eq!(rt; log.stable(), lrsn(5));
    assert_eq!(rt; log.room(), 61);
    Ok(())
}
