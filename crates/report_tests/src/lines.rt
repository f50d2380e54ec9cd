use report_text::{read_report, write_report};
use std::alloc::Global;
use std::test::Fail;

/// A line of each kind.
const WHOLE: &str = "dsgroup 1
committed a M1 answered
read 1 10 =a=b
read 64 18446744073709551615 -
scan 2 0 99 1
read 2 99 =~
committed bb M32 unanswered
refused r M2 held space 1 by a
refused r M2 held row 2 30 by bb
refused r M2 retained page 128 4294967295 by M32
refused r M2 retained set 6 by M1
refused r M2 deadlock a bb c
refused r M2 space-full 4 1000
refused r M2 records-full 0
refused r M2 lrsn-end 1208925819614629157928960
refused r M2 memory
refused r M2 aborted
stopped c M3
cause r 1
event 1 32 17 take none
rows 1
row 1 10 =a=b
end 5
";

/// Whether the text of a report is read, and written again.
fn is_read_and_written(alloc: Global, text: &[u8]) -> Result<bool, Fail> {
    let Ok(report) = read_report(alloc, text) else {
        return Ok(false);
    };
    let written = write_report(alloc, &report)?;
    Ok(written.as_slice() == text)
}

#[test]
fn each_kind_of_line_is_read_and_written(rt: HostRuntime) -> Result<(), Fail> {
    assert!(rt; is_read_and_written(rt.alloc(), WHOLE.as_bytes())?);
    Ok(())
}
