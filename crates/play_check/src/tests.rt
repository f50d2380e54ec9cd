use super::*;
use crate::meeting::Meeting;
use ds_base::{Bytes, MemberId, MemorySink, MemorySource};
use ds_disk::{DiskFailure, DiskOp, MemoryDisk};
use group_run::{Finished, OpenGate, Status, play};
use std::alloc::Global;
use std::process::Abort;
use std::sync::Wait;
use std::test::Fail;
use std::thread::Threads;

/// A row is put in one phase and read in the next.
const HELLO: &str =
    "phase\nmember 1\ntran a\nput 1 10 =hello\nend\nphase\nmember 1\ntran b\nget 1 10\nend\n";

const STOPPED_REPORT: &str =
    "dsgroup 1\ncommitted a M1 answered\nstopped b M1\nrows 1\nrow 1 10 =hello\nend 5\n";

const ALL_STOPPED_REPORT: &str = "dsgroup 1\nstopped a M1\nstopped b M1\nrows 0\nend 5\n";

const HELLO_REPORT: &str =
    "dsgroup 1\ncommitted a M1 answered\ncommitted b M1 answered\nread 1 10 =hello\nrows 1\nrow 1 10 =hello\nend 0\n";

const NO_ROWS: &str = "dsgroup 1\nrows 0\nend 0\n";

const HELLO_ROWS: &str = "dsgroup 1\nrows 1\nrow 1 10 =hello\nend 0\n";

/// A row is changed in an append that fails; another member meets its lock, and reads it behind the restart.
const BROKEN: &str =
    "phase\nmember 1\ntran a\nput 1 10 =hello\nend\nphase\nmember 1\nfail raise 7\ntran b\nput 1 10 =lost\nend\nphase\nmember 2\ntran c\nget 1 10\nend\nphase\nmember 1\nrestart\nphase\nmember 2\ntran d\nget 1 10\nend\n";

const BROKEN_REPORT: &str =
    "dsgroup 1\ncommitted a M1 answered\ncommitted d M2 answered\nread 1 10 =hello\nstopped b M1\nrefused c M2 retained row 1 10 by M1\nrows 1\nrow 1 10 =hello\nend 5\n";

/// Two transactions of one phase go side by side, and wait for each other's flags.
const FLAGS: &str =
    "phase\nmember 1\ntran a\nput 1 1 =x\nraise 1\nawait 2\nend\nmember 2\ntran b\nawait 1\nput 1 2 =y\nraise 2\nend\n";

/// A small group, which is quickly made.
const PLAY: &str =
    "play --members 2 --seed 3 --agents 2 --locks 64 --records 64 --cache 16 --pool 8 --pages 8";

/// Calls of a disk by their numbers: of the members, of the reading of the logs before and behind the run, and of the group restarts.
const FAILURES: [(DiskOp, u64); 9] = [
    (DiskOp::ReadPage, 1),
    (DiskOp::WritePage, 1),
    (DiskOp::AppendLog, 1),
    (DiskOp::AppendLog, 2),
    (DiskOp::LogLength, 1),
    (DiskOp::LogLength, 70),
    (DiskOp::ReadLog, 40),
    (DiskOp::ReadLog, 100),
    (DiskOp::CutLog, 1),
];

fn words_of(alloc: Global, spelled: &str) -> Result<Vec<String>, Fail> {
    let mut words = Vec::new(alloc);
    for word in spelled.split(' ') {
        words.push(String::from_str(alloc, word)?)?;
    }
    Ok(words)
}

fn failures_of(alloc: Global, fails: Option<DiskFailure>) -> Result<Vec<DiskFailure>, Fail> {
    let mut failures = Vec::new(alloc);
    if let Some(failure) = fails {
        failures.push(failure)?;
    }
    Ok(failures)
}

/// A script, of which seven bytes come in a call.
fn source_of(alloc: Global, script: &str) -> Result<MemorySource, Fail> {
    let script = Bytes::from_vec(script.as_bytes().to_vec(alloc)?);
    Ok(MemorySource::new(script, 7, Vec::new(alloc)))
}

/// What is left of a call over memory.
#[derive(Drop)]
struct Played {
    status: Status,
    opened: bool,
    sink: MemorySink,
    disk: MemoryDisk,
}

/// Does what these words say, with a sink that takes so many bytes. (One call for all tests: to prove what it needs is dear.)
fn play_over_memory<R: Threads + Wait + Sync + Abort>(
    rt: &R,
    alloc: Global,
    spelled: &str,
    source: MemorySource,
    room: u64,
    disk: MemoryDisk,
) -> Result<Played, Fail> {
    let words = words_of(alloc, spelled)?;
    let mut source = source;
    let mut sink = MemorySink::new(alloc, room, Vec::new(alloc))?;
    let Finished {
        status,
        opened,
        disk,
        ..
    } = play(rt, alloc, &words, &mut source, &mut sink, disk, &OpenGate);
    Ok(Played {
        status,
        opened,
        sink,
        disk,
    })
}

/// Plays on an empty disk, and gives back the disk.
fn plays<R: Threads + Wait + Sync + Abort>(
    rt: &R,
    alloc: Global,
    setting: &Setting<'_>,
    number: u8,
    text: &str,
) -> Result<MemoryDisk, Fail> {
    let source = source_of(alloc, setting.script)?;
    let disk = MemoryDisk::new(alloc, failures_of(alloc, setting.fails)?)?;
    let played = play_over_memory(rt, alloc, PLAY, source, 4000, disk)?;
    assert!(rt; played.sink.taken() == text.as_bytes());
    assert!(rt; played.status.number() == number);
    Ok(played.disk)
}

/// Shows a disk that answers again.
fn shows<R: Threads + Wait + Sync + Abort>(
    rt: &R,
    alloc: Global,
    disk: MemoryDisk,
) -> Result<MemorySink, Fail> {
    let disk = disk.reopen(Vec::new(alloc));
    let played = play_over_memory(rt, alloc, "show", source_of(alloc, "")?, 4000, disk)?;
    assert!(rt; played.status == Status::Done);
    Ok(played.sink)
}

/// The disk dies in an append, of which it keeps so many bytes. Answers how many bytes the log has, and the text that then shows the rows.
fn dies_in_append<R: Threads + Wait + Sync + Abort>(
    rt: &R,
    alloc: Global,
    number: u64,
    kept: u64,
    text: &str,
) -> Result<(usize, MemorySink), Fail> {
    let member = MemberId::new(1).ok_or("member")?;
    let dies = Setting {
        script: HELLO,
        fails: Some(DiskFailure {
            call: DiskOp::AppendLog,
            number,
            dies: Some(kept),
        }),
    };
    let disk = plays(rt, alloc, &dies, 5, text)?;
    let length = disk.log(member).len();
    Ok((length, shows(rt, alloc, disk)?))
}

#[test]
fn a_disk_that_dies_in_an_append_keeps_a_front_of_it(rt: HostRuntime) -> Result<(), Fail> {
    let alloc = rt.alloc();
    let member = MemberId::new(1).ok_or("member")?;
    let hello = Setting {
        script: HELLO,
        fails: None,
    };
    let whole = plays(&rt, alloc, &hello, 0, HELLO_REPORT)?;
    // The second append is that of a commit alone, with 30 bytes. Behind it the closing has put a Checkpoint with 38, and a RestartEnd with 30.
    for kept in [0u64, 29, 30] {
        let (length, _) = dies_in_append(&rt, alloc, 2, kept, STOPPED_REPORT)?;
        let left = whole.log(member).len().wrapping_sub(98);
        assert!(rt; length == left.wrapping_add(kept as usize));
    }
    Ok(())
}

#[test]
fn a_commit_stands_once_its_append_is_whole(rt: HostRuntime) -> Result<(), Fail> {
    let alloc = rt.alloc();
    let (whole, sink) = dies_in_append(&rt, alloc, 1, 4096, ALL_STOPPED_REPORT)?;
    assert!(rt; sink.taken() == HELLO_ROWS.as_bytes());
    for kept in [0, 1, whole.wrapping_sub(1)] {
        let (length, sink) = dies_in_append(&rt, alloc, 1, kept as u64, ALL_STOPPED_REPORT)?;
        assert!(rt; length == kept);
        assert!(rt; sink.taken() == NO_ROWS.as_bytes());
    }
    Ok(())
}

#[test]
fn a_call_of_the_disk_that_fails_is_a_failure_of_its_member_alone(
    rt: HostRuntime,
) -> Result<(), Fail> {
    let alloc = rt.alloc();
    let broken = Setting {
        script: BROKEN,
        fails: Some(DiskFailure {
            call: DiskOp::AppendLog,
            number: 2,
            dies: None,
        }),
    };
    plays(&rt, alloc, &broken, 5, BROKEN_REPORT)?;
    Ok(())
}

/// What a report without entries tells of its rows.
fn rows_shown(report: &[u8]) -> Option<&[u8]> {
    report
        .strip_prefix(b"dsgroup 1\n".as_slice())?
        .strip_suffix(b"end 0\n".as_slice())
}

/// One call of a disk fails, which stays alive. Answers whether there is such a call.
fn fails_once<R: Threads + Wait + Sync + Abort>(
    rt: &R,
    alloc: Global,
    call: DiskOp,
    number: u64,
) -> Result<bool, Fail> {
    let failure = DiskFailure {
        call,
        number,
        dies: None,
    };
    let disk = MemoryDisk::new(alloc, failures_of(alloc, Some(failure))?)?;
    let source = source_of(alloc, FLAGS)?;
    let played = play_over_memory(rt, alloc, PLAY, source, 4000, disk)?;
    if played.status == Status::Done {
        return Ok(false);
    }
    assert!(rt; played.status == Status::DiskFailed);
    if !played.opened {
        assert!(rt; played.sink.taken() == b"disk failed\n".as_slice());
        return Ok(true);
    }
    let shown = shows(rt, alloc, played.disk)?;
    let rows = rows_shown(shown.taken()).ok_or("rows")?;
    let told = played
        .sink
        .taken()
        .strip_suffix(b"end 5\n".as_slice())
        .ok_or("an end")?;
    assert!(rt; told.ends_with(rows));
    Ok(true)
}

#[test]
fn whichever_call_of_the_disk_fails_the_rows_are_those_of_the_logs(
    rt: HostRuntime,
) -> Result<(), Fail> {
    let alloc = rt.alloc();
    let mut count = 0u32;
    for (call, number) in FAILURES {
        if fails_once(&rt, alloc, call, number)? {
            count = count.wrapping_add(1);
        }
    }
    assert!(rt; count >= 6);
    Ok(())
}

/// A script comes byte by byte, until a call of the source fails.
fn source_fails<R: Threads + Wait + Sync + Abort>(
    rt: &R,
    alloc: Global,
    number: u64,
) -> Result<(), Fail> {
    let script = Bytes::from_vec(HELLO.as_bytes().to_vec(alloc)?);
    let source = MemorySource::new(script, 1, vec![in alloc; number]?);
    let disk = MemoryDisk::new(alloc, Vec::new(alloc))?;
    let played = play_over_memory(rt, alloc, PLAY, source, 4000, disk)?;
    assert!(rt; played.status == Status::SourceFailed);
    assert!(rt; played.sink.taken() == b"source failed\n".as_slice());
    Ok(())
}

/// A sink takes so many bytes.
fn sink_fails<R: Threads + Wait + Sync + Abort>(
    rt: &R,
    alloc: Global,
    room: usize,
) -> Result<(), Fail> {
    let disk = MemoryDisk::new(alloc, Vec::new(alloc))?;
    let source = source_of(alloc, HELLO)?;
    let played = play_over_memory(rt, alloc, PLAY, source, room as u64, disk)?;
    assert!(rt; played.status == Status::SinkFailed);
    assert!(rt; played.sink.taken().len() == room);
    assert!(rt; HELLO_REPORT.as_bytes().starts_with(played.sink.taken()));
    Ok(())
}

#[test]
fn a_failure_of_source_or_sink_is_told_whenever_it_comes(rt: HostRuntime) -> Result<(), Fail> {
    let alloc = rt.alloc();
    for before in 0..HELLO.len() + 1 {
        source_fails(&rt, alloc, before as u64 + 1)?;
    }
    for room in [0, 1, HELLO_REPORT.len().wrapping_sub(1)] {
        sink_fails(&rt, alloc, room)?;
    }
    Ok(())
}

/// Two members that work on different tables.
const APART: &str =
    "phase\nmember 1\ntran a\nput 1 1 =x\nput 1 2 =x\nend\nmember 2\ntran b\nput 2 1 =y\nput 2 2 =y\nput 2 3 =y\nput 2 4 =y\nput 2 5 =y\nput 2 6 =y\nput 2 7 =y\nput 2 8 =y\nput 2 9 =y\nput 2 10 =y\nend\n";

#[test]
fn two_members_meet_in_the_gate(rt: HostRuntime) -> Result<(), Fail> {
    let alloc = rt.alloc();
    let words = words_of(
        alloc,
        "play --members 2 --agents 2 --locks 64 --records 64 --cache 16 --pool 8 --pages 8",
    )?;
    let mut source = source_of(alloc, APART)?;
    let mut sink = MemorySink::new(alloc, 4000, Vec::new(alloc))?;
    let disk = MemoryDisk::new(alloc, Vec::new(alloc))?;
    let meeting = Meeting::new();
    let finished = play(&rt, alloc, &words, &mut source, &mut sink, disk, &meeting);
    assert!(rt; finished.status == Status::Done);
    assert!(rt; meeting.is_held());
    assert!(rt; meeting.missed() == 0);
    Ok(())
}
