//! The logs of a disk in memory, one for each member.
ghost use Rattle.std.specs.Prelude.{◌≡◌, ◌-◌, ◌<◌, ◌^◌, [], ◌++◌, length, take, replicate, slice_set, true, vec_len, IfOk, OnOk, OnErr};
ghost use Rattle.ds_disk.specs.Contents.{log_of, put_logs};
ghost use Rattle.ds_disk.specs.Logs.{logs_have_bytes};
ghost use Rattle.ds_disk.specs.Pages.{AreBytes};

use ds_base::{Bytes, MemberId, NoMemory};
use std::alloc::Global;
use std::marker::Model;

/// The logs of the members 1 to 32, which contracts see as a list in this order.
#[derive(Drop)]
pub struct LogSet {
    logs: Vec<Bytes>,
}

impl Model for LogSet {
    ghost use Rattle.std.specs.Prelude.{◌≡◌, ℕ, List, vec_len};

    ghost Value = { List (List ℕ) };

    ghost view = { λ s. s.logs.items };

    ghost invariant = { λ s. vec_len s.logs ≡ 32 };
}

fn empty_logs(alloc: Global) -> Result<Vec<Bytes>, NoMemory>
    ensures count { IfOk result (λ logs. vec_len logs ≡ 32) }
    ensures empty { IfOk result (λ logs. logs.items ≡ replicate 32 []) }
{
    let mut logs = Vec::new(alloc);
    for _ in 0..32usize {
        logs.push(Bytes::new(alloc))?;
    }
    Ok(logs)
}

/// How many bytes these are: fewer than 2^64.
fn count(bytes: &[u8]) -> usize
    ensures count { result ≡ length bytes.now }
    ensures bytes { AreBytes bytes.now }
    ensures short { length bytes.now < 2 ^ 64 }
{
    bytes.len()
}

impl LogSet {
    pub fn new(alloc: Global) -> Result<LogSet, NoMemory>
        ensures { IfOk result (λ logs. logs ≡ replicate 32 []) }
    {
        Ok(LogSet {
            logs: empty_logs(alloc)?,
        })
    }

    pub fn log(&self, member: MemberId) -> &[u8]
        ensures bytes { result.now ≡ log_of self.now member }
        ensures count { length self.now ≡ 32 }
    {
        self.logs[member.number() as usize - 1].as_slice()
    }

    pub fn append(&mut self, member: MemberId, bytes: &[u8]) -> Result<(), NoMemory>
        ensures ok { OnOk result (self.new ≡ slice_set self.old (member - 1) (log_of self.old member ++ bytes.now)) }
        ensures err { OnErr result (self.new ≡ self.old) }
        ensures count { length self.new ≡ 32 }
        ensures logged { logs_have_bytes self.old ≡ true → logs_have_bytes self.new ≡ true }
    {
        let log = &mut self.logs[member.number() as usize - 1];
        let done = log.extend(bytes);
        count(log.as_slice());
        done
    }

    /// Keeps the first `length` bytes of a log.
    pub fn cut(&mut self, member: MemberId, length: u64)
        ensures cut { self.new ≡ slice_set self.old (member - 1) (take length (log_of self.old member)) }
        ensures count { Rattle.std.specs.Prelude.length self.new ≡ 32 }
        ensures logged { logs_have_bytes self.old ≡ true → logs_have_bytes self.new ≡ true }
    {
        self.logs[member.number() as usize - 1].truncate(length as usize);
    }

    fn put(&mut self, alloc: Global, member: MemberId, bytes: &[u8]) -> Result<(), NoMemory>
        ensures ok { OnOk result (self.new ≡ slice_set self.old (member - 1) bytes.now) }
        ensures err { OnErr result (self.new ≡ self.old) }
        ensures logged { logs_have_bytes self.old ≡ true → logs_have_bytes self.new ≡ true }
    {
        count(bytes);
        let mut log = Bytes::new(alloc);
        log.extend(bytes)?;
        self.logs[member.number() as usize - 1] = log;
        Ok(())
    }

    pub fn put_all(&mut self, alloc: Global, logs: &[(MemberId, Bytes)]) -> Result<(), NoMemory>
        ensures put { OnOk result (self.new ≡ put_logs self.old logs.now) }
        ensures count { length self.new ≡ length self.old }
        ensures logged { OnOk result (logs_have_bytes self.old ≡ true → logs_have_bytes self.new ≡ true) }
    {
        for (member, bytes) in logs {
            self.put(alloc, *member, bytes.as_slice())?;
        }
        Ok(())
    }
}
