ghost use Rattle.std.specs.Prelude.{◌≡◌, ◌⊎◌, ◌-◌, ◌≤◌, List, All, length, take, drop, min, replicate, true, Some, IfOk};
ghost use Rattle.std.specs.FinMap as map;
ghost use Rattle.ds_base.specs.Causes.{Rose};
ghost use Rattle.ds_disk.specs.Pages.{page_at};
ghost use Rattle.ds_disk.specs.Contents.{log_of};
ghost use Rattle.ds_disk.specs.Conditions.{healthy, course};
ghost use Rattle.ds_disk.specs.Memory.{Ends, EndsOrWants, holding, is_whole, nothing, append_left, cut_left, page_left, told, told_logs, told_log_bytes, told_pages};
ghost use Rattle.ds_disk.specs.declared.disk.DiskOp.TheVariants.{ReadPage, WritePage, AppendLog, LogLength, ReadLog, CutLog};

use crate::health::Health;
use crate::log_set::LogSet;
use crate::page_map::PageMap;
use crate::{Disk, DiskError, DiskFailure, DiskOp};
use ds_base::{Bytes, MemberId, NoMemory, PageId};
use std::alloc::Global;
use std::marker::Model;

/// A disk in memory, whose calls fail where that is planned.
///
/// A call that has something to keep and no memory for it answers `NoMemory`, also where it was to fail.
#[derive(Drop)]
pub struct MemoryDisk {
    pages: PageMap,
    logs: LogSet,
    health: Health,
}

impl Model for MemoryDisk {
    ghost use Rattle.std.specs.Prelude.{◌≡◌, length, true};
    ghost use Rattle.ds_disk.specs.Conditions.{condition_code};
    ghost use Rattle.ds_disk.specs.Logs.{logs_have_bytes};
    ghost use Rattle.ds_disk.specs.Written.{have_bytes};
    ghost use Rattle.ds_disk.specs.Memory.{Memory, memory_code};
    ghost use Rattle.ds_disk.specs.contracts.disk.DiskFailure as failure;
    ghost use Rattle.ds_disk.specs.contracts.plan.Calls as calls;

    ghost Value = { Memory };

    ghost coded = { memory_code (condition_code calls.the_row.coded failure.the_row.coded) };

    ghost view = { λ d. record { contents = record { pages = d.pages; logs = d.logs }; condition = d.health } };

    ghost invariant = { λ d. (length d.logs ≡ 32) × (have_bytes d.pages ≡ true) × (logs_have_bytes d.logs ≡ true) };
}

impl MemoryDisk {
    /// A disk with no pages and empty logs.
    pub fn new(alloc: Global, failures: Vec<DiskFailure>) -> Result<MemoryDisk, NoMemory>
        ensures made { IfOk result (λ disk. disk ≡ record { contents = nothing; condition = healthy failures.items }) }
        ensures tells { IfOk result (λ disk. told disk ≡ Some nothing) }
    {
        Ok(MemoryDisk {
            pages: PageMap::new(alloc),
            logs: LogSet::new(alloc)?,
            health: Health::new(failures),
        })
    }

    /// A disk with these pages and logs. Of two with one name the later stands.
    pub fn of(
        alloc: Global,
        pages: Vec<(PageId, Bytes)>,
        logs: Vec<(MemberId, Bytes)>,
        failures: Vec<DiskFailure>,
    ) -> Result<MemoryDisk, NoMemory>
        requires { All (λ page. length page.1 ≡ 4096) pages.items }
        ensures made { IfOk result (λ disk. disk ≡ record { contents = holding pages.items logs.items; condition = healthy failures.items }) }
        ensures tells { IfOk result (λ disk. told disk ≡ Some (holding pages.items logs.items)) }
    {
        let mut disk = MemoryDisk::new(alloc, failures)?;
        disk.pages.write_all(&pages)?;
        disk.logs.put_all(alloc, &logs)?;
        Ok(disk)
    }

    /// The same contents, on a disk that answers again.
    pub fn reopen(self, failures: Vec<DiskFailure>) -> MemoryDisk
        ensures made { result ≡ record { contents = self.contents; condition = healthy failures.items } }
        ensures tells { told result ≡ Some self.contents }
    {
        let MemoryDisk {
            pages,
            logs,
            health: _,
        } = self;
        MemoryDisk {
            pages,
            logs,
            health: Health::new(failures),
        }
    }

    /// The bytes of a log, without a call of the disk.
    pub fn log(&self, member: MemberId) -> &[u8]
        ensures { result.now ≡ log_of self.now.contents.logs member }
    {
        self.logs.log(member)
    }
}

impl Disk for MemoryDisk {
    ghost contents = { told };

    ghost alive = { λ d. d.condition.alive };

    ghost faults = { λ d. d.condition.faults };

    ghost has_logs = { told_logs };

    ghost pages_are_bytes = { told_pages };

    ghost logs_are_bytes = { told_log_bytes };

    fn read_page(&mut self, id: PageId, into: &mut [u8; 4096]) -> Result<(), DiskError>
        ensures ends { Ends ReadPage self.old self.new result (λ _. into.new ≡ page_at self.old.contents.pages id) self.old.contents }
    {
        self.health.pass(DiskOp::ReadPage)?;
        self.pages.read(id, into);
        Ok(())
    }

    fn write_page(&mut self, id: PageId, from: &[u8; 4096]) -> Result<(), DiskError>
        ensures ends { EndsOrWants WritePage self.old self.new result (λ way. page_left way self.old.contents id from.now) }
        ensures whole { is_whole self.new.contents ≡ true }
    {
        let course = self.health.begin(DiskOp::WritePage);
        if course.is_done() {
            self.pages.write(id, from)?;
        }
        self.health.end(course)
    }

    fn append_log(&mut self, member: MemberId, bytes: &[u8]) -> Result<(), DiskError>
        ensures ends { EndsOrWants AppendLog self.old self.new result (λ way. append_left way self.old.contents member bytes.now) }
        ensures whole { is_whole self.new.contents ≡ true }
    {
        let course = self.health.begin(DiskOp::AppendLog);
        if course.is_done() {
            self.logs.append(member, course.kept(bytes))?;
        }
        self.health.end(course)
    }

    fn log_length(&mut self, member: MemberId) -> Result<u64, DiskError>
        ensures ends { Ends LogLength self.old self.new result (λ n. n ≡ length (log_of self.old.contents.logs member)) self.old.contents }
    {
        self.health.pass(DiskOp::LogLength)?;
        Ok(self.logs.log(member).len() as u64)
    }

    fn read_log(&mut self, member: MemberId, at: u64, into: &mut [u8]) -> Result<usize, DiskError>
        ensures ends { Ends ReadLog self.old self.new result (λ n. (n ≡ min (length into.new) (length (log_of self.old.contents.logs member) - at)) × (take n into.new ≡ take n (drop at (log_of self.old.contents.logs member)))) self.old.contents }
    {
        self.health.pass(DiskOp::ReadLog)?;
        let log = self.logs.log(member);
        let start = (at as usize).min(log.len());
        let count = (log.len() - start).min(into.len());
        into[..count].copy_from_slice(&log[start..start + count]);
        Ok(count)
    }

    fn cut_log(&mut self, member: MemberId, length: u64) -> Result<(), DiskError>
        ensures ends { Ends CutLog self.old self.new result (λ _. Unit {0}) (cut_left (course CutLog self.old.condition) self.old.contents member length) }
        ensures whole { is_whole self.new.contents ≡ true }
    {
        let course = self.health.begin(DiskOp::CutLog);
        if course.is_done() {
            self.logs.cut(member, length);
        }
        self.health.end(course)
    }
}
