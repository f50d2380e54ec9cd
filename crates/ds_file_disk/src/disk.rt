ghost use Rattle.std.specs.Prelude.{◌≡◌, None, true};
ghost use Rattle.ds_file_disk.specs.Untold.{never_told, no_log_told, no_page_told};

use crate::health::Health;
use crate::logs::Logs;
use crate::{files, logs, names};
use ds_base::{MemberId, PageId};
use ds_disk::{Disk, DiskError};
use std::rt::Files;

/// A disk of the files in a folder.
///
/// It is dead once a write has failed that was begun, for then no one knows how much of it was done.
#[derive(Drop)]
pub struct FileDisk<R: Files> {
    rt: R,
    folder: String,
    logs: Logs<R::File>,
    health: Health,
}

impl<R: Files + Alloc + Send + Drop> FileDisk<R> {
    /// Touches nothing. Files are opened when they are used, and a log's file stays open from its first append on.
    pub fn new(rt: R, folder: String) -> FileDisk<R>
        ensures contents { ⟦<FileDisk<R> as Disk>⟧.contents result ≡ None }
        ensures alive { ⟦<FileDisk<R> as Disk>⟧.alive result ≡ true }
        ensures faults { ⟦<FileDisk<R> as Disk>⟧.faults result ≡ 0 }
    {
        FileDisk {
            rt,
            folder,
            logs: Logs::new(),
            health: Health::new(),
        }
    }
}

impl<R: Files + Alloc> Disk for FileDisk<R> {
    ghost contents = { λ _. None };

    ghost alive = { λ d. d.health.alive };

    ghost faults = { λ d. d.health.faults };

    ghost has_logs = { λ _ c e. never_told c e };

    ghost pages_are_bytes = { λ _ c e. no_page_told c e };

    ghost logs_are_bytes = { λ _ c e. no_log_told c e };

    fn read_page(&mut self, id: PageId, into: &mut [u8; 4096]) -> Result<(), DiskError> {
        self.health.check()?;
        let path = names::page_file(&self.rt, self.folder.as_str(), id.set)?;
        let read = files::read_at(&self.rt, path.as_path(), u64::from(id.number) * 4096, into);
        let count = self.health.looked(read)?;
        into[count..].fill(0);
        Ok(())
    }

    fn write_page(&mut self, id: PageId, from: &[u8; 4096]) -> Result<(), DiskError> {
        self.health.check()?;
        let path = names::page_file(&self.rt, self.folder.as_str(), id.set)?;
        let opened = files::open_to_write(&self.rt, path.as_path());
        let mut file = self.health.looked(opened)?;
        self.health.written(files::write_at(&mut file, u64::from(id.number) * 4096, from))
    }

    fn append_log(&mut self, member: MemberId, bytes: &[u8]) -> Result<(), DiskError> {
        self.health.check()?;
        let opened = logs::take_or_open(&mut self.logs, &self.rt, self.folder.as_str(), member)?;
        let mut file = self.health.looked(opened)?;
        let appended = files::append(&mut file, bytes);
        self.logs.put(member, file);
        self.health.written(appended)
    }

    fn log_length(&mut self, member: MemberId) -> Result<u64, DiskError> {
        self.health.check()?;
        let path = names::log_file(&self.rt, self.folder.as_str(), member)?;
        let length = files::length(&self.rt, path.as_path());
        self.health.looked(length)
    }

    fn read_log(&mut self, member: MemberId, at: u64, into: &mut [u8]) -> Result<usize, DiskError> {
        self.health.check()?;
        let path = names::log_file(&self.rt, self.folder.as_str(), member)?;
        let read = files::read_at(&self.rt, path.as_path(), at, into);
        self.health.looked(read)
    }

    fn cut_log(&mut self, member: MemberId, length: u64) -> Result<(), DiskError> {
        self.health.check()?;
        let path = names::log_file(&self.rt, self.folder.as_str(), member)?;
        let opened = files::open_to_cut(&self.rt, path.as_path());
        match self.health.looked(opened)? {
            Some(file) => self.health.written(files::cut(&file, length)),
            None => Ok(()),
        }
    }
}
