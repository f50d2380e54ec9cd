//! The files of the logs that have been appended to.
use crate::{files, names};
use ds_base::{MemberId, NoMemory};
use std::rt::Files;
use std::{array, io};

/// The open files, each at its member's place.
#[derive(Drop)]
pub struct Logs<F> {
    files: [Option<F>; 32],
}

impl<F: Drop> Logs<F> {
    pub fn new() -> Logs<F> {
        Logs {
            files: array::from_fn(|_| None),
        }
    }

    /// Takes a log's file out of its place, if it is open.
    fn take(&mut self, member: MemberId) -> Option<F> {
        self.files[member.number() as usize - 1].take()
    }

    /// Puts a log's file in its place, where it stays open.
    pub fn put(&mut self, member: MemberId, file: F) {
        self.files[member.number() as usize - 1] = Some(file);
    }
}

/// The file of a log to append to, out of its place or opened.
pub fn take_or_open<R: Files + Alloc>(
    logs: &mut Logs<R::File>,
    rt: &R,
    folder: &str,
    member: MemberId,
) -> Result<io::Result<R::File>, NoMemory> {
    if let Some(file) = logs.take(member) {
        return Ok(Ok(file));
    }
    let path = names::log_file(rt, folder, member)?;
    Ok(files::open_to_append(rt, path.as_path()))
}
