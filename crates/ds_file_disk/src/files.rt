//! What is done with one file.
ghost use Rattle.std.specs.Prelude.{◌≤◌, length, IfOk, OnOk};
ghost use Rattle.std.specs.Io.KnownBytes.{Appends};

use std::fs::{File, OpenFile, OpenOptions};
use std::io::{ErrorKind, Read, Seek, SeekFrom, Write};
use std::path::Path;
use std::rt::Files;
use std::{fs, io};

/// A file that is missing holds nothing.
fn if_there<T>(found: io::Result<T>) -> io::Result<Option<T>> {
    match found {
        Ok(it) => Ok(Some(it)),
        Err(error) if error.kind() == ErrorKind::NotFound => Ok(None),
        Err(error) => Err(error),
    }
}

/// The length of a file. What has its name and is no file has none.
pub fn length<R: Files>(rt: &R, path: Path<'_>) -> io::Result<u64> {
    match if_there(fs::metadata(rt, path))? {
        None => Ok(0),
        Some(metadata) if metadata.is_file() => Ok(metadata.len()),
        Some(_) => Err(io::Error::from(ErrorKind::IsADirectory)),
    }
}

/// Reads the bytes from `at` on, and answers how many there are.
pub fn read_at<R: Files>(rt: &R, path: Path<'_>, at: u64, into: &mut [u8]) -> io::Result<usize>
    ensures { IfOk result (λ count. count ≤ length into.new) }
{
    let Some(mut file) = if_there(File::open(rt, path))? else {
        return Ok(0);
    };
    let length = file.metadata()?.len();
    if length <= at {
        return Ok(0);
    }
    let count = into.len().min((length - at) as usize);
    file.seek(SeekFrom::Start(at))?;
    file.read_exact(&mut into[..count])?;
    Ok(count)
}

pub fn open_to_write<R: Files>(rt: &R, path: Path<'_>) -> io::Result<R::File> {
    OpenOptions::new().write(true).create(true).open(rt, path)
}

pub fn open_to_append<R: Files>(rt: &R, path: Path<'_>) -> io::Result<R::File> {
    OpenOptions::new().append(true).create(true).open(rt, path)
}

pub fn open_to_cut<R: Files>(rt: &R, path: Path<'_>) -> io::Result<Option<R::File>> {
    if_there(OpenOptions::new().write(true).open(rt, path))
}

/// Writes bytes at a place, and waits until they are on the disk.
pub fn write_at<F: Write + Seek + OpenFile>(file: &mut F, at: u64, bytes: &[u8]) -> io::Result<()> {
    file.seek(SeekFrom::Start(at))?;
    file.write_all(bytes)?;
    file.sync_all()
}

/// Writes bytes at the end, and waits until they are on the disk.
pub fn append<F: Write + OpenFile>(file: &mut F, bytes: &[u8]) -> io::Result<()>
    ensures { OnOk result (Appends (F.contents file.old) (F.contents file.new) bytes.now) }
{
    file.write_all(bytes)?;
    file.sync_all()
}

/// Keeps the first `length` bytes, and waits until the rest is gone from the disk.
pub fn cut<F: OpenFile>(file: &F, length: u64) -> io::Result<()> {
    if length < file.metadata()?.len() {
        file.set_len(length)?;
    }
    file.sync_all()
}
