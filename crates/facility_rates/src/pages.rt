//! Commands on the pages of a cache whose entries are all in use.
ghost use Rattle.std.specs.Prelude.{◌≡◌, ◌<◌, ◌≤◌, IfOk};
ghost use Rattle.cache_structure.specs.State.{directory_of};

use crate::walk::Walk;
use cache_structure::{Cache, CacheFace};
use ds_base::{MemberId, NoMemory, PageId};
use page_format::Page;
use std::alloc::Global;

/// Runs so many reads, and a write for each fourth, for members with so many frames.
pub fn run_pages(
    alloc: Global,
    entries: u32,
    frames: u16,
    walk: Walk,
    times: u32,
) -> Result<u64, NoMemory>
    requires { 1 ≤ frames }
    ensures { IfOk result (λ count. count ≡ times) }
{
    let mut cache = new_cache(alloc, entries, frames)?;
    let mut page = Page::zero(alloc)?;
    write_all(&mut cache, entries, frames, &page);
    for turn in 0..times {
        let id = page_of(walk.page_at(turn));
        let index = (turn % frames as u32) as u16;
        read(&mut cache, id, index, &mut page);
        if turn % 4 == 0 {
            write(&mut cache, id, index, &page);
        }
    }
    Ok(times as u64)
}

/// Runs so many reads of pages that have an entry without bytes, so that nothing is copied.
pub fn run_reads(
    alloc: Global,
    entries: u32,
    frames: u16,
    walk: Walk,
    times: u32,
) -> Result<u64, NoMemory>
    requires { 1 ≤ frames }
    ensures { IfOk result (λ count. count ≡ times) }
{
    let mut cache = new_cache(alloc, entries, frames)?;
    let mut page = Page::zero(alloc)?;
    let in_order = Walk {
        pages: entries,
        apart: 1,
        is_scattered: false,
    };
    read_some(&mut cache, frames, in_order, entries, &mut page);
    read_some(&mut cache, frames, walk, times, &mut page);
    Ok(times as u64)
}

/// Runs so many tests of frames that have the pages of the walk's first turns, and answers how many were valid.
pub fn run_tests(
    alloc: Global,
    entries: u32,
    frames: u16,
    walk: Walk,
    times: u32,
) -> Result<u64, NoMemory>
    requires { 1 ≤ frames }
{
    let mut cache = new_cache(alloc, entries, frames)?;
    let mut page = Page::zero(alloc)?;
    write_all(&mut cache, entries, frames, &page);
    read_some(&mut cache, frames, walk, frames as u32, &mut page);
    let mut valid = 0u64;
    for turn in 0..times {
        let index = (turn % frames as u32) as u16;
        valid = valid.wrapping_add(cache.test(member(), index) as u64);
    }
    Ok(valid)
}

fn new_cache(alloc: Global, entries: u32, frames: u16) -> Result<Cache, NoMemory>
    ensures { IfOk result (λ cache. (directory_of cache).frames ≡ frames) }
{
    Cache::new(alloc, entries, frames)
}

// Writes each page once, in the order of their numbers.
fn write_all(cache: &mut Cache, entries: u32, frames: u16, page: &Page)
    requires some { 1 ≤ frames }
    requires frames { (directory_of cache.old).frames ≡ frames }
    ensures { (directory_of cache.new).frames ≡ (directory_of cache.old).frames }
{
    for number in 0..entries {
        write(cache, page_of(number), 0, page);
    }
}

fn read_some(cache: &mut Cache, frames: u16, walk: Walk, times: u32, page: &mut Page)
    requires some { 1 ≤ frames }
    requires frames { (directory_of cache.old).frames ≡ frames }
    ensures { (directory_of cache.new).frames ≡ (directory_of cache.old).frames }
{
    for turn in 0..times {
        let index = (turn % frames as u32) as u16;
        read(cache, page_of(walk.page_at(turn)), index, page);
    }
}

#[tactic(auto, using(crate::proofs::Frames::read_frames))]
fn read(cache: &mut Cache, id: PageId, index: u16, page: &mut Page)
    requires { index < (directory_of cache.old).frames }
    ensures { (directory_of cache.new).frames ≡ (directory_of cache.old).frames }
{
    let _ = cache.read_register(member(), id, index, page);
}

#[tactic(auto, using(crate::proofs::Frames::write_frames))]
fn write(cache: &mut Cache, id: PageId, index: u16, page: &Page)
    requires { index < (directory_of cache.old).frames }
    ensures { (directory_of cache.new).frames ≡ (directory_of cache.old).frames }
{
    let _ = cache.write_register(member(), id, index, page);
}

fn member() -> MemberId {
    MemberId::new(1).unwrap()
}

fn page_of(number: u32) -> PageId {
    PageId { set: 1, number }
}
