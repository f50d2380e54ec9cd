//! The changed frames, in the order in which they are written. The list never holds a frame twice.
ghost use Rattle.std.specs.Prelude.{◌≡◌, ◌≢◌, ℕ, ◌+◌, ◌<◌, ◌≤◌, None, Some, IfOk, [], true, false, nat_lt, length, vec_len, vec_capacity};
ghost use Rattle.std.specs.List.Sorted.{IsPartitionPoint};
ghost use Rattle.write_order.specs.declared.key.WriteKey.{WriteKey};
ghost use Rattle.member_pool.specs.Marks.{first_of as first_in};
ghost use Rattle.member_pool.specs.Listed.{entry_in, with_entry, precedes, table_in, IsListed};

use crate::Frame;
use ds_base::NoMemory;
use std::alloc::Global;
use write_order::{WriteKey, orders_pages};

/// An empty list with room for so many frames.
pub fn new_list(alloc: Global, frames: u16) -> Result<Vec<u16>, NoMemory>
    ensures empty { IfOk result (λ listed. listed.items ≡ []) }
    ensures room { IfOk result (λ listed. vec_capacity listed ≡ frames) }
{
    Ok(Vec::with_capacity(alloc, frames as usize)?)
}

/// Enters a frame with the place of its page, which no listed frame holds.
pub fn list(listed: &mut Vec<u16>, frames: &[Frame], frame: u16, key: WriteKey)
    requires room { vec_len listed.old < vec_capacity listed.old }
    requires listed { IsListed (entry_in frames.now) listed.old.items }
    requires unlisted { entry_in frames.now frame ≡ None }
    requires apart { (g : ℕ) (other : WriteKey) → entry_in frames.now g ≡ Some other → other.page ≢ key.page }
    ensures listed { IsListed (with_entry (entry_in frames.now) frame (Some key)) listed.new.items }
    ensures len { vec_len listed.new ≡ vec_len listed.old + 1 }
    ensures capacity { vec_capacity listed.old ≤ vec_capacity listed.new }
{
    orders_pages();
    let at = count_before(listed.as_slice(), frames, &key);
    let Ok(_) = listed.insert(at, frame) else {
        unreachable!()
    };
}

/// Takes out a frame, whose page has this place.
pub fn unlist(listed: &mut Vec<u16>, frames: &[Frame], frame: u16, key: WriteKey)
    requires listed { IsListed (entry_in frames.now) listed.old.items }
    requires entered { entry_in frames.now frame ≡ Some key }
    ensures listed { IsListed (with_entry (entry_in frames.now) frame None) listed.new.items }
    ensures len { vec_len listed.new + 1 ≡ vec_len listed.old }
    ensures capacity { vec_capacity listed.new ≡ vec_capacity listed.old }
{
    orders_pages();
    let at = count_before(listed.as_slice(), frames, &key);
    listed.remove(at);
}

/// The first listed frame of a table.
pub fn first_of(listed: &[u16], frames: &[Frame], table: u64) -> Option<u16>
    requires { IsListed (entry_in frames.now) listed.now }
    ensures { result ≡ first_in frames.now table }
{
    orders_pages();
    let at = count_below(listed, frames, table);
    if listed.len() <= at {
        return None;
    }
    let frame = listed[at];
    if table_at(frames, frame) == table {
        Some(frame)
    } else {
        None
    }
}

// How many listed pages are written before the key.
fn count_before(listed: &[u16], frames: &[Frame], key: &WriteKey) -> usize
    requires { IsListed (entry_in frames.now) listed.now }
    ensures bound { result ≤ length listed.now }
    ensures point { IsPartitionPoint (λ f. precedes (entry_in frames.now f) key.now ≡ true) (λ f. precedes (entry_in frames.now f) key.now ≡ false) listed.now result }
{
    orders_pages();
    listed.partition_point(|&frame| is_before_at(frames, frame, key))
}

// How many listed pages are of tables below this one.
fn count_below(listed: &[u16], frames: &[Frame], table: u64) -> usize
    requires { IsListed (entry_in frames.now) listed.now }
    ensures bound { result ≤ length listed.now }
    ensures point { IsPartitionPoint (λ f. nat_lt (table_in (entry_in frames.now f)) table ≡ true) (λ f. nat_lt (table_in (entry_in frames.now f)) table ≡ false) listed.now result }
{
    listed.partition_point(|&frame| table_at(frames, frame) < table)
}

fn is_before_at(frames: &[Frame], frame: u16, key: &WriteKey) -> bool
    ensures { result ≡ precedes (entry_in frames.now frame) key.now }
{
    match entry_at(frames, frame) {
        Some(other) => other.is_before(key),
        None => false,
    }
}

// The table of a changed page, and 0 where the frame isn't changed.
fn table_at(frames: &[Frame], frame: u16) -> u64
    ensures { result ≡ table_in (entry_in frames.now frame) }
{
    match entry_at(frames, frame) {
        Some(key) => key.table(),
        None => 0,
    }
}

fn entry_at(frames: &[Frame], frame: u16) -> Option<WriteKey>
    ensures { result ≡ entry_in frames.now frame }
{
    frames.get(frame as usize)?.entry()
}
