ghost use Rattle.std.specs.Prelude.{◌≡◌, [], slice_get, length, ◌==◌, OnOk, OnErr};
ghost use Rattle.restart_records.specs.Queue.{turn_of, from_end, ranked_key, key_by_name, put_in, taken_out};

use ds_base::{NoMemory, PageId};
use std::alloc::Global;
use std::collections::BTreeSet;
use std::marker::Model;
use write_order::{Rank, rank_by_name};

/// Where a retained page stands among all: those whose rank isn't known stand first, the others in the order in which
/// pages are written.
#[derive(Clone, Copy, Debug, PartialEq, Eq, PartialOrd, Ord)]
pub struct TurnKey {
    /// 0 where the rank isn't known; else the turn of its kind, from 1.
    pub turn: u8,
    /// How far its low key is from the last key: the greater low key comes first.
    pub from_end: u64,
    pub page: PageId,
}

fn turn_of(rank: &Rank) -> u8
    ensures { result ≡ turn_of rank.now }
{
    match rank {
        Rank::HeapPage => 1,
        Rank::HeapHeader => 2,
        Rank::Leaf(_) => 3,
        Rank::Branch(_) => 4,
        Rank::IndexHeader => 5,
    }
}

fn from_end(rank: &Rank) -> u64
    ensures { result ≡ from_end rank.now }
{
    match rank {
        Rank::Leaf(low) | Rank::Branch(low) => u64::MAX - *low,
        Rank::HeapPage | Rank::HeapHeader | Rank::IndexHeader => 0,
    }
}

impl TurnKey {
    pub fn of(page: PageId, rank: &Rank) -> TurnKey
        ensures { result ≡ ranked_key page rank.now }
    {
        TurnKey {
            turn: turn_of(rank),
            from_end: from_end(rank),
            page,
        }
    }

    /// Where the page stands by its name alone.
    pub fn by_name(page: PageId) -> TurnKey
        ensures { result ≡ key_by_name page }
    {
        match rank_by_name(page) {
            Some(rank) => TurnKey::of(page, &rank),
            None => TurnKey {
                turn: 0,
                from_end: 0,
                page,
            },
        }
    }
}

/// The retained pages that are known, in their order.
#[derive(Drop)]
pub struct Queue {
    keys: BTreeSet<TurnKey>,
}

impl Model for Queue {
    ghost use Rattle.std.specs.Prelude.{List};
    ghost use Rattle.restart_records.specs.declared.queue.TurnKey.{TurnKey};

    ghost Value = { List TurnKey };

    ghost view = { λ q. q.keys.keys };
}

impl Queue {
    pub fn new(alloc: Global) -> Queue
        ensures { result ≡ [] }
    {
        Queue {
            keys: BTreeSet::new(alloc),
        }
    }

    pub fn is_empty(&self) -> bool
        ensures { result ≡ (length self.now == 0) }
    {
        self.keys.len() == 0
    }

    pub fn first(&self) -> Option<TurnKey>
        ensures { result ≡ slice_get self.now 0 }
    {
        self.keys.first().copied()
    }

    pub fn put(&mut self, key: TurnKey) -> Result<(), NoMemory>
        ensures ok { OnOk result (self.new ≡ put_in self.old key) }
        ensures err { OnErr result (self.new ≡ self.old) }
    {
        self.keys.insert(key)?;
        Ok(())
    }

    pub fn remove(&mut self, key: TurnKey)
        ensures { self.new ≡ taken_out self.old key }
    {
        self.keys.remove(&key);
    }
}
