ghost use Rattle.std.specs.Prelude.{◌≡◌, OnOk, OnErr, slice_index_or};
ghost use Rattle.ds_model.specs.declared.lock.Name.TheVariants.{Row};
ghost use Rattle.restart_records.specs.Names.{no_mark, no_names, is_loose, is_missing, one_more, moved_count, mark_of, with_mark, marked, needed_more, needed_less, retained_now, purged_now, change_needed, record_needed, all_needed, tran_needed, trans_needed, change_freed, record_freed, all_freed, tran_freed};

use crate::map::RowMap;
use ds_base::{Key, NoMemory, TableId};
use ds_model::{Body, LogRecord};
use lock_names::Name;
use log_trans::OpenTran;
use std::alloc::Global;
use std::marker::Model;

/// What is known of the name of a table space or row.
#[derive(Clone, Copy, Debug, PartialEq, Eq)]
pub struct NameMark {
    /// Whether the member's lock on it is known as retained.
    pub retained: bool,
    /// How many row changes of open transactions need it.
    pub needed: u64,
}

/// How many numbers there are for tables: 0 stands for none.
const TABLES: usize = 65;

/// The names of table spaces and rows.
#[derive(Drop)]
pub struct Names {
    spaces: [NameMark; TABLES],
    rows: RowMap,
    loose: u64,
    missing: u64,
}

impl Model for Names {
    ghost use Rattle.restart_records.specs.Names.{NameState};

    ghost Value = { NameState };

    ghost view = { λ n. record { spaces = n.spaces; rows = n.rows; loose = n.loose; missing = n.missing } };
}

fn no_mark() -> NameMark
    ensures { result ≡ no_mark }
{
    NameMark {
        retained: false,
        needed: 0,
    }
}

fn one_more(n: u64) -> u64
    ensures { result ≡ one_more n }
{
    n.saturating_add(1)
}

fn is_loose(mark: &NameMark) -> bool
    ensures { result ≡ is_loose mark.now }
{
    mark.retained && mark.needed == 0
}

fn is_missing(mark: &NameMark) -> bool
    ensures { result ≡ is_missing mark.now }
{
    !mark.retained && mark.needed != 0
}

// A count, where what is counted was so, and is so now.
fn moved_count(count: u64, was: bool, is: bool) -> u64
    ensures { result ≡ moved_count count was is }
{
    if was == is {
        count
    } else if is {
        one_more(count)
    } else {
        count.saturating_sub(1)
    }
}

impl Names {
    pub fn new(alloc: Global) -> Names
        ensures { result ≡ no_names }
    {
        Names {
            spaces: [no_mark(); TABLES],
            rows: RowMap::new(alloc),
            loose: 0,
            missing: 0,
        }
    }

    fn space(&self, table: TableId) -> NameMark
        ensures { result ≡ slice_index_or self.now.spaces table no_mark }
    {
        match self.spaces.get(table.number() as usize) {
            Some(mark) => *mark,
            None => no_mark(),
        }
    }

    fn row(&self, table: TableId, key: Key) -> NameMark
        ensures { result ≡ mark_of self.now (Row table key) }
    {
        match self.rows.get(table, key) {
            Some(mark) => mark,
            None => no_mark(),
        }
    }

    /// What is known of the name.
    pub fn mark(&self, name: &Name) -> NameMark
        ensures { result ≡ mark_of self.now name.now }
    {
        match *name {
            Name::Space(table) => self.space(table),
            Name::Row(table, key) => self.row(table, key),
            Name::Page(_) | Name::Set(_) => no_mark(),
        }
    }

    /// How many names are retained that no open transaction needs.
    pub fn loose(&self) -> u64
        ensures { result ≡ self.now.loose }
    {
        self.loose
    }

    /// How many names are needed by open transactions and aren't retained.
    pub fn missing(&self) -> u64
        ensures { result ≡ self.now.missing }
    {
        self.missing
    }

    fn set(&mut self, name: &Name, mark: NameMark) -> Result<(), NoMemory>
        ensures ok { OnOk result (self.new ≡ with_mark self.old name.now mark) }
        ensures err { OnErr result (self.new ≡ self.old) }
        ensures absent { OnErr result (mark_of self.old name.now ≡ no_mark) }
    {
        match *name {
            Name::Space(table) => {
                self.spaces[table.number() as usize] = mark;
                Ok(())
            }
            Name::Row(table, key) => self.rows.put(table, key, mark),
            Name::Page(_) | Name::Set(_) => Ok(()),
        }
    }

    // What is known of the name is this now. A name of which something is known takes no memory.
    fn put(&mut self, name: &Name, mark: NameMark) -> Result<(), NoMemory>
        ensures ok { OnOk result (self.new ≡ marked self.old name.now mark) }
        ensures err { OnErr result (self.new ≡ self.old) }
        ensures absent { OnErr result (mark_of self.old name.now ≡ no_mark) }
    {
        let was = self.mark(name);
        self.set(name, mark)?;
        self.loose = moved_count(self.loose, is_loose(&was), is_loose(&mark));
        self.missing = moved_count(self.missing, is_missing(&was), is_missing(&mark));
        Ok(())
    }

    /// One more row change of an open transaction needs the name.
    pub fn need(&mut self, name: &Name) -> Result<(), NoMemory>
        ensures ok { OnOk result (self.new ≡ needed_more self.old name.now) }
        ensures err { OnErr result (self.new ≡ self.old) }
    {
        let was = self.mark(name);
        let mark = NameMark {
            retained: was.retained,
            needed: one_more(was.needed),
        };
        self.put(name, mark)
    }

    /// One row change less needs it.
    pub fn need_less(&mut self, name: &Name)
        ensures { self.new ≡ needed_less self.old name.now }
    {
        let was = self.mark(name);
        if was.needed == 0 {
            return;
        }
        let mark = NameMark {
            retained: was.retained,
            needed: was.needed - 1,
        };
        let Ok(()) = self.put(name, mark) else {
            unreachable!()
        };
    }

    /// The member's lock on it is known as retained.
    pub fn retain(&mut self, name: &Name) -> Result<(), NoMemory>
        ensures ok { OnOk result (self.new ≡ retained_now self.old name.now) }
        ensures err { OnErr result (self.new ≡ self.old) }
    {
        let was = self.mark(name);
        let mark = NameMark {
            retained: true,
            needed: was.needed,
        };
        self.put(name, mark)
    }

    /// Its retained lock is gone.
    pub fn purge(&mut self, name: &Name)
        ensures { self.new ≡ purged_now self.old name.now }
    {
        let was = self.mark(name);
        if !was.retained {
            return;
        }
        let mark = NameMark {
            retained: false,
            needed: was.needed,
        };
        let Ok(()) = self.put(name, mark) else {
            unreachable!()
        };
    }

    fn need_change(&mut self, table: TableId, key: Key) -> Result<(), NoMemory>
        ensures { OnOk result (self.new ≡ change_needed self.old table key) }
    {
        self.need(&Name::Space(table))?;
        self.need(&Name::Row(table, key))
    }

    fn need_record(&mut self, it: &LogRecord) -> Result<(), NoMemory>
        ensures { OnOk result (self.new ≡ record_needed self.old it.now.body) }
    {
        match &it.body {
            Body::RowChange { change } => self.need_change(change.table, change.key),
            _ => Ok(()),
        }
    }

    // The row changes of these records need the names of their rows and table spaces.
    fn need_all(&mut self, records: &[LogRecord]) -> Result<(), NoMemory>
        ensures { OnOk result (self.new ≡ all_needed self.old records.now) }
    {
        for it in records {
            self.need_record(it)?;
        }
        Ok(())
    }

    fn need_tran(&mut self, it: &OpenTran) -> Result<(), NoMemory>
        ensures { OnOk result (self.new ≡ tran_needed self.old it.now) }
    {
        self.need_all(it.undo.as_slice())?;
        self.need_all(it.undone.as_slice())
    }

    /// The row changes of these transactions need the names of their rows and table spaces.
    pub fn need_trans(&mut self, opened: &[OpenTran]) -> Result<(), NoMemory>
        ensures { OnOk result (self.new ≡ trans_needed self.old opened.now) }
    {
        for it in opened {
            self.need_tran(it)?;
        }
        Ok(())
    }

    fn free_change(&mut self, table: TableId, key: Key)
        ensures { self.new ≡ change_freed self.old table key }
    {
        self.need_less(&Name::Space(table));
        self.need_less(&Name::Row(table, key));
    }

    fn free_record(&mut self, it: &LogRecord)
        ensures { self.new ≡ record_freed self.old it.now.body }
    {
        if let Body::RowChange { change } = &it.body {
            self.free_change(change.table, change.key);
        }
    }

    // They need them no more.
    fn free_all(&mut self, records: &[LogRecord])
        ensures { self.new ≡ all_freed self.old records.now }
    {
        for it in records {
            self.free_record(it);
        }
    }

    /// Those of this transaction need them no more.
    pub fn free_tran(&mut self, it: &OpenTran)
        ensures { self.new ≡ tran_freed self.old it.now }
    {
        self.free_all(it.undo.as_slice());
        self.free_all(it.undone.as_slice());
    }
}
