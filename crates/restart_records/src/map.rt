ghost use Rattle.std.specs.Prelude.{◌≡◌, [], None, OnOk, OnErr, option_copied};
ghost use Rattle.restart_records.specs.Maps.{places_at, with_places, place_at, with_place, row_at, with_row};

use crate::names::NameMark;
use ds_base::{Key, Lrsn, NoMemory, PageId, Sequence, TableId};
use std::alloc::Global;
use std::collections::BTreeMap;
use std::marker::Model;

/// The places of a log's records by the pages that they change.
#[derive(Drop)]
pub struct PlaceMap {
    pages: BTreeMap<PageId, Sequence<usize>>,
}

impl Model for PlaceMap {
    ghost use Rattle.restart_records.specs.Maps.{PagePlaces};

    ghost Value = { PagePlaces };

    ghost view = { λ m. m.pages.entries };
}

impl PlaceMap {
    pub fn new(alloc: Global) -> PlaceMap
        ensures { result ≡ [] }
    {
        PlaceMap {
            pages: BTreeMap::new(alloc),
        }
    }

    pub fn get(&self, page: PageId) -> Option<&Sequence<usize>>
        ensures { option_copied result ≡ places_at self.now page }
    {
        self.pages.get(&page)
    }

    pub fn put(&mut self, page: PageId, places: Sequence<usize>) -> Result<(), NoMemory>
        ensures { OnOk result (self.new ≡ with_places self.old page places) }
    {
        self.pages.insert(page, places)?;
        Ok(())
    }
}

/// Places in a list by numbers of transactions.
#[derive(Drop)]
pub struct NumberMap {
    numbers: BTreeMap<Lrsn, usize>,
}

impl Model for NumberMap {
    ghost use Rattle.restart_records.specs.Maps.{NumberPlaces};

    ghost Value = { NumberPlaces };

    ghost view = { λ m. m.numbers.entries };
}

impl NumberMap {
    pub fn new(alloc: Global) -> NumberMap
        ensures { result ≡ [] }
    {
        NumberMap {
            numbers: BTreeMap::new(alloc),
        }
    }

    pub fn get(&self, number: Lrsn) -> Option<usize>
        ensures { result ≡ place_at self.now number }
    {
        self.numbers.get(&number).copied()
    }

    pub fn put(&mut self, number: Lrsn, place: usize) -> Result<(), NoMemory>
        ensures { OnOk result (self.new ≡ with_place self.old number place) }
    {
        self.numbers.insert(number, place)?;
        Ok(())
    }
}

/// What is known of rows, by table and key.
#[derive(Drop)]
pub struct RowMap {
    rows: BTreeMap<(TableId, Key), NameMark>,
}

impl Model for RowMap {
    ghost use Rattle.restart_records.specs.Maps.{RowMarks};

    ghost Value = { RowMarks };

    ghost view = { λ m. m.rows.entries };
}

impl RowMap {
    pub fn new(alloc: Global) -> RowMap
        ensures { result ≡ [] }
    {
        RowMap {
            rows: BTreeMap::new(alloc),
        }
    }

    pub fn get(&self, table: TableId, key: Key) -> Option<NameMark>
        ensures { result ≡ row_at self.now (table, key) }
    {
        self.rows.get(&(table, key)).copied()
    }

    /// Sets the mark of a row. A row that has one takes no memory.
    pub fn put(&mut self, table: TableId, key: Key, mark: NameMark) -> Result<(), NoMemory>
        ensures ok { OnOk result (self.new ≡ with_row self.old (table, key) mark) }
        ensures err { OnErr result (self.new ≡ self.old) }
        ensures absent { OnErr result (row_at self.old (table, key) ≡ None) }
    {
        self.rows.insert((table, key), mark)?;
        Ok(())
    }
}
