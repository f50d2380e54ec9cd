ghost use Rattle.std.specs.Prelude.{◌≡◌, IfOk, OnOk, option_copied, None, Some};
ghost use Rattle.restart_records.specs.Maps.{places_at};
ghost use Rattle.restart_records.specs.Own.{IsNewLog, KnowsTo, next_in, own_with, own_read, all_put, places_by_page};

use crate::map::PlaceMap;
use checkpoint_reader::{CheckpointReader, LogCall};
use ds_base::{MemberId, NoMemory, PageId, Sequence};
use ds_model::{LogRecord, RecordList};
use log_record::Log;
use page_records::{PageRecords, by_page};
use std::alloc::Global;
use std::marker::Model;

/// The log of the member itself: a reader until it is read, and then its records.
#[derive(Drop)]
pub struct OwnLog {
    reader: Option<CheckpointReader>,
    is_read: bool,
    records: RecordList,
    places: PlaceMap,
    long: u64,
    tail: u64,
}

impl Model for OwnLog {
    ghost use Rattle.restart_records.specs.Maps.{places_at};
    ghost use Rattle.restart_records.specs.Own.{OwnState};

    ghost Value = { OwnState };

    ghost view = { λ o. record { reader = o.reader; is_read = o.is_read; records = o.records; places = o.places; long = o.long; tail = o.tail } };
}

#[tactic(auto, using(crate::proofs::Adding::put_last))]
fn put_all(places: &mut PlaceMap, pages: Sequence<PageRecords>) -> Result<(), NoMemory>
    ensures { OnOk result (places.new ≡ all_put places.old pages) }
{
    for it in pages.into_vec() {
        let PageRecords { page, places: own } = it;
        places.put(page, own)?;
    }
    Ok(())
}

/// Where among the records those stand that change each page.
pub fn places_of(alloc: Global, records: &[LogRecord]) -> Result<PlaceMap, NoMemory>
    ensures { IfOk result (λ places. places ≡ places_by_page records.now) }
{
    let mut places = PlaceMap::new(alloc);
    put_all(&mut places, by_page(alloc, records)?)?;
    Ok(places)
}

impl OwnLog {
    /// Nothing of it is read yet, and up to this byte it is known to be whole records.
    pub fn new(alloc: Global, member: MemberId, known: u64) -> Result<OwnLog, NoMemory>
        ensures fresh { IfOk result (IsNewLog member) }
        ensures known { IfOk result (λ own. KnowsTo known own.reader) }
    {
        Ok(OwnLog {
            reader: Some(CheckpointReader::new(alloc, member, known)?),
            is_read: false,
            records: RecordList::new(alloc),
            places: PlaceMap::new(alloc),
            long: 0,
            tail: 0,
        })
    }

    /// Whether it is read whole.
    pub fn is_read(&self) -> bool
        ensures { result ≡ self.now.is_read }
    {
        self.is_read
    }

    /// What is asked of it next, while it isn't read whole.
    pub fn next(&self) -> Option<LogCall>
        ensures { result ≡ next_in self.now.reader }
    {
        match &self.reader {
            Some(reader) => Some(reader.next()),
            None => None,
        }
    }

    /// How many bytes its whole records have.
    pub fn length(&self) -> u64
        ensures { result ≡ self.now.long }
    {
        self.long
    }

    /// How many bytes follow them.
    pub fn tail(&self) -> u64
        ensures { result ≡ self.now.tail }
    {
        self.tail
    }

    pub fn records(&self) -> &[LogRecord]
        ensures { result.now ≡ self.now.records }
    {
        self.records.as_slice()
    }

    /// Where among the records those stand that change the page.
    pub fn places(&self, page: PageId) -> Option<&Sequence<usize>>
        ensures { option_copied result ≡ places_at self.now.places page }
    {
        self.places.get(page)
    }

    /// Takes the reader out, to be put back.
    pub fn take_reader(&mut self) -> Option<CheckpointReader>
        ensures told { result ≡ self.old.reader }
        ensures after { self.new ≡ own_with self.old None }
    {
        self.reader.take()
    }

    pub fn put_reader(&mut self, reader: CheckpointReader)
        ensures { self.new ≡ own_with self.old (Some reader) }
    {
        self.reader = Some(reader);
    }

    /// What follows the whole records is cut.
    pub fn cut(&mut self)
        ensures { self.new ≡ record self.old { tail = 0 } }
    {
        self.tail = 0;
    }

    /// It is read whole.
    pub fn finish(&mut self, log: Log, places: PlaceMap)
        ensures { self.new ≡ own_read log places }
    {
        let Log {
            records,
            length,
            tail,
            ..
        } = log;
        self.reader = None;
        self.is_read = true;
        self.records = records;
        self.places = places;
        self.long = length;
        self.tail = tail;
    }
}
