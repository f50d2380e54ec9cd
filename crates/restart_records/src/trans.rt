ghost use Rattle.std.specs.Prelude.{◌≡◌, IfOk, OnOk, is_some, option_copied};
ghost use Rattle.restart_records.specs.Trans.{no_trans, tran_in, is_open, is_at_row, newest_in, newest_of, newest, is_undone, is_last, page_of, added, all_added, open_of, opened_among, taken_back, ended_at, after_back, after_end, over_at, after_finish, ending_in};

use crate::map::NumberMap;
use ds_base::{Lrsn, NoMemory, PageId, Sequence};
use ds_model::{Body, LogRecord, RowChange};
use log_trans::OpenTran;
use std::alloc::Global;
use std::marker::Model;
use std::mem;

/// How far a transaction that the own log leaves open is.
#[derive(Clone, Copy, Debug, PartialEq, Eq)]
pub enum RestartStage {
    /// Its changes are taken back.
    Open,
    /// Its Ended record waits in the log buffer.
    Ended,
    /// Its Ended record stands in the log.
    Over,
}

/// A transaction that the own log leaves open.
#[derive(Debug, Drop)]
pub struct RestartTran {
    pub tran: OpenTran,
    /// How many of its row changes still stand: the first ones.
    pub stands: usize,
    pub stage: RestartStage,
}

/// The newest row change of a transaction that stands, by the number of its record.
#[derive(Clone, Copy, Debug)]
pub struct Newest {
    pub lrsn: Lrsn,
    pub change: RowChange,
}

/// The slots of a heap page are below this.
const SLOTS: u16 = 31;

/// The transactions that the own log leaves open.
#[derive(Drop)]
pub struct RestartTrans {
    places: NumberMap,
    list: Vec<RestartTran>,
    /// How many aren't over.
    left: usize,
    /// The place of the one whose Ended record waits.
    ending: Option<usize>,
}

impl Model for RestartTrans {
    ghost use Rattle.restart_records.specs.Trans.{TransState};

    ghost Value = { TransState };

    ghost view = { λ t. record { places = t.places; list = t.list.items; left = t.left; ending = t.ending } };
}

// Whether the place of the change can be that of a row.
fn is_at_row(change: &RowChange) -> bool
    ensures { result ≡ is_at_row change.now }
{
    change.place.page != 0 && change.place.slot < SLOTS
}

fn newest_in(it: &LogRecord) -> Option<Newest>
    ensures { result ≡ newest_in it.now.lrsn it.now.body }
{
    match &it.body {
        Body::RowChange { change } if is_at_row(change) => Some(Newest {
            lrsn: it.lrsn,
            change: *change,
        }),
        _ => None,
    }
}

/// The heap page of a row change.
pub fn page_of(change: &RowChange) -> PageId
    ensures { result ≡ page_of change.now }
{
    change.table.heap_page(change.place.page)
}

impl RestartTran {
    /// Whether its changes are still to be taken back.
    pub fn is_open(&self) -> bool
        ensures { result ≡ is_open self.now }
    {
        matches!(self.stage, RestartStage::Open)
    }

    fn newest(&self) -> Option<Newest>
        ensures { result ≡ newest_of self.now }
    {
        if !self.is_open() || self.stands == 0 {
            return None;
        }
        match self.tran.undo.as_slice().get(self.stands - 1) {
            Some(it) => newest_in(it),
            None => None,
        }
    }
}

// The transaction as it stands now: the changes that were taken back stand behind those that were before.
fn open_of(tran: RestartTran) -> Result<OpenTran, NoMemory>
    ensures { IfOk result (λ o. o ≡ open_of tran) }
{
    let RestartTran { tran, stands, .. } = tran;
    let OpenTran { id, undo, undone } = tran;
    let mut undo = undo.into_vec();
    let mut undone = undone.into_vec();
    let kept = stands.min(undo.len());
    let mut back = undo.split_off(kept)?;
    undone.append(&mut back)?;
    Ok(OpenTran {
        id,
        undo: Sequence::from_vec(undo),
        undone: Sequence::from_vec(undone),
    })
}

fn opened_among(alloc: Global, list: Sequence<RestartTran>) -> Result<Sequence<OpenTran>, NoMemory>
    ensures { IfOk result (λ trans. trans ≡ opened_among list) }
{
    let mut opened = Sequence::new(alloc);
    for tran in list.into_vec() {
        if tran.is_open() {
            opened.push(open_of(tran)?)?;
        }
    }
    Ok(opened)
}

impl RestartTrans {
    pub fn new(alloc: Global) -> RestartTrans
        ensures { result ≡ no_trans }
    {
        RestartTrans {
            places: NumberMap::new(alloc),
            list: Vec::new(alloc),
            left: 0,
            ending: None,
        }
    }

    fn add(&mut self, tran: OpenTran) -> Result<(), NoMemory>
        ensures { OnOk result (self.new ≡ added self.old tran) }
    {
        let stands = tran.undo.len();
        self.places.put(tran.id, self.list.len())?;
        self.list.push(RestartTran {
            tran,
            stands,
            stage: RestartStage::Open,
        })?;
        self.left = self.left.saturating_add(1);
        Ok(())
    }

    /// These transactions are open.
    #[tactic(auto, using(crate::proofs::Adding::added_last))]
    pub fn add_all(&mut self, opened: Sequence<OpenTran>) -> Result<(), NoMemory>
        ensures { OnOk result (self.new ≡ all_added self.old opened) }
    {
        for tran in opened.into_vec() {
            self.add(tran)?;
        }
        Ok(())
    }

    /// The transactions, in the order of their numbers.
    pub fn list(&self) -> &[RestartTran]
        ensures { result.now ≡ self.now.list }
    {
        &self.list
    }

    // Takes all out.
    fn take_all(&mut self, alloc: Global) -> Sequence<RestartTran>
        ensures told { result ≡ self.old.list }
        ensures after { self.new ≡ no_trans }
    {
        let list = mem::replace(&mut self.list, Vec::new(alloc));
        self.places = NumberMap::new(alloc);
        self.left = 0;
        self.ending = None;
        Sequence::from_vec(list)
    }

    /// Takes all out, and answers those that are open, as they stand now.
    pub fn take_open(&mut self, alloc: Global) -> Result<Sequence<OpenTran>, NoMemory>
        ensures told { IfOk result (λ trans. trans ≡ opened_among self.old.list) }
        ensures after { self.new ≡ no_trans }
    {
        let list = self.take_all(alloc);
        opened_among(alloc, list)
    }

    /// How many of them aren't over.
    pub fn left(&self) -> usize
        ensures { result ≡ self.now.left }
    {
        self.left
    }

    /// Whether the Ended record of one waits in the log buffer.
    pub fn is_ending(&self) -> bool
        ensures { result ≡ is_some self.now.ending }
    {
        self.ending.is_some()
    }

    pub fn get(&self, id: Lrsn) -> Option<&RestartTran>
        ensures { option_copied result ≡ tran_in self.now id }
    {
        match self.places.get(id) {
            Some(at) => self.list.get(at),
            None => None,
        }
    }

    /// Its newest row change that stands, where it is open.
    pub fn newest(&self, id: Lrsn) -> Option<Newest>
        ensures { result ≡ newest self.now id }
    {
        match self.get(id) {
            Some(tran) => tran.newest(),
            None => None,
        }
    }

    /// Whether it is open and none of its row changes stands.
    pub fn is_undone(&self, id: Lrsn) -> bool
        ensures { result ≡ is_undone self.now id }
    {
        match self.get(id) {
            Some(tran) => tran.is_open() && tran.stands == 0,
            None => false,
        }
    }

    /// Whether only one of its row changes stands.
    pub fn is_last(&self, id: Lrsn) -> bool
        ensures { result ≡ is_last self.now id }
    {
        match self.get(id) {
            Some(tran) => tran.stands == 1,
            None => false,
        }
    }
}

impl RestartTrans {
    fn take_back_at(&mut self, at: usize)
        ensures { self.new ≡ taken_back self.old at }
    {
        if at < self.list.len() {
            self.list[at].stands = self.list[at].stands.saturating_sub(1);
        }
    }

    /// Its newest row change that stands is taken back.
    pub fn take_back(&mut self, id: Lrsn)
        ensures { self.new ≡ after_back self.old id }
    {
        if let Some(at) = self.places.get(id) {
            self.take_back_at(at);
        }
    }

    fn end_at(&mut self, at: usize)
        ensures { self.new ≡ ended_at self.old at }
    {
        if at < self.list.len() {
            self.list[at].stage = RestartStage::Ended;
            self.ending = Some(at);
        }
    }

    /// Its Ended record waits in the log buffer.
    pub fn end(&mut self, id: Lrsn)
        ensures { self.new ≡ after_end self.old id }
    {
        if let Some(at) = self.places.get(id) {
            self.end_at(at);
        }
    }

    fn finish_at(&mut self, at: usize)
        ensures { self.new ≡ over_at self.old at }
    {
        self.ending = None;
        if at < self.list.len() {
            self.list[at].stage = RestartStage::Over;
            self.left = self.left.saturating_sub(1);
        }
    }

    /// The log buffer stands in the log.
    pub fn finish(&mut self)
        ensures { self.new ≡ after_finish self.old }
    {
        if let Some(at) = self.ending {
            self.finish_at(at);
        }
    }

    /// The transaction whose Ended record waits in the log buffer.
    pub fn ending(&self) -> Option<&RestartTran>
        ensures { option_copied result ≡ ending_in self.now }
    {
        match self.ending {
            Some(at) => self.list.get(at),
            None => None,
        }
    }
}
