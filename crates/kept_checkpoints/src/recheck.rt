//! What a second reading of a log finds, of which the first has told the offsets of its Checkpoints and its open row changes.

ghost use Rattle.std.specs.Prelude.{◌≡◌, OnOk, IfOk};
ghost use Rattle.kept_checkpoints.specs.Recheck.{met_with, settled_with, rechecked, begun, fits_now, is_unended_in, needs_left, RecheckTells, NeedsAreLeft};

use crate::needs::{Need, needs_with};
use crate::offsets::{fits_among, place_number};
use crate::scan::LogScan;
use ds_base::{Lrsn, NoMemory, Sequence};
use ds_model::{Body, LogRecord};
use number_map::NumberMap;
use std::alloc::Global;

/// What is known of a log that is read again, behind its first records.
#[derive(Drop)]
pub struct Recheck {
    /// From there on the log is read again by a restart.
    pub start: u64,
    /// The offsets of the Checkpoints.
    pub offsets: NumberMap<bool>,
    /// Those of them at which a record begins, so far.
    pub met: NumberMap<bool>,
    /// The transactions with row changes that are neither committed nor taken back: behind the last record exactly those.
    pub changes: NumberMap<Sequence<Lrsn>>,
}

fn meet(offsets: &NumberMap<bool>, met: &mut NumberMap<bool>, at: u64) -> Result<(), NoMemory>
    ensures { OnOk result (met.new ≡ met_with offsets.now met.old at) }
{
    let place = place_number(at);
    if offsets.get(place).is_some() {
        met.put(place, true)?;
    }
    Ok(())
}

// A row change may stand behind the Commit of its transaction.
fn settle(changes: &mut NumberMap<Sequence<Lrsn>>, it: &LogRecord)
    ensures { changes.new ≡ settled_with changes.old it.now.tran it.now.body }
{
    match &it.body {
        Body::Commit => {
            changes.take(it.tran);
        }
        Body::RowChange { .. }
        | Body::Compensation { .. }
        | Body::System { .. }
        | Body::Ended
        | Body::Checkpoint { .. }
        | Body::RestartEnd => {}
    }
}

fn is_unended_in(changes: &NumberMap<Sequence<Lrsn>>, it: &LogRecord) -> bool
    ensures { result ≡ is_unended_in changes.now it.now }
{
    it.tran.number() != 0 && changes.get(it.tran).is_some()
}

impl Recheck {
    /// Before the first record of the log of which this was found.
    pub fn new(alloc: Global, scan: LogScan) -> Recheck
        ensures { result ≡ begun scan }
    {
        let LogScan {
            start,
            offsets,
            changes,
            ..
        } = scan;
        Recheck {
            start,
            offsets,
            met: NumberMap::new(alloc),
            changes,
        }
    }

    /// Takes in the next record, which begins at this place.
    pub fn enter(&mut self, at: u64, it: &LogRecord) -> Result<(), NoMemory>
        ensures { OnOk result (self.new ≡ rechecked self.old at it.now) }
    {
        meet(&self.offsets, &mut self.met, at)?;
        settle(&mut self.changes, it);
        Ok(())
    }

    /// Whether the record that was taken in last is no Checkpoint, or its offset is the place of a record so far.
    pub fn fits(&self, it: &LogRecord) -> bool
        ensures { result ≡ fits_now self.now it.now }
    {
        fits_among(&self.met, &it.body)
    }

    /// What the record, which begins at this place, needs of pages if a restart doesn't read it again.
    pub fn needs(&self, alloc: Global, at: u64, it: &LogRecord) -> Result<Sequence<Need>, NoMemory>
        ensures { IfOk result (λ needs. needs ≡ needs_left self.now.changes self.now.start at it.now) }
    {
        if at >= self.start {
            return Ok(Sequence::new(alloc));
        }
        needs_with(alloc, it, is_unended_in(&self.changes, it))
    }
}

/// A second reading tells exactly which Checkpoint is the first whose offset may not stand there, and, where the records of
/// transactions fit each other, what the records need of pages that a restart doesn't read again. The function does nothing: it is
/// called where its facts are needed.
pub fn recheck_laws()
    ensures tells { RecheckTells }
    ensures needs { NeedsAreLeft }
{}
